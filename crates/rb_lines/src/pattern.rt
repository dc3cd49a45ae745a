//! The line of a match that misses a value.

ghost use Rattle.std.specs.Prelude.{◌≡◌, IfOk};
ghost use Rattle.rb_lines.specs.FileLines as line;

use crate::line::{begin, end};
use rb_core::pattern::Pat;
use rb_core::pattern_text::push_pattern;
use rb_core::text::{push, push_number};
use rb_core::types::DataDecl;
use std::alloc::{AllocError, Global};

/// The line of the match at byte `at` of the file, which misses the values of a pattern; `types`
/// are the types of the program, by which constructors are named.
///
/// # Errors
///
/// Want of memory.
pub fn missing_values(
    alloc: Global,
    types: &[DataDecl],
    pat: &Pat,
    at: u64,
) -> Result<Vec<u8>, AllocError>
    ensures { IfOk result (λ text. text.items ≡ line.missing_line types.now pat.now at) }
{
    let mut text = begin(alloc, b"match at byte ")?;
    push_number(&mut text, at)?;
    push(&mut text, b" misses ")?;
    push_pattern(&mut text, types, pat)?;
    end(text)
}
