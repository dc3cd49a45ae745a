//! The lines of derived layouts that are refused.
//!
//! A derived layout is made from its type by the compiler; `packed` puts each value into at most 64
//! bits. `types` are the types of the program, and `ty` is the number of the one at fault. Every
//! error is want of memory.

ghost use Rattle.std.specs.Prelude.{◌≡◌, IfOk};
ghost use Rattle.rb_lines.specs.FileLines as line;

use crate::line::{begin, end};
use rb_core::text::{push, push_name, push_number};
use rb_core::types::DataDecl;
use std::alloc::{AllocError, Global};

/// The line of a packed type that reaches itself through its fields.
///
/// # Errors
///
/// Want of memory.
pub fn recursive(alloc: Global, types: &[DataDecl], ty: u32) -> Result<Vec<u8>, AllocError>
    ensures { IfOk result (λ text. text.items ≡ line.recursive_line types.now ty) }
{
    let mut text = begin(alloc, b"layout of ")?;
    push_name(&mut text, types, ty)?;
    push(&mut text, b": packed: recursive")?;
    end(text)
}

/// The line of a packed type that needs so many bits.
///
/// # Errors
///
/// Want of memory.
pub fn wide(alloc: Global, types: &[DataDecl], ty: u32, bits: u64) -> Result<Vec<u8>, AllocError>
    ensures { IfOk result (λ text. text.items ≡ line.wide_line types.now ty bits) }
{
    let mut text = begin(alloc, b"layout of ")?;
    push_name(&mut text, types, ty)?;
    push(&mut text, b": packed: ")?;
    push_number(&mut text, bits)?;
    push(&mut text, b" bits")?;
    end(text)
}
