//! The lines of faults of types. `types` are the types of the program, by which types are named,
//! and `at` is a byte of the file, counted from 0. Every error is want of memory.

ghost use Rattle.std.specs.Prelude.{◌≡◌, IfOk};
ghost use Rattle.rb_lines.specs.FileLines as line;

use crate::line::{begin, end};
use rb_core::text::{push, push_name, push_number, push_type};
use rb_core::types::{DataDecl, Ty};
use std::alloc::{AllocError, Global};

/// The line of the type with this number, which has no value.
///
/// # Errors
///
/// Want of memory.
pub fn empty(alloc: Global, types: &[DataDecl], ty: u32) -> Result<Vec<u8>, AllocError>
    ensures { IfOk result (λ text. text.items ≡ line.empty_line types.now ty) }
{
    let mut text = begin(alloc, b"type ")?;
    push_name(&mut text, types, ty)?;
    push(&mut text, b" has no value")?;
    end(text)
}

/// The line of another type than was wanted, at a byte.
///
/// # Errors
///
/// Want of memory.
pub fn mismatch(
    alloc: Global,
    types: &[DataDecl],
    wanted: Ty,
    found: Ty,
    at: u64,
) -> Result<Vec<u8>, AllocError>
    ensures { IfOk result (λ text. text.items ≡ line.mismatch_line types.now wanted found at) }
{
    let mut text = begin(alloc, b"wanted ")?;
    push_type(&mut text, types, wanted)?;
    push(&mut text, b", found ")?;
    push_type(&mut text, types, found)?;
    push(&mut text, b" at byte ")?;
    push_number(&mut text, at)?;
    end(text)
}

/// The line of another number of parts than was wanted, at a byte: of arguments, as the line calls
/// them, or of fields.
///
/// # Errors
///
/// Want of memory.
pub fn arity(alloc: Global, wanted: u64, found: u64, at: u64) -> Result<Vec<u8>, AllocError>
    ensures { IfOk result (λ text. text.items ≡ line.arity_line wanted found at) }
{
    let line = format!(in alloc;
        "ribbit: wanted {wanted} arguments, found {found} at byte {at}\n"
    )?;
    Ok(line.into_bytes())
}
