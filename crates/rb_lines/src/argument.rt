//! The lines of arguments that are refused. Arguments are counted from 1, and `number` is that of
//! the argument at fault. The nodes of a value are its numbers and constructors, inner ones among
//! them. Bytes, `at`, are counted from 0 in the argument. `types` are the types of the program.
//! Every error is want of memory.

ghost use Rattle.std.specs.Prelude.{◌≡◌, IfOk};
ghost use Rattle.rb_lines.specs.ArgumentLines as spec;
ghost use Rattle.rb_lines.specs.ArgumentLines.{argument_begun, argument_line};

use crate::line::{NO_MEMORY, end};
use rb_core::text::{push, push_number, push_type};
use rb_core::types::{DataDecl, Ty};
use rb_values::fault::ValueFault;
use std::alloc::{AllocError, Global};

/// The most nodes of an argument, and of a value that is shown.
pub const NODES: u64 = 1_000_000;

// The beginning of a line that says what is wrong with the argument of this number.
fn begin_argument(alloc: Global, number: u64) -> Result<Vec<u8>, AllocError>
    ensures { IfOk result (λ text. text.items ≡ argument_begun number) }
{
    Ok(format!(in alloc; "ribbit: argument {number}: ")?.into_bytes())
}

// The line of an argument that spells no value: the byte at which none goes on.
fn syntax(alloc: Global, number: u64, at: u64) -> Result<Vec<u8>, AllocError>
    ensures { IfOk result (λ text. text.items ≡ spec.syntax_line number at) }
{
    Ok(format!(in alloc; "ribbit: argument {number}: syntax at byte {at}\n")?.into_bytes())
}

// The line of an argument with too many nodes.
fn large(alloc: Global, number: u64) -> Result<Vec<u8>, AllocError>
    ensures { IfOk result (λ text. text.items ≡ spec.large_argument_line number) }
{
    Ok(format!(in alloc; "ribbit: argument {number}: over {NODES} nodes\n")?.into_bytes())
}

// The line of an argument that is a value, but none of its type; the byte is that of what does not
// fit.
fn misfit(
    alloc: Global,
    types: &[DataDecl],
    number: u64,
    ty: Ty,
    at: u64,
) -> Result<Vec<u8>, AllocError>
    ensures { IfOk result (λ text. text.items ≡ spec.misfit_line types.now number ty at) }
{
    let mut text = begin_argument(alloc, number)?;
    push(&mut text, b"no value of ")?;
    push_type(&mut text, types, ty)?;
    push(&mut text, b" at byte ")?;
    push_number(&mut text, at)?;
    end(text)
}

/// The line of an argument of this number that is no value of type `ty`, by the fault that was
/// found; the line of want of memory where that is the fault.
///
/// # Errors
///
/// Want of memory.
pub fn argument(
    alloc: Global,
    types: &[DataDecl],
    number: u64,
    ty: Ty,
    fault: &ValueFault,
) -> Result<Vec<u8>, AllocError>
    ensures { IfOk result (λ text. text.items ≡ argument_line types.now number ty fault.now) }
{
    match fault {
        ValueFault::ValueSyntax(at) => syntax(alloc, number, *at as u64),
        ValueFault::ValueTooLarge => large(alloc, number),
        ValueFault::ValueType(at) => misfit(alloc, types, number, ty, *at as u64),
        ValueFault::Memory => Vec::from_slice(alloc, NO_MEMORY),
    }
}
