//! What reading a text gives, and texts with their answers in them.
//!
//! In a row, `~` stands before the byte at which no value goes on, and `!` before the first node that
//! does not fit its type. A row without a mark is printed as it stands.

use crate::values::types::types;
use rb_core::types::{DataDecl, Ty};
use rb_values::fault::ValueFault;
use rb_values::forest::Forest;
use rb_values::print::print_value;
use rb_values::read::read_value;
use std::alloc::{AllocError, Global};
use std::process::Abort;

/// What reading a text gives, places by their bytes.
#[derive(Clone, Copy, PartialEq, Eq)]
pub enum Found {
    Value,
    Syntax(usize),
    TooLarge,
    Misfit(usize),
    /// Want of memory, or a value with another text.
    Other,
}

// What is found where a value is read: whether it is printed as this text.
fn reprint(
    alloc: Global,
    types: &[DataDecl],
    ty: Ty,
    value: &Forest,
    printed: &[u8],
) -> Result<Found, AllocError> {
    let text = print_value(alloc, types, ty, value)?;
    if text.as_slice() == printed {
        Ok(Found::Value)
    } else {
        Ok(Found::Other)
    }
}

/// Reads a text at a type, and prints what is read: whether it has this text.
///
/// # Errors
///
/// Want of memory.
pub fn outcome(
    alloc: Global,
    ty: Ty,
    text: &[u8],
    limit: u64,
    printed: &[u8],
) -> Result<Found, AllocError> {
    let types = types(alloc)?;
    match read_value(alloc, types.as_slice(), ty, text, limit) {
        Ok(value) => reprint(alloc, types.as_slice(), ty, &value, printed),
        Err(ValueFault::ValueSyntax(at)) => Ok(Found::Syntax(at)),
        Err(ValueFault::ValueTooLarge) => Ok(Found::TooLarge),
        Err(ValueFault::ValueType(at)) => Ok(Found::Misfit(at)),
        Err(ValueFault::Memory) => Ok(Found::Other),
    }
}

// A row without its mark, and the answer that the mark gives.
fn split_at_mark(alloc: Global, row: &[u8]) -> Result<(Vec<u8>, Found), AllocError> {
    let mut text = Vec::new(alloc);
    let mut wanted = Found::Value;
    for byte in row {
        match *byte {
            b'~' => wanted = Found::Syntax(text.len()),
            b'!' => wanted = Found::Misfit(text.len()),
            byte => text.push(byte)?,
        }
    }
    Ok((text, wanted))
}

// Whether a row without its mark has the answer that its mark gives.
fn is_due(alloc: Global, ty: Ty, row: &[u8]) -> Result<bool, AllocError> {
    let (text, wanted) = split_at_mark(alloc, row)?;
    Ok(outcome(alloc, ty, text.as_slice(), 1000, text.as_slice())? == wanted)
}

/// Checks each line of a table.
///
/// # Errors
///
/// Want of memory; another answer ends the test.
pub fn expect_each(rt: &impl Abort, alloc: Global, ty: Ty, rows: &str) -> Result<(), AllocError> {
    for row in rows.split('\n') {
        assert!(rt; is_due(alloc, ty, row.as_bytes())?, "{row}");
    }
    Ok(())
}
