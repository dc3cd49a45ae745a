//! What reading a text gives, and texts with their answers in them.
//!
//! In a row, `~` stands before the first token at which no file goes on, and `!` before the first that
//! begins a node too deep. A row without a mark is a file.

use crate::same::are_same;
use rb_read::fault::{Quantity, ReadFault};
use rb_read::read::read_file;
use rb_syntax::lex::lex;
use rb_syntax::spell::spell_file;
use rb_syntax::token::Placed;
use rb_syntax::tree::FileTree;
use std::alloc::{AllocError, Global};
use std::process::Abort;
use std::test::Fail;

/// What reading a text gives, places by their bytes.
#[derive(Clone, Copy, PartialEq, Eq)]
pub enum Found {
    File,
    TooDeep(usize),
    Syntax(usize),
    Limit(Quantity, u64),
    /// Want of memory, or another file than the text's.
    Other,
}

// The byte at which a token stands; behind the last one, that of the text's end.
fn byte_of(placed: &[Placed], at: u32, end: usize) -> usize {
    match placed.get(at as usize) {
        Some(placed) => placed.at,
        None => end,
    }
}

// What a fault is, its place by the byte.
fn place_of(fault: &ReadFault, placed: &[Placed], end: usize) -> Found {
    match fault {
        ReadFault::TooDeep(at) => Found::TooDeep(byte_of(placed, *at, end)),
        ReadFault::Syntax(at) => Found::Syntax(byte_of(placed, *at, end)),
        ReadFault::Limit(quantity, count) => Found::Limit(*quantity, *count),
        ReadFault::Memory => Found::Other,
    }
}

// What is found where a file is read: whether it is spelled as these tokens.
fn spelling(alloc: Global, file: &FileTree, placed: &[Placed]) -> Result<Found, AllocError> {
    let tokens = spell_file(alloc, file)?;
    if are_same(tokens.as_slice(), placed) {
        Ok(Found::File)
    } else {
        Ok(Found::Other)
    }
}

/// Reads the text, and spells what is read.
///
/// # Errors
///
/// Want of memory.
pub fn outcome(alloc: Global, text: &[u8]) -> Result<Found, Fail> {
    let placed = lex(alloc, text)?;
    if placed.len() >= 1 << 32 {
        return Ok(Found::Other);
    }
    match read_file(alloc, placed.as_slice()) {
        Ok(file) => Ok(spelling(alloc, &file, placed.as_slice())?),
        Err(fault) => Ok(place_of(&fault, placed.as_slice(), text.len())),
    }
}

/// The front, so many parts, and the back.
///
/// # Errors
///
/// Want of memory.
pub fn repeated_part(
    alloc: Global,
    front: &[u8],
    part: &[u8],
    count: usize,
    back: &[u8],
) -> Result<Vec<u8>, AllocError> {
    let mut text = Vec::from_slice(alloc, front)?;
    for _turn in 0..count {
        text.extend_from_slice(part)?;
    }
    text.extend_from_slice(back)?;
    Ok(text)
}

// A row without its mark, and the answer that the mark gives.
fn split_at_mark(alloc: Global, row: &[u8]) -> Result<(Vec<u8>, Found), AllocError> {
    let mut text = Vec::new(alloc);
    let mut wanted = Found::File;
    for byte in row {
        match *byte {
            b'~' => wanted = Found::Syntax(text.len()),
            b'!' => wanted = Found::TooDeep(text.len()),
            byte => text.push(byte)?,
        }
    }
    Ok((text, wanted))
}

/// Checks that a row without its mark has the answer that its mark gives.
///
/// # Errors
///
/// Want of memory; another answer ends the test.
pub fn expect(rt: &impl Abort, alloc: Global, row: &[u8]) -> Result<(), Fail> {
    let (text, wanted) = split_at_mark(alloc, row)?;
    let found = outcome(alloc, text.as_slice())?;
    assert!(rt; found == wanted, "{row:?}");
    Ok(())
}

/// Checks each line of a table.
///
/// # Errors
///
/// Want of memory; another answer ends the test.
pub fn expect_each(rt: &impl Abort, alloc: Global, rows: &str) -> Result<(), Fail> {
    for row in rows.split('\n') {
        expect(rt, alloc, row.as_bytes())?;
    }
    Ok(())
}
