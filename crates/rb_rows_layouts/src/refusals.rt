//! What `check` answers to files of layouts, to each of which a `main` is added.

use rb_rows_calls::call::{answer, expect_answer};
use rb_rows_calls::surprise::{Surprise, another, no_row};
use std::alloc::Global;

/// Looks whether files are refused, each for its reason. Each line of the table is a file, a `~`, and the reason. A line
/// that begins with a `#` says something of those below it.
///
/// # Errors
///
/// Another answer, a line without a `~`, or want of memory.
pub fn expect_refused(alloc: Global, table: &str) -> Result<(), Surprise> {
    for line in table.split('\n') {
        expect_line(alloc, line)?;
    }
    Ok(())
}

// Looks whether the file of a line is refused for its reason.
fn expect_line(alloc: Global, line: &str) -> Result<(), Surprise> {
    if line.starts_with('#') {
        return Ok(());
    }
    let Some((file, reason)) = line.split_once('~') else {
        return no_row(alloc, line);
    };
    expect_refusal(alloc, file, reason)
}

/// Looks whether a file is refused for this reason.
///
/// # Errors
///
/// Another answer, or want of memory.
pub fn expect_refusal(alloc: Global, file: &str, reason: &str) -> Result<(), Surprise> {
    let file = format!(in alloc; "{file} fun main(): u8 = 0;")?;
    let wanted = format!(in alloc; "3 ribbit: layout of {reason};")?;
    expect_answer(alloc, "check E", file.as_bytes(), wanted.as_str())
}

/// A file, and two reasons.
pub type Either<'a> = (&'a str, &'a str, &'a str);

/// Looks whether files are refused, each for one of its reasons.
///
/// # Errors
///
/// Another answer, or want of memory.
pub fn expect_either(alloc: Global, rows: &[Either]) -> Result<(), Surprise> {
    for (file, one, other) in rows {
        let file = format!(in alloc; "{file} fun main(): u8 = 0;")?;
        let answer = answer(alloc, "check E", file.as_bytes())?;
        let one = format!(in alloc; "3 ribbit: layout of {one};")?;
        let other = format!(in alloc; "3 ribbit: layout of {other};")?;
        if answer.as_slice() != one.as_bytes() && answer.as_slice() != other.as_bytes() {
            another(alloc, "check E", answer.as_slice(), one.as_bytes())?;
        }
    }
    Ok(())
}

/// Looks whether a file is accepted.
///
/// # Errors
///
/// Another answer, or want of memory.
pub fn expect_agreed(alloc: Global, file: &str) -> Result<(), Surprise> {
    let file = format!(in alloc; "{file} fun main(): u8 = 0;")?;
    expect_answer(alloc, "check E", file.as_bytes(), "0 ok;")
}
