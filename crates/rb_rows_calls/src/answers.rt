//! Whole answers of calls, of which parts of the outside may fail.

use crate::call::{Did, call};
use crate::surprise::{Surprise, text_of};
use std::alloc::Global;

/// What a call is to answer.
#[derive(Clone, Copy)]
pub struct Answer<'a> {
    pub status: u8,
    pub out: &'a [u8],
    pub err: &'a [u8],
    /// None where any number is right.
    pub steps: Option<u128>,
}

/// Looks whether a call of these words did just that.
///
/// # Errors
///
/// Another answer, or want of memory.
pub fn expect_did(alloc: Global, words: &str, did: &Did, wanted: &Answer) -> Result<(), Surprise> {
    let steps = did.steps;
    let is_right = did.status == wanted.status
        && did.out.as_slice() == wanted.out
        && did.err.as_slice() == wanted.err
        && steps == wanted.steps.unwrap_or(steps);
    if is_right {
        return Ok(());
    }
    let status = did.status;
    let out = text_of(alloc, did.out.as_slice())?;
    let err = text_of(alloc, did.err.as_slice())?;
    let text = format!(in alloc; "{words}: {status} {out}{err}{steps} steps")?;
    Err(Surprise::Answer(text))
}

/// Words, the file `E`, the numbers of the calls of its source and of its output that fail, and the answer.
pub type Faulty<'a> = (&'a str, &'a [u8], &'a [u64], &'a [u64], Answer<'a>);

/// Looks at each row so.
///
/// # Errors
///
/// Another answer, or want of memory.
pub fn expect_faulty(alloc: Global, rows: &[Faulty]) -> Result<(), Surprise> {
    for (words, file, source, output, wanted) in rows {
        let did = call(alloc, words, file, source, output)?;
        expect_did(alloc, words, &did, wanted)?;
    }
    Ok(())
}
