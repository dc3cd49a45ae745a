//! Whole code texts, read from the first byte to the last.

ghost use Rattle.std.specs.Prelude.{◌≡◌, List, IfOk};
ghost use Rattle.rb_target.specs.Stopping.{IsTextOf};
ghost use Rattle.rb_target.specs.inner.Reading.{IsCodeReading, IsRun};

use super::step::Reader;
use crate::code::CodeFun;
use crate::fault::CodeFault;
use rb_core::seq::Seq;
use std::alloc::Global;

// The reader behind all bytes; else the number of the first byte that it refuses, or want of
// memory.
fn read_bytes(alloc: Global, bytes: &[u8]) -> Result<Reader, CodeFault>
    ensures { IsRun bytes.now result }
{
    let mut reader = Reader::new(alloc);
    for at in 0..bytes.len() {
        if !reader.feed(bytes[at])? {
            return Err(CodeFault::CodeSyntax(at));
        }
    }
    Ok(reader)
}

/// The functions whose text the bytes are, valid together or not.
///
/// # Errors
///
/// The byte at which no text goes on, the length where the end is missing; want of memory.
pub fn read_text(alloc: Global, bytes: &[u8]) -> Result<Seq<CodeFun>, CodeFault>
    ensures reading { IsCodeReading bytes.now result }
    ensures only { (funs : List CodeFun) → IsTextOf bytes.now funs → IfOk result (λ read. read ≡ funs) }
{
    let reader = read_bytes(alloc, bytes)?;
    if !reader.is_done() {
        return Err(CodeFault::CodeSyntax(bytes.len()));
    }
    Ok(reader.into_funs())
}
