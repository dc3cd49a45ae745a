//! Calls of the program with an outside that fails, and what they are to do.

use rb_edge::MemSink;
use rb_rows_calls::answers::{Answer, expect_did};
use rb_rows_calls::call::{Did, call_with, sink_of, source_of};
use rb_rows_calls::surprise::Surprise;
use std::alloc::{AllocError, Global};

/// The source or a sink of a call: how many bytes go over at once, how many a sink takes in all, and the
/// number of the call that fails.
#[derive(Clone, Copy)]
pub struct Side {
    pub step: usize,
    pub room: usize,
    pub fails: Option<u64>,
}

/// The source and the sinks of a call.
#[derive(Clone, Copy)]
pub struct Outside {
    pub source: Side,
    pub out: Side,
    pub err: Side,
}

/// What is held under the names `E` and `I`.
#[derive(Clone, Copy)]
pub struct Held<'a> {
    pub file: &'a [u8],
    pub image: &'a [u8],
}

/// A file, and an empty image.
pub fn alone(file: &[u8]) -> Held<'_> {
    Held { file, image: b"" }
}

// More than a call of these rows writes.
const ROOM: usize = 10_000;

/// Nothing fails.
pub const EASY: Side = Side {
    step: 10,
    room: ROOM,
    fails: None,
};

/// A side on which the call with this number, from 0 on, fails, and no other; each moves at most `step`
/// bytes.
pub fn failing_side(step: usize, call: u64) -> Side {
    Side {
        step,
        room: ROOM,
        fails: Some(call),
    }
}

/// A side that takes no more than `room` bytes, and on which no call fails; each moves at most `step`
/// bytes.
pub fn bounded_side(step: usize, room: usize) -> Side {
    Side {
        step,
        room,
        fails: None,
    }
}

/// Nothing fails.
pub const NOTHING_FAILS: Outside = Outside {
    source: EASY,
    out: EASY,
    err: EASY,
};

// The sink of a side.
fn sink(alloc: Global, side: Side) -> Result<MemSink, AllocError> {
    match side.fails {
        None => sink_of(alloc, side.room, side.step, &[]),
        Some(call) => sink_of(alloc, side.room, side.step, &[call]),
    }
}

/// What a call of `ribbit` does on words with blanks between them, where `E` and `I` hold what `held`
/// says and the source and both sinks are those of `outside`.
///
/// # Errors
///
/// Want of memory.
pub fn call(alloc: Global, words: &str, held: Held, outside: Outside) -> Result<Did, AllocError> {
    let files = [("E", held.file), ("I", held.image)];
    let side = outside.source;
    let src = match side.fails {
        None => source_of(alloc, &files, side.step, &[])?,
        Some(call) => source_of(alloc, &files, side.step, &[call])?,
    };
    let out = sink(alloc, outside.out)?;
    let err = sink(alloc, outside.err)?;
    call_with(alloc, words, src, out, err)
}

/// Looks whether a call answers so, and gives its steps.
///
/// # Errors
///
/// Another answer, or want of memory.
pub fn expect(
    alloc: Global,
    words: &str,
    held: Held,
    outside: Outside,
    wanted: Answer,
) -> Result<u128, Surprise> {
    let did = call(alloc, words, held, outside)?;
    expect_did(alloc, words, &did, &wanted)?;
    Ok(did.steps)
}
