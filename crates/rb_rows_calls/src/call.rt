//! Calls of the program, with a file in memory, and its answers as text.

use crate::surprise::{Surprise, another};
use rb_edge::{CountLedger, MemSink, MemSource, NamedBytes, Seq, Steps, Words};
use ribbit_tool::top::ribbit;
use std::alloc::{AllocError, Global};

// The most bytes that the output takes.
const ROOM: usize = 262_144;

/// What a call of `ribbit` did.
#[derive(Drop)]
pub struct Did {
    pub status: u8,
    pub out: Vec<u8>,
    pub err: Vec<u8>,
    pub steps: u128,
}

// A list of these items.
fn list<T: Copy>(alloc: Global, items: &[T]) -> Result<Seq<T>, AllocError> {
    Ok(Seq::from_vec(Vec::from_slice(alloc, items)?))
}

// The words between blanks; `''` is one without bytes.
fn words_of(alloc: Global, text: &str) -> Result<Words, AllocError> {
    let mut words = Words::new(alloc);
    for word in text.split(' ') {
        if word == "''" {
            words.push(b"")?;
        } else if !word.is_empty() {
            words.push(word.as_bytes())?;
        }
    }
    Ok(words)
}

/// A source that holds bytes under these names, gives so many bytes a read at most, and fails at the calls of these
/// numbers.
///
/// # Errors
///
/// Want of memory.
pub fn source_of(
    alloc: Global,
    held: &[(&str, &[u8])],
    step: usize,
    fails: &[u64],
) -> Result<MemSource, AllocError> {
    let mut files = Seq::new(alloc);
    for (name, bytes) in held {
        files.push(NamedBytes {
            name: list(alloc, name.as_bytes())?,
            bytes: list(alloc, bytes)?,
        })?;
    }
    Ok(MemSource::new(files, step.max(1), list(alloc, fails)?))
}

/// A sink that takes so many bytes, so many a write at most, and fails at the calls of these numbers.
///
/// # Errors
///
/// Want of memory.
pub fn sink_of(
    alloc: Global,
    room: usize,
    step: usize,
    fails: &[u64],
) -> Result<MemSink, AllocError> {
    MemSink::new(alloc, room, step.max(1), list(alloc, fails)?)
}

/// Calls `ribbit` on words with blanks between them, over a source, an output, and a sink for what is told of faults.
///
/// # Errors
///
/// Want of memory.
pub fn call_with(
    alloc: Global,
    words: &str,
    mut src: MemSource,
    mut out: MemSink,
    mut err: MemSink,
) -> Result<Did, AllocError> {
    let given = words_of(alloc, words)?;
    let mut steps = Steps::new(CountLedger { count: 0 });
    let status = ribbit(alloc, &given, &mut src, &mut out, &mut err, &mut steps);
    Ok(Did {
        status,
        out: Vec::from_slice(alloc, out.bytes())?,
        err: Vec::from_slice(alloc, err.bytes())?,
        steps: steps.ledger().count,
    })
}

/// Calls `ribbit` on words with blanks between them, over files with these names. The source gives ten bytes
/// a read, the output takes one a write, and the calls of these numbers fail.
///
/// # Errors
///
/// Want of memory.
pub fn call_over(
    alloc: Global,
    words: &str,
    held: &[(&str, &[u8])],
    source_fails: &[u64],
    output_fails: &[u64],
) -> Result<Did, AllocError> {
    let src = source_of(alloc, held, 10, source_fails)?;
    let out = sink_of(alloc, ROOM, 1, output_fails)?;
    let err = sink_of(alloc, 1000, 7, &[])?;
    call_with(alloc, words, src, out, err)
}

/// Calls `ribbit` so, over the one file `E`.
///
/// # Errors
///
/// Want of memory.
pub fn call(
    alloc: Global,
    words: &str,
    file: &[u8],
    source_fails: &[u64],
    output_fails: &[u64],
) -> Result<Did, AllocError> {
    call_over(alloc, words, &[("E", file)], source_fails, output_fails)
}

/// A text in which each `;` ends a line.
///
/// # Errors
///
/// Want of memory.
pub fn lines(alloc: Global, row: &str) -> Result<Vec<u8>, AllocError> {
    let mut text = Vec::new(alloc);
    for byte in row.as_bytes() {
        text.push(if *byte == b';' { b'\n' } else { *byte })?;
    }
    Ok(text)
}

// Adds a text, with a `;` where a line ends.
fn push_lines(answer: &mut Vec<u8>, text: &[u8]) -> Result<(), AllocError> {
    for byte in text {
        answer.push(if *byte == b'\n' { b';' } else { *byte })?;
    }
    Ok(())
}

/// What these words answer to files: the status, and what was written, in which each line ends with a `;`.
///
/// # Errors
///
/// Want of memory.
pub fn answer_over(
    alloc: Global,
    words: &str,
    held: &[(&str, &[u8])],
) -> Result<Vec<u8>, AllocError> {
    let did = call_over(alloc, words, held, &[], &[])?;
    let status = did.status;
    let mut answer = Vec::from_slice(alloc, format!(in alloc; "{status} ")?.as_bytes())?;
    push_lines(&mut answer, did.out.as_slice())?;
    push_lines(&mut answer, did.err.as_slice())?;
    Ok(answer)
}

/// What these words answer so to the one file `E`.
///
/// # Errors
///
/// Want of memory.
pub fn answer(alloc: Global, words: &str, file: &[u8]) -> Result<Vec<u8>, AllocError> {
    answer_over(alloc, words, &[("E", file)])
}

/// Looks whether files have this answer: the status, and what is written, in which each line ends with a `;`.
///
/// # Errors
///
/// Another answer, or want of memory.
pub fn expect_answer_over(
    alloc: Global,
    words: &str,
    held: &[(&str, &[u8])],
    wanted: &str,
) -> Result<(), Surprise> {
    let answer = answer_over(alloc, words, held)?;
    if answer.as_slice() == wanted.as_bytes() {
        return Ok(());
    }
    another(alloc, words, answer.as_slice(), wanted.as_bytes())
}

/// Looks whether the one file `E` has this answer.
///
/// # Errors
///
/// Another answer, or want of memory.
pub fn expect_answer(
    alloc: Global,
    words: &str,
    file: &[u8],
    wanted: &str,
) -> Result<(), Surprise> {
    expect_answer_over(alloc, words, &[("E", file)], wanted)
}

/// A text, so many times another, and a text.
///
/// # Errors
///
/// Want of memory.
pub fn repeated_text(
    alloc: Global,
    before: &str,
    part: &str,
    times: usize,
    behind: &str,
) -> Result<String, AllocError> {
    let mut text = String::new(alloc);
    text.push_str(before)?;
    for _ in 0..times {
        text.push_str(part)?;
    }
    text.push_str(behind)?;
    Ok(text)
}
