//! Notes on clauses that no value reaches.
//!
//! A note has the number of a clause in its match, and the number of the token at which the match
//! begins. `placed` are the tokens of the file, each with the byte at which it begins, and `length`
//! is how many bytes the file has. Every error is want of memory.

ghost use Rattle.std.specs.Prelude.{◌≡◌, ◌++◌, IfOk, OnOk};
ghost use Rattle.std.specs.List.{flat_map};
ghost use Rattle.rb_lines.specs.FileLines as line;
ghost use Rattle.rb_lines.specs.Notes.{check_text, note_text};

use crate::place::byte_of;
use rb_core::program::Note;
use rb_core::text::push;
use rb_syntax::token::Placed;
use std::alloc::{AllocError, Global};

// The line of a clause that no value reaches, in the match at byte `at`. Clauses are counted from
// 0.
fn note(alloc: Global, clause: u64, at: u64) -> Result<Vec<u8>, AllocError>
    ensures { IfOk result (λ text. text.items ≡ line.note_line clause at) }
{
    let line = format!(in alloc;
        "note: clause {clause} of the match at byte {at} is never reached\n"
    )?;
    Ok(line.into_bytes())
}

// The text with the line of a note behind it.
fn push_note(
    alloc: Global,
    text: &mut Vec<u8>,
    placed: &[Placed],
    length: usize,
    unreached: Note,
) -> Result<(), AllocError>
    ensures { OnOk result (text.new.items ≡ text.old.items ++ note_text placed.now length unreached) }
{
    let at = byte_of(placed, length, unreached.at);
    let line = note(alloc, unreached.clause as u64, at)?;
    push(text, line.as_slice())?;
    Ok(())
}

// The text with a line for each note behind it, in their order.
fn push_notes(
    alloc: Global,
    text: &mut Vec<u8>,
    placed: &[Placed],
    length: usize,
    notes: &[Note],
) -> Result<(), AllocError>
    ensures { OnOk result (text.new.items ≡ text.old.items ++ flat_map (note_text placed.now length) notes.now) }
{
    for unreached in notes {
        push_note(alloc, text, placed, length, *unreached)?;
    }
    Ok(())
}

/// What `check` prints of an accepted file: a line for each note, and then the line `ok`.
///
/// # Errors
///
/// Want of memory.
pub fn check_output(
    alloc: Global,
    placed: &[Placed],
    length: usize,
    notes: &[Note],
) -> Result<Vec<u8>, AllocError>
    ensures { IfOk result (λ text. text.items ≡ check_text placed.now length notes.now) }
{
    let mut text = Vec::new(alloc);
    push_notes(alloc, &mut text, placed, length, notes)?;
    push(&mut text, b"ok\n")?;
    Ok(text)
}
