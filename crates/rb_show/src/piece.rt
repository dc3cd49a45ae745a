//! The lines of the pieces of a word: its parts, and the ranges of its bits that no part holds,
//! which are free.
//!
//! A part holds `l` bits of its word from bit `o` on. A path leads to a field: the number of a
//! field, of a field in that one, and so on. Lines are added at the end of `text`. Every error is
//! want of memory.

ghost use Rattle.std.specs.Prelude.{◌≡◌, ◌++◌, ◌<◌, OnOk};
ghost use Rattle.std.specs.List.{flat_map};
ghost use Rattle.rb_show.specs.Lines.{kind_text, path_text, piece_line, piece_lines};
ghost use Rattle.rb_show.specs.Pieces.{Held, Free, held_at, pieces_at};

use crate::free::{begins_free, free_bits};
use crate::location::push_range;
use rb_core::text::{push, push_number};
use rb_layout::layout::{FlatWord, Kind, Part};
use std::alloc::AllocError;

/// Adds the field numbers of a path, each behind a point.
pub(crate) fn push_path(text: &mut Vec<u8>, path: &[u32]) -> Result<(), AllocError>
    ensures { OnOk result (text.new.items ≡ text.old.items ++ path_text path.now) }
{
    for field in path {
        push(text, b".")?;
        push_number(text, *field as u64)?;
    }
    Ok(())
}

// Adds what a part of so many bits holds: a constant, bits or a word of a field, or a pointer to a
// block.
fn push_kind(text: &mut Vec<u8>, l: u64, kind: &Kind) -> Result<(), AllocError>
    ensures { OnOk result (text.new.items ≡ text.old.items ++ kind_text l kind.now) }
{
    match kind {
        Kind::Const(number) => {
            push(text, b"= ")?;
            push_number(text, *number)?;
        }
        Kind::Bits(path, first) => {
            push(text, b"field ")?;
            push_path(text, path.as_slice())?;
            push(text, b" bits ")?;
            push_range(text, *first, l)?;
        }
        Kind::Word(path, word) => {
            push(text, b"field ")?;
            push_path(text, path.as_slice())?;
            push(text, b" word ")?;
            push_number(text, *word)?;
        }
        Kind::Pointer(_, block) => {
            push(text, b"pointer to block ")?;
            push_number(text, *block as u64)?;
        }
    }
    Ok(())
}

// Adds the line of a part: its range, and what it holds.
fn push_part(text: &mut Vec<u8>, part: &Part) -> Result<(), AllocError>
    ensures { OnOk result (text.new.items ≡ text.old.items ++ piece_line (Held part.now)) }
{
    push(text, b"  ")?;
    push_range(text, part.o, part.l)?;
    push(text, b" ")?;
    push_kind(text, part.l, &part.kind)?;
    push(text, b"\n")?;
    Ok(())
}

// Adds the line of a free range: so many bits from that bit on.
fn push_free(text: &mut Vec<u8>, o: u64, l: u64) -> Result<(), AllocError>
    ensures { OnOk result (text.new.items ≡ text.old.items ++ piece_line (Free o l)) }
{
    push(text, b"  ")?;
    push_range(text, o, l)?;
    push(text, b" free")?;
    push(text, b"\n")?;
    Ok(())
}

// Adds the line of a part, if it begins at this bit; else nothing.
fn push_part_at(text: &mut Vec<u8>, part: &Part, bit: u64) -> Result<(), AllocError>
    ensures { OnOk result (text.new.items ≡ text.old.items ++ flat_map piece_line (held_at bit part.now)) }
{
    if part.o == bit {
        push_part(text, part)?;
    }
    Ok(())
}

// Adds the lines of the parts that begin at a bit.
fn push_held(text: &mut Vec<u8>, parts: &[Part], bit: u64) -> Result<(), AllocError>
    ensures { OnOk result (text.new.items ≡ text.old.items ++ flat_map piece_line (flat_map (held_at bit) parts.now)) }
{
    for part in parts {
        push_part_at(text, part, bit)?;
    }
    Ok(())
}

// Adds the lines of the pieces that begin at a bit, the parts before the free range.
fn push_pieces_at(text: &mut Vec<u8>, word: &FlatWord, bit: u64) -> Result<(), AllocError>
    requires { bit < word.now.width }
    ensures { OnOk result (text.new.items ≡ text.old.items ++ flat_map piece_line (pieces_at word.now bit)) }
{
    push_held(text, word.parts.as_slice(), bit)?;
    if begins_free(word, bit) {
        push_free(text, bit, free_bits(word, bit))?;
    }
    Ok(())
}

/// Adds the lines of all pieces of a word, by ascending offset.
pub(crate) fn push_pieces(text: &mut Vec<u8>, word: &FlatWord) -> Result<(), AllocError>
    ensures { OnOk result (text.new.items ≡ text.old.items ++ piece_lines word.now) }
{
    for bit in 0..word.width {
        push_pieces_at(text, word, bit)?;
    }
    Ok(())
}
