//! Code that reads the bits at a location: a range of bits of one of a value's words, or of a word
//! that the location's steps load, each from an address in the range before it. A read is a number
//! that code can make from slots and loads. So the words need not stand in slots.

ghost use Rattle.std.specs.Prelude.{◌≡◌, IfOk, OnOk, slice_get};
ghost use Rattle.rb_target.specs.Growth.{Grows};
ghost use Rattle.rb_fetch.specs.Fetching.{FetchesBits, FetchesLoc};
ghost use Rattle.rb_fetch.specs.inner.Fetching.{FetchesAt};

use crate::span::{span_at, span_bits};
use rb_core::layout_decl::Loc;
use rb_fragment::make::make;
use rb_fragment::reads::{Read, slot_reads};
use rb_target::body::Body;
use std::alloc::{AllocError, Global};

/// Code that reads the bits at a location, from the words of a value, which stand in the slots
/// `words`. Answers the slot that holds them, from its bit 0 on.
///
/// # Errors
///
/// Want of memory.
pub fn fetch_loc(
    alloc: Global,
    body: &mut Body,
    words: &[usize],
    loc: &Loc,
) -> Result<usize, AllocError>
    ensures bits { IfOk result (λ slot. FetchesBits words.now loc.now body.old body.new slot) }
    ensures reads { IfOk result (λ slot. FetchesLoc words.now loc.now body.old body.new slot) }
    ensures grows { OnOk result (Grows body.old.code body.new.code) }
{
    let reads = slot_reads(alloc, words)?;
    let slot = fetch_bits(alloc, body, reads.as_slice(), &[], loc)?;
    Ok(slot)
}

/// Code that reads the bits at a location, from reads of the words, which may stand in memory
/// still. Answers the slot that holds them. A word has at most so many bits as stand in its place
/// in `widths`; where that list ends before, nothing is known of it.
///
/// # Errors
///
/// Want of memory.
pub(crate) fn fetch_bits(
    alloc: Global,
    body: &mut Body,
    words: &[Read],
    widths: &[u64],
    loc: &Loc,
) -> Result<usize, AllocError>
    ensures reads { IfOk result (λ slot. FetchesAt words.now widths.now loc.now body.old body.new slot) }
    ensures grows { OnOk result (Grows body.old.code body.new.code) }
{
    let span = span_at(alloc, words, width_at(widths, loc.word), loc)?;
    let read = span_bits(alloc, span)?;
    let slot = make(body, &read)?;
    Ok(slot)
}

// How many bits a word has at most, by its number: what stands in its place in `widths`; None where
// the list ends before.
fn width_at(widths: &[u64], word: u64) -> Option<u64>
    ensures { result ≡ slice_get widths.now word }
{
    match widths.get(word as usize) {
        None => None,
        Some(width) => Some(*width),
    }
}
