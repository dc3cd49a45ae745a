//! The way to a part of a leaf: its location, and the read of its bits. A part is a range of bits
//! of a word, and a spot is a part where it stands: in a root word, or in a word of a block. A
//! location begins at a root word, and each of its steps goes through a pointer to a word of a
//! block. A read is a number that code can make from slots and loads.

ghost use Rattle.std.specs.Prelude.{◌≡◌, IfOk, slice_get};
ghost use Rattle.rb_rel.specs.Reading.{LeadsTo};
ghost use Rattle.rb_layout.specs.Readable.{AreShort};
ghost use Rattle.rb_fetch.specs.inner.Placing.{IsAgreedLeaf, IsSpot, step_of, width_of};
ghost use Rattle.rb_fetch.specs.inner.Fields.{ReadsPart, SpansPart};

use crate::place::{Spot, Wanted, begins_at, find_part};
use crate::span::{Span, span_at, span_bits};
use rb_core::layout_decl::{Loc, Step};
use rb_core::seq::Seq;
use rb_fragment::reads::Read;
use rb_layout::layout::{Block, Leaf};
use std::alloc::{AllocError, Global};

// The location of the part at a spot of the leaf. In a block it is that of the pointer to the
// block, with one step more.
#[cycle(way)]
fn location(alloc: Global, leaf: &Leaf, spot: Spot) -> Result<Loc, AllocError>
    requires leaf { IsAgreedLeaf leaf.now }
    requires spot { IsSpot leaf.now spot }
    ensures { IfOk result (λ loc. LeadsTo leaf.now loc spot.entry.part.now.l spot.entry.part.now.kind) }
{
    let Some(b) = spot.block else {
        return Ok(Loc {
            word: spot.word as u64,
            o: spot.part.o,
            l: spot.part.l,
            steps: Seq::new(alloc),
        });
    };
    match leaf.blocks.get(b) {
        None => unreachable!(),
        Some(block) => match find_part(leaf, &[], Wanted::WayTo(b)) {
            None => unreachable!(),
            Some(pointer) => {
                let mut loc = location(alloc, leaf, pointer)?;
                loc.steps.push(step_to(block, spot))?;
                Ok(loc)
            }
        },
    }
}

// The step of a location from the pointer to a block to the part in the block that stands at a
// spot.
fn step_to(block: &Block, spot: Spot) -> Step
    requires { AreShort block.now.words }
    ensures { result ≡ step_of block.now spot.entry }
{
    Step {
        align: block.align,
        byte: begins_at(block.words.as_slice(), spot.word),
        width: spot.flat.width,
        o: spot.part.o,
        l: spot.part.l,
    }
}

/// The bits of the part at a spot, as a range over reads of the words of a value of the leaf.
///
/// # Errors
///
/// Want of memory.
pub(crate) fn spot_span(
    alloc: Global,
    leaf: &Leaf,
    spot: Spot,
    words: &[Read],
) -> Result<Span, AllocError>
    requires leaf { IsAgreedLeaf leaf.now }
    requires spot { IsSpot leaf.now spot }
    ensures { IfOk result (λ span. SpansPart leaf.now words.now span spot.entry.part.now.l spot.entry.part.now.kind) }
{
    let loc = location(alloc, leaf, spot)?;
    let span = span_at(alloc, words, root_width(leaf, loc.word), &loc)?;
    Ok(span)
}

// The width of a root word of a leaf, by its number; None where it has no such word.
fn root_width(leaf: &Leaf, word: u64) -> Option<u64>
    ensures { result ≡ width_of (slice_get leaf.now.root word) }
{
    match leaf.root.get(word as usize) {
        None => None,
        Some(flat) => Some(flat.width),
    }
}

/// The part at a spot as a read over reads of the words of a value of the leaf: the word itself
/// where the part is all of it.
///
/// # Errors
///
/// Want of memory.
pub(crate) fn spot_read(
    alloc: Global,
    leaf: &Leaf,
    spot: Spot,
    words: &[Read],
) -> Result<Read, AllocError>
    requires leaf { IsAgreedLeaf leaf.now }
    requires spot { IsSpot leaf.now spot }
    ensures { IfOk result (λ read. ReadsPart leaf.now words.now read spot.entry.part.now.l spot.entry.part.now.kind) }
{
    let span = spot_span(alloc, leaf, spot, words)?;
    let read = span_bits(alloc, span)?;
    Ok(read)
}
