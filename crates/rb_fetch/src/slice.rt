//! Integers that a leaf holds in slices. A slice is a part of a word that holds some bits of an
//! integer, and a spot is a part where it stands in the leaf. A read is a number that code can make
//! from slots and loads; a share is bits of a read, with the bit of the integer from which on they
//! stand. `words` are reads of the words of a value of the leaf, and `path` is the position of the
//! integer, field numbers from the root.

ghost use Rattle.std.specs.Prelude.{◌≡◌, ◌+◌, ◌-◌, ◌<◌, IfOk, min};
ghost use Rattle.rb_fetch.specs.inner.Placing.{IsAgreedLeaf};
ghost use Rattle.rb_fetch.specs.inner.Fields as fields;

use crate::place::{Wanted, find_part};
use crate::span::Span;
use crate::way::{spot_read, spot_span};
use rb_compose::count::bits;
use rb_core::seq::Seq;
use rb_core::types::Ty;
use rb_fragment::reads::{Read, Share};
use rb_layout::layout::{Kind, Leaf, Part};
use std::alloc::{AllocError, Global};

/// A read of the integer of `width` bits at `path`: bits of one word where a part holds it whole,
/// else its slices side by side.
///
/// # Errors
///
/// Want of memory.
pub(crate) fn int_read(
    alloc: Global,
    leaf: &Leaf,
    width: u8,
    path: &[u32],
    words: &[Read],
) -> Result<Read, AllocError>
    requires leaf { IsAgreedLeaf leaf.now }
    ensures { IfOk result (λ read. fields.ReadsInt leaf.now words.now path.now width read) }
{
    if let Some(spot) = find_part(leaf, path, Wanted::UnitOf(Ty::Int(width), 0)) {
        if is_whole(spot.part, width) {
            let read = spot_read(alloc, leaf, spot, words)?;
            return Ok(read);
        }
    }
    let shares = slices(alloc, leaf, width, path, words)?;
    Ok(Read::Joined(shares))
}

// Whether a part that holds bits of an integer of this width holds all of them.
fn is_whole(part: &Part, width: u8) -> bool
    ensures { result ≡ fields.is_whole width part.now }
{
    if part.l != width as u64 {
        return false;
    }
    first_bit(part) == 0
}

// The bit of an integer at which a part begins; 0 where it holds no bits of an integer.
fn first_bit(part: &Part) -> u64
    ensures { result ≡ fields.first_bit part.now.kind }
{
    match &part.kind {
        Kind::Bits(_, a) => *a,
        Kind::Const(_) => 0,
        Kind::Word(_, _) => 0,
        Kind::Pointer(_, _) => 0,
    }
}

// The slices of an integer, from its bit 0 on: each begins at the first bit that those before it do
// not have. They end early at a bit that no part holds.
fn slices(
    alloc: Global,
    leaf: &Leaf,
    width: u8,
    path: &[u32],
    words: &[Read],
) -> Result<Seq<Share>, AllocError>
    requires leaf { IsAgreedLeaf leaf.now }
    ensures { IfOk result (λ shares. fields.JoinsInt leaf.now words.now path.now width shares) }
{
    let end = width as u64;
    let mut shares = Seq::new(alloc);
    let mut i: u64 = 0;
    while i < end {
        let Some(spot) = find_part(leaf, path, Wanted::UnitOf(Ty::Int(width), i)) else {
            return Ok(shares);
        };
        let skip = i.saturating_sub(first_bit(spot.part));
        let len = spot.part.l.saturating_sub(skip).min(end - i);
        let span = spot_span(alloc, leaf, spot, words)?;
        shares.push(share(span, skip, len, i))?;
        i += len;
    }
    Ok(shares)
}

// `len` bits of a range behind its first `skip` ones, as a share that stands from bit `a` of the
// whole on.
fn share(span: Span, skip: u64, len: u64, a: u64) -> Share
    ensures { result ≡ fields.share_of span skip len a }
{
    let Span { read, o, .. } = span;
    Share {
        read,
        o: bits(o) + bits(skip),
        l: bits(len),
        a: bits(a),
    }
}
