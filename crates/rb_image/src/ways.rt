//! Pointers on the way to what stands at a path of a leaf.
//!
//! A path is a list of field numbers from the leaf's root. A part is a range of one of the leaf's
//! words, of a kind: a constant, bits or a word of a field, or a pointer to one of the leaf's
//! blocks. A spot is a part with the word that it is of. A pointer is on the way to what stands at
//! a path where a part behind it holds a field at the path or below; it is refused where it leads
//! to no block of the leaf's size, or, from within a block, not below that block. `memory` has the
//! image's blocks.

ghost use Rattle.std.specs.Prelude.{◌≡◌, IfOk};
ghost use Rattle.std.specs.List.{list_any};
ghost use Rattle.rb_layout.specs.Readable.{IsReadable};
ghost use Rattle.rb_image.specs.LeafWords.{HasNumbers};
ghost use Rattle.rb_image.specs.Orders.{LocatedPart, IsLeafPart, order_of, spot_part, spots_of};
ghost use Rattle.rb_image.specs.Ways as spec;
ghost use Rattle.rb_image_text.specs.Places.{AreInPlace};

use crate::kept::Kept;
use crate::leaf_words::LeafWords;
use crate::order::{Spot, block_order, order_of};
use crate::parts::follow;
use rb_image_text::fault::ImageFault;
use rb_image_text::image::{Image, ImageBlock};
use rb_layout::layout::{Kind, Leaf};
use std::alloc::{AllocError, Global};

// Whether a part of this kind holds a word or bits of a field whose path begins with this one.
fn is_below(path: &[u32], kind: &Kind) -> bool
    ensures { result ≡ spec.is_below path.now kind.now }
{
    match kind {
        Kind::Const(_) => false,
        Kind::Bits(own, _) => own.as_slice().starts_with(path),
        Kind::Word(own, _) => own.as_slice().starts_with(path),
        Kind::Pointer(_, _) => false,
    }
}

// Whether one of these parts holds a word or bits of a field whose path begins with this one.
fn any_below(path: &[u32], order: &[Spot]) -> bool
    ensures { result ≡ list_any (λ (s : LocatedPart). spec.is_below path.now s.part.kind) (spots_of order.now) }
{
    for spot in order {
        if is_below(path, &spot.part.kind) {
            return true;
        }
    }
    false
}

/// Whether a part of this kind holds a word or bits of a field whose path begins with this one, or is a pointer and one
/// of the parts behind it does. A path is a list of field numbers from the leaf's root.
///
/// # Errors
///
/// Want of memory.
pub fn leads_below(
    alloc: Global,
    leaf: &Leaf,
    path: &[u32],
    kind: &Kind,
) -> Result<bool, AllocError>
    requires readable { IsReadable leaf.now }
    ensures { IfOk result (λ leads. leads ≡ spec.leads_below leaf.now path.now kind.now) }
{
    match kind {
        Kind::Const(_) => Ok(false),
        Kind::Bits(_, _) => Ok(is_below(path, kind)),
        Kind::Word(_, _) => Ok(is_below(path, kind)),
        Kind::Pointer(_, block) => {
            let behind = block_order(alloc, leaf, *block)?;
            Ok(any_below(path, behind.as_slice()))
        }
    }
}

/// The fault of a part of this kind with these bits, if it is a pointer that is refused: `BadPointer` with the base of
/// the pointer and the address, where it leads to no block of the leaf's size, or, from within a block, not below that
/// block; none for other parts. `memory` has the blocks of an image, by address.
pub fn refusal_of(memory: &[ImageBlock], leaf: &Leaf, bits: Kept, kind: &Kind) -> Option<ImageFault>
    requires placed { AreInPlace memory.now }
    requires readable { IsReadable leaf.now }
    ensures { result ≡ spec.refusal_of memory.now leaf.now bits kind.now }
{
    match kind {
        Kind::Const(_) => None,
        Kind::Bits(_, _) => None,
        Kind::Word(_, _) => None,
        Kind::Pointer(align, block) => match follow(memory, leaf, bits, *align, *block) {
            Ok(_) => None,
            Err(fault) => Some(fault),
        },
    }
}

// The fault of a part, if it is a pointer on the way to what stands at a path or below it and is
// refused; else none.
fn refused_at(
    alloc: Global,
    image: &Image,
    leaf: &Leaf,
    words: &LeafWords,
    path: &[u32],
    spot: &Spot,
) -> Result<Option<ImageFault>, AllocError>
    requires placed { AreInPlace image.now.blocks }
    requires readable { IsReadable leaf.now }
    requires numbers { HasNumbers image.now.blocks leaf.now words.now }
    requires part { IsLeafPart leaf.now (spot_part spot.now) }
    ensures { IfOk result (λ fault. fault ≡ spec.refused_at image.now.blocks leaf.now words.now.root.items
        words.now.addresses.items path.now (spot_part spot.now)) }
{
    if leads_below(alloc, leaf, path, &spot.part.kind)? {
        let bits = words.bits(spot);
        return Ok(refusal_of(image.blocks.as_slice(), leaf, bits, &spot.part.kind));
    }
    Ok(None)
}

/// The first fault of a pointer on the way to what stands at a path of a leaf or below it, where the leaf's words were
/// read: `BadPointer` with the base of the pointer and the address, where it leads to no block of the leaf's size, or,
/// from within a block, not below that block. There is none where all of it was reached. A path is a list of field
/// numbers from the leaf's root. Nothing is read.
///
/// # Errors
///
/// Want of memory.
pub fn refused_below(
    alloc: Global,
    image: &Image,
    leaf: &Leaf,
    words: &LeafWords,
    path: &[u32],
) -> Result<Option<ImageFault>, AllocError>
    requires placed { AreInPlace image.now.blocks }
    requires readable { IsReadable leaf.now }
    requires numbers { HasNumbers image.now.blocks leaf.now words.now }
    ensures { IfOk result (λ fault. fault ≡ spec.refused_below image.now.blocks leaf.now words.now.root.items
        words.now.addresses.items path.now (order_of leaf.now)) }
{
    let order = order_of(alloc, leaf)?;
    for spot in order.as_slice() {
        match refused_at(alloc, image, leaf, words, path, spot)? {
            None => {}
            Some(fault) => return Ok(Some(fault)),
        }
    }
    Ok(None)
}
