//! The parts of a leaf, examined on words of an image.
//!
//! A part is a range of a word of the leaf: a constant, bits or a word of a field, or a pointer to
//! one of the leaf's blocks. A spot is a part with the word that it is of. `memory` has the blocks
//! of the image, `words` are those of the place, so of the leaf's root, and `addresses` those of
//! the leaf's blocks by number, 0 for one that is not known.

ghost use Rattle.std.specs.Prelude.{◌≡◌, slice_get, slice_index};
ghost use Rattle.rb_layout.specs.Readable.{IsReadable};
ghost use Rattle.rb_image.specs.Given.{IsGiven};
ghost use Rattle.rb_image.specs.Orders.{order_of, spot_part, spots_of};
ghost use Rattle.rb_image.specs.Parts as spec;
ghost use Rattle.rb_image.specs.inner.Viewing.{EndsAsDue};
ghost use Rattle.rb_image_text.specs.Places.{AreInPlace};

use crate::blocks::{size_at, word_in};
use crate::kept::Kept;
use crate::order::Spot;
use crate::splits::{pointed_from, range_of, word_at};
use rb_image_text::fault::ImageFault;
use rb_image_text::image::ImageBlock;
use rb_layout::layout::{Kind, Leaf};
use rb_layout::sizes::block_size;
use std::alloc::Global;

/// The address of the block with this number, where `addresses` are those of a leaf's blocks; 0 where it is not known,
/// or there is no such block.
pub fn address_at(addresses: &[u64], block: u32) -> u64
    ensures { result ≡ slice_index addresses.now block }
{
    match addresses.get(block as usize) {
        None => 0,
        Some(address) => *address,
    }
}

/// The word that a part is of: a root word, or the word of a block whose address is known. Its
/// number is 0 where no such word is there.
pub(crate) fn kept_at(memory: &[ImageBlock], words: &[Kept], addresses: &[u64], spot: &Spot) -> Kept
    requires placed { AreInPlace memory.now }
    ensures { result ≡ spec.kept_at memory.now words.now addresses.now spot.now.block (spot_part spot.now) }
{
    match spot.block {
        None => word_at(words, spot.word),
        Some(block) => {
            let base = address_at(addresses, block);
            let number = match word_in(memory, base, spot.byte, spot.width) {
                None => 0,
                Some(number) => number,
            };
            Kept {
                number,
                base,
                place: spot.byte,
            }
        }
    }
}

// The size in bytes of a leaf's block with this number, 0 where there is none.
fn size_of(leaf: &Leaf, block: u32) -> u64
    requires readable { IsReadable leaf.now }
    ensures { result ≡ spec.block_size (slice_get leaf.now.blocks block) }
{
    match leaf.blocks.get(block as usize) {
        None => 0,
        Some(block) => block_size(block),
    }
}

/// The address to which the bits of a pointer part lead, or `BadPointer` where no block of the size
/// of the leaf's block begins there, or, from within a block, it is not below that.
pub(crate) fn follow(
    memory: &[ImageBlock],
    leaf: &Leaf,
    range: Kept,
    align: u64,
    block: u32,
) -> Result<u64, ImageFault>
    requires placed { AreInPlace memory.now }
    requires readable { IsReadable leaf.now }
    ensures { result ≡ spec.pointer_lead memory.now leaf.now range align block }
{
    let address = u128::from(range.number) * u128::from(align);
    let fault = ImageFault::BadPointer(range.base, address);
    match pointed_from(range.base, address) {
        None => Err(fault),
        Some(at) => match size_at(memory, at) {
            None => Err(fault),
            Some(size) => if size == size_of(leaf, block) {
                Ok(at)
            } else {
                Err(fault)
            },
        },
    }
}

// Examines one part: a constant is its number, and a pointer leads to a block, whose address is noted.
fn examine_part(
    memory: &[ImageBlock],
    leaf: &Leaf,
    words: &[Kept],
    spot: &Spot,
    addresses: &mut Vec<u64>,
) -> Result<(), ImageFault>
    requires placed { AreInPlace memory.now }
    requires readable { IsReadable leaf.now }
    ensures { EndsAsDue (spec.examine_part memory.now leaf.now words.now addresses.old.items (spot_part spot.now))
        addresses.new.items result }
{
    let word = kept_at(memory, words, addresses.as_slice(), spot);
    let range = range_of(word, spot.part.o, spot.part.l);
    match &spot.part.kind {
        Kind::Bits(_, _) => Ok(()),
        Kind::Word(_, _) => Ok(()),
        Kind::Const(number) => if range.number == *number {
            Ok(())
        } else {
            Err(ImageFault::BadBits(range.base, range.place))
        },
        Kind::Pointer(align, block) => {
            let at = follow(memory, leaf, range, *align, *block)?;
            let block = *block as usize;
            if block < addresses.len() {
                addresses[block] = at;
            }
            Ok(())
        }
    }
}

/// Examines the parts of a leaf in their order, which is `order`, as `order_of` gives it; `words` are those of its
/// root, and `memory` has the blocks of an image, by address. Gives the addresses of the leaf's blocks by number, 0 for
/// one to which no pointer leads.
///
/// # Errors
///
/// The first fault of a part: `BadBits`, with the base and the place of its word, for a constant that differs, and
/// `BadPointer`, with the base of the pointer and the address, for a pointer that leads to no block of the size of the
/// leaf's block, or, from within a block, not below that block. Or want of memory.
pub fn examine(
    alloc: Global,
    memory: &[ImageBlock],
    leaf: &Leaf,
    words: &[Kept],
    order: &[Spot],
) -> Result<Vec<u64>, ImageFault>
    requires placed { AreInPlace memory.now }
    requires readable { IsReadable leaf.now }
    requires order { spots_of order.now ≡ order_of leaf.now }
    ensures { IsGiven (λ found. found.items) (spec.addresses_of memory.now leaf.now words.now) result }
{
    let mut addresses = Vec::from_elem(alloc, 0, leaf.blocks.len())?;
    for spot in order {
        examine_part(memory, leaf, words, spot, &mut addresses)?;
    }
    Ok(addresses)
}
