//! Integers at the open positions of a leaf.
//!
//! A position is what a leaf's provenance, its pattern, has at a path, a list of field numbers from
//! the leaf's root. It is open where any value may stand. A part is a range of one of the leaf's
//! words; several may hold one integer, each a range of its bits. A spot is a part with the word
//! that it is of. Bit 0 is the lowest. `image` has the blocks from which the words were read.

ghost use Rattle.std.specs.Prelude.{◌≡◌, ℕ, ◌-◌, ◌≤◌, IfOk};
ghost use Rattle.rb_core.specs.declared.types.Ty.TheVariants.{Int};
ghost use Rattle.rb_layout.specs.A6.{holds_unit};
ghost use Rattle.rb_layout.specs.Readable.{IsReadable};
ghost use Rattle.rb_image.specs.Integers as spec;
ghost use Rattle.rb_image.specs.Integers.{field_bit, part_value};
ghost use Rattle.rb_image.specs.LeafWords.{HasNumbers};
ghost use Rattle.rb_image.specs.Orders.{order_of, spots_of};
ghost use Rattle.rb_image_text.specs.Places.{AreInPlace};

use crate::leaf_words::LeafWords;
use crate::order::{Spot, order_of};
use rb_coding::bits::take_from;
use rb_image_text::image::Image;
use rb_layout::layout::{Kind, Leaf};
use rb_layout::paths::has_bit;
use std::alloc::{AllocError, Global};

// A leaf of an image's value, with the words that were read of it and its parts in their order.
#[derive(Clone, Copy, Drop)]
struct Gathered<'a> {
    image: &'a Image,
    leaf: &'a Leaf,
    words: &'a LeafWords,
    order: &'a [Spot<'a>],
}

// The first number less the second, or zero where that is greater.
fn less(a: u64, b: u64) -> u64
    ensures { result ≡ a - b }
{
    if b <= a { a - b } else { 0 }
}

// Whether a part of this kind with `l` bits holds bit `i` of the integer at a path.
fn holds_bit(kind: &Kind, path: &[u32], i: u64, l: u64) -> bool
    ensures { (bits : ℕ) → result ≡ holds_unit (Int bits) path.now i l kind.now }
{
    match kind {
        Kind::Const(_) => false,
        Kind::Bits(own, a) => has_bit(own.as_slice(), path, *a, l, i),
        Kind::Word(_, _) => false,
        Kind::Pointer(_, _) => false,
    }
}

// Bit `i` of an integer, where `number` has the bits of a part of this kind that holds it; 0 for a
// part that holds no integer.
fn bit_in(number: u64, i: u64, kind: &Kind) -> u64
    ensures { result ≡ spec.bit_in number i kind.now }
{
    match kind {
        Kind::Const(_) => 0,
        Kind::Bits(_, a) => take_from(number, less(i, *a), 1),
        Kind::Word(_, _) => 0,
        Kind::Pointer(_, _) => 0,
    }
}

impl<'a> Gathered<'a> {
    // Bit `i` of the integer at a path, as the first part has it that holds the bit; 0 where none
    // does.
    fn bit(&self, path: &[u32], i: u64) -> u64
        requires placed { AreInPlace self.now.image.now.blocks }
        requires numbers { HasNumbers self.now.image.now.blocks self.now.leaf.now self.now.words.now }
        requires order { spots_of self.now.order.now ≡ order_of self.now.leaf.now }
        ensures { (bits : ℕ) → result ≡ field_bit (part_value self.now.image.now.blocks self.now.words.now) (Int bits)
            (spots_of self.now.order.now) path.now i }
    {
        for spot in self.order {
            if holds_bit(&spot.part.kind, path, i, spot.part.l) {
                return bit_in(self.words.bits(spot).number, i, &spot.part.kind);
            }
        }
        0
    }
}

/// The integer of `bits` bits at an open position of a leaf, the words of which were read: each part that holds a range
/// of it has that range. Nothing is read.
///
/// # Errors
///
/// Want of memory.
pub fn integer_at(
    alloc: Global,
    image: &Image,
    leaf: &Leaf,
    words: &LeafWords,
    path: &[u32],
    bits: u64,
) -> Result<u64, AllocError>
    requires placed { AreInPlace image.now.blocks }
    requires readable { IsReadable leaf.now }
    requires numbers { HasNumbers image.now.blocks leaf.now words.now }
    requires narrow { bits ≤ 64 }
    ensures { IfOk result (λ number. number ≡ spec.integer_at image.now.blocks leaf.now words.now path.now bits) }
{
    let spots = order_of(alloc, leaf)?;
    let gathered = Gathered {
        image,
        leaf,
        words,
        order: spots.as_slice(),
    };
    let mut number = 0;
    for done in 0..bits {
        number = number * 2 + gathered.bit(path, bits - 1 - done);
    }
    Ok(number)
}
