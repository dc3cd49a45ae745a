//! Bits that are constant in a leaf. A number is known at a location where the location resolves in
//! the leaf and each bit of its last range stands in a part that is a constant.

ghost use Rattle.std.specs.Prelude.{◌≡◌, ◌+◌, ◌<◌};
ghost use Rattle.rb_bits.specs.Words.{IsRange};
ghost use Rattle.rb_layout.specs.Locations.{bit_of_kind, bit_of_part, constant_bit, constant_bits, number_known};
ghost use Rattle.rb_layout.specs.Readable.{IsReadable};

use crate::layout::{Kind, Leaf, Part};
use crate::locate::{end_of, flat_at};
use rb_bits::take;
use rb_core::layout_decl::Loc;

// Bit `i` of the number that a part of this kind holds, where it is a constant. None for any other
// kind.
fn bit_of_kind(kind: &Kind, i: u64) -> Option<u64>
    requires { i < 64 }
    ensures { result ≡ bit_of_kind kind.now i }
{
    match kind {
        Kind::Const(c) => Some(take(*c, i as u32, 1)),
        Kind::Bits(_, _) => None,
        Kind::Word(_, _) => None,
        Kind::Pointer(_, _) => None,
    }
}

// Bit `i` of a word, where it stands in this part and the part is a constant. None elsewhere.
fn bit_of_part(part: &Part, i: u64) -> Option<u64>
    requires { i < 64 }
    ensures { result ≡ bit_of_part part.now i }
{
    if i < part.o {
        return None;
    }
    if part.l <= i - part.o {
        return None;
    }
    bit_of_kind(&part.kind, i - part.o)
}

/// Bit `i` of a word with these parts, by the first of them that is a constant and has this bit.
/// None where none is.
#[tactic(auto, using(crate::proofs::BarLemmas::barring))]
pub(crate) fn constant_bit(parts: &[Part], i: u64) -> Option<u64>
    requires { i < 64 }
    ensures { result ≡ constant_bit parts.now i }
{
    for part in parts {
        if let Some(bit) = bit_of_part(part, i) {
            return Some(bit);
        }
    }
    None
}

// The number of the `l` bits from bit `o` on of a word with these parts, where each of them is
// constant, and else None.
fn constant_bits(parts: &[Part], o: u64, l: u64) -> Option<u64>
    requires { IsRange o l }
    ensures { result ≡ constant_bits parts.now o l }
{
    let mut number = 0;
    for i in (0..l).rev() {
        match constant_bit(parts, o + i) {
            None => return None,
            Some(bit) => {
                number = bit + 2 * number;
            }
        }
    }
    Some(number)
}

/// The number that is known at a location of a leaf: where it resolves and all bits of its last
/// range are constant. None elsewhere.
pub fn known_bits(leaf: &Leaf, loc: &Loc) -> Option<u64>
    requires { IsReadable leaf.now }
    ensures { result ≡ number_known leaf.now loc.now }
{
    let end = match end_of(leaf, loc) {
        None => return None,
        Some(end) => end,
    };
    match flat_at(leaf, end.at) {
        None => None,
        Some(word) => constant_bits(word.parts.as_slice(), end.o, end.l),
    }
}
