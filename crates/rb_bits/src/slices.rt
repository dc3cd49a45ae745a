//! A number whose bits stand in several ranges of a word, as the offset of a RISC-V branch does.

ghost use Rattle.std.specs.Prelude.{◌≡◌};
ghost use Rattle.rb_bits.specs.Slices.{AreSlices, gather_of, scatter_of, named_bits_of, IsGathered, IsScattered, HasNamedBits};

use crate::words::{put, take};

/// Bits `a` up to `a + l` of a number, which stand in bits `o` up to `o + l` of a word.
#[derive(Clone, Copy, PartialEq, Eq)]
pub struct Slice {
    /// The first bit in the word.
    pub o: u32,
    /// The first bit in the number.
    pub a: u32,
    /// How many bits there are.
    pub l: u32,
}

/// The number that slices of a word hold: each slice gives `l` bits of `w`, from bit `o` on, to the
/// number from its bit `a` on. Bits that no slice gives are 0, so without a slice it is 0.
pub fn gather(w: u64, slices: &[Slice]) -> u64
    requires { AreSlices slices.now }
    ensures value { result ≡ gather_of w slices.now }
    ensures bits { IsGathered w slices.now result }
{
    let mut number = 0;
    for slice in slices {
        number = put(number, slice.a, slice.l, take(w, slice.o, slice.l));
    }
    number
}

/// `w` with bits `o` up to `o + l` replaced by bits `a` up to `a + l` of `number`, for each slice;
/// without a slice it is `w`.
pub fn scatter(w: u64, slices: &[Slice], number: u64) -> u64
    requires { AreSlices slices.now }
    ensures value { result ≡ scatter_of w slices.now number }
    ensures bits { IsScattered w slices.now number result }

    // To gather the new word over the same slices gives the number's bits at those slices.
    ensures gathered { gather_of result slices.now ≡ named_bits_of number slices.now }
    ensures gathered_bits { HasNamedBits number slices.now (gather_of result slices.now) }
{
    let mut word = w;
    for slice in slices {
        word = put(word, slice.o, slice.l, take(number, slice.a, slice.l));
    }
    word
}
