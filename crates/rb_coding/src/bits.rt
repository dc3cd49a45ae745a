//! Ranges of bits that may leave a word, which has 64: bits `o` up to `o + l` are the `l` bits from
//! bit `o` on.

ghost use Rattle.std.specs.Prelude.{◌≡◌};
ghost use Rattle.rb_bits.specs.Words.{take_of};
ghost use Rattle.rb_coding.specs.Packing.{put_into};

use rb_bits::words::{put, take};

/// What the `l` bits of a word from bit `o` on spell, where zeros stand above the word; 0 where `l`
/// is 0.
pub fn take_from(word: u64, o: u64, l: u64) -> u64
    ensures { result ≡ take_of word o l }
{
    if o >= 64 {
        return 0;
    }
    let high = word >> o;
    if l >= 64 {
        return high;
    }
    high % (1 << l)
}

/// A word with the low bits of `part` put into its bits `o` up to `o + l`; the word as it is where
/// `l` is 0 or these are not all bits of it.
pub fn put_into(word: u64, o: u64, l: u64, part: u64) -> u64
    ensures { result ≡ put_into word o l part }
{
    if l < 1 {
        return word;
    }
    if l > 64 {
        return word;
    }
    if o > 64 - l {
        return word;
    }
    put(word, o as u32, l as u32, take(part, 0, l as u32))
}
