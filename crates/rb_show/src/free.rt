//! The bits of a word that no part holds, which are free.
//!
//! A part holds `l` bits of its word from bit `o` on. Bits are counted from 0.

ghost use Rattle.std.specs.Prelude.{◌≡◌, ◌-◌, ◌<◌};
ghost use Rattle.std.specs.List.{list_any};
ghost use Rattle.rb_show.specs.Pieces.{begins_free, free_bits, holds_bit, is_free};

use rb_layout::layout::{FlatWord, Part};

// Whether a part holds this bit of its word.
fn holds_bit(part: &Part, bit: u64) -> bool
    ensures { result ≡ holds_bit bit part.now }
{
    part.o <= bit && bit - part.o < part.l
}

// Whether any of these parts of a word holds this bit.
fn is_held(parts: &[Part], bit: u64) -> bool
    ensures { result ≡ list_any (holds_bit bit) parts.now }
{
    parts.iter().any(|part| holds_bit(part, bit))
}

// Whether this is a bit of the word that no part holds.
fn is_free(word: &FlatWord, bit: u64) -> bool
    ensures { result ≡ is_free word.now bit }
{
    bit < word.width && !is_held(word.parts.as_slice(), bit)
}

/// Whether a maximal range of free bits begins at this bit: it is free, and the bit below it is
/// none or isn't free.
pub(crate) fn begins_free(word: &FlatWord, bit: u64) -> bool
    ensures { result ≡ begins_free word.now bit }
{
    if !is_free(word, bit) {
        return false;
    }
    bit == 0 || !is_free(word, bit - 1)
}

/// How many bits from this one on are free, up to the first that isn't; 0 where this one
/// isn't.
pub(crate) fn free_bits(word: &FlatWord, bit: u64) -> u64
    requires { bit < word.now.width }
    ensures { result ≡ free_bits word.now bit (word.now.width - bit) }
{
    let most = word.width - bit;
    for count in 0..most {
        if !is_free(word, bit + count) {
            return count;
        }
    }
    most
}
