//! A range of bits in a word: bits `o` up to `o + l`, counted from 0, the lowest.

ghost use Rattle.std.specs.Prelude.{◌≡◌, ℕ, ◌+◌, ◌^◌, ◌<◌};
ghost use Rattle.std.specs.Int.{bit_at};
ghost use Rattle.rb_bits.specs.Words.{IsRange, IsOutside, AreDisjoint, mask_of, take_of, put_of};

/// The number whose bits `o` up to `o + l`, at least one and all within 64, are 1, and no others.
pub fn mask(o: u32, l: u32) -> u64
    requires { IsRange o l }
    ensures value { result ≡ mask_of o l }
    ensures inside { (i : ℕ) → i < l → bit_at result (o + i) ≡ 1 }
    ensures outside { (i : ℕ) → IsOutside o l i → bit_at result i ≡ 0 }
{
    (u64::MAX >> (64 - l)) << o
}

/// What the `l` bits of `w` from bit `o` on spell; they are one at least, and all within 64.
pub fn take(w: u64, o: u32, l: u32) -> u64
    requires { IsRange o l }
    ensures value { result ≡ take_of w o l }
    ensures fits { result < 2 ^ l }
    ensures bits { (i : ℕ) → i < l → bit_at result i ≡ bit_at w (o + i) }
{
    (w >> o) & (u64::MAX >> (64 - l))
}

/// `w` with bits `o` up to `o + l`, at least one and all within 64, replaced by `part`, which has
/// at most `l` bits.
pub fn put(w: u64, o: u32, l: u32, part: u64) -> u64
    requires range { IsRange o l }
    requires part { part < 2 ^ l }
    ensures value { result ≡ put_of w o l part }
    ensures inside { (i : ℕ) → i < l → bit_at result (o + i) ≡ bit_at part i }
    ensures outside { (i : ℕ) → IsOutside o l i → bit_at result i ≡ bit_at w i }

    // What was put is taken again, and what stands in a disjoint range stays.
    ensures taken { take_of result o l ≡ part }
    ensures elsewhere { (b m : ℕ) → AreDisjoint o l b m → take_of result b m ≡ take_of w b m }
{
    (w & !mask(o, l)) | (part << o)
}
