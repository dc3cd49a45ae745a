//! Numbers that fit so many bits.

ghost use Rattle.std.specs.Prelude.{◌↔◌, ◌<◌, ◌^◌, IsTrue};

/// Whether a number has at most so many bits.
pub(crate) fn fits(number: u64, bits: u64) -> bool
    ensures { IsTrue result ↔ (number < 2 ^ bits) }
{
    if 64 <= bits {
        return true;
    }
    number < 1u64 << bits
}
