//! Numbers of bits, as instructions have them.

ghost use Rattle.std.specs.Prelude.{◌≡◌};
ghost use Rattle.rb_compose.specs.Counts.{capped_bits};

/// A number of bits, or 64 if it is more: no word has more bits.
pub fn bits(count: u64) -> u8
    ensures { result ≡ capped_bits count }
{
    count.min(64) as u8
}
