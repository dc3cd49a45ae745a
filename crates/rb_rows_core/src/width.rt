//! The widths of accesses to memory.

ghost use Rattle.std.specs.Prelude.{IsTrue};
ghost use Rattle.rb_bytes.specs.Memory.{IsWidth};

/// Whether this is the width of an access.
pub fn is_width(width: u64) -> bool
    ensures { IsTrue result → IsWidth width }
{
    width == 8 || width == 16 || width == 32 || width == 64
}
