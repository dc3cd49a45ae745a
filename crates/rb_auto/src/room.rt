//! The room that the word of a type takes where its layout is derived. A type that is to be packed
//! is refused where it reaches itself through fields or needs over 64 bits.

ghost use Rattle.std.specs.Prelude.{◌≡◌};
ghost use Rattle.std.specs.Option.{option_copied};
ghost use Rattle.rb_auto.specs.Widths.{counted_width, room_width, word_width};

/// The bits of a word.
pub const WORD_BITS: u64 = 64;

/// The room of a type for which no layout is written.
#[derive(Clone, Copy, PartialEq, Eq)]
pub enum Room {
    /// A whole word: the type is boxed, or has no layout.
    Word,
    /// The type is to be packed and reaches itself through its fields.
    Recursive,
    /// The type is to be packed and needs so many bits.
    Bits(u64),
}

// The width of the word of a type with this room, one bit at least: a type that is refused counts
// as a whole word.
fn word_width(room: Room) -> u64
    ensures { result ≡ word_width room }
{
    match room {
        Room::Word => WORD_BITS,
        Room::Recursive => WORD_BITS,
        Room::Bits(0) => 1,
        Room::Bits(bits) => { if bits <= WORD_BITS { bits } else { WORD_BITS } }
    }
}

/// The width of the word of a type with this room, in bits; a whole word where none is known.
pub(crate) fn room_width(room: Option<&Room>) -> u64
    ensures { result ≡ room_width (option_copied room.entry) }
{
    match room {
        None => WORD_BITS,
        Some(room) => word_width(*room),
    }
}

/// A written width as it counts: one outside 1 to 64 counts as 64.
pub(crate) fn counted_bits(width: u64) -> u64
    ensures { result ≡ counted_width width }
{
    if 1 <= width && width <= WORD_BITS {
        width
    } else {
        WORD_BITS
    }
}
