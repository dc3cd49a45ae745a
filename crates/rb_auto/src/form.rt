//! The forms of derived layouts. A tag is the number of the constructor, in the lowest bits of the
//! word.

/// How the one word of a derived layout is used.
#[derive(Clone, Copy, PartialEq, Eq)]
pub enum Form {
    /// A tag of 8 bits, and a pointer to a block with the words of the fields.
    Boxed,
    /// A tag of `tag` bits, perhaps none, and then the words of the fields, in a word of `width`
    /// bits.
    Packed { tag: u64, width: u64 },
}
