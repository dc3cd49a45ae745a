//! Where bits of an image's words are kept.

/// Bits of a word of an image, which is read only where they are wanted: `l` bits from bit `o` on. The word is one of
/// `width` bits from byte `place` on of the block that begins at `base`, or, where the base is 0, the root word with
/// the number `place`.
#[derive(Clone, Copy, PartialEq, Eq)]
pub struct Site {
    pub base: u64,
    pub place: u64,
    pub width: u64,
    pub o: u64,
    pub l: u64,
}
