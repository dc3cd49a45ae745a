//! Words of values, and where an image keeps them.
//!
//! `number` is the word itself, or the bits of it; it is carried along with where the image keeps
//! it, so that a fault can name that.

/// A word of a value, or bits of one, with where the word is kept: in the block that begins at `base`, from byte
/// `place` on, or, where the base is 0, in the root word with the number `place`.
#[derive(Clone, Copy, PartialEq, Eq, Hash)]
pub struct Kept {
    pub number: u64,
    pub base: u64,
    pub place: u64,
}

/// A place at which a value of a data type is to stand: the type's number, and the words there.
#[derive(PartialEq, Eq, Hash, Drop)]
pub struct Place {
    pub ty: u32,
    pub words: Vec<Kept>,
}
