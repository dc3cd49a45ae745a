//! Why bytes or an image are refused.
//!
//! An image is root words, those of a value, and blocks of a memory, each given by its address in
//! bytes and by its bytes. A pointer is a word, or bits of one, that leads to a block. A split is a
//! choice in the layout of a type: the bits of a word decide which of its arms is taken. A path is
//! a list of field numbers, and a step is one of them, counted from 0.

ghost use Rattle.std.specs.Prelude.{◌≡◌};
ghost use Rattle.rb_image_text.specs.declared.fault.ImageFault.TheVariants.{Memory};

use std::alloc::{AllocError, AllocFailed};
use thiserror::Error;

/// Why bytes are no image, an image represents no value, or a value has no such part. A base is the
/// address of a block, or 0 for the root words; a place is the number of a root word, or a byte in a block.
#[derive(Clone, Copy, Debug, Drop, Error)]
pub enum ImageFault {
    /// The byte from which on no text of an image goes on.
    #[error("bytes that spell no image")]
    ImageSyntax(usize),
    /// The first block, counted from 0, that begins below 64 or below the end of the one before it, or
    /// that ends above 16,777,216.
    #[error("a block out of its place")]
    ImageBlock(u64),
    /// A root word that is missing, too many or too wide.
    #[error("a root word that does not fit")]
    BadRoot(u64),
    /// The base and the place of a word whose constant differs, or that no arm of a split takes.
    #[error("bits that no value has")]
    BadBits(u64, u64),
    /// The base of a pointer, and the address to which it leads in vain.
    #[error("a pointer that leads nowhere")]
    BadPointer(u64, u128),
    /// The value has more nodes than the limit.
    #[error("over the limit of nodes")]
    ImageTooLarge,
    /// The step of a path that names no field.
    #[error("no such part")]
    NoSuchPart(u64),
    /// Want of memory.
    #[error("no memory")]
    Memory,
}

impl From<AllocError> for ImageFault {
    ghost from_gives = { λ _ e. e ≡ Memory };

    fn from(_e: AllocError) -> ImageFault {
        ImageFault::Memory
    }
}

impl<T: Drop> From<AllocFailed<T>> for ImageFault {
    ghost from_gives = { λ _ e. e ≡ Memory };

    fn from(_e: AllocFailed<T>) -> ImageFault {
        ImageFault::Memory
    }
}
