//! Why a value is not encoded, and why words are not decoded. A node of a value is one of its
//! constructions or numbers.

ghost use Rattle.std.specs.Prelude.{◌≡◌};
ghost use Rattle.rb_coding.specs.declared.fault.EncodeFault.TheVariants as encoding;
ghost use Rattle.rb_coding.specs.declared.fault.DecodeFault.TheVariants as decoding;

use rb_bytes::fault::Full;
use std::alloc::{AllocError, AllocFailed};
use thiserror::Error;

/// Why a value is not encoded.
#[derive(Debug, Drop, Error)]
pub enum EncodeFault {
    /// The first block that didn't fit.
    #[error("the region is full")]
    Full(Full),
    /// Want of memory.
    #[error("no memory")]
    Memory,
}

/// Why words are not decoded.
#[derive(Debug, Drop, Error)]
pub enum DecodeFault {
    /// The value has more nodes than the limit.
    #[error("over the limit of nodes")]
    TooLarge,
    /// Want of memory.
    #[error("no memory")]
    Memory,
}

impl From<AllocError> for EncodeFault {
    ghost from_gives = { λ _ e. e ≡ encoding.Memory };

    fn from(_e: AllocError) -> EncodeFault {
        EncodeFault::Memory
    }
}

impl<T: Drop> From<AllocFailed<T>> for EncodeFault {
    ghost from_gives = { λ _ e. e ≡ encoding.Memory };

    fn from(_e: AllocFailed<T>) -> EncodeFault {
        EncodeFault::Memory
    }
}

impl From<AllocError> for DecodeFault {
    ghost from_gives = { λ _ e. e ≡ decoding.Memory };

    fn from(_e: AllocError) -> DecodeFault {
        DecodeFault::Memory
    }
}

impl<T: Drop> From<AllocFailed<T>> for DecodeFault {
    ghost from_gives = { λ _ e. e ≡ decoding.Memory };

    fn from(_e: AllocFailed<T>) -> DecodeFault {
        DecodeFault::Memory
    }
}
