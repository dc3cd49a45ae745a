//! Why a text is no value of a type within a limit.
//!
//! A node of a value is a number, or a constructor with its fields, which are nodes of their own.
//! The limit is the most nodes that the value may have.

ghost use Rattle.std.specs.Prelude.{◌≡◌};
ghost use Rattle.rb_values.specs.declared.fault.ValueFault.TheVariants.{Memory};

use std::alloc::{AllocError, AllocFailed};
use thiserror::Error;

/// Why a text is no value of a type within a limit. Places are bytes of the text.
#[derive(Debug, Drop, Error)]
pub enum ValueFault {
    /// The text spells no value: the least of the byte at which it has no tokens, and the first
    /// token before that at which no value goes on; the text's length where a value only begins.
    #[error("syntax at byte {0}")]
    ValueSyntax(usize),
    /// The value has more nodes than the limit.
    #[error("over the limit of nodes")]
    ValueTooLarge,
    /// A node that does not fit its type, of several the one that begins first in the text.
    #[error("no value of the type at byte {0}")]
    ValueType(usize),
    /// Want of memory.
    #[error("no memory")]
    Memory,
}

impl From<AllocError> for ValueFault {
    ghost from_gives = { λ _ e. e ≡ Memory };

    fn from(_e: AllocError) -> ValueFault {
        ValueFault::Memory
    }
}

impl<T: Drop> From<AllocFailed<T>> for ValueFault {
    ghost from_gives = { λ _ e. e ≡ Memory };

    fn from(_e: AllocFailed<T>) -> ValueFault {
        ValueFault::Memory
    }
}
