//! Why tokens are no file that is read.
//!
//! Tokens are numbered from 0 on. A node is a part of the tree that may hold others of its kind: an
//! expression, a pattern, a layout's tree or a pointer part. Its level is how deep it is nested in
//! such parts of its item, from 1 on. The shape of a layout lists the widths of its words.

ghost use Rattle.std.specs.Prelude.{◌≡◌};
ghost use Rattle.rb_read.specs.declared.fault.ReadFault.TheVariants.{Memory};

use rb_core::limits::MOST_LEVELS;
use std::alloc::{AllocError, AllocFailed};
use thiserror::Error;

/// A count that has a limit.
#[derive(Clone, Copy, PartialEq, Eq, Debug)]
pub enum Quantity {
    /// Bytes of a file.
    FileBytes,
    /// Types of a file.
    Types,
    /// Functions of a file.
    Functions,
    /// Constructors of one type.
    Constructors,
    /// Fields of one constructor.
    Fields,
    /// Parameters of one function.
    Parameters,
    /// Words of one layout's shape.
    ShapeWords,
}

/// Why tokens are no file that is read, with the number of the token at fault.
#[derive(Debug, Drop, Error)]
pub enum ReadFault {
    /// The first token that begins a node deeper than `MOST_LEVELS` levels.
    #[error("nesting over {most} at token {0}", most = MOST_LEVELS)]
    TooDeep(u32),
    /// The first token at which no file goes on, or the number of tokens where they are no whole
    /// file.
    #[error("syntax at token {0}")]
    Syntax(u32),
    /// The first count that is over its limit: what is counted, and how many there are.
    #[error("a count of {1} is over its limit")]
    Limit(Quantity, u64),
    /// Want of memory.
    #[error("no memory")]
    Memory,
}

impl From<AllocError> for ReadFault {
    ghost from_gives = { λ _ e. e ≡ Memory };

    fn from(_e: AllocError) -> ReadFault {
        ReadFault::Memory
    }
}

impl<T: Drop> From<AllocFailed<T>> for ReadFault {
    ghost from_gives = { λ _ e. e ≡ Memory };

    fn from(_e: AllocFailed<T>) -> ReadFault {
        ReadFault::Memory
    }
}
