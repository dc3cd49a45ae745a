//! Why reading stops.
//!
//! A node is a part of the tree that may hold others of its kind: an expression, a pattern, a
//! layout's tree or a pointer part. It takes one level of those that are left, and the nodes in it
//! have one fewer.

ghost use Rattle.std.specs.Prelude.{◌≡◌};
ghost use Rattle.rb_read.specs.declared.stop.Stop.TheVariants.{Memory};

use std::alloc::{AllocError, AllocFailed};

/// Why reading stops, with the number of the tokens from the one at fault on; 0 where the tokens
/// end too early.
#[derive(Drop)]
pub enum Stop {
    /// Nothing goes on with this token.
    Stuck(usize),
    /// This token begins a node beyond the limit of levels.
    Deep(usize),
    /// Want of memory.
    Memory,
}

impl From<AllocError> for Stop {
    ghost from_gives = { λ _ e. e ≡ Memory };

    fn from(_e: AllocError) -> Stop {
        Stop::Memory
    }
}

impl<T: Drop> From<AllocFailed<T>> for Stop {
    ghost from_gives = { λ _ e. e ≡ Memory };

    fn from(_e: AllocFailed<T>) -> Stop {
        Stop::Memory
    }
}
