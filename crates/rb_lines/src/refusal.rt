//! Why nothing is printed, as it is answered.

ghost use Rattle.std.specs.Prelude.{◌≡◌};
ghost use Rattle.rb_lines.specs.declared.refusal.Refusal.TheVariants.{Memory};

use crate::status::Status;
use std::alloc::AllocError;
use thiserror::Error;

/// The answer by which a command is refused: a status, and its line for the error output.
#[derive(Debug, Drop)]
pub struct Refused {
    pub status: Status,
    pub line: Vec<u8>,
}

/// Why nothing is printed: an answer that says so, or want of memory on the way to one.
#[derive(Debug, Drop, Error)]
pub enum Refusal {
    /// The answer in its place.
    #[error("refused")]
    Refused(Refused),
    /// Want of memory.
    #[error("no memory")]
    Memory,
}

impl From<AllocError> for Refusal {
    ghost from_gives = { λ _ refusal. refusal ≡ Memory };

    fn from(_error: AllocError) -> Refusal {
        Refusal::Memory
    }
}
