//! The tokens of a text.

ghost use Rattle.std.specs.Prelude.{◌≡◌};
ghost use Rattle.rb_syntax.specs.declared.lex.LexFault.TheVariants.{Memory};
ghost use Rattle.rb_syntax.specs.Cutting.{LexesTo};
ghost use Rattle.rb_syntax.specs.Lexing.{lexing_of, IsAnswer};

use crate::piece::{Piece, next_piece};
use crate::token::Placed;
use std::alloc::{AllocError, AllocFailed, Global};
use thiserror::Error;

/// Why a text has no tokens, with the byte at fault.
#[derive(Debug, Drop, Error)]
pub enum LexFault {
    /// The first byte at which no token, blank or comment begins or goes on.
    #[error("bad byte at byte {0}")]
    BadByte(usize),
    /// Where a number begins that 64 bits don't hold.
    #[error("number over 64 bits at byte {0}")]
    NumberTooWide(usize),
    /// Want of memory.
    #[error("no memory")]
    Memory,
}

impl From<AllocError> for LexFault {
    ghost from_gives = { λ _ e. e ≡ Memory };

    fn from(_e: AllocError) -> LexFault {
        LexFault::Memory
    }
}

impl<T: Drop> From<AllocFailed<T>> for LexFault {
    ghost from_gives = { λ _ e. e ≡ Memory };

    fn from(_e: AllocFailed<T>) -> LexFault {
        LexFault::Memory
    }
}

/// The tokens of a text, each with the byte at which it begins; or the first fault.
///
/// # Errors
///
/// `BadByte` at the first byte at which no token, blank or comment begins or goes on, or `NumberTooWide` where
/// a number that 64 bits don't hold begins, whichever stands first. `Memory` for want of memory,
/// which says nothing of the text.
pub fn lex(alloc: Global, bytes: &[u8]) -> Result<Vec<Placed>, LexFault>
    ensures answer { IsAnswer (lexing_of bytes.now) result }
    // the pieces are the text, and none could be longer
    ensures right { LexesTo bytes.now (lexing_of bytes.now) }
{
    tokens_of(alloc, bytes)
}

// The tokens of a text, each with the byte at which it begins, or the first fault. Each turn
// reads one piece, and a piece has a byte, so as many turns as there are bytes are enough.
fn tokens_of(alloc: Global, bytes: &[u8]) -> Result<Vec<Placed>, LexFault>
    ensures { IsAnswer (lexing_of bytes.now) result }
{
    let mut tokens = Vec::new(alloc);
    let mut at = 0usize;
    let mut left = bytes;
    for _turn in 0..bytes.len() {
        if left.len() == 0 {
            return Ok(tokens);
        }
        match next_piece(alloc, left)? {
            Piece::Gap(len) => {
                at += len;
                left = &left[len..];
            }
            Piece::Token(token, len) => {
                tokens.push(Placed { token, at })?;
                at += len;
                left = &left[len..];
            }
            Piece::Bad(offset) => return Err(LexFault::BadByte(at + offset)),
            Piece::Wide => return Err(LexFault::NumberTooWide(at)),
        }
    }
    Ok(tokens)
}
