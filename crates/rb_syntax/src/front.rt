//! The tokens of a text one by one, up to the first fault.

ghost use Rattle.std.specs.Prelude.{◌≤◌, length, IfOk};
ghost use Rattle.rb_syntax.specs.Fronts.{IsNext, FrontsAreRight};

use crate::piece::{Piece, next_piece};
use crate::token::Placed;
use std::alloc::{AllocError, Global};

/// What stands next in a text.
#[derive(Drop)]
pub enum Next {
    /// A token, and the byte behind it.
    Token(Placed, usize),
    /// The byte of the first fault, a bad byte or a number of 2^64 or more: nothing behind it is read.
    Fault(usize),
    /// Nothing but blanks and comments.
    End,
}

/// What stands next in a text from byte `from` on: a token, the first fault, or the end. It keeps
/// nothing of the text but the token.
///
/// # Errors
///
/// Want of memory alone.
pub fn next_token(alloc: Global, text: &[u8], from: usize) -> Result<Next, AllocError>
    requires { from ≤ length text.now }
    ensures { IfOk result (IsNext text.now from) }
{
    let mut at = from;
    while at < text.len() {
        match next_piece(alloc, &text[at..])? {
            Piece::Gap(len) => at += len,
            Piece::Token(token, len) => return Ok(Next::Token(Placed { token, at }, at + len)),
            Piece::Bad(offset) => return Ok(Next::Fault(at + offset)),
            Piece::Wide => return Ok(Next::Fault(at)),
        }
    }
    Ok(Next::End)
}

/// The tokens before the first fault are those of the text's longest pieces, and the fault stands
/// where `lex` refuses the text.
pub fn fronts_are_right()
    ensures { FrontsAreRight }
{}
