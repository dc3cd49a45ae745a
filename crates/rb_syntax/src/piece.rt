//! The piece at the front of some bytes.

ghost use Rattle.std.specs.Prelude.{◌≡◌, ◌<◌, length, IfOk};
ghost use Rattle.rb_syntax.specs.Words as text;
ghost use Rattle.rb_syntax.specs.Pieces as piece;
ghost use Rattle.rb_syntax.specs.Lexing.{IsWithin};

use crate::bytes::{is_blank, is_word_byte, line_len, numeral_len, run_len};
use crate::token::{Symbol, Token};
use crate::words::{symbol_at, width_of, word_of};
use rb_core::decimal::number_in;
use rb_core::seq::Seq;
use std::alloc::{AllocError, Global};

/// A piece with its length in bytes, or what is wrong with it.
#[derive(Drop)]
pub enum Piece {
    /// A blank or a comment.
    Gap(usize),
    Token(Token, usize),
    /// A byte at which no piece begins or goes on, behind so many good ones.
    Bad(usize),
    /// A number of 2^64 or more.
    Wide,
}

// The piece of a run of digits and other bytes of words, of which the first is a digit: a number
// where the whole run is one without a leading zero, `Wide` from 2^64 on, else `Bad` at the byte
// behind the longest such number at its front.
#[tactic(auto, unfolding(crate::specs::Pieces::number_piece, crate::specs::Pieces::number_or_fault))]
fn number_piece(run: &[u8]) -> Piece
    ensures { result ≡ piece.number_piece run.now }
{
    if let Some(n) = number_in(0, u64::MAX, run) {
        return Piece::Token(Token::Num(n), run.len());
    }
    let len = numeral_len(run);
    if len == run.len() {
        Piece::Wide
    } else {
        Piece::Bad(len)
    }
}

// The token of a run whose first byte is the letter `first`: with a capital the name of a type or a
// constructor, else a reserved word, a type of integers, or the name of a function or a variable.
#[tactic(auto, unfolding(crate::specs::Pieces::name_token, crate::specs::Pieces::word_or_name, crate::specs::Pieces::width_or_name))]
fn name_token(alloc: Global, first: u8, run: &[u8]) -> Result<Token, AllocError>
    ensures { IfOk result (λ t. t ≡ piece.name_token first run.now) }
{
    if first.is_ascii_uppercase() {
        return Ok(Token::Upper(Seq::from_vec(Vec::from_slice(alloc, run)?)));
    }
    if let Some(word) = word_of(run) {
        return Ok(Token::Reserved(word));
    }
    match width_of(run) {
        Some(bits) => Ok(Token::Uint(bits)),
        None => Ok(Token::Lower(Seq::from_vec(Vec::from_slice(alloc, run)?))),
    }
}

// The piece of a run of letters, digits and `_`, of which `first` is the first byte: a word or a
// name, a number, or `_` alone.
#[tactic(auto, unfolding(crate::specs::Pieces::run_piece, crate::specs::Pieces::underscore_piece))]
fn run_piece(alloc: Global, first: u8, run: &[u8]) -> Result<Piece, AllocError>
    ensures { IfOk result (λ p. p ≡ piece.run_piece first run.now) }
{
    if first.is_ascii_alphabetic() {
        let token = name_token(alloc, first, run)?;
        return Ok(Piece::Token(token, run.len()));
    }
    if first.is_ascii_digit() {
        return Ok(number_piece(run));
    }
    if run.len() == 1 {
        Ok(Piece::Token(Token::Symbol(Symbol::Underscore), 1))
    } else {
        Ok(Piece::Bad(1))
    }
}

// The symbol at the front of bytes, or `Bad(0)` where none stands there.
#[tactic(auto, unfolding(crate::specs::Pieces::symbol_piece))]
fn symbol_piece(bytes: &[u8]) -> Piece
    ensures { result ≡ piece.symbol_piece (text.symbol_at bytes.now) }
{
    match symbol_at(bytes) {
        Some(symbol) => Piece::Token(Token::Symbol(symbol), symbol.text().len()),
        None => Piece::Bad(0),
    }
}

// The piece at the front of bytes, of which `first` is the first: a blank, a run, a comment or a
// symbol.
#[tactic(auto, unfolding(crate::specs::Pieces::first_piece))]
fn first_piece(alloc: Global, first: u8, bytes: &[u8]) -> Result<Piece, AllocError>
    ensures { IfOk result (λ p. p ≡ piece.first_piece first bytes.now) }
{
    if is_blank(first) {
        return Ok(Piece::Gap(1));
    }
    if is_word_byte(first) {
        return run_piece(alloc, first, &bytes[..run_len(bytes)]);
    }
    if bytes.starts_with(b"//") {
        return Ok(Piece::Gap(line_len(bytes)));
    }
    Ok(symbol_piece(bytes))
}

// The piece at the front of bytes, or an empty gap where there are none.
#[tactic(auto, unfolding(crate::specs::Pieces::piece_at))]
fn piece_at(alloc: Global, bytes: &[u8]) -> Result<Piece, AllocError>
    ensures { IfOk result (λ p. p ≡ piece.piece_at bytes.now) }
{
    match bytes {
        [] => Ok(Piece::Gap(0)),
        [first, ..] => first_piece(alloc, *first, bytes),
    }
}

/// The piece at the front of bytes. Where there are any, the piece has one byte or more and lies
/// within them, so that reading goes on behind it.
///
/// # Errors
///
/// Want of memory.
pub fn next_piece(alloc: Global, bytes: &[u8]) -> Result<Piece, AllocError>
    ensures piece { IfOk result (λ p. p ≡ piece.piece_at bytes.now) }
    ensures within { 0 < length bytes.now → IfOk result (IsWithin (length bytes.now)) }
{
    piece_at(alloc, bytes)
}
