//! Reads one token. Each reader takes the tokens that are left, `placed`, and gives what it read
//! with those behind it; it is `Stuck` where the first is no such token, or where there is none. Of
//! the file there are `total` tokens in all, so that a token's number follows from how many are
//! left.

ghost use Rattle.std.specs.Prelude.{◌≡◌, ◌-◌, ◌<◌, ◌^◌, length};
ghost use Rattle.rb_syntax.specs.Tokens.{tokens};
ghost use Rattle.rb_read.specs.inner.Combining as combining;
ghost use Rattle.rb_read.specs.inner.Starting as starting;
ghost use Rattle.rb_read.specs.inner.Tokens as reading;
ghost use Rattle.rb_read.specs.inner.Gives.{Gives};

use crate::stop::Stop;
use rb_syntax::token::{Placed, ReservedWord, Symbol, Token};
use rb_syntax::tree::NameTree;
use std::alloc::Global;

/// The number of the token at which the rest begins, of `total` tokens; `total` where none is left.
pub fn number_of(total: usize, rest: &[Placed]) -> u32
    requires { total < 2 ^ 32 }
    ensures { result ≡ total - length rest.now }
{
    total.saturating_sub(rest.len()) as u32
}

/// Whether there is a first token, and it is this symbol.
pub fn begins_with(symbol: Symbol, placed: &[Placed]) -> bool
    ensures { result ≡ combining.begins_with symbol (tokens placed.now) }
{
    match placed {
        [] => false,
        [first, ..] => match first.token {
            Token::Symbol(s) => s == symbol,
            _ => false,
        },
    }
}

/// Whether there is a first token, and it is this reserved word.
pub fn begins_with_word(word: ReservedWord, placed: &[Placed]) -> bool
    ensures { result ≡ combining.at_front (λ t. starting.is_word word t) (tokens placed.now) }
{
    match placed {
        [] => false,
        [first, ..] => match first.token {
            Token::Reserved(w) => w == word,
            _ => false,
        },
    }
}

/// Takes this symbol from the front, and gives the tokens behind it.
///
/// # Errors
///
/// `Stuck` where another token stands there, or none.
pub fn expect(symbol: Symbol, placed: &[Placed]) -> Result<&[Placed], Stop>
    ensures { Gives (λ r. (tt, tokens r.now)) result (combining.expect symbol (tokens placed.now)) }
{
    if begins_with(symbol, placed) {
        return Ok(&placed[1..]);
    }
    Err(Stop::Stuck(placed.len()))
}

/// Takes this reserved word from the front, and gives the tokens behind it.
///
/// # Errors
///
/// `Stuck` where another token stands there, or none.
pub fn expect_word(word: ReservedWord, placed: &[Placed]) -> Result<&[Placed], Stop>
    ensures { Gives (λ r. (tt, tokens r.now)) result (combining.expect_word word (tokens placed.now)) }
{
    if begins_with_word(word, placed) {
        return Ok(&placed[1..]);
    }
    Err(Stop::Stuck(placed.len()))
}

/// A name that begins with a small letter.
///
/// # Errors
///
/// `Stuck` where another token stands there, or none; or want of memory.
#[tactic(auto, unfolding(crate::specs::inner::Tokens::lower_name))]
pub fn read_lower(
    alloc: Global,
    total: usize,
    placed: &[Placed],
) -> Result<(NameTree, &[Placed]), Stop>
    requires { total < 2 ^ 32 }
    ensures { Gives (λ x. (x.0, tokens x.1.now)) result (reading.lower_name total (tokens placed.now)) }
{
    match placed {
        [] => Err(Stop::Stuck(0)),
        [first, rest @ ..] => match &first.token {
            Token::Lower(name) => {
                let at = number_of(total, placed);
                let text = name.copy(alloc)?;
                Ok((NameTree { at, text }, rest))
            }
            _ => Err(Stop::Stuck(placed.len())),
        },
    }
}

/// A name that begins with a small letter, with the symbol `close` behind it.
///
/// # Errors
///
/// `Stuck` at the first of the two that does not stand there; or want of memory.
#[tactic(auto, unfolding(crate::specs::inner::Combining::closed_by, crate::specs::inner::Combining::pair, crate::specs::inner::Combining::into))]
pub fn read_lower_before<'a>(
    alloc: Global,
    total: usize,
    close: Symbol,
    placed: &'a [Placed],
) -> Result<(NameTree, &'a [Placed]), Stop>
    requires { total < 2 ^ 32 }
    ensures { Gives (λ x. (x.0, tokens x.1.now)) result
        (combining.closed_by (reading.lower_name total) close (tokens placed.now)) }
{
    let (name, rest) = read_lower(alloc, total, placed)?;
    let rest = expect(close, rest)?;
    Ok((name, rest))
}

/// A name that begins with a capital.
///
/// # Errors
///
/// `Stuck` where another token stands there, or none; or want of memory.
#[tactic(auto, unfolding(crate::specs::inner::Tokens::upper_name))]
pub fn read_upper(
    alloc: Global,
    total: usize,
    placed: &[Placed],
) -> Result<(NameTree, &[Placed]), Stop>
    requires { total < 2 ^ 32 }
    ensures { Gives (λ x. (x.0, tokens x.1.now)) result (reading.upper_name total (tokens placed.now)) }
{
    match placed {
        [] => Err(Stop::Stuck(0)),
        [first, rest @ ..] => match &first.token {
            Token::Upper(name) => {
                let at = number_of(total, placed);
                let text = name.copy(alloc)?;
                Ok((NameTree { at, text }, rest))
            }
            _ => Err(Stop::Stuck(placed.len())),
        },
    }
}

/// A number.
///
/// # Errors
///
/// `Stuck` where another token stands there, or none.
#[tactic(auto, unfolding(crate::specs::inner::Tokens::number))]
pub fn read_number(placed: &[Placed]) -> Result<(u64, &[Placed]), Stop>
    ensures { Gives (λ x. (x.0, tokens x.1.now)) result (reading.number (tokens placed.now)) }
{
    match placed {
        [] => Err(Stop::Stuck(0)),
        [first, rest @ ..] => match first.token {
            Token::Num(n) => Ok((n, rest)),
            _ => Err(Stop::Stuck(placed.len())),
        },
    }
}

/// The number of a field, below 2^32.
///
/// # Errors
///
/// `Stuck` where another token stands there, or none, or a number of 2^32 or more.
#[tactic(auto, unfolding(crate::specs::inner::Tokens::field))]
pub fn read_field(placed: &[Placed]) -> Result<(u32, &[Placed]), Stop>
    ensures { Gives (λ x. (x.0, tokens x.1.now)) result (reading.field (tokens placed.now)) }
{
    let (number, rest) = read_number(placed)?;
    if number < 1 << 32 {
        return Ok((number as u32, rest));
    }
    Err(Stop::Stuck(placed.len()))
}

/// The width of a type of integers, 1 to 64.
///
/// # Errors
///
/// `Stuck` where another token stands there, or none, or another width.
#[tactic(auto, unfolding(crate::specs::inner::Tokens::width))]
pub fn read_width(placed: &[Placed]) -> Result<(u8, &[Placed]), Stop>
    ensures { Gives (λ x. (x.0, tokens x.1.now)) result (reading.width (tokens placed.now)) }
{
    match placed {
        [] => Err(Stop::Stuck(0)),
        [first, rest @ ..] => match first.token {
            Token::Uint(bits) if 0 < bits && bits <= 64 => Ok((bits, rest)),
            _ => Err(Stop::Stuck(placed.len())),
        },
    }
}
