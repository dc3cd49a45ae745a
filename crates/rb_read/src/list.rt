//! Reads lists: parts with a separator between, and the symbol that closes them.
//!
//! A list is read from the front of the tokens that are left, `placed`, and handed on with those
//! behind it. One part is taken by `read`, which answers as a reader of parts would: the clauses
//! hold for each reader that `read` follows.

ghost use Rattle.std.specs.Prelude.{◌<◌};
ghost use Rattle.rb_syntax.specs.Tokens.{tokens};
ghost use Rattle.rb_read.specs.inner.Combining as combining;
ghost use Rattle.rb_read.specs.inner.Combining.{Reader};
ghost use Rattle.rb_read.specs.inner.Gives.{Gives, Reads};

use crate::stop::Stop;
use crate::tokens::{begins_with, expect};
use rb_core::seq::Seq;
use rb_syntax::token::{Placed, Symbol};
use std::alloc::Global;

/// One part or more with a separator between, and the symbol that closes them.
///
/// # Errors
///
/// Where `read` stops, or `Stuck` where neither symbol stands behind a part; or want of memory.
pub(crate) fn read_some_closed<'a, T: Drop, F: Fn(&'a [Placed]) -> Result<(T, &'a [Placed]), Stop>>(
    alloc: Global,
    read: F,
    separator: Symbol,
    close: Symbol,
    placed: &'a [Placed],
) -> Result<(Seq<T>, &'a [Placed]), Stop>
    requires { F.IsAlwaysCallable read }
    ensures { (part : Reader T) → Reads part (F.post read) → Gives (λ x. (x.0, tokens x.1.now)) result
        (combining.some_closed part separator close (tokens placed.now)) }
{
    let mut parts = Seq::new(alloc);
    let mut rest = placed;
    for _turn in 0..placed.len() {
        let (part, behind) = read(rest)?;
        parts.push(part)?;
        if !begins_with(separator, behind) {
            let behind = expect(close, behind)?;
            return Ok((parts, behind));
        }
        rest = &behind[1..];
    }
    Err(Stop::Stuck(0))
}

/// Any number of parts with commas between, and the symbol that closes them.
///
/// # Errors
///
/// Where `read` stops, or `Stuck` where neither symbol stands behind a part; or want of memory.
#[tactic(auto, unfolding(crate::specs::inner::Combining::any_closed))]
pub(crate) fn read_any_closed<'a, T: Drop, F: Fn(&'a [Placed]) -> Result<(T, &'a [Placed]), Stop>>(
    alloc: Global,
    read: F,
    close: Symbol,
    placed: &'a [Placed],
) -> Result<(Seq<T>, &'a [Placed]), Stop>
    requires { F.IsAlwaysCallable read }
    ensures { (part : Reader T) → Reads part (F.post read) → Gives (λ x. (x.0, tokens x.1.now)) result
        (combining.any_closed part close (tokens placed.now)) }
{
    if begins_with(close, placed) {
        return Ok((Seq::new(alloc), &placed[1..]));
    }
    read_some_closed(alloc, read, Symbol::Comma, close, placed)
}

/// Parts in parentheses with commas between, or nothing.
///
/// # Errors
///
/// Where `read` stops, or `Stuck` where neither symbol stands behind a part; or want of memory.
#[tactic(auto, unfolding(crate::specs::inner::Combining::in_parens))]
pub(crate) fn read_in_parens<'a, T: Drop, F: Fn(&'a [Placed]) -> Result<(T, &'a [Placed]), Stop>>(
    alloc: Global,
    read: F,
    placed: &'a [Placed],
) -> Result<(Seq<T>, &'a [Placed]), Stop>
    requires { F.IsAlwaysCallable read }
    ensures { (part : Reader T) → Reads part (F.post read) → Gives (λ x. (x.0, tokens x.1.now)) result
        (combining.in_parens part (tokens placed.now)) }
{
    if begins_with(Symbol::OpenParen, placed) {
        return read_some_closed(alloc, read, Symbol::Comma, Symbol::CloseParen, &placed[1..]);
    }
    Ok((Seq::new(alloc), placed))
}
