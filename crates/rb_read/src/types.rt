//! Reads types, constructors and parameters.
//!
//! Each reader takes the tokens that are left, `placed`, and gives what it read with those behind
//! it. Of the file there are `total` tokens in all, so that a token's number follows from how many
//! are left. A reader is `Stuck` at the first token that may not stand where it does, or behind the
//! last token where the tokens end too early.

ghost use Rattle.std.specs.Prelude.{◌<◌, ◌^◌};
ghost use Rattle.rb_syntax.specs.Tokens.{tokens};
ghost use Rattle.rb_read.specs.inner.Combining as combining;
ghost use Rattle.rb_read.specs.inner.Reading as reading;
ghost use Rattle.rb_read.specs.inner.Gives.{Gives};

use crate::list::read_in_parens;
use crate::stop::Stop;
use crate::tokens::{expect, number_of, read_lower, read_upper};
use rb_core::seq::Seq;
use rb_syntax::token::{Placed, Symbol, Token};
use rb_syntax::tree::{ConTree, NameTree, ParamTree, TyTree};
use std::alloc::Global;

/// A type: integers of 1 to 64 bits, `u8`, or a name, `T`.
///
/// # Errors
///
/// `Stuck` where neither stands there; or want of memory.
#[tactic(auto, unfolding(crate::specs::inner::Reading::type_tree, crate::specs::inner::Reading::type_from))]
pub fn read_type(
    alloc: Global,
    total: usize,
    placed: &[Placed],
) -> Result<(TyTree, &[Placed]), Stop>
    requires { total < 2 ^ 32 }
    ensures { Gives (λ x. (x.0, tokens x.1.now)) result (reading.type_tree total (tokens placed.now)) }
{
    match placed {
        [] => Err(Stop::Stuck(0)),
        [first, rest @ ..] => match &first.token {
            Token::Uint(bits) if 0 < *bits && *bits <= 64 => Ok((TyTree::Int(*bits), rest)),
            Token::Upper(name) => {
                let at = number_of(total, placed);
                let text = name.copy(alloc)?;
                Ok((TyTree::Named(NameTree { at, text }), rest))
            }
            _ => Err(Stop::Stuck(placed.len())),
        },
    }
}

/// A type, with the symbol `close` behind it.
///
/// # Errors
///
/// `Stuck` at the first of the two that does not stand there; or want of memory.
#[tactic(auto, unfolding(crate::specs::inner::Combining::closed_by, crate::specs::inner::Combining::pair, crate::specs::inner::Combining::into))]
pub fn read_type_before<'a>(
    alloc: Global,
    total: usize,
    close: Symbol,
    placed: &'a [Placed],
) -> Result<(TyTree, &'a [Placed]), Stop>
    requires { total < 2 ^ 32 }
    ensures { Gives (λ x. (x.0, tokens x.1.now)) result
        (combining.closed_by (reading.type_tree total) close (tokens placed.now)) }
{
    let (ty, rest) = read_type(alloc, total, placed)?;
    let rest = expect(close, rest)?;
    Ok((ty, rest))
}

// The types of a constructor's fields in parentheses, one or more, or nothing, which is no field.
fn read_fields(
    alloc: Global,
    total: usize,
    placed: &[Placed],
) -> Result<(Seq<TyTree>, &[Placed]), Stop>
    requires { total < 2 ^ 32 }
    ensures { Gives (λ x. (x.0, tokens x.1.now)) result
        (combining.in_parens (reading.type_tree total) (tokens placed.now)) }
{
    read_in_parens(alloc, |rest| read_type(alloc, total, rest), placed)
}

/// A constructor of a type, `A` or `B(u8, T)`.
///
/// # Errors
///
/// `Stuck` at the first token at which no constructor goes on; or want of memory.
#[tactic(auto, unfolding(crate::specs::inner::Reading::con_tree, crate::specs::inner::Combining::pair, crate::specs::inner::Combining::into))]
pub fn read_constructor(
    alloc: Global,
    total: usize,
    placed: &[Placed],
) -> Result<(ConTree, &[Placed]), Stop>
    requires { total < 2 ^ 32 }
    ensures { Gives (λ x. (x.0, tokens x.1.now)) result (reading.con_tree total (tokens placed.now)) }
{
    let (name, rest) = read_upper(alloc, total, placed)?;
    let (fields, rest) = read_fields(alloc, total, rest)?;
    Ok((ConTree { name, fields }, rest))
}

/// A parameter of a function, `x: T`.
///
/// # Errors
///
/// `Stuck` at the first token at which no parameter goes on; or want of memory.
#[tactic(auto, unfolding(crate::specs::inner::Reading::param_tree, crate::specs::inner::Combining::pair, crate::specs::inner::Combining::into))]
pub fn read_parameter(
    alloc: Global,
    total: usize,
    placed: &[Placed],
) -> Result<(ParamTree, &[Placed]), Stop>
    requires { total < 2 ^ 32 }
    ensures { Gives (λ x. (x.0, tokens x.1.now)) result (reading.param_tree total (tokens placed.now)) }
{
    let (var, rest) = read_lower(alloc, total, placed)?;
    let rest = expect(Symbol::Colon, rest)?;
    let (ty, rest) = read_type(alloc, total, rest)?;
    let at = var.at;
    Ok((ParamTree { at, var, ty }, rest))
}
