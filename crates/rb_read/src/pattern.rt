//! Reads patterns.
//!
//! Each reader takes the tokens that are left, `placed`, and gives what it read with those behind
//! it. Of the file there are `total` tokens in all, so that a token's number follows from how many
//! are left. A node's first token has number `at`.
//!
//! A node is a pattern. It takes one level of those that are left, `levels`, and its subpatterns
//! have one fewer. A reader is `Stuck` at the first token that may not stand where it does, or
//! behind the last token where the tokens end too early. At a node for which no level is left it
//! stops with `Deep`. Want of memory stops it, too.

ghost use Rattle.std.specs.Prelude.{◌≡◌, ◌<◌, ◌^◌};
ghost use Rattle.rb_syntax.specs.declared.tree.PatTree.TheVariants as pats;
ghost use Rattle.rb_syntax.specs.Tokens.{tokens};
ghost use Rattle.rb_read.specs.inner.Combining as combining;
ghost use Rattle.rb_read.specs.inner.Reading as reading;
ghost use Rattle.rb_read.specs.inner.Gives.{Gives};

use crate::beyond::beyond;
use crate::list::read_in_parens;
use crate::stop::Stop;
use crate::tokens::number_of;
use rb_core::seq::Seq;
use rb_syntax::token::{Placed, Symbol, Token};
use rb_syntax::tree::{Name, NameTree, PatTree};
use std::alloc::Global;

// Whether the first token begins a pattern; not where there is no token.
fn begins_pattern(placed: &[Placed]) -> bool
    ensures { result ≡ combining.at_front (λ t. reading.begins_pattern t) (tokens placed.now) }
{
    match placed {
        [] => false,
        [first, ..] => match first.token {
            Token::Upper(_) | Token::Lower(_) | Token::Num(_) => true,
            Token::Symbol(symbol) => symbol == Symbol::Underscore,
            _ => false,
        },
    }
}

/// A pattern, with so many levels left.
///
/// # Errors
///
/// `Stuck` at the first token at which no pattern goes on, or `Deep` at the first that begins a
/// node beyond the levels, whichever stands first; or want of memory.
#[cycle(patterns)]
#[tactic(auto, unfolding(crate::specs::inner::Reading::pattern))]
pub fn read_pattern<'a>(
    alloc: Global,
    levels: u32,
    total: usize,
    placed: &'a [Placed],
) -> Result<(PatTree, &'a [Placed]), Stop>
    requires { total < 2 ^ 32 }
    ensures { Gives (λ x. (x.0, tokens x.1.now)) result (reading.pattern levels total (tokens placed.now)) }
{
    if levels == 0 {
        return Err(beyond(begins_pattern(placed), placed));
    }
    read_pattern_node(alloc, levels - 1, total, placed)
}

// A pattern whose subpatterns have so many levels left.
#[cycle(patterns)]
#[tactic(auto, unfolding(crate::specs::inner::Reading::pattern_one, crate::specs::inner::Reading::pattern_from))]
fn read_pattern_node<'a>(
    alloc: Global,
    levels: u32,
    total: usize,
    placed: &'a [Placed],
) -> Result<(PatTree, &'a [Placed]), Stop>
    requires { total < 2 ^ 32 }
    ensures { Gives (λ x. (x.0, tokens x.1.now)) result
        (reading.pattern_one (λ ts. reading.pattern levels total ts) total (tokens placed.now)) }
{
    match placed {
        [] => Err(Stop::Stuck(0)),
        [first, rest @ ..] => {
            let at = number_of(total, placed);
            match &first.token {
                Token::Upper(name) => read_constructed(alloc, levels, total, at, name, rest),
                Token::Lower(name) => {
                    let text = name.copy(alloc)?;
                    Ok((PatTree::Var(at, NameTree { at, text }), rest))
                }
                Token::Num(n) => Ok((PatTree::Num(at, *n), rest)),
                Token::Symbol(Symbol::Underscore) => Ok((PatTree::Wild(at), rest)),
                _ => Err(Stop::Stuck(placed.len())),
            }
        }
    }
}

// A constructor's pattern, behind its `name`: its subpatterns have so many levels left. It has none
// where no parenthesis stands there.
#[cycle(patterns)]
#[tactic(auto, unfolding(crate::specs::inner::Combining::into))]
fn read_constructed<'a>(
    alloc: Global,
    levels: u32,
    total: usize,
    at: u32,
    name: &Name,
    placed: &'a [Placed],
) -> Result<(PatTree, &'a [Placed]), Stop>
    requires { total < 2 ^ 32 }
    ensures { Gives (λ x. (x.0, tokens x.1.now)) result
        (combining.into (λ parts. pats.Con at (reading.name_tree at name.now) parts)
        (combining.in_parens (λ ts. reading.pattern levels total ts)) (tokens placed.now)) }
{
    let text = name.copy(alloc)?;
    let (parts, rest) = read_subpatterns(alloc, levels, total, placed)?;
    Ok((PatTree::Con(at, NameTree { at, text }, parts), rest))
}

// A constructor's subpatterns in parentheses, one or more, or nothing, which is no subpattern.
#[cycle(patterns)]
fn read_subpatterns<'a>(
    alloc: Global,
    levels: u32,
    total: usize,
    placed: &'a [Placed],
) -> Result<(Seq<PatTree>, &'a [Placed]), Stop>
    requires { total < 2 ^ 32 }
    ensures { Gives (λ x. (x.0, tokens x.1.now)) result
        (combining.in_parens (λ ts. reading.pattern levels total ts) (tokens placed.now)) }
{
    read_in_parens(
        alloc,
        |rest|
            requires { total < 2 ^ 32 }
            ensures { Gives (λ x. (x.0, tokens x.1.now)) result (reading.pattern levels total (tokens rest.now)) }
        { read_pattern(alloc, levels, total, rest) },
        placed,
    )
}
