//! Reads provenances. A provenance is the pattern at the head of a leaf: a constructor, with
//! constructors and `_` below it.
//!
//! Each reader takes the tokens that are left, `placed`, and gives what it read with those behind
//! it. Of the file there are `total` tokens in all, so that a token's number follows from how many
//! are left. A node's first token has number `at`. A node is a constructor or `_`. It takes one
//! level of those that are left, `levels`, and the nodes below it have one fewer. A reader is
//! `Stuck` at the first token that may not stand where it does, or at the end of the tokens, and at
//! a node for which no level is left it stops with `Deep`. Want of memory stops it, too.

ghost use Rattle.std.specs.Prelude.{◌≡◌, ◌<◌, ◌^◌};
ghost use Rattle.rb_syntax.specs.declared.tree.PatTree.TheVariants as pats;
ghost use Rattle.rb_syntax.specs.Tokens.{tokens};
ghost use Rattle.rb_read.specs.inner.Combining as combining;
ghost use Rattle.rb_read.specs.inner.Reading as reading;
ghost use Rattle.rb_read.specs.inner.Gives.{Gives};

use crate::beyond::beyond;
use crate::list::read_in_parens;
use crate::stop::Stop;
use crate::tokens::number_of;
use rb_core::seq::Seq;
use rb_syntax::token::{Placed, Symbol, Token};
use rb_syntax::tree::{Name, NameTree, PatTree};
use std::alloc::Global;

// Whether the first token begins a provenance; not where there is no token.
fn begins_provenance(placed: &[Placed]) -> bool
    ensures { result ≡ combining.at_front (λ t. reading.begins_provenance t) (tokens placed.now) }
{
    match placed {
        [] => false,
        [first, ..] => match first.token {
            Token::Upper(_) => true,
            _ => false,
        },
    }
}

// Whether the first token begins what may stand below a provenance's constructor.
fn begins_below(placed: &[Placed]) -> bool
    ensures { result ≡ combining.at_front (λ t. reading.begins_below t) (tokens placed.now) }
{
    match placed {
        [] => false,
        [first, ..] => match first.token {
            Token::Upper(_) => true,
            Token::Symbol(symbol) => symbol == Symbol::Underscore,
            _ => false,
        },
    }
}

/// A provenance, with so many levels left.
///
/// # Errors
///
/// `Stuck` at the first token at which no provenance goes on, or `Deep` at the first that begins a
/// node beyond the levels, whichever stands first; or want of memory.
#[tactic(auto, unfolding(crate::specs::inner::Reading::provenance))]
pub fn read_provenance(
    alloc: Global,
    levels: u32,
    total: usize,
    placed: &[Placed],
) -> Result<(PatTree, &[Placed]), Stop>
    requires { total < 2 ^ 32 }
    ensures { Gives (λ x. (x.0, tokens x.1.now)) result (reading.provenance levels total (tokens placed.now)) }
{
    if levels == 0 {
        return Err(beyond(begins_provenance(placed), placed));
    }
    read_provenance_node(alloc, levels - 1, total, placed)
}

// A provenance with so many levels left below its constructor.
#[tactic(auto, unfolding(crate::specs::inner::Reading::provenance_one, crate::specs::inner::Reading::provenance_from))]
fn read_provenance_node(
    alloc: Global,
    levels: u32,
    total: usize,
    placed: &[Placed],
) -> Result<(PatTree, &[Placed]), Stop>
    requires { total < 2 ^ 32 }
    ensures { Gives (λ x. (x.0, tokens x.1.now)) result
        (reading.provenance_one (λ ts. reading.below levels total ts) total (tokens placed.now)) }
{
    match placed {
        [] => Err(Stop::Stuck(0)),
        [first, rest @ ..] => {
            let at = number_of(total, placed);
            match &first.token {
                Token::Upper(name) => read_constructed(alloc, levels, total, at, name, rest),
                _ => Err(Stop::Stuck(placed.len())),
            }
        }
    }
}

// What stands below a provenance's constructor, with so many levels left.
#[cycle(below)]
#[tactic(auto, unfolding(crate::specs::inner::Reading::below))]
fn read_below<'a>(
    alloc: Global,
    levels: u32,
    total: usize,
    placed: &'a [Placed],
) -> Result<(PatTree, &'a [Placed]), Stop>
    requires { total < 2 ^ 32 }
    ensures { Gives (λ x. (x.0, tokens x.1.now)) result (reading.below levels total (tokens placed.now)) }
{
    if levels == 0 {
        return Err(beyond(begins_below(placed), placed));
    }
    read_below_node(alloc, levels - 1, total, placed)
}

// What stands below a provenance's constructor: a constructor with its own parts, which have so
// many levels left, or `_`.
#[cycle(below)]
#[tactic(auto, unfolding(crate::specs::inner::Reading::below_one, crate::specs::inner::Reading::below_from))]
fn read_below_node<'a>(
    alloc: Global,
    levels: u32,
    total: usize,
    placed: &'a [Placed],
) -> Result<(PatTree, &'a [Placed]), Stop>
    requires { total < 2 ^ 32 }
    ensures { Gives (λ x. (x.0, tokens x.1.now)) result
        (reading.below_one (λ ts. reading.below levels total ts) total (tokens placed.now)) }
{
    match placed {
        [] => Err(Stop::Stuck(0)),
        [first, rest @ ..] => {
            let at = number_of(total, placed);
            match &first.token {
                Token::Upper(name) => read_constructed(alloc, levels, total, at, name, rest),
                Token::Symbol(Symbol::Underscore) => Ok((PatTree::Wild(at), rest)),
                _ => Err(Stop::Stuck(placed.len())),
            }
        }
    }
}

// A constructor in a provenance, behind its name: its parts have so many levels left.
#[cycle(below)]
#[tactic(auto, unfolding(crate::specs::inner::Combining::into))]
fn read_constructed<'a>(
    alloc: Global,
    levels: u32,
    total: usize,
    at: u32,
    name: &Name,
    placed: &'a [Placed],
) -> Result<(PatTree, &'a [Placed]), Stop>
    requires { total < 2 ^ 32 }
    ensures { Gives (λ x. (x.0, tokens x.1.now)) result
        (combining.into (λ parts. pats.Con at (reading.name_tree at name.now) parts)
        (combining.in_parens (λ ts. reading.below levels total ts)) (tokens placed.now)) }
{
    let text = name.copy(alloc)?;
    let (parts, rest) = read_parts(alloc, levels, total, placed)?;
    Ok((PatTree::Con(at, NameTree { at, text }, parts), rest))
}

// A constructor's parts in parentheses, one or more, or nothing, which is no part.
#[cycle(below)]
fn read_parts<'a>(
    alloc: Global,
    levels: u32,
    total: usize,
    placed: &'a [Placed],
) -> Result<(Seq<PatTree>, &'a [Placed]), Stop>
    requires { total < 2 ^ 32 }
    ensures { Gives (λ x. (x.0, tokens x.1.now)) result
        (combining.in_parens (λ ts. reading.below levels total ts) (tokens placed.now)) }
{
    read_in_parens(
        alloc,
        |rest|
            requires { total < 2 ^ 32 }
            ensures { Gives (λ x. (x.0, tokens x.1.now)) result (reading.below levels total (tokens rest.now)) }
        { read_below(alloc, levels, total, rest) },
        placed,
    )
}
