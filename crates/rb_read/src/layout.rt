//! Reads trees of layouts. Trees are counted by the levels that are left.
//!
//! Each reader takes the tokens that are left, `placed`, and gives what it read with those behind
//! it. Of the file there are `total` tokens in all, so that a token's number follows from how many
//! are left.
//!
//! A tree is a split or a leaf. A split goes by the bits at a location: it has arms, each for one
//! number that these bits may be, and an `else` for the others. A leaf has a provenance, which is
//! the pattern of the values that are laid out there, and items, which say what its words hold.
//!
//! A tree, a pattern and a pointer part are nodes. Each takes one level of those that are left,
//! `levels`, and the nodes in it have one fewer. A reader is `Stuck` at the first token that may
//! not stand where it does, or behind the last token where the tokens end too early. At a node for
//! which no level is left it stops with `Deep`. Want of memory stops it, too.

ghost use Rattle.std.specs.Prelude.{◌≡◌, ◌-◌, ◌<◌, ◌^◌, length};
ghost use Rattle.rb_syntax.specs.declared.token.ReservedWord.TheVariants as word;
ghost use Rattle.rb_syntax.specs.declared.token.Symbol.TheVariants as symbol;
ghost use Rattle.rb_syntax.specs.Tokens.{tokens};
ghost use Rattle.rb_read.specs.inner.Combining as combining;
ghost use Rattle.rb_read.specs.inner.Reading as reading;
ghost use Rattle.rb_read.specs.inner.Starting as starting;
ghost use Rattle.rb_read.specs.inner.Tokens.{number};
ghost use Rattle.rb_read.specs.inner.Gives.{Gives};

use crate::beyond::beyond;
use crate::each::read_each;
use crate::leaf::read_some_items;
use crate::location::read_location;
use crate::provenance::read_provenance;
use crate::stop::Stop;
use crate::tokens::{begins_with_word, expect, expect_word, number_of, read_number};
use rb_core::boxed::Boxed;
use rb_core::seq::Seq;
use rb_syntax::token::{Placed, ReservedWord, Symbol, Token};
use rb_syntax::tree::{ArmTree, Loc, SplitTree};
use std::alloc::Global;

// Whether the first token begins a layout's tree; not where there is no token.
fn begins_tree(placed: &[Placed]) -> bool
    ensures { result ≡ combining.at_front (λ t. reading.begins_tree t) (tokens placed.now) }
{
    match placed {
        [] => false,
        [first, ..] => match first.token {
            Token::Reserved(word) => word == ReservedWord::Split,
            Token::Upper(_) => true,
            _ => false,
        },
    }
}

// Whether the first token begins an arm of a split, as a number does.
fn begins_arm(placed: &[Placed]) -> bool
    ensures { result ≡ combining.at_front starting.is_number (tokens placed.now) }
{
    match placed {
        [] => false,
        [first, ..] => match first.token {
            Token::Num(_) => true,
            _ => false,
        },
    }
}

// The number of an arm, with the arrow behind it: `0 =>`.
#[tactic(auto, unfolding(crate::specs::inner::Combining::closed_by, crate::specs::inner::Combining::pair, crate::specs::inner::Combining::into))]
fn read_literal(placed: &[Placed]) -> Result<(u64, &[Placed]), Stop>
    ensures { Gives (λ x. (x.0, tokens x.1.now)) result
        (combining.closed_by number symbol.FatArrow (tokens placed.now)) }
{
    let (literal, rest) = read_number(placed)?;
    let rest = expect(Symbol::FatArrow, rest)?;
    Ok((literal, rest))
}

// Takes `else =>` from the front, and gives the tokens behind it.
#[tactic(auto, unfolding(crate::specs::inner::Reading::else_arrow, crate::specs::inner::Combining::closed_by, crate::specs::inner::Combining::pair, crate::specs::inner::Combining::into))]
fn expect_else(placed: &[Placed]) -> Result<&[Placed], Stop>
    ensures { Gives (λ r. (tt, tokens r.now)) result (reading.else_arrow (tokens placed.now)) }
{
    let rest = expect_word(ReservedWord::Else, placed)?;
    expect(Symbol::FatArrow, rest)
}

// The location by which a split goes, with the brace behind it: `0[0:1] {`.
#[tactic(auto, unfolding(crate::specs::inner::Combining::closed_by, crate::specs::inner::Combining::pair, crate::specs::inner::Combining::into))]
fn read_split_location(alloc: Global, placed: &[Placed]) -> Result<(Loc, &[Placed]), Stop>
    ensures { Gives (λ x. (x.0, tokens x.1.now)) result
        (combining.closed_by reading.location symbol.OpenBrace (tokens placed.now)) }
{
    let (loc, rest) = read_location(alloc, placed)?;
    let rest = expect(Symbol::OpenBrace, rest)?;
    Ok((loc, rest))
}

// A leaf, `Cons(_, _) : { word 64 { [0:64] .0 } }`, with so many levels left for what is in it.
#[tactic(auto, unfolding(crate::specs::inner::Reading::leaf, crate::specs::inner::Combining::pair, crate::specs::inner::Combining::into))]
fn read_leaf(
    alloc: Global,
    levels: u32,
    total: usize,
    placed: &[Placed],
) -> Result<(SplitTree, &[Placed]), Stop>
    requires { total < 2 ^ 32 }
    ensures { Gives (λ x. (x.0, tokens x.1.now)) result
        (reading.leaf levels total (total - length placed.now) (tokens placed.now)) }
{
    let at = number_of(total, placed);
    let (provenance, rest) = read_provenance(alloc, levels, total, placed)?;
    let rest = expect(Symbol::Colon, rest)?;
    let rest = expect(Symbol::OpenBrace, rest)?;
    let (items, rest) = read_some_items(alloc, levels, rest)?;
    Ok((SplitTree::Leaf(at, provenance, items), rest))
}

// An arm of a split, `0 => ...`, with so many levels left for its tree.
#[cycle(splits)]
#[tactic(auto, unfolding(crate::specs::inner::Reading::arm_tree, crate::specs::inner::Combining::pair, crate::specs::inner::Combining::into))]
fn read_arm<'a>(
    alloc: Global,
    levels: u32,
    total: usize,
    placed: &'a [Placed],
) -> Result<(ArmTree, &'a [Placed]), Stop>
    requires { total < 2 ^ 32 }
    ensures { Gives (λ x. (x.0, tokens x.1.now)) result
        (reading.arm_tree (λ us. reading.layout_tree levels total us) (tokens placed.now)) }
{
    let (literal, rest) = read_literal(placed)?;
    let (under, rest) = read_layout_tree(alloc, levels, total, rest)?;
    Ok((ArmTree { literal, under }, rest))
}

// The arms of a split, as long as the first token is a number; there may be none.
#[cycle(splits)]
fn read_arms<'a>(
    alloc: Global,
    levels: u32,
    total: usize,
    placed: &'a [Placed],
) -> Result<(Seq<ArmTree>, &'a [Placed]), Stop>
    requires { total < 2 ^ 32 }
    ensures { Gives (λ x. (x.0, tokens x.1.now)) result
        (combining.each_of starting.is_number (reading.arm_tree (λ us. reading.layout_tree levels total us))
        (tokens placed.now)) }
{
    read_each(
        alloc,
        |rest| begins_arm(rest),
        |rest|
            requires { total < 2 ^ 32 }
            ensures { Gives (λ x. (x.0, tokens x.1.now)) result
                (reading.arm_tree (λ us. reading.layout_tree levels total us) (tokens rest.now)) }
        { read_arm(alloc, levels, total, rest) },
        placed,
    )
}

// The `else` of a split, `else => ...`; None where the first token is not the word `else`.
#[cycle(splits)]
#[tactic(auto, unfolding(crate::specs::inner::Combining::optional, crate::specs::inner::Reading::else_tree, crate::specs::inner::Combining::pair, crate::specs::inner::Combining::into))]
fn read_else<'a>(
    alloc: Global,
    levels: u32,
    total: usize,
    placed: &'a [Placed],
) -> Result<(Option<Boxed<SplitTree>>, &'a [Placed]), Stop>
    requires { total < 2 ^ 32 }
    ensures { Gives (λ x. (x.0, tokens x.1.now)) result
        (combining.optional (λ t. starting.is_word word.Else t)
        (reading.else_tree (λ us. reading.layout_tree levels total us)) (tokens placed.now)) }
{
    if !begins_with_word(ReservedWord::Else, placed) {
        return Ok((None, placed));
    }
    let rest = expect_else(placed)?;
    let (tree, rest) = read_layout_tree(alloc, levels, total, rest)?;
    let tree = Boxed::new(alloc, tree)?;
    Ok((Some(tree), rest))
}

// The `else` of a split, or None, and the brace that closes the split.
#[cycle(splits)]
#[tactic(auto, unfolding(crate::specs::inner::Reading::other_arm, crate::specs::inner::Combining::closed_by, crate::specs::inner::Combining::pair, crate::specs::inner::Combining::into))]
fn read_other_arm<'a>(
    alloc: Global,
    levels: u32,
    total: usize,
    placed: &'a [Placed],
) -> Result<(Option<Boxed<SplitTree>>, &'a [Placed]), Stop>
    requires { total < 2 ^ 32 }
    ensures { Gives (λ x. (x.0, tokens x.1.now)) result
        (reading.other_arm (λ us. reading.layout_tree levels total us) (tokens placed.now)) }
{
    let (other, rest) = read_else(alloc, levels, total, placed)?;
    let rest = expect(Symbol::CloseBrace, rest)?;
    Ok((other, rest))
}

// The arms of a split and its `else`, with the brace behind them.
#[cycle(splits)]
#[tactic(auto, unfolding(crate::specs::inner::Reading::branches, crate::specs::inner::Combining::pair))]
fn read_branches<'a>(
    alloc: Global,
    levels: u32,
    total: usize,
    placed: &'a [Placed],
) -> Result<((Seq<ArmTree>, Option<Boxed<SplitTree>>), &'a [Placed]), Stop>
    requires { total < 2 ^ 32 }
    ensures { Gives (λ x. (x.0, tokens x.1.now)) result
        (reading.branches (λ us. reading.layout_tree levels total us) (tokens placed.now)) }
{
    let (arms, rest) = read_arms(alloc, levels, total, placed)?;
    let (other, rest) = read_other_arm(alloc, levels, total, rest)?;
    Ok(((arms, other), rest))
}

// A split behind its word: `0[0:1] { 0 => ... else => ... }`.
#[cycle(splits)]
#[tactic(auto, unfolding(crate::specs::inner::Reading::split_rest, crate::specs::inner::Combining::pair, crate::specs::inner::Combining::into))]
fn read_split<'a>(
    alloc: Global,
    levels: u32,
    total: usize,
    placed: &'a [Placed],
) -> Result<(SplitTree, &'a [Placed]), Stop>
    requires { total < 2 ^ 32 }
    ensures { Gives (λ x. (x.0, tokens x.1.now)) result
        (reading.split_rest (λ us. reading.layout_tree levels total us) (tokens placed.now)) }
{
    let (loc, rest) = read_split_location(alloc, placed)?;
    let ((arms, other), rest) = read_branches(alloc, levels, total, rest)?;
    Ok((SplitTree::Split(loc, arms, other), rest))
}

// A layout's tree, a split or a leaf, whose parts have so many levels left.
#[cycle(splits)]
#[tactic(auto, unfolding(crate::specs::inner::Reading::tree_by))]
fn read_tree_node<'a>(
    alloc: Global,
    levels: u32,
    total: usize,
    placed: &'a [Placed],
) -> Result<(SplitTree, &'a [Placed]), Stop>
    requires { total < 2 ^ 32 }
    ensures { Gives (λ x. (x.0, tokens x.1.now)) result
        (reading.tree_by (λ us. reading.layout_tree levels total us)
        (λ us. reading.leaf levels total (total - length us) us) (tokens placed.now)) }
{
    match placed {
        [] => Err(Stop::Stuck(0)),
        [first, rest @ ..] => match first.token {
            Token::Reserved(ReservedWord::Split) => read_split(alloc, levels, total, rest),
            Token::Upper(_) => read_leaf(alloc, levels, total, placed),
            _ => Err(Stop::Stuck(placed.len())),
        },
    }
}

/// A layout's tree, with so many levels left.
///
/// # Errors
///
/// `Stuck` at the first token at which no tree goes on, or `Deep` at the first that begins a node
/// beyond the levels, whichever stands first; or want of memory.
#[cycle(splits)]
#[tactic(auto, unfolding(crate::specs::inner::Reading::layout_tree))]
pub fn read_layout_tree<'a>(
    alloc: Global,
    levels: u32,
    total: usize,
    placed: &'a [Placed],
) -> Result<(SplitTree, &'a [Placed]), Stop>
    requires { total < 2 ^ 32 }
    ensures { Gives (λ x. (x.0, tokens x.1.now)) result (reading.layout_tree levels total (tokens placed.now)) }
{
    if levels == 0 {
        return Err(beyond(begins_tree(placed), placed));
    }
    read_tree_node(alloc, levels - 1, total, placed)
}
