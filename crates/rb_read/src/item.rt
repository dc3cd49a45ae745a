//! Reads the items of a file.
//!
//! Each reader takes the tokens that are left, `placed`, and gives what it read with those behind
//! it. Of the file there are `total` tokens in all, so that a token's number follows from how many
//! are left.
//!
//! A node is an expression, a pattern, a layout's tree or a pointer part. It takes one level of
//! those that are left, `levels`, and the nodes in it have one fewer. A reader is `Stuck` at the
//! first token that may not stand where it does, or behind the last token where the tokens end too
//! early. At a node for which no level is left it stops with `Deep`. Want of memory stops it, too.
//!
//! An item is what a file lists: a type, a layout or a function. The shape of a layout lists the
//! widths of its words. A derived layout is made from its type, as its word says.

ghost use Rattle.std.specs.Prelude.{◌≡◌, ◌<◌, ◌^◌};
ghost use Rattle.rb_core.specs.Limits.{most_levels};
ghost use Rattle.rb_syntax.specs.declared.token.Symbol.TheVariants as symbol;
ghost use Rattle.rb_syntax.specs.declared.token.Token.TheVariants as token;
ghost use Rattle.rb_syntax.specs.Tokens.{tokens};
ghost use Rattle.rb_read.specs.inner.Combining as combining;
ghost use Rattle.rb_read.specs.inner.Reading as reading;
ghost use Rattle.rb_read.specs.inner.Tokens.{number};
ghost use Rattle.rb_read.specs.inner.Gives.{Gives, seen_rest};

use crate::each::read_each;
use crate::expression::read_expression;
use crate::layout::read_layout_tree;
use crate::list::{read_any_closed, read_some_closed};
use crate::stop::Stop;
use crate::tokens::{expect, number_of, read_lower_before, read_number, read_upper};
use crate::types::{read_constructor, read_parameter, read_type_before};
use rb_core::limits::MOST_LEVELS;
use rb_core::seq::Seq;
use rb_syntax::token::{Placed, ReservedWord, Symbol, Token};
use rb_syntax::tree::{
    Auto, ConTree, ExprTree, FunTree, ItemTree, LayoutTree, ParamTree, SplitTree, TyTree, TypeTree,
};
use std::alloc::Global;

/// A layout behind its type's name: its shape and tree, or the word of a derived one.
#[derive(Drop)]
pub enum LayoutRest {
    /// The widths of the shape's words, and the tree.
    LaidOut(Seq<u64>, SplitTree),
    /// How the layout is derived.
    Derived(Auto),
}

// The widths of the words of a layout's shape, one or more, and the `>` that closes it.
fn read_shape(alloc: Global, placed: &[Placed]) -> Result<(Seq<u64>, &[Placed]), Stop>
    ensures { Gives (λ x. (x.0, tokens x.1.now)) result
        (combining.some_closed number symbol.Comma symbol.Greater (tokens placed.now)) }
{
    read_some_closed(alloc, read_number, Symbol::Comma, Symbol::Greater, placed)
}

// A type's constructors, one or more, with bars between, and the semicolon behind them.
fn read_constructors(
    alloc: Global,
    total: usize,
    placed: &[Placed],
) -> Result<(Seq<ConTree>, &[Placed]), Stop>
    requires { total < 2 ^ 32 }
    ensures { Gives (λ x. (x.0, tokens x.1.now)) result
        (combining.some_closed (reading.con_tree total) symbol.Bar symbol.Semicolon (tokens placed.now)) }
{
    read_some_closed(
        alloc,
        |rest| read_constructor(alloc, total, rest),
        Symbol::Bar,
        Symbol::Semicolon,
        placed,
    )
}

// Any number of parameters with commas between, and the parenthesis that closes them.
fn read_parameters(
    alloc: Global,
    total: usize,
    placed: &[Placed],
) -> Result<(Seq<ParamTree>, &[Placed]), Stop>
    requires { total < 2 ^ 32 }
    ensures { Gives (λ x. (x.0, tokens x.1.now)) result
        (combining.any_closed (reading.param_tree total) symbol.CloseParen (tokens placed.now)) }
{
    read_any_closed(
        alloc,
        |rest| read_parameter(alloc, total, rest),
        Symbol::CloseParen,
        placed,
    )
}

// How a layout is derived: the word `boxed` or `packed`.
#[tactic(auto, unfolding(crate::specs::inner::Reading::auto_word, crate::specs::inner::Reading::auto_from))]
fn read_auto(placed: &[Placed]) -> Result<(Auto, &[Placed]), Stop>
    ensures { Gives (λ x. (x.0, tokens x.1.now)) result (reading.auto_word (tokens placed.now)) }
{
    match placed {
        [] => Err(Stop::Stuck(0)),
        [first, rest @ ..] => match first.token {
            Token::Reserved(ReservedWord::Boxed) => Ok((Auto::Boxed, rest)),
            Token::Reserved(ReservedWord::Packed) => Ok((Auto::Packed, rest)),
            _ => Err(Stop::Stuck(placed.len())),
        },
    }
}

// A derived layout behind its equals sign: `boxed;`.
#[tactic(auto, unfolding(crate::specs::inner::Reading::layout_rest_from, crate::specs::inner::Combining::pair, crate::specs::inner::Combining::into))]
fn read_derived(placed: &[Placed]) -> Result<(LayoutRest, &[Placed]), Stop>
    ensures { Gives (λ x. (seen_rest x.0, tokens x.1.now)) result
        (reading.layout_rest_from 0 0 (token.Symbol symbol.Equals) (tokens placed.now)) }
{
    let (auto, rest) = read_auto(placed)?;
    let rest = expect(Symbol::Semicolon, rest)?;
    Ok((LayoutRest::Derived(auto), rest))
}

// A written layout behind the `<` that opens its shape: `64, 64> = ...;`.
#[tactic(auto, unfolding(crate::specs::inner::Reading::layout_rest_from, crate::specs::inner::Combining::pair, crate::specs::inner::Combining::into))]
fn read_laid_out(
    alloc: Global,
    levels: u32,
    total: usize,
    placed: &[Placed],
) -> Result<(LayoutRest, &[Placed]), Stop>
    requires { total < 2 ^ 32 }
    ensures { Gives (λ x. (seen_rest x.0, tokens x.1.now)) result
        (reading.layout_rest_from levels total (token.Symbol symbol.Less) (tokens placed.now)) }
{
    let (shape, rest) = read_shape(alloc, placed)?;
    let rest = expect(Symbol::Equals, rest)?;
    let (tree, rest) = read_layout_tree(alloc, levels, total, rest)?;
    let rest = expect(Symbol::Semicolon, rest)?;
    Ok((LayoutRest::LaidOut(shape, tree), rest))
}

// A layout behind its type's name: `<64> = ...;` or `= boxed;`.
#[tactic(auto, unfolding(crate::specs::inner::Reading::layout_rest, crate::specs::inner::Reading::layout_rest_from))]
fn read_layout_rest(
    alloc: Global,
    levels: u32,
    total: usize,
    placed: &[Placed],
) -> Result<(LayoutRest, &[Placed]), Stop>
    requires { total < 2 ^ 32 }
    ensures { Gives (λ x. (seen_rest x.0, tokens x.1.now)) result
        (reading.layout_rest levels total (tokens placed.now)) }
{
    match placed {
        [] => Err(Stop::Stuck(0)),
        [first, rest @ ..] => match first.token {
            Token::Symbol(Symbol::Less) => read_laid_out(alloc, levels, total, rest),
            Token::Symbol(Symbol::Equals) => read_derived(rest),
            _ => Err(Stop::Stuck(placed.len())),
        },
    }
}

// A layout behind the word `layout`, whose number is `at`: `T <64> = ...;` or `T = boxed;`.
#[tactic(auto, unfolding(crate::specs::inner::Reading::layout_item, crate::specs::inner::Combining::pair, crate::specs::inner::Combining::into))]
fn read_layout(
    alloc: Global,
    levels: u32,
    total: usize,
    at: u32,
    placed: &[Placed],
) -> Result<(ItemTree, &[Placed]), Stop>
    requires { total < 2 ^ 32 }
    ensures { Gives (λ x. (x.0, tokens x.1.now)) result (reading.layout_item levels total at (tokens placed.now)) }
{
    let (ty, rest) = read_upper(alloc, total, placed)?;
    let (form, rest) = read_layout_rest(alloc, levels, total, rest)?;
    let item = match form {
        LayoutRest::LaidOut(shape, tree) => ItemTree::Layouts(LayoutTree {
            at,
            ty,
            shape,
            tree,
        }),
        LayoutRest::Derived(auto) => ItemTree::Derived(ty, auto),
    };
    Ok((item, rest))
}

// A type behind the word `type`: `T = A | B(u8);`.
#[tactic(auto, unfolding(crate::specs::inner::Reading::type_item, crate::specs::inner::Combining::pair, crate::specs::inner::Combining::into))]
fn read_type_item(
    alloc: Global,
    total: usize,
    placed: &[Placed],
) -> Result<(ItemTree, &[Placed]), Stop>
    requires { total < 2 ^ 32 }
    ensures { Gives (λ x. (x.0, tokens x.1.now)) result (reading.type_item most_levels total (tokens placed.now)) }
{
    let (name, rest) = read_upper(alloc, total, placed)?;
    let rest = expect(Symbol::Equals, rest)?;
    let (cons, rest) = read_constructors(alloc, total, rest)?;
    Ok((ItemTree::Types(TypeTree { name, cons }), rest))
}

// The type of a function's results between the symbols beside it: `: U =`.
#[tactic(auto, unfolding(crate::specs::inner::Reading::result_type, crate::specs::inner::Combining::pair, crate::specs::inner::Combining::into))]
fn read_result_type(
    alloc: Global,
    total: usize,
    placed: &[Placed],
) -> Result<(TyTree, &[Placed]), Stop>
    requires { total < 2 ^ 32 }
    ensures { Gives (λ x. (x.0, tokens x.1.now)) result (reading.result_type total (tokens placed.now)) }
{
    let rest = expect(Symbol::Colon, placed)?;
    let (ty, rest) = read_type_before(alloc, total, Symbol::Equals, rest)?;
    Ok((ty, rest))
}

// A function's body, with the semicolon behind it: `e;`.
#[tactic(auto, unfolding(crate::specs::inner::Combining::closed_by, crate::specs::inner::Combining::pair, crate::specs::inner::Combining::into))]
fn read_body(
    alloc: Global,
    levels: u32,
    total: usize,
    placed: &[Placed],
) -> Result<(ExprTree, &[Placed]), Stop>
    requires { total < 2 ^ 32 }
    ensures { Gives (λ x. (x.0, tokens x.1.now)) result
        (combining.closed_by (reading.expression levels total) symbol.Semicolon (tokens placed.now)) }
{
    let (body, rest) = read_expression(alloc, levels, total, placed)?;
    let rest = expect(Symbol::Semicolon, rest)?;
    Ok((body, rest))
}

// A function behind the word `fun`: `f(x: T): U = e;`.
#[tactic(auto, unfolding(crate::specs::inner::Reading::fun_item, crate::specs::inner::Combining::pair, crate::specs::inner::Combining::into))]
fn read_fun(
    alloc: Global,
    levels: u32,
    total: usize,
    placed: &[Placed],
) -> Result<(ItemTree, &[Placed]), Stop>
    requires { total < 2 ^ 32 }
    ensures { Gives (λ x. (x.0, tokens x.1.now)) result (reading.fun_item levels total (tokens placed.now)) }
{
    let (name, rest) = read_lower_before(alloc, total, Symbol::OpenParen, placed)?;
    let (params, rest) = read_parameters(alloc, total, rest)?;
    let (result, rest) = read_result_type(alloc, total, rest)?;
    let (body, rest) = read_body(alloc, levels, total, rest)?;
    let fun = FunTree {
        name,
        params,
        result,
        body,
    };
    Ok((ItemTree::Funs(fun), rest))
}

// An item of a file: a type, a layout or a function.
#[tactic(auto, unfolding(crate::specs::inner::Reading::file_item, crate::specs::inner::Reading::file_item_from))]
fn read_item(alloc: Global, total: usize, placed: &[Placed]) -> Result<(ItemTree, &[Placed]), Stop>
    requires { total < 2 ^ 32 }
    ensures { Gives (λ x. (x.0, tokens x.1.now)) result (reading.file_item most_levels total (tokens placed.now)) }
{
    match placed {
        [] => Err(Stop::Stuck(0)),
        [first, rest @ ..] => match first.token {
            Token::Reserved(ReservedWord::Type) => read_type_item(alloc, total, rest),
            Token::Reserved(ReservedWord::Layout) => {
                let at = number_of(total, placed);
                read_layout(alloc, MOST_LEVELS, total, at, rest)
            }
            Token::Reserved(ReservedWord::Fun) => read_fun(alloc, MOST_LEVELS, total, rest),
            _ => Err(Stop::Stuck(placed.len())),
        },
    }
}

// Whether the first token begins an item of a file; not where there is no token.
fn begins_item(placed: &[Placed]) -> bool
    ensures { result ≡ combining.at_front (λ t. reading.begins_item t) (tokens placed.now) }
{
    match placed {
        [] => false,
        [first, ..] => matches!(
            &first.token,
            Token::Reserved(ReservedWord::Type | ReservedWord::Layout | ReservedWord::Fun)
        ),
    }
}

/// The items of a file of `total` tokens, as long as the first token begins one; there may be none.
/// Each body, and the tree of each layout, has at most `MOST_LEVELS` levels.
///
/// # Errors
///
/// `Stuck` at the first token at which an item that was begun does not go on, or `Deep` at the
/// first that begins a node beyond the levels, whichever stands first; or want of memory.
pub fn read_items(
    alloc: Global,
    total: usize,
    placed: &[Placed],
) -> Result<(Seq<ItemTree>, &[Placed]), Stop>
    requires { total < 2 ^ 32 }
    ensures { Gives (λ x. (x.0, tokens x.1.now)) result
        (reading.file_items total most_levels (tokens placed.now)) }
{
    read_each(
        alloc,
        |rest| begins_item(rest),
        |rest| read_item(alloc, total, rest),
        placed,
    )
}
