//! The words of a leaf or a block, and their parts. Pointer parts are counted by the levels that
//! are left.
//!
//! Each reader takes the tokens that are left, `placed`, and gives what it read with those behind
//! it.
//!
//! A leaf has the words of a value, and a block has the words to which a pointer leads. Either
//! lists items: a word of some width with its parts, or all words of a field. A part is a range of
//! a word's bits with what it holds: a constant, a field, some bits or one word of it, or a pointer
//! to a block. A path leads to a field: the number of a field, of a field in that one, and so on.
//!
//! A pointer part takes one level of those that are left, `levels`, and the pointer parts in its
//! block have one fewer. A reader is `Stuck` at the first token that may not stand where it does,
//! or behind the last token where the tokens end too early. At a pointer part for which no level is
//! left it stops with `Deep`. Want of memory stops it, too.

ghost use Rattle.std.specs.Prelude.{◌≡◌};
ghost use Rattle.rb_syntax.specs.declared.token.Symbol.TheVariants as symbol;
ghost use Rattle.rb_syntax.specs.declared.token.Token.TheVariants as token;
ghost use Rattle.rb_syntax.specs.declared.token.ReservedWord.TheVariants as word;
ghost use Rattle.rb_syntax.specs.Tokens.{tokens};
ghost use Rattle.rb_read.specs.inner.Combining as combining;
ghost use Rattle.rb_read.specs.inner.Gives.{Gives, seen_end};
ghost use Rattle.rb_read.specs.inner.Reading as reading;
ghost use Rattle.rb_read.specs.inner.Reading.{pointer_tree};

use crate::list::{read_any_closed, read_some_closed};
use crate::location::{joined_path, read_more_fields, read_path, read_range, read_range_rest};
use crate::stop::Stop;
use crate::tokens::{expect, read_field, read_number};
use rb_core::seq::Seq;
use rb_syntax::token::{Placed, ReservedWord, Symbol, Token};
use rb_syntax::tree::{LayItem, PartDecl, PartKind};
use std::alloc::Global;

/// What stands behind a path in a part: the first bit and the length of a slice, or a word's
/// number.
#[derive(Clone, Copy)]
pub enum PathEnd {
    Sliced(u64, u64),
    Numbered(u64),
}

// `[0:8]` or `word 1` behind a path; None where neither begins there.
#[tactic(auto, unfolding(crate::specs::inner::Combining::optional, crate::specs::inner::Reading::path_end, crate::specs::inner::Reading::path_end_from, crate::specs::inner::Combining::into))]
fn read_path_end(placed: &[Placed]) -> Result<(Option<PathEnd>, &[Placed]), Stop>
    ensures { Gives (λ x. (seen_end x.0, tokens x.1.now)) result
        (combining.optional reading.ends_path reading.path_end (tokens placed.now)) }
{
    match placed {
        [] => Ok((None, placed)),
        [first, rest @ ..] => match first.token {
            Token::Symbol(Symbol::OpenBracket) => {
                let ((first, bits), rest) = read_range_rest(rest)?;
                Ok((Some(PathEnd::Sliced(first, bits)), rest))
            }
            Token::Reserved(ReservedWord::Word) => {
                let (j, rest) = read_number(rest)?;
                Ok((Some(PathEnd::Numbered(j)), rest))
            }
            _ => Ok((None, placed)),
        },
    }
}

// What a part holds of the field at a path: all of it where nothing stands behind the path, some
// bits, or one word.
fn field_part(path: Seq<u32>, end: Option<PathEnd>) -> PartKind
    ensures { result ≡ reading.field_part path (seen_end end) }
{
    match end {
        None => PartKind::Whole(path),
        Some(PathEnd::Sliced(first, bits)) => PartKind::Slice(path, first, bits),
        Some(PathEnd::Numbered(j)) => PartKind::Word(path, j),
    }
}

// What a part holds of a field, behind its path's first dot.
#[tactic(auto, unfolding(crate::specs::inner::Reading::part_kind_from, crate::specs::inner::Combining::pair, crate::specs::inner::Combining::into))]
fn read_field_part(alloc: Global, placed: &[Placed]) -> Result<(PartKind, &[Placed]), Stop>
    ensures { Gives (λ x. (x.0, tokens x.1.now)) result
        (reading.part_kind_from reading.no_pointer (token.Symbol symbol.Dot) (tokens placed.now)) }
{
    let (first, rest) = read_field(placed)?;
    let (others, rest) = read_more_fields(alloc, rest)?;
    let (end, rest) = read_path_end(rest)?;
    let path = joined_path(first, others)?;
    let kind = field_part(path, end);
    Ok((kind, rest))
}

// A pointer part behind its arrow, its alignment and its block: `8 { inline .1 }`. Where no level
// is left, the arrow, which was taken already, begins a node too deep.
#[cycle(leaf)]
#[tactic(auto, unfolding(crate::specs::inner::Reading::pointer_tree, crate::specs::inner::Reading::no_pointer, crate::specs::inner::Reading::pointer, crate::specs::inner::Combining::pair, crate::specs::inner::Combining::into))]
fn read_pointed<'a>(
    alloc: Global,
    levels: u32,
    placed: &'a [Placed],
) -> Result<(PartKind, &'a [Placed]), Stop>
    ensures { Gives (λ x. (x.0, tokens x.1.now)) result (pointer_tree levels (tokens placed.now)) }
{
    if levels == 0 {
        return Err(Stop::Deep(placed.len() + 1));
    }
    let (align, rest) = read_number(placed)?;
    let rest = expect(Symbol::OpenBrace, rest)?;
    let (items, rest) = read_items(alloc, levels - 1, rest)?;
    Ok((PartKind::Pointer(align, items), rest))
}

// What a part holds: `= 5`, `.0`, `.0[0:8]`, `.0 word 1` or `-> 8 { inline .1 }`.
#[cycle(leaf)]
#[tactic(auto, unfolding(crate::specs::inner::Reading::part_kind, crate::specs::inner::Reading::part_kind_from, crate::specs::inner::Combining::into))]
fn read_part_kind<'a>(
    alloc: Global,
    levels: u32,
    placed: &'a [Placed],
) -> Result<(PartKind, &'a [Placed]), Stop>
    ensures { Gives (λ x. (x.0, tokens x.1.now)) result (reading.part_kind (pointer_tree levels) (tokens placed.now)) }
{
    match placed {
        [] => Err(Stop::Stuck(0)),
        [first, rest @ ..] => match first.token {
            Token::Symbol(Symbol::Equals) => {
                let (n, rest) = read_number(rest)?;
                Ok((PartKind::Const(n), rest))
            }
            Token::Symbol(Symbol::Dot) => read_field_part(alloc, rest),
            Token::Symbol(Symbol::Arrow) => read_pointed(alloc, levels, rest),
            _ => Err(Stop::Stuck(placed.len())),
        },
    }
}

// A part of a word, `[0:8] .0`: its range of bits, and what it holds.
#[cycle(leaf)]
#[tactic(auto, unfolding(crate::specs::inner::Reading::part, crate::specs::inner::Combining::pair, crate::specs::inner::Combining::into))]
fn read_part<'a>(
    alloc: Global,
    levels: u32,
    placed: &'a [Placed],
) -> Result<(PartDecl, &'a [Placed]), Stop>
    ensures { Gives (λ x. (x.0, tokens x.1.now)) result (reading.part (pointer_tree levels) (tokens placed.now)) }
{
    let ((o, l), rest) = read_range(placed)?;
    let (kind, rest) = read_part_kind(alloc, levels, rest)?;
    Ok((PartDecl { o, l, kind }, rest))
}

// Any number of parts of a word with commas between, and the brace that closes them.
#[cycle(leaf)]
fn read_parts<'a>(
    alloc: Global,
    levels: u32,
    placed: &'a [Placed],
) -> Result<(Seq<PartDecl>, &'a [Placed]), Stop>
    ensures { Gives (λ x. (x.0, tokens x.1.now)) result
        (combining.any_closed (reading.part (pointer_tree levels)) symbol.CloseBrace (tokens placed.now)) }
{
    read_any_closed(
        alloc,
        |rest|
            ensures { Gives (λ x. (x.0, tokens x.1.now)) result (reading.part (pointer_tree levels) (tokens rest.now)) }
        { read_part(alloc, levels, rest) },
        Symbol::CloseBrace,
        placed,
    )
}

// A word of a leaf or block behind the word `word`: `32 { [0:32] .0 }`, its width and its parts.
#[cycle(leaf)]
#[tactic(auto, unfolding(crate::specs::inner::Reading::item_from, crate::specs::inner::Combining::pair, crate::specs::inner::Combining::into))]
fn read_word<'a>(
    alloc: Global,
    levels: u32,
    placed: &'a [Placed],
) -> Result<(LayItem, &'a [Placed]), Stop>
    ensures { Gives (λ x. (x.0, tokens x.1.now)) result
        (reading.item_from (pointer_tree levels) (token.Reserved word.Word) (tokens placed.now)) }
{
    let (bits, rest) = read_number(placed)?;
    let rest = expect(Symbol::OpenBrace, rest)?;
    let (parts, rest) = read_parts(alloc, levels, rest)?;
    Ok((LayItem::Word(bits, parts), rest))
}

// An item of a leaf or block: a word with its parts, or the words of a field, `inline .1`.
#[cycle(leaf)]
#[tactic(auto, unfolding(crate::specs::inner::Reading::item_one, crate::specs::inner::Reading::item_from, crate::specs::inner::Combining::into))]
fn read_item<'a>(
    alloc: Global,
    levels: u32,
    placed: &'a [Placed],
) -> Result<(LayItem, &'a [Placed]), Stop>
    ensures { Gives (λ x. (x.0, tokens x.1.now)) result (reading.item_one (pointer_tree levels) (tokens placed.now)) }
{
    match placed {
        [] => Err(Stop::Stuck(0)),
        [first, rest @ ..] => match first.token {
            Token::Reserved(ReservedWord::Word) => read_word(alloc, levels, rest),
            Token::Reserved(ReservedWord::Inline) => {
                let (path, rest) = read_path(alloc, rest)?;
                Ok((LayItem::Inline(path), rest))
            }
            _ => Err(Stop::Stuck(placed.len())),
        },
    }
}

// Any number of items of a block with commas between, and the brace that closes them.
#[cycle(leaf)]
fn read_items<'a>(
    alloc: Global,
    levels: u32,
    placed: &'a [Placed],
) -> Result<(Seq<LayItem>, &'a [Placed]), Stop>
    ensures { Gives (λ x. (x.0, tokens x.1.now)) result
        (combining.any_closed (λ us. reading.lay_item_tree levels us) symbol.CloseBrace (tokens placed.now)) }
{
    read_any_closed(
        alloc,
        |rest|
            ensures { Gives (λ x. (x.0, tokens x.1.now)) result
                (reading.item_one (pointer_tree levels) (tokens rest.now)) }
        { read_item(alloc, levels, rest) },
        Symbol::CloseBrace,
        placed,
    )
}

/// One item of a leaf or more with commas between, and the brace that closes them.
///
/// # Errors
///
/// `Stuck` at the first token at which no items go on, or `Deep` at the first that begins a pointer
/// part beyond the levels, whichever stands first; or want of memory.
pub(crate) fn read_some_items(
    alloc: Global,
    levels: u32,
    placed: &[Placed],
) -> Result<(Seq<LayItem>, &[Placed]), Stop>
    ensures { Gives (λ x. (x.0, tokens x.1.now)) result
        (combining.some_closed (λ us. reading.lay_item_tree levels us) symbol.Comma symbol.CloseBrace
        (tokens placed.now)) }
{
    read_some_closed(
        alloc,
        |rest|
            ensures { Gives (λ x. (x.0, tokens x.1.now)) result
                (reading.item_one (pointer_tree levels) (tokens rest.now)) }
        { read_item(alloc, levels, rest) },
        Symbol::Comma,
        Symbol::CloseBrace,
        placed,
    )
}
