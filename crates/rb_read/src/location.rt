//! Ranges, paths and locations.
//!
//! Each reader takes the tokens that are left, `placed`, and gives what it read with those behind
//! it. A reader is `Stuck` at the first token that may not stand where it does, or behind the last
//! token where the tokens end too early.
//!
//! A range is the first bit and the length of some bits. A path leads to a field: the number of a
//! field, of a field in that one, and so on. A location leads to bits of a value's words: a range
//! in one of the words, and steps, each of which follows the pointer that was reached, to bits of a
//! word behind it.

ghost use Rattle.std.specs.Prelude.{◌≡◌, ◌∷◌, IfOk};
ghost use Rattle.rb_syntax.specs.declared.token.Symbol.TheVariants as symbol;
ghost use Rattle.rb_syntax.specs.Tokens.{tokens};
ghost use Rattle.rb_read.specs.inner.Combining as combining;
ghost use Rattle.rb_read.specs.inner.Starting as starting;
ghost use Rattle.rb_read.specs.inner.Reading as reading;
ghost use Rattle.rb_read.specs.inner.Gives.{Gives};

use crate::each::read_each;
use crate::stop::Stop;
use crate::tokens::{begins_with, expect, read_field, read_number};
use rb_core::seq::Seq;
use rb_syntax::token::{Placed, Symbol};
use rb_syntax::tree::{Loc, Step};
use std::alloc::{AllocError, Global};

/// `0:8]`, behind the bracket of a range: its first bit and its length.
///
/// # Errors
///
/// `Stuck` at the first token at which no range goes on.
#[tactic(auto, unfolding(crate::specs::inner::Reading::range_rest, crate::specs::inner::Combining::pair, crate::specs::inner::Combining::into))]
pub fn read_range_rest(placed: &[Placed]) -> Result<((u64, u64), &[Placed]), Stop>
    ensures { Gives (λ x. (x.0, tokens x.1.now)) result (reading.range_rest (tokens placed.now)) }
{
    let (first, rest) = read_number(placed)?;
    let rest = expect(Symbol::Colon, rest)?;
    let (bits, rest) = read_number(rest)?;
    let rest = expect(Symbol::CloseBracket, rest)?;
    Ok(((first, bits), rest))
}

/// A range of bits, `[0:8]`: its first bit and its length.
///
/// # Errors
///
/// `Stuck` at the first token at which no range goes on.
#[tactic(auto, unfolding(crate::specs::inner::Reading::range, crate::specs::inner::Combining::pair, crate::specs::inner::Combining::into))]
pub fn read_range(placed: &[Placed]) -> Result<((u64, u64), &[Placed]), Stop>
    ensures { Gives (λ x. (x.0, tokens x.1.now)) result (reading.range (tokens placed.now)) }
{
    let rest = expect(Symbol::OpenBracket, placed)?;
    let (range, rest) = read_range_rest(rest)?;
    Ok((range, rest))
}

// A field in a path, `.0`.
#[tactic(auto, unfolding(crate::specs::inner::Reading::field_in, crate::specs::inner::Combining::pair, crate::specs::inner::Combining::into))]
fn read_field_in(placed: &[Placed]) -> Result<(u32, &[Placed]), Stop>
    ensures { Gives (λ x. (x.0, tokens x.1.now)) result (reading.field_in (tokens placed.now)) }
{
    let rest = expect(Symbol::Dot, placed)?;
    let (field, rest) = read_field(rest)?;
    Ok((field, rest))
}

/// The fields of a path behind its first, any number: `.1.2` in `.0.1.2`.
///
/// # Errors
///
/// `Stuck` where no number of a field stands behind a dot; or want of memory.
pub fn read_more_fields(alloc: Global, placed: &[Placed]) -> Result<(Seq<u32>, &[Placed]), Stop>
    ensures { Gives (λ x. (x.0, tokens x.1.now)) result (reading.more_fields (tokens placed.now)) }
{
    read_each(
        alloc,
        |rest| begins_with(Symbol::Dot, rest),
        read_field_in,
        placed,
    )
}

/// A path's fields: the first, which is read on its own, before the others.
///
/// # Errors
///
/// Want of memory.
pub(crate) fn joined_path(first: u32, others: Seq<u32>) -> Result<Seq<u32>, AllocError>
    ensures { IfOk result (λ fields. fields ≡ first ∷ others) }
{
    let mut fields = others.into_vec();
    fields.insert(0, first)?;
    Ok(Seq::from_vec(fields))
}

/// A path of fields, one or more: `.0.1`.
///
/// # Errors
///
/// `Stuck` at the first token at which no path goes on; or want of memory.
#[tactic(auto, unfolding(crate::specs::inner::Reading::path, crate::specs::inner::Combining::pair, crate::specs::inner::Combining::into))]
pub fn read_path(alloc: Global, placed: &[Placed]) -> Result<(Seq<u32>, &[Placed]), Stop>
    ensures { Gives (λ x. (x.0, tokens x.1.now)) result (reading.path (tokens placed.now)) }
{
    let (first, rest) = read_field_in(placed)?;
    let (others, rest) = read_more_fields(alloc, rest)?;
    let path = joined_path(first, others)?;
    Ok((path, rest))
}

// A step of a location, `-> 4 @0:8[0:8]`: alignment, byte, width, and range of bits.
#[tactic(auto, unfolding(crate::specs::inner::Reading::loc_step, crate::specs::inner::Combining::pair, crate::specs::inner::Combining::into))]
fn read_step(placed: &[Placed]) -> Result<(Step, &[Placed]), Stop>
    ensures { Gives (λ x. (x.0, tokens x.1.now)) result (reading.loc_step (tokens placed.now)) }
{
    let rest = expect(Symbol::Arrow, placed)?;
    let (align, rest) = read_number(rest)?;
    let rest = expect(Symbol::At, rest)?;
    let (byte, rest) = read_number(rest)?;
    let rest = expect(Symbol::Colon, rest)?;
    let (width, rest) = read_number(rest)?;
    let ((o, l), rest) = read_range(rest)?;
    let step = Step {
        align,
        byte,
        width,
        o,
        l,
    };
    Ok((step, rest))
}

// The steps of a location, any number.
fn read_steps(alloc: Global, placed: &[Placed]) -> Result<(Seq<Step>, &[Placed]), Stop>
    ensures { Gives (λ x. (x.0, tokens x.1.now)) result
        (combining.each_of (λ t. starting.is_symbol symbol.Arrow t) reading.loc_step (tokens placed.now)) }
{
    read_each(
        alloc,
        |rest| begins_with(Symbol::Arrow, rest),
        read_step,
        placed,
    )
}

/// A location, `0[0:32] -> 4 @0:8[0:8]`: a range of bits in a word, and any number of steps.
///
/// # Errors
///
/// `Stuck` at the first token at which no location goes on; or want of memory.
#[tactic(auto, unfolding(crate::specs::inner::Reading::location, crate::specs::inner::Combining::pair, crate::specs::inner::Combining::into))]
pub fn read_location(alloc: Global, placed: &[Placed]) -> Result<(Loc, &[Placed]), Stop>
    ensures { Gives (λ x. (x.0, tokens x.1.now)) result (reading.location (tokens placed.now)) }
{
    let (word, rest) = read_number(placed)?;
    let ((o, l), rest) = read_range(rest)?;
    let (steps, rest) = read_steps(alloc, rest)?;
    let loc = Loc { word, o, l, steps };
    Ok((loc, rest))
}
