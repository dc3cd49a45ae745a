//! What code that chooses the leaf of a construction asks, and what it begins with. A position is a
//! path, field numbers from the root. A provenance is the pattern of the values that a leaf holds,
//! and a `Place` is a constructor below the root of one, with its position. A look is code that
//! finds the leaf of the part at a position. `ty` is a data type by number, and `leaf` a leaf by
//! its number in the layout of that type. `agreed` has the program and its layouts, `parts` are the
//! parts of the construction that are in slots, and `seen` is what is known of it.

ghost use Rattle.std.specs.Prelude.{IfOk, MatchOption};
ghost use Rattle.rb_fetch.specs.inner.Asking.{AsksFor, IsAskedOf, IsLook, IsShown, IsStart, NeedsNone};

use crate::heads::{Place, bare_paths, field_heads, heads, leaf_at, next_place};
use crate::known::{Seen, leaf_known, leaves_known};
use crate::look::find_leaf;
use crate::parts::{count_leaves, parts_of, words_at};
use rb_compose::subvalue::Subvalue;
use rb_core::pattern::Pat;
use rb_core::seq::Seq;
use rb_core::types::ConRef;
use rb_fragment::held::Held;
use rb_layout::agreed::Agreed;
use rb_target::body::{Body, Hole};
use std::alloc::{AllocError, Global};

/// What the choice of a construction's leaf begins with: the leaves that it can have, by number,
/// its arguments as parts, and what is known of it.
#[derive(Drop)]
pub(crate) struct Start {
    pub leaves: Seq<usize>,
    pub parts: Seq<Subvalue>,
    pub seen: Seen,
}

/// A question for the leaf of a part: its place in the whole, the slots of its words, one a word,
/// and its leaf by number where what is known of the whole tells it.
#[derive(Drop)]
pub(crate) struct Question {
    pub place: Place,
    pub words: Seq<usize>,
    pub told: Option<usize>,
}

/// A look: how many leaves it tells apart, and the holes by which it leaves to them.
#[derive(Drop)]
pub(crate) struct Look {
    pub count: usize,
    pub holes: Seq<Hole>,
}

// What is known of a construction whose fields match the patterns `shown`.
fn seen_of(alloc: Global, agreed: &Agreed, shown: &[Pat]) -> Result<Seen, AllocError>
    ensures { IfOk result (λ seen. IsShown agreed.now shown.now seen) }
{
    let known = field_heads(alloc, shown)?;
    let types = agreed.covered().program().types.as_slice();
    let looked = bare_paths(alloc, types, known.as_slice())?;
    Ok(Seen { looked, known })
}

/// What the choice of the leaf of a construction by `con` begins with, where the arguments `args`
/// are in slots and match the patterns `shown`.
///
/// # Errors
///
/// Want of memory.
pub(crate) fn start_of(
    alloc: Global,
    agreed: &Agreed,
    con: ConRef,
    args: &[Held],
    shown: &[Pat],
) -> Result<Start, AllocError>
    ensures { IfOk result (λ start. IsStart agreed.now con args.now shown.now start) }
{
    let _typed = agreed.covered().program();
    let seen = seen_of(alloc, agreed, shown)?;
    let leaves = leaves_known(alloc, agreed.layouts(), con, seen.known.as_slice())?;
    let parts = parts_of(alloc, args)?;
    Ok(Start {
        leaves,
        parts,
        seen,
    })
}

// The question for the leaf of the part at a place. Want of memory is the answer also where no part
// of its type is there.
fn question_at(
    alloc: Global,
    agreed: &Agreed,
    place: &Place,
    parts: &[Subvalue],
    seen: &Seen,
) -> Result<Question, AllocError>
    ensures { IfOk result (λ question. IsAskedOf agreed.now place.now parts.now seen.now question) }
{
    let path = place.path.as_slice();
    let ty = place.con.ty;
    let words = words_at(alloc, parts, path, ty)?;
    let told = leaf_known(alloc, agreed.layouts(), ty, path, seen.known.as_slice())?;
    let copy = place.path.copy(alloc)?;
    let place = Place {
        path: copy,
        con: place.con,
    };
    Ok(Question { place, words, told })
}

/// The question that is next where this leaf is the first that can still be here: for the part at
/// the first place of it that needs a look still; None where no place does.
///
/// # Errors
///
/// Want of memory; the same answer where there is no such leaf, or no part at that place.
pub(crate) fn next_question(
    alloc: Global,
    agreed: &Agreed,
    ty: u32,
    leaf: usize,
    parts: &[Subvalue],
    seen: &Seen,
) -> Result<Option<Question>, AllocError>
    ensures { IfOk result (λ next. MatchOption next (NeedsNone agreed.now ty leaf seen.now)
        (λ question. AsksFor agreed.now ty leaf seen.now parts.now question)) }
{
    let _typed = agreed.covered().program();
    let Some(found) = leaf_at(agreed.layouts(), ty, leaf) else {
        return Err(AllocError);
    };
    let places = heads(alloc, found)?;
    match next_place(places.as_slice(), seen.looked.as_slice()) {
        None => Ok(None),
        Some(place) => {
            let question = question_at(alloc, agreed, place, parts, seen)?;
            Ok(Some(question))
        }
    }
}

/// Code that finds the leaf of a value of type `ty` whose words are in the slots `words`.
///
/// # Errors
///
/// Want of memory; the same answer where the type has no layout.
pub(crate) fn find_leaves(
    alloc: Global,
    body: &mut Body,
    agreed: &Agreed,
    ty: u32,
    words: &[usize],
) -> Result<Look, AllocError>
    ensures { IfOk result (λ look. IsLook agreed.now ty words.now body.old body.new look) }
{
    let _typed = agreed.covered().program();
    let Some(count) = count_leaves(agreed.layouts(), ty) else {
        return Err(AllocError);
    };
    let holes = find_leaf(alloc, body, words, agreed, ty)?;
    Ok(Look { count, holes })
}
