//! The walk along a path, from a subvalue of an image's value to one of its parts.
//!
//! A path is a list of field numbers. A site says where bits stand, in a root word or in a block. A
//! position is what a leaf's provenance, its pattern, has at a path from its root: it is open where
//! any value may stand, of a data type or an integer; else a constructor stands there, with fields
//! in the same leaf. In all that follows `agreed` has the program's types and their layouts, `walk`
//! is how far one has come, and `steps` counts the words that are read.

ghost use Rattle.std.specs.Prelude.{◌≡◌, ◌<◌, ◌+◌, ◌≤◌, IfOk, Some, length, map};
ghost use Rattle.rb_core.specs.declared.types.Ty.TheVariants.{Named};
ghost use Rattle.rb_rel.specs.Relation.{word_count};
ghost use Rattle.rb_image.specs.FieldSites.{AreNarrow};
ghost use Rattle.rb_image.specs.Fields.{field_of, position_of};
ghost use Rattle.rb_image.specs.Given.{IsGiven};
ghost use Rattle.rb_image.specs.Sites.{kept_of};
ghost use Rattle.rb_peek.specs.Walks as spec;
ghost use Rattle.rb_peek.specs.Walks.{ArePassed, IsPassed, seen_of, where_of};
ghost use Rattle.rb_peek.specs.inner.Ordering.{AreOrderly};
ghost use Rattle.rb_image_text.specs.Places.{AreInPlace};

use rb_core::pattern::Pat;
use rb_core::seq::Seq;
use rb_core::types::Ty;
use rb_edge::steps::{Ledger, Steps};
use rb_image::inside::{Inside, field_of};
use rb_image::site::Site;
use rb_image::visit::{Visited, visit};
use rb_image_text::fault::ImageFault;
use rb_image_text::image::Image;
use rb_layout::agreed::Agreed;
use rb_rel::words::word_count;
use std::alloc::Global;

/// A subvalue of a data type on a path: its type, the sites of its words, its leaf with the words of that, and the path
/// inside the leaf along which the walk goes on.
#[derive(Drop)]
pub struct Passed<'a> {
    pub ty: u32,
    pub sites: Vec<Site>,
    pub visited: Visited<'a>,
    pub at: Seq<u32>,
}

/// How far a walk has come: the subvalues of data types before, outer ones first, the last of them, and the position
/// inside its leaf.
#[derive(Drop)]
pub struct Walk<'a> {
    pub before: Vec<Passed<'a>>,
    pub last: Passed<'a>,
    pub here: Inside<'a>,
}

/// Tells proofs that each declared type has a layout, of leaves that can be read. Nothing else is
/// done.
pub(crate) fn tell_orderly(agreed: &Agreed)
    ensures { AreOrderly agreed.now.covered.program.types agreed.now.layouts }
{
    let _ = agreed.covered().program();
    let _ = agreed.layouts();
}

// The data type that a type is: none for an integer.
fn data_of(ty: Ty) -> Option<u32>
    ensures { result ≡ spec.data_of ty }
{
    match ty {
        Ty::Int(_) => None,
        Ty::Named(ty) => Some(ty),
    }
}

/// The data type of a position at which any value of it may stand; none for an integer, or where
/// the pattern has a number or a constructor.
pub(crate) fn open_data(here: Inside) -> Option<u32>
    ensures { result ≡ spec.open_data (position_of here.entry) }
{
    match here.pat {
        Pat::Wild(_) => data_of(here.ty),
        Pat::Var(_, _) => data_of(here.ty),
        Pat::Num(_, _) => None,
        Pat::Con(_, _, _) => None,
    }
}

// The subvalue of the data type `ty` that stands at these sites: its leaf is found and read. An
// error is that of `visit`.
fn see<'a, L: Ledger>(
    alloc: Global,
    agreed: &'a Agreed,
    image: &Image,
    ty: u32,
    sites: Vec<Site>,
    steps: &mut Steps<L>,
) -> Result<Passed<'a>, ImageFault>
    requires placed { AreInPlace image.now.blocks }
    requires declared { ty < length agreed.now.covered.program.types }
    requires narrow { AreNarrow sites.items }
    requires count { length sites.items ≡ word_count agreed.now.layouts (Named ty) }
    ensures seen { IsGiven seen_of
        (spec.see agreed.now.layouts image.now.blocks ty (map (kept_of image.now) sites.items)) result }
    ensures passed { IfOk result (IsPassed image.now) }
    ensures least { steps.old.taken ≤ steps.new.taken }
    ensures most { steps.new.taken ≤ steps.old.taken + spec.span_at agreed.now.layouts (Some ty) }
{
    tell_orderly(agreed);
    let Some(layout) = agreed.layouts().get(ty as usize) else {
        unreachable!();
    };
    let visited = visit(alloc, image, layout, sites.as_slice(), steps)?;
    let at = Seq::new(alloc);
    Ok(Passed {
        ty,
        sites,
        visited,
        at,
    })
}

// A walk that has come to the root of the leaf of the subvalue `last`, after the subvalues
// `before`.
fn arrive<'a>(before: Vec<Passed<'a>>, last: Passed<'a>) -> Walk<'a>
    ensures walk { where_of result ≡ spec.where_at_root (map seen_of before.entry.items) (seen_of last.entry) }
    ensures same { (result.before ≡ before.entry) × (result.last ≡ last.entry) }
{
    let leaf = last.visited.leaf;
    let here = Inside {
        pat: &leaf.prov,
        ty: Ty::Named(last.ty),
    };
    Walk { before, last, here }
}

// From a position at which any value of the data type `ty` may stand on to the root of that value's
// own leaf. An error is `BadPointer` for a refused pointer on the way to its words, or that of
// `visit`.
fn settle<'a, L: Ledger>(
    alloc: Global,
    agreed: &'a Agreed,
    image: &Image,
    walk: Walk<'a>,
    ty: u32,
    steps: &mut Steps<L>,
) -> Result<Walk<'a>, ImageFault>
    requires placed { AreInPlace image.now.blocks }
    requires declared { ty < length agreed.now.covered.program.types }
    requires passed { ArePassed image.now walk }
    ensures walk { IsGiven where_of
        (spec.where_settled agreed.now.layouts image.now.blocks (where_of walk.entry) (Some ty)) result }
    ensures passed { IfOk result (ArePassed image.now) }
    ensures least { steps.old.taken ≤ steps.new.taken }
    ensures most { steps.new.taken ≤ steps.old.taken + spec.span_at agreed.now.layouts (Some ty) }
{
    let Walk {
        before,
        last,
        here: _,
    } = walk;
    let mut before = before;
    let count = word_count(agreed.layouts(), Ty::Named(ty));
    let at = last.at.as_slice();
    let sites = last
        .visited
        .enter(alloc, image, last.sites.as_slice(), at, count)?;
    before.push(last)?;
    let next = see(alloc, agreed, image, ty, sites, steps)?;
    Ok(arrive(before, next))
}

// To a field of the constructor that was found, and into the value there if it stands open. The
// step has this number in the path; where it names no field, the error is `NoSuchPart` with it,
// else that of `settle`.
fn step<'a, L: Ledger>(
    alloc: Global,
    agreed: &'a Agreed,
    image: &Image,
    walk: Walk<'a>,
    number: u64,
    field: u32,
    steps: &mut Steps<L>,
) -> Result<Walk<'a>, ImageFault>
    requires placed { AreInPlace image.now.blocks }
    requires passed { ArePassed image.now walk }
    ensures walk { IsGiven where_of (spec.step agreed.now.covered.program.types agreed.now.layouts image.now.blocks
        number (where_of walk.entry) field) result }
    ensures passed { IfOk result (ArePassed image.now) }
    ensures least { steps.old.taken ≤ steps.new.taken }
    ensures most { steps.new.taken ≤ steps.old.taken + spec.open_span agreed.now.layouts
        (field_of agreed.now.covered.program.types walk.entry.here.pat.now field) }
{
    tell_orderly(agreed);
    let types = agreed.covered().program().types.as_slice();
    let Walk { before, last, here } = walk;
    let Some(next) = field_of(types, here.pat, field) else {
        return Err(ImageFault::NoSuchPart(number));
    };
    let mut last = last;
    last.at.push(field)?;
    let moved = Walk {
        before,
        last,
        here: next,
    };
    match open_data(next) {
        None => Ok(moved),
        Some(ty) => settle(alloc, agreed, image, moved, ty, steps),
    }
}

/// Where a path of field numbers leads from the value of a data type that stands at these sites: the subvalues of
/// data types to whose leaves it comes, and the position at its end. Where any value of a data type may stand at a
/// position, the walk goes on to that value's own leaf, also at the end. Each word is read by `read_word` alone; of
/// each data type to which one comes no more of them than its splits and words are.
///
/// # Errors
///
/// The first fault on the way: `NoSuchPart`, with the number of the step in the path, where the constructor found there
/// has no such field, or an integer stands there; `BadPointer` for the first pointer on the way to the subvalue's words
/// that leads to no block of the leaf's size, or, from within a block, not below that block; or the first fault of a
/// subvalue's splits, as of `visit`. Or want of memory.
pub fn walk_along<'a, L: Ledger>(
    alloc: Global,
    agreed: &'a Agreed,
    image: &Image,
    ty: u32,
    sites: Vec<Site>,
    path: &[u32],
    steps: &mut Steps<L>,
) -> Result<Walk<'a>, ImageFault>
    requires placed { AreInPlace image.now.blocks }
    requires declared { ty < length agreed.now.covered.program.types }
    requires narrow { AreNarrow sites.items }
    requires count { length sites.items ≡ word_count agreed.now.layouts (Named ty) }
    ensures walk { IsGiven where_of (spec.end_of_path agreed.now.covered.program.types agreed.now.layouts
        image.now.blocks ty (map (kept_of image.now) sites.items) path.now) result }
    ensures passed { IfOk result (ArePassed image.now) }
    ensures least { steps.old.taken ≤ steps.new.taken }
    ensures most { steps.new.taken ≤ steps.old.taken
        + spec.walk_span agreed.now.covered.program.types agreed.now.layouts image.now.blocks
        ty (map (kept_of image.now) sites.items) path.now }
{
    let first = see(alloc, agreed, image, ty, sites, steps)?;
    let mut walk = arrive(Vec::new(alloc), first);
    for (number, field) in path.iter().enumerate() {
        walk = step(alloc, agreed, image, walk, number as u64, *field, steps)?;
    }
    Ok(walk)
}
