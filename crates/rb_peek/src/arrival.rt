//! Positions to which one comes on the way down through values that leaves have taken apart.
//!
//! A position is what a leaf's provenance, its pattern, has at a path: a list of field numbers from
//! the leaf's root. It is open where the pattern lets any value stand there; elsewhere the leaf has
//! taken the value apart: its fields stand in parts of the leaf. An arrival is a position to which
//! one came, and a view borrows one. `agreed` has the program's types and their layouts. `image` is
//! that from which the first leaf's words were read; nothing is read of it here. `Memory` as a
//! fault is want of memory, or is given where there is no layout, leaf or field to go on with.

ghost use Rattle.std.specs.Prelude.{◌≡◌, IfOk, List};
ghost use Rattle.rb_layout.specs.Readable.{IsReadable};
ghost use Rattle.rb_image.specs.Given.{IsGiven};
ghost use Rattle.rb_peek.specs.Views as spec;
ghost use Rattle.rb_peek.specs.inner.Standing.{IsArrival, IsShown, come_to, position_shown, source_words};
ghost use Rattle.rb_image_text.specs.Places.{AreInPlace};
ghost use Rattle.rb_image_text.specs.declared.image.ImageBlock.{ImageBlock};

use crate::view::View;
use crate::walk::{open_data, tell_orderly};
use rb_core::seq::Seq;
use rb_core::types::Ty;
use rb_image::inside::{Inside, field_of};
use rb_image::kept::Kept;
use rb_image::leaf_words::LeafWords;
use rb_image::order::order_of;
use rb_image::parts::examine;
use rb_image::splits::leaf_at;
use rb_image_text::fault::ImageFault;
use rb_image_text::image::Image;
use rb_layout::agreed::Agreed;
use rb_layout::layout::Leaf;
use std::alloc::{AllocError, Global};

/// The words of a leaf: lent by the view from which one began, or the arrival's own.
#[derive(Drop)]
pub enum Source<'a> {
    Lent(&'a LeafWords),
    Own(LeafWords),
}

/// A position in a leaf to which one came: the leaf and its words, the path to the position, and
/// what stands there.
#[derive(Drop)]
pub struct Arrival<'a> {
    pub leaf: &'a Leaf,
    pub source: Source<'a>,
    pub at: Seq<u32>,
    pub here: Inside<'a>,
}

impl<'a> Arrival<'a> {
    // The words of the leaf, be they lent or its own.
    fn words(&self) -> &LeafWords
        ensures { result.now ≡ source_words self.now.source }
    {
        match &self.source {
            Source::Lent(words) => words,
            Source::Own(words) => words,
        }
    }

    /// The position to which one came, as a view of it.
    pub(crate) fn view(&self) -> View
        ensures same { position_shown result ≡ come_to self.now }
        ensures shown { (m : List ImageBlock) → IsArrival m self.now → IsShown m result }
    {
        View {
            leaf: self.leaf,
            words: self.words(),
            at: self.at.as_slice(),
            here: self.here,
        }
    }
}

// The arrival at the root of a leaf, where a value of the data type `ty` stands whose words are
// `root`. No block of the leaf is read.
fn at_root<'a>(
    alloc: Global,
    leaf: &'a Leaf,
    ty: u32,
    root: Vec<Kept>,
) -> Result<Arrival<'a>, AllocError>
    ensures come { IfOk result (λ x. come_to x ≡ spec.from_root ty root.items leaf.now) }
    ensures read { (m : List ImageBlock) → IsReadable leaf.now → IfOk result (IsArrival m) }
{
    let words = LeafWords::of_root(alloc, leaf, root)?;
    Ok(Arrival {
        leaf,
        source: Source::Own(words),
        at: Seq::new(alloc),
        here: Inside {
            pat: &leaf.prov,
            ty: Ty::Named(ty),
        },
    })
}

// The arrival at the root of its own leaf of a value without pointers, of the data type `ty`, at
// these words. An error is the first fault of its splits or of its leaf's parts, or `Memory`, also
// for a type without a layout, which no declared type is.
fn take_apart<'a>(
    alloc: Global,
    agreed: &'a Agreed,
    ty: u32,
    words: Vec<Kept>,
) -> Result<Arrival<'a>, ImageFault>
    ensures come { IsGiven come_to (spec.taken_apart agreed.now.layouts ty words.items) result }
    ensures read { (m : List ImageBlock) → IfOk result (IsArrival m) }
{
    tell_orderly(agreed);
    let Some(layout) = agreed.layouts().get(ty as usize) else {
        return Err(ImageFault::Memory);
    };
    let number = leaf_at(&[], words.as_slice(), &layout.tree)?;
    let Some(leaf) = layout.leaves.get(number as usize) else {
        return Err(ImageFault::Memory);
    };
    let order = order_of(alloc, leaf)?;
    let _addresses = examine(alloc, &[], leaf, words.as_slice(), order.as_slice())?;
    let root = at_root(alloc, leaf, ty, words)?;
    Ok(root)
}

// From an open position of a data type on to the root of the value's own leaf, with the errors of
// `take_apart`; an arrival at another position is given as it is.
fn settle<'a>(
    alloc: Global,
    agreed: &'a Agreed,
    image: &Image,
    arrival: Arrival<'a>,
) -> Result<Arrival<'a>, ImageFault>
    requires placed { AreInPlace image.now.blocks }
    requires read { IsArrival image.now.blocks arrival }
    ensures come { IsGiven come_to
        (spec.settled_here agreed.now.layouts image.now.blocks (come_to arrival.entry)) result }
    ensures read { IfOk result (IsArrival image.now.blocks) }
{
    match open_data(arrival.here) {
        None => Ok(arrival),
        Some(ty) => {
            let words = arrival
                .view()
                .words_here(alloc, image, agreed.layouts(), ty)?;
            take_apart(alloc, agreed, ty, words)
        }
    }
}

// The arrival at the position of a view, which lends it the words of the leaf.
fn lent<'a>(alloc: Global, view: &View<'a>) -> Result<Arrival<'a>, AllocError>
    ensures come { IfOk result (λ x. come_to x ≡ position_shown view.now) }
    ensures read { (m : List ImageBlock) → IsShown m view.now → IfOk result (IsArrival m) }
{
    let at = Vec::from_slice(alloc, view.at)?;
    Ok(Arrival {
        leaf: view.leaf,
        source: Source::Lent(view.words),
        at: Seq::from_vec(at),
        here: view.here,
    })
}

/// The arrival at the position of a view, or, where that is an open position of a data type, at the
/// root of the value's own leaf, with the errors of `take_apart`.
pub(crate) fn settled<'a>(
    alloc: Global,
    agreed: &'a Agreed,
    image: &Image,
    view: &View<'a>,
) -> Result<Arrival<'a>, ImageFault>
    requires placed { AreInPlace image.now.blocks }
    requires shown { IsShown image.now.blocks view.now }
    ensures come { IsGiven come_to
        (spec.settled_here agreed.now.layouts image.now.blocks (position_shown view.now)) result }
    ensures read { IfOk result (IsArrival image.now.blocks) }
{
    let here = lent(alloc, view)?;
    settle(alloc, agreed, image, here)
}

// To a field of the value at an arrival, in its own leaf if the position is open. It is there where
// a provenance that matches the value leads to it; where it is not, the error is `Memory`. Else an
// error is that of `settle`.
fn step_down<'a>(
    alloc: Global,
    agreed: &'a Agreed,
    image: &Image,
    arrival: Arrival<'a>,
    field: u32,
) -> Result<Arrival<'a>, ImageFault>
    requires placed { AreInPlace image.now.blocks }
    requires read { IsArrival image.now.blocks arrival }
    ensures come { IsGiven come_to (spec.step_down agreed.now.covered.program.types agreed.now.layouts image.now.blocks
        (come_to arrival.entry) field) result }
    ensures read { IfOk result (IsArrival image.now.blocks) }
{
    let types = agreed.covered().program().types.as_slice();
    let Arrival {
        leaf,
        source,
        at,
        here,
    } = settle(alloc, agreed, image, arrival)?;
    let Some(here) = field_of(types, here.pat, field) else {
        return Err(ImageFault::Memory);
    };
    let mut at = at;
    at.push(field)?;
    Ok(Arrival {
        leaf,
        source,
        at,
        here,
    })
}

/// Where a path of field numbers leads from the position `from` on: there itself for an empty path.
/// A value to which the last step leads is not entered. An error is the first of a step.
pub(crate) fn along<'a>(
    alloc: Global,
    agreed: &'a Agreed,
    image: &Image,
    from: &View<'a>,
    path: &[u32],
) -> Result<Arrival<'a>, ImageFault>
    requires placed { AreInPlace image.now.blocks }
    requires shown { IsShown image.now.blocks from.now }
    ensures come { IsGiven come_to (spec.along agreed.now.covered.program.types agreed.now.layouts image.now.blocks
        (position_shown from.now) path.now) result }
    ensures read { IfOk result (IsArrival image.now.blocks) }
{
    let mut here = lent(alloc, from)?;
    for field in path {
        here = step_down(alloc, agreed, image, here, *field)?;
    }
    Ok(here)
}
