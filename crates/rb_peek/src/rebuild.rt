//! Values that a leaf has taken apart, rebuilt in the layout of their own type.
//!
//! A position is what a leaf's provenance, its pattern, has at a path, a list of field numbers from
//! the leaf's root. It is open where any value may stand there, which has words of its own; where
//! the pattern has a constructor, the leaf has taken the value apart: its fields stand in parts of
//! the leaf. A view is a position with the leaf and its words. `agreed` has the program's types and
//! their layouts. An error of a private function is the fault of a value whose leaf has to be
//! known, or `Memory`: want of memory, or that there is no layout, leaf, field or level to go on
//! with.

ghost use Rattle.std.specs.Prelude.{◌≡◌, ◌++◌, ◌∷◌, [], IfOk, Ok, OnOk};
ghost use Rattle.rb_layout.specs.Opens.{opens_at};
ghost use Rattle.rb_layout.specs.Positions.{open_positions};
ghost use Rattle.rb_image.specs.Given.{IsGiven};
ghost use Rattle.rb_peek.specs.Rebuilds as spec;
ghost use Rattle.rb_peek.specs.Views.{integer_here, words_here};
ghost use Rattle.rb_peek.specs.Walks.{ArePassed, layout_at, where_of};
ghost use Rattle.rb_peek.specs.inner.Standing.{IsShown, position_shown};
ghost use Rattle.rb_image_text.specs.Places.{AreInPlace};

use crate::arrival::along;
use crate::matching::choose;
use crate::pack::{FieldWords, pack_all};
use crate::view::View;
use crate::walk::Walk;
use rb_core::pattern::Pat;
use rb_core::seq::Seq;
use rb_core::types::Ty;
use rb_image::kept::Kept;
use rb_image::ways::refused_below;
use rb_image_text::fault::ImageFault;
use rb_image_text::image::Image;
use rb_layout::agreed::Agreed;
use rb_layout::layout::Leaf;
use rb_layout::opens::{OpenPosition, opens};
use std::alloc::{AllocError, Global};

/// The numbers of words, without where they are kept.
pub(crate) fn numbers_of(alloc: Global, words: &[Kept]) -> Result<Seq<u64>, AllocError>
    ensures { IfOk result (λ numbers. numbers ≡ spec.numbers_of words.now) }
{
    let mut numbers = Seq::new(alloc);
    for word in words {
        numbers.push(word.number)?;
    }
    Ok(numbers)
}

// The one word of the integer of so many bits at a position. No integer has more than 64 bits; for
// more the error is `Memory`.
fn integer_word(alloc: Global, image: &Image, bits: u8, view: &View) -> Result<Seq<u64>, ImageFault>
    requires placed { AreInPlace image.now.blocks }
    requires shown { IsShown image.now.blocks view.now }
    ensures { IsGiven (λ ws. ws) (Ok (integer_here image.now.blocks (position_shown view.now) bits ∷ [])) result }
{
    if bits > 64 {
        return Err(ImageFault::Memory);
    }
    let mut words = Seq::new(alloc);
    words.push(view.integer_here(alloc, image, u64::from(bits))?)?;
    Ok(words)
}

// The words of a value of a data type that stands open at a position, copied as they stand.
fn open_words(
    alloc: Global,
    agreed: &Agreed,
    image: &Image,
    ty: u32,
    view: &View,
) -> Result<Seq<u64>, ImageFault>
    requires placed { AreInPlace image.now.blocks }
    requires shown { IsShown image.now.blocks view.now }
    ensures { IsGiven (λ ws. ws)
        (Ok (spec.numbers_of (words_here agreed.now.layouts image.now.blocks (position_shown view.now) ty))) result }
{
    let words = view.words_here(alloc, image, agreed.layouts(), ty)?;
    let numbers = numbers_of(alloc, words.as_slice())?;
    Ok(numbers)
}

// The leaf in whose layout a value of a data type that a leaf has taken apart is rebuilt, the one
// whose provenance matches it. For a type without a layout, which no declared type is, the error is
// `Memory`.
fn leaf_for<'a>(
    alloc: Global,
    agreed: &'a Agreed,
    image: &Image,
    ty: u32,
    view: &View,
) -> Result<&'a Leaf, ImageFault>
    requires placed { AreInPlace image.now.blocks }
    requires shown { IsShown image.now.blocks view.now }
    ensures { IsGiven (λ leaf. leaf.now) (spec.leaf_chosen agreed.now.covered.program.types agreed.now.layouts
        image.now.blocks (layout_at agreed.now.layouts ty).leaves (position_shown view.now)) result }
{
    match agreed.layouts().get(ty as usize) {
        None => Err(ImageFault::Memory),
        Some(layout) => choose(alloc, agreed, image, layout.leaves.as_slice(), view),
    }
}

// The positions that a leaf leaves open, from left to right.
fn opens_of(alloc: Global, agreed: &Agreed, leaf: &Leaf) -> Result<Seq<OpenPosition>, AllocError>
    ensures { IfOk result
        (λ found. opens_at found ≡ open_positions agreed.now.covered.program.types leaf.now.prov) }
{
    opens(
        alloc,
        agreed.covered().program().types.as_slice(),
        &leaf.prov,
    )
}

// Adds a field at a path with its words to those that were found.
fn add_field(
    alloc: Global,
    path: &[u32],
    words: Seq<u64>,
    fields: &mut Seq<FieldWords>,
) -> Result<(), AllocError>
    ensures { OnOk result
        (fields.new ≡ fields.old ++ record { path = path.now; words = words } ∷ []) }
{
    let path = Seq::from_vec(Vec::from_slice(alloc, path)?);
    fields.push(FieldWords { path, words })
}

// The words of a value of a data type that a leaf has taken apart, in the leaf whose provenance
// matches it. Values that are rebuilt may stand one inside the other so many levels deep; at none
// it is `Memory`.
#[cycle(rebuilding)]
fn rebuild_within<'a>(
    alloc: Global,
    agreed: &'a Agreed,
    image: &Image,
    depth: usize,
    ty: u32,
    view: &View<'a>,
) -> Result<Seq<u64>, ImageFault>
    requires placed { AreInPlace image.now.blocks }
    requires shown { IsShown image.now.blocks view.now }
    ensures { IsGiven (λ ws. ws) (spec.rebuilding_within agreed.now.covered.program.types agreed.now.layouts
        image.now.blocks depth ty (position_shown view.now)) result }
{
    if depth == 0 {
        return Err(ImageFault::Memory);
    }
    let leaf = leaf_for(alloc, agreed, image, ty, view)?;
    let opens = opens_of(alloc, agreed, leaf)?;
    let fields = fields_at(alloc, agreed, image, depth - 1, opens.as_slice(), view)?;
    let words = pack_all(alloc, leaf.root.as_slice(), fields.as_slice())?;
    Ok(words)
}

// The paths and words of what stands at these positions below the view, which are those that a leaf
// leaves open, where values may be rebuilt `depth` levels deep.
#[cycle(rebuilding)]
fn fields_at<'a>(
    alloc: Global,
    agreed: &'a Agreed,
    image: &Image,
    depth: usize,
    opens: &[OpenPosition],
    view: &View<'a>,
) -> Result<Seq<FieldWords>, ImageFault>
    requires placed { AreInPlace image.now.blocks }
    requires shown { IsShown image.now.blocks view.now }
    ensures { IsGiven (λ fields. fields)
        (spec.fields_at agreed.now.covered.program.types agreed.now.layouts image.now.blocks
        (spec.rebuilding_within agreed.now.covered.program.types agreed.now.layouts image.now.blocks depth)
        (position_shown view.now) (opens_at opens.now)) result }
{
    let mut fields = Seq::new(alloc);
    for open in opens {
        let path = open.path.as_slice();
        let words = words_along(alloc, agreed, image, depth, path, view)?;
        add_field(alloc, path, words, &mut fields)?;
    }
    Ok(fields)
}

// The words of what stands at the end of a path of field numbers from a position on, where values
// may be rebuilt `depth` levels deep.
#[cycle(rebuilding)]
fn words_along<'a>(
    alloc: Global,
    agreed: &'a Agreed,
    image: &Image,
    depth: usize,
    path: &[u32],
    view: &View<'a>,
) -> Result<Seq<u64>, ImageFault>
    requires placed { AreInPlace image.now.blocks }
    requires shown { IsShown image.now.blocks view.now }
    ensures { IsGiven (λ ws. ws)
        (spec.words_along agreed.now.covered.program.types agreed.now.layouts image.now.blocks
        (spec.rebuilding_within agreed.now.covered.program.types agreed.now.layouts image.now.blocks depth)
        (position_shown view.now) path.now) result }
{
    let end = along(alloc, agreed, image, view, path)?;
    words_at(alloc, &*agreed, image, depth, &end.view())
}

// The words of what stands at a position: of an integer, of a value that stands open there, or of
// one that is rebuilt, as are all that the leaf has taken apart, `depth` levels deep at most.
#[cycle(rebuilding)]
fn words_at<'a>(
    alloc: Global,
    agreed: &'a Agreed,
    image: &Image,
    depth: usize,
    view: &View<'a>,
) -> Result<Seq<u64>, ImageFault>
    requires placed { AreInPlace image.now.blocks }
    requires shown { IsShown image.now.blocks view.now }
    ensures { IsGiven (λ ws. ws)
        (spec.words_at agreed.now.covered.program.types agreed.now.layouts image.now.blocks
        (spec.rebuilding_within agreed.now.covered.program.types agreed.now.layouts image.now.blocks depth)
        view.now.here.ty (position_shown view.now)) result }
{
    match view.here.ty {
        Ty::Int(bits) => integer_word(alloc, image, bits, view),
        Ty::Named(ty) => match view.here.pat {
            Pat::Wild(_) => open_words(alloc, agreed, image, ty, view),
            Pat::Var(_, _) => open_words(alloc, agreed, image, ty, view),
            Pat::Num(_, _) => Err(ImageFault::Memory),
            Pat::Con(_, _, _) => rebuild_within(alloc, agreed, image, depth, ty, view),
        },
    }
}

/// The words of the subvalue at the end of a walk, where that is inside a leaf. An integer is one word. A constructor
/// that the provenance has there is rebuilt: in the layout of its own type, in the leaf whose provenance matches it, it
/// has the words that its fields make, and 0 in each bit of which no part says anything. To know that leaf may take the
/// leaves of values that stand open below; what such a leaf leaves open is copied as it stands. A type that a leaf
/// takes apart has no pointers, so nothing is read for that: all bits are in words of the last leaf.
///
/// # Errors
///
/// The first fault below the end: `BadPointer` for the first pointer on the way to what stands there that leads to no
/// block of the leaf's size, or, from within a block, not below that block; `BadBits` where no arm of a split takes the
/// bits of a value whose leaf has to be known, or a constant of that leaf differs. Or want of memory.
pub fn rebuild(
    alloc: Global,
    agreed: &Agreed,
    image: &Image,
    walk: &Walk,
) -> Result<Vec<u64>, ImageFault>
    requires placed { AreInPlace image.now.blocks }
    requires passed { ArePassed image.now walk.now }
    ensures { IsGiven (λ found. found.items) (spec.rebuilt_words agreed.now.covered.program.types agreed.now.layouts
        image.now.blocks (where_of walk.now)) result }
{
    let last = &walk.last;
    let leaf = last.visited.leaf;
    let words = &last.visited.words;
    match refused_below(alloc, image, leaf, words, last.at.as_slice())? {
        None => {}
        Some(fault) => return Err(fault),
    }
    let view = View {
        leaf,
        words,
        at: last.at.as_slice(),
        here: walk.here,
    };
    let depth = agreed.layouts().len();
    let rebuilt = words_at(alloc, agreed, image, depth, &view)?;
    Ok(rebuilt.into_vec())
}
