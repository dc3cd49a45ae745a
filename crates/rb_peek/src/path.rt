//! Paths of field numbers from the root of an image, on which no word is at fault.
//!
//! A path is a list of field numbers from the root. A walk goes along it, through the leaves of the
//! subvalues of data types on it. `agreed` has the program's types and their layouts, and `steps`
//! counts the words that are read.

ghost use Rattle.std.specs.Prelude.{◌≡◌, ◌+◌, ◌<◌, ◌≤◌, IfErr, IfOk, OnOk, length};
ghost use Rattle.rb_core.specs.TypedPrograms.{IsTyped};
ghost use Rattle.rb_core.specs.declared.types.Ty.TheVariants.{Named};
ghost use Rattle.rb_layout.specs.Agreement.{Agrees};
ghost use Rattle.rb_layout.specs.Flattening.{flat_layouts};
ghost use Rattle.rb_image.specs.FieldSites.{AreWords};
ghost use Rattle.rb_image.specs.Given.{IsGiven};
ghost use Rattle.rb_image.specs.Roots.{WordsFit, kept_from, widths_of};
ghost use Rattle.rb_image.specs.Values.{IsDeclared};
ghost use Rattle.rb_peek.specs.Paths.{IsFaultless, IsPathFault, IsWalked};
ghost use Rattle.rb_peek.specs.Walks as spec;
ghost use Rattle.rb_peek.specs.Walks.{ArePassed, where_of};
ghost use Rattle.rb_image_text.specs.Places.{AreInPlace};

use crate::check::fault_on_path;
use crate::walk::{Walk, tell_orderly, walk_along};
use rb_core::types::Ty;
use rb_edge::steps::{Ledger, Steps};
use rb_image::fields::root_sites;
use rb_image_text::fault::ImageFault;
use rb_image_text::image::Image;
use rb_layout::agreed::Agreed;
use rb_rel::words::word_count;
use std::alloc::Global;

/// Tells proofs that the program is typed. Nothing else is done.
pub(crate) fn tell_typed(agreed: &Agreed)
    ensures { IsTyped agreed.now.covered.program }
{
    let _ = agreed.covered().program();
}

// Tells proofs that the layouts are those of the program, and agree with its types. Nothing else is
// done.
fn tell_agreed(agreed: &Agreed)
    ensures flat { agreed.now.layouts ≡ flat_layouts agreed.now.covered.program }
    ensures agree { Agrees agreed.now.covered.program }
{
    let _ = agreed.layouts();
}

// Tells proofs that these words have at most 64 bits. Nothing else is done.
fn tell_words(words: &[u64])
    ensures { AreWords words.now }
{
    for word in words {
        let _ = *word;
    }
}

// Where `walk_along` leads from the root words of an image, which fit the type, with its errors.
fn walk_from_root<'a, L: Ledger>(
    alloc: Global,
    agreed: &'a Agreed,
    image: &Image,
    ty: u32,
    path: &[u32],
    steps: &mut Steps<L>,
) -> Result<Walk<'a>, ImageFault>
    requires placed { AreInPlace image.now.blocks }
    requires declared { ty < length agreed.now.covered.program.types }
    requires fit { WordsFit (widths_of agreed.now.layouts (Named ty)) image.now.root }
    ensures walk { IsGiven where_of (spec.end_of_path agreed.now.covered.program.types agreed.now.layouts
        image.now.blocks ty (kept_from 0 image.now.root) path.now) result }
    ensures passed { IfOk result (ArePassed image.now) }
    ensures least { steps.old.taken ≤ steps.new.taken }
    ensures most { steps.new.taken ≤ steps.old.taken
        + spec.walk_span agreed.now.covered.program.types agreed.now.layouts image.now.blocks
        ty (kept_from 0 image.now.root) path.now }
{
    tell_words(image.root.as_slice());
    let count = word_count(agreed.layouts(), Ty::Named(ty));
    let sites = root_sites(alloc, count)?;
    walk_along(alloc, agreed, image, ty, sites, path, steps)
}

/// Where a path of field numbers leads from the root of an image, whose words fit the type, if no word on the path is
/// at fault. The words on a path are those of the root; those that the splits of each subvalue on it read, that at its
/// end included; those that hold what comes next on it, or what is below that; and those whose pointers lead to any of
/// these. Faults of other words are not seen. What leaves hold is read by `read_word`, of each data type to which one
/// comes no more words than its splits and words are; for the check, the words to which a split's location leads are
/// looked up once more.
///
/// # Errors
///
/// The fault of a word on the path: `BadBits`, with the base and the place of the word, where no arm of a split of a
/// subvalue on the path takes its bits, or a constant of its leaf differs in it; `BadPointer`, with the base of the
/// pointer and the address, where such a split or leaf has a pointer in it that leads to no word or to no block of the
/// leaf's size, or, from within a block, not below that block. `NoSuchPart`, with the number of the step, where the
/// constructor found there has no such field, or an integer stands there. Or want of memory.
pub fn follow_path<'a, L: Ledger>(
    alloc: Global,
    agreed: &'a Agreed,
    image: &Image,
    ty: u32,
    path: &[u32],
    steps: &mut Steps<L>,
) -> Result<Walk<'a>, ImageFault>
    requires placed { AreInPlace image.now.blocks }
    requires declared { ty < length agreed.now.covered.program.types }
    requires fit { WordsFit (widths_of agreed.now.layouts (Named ty)) image.now.root }
    ensures walk { IfOk result (IsWalked agreed.now.covered.program.types agreed.now.layouts image.now ty path.now) }
    ensures passed { IfOk result (ArePassed image.now) }
    ensures declared { IfOk result (λ walk. IsDeclared agreed.now.covered.program.types walk.here.ty) }
    ensures sound { OnOk result
        (IsFaultless agreed.now.covered.program.types agreed.now.layouts image.now ty path.now) }
    ensures fault { IfErr result
        (IsPathFault agreed.now.covered.program.types agreed.now.layouts image.now ty path.now) }
    ensures least { steps.old.taken ≤ steps.new.taken }
    ensures most { steps.new.taken ≤ steps.old.taken
        + spec.walk_span agreed.now.covered.program.types agreed.now.layouts image.now.blocks
        ty (kept_from 0 image.now.root) path.now }
{
    tell_orderly(agreed);
    tell_typed(agreed);
    tell_agreed(agreed);
    let walk = walk_from_root(alloc, agreed, image, ty, path, steps)?;
    match fault_on_path(alloc, agreed, image, &walk)? {
        None => Ok(walk),
        Some(fault) => Err(fault),
    }
}
