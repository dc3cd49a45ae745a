//! What stands at a path of an image.
//!
//! A path is a list of field numbers from the root of the value. A walk along it comes to the
//! leaves of the subvalues of data types on it. It ends at the root of such a leaf, where the
//! subvalue has words of its own, or inside a leaf, at an integer or at a constructor that the leaf
//! has taken apart. `agreed` has the program's types and their layouts, and `steps` counts the
//! words that are read.

ghost use Rattle.std.specs.Prelude.{◌≡◌, ◌⊎◌, ◌+◌, ◌<◌, ◌≤◌, ℕ, List, IfErr, IfOk, length};
ghost use Rattle.rb_core.specs.declared.types.DataDecl.{DataDecl};
ghost use Rattle.rb_core.specs.declared.types.Ty.TheVariants.{Int, Named};
ghost use Rattle.rb_layout.specs.declared.layout.Layout.{Layout};
ghost use Rattle.rb_image.specs.declared.kept.Kept.{Kept};
ghost use Rattle.rb_image.specs.Given.{IsGiven};
ghost use Rattle.rb_image.specs.Roots.{WordsFit, kept_from, widths_of};
ghost use Rattle.rb_image.specs.Values.{IsDeclared};
ghost use Rattle.rb_peek.specs.PathSpans.{path_span};
ghost use Rattle.rb_peek.specs.Peeking as spec;
ghost use Rattle.rb_peek.specs.Peeking.{IsFaultOf, IsPart, IsPartAt, IsPartFault, IsPartOf, end_words};
ghost use Rattle.rb_peek.specs.Walks.{ArePassed, walk_span, where_of};
ghost use Rattle.rb_image_text.specs.Places.{AreInPlace};
ghost use Rattle.rb_image_text.specs.declared.fault.ImageFault.TheVariants.{Memory};
ghost use Rattle.rb_image_text.specs.declared.image.ImageBlock.{ImageBlock};

use crate::path::{follow_path, tell_typed};
use crate::rebuild::{numbers_of, rebuild};
use crate::walk::Walk;
use rb_core::seq::Seq;
use rb_core::types::Ty;
use rb_edge::steps::{Ledger, Steps};
use rb_image::roots::{first_misfit, widths_of};
use rb_image_text::fault::ImageFault;
use rb_image_text::image::Image;
use rb_layout::agreed::Agreed;
use std::alloc::Global;

/// What stands at a path: its type, and its words.
#[derive(Drop)]
pub struct Peeked {
    pub ty: Ty,
    pub words: Seq<u64>,
}

// Tells proofs that a walk reads no more words than the spans of the types on its path are. Nothing
// else is done.
fn tell_short(agreed: &Agreed)
    ensures { (m : List ImageBlock) (t : ℕ) (ws : List Kept) (path : List ℕ)
        → walk_span agreed.now.covered.program.types agreed.now.layouts m t ws path
        ≤ path_span agreed.now.covered.program.types agreed.now.layouts m t ws path }
{
    let _ = agreed.layouts();
}

// The words of what stands at the end of a walk: those of the subvalue at the root of a leaf, as
// they are held; or those that `rebuild` gives of what stands inside a leaf, with its errors.
fn words_there(
    alloc: Global,
    agreed: &Agreed,
    image: &Image,
    walk: &Walk,
) -> Result<Seq<u64>, ImageFault>
    requires placed { AreInPlace image.now.blocks }
    requires passed { ArePassed image.now walk.now }
    ensures { IsGiven (λ words. words)
        (end_words agreed.now.covered.program.types agreed.now.layouts image.now (where_of walk.now)) result }
{
    if walk.last.at.is_empty() {
        let words = numbers_of(alloc, walk.last.visited.words.root.as_slice())?;
        return Ok(words);
    }
    let words = rebuild(alloc, agreed, image, walk)?;
    Ok(Seq::from_vec(words))
}

// What stands at a path from an integer: the integer itself where the path is empty, and
// `NoSuchPart` at any step.
fn peek_integer(alloc: Global, bits: u8, image: &Image, path: &[u32]) -> Result<Peeked, ImageFault>
    ensures part { (types : List DataDecl) (layouts : List Layout)
        → IfOk result (IsPartOf types layouts image.now (Int bits) path.now) }
    ensures fault { (types : List DataDecl) (layouts : List Layout) → IfErr result (λ fault.
        IsFaultOf types layouts image.now (Int bits) path.now fault ⊎ (fault ≡ Memory)) }
{
    if !path.is_empty() {
        return Err(ImageFault::NoSuchPart(0));
    }
    let words = image.root.copy(alloc)?;
    Ok(Peeked {
        ty: Ty::Int(bits),
        words,
    })
}

// What stands at a path from the value of the data type `ty` at the root words, with the errors of
// `follow_path`, and of `rebuild` where the path ends inside a leaf.
fn peek_data<L: Ledger>(
    alloc: Global,
    agreed: &Agreed,
    ty: u32,
    image: &Image,
    path: &[u32],
    steps: &mut Steps<L>,
) -> Result<Peeked, ImageFault>
    requires placed { AreInPlace image.now.blocks }
    requires declared { ty < length agreed.now.covered.program.types }
    requires fit { WordsFit (widths_of agreed.now.layouts (Named ty)) image.now.root }
    ensures part { IfOk result
        (IsPartAt agreed.now.covered.program.types agreed.now.layouts image.now ty path.now) }
    ensures declared { IfOk result (λ part. IsDeclared agreed.now.covered.program.types part.ty) }
    ensures fault { IfErr result (λ fault. IsFaultOf agreed.now.covered.program.types agreed.now.layouts
        image.now (Named ty) path.now fault ⊎ (fault ≡ Memory)) }
    ensures least { steps.old.taken ≤ steps.new.taken }
    ensures most { steps.new.taken ≤ steps.old.taken + path_span agreed.now.covered.program.types agreed.now.layouts
        image.now.blocks ty (kept_from 0 image.now.root) path.now }
{
    tell_short(agreed);
    tell_typed(agreed);
    let _ = agreed.layouts();
    let walk = follow_path(alloc, agreed, image, ty, path, steps)?;
    let words = words_there(alloc, agreed, image, &walk)?;
    Ok(Peeked {
        ty: walk.here.ty,
        words,
    })
}

/// What stands at a path of field numbers in the value of a type that an image holds, where no word on the path is at
/// fault: its type, and the words of it. A subvalue with a leaf of its own has the words in which it is held there; one
/// that a leaf takes apart is rebuilt in its own layout, with 0 in free bits. Words off the path are not looked at.
/// What the leaves on the path hold is read by `read_word`, no more words than the spans of the types on the path are,
/// the last included; for the check, the words to which a split's location leads are looked up once more.
///
/// # Errors
///
/// `BadRoot`, with the number of the first root word that is missing, too many or too wide. Or the fault of a word on
/// the path: `BadBits`, with the base and the place of the word, where no arm of a split takes its bits or a constant
/// differs in it; `BadPointer`, with the base of the pointer and the address, where it leads to no word or to no block
/// of the leaf's size, or, from within a block, not below that block. Where the last subvalue is rebuilt, the same of a
/// value below it whose leaf must be known for that. Or `NoSuchPart`, with the number of the step, where the
/// constructor found there has no such field, or an integer stands there. Or want of memory.
pub fn peek<L: Ledger>(
    alloc: Global,
    agreed: &Agreed,
    ty: Ty,
    image: &Image,
    path: &[u32],
    steps: &mut Steps<L>,
) -> Result<Peeked, ImageFault>
    requires placed { AreInPlace image.now.blocks }
    requires declared { IsDeclared agreed.now.covered.program.types ty }
    ensures part { IfOk result (IsPart agreed.now.covered.program.types agreed.now.layouts image.now ty path.now) }
    ensures declared { IfOk result (λ part. IsDeclared agreed.now.covered.program.types part.ty) }
    ensures fault { IfErr result (λ fault. IsPartFault agreed.now.covered.program.types agreed.now.layouts
        image.now ty path.now fault ⊎ (fault ≡ Memory)) }
    ensures least { steps.old.taken ≤ steps.new.taken }
    ensures most { steps.new.taken ≤ steps.old.taken
        + spec.part_span agreed.now.covered.program.types agreed.now.layouts image.now ty path.now }
{
    let words = image.root.as_slice();
    match ty {
        Ty::Int(bits) => match first_misfit(&[u64::from(bits)], words) {
            None => peek_integer(alloc, bits, image, path),
            Some(i) => Err(ImageFault::BadRoot(i)),
        },
        Ty::Named(ty) => match first_misfit(widths_of(agreed.layouts(), ty), words) {
            None => peek_data(alloc, agreed, ty, image, path, steps),
            Some(i) => Err(ImageFault::BadRoot(i)),
        },
    }
}
