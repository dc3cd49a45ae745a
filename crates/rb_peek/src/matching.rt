//! The leaf in whose layout a value is rebuilt: the one whose provenance matches it.
//!
//! A provenance is the pattern of a leaf's values. A position is what a leaf's provenance has at a
//! path, a list of field numbers from its root. It is open where any value may stand there: then
//! the leaf of that value has to be found before a constructor is known. A view is a position with
//! the leaf and its words. `agreed` has the program's types and their layouts. An error is the
//! fault of looking for such a leaf, or `Memory`: want of memory, or that there is no leaf to
//! choose.

ghost use Rattle.std.specs.Prelude.{◌≡◌, ◌↔◌, IsTrue, map};
ghost use Rattle.rb_core.specs.declared.pattern.Pat.{out-Pat};
ghost use Rattle.rb_image.specs.Given.{IsGiven};
ghost use Rattle.rb_peek.specs.Rebuilds as spec;
ghost use Rattle.rb_peek.specs.Views.{down};
ghost use Rattle.rb_peek.specs.inner.Standing.{IsShown, first_fault, position_shown};
ghost use Rattle.rb_image_text.specs.Places.{AreInPlace};
ghost use Rattle.rb_image_text.specs.declared.fault.ImageFault.TheVariants.{Memory};

use crate::arrival::settled;
use crate::view::View;
use rb_core::pattern::Pat;
use rb_core::types::ConRef;
use rb_image_text::fault::ImageFault;
use rb_image_text::image::Image;
use rb_layout::agreed::Agreed;
use rb_layout::layout::Leaf;
use rb_layout::numbers::number_of;
use rb_layout::paths::path_below;
use std::alloc::Global;

// Whether two constructors are the same one of the same type.
fn same_con(con: ConRef, other: ConRef) -> bool
    ensures { result ≡ spec.same_con con other }
{
    con.ty == other.ty && con.con == other.con
}

// Whether a provenance matches what stands at a position: a wildcard or a variable always does, a
// number never, and a constructor if that stands there with fields that its patterns match. The
// call nests as deep as the provenance.
#[cycle(matching)]
fn matches(
    alloc: Global,
    agreed: &Agreed,
    image: &Image,
    prov: &Pat,
    view: &View,
) -> Result<bool, ImageFault>
    requires placed { AreInPlace image.now.blocks }
    requires shown { IsShown image.now.blocks view.now }
    ensures { IsGiven (λ so. so) (spec.matches agreed.now.covered.program.types agreed.now.layouts image.now.blocks
        prov.now (position_shown view.now)) result }
{
    match prov {
        Pat::Wild(_) => Ok(true),
        Pat::Var(_, _) => Ok(true),
        Pat::Num(_, _) => Ok(false),
        Pat::Con(_, con, pats) => {
            let own = settled(alloc, agreed, image, &*view)?;
            match_con(alloc, agreed, image, *con, pats.as_slice(), &own.view())
        }
    }
}

// Whether this constructor stands at a position, with fields that the patterns match, one for each.
#[cycle(matching)]
fn match_con(
    alloc: Global,
    agreed: &Agreed,
    image: &Image,
    con: ConRef,
    pats: &[Pat],
    view: &View,
) -> Result<bool, ImageFault>
    requires placed { AreInPlace image.now.blocks }
    requires shown { IsShown image.now.blocks view.now }
    ensures { IsGiven (λ so. so) (spec.match_con agreed.now.covered.program.types con
        (map (spec.matches agreed.now.covered.program.types agreed.now.layouts image.now.blocks) pats.now)
        (position_shown view.now) (out-Pat view.now.here.pat.now)) result }
{
    match view.here.pat {
        Pat::Wild(_) => Ok(false),
        Pat::Var(_, _) => Ok(false),
        Pat::Num(_, _) => Ok(false),
        Pat::Con(_, own, _) => if same_con(con, *own) {
            match_fields(alloc, agreed, image, pats, view)
        } else {
            Ok(false)
        },
    }
}

// Whether the patterns match the fields of the constructor at a position, one for each. The first
// that does not match or is not known decides.
#[cycle(matching)]
fn match_fields(
    alloc: Global,
    agreed: &Agreed,
    image: &Image,
    pats: &[Pat],
    view: &View,
) -> Result<bool, ImageFault>
    requires placed { AreInPlace image.now.blocks }
    requires shown { IsShown image.now.blocks view.now }
    ensures { IsGiven (λ so. so) (spec.match_fields agreed.now.covered.program.types
        (map (spec.matches agreed.now.covered.program.types agreed.now.layouts image.now.blocks) pats.now)
        (position_shown view.now) 0) result }
{
    for (i, pat) in pats.iter().enumerate() {
        if !match_field(alloc, agreed, image, pat, view, i)? {
            return Ok(false);
        }
    }
    Ok(true)
}

// Whether a pattern matches field `i` of the constructor at a position, and false where that has no
// such field.
#[cycle(matching)]
fn match_field(
    alloc: Global,
    agreed: &Agreed,
    image: &Image,
    pat: &Pat,
    view: &View,
    i: usize,
) -> Result<bool, ImageFault>
    requires placed { AreInPlace image.now.blocks }
    requires shown { IsShown image.now.blocks view.now }
    ensures { IsGiven (λ so. so) (spec.match_field
        (spec.matches agreed.now.covered.program.types agreed.now.layouts image.now.blocks pat.now)
        (down agreed.now.covered.program.types (position_shown view.now) i)) result }
{
    let types = agreed.covered().program().types.as_slice();
    let field = number_of(i)?;
    let at = path_below(alloc, view.at, field as usize)?;
    match (&*view).down(image, types, at.as_slice(), field) {
        None => Ok(false),
        Some(below) => matches(alloc, agreed, image, pat, &below),
    }
}

// Whether a fault is want of memory, which ends the choice of a leaf at once.
fn is_memory(fault: ImageFault) -> bool
    ensures { IsTrue result ↔ (fault ≡ Memory) }
{
    match fault {
        ImageFault::ImageSyntax(_) => false,
        ImageFault::ImageBlock(_) => false,
        ImageFault::BadRoot(_) => false,
        ImageFault::BadBits(_, _) => false,
        ImageFault::BadPointer(_, _) => false,
        ImageFault::ImageTooLarge => false,
        ImageFault::NoSuchPart(_) => false,
        ImageFault::Memory => true,
    }
}

// The fault that came before, or this one where none did.
fn first_of(before: Option<ImageFault>, fault: ImageFault) -> Option<ImageFault>
    ensures { result ≡ first_fault before fault }
{
    match before {
        None => Some(fault),
        Some(before) => Some(before),
    }
}

/// The first of some leaves whose provenance is known to match what stands at a position. The first
/// fault that keeps one from being known is given only where none is known to match, and want of
/// memory at once; `Memory` where no leaf matches and none has a fault.
pub(crate) fn choose<'a>(
    alloc: Global,
    agreed: &Agreed,
    image: &Image,
    leaves: &'a [Leaf],
    view: &View,
) -> Result<&'a Leaf, ImageFault>
    requires placed { AreInPlace image.now.blocks }
    requires shown { IsShown image.now.blocks view.now }
    ensures { IsGiven (λ leaf. leaf.now) (spec.leaf_chosen agreed.now.covered.program.types agreed.now.layouts
        image.now.blocks leaves.now (position_shown view.now)) result }
{
    let mut before = None;
    for leaf in leaves {
        match matches(alloc, agreed, image, &leaf.prov, view) {
            Ok(so) => if so {
                return Ok(leaf);
            },
            Err(fault) => {
                if is_memory(fault) {
                    return Err(fault);
                }
                before = first_of(before, fault);
            }
        }
    }
    match before {
        None => Err(ImageFault::Memory),
        Some(fault) => Err(fault),
    }
}
