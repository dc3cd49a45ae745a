//! Whole images.
//!
//! A place is a type's number and the words at which a value of it is to stand; the first is that
//! of the root words. `agreed` has the program's types and their layouts.

ghost use Rattle.std.specs.Prelude.{◌≡◌, ◌⊎◌, IfErr, OnOk};
ghost use Rattle.rb_image_text.specs.Places.{AreInPlace};
ghost use Rattle.rb_image_text.specs.declared.fault.ImageFault.{ImageFault};
ghost use Rattle.rb_image_text.specs.declared.fault.ImageFault.TheVariants.{Memory};
ghost use Rattle.rb_image.specs.Roots.{IsFirstImageFault, IsSoundImage};
ghost use Rattle.rb_image.specs.Sound.{IsFault, IsFineResult};

use crate::descent::{descend, descents_end};
use crate::roots::{first_misfit, root_place, widths_of};
use rb_core::types::Ty;
use rb_image_text::fault::ImageFault;
use rb_image_text::image::Image;
use rb_layout::agreed::Agreed;
use std::alloc::Global;

/// Whether an image is sound for a type: its root words are as many as a value of the type has, none is too wide, and
/// each place that one comes to from the root on is sound by itself, as `look` says. The blocks ascend, as those of an
/// image that was read do; blocks that one does not come to are not looked at. A place is looked at once for each type
/// and for each way in which its words are kept, however many places it stands below.
///
/// # Errors
///
/// The first fault: `BadRoot`, with the number of the first root word that is missing, too many or too wide; or what
/// `look` says of the first place at fault, outer places before inner ones, from left to right. Or want of memory.
pub fn examine_image(
    alloc: Global,
    agreed: &Agreed,
    ty: Ty,
    image: &Image,
) -> Result<(), ImageFault>
    requires placed { AreInPlace image.now.blocks }
    ensures sound { OnOk result (IsSoundImage agreed.now.covered.program.types agreed.now.layouts image.now ty) }
    ensures fault { IfErr result (λ fault.
        IsFirstImageFault agreed.now.covered.program.types agreed.now.layouts image.now ty fault
        ⊎ (fault ≡ Memory)) }
    ensures fine { IsSoundImage agreed.now.covered.program.types agreed.now.layouts image.now ty
        → IsFineResult result }
    ensures first { (fault : ImageFault)
        → IsFirstImageFault agreed.now.covered.program.types agreed.now.layouts image.now ty fault
        → IsFault fault result }
{
    descents_end(agreed);
    let memory = image.blocks.as_slice();
    let words = image.root.as_slice();
    match ty {
        Ty::Int(bits) => match first_misfit(&[u64::from(bits)], words) {
            None => Ok(()),
            Some(i) => Err(ImageFault::BadRoot(i)),
        },
        Ty::Named(ty) => match first_misfit(widths_of(agreed.layouts(), ty), words) {
            None => descend(alloc, agreed, memory, root_place(alloc, ty, words)?),
            Some(i) => Err(ImageFault::BadRoot(i)),
        },
    }
}
