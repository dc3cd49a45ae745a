//! The values of images.
//!
//! An image is root words and blocks of a memory. It is sound for a type if the root words fit the
//! type, and neither the value that is to stand there nor any subvalue below has a fault; it holds
//! a value if the root words represent one, and pointers in blocks lead to lower addresses only.
//! `agreed` has the program's types and their layouts. A node of a value is a constructor or an
//! integer in it.

ghost use Rattle.std.specs.Prelude.{◌≤◌, IfErr, IfOk};
ghost use Rattle.rb_coding.specs.Decoding.{AreOf};
ghost use Rattle.rb_core.specs.Values.{node_count};
ghost use Rattle.rb_core.specs.declared.value.Value.{Value};
ghost use Rattle.rb_image.specs.Falling.{RootDescends};
ghost use Rattle.rb_image.specs.Memories.{image_memory};
ghost use Rattle.rb_image.specs.Reads.{ImageIsRead, IsReason};
ghost use Rattle.rb_image.specs.Roots.{IsFirstImageFault, IsSoundImage};
ghost use Rattle.rb_image.specs.Sound.{IsFault};
ghost use Rattle.rb_image.specs.Values.{IsDeclared};
ghost use Rattle.rb_image.specs.inner.Having.{AreSoundWhereTheyDescend, HaveDescents, RootsHaveValues};
ghost use Rattle.rb_image_text.specs.Images.{AreImageBlocks};
ghost use Rattle.rb_image_text.specs.Places.{AreInPlace};
ghost use Rattle.rb_image_text.specs.declared.fault.ImageFault.{ImageFault};

use crate::examine::examine_image;
use crate::laws::{descending_images_are_sound, sound_images_descend, sound_images_have_values};
use crate::memory::memory_of;
use rb_coding::decode::decode;
use rb_coding::fault::DecodeFault;
use rb_core::types::Ty;
use rb_image_text::fault::ImageFault;
use rb_image_text::image::Image;
use rb_layout::agreed::Agreed;
use rb_values::forest::Forest;
use std::alloc::Global;

// Tells proofs that images which are sound for a type of this program have values. Nothing else is
// done.
fn images_have_values(agreed: &Agreed)
    ensures { RootsHaveValues agreed.now.covered.program agreed.now.layouts }
{
    sound_images_have_values();
    let _ = agreed.covered().program();
    let _ = agreed.layouts();
}

// Tells proofs that the images which are sound for a type of this program are those that hold a
// value. Nothing else is done.
fn images_descend(agreed: &Agreed)
    ensures held { HaveDescents agreed.now.covered.program agreed.now.layouts }
    ensures sound { AreSoundWhereTheyDescend agreed.now.covered.program agreed.now.layouts }
{
    sound_images_descend();
    descending_images_are_sound();
    let _ = agreed.covered().program();
    let _ = agreed.layouts();
}

// The value of an image that is sound, decoded in a memory in which its blocks stand, if it has at
// most `limit` nodes; else the error is `ImageTooLarge`, or want of memory.
fn value_of(
    alloc: Global,
    agreed: &Agreed,
    ty: Ty,
    image: &Image,
    limit: u64,
) -> Result<Forest, ImageFault>
    requires placed { AreInPlace image.now.blocks }
    requires sized { AreImageBlocks image.now.blocks }
    requires declared { IsDeclared agreed.now.covered.program.types ty }
    requires sound { IsSoundImage agreed.now.covered.program.types agreed.now.layouts image.now ty }
    ensures { (v : Value) → AreOf agreed.now.covered.program (image_memory image.now.blocks) ty image.now.root v
        → ImageIsRead v limit result }
{
    images_have_values(agreed);
    let memory = memory_of(alloc, image.blocks.as_slice())?;
    match decode(alloc, agreed, ty, image.root.as_slice(), &memory, limit) {
        Ok(value) => Ok(value),
        Err(DecodeFault::TooLarge) => Err(ImageFault::ImageTooLarge),
        Err(DecodeFault::Memory) => Err(ImageFault::Memory),
    }
}

/// The value that an image holds: its root words represent it in the memory that has exactly the image's blocks, and
/// each pointer that is kept in a block leads to a block with a lower address. An image holds one exactly where it is
/// sound for the type, as `examine_image` says. The nodes of the value are told off as they are found, so the work is
/// at most that for so many nodes as `limit`, however often the value shares a block.
///
/// # Errors
///
/// The image's first fault, as of `examine_image`; or `ImageTooLarge` where it has none and its value has more nodes
/// than `limit`. Or want of memory.
pub fn read_image(
    alloc: Global,
    agreed: &Agreed,
    ty: Ty,
    image: &Image,
    limit: u64,
) -> Result<Forest, ImageFault>
    requires placed { AreInPlace image.now.blocks }
    requires sized { AreImageBlocks image.now.blocks }
    requires declared { IsDeclared agreed.now.covered.program.types ty }
    ensures value { IfOk result (λ v.
        RootDescends agreed.now.covered.program image.now ty v × (node_count v ≤ limit)) }
    ensures each { (v : Value) → RootDescends agreed.now.covered.program image.now ty v
        → ImageIsRead v limit result }
    ensures fault { IfErr result (λ fault.
        IsReason agreed.now.covered.program agreed.now.layouts image.now ty limit fault) }
    ensures first { (fault : ImageFault)
        → IsFirstImageFault agreed.now.covered.program.types agreed.now.layouts image.now ty fault
        → IsFault fault result }
{
    images_descend(agreed);
    examine_image(alloc, agreed, ty, image)?;
    value_of(alloc, agreed, ty, image, limit)
}
