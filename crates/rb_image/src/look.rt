//! One place, looked at by itself.
//!
//! A place is a type's number and the words at which a value of it is to stand. A leaf leaves a
//! position open where its provenance, its pattern, lets any value stand. `agreed` has the
//! program's types and their layouts.

ghost use Rattle.rb_image.specs.Given.{IsGiven};
ghost use Rattle.rb_image.specs.Parts.{at_of, ats_of, look};
ghost use Rattle.rb_image_text.specs.Places.{AreInPlace};

use crate::below::{Examined, add_places};
use crate::kept::Place;
use crate::order::order_of;
use crate::parts::examine;
use crate::splits::leaf_at;
use rb_core::types::Ty;
use rb_image_text::fault::ImageFault;
use rb_image_text::image::ImageBlock;
use rb_layout::agreed::Agreed;
use std::alloc::Global;

/// The places below a place, from left to right: one for each subvalue of a data type that its leaf leaves open. The
/// leaf is the one to which the splits of the type's layout lead. There are no places where the type's number is that
/// of no layout. `memory` has the image's blocks in their places, so they ascend, and each is found by halves.
///
/// # Errors
///
/// The first fault of the place's own words and of the blocks that its leaf leads to, splits before parts: `BadBits`,
/// with the base and the place of the word, where no arm of a split takes its bits or a constant differs; `BadPointer`,
/// with the base of the pointer and the address, where it leads to no word or to no block of the leaf's size, or, from
/// within a block, not below that block. Or want of memory.
pub fn look(
    alloc: Global,
    agreed: &Agreed,
    memory: &[ImageBlock],
    place: &Place,
) -> Result<Vec<Place>, ImageFault>
    requires placed { AreInPlace memory.now }
    ensures { IsGiven (λ found. ats_of found.items)
        (look agreed.now.covered.program.types agreed.now.layouts memory.now (at_of place.now)) result }
{
    let types = agreed.covered().program().types.as_slice();
    let layouts = agreed.layouts();
    let mut places = Vec::new(alloc);
    let Some(layout) = layouts.get(place.ty as usize) else {
        return Ok(places);
    };
    let words = place.words.as_slice();
    let number = leaf_at(memory, words, &layout.tree)?;
    let Some(leaf) = layout.leaves.get(number as usize) else {
        return Ok(places);
    };
    let spots = order_of(alloc, leaf)?;
    let order = spots.as_slice();
    let addresses = examine(alloc, memory, leaf, words, order)?;
    let examined = Examined {
        types,
        layouts,
        memory,
        words,
        order,
        addresses: addresses.as_slice(),
    };
    add_places(
        alloc,
        &examined,
        &leaf.prov,
        Ty::Named(place.ty),
        &[],
        &mut places,
    )?;
    Ok(places)
}
