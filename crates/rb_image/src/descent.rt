//! The descent over all places that one comes to from a place.
//!
//! A place is a type's number and the words at which a value of it is to stand. Its own fault is
//! what `look` says of it; below it are the places of its leaf's open positions. It is sound if it
//! has no fault and all places below it are sound. `agreed` has the program's types and layouts,
//! and `memory` the image's blocks.

ghost use Rattle.std.specs.Prelude.{◌≡◌, ◌++◌, OnOk, length};
ghost use Rattle.rb_image.specs.Parts.{at_of, look};
ghost use Rattle.rb_image.specs.inner.Descending.{SoundnessIsFound, TurnAnswers, looks};
ghost use Rattle.rb_image.specs.inner.Ending.{DescentsEnd, DescentEnds, depth_bound};
ghost use Rattle.rb_image_text.specs.Places.{AreInPlace};

use crate::kept::Place;
use crate::known::Known;
use crate::look::look;
use rb_image_text::fault::ImageFault;
use rb_image_text::image::ImageBlock;
use rb_layout::agreed::Agreed;
use std::alloc::{AllocError, Global};

/// One thing to do in a descent over places.
#[derive(Drop)]
pub enum Step {
    /// This place is to be looked at.
    Look(Place),
    /// All places below this one were found sound, and so it is.
    Note(Place),
}

// Adds looks at these places to the things to do, of which the last is done first: so the first
// place is looked at first.
fn add_looks(places: Vec<Place>, todo: &mut Vec<Step>) -> Result<(), AllocError>
    ensures { OnOk result (todo.new.items ≡ todo.old.items ++ looks places.items) }
{
    let mut places = places;
    while let Some(place) = places.pop() {
        todo.push(Step::Look(place))?;
    }
    Ok(())
}

/// Tells proofs that a descent from root words ends. The getters know it: the program is typed, and
/// its layouts agree. Nothing else is done.
pub(crate) fn descents_end(agreed: &Agreed)
    ensures { DescentsEnd agreed.now.covered.program.types agreed.now.layouts }
{
    let _ = agreed.covered().program();
    let _ = agreed.layouts();
}

// Does one thing: notes a place, or looks at one that was not found sound, so that then the places
// below it are looked at, and it is noted. An error is that of the look, or want of memory.
fn turn(
    alloc: Global,
    agreed: &Agreed,
    memory: &[ImageBlock],
    step: Step,
    known: &mut Known,
    todo: &mut Vec<Step>,
) -> Result<(), ImageFault>
    requires placed { AreInPlace memory.now }
    ensures { TurnAnswers (look agreed.now.covered.program.types agreed.now.layouts memory.now) step
        known.old todo.old.items known.new todo.new.items result }
{
    match step {
        Step::Note(place) => Ok(known.add(place)?),
        Step::Look(place) => if known.has(&place) {
            Ok(())
        } else {
            let below = look(alloc, agreed, memory, &place)?;
            todo.push(Step::Note(place))?;
            Ok(add_looks(below, todo)?)
        },
    }
}

/// Checks that a place is sound: looks at it and at all that one comes to from it, outer places
/// before inner ones, from left to right. A place that was found sound is not looked at again. What
/// is to do stands on a stack, so nothing recurs. An error is the first fault that a look finds, or
/// want of memory.
pub(crate) fn descend(
    alloc: Global,
    agreed: &Agreed,
    memory: &[ImageBlock],
    root: Place,
) -> Result<(), ImageFault>
    requires placed { AreInPlace memory.now }
    requires ends { DescentEnds
        (look agreed.now.covered.program.types agreed.now.layouts memory.now)
        (depth_bound 18446744073709551616 (length agreed.now.layouts)) (at_of root) }
    ensures { SoundnessIsFound (look agreed.now.covered.program.types agreed.now.layouts memory.now)
        (at_of root) result }
{
    let mut todo = Vec::new(alloc);
    todo.push(Step::Look(root))?;
    let mut known = Known::new(alloc);
    while let Some(step) = todo.pop() {
        turn(alloc, agreed, memory, step, &mut known, &mut todo)?;
    }
    Ok(())
}
