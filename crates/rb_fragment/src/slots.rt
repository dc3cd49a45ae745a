//! Lists of slots.

ghost use Rattle.std.specs.Prelude.{◌≡◌, ◌++◌, IfOk, OnOk};
ghost use Rattle.rb_fragment.specs.Slots.{slots_from, with_slots};
ghost use Rattle.rb_fragment.specs.Holding.{all_slots};

use crate::held::Held;
use rb_core::seq::Seq;
use rb_target::body::Body;
use std::alloc::{AllocError, Global};

/// Takes so many slots in a row that nothing else uses.
///
/// # Errors
///
/// Want of memory.
pub fn fresh_slots(alloc: Global, body: &mut Body, count: usize) -> Result<Seq<usize>, AllocError>
    ensures slots { IfOk result (λ ds. ds ≡ slots_from body.old.slots count) }
    ensures code { OnOk result (body.new ≡ with_slots body.old count) }
{
    let mut slots = Seq::new(alloc);
    for _given in 0..count {
        let slot = body.fresh()?;
        slots.push(slot)?;
    }
    Ok(slots)
}

/// The slots of several values, one behind the other.
///
/// # Errors
///
/// Want of memory.
pub fn joined_slots(alloc: Global, held: &[Held]) -> Result<Seq<usize>, AllocError>
    ensures { IfOk result (λ s. s ≡ all_slots held.now) }
{
    let mut slots = Seq::new(alloc);
    for one in held {
        push_all(&mut slots, one.slots.as_slice())?;
    }
    Ok(slots)
}

// Adds the slots of one list behind those of another.
fn push_all(slots: &mut Seq<usize>, more: &[usize]) -> Result<(), AllocError>
    ensures { OnOk result (slots.new ≡ slots.old ++ more.now) }
{
    for slot in more {
        slots.push(*slot)?;
    }
    Ok(())
}
