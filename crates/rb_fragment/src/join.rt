//! Where the arms of a match meet.

ghost use Rattle.std.specs.Prelude.{◌≡◌, IfOk, OnOk};
ghost use Rattle.rb_fragment.specs.Arms.{shared_held, shared_sheet, JoinedIs};

use crate::emit::emit_copies;
use crate::held::{Held, Joined};
use crate::slots::fresh_slots;
use rb_target::body::{Body, Hole};
use rb_target::instr::Instr;
use std::alloc::{AllocError, Global};

/// Appends, behind the code of an arm's value, what moves its words to where the arms before it
/// left theirs, or to new slots for the first arm, and an open jump to where all arms meet.
///
/// # Errors
///
/// Want of memory.
pub fn emit_join(
    alloc: Global,
    body: &mut Body,
    into: Option<Held>,
    held: &Held,
) -> Result<Joined, AllocError>
    ensures { IfOk result (λ r. JoinedIs into held.now body.old body.new r) }
{
    let into = shared_slots(alloc, body, into, held)?;
    emit_copies(body, into.slots.as_slice(), held.slots.as_slice())?;
    let pc = body.len();
    body.push(Instr::Jump(pc + 1))?;
    let join = Hole {
        pc,
        arm: None,
        leaf: 0,
    };
    Ok(Joined { into, join })
}

// Where an arm leaves its value: in the slots that the arms before it share, or in new ones if it
// is the first.
fn shared_slots(
    alloc: Global,
    body: &mut Body,
    into: Option<Held>,
    held: &Held,
) -> Result<Held, AllocError>
    ensures held { IfOk result (λ h. h ≡ shared_held into body.old held.now) }
    ensures code { OnOk result (body.new ≡ shared_sheet into body.old held.now) }
{
    match into {
        Some(held) => Ok(held),
        None => {
            let slots = fresh_slots(alloc, body, held.slots.len())?;
            Ok(Held { ty: held.ty, slots })
        }
    }
}
