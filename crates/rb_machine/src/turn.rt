//! Turns of the machine: a stretch of instructions, or a call or a return. `funs` are the functions
//! of the code, and `depth` is how many calls can be nested in the first. The current call of a
//! state is the one that runs; the others wait for one that they made.

ghost use Rattle.std.specs.Prelude.{◌≡◌, ◌≤◌, ◌-◌, false, IfOk, slice_get};
ghost use Rattle.rb_bytes.specs.Memory.{Memory};
ghost use Rattle.rb_target.specs.Meaning.{body_of};
ghost use Rattle.rb_target.specs.Validity.{IsValid};
ghost use Rattle.rb_target.specs.Laws.{IsLawful};
ghost use Rattle.rb_machine.specs.inner.Turns.{StateIsSound, TurnGives, StretchGives, IsQuiet, IsLeave};

use crate::calls::{call_turn, return_turn};
use crate::state::{Leave, State, Stop};
use crate::stretch::stretch_above;
use rb_bytes::memory::ByteMemory;
use rb_edge::steps::{Ledger, Steps};
use rb_target::code::CodeFun;
use rb_target::outcome::End;
use std::alloc::{AllocError, Global};

/// Runs the current call up to where it calls another or returns, or gives the end of the run as
/// the `Err`.
///
/// # Errors
///
/// The end of the run: a trap, or a block that does not fit.
pub fn stretch_turn<'a, M: ByteMemory, L: Ledger>(
    funs: &'a [CodeFun],
    depth: u64,
    state: &mut State,
    memory: &mut M,
    steps: &mut Steps<L>,
) -> Result<Leave<'a>, End>
    requires valid { IsValid funs.now }
    requires laws { IsLawful funs.now }
    requires sound { StateIsSound funs.now depth state.old }
    requires checks { M.CHECKS ≡ false → IsQuiet funs.now depth state.old (M.memory memory.old) }
    ensures gives { StretchGives funs.now depth state.old (M.memory memory.old) result state.new
        (M.memory memory.new) (steps.new.taken - steps.old.taken) }
    ensures ticks { steps.old.taken ≤ steps.new.taken }
{
    let fun = &funs[state.fun];
    match stretch_above(
        funs,
        fun,
        state.pc,
        state.stack.as_mut_slice(),
        state.base,
        memory,
        &mut state.switches,
        steps,
    ) {
        Stop::At(pc, leave) => {
            state.pc = pc;
            Ok(leave)
        }
        Stop::Ends(end) => Err(end),
    }
}

/// Does `leave`, the call or the return at which the current call stands, and gives the end if it
/// ends the run, else None: a return from the outermost call does so, and a call where none is
/// left. Only a call takes memory.
///
/// # Errors
///
/// Want of memory.
pub fn turn(
    alloc: Global,
    funs: &[CodeFun],
    depth: u64,
    state: &mut State,
    leave: Leave,
) -> Result<Option<End>, AllocError>
    requires valid { IsValid funs.now }
    requires laws { IsLawful funs.now }
    requires sound { StateIsSound funs.now depth state.old }
    requires leaves { IsLeave (slice_get (body_of funs.now state.old.fun) state.old.pc) leave }
    ensures { IfOk result (λ r. (m : Memory) → TurnGives funs.now depth state.old m r state.new m 1) }
{
    match leave {
        Leave::Calls(callee, froms) => {
            if state.left == 0 {
                return Ok(Some(End::Spent));
            }
            call_turn(funs, depth, state, callee, froms)?;
            Ok(None)
        }
        Leave::Returns(froms) => Ok(return_turn(alloc, funs, depth, state, froms)),
    }
}
