//! Whole runs. A run is of a function of the code, on words, its arguments. A slot is one of a
//! call's own words, by its number; a call waits while one that it made goes on, and has a frame
//! then.

ghost use Rattle.std.specs.Prelude.{◌≡◌, ◌<◌, ◌≤◌, ◌+◌, false, length, slice_get, IfOk};
ghost use Rattle.rb_bytes.specs.Memory.{Memory};
ghost use Rattle.rb_core.specs.Limits.{most_calls};
ghost use Rattle.rb_target.specs.Meaning.{run_of};
ghost use Rattle.rb_target.specs.Validity.{IsValid};
ghost use Rattle.rb_machine.specs.Runs.{IsNotTrapped, RanAs, params_in};
ghost use Rattle.rb_machine.specs.inner.Turns.{StateIsSound, rest_of};

use crate::calls::push_zeros;
use crate::state::State;
use crate::turn::{stretch_turn, turn};
use rb_bytes::memory::ByteMemory;
use rb_edge::steps::{Ledger, Steps};
use rb_target::code::{Code, CodeFun};
use rb_target::outcome::{End, Ran};
use std::alloc::{AllocError, Global};

/// Runs function `fun` of the code on these words, over a memory, with at most so many calls, its
/// own included; with none it is `Spent` at once. One step is ticked for each instruction that is
/// begun. Memory is taken here and at calls alone, for their slots and for a frame for each call
/// that waits; after want of memory the steps stand anywhere between.
///
/// # Errors
///
/// Want of memory.
pub fn run<M: ByteMemory, L: Ledger>(
    alloc: Global,
    code: &Code,
    fun: usize,
    words: &[u64],
    memory: &mut M,
    calls: u64,
    steps: &mut Steps<L>,
) -> Result<Ran, AllocError>
    requires known { fun < length code.now }
    requires words { length words.now ≡ params_in (slice_get code.now fun) }
    requires calls { calls ≤ most_calls }
    // a memory that does not check is run only over code that does not trap
    requires checks { M.CHECKS ≡ false → IsNotTrapped
        (run_of code.now calls fun words.now (M.memory memory.old)).ended }
    ensures { IfOk result (λ ran. RanAs (run_of code.now calls fun words.now (M.memory memory.old)) ran
        (M.memory memory.new) steps.old.taken steps.new.taken) }
{
    if calls == 0 {
        return Ok(Ran {
            end: End::Spent,
            switches: 0,
        });
    }
    let funs = code.funs();
    let mut state = first_state(alloc, funs, fun, words, calls - 1)?;
    loop {
        let leave = match stretch_turn(funs, calls - 1, &mut state, memory, steps) {
            Ok(leave) => leave,
            Err(end) => {
                return Ok(Ran {
                    end,
                    switches: state.switches,
                });
            }
        };
        steps.tick();
        if let Some(end) = turn(alloc, funs, calls - 1, &mut state, leave)? {
            return Ok(Ran {
                end,
                switches: state.switches,
            });
        }
    }
}

// A run as it begins, at the first instruction of function `fun`: the words stand in its first
// slots and 0 in all others, no call waits, and `left` more calls may be made. The `Err` is want of
// memory.
fn first_state(
    alloc: Global,
    funs: &[CodeFun],
    fun: usize,
    words: &[u64],
    left: u64,
) -> Result<State, AllocError>
    requires valid { IsValid funs.now }
    requires known { fun < length funs.now }
    requires words { length words.now ≡ params_in (slice_get funs.now fun) }
    requires left { left < most_calls }
    ensures sound { IfOk result (λ s. StateIsSound funs.now left s) }
    ensures whole { IfOk result (λ s. (m : Memory)
        → run_of funs.now (left + 1) fun words.now m ≡ rest_of funs.now left s m 0) }
{
    let outermost = &funs[fun];
    let mut stack = Vec::from_slice(alloc, words)?;
    push_zeros(&mut stack, outermost.slots - words.len())?;
    let mut results = Vec::new(alloc);
    push_zeros(&mut results, outermost.results)?;
    Ok(State {
        fun,
        pc: 0,
        base: 0,
        stack,
        left,
        frames: Vec::new(alloc),
        switches: 0,
        results,
    })
}
