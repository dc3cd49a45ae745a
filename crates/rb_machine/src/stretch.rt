//! A stretch: the instructions of one call up to where it calls another, returns, or ends the run.
//! A slot is one of the call's own words, by its number. `funs` are the functions of the code,
//! `fun` is that of the call, and `switches` counts the switches that are done.

ghost use Rattle.std.specs.Prelude.{◌≡◌, ℕ, ◌<◌, ◌≤◌, ◌+◌, ◌-◌, ◌^◌, false, length, take, drop};
ghost use Rattle.rb_target.specs.Meaning.{Callee, from};
ghost use Rattle.rb_target.specs.Validity.{IsValidFun};
ghost use Rattle.rb_target.specs.Laws.{Law};
ghost use Rattle.rb_machine.specs.inner.Turns.{world};
ghost use Rattle.rb_machine.specs.inner.Stretches.{end_from_stop, IsStop, IsQuietFrom};

use crate::state::{Flow, Stop};
use crate::step::step;
use rb_bytes::memory::ByteMemory;
use rb_edge::steps::{Ledger, Steps};
use rb_target::code::CodeFun;

/// Runs a function from instruction `start` on, over its slots and the memory, up to a call or a
/// return, which is not begun, or the end of the run. One step is ticked for each instruction that
/// is begun. Its contract speaks of whatever calls do.
pub fn stretch<'a, M: ByteMemory, L: Ledger>(
    funs: &[CodeFun],
    fun: &'a CodeFun,
    start: usize,
    slots: &mut [u64],
    memory: &mut M,
    switches: &mut u128,
    steps: &mut Steps<L>,
) -> Stop<'a>
    requires valid { IsValidFun funs.now fun.now }
    requires laws { (callee : Callee) → Law fun.now.body callee (from fun.now.body callee) }
    requires inside { start < length fun.now.body }
    requires slots { length slots.old ≡ fun.now.slots }
    requires switches { switches.old + length fun.now.body < 2 ^ 127 + start }
    requires checks { M.CHECKS ≡ false → IsQuietFrom fun.now.body start slots.old (M.memory memory.old) switches.old }
    ensures same { (callee : Callee) (left taken : ℕ) →
        from fun.now.body callee start slots.old (world left (M.memory memory.old) switches.old taken)
        ≡ end_from_stop fun.now.body callee result slots.new
        (world left (M.memory memory.new) switches.new (taken + (steps.new.taken - steps.old.taken))) }
    ensures stop { IsStop fun.now.body start result (steps.new.taken - steps.old.taken) (switches.new - switches.old) }
    ensures ticks { steps.old.taken ≤ steps.new.taken }
{
    let body = fun.body.as_slice();
    let mut pc = start;
    loop {
        let instr = &body[pc];
        match step(funs, fun, pc, instr, slots, memory, switches) {
            Flow::Goes(next) => {
                steps.tick();
                pc = next;
            }
            Flow::Leaves(leave) => return Stop::At(pc, leave),
            Flow::Ends(end) => {
                steps.tick();
                return Stop::Ends(end);
            }
        }
    }
}

/// Runs a function from one of its instructions on, as [`stretch`] does, over a stack of words of
/// which the function's slots are those from `base` on. The words below stay.
pub fn stretch_above<'a, M: ByteMemory, L: Ledger>(
    funs: &[CodeFun],
    fun: &'a CodeFun,
    start: usize,
    stack: &mut [u64],
    base: usize,
    memory: &mut M,
    switches: &mut u128,
    steps: &mut Steps<L>,
) -> Stop<'a>
    requires valid { IsValidFun funs.now fun.now }
    requires laws { (callee : Callee) → Law fun.now.body callee (from fun.now.body callee) }
    requires inside { start < length fun.now.body }
    requires base { base ≤ length stack.old }
    requires slots { length (drop base stack.old) ≡ fun.now.slots }
    requires switches { switches.old + length fun.now.body < 2 ^ 127 + start }
    requires checks { M.CHECKS ≡ false → IsQuietFrom fun.now.body start (drop base stack.old)
        (M.memory memory.old) switches.old }
    ensures below { take base stack.new ≡ take base stack.old }
    ensures same { (callee : Callee) (left taken : ℕ) →
        from fun.now.body callee start (drop base stack.old) (world left (M.memory memory.old) switches.old taken)
        ≡ end_from_stop fun.now.body callee result (drop base stack.new)
        (world left (M.memory memory.new) switches.new (taken + (steps.new.taken - steps.old.taken))) }
    ensures stop { IsStop fun.now.body start result (steps.new.taken - steps.old.taken) (switches.new - switches.old) }
    ensures ticks { steps.old.taken ≤ steps.new.taken }
{
    let (_, slots) = stack.split_at_mut(base);
    stretch(funs, fun, start, slots, memory, switches, steps)
}
