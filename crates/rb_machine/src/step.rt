//! One instruction. A slot is one of a function's own words, by its number; `pc` is the number of
//! the instruction in the function's body.

ghost use Rattle.std.specs.Prelude.{◌≡◌, ℕ, ◌<◌, ◌≤◌, ◌+◌, ◌^◌, false, length, slice_set};
ghost use Rattle.rb_target.specs.Meaning.{Next, Callee, act, target_of as the_target_of};
ghost use Rattle.rb_target.specs.Validity.{IsFine};
ghost use Rattle.rb_machine.specs.inner.Turns.{world, IsFlow, flow_to, MayRun, HasNext, IsLeft};

use crate::alu::{alu, low_bits};
use crate::state::{Flow, Leave};
use rb_bits::words::{put, take};
use rb_bytes::fault::Trap;
use rb_bytes::memory::ByteMemory;
use rb_target::code::CodeFun;
use rb_target::instr::{Instr, SwitchArm};
use rb_target::outcome::End;

/// Runs `instr`, instruction `pc` of function `fun`, over the function's slots and the memory,
/// counts it in `switches` if it is a switch, and gives where it leads; a call or a return is only
/// told. `funs` are the functions of the code, of which the contract alone speaks; it holds for
/// whatever goes on after the instruction.
pub fn step<'a, M: ByteMemory>(
    funs: &[CodeFun],
    fun: &CodeFun,
    pc: usize,
    instr: &'a Instr,
    slots: &mut [u64],
    memory: &mut M,
    switches: &mut u128,
) -> Flow<'a>
    requires goes_on { HasNext (length fun.now.body) pc instr.now }
    requires short { length fun.now.body < 2 ^ 64 }
    requires fine { IsFine funs.now fun.now pc instr.now }
    requires slots { length slots.old ≡ fun.now.slots }
    requires switches { switches.old < 2 ^ 127 }
    requires checks { M.CHECKS ≡ false → MayRun (M.memory memory.old) slots.old instr.now }
    ensures flow { (next : Next) (callee : Callee) (left taken : ℕ) →
        act instr.now next callee pc slots.old (world left (M.memory memory.old) switches.old taken)
        ≡ flow_to instr.now callee pc result next slots.new (world left (M.memory memory.new) switches.new taken) }
    ensures target { IsFlow (length fun.now.body) pc result }
    ensures switches { switches.new ≤ switches.old + 1 }
    ensures leaves { IsLeft instr.now result switches.old switches.new }
{
    match instr {
        Instr::Const(dest, number) => write(slots, *dest, *number, pc),
        Instr::Copy(dest, from) => {
            let word = slots[*from];
            write(slots, *dest, word, pc)
        }
        Instr::Alu(op, bits, dest, left, right) => {
            let word = alu(*op, *bits, slots[*left], slots[*right]);
            write(slots, *dest, word, pc)
        }
        Instr::Take(dest, from, o, l) => {
            let word = take(slots[*from], u32::from(*o), u32::from(*l));
            write(slots, *dest, word, pc)
        }
        Instr::Put(dest, from, o, l) => {
            let part = low_bits(slots[*from], *l);
            let word = put(slots[*dest], u32::from(*o), u32::from(*l), part);
            write(slots, *dest, word, pc)
        }
        Instr::Load(dest, base, offset, width) => {
            match memory.load(slots[*base], *offset, u64::from(*width)) {
                Ok(word) => write(slots, *dest, word, pc),
                Err(trap) => Flow::Ends(End::Trapped(trap)),
            }
        }
        Instr::Store(base, offset, width, from) => {
            match memory.store(slots[*base], *offset, u64::from(*width), slots[*from]) {
                Ok(()) => Flow::Goes(pc + 1),
                Err(trap) => Flow::Ends(End::Trapped(trap)),
            }
        }
        Instr::Place(dest, size, align) => match memory.place(*size, *align) {
            Ok(address) => write(slots, *dest, address, pc),
            Err(full) => Flow::Ends(End::Full(full)),
        },
        Instr::Jump(target) => Flow::Goes(*target),
        Instr::Switch(from, other, arms) => {
            *switches += 1;
            let word = slots[*from];
            match target_of(arms.as_slice(), *other, word) {
                Some(target) => Flow::Goes(target),
                None => Flow::Ends(End::Trapped(Trap::Unmatched(word))),
            }
        }
        Instr::Call(callee, _, froms) => Flow::Leaves(Leave::Calls(*callee, froms.as_slice())),
        Instr::Return(froms) => Flow::Leaves(Leave::Returns(froms.as_slice())),
    }
}

// Puts a word into slot `dest`, and goes on at the instruction behind `pc`.
fn write<'a>(slots: &mut [u64], dest: usize, word: u64, pc: usize) -> Flow<'a>
    requires dest { dest < length slots.old }
    requires room { pc + 1 < 2 ^ 64 }
    ensures written { slots.new ≡ slice_set slots.old dest word }
    ensures goes { result ≡ Flow.Goes (pc + 1) }
{
    slots[dest] = word;
    Flow::Goes(pc + 1)
}

// The target of the first arm whose number is the word, or else the switch's other target; None
// where there is neither.
fn target_of(arms: &[SwitchArm], other: Option<usize>, word: u64) -> Option<usize>
    ensures { result ≡ the_target_of arms.now other word }
{
    for arm in arms {
        if arm.number == word {
            return Some(arm.target);
        }
    }
    other
}
