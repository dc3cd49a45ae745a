//! Calls and returns. `funs` are the functions of the code, by number, and `pc` is the number of an
//! instruction in a function's body. A slot is one of a call's own words, by its number. The slots
//! of all calls stand on one stack: those of the current call from `base` on, and below them those
//! of the calls that wait for one that they made, the outermost first. A frame is a call that
//! waits. `froms` are the slots whose words a call or a return passes on, `dests` those to which a
//! call instruction writes its results, and `depth` is how many calls can be nested in the first.

ghost use Rattle.std.specs.Prelude.{◌≡◌, ◌<◌, ◌≤◌, ◌+◌, ◌-◌, Some, length, take, drop, slice_get, IfOk, ◌++◌, replicate, vec_len, vec_capacity};
ghost use Rattle.rb_bytes.specs.Memory.{Memory};
ghost use Rattle.rb_target.specs.Meaning.{body_of, slots_at, put_slots};
ghost use Rattle.rb_target.specs.Validity.{IsValid, AreSlots};
ghost use Rattle.rb_target.specs.Laws.{IsLawful};
ghost use Rattle.rb_machine.specs.inner.Turns.{StateIsSound, IsCallAt, Turned, TurnGives, IsPlace, current_slots, call_dests};

use crate::state::{Frame, State};
use rb_core::seq::Seq;
use rb_target::code::CodeFun;
use rb_target::instr::Instr;
use rb_target::outcome::End;
use std::alloc::{AllocError, Global};

/// Instruction number `pc` of function number `fun`.
pub fn instr_at<'a>(funs: &'a [CodeFun], fun: usize, pc: usize) -> &'a Instr
    requires known { fun < length funs.now }
    requires inside { pc < length (body_of funs.now fun) }
    ensures { slice_get (body_of funs.now fun) pc ≡ Some result.now }
{
    let body = funs[fun].body.as_slice();
    &body[pc]
}

// Adds zeros at the end, where there is room.
fn add_zeros(words: &mut Vec<u64>, zeros: usize)
    requires room { vec_len words.old + zeros ≤ vec_capacity words.old }
    ensures { words.new.items ≡ words.old.items ++ replicate zeros 0 }
{
    for i in 0..zeros {
        words.push_reserved(0);
    }
}

/// Adds zeros at the end. A run begins with them in the slots of its first function that hold no
/// argument, and in place of its results (`run.rt`).
///
/// # Errors
///
/// Want of memory.
pub fn push_zeros(words: &mut Vec<u64>, zeros: usize) -> Result<(), AllocError>
    ensures { IfOk result (λ _. words.new.items ≡ words.old.items ++ replicate zeros 0) }
{
    words.reserve(zeros)?;
    add_zeros(words, zeros);
    Ok(())
}

// Adds the words in some of the slots from `base` on at the end, where there is room.
fn add_words(stack: &mut Vec<u64>, base: usize, froms: &[usize])
    requires room { vec_len stack.old + length froms.now ≤ vec_capacity stack.old }
    requires froms { AreSlots (length (drop base stack.old.items)) froms.now }
    ensures items { stack.new.items ≡ stack.old.items ++ slots_at (drop base stack.old.items) froms.now }
    ensures len { vec_len stack.new ≡ vec_len stack.old + length froms.now }
    ensures capacity { vec_capacity stack.new ≡ vec_capacity stack.old }
{
    for from in froms {
        let word = stack[base + *from];
        stack.push_reserved(word);
    }
}

// Adds the first slots of a call at the end: the words in some of the slots from `base` on, and
// zeros up to a number of slots.
fn push_slots(
    stack: &mut Vec<u64>,
    base: usize,
    froms: &[usize],
    count: usize,
) -> Result<(), AllocError>
    requires froms { AreSlots (length (drop base stack.old.items)) froms.now }
    requires few { length froms.now ≤ count }
    ensures { IfOk result (λ _. stack.new.items ≡ stack.old.items
        ++ (slots_at (drop base stack.old.items) froms.now ++ replicate (count - length froms.now) 0)) }
{
    stack.reserve(count)?;
    add_words(stack, base, froms);
    add_zeros(stack, count - froms.len());
    Ok(())
}

/// The call at which the current function stands: that waits, and function `callee` begins with the
/// words of the slots `froms`. One call less is left.
///
/// # Errors
///
/// Want of memory.
pub fn call_turn(
    funs: &[CodeFun],
    depth: u64,
    state: &mut State,
    callee: usize,
    froms: &[usize],
) -> Result<(), AllocError>
    requires valid { IsValid funs.now }
    requires laws { IsLawful funs.now }
    requires sound { StateIsSound funs.now depth state.old }
    requires instr { IsCallAt funs.now state.old.fun state.old.pc callee froms.now }
    requires known { callee < length funs.now }
    requires froms { AreSlots (length (current_slots state.old)) froms.now }
    requires left { 0 < state.old.left }
    ensures { IfOk result (λ _. (m : Memory) → Turned funs.now depth state.old m state.new m 1) }
{
    let top = state.stack.len();
    let called = &funs[callee];
    push_slots(&mut state.stack, state.base, froms, called.slots)?;
    let frame = Frame {
        fun: state.fun,
        pc: state.pc,
    };
    state.frames.push(frame)?;
    state.fun = callee;
    state.pc = 0;
    state.base = top;
    state.left -= 1;
    Ok(())
}

// Puts the words of the slots `froms` of a call that ended, whose slots hold `words`, into the
// slots `dests` of the one that waited, one each and in order, as far as both lists reach.
fn put_back(slots: &mut [u64], dests: &[usize], words: &[u64], froms: &[usize])
    requires dests { AreSlots (length slots.old) dests.now }
    requires froms { AreSlots (length words.now) froms.now }
    ensures { slots.new ≡ put_slots slots.old dests.now (slots_at words.now froms.now) }
{
    for (k, dest) in dests.iter().enumerate() {
        if k >= froms.len() {
            return;
        }
        slots[*dest] = words[froms[k]];
    }
}

// Puts the results of a call, whose slots hold `words`, into the slots of the one that waited for
// it, at instruction `pc` of function `fun`; nothing is done where that is no call.
fn put_results(
    funs: &[CodeFun],
    fun: usize,
    pc: usize,
    slots: &mut [u64],
    words: &[u64],
    froms: &[usize],
)
    requires valid { IsValid funs.now }
    requires place { IsPlace funs.now fun pc slots.old }
    requires froms { AreSlots (length words.now) froms.now }
    ensures { slots.new ≡ put_slots slots.old (call_dests (slice_get (body_of funs.now fun) pc))
        (slots_at words.now froms.now) }
{
    if let Instr::Call(_, dests, _) = instr_at(funs, fun, pc) {
        put_back(slots, dests.as_slice(), words, froms);
    }
}

// Puts the results of a call into the slots of the one that waited for it, on the stack: the slots
// of the call that ended begin at `top`, and those of the one that waited at `base`.
fn give_back(
    funs: &[CodeFun],
    frame: &Frame,
    stack: &mut [u64],
    base: usize,
    top: usize,
    froms: &[usize],
)
    requires valid { IsValid funs.now }
    requires order { (base ≤ top) × (top ≤ length stack.old) }
    requires place { IsPlace funs.now frame.now.fun frame.now.pc (drop base (take top stack.old)) }
    requires froms { AreSlots (length (drop top stack.old)) froms.now }
    ensures { stack.new ≡ (take base stack.old
        ++ put_slots (drop base (take top stack.old))
        (call_dests (slice_get (body_of funs.now frame.now.fun) frame.now.pc))
        (slots_at (drop top stack.old) froms.now)) ++ drop top stack.old }
{
    let (below, words) = stack.split_at_mut(top);
    let (_, slots) = below.split_at_mut(base);
    put_results(funs, frame.fun, frame.pc, slots, words, froms);
}

// Puts the words of some slots into a list of just as many.
fn fill(words: &mut [u64], slots: &[u64], froms: &[usize])
    requires long { length words.old ≡ length froms.now }
    requires froms { AreSlots (length slots.now) froms.now }
    ensures { words.new ≡ slots_at slots.now froms.now }
{
    for (k, from) in froms.iter().enumerate() {
        words[k] = slots[*from];
    }
}

/// The return at which the current function stands, with the words of the slots `froms`. The
/// function that waited for it goes on, and None is given; or none waited, and the run ends with
/// this end: then the slots of the outermost call are the whole stack.
pub fn return_turn(
    alloc: Global,
    funs: &[CodeFun],
    depth: u64,
    state: &mut State,
    froms: &[usize],
) -> Option<End>
    requires valid { IsValid funs.now }
    requires laws { IsLawful funs.now }
    requires sound { StateIsSound funs.now depth state.old }
    requires instr { slice_get (body_of funs.now state.old.fun) state.old.pc ≡ Some (Instr.Return froms.now) }
    requires froms { AreSlots (length (current_slots state.old)) froms.now }
    ensures { (m : Memory) → TurnGives funs.now depth state.old m result state.new m 1 }
{
    match state.frames.pop() {
        None => {
            let mut words = std::mem::replace(&mut state.results, Vec::new(alloc));
            fill(words.as_mut_slice(), state.stack.as_slice(), froms);
            Some(End::Returned {
                words: Seq::from_vec(words),
                calls_left: state.left,
            })
        }
        Some(frame) => {
            let top = state.base;
            let caller = &funs[frame.fun];
            let base = top - caller.slots;
            give_back(funs, &frame, state.stack.as_mut_slice(), base, top, froms);
            state.stack.truncate(top);
            state.fun = frame.fun;
            state.pc = frame.pc + 1;
            state.base = base;
            None
        }
    }
}
