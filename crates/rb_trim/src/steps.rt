//! A walk through a body, one instruction after the other, that makes the shorter body. `hints`
//! tell of each instruction what is known before it, which slots are read from it on, whether a run
//! may come to it, where a jump to it goes on, and its place, its number in the shorter body; all
//! this is tested. `facts` are those known before instruction `pc`, which is `instr`: each says of
//! a slot what it holds. Behind an instruction is where a run goes on after it, by one of its ways:
//! to the next one or to a target. The way of a switch's arm tells a fact, `told`, that the
//! switch's slot holds the arm's number; any other way tells nothing. An instruction that need not
//! be there is idle. Where a test fails the hints do not fit, which is the error `Stop::Unfit`.

ghost use Rattle.std.specs.Prelude.{◌≡◌, ◌⊎◌, ◌+◌, ◌<◌, ℕ, None, OnOk, IfOk, IsTrue, length, slice_get, All, IfSome};
ghost use Rattle.rb_target.specs.declared.instr.SwitchArm.{SwitchArm as SwitchArmDecl};
ghost use Rattle.rb_trim.specs.inner.Moving.{IsUnread, IsReached, IsPlain, IsIdle, IsLeftOut, LivesOn, HintsHold, FallsOn, JumpsOn, EndsWell, tells, IsSkipped, IsMerged, StandsFor};
ghost use Rattle.rb_trim.specs.inner.Following.{IsLoaded, Sets};
ghost use Rattle.rb_trim.specs.inner.Stepping.{JumpsOnAt, LivesAt, IsKnownOn, Steps, Walks};

use crate::fact::{Content, Fact};
use crate::folding::into_switch;
use crate::giving::into_copy;
use crate::hints::Hints;
use crate::knowing::source;
use crate::moving::{
    Stop, end_at, is_plain, is_reached, is_read, known_at, moved_instr, place_at, turns_back,
    unread_at,
};
use crate::returning::into_return;
use crate::telling::{follow, sets, tells};
use rb_core::seq::Seq;
use rb_target::instr::{Instr, SwitchArm};
use std::alloc::Global;

// The fact with this number, or None past the end.
fn fact_at(facts: &[Fact], k: usize) -> Option<Fact>
    ensures { result ≡ slice_get facts.now k }
{
    facts.get(k).copied()
}

// Whether a load of `width` bits, `offset` bytes past the address in slot `base`, is known to
// give a word, as some slot holds it already.
fn is_loaded(facts: &[Fact], base: usize, offset: u64, width: u8) -> bool
    ensures { IsTrue result → IsLoaded facts.now base offset width }
{
    let from = source(facts, base);
    let content = Content::Loaded(from, offset, width);
    for k in 0..facts.len() {
        if let Some(fact) = fact_at(facts, k) {
            if fact.content == content {
                return true;
            }
        }
    }
    false
}

// Whether `slot` is known, by the hints, not to be read behind instruction `pc` before it is set
// anew. Where this is false the slot may be read or not. It is false, too, where `pc` is the
// greatest number that there is.
fn is_unread(hints: &Hints, pc: usize, slot: usize) -> bool
    ensures { IsTrue result → IsUnread hints.now (pc + 1) slot }
{
    let Some(behind) = pc.checked_add(1) else {
        return false;
    };
    !is_read(hints, behind, slot)
}

// Whether an instruction need not be there: what it writes is not read behind it, and it cannot end
// the run.
fn is_idle(hints: &Hints, facts: &[Fact], pc: usize, instr: &Instr) -> bool
    ensures { IsTrue result → IsIdle hints.now facts.now pc instr.now }
{
    match instr {
        Instr::Const(dest, _)
        | Instr::Copy(dest, _)
        | Instr::Alu(_, _, dest, _, _)
        | Instr::Take(dest, _, _, _)
        | Instr::Put(dest, _, _, _) => is_unread(hints, pc, *dest),
        Instr::Load(dest, base, offset, width) => {
            is_unread(hints, pc, *dest) && is_loaded(facts, *base, *offset, *width)
        }
        Instr::Jump(_)
        | Instr::Store(..)
        | Instr::Place(..)
        | Instr::Switch(..)
        | Instr::Call(..)
        | Instr::Return(_) => false,
    }
}

// Whether an instruction may be left out: it is idle, or jumps over nothing.
fn is_left_out(hints: &Hints, pc: usize, instr: &Instr) -> bool
    ensures { IsTrue result → IsLeftOut hints.now pc instr.now }
{
    match instr {
        Instr::Jump(target) => place_at(hints, end_at(hints, *target)) == place_at(hints, pc),
        Instr::Const(..)
        | Instr::Copy(..)
        | Instr::Alu(..)
        | Instr::Take(..)
        | Instr::Put(..)
        | Instr::Load(..)
        | Instr::Store(..)
        | Instr::Place(..)
        | Instr::Switch(..)
        | Instr::Call(..)
        | Instr::Return(_) => is_idle(hints, known_at(hints, pc), pc, instr),
    }
}

// Whether an instruction may be left out, or no run comes to it.
fn may_go(hints: &Hints, pc: usize, instr: &Instr) -> bool
    ensures { IsTrue result → IsReached hints.now pc → IsLeftOut hints.now pc instr.now }
{
    !is_reached(hints, pc) || is_left_out(hints, pc, instr)
}

// Whether a run that jumps to instruction `pc` goes on where it should: there, or, for a jump,
// where a jump to its target goes on, or, for an idle one, where a jump to the next one does.
fn ends_well(hints: &Hints, pc: usize, instr: &Instr) -> bool
    ensures { IsTrue result → EndsWell hints.now pc instr.now }
{
    let ends = end_at(hints, pc);
    if ends == pc {
        return true;
    }
    match instr {
        Instr::Jump(target) => ends == end_at(hints, *target),
        Instr::Const(..)
        | Instr::Copy(..)
        | Instr::Alu(..)
        | Instr::Take(..)
        | Instr::Put(..)
        | Instr::Load(..)
        | Instr::Store(..)
        | Instr::Place(..)
        | Instr::Switch(..)
        | Instr::Call(..)
        | Instr::Return(_) => match pc.checked_add(1) {
            None => false,
            Some(behind) => {
                ends == end_at(hints, behind) && is_idle(hints, known_at(hints, pc), pc, instr)
            }
        },
    }
}

// Whether a slot that is not read before an instruction may stay so at a place behind it: the
// instruction sets it, or it is not read there either.
fn is_over(hints: &Hints, instr: &Instr, target: usize, slot: usize) -> bool
    ensures { IsTrue result → (Sets instr.now slot ⊎ IsUnread hints.now target slot) }
{
    if sets(instr, slot) {
        return true;
    }
    !is_read(hints, target, slot)
}

// Whether the slot with number `k` in a list, if there is one, is set by an instruction, or not
// read from `target` on.
fn lives_at(hints: &Hints, slots: &[usize], instr: &Instr, target: usize, k: usize) -> bool
    ensures { IsTrue result → LivesAt hints.now slots.now instr.now target k }
{
    match slots.get(k) {
        None => true,
        Some(slot) => is_over(hints, instr, target, *slot),
    }
}

// Whether each slot of a list is set by an instruction, or not read from `target` on.
fn each_lives(hints: &Hints, slots: &[usize], instr: &Instr, target: usize) -> bool
    ensures { IsTrue result
        → ((k : ℕ) → k < length slots.now → LivesAt hints.now slots.now instr.now target k) }
{
    for k in 0..slots.len() {
        if !lives_at(hints, slots, instr, target, k) {
            return false;
        }
    }
    true
}

// Whether each slot that is read from `target` on, behind an instruction, is read from the
// instruction on, or set by it. False for a target that is no later instruction.
fn lives_on(hints: &Hints, pc: usize, instr: &Instr, target: usize) -> bool
    ensures { IsTrue result → LivesOn hints.now pc instr.now target }
{
    if target <= pc {
        return false;
    }
    each_lives(hints, unread_at(hints, pc), instr, target)
}

// Whether what the hints say of `target`, the slots read and the facts, holds behind an
// instruction, by a way that tells `told`.
fn goes_on(hints: &Hints, pc: usize, instr: &Instr, told: Option<Fact>, target: usize) -> bool
    ensures { IsTrue result → HintsHold hints.now pc instr.now told target }
{
    if !lives_on(hints, pc, instr, target) {
        return false;
    }
    follow(known_at(hints, pc), told, instr, known_at(hints, target))
}

// Whether a run may come to a place behind an instruction, if it may come to the instruction.
fn comes_on(hints: &Hints, pc: usize, target: usize) -> bool
    ensures { IsTrue result → IsReached hints.now pc → IsReached hints.now target }
{
    !is_reached(hints, pc) || is_reached(hints, target)
}

// Whether a way that tells `told` may lead to `target`: what the hints say of it holds there.
fn jumps_on(hints: &Hints, pc: usize, instr: &Instr, told: Option<Fact>, target: usize) -> bool
    ensures { IsTrue result → JumpsOn hints.now pc instr.now told target }
{
    goes_on(hints, pc, instr, told, target) && comes_behind(hints, pc, end_at(hints, target))
}

// Whether the arm at index `k`, if there is one, of the switch `instr` on a slot may lead to its
// target: what the hints say of that holds there, where the slot holds the arm's number.
fn arm_jumps_on(
    hints: &Hints,
    pc: usize,
    instr: &Instr,
    slot: usize,
    arms: &[SwitchArm],
    k: usize,
) -> bool
    ensures { IsTrue result → JumpsOnAt hints.now pc instr.now slot arms.now k }
{
    match arms.get(k) {
        None => true,
        Some(arm) => {
            let told = tells(slot, arm.number);
            jumps_on(hints, pc, instr, told, arm.target)
        }
    }
}

// Whether each arm of a switch on a slot may lead to its target: there the slot holds the arm's
// number.
fn arms_jump_on(hints: &Hints, pc: usize, instr: &Instr, slot: usize, arms: &[SwitchArm]) -> bool
    ensures { IsTrue result
        → All (λ (arm : SwitchArmDecl). JumpsOn hints.now pc instr.now (tells slot arm.number) arm.target) arms.now }
{
    for k in 0..arms.len() {
        if !arm_jumps_on(hints, pc, instr, slot, arms, k) {
            return false;
        }
    }
    true
}

// Whether a switch's other way may lead to its target, if it has one.
fn other_jumps_on(hints: &Hints, pc: usize, instr: &Instr, other: Option<usize>) -> bool
    ensures { IsTrue result → IfSome other (JumpsOn hints.now pc instr.now None) }
{
    match other {
        None => true,
        Some(target) => jumps_on(hints, pc, instr, None, target),
    }
}

// Whether a run may come to a place behind an instruction. True, too, where what stands for the
// instruction stands for others as well, and where no run comes to it.
fn comes_behind(hints: &Hints, pc: usize, target: usize) -> bool
    ensures { IsTrue result → IsPlain hints.now pc → IsReached hints.now pc → IsReached hints.now target }
{
    !is_plain(hints, pc) || comes_on(hints, pc, target)
}

// Whether a run may go on from an instruction to the next one: what the hints say of it holds
// there.
fn falls_on(hints: &Hints, pc: usize, instr: &Instr) -> bool
    ensures { IsTrue result → FallsOn hints.now pc instr.now (pc + 1) }
{
    match pc.checked_add(1) {
        None => false,
        Some(behind) => goes_on(hints, pc, instr, None, behind) && comes_behind(hints, pc, behind),
    }
}

// Whether what the hints say of an instruction holds of each to which a run may go on from
// instruction `pc`; true of a return.
fn is_known_on(hints: &Hints, pc: usize, instr: &Instr) -> bool
    ensures { IsTrue result → IsKnownOn hints.now pc instr.now }
{
    match instr {
        Instr::Jump(target) => jumps_on(hints, pc, instr, None, *target),
        Instr::Switch(slot, other, arms) => {
            other_jumps_on(hints, pc, instr, *other)
                && arms_jump_on(hints, pc, instr, *slot, arms.as_slice())
        }
        Instr::Return(_) => true,
        Instr::Const(..)
        | Instr::Copy(..)
        | Instr::Alu(..)
        | Instr::Take(..)
        | Instr::Put(..)
        | Instr::Load(..)
        | Instr::Store(..)
        | Instr::Place(..)
        | Instr::Call(..) => falls_on(hints, pc, instr),
    }
}

// Whether an instruction is left out: the hints give it no place of its own, and it may go.
fn is_out(hints: &Hints, pc: usize, instr: &Instr) -> bool
    ensures { IsTrue result → IsSkipped hints.now pc instr.now }
{
    match pc.checked_add(1) {
        None => false,
        Some(behind) => {
            let here = place_at(hints, pc);
            place_at(hints, behind) == here && is_plain(hints, pc) && may_go(hints, pc, instr)
        }
    }
}

// The instruction that stands for one of a body and for others behind it: a return, or a switch
// with the arms of two, for a switch, and else a load for a load and a copy. The hints do not fit
// where there is no such instruction.
fn merged_instr(
    alloc: Global,
    hints: &Hints,
    body: &[Instr],
    pc: usize,
    instr: &Instr,
) -> Result<Instr, Stop>
    ensures { IfOk result (λ j. IsMerged hints.now body.now pc instr.now j) }
{
    if let Instr::Switch(..) = instr {
        if turns_back(hints, pc) {
            let new = into_return(alloc, hints, body, pc, instr)?;
            return Ok(new);
        }
        let new = into_switch(alloc, hints, body, pc, instr)?;
        return Ok(new);
    }
    let new = into_copy(hints, body, pc, instr)?;
    Ok(new)
}

// The instruction that stands for one of a body, alone or with others behind it; the hints do not
// fit where a test on them fails.
fn stands_for(
    alloc: Global,
    hints: &Hints,
    body: &[Instr],
    pc: usize,
    instr: &Instr,
) -> Result<Instr, Stop>
    ensures { IfOk result (λ j. StandsFor hints.now body.now pc instr.now j) }
{
    if !is_plain(hints, pc) {
        let new = merged_instr(alloc, hints, body, pc, instr)?;
        return Ok(new);
    }
    let here = place_at(hints, pc);
    let Some(behind) = pc.checked_add(1) else {
        return Err(Stop::Unfit);
    };
    let next = place_at(hints, behind);
    if next.saturating_sub(here) != 1 {
        return Err(Stop::Unfit);
    }
    let new = moved_instr(alloc, hints, known_at(hints, pc), body, pc, instr)?;
    Ok(new)
}

// Goes through the next instruction of a body: tests what the hints say of it, and adds the one
// that stands for it to the new body, if it is not left out. The hints do not fit where a test
// fails.
fn step(
    alloc: Global,
    hints: &Hints,
    body: &[Instr],
    pc: usize,
    instr: &Instr,
    new: &mut Seq<Instr>,
) -> Result<(), Stop>
    ensures { OnOk result (Steps hints.now body.now pc instr.now new.old new.new) }
{
    if !is_known_on(hints, pc, instr) {
        return Err(Stop::Unfit);
    }
    if !ends_well(hints, pc, instr) {
        return Err(Stop::Unfit);
    }
    let here = place_at(hints, pc);
    if is_out(hints, pc, instr) {
        return Ok(());
    }
    if here != new.len() {
        return Err(Stop::Unfit);
    }
    let stands = stands_for(alloc, hints, body, pc, instr)?;
    new.push(stands)?;
    Ok(())
}

/// The shorter body that the hints describe, made instruction by instruction, each of which is
/// tested.
///
/// # Errors
///
/// The hints do not fit, or want of memory.
pub(crate) fn walk(alloc: Global, hints: &Hints, body: &[Instr]) -> Result<Seq<Instr>, Stop>
    ensures { IfOk result (λ new. Walks hints.now body.now (length body.now) new) }
{
    let mut new = Seq::new(alloc);
    for (pc, instr) in body.iter().enumerate() {
        step(alloc, hints, body, pc, instr, &mut new)?;
    }
    Ok(new)
}
