//! Switches whose other way leads to a switch on the same word: one switch has the arms of both.
//! The other way is the one that a switch takes where no arm has the number. `hints` tell what is
//! known before each instruction of `body`, whether a run may come to it, where a jump to it goes
//! on, its end, and the new numbers of instructions and slots; `pc` is the number of `instr` in
//! `body`. Where a test fails the hints do not fit, which is the error `Stop::Unfit`.

ghost use Rattle.std.specs.Prelude.{◌≡◌, ◌++◌, ◌↔◌, All, IfSome, IfOk, IsTrue, map};
ghost use Rattle.rb_target.specs.declared.instr.SwitchArm.{SwitchArm as SwitchArmDecl};
ghost use Rattle.rb_trim.specs.inner.Moving.{IsFolded, IsReached, moved_arm, end};

use crate::hints::Hints;
use crate::moving::{Stop, arms_of, end_at, is_reached, known_at, name, other_landing};
use rb_core::seq::Seq;
use rb_target::instr::{Instr, SwitchArm};
use std::alloc::Global;

// Whether a run may come to where a jump to the target of each arm goes on; true for no arms.
fn arms_come(hints: &Hints, arms: &[SwitchArm]) -> bool
    ensures { IsTrue result
        ↔ All (λ (arm : SwitchArmDecl). IsReached hints.now (end hints.now arm.target)) arms.now }
{
    arms.iter()
        .all(|arm| is_reached(hints, end_at(hints, arm.target)))
}

// Whether a run may come to where a jump to the target of a switch's other way goes on; true where
// there is no such way.
fn other_comes(hints: &Hints, other: Option<usize>) -> bool
    ensures { IsTrue result → IfSome other (λ t. IsReached hints.now (end hints.now t)) }
{
    match other {
        None => true,
        Some(target) => is_reached(hints, end_at(hints, target)),
    }
}

// The arms of two switches in one list, those of the first in front, with their new targets. The
// `Err` is want of memory.
fn both(
    alloc: Global,
    hints: &Hints,
    arms: &[SwitchArm],
    more: &[SwitchArm],
) -> Result<Seq<SwitchArm>, Stop>
    ensures { IfOk result (λ new. new
        ≡ map (λ arm. moved_arm hints.now arm) arms.now ++ map (λ arm. moved_arm hints.now arm) more.now) }
{
    let mut new = arms_of(alloc, hints, arms)?;
    let rest = arms_of(alloc, hints, more)?;
    if let Some(_) = new.append(rest) {
        return Err(Stop::Memory);
    }
    Ok(new)
}

/// The switch that does what a switch does and the one to which its other way leads, under new
/// numbers.
///
/// # Errors
///
/// The other way is missing or does not lead to a switch on the same word, the hints do not say
/// that runs may come to all targets, or want of memory.
pub(crate) fn into_switch(
    alloc: Global,
    hints: &Hints,
    body: &[Instr],
    pc: usize,
    instr: &Instr,
) -> Result<Instr, Stop>
    ensures { IfOk result (λ j. IsFolded hints.now body.now pc instr.now j) }
{
    let Instr::Switch(slot, way, arms) = instr else {
        return Err(Stop::Unfit);
    };
    let Some(target) = *way else {
        return Err(Stop::Unfit);
    };
    let at = end_at(hints, target);
    let Some(Instr::Switch(from, other, more)) = body.get(at) else {
        return Err(Stop::Unfit);
    };
    let word = name(hints, known_at(hints, pc), pc, *slot)?;
    let same = name(hints, known_at(hints, at), at, *from)?;
    if same != word {
        return Err(Stop::Unfit);
    }
    if !arms_come(hints, arms.as_slice()) || !arms_come(hints, more.as_slice()) {
        return Err(Stop::Unfit);
    }
    if !other_comes(hints, *other) {
        return Err(Stop::Unfit);
    }
    let new = both(alloc, hints, arms.as_slice(), more.as_slice())?;
    Ok(Instr::Switch(word, other_landing(hints, *other), new))
}
