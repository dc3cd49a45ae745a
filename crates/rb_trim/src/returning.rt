//! Switches all of whose ways return the same words: they return. A way leads to the target of an
//! arm, and the other way is the one that a switch takes where no arm has the number. `hints` tell
//! what is known before each instruction of `body`, where a jump to it goes on, and the new numbers
//! of slots; `words` are slots by new numbers, `facts` those known before the switch. Where a test
//! fails the hints do not fit, which is the error `Stop::Unfit`.

ghost use Rattle.std.specs.Prelude.{◌≡◌, ◌<◌, ◌≤◌, ◌^◌, ℕ, All, IfOk, IfSome, IsTrue, OnOk};
ghost use Rattle.rb_target.specs.declared.instr.SwitchArm.{SwitchArm as SwitchArmDecl};
ghost use Rattle.rb_trim.specs.inner.Moving.{ComesBack, IsBack, FindsWay};
ghost use Rattle.rb_trim.specs.inner.Stepping.{ComesBackAt, HasArm};

use crate::fact::Fact;
use crate::hints::Hints;
use crate::knowing::{is_narrow, source};
use crate::moving::{Stop, end_at, known_at, names};
use rb_core::seq::Seq;
use rb_target::instr::{Instr, SwitchArm};
use std::alloc::Global;

// Whether a switch has an arm for a number.
fn has_arm(arms: &[SwitchArm], number: u64) -> bool
    ensures { IsTrue result → HasArm arms.now number }
{
    arms.iter().any(|arm| arm.number == number)
}

// Whether a switch has arms for the first `count` numbers, from 0 on.
fn has_arms(arms: &[SwitchArm], count: u64) -> bool
    ensures { IsTrue result → ((number : ℕ) → number < count → HasArm arms.now number) }
{
    for number in 0..count {
        if !has_arm(arms, number) {
            return false;
        }
    }
    true
}

// Whether a slot is known to have at most `l` bits, and a switch has an arm for each of the first
// `count` numbers, among which are all of so many bits.
fn has_all(
    facts: &[Fact],
    slot: usize,
    other: Option<usize>,
    arms: &[SwitchArm],
    l: u8,
    count: u64,
) -> bool
    requires { 2 ^ l ≤ count }
    ensures { IsTrue result → FindsWay facts.now slot other arms.now }
{
    let from = source(facts, slot);
    if !is_narrow(facts, from, l) {
        return false;
    }
    has_arms(arms, count)
}

/// Whether a switch on a slot is known to come to one of its ways: it has a way for all other
/// numbers, or the slot is known to have at most one, two or three bits and each such number has an
/// arm.
pub(crate) fn is_whole(
    facts: &[Fact],
    slot: usize,
    other: Option<usize>,
    arms: &[SwitchArm],
) -> bool
    ensures { IsTrue result → FindsWay facts.now slot other arms.now }
{
    if let Some(_) = other {
        return true;
    }
    if has_all(facts, slot, other, arms, 1, 2) {
        return true;
    }
    if has_all(facts, slot, other, arms, 2, 4) {
        return true;
    }
    has_all(facts, slot, other, arms, 3, 8)
}

// The slots whose words a run returns that goes to `target`, by new numbers; the hints do not fit
// where it comes to no return at once.
fn words_of(alloc: Global, hints: &Hints, body: &[Instr], target: usize) -> Result<Seq<usize>, Stop>
    ensures { IfOk result (λ words. ComesBack hints.now body.now words target) }
{
    let end = end_at(hints, target);
    let Some(Instr::Return(froms)) = body.get(end) else {
        return Err(Stop::Unfit);
    };
    let words = names(alloc, hints, known_at(hints, end), end, froms.as_slice())?;
    Ok(words)
}

// Tests that a run that goes to `target` returns these words at once; else the hints do not fit.
fn comes_back(
    alloc: Global,
    hints: &Hints,
    body: &[Instr],
    words: &[usize],
    target: usize,
) -> Result<(), Stop>
    ensures { OnOk result (ComesBack hints.now body.now words.now target) }
{
    let found = words_of(alloc, hints, body, target)?;
    if !are_same(found.as_slice(), words) {
        return Err(Stop::Unfit);
    }
    Ok(())
}

// Whether two lists have the same slots, in the same order.
fn are_same(words: &[usize], others: &[usize]) -> bool
    ensures { IsTrue result → (words.now ≡ others.now) }
{
    words == others
}

// Tests that the arm at index `k`, if there is one, leads to the return of these words; else the
// hints do not fit.
fn arm_comes_back(
    alloc: Global,
    hints: &Hints,
    body: &[Instr],
    words: &[usize],
    arms: &[SwitchArm],
    k: usize,
) -> Result<(), Stop>
    ensures { OnOk result (ComesBackAt hints.now body.now words.now arms.now k) }
{
    match arms.get(k) {
        None => Ok(()),
        Some(arm) => comes_back(alloc, hints, body, words, arm.target),
    }
}

// Tests that each arm of a switch leads to the return of these words; else the hints do not fit.
fn arms_come_back(
    alloc: Global,
    hints: &Hints,
    body: &[Instr],
    words: &[usize],
    arms: &[SwitchArm],
) -> Result<(), Stop>
    ensures { OnOk result
        (All (λ (arm : SwitchArmDecl). ComesBack hints.now body.now words.now arm.target) arms.now) }
{
    for k in 0..arms.len() {
        arm_comes_back(alloc, hints, body, words, arms, k)?;
    }
    Ok(())
}

// Tests that a switch's other way, if it has one, leads to the return of these words; else the
// hints do not fit.
fn other_comes_back(
    alloc: Global,
    hints: &Hints,
    body: &[Instr],
    words: &[usize],
    other: Option<usize>,
) -> Result<(), Stop>
    ensures { OnOk result (IfSome other (ComesBack hints.now body.now words.now)) }
{
    match other {
        None => Ok(()),
        Some(target) => comes_back(alloc, hints, body, words, target),
    }
}

/// The return of the words that each way of a switch returns, under new numbers.
///
/// # Errors
///
/// It is no switch or has no arm, a way does not return them, it may come to none of its ways, or
/// want of memory.
pub(crate) fn into_return(
    alloc: Global,
    hints: &Hints,
    body: &[Instr],
    pc: usize,
    instr: &Instr,
) -> Result<Instr, Stop>
    ensures { IfOk result (λ j. IsBack hints.now body.now pc instr.now j) }
{
    let Instr::Switch(slot, other, arms) = instr else {
        return Err(Stop::Unfit);
    };
    let Some(arm) = arms.as_slice().first() else {
        return Err(Stop::Unfit);
    };
    if !is_whole(known_at(hints, pc), *slot, *other, arms.as_slice()) {
        return Err(Stop::Unfit);
    }
    let words = words_of(alloc, hints, body, arm.target)?;
    arms_come_back(alloc, hints, body, words.as_slice(), arms.as_slice())?;
    other_comes_back(alloc, hints, body, words.as_slice(), *other)?;
    Ok(Instr::Return(words))
}
