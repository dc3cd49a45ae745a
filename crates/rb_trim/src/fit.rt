//! Whether the numbers of a shorter body fit. Slots and instructions are numbered from 0; a target
//! is the instruction to which a jump or a switch goes. `hints` have the new number of each slot of
//! the old body, its number in the shorter body, and for each new number its origin, the slot that
//! has it. The first `params` slots are the parameters.

ghost use Rattle.std.specs.Prelude.{◌<◌, ◌≤◌, ◌+◌, ℕ, IsTrue, length};
ghost use Rattle.rb_target.specs.Validity.{dest_count};
ghost use Rattle.rb_trim.specs.inner.Moving.{NumbersAreApart, IsApart, KeepParams, KeepsParam};
ghost use Rattle.rb_trim.specs.inner.Stepping.{IsFit, IsRanged, FitsAt};

use crate::hints::Hints;
use crate::moving::{name_at, origin_at, read_at};
use rb_core::seq::Seq;
use rb_target::check::{dest_len, ends_in_return, slots_fit, targets_fit};
use rb_target::instr::Instr;

// Whether the numbers in an instruction of a kind that is made anew from facts are within their
// bounds: bits of an operation, and a range of bits. True of every other instruction.
fn is_ranged(instr: &Instr) -> bool
    ensures { IsTrue result → IsRanged instr.now }
{
    match instr {
        Instr::Const(_, number) => {
            // Its type bounds it, once it is read.
            let _number = *number;
            true
        }
        Instr::Alu(_, bits, _, _, _) => 1 <= *bits && *bits <= 64,
        Instr::Take(_, _, o, l) => 1 <= *l && *l <= 64 && *o <= 64 - *l,
        Instr::Copy(..)
        | Instr::Put(..)
        | Instr::Load(..)
        | Instr::Store(..)
        | Instr::Place(..)
        | Instr::Jump(_)
        | Instr::Switch(..)
        | Instr::Call(..)
        | Instr::Return(_) => true,
    }
}

// Whether there are enough slots for the parameters, and no more beyond them than the body writes.
fn counts_slots(slots: usize, params: usize, body: &[Instr]) -> bool
    ensures { IsTrue result → (params ≤ slots) × (slots ≤ params + dest_count body.now) }
{
    if slots < params {
        return false;
    }
    let mut unwritten = slots - params;
    for instr in body {
        unwritten = unwritten.saturating_sub(dest_len(instr));
    }
    unwritten == 0
}

// Whether instruction `pc`, if there is one, fits a function of `slots` slots: it names slots below
// that number, its targets are where targets may be, and its bits and ranges are within their
// bounds.
fn fits_at(slots: usize, body: &[Instr], pc: usize) -> bool
    ensures { IsTrue result → FitsAt slots body.now pc }
{
    match body.get(pc) {
        None => true,
        Some(instr) => {
            slots_fit(slots, instr) && targets_fit(body.len(), pc, instr) && is_ranged(instr)
        }
    }
}

// Whether each instruction's slots, targets and numbers fit.
fn each_fits(slots: usize, body: &[Instr]) -> bool
    ensures { IsTrue result → ((pc : ℕ) → pc < length body.now → FitsAt slots body.now pc) }
{
    for pc in 0..body.len() {
        if !fits_at(slots, body, pc) {
            return false;
        }
    }
    true
}

/// Whether a body is one of a function with so many slots and parameters.
pub(crate) fn fits(slots: usize, params: usize, body: &Seq<Instr>) -> bool
    ensures { IsTrue result → IsFit slots params body.now }
{
    let body = body.as_slice();
    let _len = body.len();
    if !counts_slots(slots, params, body) {
        return false;
    }
    if !ends_in_return(body) {
        return false;
    }
    each_fits(slots, body)
}

// Whether a slot, if it is read, has a new number of its own.
fn is_apart(hints: &Hints, slot: usize) -> bool
    ensures { IsTrue result → IsApart hints.now slot }
{
    read_at(hints, slot) == 0 || origin_at(hints, name_at(hints, slot)) == slot
}

/// Whether no two slots that are read have the same new number.
pub(crate) fn are_apart(hints: &Hints) -> bool
    ensures { IsTrue result → NumbersAreApart hints.now }
{
    for slot in 0..hints.reads.len() {
        if !is_apart(hints, slot) {
            return false;
        }
    }
    true
}

// Whether a slot, if it is read, keeps its number where it is a parameter, and has none of a
// parameter where it is none.
fn keeps_param(hints: &Hints, params: usize, slot: usize) -> bool
    ensures { IsTrue result → KeepsParam hints.now params slot }
{
    let new = name_at(hints, slot);
    if read_at(hints, slot) == 0 {
        return true;
    }
    if slot < params {
        return new == slot;
    }
    new >= params
}

/// Whether parameters keep their numbers, and no other slot that is read has one of theirs.
pub(crate) fn keep_params(hints: &Hints, params: usize) -> bool
    ensures { IsTrue result → KeepParams hints.now params }
{
    for slot in 0..hints.reads.len() {
        if !keeps_param(hints, params, slot) {
            return false;
        }
    }
    true
}
