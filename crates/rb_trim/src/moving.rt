//! The instructions that stand for others, under new numbers. `hints` tell how a body gets shorter:
//! a slot and an instruction have new numbers, those in the shorter body, and the origin of a new
//! number is the slot that has it. `facts` are those known before instruction `pc`: each says of a
//! slot what it holds, its content. A switch's other way is the one that it takes where no arm has
//! the number. Hints are guesses: where they say what cannot be used they do not fit, which is the
//! error `Stop::Unfit`; the other error is want of memory.

ghost use Rattle.std.specs.Prelude.{◌≡◌, ◌↔◌, IfOk, IsTrue, Contains, map, slice_index};
ghost use Rattle.rb_trim.specs.inner.Moving.{dead_at, end, facts_at, moved_arm, place, landing, landing_in, IsReached, IsPlain, SlotIsRead, IsDest, IsName, AreDests, AreNames, IsWrite, IsRemade, IsJumped, IsPut, IsMoved};

use crate::fact::{Content, Fact};
use crate::hints::{Hints, RETURNS};
use crate::knowing::{remake, source};
use crate::telling::told_fact;
use rb_core::seq::Seq;
use rb_target::instr::{Instr, SwitchArm};
use std::alloc::{AllocError, Global};

/// Why a body is not made shorter.
#[derive(Clone, Copy, Drop)]
pub enum Stop {
    /// The hints do not fit.
    Unfit,
    /// Want of memory.
    Memory,
}

impl From<AllocError> for Stop {
    fn from(_e: AllocError) -> Stop {
        Stop::Memory
    }
}

/// The number with this place, or 0 past the end.
pub(crate) fn number_at(numbers: &[usize], i: usize) -> usize
    ensures { result ≡ slice_index numbers.now i }
{
    match numbers.get(i) {
        None => 0,
        Some(number) => *number,
    }
}

/// A slot's new number, or 0 past the end.
pub(crate) fn name_at(hints: &Hints, slot: usize) -> usize
    ensures { result ≡ slice_index hints.now.names slot }
{
    number_at(hints.names.as_slice(), slot)
}

/// The slot that has a new number, or 0 past the end.
pub(crate) fn origin_at(hints: &Hints, new: usize) -> usize
    ensures { result ≡ slice_index hints.now.origins new }
{
    number_at(hints.origins.as_slice(), new)
}

/// One more than the number of the last instruction that reads a slot; 0 where none does.
pub(crate) fn read_at(hints: &Hints, slot: usize) -> usize
    ensures { result ≡ slice_index hints.now.reads slot }
{
    number_at(hints.reads.as_slice(), slot)
}

/// What is known before an instruction, nothing past the end.
pub(crate) fn known_at(hints: &Hints, pc: usize) -> &[Fact]
    ensures { result.now ≡ facts_at hints.now pc }
{
    match hints.facts.get(pc) {
        None => &[],
        Some(facts) => facts.as_slice(),
    }
}

/// Some slots that no way from an instruction on reads before it sets them anew, none past the end.
pub(crate) fn unread_at(hints: &Hints, pc: usize) -> &[usize]
    ensures { result.now ≡ dead_at hints.now pc }
{
    match hints.dead.get(pc) {
        None => &[],
        Some(slots) => slots.as_slice(),
    }
}

// Whether a slot is one of those that no way from an instruction on reads before it sets them anew.
fn is_dead(hints: &Hints, pc: usize, slot: usize) -> bool
    ensures { IsTrue result ↔ Contains (dead_at hints.now pc) slot }
{
    unread_at(hints, pc).contains(&slot)
}

/// Whether a slot is read from an instruction on: it or a later line reads the slot, and it is not
/// known that no way comes to one that does before it sets the slot anew.
pub(crate) fn is_read(hints: &Hints, pc: usize, slot: usize) -> bool
    ensures { IsTrue result ↔ SlotIsRead hints.now pc slot }
{
    let read = read_at(hints, slot);
    pc < read && !is_dead(hints, pc, slot)
}

/// The instruction at which a run goes on that jumps to this one.
pub(crate) fn end_at(hints: &Hints, pc: usize) -> usize
    ensures { result ≡ end hints.now pc }
{
    number_at(hints.ends.as_slice(), pc)
}

/// Whether a run may come to an instruction.
pub(crate) fn is_reached(hints: &Hints, pc: usize) -> bool
    ensures { IsTrue result ↔ IsReached hints.now pc }
{
    number_at(hints.reached.as_slice(), pc) > 0
}

/// Whether what stands for an instruction stands for no other one behind it.
pub(crate) fn is_plain(hints: &Hints, pc: usize) -> bool
    ensures { IsTrue result ↔ IsPlain hints.now pc }
{
    number_at(hints.given.as_slice(), pc) == 0
}

/// Whether a switch is to return at once, as all its ways return the same words.
pub(crate) fn turns_back(hints: &Hints, pc: usize) -> bool {
    number_at(hints.given.as_slice(), pc) == RETURNS
}

/// The new number of an instruction, or of one behind it that is left.
pub(crate) fn place_at(hints: &Hints, pc: usize) -> usize
    ensures { result ≡ place hints.now pc }
{
    number_at(hints.places.as_slice(), pc)
}

// The new number at which a run goes on that jumps to an instruction.
fn landing_at(hints: &Hints, pc: usize) -> usize
    ensures { result ≡ landing hints.now pc }
{
    place_at(hints, end_at(hints, pc))
}

/// The new number of a slot that is written; the hints do not fit where it is that of another slot.
pub(crate) fn dest(hints: &Hints, slot: usize) -> Result<usize, Stop>
    ensures { IfOk result (λ d. IsDest hints.now slot d) }
{
    let new = name_at(hints, slot);
    let origin = origin_at(hints, new);
    if origin != slot {
        return Err(Stop::Unfit);
    }
    Ok(new)
}

/// The new number of a slot that instruction `pc` reads, or of one that is known to hold the same
/// word; the hints do not fit where that one is not read from `pc` on, by what they say.
pub(crate) fn name(hints: &Hints, facts: &[Fact], pc: usize, slot: usize) -> Result<usize, Stop>
    ensures { IfOk result (λ a. IsName hints.now facts.now pc slot a) }
{
    let from = source(facts, slot);
    if !is_read(hints, pc, from) {
        return Err(Stop::Unfit);
    }
    let new = name_at(hints, from);
    Ok(new)
}

// The new numbers of slots that are written, one each and in their order; the hints do not fit
// where one is that of another slot.
fn dests(alloc: Global, hints: &Hints, slots: &[usize]) -> Result<Seq<usize>, Stop>
    ensures { IfOk result (λ new. AreDests hints.now slots.now new) }
{
    let mut new = Seq::new(alloc);
    for slot in slots {
        let found = dest(hints, *slot)?;
        new.push(found)?;
    }
    Ok(new)
}

/// The new numbers of slots that instruction `pc` reads, or of ones that are known to hold the same
/// words, one each and in their order; the hints do not fit where one of them is not read from `pc`
/// on, by what they say.
pub(crate) fn names(
    alloc: Global,
    hints: &Hints,
    facts: &[Fact],
    pc: usize,
    slots: &[usize],
) -> Result<Seq<usize>, Stop>
    ensures { IfOk result (λ new. AreNames hints.now facts.now pc slots.now new) }
{
    let mut new = Seq::new(alloc);
    for slot in slots {
        let found = name(hints, facts, pc, *slot)?;
        new.push(found)?;
    }
    Ok(new)
}

/// The new number at which a run goes on by a switch's other way; None where it has no such way.
pub(crate) fn other_landing(hints: &Hints, other: Option<usize>) -> Option<usize>
    ensures { result ≡ landing_in hints.now other }
{
    match other {
        None => None,
        Some(target) => Some(landing_at(hints, target)),
    }
}

/// A switch's arms with their new targets.
pub(crate) fn arms_of(
    alloc: Global,
    hints: &Hints,
    arms: &[SwitchArm],
) -> Result<Seq<SwitchArm>, AllocError>
    ensures { IfOk result (λ new. new ≡ map (λ arm. moved_arm hints.now arm) arms.now) }
{
    let mut new = Seq::new(alloc);
    for arm in arms {
        new.push(SwitchArm {
            number: arm.number,
            target: landing_at(hints, arm.target),
        })?;
    }
    Ok(new)
}

// The instruction that makes what is told of a slot, a fact, under new numbers; the hints do not
// fit where the content is a loaded word, or where a slot has no fitting number.
fn write(hints: &Hints, facts: &[Fact], pc: usize, told: &Fact) -> Result<Instr, Stop>
    ensures { IfOk result (λ j. IsWrite hints.now facts.now pc told.now j) }
{
    let d = dest(hints, told.slot)?;
    let new = match told.content {
        Content::Number(number) => Instr::Const(d, number),
        Content::Same(a) => Instr::Copy(d, name(hints, facts, pc, a)?),
        Content::Part(a, o, l) => Instr::Take(d, name(hints, facts, pc, a)?, o, l),
        Content::Computed(op, bits, a, b) => {
            let a = name(hints, facts, pc, a)?;
            let b = name(hints, facts, pc, b)?;
            Instr::Alu(op, bits, d, a, b)
        }
        Content::Loaded(..) => return Err(Stop::Unfit),
    };
    Ok(new)
}

// The instruction that makes what instruction `pc` makes, told by what is known, under new numbers;
// the hints do not fit where nothing is told of it.
fn move_told(hints: &Hints, facts: &[Fact], pc: usize, instr: &Instr) -> Result<Instr, Stop>
    ensures { IfOk result (λ j. IsRemade hints.now facts.now pc instr.now j) }
{
    let Some(told) = told_fact(facts, instr) else {
        return Err(Stop::Unfit);
    };
    let content = remake(facts, told.content);
    let again = Fact {
        slot: told.slot,
        content,
    };
    let new = write(hints, facts, pc, &again)?;
    Ok(new)
}

// The put of the low `l` bits of slot `from` into `slot` from bit `o` on, under new numbers. The
// slot is read, too, so the hints do not fit where it is not read there by what they say.
fn move_put(
    hints: &Hints,
    facts: &[Fact],
    pc: usize,
    slot: usize,
    from: usize,
    o: u8,
    l: u8,
) -> Result<Instr, Stop>
    ensures { IfOk result (λ j. IsPut hints.now facts.now pc slot from o l j) }
{
    let new = dest(hints, slot)?;
    let same = name(hints, &[], pc, slot)?;
    if same != new {
        return Err(Stop::Unfit);
    }
    let part = name(hints, facts, pc, from)?;
    Ok(Instr::Put(new, part, o, l))
}

// What stands for a jump to instruction `target`, under new numbers: a jump, or the return to which
// it leads at once.
fn move_jump(alloc: Global, hints: &Hints, body: &[Instr], target: usize) -> Result<Instr, Stop>
    ensures { IfOk result (λ j. IsJumped hints.now body.now target j) }
{
    let end = end_at(hints, target);
    if let Some(Instr::Return(froms)) = body.get(end) {
        let facts = known_at(hints, end);
        let new = names(alloc, hints, facts, end, froms.as_slice())?;
        return Ok(Instr::Return(new));
    }
    Ok(Instr::Jump(landing_at(hints, target)))
}

// A jump, a switch, a call or a return, under new numbers; of any other instruction the answer is
// that the hints do not fit.
fn move_other(
    alloc: Global,
    hints: &Hints,
    facts: &[Fact],
    body: &[Instr],
    pc: usize,
    instr: &Instr,
) -> Result<Instr, Stop>
    ensures { IfOk result (λ j. IsMoved hints.now facts.now body.now pc instr.now j) }
{
    let new = match instr {
        Instr::Jump(target) => move_jump(alloc, hints, body, *target)?,
        Instr::Switch(a, other, arms) => {
            let a = name(hints, facts, pc, *a)?;
            let arms = arms_of(alloc, hints, arms.as_slice())?;
            Instr::Switch(a, other_landing(hints, *other), arms)
        }
        Instr::Call(number, ds, froms) => {
            let ds = dests(alloc, hints, ds.as_slice())?;
            Instr::Call(
                *number,
                ds,
                names(alloc, hints, facts, pc, froms.as_slice())?,
            )
        }
        Instr::Return(froms) => Instr::Return(names(alloc, hints, facts, pc, froms.as_slice())?),
        Instr::Const(..)
        | Instr::Copy(..)
        | Instr::Alu(..)
        | Instr::Take(..)
        | Instr::Put(..)
        | Instr::Load(..)
        | Instr::Store(..)
        | Instr::Place(..) => return Err(Stop::Unfit),
    };
    Ok(new)
}

/// The instruction that stands for another of a body, under new numbers.
///
/// # Errors
///
/// A slot that it reads or writes is not to be read or written there, or want of memory.
pub(crate) fn moved_instr(
    alloc: Global,
    hints: &Hints,
    facts: &[Fact],
    body: &[Instr],
    pc: usize,
    instr: &Instr,
) -> Result<Instr, Stop>
    ensures { IfOk result (λ j. IsMoved hints.now facts.now body.now pc instr.now j) }
{
    match instr {
        Instr::Const(..) | Instr::Copy(..) | Instr::Alu(..) | Instr::Take(..) => {
            let new = move_told(hints, facts, pc, instr)?;
            Ok(new)
        }
        Instr::Put(d, a, o, l) => {
            let new = match told_fact(facts, instr) {
                None => move_put(hints, facts, pc, *d, *a, *o, *l)?,
                Some(_) => move_told(hints, facts, pc, instr)?,
            };
            Ok(new)
        }
        Instr::Load(d, a, offset, width) => {
            let d = dest(hints, *d)?;
            let a = name(hints, facts, pc, *a)?;
            Ok(Instr::Load(d, a, *offset, *width))
        }
        Instr::Place(d, size, align) => Ok(Instr::Place(dest(hints, *d)?, *size, *align)),
        Instr::Store(base, offset, width, a) => {
            let base = name(hints, facts, pc, *base)?;
            let a = name(hints, facts, pc, *a)?;
            Ok(Instr::Store(base, *offset, *width, a))
        }
        Instr::Jump(_) | Instr::Switch(..) | Instr::Call(..) | Instr::Return(_) => {
            let new = move_other(alloc, hints, facts, body, pc, instr)?;
            Ok(new)
        }
    }
}
