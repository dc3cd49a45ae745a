//! What is known before each instruction of a body, and which slots were written before it, as far
//! as a walk forward tells. What is known are facts, the newest last: each says of a slot what it
//! holds, its content, which is told by the slots that it names. `pc` is the number of an
//! instruction, a place in the body. Behind it is where a run goes on after it, by one of its ways.

use crate::fact::{Content, Fact};
use crate::knowing::{remake, source};
use crate::telling::{is_told_by, sets, stays, told_fact};
use rb_core::seq::Seq;
use rb_target::instr::Instr;
use std::alloc::{AllocError, Global};

/// How many facts are kept at most at a place, the newest ones, and how many slots.
pub(crate) const MOST: usize = 12;

/// So many numbers from `first` on, each by `more` greater than the one before.
pub(crate) fn numbers(
    alloc: Global,
    count: usize,
    first: usize,
    more: usize,
) -> Result<Seq<usize>, AllocError> {
    let mut numbers = Seq::new(alloc);
    let mut number = first;
    for _ in 0..count {
        numbers.push(number)?;
        number = number.saturating_add(more);
    }
    Ok(numbers)
}

/// So many empty lists of numbers.
pub(crate) fn empty_lists(alloc: Global, count: usize) -> Result<Seq<Seq<usize>>, AllocError> {
    let mut lists = Seq::new(alloc);
    for _ in 0..count {
        lists.push(Seq::new(alloc))?;
    }
    Ok(lists)
}

// What is known before each instruction, as far as the walk has come: `is_met` is false, and no
// fact is known, where it has noted no way to the instruction yet.
#[derive(Drop)]
struct Knowledge {
    facts: Seq<Seq<Fact>>,
    is_met: Seq<bool>,
}

// What is known of so many instructions before the walk has come to any: nothing.
fn blank(alloc: Global, count: usize) -> Result<Knowledge, AllocError> {
    let mut facts = Seq::new(alloc);
    let mut is_met = Seq::new(alloc);
    for _ in 0..count {
        facts.push(Seq::new(alloc))?;
        is_met.push(false)?;
    }
    Ok(Knowledge { facts, is_met })
}

// Those facts of a list that are in another one, too.
fn common(alloc: Global, facts: &[Fact], others: &[Fact]) -> Result<Seq<Fact>, AllocError> {
    let mut both = Seq::new(alloc);
    for fact in facts {
        if others.contains(fact) {
            both.push(*fact)?;
        }
    }
    Ok(both)
}

// Notes an edge, a way on which a run may come to instruction `pc`, and on which `facts` hold: what
// is known there is what holds by each edge. Nothing is noted past the end.
fn meet(alloc: Global, known: &mut Knowledge, pc: usize, facts: &[Fact]) -> Result<(), AllocError> {
    let Some(is_met) = known.is_met.get(pc) else {
        return Ok(());
    };
    let Some(before) = known.facts.get(pc) else {
        return Ok(());
    };
    let both = if *is_met {
        common(alloc, before.as_slice(), facts)?
    } else {
        common(alloc, facts, facts)?
    };
    if pc < known.facts.len() {
        let _old = known.facts.replace(pc, both);
    }
    if pc < known.is_met.len() {
        let _old = known.is_met.replace(pc, true);
    }
    Ok(())
}

/// The slot that is known to hold a content, by the newest fact that says so, if any does.
pub(crate) fn holder(facts: &[Fact], content: Content) -> Option<usize> {
    for fact in facts.iter().rev() {
        if fact.content == content {
            return Some(fact.slot);
        }
    }
    None
}

// What an instruction makes known of the slot that it writes: what this holds, or that it is the
// same as a slot that holds it already. None if nothing is told, or if it would be told by the slot
// itself, whose word is another one now.
fn new_fact(facts: &[Fact], instr: &Instr) -> Option<Fact> {
    let told = told_fact(facts, instr)?;
    let content = match told.content {
        Content::Same(from) => Content::Same(from),
        Content::Number(_) | Content::Part(..) | Content::Computed(..) | Content::Loaded(..) => {
            match holder(facts, told.content) {
                None => told.content,
                Some(slot) => Content::Same(slot),
            }
        }
    };
    if is_told_by(&content, told.slot) {
        return None;
    }
    Some(Fact {
        slot: told.slot,
        content,
    })
}

// What is known behind an instruction: those of the newest facts that it leaves as they are, and
// what it makes known.
fn behind(alloc: Global, facts: &[Fact], instr: &Instr) -> Result<Seq<Fact>, AllocError> {
    let mut after = Seq::new(alloc);
    for (i, fact) in facts.iter().enumerate() {
        if facts.len() - i < MOST && stays(facts, instr, fact) {
            after.push(*fact)?;
        }
    }
    if let Some(fact) = new_fact(facts, instr) {
        after.push(fact)?;
    }
    Ok(after)
}

// What is known where a slot, or one with the same word, holds a number: the newest facts, and this
// one.
fn told_in(
    alloc: Global,
    facts: &[Fact],
    slot: usize,
    number: u64,
) -> Result<Seq<Fact>, AllocError> {
    let mut told = Seq::new(alloc);
    for (i, fact) in facts.iter().enumerate() {
        if facts.len() - i < MOST {
            told.push(*fact)?;
        }
    }
    told.push(Fact {
        slot: source(facts, slot),
        content: Content::Number(number),
    })?;
    Ok(told)
}

// Notes all edges of an instruction, the ways on which a run may go on behind it, with what is
// known on each.
fn spread(
    alloc: Global,
    known: &mut Knowledge,
    pc: usize,
    instr: &Instr,
    facts: &[Fact],
) -> Result<(), AllocError> {
    match instr {
        Instr::Jump(target) => meet(alloc, known, *target, facts),
        Instr::Switch(slot, other, arms) => {
            for arm in arms.as_slice() {
                let told = told_in(alloc, facts, *slot, arm.number)?;
                meet(alloc, known, arm.target, told.as_slice())?;
            }
            match other {
                None => Ok(()),
                Some(target) => meet(alloc, known, *target, facts),
            }
        }
        Instr::Return(_) => Ok(()),
        Instr::Const(..)
        | Instr::Copy(..)
        | Instr::Alu(..)
        | Instr::Take(..)
        | Instr::Put(..)
        | Instr::Load(..)
        | Instr::Store(..)
        | Instr::Place(..)
        | Instr::Call(..) => meet(alloc, known, pc.saturating_add(1), facts),
    }
}

/// The facts known before each instruction of a body, as a walk from the first one on finds; none
/// where the walk finds no way to it.
pub(crate) fn learn(alloc: Global, body: &[Instr]) -> Result<Seq<Seq<Fact>>, AllocError> {
    let mut known = blank(alloc, body.len())?;
    for (pc, instr) in body.iter().enumerate() {
        if let Some(facts) = known.facts.get(pc) {
            let after = behind(alloc, facts.as_slice(), instr)?;
            spread(alloc, &mut known, pc, instr, after.as_slice())?;
        }
    }
    Ok(known.facts)
}

/// What is known at a place, or nothing past the end.
pub(crate) fn facts_at(facts: &[Seq<Fact>], pc: usize) -> &[Fact] {
    match facts.get(pc) {
        None => &[],
        Some(known) => known.as_slice(),
    }
}

/// The slots that a list has for an instruction, or none past the end.
pub(crate) fn slots_at(places: &[Seq<usize>], pc: usize) -> &[usize] {
    match places.get(pc) {
        None => &[],
        Some(slots) => slots.as_slice(),
    }
}

// The slots by which a content is told, none for a number.
fn told_by(alloc: Global, content: Content) -> Result<Seq<usize>, AllocError> {
    let mut slots = Seq::new(alloc);
    match content {
        Content::Number(_) => {}
        Content::Same(a) | Content::Part(a, _, _) | Content::Loaded(a, _, _) => slots.push(a)?,
        Content::Computed(_, _, a, b) => {
            slots.push(a)?;
            slots.push(b)?;
        }
    }
    Ok(slots)
}

/// The slots that an instruction reads, or ones that are known to hold the same words.
pub(crate) fn read_by(
    alloc: Global,
    facts: &[Fact],
    instr: &Instr,
) -> Result<Seq<usize>, AllocError> {
    if let Some(told) = told_fact(facts, instr) {
        return told_by(alloc, remake(facts, told.content));
    }
    let mut slots = Seq::new(alloc);
    match instr {
        Instr::Put(d, a, _, _) => {
            slots.push(*d)?;
            slots.push(source(facts, *a))?;
        }
        Instr::Store(a, _, _, b) => {
            slots.push(source(facts, *a))?;
            slots.push(source(facts, *b))?;
        }
        Instr::Switch(a, _, _) => slots.push(source(facts, *a))?,
        Instr::Call(_, _, froms) | Instr::Return(froms) => {
            for from in froms.as_slice() {
                slots.push(source(facts, *from))?;
            }
        }
        Instr::Const(..)
        | Instr::Copy(..)
        | Instr::Alu(..)
        | Instr::Take(..)
        | Instr::Load(..)
        | Instr::Place(..)
        | Instr::Jump(_) => {}
    }
    Ok(slots)
}

/// The slot that an instruction sets, if it sets one alone.
pub(crate) fn set_by(instr: &Instr) -> Option<usize> {
    match instr {
        Instr::Const(dest, _)
        | Instr::Copy(dest, _)
        | Instr::Alu(_, _, dest, _, _)
        | Instr::Take(dest, _, _, _)
        | Instr::Put(dest, _, _, _)
        | Instr::Load(dest, _, _, _)
        | Instr::Place(dest, _, _) => Some(*dest),
        Instr::Store(..)
        | Instr::Jump(_)
        | Instr::Switch(..)
        | Instr::Call(..)
        | Instr::Return(_) => None,
    }
}

// The slots that were set last and not read since, behind an instruction, where `slots` are those
// before it: the newest ones only.
fn later(
    alloc: Global,
    slots: &[usize],
    facts: &[Fact],
    instr: &Instr,
) -> Result<Seq<usize>, AllocError> {
    let reads = read_by(alloc, facts, instr)?;
    let mut after = Seq::new(alloc);
    for (i, slot) in slots.iter().enumerate() {
        let is_new = slots.len() - i < MOST;
        if is_new && !sets(instr, *slot) && !reads.as_slice().contains(slot) {
            after.push(*slot)?;
        }
    }
    if let Some(slot) = set_by(instr) {
        after.push(slot)?;
    }
    Ok(after)
}

// Notes an edge, a way on which a run may come to instruction `pc`: `late` has for it the slots
// that were set last by either edge, as many as are kept. Nothing is noted past the end.
fn join(
    alloc: Global,
    late: &mut Seq<Seq<usize>>,
    pc: usize,
    slots: &[usize],
) -> Result<(), AllocError> {
    let Some(before) = late.get(pc) else {
        return Ok(());
    };
    let mut both = Seq::new(alloc);
    for slot in before.as_slice() {
        both.push(*slot)?;
    }
    for slot in slots {
        if both.len() < MOST && !both.as_slice().contains(slot) {
            both.push(*slot)?;
        }
    }
    if pc < late.len() {
        let _old = late.replace(pc, both);
    }
    Ok(())
}

// Notes all edges of an instruction, the ways on which a run may go on behind it, with the slots
// that were set last.
fn join_all(
    alloc: Global,
    late: &mut Seq<Seq<usize>>,
    pc: usize,
    instr: &Instr,
    slots: &[usize],
) -> Result<(), AllocError> {
    match instr {
        Instr::Jump(target) => join(alloc, late, *target, slots),
        Instr::Switch(_, other, arms) => {
            for arm in arms.as_slice() {
                join(alloc, late, arm.target, slots)?;
            }
            match other {
                None => Ok(()),
                Some(target) => join(alloc, late, *target, slots),
            }
        }
        Instr::Return(_) => Ok(()),
        Instr::Const(..)
        | Instr::Copy(..)
        | Instr::Alu(..)
        | Instr::Take(..)
        | Instr::Put(..)
        | Instr::Load(..)
        | Instr::Store(..)
        | Instr::Place(..)
        | Instr::Call(..) => join(alloc, late, pc.saturating_add(1), slots),
    }
}

/// For each instruction some slots that were set on a way to it, and not read on that way.
pub(crate) fn written_slots(
    alloc: Global,
    body: &[Instr],
    facts: &[Seq<Fact>],
) -> Result<Seq<Seq<usize>>, AllocError> {
    let mut late = empty_lists(alloc, body.len())?;
    for (pc, instr) in body.iter().enumerate() {
        let slots = slots_at(late.as_slice(), pc);
        let after = later(alloc, slots, facts_at(facts, pc), instr)?;
        join_all(alloc, &mut late, pc, instr, after.as_slice())?;
    }
    Ok(late)
}
