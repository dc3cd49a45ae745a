//! What is wanted of a body, from its last instruction back, which two instructions become one, and
//! what runs come to. `facts` are those known before an instruction, or lists of them, one for each
//! instruction of the body; a fact says of a slot what it holds, its content. `pc` is the number of
//! an instruction, here `instr`. Behind it is where a run goes on after it, by one of its ways: to
//! the next one, or to a target; a switch's other way is the one that it takes where no arm has the
//! number. An instruction that is not wanted is idle, and the end of one is where a run goes on
//! that jumps to it.

use crate::fact::{Content, Fact};
use crate::hints::RETURNS;
use crate::knowing::source;
use crate::learning::{empty_lists, facts_at, holder, numbers, read_by, set_by, slots_at};
use crate::moving::number_at;
use crate::returning::is_whole;
use crate::telling::sets;
use rb_core::seq::Seq;
use rb_target::code::CodeFun;
use rb_target::instr::{Instr, SwitchArm};
use std::alloc::{AllocError, Global};

// How many arms a switch takes at most from the one behind it.
const MOST_ARMS: usize = 12;

// How many words a switch returns at most.
const MOST_WORDS: usize = 12;

/// What is wanted of a body, and what is read. An instruction that is wanted may not be left out,
/// unless it is a jump over nothing. For each instruction, `wanted` has 1 where it is wanted and
/// else 0, `dead` slots that no way from there on reads before it sets them anew, though a later
/// instruction reads them, and `ends` where a jump to it goes on. For each slot, `reads` has one
/// more than the number of the last wanted instruction that reads it, or 0 where none does.
#[derive(Drop)]
pub(crate) struct Rest {
    pub(crate) wanted: Seq<usize>,
    pub(crate) dead: Seq<Seq<usize>>,
    pub(crate) ends: Seq<usize>,
    pub(crate) reads: Seq<usize>,
}

/// Puts a number at an index of a list; nothing is done past the end.
pub(crate) fn put(numbers: &mut Seq<usize>, i: usize, number: usize) {
    if i < numbers.len() {
        let _old = numbers.replace(i, number);
    }
}

// Whether a slot is read from instruction `pc` on: it or a later one reads the slot, and it is not
// known that no way from there comes to one that does before it sets the slot anew. False past the
// last instruction, and for a slot that is not in the list of reads.
fn is_read(rest: &Rest, pc: usize, slot: usize) -> bool {
    let is_dead = match rest.dead.get(pc) {
        None => false,
        Some(slots) => slots.as_slice().contains(&slot),
    };
    pc < number_at(rest.reads.as_slice(), slot) && !is_dead
}

// Whether an instruction is wanted, that is, may not be left out, unless it jumps over nothing: the
// slot that it writes is read behind it, or it does more than write a slot. A load is wanted, too,
// unless a slot is known to hold its word, since it could go astray.
fn is_wanted(rest: &Rest, facts: &[Fact], pc: usize, instr: &Instr) -> bool {
    let behind = pc.saturating_add(1);
    match instr {
        Instr::Const(dest, _)
        | Instr::Copy(dest, _)
        | Instr::Alu(_, _, dest, _, _)
        | Instr::Take(dest, _, _, _)
        | Instr::Put(dest, _, _, _) => is_read(rest, behind, *dest),
        Instr::Load(dest, base, offset, width) => {
            let content = Content::Loaded(source(facts, *base), *offset, *width);
            is_read(rest, behind, *dest) || holder(facts, content).is_none()
        }
        Instr::Jump(_)
        | Instr::Store(..)
        | Instr::Place(..)
        | Instr::Switch(..)
        | Instr::Call(..)
        | Instr::Return(_) => true,
    }
}

// Whether a slot is read from the target of some arm on; false for no arms.
fn is_read_by_arm(rest: &Rest, arms: &[SwitchArm], slot: usize) -> bool {
    for arm in arms {
        if is_read(rest, arm.target, slot) {
            return true;
        }
    }
    false
}

// Whether a slot is read at some place where a run may go on behind an instruction: from a target
// or from the next one on; never behind a return.
fn is_read_on(rest: &Rest, pc: usize, instr: &Instr, slot: usize) -> bool {
    match instr {
        Instr::Jump(target) => is_read(rest, *target, slot),
        Instr::Switch(_, other, arms) => {
            let by_other = match other {
                None => false,
                Some(target) => is_read(rest, *target, slot),
            };
            by_other || is_read_by_arm(rest, arms.as_slice(), slot)
        }
        Instr::Return(_) => false,
        Instr::Const(..)
        | Instr::Copy(..)
        | Instr::Alu(..)
        | Instr::Take(..)
        | Instr::Put(..)
        | Instr::Load(..)
        | Instr::Store(..)
        | Instr::Place(..)
        | Instr::Call(..) => is_read(rest, pc.saturating_add(1), slot),
    }
}

// Those of some slots that are not read from an instruction on, which itself reads `reads`, though
// a later one reads them.
fn unread_slots(
    alloc: Global,
    rest: &Rest,
    slots: &[usize],
    reads: &[usize],
    pc: usize,
    instr: &Instr,
) -> Result<Seq<usize>, AllocError> {
    let mut dead = Seq::new(alloc);
    for slot in slots {
        let is_later = pc < number_at(rest.reads.as_slice(), *slot);
        let is_over = sets(instr, *slot) || !is_read_on(rest, pc, instr, *slot);
        if is_later && is_over && !reads.contains(slot) {
            dead.push(*slot)?;
        }
    }
    Ok(dead)
}

// The instruction at which a run goes on that jumps to this one: where a jump leads, what comes
// behind one that is idle, or else itself.
fn end_of(rest: &Rest, pc: usize, instr: &Instr, is_idle: bool) -> usize {
    let ends = rest.ends.as_slice();
    if let Instr::Jump(target) = instr {
        return number_at(ends, *target);
    }
    if is_idle {
        return number_at(ends, pc.saturating_add(1));
    }
    pc
}

// Goes back to one instruction more, to which a run may come or not (`is_met`): notes whether it is
// wanted, what it reads, which of the slots `late` are not read from it on, and where a run goes on
// that jumps to it.
fn choose_one(
    alloc: Global,
    rest: &mut Rest,
    facts: &[Fact],
    late: &[usize],
    pc: usize,
    instr: &Instr,
    is_met: bool,
) -> Result<(), AllocError> {
    let is_idle = !is_wanted(rest, facts, pc, instr);
    let is_here = is_met && !is_idle;
    let reads = if is_here {
        read_by(alloc, facts, instr)?
    } else {
        Seq::new(alloc)
    };
    for slot in reads.as_slice() {
        if number_at(rest.reads.as_slice(), *slot) == 0 {
            put(&mut rest.reads, *slot, pc.saturating_add(1));
        }
    }
    let dead = unread_slots(alloc, rest, late, reads.as_slice(), pc, instr)?;
    let end = end_of(rest, pc, instr, is_idle);
    put(&mut rest.ends, pc, end);
    if is_here {
        put(&mut rest.wanted, pc, 1);
    }
    if pc < rest.dead.len() {
        let _old = rest.dead.replace(pc, dead);
    }
    Ok(())
}

// For each instruction 1 where another one may jump to it, else 0.
fn targets(alloc: Global, body: &[Instr]) -> Result<Seq<usize>, AllocError> {
    let same = numbers(alloc, body.len(), 0, 1)?;
    let mut met = numbers(alloc, body.len(), 0, 0)?;
    for instr in body {
        match instr {
            Instr::Jump(target) => put(&mut met, *target, 1),
            Instr::Switch(_, other, arms) => {
                reach_targets(&mut met, same.as_slice(), *other, arms.as_slice());
            }
            Instr::Const(..)
            | Instr::Copy(..)
            | Instr::Alu(..)
            | Instr::Take(..)
            | Instr::Put(..)
            | Instr::Load(..)
            | Instr::Store(..)
            | Instr::Place(..)
            | Instr::Call(..)
            | Instr::Return(_) => {}
        }
    }
    Ok(met)
}

// Whether instruction `at` is a wanted copy of a slot that is not read behind it, so that a load of
// the slot's word may write to the copy's slot at once.
fn takes_over(rest: &Rest, facts: &[Seq<Fact>], body: &[Instr], at: usize, slot: usize) -> bool {
    let Some(Instr::Copy(_, from)) = body.get(at) else {
        return false;
    };
    number_at(rest.wanted.as_slice(), at) > 0
        && source(facts_at(facts, at), *from) == slot
        && !is_read(rest, at.saturating_add(1), slot)
}

// Whether the other way of a switch on `slot`, the instruction `pc`, leads to a switch on the same
// word that has few arms, which it may take over.
fn leads_on(
    rest: &Rest,
    facts: &[Seq<Fact>],
    body: &[Instr],
    pc: usize,
    slot: usize,
    target: usize,
) -> bool {
    let at = number_at(rest.ends.as_slice(), target);
    let Some(Instr::Switch(from, _, arms)) = body.get(at) else {
        return false;
    };
    arms.len() <= MOST_ARMS
        && source(facts_at(facts, at), *from) == source(facts_at(facts, pc), slot)
}

// The slots whose words a run returns that goes to `target`, or None if it comes to no return at
// once, or to one of more than `MOST_WORDS` words.
fn words_back(
    alloc: Global,
    rest: &Rest,
    facts: &[Seq<Fact>],
    body: &[Instr],
    target: usize,
) -> Result<Option<Seq<usize>>, AllocError> {
    let at = number_at(rest.ends.as_slice(), target);
    let Some(Instr::Return(froms)) = body.get(at) else {
        return Ok(None);
    };
    if froms.as_slice().len() > MOST_WORDS {
        return Ok(None);
    }
    let known = facts_at(facts, at);
    let mut words = Seq::new(alloc);
    for from in froms.as_slice() {
        words.push(source(known, *from))?;
    }
    Ok(Some(words))
}

// Whether a run that goes to `target` returns the words of these slots at once.
fn gives(
    alloc: Global,
    rest: &Rest,
    facts: &[Seq<Fact>],
    body: &[Instr],
    words: &[usize],
    target: usize,
) -> Result<bool, AllocError> {
    match words_back(alloc, rest, facts, body, target)? {
        None => Ok(false),
        Some(found) => Ok(found.as_slice() == words),
    }
}

// Whether a switch may be a return: it has an arm, each of its ways returns the same few words at
// once, and it is known to come to one of its ways.
fn turns_back(
    alloc: Global,
    rest: &Rest,
    facts: &[Seq<Fact>],
    body: &[Instr],
    pc: usize,
    instr: &Instr,
) -> Result<bool, AllocError> {
    let Instr::Switch(slot, other, arms) = instr else {
        return Ok(false);
    };
    let arms = arms.as_slice();
    let Some(first) = arms.first() else {
        return Ok(false);
    };
    let Some(words) = words_back(alloc, rest, facts, body, first.target)? else {
        return Ok(false);
    };
    for arm in arms {
        if !gives(alloc, rest, facts, body, words.as_slice(), arm.target)? {
            return Ok(false);
        }
    }
    if let Some(target) = other {
        if !gives(alloc, rest, facts, body, words.as_slice(), *target)? {
            return Ok(false);
        }
    }
    Ok(is_whole(facts_at(facts, pc), *slot, *other, arms))
}

/// For each instruction 1 where one instruction stands for it and another: a load of a word that is
/// copied right behind, and read by nothing else, and a switch whose other way leads to one on the
/// same word. 2 where a switch returns, and else 0.
pub(crate) fn give(
    alloc: Global,
    body: &[Instr],
    facts: &[Seq<Fact>],
    rest: &Rest,
) -> Result<Seq<usize>, AllocError> {
    let mut given = numbers(alloc, body.len(), 0, 0)?;
    let met = targets(alloc, body)?;
    // the last instruction to which another one jumps, or 0
    let mut last = 0;
    let mut lasts = Seq::new(alloc);
    for (pc, is_met) in met.as_slice().iter().enumerate() {
        if *is_met > 0 {
            last = pc;
        }
        lasts.push(last)?;
    }
    for (pc, instr) in body.iter().enumerate() {
        if let Instr::Switch(slot, Some(target), _) = instr {
            if leads_on(rest, facts, body, pc, *slot, *target) {
                put(&mut given, pc, 1);
            }
        }
        if turns_back(alloc, rest, facts, body, pc, instr)? {
            put(&mut given, pc, RETURNS);
        }
        if let Instr::Load(slot, ..) = instr {
            let at = number_at(rest.ends.as_slice(), pc.saturating_add(1));
            let is_straight = number_at(lasts.as_slice(), at) <= pc;
            if is_straight && takes_over(rest, facts, body, at, *slot) {
                put(&mut given, pc, 1);
            }
        }
    }
    Ok(given)
}

/// Takes back that an instruction stands with another where no run comes to it: of three switches
/// on one word, each behind the other way of the one before, the second one is left out, so that it
/// cannot stand with the third.
pub(crate) fn clear_unreached(given: &mut Seq<usize>, reached: &[usize]) {
    for (pc, is_reached) in reached.iter().enumerate() {
        if *is_reached == 0 {
            put(given, pc, 0);
        }
    }
}

// What is wanted of a body, and what is read, before any of its instructions is gone back to:
// nothing is, and a jump to an instruction goes on there.
fn nothing_wanted(alloc: Global, fun: &CodeFun) -> Result<Rest, AllocError> {
    let count = fun.body.len();
    Ok(Rest {
        wanted: numbers(alloc, count, 0, 0)?,
        dead: empty_lists(alloc, count)?,
        ends: numbers(alloc, count, 0, 1)?,
        reads: numbers(alloc, fun.slots, 0, 0)?,
    })
}

// Goes back over all instructions of a body, from the last one to the first. `met` has for each 1
// where a run may come to it, else 0.
fn choose_each(
    alloc: Global,
    rest: &mut Rest,
    body: &[Instr],
    facts: &[Seq<Fact>],
    late: &[Seq<usize>],
    met: &[usize],
) -> Result<(), AllocError> {
    for (pc, instr) in body.iter().enumerate().rev() {
        let known = facts_at(facts, pc);
        let slots = slots_at(late, pc);
        let is_met = number_at(met, pc) > 0;
        choose_one(alloc, rest, known, slots, pc, instr, is_met)?;
    }
    Ok(())
}

/// What is wanted of a body and what is read, found from the last instruction back. `facts` has for
/// each instruction what is known before it, and `late` some slots that were set on a way to it and
/// not read on that way.
pub(crate) fn choose(
    alloc: Global,
    fun: &CodeFun,
    facts: &[Seq<Fact>],
    late: &[Seq<usize>],
) -> Result<Rest, AllocError> {
    let body = fun.body.as_slice();
    let mut rest = nothing_wanted(alloc, fun)?;
    let met = reach(alloc, body, rest.ends.as_slice(), &[])?;
    choose_each(alloc, &mut rest, body, facts, late, met.as_slice())?;
    Ok(rest)
}

// Notes in `reached` that a run may come to where a jump to each target of a switch goes on, as
// `ends` has it: to those of its arms and of its other way, if it has one.
fn reach_targets(
    reached: &mut Seq<usize>,
    ends: &[usize],
    other: Option<usize>,
    arms: &[SwitchArm],
) {
    for arm in arms {
        put(reached, number_at(ends, arm.target), 1);
    }
    if let Some(target) = other {
        put(reached, number_at(ends, target), 1);
    }
}

// Notes that a run may come to the targets of the switch to which another one's other way leads;
// nothing where there is no such way or switch.
fn reach_next(reached: &mut Seq<usize>, body: &[Instr], ends: &[usize], other: Option<usize>) {
    let Some(target) = other else {
        return;
    };
    if let Some(Instr::Switch(_, other, arms)) = body.get(number_at(ends, target)) {
        reach_targets(reached, ends, *other, arms.as_slice());
    }
}

/// For each instruction 1 where a run may come to it, else 0. `ends` has for each where a jump to
/// it goes on, and `given` is as `give` has it, or empty where each instruction stands for itself.
pub(crate) fn reach(
    alloc: Global,
    body: &[Instr],
    ends: &[usize],
    given: &[usize],
) -> Result<Seq<usize>, AllocError> {
    let mut reached = numbers(alloc, body.len(), 0, 0)?;
    put(&mut reached, 0, 1);
    for (pc, instr) in body.iter().enumerate() {
        if number_at(reached.as_slice(), pc) > 0 {
            match instr {
                Instr::Jump(target) => put(&mut reached, number_at(ends, *target), 1),
                Instr::Switch(_, other, arms) if number_at(given, pc) != RETURNS => {
                    let is_folded = number_at(given, pc) > 0;
                    let way = if is_folded { None } else { *other };
                    reach_targets(&mut reached, ends, way, arms.as_slice());
                    if is_folded {
                        reach_next(&mut reached, body, ends, *other);
                    }
                }
                Instr::Switch(..) | Instr::Return(_) => {}
                Instr::Const(..)
                | Instr::Copy(..)
                | Instr::Alu(..)
                | Instr::Take(..)
                | Instr::Put(..)
                | Instr::Load(..)
                | Instr::Store(..)
                | Instr::Place(..)
                | Instr::Call(..) => {
                    let behind = pc.saturating_add(1);
                    if number_at(given, pc) > 0 {
                        let copy = number_at(ends, behind);
                        put(&mut reached, copy.saturating_add(1), 1);
                    } else {
                        put(&mut reached, behind, 1);
                    }
                }
            }
        }
    }
    Ok(reached)
}

/// For each instruction, and for the end, how many stay from there on: all that are reached and
/// wanted, but for jumps over nothing. `reached` is as `reach` has it.
pub(crate) fn stays(
    alloc: Global,
    body: &[Instr],
    rest: &Rest,
    reached: &[usize],
) -> Result<Seq<usize>, AllocError> {
    let mut stay = numbers(alloc, body.len().saturating_add(1), 0, 0)?;
    for (pc, instr) in body.iter().enumerate().rev() {
        let behind = number_at(stay.as_slice(), pc.saturating_add(1));
        let is_over_nothing = match instr {
            Instr::Jump(target) => {
                let end = number_at(rest.ends.as_slice(), *target);
                number_at(stay.as_slice(), end) == behind
            }
            Instr::Const(..)
            | Instr::Copy(..)
            | Instr::Alu(..)
            | Instr::Take(..)
            | Instr::Put(..)
            | Instr::Load(..)
            | Instr::Store(..)
            | Instr::Place(..)
            | Instr::Switch(..)
            | Instr::Call(..)
            | Instr::Return(_) => false,
        };
        let is_here = number_at(reached, pc) > 0 && number_at(rest.wanted.as_slice(), pc) > 0;
        if is_here && !is_over_nothing {
            put(&mut stay, pc, behind.saturating_add(1));
        } else {
            put(&mut stay, pc, behind);
        }
    }
    Ok(stay)
}

/// For each slot 1 where an instruction that stays writes it, 2 where only loads would that write
/// another slot, and else 0. `reached` is as `reach` has it, and `given` as `give` has it.
pub(crate) fn slot_uses(
    alloc: Global,
    fun: &CodeFun,
    rest: &Rest,
    reached: &[usize],
    given: &[usize],
) -> Result<Seq<usize>, AllocError> {
    let mut uses = numbers(alloc, fun.slots, 0, 0)?;
    let body = fun.body.as_slice();
    for (pc, instr) in body.iter().enumerate() {
        if number_at(reached, pc) > 0 && number_at(rest.wanted.as_slice(), pc) > 0 {
            if let Some(slot) = set_by(instr) {
                if number_at(given, pc) == 0 {
                    put(&mut uses, slot, 1);
                } else {
                    if number_at(uses.as_slice(), slot) == 0 {
                        put(&mut uses, slot, 2);
                    }
                    let at = number_at(rest.ends.as_slice(), pc.saturating_add(1));
                    if let Some(to) = body.get(at).and_then(set_by) {
                        put(&mut uses, to, 1);
                    }
                }
            }
            if let Instr::Call(_, dests, _) = instr {
                for dest in dests.as_slice() {
                    put(&mut uses, *dest, 1);
                }
            }
        }
    }
    Ok(uses)
}

/// For each instruction, and for the end, how many of those before it stay; `stay` is as `stays`
/// has it.
pub(crate) fn places_of(alloc: Global, stay: &[usize]) -> Result<Seq<usize>, AllocError> {
    let all = number_at(stay, 0);
    let mut places = Seq::new(alloc);
    for rest in stay {
        places.push(all.saturating_sub(*rest))?;
    }
    Ok(places)
}
