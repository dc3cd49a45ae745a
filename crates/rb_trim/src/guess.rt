//! Hints for a body: what is known before each instruction, what is left out, and new numbers,
//! those of instructions and slots in the shorter body. Nothing rests on their being right.

use crate::choosing::{
    Rest, choose, clear_unreached, give, places_of, put, reach, slot_uses, stays,
};
use crate::fact::Fact;
use crate::hints::Hints;
use crate::learning::{learn, numbers, written_slots};
use crate::moving::number_at;
use rb_core::seq::Seq;
use rb_target::code::CodeFun;
use rb_target::instr::Instr;
use std::alloc::{AllocError, Global};

// What is wanted of a body and what is read, as `choose` has it; `facts` has for each instruction
// what is known before it.
fn rest_of(alloc: Global, fun: &CodeFun, facts: &[Seq<Fact>]) -> Result<Rest, AllocError> {
    let late = written_slots(alloc, fun.body.as_slice(), facts)?;
    choose(alloc, fun, facts, late.as_slice())
}

// What runs come to in a shorter body: `given` is as `give` has it, but 0 where no run comes, and
// `reached` as `reach` has it.
#[derive(Drop)]
struct Runs {
    given: Seq<usize>,
    reached: Seq<usize>,
}

// What runs come to in a body of which these facts are known and this is wanted.
fn runs_of(
    alloc: Global,
    body: &[Instr],
    facts: &[Seq<Fact>],
    rest: &Rest,
) -> Result<Runs, AllocError> {
    let mut given = give(alloc, body, facts, rest)?;
    let reached = reach(alloc, body, rest.ends.as_slice(), given.as_slice())?;
    clear_unreached(&mut given, reached.as_slice());
    Ok(Runs { given, reached })
}

// The places of instructions, as hints have them.
fn new_places(
    alloc: Global,
    body: &[Instr],
    rest: &Rest,
    reached: &[usize],
) -> Result<Seq<usize>, AllocError> {
    let stay = stays(alloc, body, rest, reached)?;
    places_of(alloc, stay.as_slice())
}

// The slots of a shorter body, as hints have them: how many there are, the new number of each slot,
// and the slot of each new number.
#[derive(Drop)]
struct Slots {
    count: usize,
    names: Seq<usize>,
    origins: Seq<usize>,
}

// New numbers for slots: from 0 on for parameters and for what is used, and behind them for slots
// that only loads would write. `uses` is as `slot_uses` has it, and `reads` as hints have it.
fn number_slots(
    alloc: Global,
    fun: &CodeFun,
    uses: &[usize],
    reads: &[usize],
) -> Result<Slots, AllocError> {
    let mut names = numbers(alloc, fun.slots, 0, 0)?;
    let mut origins = Seq::new(alloc);
    for slot in 0..fun.slots {
        let is_used = match number_at(uses, slot) {
            0 => number_at(reads, slot) > 0,
            uses => uses == 1,
        };
        if slot < fun.params || is_used {
            put(&mut names, slot, origins.len());
            origins.push(slot)?;
        }
    }
    let count = origins.len();
    for slot in fun.params..fun.slots {
        if number_at(uses, slot) == 2 {
            put(&mut names, slot, origins.len());
            origins.push(slot)?;
        }
    }
    Ok(Slots {
        count,
        names,
        origins,
    })
}

// The slots of the shorter body. `reached` is as `reach` has it, and `given` as `give` has it.
fn new_slots(
    alloc: Global,
    fun: &CodeFun,
    rest: &Rest,
    reached: &[usize],
    given: &[usize],
) -> Result<Slots, AllocError> {
    let uses = slot_uses(alloc, fun, rest, reached, given)?;
    number_slots(alloc, fun, uses.as_slice(), rest.reads.as_slice())
}

// Hints from their parts: the places of instructions, what is known before each, what is wanted and
// read, what runs come to, and the slots of the shorter body.
fn hints(places: Seq<usize>, facts: Seq<Seq<Fact>>, rest: Rest, runs: Runs, slots: Slots) -> Hints {
    Hints {
        places,
        ends: rest.ends,
        reached: runs.reached,
        given: runs.given,
        facts,
        dead: rest.dead,
        reads: rest.reads,
        slots: slots.count,
        names: slots.names,
        origins: slots.origins,
    }
}

// What is read of a body that stays as it is: each slot up to the end. A jump to an instruction goes
// on there.
fn all_read(alloc: Global, fun: &CodeFun) -> Result<Rest, AllocError> {
    let count = fun.body.len();
    Ok(Rest {
        wanted: Seq::new(alloc),
        dead: Seq::new(alloc),
        ends: numbers(alloc, count, 0, 1)?,
        reads: numbers(alloc, fun.slots, count, 0)?,
    })
}

// The slots of a body that stays as it is: each has its own number.
fn same_slots(alloc: Global, fun: &CodeFun) -> Result<Slots, AllocError> {
    Ok(Slots {
        count: fun.slots,
        names: numbers(alloc, fun.slots, 0, 1)?,
        origins: numbers(alloc, fun.slots, 0, 1)?,
    })
}

/// Hints that leave every instruction and number of a function as it is: nothing is known, runs may
/// come to everything, and each slot is read up to the end.
///
/// # Errors
///
/// Want of memory.
pub(crate) fn identity(alloc: Global, fun: &CodeFun) -> Result<Hints, AllocError> {
    let count = fun.body.len();
    let rest = all_read(alloc, fun)?;
    let slots = same_slots(alloc, fun)?;
    let runs = Runs {
        given: Seq::new(alloc),
        reached: numbers(alloc, count, 1, 0)?,
    };
    let places = numbers(alloc, count.saturating_add(1), 0, 1)?;
    Ok(hints(places, Seq::new(alloc), rest, runs, slots))
}

// Hints for a function of which these facts are known and this is wanted, and in which runs come to
// this.
fn hints_of(
    alloc: Global,
    fun: &CodeFun,
    facts: Seq<Seq<Fact>>,
    rest: Rest,
    runs: Runs,
) -> Result<Hints, AllocError> {
    let (given, reached) = (runs.given.as_slice(), runs.reached.as_slice());
    let places = new_places(alloc, fun.body.as_slice(), &rest, reached)?;
    let slots = new_slots(alloc, fun, &rest, reached, given)?;
    Ok(hints(places, facts, rest, runs, slots))
}

/// Hints for a function that leave out what is known, what is not read and what no run comes to,
/// and make one of two instructions.
///
/// # Errors
///
/// Want of memory.
pub(crate) fn guess(alloc: Global, fun: &CodeFun) -> Result<Hints, AllocError> {
    let body = fun.body.as_slice();
    let facts = learn(alloc, body)?;
    let rest = rest_of(alloc, fun, facts.as_slice())?;
    let runs = runs_of(alloc, body, facts.as_slice(), &rest)?;
    hints_of(alloc, fun, facts, rest, runs)
}
