//! Cycles in a graph of numbers. A graph lists for each number its edges: the numbers to which it
//! leads. A way lists numbers, each of which leads to the next. A mark is on for each number that
//! was found.
//!
//! From a number on, all numbers to which it leads are found, each once, with a way to it, until one of
//! them leads back. Take the edges 0 to 1, 1 to 2 and 2 to 0. From 1 on, 2 is found by the way 1, 2, and
//! then 0 by the way 1, 2, 0; it leads back to 1, so the cycle is 1, 2, 0.

ghost use Rattle.std.specs.Prelude.{◌≡◌, IfOk, MatchOption, OnOk, MatchBool};
ghost use Rattle.rb_layout.specs.Cycles.{HasNoCycle, IsCycleFrom};
ghost use Rattle.rb_layout.specs.Graphs.{HasEdge, HasNoEdge, Leads};
ghost use Rattle.rb_agree.specs.inner.Ways.{with_all_found, with_found, state};

use rb_core::seq::Seq;
use rb_layout::graphs::{edges_of, no_marks};
use std::alloc::{AllocError, Global};

/// The way to a number that was found: the first number, each after it, and it itself.
#[derive(Drop)]
pub struct Way {
    pub number: u32,
    pub way: Seq<u32>,
}

// Marks number `next` and adds it, whose way is `way` and then itself, to those that were found, if
// it was not found before; nothing changes where it has no mark. An `Err` is want of memory.
fn add(
    alloc: Global,
    way: &Seq<u32>,
    next: u32,
    marks: &mut Seq<bool>,
    found: &mut Seq<Way>,
) -> Result<(), AllocError>
    ensures { OnOk result (state marks.new found.new ≡ with_found way.now next (state marks.old found.old)) }
{
    match marks.get(next as usize) {
        None => return Ok(()),
        Some(mark) => {
            if *mark {
                return Ok(());
            }
        }
    }
    let mut longer = way.copy(alloc)?;
    longer.push(next)?;
    found.push(Way {
        number: next,
        way: longer,
    })?;
    marks.replace(next as usize, true);
    Ok(())
}

// Adds the numbers to which these edges lead, each at the end of `way`, until one is `start`, from
// which the search began. Tells whether one is. An `Err` is want of memory.
fn follow(
    alloc: Global,
    edges: &[u32],
    start: u32,
    way: &Seq<u32>,
    marks: &mut Seq<bool>,
    found: &mut Seq<Way>,
) -> Result<bool, AllocError>
    ensures leads { IfOk result (λ b. MatchBool b (HasEdge edges.now start) (HasNoEdge edges.now start)) }
    ensures added { IfOk result (λ b. MatchBool b
        (Unit {0}) (state marks.new found.new ≡ with_all_found way.now edges.now (state marks.old found.old))) }
{
    for next in edges {
        if *next == start {
            return Ok(true);
        }
        add(alloc, way, *next, marks, found)?;
    }
    Ok(false)
}

/// A cycle from number `start` on, none of whose numbers stands twice; None where there is none, or
/// no such number. `graph` lists for each number those to which it leads.
///
/// # Errors
///
/// Want of memory.
pub fn cycle_from(
    alloc: Global,
    graph: &[Seq<u32>],
    start: u32,
) -> Result<Option<Seq<u32>>, AllocError>
    ensures { IfOk result (λ r. MatchOption r
        (HasNoCycle (Leads graph.now) start) (IsCycleFrom (Leads graph.now) start)) }
{
    if start as usize >= graph.len() {
        return Ok(None);
    }
    let mut marks = no_marks(alloc, graph.len())?;
    let mut found = Seq::new(alloc);
    add(alloc, &Seq::new(alloc), start, &mut marks, &mut found)?;
    for i in 0..usize::MAX {
        let (number, way) = match found.get(i) {
            None => return Ok(None),
            Some(last) => (last.number, last.way.copy(alloc)?),
        };
        if follow(
            alloc,
            edges_of(graph, number),
            start,
            &way,
            &mut marks,
            &mut found,
        )? {
            return Ok(Some(way));
        }
    }
    Err(AllocError)
}
