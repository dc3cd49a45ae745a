//! Whether a graph of numbers has no cycle at all, told in one walk.
//!
//! A graph lists for each number its edges, the numbers to which it leads. A walk goes from number
//! to number along the edges, and a number is done when all to which it leads are. Where no cycle
//! is, each edge leads from a number to one that was done before it. So each edge is looked at: if
//! all of them lead to lower ranks, the order in which numbers were done, no chain of edges comes
//! back. Take the edges 0 to 1, 0 to 2 and 1 to 2: 2 is done first, then 1, then 0.

ghost use Rattle.std.specs.Prelude.{◌≡◌, ℕ, IfOk};
ghost use Rattle.std.specs.Bool.{OnTrue};
ghost use Rattle.rb_layout.specs.Cycles.{HasNoCycle};
ghost use Rattle.rb_layout.specs.Graphs.{Leads};
ghost use Rattle.rb_agree.specs.inner.Order.{RanksFall, RowFalls, rank_of};

use rb_core::seq::Seq;
use rb_layout::graphs::{edges_of, no_marks};
use rb_layout::numbers::number_of;
use std::alloc::{AllocError, Global};

/// A number on the walk, and its edge that is next.
#[derive(Clone, Copy)]
pub struct Visit {
    pub number: u32,
    pub edge: usize,
}

// Marks a number and puts it on top of the walk, if the walk was not there yet; nothing changes
// where it has no mark. An `Err` is want of memory.
fn enter(number: u32, marks: &mut Seq<bool>, walk: &mut Seq<Visit>) -> Result<(), AllocError> {
    let at = number as usize;
    if let Some(false) = marks.get(at) {
        marks.replace(at, true);
        walk.push(Visit { number, edge: 0 })?;
    }
    Ok(())
}

// Walks from number `start` on, and adds each number to `done` when all its edges have been
// followed; nothing is added where the walk was at the first number before. `marks` are on for the
// numbers where it was. An `Err` is want of memory.
fn walk_from(
    alloc: Global,
    graph: &[Seq<u32>],
    start: u32,
    marks: &mut Seq<bool>,
    done: &mut Seq<u32>,
) -> Result<(), AllocError> {
    let mut walk = Seq::new(alloc);
    enter(start, marks, &mut walk)?;
    for _turn in 0..usize::MAX {
        let Some(Visit { number, edge }) = walk.pop() else {
            return Ok(());
        };
        match edges_of(graph, number).get(edge) {
            None => done.push(number)?,
            Some(next) => {
                let next = *next;
                walk.push(Visit {
                    number,
                    edge: edge + 1,
                })?;
                enter(next, marks, &mut walk)?;
            }
        }
    }
    Err(AllocError)
}

// The numbers of a graph in the order in which they are done. An `Err` is want of memory.
fn done_in(alloc: Global, graph: &[Seq<u32>]) -> Result<Seq<u32>, AllocError> {
    let mut marks = no_marks(alloc, graph.len())?;
    let mut done = Seq::new(alloc);
    for start in 0..graph.len() {
        walk_from(alloc, graph, number_of(start)?, &mut marks, &mut done)?;
    }
    Ok(done)
}

// The rank of each number of a graph: how many numbers are done before it. An `Err` is want of
// memory.
fn ranks_in(alloc: Global, graph: &[Seq<u32>]) -> Result<Seq<usize>, AllocError> {
    let done = done_in(alloc, graph)?;
    let mut ranks = Seq::new(alloc);
    for _number in 0..graph.len() {
        ranks.push(0)?;
    }
    for (rank, number) in done.as_slice().iter().enumerate() {
        let at = *number as usize;
        if at < ranks.len() {
            ranks.replace(at, rank);
        }
    }
    Ok(ranks)
}

// When a number was done, as its rank tells; 0 for a number without one.
fn rank_of(ranks: &[usize], number: u32) -> usize
    ensures { result ≡ rank_of ranks.now number }
{
    match ranks.get(number as usize) {
        None => 0,
        Some(rank) => *rank,
    }
}

// Whether these edges of number `t` lead to lower ranks.
fn row_falls(ranks: &[usize], t: u32, row: &[u32]) -> bool
    ensures { OnTrue result (RowFalls ranks.now t row.now) }
{
    for next in row {
        if rank_of(ranks, t) <= rank_of(ranks, *next) {
            return false;
        }
    }
    true
}

// Whether each edge of a graph leads to a number of lower rank. An `Err` is want of memory.
fn falls(graph: &[Seq<u32>], ranks: &[usize]) -> Result<bool, AllocError>
    ensures { IfOk result (λ b. OnTrue b (RanksFall graph.now ranks.now)) }
{
    for t in 0..graph.len() {
        let number = number_of(t)?;
        if !row_falls(ranks, number, edges_of(graph, number)) {
            return Ok(false);
        }
    }
    Ok(true)
}

/// Whether a graph is known to have no cycle: true only where it has none.
///
/// # Errors
///
/// Want of memory.
pub(crate) fn has_no_cycle(alloc: Global, graph: &[Seq<u32>]) -> Result<bool, AllocError>
    ensures { IfOk result (λ b. OnTrue b ((t : ℕ) → HasNoCycle (Leads graph.now) t)) }
{
    let ranks = ranks_in(alloc, graph)?;
    falls(graph, ranks.as_slice())
}
