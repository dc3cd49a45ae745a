//! From the steps of a solved problem to a row of patterns for the root: the witness that the
//! search found something.

ghost use Rattle.std.specs.Prelude.{◌≡◌, [], take, drop, IfOk, OnOk};
ghost use Rattle.std.specs.declared.collections.VecDeque.{VecDeque};
ghost use Rattle.rb_matrix.specs.inner.Problems.{row_for_parent, row_for_root};

use crate::problem::Step;
use rb_core::pattern::Pat;
use rb_core::seq::Seq;
use std::alloc::{AllocError, Global};
use std::collections::VecDeque;

// Takes so many patterns off the front of a row, or all where the row is shorter.
fn front_of(alloc: Global, row: &mut VecDeque<Pat>, count: usize) -> Result<Seq<Pat>, AllocError>
    ensures front { IfOk result (λ r. r ≡ take count row.old.items) }
    ensures rest { OnOk result (row.new.items ≡ drop count row.old.items) }
{
    let mut front = Seq::new(alloc);
    for _i in 0..count {
        let Some(pat) = row.pop_front() else {
            return Ok(front);
        };
        front.push(pat)?;
    }
    Ok(front)
}

// One step back: the row for a problem becomes one for its parent. A pattern is put before it, or
// so many patterns from its front, all where it is shorter, become the subpatterns of a
// constructor.
fn close(alloc: Global, row: &mut VecDeque<Pat>, step: Step) -> Result<(), AllocError>
    ensures { OnOk result (row.new.items ≡ row_for_parent step row.old.items) }
{
    match step {
        Step::Front(pat) => row.push_front(pat)?,
        Step::Fold(con, count) => {
            let pats = front_of(alloc, row, count)?;
            row.push_front(Pat::Con(0, con, pats))?;
        }
    }
    Ok(())
}

/// The row that the empty row becomes by these steps, the last step first; without a step the empty
/// row itself.
///
/// # Errors
///
/// Want of memory.
pub fn witness(alloc: Global, mut steps: Seq<Step>) -> Result<Seq<Pat>, AllocError>
    ensures { IfOk result (λ r. r ≡ row_for_root steps []) }
{
    let mut row = VecDeque::new(alloc);
    while let Some(step) = steps.pop() {
        close(alloc, &mut row, step)?;
    }
    Ok(Seq::from_vec(Vec::from(row)))
}
