//! The one search that all questions about matrices come to: a vector of values that all wanted
//! rows match and no unwanted one. It is Maranget's test of usefulness, with a witness.
//!
//! What is left of a search stands in a list, not on the stack, so that it takes no deeper stack on
//! wider or longer patterns. An unwanted row of wildcards and variables alone ends its branch, so
//! rows that each look at one column take no exponential time. But for each column all rows that
//! are left are gone through: where each column has a row that looks at it alone, a search takes a
//! time that grows with the square of the rows. `unreached` asks of each row, but it makes such a
//! search only for one whose probe finds nothing (`probe`). Time grows as in Maranget's algorithm:
//! exponentially in the number of columns at worst, where rows that look at several columns take
//! turns. Unwanted rows are grouped by their heads, so a row that begins with a head is gone
//! through for the part of that head, and one that begins with a wildcard for the part of each in
//! which no row that begins with the head matches all; for the part that is made last, of the
//! problem itself, all rows are gone through once more. A head is looked up in the set of those of
//! its column. Memory does not grow so: the parts of a problem are made one after another, each
//! when the one before has no answer, so that of each problem on the way one part is held. Rows
//! borrow their patterns, and the wildcards for a head's fields are only counted, so that a row of
//! a part takes a word for each pattern behind these, however deep the patterns are.

ghost use Rattle.std.specs.Prelude.{◌≡◌, List, IfOk, []};
ghost use Rattle.rb_core.specs.declared.types.DataDecl as DataDecls;
ghost use Rattle.rb_matrix.specs.declared.problem.Left.TheVariants.{Whole};
ghost use Rattle.rb_matrix.specs.Rows.{any_row, all_rows};
ghost use Rattle.rb_matrix.specs.Search.{AreInhabited, AreTypesIn, IsSearchAnswer};
ghost use Rattle.rb_matrix.specs.inner.Problems.{root_of};
ghost use Rattle.rb_matrix.specs.inner.Left.{IsOutcome, IsReady};

use crate::part::{next_part, parts_of};
use crate::problem::{Left, Outcome, Problem, Step};
use crate::row::Row;
use crate::rows::some_is_open;
use crate::stack::Stack;
use crate::witness::witness;
use rb_core::pattern::Pat;
use rb_core::seq::Seq;
use rb_core::types::{DataDecl, Ty};
use std::alloc::{AllocError, Global};

// Whether some row is empty, so that it matches the empty vector; false where there is no row.
fn some_is_empty(rows: &[Row]) -> bool
    ensures { result ≡ any_row rows.now [] }
{
    for row in rows {
        if row.is_empty() {
            return true;
        }
    }
    false
}

// Whether each row is empty, so that it matches the empty vector; so it is where there is no row.
fn all_are_empty(rows: &[Row]) -> bool
    ensures { result ≡ all_rows rows.now [] }
{
    for row in rows {
        if !row.is_empty() {
            return false;
        }
    }
    true
}

// Rows in the form in which a problem holds them: they borrow their patterns.
fn rows_borrowed<'a>(alloc: Global, rows: &'a [Seq<Pat>]) -> Result<Seq<Row<'a>>, AllocError>
    ensures { IfOk result (λ r. r ≡ rows.now) }
{
    let mut borrowed = Seq::new(alloc);
    for row in rows {
        borrowed.push(Row::of(alloc, row.as_slice())?)?;
    }
    Ok(borrowed)
}

// The problem that a search begins with, whose rows borrow their patterns.
fn root<'a>(
    alloc: Global,
    tys: &[Ty],
    wanted: &'a [Seq<Pat>],
    unwanted: &'a [Seq<Pat>],
) -> Result<Problem<'a>, AllocError>
    ensures { IfOk result (λ p. p ≡ root_of tys.now wanted.now unwanted.now) }
{
    Ok(Problem {
        tys: Stack::from_seq(Seq::from_vec(Vec::from_slice(alloc, tys)?)),
        wanted: rows_borrowed(alloc, wanted)?,
        unwanted: rows_borrowed(alloc, unwanted)?,
        steps: Seq::new(alloc),
    })
}

// What becomes of a problem with no column left: the empty row is its answer where all wanted rows
// are empty and no unwanted one is, and else nothing is left.
fn end<'a>(alloc: Global, wanted: &Seq<Row>, unwanted: &Seq<Row>, steps: Seq<Step>) -> Outcome<'a>
    ensures { (types : List DataDecls.DataDecl) → IsOutcome types
        (Whole (record { tys = []; wanted = wanted.now; unwanted = unwanted.now; steps = steps })) result }
{
    if !all_are_empty(wanted.as_slice()) {
        return Outcome::Split(Vec::new(alloc));
    }
    if some_is_empty(unwanted.as_slice()) {
        return Outcome::Split(Vec::new(alloc));
    }
    Outcome::Solved(steps)
}

// What becomes of a problem: with no column left it is solved or has no answer, and else its parts
// are left. Nothing is left where an unwanted row matches every vector, since it has a wildcard or
// a variable for each column.
fn split<'a>(
    alloc: Global,
    types: &[DataDecl],
    problem: Problem<'a>,
) -> Result<Outcome<'a>, AllocError>
    requires inhabited { AreInhabited types.now }
    requires live { AreTypesIn types.now problem.tys }
    ensures { IfOk result (λ r. IsOutcome types.now (Whole problem.entry) r) }
{
    if some_is_open(problem.unwanted.as_slice(), problem.tys.len()) {
        return Ok(Outcome::Split(Vec::new(alloc)));
    }
    let Problem {
        mut tys,
        wanted,
        unwanted,
        steps,
    } = problem;
    let Some(ty) = tys.pop() else {
        return Ok(end(alloc, &wanted, &unwanted, steps));
    };
    let behind = Problem {
        tys,
        wanted,
        unwanted,
        steps,
    };
    let parts = parts_of(alloc, types, ty, behind)?;
    Ok(Outcome::Split(parts))
}

// What becomes of a piece of what was left, be it a whole problem or branches of one.
fn step<'a>(alloc: Global, types: &[DataDecl], left: Left<'a>) -> Result<Outcome<'a>, AllocError>
    requires inhabited { AreInhabited types.now }
    requires ready { IsReady types.now left }
    ensures { IfOk result (λ r. IsOutcome types.now left.entry r) }
{
    match left {
        Left::Whole(problem) => split(alloc, types, problem),
        Left::ByHead(branches) => {
            let parts = next_part(alloc, types, branches)?;
            Ok(Outcome::Split(parts))
        }
    }
}

/// A row of patterns for a problem to which no step has led: it matches a vector of the problem's
/// types, and each vector of these types that it matches is matched by all wanted rows and by no
/// unwanted one. None where there is no such vector. The patterns are numbers, constructors and
/// wildcards. Which such row is given is left open.
///
/// # Errors
///
/// Want of memory.
pub(crate) fn find_in(
    alloc: Global,
    types: &[DataDecl],
    root: Problem,
) -> Result<Option<Seq<Pat>>, AllocError>
    requires inhabited { AreInhabited types.now }
    requires live { AreTypesIn types.now root.tys }
    requires root { root.steps ≡ [] }
    ensures { IfOk result (λ r. IsSearchAnswer types.now root.entry.tys root.entry.wanted root.entry.unwanted r) }
{
    let mut work = Vec::new(alloc);
    work.push(Left::Whole(root))?;
    while let Some(left) = work.pop() {
        let outcome = step(alloc, types, left)?;
        match outcome {
            Outcome::Solved(steps) => {
                let row = witness(alloc, steps)?;
                return Ok(Some(row));
            }
            Outcome::Split(mut parts) => work.append(&mut parts)?,
        }
    }
    Ok(None)
}

/// A row of patterns that matches a vector of these types, such that each vector of these types
/// that it matches is matched by all wanted rows and by no unwanted one; None where there is no
/// such vector. The patterns are numbers, constructors and wildcards. Which such row is given is
/// left open.
///
/// # Errors
///
/// Want of memory.
pub fn find(
    alloc: Global,
    types: &[DataDecl],
    tys: &[Ty],
    wanted: &[Seq<Pat>],
    unwanted: &[Seq<Pat>],
) -> Result<Option<Seq<Pat>>, AllocError>
    requires inhabited { AreInhabited types.now }
    requires live { AreTypesIn types.now tys.now }
    ensures { IfOk result (λ r. IsSearchAnswer types.now tys.now wanted.now unwanted.now r) }
{
    let root = root(alloc, tys, wanted, unwanted)?;
    find_in(alloc, types, root)
}
