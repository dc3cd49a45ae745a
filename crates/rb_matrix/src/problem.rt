//! What is left of a search: problems and their parts. A problem is split into parts by the heads
//! of its first column; the problem is their parent, and the one that the search begins with is the
//! root.

use crate::groups::Groups;
use crate::matrix::Head;
use crate::row::Row;
use crate::stack::Stack;
use rb_core::pattern::Pat;
use rb_core::seq::Seq;
use rb_core::types::{ConRef, Ty};

/// How a row of patterns for a problem becomes one for its parent, whose first column was split or
/// taken off.
#[derive(Drop)]
pub enum Step {
    /// This pattern stands before the row.
    Front(Pat),
    /// The constructor takes so many patterns from the front of the row as its subpatterns, or all
    /// where the row is shorter.
    Fold(ConRef, usize),
}

/// Is there a vector of these types that all wanted rows match and no unwanted one? The steps, the
/// last one first, lead from a row for this problem to one for the root; the root has none.
#[derive(Drop)]
pub struct Problem<'a> {
    pub tys: Stack<Ty>,
    pub wanted: Seq<Row<'a>>,
    pub unwanted: Seq<Row<'a>>,
    pub steps: Seq<Step>,
}

/// The parts of a problem that are not made yet, one for each of these heads: for its vectors that
/// begin with the head. The last head's part is made first. The problem stands here without its
/// first column's type, which stands beside it. Its unwanted rows are grouped by the keys of the
/// heads that they begin with, each row given by its place among them.
#[derive(Drop)]
pub struct Branches<'a> {
    pub ty: Ty,
    pub behind: Problem<'a>,
    pub heads: Seq<Head>,
    pub groups: Groups,
}

/// A piece of what is left of a search.
#[derive(Drop)]
pub enum Left<'a> {
    /// All vectors of a problem.
    Whole(Problem<'a>),
    /// The vectors of a problem that begin with one of some heads.
    ByHead(Branches<'a>),
}

/// What becomes of a piece of what was left.
#[derive(Drop)]
pub enum Outcome<'a> {
    /// Its problem has no column left, and the empty row is its answer: these are its steps.
    Solved(Seq<Step>),
    /// These are left in its stead, and the last of them is searched first; where none of them has
    /// an answer, it has none.
    Split(Vec<Left<'a>>),
}
