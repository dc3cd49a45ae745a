//! Decision trees.
//!
//! The scrutinee is the value that is matched. A head is what a value begins with: a number or a
//! constructor. An arm is the branch of a test for one head.

use rb_core::boxed::Boxed;
use rb_core::seq::Seq;
use rb_matrix::matrix::Head;

/// A decision tree of a match.
#[cycle(tree)]
#[derive(Drop)]
pub enum Tree {
    /// A test of what stands at a position of the scrutinee, by field numbers from the root: the
    /// first arm whose head it begins with, or else what stands last, if anything.
    Test(Seq<u32>, Seq<TreeArm>, Option<Boxed<Tree>>),
    /// The clause with this number is taken.
    Clause(u32),
}

/// What is left to do where the tested value begins with a head.
#[cycle(tree)]
#[derive(Drop)]
pub struct TreeArm {
    pub head: Head,
    pub under: Tree,
}

/// The tree of a match, unless it is too large.
#[derive(Drop)]
pub enum Tried {
    /// The tree.
    Built(Tree),
    /// The tree has more nodes than may be built.
    Over,
}
