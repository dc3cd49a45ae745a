//! Decision graphs.
//!
//! A position is a list of field numbers from the root of the value that is matched. A head is what
//! a value begins with: a number or a constructor. An arm is the branch of a test for one head. A
//! node links to another by its number, which is its place among the nodes, from 0 on.

use rb_core::seq::Seq;
use rb_matrix::matrix::Head;

/// A decision graph: nodes that link to nodes with lower numbers, and the number of the first test.
#[derive(Drop)]
pub struct Graph {
    pub nodes: Seq<GraphNode>,
    pub root: u32,
}

/// A node of a decision graph: a node of a tree, with the numbers of nodes in place of subtrees.
#[derive(Drop)]
pub enum GraphNode {
    /// A test of what stands at a position, with its arms and the node for all other
    /// values; None where there is no such node.
    Test(Seq<u32>, Seq<GraphArm>, Option<u32>),
    /// The clause with this number is taken.
    Clause(u32),
}

/// The node at which a test goes on where the tested value begins with a head.
#[derive(Clone, Copy, PartialEq, Eq)]
pub struct GraphArm {
    pub head: Head,
    pub under: u32,
}
