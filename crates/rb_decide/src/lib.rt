//! Decision trees of matches, and the graphs in which equal parts of a tree stand once.
//!
//! The tree of a match is Maranget's ("Compiling pattern matching to good decision trees", ML
//! Workshop, 2008), from left to right. It begins with the matrix of one row for each clause and
//! one column, the scrutinee. Where the first row has only wildcards and variables, its clause is
//! taken. Else the tree tests the first column in which the first row has a number or constructor.
//! There is a branch for each head that stands in that column, in the order of first standing
//! there, by the specialised matrix. Unless these heads are all that a value can begin with, there
//! is one more branch for the others, by the default matrix.
//!
//! For `type K = A | B` and two fields, `(A, _) => 0, (_, A) => 1, _ => 2` has this tree of size 5,
//! where `.0` and `.1` are the positions of the fields and `else` is the branch for the others:
//!
//! ```text
//! .0 { A => clause 0
//!      else => .1 { A => clause 1
//!                   else => clause 2 } }
//! ```
//!
//! Trees may be exponentially larger than their match, so that `tree` gives up past 512 nodes, and
//! it builds no more than these. A graph has each different subtree once: `share` numbers subtrees
//! from the leaves up and looks each node up in a map before it adds it.
#![tactic(auto)]

pub mod branches;
mod build;
pub mod clause_matrix;
pub mod decide;
pub mod decision_graph;
pub mod decision_tree;
mod heads;
mod keys;
pub mod one_pattern;
mod sharing;
mod signature;
pub mod subtrees;

pub use decide::{tree, tree_up_to};
pub use decision_graph::{Graph, GraphArm, GraphNode};
pub use decision_tree::{Tree, TreeArm, Tried};
pub use one_pattern::pattern_graph;
pub use subtrees::share;
