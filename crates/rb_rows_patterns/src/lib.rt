//! Rows of patterns: what they match together, what they have in common, and the trees and graphs that decide between
//! them. It has tests alone.
//!
//! The contracts say that what is shown as missing is matched by no row; which of such patterns it is, which clauses
//! are the first match of no value, and what two patterns share was worked out by hand after Maranget's algorithm. A
//! row has the number of a type, patterns, and what they miss. In type 1, `type T = L | N(T, C, T)`, the first thing
//! that is missed has a node on the left:
//!
//! ```text
//! (1, &[b"L", b"NLxL"], b"NN_____"),
//! ```
//!
//! The contracts say by definitions which tree of a match is built and which graph is made of it. The rows hold these
//! against trees, and sizes of both, that were worked out by hand, at the limit of 512 nodes and one over it, too. A
//! row has patterns, the tree as text, its nodes, and the tests and clauses of its graph. Here `Q` is tested first;
//! clause 0 is taken where its first field is `A`, else clause 1 where its second is, else clause 2:
//!
//! ```text
//! (&[b"A___", b"_A__", b"_"], b".(Q.0(A0_.1(A1_2)))", 6, (3, 3)),
//! ```
#![tactic(auto)]

#[cfg(test)]
mod matrix;
#[cfg(test)]
mod trees;
