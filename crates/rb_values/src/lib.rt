//! Values as text: a value is read from a text at a type, kept as linked nodes, and printed.
//!
//! A `Forest` is a list of nodes in which each names its subvalues by lower numbers, so that no call
//! recurses on a value. `Cons(1, Nil)` is three nodes, a number, a construction without links, and a
//! construction that names both:
//!
//! ```text
//! node 0   1
//! node 1   Nil
//! node 2   Cons of 0, 1
//! ```
//!
//! A text is read in one pass, token by token. An outline says whether a value goes on with the next
//! token, by a depth and a count of nodes alone, so it is told for a text of any length. Beside it a
//! stack of frames holds the names whose fields are read, each with its constructor and the number of
//! its fields so far; it gives each node the type that it is to have, and finished values are built on
//! a second stack, as in a calculator for Polish notation. Once there are more nodes than the limit,
//! frames and nodes are let go, and the outline alone goes on. A node that does not fit its type is
//! noted, the first of all; that a name has too few fields is known only behind them, and counts
//! before what was noted in them.
//!
//! Printing goes over the nodes with frames of the same kind, outermost first.
#![tactic(auto)]

pub mod builder;
pub mod fault;
pub mod forest;
pub mod laws;
pub mod nodes;
mod outline;
pub mod print;
pub mod read;
mod sign;
mod typing;
