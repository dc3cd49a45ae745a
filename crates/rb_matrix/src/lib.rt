//! Pattern matrices: which values a list of patterns leaves unmatched, which patterns are the first
//! match of no value, and whether two patterns have a value in common.
//!
//! A pattern matrix has rows of patterns, one for each column, and each column has a type. A row
//! matches a vector, which is a list of values, where it has as many patterns and each matches the
//! value in its column. A head is a number or a constructor: what a pattern begins with, or a
//! value. Wildcards and variables have none. Heads are a complete signature of a type where each of
//! its values begins with one of them, and else an incomplete one. The specialised matrix of a head
//! tells of the vectors that begin with it, with the subvalues of the first value in its place; the
//! default matrix tells of those that begin with no head of the first column, without their first
//! value. A row is useful behind others where it matches a vector that none of them does. All this
//! is Maranget's: "Warnings for pattern matching" (Journal of Functional Programming, 2007) and
//! "Compiling pattern matching to good decision trees" (ML Workshop, 2008).
//!
//! One search serves all questions: for a vector of values that all wanted rows match and no
//! unwanted one. Take lists, `Nil` or `Cons(u8, List)`, and a match of two of them with the rows
//! `(Nil, _)` and `(Cons(_, _), Nil)`. What they miss is a pair that neither matches, so both rows
//! are unwanted, and none is wanted. A line is a matrix, with what the search does next:
//!
//! ```text
//! columns          unwanted rows                    left to search
//! List, List       (Nil, _) and (Cons(_, _), Nil)   first list Cons, and else Nil
//! u8, List, List   (_, _, Nil)                      any number in the Cons
//! List, List       (_, Nil)                         any rest in the Cons
//! List             (Nil)                            second list other than Nil: Cons(_, _)
//! none             none                             found: (Cons(_, _), Cons(_, _))
//! ```
//!
//! The first line has a complete signature, so each head has its part; that of `Nil` is not made
//! here, since that of `Cons` has an answer. The second line is the specialised matrix of `Cons`,
//! each one below it the default matrix of the one above. In the second and the third no row begins
//! with a head, so a wildcard is absent from the signature; the fourth has an incomplete
//! signature, `Nil` alone, from which `Cons(_, _)` is absent. The first two of these patterns become
//! the fields of the `Cons` that the first line takes apart. The search keeps what is left in a
//! list, so that it takes no deeper stack on wider or longer patterns, and makes the matrix of a
//! head when its turn comes, so that it does not hold one for each head. Unwanted rows are grouped
//! once by the heads that they begin with, so that the matrix of a head is made without a look at
//! those that begin with another, but for the head whose turn comes last: its matrix is made of all
//! rows, as is the one that is made where a wanted row begins with a head. Rows borrow their
//! patterns. Only patterns themselves are copied, compared, counted and dropped by recursion, to
//! their own depth.
//!
//! Which patterns are the first match of no value is not told by a search for each of them. The
//! patterns are searched whole for what they miss, a few times, with more of them each time: behind
//! those that miss nothing no pattern is reached. What the others miss, put in the place of a
//! pattern's wildcards, makes its probe, a pattern of few values, which most patterns before it do
//! not match at all; where a search for the probe finds a value, the pattern is reached. Only where
//! it finds none is the pattern itself searched.
//!
//! The answers of [`find`], [`exhaust`], [`unreached`] and [`common`] speak of all values of the
//! types. These calls, and [`absent_pattern`], need the types of a well numbered program, each of
//! which has a value; the patterns need not be typed. [`specialize`] and [`default_rows`] make the
//! two matrices of a matrix alone, and [`specialize_row`] and [`default_of_row`] what becomes of
//! one row. [`are_apart`] looks at two patterns alone, without types: it finds some of the pairs
//! that share no value, at once.
#![tactic(auto)]

mod apart;
pub mod coverage;
mod groups;
pub mod head_set;
pub mod heads;
mod index;
mod indexes;
pub mod matrix;
mod numbers;
mod open;
mod part;
mod passed;
mod positions;
mod probe;
mod problem;
mod row;
mod rows;
pub mod search;
pub mod signature;
pub mod specialization;
mod stack;
mod witness;

pub use apart::are_apart;
pub use coverage::{MatrixFault, common, exhaust, unreached};
pub use matrix::{Head, Matrix};
pub use search::find;
pub use signature::absent_pattern;
pub use specialization::{default_of_row, default_rows, specialize, specialize_row};
