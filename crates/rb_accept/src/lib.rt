//! What stands before a run: a file is read within its limit and accepted, the VALUEs are read as arguments
//! of its `main`, and an image is read after it. Or the first step that refuses gives the answer.
//!
//! A file goes through the steps in this order, each over what the one before it gave:
//!
//! ```text
//! bytes      at most 262,144           else status 7 or 11
//! tokens     longest pieces            else 1, at a byte
//! tree       of the whole grammar      else 1 or 11, at a token
//! program    names are numbers         else 2, at a token
//! layouts    those left are derived    else 3, once types and matches are right
//! types      of all expressions        else 2, at a token
//! matches    exhaustive, with notes    else 2, with a pattern that is missed
//! flat forms the ten rules hold        else 3, by rule, type and leaf
//! ```
//!
//! Take this file, which is accepted:
//!
//! ```text
//! type Shape = Dot | Square(u8);
//! layout Shape = packed;
//! fun main(s: Shape): u8 = match s { Dot => 0, Square(n) => n };
//! ```
//!
//! Its tokens are `type`, `Shape`, `=` and so on, each with its byte; they spell a tree of three items. In
//! the program `Shape` is type 0 and `main` function 0; a layout of one word is derived for the type; the
//! body is of type `u8`, as is asked; the match has a clause for each value; and the leaves of the layout
//! obey the rules. With one part of the file written otherwise, a step refuses it, and no later one sees it:
//!
//! ```text
//! tokens      Dot => 07             bad byte at byte 97
//! tree        Square(n) => n;       syntax at byte 113
//! program     Square(n) => m        unknown name m at byte 112
//! layouts     u64 for both u8       layout of Shape: packed: 65 bits
//! types       Square(n) => s        wanted u8, found Shape at byte 112
//! matches     no clause of Dot      match at byte 79 misses Dot
//! flat forms  no leaf of Dot        layout of Shape: A5: no leaf for Dot
//! ```
//!
//! A layout that cannot be derived waits: the program without it is typed and covered first, so that the
//! answer to a file with faults of both kinds is the one in the types.
//!
//! The definitions say when a file is accepted, and by which step it is refused, without the code: by the
//! tokens of its bytes, the tree of its tokens, the program of its tree. A text has at most one of each, so a
//! text that is accepted has one program and is refused by no step ([`laws`]).
#![tactic(auto)]

pub mod accepting;
pub mod arguments;
pub mod laws;
pub mod opening;
pub mod reading;
pub mod refusal;
