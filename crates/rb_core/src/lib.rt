//! The core of Ribbit: programs, the values they compute, and what both mean.
//!
//! Every crate above stands on these types and on the definitions of `specs/`: values, matching,
//! typing and the source meaning. No layout and no memory occurs in a meaning. Take
//!
//! ```text
//! type List = Nil | Cons(u8, List);
//! fun next(list: List): u8 = match list { Nil => 0, Cons(x, _) => add(x, 1) };
//! ```
//!
//! Names are numbers in a program: `List` is type 0, `Cons` constructor 1 of it, `next` function 0,
//! and a variable is known by the number of its binder. A call of `next` with `Cons(7, Nil)` and 3
//! calls left takes one of these. Its match is an event, `Matched` with the function and the
//! match's own token. The first clause that matches is the second, which binds `x` to 7; the sum is
//! one of 8 bits, since that is the type of `x`. So the outcome ends as `Done` with 8 and 2 calls
//! left. With no call left it has no event, and ends as `Spent`. A construction is an event too,
//! `Built` with its type and its value, behind the events of its arguments.
//!
//! A program is typed where each of its data types has a value and each expression fits the type
//! that is wanted of it (`specs/TypedPrograms.antt`, `specs/Typing.antt`), and covered where each
//! match has a clause for every value (`specs/Coverage.antt`): [`typed`] keeps such programs.
//! [`eval::eval`] computes a meaning, for tests. [`scope`] finds the type of a variable. [`text`] and
//! [`pattern_text`] add names, types and patterns to a text.
#![tactic(auto)]

pub mod binding;
pub mod boxed;
pub mod constructors;
pub mod copying;
pub mod decimal;
mod environment;
pub mod eval;
pub mod expression;
pub mod inference;
pub mod laws;
pub mod layout_decl;
pub mod layout_items;
pub mod limits;
pub mod matching;
pub mod operators;
pub mod outcome;
pub mod pattern;
pub mod pattern_text;
pub mod program;
pub mod scope;
pub mod seq;
pub mod site;
pub mod text;
pub mod typed;
pub mod types;
pub mod typing;
pub mod typing_laws;
pub mod value;
