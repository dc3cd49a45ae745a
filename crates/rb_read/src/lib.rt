//! Reads files: from tokens to the tree that they spell, or the first token at fault.
//!
//! Each form has a reader, which takes the form's tokens from the front and hands on those behind.
//! What is read is known by its first token, so no reader goes back. That of an operation, at
//! `add(x, 1) in y`:
//!
//! ```text
//! add          the operation, at one level
//! (            expected
//! x            an expression, with one level fewer left
//! ,            expected
//! 1            an expression, with one level fewer left
//! )            expected
//! in y         handed on
//! ```
//!
//! A reader that stops gives the number of tokens from the one at fault on, since it knows what is
//! left and not what came before; the place in the file is that number from the end. It stops where
//! nothing goes on with a token, or where a token begins a node and no level is left: readers call
//! each other no deeper than that. A file that ends too early is at fault behind its last token.
//!
//! The definition of a file is not these readers, which stand in `specs/inner`, but its spelling:
//! the tree is the one whose tokens these are, and a token is at fault if the tokens before it
//! begin some file and no file goes on with it. Only a file that is spelled is counted: its types,
//! its functions, and what each of its items has, against the limits.
#![tactic(auto)]

mod beyond;
mod each;
mod expression;
pub mod fault;
mod item;
mod layout;
mod leaf;
pub mod limits;
mod list;
mod location;
mod pattern;
mod provenance;
pub mod read;
mod starting;
mod stop;
mod tokens;
mod types;
