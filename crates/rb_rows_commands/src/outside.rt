//! An outside that fails, a table for each command.
//!
//! A row is a call where nothing fails: words, a file, the status, the text, and the steps. For each row the calls of
//! the source, the writes of the sinks and their rooms fail in turn, at three sizes of pieces, each time with the
//! status, the texts and the steps that the rules of delivery ask for, worked out from the row alone.
//!
//! ```text
//! (
//!     "check E",
//!     b"fun main(x: u1): u8 = match x { 0 => 5 };",
//!     2,
//!     b"ribbit: match at byte 22 misses 1\n",
//!     Some(0),
//! ),
//! ```

mod call;
mod files;
mod generated;
mod long;
mod pieces;
mod runs;
mod table;
mod values;
