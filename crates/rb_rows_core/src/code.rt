//! Code: its texts, bodies that grow, code that reads locations, and what the machine does.
//!
//! What the contracts of `rb_target` and `rb_machine` say of texts, bodies and runs, the rows hold against the table of
//! instructions, worked out by hand: texts that are spelled back as they stand, the byte at which others stop, the
//! slots of a body that grows, and calls that nest 200,000 deep, since a proof bounds no stack; and, which no contract
//! says, in which slot and after how many instructions of `rb_fetch` bits at a location stand. A row is a text and the
//! byte at which it stops, none where it is code: here the first letter with which no instruction goes on.
//!
//! ```text
//! (b"fun t 0 0 0\njumb", Some(15)),
//! ```

mod growing;
mod locations;
mod runs;
mod texts;
