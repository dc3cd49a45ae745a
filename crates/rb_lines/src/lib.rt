//! The lines that the program prints: refusals, faults, notes, words and images, with their statuses, and how
//! a text is delivered.
//!
//! What is due to a command line is a text for the output, or a [`status`] by its name with one line for the
//! error output, which together are a [`refusal`]. A file whose match misses a pattern has status 2, and this
//! line:
//!
//! ```text
//! ribbit: match at byte 71 misses Cons(_, Nil)
//! ```
//!
//! A line is said twice. In `specs/` it is a list of bytes put together of texts and of numbers in decimal
//! digits, `line (named_line (codes "match at byte ") ++ decimal at ++ ..)`. In the code it is formatted where it
//! has numbers alone, `format!(in alloc; "ribbit: calls spent: {calls}\n")`, and else a text that grows at its
//! end: [`line::begin`] writes the program's name, `push` and `push_number` of `rb_core` go on, and
//! [`line::end`] ends it. Each function's contract says that its bytes are those of the definition.
//!
//! There is a file for each subject: [`fault`] has the lines of texts, limits and names, [`types`],
//! [`pattern`], [`derived`], [`argument`] and [`image`] those that their names say, [`note`] those of clauses
//! that no value reaches, and [`line`] those of no subject of their own. [`image_text`] writes images. A
//! token's [`place`] is the byte at which it begins.
//!
//! The exit status of a [`status`] stands beside its name, and the numbers of faults in the lines in `numbers`.
//! [`delivery`] writes the text or the line, and gives the exit status.
#![tactic(auto)]

pub mod argument;
pub mod delivery;
pub mod derived;
pub mod fault;
pub mod image;
pub mod image_text;
pub mod line;
pub mod note;
mod numbers;
pub mod pattern;
pub mod place;
pub mod refusal;
pub mod status;
pub mod types;
