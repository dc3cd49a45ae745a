//! Command lines, read as commands.
//!
//! The words of a command line spell one of eleven commands, as `run list.rib 100 4096 7`:
//!
//! ```text
//! word 1   run         the command
//! word 2   list.rib    FILE
//! word 3   100         CALLS, up to 1,000,000,000
//! word 4   4096        REGION, from 64 to 16,777,216
//! word 5   7           the first VALUE
//! ```
//!
//! They are read one after the other. A word that no command has at its place is at fault, and so is a
//! place at which a word is missing: of `run list.rib 100` that is word 4. So the answer to words that are
//! no command is a number, that of the first word at fault: the words before it begin some command, and
//! with it they begin none. A VALUE may be any word here: what it spells is asked once the file is accepted.
//!
//! The definition says how each command is written. That words are those of one command at most, and that
//! one word at most is at fault where they are of none, is a law of it ([`laws`]).
#![tactic(auto)]

pub mod command;
pub mod laws;
pub mod limits;
mod path;
