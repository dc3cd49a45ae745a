//! Rows of commands: words, codes, operators, generated files, the examples, files that are refused, what matches miss,
//! and an outside that fails. It has tests alone.
//!
//! The definitions by which the contracts say what a command answers could themselves be wrong, so the rows have
//! answers from elsewhere: the operators at widths from 1 to 64 bits those of Python's integers, words and codes those
//! of the language's tables, a generated file those that were counted by hand. A row of the operators is a body, the
//! width of its parameters and that of its result, two arguments, and what `run` gives:
//!
//! ```text
//! add(x, y)|7|7|127|15|14
//! ```
//!
//! The answers to files were worked out from the language's pages, the bytes counted by hand: each refusal with its
//! text and its status, for `check`, `layout` and `run`, each limit at its number and one over, and clauses that no
//! value reaches. A row is a file, a `~`, and its answer: the status, and what is written.
//!
//! ```text
//! type T = A | A; fun main(): u8 = 0;~2 ribbit: name A twice at byte 13;
//! ```
#![tactic(auto)]

#[cfg(test)]
mod codes;
#[cfg(test)]
mod examples;
#[cfg(test)]
mod files;
#[cfg(test)]
mod generated;
#[cfg(test)]
mod matches;
#[cfg(test)]
mod operators;
#[cfg(test)]
mod outside;
#[cfg(test)]
mod words;
