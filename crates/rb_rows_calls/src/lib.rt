//! Whole calls of the program, for rows of tests: a command line and a file in memory, and what was
//! answered. The crates of rows stand on it. It has no tests of its own, and no contracts: what it says of
//! an answer is what the tests look at.
//!
//! ```text
//! expect_answer(alloc, "run E 1 64 250 2", b"fun main(x: u8, y: u8): u8 = add(x, y);", "0 252;")?;
//! ```
#![tactic(auto)]

pub mod answers;
pub mod call;
pub mod counts;
pub mod rows;
pub mod surprise;
