//! What emitted code owes to the source, and what is made of code that keeps its promises.
//!
//! A function that emits code says two things of it. *What was appended* is a record of its own
//! (`Adds`): instructions and slots are added behind the old ones, each new slot is written by some
//! instruction, each new instruction is fitting, so that the finished function is valid. *What it
//! does* speaks of any finished code that has the new one, of any function that goes on from an
//! instruction (`Law`), and of any calls: so it stays true whatever is appended, patched or called
//! later. Three records say it:
//!
//! - `CodePiece` for code that places nothing and calls nothing: from its first instruction, where
//!   a condition holds, the run comes to a way out with another condition, with at most so many
//!   switches, and with the first n slots kept. `Branches` is the same with many ways out, whose
//!   targets may still be open: jumps, or arms of the switches themselves.
//! - `Fragment` for code that does what the source does, with calls and blocks: where the blocks of
//!   the source's log fit, the run comes to its end with the value, and with exactly these blocks
//!   more in memory; else it ends as `Full` with the first request that does not fit; and it ends as
//!   `Spent` where the source does (`Does`). `Emits` and `Applies` are fragments over variables, and
//!   over values that are held.
//! - `CodeArm` for one arm of a match, which ends in an open jump.
//!
//! The lemmas of `proofs/` compose them as the source composes. Take `let x = f(a); add(x, 1)`: the
//! call is an `Applies`, whose result is in new slots, say 3; the sum is one instruction that writes
//! slot 4. `seq` puts the second behind the first: whatever early ends the call has, spent or full,
//! are ends of both, and the blocks and the switches add up. Nothing is said twice, and no lemma
//! looks into code: the recursion of the function that emits is the induction.
#![tactic(auto)]

mod address;
pub mod emit;
pub mod held;
pub mod join;
pub mod laws;
pub mod make;
pub mod patch;
pub mod reads;
pub mod slots;
