//! The machine: runs code over any memory, without recursion.
//!
//! The calls that wait and the current one keep their slots on one stack, one behind the other.
//! Take
//!
//! ```text
//! fun main 1 1 2        fun next 1 1 2
//! call 1 1 of 0         const 1 1
//! alu add 64 1 1 1      alu add 64 1 0 1
//! return 1              return 1
//! end                   end
//! ```
//!
//! `main` of 20 goes so, where a bar stands before the slots of the current call:
//!
//! ```text
//! the stack         what comes next
//! | 20 0            the call: it takes one of the calls left, and `main` waits at instruction 0
//! 20 0 | 20 0       a stretch of two instructions, up to the return
//! 20 0 | 20 21      the return: its word goes to slot 1 of `main`, as the call says
//! | 20 21           a stretch of one instruction, up to the return
//! | 20 42           the return, with which the run ends
//! ```
//!
//! A stretch of instructions of one function is run over its slots alone, which are a slice; only
//! at a call or a return is another function's body looked up. One step is ticked for each
//! instruction that is begun, here six.
#![tactic(auto)]

mod alu;
mod calls;
pub mod run;
mod state;
mod step;
mod stretch;
mod turn;
