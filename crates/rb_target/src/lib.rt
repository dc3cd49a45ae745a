//! The target of the compiler: its instructions, what code means over any memory, and code that
//! grows.
//!
//! A function has slots of 64 bits, numbered from 0: the first hold its parameters, the others
//! begin as 0. Jumps and switches lead to later instructions only, so nothing but a call repeats.
//! Functions whose slots, targets and calls fit together are `Code`; what a call of one does, over
//! any memory and with any number of calls left, is `run_of` of `specs/Meaning.antt`. As text each
//! instruction is a line:
//!
//! ```text
//! fun larger 2 1 3
//! alu lt 64 2 0 1
//! switch 2 - 0 2 1 3
//! return 0
//! return 1
//! end
//! ```
//!
//! `larger` has 2 parameters, 1 result and 3 slots. Instruction 0 sets slot 2 to 1 where slot 0 is
//! below slot 1, and else to 0. Instruction 1 goes on at instruction 2 where slot 2 holds 0 and at
//! instruction 3 where it holds 1; the `-` says that it leads nowhere else. `spell_code` writes
//! such texts, one for each code, and `read_code` reads those of valid code and no others. A
//! compiler makes the function by a `Body`: `new` with 2 parameters, `fresh` for slot 2, `push` for
//! each instruction, with targets that are still open (a `Hole` each) set by `patch` as soon as
//! their instruction is there, and `finish`.
#![tactic(auto)]

pub mod body;
pub mod check;
pub mod code;
pub mod fault;
pub mod instr;
pub mod laws;
pub mod outcome;
pub mod read;
pub mod spell;
pub mod word;
