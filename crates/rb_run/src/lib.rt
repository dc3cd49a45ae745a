//! Whole runs of a program: its arguments are encoded, `main` is run, and what it returns is
//! decoded.
//!
//! Take a program that reverses a list, and the argument `Cons(1, Cons(2, Nil))` in the layout
//! where a cell is a block of 16 bytes. [`call::call_main`] first encodes the argument: its two
//! cells are placed at 64 and 80, and its word is 80. Then it runs the code of `main` on this word,
//! which places two cells more, at 96 and 112, and returns the word 112. [`answer::answer_main`]
//! decodes this word to `Cons(2, Cons(1, Nil))`, and [`count::count_main`] says beside it what the
//! run did: so many calls, four blocks, and 64 bytes.
//!
//! Nothing of the layout is left in what is promised: the answer is that of the source's meaning,
//! and where a block does not fit, it is the first of all that the arguments and then the call ask
//! for. That follows from three facts: encoding places just the blocks that the arguments ask for,
//! the code refines the program from any good memory, and words represent one value.
#![tactic(auto)]

pub mod answer;
pub mod call;
pub mod count;
