//! Code that does the same with fewer instructions.
//!
//! Code that is emitted part by part makes an address again for each field of a block, and makes
//! words that nothing reads. [`trim::trim`] leaves such instructions out. Take the two reads of a
//! list's block, whose pointer stands in bits 3 to 64 of slot 0, so that the address is the word
//! without its lowest bits:
//!
//! ```text
//! const 1 18446744073709551608
//! alu and 64 2 0 1
//! load 3 2 0 64
//! const 4 18446744073709551608
//! alu and 64 5 0 4
//! load 6 5 8 64
//! ```
//!
//! Before each instruction some *facts* are known (`fact`): behind the first, that slot 1 holds the
//! number. The fourth makes the same, so behind it slot 4 is known to hold the word of slot 1, and
//! behind the fifth slot 5 that of slot 2. What would read slot 5 reads slot 2, and since nothing
//! reads slots 4 and 5 then, the two instructions are *idle*. The rest gets new numbers,
//! instructions and slots:
//!
//! ```text
//! const 1 18446744073709551608
//! alu and 64 2 0 1
//! load 3 2 0 64
//! load 4 2 8 64
//! ```
//!
//! What an instruction makes is *told* by what is known (`telling`): all bits that a word can have
//! are the word itself, bits of bits are bits of the first word, bits of a number are a number, and
//! bits put over all that a slot can hold are all of it. So `const 4 0`, `take 5 2 2 62`,
//! `put 4 5 0 32` becomes `take 4 2 2 32`.
//!
//! A switch tells in each arm what its slot holds: behind `switch 3 - 0 5 1 7`, at the instruction
//! 5, slot 3 holds 0. So `const 2 0` there makes the word of slot 3, and what would read slot 2
//! reads slot 3.
//!
//! A word that is copied is made anew where that takes no memory. A load whose word is copied right
//! behind, and read by nothing else, makes it in the copy's slot (`giving`): `load 10 9 4 32`,
//! `copy 4 10` becomes `load 4 9 4 32`. A switch whose other way leads to a switch on the same word
//! has the arms of both (`folding`). A switch that cannot trap and all of whose ways return the
//! same words returns them (`returning`): where slot 3 has one bit, `switch 3 - 0 5 1 7` with
//! `return 3` at 5 and at 7 becomes `return 3`.
//!
//! A load is idle only where its word is known, since another one could be astray. A jump is idle
//! where all that stands between it and its target is left out. A jump to a jump goes where that
//! goes, and one to a return returns; a jump to which no run comes any more is left out.
//!
//! What is known and what is left out are *hints* (`hints`), which `guess` finds: what is known,
//! and which slots were written, by walks forward (`learning`), and what is read, by a walk back
//! (`choosing`). Nothing rests on their being right. `steps` walks through the body and tests each
//! instruction: what it reads is read there by the hints, what it writes has a new number of its
//! own, what is known at each place where the run goes on follows from what is known here, and what
//! is read there is read here, or written between. So a run of the new body goes along with one of
//! the old: the facts hold of the old slots, and each slot that is read from there on holds the
//! same word under its new number. A function whose hints fail stays as it is.
//!
//! That a slot is read is said by the number of the last line that reads it, and by at most twelve
//! slots at each place that no way from there on reads before it sets them anew. So all walks are
//! linear in the body, as at most twelve facts and twelve such slots are kept at a place: each
//! instruction, and each arm of a switch, is held against these.
#![tactic(auto)]

mod choosing;
mod fact;
mod fit;
mod folding;
mod giving;
mod guess;
mod hints;
mod knowing;
mod learning;
mod moving;
mod returning;
mod steps;
mod telling;
pub mod trim;
