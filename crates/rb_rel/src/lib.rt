//! Which words represent a value in a memory: what layouts mean.
//!
//! Take a list whose tag is the lowest bit of a pointer, and whose items lie behind it:
//!
//! ```text
//! type List = Nil | Cons(u64, List);
//! 1 => Nil        : { word 64 { [0:1] = 1 } }
//! 0 => Cons(_, _) : { word 64 { [0:1] = 0, [3:61] -> 8 { word 64 { [0:64] .0 }, inline .1 } } }
//! ```
//!
//! `Cons(1, Cons(2, Nil))` is represented by the word 80 in a memory with two blocks of two words:
//! at address 64 the words 2 and 1, and at address 80 the words 1 and 64. Its leaf is the second,
//! since that provenance matches. Bit 0 of 80 is 0, as the constant says; bits 3 up to 64 are 10,
//! and 10 times 8 is 80, where there is a block of 16 bytes. Its first word is the number 1. Its
//! second is the word 64, which represents `Cons(2, Nil)` in the same way, and there the second
//! word, 1, represents `Nil`. Bits 1 and 2 stand in no part. They may be anything, but in a clean
//! representation they are 0.
//!
//! The relation says of a value, leaf by leaf, which bits it has, and names no order in which
//! anything is looked at. `specs/Relation.antt` has it. `specs/Reading.antt` says what is read at a location of
//! words and to which leaf splits lead, `specs/Placing.antt` which blocks constructions ask for and
//! where they are placed, `specs/Storing.antt` which numbers parts have to hold and what a memory is
//! with more blocks, `specs/Provenances.antt` whether a pattern is of a type, `specs/Answers.antt`
//! what a program's run answers under limits, and `specs/Switches.antt` how many switches it takes to
//! look at values.
//!
//! The laws stand in [`laws`]. In layouts that agree, words in a good memory represent one value at
//! most of each type, and the splits read on them lead to its leaf; what they represent at a type
//! is of that type; and every value whose blocks fit has a clean representation, as have several
//! one behind the other. In any layouts, a location of the leaf reads the bits there, what
//! represents a value goes on doing so while the memory grows, and a clean representation is a
//! representation. One law is about the numbers of switches: where layouts agree, those of mending
//! are counted in full, however deep types are flattened into one another.
#![tactic(auto)]

pub mod laws;
pub mod words;
