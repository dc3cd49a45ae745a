//! Code that constructs a value, against the source's construction.
//!
//! `construct` of `rb_fetch` appends code that makes the value of a constructor from its fields: it chooses the
//! leaf of the value, composes the leaf's words, and places and fills its blocks. Here this is said against the
//! source. [`build::emit_build`] does what the source's construction does: its one event is that the value is
//! built. Where the blocks of the event fit, the memory has exactly these more, in their order and with their
//! sizes, and new slots represent the value as cleanly as the fields are; else the first that does not fit is
//! asked for in vain. The event pays for the switches that choose the leaf.
//!
//! Take colours and trees, where the colour of a node stands in the two low bits of a pointer:
//!
//! ```text
//! layout Tree <64> = split 0[0:2] {
//!     0 => Empty               : { word 64 { [0:64] = 0 } }
//!     1 => Node(Red, _, _, _)   : { word 64 { [0:2] = 1, [3:61] -> 8 {
//!         inline .1, inline .3, word 32 { [0:32] .2 } } } }
//!     2 => Node(Black, _, _, _) : { word 64 { [0:2] = 2, [3:61] -> 8 {
//!         inline .1, inline .3, word 32 { [0:32] .2 } } } }
//! }
//! ```
//!
//! A construction by `Empty` is one `const`. A construction by `Node` has to know its colour: one switch on the
//! word of its first field leads to the code of either leaf, which places a block of 20 bytes, fills it, and
//! composes the word of its address and its tag. Both ways meet behind.
//!
//! Where the file has `Node(Red, ..)`, the colour is known when the code is written. The caller shows it, as a
//! pattern that the field's value matches, and a wildcard for a field of which nothing is known. Then there is the
//! code of the red leaf alone, with no switch. What is promised is promised of fields that match what is shown of
//! them.
#![tactic(auto)]

pub mod build;
