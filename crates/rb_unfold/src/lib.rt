//! A flat leaf, unfolded along its pointers, gives back what is written.
//!
//! A leaf is written with its blocks inside it, each where the pointer to it stands. Take the longer
//! leaf of a list, whose first word is a tag and a pointer to a block with the item and the rest:
//!
//! ```text
//! 0 => Cons(_, _) : { word 64 { [0:1] = 0, [3:61] -> 8 { word 64 { [0:64] .0 }, inline .1 } } }
//! ```
//!
//! Its flat form has the blocks in a list beside the root words, and a pointer has the number of its
//! block in place of the block:
//!
//! ```text
//! root     word of 64 bits    0:1 = 0
//!                             3:61 pointer to block 0
//! block 0  word of 64 bits    0:64 field .0 from bit 0
//!          word of 64 bits    0:64 field .1 word 0
//! ```
//!
//! To unfold it, go over the root words, and over each word's parts from left to right. At a pointer go
//! over the words of its block first, and then on to the next part:
//!
//! ```text
//! a word of 64 bits begins
//!   it has 0:1 = 0
//!   it has 3:61, a pointer that counts 8 bytes
//!   the block opens
//!     a word of 64 bits begins
//!       it has 0:64 field .0 from bit 0
//!     a word of 64 bits begins
//!       it has 0:64 field .1 word 0
//!   the block closes
//! ```
//!
//! That is the leaf as it is written, word by word and part by part, with each path looked up, and with
//! `inline .1` as the words of the field. The law says so of every leaf.
//!
//! Two laws of `rb_layout` say less: that the parts of a flat leaf are those that are written
//! (`each_stands_once`), and that each pointer has a block of its alignment (`leaves_are_flat`). Where two
//! pointers count the same bytes, their blocks could be swapped, or a word of one block could stand in the
//! other, and both would hold.
#![tactic(auto)]

ghost use Rattle.rb_unfold.specs.Unfolding.{UnfoldingGivesBack};

/// What is seen of a flat leaf along its pointers is what is written of it.
pub fn unfolding_gives_back_what_is_written()
    ensures { UnfoldingGivesBack }
{}
