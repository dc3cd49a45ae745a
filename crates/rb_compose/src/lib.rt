//! Code that makes the values of one leaf of a layout, of the subvalues at its open positions: its words
//! composed, and its blocks placed and filled.
//!
//! A layout says where each bit of a value stands. Take a list whose tag is the lowest bit of a pointer:
//!
//! ```text
//! split 0[0:1] {
//!     1 => Nil        : { word 64 { [0:1] = 1 } }
//!     0 => Cons(_, _) : { word 64 { [0:1] = 0, [3:61] -> 8 { word 64 { [0:64] .0 }, inline .1 } } }
//! }
//! ```
//!
//! [`leaf::emit_leaf`] of the leaf of `Cons`, where slot 0 holds the number and slot 1 the list, appends
//!
//! ```text
//! place 2 16 8         a block of 16 bytes at a multiple of 8; its address in slot 2
//! store 2 0 64 0       the number, at byte 0
//! store 2 8 64 1       the list, at byte 8
//! copy 3 2             the word of the value: the address, whose lowest bit is the tag already
//! ```
//!
//! and of the leaf of `Nil` only `const 2 1`. In general:
//!
//! - **A word** begins as its constants, and the other parts are added one by one. Some stand in a slot as they are to
//!   stand in the word: an address whose alignment is the bit at which its part begins, a number or a word of a field
//!   from bit 0 on. One `or` sets such a part beside the others. Where all constants are 0 the word begins as its first
//!   other part (`begin.rt`): as the slot that holds it in its place, by one `take` where it is bits of a number that
//!   are to stand from bit 0 on, and else as a zero. The rest is put over: slices of numbers, words of data fields,
//!   addresses by their alignment; what stands at bit 0 of a slot needs no `take` (`word.rt`). A word that is a field's
//!   word whole is no code at all where it is stored, and a `copy` among the value's own words, which have new slots.
//!   All bits outside parts are 0: the value is as clean as its fields.
//! - **Blocks** are placed by number, inner ones before the outer ones that point to them, so that each address
//!   is known when it is put into a word. Every word of a block is stored, also one without parts, so that each
//!   byte is written (`block.rt`).
//!
//! The subvalues are looked up by their positions, which may be of any length: a leaf for `Node(Red, _, _, _)`
//! needs those at the fields 1, 2 and 3 alone, and one for `P(Q(_, A), _)` those at 0.0 and 1. Which leaf it is
//! to be is not decided here.
//!
//! What the code does is said of any value of the leaf: it places exactly the value's blocks, in their order and
//! with their sizes, or asks in vain for the first that does not fit. The proof has two halves. The machine's side
//! composes numbers, instruction by instruction, whatever they are. Where all blocks fit, each of these numbers is
//! the one that `rb_rel` packs of the same parts, and its lemma on one layer of a value says that these words in
//! this memory represent the value.
#![tactic(auto)]

mod begin;
mod block;
pub mod count;
pub mod leaf;
pub mod subvalue;
mod word;
