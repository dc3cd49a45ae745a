//! Words of values: a value is encoded into words and blocks of a memory, and words are decoded to
//! the value that they represent, over any layouts that agree with their types.
//!
//! Take a list whose tag is the lowest bit of a pointer, and whose items lie behind it:
//!
//! ```text
//! type List = Nil | Cons(u64, List);
//! 1 => Nil        : { word 64 { [0:1] = 1 } }
//! 0 => Cons(_, _) : { word 64 { [0:1] = 0, [3:61] -> 8 { word 64 { [0:64] .0 }, inline .1 } } }
//! ```
//!
//! `Cons(1, Cons(2, Nil))` is five nodes in post-order: `1`, `2`, `Nil`, `Cons(2, Nil)` and the
//! whole. Encoding finds the type of each node in one pass from the last to the first, since a
//! construction stands behind its fields, and then gives each node its words in one pass from the
//! first to the last. `Nil` is the word 1. `Cons(2, Nil)` asks for a block of 16 bytes, which is
//! placed at 64 and filled with the words of its fields, 2 and 1; its own word is 64. The whole has
//! a block at 80 and the word 80. So the blocks are those that the constructions ask for, inner
//! before outer and from left to right, and where one doesn't fit, those before it are placed.
//!
//! A field that a leaf has taken apart, as the color of a red node whose leaf is for red nodes
//! alone, is encoded like any other node, and its words are not looked at.
//!
//! Decoding goes from the outside in. The splits of the layout, read on the word 80, lead to the
//! leaf of `Cons`. Its blocks are loaded from the last to the first, since what points to a block
//! stands in the root words or in a block behind it, and the words of each field are gathered from
//! the parts. This leaves a list of things to do, of which the last is done first: a `Cons` of the
//! last two values, the word 64 at `List`, the word 1 at `u64`. Each is at least one node of the
//! value, so decoding stops as soon as there are more than the limit leaves, however often the
//! value shares a block.
//!
//! Nothing recurs on a value. Where the nodes of a field stand is told by the sizes of the nodes,
//! since those of the last field stand right before the construction, and those of each field
//! before them.
//!
//! [`bits`], [`lookup`] and [`splits::under`] are public for readers of words that come by them
//! otherwise.
#![tactic(auto)]

pub mod bits;
mod blocks;
pub mod decode;
pub mod encode;
pub mod fault;
mod gather;
mod leaf;
mod loading;
pub mod lookup;
mod node;
mod pack;
mod plan;
mod posts;
pub mod splits;
mod table;
mod todo;
