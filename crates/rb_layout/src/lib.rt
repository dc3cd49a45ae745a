//! Layouts in flat form: how the leaves of a written layout become words with parts, where a
//! location leads in them, which bits are known there and which numbers never stand there, and what
//! it means that a layout agrees with its type.
//!
//! A layout is written as a tree of splits over leaves, each leaf with its words, and with blocks
//! written in the place of the pointers to them. Flattening takes the writing apart. Take a list
//! whose first word is a tag and a pointer to a block with the item and the rest:
//!
//! ```text
//! Cons(_, _) : { word 64 { [0:1] = 0, [3:61] -> 8 { word 64 { [0:64] .0 }, inline .1 } } }
//! ```
//!
//! Its flat leaf has one root word with the parts `0:1 = 0` and `3:61 pointer to block 0`, and
//! block 0 has two words: one with bits 0 up to 64 of field `.0`, one with word 0 of field `.1`.
//! Inner blocks have lower numbers than the blocks that point to them, so who builds them in the
//! order of their numbers has each address when it is needed.
//!
//! `opens::opens` lists the open positions of a provenance, here `.0` and `.1`, each with its type.
#![tactic(auto)]

pub mod agreed;
mod barring;
pub mod decls;
pub mod evidence;
pub mod exclude;
mod finding;
pub mod flat_layouts;
mod flat_leaf;
mod flat_tree;
mod goals;
pub mod graphs;
pub mod known;
pub mod laws;
pub mod layout;
pub mod locate;
pub mod numbers;
pub mod opens;
mod part_goals;
pub mod paths;
pub mod positions;
mod settling;
pub mod sizes;

pub use agreed::Agreed;
pub use exclude::excludes;
pub use flat_layouts::flatten;
pub use known::known_bits;
pub use locate::resolve_loc;
pub use sizes::block_size;
