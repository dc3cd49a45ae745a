//! The text of layouts: what a layout comes to, bit by bit, for those who wrote it.
//!
//! A layout is written with paths, inlined fields and nested blocks. Its text shows the flat form, leaf
//! by leaf: the values that the leaf holds, what the splits on the way to it ask, and what stands in
//! each bit of its words and blocks. Take a list whose first word is a tag and a pointer to a block with
//! the item and the rest; its longer leaf is shown as
//!
//! ```text
//! leaf Cons(_, _)
//! when 0[0:1] = 0
//! word 0: 64 bits
//!   0:1 = 0
//!   1:2 free
//!   3:61 pointer to block 0
//! block 0: 16 bytes, align 8
//! word 0 at byte 0: 64 bits
//!   0:64 field .0 bits 0:64
//! word 1 at byte 8: 64 bits
//!   0:64 field .1 word 0
//! ```
//!
//! First the tree of splits is gone over once, with the lines of the conditions so far: that gives each
//! leaf's number with the lines of its own conditions. Then each leaf is written. The lines of a word go
//! from bit to bit: at each stand the parts that begin there, or the range of free bits that does. A word
//! has at most 64 bits, so the work is in proportion to the text.
//!
//! [`refusal::show_refusal`] says why layouts are refused, as `layout of T: A4: leaf C(_): alignment 3`.
#![tactic(auto)]

mod condition;
mod evidence;
mod free;
pub mod laws;
mod leaf;
pub mod location;
mod piece;
pub mod refusal;
pub mod show;
mod ways;
mod word;

pub use show::show_layouts;
