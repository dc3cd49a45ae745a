//! Layouts that are left to the compiler: `layout T = boxed;` and `layout T = packed;`. A program
//! agrees where its layouts obey the rules A1 to A10, so that each value has one leaf, which splits
//! can find in its words, and the words of a leaf hold just what its pattern leaves open.
//!
//! Either is one word that begins with a tag, the number of the constructor. A boxed type's tag has 8
//! bits, and behind it stands a pointer to a block with the words of the fields. A packed type's tag has
//! as few bits as tell its constructors apart, and the words of the fields stand behind it without a
//! gap. Take `type Rgb = Gray(u8) | Full(u5, u6, u5)`. Packed, its layout is
//!
//! ```text
//! layout Rgb <17> = split 0[0:1] {
//!     0 => Gray(_) : { word 17 { [0:1] = 0, [1:8] .0 } }
//!     1 => Full(_, _, _) : { word 17 { [0:1] = 1, [1:5] .0, [6:6] .1, [12:5] .2 } }
//! };
//! ```
//!
//! [`rooms::find_rooms`] says for each type how wide its word is, and [`answer::derive`] derives a layout.
//! [`laws`] says that derived layouts obey the rules of agreement in the program that they complete, and
//! when such a program agrees.
#![tactic(auto)]

pub mod answer;
mod derived;
mod fault;
pub mod field_words;
pub mod form;
mod items;
pub mod laws;
mod recursion;
pub mod room;
pub mod rooms;

pub use answer::{derive, derive_by};
pub use fault::AutoFault;
