//! Layouts that are derived for types, and which types cannot be packed.
//!
//! They hold what is derived for a type against layouts that were worked out by hand from the rules, part by part, and
//! have the types that cannot be packed: those that hold themselves, and those of one bit too many. The layout of a
//! type is compared with one that was written out by hand, here of numbers in packed words:
//!
//! ```text
//! type Rgb = Gray(u8) | Full(u5, u6, u5);
//! layout Rgb <17> = split 0[0:1] {
//!     0 => Gray(_) : { word 17 { [0:1] = 0, [1:8] .0 } }
//!     1 => Full(_, _, _) : { word 17 { [0:1] = 1, [1:5] .0, [6:6] .1, [12:5] .2 } }
//! };
//! ```

mod parts;
mod refusals;
mod types;
