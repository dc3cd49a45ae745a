//! Bits of numbers: ranges of bits in a word, numbers scattered over several ranges, and
//! little-endian bytes. No call takes memory or refuses: what it needs is a condition.
//!
//! Bits are counted from 0, the lowest. A range is its first bit and its length: of `0b1011_0110`
//! the range of 3 bits from bit 4 on holds 3, and with 4 put there the word is `0b1100_0110`.
//!
//! A number may be scattered over several ranges. Of 13, which is `0b1101`, one slice puts bits 0
//! and 1 at bit 0 of a word, another bits 2 and 3 at bit 5:
//!
//! ```text
//! bit of the word      7  6  5  4  3  2  1  0
//! bit of the number    .  3  2  .  .  .  1  0
//! the word             0  1  1  0  0  0  0  1
//! ```
//!
//! To gather is the way back: it takes each range from the word and puts it at its place in the
//! number. Where no two slices share a bit, to gather what was scattered gives the number's bits
//! that the slices name, and 0 in the others.
#![tactic(auto)]

pub mod laws;
pub mod little_endian;
pub mod slices;
pub mod words;

pub use little_endian::{load_le, store_le};
pub use slices::{Slice, gather, scatter};
pub use words::{mask, put, take};
