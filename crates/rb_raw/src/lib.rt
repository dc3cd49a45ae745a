//! A memory that tests nothing, over bytes that are never initialised.
//!
//! A region of 80 bytes is 80 places for bytes, of which none is written when the region is made, and
//! 80 marks, all clear. Placing 8 bytes at a multiple of 8 marks byte 64 as a block's first and byte
//! 71 as its last; placing 1 byte marks byte 72 as both. The marks spell the blocks, here (64, 8) and
//! (72, 1), so that what was placed can be read off the region alone:
//!
//! ```text
//! address    64  65  66  67  68  69  70  71  72  73 ..
//! mark     first   .   .   .   .   .   . last  both   .
//! ```
//!
//! A load and a store look at no mark. They rest on a caller who knows that the bytes lie within a
//! block and, for a load, that each was written: the contract asks for it, and nothing is left to test.
//!
//! The places are the kit's `core::slots`, which owns the pointer. `RawBytes` adds to them what
//! contracts need and code doesn't: `Written` says of each byte whether it was written, and takes no
//! memory.
#![tactic(auto)]

mod bytes;
pub mod memory;
mod written;
