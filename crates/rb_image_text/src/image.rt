//! Images of a part of a memory.
//!
//! A root word is one of the words of the value; it is in no block. Pointers in root words or in
//! blocks lead to blocks by their addresses.

use rb_bytes::memory::MOST_BLOCK;
use rb_core::seq::Seq;

/// The most bytes of a block, as many as a block of a memory has at most.
pub const MOST_BLOCK_BYTES: usize = MOST_BLOCK as usize;

/// A block of an image: its address in bytes, and its bytes, all of them written.
#[derive(Drop)]
pub struct ImageBlock {
    pub at: u64,
    pub bytes: Seq<u8>,
}

/// The words of a value, and the blocks of the memory in which it stands.
#[derive(Drop)]
pub struct Image {
    pub root: Seq<u64>,
    pub blocks: Seq<ImageBlock>,
}
