//! Where reading stands between two bytes of a text.
//!
//! A text has a first line, `root` with the root words, each behind a blank and `0x`; and then a
//! line for each block: `block`, its address and its size in decimal, and its bytes, each as two
//! hexadecimal digits. `Move` tells what a byte does at a spot.

use crate::image::ImageBlock;

/// Where reading stands between two bytes.
#[derive(Drop)]
pub enum Spot {
    /// Within the word `root`: how many of its bytes are read.
    Root(usize),
    /// Before a root word: how many bytes of `0x` are read.
    Prefix(usize),
    /// Behind digits of a root word: their number.
    Word(u64),
    /// In a line from its beginning on, where a text may end: how many bytes of `block ` are read.
    Line(usize),
    /// Behind digits of an address: their number.
    Address(u64),
    /// Before the size of a block with this address.
    Sizing(u64),
    /// Behind digits of a size: the address, and the digits' number.
    Size(u64, usize),
    /// Behind whole bytes of a block, and the size that it is to have.
    Bytes(ImageBlock, usize),
    /// Behind the upper half of a byte: the block before it, its size, and that half.
    Half(ImageBlock, usize, u8),
}

/// What one byte more does at a spot.
#[derive(Drop)]
pub enum Move {
    /// Reading stands there, and neither a root word nor a block is made whole.
    To(Spot),
    /// A root word is whole.
    Word(u64, Spot),
    /// A block is whole.
    Block(ImageBlock),
    /// No text goes on so.
    Refused,
}
