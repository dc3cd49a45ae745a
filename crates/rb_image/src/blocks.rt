//! The blocks of an image: which block begins at an address, and the words in it.
//!
//! A block is a range of the image's memory, given by the address at which it begins, and its
//! bytes. The blocks ascend by address without overlap, so one is found by halves.

ghost use Rattle.std.specs.Prelude.{◌≡◌, ◌+◌, nat_le};
ghost use Rattle.std.specs.Option.{option_copied};
ghost use Rattle.rb_image.specs.Blocks.{block_at, is_width, size_at, word_from, word_in};
ghost use Rattle.rb_image.specs.inner.Halving.{IsFirstFrom};
ghost use Rattle.rb_image_text.specs.Places.{AreInPlace};

use rb_bits::little_endian::load_le;
use rb_image_text::image::ImageBlock;

// The number of the first block that begins at an address or above, found by halves; where none
// does, how many blocks there are.
fn first_from(blocks: &[ImageBlock], address: u64) -> usize
    requires placed { AreInPlace blocks.now }
    ensures { IsFirstFrom blocks.now address result }
{
    let mut low = 0;
    let mut high = blocks.len();
    while low < high {
        let middle = low + (high - low) / 2;
        if blocks[middle].at < address {
            low = middle + 1;
        } else {
            high = middle;
        }
    }
    low
}

// The first of the blocks that begins at an address, none where no block does.
fn block_at(blocks: &[ImageBlock], address: u64) -> Option<&ImageBlock>
    requires placed { AreInPlace blocks.now }
    ensures { option_copied result ≡ block_at blocks.now address }
{
    match blocks.get(first_from(blocks, address)) {
        None => None,
        Some(block) => if block.at == address {
            Some(block)
        } else {
            None
        },
    }
}

/// The size in bytes of the block that begins at an address, none where no block does.
pub(crate) fn size_at(blocks: &[ImageBlock], address: u64) -> Option<u64>
    requires placed { AreInPlace blocks.now }
    ensures { result ≡ size_at blocks.now address }
{
    match block_at(blocks, address) {
        None => None,
        Some(block) => Some(block.bytes.len() as u64),
    }
}

// Whether this is the width of a word that can be read: 8, 16, 32 or 64 bits.
fn is_width(width: u64) -> bool
    ensures { result ≡ is_width width }
{
    width == 8 || width == 16 || width == 32 || width == 64
}

// Whether `count` bytes from `byte` on lie in a block of this size in bytes.
fn lies_within(byte: u64, count: u64, size: u64) -> bool
    ensures { result ≡ nat_le (byte + count) size }
{
    byte <= size && count <= size - byte
}

// The word of `width` bits from a byte of a block on, the lowest byte first; none where no word has
// this width, or it does not lie in the block.
fn word_from(block: &ImageBlock, byte: u64, width: u64) -> Option<u64>
    ensures { result ≡ word_from block.now byte width }
{
    if !is_width(width) {
        return None;
    }
    let bytes = block.bytes.as_slice();
    if !lies_within(byte, width / 8, bytes.len() as u64) {
        return None;
    }
    let from = byte as usize;
    let to = from + (width / 8) as usize;
    Some(load_le(&bytes[from..to]))
}

/// The word of `width` bits, 8, 16, 32 or 64, from a byte on of the block that begins at an
/// address; none where no block does, for another width, or where it does not lie in the block.
pub(crate) fn word_in(blocks: &[ImageBlock], address: u64, byte: u64, width: u64) -> Option<u64>
    requires placed { AreInPlace blocks.now }
    ensures { result ≡ word_in blocks.now address byte width }
{
    match block_at(blocks, address) {
        None => None,
        Some(block) => word_from(block, byte, width),
    }
}
