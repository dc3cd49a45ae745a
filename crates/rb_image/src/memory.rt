//! The memory in which the blocks of an image stand.
//!
//! A region is a memory of blocks: it has a next address, at which the next block is placed, and a
//! limit, above which no block ends. `blocks` are those of an image, which ascend without overlap.

ghost use Rattle.std.specs.Prelude.{◌≡◌, ◌+◌, ◌≤◌, length, IfOk, Some};
ghost use Rattle.rb_bytes.specs.Laws.{Extends};
ghost use Rattle.rb_bytes.specs.Memory.{IsGood, IsSize, least_region, most_region, size_at};
ghost use Rattle.rb_image_text.specs.Images.{AreImageBlocks};
ghost use Rattle.rb_image_text.specs.Places.{AreInPlace};
ghost use Rattle.rb_image.specs.Memories.{Stand, BlockStands};
ghost use Rattle.rb_image.specs.inner.Filling.{AreStored, EndBy, with_next};

use rb_bytes::checked::CheckedMemory;
use rb_bytes::memory::{ByteMemory, LEAST_REGION, MOST_BLOCK};
use rb_image_text::image::ImageBlock;
use std::alloc::{AllocError, Global};

// The address behind the last block, or the least address of a block where there is none.
fn end_of(blocks: &[ImageBlock]) -> u64
    requires placed { AreInPlace blocks.now }
    ensures within { (least_region ≤ result) × (result ≤ most_region) }
    ensures each { EndBy result blocks.now }
{
    match blocks.last() {
        None => LEAST_REGION,
        Some(block) => {
            let at = block.at;
            at + block.bytes.len() as u64
        }
    }
}

// A region of `limit` bytes with no block in it.
fn empty_region(alloc: Global, limit: u64) -> Result<CheckedMemory, AllocError>
    requires { (least_region ≤ limit) × (limit ≤ most_region) }
    ensures good { IfOk result (λ m. IsGood m) }
    ensures limit { IfOk result (λ m. m.limit ≡ limit) }
    ensures next { IfOk result (λ m. m.next ≡ least_region) }
{
    CheckedMemory::new(alloc, limit)
}

// Places a block of `size` bytes at the next address. The caller has seen to it that it fits.
fn place_next(memory: &mut CheckedMemory, size: u64)
    requires good { IsGood memory.old }
    requires size { IsSize size }
    requires room { memory.old.next + size ≤ memory.old.limit }
    ensures value { memory.new ≡ with_next memory.old size }
    ensures good { IsGood memory.new }
{
    match memory.place(size, 1) {
        Ok(_) => {}
        Err(_) => unreachable!(),
    }
}

// Places fillers, each as large as can be, from the next address up to this one; none where it is
// this one.
fn fill_to(memory: &mut CheckedMemory, at: u64)
    requires good { IsGood memory.old }
    requires above { memory.old.next ≤ at }
    requires room { at ≤ memory.old.limit }
    ensures next { memory.new.next ≡ at }
    ensures kept { Extends memory.old memory.new }
    ensures good { IsGood memory.new }
{
    let mut next = memory.next();
    while next < at {
        let size = (at - next).min(MOST_BLOCK);
        place_next(memory, size);
        next += size;
    }
}

// Stores bytes one by one in the block that begins at an address, which has just so many bytes.
fn store_bytes(memory: &mut CheckedMemory, at: u64, bytes: &[u8])
    requires good { IsGood memory.old }
    requires placed { size_at memory.old.blocks at ≡ Some (length bytes.now) }
    ensures { AreStored memory.old at bytes.now (length bytes.now) memory.new }
{
    for i in 0..bytes.len() {
        match memory.store(at, i as u64, 8, u64::from(bytes[i])) {
            Ok(()) => {}
            Err(_) => unreachable!(),
        }
    }
}

// Places a block of an image at its address, with its bytes, behind fillers.
fn place_block(memory: &mut CheckedMemory, block: &ImageBlock)
    requires good { IsGood memory.old }
    requires above { memory.old.next ≤ block.now.at }
    requires size { IsSize (length block.now.bytes) }
    requires room { block.now.at + length block.now.bytes ≤ memory.old.limit }
    ensures next { memory.new.next ≡ block.now.at + length block.now.bytes }
    ensures kept { Extends memory.old memory.new }
    ensures stands { BlockStands memory.new block.now }
    ensures good { IsGood memory.new }
{
    fill_to(memory, block.at);
    let bytes = block.bytes.as_slice();
    place_next(memory, bytes.len() as u64);
    store_bytes(memory, block.at, bytes);
}

/// A memory in which the blocks of an image stand: each at its address, of its very size, all its bytes written. It
/// ends behind the last of them. It has other blocks too, which fill what lies before and between these, each of at
/// most 512 bytes.
///
/// # Errors
///
/// Want of memory, for the region alone.
pub fn memory_of(alloc: Global, blocks: &[ImageBlock]) -> Result<CheckedMemory, AllocError>
    requires placed { AreInPlace blocks.now }
    requires sized { AreImageBlocks blocks.now }
    ensures good { IfOk result (λ m. IsGood m) }
    ensures stand { IfOk result (λ m. Stand blocks.now m) }
{
    let mut memory = empty_region(alloc, end_of(blocks))?;
    for block in blocks {
        place_block(&mut memory, block);
    }
    Ok(memory)
}
