//! A memory that tests each load and store.

ghost use Rattle.std.specs.Prelude.{◌≡◌, ℕ, ◌≤◌, ◌<◌, ◌+◌, get_or, length, IfOk, IfSome, true, nat_le, find};
ghost use Rattle.rb_bits.specs.LittleEndian.{IsByteCount};
ghost use Rattle.rb_bytes.specs.Memory.{IsGood, least_region, most_region, read_le, write_le, empty_memory, size_at, lies_within, byte_at};
ghost use Rattle.rb_bytes.specs.Starts.{marked_bytes};

use crate::fault::{Full, Trap};
use crate::memory::{ByteMemory, LEAST_REGION};
use rb_bits::{load_le, mask, store_le, take};
use std::alloc::{AllocError, Global};
use std::marker::Model;

/// A region that knows of each byte whether it was written and of each address whether a block
/// begins there, so that no access is trusted. All of its memory is taken when it is made, and a
/// part of it is first touched when a block is placed there.
#[derive(Drop)]
pub struct CheckedMemory {
    // By address, from 0 up to the end of the last block; empty before the first.
    // The byte that was written there; any byte where none was.
    bytes: Vec<u8>,
    // 255 where a byte was written, and else 0.
    marks: Vec<u8>,
    // The size of the block that begins there, in bytes, or 0.
    sizes: Vec<u16>,
    // The number of blocks.
    blocks: u64,
    // The address from which on the next block is placed.
    next: u64,
    // The address at which the region ends.
    limit: u64,
}

impl Model for CheckedMemory {
    ghost use Rattle.rb_bytes.specs.Memory.{Memory};

    ghost Value = { Memory };

    ghost use Rattle.rb_bytes.specs.Starts.{memory_of, IsKept};

    ghost view = { memory_of };

    ghost invariant = { IsKept };
}

// Whether `count` bytes from the address `at` on are all written, by one look at their marks.
// `marks` go by address. The answer false promises nothing.
fn are_written(marks: &[u8], at: u64, count: u64) -> bool
    requires count { IsByteCount count }
    requires within { at + count ≤ length marks.now }
    ensures { result ≡ true → (a : ℕ) → at ≤ a → a < at + count → 0 < get_or marks.now a 0 }
{
    load_le(&marks[at as usize..(at + count) as usize]) == mask(0, 8 * count as u32)
}

// The number in `count` bytes from the address `at` on, the lowest first, or `Unwritten` with the
// first of their addresses at which no byte was written. `marks` and `bytes` go by address.
fn read_word(marks: &[u8], bytes: &[u8], at: u64, count: u64) -> Result<u64, Trap>
    requires even { length marks.now ≡ length bytes.now }
    requires count { IsByteCount count }
    requires within { at + count ≤ length bytes.now }
    ensures { result ≡ read_le (marked_bytes marks.now bytes.now) count at }
{
    if !are_written(marks, at, count) {
        for i in at..at + count {
            if marks[i as usize] == 0 {
                return Err(Trap::Unwritten(i));
            }
        }
    }
    Ok(load_le(&bytes[at as usize..(at + count) as usize]))
}

// Writes the `count` low bytes of a word from the address `at` on, the lowest first, and marks them
// as written. `marks` and `bytes` go by address.
fn write_word(marks: &mut [u8], bytes: &mut [u8], at: u64, count: u64, word: u64)
    requires even { length marks.old ≡ length bytes.old }
    requires count { IsByteCount count }
    requires within { at + count ≤ length bytes.old }
    ensures { marked_bytes marks.new bytes.new
        ≡ write_le (marked_bytes marks.old bytes.old) count at word }
{
    let bits = 8 * count as u32;
    store_le(
        &mut marks[at as usize..(at + count) as usize],
        mask(0, bits),
    );
    store_le(
        &mut bytes[at as usize..(at + count) as usize],
        take(word, 0, bits),
    );
}

impl CheckedMemory {
    /// An empty region that ends at the limit, which is from 64 to 16,777,216.
    ///
    /// # Errors
    ///
    /// Want of memory.
    pub fn new(alloc: Global, limit: u64) -> Result<CheckedMemory, AllocError>
        requires { (least_region ≤ limit) × (limit ≤ most_region) }
        ensures value { IfOk result (λ m. m ≡ empty_memory limit) }
        ensures good { IfOk result (λ m. IsGood m) }
    {
        Ok(CheckedMemory {
            bytes: Vec::with_capacity(alloc, limit as usize)?,
            marks: Vec::with_capacity(alloc, limit as usize)?,
            sizes: Vec::with_capacity(alloc, limit as usize)?,
            blocks: 0,
            next: LEAST_REGION,
            limit,
        })
    }

    /// The first block that begins at this address or above: its address and its size in bytes.
    /// `None` where no block begins there or above.
    pub fn block_from(&self, address: u64) -> Option<(u64, u64)>
        ensures { result ≡ find (λ b. nat_le address b.0) self.now.blocks }
    {
        for at in address..self.sizes.len() as u64 {
            match self.sizes[at as usize] {
                0 => {}
                size => return Some((at, u64::from(size))),
            }
        }
        None
    }

    /// The byte that was written at an address; `None` where none was, also beyond the region.
    pub fn byte(&self, address: u64) -> Option<u8>
        ensures { result ≡ byte_at self.now.bytes address }
    {
        if address >= self.marks.len() as u64 {
            return None;
        }
        match self.marks[address as usize] {
            0 => None,
            _ => Some(self.bytes[address as usize]),
        }
    }

    // The size in bytes of the block that begins at this address; `None` where none does.
    fn size_at(&self, base: u64) -> Option<u64>
        ensures value { result ≡ size_at self.now.blocks base }
        ensures within { IfSome result (λ size. base + size ≤ self.now.next) }
    {
        if base >= self.sizes.len() as u64 {
            return None;
        }
        match self.sizes[base as usize] {
            0 => None,
            size => Some(u64::from(size)),
        }
    }

    // Whether `count` bytes from an offset on lie within the block that begins at the base; false
    // where none begins there.
    fn holds(&self, base: u64, offset: u64, count: u64) -> bool
        ensures value { result ≡ lies_within (size_at self.now.blocks base) (offset + count) }
        ensures within { result ≡ true → base + offset + count ≤ self.now.next }
    {
        match self.size_at(base) {
            None => false,
            Some(size) => offset <= size && count <= size - offset,
        }
    }
}

impl ByteMemory for CheckedMemory {
    ghost CHECKS = { true };

    /// Each load and each store is tested.
    const CHECKS: bool = true;

    ghost memory = { λ m. m };

    /// The address at which the region ends.
    fn limit(&self) -> u64 {
        self.limit
    }

    /// The address from which on the next block is placed.
    fn next(&self) -> u64 {
        self.next
    }

    /// The number of blocks.
    fn blocks(&self) -> u64 {
        self.blocks
    }

    /// Places a block of `size` bytes at the least multiple of `align` from the next address on,
    /// with none of its bytes marked as written. The lists grow up to its end, in memory that the
    /// region has.
    ///
    /// # Errors
    ///
    /// `Full` where the block would end above the limit; then nothing changes.
    fn place(&mut self, size: u64, align: u64) -> Result<u64, Full> {
        let at = (self.next + (align - 1)) / align * align;
        if at + size > self.limit {
            return Err(Full {
                next: self.next,
                size,
                align,
                limit: self.limit,
            });
        }
        self.bytes.resize((at + size) as usize, 0).unwrap();
        self.marks.resize((at + size) as usize, 0).unwrap();
        self.sizes.resize((at + size) as usize, 0).unwrap();
        self.sizes[at as usize] = size as u16;
        self.blocks += 1;
        self.next = at + size;
        Ok(at)
    }

    /// The number in `width` bits from the byte at `offset` on of the block that begins at the
    /// base.
    ///
    /// # Errors
    ///
    /// `Astray` where the base is no block's, or the access goes past the block's size; else
    /// `Unwritten` for the first of the bytes without a mark.
    fn load(&self, base: u64, offset: u64, width: u64) -> Result<u64, Trap> {
        if !self.holds(base, offset, width / 8) {
            return Err(Trap::Astray(base, offset));
        }
        read_word(
            self.marks.as_slice(),
            self.bytes.as_slice(),
            base + offset,
            width / 8,
        )
    }

    /// Writes the `width` low bits of a word into the bytes from `offset` on of the block that
    /// begins at the base, and marks these as written.
    ///
    /// # Errors
    ///
    /// `Astray` where the base is no block's, or the access goes past the block's size; then
    /// nothing changes.
    fn store(&mut self, base: u64, offset: u64, width: u64, word: u64) -> Result<(), Trap> {
        if !self.holds(base, offset, width / 8) {
            return Err(Trap::Astray(base, offset));
        }
        write_word(
            self.marks.as_mut_slice(),
            self.bytes.as_mut_slice(),
            base + offset,
            width / 8,
            word,
        );
        Ok(())
    }
}
