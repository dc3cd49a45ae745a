//! The trait of all memories.

ghost use Rattle.std.specs.Prelude.{◌≡◌, ◌<◌, Bool, false, IsOk, length};
ghost use Rattle.rb_bytes.specs.Memory.{Memory, IsGood, IsWidth, IsSize, IsAlign, place_of, load_of, store_of};

use crate::fault::{Full, Trap};

/// The address at which a region ends at the earliest, and from which on its blocks are placed;
/// clauses cite it as `least_region` of `specs/Memory.antt`.
pub const LEAST_REGION: u64 = 64;

/// The address at which a region ends at the latest; clauses cite it as `most_region` of
/// `specs/Memory.antt`.
pub const MOST_REGION: u64 = 16_777_216;

/// The greatest size of a block in bytes; clauses cite it as `most_block` of `specs/Memory.antt`.
pub const MOST_BLOCK: u64 = 512;

/// A region of bytes from address 64 up to its limit, in which blocks are placed in ascending
/// order. Addresses, sizes, alignments and offsets are bytes, widths are bits, words are
/// little-endian.
///
/// No call takes memory: a region has all of its own when it is made.
pub trait ByteMemory {
    // the constant of the same name, in clauses
    ghost CHECKS: { Bool };

    /// Whether loads and stores test what they are asked for. Where it is false, a caller has to
    /// know that the access doesn't trap.
    const CHECKS: bool;

    // the memory as plain data
    ghost memory: { Self → Memory };

    /// The address at which the region ends.
    fn limit(&self) -> u64
        ensures value { result ≡ (memory self.now).limit }
        ensures good { IsGood (memory self.now) };

    /// The address from which on the next block is placed.
    fn next(&self) -> u64
        ensures value { result ≡ (memory self.now).next }
        ensures good { IsGood (memory self.now) };

    /// The number of blocks.
    fn blocks(&self) -> u64
        ensures value { result ≡ length (memory self.now).blocks }
        ensures good { IsGood (memory self.now) };

    /// Places a block of `size` bytes at the least multiple of `align` from the next address on,
    /// and gives its address. Where it doesn't fit, nothing changes.
    ///
    /// # Errors
    ///
    /// `Full` exactly where the block would end above the limit.
    fn place(&mut self, size: u64, align: u64) -> Result<u64, Full>
        requires size { IsSize size }
        requires align { IsAlign align }
        ensures value { (result, memory self.new) ≡ place_of (memory self.old) size align }
        ensures good { IsGood (memory self.new) };

    /// The number in `width` bits from the byte at `offset` on of the block that begins at the
    /// base, the lowest byte first.
    ///
    /// # Errors
    ///
    /// `Astray` exactly where the base is no block's, or the access goes past the block's end; else
    /// `Unwritten` for the first of the bytes that was never written. Where a memory does not check,
    /// its caller sees to it that neither comes.
    fn load(&self, base: u64, offset: u64, width: u64) -> Result<u64, Trap>
        requires width { IsWidth width }
        requires unchecked { CHECKS ≡ false → IsOk (load_of (memory self.now) base offset width) }
        ensures value { result ≡ load_of (memory self.now) base offset width };

    /// Writes the `width` low bits of a word into the bytes from `offset` on of the block that
    /// begins at the base, the lowest byte first. Where it traps, nothing changes.
    ///
    /// # Errors
    ///
    /// `Astray` exactly where the base is no block's, or the access goes past the block's end. Where
    /// a memory does not check, its caller sees to it that none comes.
    fn store(&mut self, base: u64, offset: u64, width: u64, word: u64) -> Result<(), Trap>
        requires width { IsWidth width }
        requires unchecked { CHECKS ≡ false
            → IsOk (store_of (memory self.old) base offset width word).0 }
        ensures value { (result, memory self.new)
            ≡ store_of (memory self.old) base offset width word }
        ensures good { IsGood (memory self.new) };
}
