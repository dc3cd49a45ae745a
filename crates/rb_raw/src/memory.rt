//! The memory over raw bytes, and the marks that say where its blocks are.

ghost use Rattle.std.specs.Prelude.{◌≡◌, ◌≤◌, IfOk, false, replicate};
ghost use Rattle.rb_bytes.specs.Memory.{IsGood, empty_memory, least_region, most_region};

use crate::bytes::RawBytes;
use rb_bytes::fault::{Full, Trap};
use rb_bytes::memory::{ByteMemory, LEAST_REGION};
use std::alloc::{AllocError, Global};
use std::marker::Model;

// The mark of a block's first byte.
const FIRST: u8 = 1;
// The mark of a block's last byte.
const LAST: u8 = 2;

/// A region that trusts each access. All of its memory is taken when it is made: one allocation for
/// its bytes, which is never initialised, and one for its marks.
#[derive(Drop)]
pub struct RawMemory {
    bytes: RawBytes,
    // By address: whether a block begins or ends there.
    marks: Vec<u8>,
    blocks: u64,
    next: u64,
    limit: u64,
}

impl Model for RawMemory {
    ghost use Rattle.rb_bytes.specs.Memory.{Memory};

    ghost Value = { Memory };

    ghost use Rattle.rb_raw.specs.Marks.{memory_of, MarksAreKept};

    ghost view = { memory_of };

    ghost invariant = { MarksAreKept };
}

// So many marks, all clear, by one fill: those of a region without blocks.
fn clear_marks(alloc: Global, count: usize) -> Result<Vec<u8>, AllocError>
    ensures { IfOk result (λ marks. marks.items ≡ replicate count 0) }
{
    let mut marks = Vec::with_capacity(alloc, count)?;
    marks.resize(count, 0)?;
    Ok(marks)
}

impl RawMemory {
    /// An empty region that ends at the limit, which is from 64 to 16,777,216.
    ///
    /// # Errors
    ///
    /// Want of memory.
    pub fn new(alloc: Global, limit: u64) -> Result<RawMemory, AllocError>
        requires { (least_region ≤ limit) × (limit ≤ most_region) }
        ensures value { IfOk result (λ m. m ≡ empty_memory limit) }
        ensures good { IfOk result (λ m. IsGood m) }
    {
        let marks = clear_marks(alloc, limit as usize)?;
        let bytes = RawBytes::new(alloc, marks.as_slice())?;
        Ok(RawMemory {
            bytes,
            marks,
            blocks: 0,
            next: LEAST_REGION,
            limit,
        })
    }
}

impl ByteMemory for RawMemory {
    ghost CHECKS = { false };

    const CHECKS: bool = false;

    ghost memory = { λ m. m };

    fn limit(&self) -> u64 {
        self.limit
    }

    fn next(&self) -> u64 {
        self.next
    }

    fn blocks(&self) -> u64 {
        self.blocks
    }

    fn place(&mut self, size: u64, align: u64) -> Result<u64, Full> {
        let at = (self.next + (align - 1)) / align * align;
        if at + size > self.limit {
            return Err(Full {
                next: self.next,
                size,
                align,
                limit: self.limit,
            });
        }
        self.marks[at as usize] |= FIRST;
        self.marks[(at + size - 1) as usize] |= LAST;
        self.blocks += 1;
        self.next = at + size;
        Ok(at)
    }

    fn load(&self, base: u64, offset: u64, width: u64) -> Result<u64, Trap> {
        Ok(self.bytes.read_word(base + offset, width / 8))
    }

    fn store(&mut self, base: u64, offset: u64, width: u64, word: u64) -> Result<(), Trap> {
        self.bytes.write_word(base + offset, width / 8, word);
        Ok(())
    }
}
