//! The same calls on the memory that tests each access and on the one that trusts it. The addresses and
//! the words were worked out by hand; the first block is at 64, the lowest byte of a word first.

ghost use Rattle.std.specs.Prelude.{◌≡◌, ◌≤◌};
ghost use Rattle.rb_bytes.specs.Memory.{IsAlign, IsSize, IsWidth, least_region, most_region};

use crate::width::is_width;
use rb_bytes::checked::CheckedMemory;
use rb_bytes::fault::{Full, Trap};
use rb_bytes::memory::ByteMemory;
use rb_raw::memory::RawMemory;
use std::alloc::{AllocError, Global};
use std::marker::Model;
use std::process::Abort;

// Two memories that hold the same. No store traps: a trap of the first ends the test.
#[derive(Drop)]
struct Both {
    checked: CheckedMemory,
    raw: RawMemory,
}

impl Model for Both {
    ghost use Rattle.std.specs.Prelude.{◌≡◌};
    ghost use Rattle.rb_bytes.specs.Memory.{Memory};

    ghost Value = { Memory };

    ghost view = { λ both. both.checked };

    ghost invariant = { λ both. both.raw ≡ both.checked };
}

impl Both {
    // Two empty memories, whose regions end at the limit.
    fn new(alloc: Global, limit: u64) -> Result<Both, AllocError>
        requires { (least_region ≤ limit) × (limit ≤ most_region) }
    {
        Ok(Both {
            checked: CheckedMemory::new(alloc, limit)?,
            raw: RawMemory::new(alloc, limit)?,
        })
    }

    // The address that each gives a block of so many bytes at this alignment, or 0 where it has no
    // room: first the one that tests, then the one that trusts.
    fn place(&mut self, size: u64, align: u64) -> (u64, u64)
        requires size { IsSize size }
        requires align { IsAlign align }
    {
        let checked = self.checked.place(size, align);
        let raw = self.raw.place(size, align);
        (place_answer(checked), place_answer(raw))
    }

    // 0 from the one that trusts, where it stores.
    fn store(&mut self, rt: &impl Abort, base: u64, offset: u64, width: u64, word: u64) -> u64
        requires { IsWidth width }
    {
        let checked = self.checked.store(base, offset, width, word);
        assert!(rt; checked.is_ok(), "{width} bits at {base} and {offset}");
        u64::from(self.raw.store(base, offset, width, word).is_err())
    }

    // What each says to a load; where the first traps, the other is not called.
    fn load(&self, base: u64, offset: u64, width: u64) -> (u64, u64)
        requires { IsWidth width }
    {
        let checked = self.checked.load(base, offset, width);
        if checked.is_err() {
            return (0, 1);
        }
        let raw = self.raw.load(base, offset, width);
        (load_answer(checked), load_answer(raw))
    }

    // What each says to a call.
    fn answers(&mut self, rt: &impl Abort, call: Call) -> (u64, u64) {
        match call {
            Call::Place(size, power) => {
                assert!(rt; 1 <= size && size <= 512 && power <= 6);
                let align = 1 << power;
                self.place(size, align)
            }
            Call::Store(base, offset, width, word) => {
                assert!(rt; is_width(width));
                (0, self.store(rt, base, offset, width, word))
            }
            Call::Load(base, offset, width) => {
                assert!(rt; is_width(width));
                self.load(base, offset, width)
            }
        }
    }

    // The limit, the next address and the number of blocks, as each tells them.
    fn ends(&self) -> ((u64, u64, u64), (u64, u64, u64)) {
        (
            (
                self.checked.limit(),
                self.checked.next(),
                self.checked.blocks(),
            ),
            (self.raw.limit(), self.raw.next(), self.raw.blocks()),
        )
    }
}

// The address of a block, or 0 where it did not fit.
fn place_answer(answer: Result<u64, Full>) -> u64 {
    match answer {
        Ok(address) => address,
        Err(_) => 0,
    }
}

// The word, or all bits where there is none.
fn load_answer(answer: Result<u64, Trap>) -> u64 {
    match answer {
        Ok(word) => word,
        Err(_) => u64::MAX,
    }
}

// A call on a memory: its sizes, bases and offsets in bytes, its widths in bits.
#[derive(Clone, Copy, Debug)]
enum Call {
    // Size, and alignment as a power of two.
    Place(u64, u32),
    // Base, offset, width and word.
    Store(u64, u64, u64, u64),
    // Base, offset and width.
    Load(u64, u64, u64),
}

// A region of 320 bytes: blocks of one byte, neighbours without a gap, gaps, the largest alignment,
// and blocks that do not fit, up to the last byte. Beside a place stands the address, or 0 where it does
// not fit; beside a store 0; beside a load the word.
const CALLS: &[(Call, u64)] = &[
    (Call::Place(1, 0), 64),
    (Call::Store(64, 0, 8, 0xab), 0),
    (Call::Load(64, 0, 8), 0xab),
    (Call::Place(1, 0), 65),
    (Call::Store(65, 0, 8, 0x1cd), 0),
    (Call::Load(65, 0, 8), 0xcd),
    (Call::Load(64, 0, 8), 0xab),
    (Call::Place(8, 3), 72),
    (Call::Store(72, 0, 64, 0x8807_0605_0403_0201), 0),
    (Call::Load(72, 0, 64), 0x8807_0605_0403_0201),
    (Call::Load(72, 0, 8), 0x01),
    (Call::Load(72, 7, 8), 0x88),
    (Call::Load(72, 1, 16), 0x0302),
    (Call::Load(72, 3, 32), 0x0706_0504),
    (Call::Store(72, 2, 32, 0xffff_ffff_aabb_ccdd), 0),
    (Call::Load(72, 0, 64), 0x8807_aabb_ccdd_0201),
    (Call::Place(16, 0), 80),
    (Call::Store(80, 8, 64, u64::MAX), 0),
    (Call::Store(80, 0, 64, 0), 0),
    (Call::Load(80, 0, 64), 0),
    (Call::Load(80, 4, 64), 0xffff_ffff_0000_0000),
    (Call::Store(80, 7, 16, 0x1234), 0),
    (Call::Load(80, 0, 64), 0x3400_0000_0000_0000),
    (Call::Load(80, 8, 64), 0xffff_ffff_ffff_ff12),
    (Call::Load(72, 0, 64), 0x8807_aabb_ccdd_0201),
    (Call::Place(3, 1), 96),
    (Call::Store(96, 0, 16, 0xbeef), 0),
    (Call::Store(96, 2, 8, 0x7f), 0),
    (Call::Load(96, 1, 16), 0x7fbe),
    (Call::Place(2, 6), 128),
    (Call::Store(128, 0, 16, 0xffff_0102), 0),
    (Call::Load(128, 0, 16), 0x0102),
    (Call::Load(128, 1, 8), 0x01),
    (Call::Place(512, 0), 0),
    (Call::Place(191, 0), 0),
    (Call::Place(64, 6), 192),
    (Call::Store(192, 56, 64, 0x0123_4567_89ab_cdef), 0),
    (Call::Store(192, 0, 32, 0x8000_0000), 0),
    (Call::Load(192, 56, 64), 0x0123_4567_89ab_cdef),
    (Call::Load(192, 0, 32), 0x8000_0000),
    (Call::Load(192, 63, 8), 0x01),
    (Call::Place(65, 0), 0),
    (Call::Place(1, 6), 256),
    (Call::Place(63, 0), 257),
    (Call::Store(257, 59, 32, 0xdead_beef), 0),
    (Call::Load(257, 59, 32), 0xdead_beef),
    (Call::Load(257, 62, 8), 0xde),
    (Call::Place(1, 0), 0),
    (Call::Load(64, 0, 8), 0xab),
    (Call::Load(65, 0, 8), 0xcd),
];

#[test]
fn raw_and_checked_memory_answer_alike(rt: HostRuntime) {
    let mut both = Both::new(rt.alloc(), 320).expect(&rt, "ample memory");
    for &(call, want) in CALLS {
        assert!(rt; both.answers(&rt, call) == (want, want), "{call:?}");
    }
    assert!(rt; both.ends() == ((320, 320, 9), (320, 320, 9)));
}

#[test]
fn raw_memory_at_its_least(rt: HostRuntime) {
    let mut least = Both::new(rt.alloc(), 64).expect(&rt, "ample memory");
    assert!(rt; least.place(1, 1) == (0, 0));
    assert!(rt; least.ends() == ((64, 64, 0), (64, 64, 0)));
}

// A memory with the largest region. (Its size stays out of the proofs of those who use it.)
fn largest_memory(alloc: Global) -> Result<RawMemory, AllocError> {
    let memory = RawMemory::new(alloc, 16_777_216)?;
    Ok(memory)
}

#[test]
fn raw_memory_at_its_largest(rt: HostRuntime) {
    let mut largest = largest_memory(rt.alloc()).expect(&rt, "ample memory");
    let found = [
        place_answer(largest.place(512, 64)),
        place_answer(largest.place(1, 1)),
        largest.next(),
    ];
    assert_eq!(rt; found, [64, 576, 577]);
}
