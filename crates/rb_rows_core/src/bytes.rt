//! A checked memory at the ends of its region and of its blocks. The addresses were worked out by hand:
//! the first block is at 64, and each next one at the least multiple that is free.

use crate::width::is_width;
use rb_bytes::checked::CheckedMemory;
use rb_bytes::fault::{Full, Trap};
use rb_bytes::memory::ByteMemory;
use std::alloc::Global;

// A load as numbers: 0 and the word, or the trap's number and what it names.
fn load_answer(loaded: Result<u64, Trap>) -> (u64, u64, u64) {
    match loaded {
        Ok(word) => (0, word, 0),
        Err(Trap::Astray(base, offset)) => (30, base, offset),
        Err(Trap::Unwritten(address)) => (31, address, 0),
        Err(Trap::Unmatched(word)) => (32, word, 0),
    }
}

// A place as numbers: the address alone, or what did not fit.
fn told_place(placed: Result<u64, Full>) -> (u64, u64, u64, u64) {
    match placed {
        Ok(address) => (address, 0, 0, 0),
        Err(full) => (full.next, full.size, full.align, full.limit),
    }
}

// Whether a store succeeds; None where no access has this width.
fn store(memory: &mut CheckedMemory, offset: u64, width: u64, word: u64) -> Option<bool> {
    if is_width(width) {
        Some(memory.store(72, offset, width, word).is_ok())
    } else {
        None
    }
}

// What a load says; None where no access has this width.
fn load(memory: &CheckedMemory, base: u64, offset: u64, width: u64) -> Option<(u64, u64, u64)> {
    if is_width(width) {
        Some(load_answer(memory.load(base, offset, width)))
    } else {
        None
    }
}

// size, alignment as a power, and the address or what did not fit; then the next address
const PLACES: &[(u64, u32, (u64, u64, u64, u64), u64)] = &[
    (1, 0, (64, 0, 0, 0), 65),
    (8, 3, (72, 0, 0, 0), 80),
    (3, 0, (80, 0, 0, 0), 83),
    (2, 6, (128, 0, 0, 0), 130),
    (63, 0, (130, 63, 1, 192), 130),
    (61, 1, (130, 0, 0, 0), 191),
    (2, 0, (191, 2, 1, 192), 191),
    (1, 0, (191, 0, 0, 0), 192),
    (1, 6, (192, 1, 64, 192), 192),
];

// an address, and the first block from there on
const BLOCKS: &[(u64, Option<(u64, u64)>)] = &[
    (0, Some((64, 1))),
    (64, Some((64, 1))),
    (65, Some((72, 8))),
    (80, Some((80, 3))),
    (81, Some((128, 2))),
    (131, Some((191, 1))),
    (192, None),
    (u64::MAX, None),
];

#[test]
fn places_at_the_least_multiple(rt: HostRuntime) {
    let mut memory = CheckedMemory::new(rt.alloc(), 192).expect(&rt, "ample memory");
    for &(size, power, want, next) in PLACES {
        assert!(rt; 1 <= size && size <= 512 && power <= 6);
        let align = 1 << power;
        let placed = told_place(memory.place(size, align));
        assert!(rt;
            (placed, memory.next()) == (want, next),
            "{size} bytes at a multiple of {align}"
        );
    }
    assert!(rt; (memory.blocks(), memory.limit()) == (6, 192));
    for &(from, want) in BLOCKS {
        // no byte was written
        assert!(rt;
            (memory.block_from(from), memory.byte(from)) == (want, None),
            "from {from}"
        );
    }
}

// Blocks of 8 and of 16 bytes, at 64 and at 72, and a word in the second.
fn two_blocks(alloc: Global) -> Option<CheckedMemory> {
    let mut memory = CheckedMemory::new(alloc, 128).ok()?;
    memory.place(8, 1).ok()?;
    memory.place(16, 1).ok()?;
    memory.store(72, 0, 64, 0x8807_0605_0403_0201).ok()?;
    Some(memory)
}

// offset, width and word in the block of 16 bytes at 72, and whether they lie within it
const STORES: &[(u64, u64, u64, bool)] = &[
    (1, 16, 0xffff_aabb, true),
    (8, 8, 0x1ff, true),
    (16, 8, 7, false),
    (9, 64, 7, false),
];

// base, offset and width, and what is loaded
const LOADS: &[(u64, u64, u64, (u64, u64, u64))] = &[
    (72, 0, 64, (0, 0x8807_0605_04aa_bb01, 0)),
    (72, 0, 32, (0, 0x04aa_bb01, 0)),
    (72, 6, 16, (0, 0x8807, 0)),
    (72, 8, 8, (0, 0xff, 0)),
    // the first byte that was never written
    (72, 8, 32, (31, 81, 0)),
    (64, 0, 64, (31, 64, 0)),
    // no block begins there, or the bytes leave it
    (65, 0, 8, (30, 65, 0)),
    (73, 0, 8, (30, 73, 0)),
    (72, 9, 64, (30, 72, 9)),
    (72, u64::MAX, 64, (30, 72, u64::MAX)),
    (u64::MAX, u64::MAX, 8, (30, u64::MAX, u64::MAX)),
];

#[test]
fn stores_and_loads(rt: HostRuntime) {
    let mut memory = two_blocks(rt.alloc()).expect(&rt, "two blocks");
    for &(offset, width, word, fits) in STORES {
        assert!(rt;
            store(&mut memory, offset, width, word) == Some(fits),
            "{width} bits at {offset}"
        );
    }
    for &(base, offset, width, want) in LOADS {
        assert!(rt;
            load(&memory, base, offset, width) == Some(want),
            "{width} bits at {base} and {offset}"
        );
    }
    assert!(rt; load_answer(memory.load(72, 0, 16)) == (0, 0xbb01, 0));
    let bytes = (memory.byte(72), memory.byte(79), memory.byte(81));
    assert!(rt; bytes == (Some(1), Some(0x88), None));
}

#[test]
fn the_largest_region(rt: HostRuntime) {
    let memory = CheckedMemory::new(rt.alloc(), 16_777_216).expect(&rt, "ample memory");
    assert!(rt; (memory.next(), memory.blocks(), memory.block_from(0)) == (64, 0, None));
}
