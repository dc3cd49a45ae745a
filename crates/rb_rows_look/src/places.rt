//! Places of images: the places below each, or its own first fault. Worked out by hand from the layouts.

use crate::call::{Row, expect};
use std::test::Fail;

// A list, its tag in the lowest bit of the pointer to an item.
const LIST: &str =
    "type List = Nil | Cons(u64, List); layout List <64> = split 0[0:1] { 1 => Nil : { word 64 { [0:1] = 1 } } 0 => Cons(_, _) : { word 64 { [0:1] = 0, [3:61] -> 8 { word 64 { [0:64] .0 }, inline .1 } } } }; fun main(l: List): List = l;";

// A shape whose tag stands behind its pointer.
const SHAPE: &str =
    "type Shape = Dot(u8) | Box(u32, u32); layout Shape <32> = split 0[0:32] -> 4 @0:8[0:8] { 0 => Dot(_) : { word 32 { [0:32] -> 4 { word 8 { [0:8] = 0 }, word 8 { [0:8] .0 } } } } 1 => Box(_, _) : { word 32 { [0:32] -> 4 { word 8 { [0:8] = 1 }, word 32 { [0:32] .0 }, word 32 { [0:32] .1 } } } } }; fun main(s: Shape): Shape = s;";

// Two bits of another type in each of two ranges of a word.
const WIDE: &str =
    "type Bit = Off | On; layout Bit <2> = split 0[0:2] { 0 => Off : { word 2 { [0:2] = 0 } } 1 => On : { word 2 { [0:2] = 1 } } }; type Two = Of(Bit, Bit); layout Two <64> = Of(_, _) : { word 64 { [0:64] -> 8 { word 8 { [2:2] .0, [0:2] .1 }, word 8 { [0:1] = 1 } } } }; fun main(x: Two): Two = x;";

// A pair in two blocks, its parts not written in the order of their offsets.
const PAIR: &str =
    "type Pair = Two(u32, u32); layout Pair <64> = Two(_, _) : { word 64 { [40:24] = 9, [0:24] -> 8 { word 64 { [32:32] .1, [0:32] -> 8 { word 32 { [0:32] .0 }, word 8 { [0:8] = 7 } } } } } }; fun main(p: Pair): Pair = p;";

// A cell that leads to itself.
const CELL: &str = "root 0x40\nblock 64 16 02000000000000004000000000000000\n";

// Here and in the tables below: an image, a type, the base and the place of the root word, what comes.
const LISTS: [Row; 9] = [
    ("root 0x1\n", 0, 0, 0, "0"),
    ("root 0x1\n", 1, 0, 0, "0"),
    (CELL, 0, 0, 0, "1 / 0 64@64+8"),
    (CELL, 0, 64, 8, "pointer 64 64"),
    (CELL, 0, 80, 8, "1 / 0 64@64+8"),
    ("root 0x48\n", 0, 0, 0, "pointer 0 72"),
    (
        "root 0x48\nblock 64 16 02000000000000000100000000000000\n",
        0,
        0,
        0,
        "pointer 0 72",
    ),
    (
        "root 0x40\nblock 64 8 0200000000000000\n",
        0,
        0,
        0,
        "pointer 0 64",
    ),
    (
        "root 0xfffffffffffffff8\n",
        0,
        0,
        0,
        "pointer 0 18446744073709551608",
    ),
];

#[test]
fn lists(rt: HostRuntime) -> Result<(), Fail> {
    expect(rt.alloc(), LIST, &LISTS)
}

const SPLITS: [Row; 6] = [
    ("root 0x10\nblock 64 2 0005\n", 0, 0, 0, "0"),
    ("root 0x10\nblock 64 2 0705\n", 0, 0, 0, "bits 64 0"),
    ("root 0x10\nblock 64 2 0105\n", 0, 0, 0, "pointer 0 64"),
    ("root 0x10\nblock 64 9 010000000000000000\n", 0, 0, 0, "0"),
    (
        "root 0x11\nblock 64 9 010100000002000000\n",
        0,
        0,
        0,
        "pointer 0 68",
    ),
    (
        "root 0xffffffff\nblock 64 2 0005\n",
        0,
        0,
        0,
        "pointer 0 17179869180",
    ),
];

#[test]
fn splits_behind_pointers(rt: HostRuntime) -> Result<(), Fail> {
    expect(rt.alloc(), SHAPE, &SPLITS)
}

const SUBVALUES: [Row; 4] = [
    (
        "root 0x8\nblock 64 2 0901\n",
        1,
        0,
        0,
        "2 / 0 2@64+0 / 0 1@64+0",
    ),
    ("root 0x8\nblock 64 2 0900\n", 1, 0, 0, "bits 64 1"),
    ("root 0x2\n", 0, 64, 0, "bits 64 0"),
    ("root 0x1\n", 0, 64, 0, "0"),
];

#[test]
fn subvalues_are_kept_where_their_word_is(rt: HostRuntime) -> Result<(), Fail> {
    expect(rt.alloc(), WIDE, &SUBVALUES)
}

const PARTS: [Row; 4] = [
    (
        "root 0x9000000000a\nblock 64 5 0100000007\nblock 80 8 0800000002000000\n",
        0,
        0,
        0,
        "0",
    ),
    (
        "root 0x8000000000a\nblock 64 5 0100000006\nblock 80 8 0800000002000000\n",
        0,
        0,
        0,
        "bits 64 4",
    ),
    (
        "root 0x8000000000a\nblock 64 5 0100000007\nblock 80 8 0800000002000000\n",
        0,
        0,
        0,
        "bits 0 0",
    ),
    (
        "root 0x90000000008\nblock 64 8 0a00000002000000\nblock 80 5 0100000007\n",
        0,
        0,
        0,
        "pointer 64 80",
    ),
];

#[test]
fn parts_by_offset(rt: HostRuntime) -> Result<(), Fail> {
    expect(rt.alloc(), PAIR, &PARTS)
}
