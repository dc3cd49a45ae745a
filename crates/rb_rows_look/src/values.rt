//! The values that images hold, or why they hold none: worked out by hand from the layouts.

use crate::call::{ValueRow, expect_values};
use crate::images::{DOUBLED, ITEMS, LIST, MIXED, SHAPE, TREE, WIDE};
use std::alloc::{AllocError, Global};
use std::test::Fail;

const LISTS: [ValueRow; 5] = [
    ("root 0x50\n", 0, "Cons(1, Cons(2, Nil))"),
    ("root 0x40\n", 0, "Cons(2, Nil)"),
    ("root 0x1\n", 0, "Nil"),
    ("root 0x48\n", 0, "pointer 0 72"),
    // bits 1 and 2 are free, and read as anything
    ("root 0x56\n", 0, "Cons(1, Cons(2, Nil))"),
];

#[test]
fn lists(rt: HostRuntime) -> Result<(), Fail> {
    expect_values(rt.alloc(), LIST, ITEMS, &LISTS)
}

const TORN: [ValueRow; 4] = [
    (
        "root 0x40\nblock 64 16 02000000000000004000000000000000\n",
        0,
        "pointer 64 64",
    ),
    ("root\n", 0, "root 0"),
    (
        "root 0x1\nblock 64 16 00000000000000000000000000000000\nblock 72 8 0000000000000000\n",
        0,
        "block 1",
    ),
    ("rott", 0, "syntax 2"),
];

#[test]
fn torn_lists(rt: HostRuntime) -> Result<(), Fail> {
    expect_values(rt.alloc(), LIST, "", &TORN)
}

const SHAPES: [ValueRow; 7] = [
    ("root 0x10\nblock 64 2 0005\n", 0, "Dot(5)"),
    ("root 0x10\nblock 64 2 0705\n", 0, "bits 64 0"),
    ("root 0x10\nblock 64 9 010100000002000000\n", 0, "Box(1, 2)"),
    (
        "root 0x10\nblock 64 9 01ffffffff00000080\n",
        0,
        "Box(4294967295, 2147483648)",
    ),
    // the block is of the other leaf's size
    ("root 0x10\nblock 64 2 0105\n", 0, "pointer 0 64"),
    (
        "root 0x10\nblock 64 9 000100000002000000\n",
        0,
        "pointer 0 64",
    ),
    // near the end of the region
    ("root 0x3fffff\nblock 16777212 2 0005\n", 0, "Dot(5)"),
];

#[test]
fn shapes(rt: HostRuntime) -> Result<(), Fail> {
    expect_values(rt.alloc(), SHAPE, "", &SHAPES)
}

const WORDS: [ValueRow; 5] = [
    ("root 0x8\nblock 64 2 0501\n", 1, "Of(On, On)"),
    ("root 0x8\nblock 64 2 0401\n", 1, "Of(On, Off)"),
    ("root 0x8\nblock 64 2 0101\n", 1, "Of(Off, On)"),
    ("root 0x1\n", 0, "On"),
    ("root 0x2\n", 0, "bits 0 0"),
];

const PAIRS: [ValueRow; 1] = [(
    "root 0x900000008\nblock 64 1 01\nblock 72 1 03\n",
    2,
    "Both(On, Three)",
)];

#[test]
fn words_in_words(rt: HostRuntime) -> Result<(), Fail> {
    expect_values(rt.alloc(), WIDE, "", &WORDS)?;
    expect_values(rt.alloc(), MIXED, "", &PAIRS)
}

// Trees of levels, the halves of each of which are the tree below.
const LEVELS: &str =
    "block 64 16 01000000000000000100000000000000\nblock 80 16 40000000000000004000000000000000\nblock 96 16 50000000000000005000000000000000\nblock 112 16 60000000000000006000000000000000\nblock 128 16 70000000000000007000000000000000\nblock 144 16 80000000000000008000000000000000\nblock 160 16 90000000000000009000000000000000\nblock 176 16 a000000000000000a000000000000000\nblock 192 16 b000000000000000b000000000000000\n";

// A tree of eight levels.
fn eight_levels(alloc: Global) -> Result<String, AllocError> {
    let mut eight = format!(in alloc; "Leaf")?;
    for _ in 0..8 as u64 {
        eight = format!(in alloc; "Node({eight}, {eight})")?;
    }
    Ok(eight)
}

// Nine levels have 1,023 nodes; a fault comes before the number of nodes.
const OVER: [ValueRow; 2] = [
    ("root 0xc0\n", 0, "large"),
    ("root 0xc8\n", 0, "pointer 0 200"),
];

// Eight levels have 511 nodes, and forty 2^41 and one less.
#[test]
fn as_many_nodes_as_may_be(rt: HostRuntime) -> Result<(), Fail> {
    let alloc = rt.alloc();
    let eight = eight_levels(alloc)?;
    expect_values(alloc, TREE, LEVELS, &[("root 0xb0\n", 0, eight.as_str())])?;
    expect_values(alloc, TREE, LEVELS, &OVER)?;
    expect_values(alloc, TREE, "", &[(DOUBLED, 0, "large")])
}
