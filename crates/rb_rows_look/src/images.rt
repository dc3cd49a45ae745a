//! Whole images: sound ones, and the first fault of others. Worked out by hand from the layouts, and from the order in
//! which faults are looked for.

use crate::call::{ImageRow, expect_images};
use rb_core::types::Ty;
use std::test::Fail;

/// A list, its tag in the lowest bit of the pointer to an item.
pub const LIST: &str =
    "type List = Nil | Cons(u64, List); layout List <64> = split 0[0:1] { 1 => Nil : { word 64 { [0:1] = 1 } } 0 => Cons(_, _) : { word 64 { [0:1] = 0, [3:61] -> 8 { word 64 { [0:64] .0 }, inline .1 } } } }; fun main(l: List): List = l;";

/// A shape whose tag stands behind its pointer.
pub const SHAPE: &str =
    "type Shape = Dot(u8) | Box(u32, u32); layout Shape <32> = split 0[0:32] -> 4 @0:8[0:8] { 0 => Dot(_) : { word 32 { [0:32] -> 4 { word 8 { [0:8] = 0 }, word 8 { [0:8] .0 } } } } 1 => Box(_, _) : { word 32 { [0:32] -> 4 { word 8 { [0:8] = 1 }, word 32 { [0:32] .0 }, word 32 { [0:32] .1 } } } } }; fun main(s: Shape): Shape = s;";

/// A tree whose node is two trees behind a pointer.
pub const TREE: &str =
    "type Tree = Leaf | Node(Tree, Tree); layout Tree <64> = split 0[0:1] { 1 => Leaf : { word 64 { [0:1] = 1 } } 0 => Node(_, _) : { word 64 { [0:1] = 0, [3:61] -> 8 { inline .0, inline .1 } } } }; fun main(t: Tree): Tree = t;";

/// Two bits of another type in each of two ranges of a word, and a constant behind them.
pub const WIDE: &str =
    "type Bit = Off | On; layout Bit <2> = split 0[0:2] { 0 => Off : { word 2 { [0:2] = 0 } } 1 => On : { word 2 { [0:2] = 1 } } }; type Two = Of(Bit, Bit); layout Two <64> = Of(_, _) : { word 64 { [0:64] -> 8 { word 8 { [2:2] .0, [0:2] .1 }, word 8 { [0:1] = 1 } } } }; fun main(x: Two): Two = x;";

/// Two pointers to a byte each, which is of one type for the one and of another for the other.
pub const MIXED: &str =
    "type Bit = Off | On; layout Bit <8> = split 0[0:8] { 0 => Off : { word 8 { [0:8] = 0 } } 1 => On : { word 8 { [0:8] = 1 } } }; type Three = Three; layout Three <8> = Three : { word 8 { [0:8] = 3 } }; type Pair = Both(Bit, Three); layout Pair <64> = Both(_, _) : { word 64 { [0:32] -> 8 { word 8 { [0:8] .0 } }, [32:32] -> 8 { word 8 { [0:8] .1 } } } }; fun main(p: Pair): Pair = p;";

/// Two items of a list.
pub const ITEMS: &str =
    "block 64 16 02000000000000000100000000000000\nblock 80 16 01000000000000004000000000000000\n";

const LISTS: [ImageRow; 3] = [
    ("root 0x50\n", Ty::Named(0), "sound"),
    ("root 0x48\n", Ty::Named(0), "pointer 0 72"),
    ("root 0x1\n", Ty::Named(0), "sound"),
];

#[test]
fn lists(rt: HostRuntime) -> Result<(), Fail> {
    expect_images(rt.alloc(), LIST, ITEMS, &LISTS)
}

const CYCLES: [ImageRow; 2] = [
    (
        "root 0x40\nblock 64 16 02000000000000004000000000000000\n",
        Ty::Named(0),
        "pointer 64 64",
    ),
    (
        "root 0x40\nblock 64 16 02000000000000005000000000000000\nblock 80 16 02000000000000000100000000000000\n",
        Ty::Named(0),
        "pointer 64 80",
    ),
];

#[test]
fn cycles_of_lists(rt: HostRuntime) -> Result<(), Fail> {
    expect_images(rt.alloc(), LIST, "", &CYCLES)
}

const LIST_ROOTS: [ImageRow; 10] = [
    ("root\n", Ty::Named(0), "root 0"),
    ("root 0x1\n", Ty::Named(0), "sound"),
    ("root 0x1 0x1\n", Ty::Named(0), "root 1"),
    ("root 0x48 0x1\n", Ty::Named(0), "root 1"),
    ("root\n", Ty::Int(8), "root 0"),
    ("root 0xff\n", Ty::Int(8), "sound"),
    ("root 0x100\n", Ty::Int(8), "root 0"),
    ("root 0x1 0x1\n", Ty::Int(8), "root 1"),
    ("root 0x100 0x1\n", Ty::Int(8), "root 0"),
    ("root 0xffffffffffffffff\n", Ty::Int(64), "sound"),
];

const SHAPE_ROOTS: [ImageRow; 3] = [
    ("root 0x10\nblock 64 2 0005\n", Ty::Named(0), "sound"),
    ("root 0x10\nblock 64 2 0705\n", Ty::Named(0), "bits 64 0"),
    (
        "root 0x100000010\nblock 64 2 0705\n",
        Ty::Named(0),
        "root 0",
    ),
];

#[test]
fn root_words(rt: HostRuntime) -> Result<(), Fail> {
    expect_images(rt.alloc(), LIST, "", &LIST_ROOTS)?;
    expect_images(rt.alloc(), SHAPE, "", &SHAPE_ROOTS)
}

const ORDER: [ImageRow; 3] = [
    (
        "root 0x60\nblock 80 16 01000000000000000800000000000000\nblock 96 16 50000000000000004800000000000000\n",
        Ty::Named(0),
        "pointer 80 8",
    ),
    (
        "root 0x60\nblock 80 16 01000000000000000300000000000000\nblock 96 16 50000000000000004800000000000000\n",
        Ty::Named(0),
        "pointer 96 72",
    ),
    (
        "root 0x60\nblock 80 16 01000000000000000800000000000000\nblock 96 16 48000000000000005000000000000000\n",
        Ty::Named(0),
        "pointer 96 72",
    ),
];

const WIDE_ORDER: [ImageRow; 2] = [
    ("root 0x8\nblock 64 2 0300\n", Ty::Named(1), "bits 64 1"),
    ("root 0x8\nblock 64 2 0301\n", Ty::Named(1), "bits 64 0"),
];

#[test]
fn outer_before_inner_and_left_to_right(rt: HostRuntime) -> Result<(), Fail> {
    expect_images(rt.alloc(), TREE, "", &ORDER)?;
    expect_images(rt.alloc(), WIDE, "", &WIDE_ORDER)
}

const BITS: [ImageRow; 4] = [
    ("root 0x8\nblock 64 2 0501\n", Ty::Named(1), "sound"),
    ("root 0x8\nblock 64 2 0401\n", Ty::Named(1), "sound"),
    ("root 0x8\nblock 64 2 0601\n", Ty::Named(1), "bits 64 0"),
    ("root 0x8\nblock 64 2 0901\n", Ty::Named(1), "bits 64 0"),
];

const TYPES: [ImageRow; 2] = [
    (
        "root 0x900000008\nblock 64 1 01\nblock 72 1 03\n",
        Ty::Named(2),
        "sound",
    ),
    (
        "root 0x800000008\nblock 64 1 01\n",
        Ty::Named(2),
        "bits 64 0",
    ),
];

#[test]
fn places_that_differ_little(rt: HostRuntime) -> Result<(), Fail> {
    expect_images(rt.alloc(), WIDE, "", &BITS)?;
    expect_images(rt.alloc(), MIXED, "", &TYPES)
}

/// A tree of forty levels, each of whose nodes is twice the tree below it: 2^41 nodes and one less.
pub const DOUBLED: &str =
    "root 0x2b0\nblock 64 16 01000000000000000100000000000000\nblock 80 16 40000000000000004000000000000000\nblock 96 16 50000000000000005000000000000000\nblock 112 16 60000000000000006000000000000000\nblock 128 16 70000000000000007000000000000000\nblock 144 16 80000000000000008000000000000000\nblock 160 16 90000000000000009000000000000000\nblock 176 16 a000000000000000a000000000000000\nblock 192 16 b000000000000000b000000000000000\nblock 208 16 c000000000000000c000000000000000\nblock 224 16 d000000000000000d000000000000000\nblock 240 16 e000000000000000e000000000000000\nblock 256 16 f000000000000000f000000000000000\nblock 272 16 00010000000000000001000000000000\nblock 288 16 10010000000000001001000000000000\nblock 304 16 20010000000000002001000000000000\nblock 320 16 30010000000000003001000000000000\nblock 336 16 40010000000000004001000000000000\nblock 352 16 50010000000000005001000000000000\nblock 368 16 60010000000000006001000000000000\nblock 384 16 70010000000000007001000000000000\nblock 400 16 80010000000000008001000000000000\nblock 416 16 90010000000000009001000000000000\nblock 432 16 a001000000000000a001000000000000\nblock 448 16 b001000000000000b001000000000000\nblock 464 16 c001000000000000c001000000000000\nblock 480 16 d001000000000000d001000000000000\nblock 496 16 e001000000000000e001000000000000\nblock 512 16 f001000000000000f001000000000000\nblock 528 16 00020000000000000002000000000000\nblock 544 16 10020000000000001002000000000000\nblock 560 16 20020000000000002002000000000000\nblock 576 16 30020000000000003002000000000000\nblock 592 16 40020000000000004002000000000000\nblock 608 16 50020000000000005002000000000000\nblock 624 16 60020000000000006002000000000000\nblock 640 16 70020000000000007002000000000000\nblock 656 16 80020000000000008002000000000000\nblock 672 16 90020000000000009002000000000000\nblock 688 16 a002000000000000a002000000000000\n";

#[test]
fn forty_doublings(rt: HostRuntime) -> Result<(), Fail> {
    expect_images(rt.alloc(), TREE, "", &[(DOUBLED, Ty::Named(0), "sound")])
}
