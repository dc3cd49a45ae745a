//! Images of lists, trees and chains with one byte changed, that of a pointer mostly: the value that each
//! holds then, or why it holds none. The answers were worked out by hand from the layouts.

use crate::changes::{Change, TEXT, expect_changes};
use crate::deep::KEPT;
use crate::layouts::{LIST, TWIN};
use rb_rows_calls::surprise::Surprise;

// Blocks of two sizes: the tag of the end is in the pointer, the other tag behind it.
const CHAIN: &str =
    "type Chain = End | One(u8) | Link(Chain, u16);layout Chain <32> = split 0[0:1] { 1 => End : { word 32 { [0:1] = 1 } } 0 => split 0[2:30] -> 4 @0:8[0:8] { 0 => One(_) : { word 32 { [0:1] = 0, [2:30] -> 4 { word 8 { [0:8] = 0 }, word 8 { [0:8] .0 } } } } 1 => Link(_, _) : { word 32 { [0:1] = 0, [2:30] -> 4 { word 8 { [0:8] = 1 }, word 16 { [0:16] .1 }, inline .0 } } } } };fun main(c: Chain): Chain = c;";

// A list, in which the text itself is changed.
const LISTED: [Change; 13] = [
    // no blank
    (TEXT, 4, b'\t', "16 ribbit: image 40 at byte 4;"),
    // no 0x
    (TEXT, 5, b'1', "16 ribbit: image 40 at byte 5;"),
    // a root word must follow
    (TEXT, 9, b' ', "16 ribbit: image 40 at byte 10;"),
    // a capital
    (TEXT, 10, b'B', "16 ribbit: image 40 at byte 10;"),
    // a digit behind 0
    (TEXT, 16, b'0', "16 ribbit: image 40 at byte 17;"),
    // address 64016, and no size begins with 0
    (TEXT, 18, b'0', "16 ribbit: image 40 at byte 22;"),
    // no size begins with 0
    (TEXT, 19, b'0', "16 ribbit: image 40 at byte 19;"),
    // 96 bytes: the line ends too early
    (TEXT, 19, b'9', "16 ribbit: image 40 at byte 54;"),
    // no blank
    (TEXT, 21, b'\t', "16 ribbit: image 40 at byte 21;"),
    // no digit
    (TEXT, 22, b' ', "16 ribbit: image 40 at byte 22;"),
    // the line must end
    (TEXT, 54, b' ', "16 ribbit: image 40 at byte 54;"),
    // a digit too many
    (TEXT, 54, b'0', "16 ribbit: image 40 at byte 54;"),
    // the block moved to 90
    (TEXT, 61, b'9', "16 ribbit: image 44: base 0, address 80;"),
];

// A tree whose colours are told by its leaves, in the lowest bit of a pointer.
const TREES: [Change; 26] = [
    // the colour
    (
        TEXT,
        8,
        b'8',
        "0 Node(Red, Node(Red, Empty, 3, Empty), 7, Node(Red, Empty, 9, Empty));",
    ),
    // a free bit
    (
        TEXT,
        8,
        b'b',
        "0 Node(Black, Node(Red, Empty, 3, Empty), 7, Node(Red, Empty, 9, Empty));",
    ),
    // the middle of a block
    (TEXT, 8, b'd', "16 ribbit: image 44: base 0, address 92;"),
    // that of another
    (TEXT, 7, b'4', "16 ribbit: image 44: base 0, address 72;"),
    // behind all blocks
    (TEXT, 7, b'6', "16 ribbit: image 44: base 0, address 104;"),
    // begins at 54, below 64
    (TEXT, 16, b'5', "16 ribbit: image 41: block 0;"),
    // begins at 75 in the one before
    (TEXT, 54, b'5', "16 ribbit: image 41: block 1;"),
    // ends at 89, in which the next begins
    (TEXT, 54, b'7', "16 ribbit: image 41: block 2;"),
    // the colour of the left tree
    (
        2,
        4,
        0x41,
        "0 Node(Black, Node(Black, Empty, 3, Empty), 7, Node(Red, Empty, 9, Empty));",
    ),
    // both trees are one
    (
        2,
        4,
        0x4c,
        "0 Node(Black, Node(Red, Empty, 9, Empty), 7, Node(Red, Empty, 9, Empty));",
    ),
    // its own block
    (2, 4, 0x58, "16 ribbit: image 44: base 88, address 88;"),
    // a colour and no block
    (2, 4, 0x01, "16 ribbit: image 44: base 88, address 0;"),
    // a free bit alone is not 0, so there is a node
    (2, 4, 0x02, "16 ribbit: image 44: base 88, address 0;"),
    // no left tree
    (
        2,
        4,
        0x00,
        "0 Node(Black, Empty, 7, Node(Red, Empty, 9, Empty));",
    ),
    // a bit of the pointer
    (2, 5, 0x01, "16 ribbit: image 44: base 88, address 320;"),
    // its highest bit
    (2, 6, 0x80, "16 ribbit: image 44: base 88, address 8388672;"),
    // the lowest free bit above it
    (
        2,
        7,
        0x01,
        "0 Node(Black, Node(Red, Empty, 3, Empty), 7, Node(Red, Empty, 9, Empty));",
    ),
    // the colour of the right tree
    (
        2,
        8,
        0x4d,
        "0 Node(Black, Node(Red, Empty, 3, Empty), 7, Node(Black, Empty, 9, Empty));",
    ),
    // the middle of a block
    (2, 8, 0x50, "16 ribbit: image 44: base 88, address 80;"),
    // the number
    (
        2,
        0,
        0x08,
        "0 Node(Black, Node(Red, Empty, 3, Empty), 8, Node(Red, Empty, 9, Empty));",
    ),
    // its highest byte
    (
        2,
        3,
        0xff,
        "0 Node(Black, Node(Red, Empty, 3, Empty), 4278190087, Node(Red, Empty, 9, Empty));",
    ),
    // a cycle of one block
    (0, 4, 0x40, "16 ribbit: image 44: base 64, address 64;"),
    // a block above
    (0, 8, 0x4c, "16 ribbit: image 44: base 64, address 76;"),
    // a cycle of two blocks
    (1, 4, 0x58, "16 ribbit: image 44: base 76, address 88;"),
    // a block below
    (
        1,
        4,
        0x40,
        "0 Node(Black, Node(Red, Empty, 3, Empty), 7, Node(Red, Node(Red, Empty, 3, Empty), 9, Empty));",
    ),
    // free bits alone are not 0
    (1, 11, 0xff, "16 ribbit: image 44: base 76, address 0;"),
];

// A chain of blocks, of which a split behind a pointer tells the size.
const CHAINS: [Change; 26] = [
    // the tag: nothing else is looked at
    (TEXT, 8, b'd', "0 End;"),
    // the free bit
    (TEXT, 8, b'e', "0 Link(Link(One(5), 300), 7);"),
    // the block in the middle
    (TEXT, 8, b'4', "0 Link(One(5), 300);"),
    // the lowest block
    (TEXT, 8, b'0', "0 One(5);"),
    // the middle of a block, which a split passes
    (TEXT, 8, b'8', "16 ribbit: image 44: base 0, address 72;"),
    // behind all blocks
    (TEXT, 7, b'5', "16 ribbit: image 44: base 0, address 92;"),
    // nothing begins at 64
    (TEXT, 17, b'5', "16 ribbit: image 44: base 68, address 64;"),
    // one byte: the line must end
    (TEXT, 19, b'1', "16 ribbit: image 40 at byte 23;"),
    // three bytes: a digit must follow
    (TEXT, 19, b'3', "16 ribbit: image 40 at byte 25;"),
    // begins at 65 in the block of two bytes
    (TEXT, 33, b'5', "16 ribbit: image 41: block 1;"),
    // begins at 66, right behind it: nothing begins at 68
    (TEXT, 33, b'6', "16 ribbit: image 44: base 76, address 68;"),
    // One has a block of two bytes
    (2, 0, 0x00, "16 ribbit: image 44: base 0, address 76;"),
    // no arm for 2
    (2, 0, 0x02, "16 ribbit: image 43: base 76, place 0;"),
    // the same one further in
    (1, 0, 0x00, "16 ribbit: image 44: base 76, address 68;"),
    // no arm for 255
    (1, 0, 0xff, "16 ribbit: image 43: base 68, place 0;"),
    // Link has a block of seven bytes
    (0, 0, 0x01, "16 ribbit: image 44: base 68, address 64;"),
    // no arm for 128
    (0, 0, 0x80, "16 ribbit: image 43: base 64, place 0;"),
    // the number
    (0, 1, 0xff, "0 Link(Link(One(255), 300), 7);"),
    // a split passes a pointer to its own block
    (2, 3, 0x4c, "16 ribbit: image 44: base 76, address 76;"),
    // one upward
    (2, 3, 0x50, "16 ribbit: image 44: base 76, address 80;"),
    // the lowest block, past the one between
    (2, 3, 0x40, "0 Link(One(5), 7);"),
    // the tag
    (2, 3, 0x45, "0 Link(End, 7);"),
    // the highest bit
    (
        2,
        6,
        0x80,
        "16 ribbit: image 44: base 76, address 2147483716;",
    ),
    // a cycle of two blocks
    (1, 3, 0x4c, "16 ribbit: image 44: base 68, address 76;"),
    // the tag
    (1, 3, 0x41, "0 Link(Link(End, 300), 7);"),
    // the upper byte of a number that crosses a word
    (2, 2, 0x01, "0 Link(Link(One(5), 300), 263);"),
];

// A tree whose halves are one block.
const HALVES: [Change; 6] = [
    // the first half of the lower block, which is met first
    (0, 0, 0x00, "16 ribbit: image 44: base 64, address 0;"),
    // the second one
    (0, 8, 0x40, "16 ribbit: image 44: base 64, address 64;"),
    // the tag of the first half
    (1, 0, 0x41, "0 Fork(Tip, Fork(Tip, Tip));"),
    // that of the second
    (1, 8, 0x41, "0 Fork(Fork(Tip, Tip), Tip);"),
    // the first half was sound
    (1, 8, 0x48, "16 ribbit: image 44: base 80, address 72;"),
    // its highest byte
    (
        1,
        15,
        0x01,
        "16 ribbit: image 44: base 80, address 72057594037928000;",
    ),
];

#[test]
fn texts(rt: HostRuntime) -> Result<(), Surprise> {
    let image =
        "root 0x50;block 64 16 02000000000000000100000000000000;block 80 16 01000000000000004000000000000000;";
    let value = "0 Cons(1, Cons(2, Nil));";
    expect_changes(rt.alloc(), LIST, image, value, &LISTED)
}

#[test]
fn trees(rt: HostRuntime) -> Result<(), Surprise> {
    let image =
        "root 0x59;block 64 12 030000000000000000000000;block 76 12 090000000000000000000000;block 88 12 07000000400000004c000000;";
    let value = "0 Node(Black, Node(Red, Empty, 3, Empty), 7, Node(Red, Empty, 9, Empty));";
    expect_changes(rt.alloc(), KEPT, image, value, &TREES)
}

#[test]
fn chains(rt: HostRuntime) -> Result<(), Surprise> {
    let image = "root 0x4c;block 64 2 0005;block 68 7 012c0140000000;block 76 7 01070044000000;";
    let value = "0 Link(Link(One(5), 300), 7);";
    expect_changes(rt.alloc(), CHAIN, image, value, &CHAINS)
}

#[test]
fn halves(rt: HostRuntime) -> Result<(), Surprise> {
    let image =
        "root 0x50;block 64 16 01000000000000000100000000000000;block 80 16 40000000000000004000000000000000;";
    let value = "0 Fork(Fork(Tip, Tip), Fork(Tip, Tip));";
    expect_changes(rt.alloc(), TWIN, image, value, &HALVES)
}
