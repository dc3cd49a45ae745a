//! Images with constants, tags and numbers of some bits, with one byte changed: the value that each
//! holds then, or why it holds none. The answers were worked out by hand from the layouts.

use crate::changes::{Change, TEXT, expect_changes};
use rb_rows_calls::surprise::Surprise;

// A tag behind two pointers, with constants beside it.
const FAR: &str =
    "type Far = Near(u8) | Far(u16);layout Far <32> = split 0[0:32] -> 8 @0:32[0:32] -> 4 @1:8[0:4] { 3 => Near(_) : { word 32 { [0:32] -> 8 { word 32 { [0:32] -> 4 { word 8 { [0:8] .0 }, word 8 { [0:4] = 3 } } } } } } 12 => Far(_) : { word 32 { [0:32] -> 8 { word 32 { [0:32] -> 4 { word 8 { }, word 8 { [0:4] = 12, [4:4] = 9 }, word 16 { [0:16] .0 } } }, word 8 { [0:8] = 170 } } } } };fun main(f: Far): Far = f;";

// Constants, and a number cut into slices.
const FIXED: &str =
    "type Color = Red | Black;layout Color <1> = split 0[0:1] { 0 => Red : { word 1 { [0:1] = 0 } } 1 => Black : { word 1 { [0:1] = 1 } } };type Fixed = Fixed(u16, Color);layout Fixed <64> = Fixed(_, _) : { word 64 { [0:3] = 5, [3:61] -> 8 { word 16 { [0:8] = 255, [8:8] .0[0:8] }, word 16 { [0:8] .0[8:8], [8:1] .1, [15:1] = 1 }, word 32 { [0:32] = 4096 } } } };fun main(f: Fixed): Fixed = f;";

// A pair of small numbers, each in a root word.
const TWOS: &str =
    "type Twos = Twos(u3, u2);layout Twos <3, 2> = Twos(_, _) : { word 3 { [0:3] .0 }, word 2 { [0:2] .1 } };fun main(t: Twos): Twos = t;";

// Two types over one byte: the one holds all numbers, the other those whose upper half is 6.
const BOTH: &str =
    "type Any = Any(u8);layout Any <32> = Any(_) : { word 32 { [0:32] -> 4 { word 8 { [0:8] .0 } } } };type Six = Six(u4);layout Six <32> = Six(_) : { word 32 { [0:32] -> 4 { word 8 { [0:4] .0, [4:4] = 6 } } } };type Both = Both(Any, Six);layout Both <32, 32> = Both(_, _) : { inline .0, inline .1 };fun main(b: Both): Both = b;";

// A number behind two pointers, both of which a split passes.
const FARS: [Change; 13] = [
    // no block
    (TEXT, 7, b'0', "16 ribbit: image 44: base 0, address 0;"),
    // behind all blocks
    (TEXT, 7, b'a', "16 ribbit: image 44: base 0, address 80;"),
    // the bytes of the inner block, read as a pointer
    (
        TEXT,
        7,
        b'8',
        "16 ribbit: image 44: base 64, address 134639616;",
    ),
    // free bits
    (0, 0, 0xff, "0 Far(513);"),
    // no arm for 13
    (0, 1, 0x9d, "16 ribbit: image 43: base 64, place 1;"),
    // a constant beside the split's bits
    (0, 1, 0x8c, "16 ribbit: image 43: base 64, place 1;"),
    // Near has a block of four bytes
    (0, 1, 0x93, "16 ribbit: image 44: base 0, address 72;"),
    // the number
    (0, 2, 0x02, "0 Far(514);"),
    // behind the inner block
    (1, 0, 0x11, "16 ribbit: image 44: base 72, address 68;"),
    // its own block
    (1, 0, 0x12, "16 ribbit: image 44: base 72, address 72;"),
    // below all blocks
    (1, 0, 0x0f, "16 ribbit: image 44: base 72, address 60;"),
    // the highest bit, times four
    (
        1,
        3,
        0x80,
        "16 ribbit: image 44: base 72, address 8589934656;",
    ),
    // a constant behind the pointer
    (1, 4, 0xab, "16 ribbit: image 43: base 72, place 4;"),
];

// The other leaf of it.
const NEARS: [Change; 5] = [
    // no word of 32 bits lies in the block
    (TEXT, 7, b'8', "16 ribbit: image 44: base 0, address 64;"),
    // the number
    (0, 0, 0x00, "0 Near(0);"),
    // free bits
    (0, 1, 0xf3, "0 Near(200);"),
    // Far has a block of five bytes
    (0, 1, 0x0c, "16 ribbit: image 44: base 0, address 72;"),
    // no arm for 2
    (0, 1, 0x02, "16 ribbit: image 43: base 64, place 1;"),
];

// Constants in a root word and in a block, beside the slices of a number.
const CONSTANTS: [Change; 11] = [
    // the constant 5 in the root word
    (TEXT, 8, b'4', "16 ribbit: image 43: base 0, place 0;"),
    // it stands before the pointer to 72
    (TEXT, 8, b'c', "16 ribbit: image 43: base 0, place 0;"),
    // the pointer alone
    (TEXT, 8, b'd', "16 ribbit: image 44: base 0, address 72;"),
    // a constant before a slice
    (0, 0, 0xfe, "16 ribbit: image 43: base 64, place 0;"),
    // the slice of the lower bits
    (0, 1, 0x00, "0 Fixed(512, Black);"),
    // that of the upper ones
    (0, 2, 0x03, "0 Fixed(769, Black);"),
    // the bit of the colour
    (0, 3, 0x80, "0 Fixed(513, Red);"),
    // the constant bit
    (0, 3, 0x01, "16 ribbit: image 43: base 64, place 2;"),
    // free bits between
    (0, 3, 0xff, "0 Fixed(513, Black);"),
    // the lowest bit of a constant of 32
    (0, 4, 0x01, "16 ribbit: image 43: base 64, place 4;"),
    // its highest
    (0, 7, 0x80, "16 ribbit: image 43: base 64, place 4;"),
];

// Two root words, of three bits and of two.
const WORDS: [Change; 6] = [
    // 8 has four bits
    (TEXT, 7, b'8', "16 ribbit: image 42: word 0;"),
    // the number
    (TEXT, 7, b'0', "0 Twos(0, 3);"),
    // a block must follow
    (TEXT, 8, b'\n', "16 ribbit: image 40 at byte 9;"),
    // a digit must follow
    (TEXT, 8, b'0', "16 ribbit: image 40 at byte 10;"),
    // 4 has three bits
    (TEXT, 11, b'4', "16 ribbit: image 42: word 1;"),
    // the number
    (TEXT, 11, b'2', "0 Twos(7, 2);"),
];

// Two types that share a block.
const SHARED: [Change; 5] = [
    // sound for Any, at fault for Six
    (0, 0, 0x75, "16 ribbit: image 43: base 64, place 0;"),
    // the numbers
    (0, 0, 0x60, "0 Both(Any(96), Six(0));"),
    // the first pointer
    (TEXT, 8, b'1', "16 ribbit: image 44: base 0, address 68;"),
    // the second one
    (TEXT, 13, b'2', "16 ribbit: image 44: base 0, address 72;"),
    // the block moved
    (TEXT, 22, b'5', "16 ribbit: image 44: base 0, address 64;"),
];

#[test]
fn far_numbers(rt: HostRuntime) -> Result<(), Surprise> {
    let image = "root 0x9;block 64 4 009c0102;block 72 5 10000000aa;";
    let value = "0 Far(513);";
    expect_changes(rt.alloc(), FAR, image, value, &FARS)
}

#[test]
fn near_numbers(rt: HostRuntime) -> Result<(), Surprise> {
    let image = "root 0x9;block 64 2 c803;block 72 4 10000000;";
    let value = "0 Near(200);";
    expect_changes(rt.alloc(), FAR, image, value, &NEARS)
}

#[test]
fn constants(rt: HostRuntime) -> Result<(), Surprise> {
    let image = "root 0x45;block 64 8 ff01028100100000;";
    let value = "0 Fixed(513, Black);";
    expect_changes(rt.alloc(), FIXED, image, value, &CONSTANTS)
}

#[test]
fn root_words(rt: HostRuntime) -> Result<(), Surprise> {
    let image = "root 0x7 0x3;";
    let value = "0 Twos(7, 3);";
    expect_changes(rt.alloc(), TWOS, image, value, &WORDS)
}

#[test]
fn types_that_share_a_block(rt: HostRuntime) -> Result<(), Surprise> {
    let image = "root 0x10 0x10;block 64 1 65;";
    let value = "0 Both(Any(101), Six(5));";
    expect_changes(rt.alloc(), BOTH, image, value, &SHARED)
}
