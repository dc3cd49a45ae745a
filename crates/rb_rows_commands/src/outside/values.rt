//! `value` and `peek` over an outside that fails. The texts were worked out by hand.

use crate::outside::table::{ImageRow, expect_images};
use rb_rows_calls::surprise::Surprise;

const LIST: &[u8] = b"type List = Nil | Cons(u64, List); layout List <64> = split 0[0:1] { \
1 => Nil : { word 64 { [0:1] = 1 } } 0 => Cons(_, _) : { word 64 { [0:1] = 0, \
[3:61] -> 8 { word 64 { [0:64] .0 }, inline .1 } } } }; fun main(l: List): List = l;";

const LIST_IMAGE: &[u8] = b"root 0x50
block 64 16 02000000000000000100000000000000
block 80 16 01000000000000004000000000000000
";

// The second block leads to itself.
const RING: &[u8] = b"root 0x50
block 64 16 02000000000000000100000000000000
block 80 16 01000000000000005000000000000000
";

const VALUE: [ImageRow; 7] = [
    ("value E I", LIST, LIST_IMAGE, 0, b"Cons(1, Cons(2, Nil))\n"),
    (
        "value E I",
        LIST,
        RING,
        16,
        b"ribbit: image 44: base 80, address 80\n",
    ),
    (
        "value E I",
        LIST,
        b"root 0x50\nblock 64 16 zz",
        16,
        b"ribbit: image 40 at byte 22\n",
    ),
    // a file that is refused is not followed by its image
    (
        "value E I",
        b"fun main(): u8 = y;",
        b"",
        2,
        b"ribbit: unknown name y at byte 17\n",
    ),
    ("value F I", b"", b"", 7, b"ribbit: read fault\n"),
    // no image is held under the name `J`
    ("value E J", LIST, b"", 7, b"ribbit: read fault\n"),
    ("value E", b"", b"", 6, b"ribbit: usage at word 3\n"),
];

#[test]
fn value(rt: HostRuntime) -> Result<(), Surprise> {
    expect_images(rt.alloc(), &VALUE)
}

const PEEK: [ImageRow; 6] = [
    ("peek E I .1", LIST, LIST_IMAGE, 0, b"Cons(2, Nil)\n"),
    // the first item of the ring, which is off the path
    ("peek E I .0", LIST, RING, 0, b"1\n"),
    (
        "peek E I .1.0",
        LIST,
        RING,
        16,
        b"ribbit: image 44: base 80, address 80\n",
    ),
    (
        "peek E I .1.1.0",
        LIST,
        LIST_IMAGE,
        16,
        b"ribbit: image 46: step 2\n",
    ),
    (
        "peek E I .",
        b"fun main(): u8 = y;",
        b"",
        2,
        b"ribbit: unknown name y at byte 17\n",
    ),
    ("peek E I 1", b"", b"", 6, b"ribbit: usage at word 4\n"),
];

#[test]
fn peek(rt: HostRuntime) -> Result<(), Surprise> {
    expect_images(rt.alloc(), &PEEK)
}
