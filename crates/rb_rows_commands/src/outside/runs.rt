//! `run`, `image`, `count` and `exec` over an outside that fails. The texts were worked out by hand.

use crate::outside::table::{Row, expect_table};
use rb_rows_calls::surprise::Surprise;

// 250 + 2 * 3 is 0 in eight bits.
const SUM: &[u8] = b"fun main(x: u8, y: u8): u8 = add(x, mul(y, 3));";

// A list is given back as it came: two blocks, the inner one first.
const LIST: &[u8] = b"type List = Nil | Cons(u64, List); layout List <64> = split 0[0:1] { \
1 => Nil : { word 64 { [0:1] = 1 } } 0 => Cons(_, _) : { word 64 { [0:1] = 0, \
[3:61] -> 8 { word 64 { [0:64] .0 }, inline .1 } } } }; fun main(l: List): List = l;";

const LIST_IMAGE: &[u8] = b"root 0x50
block 64 16 02000000000000000100000000000000
block 80 16 01000000000000004000000000000000
";

const RUN: [Row; 6] = [
    ("run E 1 64 250 2", SUM, 0, b"0\n", None),
    (
        "run E 1 96 Cons(1,Cons(2,Nil))",
        LIST,
        0,
        b"Cons(1, Cons(2, Nil))\n",
        None,
    ),
    (
        "run E 0 64 250 2",
        SUM,
        4,
        b"ribbit: calls spent: 0\n",
        Some(0),
    ),
    (
        "run E 1 95 Cons(1,Cons(2,Nil))",
        LIST,
        5,
        b"ribbit: region full: next 80, size 16, align 8, limit 95\n",
        Some(0),
    ),
    ("run F 1 64 250 2", b"", 7, b"ribbit: read fault\n", Some(0)),
    ("run E 1 63", b"", 6, b"ribbit: usage at word 4\n", Some(0)),
];

#[test]
fn run(rt: HostRuntime) -> Result<(), Surprise> {
    expect_table(rt.alloc(), &RUN)
}

// A type of one bit with the wrong bit in its first leaf.
const WRONG_BIT: &[u8] = b"type Bit = Off | On; layout Bit <8> = split 0[0:1] { \
0 => Off : { word 8 { [0:1] = 1 } } 1 => On : { word 8 { [0:1] = 1 } } }; fun main(b: Bit): Bit = b;";

// 33 parameters.
const MANY: &[u8] =
    b"fun main(a: u8, b: u8, c: u8, d: u8, e: u8, f: u8, g: u8, h: u8, i: u8, j: u8, k: u8, \
l: u8, m: u8, n: u8, o: u8, p: u8, q: u8, r: u8, s: u8, t: u8, u: u8, v: u8, w: u8, x: u8, y: u8, z: u8, \
aa: u8, ab: u8, ac: u8, ad: u8, ae: u8, af: u8, ag: u8): u8 = a;";

// Files and values that are refused.
const UNRUN: [Row; 5] = [
    (
        "run E 1 64",
        b"fun main(): u8 = add(1);",
        1,
        b"ribbit: syntax at byte 22\n",
        Some(0),
    ),
    (
        "run E 1 64",
        b"fun main(): u16 = to u8(1);",
        2,
        b"ribbit: wanted u16, found u8 at byte 18\n",
        Some(0),
    ),
    (
        "run E 1 64 Off",
        WRONG_BIT,
        3,
        b"ribbit: layout of Bit: A7: leaf Off: literal 0 not known at 0[0:1]\n",
        Some(0),
    ),
    (
        "run E 1 64 Cons(1,)",
        LIST,
        10,
        b"ribbit: argument 1: syntax at byte 7\n",
        Some(0),
    ),
    (
        "run E 1 64",
        MANY,
        11,
        b"ribbit: limit parameters: 33 over 32\n",
        Some(0),
    ),
];

#[test]
fn run_refused(rt: HostRuntime) -> Result<(), Surprise> {
    expect_table(rt.alloc(), &UNRUN)
}

const IMAGE: [Row; 4] = [
    (
        "image E 1 1024 Cons(1,Cons(2,Nil))",
        LIST,
        0,
        LIST_IMAGE,
        None,
    ),
    (
        "image E 1 64",
        LIST,
        10,
        b"ribbit: wanted 1 arguments, found 0\n",
        Some(0),
    ),
    ("image F 1 64", b"", 7, b"ribbit: read fault\n", Some(0)),
    ("image E", b"", 6, b"ribbit: usage at word 3\n", Some(0)),
];

#[test]
fn image(rt: HostRuntime) -> Result<(), Surprise> {
    expect_table(rt.alloc(), &IMAGE)
}

const COUNT: [Row; 4] = [
    (
        "count E 1 64 250 2",
        SUM,
        0,
        b"value 0\ncalls 1\nswitches 0\nblocks 0\nbytes 0\n",
        None,
    ),
    (
        "count E 1 64 250 256",
        SUM,
        10,
        b"ribbit: argument 2: no value of u8 at byte 0\n",
        Some(0),
    ),
    ("count F 1 64", b"", 7, b"ribbit: read fault\n", Some(0)),
    ("count E 1", b"", 6, b"ribbit: usage at word 4\n", Some(0)),
];

#[test]
fn count(rt: HostRuntime) -> Result<(), Surprise> {
    expect_table(rt.alloc(), &COUNT)
}

// 3 is given back, and another word has no target.
const CODE: &[u8] = b"fun t 1 1 1\nswitch 0 - 3 1\nreturn 0\nend\n";

const EXEC: [Row; 8] = [
    ("exec E t 1 64 3", CODE, 0, b"3\n", Some(2)),
    (
        "exec E t 1 64 5",
        CODE,
        12,
        b"ribbit: trap 32: word 5\n",
        Some(1),
    ),
    (
        "exec E t 0 64 3",
        CODE,
        4,
        b"ribbit: calls spent: 0\n",
        Some(0),
    ),
    (
        "exec E t 1 65",
        b"fun t 0 0 1\nplace 0 2 1\nreturn\nend\n",
        5,
        b"ribbit: region full: next 64, size 2, align 1, limit 65\n",
        Some(1),
    ),
    (
        "exec E u 1 64 3",
        CODE,
        10,
        b"ribbit: no function u\n",
        Some(0),
    ),
    (
        "exec E t 1 64",
        b"fun t 0 0 0\nreturn\nen",
        14,
        b"ribbit: code 20 at byte 21\n",
        Some(0),
    ),
    ("exec F t 1 64 3", b"", 7, b"ribbit: read fault\n", Some(0)),
    ("exec E t 1", b"", 6, b"ribbit: usage at word 5\n", Some(0)),
];

#[test]
fn exec(rt: HostRuntime) -> Result<(), Surprise> {
    expect_table(rt.alloc(), &EXEC)
}
