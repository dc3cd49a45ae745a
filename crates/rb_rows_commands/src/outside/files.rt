//! `check`, `layout` and `compile` over an outside that fails. The texts were worked out by hand.

use crate::outside::call::{NOTHING_FAILS, alone, call};
use crate::outside::table::{Row, expect_table};
use rb_rows_calls::call::expect_answer;
use rb_rows_calls::surprise::Surprise;

const CHECK: [Row; 4] = [
    (
        "check E",
        b"fun main(x: u8): u8 = match x { _ => 5, 0 => 6 };",
        0,
        b"note: clause 1 of the match at byte 22 is never reached\nok\n",
        Some(0),
    ),
    (
        "check E",
        b"fun main(x: u1): u8 = match x { 0 => 5 };",
        2,
        b"ribbit: match at byte 22 misses 1\n",
        Some(0),
    ),
    ("check F", b"", 7, b"ribbit: read fault\n", Some(0)),
    ("check", b"", 6, b"ribbit: usage at word 2\n", Some(0)),
];

#[test]
fn check(rt: HostRuntime) -> Result<(), Surprise> {
    expect_table(rt.alloc(), &CHECK)
}

// A type of one bit in a word of eight.
const BIT: &[u8] = b"type Bit = Off | On; layout Bit <8> = split 0[0:1] { \
0 => Off : { word 8 { [0:1] = 0 } } 1 => On : { word 8 { [0:1] = 1 } } }; fun main(b: Bit): Bit = b;";

// The same with the wrong bit in its first leaf.
const WRONG_BIT: &[u8] = b"type Bit = Off | On; layout Bit <8> = split 0[0:1] { \
0 => Off : { word 8 { [0:1] = 1 } } 1 => On : { word 8 { [0:1] = 1 } } }; fun main(b: Bit): Bit = b;";

const BIT_TEXT: &[u8] = b"type Bit
leaf Off
when 0[0:1] = 0
word 0: 8 bits
  0:1 = 0
  1:7 free
leaf On
when 0[0:1] = 1
word 0: 8 bits
  0:1 = 1
  1:7 free
";

const LAYOUT: [Row; 4] = [
    ("layout E", BIT, 0, BIT_TEXT, Some(0)),
    (
        "layout E",
        WRONG_BIT,
        3,
        b"ribbit: layout of Bit: A7: leaf Off: literal 0 not known at 0[0:1]\n",
        Some(0),
    ),
    ("layout F", b"", 7, b"ribbit: read fault\n", Some(0)),
    ("layout", b"", 6, b"ribbit: usage at word 2\n", Some(0)),
];

#[test]
fn layout(rt: HostRuntime) -> Result<(), Surprise> {
    expect_table(rt.alloc(), &LAYOUT)
}

// Files and words that are refused.
const UNCOMPILED: [Row; 3] = [
    (
        "compile E",
        b"fun main(): u8 = y;",
        2,
        b"ribbit: unknown name y at byte 17\n",
        Some(0),
    ),
    ("compile F", b"", 7, b"ribbit: read fault\n", Some(0)),
    ("compile", b"", 6, b"ribbit: usage at word 2\n", Some(0)),
];

#[test]
fn compile_refused(rt: HostRuntime) -> Result<(), Surprise> {
    expect_table(rt.alloc(), &UNCOMPILED)
}

const COMPILED: &[u8] = b"fun main(x: u8): u8 = add(x, 1);";

// Which code does it is the program's choice, so its text is the one that a call gives where nothing
// fails, and is run.
#[test]
fn compile(rt: HostRuntime) -> Result<(), Surprise> {
    let alloc = rt.alloc();
    let did = call(alloc, "compile E", alone(COMPILED), NOTHING_FAILS)?;
    let code = did.out.as_slice();
    expect_answer(alloc, "exec E main 1 64 255", code, "0 0;")?;
    expect_table(alloc, &[("compile E", COMPILED, 0, code, Some(0))])
}
