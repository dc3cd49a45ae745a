//! `gen` and `genrun` over an outside that fails: they make no call of the source. The texts were worked
//! out by hand.

use crate::outside::call::{NOTHING_FAILS, alone, call};
use crate::outside::table::{Row, expect_row, expect_table};
use rb_rows_calls::counts::expect_counts;
use rb_rows_calls::surprise::Surprise;

// The file with one function.
const ONE: &[u8] = b"type List = Nil | Cons(u64, List);
layout List <64> = split 0[0:1] { 1 => Nil : { word 64 { [0:1] = 1 } } 0 => Cons(_, _) : { word 64 { [0:1] = 0, [3:61] -> 8 { word 64 { [0:64] .0 }, inline .1 } } } };
fun up(n: u64, l: List): List = match n { 0 => l, _ => up(sub(n, 1), Cons(n, l)) };
fun f0(l: List): u64 = match l { Nil => 0, Cons(x, r) => add(x, f0(r)) };
fun main(): u64 = f0(up(3000, Nil));
";

const GENERATE: [Row; 3] = [
    ("gen 1", b"", 0, ONE, Some(0)),
    ("gen 0", b"", 6, b"ribbit: usage at word 2\n", Some(0)),
    ("gen 1 1", b"", 6, b"ribbit: usage at word 3\n", Some(0)),
];

#[test]
fn generate(rt: HostRuntime) -> Result<(), Surprise> {
    expect_table(rt.alloc(), &GENERATE)
}

// Limits that are passed, and words that are no command.
const UNCOUNTED: [Row; 2] = [
    (
        "genrun 1 0 64",
        b"",
        4,
        b"ribbit: calls spent: 0\n",
        Some(0),
    ),
    (
        "genrun 1 6003 63",
        b"",
        6,
        b"ribbit: usage at word 4\n",
        Some(0),
    ),
];

#[test]
fn count_refused(rt: HostRuntime) -> Result<(), Surprise> {
    expect_table(rt.alloc(), &UNCOUNTED)
}

const RUN: &str = "genrun 1 6003 48064";

#[test]
fn count(rt: HostRuntime) -> Result<(), Surprise> {
    let before = "value 4501500;calls 6003;";
    let behind = "blocks 3000;bytes 48000;";
    expect_counts(rt.alloc(), RUN, b"", before, 6002, behind)
}

// How many switches are done is the code's choice, so their line is the one that a call gives where
// nothing fails. A run makes 6,003 calls, so its text is taken in pieces of one size alone.
#[test]
fn count_generated(rt: HostRuntime) -> Result<(), Surprise> {
    let alloc = rt.alloc();
    let did = call(alloc, RUN, alone(b""), NOTHING_FAILS)?;
    expect_row(alloc, (RUN, b"", 0, did.out.as_slice(), None), &[20])
}
