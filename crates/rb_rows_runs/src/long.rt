//! Lists of half a million numbers, as arguments and as values: words of some megabytes, as many nodes as a value may
//! have, and one number more. Counted by hand from the files: two nodes, sixteen bytes and a call for each number.

use crate::layouts::{LIST, SUM};
use rb_rows_calls::call::{expect_answer, repeated_text};
use rb_rows_calls::rows::expect_words;
use rb_rows_calls::surprise::Surprise;
use std::alloc::Global;

// A list in a constructor: two nodes for each number, and two.
const WRAPPED: &str =
    "type List = Nil | Cons(u64, List); layout List <64> = split 0[0:1] { 1 => Nil : { word 64 { [0:1] = 1 } } 0 => Cons(_, _) : { word 64 { [0:1] = 0, [3:61] -> 8 { word 64 { [0:64] .0 }, inline .1 } } } };type One = Wrap(List);layout One <64> = Wrap(_) : { inline .0 };fun main(o: One): u64 = match o { Wrap(Nil) => 0, Wrap(Cons(x, r)) => x };";

/// The list of the numbers from 1 up to this one.
pub const UP: &str =
    "type List = Nil | Cons(u64, List); layout List <64> = split 0[0:1] { 1 => Nil : { word 64 { [0:1] = 1 } } 0 => Cons(_, _) : { word 64 { [0:1] = 0, [3:61] -> 8 { word 64 { [0:64] .0 }, inline .1 } } } };fun up(n: u64, l: List): List = match n { 0 => l, _ => up(sub(n, 1), Cons(n, l)) };fun main(n: u64): List = up(n, Nil);";

// Looks what is answered to words, behind which a list of so many ones follows, and then so many `)`.
fn expect_long(
    alloc: Global,
    file: &str,
    words: &str,
    counts: (usize, usize),
    wanted: &str,
) -> Result<(), Surprise> {
    let (ones, closed) = counts;
    let front = repeated_text(alloc, words, "Cons(1,", ones, "Nil")?;
    let words = repeated_text(alloc, front.as_str(), ")", closed, "")?;
    expect_answer(alloc, words.as_str(), file.as_bytes(), wanted)
}

// A million nodes but one are encoded in blocks of eight megabytes, and the run goes through them as far
// as its calls last.
#[test]
fn as_many_nodes_as_a_value_may_have(rt: HostRuntime) -> Result<(), Surprise> {
    let wanted = "4 ribbit: calls spent: 1000;";
    let words = "run E 1000 16777216 ";
    expect_long(rt.alloc(), SUM, words, (499_999, 499_999), wanted)
}

// The block of the first number is the last that is placed, and does not fit into a region that is a byte too short.
#[test]
fn a_region_one_byte_too_short(rt: HostRuntime) -> Result<(), Surprise> {
    let wanted = "5 ribbit: region full: next 8000032, size 16, align 8, limit 8000047;";
    let words = "run E 1000 8000047 ";
    expect_long(rt.alloc(), SUM, words, (499_999, 499_999), wanted)
}

// In the region into which a number less fits to the last byte.
#[test]
fn one_number_more(rt: HostRuntime) -> Result<(), Surprise> {
    let wanted = "10 ribbit: argument 1: over 1000000 nodes;";
    let words = "run E 1 8000048 ";
    expect_long(rt.alloc(), LIST, words, (500_000, 500_000), wanted)
}

#[test]
fn a_million_nodes(rt: HostRuntime) -> Result<(), Surprise> {
    let words = "run E 1 16777216 Wrap(";
    expect_long(rt.alloc(), WRAPPED, words, (499_999, 500_000), "0 1;")
}

// Words, answer.
const BUILT: [(&str, &str); 3] = [
    (
        "run E 500001 8000047 499999",
        "5 ribbit: region full: next 8000032, size 16, align 8, limit 8000047;",
    ),
    (
        "run E 500000 8000048 499999",
        "4 ribbit: calls spent: 500000;",
    ),
    (
        "run E 500002 8000064 500000",
        "13 ribbit: value over 1000000 nodes;",
    ),
];

#[test]
fn lists_that_are_built(rt: HostRuntime) -> Result<(), Surprise> {
    expect_words(rt.alloc(), UP.as_bytes(), &BUILT)
}
