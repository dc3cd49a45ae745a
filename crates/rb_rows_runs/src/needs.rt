//! Programs at their needs: the least CALLS and the least REGION with which each gives its value, one less of each,
//! and one more of both. The needs were counted by hand: the calls of the source, that of `main` included, and the
//! end of the last block, the arguments' blocks first.

use crate::deep::{COLOUR, INSERTED};
use crate::images::{OPTION, PADDED};
use crate::layouts::{INSERT, LIST, PAIR, PUSHED, SHAPE, SHAPES, SUM, TWIN};
use crate::long::UP;
use rb_rows_calls::call::expect_answer;
use rb_rows_calls::rows::expect_table;
use rb_rows_calls::surprise::Surprise;
use std::alloc::Global;

// A list is built by recursion, and summed.
const BUILT: &str =
    "type List = Nil | Cons(u64, List); layout List <64> = split 0[0:1] { 1 => Nil : { word 64 { [0:1] = 1 } } 0 => Cons(_, _) : { word 64 { [0:1] = 0, [3:61] -> 8 { word 64 { [0:64] .0 }, inline .1 } } } };fun build(n: u64): List = match n { 0 => Nil, _ => Cons(n, build(sub(n, 1))) };fun sum(l: List): u64 = match l { Nil => 0, Cons(x, r) => add(x, sum(r)) };fun main(n: u64): u64 = sum(build(n));";

// File, values, the value of `main`, the calls and the region that are needed, and the last block that is asked for.
type Need<'a> = (&'a str, &'a str, &'a str, u64, u64, &'a str);

// Programs on lists, pairs and trees of two halves.
const OF_LISTS: [Need; 7] = [
    (
        SUM,
        "Cons(1,Cons(2,Nil))",
        "3",
        4,
        96,
        "next 80, size 16, align 8",
    ),
    (
        LIST,
        "Cons(1,Cons(2,Nil))",
        "Cons(1, Cons(2, Nil))",
        1,
        96,
        "next 80, size 16, align 8",
    ),
    (
        PUSHED,
        "Nil",
        "Cons(9, Nil)",
        1,
        80,
        "next 64, size 16, align 8",
    ),
    (
        UP,
        "3",
        "Cons(1, Cons(2, Cons(3, Nil)))",
        5,
        112,
        "next 96, size 16, align 8",
    ),
    (BUILT, "3", "6", 9, 112, "next 96, size 16, align 8"),
    (
        TWIN,
        "2",
        "Fork(Fork(Tip, Tip), Fork(Tip, Tip))",
        4,
        96,
        "next 80, size 16, align 8",
    ),
    (
        PAIR,
        "Two(5,6)",
        "Two(5, 6)",
        1,
        88,
        "next 72, size 16, align 8",
    ),
];

// The same of trees, shapes and pairs.
const OF_OTHERS: [Need; 7] = [
    (
        INSERT,
        "Node(Black,Empty,7,Empty) 9",
        "Node(Black, Empty, 7, Node(Red, Empty, 9, Empty))",
        3,
        100,
        "next 88, size 12, align 4",
    ),
    (
        INSERTED,
        "Node(Black,Empty,7,Empty) 9",
        "Node(Black, Empty, 7, Node(Red, Empty, 9, Empty))",
        3,
        100,
        "next 88, size 12, align 4",
    ),
    (
        COLOUR,
        "Node(Red,Empty,7,Empty)",
        "Red",
        1,
        76,
        "next 64, size 12, align 4",
    ),
    (
        OPTION,
        "Yes(Node(Black,Empty,7,Empty))",
        "Yes(Node(Black, Empty, 7, Empty))",
        1,
        76,
        "next 64, size 12, align 4",
    ),
    (SHAPE, "Box(1,2)", "3", 1, 73, "next 64, size 9, align 4"),
    (
        SHAPES,
        "Box(1,2) Dot(5)",
        "0",
        1,
        78,
        "next 73, size 2, align 4",
    ),
    (
        PADDED,
        "255",
        "Two(255, 255)",
        1,
        70,
        "next 64, size 6, align 8",
    ),
];

// Looks whether a run with these limits answers so.
fn expect_run(
    alloc: Global,
    file: &str,
    calls: u64,
    region: u64,
    values: &str,
    wanted: &str,
) -> Result<(), Surprise> {
    let words = format!(in alloc; "run E {calls} {region} {values}")?;
    expect_answer(alloc, words.as_str(), file.as_bytes(), wanted)
}

// Looks at a program at its needs, above both, and below each.
fn expect_need(alloc: Global, need: &Need) -> Result<(), Surprise> {
    let (file, values, value, calls, region, last) = *need;
    let fewer = calls.saturating_sub(1);
    let smaller = region.saturating_sub(1);
    let shown = format!(in alloc; "0 {value};")?;
    expect_run(alloc, file, calls, region, values, shown.as_str())?;
    let (more, larger) = (calls.saturating_add(1), region.saturating_add(1));
    expect_run(alloc, file, more, larger, values, shown.as_str())?;
    let spent = format!(in alloc; "4 ribbit: calls spent: {fewer};")?;
    expect_run(alloc, file, fewer, region, values, spent.as_str())?;
    let full = format!(in alloc; "5 ribbit: region full: {last}, limit {smaller};")?;
    expect_run(alloc, file, calls, smaller, values, full.as_str())
}

// Looks at each program so.
fn expect_needs(alloc: Global, needs: &[Need]) -> Result<(), Surprise> {
    for need in needs {
        expect_need(alloc, need)?;
    }
    Ok(())
}

#[test]
fn lists_at_their_needs(rt: HostRuntime) -> Result<(), Surprise> {
    expect_needs(rt.alloc(), &OF_LISTS)
}

#[test]
fn others_at_their_needs(rt: HostRuntime) -> Result<(), Surprise> {
    expect_needs(rt.alloc(), &OF_OTHERS)
}

// For each file limits and values, and the answer: where both limits would be passed, the first is named.
const UP_FIRST: &str = "3 111 3~4 ribbit: calls spent: 3;
4 111 3~5 ribbit: region full: next 96, size 16, align 8, limit 111;";

const BUILT_FIRST: &str = "4 64 3~4 ribbit: calls spent: 4;
5 64 3~5 ribbit: region full: next 64, size 16, align 8, limit 64;";

const INSERT_FIRST: &str = "2 76 Node(Black,Empty,7,Empty) 9~4 ribbit: calls spent: 2;
3 76 Node(Black,Empty,7,Empty) 9~5 ribbit: region full: next 76, size 12, align 4, limit 76;";

#[test]
fn the_limit_that_is_passed_first(rt: HostRuntime) -> Result<(), Surprise> {
    let alloc = rt.alloc();
    expect_table(alloc, UP, "run E ", UP_FIRST)?;
    expect_table(alloc, BUILT, "run E ", BUILT_FIRST)?;
    expect_table(alloc, INSERT, "run E ", INSERT_FIRST)
}
