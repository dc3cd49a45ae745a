//! Counts of runs: calls, switches, blocks and bytes. The answers were given by the language's pages, and
//! by a program apart from this one that was written from them alone. How many switches code does is its
//! own; the greatest number that it may do is given.

use crate::layouts::{INSERT, LIST, PAIR, SUM, TWIN};
use rb_rows_calls::counts::expect_count_table;
use rb_rows_calls::rows::expect_table;
use rb_rows_calls::surprise::Surprise;

/// Four bits are told apart in at most four switches.
pub const FOUR: &str =
    "type K = A | B;layout K <1> = split 0[0:1] { 0 => A : { word 1 { [0:1] = 0 } } 1 => B : { word 1 { [0:1] = 1 } } };type Q = Q4(K, K, K, K);layout Q <4> = Q4(_, _, _, _) : { word 4 { [0:1] .0, [1:1] .1, [2:1] .2, [3:1] .3 } };fun main(q: Q): u8 = match q { Q4(A, A, _, _) => 1, Q4(_, _, A, A) => 2, _ => 3 };";

// For each file limits and values, lines, switches, lines.
const SUM_ROWS: &str = "10 1024 Cons(1,Cons(2,Nil))~value 3;calls 4;~3~blocks 2;bytes 32;
4 96 Cons(1,Cons(2,Nil))~value 3;calls 4;~3~blocks 2;bytes 32;";

const LIST_ROWS: &str = "1 64 Nil~value Nil;calls 1;~0~blocks 0;bytes 0;";

const INSERT_ROWS: &str =
    "3 100 Node(Black,Empty,7,Empty) 9~value Node(Black, Empty, 7, Node(Red, Empty, 9, Empty));calls 3;~4~blocks 3;bytes 36;";

const TWIN_ROWS: &str =
    "40 1024 2~value Fork(Fork(Tip, Tip), Fork(Tip, Tip));calls 4;~3~blocks 2;bytes 32;";

const FOUR_ROWS: &str = "1 64 Q4(A,B,A,B)~value 3;calls 1;~4~blocks 0;bytes 0;";

const PAIR_ROWS: &str = "9 1024 Two(5,6)~value Two(5, 6);calls 1;~0~blocks 2;bytes 24;";

#[test]
fn counts_of_runs(rt: HostRuntime) -> Result<(), Surprise> {
    let alloc = rt.alloc();
    expect_count_table(alloc, SUM, "count E ", SUM_ROWS)?;
    expect_count_table(alloc, LIST, "count E ", LIST_ROWS)?;
    expect_count_table(alloc, INSERT, "count E ", INSERT_ROWS)?;
    expect_count_table(alloc, TWIN, "count E ", TWIN_ROWS)?;
    expect_count_table(alloc, FOUR, "count E ", FOUR_ROWS)?;
    expect_count_table(alloc, PAIR, "count E ", PAIR_ROWS)
}

// For each file limits and values, and the answer.
const SUM_REFUSED: &str = "3 1024 Cons(1,Cons(2,Nil))~4 ribbit: calls spent: 3;
10 95 Cons(1,Cons(2,Nil))~5 ribbit: region full: next 80, size 16, align 8, limit 95;
9 64~10 ribbit: wanted 1 arguments, found 0;
9 64 Cons(1)~10 ribbit: argument 1: no value of List at byte 0;";

const INSERT_REFUSED: &str =
    "3 99 Node(Black,Empty,7,Empty) 9~5 ribbit: region full: next 88, size 12, align 4, limit 99;";

// 480 bytes in memory, and two billion nodes
const TWIN_REFUSED: &str = "40 1024 30~13 ribbit: value over 1000000 nodes;";

#[test]
fn counts_refused(rt: HostRuntime) -> Result<(), Surprise> {
    let alloc = rt.alloc();
    expect_table(alloc, SUM, "count E ", SUM_REFUSED)?;
    expect_table(alloc, INSERT, "count E ", INSERT_REFUSED)?;
    expect_table(alloc, TWIN, "count E ", TWIN_REFUSED)
}
