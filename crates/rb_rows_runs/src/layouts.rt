//! Files with layouts that are run. The answers were given by a program apart from
//! this one, written from the language's pages alone.

use rb_rows_calls::call::{expect_answer, repeated_text};
use rb_rows_calls::rows::{expect_table, expect_words};
use rb_rows_calls::surprise::Surprise;
use std::alloc::{AllocError, Global};

/// A list is summed; its tag is the lowest bit of a pointer.
pub const SUM: &str =
    "type List = Nil | Cons(u64, List); layout List <64> = split 0[0:1] { 1 => Nil : { word 64 { [0:1] = 1 } } 0 => Cons(_, _) : { word 64 { [0:1] = 0, [3:61] -> 8 { word 64 { [0:64] .0 }, inline .1 } } } };fun sum(l: List): u64 = match l { Nil => 0, Cons(x, r) => add(x, sum(r)) };fun main(l: List): u64 = sum(l);";

/// The same list, as it is.
pub const LIST: &str =
    "type List = Nil | Cons(u64, List); layout List <64> = split 0[0:1] { 1 => Nil : { word 64 { [0:1] = 1 } } 0 => Cons(_, _) : { word 64 { [0:1] = 0, [3:61] -> 8 { word 64 { [0:64] .0 }, inline .1 } } } };fun main(l: List): List = l;";

/// A tree with a node's color in the lowest bit of a pointer; a number is inserted.
pub const INSERT: &str =
    "type Color = Red | Black;layout Color <1> = split 0[0:1] { 0 => Red : { word 1 { [0:1] = 0 } } 1 => Black : { word 1 { [0:1] = 1 } } };type Tree = Empty | Node(Color, Tree, u32, Tree);layout Tree <32> = split 0[0:32] { 0 => Empty : { word 32 { [0:32] = 0 } } else => Node(_, _, _, _) : { word 32 { [0:1] .0, [2:22] -> 4 { word 32 { [0:32] .2 }, inline .1, inline .3 } } } };fun insert(t: Tree, x: u32): Tree = match t { Empty => Node(Red, Empty, x, Empty), Node(c, l, y, r) => match lt(x, y) { 1 => Node(c, insert(l, x), y, r), 0 => match lt(y, x) { 1 => Node(c, l, y, insert(r, x)), 0 => t } } };fun main(t: Tree, x: u32): Tree = insert(t, x);";

/// A shape whose tag stands behind its pointer.
pub const SHAPE: &str =
    "type Shape = Dot(u8) | Box(u32, u32);layout Shape <32> = split 0[0:32] -> 4 @0:8[0:8] { 0 => Dot(_) : { word 32 { [0:32] -> 4 { word 8 { [0:8] = 0 }, word 8 { [0:8] .0 } } } } 1 => Box(_, _) : { word 32 { [0:32] -> 4 { word 8 { [0:8] = 1 }, word 32 { [0:32] .0 }, word 32 { [0:32] .1 } } } } };fun main(s: Shape): u32 = match s { Dot(b) => to u32(b), Box(x, y) => add(x, y) };";

/// Two such shapes, which are not looked at.
pub const SHAPES: &str =
    "type Shape = Dot(u8) | Box(u32, u32);layout Shape <32> = split 0[0:32] -> 4 @0:8[0:8] { 0 => Dot(_) : { word 32 { [0:32] -> 4 { word 8 { [0:8] = 0 }, word 8 { [0:8] .0 } } } } 1 => Box(_, _) : { word 32 { [0:32] -> 4 { word 8 { [0:8] = 1 }, word 32 { [0:32] .0 }, word 32 { [0:32] .1 } } } } };fun main(s: Shape, t: Shape): u32 = 0;";

/// A pair in two blocks.
pub const PAIR: &str =
    "type Pair = Two(u64, u64);layout Pair <64> = Two(_, _) : { word 64 { [0:64] -> 8 { word 64 { [0:64] .0 }, word 64 { [0:64] -> 8 { word 64 { [0:64] .1 } } } } } };fun main(p: Pair): Pair = p;";

/// An instruction whose numbers are cut into slices.
pub const BRANCH: &str =
    "type Instr = Branch(u3, u5, u5, u12);layout Instr <32> = Branch(_, _, _, _) : { word 32 { [0:7] = 99, [7:1] .3[10:1], [8:4] .3[0:4], [12:3] .0, [15:5] .1, [20:5] .2, [25:6] .3[4:6], [31:1] .3[11:1] } };fun main(i: Instr): Instr = i;";

/// A tree of shared halves, which is small in memory and large as a value.
pub const TWIN: &str =
    "type Twin = Tip | Fork(Twin, Twin);layout Twin <64> = split 0[0:1] { 1 => Tip : { word 64 { [0:1] = 1 } } 0 => Fork(_, _) : { word 64 { [0:1] = 0, [3:61] -> 8 { inline .0, inline .1 } } } };fun grow(n: u64, t: Twin): Twin = match n { 0 => t, _ => grow(sub(n, 1), Fork(t, t)) };fun main(n: u64): Twin = grow(n, Tip);";

// One bit.
const COLOR: &str =
    "type Color = Red | Black; layout Color <1> = split 0[0:1] { 0 => Red : { word 1 { [0:1] = 0 } } 1 => Black : { word 1 { [0:1] = 1 } } }; fun other(c: Color): Color = match c { Red => Black, Black => Red }; fun main(c: Color): Color = other(c);";

// For each file limits and values, and the answer.
const SUM_ROWS: &str = "10 1024 Cons(1,Cons(2,Nil))~0 3;
4 1024 Cons(1,Cons(2,Nil))~0 3;
3 1024 Cons(1,Cons(2,Nil))~4 ribbit: calls spent: 3;
10 96 Cons(1,Cons(2,Nil))~0 3;
10 95 Cons(1,Cons(2,Nil))~5 ribbit: region full: next 80, size 16, align 8, limit 95;
2 64 Nil~0 0;
0 1024 Nil~4 ribbit: calls spent: 0;
0 64 Cons(1,Nil)~5 ribbit: region full: next 64, size 16, align 8, limit 64;
10 1024~10 ribbit: wanted 1 arguments, found 0;
10 1024 Nil Nil~10 ribbit: wanted 1 arguments, found 2;
10 1024 Cons(1)~10 ribbit: argument 1: no value of List at byte 0;
10 1024 Cons(1,Cons(Nil,Nil))~10 ribbit: argument 1: no value of List at byte 12;
10 1024 Cons(1,Nil~10 ribbit: argument 1: syntax at byte 10;
10 1024 Cons(1,5)~10 ribbit: argument 1: no value of List at byte 7;";

const LIST_ROWS: &str =
    "1 1024 Cons(18446744073709551615,Cons(2,Nil))~0 Cons(18446744073709551615, Cons(2, Nil));";

const INSERT_ROWS: &str =
    "3 100 Node(Black,Empty,7,Empty) 9~0 Node(Black, Empty, 7, Node(Red, Empty, 9, Empty));
3 99 Node(Black,Empty,7,Empty) 9~5 ribbit: region full: next 88, size 12, align 4, limit 99;
2 100 Node(Black,Empty,7,Empty) 9~4 ribbit: calls spent: 2;
9 1024 Node(Black,Empty,7,Empty) 4294967296~10 ribbit: argument 2: no value of u32 at byte 0;
9 1024 Node(Black,Empty,7,Empty) 7~0 Node(Black, Empty, 7, Empty);
9 1024 Node(Blue,Empty,7,Empty) 7~10 ribbit: argument 1: no value of Tree at byte 5;";

const SHAPE_ROWS: &str = "1 1024 Box(1,2)~0 3;
1 1024 Dot(255)~0 255;";

const SHAPES_ROWS: &str = "1 78 Box(1,2) Dot(5)~0 0;
1 77 Box(1,2) Dot(5)~5 ribbit: region full: next 73, size 2, align 4, limit 77;";

const PAIR_ROWS: &str = "1 1024 Two(5,6)~0 Two(5, 6);";

const BRANCH_ROWS: &str = "1 64 Branch(7,31,30,2730)~0 Branch(7, 31, 30, 2730);
1 64 Branch(8,31,30,2730)~10 ribbit: argument 1: no value of Instr at byte 7;";

const TWIN_ROWS: &str = "40 1024 2~0 Fork(Fork(Tip, Tip), Fork(Tip, Tip));";

const COLOR_ROWS: &str = "4 64 Red~0 Black;
4 64 Black~0 Red;";

// Lists and trees.
fn expect_trees(alloc: Global) -> Result<(), Surprise> {
    expect_table(alloc, SUM, "run E ", SUM_ROWS)?;
    expect_table(alloc, LIST, "run E ", LIST_ROWS)?;
    expect_table(alloc, INSERT, "run E ", INSERT_ROWS)
}

// Shapes, pairs and numbers.
fn expect_others(alloc: Global) -> Result<(), Surprise> {
    expect_table(alloc, SHAPE, "run E ", SHAPE_ROWS)?;
    expect_table(alloc, SHAPES, "run E ", SHAPES_ROWS)?;
    expect_table(alloc, PAIR, "run E ", PAIR_ROWS)?;
    expect_table(alloc, BRANCH, "run E ", BRANCH_ROWS)?;
    expect_table(alloc, TWIN, "run E ", TWIN_ROWS)?;
    expect_table(alloc, COLOR, "run E ", COLOR_ROWS)
}

#[test]
fn runs_with_layouts(rt: HostRuntime) -> Result<(), Surprise> {
    let alloc = rt.alloc();
    expect_trees(alloc)?;
    expect_others(alloc)
}

// Words and answers: a million nodes and more in 304 bytes, and two billion in 480. In the third row
// the region has just these, in the fourth one byte less.
const LARGE: [(&str, &str); 4] = [
    ("run E 40 1024 19", "13 ribbit: value over 1000000 nodes;"),
    ("run E 40 1024 30", "13 ribbit: value over 1000000 nodes;"),
    ("run E 40 544 30", "13 ribbit: value over 1000000 nodes;"),
    (
        "run E 40 543 30",
        "5 ribbit: region full: next 528, size 16, align 8, limit 543;",
    ),
];

#[test]
fn a_value_over_the_limit(rt: HostRuntime) -> Result<(), Surprise> {
    expect_words(rt.alloc(), TWIN.as_bytes(), &LARGE)
}

/// 9 is put before a list.
pub const PUSHED: &str =
    "type List = Nil | Cons(u64, List); layout List <64> = split 0[0:1] { 1 => Nil : { word 64 { [0:1] = 1 } } 0 => Cons(_, _) : { word 64 { [0:1] = 0, [3:61] -> 8 { word 64 { [0:64] .0 }, inline .1 } } } };fun main(l: List): List = Cons(9, l);";

// The first number of a list, or 0.
const FIRST: &str =
    "type List = Nil | Cons(u64, List); layout List <64> = split 0[0:1] { 1 => Nil : { word 64 { [0:1] = 1 } } 0 => Cons(_, _) : { word 64 { [0:1] = 0, [3:61] -> 8 { word 64 { [0:64] .0 }, inline .1 } } } };fun main(l: List): u64 = match l { Nil => 0, Cons(x, r) => x };";

// The same.
const LISTS: &str = "1 1024 Cons(1,Cons(2,Nil))~0 Cons(1, Cons(2, Nil));
1 95 Cons(1,Cons(2,Nil))~5 ribbit: region full: next 80, size 16, align 8, limit 95;
0 64 Cons(1,Nil)~5 ribbit: region full: next 64, size 16, align 8, limit 64;
10 1024~10 ribbit: wanted 1 arguments, found 0;
10 1024 Cons(1)~10 ribbit: argument 1: no value of List at byte 0;
1 64 18446744073709551616~10 ribbit: argument 1: syntax at byte 0;";

const PUSHED_LISTS: &str = "1 80 Nil~0 Cons(9, Nil);
1 79 Nil~5 ribbit: region full: next 64, size 16, align 8, limit 79;";

const FIRST_LISTS: &str = "1 80 Cons(5,Nil)~0 5;
1 64 Nil~0 0;";

#[test]
fn lists_as_they_are(rt: HostRuntime) -> Result<(), Surprise> {
    let alloc = rt.alloc();
    expect_table(alloc, LIST, "run E ", LISTS)?;
    expect_table(alloc, PUSHED, "run E ", PUSHED_LISTS)?;
    expect_table(alloc, FIRST, "run E ", FIRST_LISTS)?;
    expect_answer(
        alloc,
        "run E 1 1024 Cons(1,\tCons(2,\nNil))",
        LIST.as_bytes(),
        "0 Cons(1, Cons(2, Nil));",
    )
}

// A list of so many ones, with this between a number and the rest.
fn ones(alloc: Global, between: &str, count: usize) -> Result<String, AllocError> {
    let part = format!(in alloc; "Cons(1,{between}")?;
    let front = repeated_text(alloc, "", part.as_str(), count, "Nil")?;
    repeated_text(alloc, front.as_str(), ")", count, "")
}

// Looks whether a list of so many ones, behind these words, is printed so, between two texts.
fn expect_ones(
    alloc: Global,
    file: &str,
    words: &str,
    count: usize,
    printed: (&str, &str),
) -> Result<(), Surprise> {
    let word = ones(alloc, "", count)?;
    let value = ones(alloc, " ", count)?;
    let words = format!(in alloc; "{words}{word}")?;
    let (before, behind) = printed;
    let wanted = format!(in alloc; "{before}{value}{behind}")?;
    expect_answer(alloc, words.as_str(), file.as_bytes(), wanted.as_str())
}

// A thousand nodes and one.
#[test]
fn five_hundred_numbers(rt: HostRuntime) -> Result<(), Surprise> {
    expect_ones(rt.alloc(), LIST, "run E 1 16000 ", 500, ("0 ", ";"))
}

// A number is put before so many that the region is full to its last byte.
#[test]
fn one_number_more_than_was_given(rt: HostRuntime) -> Result<(), Surprise> {
    let printed = ("0 Cons(9, ", ");");
    expect_ones(rt.alloc(), PUSHED, "run E 1 8064 ", 499, printed)
}
