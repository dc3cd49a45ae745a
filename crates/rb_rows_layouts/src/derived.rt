//! Layouts that are left to the compiler: what they are, which are refused, and that programs print the same values
//! with them as with written ones. Worked out by hand from the rules.

use crate::accepted::{BIT, BRANCH, LIST, NICHE, PAIR, SHAPE, TREE, TWIN};
use crate::refusals::{expect_agreed, expect_refused};
use rb_rows_calls::call::{expect_answer, repeated_text};
use rb_rows_calls::rows::expect_files;
use rb_rows_calls::surprise::Surprise;
use std::alloc::Global;

// File, words, and the words and blocks of the value.
const IMAGES: [(&str, &str, &str); 7] = [
    (
        "type List = Nil | Cons(u64, List); layout List = boxed; fun main(l: List): List = l;",
        "image E 1 1024 Cons(1,Cons(2,Nil))",
        "0 root 0xa01;block 64 16 02000000000000000000000000000000;block 80 16 01000000000000000108000000000000;",
    ),
    (
        "type Rgb = Gray(u8) | Full(u5, u6, u5); layout Rgb = packed; fun main(c: Rgb): Rgb = c;",
        "image E 1 64 Full(1,2,3)",
        "0 root 0x3083;",
    ),
    (
        "type One = O1; layout One = packed; fun main(): One = O1;",
        "image E 1 64",
        "0 root 0x0;",
    ),
    (
        "type One = O1; layout One = boxed; fun main(): One = O1;",
        "image E 1 64",
        "0 root 0x0;",
    ),
    // 63 bits and a tag
    (
        "type Long = A(u63) | B(u63); layout Long = packed; fun main(): Long = B(9223372036854775807);",
        "image E 1 64",
        "0 root 0xffffffffffffffff;",
    ),
    // 64 bits without a tag
    (
        "type Long = A(u32, u32); layout Long = packed; fun main(): Long = A(1, 4294967295);",
        "image E 1 64",
        "0 root 0xffffffff00000001;",
    ),
    // a packed type in a packed one, and that in a boxed one
    (
        "type Bit = Off | On; layout Bit = packed; type Two = Two(Bit, u2, Bit); layout Two = packed; type Box = No | Yes(Two, Box); layout Box = boxed; fun main(): Box = Yes(Two(On, 2, Off), No);",
        "image E 1 128",
        "0 root 0x801;block 64 16 05000000000000000000000000000000;",
    ),
];

// Looks what words answer to each file, and whether the file is accepted.
fn expect_images(alloc: Global, rows: &[(&str, &str, &str)]) -> Result<(), Surprise> {
    for (file, words, wanted) in rows {
        expect_answer(alloc, words, file.as_bytes(), wanted)?;
        expect_answer(alloc, "check E", file.as_bytes(), "0 ok;")?;
    }
    Ok(())
}

#[test]
fn words_and_blocks(rt: HostRuntime) -> Result<(), Surprise> {
    expect_images(rt.alloc(), &IMAGES)
}

// File, and what is refused.
const REFUSED: &str =
    "type List = Nil | Cons(u64, List); layout List = packed;~List: packed: recursive
type Wide = Wd(u64, u1); layout Wide = packed;~Wide: packed: 65 bits
type Wide = A(u64) | B; layout Wide = packed;~Wide: packed: 65 bits
# a boxed type is a word of 64 bits to the types that hold it
type A = A; layout A = boxed; type Wide = W(A, u1); layout Wide = packed;~Wide: packed: 65 bits
# a type reaches itself whatever the layouts between
type A = A(B) | E; layout A = packed; type B = B(A); layout B = boxed;~A: packed: recursive
# the first in the file's order
type A = A(u64, u64); type B = B(u64, u2); layout B = packed; layout A = packed;~B: packed: 66 bits
# before the rules of written layouts
type U = U; layout U <0> = U : { word 0 { } }; type A = A(u64, u64); layout A = packed;~A: packed: 128 bits
# the rules hold with derived layouts too: a type may not flatten a boxed one
type A = A(u8); layout A = boxed; type B = B(A); layout B <64> = B(A(_)) : { word 64 { [0:8] .0.0 } };~B: A9: A has a pointer";

#[test]
fn layouts_that_are_refused(rt: HostRuntime) -> Result<(), Surprise> {
    expect_refused(rt.alloc(), REFUSED)
}

// File, and what refuses it before a layout does that cannot be derived.
const EARLIER: [(&str, &str); 7] = [
    (
        "type T = A(T) | B; layout T = packed; layout U <8, 8, 8, 8, 8, 8, 8, 8, 8> = A : { word 8 { } };",
        "11 ribbit: limit shape words: 9 over 8;",
    ),
    (
        "layout T = boxed; fun main(): u8 = 0;",
        "2 ribbit: unknown name T at byte 7;",
    ),
    (
        "type T = A; layout T = packed; layout T = boxed; fun main(): u8 = 0;",
        "2 ribbit: name T twice at byte 38;",
    ),
    (
        "type T = A; layout T <1> = A : { word 1 { } }; layout T = boxed; fun main(): u8 = 0;",
        "2 ribbit: name T twice at byte 54;",
    ),
    (
        "type T = A(T) | B; layout T = packed; fun main(): u8 = y;",
        "2 ribbit: unknown name y at byte 55;",
    ),
    (
        "type T = A(T) | B; layout T = packed; fun main(): u8 = 256;",
        "2 ribbit: wanted u8, found u9 at byte 55;",
    ),
    (
        "type T = A(T) | B; layout T = packed; fun main(t: T): u8 = match t { B => 1 };",
        "2 ribbit: match at byte 59 misses A(_);",
    ),
];

#[test]
fn refusals_that_come_first(rt: HostRuntime) -> Result<(), Surprise> {
    expect_files(rt.alloc(), "check E", &EARLIER)
}

// Types with their written layouts; the types; layouts that leave them to the compiler, with a `~` between; functions,
// the value that `main` takes, and the one that it gives.
type Example<'a> = (&'a str, &'a str, &'a str, &'a str, &'a str, &'a str);

const EXAMPLES: [Example; 8] = [
    (
        BIT,
        "type Bit = Off | On;",
        "layout Bit = packed;~layout Bit = boxed;",
        "fun main(b: Bit): Bit = match b { Off => On, On => Off };",
        "On",
        "Off",
    ),
    (
        LIST,
        "type List = Nil | Cons(u64, List);",
        "layout List = boxed;",
        "fun up(l: List): List = match l { Nil => Nil, Cons(x, r) => Cons(add(x, 1), up(r)) }; fun main(l: List): List = up(l);",
        "Cons(5,Cons(7,Nil))",
        "Cons(6, Cons(8, Nil))",
    ),
    (
        TREE,
        "type Color = Red | Black; type Tree = Empty | Node(Color, Tree, u32, Tree);",
        "layout Color = packed; layout Tree = boxed;~layout Tree = boxed; layout Color = boxed;~layout Color <1> = split 0[0:1] { 0 => Red : { word 1 { [0:1] = 0 } } 1 => Black : { word 1 { [0:1] = 1 } } }; layout Tree = boxed;",
        "fun main(t: Tree): Tree = match t { Node(c, Node(Red, l, x, r), y, s) => Node(Red, l, add(x, y), Node(c, s, 1, r)), _ => Empty };",
        "Node(Black,Node(Red,Empty,1,Empty),2,Node(Red,Empty,9,Empty))",
        "Node(Red, Empty, 3, Node(Black, Node(Red, Empty, 9, Empty), 1, Empty))",
    ),
    (
        BRANCH,
        "type Instr = Branch(u3, u5, u5, u12);",
        "layout Instr = packed;~layout Instr = boxed;",
        "fun main(i: Instr): Instr = match i { Branch(f, a, b, n) => Branch(f, b, a, add(n, n)) };",
        "Branch(7,1,30,2047)",
        "Branch(7, 30, 1, 4094)",
    ),
    (
        SHAPE,
        "type Shape = Dot(u8) | Box(u32, u32);",
        "layout Shape = boxed;",
        "fun main(s: Shape): Shape = match s { Dot(n) => Box(to u32(n), 0), Box(a, b) => Box(b, a) };",
        "Box(1,4294967295)",
        "Box(4294967295, 1)",
    ),
    (
        PAIR,
        "type Pair = Two(u64, u64);",
        "layout Pair = boxed;",
        "fun main(p: Pair): Pair = match p { Two(a, b) => Two(b, a) };",
        "Two(1,18446744073709551615)",
        "Two(18446744073709551615, 1)",
    ),
    (
        TWIN,
        "type Twin = Tip | Fork(Twin, Twin);",
        "layout Twin = boxed;",
        "fun grow(n: u64, t: Twin): Twin = match n { 0 => t, _ => grow(sub(n, 1), Fork(t, t)) }; fun main(n: u64): Twin = grow(n, Tip);",
        "2",
        "Fork(Fork(Tip, Tip), Fork(Tip, Tip))",
    ),
    (
        NICHE,
        "type Color = Red | Black; type Tree = Empty | Node(Color, Tree, u32, Tree); type Opt = No | Yes(Tree);",
        "layout Opt = boxed; layout Tree = boxed; layout Color = packed;",
        "fun main(o: Opt): Opt = match o { No => Yes(Empty), Yes(Empty) => No, Yes(t) => Yes(Node(Black, t, 0, Empty)) };",
        "Yes(Node(Red,Empty,1,Empty))",
        "Yes(Node(Black, Node(Red, Empty, 1, Empty), 0, Empty))",
    ),
];

// Looks whether `main` gives its value by the written layouts, and by those that are derived, in each choice of them.
fn expect_same(alloc: Global, example: &Example) -> Result<(), Surprise> {
    let (written, types, layouts, functions, value, wanted) = *example;
    let words = format!(in alloc; "run E 100 4096 {value}")?;
    let wanted = format!(in alloc; "0 {wanted};")?;
    let file = format!(in alloc; "{written} {functions}")?;
    expect_answer(alloc, words.as_str(), file.as_bytes(), wanted.as_str())?;
    for layout in layouts.split('~') {
        let file = format!(in alloc; "{types} {layout} {functions}")?;
        expect_answer(alloc, words.as_str(), file.as_bytes(), wanted.as_str())?;
    }
    Ok(())
}

// Looks at each example so.
fn expect_all_same(alloc: Global, examples: &[Example]) -> Result<(), Surprise> {
    for example in examples {
        expect_same(alloc, example)?;
    }
    Ok(())
}

#[test]
fn the_same_values(rt: HostRuntime) -> Result<(), Surprise> {
    expect_all_same(rt.alloc(), &EXAMPLES)
}

// A boxed constructor of 32 fields of three words each has 96 words: a block of two pointers, to blocks of 64 and of
// 32.
#[test]
fn more_words_than_a_block_has(rt: HostRuntime) -> Result<(), Surprise> {
    let alloc = rt.alloc();
    let field =
        "type F = F(u64, u64, u64); layout F <64, 64, 64> = F(_, _, _) : { word 64 { [0:64] .0 }, word 64 { [0:64] .1 }, word 64 { [0:64] .2 } };";
    let types = repeated_text(
        alloc,
        "type Big = Big(",
        "F, ",
        31,
        "F); layout Big = boxed;",
    )?;
    let value = repeated_text(alloc, "Big(", "F(1, 2, 3), ", 31, "F(1, 2, 3))")?;
    let file = format!(in alloc; "{field} {types} fun main(): Big = {value};")?;
    let wanted = format!(in alloc; "0 value {value};calls 1;switches 0;blocks 3;bytes 784;")?;
    expect_answer(alloc, "count E 1 1000", file.as_bytes(), wanted.as_str())
}

// A packed type of 256 constructors has a tag of eight bits.
#[test]
fn as_many_constructors_as_there_may_be(rt: HostRuntime) -> Result<(), Surprise> {
    let alloc = rt.alloc();
    let mut file = format!(in alloc; "type Many = C0")?;
    for i in 1..256 as u64 {
        let con = format!(in alloc; " | C{i}")?;
        file.push_str(con.as_str())?;
    }
    file.push_str("; layout Many = packed; type Two = Two(Many, u56); layout Two = packed; ")?;
    expect_agreed(alloc, file.as_str())?;
    file.push_str("fun main(): Two = Two(C255, 1);")?;
    expect_answer(alloc, "image E 1 64", file.as_bytes(), "0 root 0x1ff;")
}
