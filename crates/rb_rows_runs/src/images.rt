//! Images of values: the words and the blocks in which they are represented. The answers were given by
//! the language's pages, and by a program apart from this one that was written from them alone.

use crate::deep::INSERTED;
use crate::layouts::{BRANCH, INSERT, LIST, PAIR, PUSHED, SHAPE, TWIN};
use rb_rows_calls::call::expect_answer;
use rb_rows_calls::rows::expect_table;
use rb_rows_calls::surprise::Surprise;
use std::alloc::{AllocError, Global};

// The second of two lists.
const LISTS: &str =
    "type List = Nil | Cons(u64, List); layout List <64> = split 0[0:1] { 1 => Nil : { word 64 { [0:1] = 1 } } 0 => Cons(_, _) : { word 64 { [0:1] = 0, [3:61] -> 8 { word 64 { [0:64] .0 }, inline .1 } } } };fun main(l: List, m: List): List = m;";

/// The tree of [`INSERT`], as it is.
pub const TREE: &str =
    "type Color = Red | Black;layout Color <1> = split 0[0:1] { 0 => Red : { word 1 { [0:1] = 0 } } 1 => Black : { word 1 { [0:1] = 1 } } };type Tree = Empty | Node(Color, Tree, u32, Tree);layout Tree <32> = split 0[0:32] { 0 => Empty : { word 32 { [0:32] = 0 } } else => Node(_, _, _, _) : { word 32 { [0:1] .0, [2:22] -> 4 { word 32 { [0:32] .2 }, inline .1, inline .3 } } } };fun main(t: Tree): Tree = t;";

/// The shape of [`SHAPE`], as it is.
pub const SAME: &str =
    "type Shape = Dot(u8) | Box(u32, u32);layout Shape <32> = split 0[0:32] -> 4 @0:8[0:8] { 0 => Dot(_) : { word 32 { [0:32] -> 4 { word 8 { [0:8] = 0 }, word 8 { [0:8] .0 } } } } 1 => Box(_, _) : { word 32 { [0:32] -> 4 { word 8 { [0:8] = 1 }, word 32 { [0:32] .0 }, word 32 { [0:32] .1 } } } } };fun main(s: Shape): Shape = s;";

/// A tree or none, in the word of a tree: a pointer to it is never 1.
pub const OPTION: &str =
    "type Color = Red | Black;layout Color <1> = split 0[0:1] { 0 => Red : { word 1 { [0:1] = 0 } } 1 => Black : { word 1 { [0:1] = 1 } } };type Tree = Empty | Node(Color, Tree, u32, Tree);layout Tree <32> = split 0[0:32] { 0 => Empty : { word 32 { [0:32] = 0 } } else => Node(_, _, _, _) : { word 32 { [0:1] .0, [2:22] -> 4 { word 32 { [0:32] .2 }, inline .1, inline .3 } } } };type Opt = No | Yes(Tree);layout Opt <32> = split 0[0:32] { 1 => No : { word 32 { [0:32] = 1 } } else => Yes(_) : { word 32 { [0:32] .0 } } };fun main(o: Opt): Opt = o;";

/// A pair in a block, with free bits between its numbers.
pub const PADDED: &str =
    "type Pair = Two(u8, u8);layout Pair <64> = Two(_, _) : { word 64 { [0:64] -> 8 { word 16 { [0:8] .0 }, word 32 { [24:8] .1 } } } };fun main(x: u8): Pair = Two(x, x);";

// Three root words, of which the first holds nothing.
const WIDE: &str =
    "type Wide = Wide(u64, u64);layout Wide <8, 64, 64> = Wide(_, _) : { word 8 { }, word 64 { [0:64] .1 }, word 64 { [0:64] .0 } };fun main(x: u64, y: u64): Wide = Wide(x, y);";

// A list that the code makes.
const MADE_LIST: &str =
    "type List = Nil | Cons(u64, List); layout List <64> = split 0[0:1] { 1 => Nil : { word 64 { [0:1] = 1 } } 0 => Cons(_, _) : { word 64 { [0:1] = 0, [3:61] -> 8 { word 64 { [0:64] .0 }, inline .1 } } } };fun main(): List = Cons(1, Cons(2, Nil));";

// A shape that the code makes.
const MADE_SHAPE: &str =
    "type Shape = Dot(u8) | Box(u32, u32);layout Shape <32> = split 0[0:32] -> 4 @0:8[0:8] { 0 => Dot(_) : { word 32 { [0:32] -> 4 { word 8 { [0:8] = 0 }, word 8 { [0:8] .0 } } } } 1 => Box(_, _) : { word 32 { [0:32] -> 4 { word 8 { [0:8] = 1 }, word 32 { [0:32] .0 }, word 32 { [0:32] .1 } } } } };fun main(): Shape = Box(1, 2);";

// A pair in two blocks that the code makes.
const MADE_PAIR: &str =
    "type Pair = Two(u64, u64);layout Pair <64> = Two(_, _) : { word 64 { [0:64] -> 8 { word 64 { [0:64] .0 }, word 64 { [0:64] -> 8 { word 64 { [0:64] .1 } } } } } };fun main(): Pair = Two(5, 6);";

// An empty list that the code makes.
const MADE_NIL: &str =
    "type List = Nil | Cons(u64, List);layout List <64> = split 0[0:1] { 1 => Nil : { word 64 { [0:1] = 1 } } 0 => Cons(_, _) : { word 64 { [0:1] = 0, [3:61] -> 8 { word 64 { [0:64] .0 }, inline .1 } } } };fun main(): List = Nil;";

// An empty tree that the code makes.
const MADE_EMPTY: &str =
    "type Color = Red | Black;layout Color <1> = split 0[0:1] { 0 => Red : { word 1 { [0:1] = 0 } } 1 => Black : { word 1 { [0:1] = 1 } } };type Tree = Empty | Node(Color, Tree, u32, Tree);layout Tree <32> = split 0[0:32] { 0 => Empty : { word 32 { [0:32] = 0 } } else => Node(_, _, _, _) : { word 32 { [0:1] .0, [2:22] -> 4 { word 32 { [0:32] .2 }, inline .1, inline .3 } } } };fun main(): Tree = Empty;";

// A tree of three nodes that the code makes.
const MADE_TREE: &str =
    "type Color = Red | Black;layout Color <1> = split 0[0:1] { 0 => Red : { word 1 { [0:1] = 0 } } 1 => Black : { word 1 { [0:1] = 1 } } };type Tree = Empty | Node(Color, Tree, u32, Tree);layout Tree <32> = split 0[0:32] { 0 => Empty : { word 32 { [0:32] = 0 } } else => Node(_, _, _, _) : { word 32 { [0:1] .0, [2:22] -> 4 { word 32 { [0:32] .2 }, inline .1, inline .3 } } } };fun main(): Tree = Node(Black, Node(Red, Empty, 1, Empty), 2, Node(Black, Empty, 3, Empty));";

// A node of a color that is given.
const MADE_NODE: &str =
    "type Color = Red | Black;layout Color <1> = split 0[0:1] { 0 => Red : { word 1 { [0:1] = 0 } } 1 => Black : { word 1 { [0:1] = 1 } } };type Tree = Empty | Node(Color, Tree, u32, Tree);layout Tree <32> = split 0[0:32] { 0 => Empty : { word 32 { [0:32] = 0 } } else => Node(_, _, _, _) : { word 32 { [0:1] .0, [2:22] -> 4 { word 32 { [0:32] .2 }, inline .1, inline .3 } } } };fun main(c: Color, x: u32): Tree = Node(c, Empty, x, Empty);";

// A box is made of a dot and a number, and a dot of the height of a box.
const TURNED: &str =
    "type Shape = Dot(u8) | Box(u32, u32);layout Shape <32> = split 0[0:32] -> 4 @0:8[0:8] { 0 => Dot(_) : { word 32 { [0:32] -> 4 { word 8 { [0:8] = 0 }, word 8 { [0:8] .0 } } } } 1 => Box(_, _) : { word 32 { [0:32] -> 4 { word 8 { [0:8] = 1 }, word 32 { [0:32] .0 }, word 32 { [0:32] .1 } } } } };fun main(s: Shape, x: u32): Shape = match s { Dot(b) => Box(x, to u32(b)), Box(_, h) => Dot(to u8(h)) };";

// The numbers of a pair change places.
const SWAPPED: &str =
    "type Pair = Two(u64, u64);layout Pair <64> = Two(_, _) : { word 64 { [0:64] -> 8 { word 64 { [0:64] .0 }, word 64 { [0:64] -> 8 { word 64 { [0:64] .1 } } } } } };fun main(p: Pair): Pair = match p { Two(x, y) => Two(y, x) };";

// An instruction that the code makes.
const MADE_BRANCH: &str =
    "type Instr = Branch(u3, u5, u5, u12);layout Instr <32> = Branch(_, _, _, _) : { word 32 { [0:7] = 99, [7:1] .3[10:1], [8:4] .3[0:4], [12:3] .0, [15:5] .1, [20:5] .2, [25:6] .3[4:6], [31:1] .3[11:1] } };fun main(f: u3, a: u5, b: u5, o: u12): Instr = Branch(f, a, b, o);";

// Two pairs and a byte; the bit of the first pair, which is given, tells where its byte stands.
const MADE_TRIO: &str =
    "type K = A | B;layout K <1> = split 0[0:1] { 0 => A : { word 1 { [0:1] = 0 } } 1 => B : { word 1 { [0:1] = 1 } } };type P = Tagged(K, u8);layout P <9> = Tagged(_, _) : { word 9 { [0:1] .0, [1:8] .1 } };type D = Trio(P, u8, P);layout D <40> = split 0[0:1] { 0 => Trio(Tagged(A, _), _, _) : { word 40 { [0:1] = 0, [1:8] .0.1, [9:8] .1, [17:9] .2 } } 1 => Trio(Tagged(B, _), _, _) : { word 40 { [0:1] = 1, [1:8] .1, [9:8] .0.1, [17:9] .2 } } };fun main(p: P, x: u8, q: P): D = Trio(p, x, q);";

// For each file limits and fields, and the answer: values as the code makes them. The words and the bytes of the
// blocks were worked out by hand from the layouts, with the blocks of arguments first, and then inner blocks before
// outer ones.
const MADE_AS_LIST: &str =
    "1 96~0 root 0x50;block 64 16 02000000000000000100000000000000;block 80 16 01000000000000004000000000000000;
1 95~5 ribbit: region full: next 80, size 16, align 8, limit 95;";

const MADE_AS_SHAPE: &str = "1 73~0 root 0x10;block 64 9 010100000002000000;
1 72~5 ribbit: region full: next 64, size 9, align 4, limit 72;";

const MADE_AS_PAIR: &str =
    "1 88~0 root 0x9;block 64 8 0600000000000000;block 72 16 05000000000000000800000000000000;
1 87~5 ribbit: region full: next 72, size 16, align 8, limit 87;
1 71~5 ribbit: region full: next 64, size 8, align 8, limit 71;";

const MADE_AS_NIL: &str = "1 64~0 root 0x1;";

// behind the 9 stands the pointer to the block of the argument
const MADE_BY_PUSHED: &str =
    "1 96 Cons(1,Nil)~0 root 0x50;block 64 16 01000000000000000100000000000000;block 80 16 09000000000000004000000000000000;";

const MADE_AS_EMPTY: &str = "1 64~0 root 0x0;";

const MADE_AS_NODE: &str = "1 76 Red 7~0 root 0x40;block 64 12 070000000000000000000000;
1 76 Black 7~0 root 0x41;block 64 12 070000000000000000000000;";

const MADE_AS_TREE: &str =
    "1 100~0 root 0x59;block 64 12 010000000000000000000000;block 76 12 030000000000000000000000;block 88 12 02000000400000004d000000;
1 99~5 ribbit: region full: next 88, size 12, align 4, limit 99;";

// a number is inserted into no node, to the left, and where it is; the node's color stays
const MADE_BY_INSERT: &str = "2 76 Empty 9~0 root 0x40;block 64 12 090000000000000000000000;
3 100 Node(Red,Empty,7,Empty) 5~0 root 0x58;block 64 12 070000000000000000000000;block 76 12 050000000000000000000000;block 88 12 070000004c00000000000000;
2 76 Node(Black,Empty,7,Empty) 7~0 root 0x41;block 64 12 070000000000000000000000;";

const MADE_BY_INSERTED: &str = "2 76 Empty 9~0 root 0x40;block 64 12 090000000000000000000000;
3 100 Node(Red,Empty,7,Empty) 5~0 root 0x58;block 64 12 070000000000000000000000;block 76 12 050000000000000000000000;block 88 12 070000004c00000000000000;";

// a block of 9 bytes behind one of 2, and one of 2 behind one of 9, each at the next multiple of 4
const MADE_BY_TURNED: &str =
    "1 77 Dot(5) 258~0 root 0x11;block 64 2 0005;block 68 9 010201000005000000;
1 76 Dot(5) 258~5 ribbit: region full: next 66, size 9, align 4, limit 76;
1 78 Box(258,7) 0~0 root 0x13;block 64 9 010201000007000000;block 76 2 0007;
1 77 Box(258,7) 0~5 ribbit: region full: next 73, size 2, align 4, limit 77;";

const MADE_BY_SWAPPED: &str =
    "1 112 Two(5,6)~0 root 0xc;block 64 8 0600000000000000;block 72 16 05000000000000000800000000000000;block 88 8 0500000000000000;block 96 16 06000000000000000b00000000000000;";

// 2730 is 101010101010 in bits
const MADE_AS_BRANCH: &str = "1 64 0 1 2 4~0 root 0x208463;
1 64 7 31 30 2730~0 root 0xd5effa63;";

const MADE_AS_TRIO: &str = "1 64 Tagged(A,5) 8 Tagged(B,3)~0 root 0xe100a;
1 64 Tagged(B,5) 8 Tagged(A,3)~0 root 0xc0a11;";

// Values that are made of numbers alone.
fn expect_made(alloc: Global) -> Result<(), Surprise> {
    expect_table(alloc, MADE_LIST, "image E ", MADE_AS_LIST)?;
    expect_table(alloc, MADE_SHAPE, "image E ", MADE_AS_SHAPE)?;
    expect_table(alloc, MADE_PAIR, "image E ", MADE_AS_PAIR)?;
    expect_table(alloc, MADE_NIL, "image E ", MADE_AS_NIL)?;
    expect_table(alloc, PUSHED, "image E ", MADE_BY_PUSHED)?;
    expect_table(alloc, MADE_EMPTY, "image E ", MADE_AS_EMPTY)?;
    expect_table(alloc, MADE_NODE, "image E ", MADE_AS_NODE)?;
    expect_table(alloc, MADE_TREE, "image E ", MADE_AS_TREE)
}

// Values that are made of others.
fn expect_changed(alloc: Global) -> Result<(), Surprise> {
    expect_table(alloc, INSERT, "image E ", MADE_BY_INSERT)?;
    expect_table(alloc, INSERTED, "image E ", MADE_BY_INSERTED)?;
    expect_table(alloc, TURNED, "image E ", MADE_BY_TURNED)?;
    expect_table(alloc, SWAPPED, "image E ", MADE_BY_SWAPPED)?;
    expect_table(alloc, MADE_BRANCH, "image E ", MADE_AS_BRANCH)?;
    expect_table(alloc, MADE_TRIO, "image E ", MADE_AS_TRIO)
}

#[test]
fn images_of_constructions(rt: HostRuntime) -> Result<(), Surprise> {
    let alloc = rt.alloc();
    expect_made(alloc)?;
    expect_changed(alloc)
}

// For each file limits and values, and the answer.
const LIST_ROWS: &str =
    "1 1024 Cons(1,Cons(2,Nil))~0 root 0x50;block 64 16 02000000000000000100000000000000;block 80 16 01000000000000004000000000000000;
1 64 Nil~0 root 0x1;
0 1024 Nil~4 ribbit: calls spent: 0;
0 64 Cons(1,Nil)~5 ribbit: region full: next 64, size 16, align 8, limit 64;
1 1024~10 ribbit: wanted 1 arguments, found 0;
1 1024 Cons(1)~10 ribbit: argument 1: no value of List at byte 0;";

const LISTS_ROWS: &str =
    "1 1024 Cons(5,Nil) Cons(5,Nil)~0 root 0x50;block 64 16 05000000000000000100000000000000;block 80 16 05000000000000000100000000000000;
1 95 Cons(5,Nil) Cons(5,Nil)~5 ribbit: region full: next 80, size 16, align 8, limit 95;";

const INSERT_ROWS: &str =
    "3 100 Node(Black,Empty,7,Empty) 9~0 root 0x59;block 64 12 070000000000000000000000;block 76 12 090000000000000000000000;block 88 12 07000000000000004c000000;
3 99 Node(Black,Empty,7,Empty) 9~5 ribbit: region full: next 88, size 12, align 4, limit 99;";

const TREE_ROWS: &str =
    "1 76 Node(Black,Empty,7,Empty)~0 root 0x41;block 64 12 070000000000000000000000;";

const BRANCH_ROWS: &str = "1 64 Branch(0,1,2,4)~0 root 0x208463;";

const SHAPE_ROWS: &str = "1 1024 Box(1,2)~0 root 0x3;block 64 9 010100000002000000;";

const SAME_ROWS: &str = "1 1024 Box(1,2)~0 root 0x10;block 64 9 010100000002000000;";

const PAIR_ROWS: &str =
    "1 1024 Two(5,6)~0 root 0x9;block 64 8 0600000000000000;block 72 16 05000000000000000800000000000000;";

const OPTION_ROWS: &str =
    "1 1024 Yes(Node(Black,Empty,7,Empty))~0 root 0x41;block 64 12 070000000000000000000000;
1 64 No~0 root 0x1;
1 64 Yes(Empty)~0 root 0x0;";

const PADDED_ROWS: &str = "1 80 255~0 root 0x8;block 64 6 ff00000000ff;";

const WIDE_ROWS: &str = "1 64 18446744073709551615 4096~0 root 0x0 0x1000 0xffffffffffffffff;";

// Lists, trees and instructions.
fn expect_trees(alloc: Global) -> Result<(), Surprise> {
    expect_table(alloc, LIST, "image E ", LIST_ROWS)?;
    expect_table(alloc, LISTS, "image E ", LISTS_ROWS)?;
    expect_table(alloc, INSERT, "image E ", INSERT_ROWS)?;
    expect_table(alloc, TREE, "image E ", TREE_ROWS)?;
    expect_table(alloc, BRANCH, "image E ", BRANCH_ROWS)
}

// Shapes, pairs and words.
fn expect_others(alloc: Global) -> Result<(), Surprise> {
    expect_table(alloc, SHAPE, "image E ", SHAPE_ROWS)?;
    expect_table(alloc, SAME, "image E ", SAME_ROWS)?;
    expect_table(alloc, PAIR, "image E ", PAIR_ROWS)?;
    expect_table(alloc, OPTION, "image E ", OPTION_ROWS)?;
    expect_table(alloc, PADDED, "image E ", PADDED_ROWS)?;
    expect_table(alloc, WIDE, "image E ", WIDE_ROWS)
}

#[test]
fn images_of_values(rt: HostRuntime) -> Result<(), Surprise> {
    let alloc = rt.alloc();
    expect_trees(alloc)?;
    expect_others(alloc)
}

// A number of two bytes, the lower one first, in hexadecimal digits.
fn two_bytes(alloc: Global, number: u64) -> Result<String, AllocError> {
    let low = number % 256;
    let high = number / 256;
    format!(in alloc; "{low:02x}{high:02x}")
}

// The image of thirty blocks, the halves of each of which are the block before.
fn thirty_blocks(alloc: Global) -> Result<String, AllocError> {
    let mut image = format!(in alloc; "root 0x210;block 64 16 01000000000000000100000000000000;")?;
    for i in 0..29u64 {
        let before = i.wrapping_mul(16).wrapping_add(64);
        let at = before.wrapping_add(16);
        let half = two_bytes(alloc, before)?;
        let line = format!(in alloc; "block {at} 16 {half}000000000000{half}000000000000;")?;
        image.push_str(line.as_str())?;
    }
    Ok(image)
}

// A value of two billion nodes has such an image.
#[test]
fn an_image_of_a_large_value(rt: HostRuntime) -> Result<(), Surprise> {
    let alloc = rt.alloc();
    let image = thirty_blocks(alloc)?;
    let wanted = format!(in alloc; "0 {image}")?;
    let words = "image E 40 1024 30";
    expect_answer(alloc, words, TWIN.as_bytes(), wanted.as_str())
}
