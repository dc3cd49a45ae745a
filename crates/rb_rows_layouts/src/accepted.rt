//! Files that are accepted, and the texts of their layouts, worked out by hand.

use crate::refusals::expect_agreed;
use rb_rows_calls::call::expect_answer;
use rb_rows_calls::surprise::Surprise;
use std::alloc::{AllocError, Global};

/// A list, its tag in the lowest bit of the pointer to an item.
pub const LIST: &str =
    "type List = Nil | Cons(u64, List); layout List <64> = split 0[0:1] { 1 => Nil : { word 64 { [0:1] = 1 } } 0 => Cons(_, _) : { word 64 { [0:1] = 0, [3:61] -> 8 { word 64 { [0:64] .0 }, inline .1 } } } };";

/// A tree, a node's color in the lowest bit of the pointer to it.
pub const TREE: &str =
    "type Color = Red | Black; layout Color <1> = split 0[0:1] { 0 => Red : { word 1 { [0:1] = 0 } } 1 => Black : { word 1 { [0:1] = 1 } } }; type Tree = Empty | Node(Color, Tree, u32, Tree); layout Tree <32> = split 0[0:32] { 0 => Empty : { word 32 { [0:32] = 0 } } else => Node(_, _, _, _) : { word 32 { [0:1] .0, [2:22] -> 4 { word 32 { [0:32] .2 }, inline .1, inline .3 } } } };";

/// The branch instruction of RISC-V.
pub const BRANCH: &str =
    "type Instr = Branch(u3, u5, u5, u12); layout Instr <32> = Branch(_, _, _, _) : { word 32 { [0:7] = 99, [7:1] .3[10:1], [8:4] .3[0:4], [12:3] .0, [15:5] .1, [20:5] .2, [25:6] .3[4:6], [31:1] .3[11:1] } };";

/// A shape whose tag stands behind its pointer.
pub const SHAPE: &str =
    "type Shape = Dot(u8) | Box(u32, u32); layout Shape <32> = split 0[0:32] -> 4 @0:8[0:8] { 0 => Dot(_) : { word 32 { [0:32] -> 4 { word 8 { [0:8] = 0 }, word 8 { [0:8] .0 } } } } 1 => Box(_, _) : { word 32 { [0:32] -> 4 { word 8 { [0:8] = 1 }, word 32 { [0:32] .0 }, word 32 { [0:32] .1 } } } } };";

/// A tree whose nodes have two halves and nothing more.
pub const TWIN: &str =
    "type Twin = Tip | Fork(Twin, Twin); layout Twin <64> = split 0[0:1] { 1 => Tip : { word 64 { [0:1] = 1 } } 0 => Fork(_, _) : { word 64 { [0:1] = 0, [3:61] -> 8 { inline .0, inline .1 } } } };";

/// A pair in two blocks.
pub const PAIR: &str =
    "type Pair = Two(u64, u64); layout Pair <64> = Two(_, _) : { word 64 { [0:64] -> 8 { word 64 { [0:64] .0 }, word 64 { [0:64] -> 8 { word 64 { [0:64] .1 } } } } } };";

// A tree with a leaf for each color of its nodes.
const FLAT: &str =
    "type Color = Red | Black; layout Color <1> = split 0[0:1] { 0 => Red : { word 1 { [0:1] = 0 } } 1 => Black : { word 1 { [0:1] = 1 } } }; type Tree = Empty | Node(Color, Tree, u32, Tree); layout Tree <32> = split 0[0:32] { 0 => Empty : { word 32 { [0:32] = 0 } } else => split 0[0:1] { 0 => Node(Red, _, _, _) : { word 32 { [0:1] = 0, [2:22] -> 4 { word 32 { [0:32] .2 }, inline .1, inline .3 } } } 1 => Node(Black, _, _, _) : { word 32 { [0:1] = 1, [2:22] -> 4 { word 32 { [0:32] .2 }, inline .1, inline .3 } } } } };";

/// An option of a tree, in a number that no tree has.
pub const NICHE: &str =
    "type Color = Red | Black; layout Color <1> = split 0[0:1] { 0 => Red : { word 1 { [0:1] = 0 } } 1 => Black : { word 1 { [0:1] = 1 } } }; type Tree = Empty | Node(Color, Tree, u32, Tree); layout Tree <32> = split 0[0:32] { 0 => Empty : { word 32 { [0:32] = 0 } } else => Node(_, _, _, _) : { word 32 { [0:1] .0, [2:22] -> 4 { word 32 { [0:32] .2 }, inline .1, inline .3 } } } }; type Opt = No | Yes(Tree); layout Opt <32> = split 0[0:32] { 1 => No : { word 32 { [0:32] = 1 } } else => Yes(_) : { word 32 { [0:32] .0 } } };";

/// One bit in a byte.
pub const BIT: &str =
    "type Bit = Off | On; layout Bit <8> = split 0[0:1] { 0 => Off : { word 8 { [0:1] = 0 } } 1 => On : { word 8 { [0:1] = 1 } } };";

// Splits in splits, with `else` and without arms, of two words; blocks in blocks.
const STEPS: &str =
    "type P = P(u8, u8); layout P <64> = P(_, _) : { word 64 { [0:8] .0, [8:8] .1 } }; type S = A | B | C | D(u8, P); layout S <8, 64> = split 0[0:2] { 0 => A : { word 8 { [0:2] = 0 }, word 64 { [63:1] = 1, [1:1] = 0 } } 2 => B : { word 8 { [0:2] = 2 }, word 64 { [0:64] = 7 } } else => split 0[0:1] { else => split 0[1:1] { 0 => C : { word 8 { [1:1] = 0, [0:1] = 1 }, word 64 { [3:2] = 1 } } else => D(_, _) : { word 8 { [0:2] = 3 }, word 64 { [0:2] = 0, [2:30] -> 4 { word 16 { [8:8] .0 }, inline .1, word 32 { [4:28] -> 16 { word 8 { [3:2] = 1 } } } }, [40:20] -> 32 { word 8 { [0:1] = 1 } } } } } } };";

// Lists, trees, shapes and pairs.
fn expect_types(alloc: Global) -> Result<(), Surprise> {
    expect_agreed(alloc, LIST)?;
    expect_agreed(alloc, TREE)?;
    expect_agreed(alloc, BRANCH)?;
    expect_agreed(alloc, SHAPE)?;
    expect_agreed(alloc, PAIR)
}

// Leaves and tests of other kinds.
fn expect_tests(alloc: Global) -> Result<(), Surprise> {
    expect_agreed(alloc, FLAT)?;
    expect_agreed(alloc, NICHE)?;
    expect_agreed(alloc, BIT)?;
    expect_agreed(alloc, STEPS)
}

#[test]
fn layouts_that_agree(rt: HostRuntime) -> Result<(), Surprise> {
    let alloc = rt.alloc();
    expect_types(alloc)?;
    expect_tests(alloc)
}

// Forty types, each of which holds the one before it twice, and one with a number that the last of them never has.
fn forty_types(alloc: Global) -> Result<String, AllocError> {
    let mut file = format!(in alloc;
        "type C0 = A0 | B0; layout C0 <2> = split 0[0:2] {{ 0 => A0 : {{ word 2 {{ [0:2] = 0 }} }} 1 => B0 : {{ word 2 {{ [0:2] = 1 }} }} }};"
    )?;
    for i in 1..41 as u64 {
        let h = i - 1;
        let b = i + 1;
        let w = i + 2;
        let next = format!(in alloc;
            "type C{i} = A{i}(C{h}) | B{i}(C{h}); layout C{i} <{w}> = split 0[{b}:1] {{ 0 => A{i}(_) : {{ word {w} {{ [0:{b}] .0, [{b}:1] = 0 }} }} 1 => B{i}(_) : {{ word {w} {{ [0:{b}] .0, [{b}:1] = 1 }} }} }};"
        )?;
        file.push_str(next.as_str())?;
    }
    file.push_str(
        "type Top = F | G(C40); layout Top <42> = split 0[0:2] { 2 => F : { word 42 { [0:2] = 2 } } else => G(_) : { word 42 { [0:42] .0 } } };",
    )?;
    Ok(file)
}

// What the last one never has is decided once for each.
#[test]
fn a_niche_through_forty_types(rt: HostRuntime) -> Result<(), Surprise> {
    let alloc = rt.alloc();
    let file = forty_types(alloc)?;
    expect_agreed(alloc, file.as_str())
}

// For each file the text of its layouts; each `;` ends a line.
const BIT_SHOWN: &str =
    "0 type Bit;leaf Off;when 0[0:1] = 0;word 0: 8 bits;  0:1 = 0;  1:7 free;leaf On;when 0[0:1] = 1;word 0: 8 bits;  0:1 = 1;  1:7 free;";

const LIST_SHOWN: &str =
    "0 type List;leaf Nil;when 0[0:1] = 1;word 0: 64 bits;  0:1 = 1;  1:63 free;leaf Cons(_, _);when 0[0:1] = 0;word 0: 64 bits;  0:1 = 0;  1:2 free;  3:61 pointer to block 0;block 0: 16 bytes, align 8;word 0 at byte 0: 64 bits;  0:64 field .0 bits 0:64;word 1 at byte 8: 64 bits;  0:64 field .1 word 0;";

const SHAPE_SHOWN: &str =
    "0 type Shape;leaf Dot(_);when 0[0:32] -> 4 @0:8[0:8] = 0;word 0: 32 bits;  0:32 pointer to block 0;block 0: 2 bytes, align 4;word 0 at byte 0: 8 bits;  0:8 = 0;word 1 at byte 1: 8 bits;  0:8 field .0 bits 0:8;leaf Box(_, _);when 0[0:32] -> 4 @0:8[0:8] = 1;word 0: 32 bits;  0:32 pointer to block 0;block 0: 9 bytes, align 4;word 0 at byte 0: 8 bits;  0:8 = 1;word 1 at byte 1: 32 bits;  0:32 field .0 bits 0:32;word 2 at byte 5: 32 bits;  0:32 field .1 bits 0:32;";

const FLAT_SHOWN: &str =
    "0 type Color;leaf Red;when 0[0:1] = 0;word 0: 1 bits;  0:1 = 0;leaf Black;when 0[0:1] = 1;word 0: 1 bits;  0:1 = 1;type Tree;leaf Empty;when 0[0:32] = 0;word 0: 32 bits;  0:32 = 0;leaf Node(Red, _, _, _);when 0[0:32] not 0;when 0[0:1] = 0;word 0: 32 bits;  0:1 = 0;  1:1 free;  2:22 pointer to block 0;  24:8 free;block 0: 12 bytes, align 4;word 0 at byte 0: 32 bits;  0:32 field .2 bits 0:32;word 1 at byte 4: 32 bits;  0:32 field .1 word 0;word 2 at byte 8: 32 bits;  0:32 field .3 word 0;leaf Node(Black, _, _, _);when 0[0:32] not 0;when 0[0:1] = 1;word 0: 32 bits;  0:1 = 1;  1:1 free;  2:22 pointer to block 0;  24:8 free;block 0: 12 bytes, align 4;word 0 at byte 0: 32 bits;  0:32 field .2 bits 0:32;word 1 at byte 4: 32 bits;  0:32 field .1 word 0;word 2 at byte 8: 32 bits;  0:32 field .3 word 0;";

const BRANCH_SHOWN: &str =
    "0 type Instr;leaf Branch(_, _, _, _);word 0: 32 bits;  0:7 = 99;  7:1 field .3 bits 10:1;  8:4 field .3 bits 0:4;  12:3 field .0 bits 0:3;  15:5 field .1 bits 0:5;  20:5 field .2 bits 0:5;  25:6 field .3 bits 4:6;  31:1 field .3 bits 11:1;";

const PAIR_SHOWN: &str =
    "0 type Pair;leaf Two(_, _);word 0: 64 bits;  0:64 pointer to block 1;block 0: 8 bytes, align 8;word 0 at byte 0: 64 bits;  0:64 field .1 bits 0:64;block 1: 16 bytes, align 8;word 0 at byte 0: 64 bits;  0:64 field .0 bits 0:64;word 1 at byte 8: 64 bits;  0:64 pointer to block 0;";

const STEPS_SHOWN: &str =
    "0 type P;leaf P(_, _);word 0: 64 bits;  0:8 field .0 bits 0:8;  8:8 field .1 bits 0:8;  16:48 free;type S;leaf A;when 0[0:2] = 0;word 0: 8 bits;  0:2 = 0;  2:6 free;word 1: 64 bits;  0:1 free;  1:1 = 0;  2:61 free;  63:1 = 1;leaf B;when 0[0:2] = 2;word 0: 8 bits;  0:2 = 2;  2:6 free;word 1: 64 bits;  0:64 = 7;leaf C;when 0[0:2] not 0, 2;when 0[0:1] any;when 0[1:1] = 0;word 0: 8 bits;  0:1 = 1;  1:1 = 0;  2:6 free;word 1: 64 bits;  0:3 free;  3:2 = 1;  5:59 free;leaf D(_, _);when 0[0:2] not 0, 2;when 0[0:1] any;when 0[1:1] not 0;word 0: 8 bits;  0:2 = 3;  2:6 free;word 1: 64 bits;  0:2 = 0;  2:30 pointer to block 1;  32:8 free;  40:20 pointer to block 2;  60:4 free;block 0: 1 bytes, align 16;word 0 at byte 0: 8 bits;  0:3 free;  3:2 = 1;  5:3 free;block 1: 14 bytes, align 4;word 0 at byte 0: 16 bits;  0:8 free;  8:8 field .0 bits 0:8;word 1 at byte 2: 64 bits;  0:64 field .1 word 0;word 2 at byte 10: 32 bits;  0:4 free;  4:28 pointer to block 0;block 2: 1 bytes, align 32;word 0 at byte 0: 8 bits;  0:1 = 1;  1:7 free;";

// A file without types has no layouts.
const NOTHING_SHOWN: &str = "0 ";

// Looks what `layout` answers to a file, to which a `main` is added.
fn expect_shown(alloc: Global, file: &str, wanted: &str) -> Result<(), Surprise> {
    let file = format!(in alloc; "{file} fun main(): u8 = 0;")?;
    expect_answer(alloc, "layout E", file.as_bytes(), wanted)
}

// Bits, lists, shapes and trees.
fn expect_trees_shown(alloc: Global) -> Result<(), Surprise> {
    expect_shown(alloc, BIT, BIT_SHOWN)?;
    expect_shown(alloc, LIST, LIST_SHOWN)?;
    expect_shown(alloc, SHAPE, SHAPE_SHOWN)?;
    expect_shown(alloc, FLAT, FLAT_SHOWN)
}

// The other files.
fn expect_others_shown(alloc: Global) -> Result<(), Surprise> {
    expect_shown(alloc, BRANCH, BRANCH_SHOWN)?;
    expect_shown(alloc, PAIR, PAIR_SHOWN)?;
    expect_shown(alloc, STEPS, STEPS_SHOWN)?;
    expect_shown(alloc, "", NOTHING_SHOWN)
}

#[test]
fn texts_of_layouts(rt: HostRuntime) -> Result<(), Surprise> {
    let alloc = rt.alloc();
    expect_trees_shown(alloc)?;
    expect_others_shown(alloc)
}
