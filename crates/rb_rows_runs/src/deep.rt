//! Files whose layouts take subvalues apart: the colour of a node is told by its leaf, and stands in no part.
//! The answers were given by the language's pages.

use rb_rows_calls::counts::{expect_count_table, expect_counts};
use rb_rows_calls::rows::expect_table;
use rb_rows_calls::surprise::Surprise;

/// The colour of a tree's root, which is made where the clause names it.
pub const COLOUR: &str =
    "type Color = Red | Black;layout Color <1> = split 0[0:1] { 0 => Red : { word 1 { [0:1] = 0 } } 1 => Black : { word 1 { [0:1] = 1 } } };type Tree = Empty | Node(Color, Tree, u32, Tree);layout Tree <32> = split 0[0:32] { 0 => Empty : { word 32 { [0:32] = 0 } } else => split 0[0:1] { 0 => Node(Red, _, _, _) : { word 32 { [0:1] = 0, [2:22] -> 4 { word 32 { [0:32] .2 }, inline .1, inline .3 } } } 1 => Node(Black, _, _, _) : { word 32 { [0:1] = 1, [2:22] -> 4 { word 32 { [0:32] .2 }, inline .1, inline .3 } } } } };fun main(t: Tree): Color = match t { Empty => Black, Node(c, l, x, r) => c };";

/// Clauses by colour.
pub const BY_COLOUR: &str =
    "type Color = Red | Black;layout Color <1> = split 0[0:1] { 0 => Red : { word 1 { [0:1] = 0 } } 1 => Black : { word 1 { [0:1] = 1 } } };type Tree = Empty | Node(Color, Tree, u32, Tree);layout Tree <32> = split 0[0:32] { 0 => Empty : { word 32 { [0:32] = 0 } } else => split 0[0:1] { 0 => Node(Red, _, _, _) : { word 32 { [0:1] = 0, [2:22] -> 4 { word 32 { [0:32] .2 }, inline .1, inline .3 } } } 1 => Node(Black, _, _, _) : { word 32 { [0:1] = 1, [2:22] -> 4 { word 32 { [0:32] .2 }, inline .1, inline .3 } } } } };fun main(t: Tree): u32 = match t { Node(Red, _, x, _) => x, Empty => 1, Node(Black, _, _, _) => 2 };";

/// A tree as it is.
pub const KEPT: &str =
    "type Color = Red | Black;layout Color <1> = split 0[0:1] { 0 => Red : { word 1 { [0:1] = 0 } } 1 => Black : { word 1 { [0:1] = 1 } } };type Tree = Empty | Node(Color, Tree, u32, Tree);layout Tree <32> = split 0[0:32] { 0 => Empty : { word 32 { [0:32] = 0 } } else => split 0[0:1] { 0 => Node(Red, _, _, _) : { word 32 { [0:1] = 0, [2:22] -> 4 { word 32 { [0:32] .2 }, inline .1, inline .3 } } } 1 => Node(Black, _, _, _) : { word 32 { [0:1] = 1, [2:22] -> 4 { word 32 { [0:32] .2 }, inline .1, inline .3 } } } } };fun main(t: Tree): Tree = t;";

/// A number is inserted: constructions look at the colour to choose their leaf.
pub const INSERTED: &str =
    "type Color = Red | Black;layout Color <1> = split 0[0:1] { 0 => Red : { word 1 { [0:1] = 0 } } 1 => Black : { word 1 { [0:1] = 1 } } };type Tree = Empty | Node(Color, Tree, u32, Tree);layout Tree <32> = split 0[0:32] { 0 => Empty : { word 32 { [0:32] = 0 } } else => split 0[0:1] { 0 => Node(Red, _, _, _) : { word 32 { [0:1] = 0, [2:22] -> 4 { word 32 { [0:32] .2 }, inline .1, inline .3 } } } 1 => Node(Black, _, _, _) : { word 32 { [0:1] = 1, [2:22] -> 4 { word 32 { [0:32] .2 }, inline .1, inline .3 } } } } };fun insert(t: Tree, x: u32): Tree = match t { Empty => Node(Red, Empty, x, Empty), Node(c, l, y, r) => match lt(x, y) { 1 => Node(c, insert(l, x), y, r), 0 => match lt(y, x) { 1 => Node(c, l, y, insert(r, x)), 0 => t } } };fun main(t: Tree, x: u32): Tree = insert(t, x);";

// A box of a bit, whose word is the bit's; no value of it is made.
const UNUSED: &str =
    "type C = R | K; layout C <1> = split 0[0:1] { 0 => R : { word 1 { [0:1] = 0 } } 1 => K : { word 1 { [0:1] = 1 } } }; type D = D(C); layout D <1> = split 0[0:1] { 0 => D(R) : { word 1 { [0:1] = 0 } } 1 => D(K) : { word 1 { [0:1] = 1 } } }; fun main(): u8 = 0;";

// For each file words, and the answer.
const COLOUR_ROWS: &str = "run E 1 76 Node(Red,Empty,7,Empty)~0 Red;
run E 1 76 Node(Black,Empty,7,Empty)~0 Black;
run E 1 64 Empty~0 Black;";

const BY_COLOUR_ROWS: &str = "run E 1 76 Node(Red,Empty,7,Empty)~0 7;
run E 1 76 Node(Black,Empty,7,Empty)~0 2;
run E 1 64 Empty~0 1;";

const KEPT_ROWS: &str =
    "image E 1 76 Node(Red,Empty,7,Empty)~0 root 0x40;block 64 12 070000000000000000000000;";

const INSERTED_ROWS: &str =
    "run E 3 100 Node(Black,Empty,7,Empty) 9~0 Node(Black, Empty, 7, Node(Red, Empty, 9, Empty));
image E 3 100 Node(Black,Empty,7,Empty) 9~0 root 0x59;block 64 12 070000000000000000000000;block 76 12 090000000000000000000000;block 88 12 07000000000000004c000000;
run E 3 99 Node(Black,Empty,7,Empty) 9~5 ribbit: region full: next 88, size 12, align 4, limit 99;
run E 2 100 Node(Black,Empty,7,Empty) 9~4 ribbit: calls spent: 2;";

const UNUSED_ROWS: &str = "run E 1 64~0 0;
run E 1 64 x~10 ribbit: wanted 0 arguments, found 1;";

#[test]
fn leaves_that_take_subvalues_apart(rt: HostRuntime) -> Result<(), Surprise> {
    let alloc = rt.alloc();
    expect_table(alloc, COLOUR, "", COLOUR_ROWS)?;
    expect_table(alloc, BY_COLOUR, "", BY_COLOUR_ROWS)?;
    expect_table(alloc, KEPT, "", KEPT_ROWS)?;
    expect_table(alloc, INSERTED, "", INSERTED_ROWS)?;
    expect_table(alloc, UNUSED, "", UNUSED_ROWS)
}

// Two matches on a tree may take 4 switches each, two on a comparison 1 each, and two constructions 1 each.
#[test]
fn counts_over_them(rt: HostRuntime) -> Result<(), Surprise> {
    expect_counts(
        rt.alloc(),
        "count E 3 100 Node(Black,Empty,7,Empty) 9",
        INSERTED.as_bytes(),
        "value Node(Black, Empty, 7, Node(Red, Empty, 9, Empty));calls 3;",
        12,
        "blocks 3;bytes 36;",
    )
}

// A pair of three colours, whose leaf tells the first one: by one split the red ones, by another the two others.
const PAIRED: &str =
    "type C = R | G | B; layout C <2> = split 0[0:2] { 0 => R : { word 2 { [0:2] = 0 } } 1 => G : { word 2 { [0:2] = 1 } } 2 => B : { word 2 { [0:2] = 2 } } }; type P = P(C, C); layout P <4> = split 0[0:1] { 0 => P(R, _) : { word 4 { [0:1] = 0, [2:2] .1 } } 1 => split 0[1:1] { 0 => P(G, _) : { word 4 { [0:2] = 1, [2:2] .1 } } 1 => P(B, _) : { word 4 { [0:2] = 3, [2:2] .1 } } } }; fun main(p: P): u8 = match p { P(R, R) => 1, P(R, _) => 2, _ => 3 };";

// Two leaves go the same way, and nothing of them is saved: the split between them is left out. Behind the third the
// second field is looked at.
const SAME_WAY: &str = "1 64 P(G,R)~value 3;calls 1;~1~blocks 0;bytes 0;
1 64 P(B,B)~value 3;calls 1;~1~blocks 0;bytes 0;
1 64 P(R,R)~value 1;calls 1;~2~blocks 0;bytes 0;
1 64 P(R,B)~value 2;calls 1;~2~blocks 0;bytes 0;";

#[test]
fn leaves_of_one_way_are_not_told_apart(rt: HostRuntime) -> Result<(), Surprise> {
    expect_count_table(rt.alloc(), PAIRED, "count E ", SAME_WAY)
}
