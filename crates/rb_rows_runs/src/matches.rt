//! Matches by the code that chooses a clause: four bits whose tests stand once, parts that a leaf has taken apart,
//! with another test between, and each clause of matches through pointers and slices. Worked out by hand from the
//! files.

use crate::counts::FOUR;
use rb_rows_calls::counts::expect_counts;
use rb_rows_calls::rows::expect_table;
use rb_rows_calls::surprise::Surprise;

// Two pairs of a bit and a byte, with a byte between; which bit the first has its leaf tells alone.
const BETWEEN: &str =
    "type K = A | B;layout K <1> = split 0[0:1] { 0 => A : { word 1 { [0:1] = 0 } } 1 => B : { word 1 { [0:1] = 1 } } };type P = Tagged(K, u8);layout P <9> = Tagged(_, _) : { word 9 { [0:1] .0, [1:8] .1 } };type D = Trio(P, u8, P);layout D <40> = split 0[0:1] { 0 => Trio(Tagged(A, _), _, _) : { word 40 { [0:1] = 0, [1:8] .0.1, [9:8] .1, [17:9] .2 } } 1 => Trio(Tagged(B, _), _, _) : { word 40 { [0:1] = 1, [1:8] .1, [9:8] .0.1, [17:9] .2 } } };fun main(d: D): u8 = match d { Trio(Tagged(A, 3), 7, Tagged(A, _)) => 1, Trio(_, 7, Tagged(B, _)) => 2, Trio(Tagged(B, x), 8, _) => x, Trio(p, _, q) => match p { Tagged(_, y) => y } };";

// For each file values, and their answers.
const FOUR_ROWS: &str = "Q4(A,A,B,B)~0 1;
Q4(B,A,A,A)~0 2;
Q4(A,B,A,B)~0 3;";

const BETWEEN_ROWS: &str = "Trio(Tagged(A,3),7,Tagged(A,9))~0 1;
Trio(Tagged(A,3),7,Tagged(B,9))~0 2;
Trio(Tagged(B,5),7,Tagged(B,1))~0 2;
Trio(Tagged(B,5),8,Tagged(A,0))~0 5;
Trio(Tagged(A,4),7,Tagged(A,0))~0 4;
Trio(Tagged(A,6),8,Tagged(A,0))~0 6;
Trio(Tagged(B,250),7,Tagged(A,0))~0 250;
Trio(Tagged(B,255),9,Tagged(B,0))~0 255;";

#[test]
fn clauses_of_values(rt: HostRuntime) -> Result<(), Surprise> {
    let alloc = rt.alloc();
    expect_table(alloc, FOUR, "run E 1 64 ", FOUR_ROWS)?;
    expect_table(alloc, BETWEEN, "run E 1 64 ", BETWEEN_ROWS)
}

// The whole may cost two switches, each of two bits and two numbers one.
#[test]
fn a_test_between(rt: HostRuntime) -> Result<(), Surprise> {
    expect_counts(
        rt.alloc(),
        "count E 1 64 Trio(Tagged(B,5),8,Tagged(A,0))",
        BETWEEN.as_bytes(),
        "value 5;calls 1;",
        6,
        "blocks 0;bytes 0;",
    )
}

// Lists by their first numbers: numbers and constructors below constructors, and a match in a clause.
const LISTED: &str =
    "type List = Nil | Cons(u64, List);layout List <64> = split 0[0:1] { 1 => Nil : { word 64 { [0:1] = 1 } } 0 => Cons(_, _) : { word 64 { [0:1] = 0, [3:61] -> 8 { word 64 { [0:64] .0 }, inline .1 } } } };fun main(l: List): u64 = match l { Nil => 1, Cons(5, Nil) => 2, Cons(x, Nil) => x, Cons(_, Cons(0, _)) => 3, Cons(_, Cons(y, r)) => match r { Nil => add(y, 100), Cons(z, _) => z } };";

// Trees by their color and by what stands below them, and a match on a color that a clause binds.
const GROWN: &str =
    "type Color = Red | Black;layout Color <1> = split 0[0:1] { 0 => Red : { word 1 { [0:1] = 0 } } 1 => Black : { word 1 { [0:1] = 1 } } };type Tree = Empty | Node(Color, Tree, u32, Tree);layout Tree <32> = split 0[0:32] { 0 => Empty : { word 32 { [0:32] = 0 } } else => Node(_, _, _, _) : { word 32 { [0:1] .0, [2:22] -> 4 { word 32 { [0:32] .2 }, inline .1, inline .3 } } } };fun main(t: Tree): u32 = match t { Empty => 1, Node(Red, Node(Black, _, x, _), _, _) => x, Node(Black, Empty, 7, r) => match r { Empty => 2, Node(c, _, y, _) => match c { Red => y, Black => 3 } }, Node(_, _, x, _) => x };";

// Shapes, whose tag stands behind their pointer, by the numbers behind it.
const SHAPED: &str =
    "type Shape = Dot(u8) | Box(u32, u32);layout Shape <32> = split 0[0:32] -> 4 @0:8[0:8] { 0 => Dot(_) : { word 32 { [0:32] -> 4 { word 8 { [0:8] = 0 }, word 8 { [0:8] .0 } } } } 1 => Box(_, _) : { word 32 { [0:32] -> 4 { word 8 { [0:8] = 1 }, word 32 { [0:32] .0 }, word 32 { [0:32] .1 } } } } };fun main(s: Shape): u32 = match s { Dot(0) => 1, Dot(b) => to u32(b), Box(x, 5) => x, Box(3, y) => y, _ => 7 };";

// Pairs in two blocks, by a number in each.
const PAIRED: &str =
    "type Pair = Two(u64, u64);layout Pair <64> = Two(_, _) : { word 64 { [0:64] -> 8 { word 64 { [0:64] .0 }, word 64 { [0:64] -> 8 { word 64 { [0:64] .1 } } } } } };fun main(p: Pair): u64 = match p { Two(5, y) => y, Two(x, 6) => x, _ => 7 };";

// Instructions by their numbers, of which the last is cut into slices.
const SLICED: &str =
    "type Instr = Branch(u3, u5, u5, u12);layout Instr <32> = Branch(_, _, _, _) : { word 32 { [0:7] = 99, [7:1] .3[10:1], [8:4] .3[0:4], [12:3] .0, [15:5] .1, [20:5] .2, [25:6] .3[4:6], [31:1] .3[11:1] } };fun main(i: Instr): u12 = match i { Branch(7, _, _, o) => o, Branch(_, _, _, 2730) => 1, Branch(_, 31, b, _) => to u12(b), _ => 9 };";

// Trees of two halves, by both.
const FORKED: &str =
    "type Twin = Tip | Fork(Twin, Twin);layout Twin <64> = split 0[0:1] { 1 => Tip : { word 64 { [0:1] = 1 } } 0 => Fork(_, _) : { word 64 { [0:1] = 0, [3:61] -> 8 { inline .0, inline .1 } } } };fun main(t: Twin): u8 = match t { Tip => 1, Fork(Tip, Tip) => 2, Fork(Fork(_, _), Tip) => 3, Fork(_, Fork(x, _)) => match x { Tip => 4, Fork(_, _) => 5 } };";

// For each file values, and their answers: for each clause of each match a value that takes it. Where a later clause
// would match the value, too, it would answer something else.
const LISTED_ROWS: &str = "Nil~0 1;
Cons(5,Nil)~0 2;
Cons(9,Nil)~0 9;
Cons(5,Cons(0,Nil))~0 3;
Cons(5,Cons(6,Nil))~0 106;
Cons(5,Cons(6,Cons(8,Nil)))~0 8;";

const GROWN_ROWS: &str = "Empty~0 1;
Node(Red,Node(Black,Empty,8,Empty),9,Empty)~0 8;
Node(Black,Empty,7,Empty)~0 2;
Node(Black,Empty,7,Node(Red,Empty,40,Empty))~0 40;
Node(Black,Empty,7,Node(Black,Empty,40,Empty))~0 3;
Node(Red,Node(Red,Empty,8,Empty),9,Empty)~0 9;
Node(Black,Empty,6,Empty)~0 6;";

const SHAPED_ROWS: &str = "Dot(0)~0 1;
Dot(255)~0 255;
Box(3,5)~0 3;
Box(3,6)~0 6;
Box(2,2)~0 7;";

const PAIRED_ROWS: &str = "Two(5,6)~0 6;
Two(4,6)~0 4;
Two(6,5)~0 7;";

const SLICED_ROWS: &str = "Branch(7,1,2,2730)~0 2730;
Branch(6,31,2,2730)~0 1;
Branch(6,31,30,2729)~0 30;
Branch(6,30,31,0)~0 9;";

const FORKED_ROWS: &str = "Tip~0 1;
Fork(Tip,Tip)~0 2;
Fork(Fork(Tip,Tip),Tip)~0 3;
Fork(Tip,Fork(Tip,Tip))~0 4;
Fork(Tip,Fork(Fork(Tip,Tip),Tip))~0 5;";

#[test]
fn each_clause_is_taken(rt: HostRuntime) -> Result<(), Surprise> {
    let alloc = rt.alloc();
    expect_table(alloc, LISTED, "run E 1 1024 ", LISTED_ROWS)?;
    expect_table(alloc, GROWN, "run E 1 1024 ", GROWN_ROWS)?;
    expect_table(alloc, SHAPED, "run E 1 1024 ", SHAPED_ROWS)?;
    expect_table(alloc, PAIRED, "run E 1 1024 ", PAIRED_ROWS)?;
    expect_table(alloc, SLICED, "run E 1 1024 ", SLICED_ROWS)?;
    expect_table(alloc, FORKED, "run E 1 1024 ", FORKED_ROWS)
}
