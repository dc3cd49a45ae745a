//! Files of every form, the first fault of others, and each limit at its number and one over. The rows
//! were written by hand from the grammar, a form each, and marked where it does not go on.

use crate::reading::{Found, expect_each, outcome, repeated_part};
use rb_core::seq::Seq;
use rb_read::fault::Quantity;
use rb_read::read::read_file;
use rb_syntax::lex::lex;
use rb_syntax::tree::{ExprTree, FileTree, ItemTree, Op, PatTree};
use std::alloc::Global;
use std::test::Fail;

// Files.
const FILES: &str = "
type Bit = Off | On; type List = Nil | Cons(u64, List); type P = P(u1, Bit);
fun main(x: u8, y: u8): u8 = add(x, mul(y, 3)); fun none(): Bit = Off;
fun f(l: List): u64 = match l { Nil => 0, Cons(x, _) => g(), rest => let y: u64 = to u64(1) in h(y, y) };
fun g(x: u8): P = P(or(x, xor(1, and(2, sub(3, 4)))), eq(lt(x, 1), 0));
layout List <64> = split 0[0:1] { 1 => Nil : { word 64 { [0:1] = 1 } } 0 => Cons(_, _) : { word 64 { [0:1] = 0, [3:61] -> 8 { word 64 { [0:64] .0 }, inline .1 } } } };
layout I <32, 8> = Branch(_, C(_, N)) : { word 32 { [0:7] = 99, [7:1] .3.0[10:1] }, word 8 { [0:8] .1.2 word 3 }, word 1 { } };
layout S <32> = split 0[0:32] -> 4 @0:8[0:8] -> 8 @16:64[0:1] { 0 => A : { inline .0.1 } else => split 1[0:1] { else => B : { inline .0 } } };
layout N <8> = split 0[0:8] { 0 => A : { word 8 { [0:8] -> 4 { } } } };";

// Items that are cut short or wrong, and layouts that are left to the compiler.
const FAULTS: &str = "type Bit = Off | On; layout Bit <8> = split 0[0:1] { 0 => Off~
fun main(x: u8,~): u8 = x;
fun main(): u8 = add(1~);
fun main(): u8 = f(1,~);
fun main(): u8 = 1; ~2
fun main(): u8 = A(~);
type T = A(~);
type T = ~;
layout T <~> = A : { inline .0 };
layout T <8> = A : { ~};
layout T <8> = A : { inline .~4294967296 };
layout T <8> = ~x : { inline .0 };
type A = B; layout A = boxed;
layout A = packed; layout B = boxed;
layout A = packed; layout B = ~boxes;
layout A = packed~";

// Types, as a function's result.
const TYPES: &str = "fun f(): u8 = 0;
fun f(): u64 ~x = 0;
fun f(): Tree = 0;
fun f(): ~u65 = 0;
fun f(): ~type = 0;
fun f():~";

// Constructors.
const CONSTRUCTORS: &str = "type T = Leaf | Node;
type T = Node(u8, Tree);
type T = Node(~);
type T = Node(u8 ~Tree);
type T = Node(u8,~
type T = ~node;";

// Parameters.
const PARAMETERS: &str = "fun f(x: u8): u8 = 0;
fun f(xs: List): u8 = 0;
fun f(x ~u8): u8 = 0;
fun f(~X: u8): u8 = 0;
fun f(x:~";

// What is no expression.
const EXPRESSIONS: &str = "fun f(): u8 = ~in;
fun f(): u8 = ~u8;
fun f(): u8 = ~(x);
fun f(): u8 = Nil(~);
fun f(): u8 = f(x,~);
fun f(): u8 = f(x ~y);
fun f(): u8 = sub(x~);
fun f(): u8 = sub(x, y~, z);
fun f(): u8 = to ~x(8);
fun f(): u8 = let x: u8 = 1~; x;
fun f(): u8 = let ~X: u8 = 1 in x;
fun f(): u8 = match x { ~};
fun f(): u8 = match x { Nil => 0~; };
fun f(): u8 = match x { Nil ~= 0 };
fun f(): u8 = ~;
fun f(): u8 =~";

const TABLES: &[&str] = &[FILES, FAULTS, TYPES, CONSTRUCTORS, PARAMETERS, EXPRESSIONS];

#[test]
fn each_line(rt: HostRuntime) -> Result<(), Fail> {
    for rows in TABLES {
        expect_each(&rt, rt.alloc(), *rows)?;
    }
    Ok(())
}

// The tree of a text.
fn tree(alloc: Global, text: &[u8]) -> Result<FileTree, Fail> {
    let placed = lex(alloc, text)?;
    if placed.len() < 1 << 32 {
        return Ok(read_file(alloc, placed.as_slice())?);
    }
    Ok(FileTree {
        items: Seq::new(alloc),
    })
}

// The body of the first function.
fn body(file: &FileTree) -> Option<&ExprTree> {
    match file.items.get(0)? {
        ItemTree::Funs(fun) => Some(&fun.body),
        _ => None,
    }
}

// The pattern of the first clause, where that body is a match.
fn pattern(file: &FileTree) -> Option<&PatTree> {
    match body(file)? {
        ExprTree::Match(_, _, clauses) => Some(&clauses.get(0)?.pat),
        _ => None,
    }
}

#[test]
fn a_comparison(rt: HostRuntime) -> Result<(), Fail> {
    let file = tree(rt.alloc(), b"fun f(): u8 = lt(x, 3);")?;
    assert!(rt; matches!(body(&file), Some(ExprTree::Binary(7, Op::Lt, _, _))));
    Ok(())
}

#[test]
fn a_match(rt: HostRuntime) -> Result<(), Fail> {
    let file = tree(rt.alloc(), b"fun f(): u8 = match x { Some(_) => 0 };")?;
    assert!(rt; matches!(pattern(&file), Some(PatTree::Con(10, _, _))));
    Ok(())
}

// A front, a part, a back, how many parts are within the limit, and what is over it with one more.
type LimitRow = (
    &'static [u8],
    &'static [u8],
    &'static [u8],
    usize,
    Quantity,
    u64,
);

const LIMITS: &[LimitRow] = &[
    (b"", b"type T = A; ", b"", 1_000, Quantity::Types, 1_001),
    (
        b"",
        b"fun f(): u8 = 0; ",
        b"",
        10_000,
        Quantity::Functions,
        10_001,
    ),
    (
        b"type U = A; type T = A",
        b" | B",
        b";",
        255,
        Quantity::Constructors,
        257,
    ),
    (
        b"type T = A | B(u8",
        b", u8",
        b") | C;",
        31,
        Quantity::Fields,
        33,
    ),
    (
        b"fun f(x: u8",
        b", x: u8",
        b"): u8 = 0;",
        31,
        Quantity::Parameters,
        33,
    ),
    (
        b"layout T <8",
        b", 8",
        b"> = A : { inline .0 };",
        7,
        Quantity::ShapeWords,
        9,
    ),
];

// What comes of the front, so many parts and the back.
fn of_parts(alloc: Global, row: &LimitRow, count: usize) -> Result<Found, Fail> {
    let text = repeated_part(alloc, row.0, row.1, count, row.2)?;
    outcome(alloc, text.as_slice())
}

#[test]
fn limits(rt: HostRuntime) -> Result<(), Fail> {
    for row in LIMITS {
        let &(_, _, _, count, quantity, over) = row;
        let most = of_parts(rt.alloc(), row, count)?;
        let more = of_parts(rt.alloc(), row, count.saturating_add(1))?;
        let wanted = (Found::File, Found::Limit(quantity, over));
        assert!(rt; (most, more) == wanted, "{quantity:?}");
    }
    Ok(())
}
