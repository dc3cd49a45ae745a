//! Texts at types. The rows were written by hand from the grammar of a value and the rule of the first
//! node that does not fit, outer before inner and left to right; the bytes of those that are refused
//! were held against another program, written from the same rules.

use crate::values::reading::{Found, expect_each, outcome};
use crate::values::types::{COLOR, LIST, PAIR, TREE};
use rb_core::types::Ty;
use std::test::Fail;

// Lists: values, and texts that spell none.
const LISTS: &str = "Nil
Cons(1, Cons(2, Nil))
Cons(18446744073709551615, Nil)
~
 ~
Cons(1,~)
Cons(1, ~)
Cons(1, Nil) ~x
~18446744073709551616
Cons(1, Nil~
Cons(~
Cons(1,\t \r~
Cons(~)
Nil(~)
Nil ~Nil
Nil~, 01
Cons(0~1, Nil)
Cons(1, 0~x)
Cons(~18446744073709551616, Nil)
~nil
~(Nil)
~_
~-1
1~(2)
Cons(1, Nil)~)
Cons (1 , Nil) ~2
Cons(1 ~Nil)
Cons(1,~, Nil)
Cons(1~; 01
Cons(~u8, Nil)
Cons(1, ~match)
Cons(1, Nil) ~/
Nil~/
Cons(Nil)~(";

// Lists: nodes that do not fit.
const MISFITS: &str = "!1
!Red
!Cons
!Cons(1)
!Nil(1)
!Cons(Nil, Nil, Nil)
Cons(!X, Y)
Cons(!X, Cons(1))
Cons(1, !2)
Cons(1, !Red)
Cons(1, !Cons(Nil, 2, 3))
Cons(!Nil, Cons(2, 3))
Cons(1, Cons(1, Cons(18446744073709551615, !Cons)))";

// Trees.
const TREES: &str = "Node(Black, Empty, 7, Empty)
Node(Red, Node(Black, Empty, 4294967295, Empty), 0, Empty)
Node(Red, Node(Black, Empty, 4294967295, Empty), 0, !Node)
Node(Red, Node(Black, Empty, !4294967296, Empty), 0, Empty)
Node(!Nil, Empty, 4294967296, Empty)";

// Pairs.
const PAIRS: &str = "Pair(0, 255)
Pair(255, !256)
Pair(!256, X)
Pair(255, !X(Y))
Pair(!Pair(1, 2), 3)
!Pair(256)
!Pair(256, X, 2)
!P(300, 2)";

// Types, and the lines at each.
const TEXTS: &[(Ty, &str)] = &[
    (LIST, LISTS),
    (LIST, MISFITS),
    (TREE, TREES),
    (PAIR, PAIRS),
    (COLOR, "Red\nBlack\n!Empty"),
    (Ty::Int(1), "0\n1\n!2"),
    (Ty::Int(8), "255\n!256\n!Nil"),
    (Ty::Int(64), "18446744073709551615"),
];

// Each line is a value of its type, or is refused at the byte behind `~` (no value is spelled) or `!` (a node, a number
// or constructor, that does not fit).
#[test]
fn each_line(rt: HostRuntime) -> Result<(), Fail> {
    for &(ty, rows) in TEXTS {
        expect_each(&rt, rt.alloc(), ty, rows)?;
    }
    Ok(())
}

#[test]
fn blanks_and_comments(rt: HostRuntime) -> Result<(), Fail> {
    let text = b" Cons(1 // one\n,Nil ) // end";
    let found = outcome(rt.alloc(), LIST, text, 1000, b"Cons(1, Nil)")?;
    assert!(rt; found == Found::Value);
    Ok(())
}
