//! Nodes at the greatest level and below it. The levels of each row were counted by hand, a node one
//! level deeper than that which it stands in; the marks are those of `reading`.

use crate::reading::{expect, repeated_part};
use std::alloc::{AllocError, Global};
use std::process::Abort;
use std::test::Fail;

// What stands around a row: first the front and so many parts, which open levels, and behind the row its end, as
// many parts which close them, and the back.
#[derive(Clone, Copy)]
struct Frame {
    front: &'static [u8],
    open: &'static [u8],
    end: &'static [u8],
    close: &'static [u8],
    back: &'static [u8],
}

// A function whose body has the row below so many conversions.
const EXPRESSION: Frame = Frame {
    front: b"fun f(): u8 = ",
    open: b"to u8(",
    end: b"",
    close: b")",
    back: b";",
};

// A layout of a leaf with this provenance, below so many splits.
const PROVENANCE: Frame = Frame {
    front: b"layout T <8> = ",
    open: b"split 0[0:1] { 0 => ",
    end: b": { inline .0 }",
    close: b" }",
    back: b";",
};

// A layout with this tree below so many splits.
const TREE: Frame = Frame {
    front: b"layout T <8> = ",
    open: b"split 0[0:1] { 0 => ",
    end: b"",
    close: b" }",
    back: b";",
};

// A layout of one leaf with these items in so many pointer parts, one in the block of the other.
const POINTER: Frame = Frame {
    front: b"layout T <8> = Nil : { ",
    open: b"word 8 { [0:8] -> 8 { ",
    end: b"",
    close: b" } }",
    back: b" };",
};

// A function that stops behind the row.
const CUT_SHORT: Frame = Frame {
    front: b"fun main(x: u8): u8 = ",
    open: b"to u8(",
    end: b"",
    close: b"",
    back: b"",
};

// The row in so many parts of its frame.
fn framed_row(
    alloc: Global,
    frame: &Frame,
    around: usize,
    row: &str,
) -> Result<Vec<u8>, AllocError> {
    let mut text = repeated_part(alloc, frame.front, frame.open, around, row.as_bytes())?;
    let closed = repeated_part(alloc, frame.end, frame.close, around, frame.back)?;
    text.extend_from_slice(closed.as_slice())?;
    Ok(text)
}

// Checks each row of a table in its frame.
fn expect_framed(
    rt: &impl Abort,
    alloc: Global,
    frame: &Frame,
    rows: &[(usize, &str)],
) -> Result<(), Fail> {
    for (around, row) in rows {
        let text = framed_row(alloc, frame, *around, *row)?;
        expect(rt, alloc, text.as_slice())?;
    }
    Ok(())
}

// Expressions, each below so many conversions that its deepest node is at level 128.
const EXPRESSIONS: &[(usize, &str)] = &[
    (127, "7"),
    (127, "x"),
    (127, "f()"),
    (126, "f(x, 7)"),
    (127, "Nil"),
    (126, "Cons(x, xs)"),
    (125, "add(x, mul(y, 3))"),
    (126, "sub(1, 2)"),
    (126, "and(1, 2)"),
    (126, "or(1, 2)"),
    (126, "xor(1, 2)"),
    (126, "eq(1, 2)"),
    (126, "lt(1, 2)"),
    (126, "to u8(x)"),
    (126, "let x: u8 = 1 in x"),
    (125, "match x { Nil => 0, Cons(y, _) => y }"),
];

// Expressions below too many conversions, and what is none at a level too deep.
const DEEP: &[(usize, &str)] = &[
    (128, "!x"),
    (128, "!add"),
    (128, "~in"),
    (127, "f(!x)"),
    (127, "f(~in)"),
    (126, "add(x, mul(!y, 3))"),
    (126, "match x { Nil => 0, Cons(!y, _) => y }"),
];

// Patterns, a level below their match, which is below so many conversions.
const PATTERNS: &[(usize, &str)] = &[
    (126, "match x { _ => 0 }"),
    (126, "match x { x => 0 }"),
    (126, "match x { 18446744073709551615 => 0 }"),
    (126, "match x { Nil => 0 }"),
    (125, "match x { Cons(x, _) => 0 }"),
    (126, "match x { Cons(!x, _) => 0 }"),
    (124, "match x { Cons(Some(0), Nil) => 0 }"),
    (125, "match x { Cons(Some(!0), Nil) => 0 }"),
    (125, "match x { Cons(~) => 0 }"),
    (126, "match x { Cons(~add, _) => 0 }"),
    (126, "match x { ~u8 => 0 }"),
    (126, "match x { Cons(!_) => 0 }"),
    (126, "match x { Cons(~() => 0 }"),
];

// Provenances, below so many splits and a level below their leaf.
const PROVENANCES: &[(usize, &str)] = &[
    (126, "Nil"),
    (125, "Cons(_, Nil)"),
    (124, "Cons(Some(_), _)"),
    (125, "Cons(~x)"),
    (125, "Cons(~0)"),
    (126, "~_"),
    (126, "Cons(!_)"),
    (127, "!Nil"),
    (127, "~_"),
];

// Trees, each below so many splits. A leaf is a level above its provenance, so none stands at the greatest
// level.
const TREES: &[(usize, &str)] = &[
    (126, "Nil : { inline .0 }"),
    (127, "split 0[0:1] { }"),
    (127, "!Nil : { inline .0 }"),
    (127, "split 0[0:1] { 0 => !Nil : { inline .0 } }"),
    (127, "split 0[0:1] { else => !split 0[0:1] { } }"),
    (127, "split 0[0:1] { 0 => ~x }"),
    (128, "!split 0[0:1] { }"),
    (126, "Nil : { word 8 { [0:8] -> 8 { inline .0 } } }"),
    (
        126,
        "Nil : { word 8 { [0:8] -> 8 { word 8 { [0:4] .0, [4:4] !-> 8 { } } } } }",
    ),
];

// Items, each in so many pointer parts; the first of them is a level below the leaf.
const POINTERS: &[(usize, &str)] = &[
    (127, "inline .0"),
    (127, "word 8 { [0:8] .0 }"),
    (126, "word 8 { [0:8] -> 8 { } }"),
    (127, "word 8 { [0:8] !-> 8 { } }"),
    (127, "inline .0, word 8 { [0:4] = 0, [4:4] !-> 8 { } }"),
    (127, "word 8 { [0:8] ~u8 }"),
];

// Texts that stop, below so many conversions.
const STOPPED: &[(usize, &str)] = &[(128, "~"), (126, "match x { ~"), (126, "match x { Cons(~")];

// Frames, and the rows in each.
const FRAMED: &[(Frame, &[(usize, &str)])] = &[
    (EXPRESSION, EXPRESSIONS),
    (EXPRESSION, DEEP),
    (EXPRESSION, PATTERNS),
    (PROVENANCE, PROVENANCES),
    (TREE, TREES),
    (POINTER, POINTERS),
    (CUT_SHORT, STOPPED),
];

#[test]
fn each_row(rt: HostRuntime) -> Result<(), Fail> {
    for (frame, rows) in FRAMED {
        expect_framed(&rt, rt.alloc(), frame, *rows)?;
    }
    Ok(())
}
