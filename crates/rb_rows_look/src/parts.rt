//! The words of parts of images' values, and how many words are read for them at most: the sum of the spans of the
//! values' types on the path. Worked out by hand from the layouts.

use crate::call::{agreed_of, compare, fault_text};
use crate::images::{ITEMS, LIST, SHAPE, WIDE};
use rb_core::types::Ty;
use rb_edge::steps::{CountLedger, Steps};
use rb_image_text::read::read_image_text;
use rb_layout::agreed::Agreed;
use rb_peek::peek::{Peeked, peek};
use std::alloc::{AllocError, Global};
use std::test::Fail;

// The number of a file's first type.
const FIRST: u32 = 0;

// A path, how many words are read for it at most, and the text that is to come.
type PartRow<'a> = (&'a [u32], u128, &'a str);

// The type of a part, and its words.
fn part_text(alloc: Global, part: &Peeked) -> Result<String, AllocError> {
    let mut text = match part.ty {
        Ty::Int(bits) => format!(in alloc; "u{bits}:")?,
        Ty::Named(ty) => format!(in alloc; "type {ty}:")?,
    };
    for word in part.words.as_slice() {
        text = format!(in alloc; "{text} {word}")?;
    }
    Ok(text)
}

// The part at a path of the value of the first type, or why there is none.
fn answer(
    alloc: Global,
    agreed: &Agreed,
    image: &str,
    row: &PartRow,
) -> Result<String, AllocError> {
    let (path, most, _) = *row;
    let image = match read_image_text(alloc, image.as_bytes()) {
        Ok(image) => image,
        Err(fault) => return fault_text(alloc, fault),
    };
    if FIRST as usize >= agreed.covered().program().types.len() {
        return format!(in alloc; "no type");
    }
    let mut steps = Steps::new(CountLedger { count: 0 });
    let found = peek(alloc, agreed, Ty::Named(FIRST), &image, path, &mut steps);
    let count = steps.ledger().count;
    if count > most {
        return format!(in alloc; "{count} words read");
    }
    match found {
        Ok(part) => part_text(alloc, &part),
        Err(fault) => fault_text(alloc, fault),
    }
}

// Looks at parts of the image with these lines.
fn expect_parts(alloc: Global, file: &str, image: &str, rows: &[PartRow]) -> Result<(), Fail> {
    let agreed = agreed_of(alloc, file)?;
    for row in rows {
        let found = answer(alloc, &agreed, image, row)?;
        compare(alloc, row.2, found.as_bytes(), row.2)?;
    }
    Ok(())
}

// The span of a list is 5, a split and four words, and that of a number is 1.
const LISTS: [PartRow; 8] = [
    (&[], 5, "type 0: 80"),
    (&[0], 6, "u64: 1"),
    (&[1], 10, "type 0: 64"),
    (&[1, 0], 11, "u64: 2"),
    (&[1, 1], 15, "type 0: 1"),
    // where no part is come to, no more than for the values before it
    (&[1, 1, 0], 15, "part 2"),
    (&[0, 0], 6, "part 1"),
    (&[2], 5, "part 0"),
];

#[test]
fn lists(rt: HostRuntime) -> Result<(), Fail> {
    let image = format!(in rt.alloc(); "root 0x50\n{ITEMS}")?;
    expect_parts(rt.alloc(), LIST, image.as_str(), &LISTS)
}

// That of a shape is 9: a split behind one pointer, and three and four words.
const SHAPES: [PartRow; 3] = [
    (&[], 9, "type 0: 16"),
    (&[0], 10, "u32: 1"),
    (&[1], 10, "u32: 2"),
];

#[test]
fn shapes(rt: HostRuntime) -> Result<(), Fail> {
    let image = "root 0x10\nblock 64 9 010100000002000000\n";
    expect_parts(rt.alloc(), SHAPE, image, &SHAPES)
}

// That of a bit is 3.
const BITS: [PartRow; 3] = [
    (&[], 3, "type 0: 1"),
    (&[0], 3, "part 0"),
    (&[1], 3, "part 0"),
];

#[test]
fn bits(rt: HostRuntime) -> Result<(), Fail> {
    expect_parts(rt.alloc(), WIDE, "root 0x1\n", &BITS)
}

// Two pairs that a leaf takes apart: each is rebuilt where it is asked for. The second part of a pair stands in the low
// bits of its word, and the first from bit 5 on. The span of the two is 3: their word, and the 1 of each pair.
const NESTED: &str =
    "type Four = Four(Two, Two); layout Four <16> = Four(Two(_, _), Two(_, _)) : { word 16 { [0:4] .0.0, [4:4] .0.1, [8:4] .1.0, [12:4] .1.1 } }; type Two = Two(u4, u4); layout Two <9> = Two(_, _) : { word 9 { [0:4] .1, [5:4] .0 } }; fun main(f: Four): Four = f;";

const REBUILT: [PartRow; 5] = [
    (&[], 3, "type 0: 17185"),
    // 1 from bit 5 on, and 2
    (&[0], 4, "type 1: 34"),
    (&[1], 4, "type 1: 100"),
    (&[1, 1], 5, "u4: 4"),
    (&[1, 2], 4, "part 1"),
];

#[test]
fn rebuilt_pairs(rt: HostRuntime) -> Result<(), Fail> {
    expect_parts(rt.alloc(), NESTED, "root 0x4321\n", &REBUILT)
}
