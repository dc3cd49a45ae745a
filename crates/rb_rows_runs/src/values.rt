//! Images of which one byte or a little more is changed: the values that they hold, or why they hold none. The answers
//! were worked out by hand from the layouts. A `;` ends a line.

use crate::images::{OPTION, SAME, TREE};
use crate::layouts::{BRANCH, LIST, PAIR, TWIN};
use rb_rows_calls::call::{answer, call, lines};
use rb_rows_calls::rows::{ImageRow, expect_held, expect_image};
use rb_rows_calls::surprise::{Surprise, another, no_row};
use std::alloc::Global;
use std::str;
use std::test::Fail;

// Looks what `value` answers to each image of a file, which has the name `I`. Each line of the table is an image, a
// `~`, and the answer; one that begins with a `#` says something of the next.
fn expect_values(alloc: Global, file: &str, table: &str) -> Result<(), Surprise> {
    for line in table.split('\n') {
        expect_value(alloc, file, line)?;
    }
    Ok(())
}

// Looks so at a line.
fn expect_value(alloc: Global, file: &str, line: &str) -> Result<(), Surprise> {
    if line.starts_with('#') {
        return Ok(());
    }
    let Some((image, wanted)) = line.split_once('~') else {
        return no_row(alloc, line);
    };
    let image = lines(alloc, image)?;
    expect_image(
        alloc,
        "value E I",
        file.as_bytes(),
        image.as_slice(),
        wanted,
    )
}

// Images of a list.
const LISTS: &str = "# as `image` writes it
root 0x50;block 64 16 02000000000000000100000000000000;block 80 16 01000000000000004000000000000000;~0 Cons(1, Cons(2, Nil));
# the inner one; the other block is not reached
root 0x40;block 64 16 02000000000000000100000000000000;block 80 16 01000000000000004000000000000000;~0 Cons(2, Nil);
# the tag of Nil, beside which all bits are free
root 0x51;block 64 16 02000000000000000100000000000000;block 80 16 01000000000000004000000000000000;~0 Nil;
# free bits
root 0x56;block 64 16 02000000000000000100000000000000;block 80 16 01000000000000004000000000000000;~0 Cons(1, Cons(2, Nil));
# the middle of a block
root 0x48;block 64 16 02000000000000000100000000000000;block 80 16 01000000000000004000000000000000;~16 ribbit: image 44: base 0, address 72;
# the middle of the last block
root 0x58;block 64 16 02000000000000000100000000000000;block 80 16 01000000000000004000000000000000;~16 ribbit: image 44: base 0, address 88;
# behind the last block
root 0x60;block 64 16 02000000000000000100000000000000;block 80 16 01000000000000004000000000000000;~16 ribbit: image 44: base 0, address 96;
# before the first block
root 0x10;block 64 16 02000000000000000100000000000000;block 80 16 01000000000000004000000000000000;~16 ribbit: image 44: base 0, address 16;
# nothing stands at 0
root 0x0;block 64 16 02000000000000000100000000000000;block 80 16 01000000000000004000000000000000;~16 ribbit: image 44: base 0, address 0;
# an equal address: a cycle of one block
root 0x50;block 64 16 02000000000000000100000000000000;block 80 16 01000000000000005000000000000000;~16 ribbit: image 44: base 80, address 80;
# upward, into the own block
root 0x50;block 64 16 02000000000000000100000000000000;block 80 16 01000000000000005800000000000000;~16 ribbit: image 44: base 80, address 88;
# upward, to the end
root 0x50;block 64 16 02000000000000000100000000000000;block 80 16 01000000000000006000000000000000;~16 ribbit: image 44: base 80, address 96;
# the middle of the block below
root 0x50;block 64 16 02000000000000000100000000000000;block 80 16 01000000000000004800000000000000;~16 ribbit: image 44: base 80, address 72;
# the highest bit of the pointer
root 0x50;block 64 16 02000000000000000100000000000000;block 80 16 01000000000000004000000000000080;~16 ribbit: image 44: base 80, address 9223372036854775872;
# the tag of the tail
root 0x50;block 64 16 02000000000000000100000000000000;block 80 16 01000000000000004100000000000000;~0 Cons(1, Nil);
# the number of an item
root 0x50;block 64 16 02000000000000000100000000000000;block 80 16 ff000000000000004000000000000000;~0 Cons(255, Cons(2, Nil));
# its highest byte
root 0x50;block 64 16 02000000000000000100000000000000;block 80 16 01000000000000014000000000000000;~0 Cons(72057594037927937, Cons(2, Nil));
# the tail of the inner one leads to 0
root 0x50;block 64 16 02000000000000000000000000000000;block 80 16 01000000000000004000000000000000;~16 ribbit: image 44: base 64, address 0;
# upward: a cycle of two blocks
root 0x50;block 64 16 02000000000000005000000000000000;block 80 16 01000000000000004000000000000000;~16 ribbit: image 44: base 64, address 80;
# a cycle behind a block
root 0x50;block 64 16 02000000000000004000000000000000;block 80 16 01000000000000004000000000000000;~16 ribbit: image 44: base 64, address 64;
# a free bit beside the tag of Nil
root 0x50;block 64 16 02000000000000000300000000000000;block 80 16 01000000000000004000000000000000;~0 Cons(1, Cons(2, Nil));
# a digit behind fifteen bytes
root 0x50;block 64 15 02000000000000000100000000000000;block 80 16 01000000000000004000000000000000;~16 ribbit: image 40 at byte 52;
# a line that ends behind sixteen
root 0x50;block 64 17 02000000000000000100000000000000;block 80 16 01000000000000004000000000000000;~16 ribbit: image 40 at byte 54;
# one byte into the next
root 0x50;block 65 16 02000000000000000100000000000000;block 80 16 01000000000000004000000000000000;~16 ribbit: image 41: block 1;
# below 64
root 0x50;block 44 16 02000000000000000100000000000000;block 80 16 01000000000000004000000000000000;~16 ribbit: image 41: block 0;
# into the one before
root 0x50;block 64 16 02000000000000000100000000000000;block 70 16 01000000000000004000000000000000;~16 ribbit: image 41: block 1;
# one byte further: nothing begins at 80
root 0x50;block 64 16 02000000000000000100000000000000;block 81 16 01000000000000004000000000000000;~16 ribbit: image 44: base 0, address 80;
# a capital digit
root 0x50;block 64 16 02000000000000000100000000000000;block 80 16 0100000000000000400000000000000A;~16 ribbit: image 40 at byte 98;
# no digit
root 0x5g;block 64 16 02000000000000000100000000000000;block 80 16 01000000000000004000000000000000;~16 ribbit: image 40 at byte 8;
# a digit behind 0
root 0x00;block 64 16 02000000000000000100000000000000;block 80 16 01000000000000004000000000000000;~16 ribbit: image 40 at byte 8;
# another word
Root 0x50;block 64 16 02000000000000000100000000000000;block 80 16 01000000000000004000000000000000;~16 ribbit: image 40 at byte 0;
# a capital X
root 0X50;block 64 16 02000000000000000100000000000000;block 80 16 01000000000000004000000000000000;~16 ribbit: image 40 at byte 6;
# the line does not end
root 0x50;block 64 16 02000000000000000100000000000000;block 80 16 01000000000000004000000000000000~16 ribbit: image 40 at byte 99;
# nothing at all
~16 ribbit: image 40 at byte 0;
# no text goes on so
rott~16 ribbit: image 40 at byte 2;
# no root word
root;~16 ribbit: image 42: word 0;
# one too many
root 0x50 0x1;block 64 16 02000000000000000100000000000000;block 80 16 01000000000000004000000000000000;~16 ribbit: image 42: word 1;
# 42 before 44
root 0x48 0x1;block 64 16 02000000000000000100000000000000;block 80 16 01000000000000004000000000000000;~16 ribbit: image 42: word 1;
# 41, though no block is reached
root 0x1;block 64 16 00000000000000000000000000000000;block 72 8 0000000000000000;~16 ribbit: image 41: block 1;
# one block that holds itself
root 0x40;block 64 16 02000000000000004000000000000000;~16 ribbit: image 44: base 64, address 64;";

// Images of a shape, whose tag stands behind its pointer.
const SHAPES: &str = "# as `image` writes it
root 0x10;block 64 9 010100000002000000;~0 Box(1, 2);
# the other leaf
root 0x10;block 64 2 0005;~0 Dot(5);
# a split without an arm for 7
root 0x10;block 64 2 0705;~16 ribbit: image 43: base 64, place 0;
# the tag of Dot, whose block has two bytes
root 0x10;block 64 9 000100000002000000;~16 ribbit: image 44: base 0, address 64;
# no arm for 2
root 0x10;block 64 9 020100000002000000;~16 ribbit: image 43: base 64, place 0;
# the highest byte of a field
root 0x10;block 64 9 010100000002000080;~0 Box(1, 2147483650);
# the tag of Box, whose block has nine
root 0x10;block 64 2 0105;~16 ribbit: image 44: base 0, address 64;
# a split behind a pointer to no block
root 0x11;block 64 9 010100000002000000;~16 ribbit: image 44: base 0, address 68;
# the greatest pointer
root 0xffffffff;block 64 9 010100000002000000;~16 ribbit: image 44: base 0, address 17179869180;
# 33 bits
root 0x100000010;block 64 9 010100000002000000;~16 ribbit: image 42: word 0;
# 42 before 43
root 0x100000010;block 64 2 0705;~16 ribbit: image 42: word 0;";

// Images of a tree, a node's color in the lowest bit of a pointer.
const TREES: &str = "# as `image` writes it
root 0x41;block 64 12 070000000000000000000000;~0 Node(Black, Empty, 7, Empty);
# the other colour
root 0x40;block 64 12 070000000000000000000000;~0 Node(Red, Empty, 7, Empty);
# a block that is not reached
root 0x0;block 64 12 070000000000000000000000;~0 Empty;
# a colour, and nothing behind it
root 0x1;block 64 12 070000000000000000000000;~16 ribbit: image 44: base 0, address 0;
# free bits on both sides
root 0xff000042;block 64 12 070000000000000000000000;~0 Node(Red, Empty, 7, Empty);
# the left tree is a colour alone
root 0x41;block 64 12 070000000100000000000000;~16 ribbit: image 44: base 64, address 0;
# the right tree is the whole
root 0x41;block 64 12 070000000000000040000000;~16 ribbit: image 44: base 64, address 64;
# both, of which the left one is named
root 0x41;block 64 12 070000004000000001000000;~16 ribbit: image 44: base 64, address 64;
# a block of another size
root 0x41;block 64 11 0700000000000000000000;~16 ribbit: image 44: base 0, address 64;";

// Images of an instruction, which has no split.
const INSTRUCTIONS: &str = "# as `image` writes it
root 0x208463;~0 Branch(0, 1, 2, 4);
# a constant that differs
root 0x208462;~16 ribbit: image 43: base 0, place 0;
# in another of its bits
root 0x208423;~16 ribbit: image 43: base 0, place 0;
# a bit too many
root 0x100208463;~16 ribbit: image 42: word 0;";

// Images of a pair in two blocks.
const PAIRS: &str = "# as `image` writes it
root 0x9;block 64 8 0600000000000000;block 72 16 05000000000000000800000000000000;~0 Two(5, 6);
# the inner block for the outer
root 0x8;block 64 8 0600000000000000;block 72 16 05000000000000000800000000000000;~16 ribbit: image 44: base 0, address 64;
# the outer one for the inner
root 0x9;block 64 8 0600000000000000;block 72 16 05000000000000000900000000000000;~16 ribbit: image 44: base 72, address 72;
# an address of more than 64 bits
root 0x9;block 64 8 0600000000000000;block 72 16 050000000000000008000000000000ff;~16 ribbit: image 44: base 72, address 146997491837372989504;";

// An integer's image is one word.
const INTEGERS: &str = "root 0xff;~0 255;
root 0x0;block 64 1 00;~0 0;
root 0x100;~16 ribbit: image 42: word 0;
root;~16 ribbit: image 42: word 0;
root 0x1 0x1;~16 ribbit: image 42: word 1;";

#[test]
fn lists(rt: HostRuntime) -> Result<(), Surprise> {
    expect_values(rt.alloc(), LIST, LISTS)
}

#[test]
fn shapes(rt: HostRuntime) -> Result<(), Surprise> {
    expect_values(rt.alloc(), SAME, SHAPES)
}

#[test]
fn trees(rt: HostRuntime) -> Result<(), Surprise> {
    expect_values(rt.alloc(), TREE, TREES)
}

#[test]
fn instructions(rt: HostRuntime) -> Result<(), Surprise> {
    expect_values(rt.alloc(), BRANCH, INSTRUCTIONS)
}

#[test]
fn pairs(rt: HostRuntime) -> Result<(), Surprise> {
    expect_values(rt.alloc(), PAIR, PAIRS)
}

#[test]
fn integers(rt: HostRuntime) -> Result<(), Surprise> {
    expect_values(rt.alloc(), "fun main(x: u1): u8 = 7;", INTEGERS)
}

// Words of `main` that gives back its argument, or a value of its own.
const BACK: [(&str, &str); 9] = [
    (LIST, "1 1024 Nil"),
    (LIST, "1 1024 Cons(1,Cons(2,Nil))"),
    (SAME, "1 1024 Box(1,2)"),
    (SAME, "1 1024 Dot(5)"),
    (TREE, "1 1024 Node(Black,Node(Red,Empty,3,Empty),7,Empty)"),
    (BRANCH, "1 64 Branch(7,31,30,4095)"),
    (PAIR, "1 1024 Two(5,6)"),
    (TWIN, "40 1024 8"),
    (OPTION, "1 1024 Yes(Node(Red,Empty,1,Empty))"),
];

// Looks whether what `image` prints of a value is read back as what `run` prints of it.
fn expect_read_back(alloc: Global, rows: &[(&str, &str)]) -> Result<(), Surprise> {
    for (file, words) in rows {
        let file = file.as_bytes();
        let image = format!(in alloc; "image E {words}")?;
        let image = call(alloc, image.as_str(), file, &[], &[])?;
        if image.status != 0 {
            another(alloc, words, image.err.as_slice(), b"an image")?;
        }
        let run = format!(in alloc; "run E {words}")?;
        let run = answer(alloc, run.as_str(), file)?;
        let wanted = str::from_utf8(run.as_slice()).unwrap_or("no text");
        expect_image(alloc, "value E I", file, image.out.as_slice(), wanted)?;
    }
    Ok(())
}

#[test]
fn images_are_read_back(rt: HostRuntime) -> Result<(), Surprise> {
    expect_read_back(rt.alloc(), &BACK)
}

// Looks at the image of thirty blocks, each with twice the block before it: 2,147,483,647 nodes. With its lowest
// block at fault there is no value, whatever its size.
fn expect_too_many(alloc: Global) -> Result<(), Surprise> {
    let file = TWIN.as_bytes();
    let mut image = call(alloc, "image E 40 1024 30", file, &[], &[])?.out;
    let wanted = "13 ribbit: value over 1000000 nodes;";
    expect_image(alloc, "value E I", file, image.as_slice(), wanted)?;
    let text = image.as_slice();
    let place = text.iter().position(|byte| *byte == b'\n').unwrap_or(0);
    // of `block 64 16 0100..` the digit 1
    if let Some(byte) = image.get_mut(place.saturating_add(14)) {
        *byte = b'0';
    }
    let wanted = "16 ribbit: image 44: base 64, address 0;";
    expect_image(alloc, "value E I", file, image.as_slice(), wanted)
}

#[test]
fn a_value_of_too_many_nodes(rt: HostRuntime) -> Result<(), Surprise> {
    expect_too_many(rt.alloc())
}

// Words, file, image and answer: the file is read and checked before the image is opened, and a name may be that of
// both.
const IN_TURN: [ImageRow; 7] = [
    (
        "value E J",
        "fun main(): u8 = 0;",
        "",
        "7 ribbit: read fault;",
    ),
    (
        "value F I",
        "fun main(): u8 = 0;",
        "root 0x1\n",
        "7 ribbit: read fault;",
    ),
    (
        "value E J",
        "fun main(): u8 = y;",
        "",
        "2 ribbit: unknown name y at byte 17;",
    ),
    (
        "value E J",
        "fun main(): u8 = 0",
        "",
        "1 ribbit: syntax at byte 18;",
    ),
    (
        "value E J",
        "type A = A; fun main(): A = A;",
        "",
        "3 ribbit: layout of A: A1: no layout;",
    ),
    (
        "value E E",
        "fun main(): u8 = 0;",
        "",
        "16 ribbit: image 40 at byte 0;",
    ),
    (
        "value I I",
        "",
        "root 0x1\n",
        "1 ribbit: bad byte at byte 6;",
    ),
];

#[test]
fn a_file_before_its_image(rt: HostRuntime) -> Result<(), Surprise> {
    expect_held(rt.alloc(), &IN_TURN)
}

// A file over its limit comes before its image too, and an image may be longer than a file.
#[test]
fn a_file_over_its_limit(rt: HostRuntime) -> Result<(), Fail> {
    let alloc = rt.alloc();
    let blank = vec![in alloc; b' '; 262_145]?;
    let long = blank.as_slice();
    let wanted = "11 ribbit: limit file bytes: 262145 over 262144;";
    expect_image(alloc, "value E J", long, b"", wanted)?;
    let wanted = "16 ribbit: image 40 at byte 0;";
    expect_image(alloc, "value E I", b"fun main(): u8 = 0;", long, wanted)?;
    Ok(())
}

// An image over its limit is read one byte further.
#[test]
fn an_image_over_the_limit(rt: HostRuntime) -> Result<(), Fail> {
    let alloc = rt.alloc();
    let blank = vec![in alloc; b' '; 16_777_217]?;
    let wanted = "11 ribbit: limit file bytes: 16777217 over 16777216;";
    let file = b"fun main(): u8 = 0;";
    expect_image(alloc, "value E I", file, blank.as_slice(), wanted)?;
    Ok(())
}
