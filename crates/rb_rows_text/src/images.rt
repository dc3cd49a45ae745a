//! Texts of images. They were written by hand from the grammar of an image, with numbers at their bounds or one past
//! them; the bytes at which others stop, and the blocks that are out of place, were counted.

use rb_image_text::fault::ImageFault;
use rb_image_text::image::Image;
use rb_image_text::read::read_image_text;
use std::alloc::{AllocError, Global};
use std::process::Abort;
use std::test::Fail;

// What a text comes to.
#[derive(Clone, Copy, PartialEq, Eq)]
enum Found {
    // An image of so many root words and blocks.
    Image(usize, usize),
    Syntax(usize),
    Block(u64),
    Other,
}

// What reading a text comes to.
fn outcome(alloc: Global, text: &[u8]) -> Result<Found, AllocError> {
    match read_image_text(alloc, text) {
        Ok(image) => Ok(Found::Image(image.root.len(), image.blocks.len())),
        Err(ImageFault::ImageSyntax(at)) => Ok(Found::Syntax(at)),
        Err(ImageFault::ImageBlock(i)) => Ok(Found::Block(i)),
        Err(ImageFault::Memory) => Err(AllocError),
        Err(_) => Ok(Found::Other),
    }
}

// Texts whose first line is good or not.
const ROOTS: &[(&[u8], Found)] = &[
    (b"root\n", Found::Image(0, 0)),
    (b"root 0x0\n", Found::Image(1, 0)),
    (b"root 0x9 0xff\n", Found::Image(2, 0)),
    (b"root 0xffffffffffffffff\n", Found::Image(1, 0)),
    (b"", Found::Syntax(0)),
    (b"rott", Found::Syntax(2)),
    (b"root", Found::Syntax(4)),
    (b"roots\n", Found::Syntax(4)),
    (b"root\r\n", Found::Syntax(4)),
    (b"root  0x1\n", Found::Syntax(5)),
    (b"root 1\n", Found::Syntax(5)),
    (b"root 0X1\n", Found::Syntax(6)),
    (b"root 0x\n", Found::Syntax(7)),
    (b"root 0xA\n", Found::Syntax(7)),
    (b"root 0x00\n", Found::Syntax(8)),
    (b"root 0x01\n", Found::Syntax(8)),
    (b"root 0x1 \n", Found::Syntax(9)),
    (b"root 0x10000000000000000\n", Found::Syntax(23)),
    (b"root 0x1", Found::Syntax(8)),
    (b"root\n\n", Found::Syntax(5)),
    (b"block 64 1 00\n", Found::Syntax(0)),
];

// Texts whose lines of blocks are good or not.
const BLOCKS: &[(&[u8], Found)] = &[
    (b"root\nblock 64 2 0705\n", Found::Image(0, 1)),
    (b"root\nblock 64 2 0aff\n", Found::Image(0, 1)),
    (b"root\nbloc 64 1 00\n", Found::Syntax(9)),
    (b"root\nblock 064 1 00\n", Found::Syntax(12)),
    (b"root\nblock  64 1 00\n", Found::Syntax(11)),
    (b"root\nblock 0x40 1 00\n", Found::Syntax(12)),
    (
        b"root\nblock 18446744073709551616 1 00\n",
        Found::Syntax(30),
    ),
    (b"root\nblock 64 0 \n", Found::Syntax(14)),
    (b"root\nblock 64 513 00\n", Found::Syntax(16)),
    (b"root\nblock 64 2 07\n", Found::Syntax(18)),
    (b"root\nblock 64 2 070\n", Found::Syntax(19)),
    (b"root\nblock 64 2 070512\n", Found::Syntax(20)),
    (b"root\nblock 64 1 0A\n", Found::Syntax(17)),
    (b"root\nblock 64 1 00", Found::Syntax(18)),
    (b"root\nblock 64 1 00\nblo", Found::Syntax(22)),
    (b"root\nblock 64 1 00\nroot\n", Found::Syntax(19)),
];

// Texts whose blocks are in their places or not.
const PLACED: &[(&[u8], Found)] = &[
    (b"root\nblock 64 1 00\nblock 65 1 00\n", Found::Image(0, 2)),
    (b"root\nblock 16777215 1 00\n", Found::Image(0, 1)),
    (b"root\nblock 63 1 00\n", Found::Block(0)),
    (b"root\nblock 0 1 00\n", Found::Block(0)),
    (b"root\nblock 16777216 1 00\n", Found::Block(0)),
    (b"root\nblock 16777215 2 0000\n", Found::Block(0)),
    (b"root\nblock 18446744073709551615 1 00\n", Found::Block(0)),
    (b"root\nblock 64 2 0000\nblock 65 1 00\n", Found::Block(1)),
    (b"root\nblock 64 1 00\nblock 64 1 00\n", Found::Block(1)),
    (b"root\nblock 80 1 00\nblock 64 1 00\n", Found::Block(1)),
    (
        b"root\nblock 64 1 00\nblock 63 1 00\nblock 65 1 00\n",
        Found::Block(1),
    ),
    (
        b"root 0x1\nblock 64 16 00000000000000000000000000000000\nblock 72 8 0000000000000000\n",
        Found::Block(1),
    ),
    (b"root\nblock 63 1 00\nx", Found::Syntax(19)),
];

// Checks each row of a table.
fn expect_each(rt: &impl Abort, alloc: Global, rows: &[(&[u8], Found)]) -> Result<(), AllocError> {
    for &(text, wanted) in rows {
        assert!(rt; outcome(alloc, text)? == wanted, "{text:?}");
    }
    Ok(())
}

#[test]
fn root_lines(rt: HostRuntime) -> Result<(), Fail> {
    Ok(expect_each(&rt, rt.alloc(), ROOTS)?)
}

#[test]
fn block_lines(rt: HostRuntime) -> Result<(), Fail> {
    Ok(expect_each(&rt, rt.alloc(), BLOCKS)?)
}

#[test]
fn places(rt: HostRuntime) -> Result<(), Fail> {
    Ok(expect_each(&rt, rt.alloc(), PLACED)?)
}

// Whether an image has these root words, and one block with these bytes at this address.
fn is_image(image: &Image, root: &[u64], at: u64, bytes: &[u8]) -> bool {
    match image.blocks.as_slice() {
        [block] => {
            (image.root.as_slice(), block.at, block.bytes.as_slice()) == (root, at, bytes)
        }
        _ => false,
    }
}

#[test]
fn one_image(rt: HostRuntime) {
    let text = b"root 0x10 0xfedcba9876543210\nblock 64 2 0705\n";
    let image = read_image_text(rt.alloc(), text).expect(&rt, "an image");
    assert!(rt; is_image(&image, &[16, 0xfedc_ba98_7654_3210], 64, &[7, 5]));
}
