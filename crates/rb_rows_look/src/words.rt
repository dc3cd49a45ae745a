//! Words of images, each read by itself, and of how many steps a ledger is told. Worked out by hand.

ghost use Rattle.rb_image_text.specs.Places.{AreInPlace};

use crate::call::compare;
use rb_edge::steps::{CountLedger, Steps};
use rb_image::word::read_word;
use rb_image_text::image::Image;
use rb_image_text::read::read_image_text;
use std::alloc::{AllocError, Global};
use std::test::Fail;

// A word to read: its base, its place and its width, and the text that is to come.
type Row<'a> = (u64, u64, u64, &'a str);

const IMAGE: &str =
    "root 0x7 0xffffffffffffffff\nblock 64 8 0102030405060708\nblock 72 3 090a0b\nblock 96 1 0c\n";

// A word, and how many steps the ledger was told of.
fn word_text(alloc: Global, image: &Image, row: &Row) -> Result<String, AllocError>
    requires placed { AreInPlace image.now.blocks }
{
    let (base, place, width, _) = *row;
    let mut steps = Steps::new(CountLedger { count: 0 });
    let word = read_word(image, base, place, width, &mut steps);
    let count = steps.ledger().count;
    match word {
        None => format!(in alloc; "none {count}"),
        Some(word) => format!(in alloc; "{word} {count}"),
    }
}

// Looks what reading each row's word of an image gives.
fn expect_words(alloc: Global, text: &str, rows: &[Row]) -> Result<(), Fail> {
    let image = match read_image_text(alloc, text.as_bytes()) {
        Ok(image) => image,
        Err(_) => return Err(Fail::from("no image")),
    };
    for row in rows {
        let found = word_text(alloc, &image, row)?;
        let (base, place, width, wanted) = *row;
        let name = format!(in alloc; "base {base}, place {place}, width {width}")?;
        compare(alloc, name.as_str(), found.as_bytes(), wanted)?;
    }
    Ok(())
}

const ROOT: [Row; 7] = [
    (0, 0, 64, "7 1"),
    (0, 1, 64, "18446744073709551615 1"),
    (0, 2, 64, "none 1"),
    (0, 64, 8, "none 1"),
    (0, 18446744073709551615, 64, "none 1"),
    // a root word is given as it stands, whatever the width
    (0, 0, 1, "7 1"),
    (0, 0, 0, "7 1"),
];

#[test]
fn root_words(rt: HostRuntime) -> Result<(), Fail> {
    expect_words(rt.alloc(), IMAGE, &ROOT)
}

// An image without words.
const NONE: [Row; 2] = [(0, 0, 64, "none 1"), (64, 0, 8, "none 1")];

#[test]
fn no_words(rt: HostRuntime) -> Result<(), Fail> {
    expect_words(rt.alloc(), "root\n", &NONE)
}

const WORDS_OF_BLOCKS: [Row; 16] = [
    (64, 0, 8, "1 1"),
    (64, 0, 16, "513 1"),
    (64, 0, 32, "67305985 1"),
    (64, 0, 64, "578437695752307201 1"),
    (64, 3, 16, "1284 1"),
    (64, 6, 16, "2055 1"),
    (64, 7, 8, "8 1"),
    // the last word of a block ends where the block does, though another begins there
    (64, 7, 16, "none 1"),
    (64, 8, 8, "none 1"),
    (64, 18446744073709551615, 8, "none 1"),
    (72, 0, 16, "2569 1"),
    (72, 1, 16, "2826 1"),
    (72, 2, 8, "11 1"),
    (72, 2, 16, "none 1"),
    (72, 0, 32, "none 1"),
    (96, 0, 8, "12 1"),
];

#[test]
fn words_of_blocks(rt: HostRuntime) -> Result<(), Fail> {
    expect_words(rt.alloc(), IMAGE, &WORDS_OF_BLOCKS)
}

const NO_SUCH_BLOCK: [Row; 6] = [
    // the middle of a block, between blocks, before the first and behind the last
    (65, 0, 8, "none 1"),
    (71, 0, 8, "none 1"),
    (75, 0, 8, "none 1"),
    (63, 1, 8, "none 1"),
    (97, 0, 8, "none 1"),
    (18446744073709551615, 0, 8, "none 1"),
];

#[test]
fn no_such_block(rt: HostRuntime) -> Result<(), Fail> {
    expect_words(rt.alloc(), IMAGE, &NO_SUCH_BLOCK)
}
