//! The lines of words and of blocks.
//!
//! A root has the words of a value itself, and a block those to which a pointer leads. The pieces
//! of a word are its parts, and the ranges of bits that no part holds. Lines are added at the end
//! of `text`. Every error is want of memory.

ghost use Rattle.std.specs.Prelude.{◌≡◌, ◌++◌, OnOk};
ghost use Rattle.rb_layout.specs.Readable.{AreShort};
ghost use Rattle.rb_show.specs.Short.{HaveShortWords};
ghost use Rattle.rb_show.specs.Lines.{numbered_texts, block_line, block_lines, block_word_lines, root_word_lines, size_line, width_lines, word_lines_at};

use crate::piece::push_pieces;
use rb_core::text::{push, push_number};
use rb_layout::block_size;
use rb_layout::layout::{Block, FlatWord};
use std::alloc::AllocError;

// Adds the end of a word's first line, which says its width, and the lines of its pieces.
fn push_width(text: &mut Vec<u8>, word: &FlatWord) -> Result<(), AllocError>
    ensures { OnOk result (text.new.items ≡ text.old.items ++ width_lines word.now) }
{
    push(text, b": ")?;
    push_number(text, word.width)?;
    push(text, b" bits")?;
    push(text, b"\n")?;
    push_pieces(text, word)?;
    Ok(())
}

// Adds the lines of a word of a root, by its number.
fn push_root_word(text: &mut Vec<u8>, number: u64, word: &FlatWord) -> Result<(), AllocError>
    ensures { OnOk result (text.new.items ≡ text.old.items ++ root_word_lines number word.now) }
{
    push(text, b"word ")?;
    push_number(text, number)?;
    push_width(text, word)?;
    Ok(())
}

/// Adds the lines of the words of a root, which are numbered from 0.
pub(crate) fn push_root(text: &mut Vec<u8>, words: &[FlatWord]) -> Result<(), AllocError>
    ensures { OnOk result (text.new.items ≡ text.old.items ++ numbered_texts root_word_lines 0 words.now) }
{
    for (i, word) in words.iter().enumerate() {
        push_root_word(text, i as u64, word)?;
    }
    Ok(())
}

// Adds the lines of a word of a block, by its number and the byte where it begins.
fn push_block_word(
    text: &mut Vec<u8>,
    number: u64,
    byte: u64,
    word: &FlatWord,
) -> Result<(), AllocError>
    ensures { OnOk result (text.new.items ≡ text.old.items ++ word_lines_at byte number word.now) }
{
    push(text, b"word ")?;
    push_number(text, number)?;
    push(text, b" at byte ")?;
    push_number(text, byte)?;
    push_width(text, word)?;
    Ok(())
}

// Adds the lines of the words of a block, which are numbered from 0, each with the byte where it
// begins.
fn push_block_words(text: &mut Vec<u8>, words: &[FlatWord]) -> Result<(), AllocError>
    requires { AreShort words.now }
    ensures { OnOk result (text.new.items ≡ text.old.items ++ numbered_texts (block_word_lines words.now) 0 words.now) }
{
    let mut byte: u64 = 0;
    for (i, word) in words.iter().enumerate() {
        push_block_word(text, i as u64, byte, word)?;
        byte += word.width / 8;
    }
    Ok(())
}

// Adds the end of a block's first line: its size in bytes and its alignment.
fn push_size(text: &mut Vec<u8>, size: u64, align: u64) -> Result<(), AllocError>
    ensures { OnOk result (text.new.items ≡ text.old.items ++ size_line size align) }
{
    push(text, b": ")?;
    push_number(text, size)?;
    push(text, b" bytes, align ")?;
    push_number(text, align)?;
    push(text, b"\n")?;
    Ok(())
}

// Adds a block's first line: its number, its size in bytes and its alignment.
fn push_block_line(text: &mut Vec<u8>, number: u64, size: u64, align: u64) -> Result<(), AllocError>
    ensures { OnOk result (text.new.items ≡ text.old.items ++ block_line number size align) }
{
    push(text, b"block ")?;
    push_number(text, number)?;
    push_size(text, size, align)?;
    Ok(())
}

// Adds the lines of a block, by its number: its first line, and those of its words.
fn push_block(text: &mut Vec<u8>, number: u64, block: &Block) -> Result<(), AllocError>
    requires { AreShort block.now.words }
    ensures { OnOk result (text.new.items ≡ text.old.items ++ block_lines number block.now) }
{
    push_block_line(text, number, block_size(block), block.align)?;
    push_block_words(text, block.words.as_slice())?;
    Ok(())
}

/// Adds the lines of blocks, which are numbered from 0.
pub(crate) fn push_blocks(text: &mut Vec<u8>, blocks: &[Block]) -> Result<(), AllocError>
    requires { HaveShortWords blocks.now }
    ensures { OnOk result (text.new.items ≡ text.old.items ++ numbered_texts block_lines 0 blocks.now) }
{
    for (i, block) in blocks.iter().enumerate() {
        push_block(text, i as u64, block)?;
    }
    Ok(())
}
