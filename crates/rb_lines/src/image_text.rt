//! Images: root words, and the blocks of a memory, as text.
//!
//! The root words are those of a value itself, and the blocks are what its pointers lead to. Sizes
//! and addresses are in bytes. Where a function adds something to `text`, it stands at its end.
//! Every error is want of memory.

ghost use Rattle.std.specs.Prelude.{◌≡◌, ◌<◌, ◌+◌, ◌++◌, ◌^◌, IfOk, OnOk};
ghost use Rattle.rb_bytes.specs.Memory.{IsGood};
ghost use Rattle.rb_image_text.specs.MemoryImages.{block_over, blocks_over, bytes_over, memory_image};
ghost use Rattle.rb_image_text.specs.Text as spec;
ghost use Rattle.rb_image_text.specs.Text.{block_text, blocks_text, bytes_text, hex_digit, image_text, root_text, root_word_text, words_text};

use crate::line;
use rb_bytes::checked::CheckedMemory;
use rb_bytes::memory::ByteMemory;
use rb_core::text::push;
use std::alloc::{AllocError, Global};

// The text with a blank and a word behind it, in hexadecimal digits.
fn push_word(alloc: Global, text: &mut Vec<u8>, word: u64) -> Result<(), AllocError>
    ensures { OnOk result (text.new.items ≡ text.old.items ++ root_word_text word) }
{
    push(text, format!(in alloc; " 0x{word:x}")?.as_bytes())
}

// The text with the words behind it, each after a blank, in hexadecimal digits.
fn push_words(alloc: Global, text: &mut Vec<u8>, words: &[u64]) -> Result<(), AllocError>
    ensures { OnOk result (text.new.items ≡ text.old.items ++ words_text words.now) }
{
    for word in words {
        push_word(alloc, text, *word)?;
    }
    Ok(())
}

// The line of the root words, with which the text of an image begins.
fn root(alloc: Global, words: &[u64]) -> Result<Vec<u8>, AllocError>
    ensures { IfOk result (λ text. text.items ≡ root_text words.now) }
{
    let mut text = Vec::from_slice(alloc, b"root")?;
    push_words(alloc, &mut text, words)?;
    line::end(text)
}

// The hexadecimal digit of a number below 16.
fn digit(number: u8) -> u8
    requires { number < 16 }
    ensures { result ≡ hex_digit number }
{
    if number < 10 {
        b'0' + number
    } else {
        b'a' + (number - 10)
    }
}

// The text with a byte behind it, as two hexadecimal digits.
fn push_byte(text: &mut Vec<u8>, byte: u8) -> Result<(), AllocError>
    ensures { OnOk result (text.new.items ≡ text.old.items ++ spec.byte_text byte) }
{
    push(text, &[digit(byte / 16), digit(byte % 16)])
}

// The text with so many bytes of the memory behind it, from an address on; a byte that was never
// written, or is not there, stands as 0.
fn push_bytes(
    text: &mut Vec<u8>,
    memory: &CheckedMemory,
    address: u64,
    size: u64,
) -> Result<(), AllocError>
    requires { address + size < 2 ^ 64 }
    ensures { OnOk result (text.new.items ≡ text.old.items ++ bytes_text (bytes_over memory.now address size)) }
{
    for at in 0..size {
        push_byte(text, memory.byte(address + at).unwrap_or(0))?;
    }
    Ok(())
}

// The line of the block of this size at this address of the memory.
fn block(
    alloc: Global,
    memory: &CheckedMemory,
    address: u64,
    size: u64,
) -> Result<Vec<u8>, AllocError>
    requires { address + size < 2 ^ 64 }
    ensures { IfOk result (λ text. text.items ≡ block_text (block_over memory.now (address, size))) }
{
    let mut text = format!(in alloc; "block {address} {size} ")?.into_bytes();
    push_bytes(&mut text, memory, address, size)?;
    line::end(text)
}

// The text with the line of a block behind it.
fn push_block(
    alloc: Global,
    text: &mut Vec<u8>,
    memory: &CheckedMemory,
    address: u64,
    size: u64,
) -> Result<(), AllocError>
    requires { address + size < 2 ^ 64 }
    ensures { OnOk result (text.new.items ≡ text.old.items ++ block_text (block_over memory.now (address, size))) }
{
    let line = block(alloc, memory, address, size)?;
    push(text, line.as_slice())
}

// The text with the lines of all blocks of the memory behind it, by ascending address.
fn push_blocks(alloc: Global, text: &mut Vec<u8>, memory: &CheckedMemory) -> Result<(), AllocError>
    requires { IsGood memory.now }
    ensures { OnOk result (text.new.items ≡ text.old.items ++ blocks_text (blocks_over memory.now)) }
{
    let mut from = 0;
    for _turn in 0..memory.blocks() {
        match memory.block_from(from) {
            None => unreachable!(),
            Some((address, size)) => {
                push_block(alloc, text, memory, address, size)?;
                from = address + size;
            }
        }
    }
    Ok(())
}

/// The text of the image of root words over a memory: their line, and those of the blocks.
///
/// # Errors
///
/// Want of memory.
pub fn image(alloc: Global, words: &[u64], memory: &CheckedMemory) -> Result<Vec<u8>, AllocError>
    requires { IsGood memory.now }
    ensures { IfOk result (λ text. text.items ≡ image_text (memory_image words.now memory.now)) }
{
    let mut text = root(alloc, words)?;
    push_blocks(alloc, &mut text, memory)?;
    Ok(text)
}
