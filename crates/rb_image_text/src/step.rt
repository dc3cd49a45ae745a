//! One byte more of an image's text.
//!
//! A spot is where reading stands between two bytes, with what is read in part there. A move is
//! what one byte more does: it leads to a spot, makes a root word or a block whole, or is refused,
//! since no text goes on so. `read` is how many bytes of a fixed word stand before, and `byte` the
//! next byte.

ghost use Rattle.std.specs.Prelude.{◌≡◌, IfOk, ◌<◌};
ghost use Rattle.rb_image_text.specs.inner.Reading as spec;

use crate::image::{ImageBlock, MOST_BLOCK_BYTES};
use crate::spot::{Move, Spot};
use rb_core::seq::Seq;
use std::alloc::{AllocError, Global};
use std::mem;

// What the line of root words begins with.
const ROOT: [u8; 4] = *b"root";

// What a root word begins with, before its digits.
const PREFIX: [u8; 2] = *b"0x";

// What the line of a block begins with, before its address.
const BLOCK: [u8; 6] = *b"block ";

/// What is read of a text: whole root words and blocks, and what stands in part behind them.
#[derive(Drop)]
pub struct Reader {
    pub root: Seq<u64>,
    pub blocks: Seq<ImageBlock>,
    pub spot: Spot,
}

// The number that a byte writes as a hexadecimal digit in lower case, or `None` for any other byte.
fn hex_of(byte: u8) -> Option<u8>
    ensures { result ≡ spec.hex_of byte }
{
    match byte {
        b'0'..=b'9' => Some(byte - b'0'),
        b'a'..=b'f' => Some(byte - b'a' + 10),
        _ => None,
    }
}

// The number that a byte writes as a decimal digit, or `None` for any other byte.
fn digit_of(byte: u8) -> Option<u8>
    ensures { result ≡ spec.digit_of byte }
{
    match byte {
        b'0'..=b'9' => Some(byte - b'0'),
        _ => None,
    }
}

// What a byte does within the word `root`, of which so many bytes are read; behind all four a blank
// leads to a root word, and a line feed ends the line.
fn root_step(read: usize, byte: u8) -> Move
    ensures { result ≡ spec.root_step read byte }
{
    if read < ROOT.len() {
        if byte == ROOT[read] {
            Move::To(Spot::Root(read + 1))
        } else {
            Move::Refused
        }
    } else {
        match byte {
            b' ' => Move::To(Spot::Prefix(0)),
            b'\n' => Move::To(Spot::Line(0)),
            _ => Move::Refused,
        }
    }
}

// What a byte does within the `0x` before a root word, of which so many bytes are read; behind both
// stands the word's first digit.
fn prefix_step(read: usize, byte: u8) -> Move
    ensures { result ≡ spec.prefix_step read byte }
{
    if read < PREFIX.len() {
        if byte == PREFIX[read] {
            Move::To(Spot::Prefix(read + 1))
        } else {
            Move::Refused
        }
    } else {
        match hex_of(byte) {
            Some(digit) => Move::To(Spot::Word(u64::from(digit))),
            None => Move::Refused,
        }
    }
}

// What a byte does behind digits of a root word: a blank or a line feed ends the word. One more
// digit is refused behind a leading zero, or where the word would have more than 64 bits.
fn word_step(word: u64, byte: u8) -> Move
    ensures { result ≡ spec.word_step word byte }
{
    if byte == b' ' {
        return Move::Word(word, Spot::Prefix(0));
    }
    if byte == b'\n' {
        return Move::Word(word, Spot::Line(0));
    }
    match hex_of(byte) {
        Some(digit) => {
            if 0 < word && word < 1 << 60 {
                Move::To(Spot::Word(word * 16 + u64::from(digit)))
            } else {
                Move::Refused
            }
        }
        None => Move::Refused,
    }
}

// What a byte does within the word `block` and its blank, of which so many bytes are read; behind
// them stands the address's first digit.
fn line_step(read: usize, byte: u8) -> Move
    ensures { result ≡ spec.line_step read byte }
{
    if read < BLOCK.len() {
        if byte == BLOCK[read] {
            Move::To(Spot::Line(read + 1))
        } else {
            Move::Refused
        }
    } else {
        match digit_of(byte) {
            Some(digit) => Move::To(Spot::Address(u64::from(digit))),
            None => Move::Refused,
        }
    }
}

// What a byte does behind digits of a block's address: a blank ends the address. One more digit is
// refused behind a leading zero, or where the address would have more than 64 bits.
fn address_step(address: u64, byte: u8) -> Move
    ensures { result ≡ spec.address_step address byte }
{
    if byte == b' ' {
        return Move::To(Spot::Sizing(address));
    }
    match digit_of(byte) {
        Some(digit) => {
            let next = u128::from(address) * 10 + u128::from(digit);
            if 0 < address && next < 1 << 64 {
                Move::To(Spot::Address(next as u64))
            } else {
                Move::Refused
            }
        }
        None => Move::Refused,
    }
}

// What a byte does where the size of the block at an address begins: it must be a digit, and not 0,
// since no block is empty.
fn sizing_step(address: u64, byte: u8) -> Move
    ensures { result ≡ spec.sizing_step address byte }
{
    match digit_of(byte) {
        Some(digit) => {
            if 0 < digit {
                Move::To(Spot::Size(address, usize::from(digit)))
            } else {
                Move::Refused
            }
        }
        None => Move::Refused,
    }
}

// What a byte does behind digits of a block's size: a blank ends the size. One more digit is
// refused where the size would be over the most bytes that a block has.
fn size_step(alloc: Global, address: u64, size: usize, byte: u8) -> Move
    ensures { result ≡ spec.size_step address size byte }
{
    if byte == b' ' {
        let block = ImageBlock {
            at: address,
            bytes: Seq::new(alloc),
        };
        return Move::To(Spot::Bytes(block, size));
    }
    match digit_of(byte) {
        Some(digit) => {
            if size <= MOST_BLOCK_BYTES && size * 10 + usize::from(digit) <= MOST_BLOCK_BYTES {
                Move::To(Spot::Size(address, size * 10 + usize::from(digit)))
            } else {
                Move::Refused
            }
        }
        None => Move::Refused,
    }
}

// What a byte does between two bytes of a block that is to have `size` bytes: it is the upper digit
// of the next, or behind the last the line feed that ends the block.
fn bytes_step(block: ImageBlock, size: usize, byte: u8) -> Move
    ensures { result ≡ spec.bytes_step block size byte }
{
    if block.bytes.len() < size {
        match hex_of(byte) {
            Some(digit) => Move::To(Spot::Half(block, size, digit)),
            None => Move::Refused,
        }
    } else if byte == b'\n' {
        Move::Block(block)
    } else {
        Move::Refused
    }
}

// What a byte does behind the upper digit of a byte of a block: it must be the lower digit, and the
// byte that the two write is put to the block.
fn half_step(block: ImageBlock, size: usize, upper: u8, byte: u8) -> Result<Move, AllocError>
    requires { upper < 16 }
    ensures { IfOk result (λ m. m ≡ spec.half_step block size upper byte) }
{
    match hex_of(byte) {
        Some(digit) => {
            let ImageBlock { at, mut bytes } = block;
            bytes.push(upper * 16 + digit)?;
            Ok(Move::To(Spot::Bytes(ImageBlock { at, bytes }, size)))
        }
        None => Ok(Move::Refused),
    }
}

// What one byte more does at a spot. An error is want of memory for a byte of a block.
fn step(alloc: Global, spot: Spot, byte: u8) -> Result<Move, AllocError>
    requires { spec.IsHalved spot }
    ensures { IfOk result (λ m. m ≡ spec.step spot byte) }
{
    match spot {
        Spot::Root(read) => Ok(root_step(read, byte)),
        Spot::Prefix(read) => Ok(prefix_step(read, byte)),
        Spot::Word(word) => Ok(word_step(word, byte)),
        Spot::Line(read) => Ok(line_step(read, byte)),
        Spot::Address(address) => Ok(address_step(address, byte)),
        Spot::Sizing(address) => Ok(sizing_step(address, byte)),
        Spot::Size(address, size) => Ok(size_step(alloc, address, size, byte)),
        Spot::Bytes(block, size) => Ok(bytes_step(block, size, byte)),
        Spot::Half(block, size, upper) => half_step(block, size, upper, byte),
    }
}

impl Reader {
    /// A reader that has read nothing, before the first byte of a text.
    pub fn new(alloc: Global) -> Reader
        ensures { result ≡ spec.start }
    {
        Reader {
            root: Seq::new(alloc),
            blocks: Seq::new(alloc),
            spot: Spot::Root(0),
        }
    }

    /// Reads one byte, and says whether some text goes on so. Where none does, the
    /// reader is of no more use.
    ///
    /// # Errors
    ///
    /// Want of memory.
    pub fn feed(&mut self, alloc: Global, byte: u8) -> Result<bool, AllocError>
        requires { spec.IsHalved self.old.spot }
        ensures { IfOk result (λ fed. spec.IsFed (spec.feed self.old byte) self.new fed) }
    {
        let spot = mem::replace(&mut self.spot, Spot::Root(0));
        match step(alloc, spot, byte)? {
            Move::To(spot) => self.spot = spot,
            Move::Word(word, spot) => {
                self.root.push(word)?;
                self.spot = spot;
            }
            Move::Block(block) => {
                self.blocks.push(block)?;
                self.spot = Spot::Line(0);
            }
            Move::Refused => return Ok(false),
        }
        Ok(true)
    }

    /// Whether the bytes read so far are a whole text: the reader stands at the beginning of a line
    /// behind that of the root words.
    pub fn is_done(&self) -> bool
        ensures { result ≡ spec.is_done self.now.spot }
    {
        matches!(&self.spot, Spot::Line(0))
    }
}
