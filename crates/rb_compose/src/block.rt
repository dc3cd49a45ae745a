//! Code that places blocks and fills them. `subs` are the subvalues of which words are composed,
//! values in slots, each with its path: field numbers from the root. `blocks` has the slots of the
//! addresses of those blocks that are placed already, by their numbers.

ghost use Rattle.std.specs.Prelude.{◌≡◌, ◌+◌, ◌/◌, IfOk, OnOk};
ghost use Rattle.rb_layout.specs.Words.{bytes_taken};
ghost use Rattle.rb_compose.specs.inner.Code.{block_code, blocks_code, stores_code};

use crate::count::bits;
use crate::subvalue::Subvalue;
use crate::word::emit_value;
use rb_core::seq::Seq;
use rb_layout::layout::{Block, FlatWord};
use rb_target::body::Body;
use rb_target::instr::Instr;
use std::alloc::AllocError;

/// Places the blocks `wanted` and fills them, one after the other, and adds the slots of their
/// addresses to `blocks`. Without blocks there is no code.
///
/// # Errors
///
/// Want of memory.
pub(crate) fn emit_blocks(
    body: &mut Body,
    wanted: &[Block],
    subs: &[Subvalue],
    blocks: &mut Seq<usize>,
) -> Result<(), AllocError>
    ensures code { OnOk result (body.new ≡ (blocks_code subs.now wanted.now blocks.old body.old).0) }
    ensures slots { OnOk result (blocks.new ≡ (blocks_code subs.now wanted.now blocks.old body.old).1) }
{
    for block in wanted {
        let address = emit_block(body, block, subs, blocks.as_slice())?;
        blocks.push(address)?;
    }
    Ok(())
}

// Places one block and fills it, and answers the slot of its address, which is new.
fn emit_block(
    body: &mut Body,
    block: &Block,
    subs: &[Subvalue],
    blocks: &[usize],
) -> Result<usize, AllocError>
    ensures slot { IfOk result (λ d. d ≡ body.old.slots) }
    ensures code { OnOk result (body.new ≡ block_code subs.now blocks.now block.now body.old) }
{
    let size = bytes_of(block.words.as_slice())?;
    let address = body.fresh()?;
    body.push(Instr::Place(address, size, block.align))?;
    emit_stores(body, address, block.words.as_slice(), subs, blocks)?;
    Ok(address)
}

// Appends code that composes words and stores them one behind the other, from byte 0 on, in the
// block whose address is in slot `address`.
fn emit_stores(
    body: &mut Body,
    address: usize,
    words: &[FlatWord],
    subs: &[Subvalue],
    blocks: &[usize],
) -> Result<(), AllocError>
    ensures { OnOk result (body.new ≡ stores_code subs.now blocks.now address words.now 0 body.old) }
{
    let mut at = 0;
    for word in words {
        let slot = emit_value(body, word.parts.as_slice(), subs, blocks)?;
        body.push(Instr::Store(address, at, bits(word.width), slot))?;
        at = behind(at, word)?;
    }
    Ok(())
}

// The size of words in bytes, one behind the other; 0 without words. Want of memory is the answer
// where it were past all numbers.
fn bytes_of(words: &[FlatWord]) -> Result<u64, AllocError>
    ensures { IfOk result (λ size. size ≡ bytes_taken words.now) }
{
    let mut size = 0;
    for word in words {
        size = behind(size, word)?;
    }
    Ok(size)
}

// The byte behind a word that begins at byte `at`. Want of memory is the answer where it were past
// all numbers, which no block reaches.
fn behind(at: u64, word: &FlatWord) -> Result<u64, AllocError>
    ensures { IfOk result (λ next. next ≡ at + word.now.width / 8) }
{
    match at.checked_add(word.width / 8) {
        None => Err(AllocError),
        Some(next) => Ok(next),
    }
}
