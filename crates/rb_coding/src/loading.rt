//! The words of the blocks of a leaf. A leaf is the form that a layout has for some values: root
//! words, and blocks to which pointers in them or in later blocks lead.

ghost use Rattle.std.specs.Prelude.{IfOk};
ghost use Rattle.rb_bytes.specs.Memory.{IsGood};
ghost use Rattle.rb_coding.specs.inner.Loading.{AreLoaded, AreWordsOf, CanLoad, IsLoadable};

use crate::gather::{Wanted, put_words, zeros};
use rb_bytes::memory::ByteMemory;
use rb_core::seq::Seq;
use rb_layout::layout::{FlatWord, Leaf};
use std::alloc::{AllocError, Global};

// The words of a block that begins at the address `base`, each loaded with its width.
fn load_words<M: ByteMemory>(
    alloc: Global,
    memory: &M,
    base: u64,
    words: &[FlatWord],
) -> Result<Seq<u64>, AllocError>
    requires good { IsGood (M.memory memory.now) }
    requires loads { CanLoad (M.memory memory.now) base words.now }
    ensures { IfOk result (AreLoaded (M.memory memory.now) base words.now) }
{
    let mut loaded = Seq::new(alloc);
    let mut offset = 0;
    for word in words {
        match memory.load(base, offset, word.width) {
            Ok(number) => loaded.push(number)?,
            Err(_) => unreachable!(),
        }
        offset += word.width / 8;
    }
    Ok(loaded)
}

/// The words of the blocks of a leaf with these root words, from the last block to the first: each
/// block has a pointer to it in the root or in a block behind it.
pub(crate) fn load_blocks<M: ByteMemory>(
    alloc: Global,
    memory: &M,
    leaf: &Leaf,
    words: &[u64],
) -> Result<Seq<Seq<u64>>, AllocError>
    requires good { IsGood (M.memory memory.now) }
    requires placed { IsLoadable leaf.now words.now (M.memory memory.now) }
    ensures { IfOk result (AreWordsOf leaf.now words.now (M.memory memory.now)) }
{
    let blocks = leaf.blocks.as_slice();
    let mut addresses = zeros(alloc, blocks.len())?;
    put_words(
        &mut addresses,
        Wanted::Addresses,
        &[],
        leaf.root.as_slice(),
        words,
    );
    let mut loaded = Seq::new(alloc);
    for b in (0..blocks.len()).rev() {
        let flats = blocks[b].words.as_slice();
        let base = match addresses.get(b) {
            None => unreachable!(),
            Some(address) => *address,
        };
        let found = load_words(alloc, memory, base, flats)?;
        put_words(
            &mut addresses,
            Wanted::Addresses,
            &[],
            flats,
            found.as_slice(),
        );
        loaded.push(found)?;
    }
    Ok(loaded)
}
