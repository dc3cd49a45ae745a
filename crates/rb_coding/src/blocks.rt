//! The blocks of a leaf, placed and filled. A node is the outermost level of a value or of a
//! subvalue; its leaf is the form that the layout of its type has for it, with root words and
//! blocks. `nodes` are those of the whole value, `node` is the number of one, `table` has the words
//! of the nodes before it, and `addresses` are those of its blocks that are placed, by number.

ghost use Rattle.std.specs.Prelude.{◌≡◌, ℕ, ◌+◌, ◌≤◌, Some, slice_get, slice_index};
ghost use Rattle.rb_bytes.specs.Memory.{IsGood, most_region, size_at};
ghost use Rattle.rb_layout.specs.A4.{IsBlockWidth};
ghost use Rattle.rb_layout.specs.Words.{bytes_taken};
ghost use Rattle.rb_layout.specs.declared.layout.FlatWord.{FlatWord as Flat};
ghost use Rattle.rb_rel.specs.Storing.{with_words};
ghost use Rattle.rb_coding.specs.inner.Filling.{ArePlaceable, ArePlaced, IsMade};
ghost use Rattle.rb_coding.specs.inner.Nodes.{subs_of};
ghost use Rattle.rb_coding.specs.Packing.{word_made};

use crate::fault::EncodeFault;
use crate::pack::{pack, pack_all};
use crate::table::Table;
use rb_bytes::memory::ByteMemory;
use rb_core::seq::Seq;
use rb_layout::layout::{Block, FlatWord, Leaf};
use rb_layout::sizes::block_size;
use rb_values::nodes::Nodes;
use std::alloc::Global;

// Stores the words of a block that begins at the base, one behind the other.
fn store_words<M: ByteMemory>(
    memory: &mut M,
    base: u64,
    words: &[FlatWord],
    nodes: &Nodes,
    node: usize,
    table: &Table,
    addresses: &[u64],
)
    requires good { IsGood (M.memory memory.old) }
    requires placed { size_at (M.memory memory.old).blocks base ≡ Some (bytes_taken words.now) }
    requires room { base + bytes_taken words.now ≤ most_region }
    requires widths { (j : ℕ) (f : Flat) → slice_get words.now j ≡ Some f → IsBlockWidth f.width }
    ensures value { M.memory memory.new ≡ record (M.memory memory.old) {
      bytes = with_words (word_made (subs_of table.now nodes.now node) (slice_index addresses.now))
          words.now base (M.memory memory.old).bytes;
    } }
    ensures good { IsGood (M.memory memory.new) }
{
    let mut offset = 0;
    for word in words {
        let number = pack(word.parts.as_slice(), nodes, node, table, addresses);
        match memory.store(base, offset, word.width, number) {
            Ok(()) => {}
            Err(_) => unreachable!(),
        }
        offset += word.width / 8;
    }
}

// Places the blocks of a node in the order of their numbers, each filled at once, and gives their
// addresses. The `Err` is the first block that does not fit, those before it being placed, or want
// of memory.
fn place_blocks<M: ByteMemory>(
    alloc: Global,
    memory: &mut M,
    blocks: &[Block],
    nodes: &Nodes,
    node: usize,
    table: &Table,
) -> Result<Seq<u64>, EncodeFault>
    requires good { IsGood (M.memory memory.old) }
    requires placeable { ArePlaceable blocks.now }
    ensures { ArePlaced (subs_of table.now nodes.now node) blocks.now (M.memory memory.old)
        (M.memory memory.new) result }
{
    let mut addresses = Seq::new(alloc);
    for block in blocks {
        match memory.place(block_size(block), block.align) {
            Ok(base) => {
                let words = block.words.as_slice();
                store_words(
                    memory,
                    base,
                    words,
                    nodes,
                    node,
                    table,
                    addresses.as_slice(),
                );
                addresses.push(base)?;
            }
            Err(full) => return Err(EncodeFault::Full(full)),
        }
    }
    Ok(addresses)
}

/// The root words of a node with this leaf, whose blocks are placed and filled. The `Err` is the
/// first block that does not fit, or want of memory.
pub(crate) fn leaf_words<M: ByteMemory>(
    alloc: Global,
    memory: &mut M,
    leaf: &Leaf,
    nodes: &Nodes,
    node: usize,
    table: &Table,
) -> Result<Seq<u64>, EncodeFault>
    requires good { IsGood (M.memory memory.old) }
    requires placeable { ArePlaceable leaf.now.blocks }
    ensures { IsMade (subs_of table.now nodes.now node) leaf.now (M.memory memory.old) (M.memory memory.new) result }
{
    let addresses = match place_blocks(alloc, memory, leaf.blocks.as_slice(), nodes, node, table) {
        Ok(addresses) => addresses,
        Err(fault) => return Err(fault),
    };
    let root = leaf.root.as_slice();
    Ok(pack_all(alloc, root, nodes, node, table, addresses.as_slice())?)
}
