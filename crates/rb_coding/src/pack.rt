//! Words made from their parts. A part is a range of a word's bits, which hold a constant, bits or
//! a word of a field, or a pointer to a block. `nodes` are those of a whole value, each the
//! outermost level of a subvalue; `node` is the number of the one whose words are made, `table` has
//! the words of the nodes before it, and `addresses` are those of its blocks, by number.

ghost use Rattle.std.specs.Prelude.{◌≡◌, ◌/◌, slice_index, map, IfOk};
ghost use Rattle.rb_rel.specs.Storing.{number_of};
ghost use Rattle.rb_coding.specs.inner.Nodes.{subs_of};
ghost use Rattle.rb_coding.specs.Packing.{word_of_parts, word_made};

use crate::bits::{put_into, take_from};
use crate::table::Table;
use rb_core::seq::Seq;
use rb_layout::layout::{FlatWord, Kind, Part};
use rb_values::nodes::Nodes;
use std::alloc::{AllocError, Global};

// The address of a block, or 0 where it is not there.
fn address(addresses: &[u64], block: u32) -> u64
    ensures { result ≡ slice_index addresses.now block }
{
    match addresses.get(block as usize) {
        None => 0,
        Some(address) => *address,
    }
}

// An address in steps of an alignment, as a pointer holds it; 0 where the alignment is 0.
fn scaled_address(address: u64, align: u64) -> u64
    ensures { result ≡ address / align }
{
    if align == 0 { 0 } else { address / align }
}

// The number that a part of a word of a node is to hold: a constant, bits or a word of a field, or
// the address of a block in steps of its alignment.
fn number_of(part: &Part, nodes: &Nodes, node: usize, table: &Table, addresses: &[u64]) -> u64
    ensures { result ≡ number_of (subs_of table.now nodes.now node) (slice_index addresses.now)
        part.now.l part.now.kind }
{
    match &part.kind {
        Kind::Const(c) => *c,
        Kind::Bits(path, a) => take_from(table.word(nodes, node, path.as_slice(), 0), *a, part.l),
        Kind::Word(path, j) => table.word(nodes, node, path.as_slice(), *j),
        Kind::Pointer(align, block) => scaled_address(address(addresses, *block), *align),
    }
}

/// A word of a node: its parts in their places, and 0 elsewhere.
pub(crate) fn pack(
    parts: &[Part],
    nodes: &Nodes,
    node: usize,
    table: &Table,
    addresses: &[u64],
) -> u64
    ensures { result ≡ word_of_parts (subs_of table.now nodes.now node) (slice_index addresses.now) parts.now }
{
    let mut word = 0;
    for k in (0..parts.len()).rev() {
        let part = &parts[k];
        let number = number_of(part, nodes, node, table, addresses);
        word = put_into(word, part.o, part.l, number);
    }
    word
}

/// The words of a node that these flat words describe, each made from its parts.
pub(crate) fn pack_all(
    alloc: Global,
    words: &[FlatWord],
    nodes: &Nodes,
    node: usize,
    table: &Table,
    addresses: &[u64],
) -> Result<Seq<u64>, AllocError>
    ensures { IfOk result (λ ws. ws
        ≡ map (word_made (subs_of table.now nodes.now node) (slice_index addresses.now)) words.now) }
{
    let mut packed = Seq::new(alloc);
    for word in words {
        packed.push(pack(word.parts.as_slice(), nodes, node, table, addresses))?;
    }
    Ok(packed)
}
