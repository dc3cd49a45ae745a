//! The order in which the parts of a leaf are examined.
//!
//! A part is a range of a word of a leaf: a constant, bits or a word of a field, or a pointer to a
//! block of the leaf. The offset of a part is its first bit. In all that follows `block` is the
//! number of a block of the leaf, or `None` for the root's words; `order` is the list to which is
//! added; and `depth` is how many blocks deep pointers are still followed: at 0 none.

ghost use Rattle.std.specs.Prelude.{◌≡◌, ◌++◌, ◌∷◌, length, IfOk, OnOk};
ghost use Rattle.rb_layout.specs.Readable.{AreShort, IsReadable};
ghost use Rattle.rb_image.specs.Orders.{beginning_at, pointed_parts, block_order, by_offset, order_of, spot_part};
ghost use Rattle.rb_image.specs.Orders.{spots_of, word_order, words_order};
ghost use Rattle.rb_image.specs.inner.Viewing.{parts_of};

use rb_layout::layout::{FlatWord, Kind, Leaf, Part};
use std::alloc::{AllocError, Global};

/// A part of a leaf, and the word that it is of: word number `word` of the root, where `block` is None, or of the block
/// with that number. The word begins at byte `byte` and has `width` bits.
#[derive(Clone, Copy, Drop)]
pub struct Spot<'a> {
    pub block: Option<u32>,
    pub word: u64,
    pub byte: u64,
    pub width: u64,
    pub part: &'a Part,
}

// Adds those of a word's parts that begin at bit `o`.
fn add_beginning<'a>(parts: &'a [Part], o: u64, found: &mut Vec<&'a Part>) -> Result<(), AllocError>
    ensures { OnOk result (parts_of found.new.items ≡ parts_of found.old.items ++ beginning_at parts.now o) }
{
    for part in parts {
        if part.o == o {
            found.push(part)?;
        }
    }
    Ok(())
}

// The parts of a word by offset, that is by the bit at which each begins.
fn by_offset<'a>(alloc: Global, word: &'a FlatWord) -> Result<Vec<&'a Part>, AllocError>
    ensures { IfOk result (λ found. parts_of found.items ≡ by_offset word.now) }
{
    let mut found = Vec::new(alloc);
    for o in 0..word.width {
        add_beginning(word.parts.as_slice(), o, &mut found)?;
    }
    Ok(found)
}

// Adds the parts of the block with this number, and of those to which it leads, so many blocks deep
// at most; none where there is no such block.
#[cycle(ordering)]
fn add_block<'a>(
    alloc: Global,
    leaf: &'a Leaf,
    depth: usize,
    block: u32,
    order: &mut Vec<Spot<'a>>,
) -> Result<(), AllocError>
    requires readable { IsReadable leaf.now }
    ensures { OnOk result (spots_of order.new.items ≡ spots_of order.old.items ++ block_order leaf.now depth block) }
{
    if depth == 0 {
        return Ok(());
    }
    match leaf.blocks.get(block as usize) {
        None => Ok(()),
        Some(found) => add_words(
            alloc,
            leaf,
            depth - 1,
            Some(block),
            found.words.as_slice(),
            order,
        ),
    }
}

// Adds the part of a spot, and right behind it those of the block to which it points; none where it
// is no pointer.
#[cycle(ordering)]
fn add_part<'a>(
    alloc: Global,
    leaf: &'a Leaf,
    depth: usize,
    spot: Spot<'a>,
    order: &mut Vec<Spot<'a>>,
) -> Result<(), AllocError>
    requires readable { IsReadable leaf.now }
    ensures { OnOk result (spots_of order.new.items
        ≡ spots_of order.old.items ++ spot_part spot.entry
        ∷ pointed_parts (block_order leaf.now depth) spot.entry.part.now.kind) }
{
    order.push(spot)?;
    match &spot.part.kind {
        Kind::Const(_) => Ok(()),
        Kind::Bits(_, _) => Ok(()),
        Kind::Word(_, _) => Ok(()),
        Kind::Pointer(_, block) => add_block(alloc, leaf, depth, *block, order),
    }
}

// Adds the parts of word `number`, which begins at byte `byte` of its block, by offset, behind each
// those of the block to which it points.
#[cycle(ordering)]
fn add_word<'a>(
    alloc: Global,
    leaf: &'a Leaf,
    depth: usize,
    block: Option<u32>,
    number: u64,
    byte: u64,
    word: &'a FlatWord,
    order: &mut Vec<Spot<'a>>,
) -> Result<(), AllocError>
    requires readable { IsReadable leaf.now }
    ensures { OnOk result (spots_of order.new.items
        ≡ spots_of order.old.items ++ word_order (block_order leaf.now depth) block number byte word.now) }
{
    let parts = by_offset(alloc, word)?;
    for part in parts.as_slice() {
        let spot = Spot {
            block,
            word: number,
            byte,
            width: word.width,
            part: *part,
        };
        add_part(alloc, leaf, depth, spot, order)?;
    }
    Ok(())
}

// Adds the parts of the words of a root or a block, behind each those of the block to which it
// points.
#[cycle(ordering)]
fn add_words<'a>(
    alloc: Global,
    leaf: &'a Leaf,
    depth: usize,
    block: Option<u32>,
    words: &'a [FlatWord],
    order: &mut Vec<Spot<'a>>,
) -> Result<(), AllocError>
    requires readable { IsReadable leaf.now }
    requires short { AreShort words.now }
    ensures { OnOk result (spots_of order.new.items
        ≡ spots_of order.old.items ++ words_order (block_order leaf.now depth) block 0 0 words.now) }
{
    let mut byte = 0;
    for (number, word) in words.iter().enumerate() {
        add_word(alloc, leaf, depth, block, number as u64, byte, word, order)?;
        byte += word.width / 8;
    }
    Ok(())
}

/// The parts of a leaf by word and offset, the bit at which each begins; those of a pointer's block come right behind
/// the pointer. The leaf's words are few and short.
///
/// # Errors
///
/// Want of memory.
pub fn order_of<'a>(alloc: Global, leaf: &'a Leaf) -> Result<Vec<Spot<'a>>, AllocError>
    requires readable { IsReadable leaf.now }
    ensures { IfOk result (λ order. spots_of order.items ≡ order_of leaf.now) }
{
    let mut order = Vec::new(alloc);
    let depth = leaf.blocks.len();
    add_words(alloc, leaf, depth, None, leaf.root.as_slice(), &mut order)?;
    Ok(order)
}

/// The parts of the leaf's block with this number by word and offset, those of a pointer's block
/// right behind the pointer; none where there is no such block.
pub(crate) fn block_order<'a>(
    alloc: Global,
    leaf: &'a Leaf,
    block: u32,
) -> Result<Vec<Spot<'a>>, AllocError>
    requires readable { IsReadable leaf.now }
    ensures { IfOk result (λ order. spots_of order.items ≡ block_order leaf.now (length leaf.now.blocks) block) }
{
    let mut order = Vec::new(alloc);
    let depth = leaf.blocks.len();
    add_block(alloc, leaf, depth, block, &mut order)?;
    Ok(order)
}
