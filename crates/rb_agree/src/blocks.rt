//! Whether the blocks of a leaf and the pointers to them are as they must be.
//!
//! A block is words in memory to which a pointer leads; a leaf has its root words and its blocks. A
//! part is some bits of a word. A pointer's alignment is the bytes in whose multiples it counts,
//! and saves bits of it. A call that says how something fails answers None where it finds nothing
//! that does.
//!
//! Where a leaf fails in several ways, the first is named, word by word as the leaf is written. Of
//! a word its pointers come first, from left to right, each with its alignment, its bits and the
//! number of words behind it; then, in a block, its own width; and then what stands behind its
//! pointers, from left to right. Take the word
//!
//! ```text
//! word 64 { [0:32] -> 8 { word 12 { } }, [32:20] -> 1 { word 8 { } } }
//! ```
//!
//! Its second pointer is too short, which is named before the width behind the first. A walk from the root
//! words finds that order, behind each pointer among the blocks of lower numbers, for inner blocks are
//! numbered before outer ones. Where it finds nothing, a look at each block decides.

ghost use Rattle.std.specs.Prelude.{◌≡◌, ◌↔◌, ◌^◌, ◌≤◌, length, IfSome, IsTrue, MatchOption};
ghost use Rattle.rb_layout.specs.A4.{FailsBlocks, HasBlocks, IsAlignment, IsBlockLength, IsBlockWidth, IsWide};
ghost use Rattle.rb_agree.specs.Lists.{SomeOf};
ghost use Rattle.rb_agree.specs.inner.Lists.{EachOf};
ghost use Rattle.rb_agree.specs.inner.Blocks.{FailsBlock, FailsInBlocks, FailsKind, FailsLength, FailsNear, FailsNearPart, FailsPointer, FailsWidth, HasWidth, IsBlock, IsKind, ArePartsFine, ArePointersFine, FailsPointerParts, FailsPointers, pointed_block};

use rb_layout::evidence::Why;
use rb_layout::layout::{Block, FlatWord, Kind, Leaf, Part};

// Whether a word of a block may have so many bits: 8, 16, 32 or 64.
fn is_block_width(width: u64) -> bool
    ensures { IsTrue result ↔ IsBlockWidth width }
{
    width == 8 || width == 16 || width == 32 || width == 64
}

// How many bits an alignment saves, `k` where it is 2^k; None where it is no power of two from 1 to
// 64.
fn bits_saved(align: u64) -> Option<u64>
    ensures { MatchOption result (IsAlignment align → ⊥) (λ k. (k ≤ 6) × (align ≡ 2 ^ k)) }
{
    let mut power: u64 = 1;
    for k in 0..7 {
        if align == power {
            return Some(k);
        }
        power *= 2;
    }
    None
}

// How a pointer of `l` bits fails that counts `align` bytes.
fn pointer_fault(l: u64, align: u64) -> Option<Why>
    ensures { MatchOption result (IsAlignment align × IsWide align l) (FailsPointer l align) }
{
    match bits_saved(align) {
        None => Some(Why::Align(align)),
        Some(k) => {
            if 24 <= l {
                return None;
            }
            if 24 <= l + k {
                return None;
            }
            Some(Why::ShortPointer(l + k))
        }
    }
}

// How a part fails that is a pointer; none of another kind does.
fn part_fault(part: &Part) -> Option<Why>
    ensures { MatchOption result (IsKind part.now.l part.now.kind) (FailsKind part.now.l part.now.kind) }
{
    match &part.kind {
        Kind::Const(_) => None,
        Kind::Bits(_, _) => None,
        Kind::Word(_, _) => None,
        Kind::Pointer(align, _) => pointer_fault(part.l, *align),
    }
}

// How a pointer among the parts of a word fails.
fn parts_fault(parts: &[Part]) -> Option<Why>
    ensures { MatchOption result (ArePartsFine parts.now) (FailsPointerParts parts.now) }
{
    for part in parts {
        if let Some(why) = part_fault(part) {
            return Some(why);
        }
    }
    None
}

// How a pointer in one of these words fails.
fn pointers_fault(words: &[FlatWord]) -> Option<Why>
    ensures { MatchOption result (ArePointersFine words.now) (FailsPointers words.now) }
{
    for word in words {
        if let Some(why) = parts_fault(word.parts.as_slice()) {
            return Some(why);
        }
    }
    None
}

// How the width of some word of a block fails.
fn width_fault(words: &[FlatWord]) -> Option<Why>
    ensures { MatchOption result (EachOf HasWidth words.now) (λ why. SomeOf (FailsWidth why) words.now) }
{
    for word in words {
        if !is_block_width(word.width) {
            return Some(Why::BlockWord(word.width));
        }
    }
    None
}

// How a block of these words fails by their number.
fn length_fault(words: &[FlatWord]) -> Option<Why>
    ensures { MatchOption result (IsBlockLength (length words.now)) (FailsLength words.now) }
{
    if words.len() < 1 || 64 < words.len() {
        return Some(Why::BlockWords(words.len() as u64));
    }
    None
}

// How a block fails by its number of words, the width of one, or a pointer in one.
fn block_fault(block: &Block) -> Option<Why>
    ensures { MatchOption result (IsBlock block.now) (FailsBlock block.now) }
{
    let words = block.words.as_slice();
    if let Some(why) = length_fault(words) {
        return Some(why);
    }
    if let Some(why) = width_fault(words) {
        return Some(why);
    }
    pointers_fault(words)
}

// How some block fails, looked at by itself.
fn each_block_fault(blocks: &[Block]) -> Option<Why>
    ensures { MatchOption result
        (EachOf IsBlock blocks.now) (λ why. SomeOf (λ block. FailsBlock block why) blocks.now) }
{
    for block in blocks {
        if let Some(why) = block_fault(block) {
            return Some(why);
        }
    }
    None
}

// The number of the block to which a part points; None where it is no pointer.
fn pointed_block(part: &Part) -> Option<u32>
    ensures { result ≡ pointed_block part.now.kind }
{
    match &part.kind {
        Kind::Const(_) => None,
        Kind::Bits(_, _) => None,
        Kind::Word(_, _) => None,
        Kind::Pointer(_, block) => Some(*block),
    }
}

// How a part that is a pointer fails, or the block behind it, one of `blocks`, by its number of
// words.
fn near_part_fault(blocks: &[Block], part: &Part) -> Option<Why>
    ensures { IfSome result (FailsNearPart blocks.now part.now) }
{
    if let Some(why) = part_fault(part) {
        return Some(why);
    }
    let block = blocks.get(pointed_block(part)? as usize)?;
    length_fault(block.words.as_slice())
}

// How a pointer among parts fails, or the block behind one, among `blocks`, by its number of words.
fn near_fault(blocks: &[Block], parts: &[Part]) -> Option<Why>
    ensures { IfSome result (FailsNear blocks.now parts.now) }
{
    for part in parts {
        if let Some(why) = near_part_fault(blocks, part) {
            return Some(why);
        }
    }
    None
}

// How a word of the block with this number fails, or a word behind its pointers; None also where
// there is no such block. A block of a flat form has one pointer to it, so none is looked at twice.
#[cycle(reaching)]
fn inside_fault(blocks: &[Block], number: usize) -> Option<Why>
    ensures { IfSome result (FailsInBlocks blocks.now) }
{
    let block = blocks.get(number)?;
    let lower = &blocks[..number];
    for word in block.words.as_slice() {
        let parts = word.parts.as_slice();
        if let Some(why) = near_fault(lower, parts) {
            return Some(why);
        }
        if !is_block_width(word.width) {
            return Some(Why::BlockWord(word.width));
        }
        if let Some(why) = behind_fault(lower, parts) {
            return Some(why);
        }
    }
    None
}

// How a word behind the pointers among parts fails.
#[cycle(reaching)]
fn behind_fault(blocks: &[Block], parts: &[Part]) -> Option<Why>
    ensures { IfSome result (FailsInBlocks blocks.now) }
{
    for part in parts {
        if let Some(block) = pointed_block(part) {
            if let Some(why) = inside_fault(blocks, block as usize) {
                return Some(why);
            }
        }
    }
    None
}

// How a leaf fails that is found on the way from its root words.
fn first_fault(leaf: &Leaf) -> Option<Why>
    ensures { IfSome result (FailsBlocks leaf.now) }
{
    let blocks = leaf.blocks.as_slice();
    for word in leaf.root.as_slice() {
        let parts = word.parts.as_slice();
        if let Some(why) = near_fault(blocks, parts) {
            return Some(why);
        }
        if let Some(why) = behind_fault(blocks, parts) {
            return Some(why);
        }
    }
    None
}

/// How a leaf fails to have at most 64 blocks of 1 to 64 words of 8, 16, 32 or 64 bits, or pointers with
/// an alignment of 1 to 64 bytes, a power of two, and at least 24 bits with those that it saves.
pub fn blocks_fault(leaf: &Leaf) -> Option<Why>
    ensures { MatchOption result (HasBlocks leaf.now) (FailsBlocks leaf.now) }
{
    if 64 < leaf.blocks.len() {
        return Some(Why::Blocks(leaf.blocks.len() as u64));
    }
    if let Some(why) = first_fault(leaf) {
        return Some(why);
    }
    if let Some(why) = each_block_fault(leaf.blocks.as_slice()) {
        return Some(why);
    }
    pointers_fault(leaf.root.as_slice())
}
