//! The words of a leaf, each read once.
//!
//! A leaf has root words, and blocks to which its pointers lead. A part is a range of one of these
//! words; a spot is a part with the word that it is of. A site says where bits stand: a range of a
//! root word of the image, or of a word of a block. `image` has the words that are read, and
//! `steps` counts them.

ghost use Rattle.std.specs.Prelude.{◌≡◌, ◌+◌, ◌<◌, ◌≤◌, ℕ, List, [], length, map, replicate};
ghost use Rattle.std.specs.Prelude.{IfOk, OnOk, slice_get, slice_index, slice_set};
ghost use Rattle.rb_layout.specs.Readable.{AreShort, IsReadable};
ghost use Rattle.rb_layout.specs.declared.layout.Leaf.{Leaf};
ghost use Rattle.rb_image.specs.LeafWords.{HasNumbers, block_addresses, block_span, follow_part};
ghost use Rattle.rb_image.specs.LeafWords.{items_or_none, numbers_at};
ghost use Rattle.rb_image.specs.Orders.{IsLeafPart, order_of, spot_part};
ghost use Rattle.rb_image.specs.Parts.{bits_at};
ghost use Rattle.rb_image.specs.Sites.{kept_of};
ghost use Rattle.rb_image.specs.inner.Reaching.{unread_words, word_read};
ghost use Rattle.rb_image_text.specs.Places.{AreInPlace};
ghost use Rattle.rb_image_text.specs.declared.image.ImageBlock.{ImageBlock};

use crate::kept::Kept;
use crate::leaf::{read_block, read_site};
use crate::order::{Spot, order_of};
use crate::parts::{address_at, follow};
use crate::site::Site;
use crate::splits::{range_of, word_at};
use rb_edge::steps::{Ledger, Steps};
use rb_image_text::image::Image;
use rb_layout::layout::{FlatWord, Kind, Leaf};
use std::alloc::{AllocError, Global};

/// The words of a leaf, as they were read: those of its root; the addresses of its blocks by number, 0 for a block to
/// which no pointer leads; and the words of each block whose address is known.
#[derive(Drop)]
pub struct LeafWords {
    pub root: Vec<Kept>,
    pub addresses: Vec<u64>,
    pub blocks: Vec<Vec<u64>>,
}

// The bits at sites, in their order, each read in at most one step.
fn read_sites<L: Ledger>(
    alloc: Global,
    image: &Image,
    sites: &[Site],
    steps: &mut Steps<L>,
) -> Result<Vec<Kept>, AllocError>
    requires placed { AreInPlace image.now.blocks }
    ensures words { IfOk result (λ found. found.items ≡ map (kept_of image.now) sites.now) }
    ensures least { steps.old.taken ≤ steps.new.taken }
    ensures most { steps.new.taken ≤ steps.old.taken + length sites.now }
{
    let mut found = Vec::new(alloc);
    for site in sites {
        found.push(read_site(image, *site, steps))?;
    }
    Ok(found)
}

// The numbers of the words of the block that begins at an address, one for each of these flat
// words; 0 for one that is not there.
fn read_numbers<L: Ledger>(
    alloc: Global,
    image: &Image,
    address: u64,
    words: &[FlatWord],
    steps: &mut Steps<L>,
) -> Result<Vec<u64>, AllocError>
    requires placed { AreInPlace image.now.blocks }
    requires short { AreShort words.now }
    ensures numbers { IfOk result (λ found. found.items ≡ numbers_at image.now.blocks address 0 words.now) }
    ensures least { steps.old.taken ≤ steps.new.taken }
    ensures most { steps.new.taken ≤ steps.old.taken + length words.now }
{
    let mut found = Vec::new(alloc);
    let mut byte = 0;
    for word in words {
        found.push(read_block(image, address, byte, word.width, steps).unwrap_or(0))?;
        byte += word.width / 8;
    }
    Ok(found)
}

// An empty list of words for each of `count` blocks, as it is before any block is read.
fn no_words(alloc: Global, count: usize) -> Result<Vec<Vec<u64>>, AllocError>
    ensures long { IfOk result (λ blocks. length blocks.items ≡ count) }
    ensures none { IfOk result (λ blocks. (b : ℕ) → items_or_none (slice_get blocks.items b) ≡ []) }
{
    let mut blocks = Vec::new(alloc);
    for _block in 0..count {
        blocks.push(Vec::new(alloc))?;
    }
    Ok(blocks)
}

impl LeafWords {
    // The number of a word of the leaf's block with this number, as it was read; 0 where none was.
    fn number_at(&self, block: u32, word: u64) -> u64
        ensures { result ≡ slice_index (items_or_none (slice_get self.now.blocks.items block)) word }
    {
        match self.blocks.get(block as usize) {
            None => 0,
            Some(numbers) => match numbers.get(word as usize) {
                None => 0,
                Some(number) => *number,
            },
        }
    }

    // The word that a part is of, as it was read, with where it is kept.
    fn word_of(&self, spot: &Spot) -> Kept
        ensures { result ≡ word_read self.now spot.now.block (spot_part spot.now) }
    {
        match spot.block {
            None => word_at(self.root.as_slice(), spot.word),
            Some(block) => Kept {
                number: self.number_at(block, spot.word),
                base: address_at(self.addresses.as_slice(), block),
                place: spot.byte,
            },
        }
    }

    /// The bits of a part of the leaf, with where the word is kept that they are of; the number 0 for a part of a block
    /// whose address is not known. Nothing is read.
    pub fn bits(&self, spot: &Spot) -> Kept
        ensures { (m : List ImageBlock) (leaf : Leaf) → AreInPlace m → HasNumbers m leaf self.now
            → IsLeafPart leaf (spot_part spot.now)
            → result ≡ bits_at m self.now.root.items self.now.addresses.items (spot_part spot.now) }
    {
        range_of(self.word_of(spot), spot.part.o, spot.part.l)
    }

    // Notes the address of a block, which was not known before, and reads the words of the block.
    fn enter<L: Ledger>(
        &mut self,
        alloc: Global,
        image: &Image,
        leaf: &Leaf,
        block: u32,
        address: u64,
        steps: &mut Steps<L>,
    ) -> Result<(), AllocError>
        requires placed { AreInPlace image.now.blocks }
        requires readable { IsReadable leaf.now }
        requires numbers { HasNumbers image.now.blocks leaf.now self.old }
        requires unknown { slice_index self.old.addresses.items block ≡ 0 }
        requires found { 0 < address }
        ensures root { self.new.root.items ≡ self.old.root.items }
        ensures address { self.new.addresses.items ≡ slice_set self.old.addresses.items block address }
        ensures numbers { OnOk result (HasNumbers image.now.blocks leaf.now self.new) }
        ensures least { steps.old.taken ≤ steps.new.taken }
        ensures once { steps.new.taken + unread_words leaf.now.blocks self.new.addresses.items
            ≤ steps.old.taken + unread_words leaf.now.blocks self.old.addresses.items }
    {
        let block = block as usize;
        if block >= self.addresses.len() {
            return Ok(());
        }
        self.addresses[block] = address;
        let Some(found) = leaf.blocks.get(block) else {
            return Ok(());
        };
        let numbers = read_numbers(alloc, image, address, found.words.as_slice(), steps)?;
        self.blocks[block] = numbers;
        Ok(())
    }

    // Follows a part to its block, if it is a pointer, and reads the words there. A block that was
    // read is not read again, and one to which the pointer may not lead is left out.
    fn follow<L: Ledger>(
        &mut self,
        alloc: Global,
        image: &Image,
        leaf: &Leaf,
        spot: &Spot,
        steps: &mut Steps<L>,
    ) -> Result<(), AllocError>
        requires placed { AreInPlace image.now.blocks }
        requires readable { IsReadable leaf.now }
        requires numbers { HasNumbers image.now.blocks leaf.now self.old }
        requires part { IsLeafPart leaf.now (spot_part spot.now) }
        ensures root { self.new.root.items ≡ self.old.root.items }
        ensures addresses { self.new.addresses.items
            ≡ follow_part image.now.blocks leaf.now self.old.root.items self.old.addresses.items (spot_part spot.now) }
        ensures numbers { OnOk result (HasNumbers image.now.blocks leaf.now self.new) }
        ensures least { steps.old.taken ≤ steps.new.taken }
        ensures once { steps.new.taken + unread_words leaf.now.blocks self.new.addresses.items
            ≤ steps.old.taken + unread_words leaf.now.blocks self.old.addresses.items }
    {
        match &spot.part.kind {
            Kind::Const(_) => Ok(()),
            Kind::Bits(_, _) => Ok(()),
            Kind::Word(_, _) => Ok(()),
            Kind::Pointer(align, block) => {
                if address_at(self.addresses.as_slice(), *block) != 0 {
                    return Ok(());
                }
                match follow(
                    image.blocks.as_slice(),
                    leaf,
                    self.bits(spot),
                    *align,
                    *block,
                ) {
                    Err(_) => Ok(()),
                    Ok(at) => self.enter(alloc, image, leaf, *block, at, steps),
                }
            }
        }
    }

    /// The words of a leaf of which those of the root alone are known: no address, and no word of a block.
    ///
    /// # Errors
    ///
    /// Want of memory.
    pub fn of_root(alloc: Global, leaf: &Leaf, root: Vec<Kept>) -> Result<Self, AllocError>
        ensures root { IfOk result (λ found. found.root ≡ root) }
        ensures addresses { IfOk result (λ found. found.addresses.items ≡ replicate (length leaf.now.blocks) 0) }
        ensures numbers { (m : List ImageBlock) → IfOk result (λ found. HasNumbers m leaf.now found) }
    {
        let count = leaf.blocks.len();
        Ok(LeafWords {
            root,
            addresses: Vec::from_elem(alloc, 0, count)?,
            blocks: no_words(alloc, count)?,
        })
    }

    // The words of a leaf of which those of the root alone were read, at these sites.
    fn at_root<L: Ledger>(
        alloc: Global,
        image: &Image,
        leaf: &Leaf,
        sites: &[Site],
        steps: &mut Steps<L>,
    ) -> Result<Self, AllocError>
        requires placed { AreInPlace image.now.blocks }
        ensures root { IfOk result (λ found. found.root.items ≡ map (kept_of image.now) sites.now) }
        ensures addresses { IfOk result (λ found. found.addresses.items ≡ replicate (length leaf.now.blocks) 0) }
        ensures numbers { IfOk result (λ found. HasNumbers image.now.blocks leaf.now found) }
        ensures least { steps.old.taken ≤ steps.new.taken }
        ensures most { steps.new.taken ≤ steps.old.taken + length sites.now }
    {
        let root = read_sites(alloc, image, sites, steps)?;
        Self::of_root(alloc, leaf, root)
    }
}

/// The words of a leaf, where those of its root stand at these sites. Each word is read by `read_word` alone, and at
/// most once: those at the sites, and those of each block to which a pointer part leads. A pointer that leads to no
/// block of the leaf's size, or, from within a block, not below that block, is no fault here: the words behind it are
/// left out, and the address of its block is 0.
///
/// # Errors
///
/// Want of memory.
pub fn read_words<L: Ledger>(
    alloc: Global,
    image: &Image,
    leaf: &Leaf,
    sites: &[Site],
    steps: &mut Steps<L>,
) -> Result<LeafWords, AllocError>
    requires placed { AreInPlace image.now.blocks }
    requires readable { IsReadable leaf.now }
    ensures root { IfOk result (λ found. found.root.items ≡ map (kept_of image.now) sites.now) }
    ensures addresses { IfOk result (λ found.
        found.addresses.items ≡ block_addresses image.now.blocks leaf.now (map (kept_of image.now) sites.now)) }
    ensures numbers { IfOk result (λ found. HasNumbers image.now.blocks leaf.now found) }
    ensures least { steps.old.taken ≤ steps.new.taken }
    ensures most { steps.new.taken ≤ steps.old.taken + (length sites.now + block_span leaf.now) }
{
    let order = order_of(alloc, leaf)?;
    let mut words = LeafWords::at_root(alloc, image, leaf, sites, steps)?;
    for spot in order.as_slice() {
        words.follow(alloc, image, leaf, spot, steps)?;
    }
    Ok(words)
}
