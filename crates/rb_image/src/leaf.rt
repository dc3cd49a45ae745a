//! The leaf to which the splits of a layout lead, where each word is read when a split asks for it.
//!
//! A site says where bits stand: a range of a root word, at base 0, or of a word of the block that
//! begins at its base. A location of a split is a range of a word of the value, and steps from
//! there, each over a pointer to a range of a word in a block. `sites` are those of the value's
//! words, and `steps` counts the words that are read. A pointer is refused where it leads to no
//! word, or, from within a block, not below that block.

ghost use Rattle.std.specs.Prelude.{◌≡◌, ◌+◌, ◌≤◌, length, map};
ghost use Rattle.rb_image.specs.Blocks.{word_in};
ghost use Rattle.rb_image.specs.Sites.{kept_of};
ghost use Rattle.rb_image.specs.Spans.{tree_span};
ghost use Rattle.rb_image.specs.Splits.{leaf_at, range_at, step_over, word_at};
ghost use Rattle.rb_image_text.specs.Places.{AreInPlace};

use crate::kept::Kept;
use crate::site::Site;
use crate::splits::{pointed_from, range_of};
use crate::word::read_word;
use rb_coding::splits::under;
use rb_core::layout_decl::{Loc, Step};
use rb_edge::steps::{Ledger, Steps};
use rb_image_text::fault::ImageFault;
use rb_image_text::image::Image;
use rb_layout::layout::FlatTree;

/// The bits at a site, with where they are kept; the number 0 where there is no such word.
pub(crate) fn read_site<L: Ledger>(image: &Image, site: Site, steps: &mut Steps<L>) -> Kept
    requires placed { AreInPlace image.now.blocks }
    ensures bits { result ≡ kept_of image.now site }
    ensures taken { steps.new.taken ≡ steps.old.taken + 1 }
{
    let number = match read_word(image, site.base, site.place, site.width, steps) {
        None => 0,
        Some(number) => number,
    };
    let word = Kept {
        number,
        base: site.base,
        place: site.place,
    };
    range_of(word, site.o, site.l)
}

// The bits at the site with this number, or the number 0 where there are fewer sites.
fn read_number<L: Ledger>(image: &Image, sites: &[Site], number: u64, steps: &mut Steps<L>) -> Kept
    requires placed { AreInPlace image.now.blocks }
    ensures bits { result ≡ word_at (map (kept_of image.now) sites.now) number }
    ensures least { steps.old.taken ≤ steps.new.taken }
    ensures most { steps.new.taken ≤ steps.old.taken + 1 }
{
    match sites.get(number as usize) {
        None => Kept {
            number: 0,
            base: 0,
            place: 0,
        },
        Some(site) => read_site(image, *site, steps),
    }
}

/// The word of `width` bits from a byte on of the block that begins at `base`; none where it does
/// not lie in one. No block begins at 0, where root words would be read, so there is none at base
/// 0, and no step is taken.
pub(crate) fn read_block<L: Ledger>(
    image: &Image,
    base: u64,
    byte: u64,
    width: u64,
    steps: &mut Steps<L>,
) -> Option<u64>
    requires placed { AreInPlace image.now.blocks }
    ensures word { result ≡ word_in image.now.blocks base byte width }
    ensures least { steps.old.taken ≤ steps.new.taken }
    ensures most { steps.new.taken ≤ steps.old.taken + 1 }
{
    if base == 0 {
        return None;
    }
    read_word(image, base, byte, width, steps)
}

// The word to which a step of a location leads from the pointer in a range: `BadPointer` where it
// leads to none, or, from within a block, not below that block.
fn read_step<L: Ledger>(
    image: &Image,
    range: Kept,
    step: Step,
    steps: &mut Steps<L>,
) -> Result<Kept, ImageFault>
    requires placed { AreInPlace image.now.blocks }
    ensures word { result ≡ step_over image.now.blocks range step }
    ensures least { steps.old.taken ≤ steps.new.taken }
    ensures most { steps.new.taken ≤ steps.old.taken + 1 }
{
    let address = u128::from(range.number) * u128::from(step.align);
    let fault = ImageFault::BadPointer(range.base, address);
    match pointed_from(range.base, address) {
        None => Err(fault),
        Some(base) => match read_block(image, base, step.byte, step.width, steps) {
            None => Err(fault),
            Some(number) => Ok(Kept {
                number,
                base,
                place: step.byte,
            }),
        },
    }
}

// The bits at a location, with where they are kept, or the first pointer on the way that is
// refused.
fn read_range<L: Ledger>(
    image: &Image,
    sites: &[Site],
    loc: &Loc,
    steps: &mut Steps<L>,
) -> Result<Kept, ImageFault>
    requires placed { AreInPlace image.now.blocks }
    ensures bits { result ≡ range_at image.now.blocks (map (kept_of image.now) sites.now) loc.now }
    ensures least { steps.old.taken ≤ steps.new.taken }
    ensures most { steps.new.taken ≤ steps.old.taken + (1 + length loc.now.steps) }
{
    let mut range = range_of(read_number(image, sites, loc.word, steps), loc.o, loc.l);
    for step in loc.steps.as_slice() {
        range = range_of(read_step(image, range, *step, steps)?, step.o, step.l);
    }
    Ok(range)
}

/// The number of the leaf to which a tree of splits leads, read on the words at these sites: the leaf that `look` finds
/// where the words are in hand. A word is read by `read_word` alone, and only where a split asks for its bits. So at
/// most one step is taken for each split of the tree, and one for each step of its location.
///
/// # Errors
///
/// The first fault on the way, outer splits before inner ones: `BadBits` where no arm of a split takes its bits, and
/// `BadPointer` where a pointer that a location passes leads to no word, or, from within a block, not below that block.
pub fn read_leaf<L: Ledger>(
    image: &Image,
    sites: &[Site],
    tree: &FlatTree,
    steps: &mut Steps<L>,
) -> Result<u32, ImageFault>
    requires placed { AreInPlace image.now.blocks }
    ensures leaf { result ≡ leaf_at tree.now image.now.blocks (map (kept_of image.now) sites.now) }
    ensures least { steps.old.taken ≤ steps.new.taken }
    ensures most { steps.new.taken ≤ steps.old.taken + tree_span tree.now }
{
    let mut tree = tree;
    loop {
        match tree {
            FlatTree::Leaf(leaf) => return Ok(*leaf),
            FlatTree::Split(loc, arms, other) => {
                let range = read_range(image, sites, loc, steps)?;
                match under(arms.as_slice(), other, range.number) {
                    None => return Err(ImageFault::BadBits(range.base, range.place)),
                    Some(next) => {
                        tree = next;
                    }
                }
            }
        }
    }
}
