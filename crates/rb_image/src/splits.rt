//! The leaf to which the splits of a layout lead, read on words of an image.
//!
//! A split is a node of a layout's tree: the bits at its location decide on the arm to take. A
//! location is a range of a word of the value, and steps from there, each over a pointer to a range
//! of a word in a block. A range is bits of a word with where the word is kept: in the block that
//! begins at `base`, or, at base 0, among the root words. `memory` has the image's blocks and
//! `words` are those of the value.

ghost use Rattle.std.specs.Prelude.{◌≡◌};
ghost use Rattle.rb_image.specs.Splits.{leaf_at, pointed_from, range_at, range_of, step_over, word_at};
ghost use Rattle.rb_image_text.specs.Places.{AreInPlace};

use crate::blocks::word_in;
use crate::kept::Kept;
use rb_coding::bits::take_from;
use rb_coding::splits::under;
use rb_core::layout_decl::{Loc, Step};
use rb_image_text::fault::ImageFault;
use rb_image_text::image::ImageBlock;
use rb_layout::layout::FlatTree;

/// The address to which a pointer may lead that is kept in the block at `base`, 0 for a root word:
/// any of 64 bits from a root word, a lower one from a block; none for any other.
pub(crate) fn pointed_from(base: u64, address: u128) -> Option<u64>
    ensures { result ≡ pointed_from base address }
{
    if address > u64::MAX as u128 {
        return None;
    }
    let address = address as u64;
    if base == 0 || address < base {
        Some(address)
    } else {
        None
    }
}

/// The word to which a step of a location leads from the pointer in a range, where `memory` has the blocks of an image,
/// by address: it is of `step.width` bits, from byte `step.byte` of a block on.
///
/// # Errors
///
/// `BadPointer`, with the base of the pointer and the address, where it leads to no such word, or, from within a block,
/// not below that block.
pub fn step_over(memory: &[ImageBlock], range: Kept, step: Step) -> Result<Kept, ImageFault>
    requires placed { AreInPlace memory.now }
    ensures { result ≡ step_over memory.now range step }
{
    let address = u128::from(range.number) * u128::from(step.align);
    let fault = ImageFault::BadPointer(range.base, address);
    match pointed_from(range.base, address) {
        None => Err(fault),
        Some(base) => match word_in(memory, base, step.byte, step.width) {
            None => Err(fault),
            Some(number) => Ok(Kept {
                number,
                base,
                place: step.byte,
            }),
        },
    }
}

/// The `l` bits of a word from bit `o` on, kept where the word is.
pub fn range_of(word: Kept, o: u64, l: u64) -> Kept
    ensures { result ≡ range_of word o l }
{
    Kept {
        number: take_from(word.number, o, l),
        base: word.base,
        place: word.place,
    }
}

/// The word with this number among those of a value; where there are fewer, one of the number 0, kept as root word 0.
pub fn word_at(words: &[Kept], number: u64) -> Kept
    ensures { result ≡ word_at words.now number }
{
    match words.get(number as usize) {
        None => Kept {
            number: 0,
            base: 0,
            place: 0,
        },
        Some(word) => *word,
    }
}

// The bits at a location, with where they are kept, or the first pointer on the way that is
// refused.
fn range_at(memory: &[ImageBlock], words: &[Kept], loc: &Loc) -> Result<Kept, ImageFault>
    requires placed { AreInPlace memory.now }
    ensures { result ≡ range_at memory.now words.now loc.now }
{
    let mut range = range_of(word_at(words, loc.word), loc.o, loc.l);
    for step in loc.steps.as_slice() {
        range = range_of(step_over(memory, range, *step)?, step.o, step.l);
    }
    Ok(range)
}

/// The number of the leaf to which a tree of splits leads, where `words` are those of the value, and `memory` has the
/// blocks of an image, by address.
///
/// # Errors
///
/// The first fault on the way, outer splits before inner ones: `BadBits`, with the base and the place of the word,
/// where no arm of a split takes its bits, and `BadPointer` of a location, as of `step_over`.
pub fn leaf_at(memory: &[ImageBlock], words: &[Kept], tree: &FlatTree) -> Result<u32, ImageFault>
    requires placed { AreInPlace memory.now }
    ensures { result ≡ leaf_at tree.now memory.now words.now }
{
    let mut tree = tree;
    loop {
        match tree {
            FlatTree::Leaf(leaf) => return Ok(*leaf),
            FlatTree::Split(loc, arms, other) => {
                let range = range_at(memory, words, loc)?;
                match under(arms.as_slice(), other, range.number) {
                    None => return Err(ImageFault::BadBits(range.base, range.place)),
                    Some(next) => {
                        tree = next;
                    }
                }
            }
        }
    }
}
