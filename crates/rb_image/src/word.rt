//! Words of an image, read one at a time.
//!
//! A base is the address at which a block begins, or 0 for the root words. `steps` counts the words
//! that are read.

ghost use Rattle.std.specs.Prelude.{◌≡◌, ◌+◌};
ghost use Rattle.rb_image.specs.WordReads.{read_of};
ghost use Rattle.rb_image_text.specs.Places.{AreInPlace};

use crate::blocks::word_in;
use rb_edge::steps::{Ledger, Steps};
use rb_image_text::image::Image;

/// One word of an image, where there is one: at base 0 the root word with the number `place`, whatever `width` is; at
/// another base the word of 8, 16, 32 or 64 bits from byte `place` on of the block that begins at that base, the lowest
/// byte first. One step is ticked, whether there is such a word or not. The block is found by halves, which takes none.
pub fn read_word<L: Ledger>(
    image: &Image,
    base: u64,
    place: u64,
    width: u64,
    steps: &mut Steps<L>,
) -> Option<u64>
    requires placed { AreInPlace image.now.blocks }
    ensures word { result ≡ read_of image.now base place width }
    ensures taken { steps.new.taken ≡ steps.old.taken + 1 }
    ensures noted { L.notes steps.old.ledger steps.new.ledger }
{
    steps.tick();
    if base == 0 {
        return image.root.as_slice().get(place as usize).copied();
    }
    word_in(image.blocks.as_slice(), base, place, width)
}
