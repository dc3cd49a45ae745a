//! Whether blocks ascend without overlap.
//!
//! A block is a range of memory, given by the address at which it begins, in bytes, and by its
//! bytes. It is in its place if it begins at 64 or later and behind the block before it, and ends
//! within the greatest region, the first 16,777,216 bytes.

ghost use Rattle.std.specs.Prelude.{IsTrue, ◌↔◌, MatchOption};
ghost use Rattle.rb_image_text.specs.Places.{IsInPlace, AreInPlace, IsFirstMisplaced};

use crate::image::ImageBlock;
use rb_bytes::memory::{LEAST_REGION, MOST_REGION};

// Whether a block begins at 64 or later and at the address `before` or later, and ends within the
// greatest region.
fn is_in_place(before: u64, block: &ImageBlock) -> bool
    ensures { IsTrue result ↔ IsInPlace before block.now }
{
    LEAST_REGION <= block.at
        && before <= block.at
        && block.at <= MOST_REGION
        && block.bytes.len() as u64 <= MOST_REGION - block.at
}

/// The number of the first block out of its place, counted from 0, or `None` where all ascend
/// without overlap from 64 on, within the greatest region.
pub fn first_misplaced(blocks: &[ImageBlock]) -> Option<usize>
    ensures { MatchOption result (AreInPlace blocks.now) (λ i. IsFirstMisplaced blocks.now i) }
{
    let mut end = 0;
    for i in 0..blocks.len() {
        let block = &blocks[i];
        if !is_in_place(end, block) {
            return Some(i);
        }
        end = block.at + block.bytes.len() as u64;
    }
    None
}
