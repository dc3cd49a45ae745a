//! The root words of an image.
//!
//! A word fits a width if it has at most so many bits. A place is a type's number and the words at
//! which a value of it is to stand; a word of the root is kept at base 0, and its `place` there is
//! its number.

ghost use Rattle.std.specs.Prelude.{◌≡◌, ◌↔◌, ◌<◌, ◌^◌, IfOk, IsTrue, MatchOption};
ghost use Rattle.rb_core.specs.declared.types.Ty.TheVariants.{Named};
ghost use Rattle.rb_image.specs.Parts.{at_of};
ghost use Rattle.rb_image.specs.Roots.{WordsFit, IsFirstMisfit, root_at, widths_of};

use crate::kept::{Kept, Place};
use rb_layout::layout::Layout;
use std::alloc::{AllocError, Global};

/// The widths in bits of the root words of the data type with a number, none where it has no layout.
pub fn widths_of(layouts: &[Layout], ty: u32) -> &[u64]
    ensures { result.now ≡ widths_of layouts.now (Named ty) }
{
    match layouts.get(ty as usize) {
        None => &[],
        Some(layout) => layout.shape.as_slice(),
    }
}

// Whether a word has at most so many bits.
fn fits(word: u64, width: u64) -> bool
    ensures { IsTrue result ↔ (word < 2 ^ width) }
{
    if 64 <= width {
        return true;
    }
    word < 1u64 << width
}

/// The number of the first word that is missing, too many or too wide, where `widths` are in bits; none where all words
/// fit the widths.
pub fn first_misfit(widths: &[u64], words: &[u64]) -> Option<u64>
    ensures { MatchOption result (WordsFit widths.now words.now) (IsFirstMisfit widths.now words.now) }
{
    for (i, width) in widths.iter().enumerate() {
        match words.get(i) {
            None => return Some(i as u64),
            Some(word) => if !fits(*word, *width) {
                return Some(i as u64);
            },
        }
    }
    if widths.len() < words.len() {
        return Some(widths.len() as u64);
    }
    None
}

/// The place at which a value of the data type with the number `ty` is to stand in these root words.
///
/// # Errors
///
/// Want of memory.
pub fn root_place(alloc: Global, ty: u32, words: &[u64]) -> Result<Place, AllocError>
    ensures { IfOk result (λ place. at_of place ≡ root_at ty words.now) }
{
    let mut kept = Vec::with_capacity(alloc, words.len())?;
    for (i, word) in words.iter().enumerate() {
        kept.push(Kept {
            number: *word,
            base: 0,
            place: i as u64,
        })?;
    }
    Ok(Place { ty, words: kept })
}
