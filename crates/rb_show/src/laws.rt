//! What the lines of a layout are, as functions that carry the laws.
//!
//! A part of a word holds some of its bits, and a free range is some bits that no part holds. A
//! leaf of a layout has the words of the values of one pattern.

ghost use Rattle.rb_show.specs.Laws.{EachPartIsShown, FreeAreApart, FreeAreMaximal, LeavesAreShown, PiecesAscend};

/// The free ranges that are shown of a word are exactly its maximal ranges of bits in no part.
pub fn free_are_maximal()
    ensures { FreeAreMaximal }
{}

/// Each free range stands once, and no two of them touch.
pub fn free_are_apart()
    ensures { FreeAreApart }
{}

/// The parts and the free ranges of a word are shown by ascending offset.
pub fn pieces_ascend()
    ensures { PiecesAscend }
{}

/// Each part of a word that begins in it is shown, once.
pub fn each_part_is_shown()
    ensures { EachPartIsShown }
{}

/// Each leaf of a layout is shown once, from left to right.
pub fn leaves_are_shown()
    ensures { LeavesAreShown }
{}
