//! The laws of flat forms and of agreement, each the contract of a function that does nothing.

ghost use Rattle.rb_layout.specs.Flat.{LeavesAreFlat};
ghost use Rattle.rb_layout.specs.Placing.{EachStandsOnce};
ghost use Rattle.rb_layout.specs.Positions.{OpensAreFromLeft};
ghost use Rattle.rb_layout.specs.Spots.{CyclesAreListed, NeverBeside, PlacesAreAll};

/// In each leaf of a flat form each pointer leads to a block of its alignment, which is numbered
/// below the block in which the pointer stands, if it stands in one, and each block has a pointer
/// to it. The layouts need not obey any rule.
pub fn leaves_are_flat()
    ensures { LeavesAreFlat }
{}

/// No evidence shows that a rule fails at a place where it holds.
pub fn evidence_never_beside()
    ensures { NeverBeside }
{}

/// The rules hold at all places that are checked exactly where the layouts obey all ten of them.
pub fn places_are_all()
    ensures { PlacesAreAll }
{}

/// Where types flatten or hold each other in a cycle, there is one to list from each of its types
/// on, with none of its types twice.
pub fn cycles_are_listed()
    ensures { CyclesAreListed }
{}

/// The parts of a flat leaf are those that are placed for what is written, each as often as it is
/// written, in a word of the width that it is written in and at its offset.
pub fn each_stands_once()
    ensures { EachStandsOnce }
{}

/// The open positions of a provenance are listed from left to right, so that none stands there
/// twice.
pub fn opens_are_from_left()
    ensures { OpensAreFromLeft }
{}
