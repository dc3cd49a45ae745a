//! A law of the switches of a match, which a caller's bound rests on: a switch is an instruction
//! that branches by a number, and to count them is to bound what the tests of a match cost.

ghost use Rattle.rb_match.specs.Bounding.{BoundIsShared};

/// What chooses a match's clause and what binds the variables of one of its patterns do together at most
/// as many switches as the match may cost.
pub fn choosing_and_binding_share_the_bound()
    ensures { BoundIsShared }
{}
