//! Laws of matching and of the source meaning, each the contract of a function that does nothing.

ghost use Rattle.rb_core.specs.Matching.{ChosenIsLeast};
ghost use Rattle.rb_core.specs.MeaningLaws.{CallsRunBodies, MoreCallsGoOn};

/// A call, where one is left, does what its function's body does with one call less left; it is
/// done with 0 where the program lacks the function.
pub fn calls_run_bodies()
    ensures { CallsRunBodies }
{}

/// The chosen clause of a match is the least that matches, and there is none where none does.
pub fn chosen_is_least()
    ensures { ChosenIsLeast }
{}

/// A call with more calls left goes on where the same call with fewer ends: it has the same log and
/// value where that is done, and its log begins with that one's where that is spent.
pub fn more_calls_go_on()
    ensures { MoreCallsGoOn }
{}
