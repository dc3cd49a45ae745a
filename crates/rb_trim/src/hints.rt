//! What tells how a body gets shorter. A fact says of a slot what it holds. Behind an instruction
//! is where a run goes on after it, by one of its ways. An instruction stays if it, or another one
//! in its stead, is in the shorter body, and has its new number, its place, there.

use crate::fact::Fact;
use rb_core::seq::Seq;

/// In `given`: a switch is to return at once, as all its ways return the same words.
pub(crate) const RETURNS: usize = 2;

/// What is left out of a body, and the new numbers of its instructions and slots. Nothing is right
/// by itself: `trim` tests what it rests on.
#[derive(Drop)]
pub struct Hints {
    /// For each instruction, and for the end, how many of those before it stay.
    pub places: Seq<usize>,
    /// For each instruction the one to which a run goes on that jumps there.
    pub ends: Seq<usize>,
    /// For each instruction 1 where a run may come to it, and 0 where none does.
    pub reached: Seq<usize>,
    /// For each instruction 1 where one instruction stands for it and for another behind it, 2
    /// where a switch returns at once, else 0.
    pub given: Seq<usize>,
    /// For each instruction what is known before it.
    pub facts: Seq<Seq<Fact>>,
    /// For each instruction some slots that no way from there on reads before it sets them anew,
    /// though a later line may read them.
    pub dead: Seq<Seq<usize>>,
    /// For each slot one more than the number of the last instruction that reads it; 0 where none
    /// does.
    pub reads: Seq<usize>,
    /// How many slots the shorter body has.
    pub slots: usize,
    /// The new number of each slot: past the shorter body's slots where only loads would write it
    /// that write another one now, and 0 where nothing writes or reads it.
    pub names: Seq<usize>,
    /// For each new number the slot, and behind them those of the slots past the shorter body's.
    pub origins: Seq<usize>,
}
