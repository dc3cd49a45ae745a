//! The laws of representation, each the contract of a function that does nothing. The first three
//! are over any layouts. All others are over programs whose layouts agree with their types, and all
//! but the last over typed ones. In a good memory the blocks lie one after the other, from address
//! 64 up to the next free one, and behind them nothing is written.

ghost use Rattle.rb_rel.specs.Laws.{CleanRepresents, GrowthKeeps, ListsHaveWords, MendingRecurs, ReadingGivesBits};
ghost use Rattle.rb_rel.specs.Laws.{RepresentedAreTyped, SplitsLead, ValuesHaveWords, WordsAreOneValue};

/// What represents a value in a memory still does in one that has its blocks and written bytes, and
/// perhaps more.
pub fn growth_keeps_representations()
    ensures { GrowthKeeps }
{}

/// A clean representation of a value, whose free bits are 0, is a representation of it.
pub fn clean_representations_represent()
    ensures { CleanRepresents }
{}

/// Where a location resolves in the leaf of a represented value, reading it gives the bits there:
/// no load on the way goes astray or meets an unwritten byte.
pub fn reading_gives_bits()
    ensures { ReadingGivesBits }
{}

/// The splits of a type's layout, read on words that represent a value of it in a good memory, lead
/// to the value's leaf.
pub fn splits_lead_to_the_leaf()
    ensures { SplitsLead }
{}

/// In a good memory, words represent one value of a type at most.
pub fn words_are_one_value()
    ensures { WordsAreOneValue }
{}

/// What words represent at a type is of that type.
pub fn represented_values_are_typed()
    ensures { RepresentedAreTyped }
{}

/// Every value of a type whose blocks fit in a good memory has a clean representation, in a memory
/// that has grown from it by exactly the blocks that the value's constructions ask for.
pub fn values_have_words()
    ensures { ValuesHaveWords }
{}

/// Several values whose blocks fit in a good memory, made one after the other as the arguments of a
/// program are, have clean representations one behind the other, in a memory that has grown from it
/// by exactly the blocks that their constructions ask for.
pub fn lists_have_words()
    ensures { ListsHaveWords }
{}

/// Mending rebuilds the subvalues that a leaf has taken apart, and choosing finds the leaf of one
/// such construction. The switches of mending a type are, in the leaf where it takes most, the sum
/// of those of choosing over the constructors below the root of its provenance: the bound on how
/// deep types are flattened into one another is never reached, since flattening has no cycle.
pub fn mending_recurs()
    ensures { MendingRecurs }
{}
