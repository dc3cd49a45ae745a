//! What stands at paths of images: each law the contract of a function that does nothing.
//!
//! A path is a list of field numbers from the root of an image's value. A walk goes along it,
//! through the leaves of the subvalues of data types on it. A leaf of a layout has root words, and
//! blocks of words; these are its flat words; its provenance is the pattern of its values. A split
//! chooses the leaf by the bits at a location. The span of a type counts its splits and words, and
//! bounds how many words are read.

ghost use Rattle.rb_peek.specs.HeldParts.{GivenPartsAreHeld};
ghost use Rattle.rb_peek.specs.PackedWords.{PackedWordsRepresent};
ghost use Rattle.rb_peek.specs.PathParts.{PathsLeadToParts};
ghost use Rattle.rb_peek.specs.PathSpans.{WalksAreShort};
ghost use Rattle.rb_peek.specs.RebuiltValues.{RebuiltWordsRepresent};
ghost use Rattle.rb_peek.specs.TakenApart.{ValuesAreSeen};

/// The splits and words of the data types to whose leaves a walk comes are at most as many as the sum of the spans of
/// the types of the subvalues on its path, the last included: so many words such a walk reads at most.
pub fn walks_are_short()
    ensures { WalksAreShort }
{}

/// Where an image holds a value, the words of an integer, or of a subvalue of a data type with a leaf of its own, to
/// which a path of field numbers leads represent the part of the value there.
pub fn paths_lead_to_parts()
    ensures { PathsLeadToParts }
{}

/// Where the words of its fields represent the parts of a value whose leaf has no blocks, the words in which `rebuild`
/// packs them represent the value; and cleanly where those of the fields do.
pub fn packed_words_represent()
    ensures { PackedWordsRepresent }
{}

/// Where words represent a value of a type without pointers, as each is that a leaf takes apart, the splits lead to the
/// leaf of the value and its constants are there, though no image is looked at: so `rebuild` sees it in its own leaf.
pub fn values_are_seen()
    ensures { ValuesAreSeen }
{}

/// Where a value stands at a position inside a leaf, and what stands open below is represented by its words, the words
/// that `rebuild` gives of it represent it.
pub fn rebuilt_words_represent()
    ensures { RebuiltWordsRepresent }
{}

/// Where an image holds a value, the words that `peek` gives represent the part of the value at the path, also where
/// the part was taken apart and is rebuilt.
pub fn given_parts_are_held()
    ensures { GivenPartsAreHeld }
{}
