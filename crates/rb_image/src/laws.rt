//! What images are: each law the contract of a function that does nothing.
//!
//! A leaf of a layout has root words, and blocks of words; these are its flat words, and they are
//! made of parts; its provenance is the pattern of its values. A split chooses the leaf by the bits
//! at a location. A place is a type's number and the words at which a value of it is to stand; an
//! image is sound if no place that one comes to from its root words has a fault. A site says where
//! bits stand, in a root word or in a block.

ghost use Rattle.rb_image.specs.Falling.{DescendingImagesAreSound, SoundImagesDescend, SoundValuesDescend};
ghost use Rattle.rb_image.specs.FieldSites.{LeavesAreNarrow};
ghost use Rattle.rb_image.specs.Spans.{SpansRecur};
ghost use Rattle.rb_image.specs.Values.{SoundImagesHaveValues};
ghost use Rattle.rb_image.specs.Visits.{LayoutsAreTidy};

/// Every image that is sound has a value.
pub fn sound_images_have_values()
    ensures { SoundImagesHaveValues }
{}

/// Every image is sound whose root words represent a value in the memory that has exactly the image's blocks, and whose
/// pointers fall: each that is kept in a block leads to a block with a lower address.
pub fn descending_images_are_sound()
    ensures { DescendingImagesAreSound }
{}

/// The root words of every image that is sound represent a value in the memory that has exactly the image's blocks, and
/// all pointers fall.
pub fn sound_images_descend()
    ensures { SoundImagesDescend }
{}

/// What the root words of an image that is sound represent in any memory in which its blocks stand is the value that
/// they represent in the memory of exactly these blocks, where all pointers fall.
pub fn sound_values_descend()
    ensures { SoundValuesDescend }
{}

/// The span of a data type, from which bounds on the words that are read are made, is the sum of three numbers: one and
/// the steps of its location for each split, the flat words of all leaves, and the span of the type of each constructor
/// below the root of a provenance.
pub fn spans_recur()
    ensures { SpansRecur }
{}

/// Of the leaves of layouts that agree with their types, root and blocks have at most 64 words, each of at most 64
/// bits, and each part of a word lies among 64 bits: of such leaves the sites of fields are found.
pub fn leaves_are_narrow()
    ensures { LeavesAreNarrow }
{}

/// In layouts that agree with their types the splits lead to leaves, each leaf has as many root words as the shape, and
/// its words are few and short and their parts narrow: such layouts `visit` asks for.
pub fn layouts_are_tidy()
    ensures { LayoutsAreTidy }
{}
