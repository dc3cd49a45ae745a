//! Derived layouts obey the rules of agreement, as functions that carry the laws. Each function
//! does nothing: the law is its contract.
//!
//! A program is completed by its derived layouts, which stand after the written ones. Where the
//! written ones obey the rules, and none of them flattens a boxed type, the completed program
//! agrees. A program agrees where its layouts obey the rules A1 to A10. A leaf is for the values of
//! its provenance, a pattern. A layout flattens a type, a constructor of which stands below the
//! root of the provenance of one of its leaves; it holds a type where a word of an open field of
//! that type stands in the root words of a leaf, that is, outside of blocks.

ghost use Rattle.rb_auto.specs.Agreeing.{CompletedAgree};
ghost use Rattle.rb_auto.specs.Obeying.{DerivedAreOnNoCycle, DerivedFlattenNothing, DerivedObey, PackedHaveNoPointer};

/// A derived layout obeys the rules A1 to A8, where the types of its fields have shapes.
pub fn derived_layouts_obey()
    ensures { DerivedObey }
{}

/// A derived layout flattens nothing, as the provenances of its leaves have no constructors below
/// their roots.
pub fn derived_layouts_flatten_nothing()
    ensures { DerivedFlattenNothing }
{}

/// A packed layout has no pointer, so that it may be flattened.
pub fn packed_layouts_have_no_pointer()
    ensures { PackedHaveNoPointer }
{}

/// A derived layout stands on no cycle of types that hold each other in their root words.
pub fn derived_layouts_are_on_no_cycle()
    ensures { DerivedAreOnNoCycle }
{}

/// A program agrees where its written layouts obey the rules and flatten no boxed type, and all layouts
/// that are to be derived stand after them.
pub fn completed_programs_agree()
    ensures { CompletedAgree }
{}
