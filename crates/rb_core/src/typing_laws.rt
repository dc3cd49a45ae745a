//! Laws of typing, each the contract of a function that does nothing.

ghost use Rattle.rb_core.specs.TypingLaws.{BindersAreFound, InferredIsFound, WantedIsFound, WidthIsLeast};

/// Where a type is wanted of an expression and typing finds no fault, the expression has that type.
pub fn wanted_is_found()
    ensures { WantedIsFound }
{}

/// The types and the binders that the source meaning reads off expressions and patterns are those
/// that typing gives them, where it finds no fault; so the widths of operators are those of typing.
pub fn inferred_is_found()
    ensures types { InferredIsFound }
    ensures binders { BindersAreFound }
{}

/// The least integer type that holds a number below 2^64 is what typing finds for it, where it fits
/// no wanted type.
pub fn width_is_least()
    ensures { WidthIsLeast }
{}
