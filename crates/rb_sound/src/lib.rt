//! What typing promises of a run, proved of the source meaning.
//!
//! It is the theorem of type soundness for a meaning by evaluation: by induction over the calls that are
//! left, and within a call over its expression. An environment has for each variable in scope a value of the
//! type that typing gives the variable. Of `let n: u64 = add(x, 1) in Cons(n, xs)` with `xs` a `List`, the
//! sum is below 2^64, so `n` is bound to a `u64`, and the construction, whose fields are of the
//! constructor's types, gives a `List`. At a match the value has the type of the patterns, so the one that
//! matches binds values of its variables' types; and one does match, since matches are exhaustive.
//!
//! The conclusion says three things of each run, also of one that has no call left: a value at its end is of
//! the type that typing gives, each value that was built on the way is of the type that the log notes with
//! it, and both hold for an expression in any scope as for a whole call.
#![tactic(auto)]

mod numbers;

ghost use Rattle.rb_sound.specs.Soundness.{CallsRunTyped, ExpressionsRunTyped, OfTypedPrograms};
ghost use Rattle.rb_sound.specs.Words.{HasWords};

use rb_core::typed::{Covered, Typed};

/// A typed program with exhaustive matches keeps its types. A call that is done gives a value of
/// the result type, and an expression one of the type that typing gives it; whatever they build is
/// of the type that the log notes with it. A law's numbers have no bound, so it asks that those of
/// the program have at most 64 bits: of a program in memory [`typed_has_words`] says that.
pub fn typed_runs_end_typed()
    ensures calls { OfTypedPrograms CallsRunTyped }
    ensures expressions { OfTypedPrograms ExpressionsRunTyped }
{}

/// The numbers of a typed program in memory have at most 64 bits, patterns apart, as each is a
/// `u64`. So of the law [`typed_runs_end_typed`], taken at such a program, only that its matches are
/// exhaustive is left to show: that it is typed its getter says, and this is the last premise.
pub fn typed_has_words(typed: &Typed)
    ensures { HasWords typed.now }
{
    numbers::see_numbers(typed.program());
}

/// A program in memory that is typed and covered keeps its types, as any typed program with
/// exhaustive matches. Nothing is left to ask: its numbers are `u64`.
pub fn covered_runs_end_typed(covered: &Covered)
    ensures calls { CallsRunTyped covered.now.program }
    ensures expressions { ExpressionsRunTyped covered.now.program }
{
    numbers::see_numbers(covered.program());
    typed_runs_end_typed();
}
