//! Laws of reading, each the contract of a function that does nothing.

ghost use Rattle.rb_values.specs.Laws.{AnswersOnce, ReadsBack};

/// A text at a type within a limit has one answer, want of memory aside.
pub fn answers_once()
    ensures { AnswersOnce }
{}

/// The text of a value of a type is read as that value again, where its nodes, the numbers and
/// constructors in it, are within the limit.
pub fn printed_is_read_back()
    ensures { ReadsBack }
{}
