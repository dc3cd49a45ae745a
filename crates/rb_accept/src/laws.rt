//! Laws of files that are accepted. Each function does nothing: the law is its contract. A text is
//! the bytes of a file. It is accepted where it is the file of a program that is typed, whose
//! matches are exhaustive and whose layouts agree. It is refused where one of the steps on the way
//! there, from its tokens to its layouts, finds a fault.

ghost use Rattle.rb_accept.specs.Laws.{HaveNoRefusal, HaveOneCut, HaveOneProgram, HaveOneTree};

/// A text has one list of tokens at most, and then neither a bad byte nor a number that is too wide.
pub fn texts_have_one_cut()
    ensures { HaveOneCut }
{}

/// Tokens are the file of one tree at most.
pub fn tokens_have_one_tree()
    ensures { HaveOneTree }
{}

/// A text is the file of one accepted program at most.
pub fn texts_have_one_program()
    ensures { HaveOneProgram }
{}

/// A text that is accepted is refused at no step.
pub fn accepted_texts_have_no_refusal()
    ensures { HaveNoRefusal }
{}
