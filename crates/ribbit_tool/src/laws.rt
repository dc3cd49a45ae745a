//! Laws of code texts: what the command `exec` answers to them. They are proved, and nothing is
//! run.

ghost use Rattle.ribbit_tool.specs.Laws.{AreExecuted, CompiledTextsRun};

/// The text of valid code is executed as just that code: what `compile` prints does as `exec` what
/// it was made for.
pub fn texts_of_valid_code_are_executed()
    ensures { AreExecuted }
{}

/// The text of code that `compile` may write is executed as the source means: on words that
/// represent a function's arguments, `exec` shows words that represent the value, or the limit that
/// the source passes.
pub fn compiled_texts_do_as_the_source()
    ensures { CompiledTextsRun }
{}
