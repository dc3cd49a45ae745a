//! The law of command lines.

ghost use Rattle.rb_command.specs.Laws.{HaveOneMeaning};

/// Words are those of one command, or have one word at fault.
pub fn words_have_one_meaning()
    ensures { HaveOneMeaning }
{}
