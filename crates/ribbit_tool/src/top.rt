//! The top call: the words of a command line are parsed to a command, the files that it names are
//! read from the source, and the answer goes to the sinks. An answer is a text that is printed, or
//! a refusal: a status with its line, or want of memory. A step is an instruction that a run
//! begins: each is added to `steps`. Of the sinks `out` takes texts, and `err` lines.

ghost use Rattle.std.specs.Prelude.{◌≡◌, IfOk, Ok};
ghost use Rattle.rb_accept.specs.Reading.{ReadsInTurn, source_of};
ghost use Rattle.rb_accept.specs.View.{handed_between};
ghost use Rattle.rb_command.specs.View.{command_view};
ghost use Rattle.rb_lines.specs.Answer.{refusal};
ghost use Rattle.rb_lines.specs.Delivery.{change};
ghost use Rattle.rb_lines.specs.Lines.{usage_line};
ghost use Rattle.rb_lines.specs.View.{due_of, Meets};
ghost use Rattle.rb_lines.specs.declared.status.Status.TheVariants as status;
ghost use Rattle.ribbit_tool.specs.Answers.{Owes, files_of};
ghost use Rattle.ribbit_tool.specs.Headline.{GivesHeld, Headline};
ghost use Rattle.ribbit_tool.specs.Headlines.{CompileHeadline, CountHeadline, GenerateHeadline, ImageHeadline};
ghost use Rattle.ribbit_tool.specs.Promise.{Performs, IsPromised};
ghost use Rattle.ribbit_tool.specs.inner.Composing.{Composes};

use crate::check::check_file;
use crate::compile::compile_file;
use crate::count::count_file;
use crate::exec::run_code_file;
use crate::generate::{count_generated, generate_file};
use crate::image::image_file;
use crate::layout::layout_file;
use crate::peek::peek_file;
use crate::run::run_file;
use crate::value::value_file;
use rb_command::command::{Command, CommandFault, parse};
use rb_edge::seq::Name;
use rb_edge::sink::Sink;
use rb_edge::source::Source;
use rb_edge::steps::{Ledger, Steps};
use rb_edge::words::Words;
use rb_lines::delivery::{print, refuse};
use rb_lines::line::{self, NO_MEMORY};
use rb_lines::refusal::{Refusal, Refused};
use rb_lines::status::Status;
use std::alloc::{AllocError, Global};

// The text of a command, for which the files that it names are read; or the refusal in its place.
fn obey<S: Source, L: Ledger>(
    alloc: Global,
    command: &Command,
    src: &mut S,
    steps: &mut Steps<L>,
) -> Result<Vec<u8>, Refusal>
    ensures read { ReadsInTurn (files_of (Ok (command_view command.now)))
        (source_of S.tells S.held S.readings S.faults src.old src.new) }
    ensures owed { Meets (Owes (Ok (command_view command.now)) (handed_between S.readings src.old src.new))
        steps.old.taken steps.new.taken result }
{
    match command {
        Command::Check { file } => check_file(alloc, src, file),
        Command::Layout { file } => layout_file(alloc, src, file),
        Command::Compile { file } => compile_file(alloc, src, file),
        Command::Run {
            file,
            limits,
            values,
        } => run_file(alloc, src, file, *limits, values, steps),
        Command::Image {
            file,
            limits,
            values,
        } => image_file(alloc, src, file, *limits, values, steps),
        Command::Count {
            file,
            limits,
            values,
        } => count_file(alloc, src, file, *limits, values, steps),
        Command::Gen { functions } => generate_file(alloc, *functions),
        Command::GenRun { functions, limits } => {
            count_generated(alloc, *functions, *limits, steps)
        }
        Command::Exec {
            code,
            function,
            limits,
            words,
        } => run_code_file(alloc, src, code, function, *limits, words.as_slice(), steps),
        Command::Value { file, image } => value_file(alloc, src, file, image),
        Command::Peek { file, image, path } => {
            peek_file(alloc, src, file, image, path.as_slice())
        }
    }
}

// The refusal of words that are no command, by the number of the first word at fault. An error is
// want of memory.
fn refuse_words(alloc: Global, word: usize) -> Result<Refused, AllocError>
    ensures { IfOk result (λ c. due_of c ≡ refusal status.Usage (usage_line word)) }
{
    let line = line::usage(alloc, word as u64)?;
    Ok(Refused {
        status: Status::Usage,
        line,
    })
}

// The text for the words of a command line, of which nothing is written yet; or the refusal in its
// place.
fn compose<S: Source, L: Ledger>(
    alloc: Global,
    words: &[Name],
    src: &mut S,
    steps: &mut Steps<L>,
) -> Result<Vec<u8>, Refusal>
    ensures { Composes words.now
        (source_of S.tells S.held S.readings S.faults src.old src.new)
        (record { before = steps.old.taken; now = steps.new.taken }) result }
{
    match parse(alloc, words) {
        Ok(command) => obey(alloc, &command, src, steps),
        Err(CommandFault::Usage(word)) => {
            let refused = refuse_words(alloc, word)?;
            Err(Refusal::Refused(refused))
        }
        Err(CommandFault::Memory) => Err(Refusal::Memory),
    }
}

// Composes the answer to the words of a command line and delivers it: gives the status that is
// right for it, or that of a sink that failed.
fn answer<S: Source, O: Sink, E: Sink, L: Ledger>(
    alloc: Global,
    words: &[Name],
    src: &mut S,
    out: &mut O,
    err: &mut E,
    steps: &mut Steps<L>,
) -> u8
    ensures { Performs words.now (source_of S.tells S.held S.readings S.faults src.old src.new)
        (change O.tells O.taken O.account O.faults out.old out.new)
        (change E.tells E.taken E.account E.faults err.old err.new)
        (record { before = steps.old.taken; now = steps.new.taken }) result }
{
    match compose(alloc, words, src, steps) {
        Ok(text) => print(text.as_slice(), out, err),
        Err(Refusal::Refused(refused)) => refuse(refused.status, refused.line.as_slice(), out, err),
        Err(Refusal::Memory) => refuse(Status::NoMemory, NO_MEMORY, out, err),
    }
}

/// The whole program: from the words of a command line, the files of a source, two sinks and a
/// counter of steps to a status. The text of status 0 goes to `out`, the line of any other to
/// `err`; nothing is written before the text is whole.
pub fn ribbit<S: Source, O: Sink, E: Sink, L: Ledger>(
    alloc: Global,
    words: &Words,
    src: &mut S,
    out: &mut O,
    err: &mut E,
    steps: &mut Steps<L>,
) -> u8
    // What was due, and how it was delivered.
    ensures performs { Performs words.now (source_of S.tells S.held S.readings S.faults src.old src.new)
        (change O.tells O.taken O.account O.faults out.old out.new)
        (change E.tells E.taken E.account E.faults err.old err.new)
        (record { before = steps.old.taken; now = steps.new.taken }) result }
    // The headline, where the file gave bytes that are accepted: the value of the source's meaning,
    // or the limit that it passes.
    ensures headline { Headline words.now
        (source_of S.tells S.held S.readings S.faults src.old src.new)
        (change O.tells O.taken O.account O.faults out.old out.new)
        (change E.tells E.taken E.account E.faults err.old err.new) result }
    // The other half of the headline: the text of code that does the same for all arguments that
    // words represent, in any good memory, and never traps.
    ensures compile { CompileHeadline words.now
        (source_of S.tells S.held S.readings S.faults src.old src.new)
        (change O.tells O.taken O.account O.faults out.old out.new)
        (change E.tells E.taken E.account E.faults err.old err.new) result }
    // Where a source tells that it holds a file, the file gave the bytes that are held.
    ensures held { GivesHeld words.now
        (source_of S.tells S.held S.readings S.faults src.old src.new)
        (change O.tells O.taken O.account O.faults out.old out.new)
        (change E.tells E.taken E.account E.faults err.old err.new) result }
    // The image of that value, with just the blocks that are asked for.
    ensures image { ImageHeadline words.now
        (source_of S.tells S.held S.readings S.faults src.old src.new)
        (change O.tells O.taken O.account O.faults out.old out.new)
        (change E.tells E.taken E.account E.faults err.old err.new) result }
    // That value, and what the run did.
    ensures count { CountHeadline words.now
        (source_of S.tells S.held S.readings S.faults src.old src.new)
        (change O.tells O.taken O.account O.faults out.old out.new)
        (change E.tells E.taken E.account E.faults err.old err.new) result }
    // The generated file, and what its run did.
    ensures generate { GenerateHeadline words.now
        (change O.tells O.taken O.account O.faults out.old out.new)
        (change E.tells E.taken E.account E.faults err.old err.new) result }
    // For all words and files, with faults of the source and the sinks: which status, text and
    // steps come.
    ensures right { IsPromised words.now (source_of S.tells S.held S.readings S.faults src.old src.new)
        (change O.tells O.taken O.account O.faults out.old out.new)
        (change E.tells E.taken E.account E.faults err.old err.new)
        (record { before = steps.old.taken; now = steps.new.taken }) result }
{
    answer(alloc, words.as_slice(), src, out, err, steps)
}
