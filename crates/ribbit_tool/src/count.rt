//! The command `count`: the value of a run, and what the run did, its tally. A refusal is the
//! answer in place of the text: a status with its line, or want of memory. The limits are the
//! number of calls that the run may make, and the address at which its region, the memory of the
//! run, ends. A step is an instruction that the run begins: each is added to `steps`. `agreed` is a
//! program with its layouts.

ghost use Rattle.std.specs.Prelude.{◌≡◌, ◌≤◌, ◌+◌, ◌++◌, ℕ, length, IfOk, OnOk, Ok, [], ◌∷◌};
ghost use Rattle.rb_accept.specs.Reading.{ReadsInTurn, file_limit, source_of};
ghost use Rattle.rb_accept.specs.View.{handed_between};
ghost use Rattle.rb_command.specs.Command as spec;
ghost use Rattle.rb_command.specs.View.{limits_view};
ghost use Rattle.rb_lines.specs.View.{Meets};
ghost use Rattle.rb_run.specs.Answering.{meant_by};
ghost use Rattle.ribbit_tool.specs.Answers.{Owes};
ghost use Rattle.ribbit_tool.specs.Count.{Counts, CountsFile, count_text, number_line};
ghost use Rattle.ribbit_tool.specs.Run.{IsPrepared, answer_due};

use crate::run::{Prepared, prepare, show_value};
use rb_accept::accepting::accept;
use rb_accept::reading::{FILE_LIMIT, read_within};
use rb_command::limits::Limits;
use rb_core::program::Program;
use rb_core::text::push;
use rb_edge::seq::Name;
use rb_edge::source::Source;
use rb_edge::steps::{Ledger, Steps};
use rb_layout::agreed::Agreed;
use rb_lines::argument::NODES;
use rb_lines::line;
use rb_lines::refusal::{Refusal, Refused};
use rb_lines::status::Status;
use rb_run::answer::{Answer, Bounds};
use rb_run::count::{Counted, Tally, count_main};
use rb_values::forest::Forest;
use std::alloc::{AllocError, Global};

// A line with a count behind its name. An error is want of memory.
fn number(alloc: Global, name: &str, count: u128) -> Result<Vec<u8>, AllocError>
    ensures { IfOk result (λ text. text.items ≡ number_line name.now count) }
{
    Ok(format!(in alloc; "{name} {count}\n")?.into_bytes())
}

// Adds a line with a count behind its name to the text so far.
fn push_line(alloc: Global, text: &mut Vec<u8>, name: &str, count: u128) -> Result<(), AllocError>
    ensures { OnOk result (text.new.items ≡ text.old.items ++ number_line name.now count) }
{
    let line = number(alloc, name, count)?;
    push(text, line.as_slice())
}

// The text of a value of the result type of `main`, and of what its run did. An error is want of
// memory.
fn counts(
    alloc: Global,
    program: &Program,
    value: &Forest,
    tally: Tally,
) -> Result<Vec<u8>, AllocError>
    ensures { IfOk result (λ text. text.items ≡ count_text program.now tally value.now) }
{
    let shown = show_value(alloc, program, value)?;
    let mut text = Vec::from_slice(alloc, b"value ")?;
    push(&mut text, shown.as_slice())?;
    push_line(alloc, &mut text, "calls", u128::from(tally.calls))?;
    push_line(alloc, &mut text, "switches", tally.switches)?;
    push_line(alloc, &mut text, "blocks", u128::from(tally.blocks))?;
    push_line(alloc, &mut text, "bytes", u128::from(tally.bytes))?;
    Ok(text)
}

// The text of a run's answer and of its counts, or the refusal in its place: `calls` is the limit
// that the run had.
fn show(alloc: Global, program: &Program, counted: &Counted, calls: u64) -> Result<Vec<u8>, Refusal>
    ensures { (before steps : ℕ) → Meets (λ due. due
        ≡ answer_due (count_text program.now counted.now.tally) calls (meant_by counted.now.answer) steps) before
        (before + steps) result }
{
    let (status, line) = match &counted.answer {
        Answer::Shown(value) => {
            let text = counts(alloc, program, value, counted.tally)?;
            return Ok(text);
        }
        Answer::Spent => (Status::Spent, line::calls_spent(alloc, calls)?),
        Answer::Full(full) => (Status::Full, line::full(alloc, *full)?),
        Answer::TooLarge => (Status::TooLarge, line::large(alloc, NODES)?),
    };
    Err(Refusal::Refused(Refused { status, line }))
}

// Runs `main` of a prepared program over a fresh region: the text of its value and of what the run
// did, or the refusal in its place.
fn count_prepared<L: Ledger>(
    alloc: Global,
    agreed: &Agreed,
    prepared: &Prepared,
    limits: Limits,
    steps: &mut Steps<L>,
) -> Result<Vec<u8>, Refusal>
    requires { IsPrepared agreed.now prepared.now.code prepared.now.args }
    ensures { Meets (Counts agreed.now prepared.now.code prepared.now.args
        (limits_view limits)) steps.old.taken steps.new.taken result }
{
    let bounds = Bounds {
        calls: limits.calls,
        region: limits.region,
        nodes: NODES,
    };
    let args = prepared.args.as_slice();
    let counted = count_main(alloc, agreed, &prepared.code, args, bounds, steps)?;
    show(alloc, agreed.covered().program(), &counted, limits.calls)
}

/// The text of `count` for the bytes of a file within the limit: the value of its `main` on the
/// values that the words spell, and what its run did.
///
/// # Errors
///
/// The answer to a file that is not accepted, to words that spell no arguments, and to a run that
/// passes a limit; or want of memory.
pub(crate) fn count_bytes<L: Ledger>(
    alloc: Global,
    bytes: &[u8],
    limits: Limits,
    words: &[Name],
    steps: &mut Steps<L>,
) -> Result<Vec<u8>, Refusal>
    requires { length bytes.now ≤ file_limit }
    ensures { Meets (CountsFile (limits_view limits) words.now bytes.now) steps.old.taken steps.new.taken result }
{
    let accepted = accept(alloc, bytes)?;
    let prepared = prepare(alloc, &accepted.agreed, words)?;
    count_prepared(alloc, &accepted.agreed, &prepared, limits, steps)
}

/// The text of `count` for the file that the source has under a name: the value of its `main` on
/// the values that these words spell, within limits, and what its run did.
///
/// # Errors
///
/// The answer to a file that is not read or not accepted, to words that spell no arguments, and to
/// a run that passes a limit; or want of memory.
pub fn count_file<S: Source, L: Ledger>(
    alloc: Global,
    src: &mut S,
    file: &[u8],
    limits: Limits,
    values: &[Name],
    steps: &mut Steps<L>,
) -> Result<Vec<u8>, Refusal>
    ensures read { ReadsInTurn ((file.now, file_limit) ∷ [])
        (source_of S.tells S.held S.readings S.faults src.old src.new) }
    ensures owed { Meets
        (Owes (Ok (spec.count file.now (limits_view limits) values.now)) (handed_between S.readings src.old src.new))
        steps.old.taken steps.new.taken result }
{
    let bytes = read_within(alloc, src, file, FILE_LIMIT)?;
    count_bytes(alloc, bytes.as_slice(), limits, values, steps)
}
