//! The command `run`: a file is accepted, prepared and run. A prepared program has its code, and
//! the arguments of `main`. A refusal is the answer in place of the text: a status
//! with its line, or want of memory. The limits are the number of calls that the run may make,
//! and the address at which its region, the memory of the run, ends. A step is an instruction that
//! the run begins: each is added to `steps`. `agreed` is a program with its layouts.

ghost use Rattle.std.specs.Prelude.{◌≡◌, ◌≤◌, ◌+◌, ℕ, length, IfOk, IfErr, Ok, [], ◌∷◌};
ghost use Rattle.rb_accept.specs.Arguments.{IsMisfit, Spell};
ghost use Rattle.rb_accept.specs.Reading.{ReadsInTurn, file_limit, source_of};
ghost use Rattle.rb_accept.specs.View.{handed_between};
ghost use Rattle.rb_command.specs.Command as spec;
ghost use Rattle.rb_command.specs.View.{limits_view};
ghost use Rattle.rb_lines.specs.View.{IsRefusal, Meets};
ghost use Rattle.rb_run.specs.Answering.{meant_by};
ghost use Rattle.rb_show.specs.Lines as shown;
ghost use Rattle.rb_values.specs.Texts.{text_of};
ghost use Rattle.ribbit_tool.specs.Answers.{Owes};
ghost use Rattle.ribbit_tool.specs.Run.{IsPrepared, Runs, RunsFile, answer_due, value_line};

use crate::compile::code_of;
use rb_accept::accepting::accept;
use rb_accept::arguments::read_arguments;
use rb_accept::reading::{FILE_LIMIT, read_within};
use rb_command::limits::Limits;
use rb_core::program::Program;
use rb_core::seq::Seq;
use rb_core::types::{DataDecl, Ty};
use rb_edge::seq::Name;
use rb_edge::source::Source;
use rb_edge::steps::{Ledger, Steps};
use rb_layout::agreed::Agreed;
use rb_lines::argument::NODES;
use rb_lines::line;
use rb_lines::refusal::{Refusal, Refused};
use rb_lines::status::Status;
use rb_run::answer::{Answer, Bounds, answer_main, result_of_main};
use rb_target::code::Code;
use rb_values::forest::Forest;
use rb_values::print::print_value;
use std::alloc::{AllocError, Global};

/// What a run of `main` needs.
#[derive(Drop)]
pub struct Prepared {
    /// Code that does what the program means.
    pub code: Code,
    /// The arguments, one for each parameter of `main`.
    pub args: Seq<Forest>,
}

/// Prepares a program: its code, and the arguments that the words spell.
///
/// # Errors
///
/// The answer to words that spell no arguments of `main`; or want of memory.
pub fn prepare(alloc: Global, agreed: &Agreed, words: &[Name]) -> Result<Prepared, Refusal>
    ensures prepared { IfOk result (λ r. IsPrepared agreed.now r.code r.args) }
    ensures spelled { IfOk result (λ r. Spell agreed.now.covered.program words.now r.args) }
    ensures refused { IfErr result (IsRefusal (IsMisfit agreed.now.covered.program words.now)) }
{
    let code = code_of(alloc, agreed)?;
    let args = read_arguments(alloc, agreed.covered().program(), words)?;
    Ok(Prepared { code, args })
}

/// The text of a value of type `ty`, one of a program with these types, on a line.
///
/// # Errors
///
/// Want of memory.
pub(crate) fn show_at(
    alloc: Global,
    types: &[DataDecl],
    ty: Ty,
    value: &Forest,
) -> Result<Vec<u8>, AllocError>
    ensures { IfOk result (λ text. text.items ≡ shown.line (text_of types.now value.now ty)) }
{
    let text = print_value(alloc, types, ty, value)?;
    line::end(text)
}

/// The text of a value of the result type of `main`, on a line.
///
/// # Errors
///
/// Want of memory.
pub(crate) fn show_value(
    alloc: Global,
    program: &Program,
    value: &Forest,
) -> Result<Vec<u8>, AllocError>
    ensures { IfOk result (λ text. text.items ≡ value_line program.now value.now) }
{
    let ty = result_of_main(program);
    show_at(alloc, program.types.as_slice(), ty, value)
}

// The text of a run's answer, or the refusal in its place: `calls` is the limit that the run had.
fn show(alloc: Global, program: &Program, answer: &Answer, calls: u64) -> Result<Vec<u8>, Refusal>
    ensures { (before steps : ℕ) → Meets (λ due. due
        ≡ answer_due (value_line program.now) calls (meant_by answer.now) steps) before (before + steps) result }
{
    let (status, line) = match answer {
        Answer::Shown(value) => {
            let text = show_value(alloc, program, value)?;
            return Ok(text);
        }
        Answer::Spent => (Status::Spent, line::calls_spent(alloc, calls)?),
        Answer::Full(full) => (Status::Full, line::full(alloc, *full)?),
        Answer::TooLarge => (Status::TooLarge, line::large(alloc, NODES)?),
    };
    Err(Refusal::Refused(Refused { status, line }))
}

// Runs `main` of a prepared program over a fresh region: the text of its answer, or the refusal in
// its place.
fn run_prepared<L: Ledger>(
    alloc: Global,
    agreed: &Agreed,
    prepared: &Prepared,
    limits: Limits,
    steps: &mut Steps<L>,
) -> Result<Vec<u8>, Refusal>
    requires { IsPrepared agreed.now prepared.now.code prepared.now.args }
    ensures { Meets (Runs agreed.now prepared.now.code prepared.now.args
        (limits_view limits)) steps.old.taken steps.new.taken result }
{
    let bounds = Bounds {
        calls: limits.calls,
        region: limits.region,
        nodes: NODES,
    };
    let args = prepared.args.as_slice();
    let answer = answer_main(alloc, agreed, &prepared.code, args, bounds, steps)?;
    show(alloc, agreed.covered().program(), &answer, limits.calls)
}

// The text of `run` for the bytes of a file within the limit and words that spell the arguments of
// `main`, or the refusal in its place.
fn run_bytes<L: Ledger>(
    alloc: Global,
    bytes: &[u8],
    limits: Limits,
    words: &[Name],
    steps: &mut Steps<L>,
) -> Result<Vec<u8>, Refusal>
    requires { length bytes.now ≤ file_limit }
    ensures { Meets (RunsFile (limits_view limits) words.now bytes.now) steps.old.taken steps.new.taken result }
{
    let accepted = accept(alloc, bytes)?;
    let prepared = prepare(alloc, &accepted.agreed, words)?;
    run_prepared(alloc, &accepted.agreed, &prepared, limits, steps)
}

/// The text of `run` for the file that the source has under a name: the value of its `main` on the
/// values that these words spell, within limits.
///
/// # Errors
///
/// The answer to a file that is not read or not accepted, to words that spell no arguments, and to
/// a run that passes a limit; or want of memory.
pub fn run_file<S: Source, L: Ledger>(
    alloc: Global,
    src: &mut S,
    file: &[u8],
    limits: Limits,
    values: &[Name],
    steps: &mut Steps<L>,
) -> Result<Vec<u8>, Refusal>
    ensures read { ReadsInTurn ((file.now, file_limit) ∷ [])
        (source_of S.tells S.held S.readings S.faults src.old src.new) }
    ensures owed { Meets
        (Owes (Ok (spec.run file.now (limits_view limits) values.now)) (handed_between S.readings src.old src.new))
        steps.old.taken steps.new.taken result }
{
    let bytes = read_within(alloc, src, file, FILE_LIMIT)?;
    run_bytes(alloc, bytes.as_slice(), limits, values, steps)
}
