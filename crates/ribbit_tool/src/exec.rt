//! The command `exec`: a function of a code text is run on words, numbers of 64 bits. A refusal is
//! the answer in place of the text: a status with its line, or want of memory. The limits are
//! the number of calls that the run may make, and the address at which its region, the memory of
//! the run, ends. A step is an instruction that the run begins: each is added to `steps`. Functions
//! are numbered from 0.

ghost use Rattle.std.specs.Prelude.{◌≡◌, ◌≢◌, ◌<◌, ◌+◌, ℕ, length, IfOk, IfSome, Ok, slice_get, [], ◌∷◌};
ghost use Rattle.rb_accept.specs.Reading.{ReadsInTurn, code_limit, source_of};
ghost use Rattle.rb_accept.specs.View.{handed_between};
ghost use Rattle.rb_bytes.specs.Memory.{empty_memory};
ghost use Rattle.rb_command.specs.Command as spec;
ghost use Rattle.rb_command.specs.View.{limits_view};
ghost use Rattle.rb_lines.specs.Answer.{refusal};
ghost use Rattle.rb_lines.specs.Lines.{code_line, words_line};
ghost use Rattle.rb_lines.specs.View.{due_of, Meets};
ghost use Rattle.rb_lines.specs.declared.status.Status.TheVariants as status;
ghost use Rattle.rb_machine.specs.Runs.{params_in};
ghost use Rattle.rb_target.specs.Meaning.{run_of};
ghost use Rattle.rb_target.specs.declared.fault.CodeFault.TheVariants.{Memory};
ghost use Rattle.ribbit_tool.specs.Answers.{Owes};
ghost use Rattle.ribbit_tool.specs.Exec.{Executes, call_due, end_due, exec_due, fun_named, outcome_due};

use rb_accept::reading::{CODE_LIMIT, read_within};
use rb_bytes::checked::CheckedMemory;
use rb_command::limits::Limits;
use rb_edge::source::Source;
use rb_edge::steps::{Ledger, Steps};
use rb_lines::line;
use rb_lines::refusal::{Refusal, Refused};
use rb_lines::status::Status;
use rb_machine::run::run;
use rb_target::code::{Code, CodeFun};
use rb_target::fault::CodeFault;
use rb_target::outcome::End;
use rb_target::read::read_code;
use std::alloc::{AllocError, Global};

// The text of a run's end, the words that it returned, or the refusal in its place: `calls` is the
// limit that the run had.
fn show(alloc: Global, end: &End, calls: u64) -> Result<Vec<u8>, Refusal>
    ensures { (before steps : ℕ) → Meets (λ due. due ≡ end_due words_line calls end.now steps) before
        (before + steps) result }
{
    let (status, line) = match end {
        End::Returned { words, .. } => {
            let text = line::words(alloc, words.as_slice())?;
            return Ok(text);
        }
        End::Spent => (Status::Spent, line::calls_spent(alloc, calls)?),
        End::Full(full) => (Status::Full, line::full(alloc, *full)?),
        End::Trapped(trap) => (Status::Trap, line::trap(alloc, *trap)?),
    };
    Err(Refusal::Refused(Refused { status, line }))
}

// The number of the first function of this name; None where no function has it.
fn find(funs: &[CodeFun], name: &[u8]) -> Option<usize>
    ensures value { result ≡ fun_named funs.now name.now }
    ensures within { IfSome result (λ f. f < length funs.now) }
{
    funs.iter().position(|fun| fun.name.as_slice() == name)
}

// Runs the function of this number on these words, as many as it takes, over an empty memory.
fn run_words<L: Ledger>(
    alloc: Global,
    code: &Code,
    number: usize,
    limits: Limits,
    words: &[u64],
    steps: &mut Steps<L>,
) -> Result<Vec<u8>, Refusal>
    requires known { number < length code.now }
    requires many { length words.now ≡ params_in (slice_get code.now number) }
    ensures { Meets (λ due. due ≡ outcome_due
        (run_of code.now limits.calls number words.now (empty_memory limits.region)) limits.calls)
        steps.old.taken steps.new.taken result }
{
    let mut memory = CheckedMemory::new(alloc, limits.region)?;
    let ran = run(alloc, code, number, words, &mut memory, limits.calls, steps)?;
    show(alloc, &ran.end, limits.calls)
}

// Runs the function of this number on these words, or refuses them where it takes more or fewer.
fn run_fun<L: Ledger>(
    alloc: Global,
    code: &Code,
    number: usize,
    limits: Limits,
    words: &[u64],
    steps: &mut Steps<L>,
) -> Result<Vec<u8>, Refusal>
    requires { number < length code.now }
    ensures { Meets (λ due. due ≡ call_due code.now
        (limits_view limits) words.now number) steps.old.taken steps.new.taken result }
{
    let wanted = code.funs()[number].params;
    if words.len() != wanted {
        let line = line::count(alloc, wanted as u64, words.len() as u64)?;
        return Err(Refusal::Refused(Refused {
            status: Status::Argument,
            line,
        }));
    }
    run_words(alloc, code, number, limits, words, steps)
}

// Runs the code's first function of this name on these words, or refuses the name where there is
// none.
fn run_named<L: Ledger>(
    alloc: Global,
    code: &Code,
    name: &[u8],
    limits: Limits,
    words: &[u64],
    steps: &mut Steps<L>,
) -> Result<Vec<u8>, Refusal>
    ensures { Meets (λ due. due ≡ exec_due code.now name.now
        (limits_view limits) words.now) steps.old.taken steps.new.taken result }
{
    match find(code.funs(), name) {
        None => {
            let line = line::no_function(alloc, name)?;
            Err(Refusal::Refused(Refused {
                status: Status::Argument,
                line,
            }))
        }
        Some(number) => run_fun(alloc, code, number, limits, words, steps),
    }
}

// The refusal of bytes that are no valid code, by their fault. An error is want of memory, where
// that is the fault too.
fn refuse_code(alloc: Global, fault: CodeFault) -> Result<Refused, AllocError>
    ensures fault { IfOk result (λ c. fault ≢ Memory) }
    ensures due { IfOk result (λ c. due_of c ≡ refusal status.Code (code_line fault)) }
{
    if matches!(fault, CodeFault::Memory) {
        return Err(AllocError);
    }
    let line = line::code(alloc, fault)?;
    Ok(Refused {
        status: Status::Code,
        line,
    })
}

// The text of a run of the function of this name of a code text on these words, or the refusal in
// its place.
fn run_code<L: Ledger>(
    alloc: Global,
    bytes: &[u8],
    function: &[u8],
    limits: Limits,
    words: &[u64],
    steps: &mut Steps<L>,
) -> Result<Vec<u8>, Refusal>
    ensures { Meets
        (Executes function.now (limits_view limits) words.now bytes.now) steps.old.taken steps.new.taken result }
{
    match read_code(alloc, bytes) {
        Ok(code) => run_named(alloc, &code, function, limits, words, steps),
        Err(fault) => {
            let refused = refuse_code(alloc, fault)?;
            Err(Refusal::Refused(refused))
        }
    }
}

/// The text of `exec` for the code text that the source has under the name `code`: the words that
/// its first function of this name returns on these words, within limits.
///
/// # Errors
///
/// The answer to a code text that is not read or not valid, to a function that is not there or
/// takes other arguments, and to a run that is trapped or passes a limit; or want of memory.
pub fn run_code_file<S: Source, L: Ledger>(
    alloc: Global,
    src: &mut S,
    code: &[u8],
    function: &[u8],
    limits: Limits,
    words: &[u64],
    steps: &mut Steps<L>,
) -> Result<Vec<u8>, Refusal>
    ensures read { ReadsInTurn ((code.now, code_limit) ∷ [])
        (source_of S.tells S.held S.readings S.faults src.old src.new) }
    ensures owed { Meets
        (Owes (Ok (spec.exec code.now function.now (limits_view limits) words.now))
        (handed_between S.readings src.old src.new))
        steps.old.taken steps.new.taken result }
{
    let bytes = read_within(alloc, src, code, CODE_LIMIT)?;
    run_code(alloc, bytes.as_slice(), function, limits, words, steps)
}
