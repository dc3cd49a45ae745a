//! The command `image`: the words of a run's value, and the blocks of the memory that it left.
//! These are an image of the value, which the words represent with what is in the blocks. A refusal
//! is the answer in place of the text: a status with its line, or want of memory. The limits
//! are the number of calls that the run may make, and the address at which its region, the memory
//! of the run, ends. A step is an instruction that the run begins: each is added to `steps`.
//! `agreed` is a program with its layouts.

ghost use Rattle.std.specs.Prelude.{◌≡◌, ◌≤◌, ◌+◌, ℕ, length, Ok, [], ◌∷◌};
ghost use Rattle.rb_accept.specs.Reading.{ReadsInTurn, file_limit, source_of};
ghost use Rattle.rb_accept.specs.View.{handed_between};
ghost use Rattle.rb_bytes.specs.Memory.{IsGood};
ghost use Rattle.rb_command.specs.Command as spec;
ghost use Rattle.rb_command.specs.View.{limits_view};
ghost use Rattle.rb_image_text.specs.MemoryImages.{memory_image};
ghost use Rattle.rb_image_text.specs.Text.{image_text};
ghost use Rattle.rb_lines.specs.View.{Meets};
ghost use Rattle.rb_run.specs.Calling.{IsEndOf};
ghost use Rattle.ribbit_tool.specs.Answers.{Owes};
ghost use Rattle.ribbit_tool.specs.Exec.{end_due};
ghost use Rattle.ribbit_tool.specs.Image.{Images, ImagesFile};
ghost use Rattle.ribbit_tool.specs.Run.{IsPrepared};

use crate::run::{Prepared, prepare};
use rb_accept::accepting::accept;
use rb_accept::reading::{FILE_LIMIT, read_within};
use rb_bytes::checked::CheckedMemory;
use rb_command::limits::Limits;
use rb_edge::seq::Name;
use rb_edge::source::Source;
use rb_edge::steps::{Ledger, Steps};
use rb_layout::agreed::Agreed;
use rb_lines::image_text::image;
use rb_lines::line;
use rb_lines::refusal::{Refusal, Refused};
use rb_lines::status::Status;
use rb_run::call::call_main;
use rb_target::outcome::End;
use std::alloc::Global;

// The text of the end of a call of `main` over the memory that it left, or the refusal in its
// place: `calls` is the limit that the call had. No such call is trapped.
fn show(
    alloc: Global,
    agreed: &Agreed,
    end: &End,
    memory: &CheckedMemory,
    calls: u64,
) -> Result<Vec<u8>, Refusal>
    requires good { IsGood memory.now }
    requires ended { IsEndOf agreed.now end.now memory.now }
    ensures { (before steps : ℕ) → Meets (λ due. due
        ≡ end_due (λ words. image_text (memory_image words memory.now)) calls end.now steps)
        before (before + steps) result }
{
    let (status, line) = match end {
        End::Returned { words, .. } => {
            let text = image(alloc, words.as_slice(), memory)?;
            return Ok(text);
        }
        End::Spent => (Status::Spent, line::calls_spent(alloc, calls)?),
        End::Full(full) => (Status::Full, line::full(alloc, *full)?),
        End::Trapped(_) => unreachable!(),
    };
    Err(Refusal::Refused(Refused { status, line }))
}

// Runs `main` over a fresh region whose accesses are tested: the text of the image of its value, or
// the refusal in its place.
fn image_prepared<L: Ledger>(
    alloc: Global,
    agreed: &Agreed,
    prepared: &Prepared,
    limits: Limits,
    steps: &mut Steps<L>,
) -> Result<Vec<u8>, Refusal>
    requires { IsPrepared agreed.now prepared.now.code prepared.now.args }
    ensures { Meets (Images agreed.now prepared.now.code prepared.now.args
        (limits_view limits)) steps.old.taken steps.new.taken result }
{
    let mut memory = CheckedMemory::new(alloc, limits.region)?;
    let args = prepared.args.as_slice();
    let code = &prepared.code;
    let ran = call_main(alloc, agreed, code, args, &mut memory, limits.calls, steps)?;
    show(alloc, agreed, &ran.end, &memory, limits.calls)
}

// The text of `image` for the bytes of a file within the limit and words that spell the arguments
// of `main`, or the refusal in its place.
fn image_bytes<L: Ledger>(
    alloc: Global,
    bytes: &[u8],
    limits: Limits,
    words: &[Name],
    steps: &mut Steps<L>,
) -> Result<Vec<u8>, Refusal>
    requires { length bytes.now ≤ file_limit }
    ensures { Meets (ImagesFile (limits_view limits) words.now bytes.now) steps.old.taken steps.new.taken result }
{
    let accepted = accept(alloc, bytes)?;
    let prepared = prepare(alloc, &accepted.agreed, words)?;
    image_prepared(alloc, &accepted.agreed, &prepared, limits, steps)
}

/// The text of `image` for the file that the source has under a name: the words and the blocks of
/// the value of its `main` on the values that these words spell, within limits.
///
/// # Errors
///
/// The answer to a file that is not read or not accepted, to words that spell no arguments, and to
/// a run that passes a limit; or want of memory.
pub fn image_file<S: Source, L: Ledger>(
    alloc: Global,
    src: &mut S,
    file: &[u8],
    limits: Limits,
    values: &[Name],
    steps: &mut Steps<L>,
) -> Result<Vec<u8>, Refusal>
    ensures read { ReadsInTurn ((file.now, file_limit) ∷ [])
        (source_of S.tells S.held S.readings S.faults src.old src.new) }
    ensures owed { Meets
        (Owes (Ok (spec.image file.now (limits_view limits) values.now)) (handed_between S.readings src.old src.new))
        steps.old.taken steps.new.taken result }
{
    let bytes = read_within(alloc, src, file, FILE_LIMIT)?;
    image_bytes(alloc, bytes.as_slice(), limits, values, steps)
}
