//! The command `check`: it reads a file, and notes the clauses that no value reaches. A refusal is
//! the answer in place of the text: a status with its line, or want of memory.

ghost use Rattle.std.specs.Prelude.{◌≤◌, ℕ, length, IfOk, IfErr, Ok, [], ◌∷◌};
ghost use Rattle.rb_accept.specs.Reading.{ReadsInTurn, file_limit, source_of};
ghost use Rattle.rb_accept.specs.View.{IsAcceptance, handed_between};
ghost use Rattle.rb_command.specs.Command as spec;
ghost use Rattle.rb_lines.specs.Answer.{printed};
ghost use Rattle.rb_lines.specs.View.{IsRefusal, Meets};
ghost use Rattle.ribbit_tool.specs.Answers.{Owes};
ghost use Rattle.ribbit_tool.specs.Check.{ChecksFile};

use rb_accept::accepting::{Accepted, accept};
use rb_accept::reading::{FILE_LIMIT, read_within};
use rb_edge::source::Source;
use rb_lines::note::check_output;
use rb_lines::refusal::Refusal;
use std::alloc::{AllocError, Global};

// The text of `check` for the bytes of a file and what it was accepted as: a line for each clause
// that no value reaches, and `ok`. An error is want of memory.
fn check_accepted(alloc: Global, bytes: &[u8], accepted: &Accepted) -> Result<Vec<u8>, AllocError>
    requires { IsAcceptance bytes.now accepted.now }
    ensures { IfOk result (λ text. ChecksFile bytes.now (printed text.items 0)) }
{
    let placed = accepted.placed.as_slice();
    let notes = accepted.agreed.covered().notes();
    let text = check_output(alloc, placed, bytes.len(), notes)?;
    Ok(text)
}

// The text of `check` for the bytes of a file within the limit, or the file's refusal.
fn check_bytes(alloc: Global, bytes: &[u8]) -> Result<Vec<u8>, Refusal>
    requires { length bytes.now ≤ file_limit }
    ensures text { IfOk result (λ text. ChecksFile bytes.now (printed text.items 0)) }
    ensures refused { IfErr result (IsRefusal (ChecksFile bytes.now)) }
{
    let accepted = accept(alloc, bytes)?;
    let text = check_accepted(alloc, bytes, &accepted)?;
    Ok(text)
}

/// The notes on the clauses that no value reaches, and `ok`, for the file that the source has under
/// a name, where it is accepted.
///
/// # Errors
///
/// The answer to a file that is not read or not accepted; or want of memory.
pub fn check_file<S: Source>(alloc: Global, src: &mut S, file: &[u8]) -> Result<Vec<u8>, Refusal>
    ensures read { ReadsInTurn ((file.now, file_limit) ∷ [])
        (source_of S.tells S.held S.readings S.faults src.old src.new) }
    ensures owed { (steps : ℕ) → Meets
        (Owes (Ok (spec.check file.now)) (handed_between S.readings src.old src.new)) steps steps result }
{
    let bytes = read_within(alloc, src, file, FILE_LIMIT)?;
    check_bytes(alloc, bytes.as_slice())
}
