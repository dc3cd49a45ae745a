//! The command `layout`: it reads a file, and shows the flat form of each layout, in which each
//! case of the type has its words and its blocks written out. A refusal is the answer in place of
//! the text: a status with its line, or want of memory.

ghost use Rattle.std.specs.Prelude.{◌≤◌, ℕ, length, IfOk, IfErr, Ok, [], ◌∷◌};
ghost use Rattle.rb_accept.specs.Reading.{ReadsInTurn, file_limit, source_of};
ghost use Rattle.rb_accept.specs.View.{handed_between};
ghost use Rattle.rb_command.specs.Command as spec;
ghost use Rattle.rb_lines.specs.Answer.{printed};
ghost use Rattle.rb_lines.specs.View.{IsRefusal, Meets};
ghost use Rattle.ribbit_tool.specs.Answers.{Owes};
ghost use Rattle.ribbit_tool.specs.Layout.{LaysOutFile};

use rb_accept::accepting::accept;
use rb_accept::reading::{FILE_LIMIT, read_within};
use rb_edge::source::Source;
use rb_lines::refusal::Refusal;
use rb_show::show::show_layouts;
use std::alloc::Global;

// The text of `layout` for the bytes of a file within the limit, or the file's refusal.
fn layout_bytes(alloc: Global, bytes: &[u8]) -> Result<Vec<u8>, Refusal>
    requires { length bytes.now ≤ file_limit }
    ensures text { IfOk result (λ text. LaysOutFile bytes.now (printed text.items 0)) }
    ensures refused { IfErr result (IsRefusal (LaysOutFile bytes.now)) }
{
    let accepted = accept(alloc, bytes)?;
    let text = show_layouts(alloc, &accepted.agreed)?;
    Ok(text)
}

/// The flat forms of the layouts of the file that the source has under a name, where it is
/// accepted.
///
/// # Errors
///
/// The answer to a file that is not read or not accepted; or want of memory.
pub fn layout_file<S: Source>(alloc: Global, src: &mut S, file: &[u8]) -> Result<Vec<u8>, Refusal>
    ensures read { ReadsInTurn ((file.now, file_limit) ∷ [])
        (source_of S.tells S.held S.readings S.faults src.old src.new) }
    ensures owed { (steps : ℕ) → Meets
        (Owes (Ok (spec.layout file.now)) (handed_between S.readings src.old src.new)) steps steps result }
{
    let bytes = read_within(alloc, src, file, FILE_LIMIT)?;
    layout_bytes(alloc, bytes.as_slice())
}
