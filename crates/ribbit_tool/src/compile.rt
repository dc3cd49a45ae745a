//! Code for accepted files, and the command `compile`. A refusal is the answer in place of the
//! text: a status with its line, or want of memory. A switch is an instruction that goes on by
//! the value of some bits.

ghost use Rattle.std.specs.Prelude.{◌≤◌, ℕ, length, IfOk, IfErr, Ok, [], ◌∷◌};
ghost use Rattle.rb_accept.specs.Reading.{ReadsInTurn, file_limit, source_of};
ghost use Rattle.rb_accept.specs.View.{handed_between};
ghost use Rattle.rb_command.specs.Command as spec;
ghost use Rattle.rb_lines.specs.Answer.{printed};
ghost use Rattle.rb_lines.specs.View.{IsRefusal, Meets};
ghost use Rattle.ribbit_tool.specs.Answers.{Owes};
ghost use Rattle.ribbit_tool.specs.Compiling.{CompilesFile, IsCompiled};

use rb_accept::accepting::accept;
use rb_accept::reading::{FILE_LIMIT, read_within};
use rb_compile::programs::compile;
use rb_edge::source::Source;
use rb_layout::agreed::Agreed;
use rb_lines::refusal::Refusal;
use rb_target::code::Code;
use rb_target::spell::spell_code;
use std::alloc::{AllocError, Global};

/// Code for a program whose layouts agree, which does what the program means with few switches.
///
/// # Errors
///
/// Want of memory, also where a function's code would have more than 2^24 instructions.
pub fn code_of(alloc: Global, agreed: &Agreed) -> Result<Code, AllocError>
    ensures { IfOk result (IsCompiled agreed.now) }
{
    let code = compile(alloc, agreed)?;
    Ok(code)
}

// The code text for the bytes of a file within the limit, or the file's refusal.
fn compile_bytes(alloc: Global, bytes: &[u8]) -> Result<Vec<u8>, Refusal>
    requires { length bytes.now ≤ file_limit }
    ensures text { IfOk result (λ text. CompilesFile bytes.now (printed text.items 0)) }
    ensures refused { IfErr result (IsRefusal (CompilesFile bytes.now)) }
{
    let accepted = accept(alloc, bytes)?;
    let code = code_of(alloc, &accepted.agreed)?;
    let text = spell_code(alloc, &code)?;
    Ok(text)
}

/// The code text of the file that the source has under a name, where it is accepted.
///
/// # Errors
///
/// The answer to a file that is not read or not accepted; or want of memory.
pub fn compile_file<S: Source>(alloc: Global, src: &mut S, file: &[u8]) -> Result<Vec<u8>, Refusal>
    ensures read { ReadsInTurn ((file.now, file_limit) ∷ [])
        (source_of S.tells S.held S.readings S.faults src.old src.new) }
    ensures owed { (steps : ℕ) → Meets
        (Owes (Ok (spec.compile file.now)) (handed_between S.readings src.old src.new)) steps steps result }
{
    let bytes = read_within(alloc, src, file, FILE_LIMIT)?;
    compile_bytes(alloc, bytes.as_slice())
}
