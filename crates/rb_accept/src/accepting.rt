//! Accepting files: their tokens, their tree, their program, the layouts that they leave to the
//! compiler, the program's types, its matches, and its layouts, one after the other. The first step
//! that refuses a file gives the answer; only a layout that cannot be derived waits until types and
//! matches were checked.
//!
//! An answer is a status with a line, by which a file is refused. Each step gives it as its error,
//! or want of memory. `bytes` are those of the file, and `placed` are its tokens with their places.
//! A flat form of a layout says for each leaf what the bits of its words and blocks hold.

ghost use Rattle.std.specs.Prelude.{◌≡◌, ◌≤◌, length, IfOk, IfErr, OnOk, Ok};
ghost use Rattle.rb_core.specs.Coverage.{IsCovered};
ghost use Rattle.rb_core.specs.TypedPrograms.{IsTyped};
ghost use Rattle.rb_core.specs.WellNumbered.{IsWellNumbered};
ghost use Rattle.rb_layout.specs.Agreement.{AreAgreed};
ghost use Rattle.rb_lines.specs.View.{IsRefusal};
ghost use Rattle.rb_names.specs.Programs.{program_of};
ghost use Rattle.rb_syntax.specs.Cutting.{HasTokens};
ghost use Rattle.rb_accept.specs.Accepting.{IsNamed, IsNamedWith, IsProgramOf, FileIsRead, IsRefused, completed_as};
ghost use Rattle.rb_accept.specs.Reading.{file_limit};
ghost use Rattle.rb_accept.specs.View.{IsAcceptance};

use crate::refusal::{
    refuse_bytes, refuse_derived, refuse_layouts, refuse_match, refuse_names, refuse_tokens,
    refuse_types,
};
use rb_agree::AgreeFault;
use rb_agree::agree::agree;
use rb_auto::AutoFault;
use rb_check::{CoverFault, check, cover};
use rb_core::program::Program;
use rb_core::typed::{Covered, Typed};
use rb_layout::agreed::Agreed;
use rb_lines::refusal::Refusal;
use rb_names::complete::{Completed, complete};
use rb_names::resolve;
use rb_read::read::read_file;
use rb_syntax::lex::lex;
use rb_syntax::token::Placed;
use rb_syntax::tree::FileTree;
use std::alloc::Global;

/// A file that is accepted.
#[derive(Drop)]
pub struct Accepted {
    /// The tokens of the file.
    pub placed: Vec<Placed>,
    /// The program of the file with the layouts that are derived, and with the flat forms of all
    /// its layouts.
    pub agreed: Agreed,
}

// The tokens of the bytes, or the answer to a bad byte or a number that is too wide.
fn cut(alloc: Global, bytes: &[u8]) -> Result<Vec<Placed>, Refusal>
    ensures tokens { IfOk result (λ placed. HasTokens bytes.now placed.items) }
    ensures refused { IfErr result (IsRefusal (IsRefused bytes.now)) }
{
    match lex(alloc, bytes) {
        Ok(placed) => Ok(placed),
        Err(fault) => {
            let refused = refuse_bytes(alloc, fault)?;
            Err(Refusal::Refused(refused))
        }
    }
}

// The tree of the tokens, or the answer where they are no file within its limits.
fn read(alloc: Global, bytes: &[u8], placed: &[Placed]) -> Result<FileTree, Refusal>
    requires few { length bytes.now ≤ file_limit }
    requires tokens { HasTokens bytes.now placed.now }
    ensures read { IfOk result (FileIsRead bytes.now placed.now) }
    ensures refused { IfErr result (IsRefusal (IsRefused bytes.now)) }
{
    match read_file(alloc, placed) {
        Ok(file) => Ok(file),
        Err(fault) => {
            let refused = refuse_tokens(alloc, placed, bytes.len(), fault)?;
            Err(Refusal::Refused(refused))
        }
    }
}

// The program of the tree, with the layouts that are written, or the answer to a name that is
// defined twice or stands for nothing, or to a file without `main`.
fn name(alloc: Global, bytes: &[u8], placed: &[Placed], file: &FileTree) -> Result<Program, Refusal>
    requires few { length bytes.now ≤ file_limit }
    requires read { FileIsRead bytes.now placed.now file.now }
    ensures named { IfOk result (λ p. program_of file.now ≡ Ok p) }
    ensures well { IfOk result IsWellNumbered }
    ensures refused { IfErr result (IsRefusal (IsRefused bytes.now)) }
{
    match resolve(alloc, file) {
        Ok(program) => Ok(program),
        Err(fault) => {
            let refused = refuse_names(alloc, placed, bytes.len(), &fault)?;
            Err(Refusal::Refused(refused))
        }
    }
}

// The program with the layouts that are derived, and the first of them that is refused, if one is.
// That one is answered only after types and matches were checked.
fn add_layouts(
    alloc: Global,
    bytes: &[u8],
    placed: &[Placed],
    file: &FileTree,
    program: Program,
) -> Result<Completed, Refusal>
    requires read { FileIsRead bytes.now placed.now file.now }
    requires named { program_of file.now ≡ Ok program }
    requires well { IsWellNumbered program }
    ensures named { IfOk result (IsNamedWith bytes.now placed.now) }
    ensures well { IfOk result (λ c. IsWellNumbered c.program) }
    ensures refused { IfErr result (IsRefusal (IsRefused bytes.now)) }
{
    let completed = complete(alloc, file, program)?;
    Ok(completed)
}

// The program, now known to be typed, or the answer to its first fault of types.
fn ascribe(
    alloc: Global,
    bytes: &[u8],
    placed: &[Placed],
    program: Program,
) -> Result<Typed, Refusal>
    requires named { IsProgramOf bytes.now placed.now program }
    requires well { IsWellNumbered program }
    ensures same { IfOk result (λ typed. typed ≡ program) }
    ensures typed { IfOk result IsTyped }
    ensures refused { IfErr result (IsRefusal (IsRefused bytes.now)) }
{
    match check(alloc, &program) {
        Ok(()) => Ok(Typed::new(program)),
        Err(fault) => {
            let types = program.types.as_slice();
            let refused = refuse_types(alloc, types, placed, bytes.len(), fault)?;
            Err(Refusal::Refused(refused))
        }
    }
}

// The program with the notes on its clauses that no value reaches, or the answer to a match that is
// not exhaustive.
fn annotate(
    alloc: Global,
    bytes: &[u8],
    placed: &[Placed],
    typed: Typed,
) -> Result<Covered, Refusal>
    requires named { IsProgramOf bytes.now placed.now typed }
    requires typed { IsTyped typed }
    ensures same { IfOk result (λ covered. covered.program ≡ typed) }
    ensures covered { IfOk result (λ covered. IsCovered covered.program covered.notes) }
    ensures refused { IfErr result (IsRefusal (IsRefused bytes.now)) }
{
    match cover(alloc, &typed) {
        Ok(notes) => Ok(Covered::new(typed, notes)),
        Err(CoverFault::Memory) => Err(Refusal::Memory),
        Err(CoverFault::Missing(token, pattern)) => {
            let types = typed.program().types.as_slice();
            let refused = refuse_match(alloc, types, placed, bytes.len(), token, &pattern)?;
            Err(Refusal::Refused(refused))
        }
    }
}

// Goes on where each layout that is left to the compiler was derived; else answers the first that
// is refused.
fn have_derived(
    alloc: Global,
    bytes: &[u8],
    placed: &[Placed],
    covered: &Covered,
    refused: &Option<AutoFault>,
) -> Result<(), Refusal>
    requires named { IsNamedWith bytes.now placed.now (completed_as covered.now.program refused.now) }
    requires typed { IsTyped covered.now.program }
    requires covered { IsCovered covered.now.program covered.now.notes }
    ensures named { OnOk result (IsNamed bytes.now placed.now covered.now.program) }
    ensures refused { IfErr result (IsRefusal (IsRefused bytes.now)) }
{
    match refused {
        None => Ok(()),
        Some(fault) => {
            let types = covered.program().types.as_slice();
            let refused = refuse_derived(alloc, types, fault)?;
            Err(Refusal::Refused(refused))
        }
    }
}

// The program with the flat forms of its layouts, which agree with its types, or the answer to the
// first place where they break a rule.
fn lay_out(
    alloc: Global,
    bytes: &[u8],
    placed: &[Placed],
    covered: Covered,
) -> Result<Agreed, Refusal>
    requires named { IsNamed bytes.now placed.now covered.program }
    requires typed { IsTyped covered.program }
    requires covered { IsCovered covered.program covered.notes }
    ensures same { IfOk result (λ agreed. agreed.covered ≡ covered) }
    ensures agreed { IfOk result (λ agreed. AreAgreed agreed.covered.program agreed.layouts) }
    ensures refused { IfErr result (IsRefusal (IsRefused bytes.now)) }
{
    match agree(alloc, &covered) {
        Ok(layouts) => Ok(Agreed::new(covered, layouts)),
        Err(AgreeFault::Memory) => Err(Refusal::Memory),
        Err(AgreeFault::Rule(fault)) => {
            let refused = refuse_layouts(alloc, &covered, &fault)?;
            Err(Refusal::Refused(refused))
        }
    }
}

/// The file of these bytes, if it is accepted, or the answer that refuses it.
///
/// # Errors
///
/// The answer to its first fault; or want of memory.
pub fn accept(alloc: Global, bytes: &[u8]) -> Result<Accepted, Refusal>
    requires { length bytes.now ≤ file_limit }
    ensures accepted { IfOk result (IsAcceptance bytes.now) }
    ensures refused { IfErr result (IsRefusal (IsRefused bytes.now)) }
{
    let placed = cut(alloc, bytes)?;
    let tokens = placed.as_slice();
    let file = read(alloc, bytes, tokens)?;
    let written = name(alloc, bytes, tokens, &file)?;
    let completed = add_layouts(alloc, bytes, tokens, &file, written)?;
    let typed = ascribe(alloc, bytes, tokens, completed.program)?;
    let covered = annotate(alloc, bytes, tokens, typed)?;
    have_derived(alloc, bytes, tokens, &covered, &completed.refused)?;
    let agreed = lay_out(alloc, bytes, tokens, covered)?;
    Ok(Accepted { placed, agreed })
}
