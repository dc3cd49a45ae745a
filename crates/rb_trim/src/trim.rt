//! Functions and code that do the same with fewer instructions. Hints tell how a body gets shorter:
//! what is known before each instruction, what is left out, and the new numbers of instructions and
//! slots. They are guesses, so they are tested; where a test fails they do not fit, which is the
//! error `Stop::Unfit`. `Stop::Memory` is want of memory.

ghost use Rattle.std.specs.Prelude.{◌≡◌, IfOk, IsTrue, [], length};
ghost use Rattle.rb_trim.specs.Trimming.{IsTrimOf};
ghost use Rattle.rb_trim.specs.inner.Moving.{IsTrimmed, facts_at};
ghost use Rattle.rb_trim.specs.inner.Stepping.{AreTrimmed};

use crate::fit::{are_apart, fits, keep_params};
use crate::guess::{guess, identity};
use crate::hints::Hints;
use crate::moving::{Stop, is_reached, known_at, place_at};
use crate::steps::walk;
use rb_core::seq::Seq;
use rb_target::code::{Code, CodeFun};
use std::alloc::{AllocError, Global};

// Whether the hints say that nothing is known before the first instruction, where a run may begin
// with any words.
fn knows_nothing(hints: &Hints) -> bool
    ensures { IsTrue result → (facts_at hints.now 0 ≡ []) }
{
    let facts = known_at(hints, 0);
    matches!(facts, [])
}

// A function that does what another does, as hints tell; all on which it rests is tested. An `Err`
// says that a test fails, so that the hints do not fit, or want of memory.
fn trim_by(alloc: Global, fun: &CodeFun, hints: &Hints) -> Result<CodeFun, Stop>
    ensures { IfOk result (λ q. IsTrimmed fun.now q) }
{
    let params = fun.params;
    let slots = hints.slots;
    let first = place_at(hints, 0);
    if first != 0 {
        return Err(Stop::Unfit);
    }
    if !knows_nothing(hints) {
        return Err(Stop::Unfit);
    }
    if !is_reached(hints, 0) {
        return Err(Stop::Unfit);
    }
    if !are_apart(hints) {
        return Err(Stop::Unfit);
    }
    if !keep_params(hints, params) {
        return Err(Stop::Unfit);
    }
    let body = walk(alloc, hints, fun.body.as_slice())?;
    if !fits(slots, params, &body) {
        return Err(Stop::Unfit);
    }
    let name = fun.name.copy(alloc)?;
    Ok(CodeFun {
        name,
        params,
        results: fun.results,
        slots,
        body,
    })
}

// A function that does what another does, as hints tell that are of no use behind it. An `Err` says
// that they do not fit, or want of memory.
fn trim_once(alloc: Global, fun: &CodeFun, hints: Hints) -> Result<CodeFun, Stop>
    ensures { IfOk result (λ q. IsTrimmed fun.now q) }
{
    trim_by(alloc, fun, &hints)
}

// A function that does the same with no more instructions: as the guessed hints tell, or, should
// these not fit, with one for each of its own. An `Err` says that not even this fits, or want of
// memory.
fn trim_fun(alloc: Global, fun: &CodeFun) -> Result<CodeFun, Stop>
    ensures { IfOk result (λ q. IsTrimmed fun.now q) }
{
    match trim_once(alloc, fun, guess(alloc, fun)?) {
        Err(Stop::Unfit) => trim_once(alloc, fun, identity(alloc, fun)?),
        done => done,
    }
}

// All functions, each with no more instructions, in their order. An `Err` comes from the first
// function that fails, or from want of memory.
fn trim_funs(alloc: Global, funs: &[CodeFun]) -> Result<Seq<CodeFun>, Stop>
    ensures { IfOk result (λ new. AreTrimmed funs.now (length funs.now) new) }
{
    let mut new = Seq::new(alloc);
    for fun in funs {
        let shorter = trim_fun(alloc, fun)?;
        new.push(shorter)?;
    }
    Ok(new)
}

/// Code that does the same with fewer instructions: what is known is not made again, and what is
/// not read is left out. A function of which the test fails keeps each of its instructions and is
/// tested so; where that fails, too, all code stays as it is.
///
/// # Errors
///
/// Want of memory.
pub fn trim(alloc: Global, code: Code) -> Result<Code, AllocError>
    ensures { IfOk result (λ new. IsTrimOf code new) }
{
    match trim_funs(alloc, code.funs()) {
        Ok(shorter) => Ok(Code::new(shorter)),
        Err(Stop::Unfit) => Ok(code),
        Err(Stop::Memory) => Err(AllocError),
    }
}
