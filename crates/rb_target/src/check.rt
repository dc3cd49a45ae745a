//! Whether functions are valid together. Functions, the instructions of a body and slots are
//! numbered from 0; `pc` is the number of an instruction, `n` that of a function.

ghost use Rattle.std.specs.Prelude.{◌≡◌, ◌↔◌, ◌<◌, IsTrue, IsOk, IfOk, OnOk, IfErr, Some, length, not};
ghost use Rattle.rb_target.specs.Validity.{AreSlots, AreArms, IsTarget, SlotsFit, TargetsFit, CallsFit, EndsInReturn, IsValid, IsValidFun, dests};
ghost use Rattle.rb_target.specs.Spelled.{AreSpelled};
ghost use Rattle.rb_target.specs.Faults.{IsFirstCodeFault, InFun, HasBadSlot, HasBadJump, HasBadCall};
ghost use Rattle.rb_target.specs.inner.Checking.{CountsSlots, HasGoodSlots, HasGoodJumps, HasGoodCalls, IsFaultless, IsFaultAt, IsFaultIn};

use crate::code::{Code, CodeFun};
use crate::fault::CodeFault;
use crate::instr::{Instr, SwitchArm};
use rb_core::seq::Seq;

// Whether each of some slots is below the number of slots, `slots`; so it is where there is none.
fn are_slots(slots: usize, items: &[usize]) -> bool
    ensures { IsTrue result ↔ AreSlots slots items.now }
{
    items.iter().all(|slot| *slot < slots)
}

/// Whether each slot that an instruction names is below the number of slots, `slots`.
pub fn slots_fit(slots: usize, instr: &Instr) -> bool
    ensures { IsTrue result ↔ SlotsFit slots instr.now }
{
    match instr {
        Instr::Const(dest, _) | Instr::Place(dest, _, _) => *dest < slots,
        Instr::Copy(dest, from)
        | Instr::Take(dest, from, _, _)
        | Instr::Put(dest, from, _, _)
        | Instr::Load(dest, from, _, _) => *dest < slots && *from < slots,
        Instr::Alu(_, _, dest, left, right) => *dest < slots && *left < slots && *right < slots,
        Instr::Store(base, _, _, from) => *base < slots && *from < slots,
        Instr::Jump(_) => true,
        Instr::Switch(from, _, _) => *from < slots,
        Instr::Call(_, dests, froms) => {
            are_slots(slots, dests.as_slice()) && are_slots(slots, froms.as_slice())
        }
        Instr::Return(froms) => are_slots(slots, froms.as_slice()),
    }
}

/// How many slots an instruction names as written; one named twice counts twice.
pub fn dest_len(instr: &Instr) -> usize
    ensures { result ≡ length (dests instr.now) }
{
    match instr {
        Instr::Const(..)
        | Instr::Copy(..)
        | Instr::Alu(..)
        | Instr::Take(..)
        | Instr::Put(..)
        | Instr::Load(..)
        | Instr::Place(..) => 1,
        Instr::Store(..) | Instr::Jump(..) | Instr::Switch(..) | Instr::Return(..) => 0,
        Instr::Call(_, dests, _) => dests.len(),
    }
}

// Whether a function has a slot for each parameter, and no more beyond these than its body names as
// written.
fn counts_slots(fun: &CodeFun) -> bool
    ensures { IsTrue result ↔ CountsSlots fun.now }
{
    if fun.slots < fun.params {
        return false;
    }
    let mut unwritten = fun.slots - fun.params;
    for instr in fun.body.as_slice() {
        unwritten = unwritten.saturating_sub(dest_len(instr));
    }
    unwritten == 0
}

// Whether a target lies behind the instruction `pc` and within a body of `long` instructions.
fn is_target(long: usize, pc: usize, target: usize) -> bool
    ensures { IsTrue result ↔ IsTarget long pc target }
{
    pc < target && target < long
}

// Whether the targets of all arms lie behind the instruction `pc` and within a body of `long`
// instructions; so it is where there is no arm.
fn are_arms(long: usize, pc: usize, arms: &[SwitchArm]) -> bool
    ensures { IsTrue result ↔ AreArms long pc arms.now }
{
    arms.iter().all(|arm| is_target(long, pc, arm.target))
}

/// Whether an instruction's targets, if it has any, lie behind it and within the body: `pc` is its
/// number, and `long` the number of the body's instructions.
pub fn targets_fit(long: usize, pc: usize, instr: &Instr) -> bool
    ensures { IsTrue result ↔ TargetsFit long pc instr.now }
{
    match instr {
        Instr::Jump(target) => is_target(long, pc, *target),
        Instr::Switch(_, None, arms) => are_arms(long, pc, arms.as_slice()),
        Instr::Switch(_, Some(other), arms) => {
            is_target(long, pc, *other) && are_arms(long, pc, arms.as_slice())
        }
        Instr::Const(..)
        | Instr::Copy(..)
        | Instr::Alu(..)
        | Instr::Take(..)
        | Instr::Put(..)
        | Instr::Load(..)
        | Instr::Store(..)
        | Instr::Place(..)
        | Instr::Call(..)
        | Instr::Return(_) => true,
    }
}

/// Whether the last instruction of a body is a return; false for a body that has none.
pub fn ends_in_return(body: &[Instr]) -> bool
    ensures { IsTrue result ↔ EndsInReturn body.now }
{
    matches!(body.last(), Some(Instr::Return(_)))
}

// Whether a call has its callee's numbers of results and words, and a return as many words as its
// own function has results, `results`. A call of no function does not fit, and other instructions
// do.
fn calls_fit(funs: &[CodeFun], results: usize, instr: &Instr) -> bool
    ensures { IsTrue result ↔ CallsFit funs.now results instr.now }
{
    match instr {
        Instr::Call(number, dests, froms) => match funs.get(*number) {
            None => false,
            Some(fun) => dests.len() == fun.results && froms.len() == fun.params,
        },
        Instr::Return(froms) => froms.len() == results,
        Instr::Const(..)
        | Instr::Copy(..)
        | Instr::Alu(..)
        | Instr::Take(..)
        | Instr::Put(..)
        | Instr::Load(..)
        | Instr::Store(..)
        | Instr::Place(..)
        | Instr::Jump(_)
        | Instr::Switch(..) => true,
    }
}

// Whether a fault of slots stands at the instruction `pc`: at 0 the function's number of slots is
// wrong, or the instruction, if there is one, names a slot that the function hasn't got.
fn has_bad_slot(fun: &CodeFun, pc: usize) -> bool
    ensures bad { IsTrue result → HasBadSlot fun.now pc }
    ensures good { IsTrue (not result) → HasGoodSlots fun.now pc }
{
    if pc == 0 && !counts_slots(fun) {
        return true;
    }
    match fun.body.get(pc) {
        None => false,
        Some(instr) => !slots_fit(fun.slots, instr),
    }
}

// Whether a fault of targets stands at the instruction `pc`: it is the last one, or 0 in a body
// without one, and the body doesn't end in a return; or one of its targets, if there is such an
// instruction, is no later one of the body.
fn has_bad_jump(fun: &CodeFun, pc: usize) -> bool
    ensures bad { IsTrue result → HasBadJump fun.now pc }
    ensures good { IsTrue (not result) → HasGoodJumps fun.now pc }
{
    let body = fun.body.as_slice();
    if pc == body.len().saturating_sub(1) && !ends_in_return(body) {
        return true;
    }
    match body.get(pc) {
        None => false,
        Some(instr) => !targets_fit(body.len(), pc, instr),
    }
}

// Whether a fault of calls stands at the instruction `pc`: it is a call or a return whose numbers
// don't fit. So it is not where there is no such instruction.
fn has_bad_call(funs: &[CodeFun], fun: &CodeFun, pc: usize) -> bool
    ensures bad { IsTrue result → HasBadCall funs.now fun.now pc }
    ensures good { IsTrue (not result) → HasGoodCalls funs.now fun.now pc }
{
    match fun.body.get(pc) {
        None => false,
        Some(instr) => !calls_fit(funs, fun.results, instr),
    }
}

// The first fault that stands at the instruction `pc` of function `n`, or none: of slots, then of
// targets, then of calls.
fn check_instr(funs: &[CodeFun], n: usize, pc: usize) -> Result<(), CodeFault>
    requires { n < length funs.now }
    ensures ok { OnOk result (InFun funs.now n (λ f. IsFaultless funs.now f pc)) }
    ensures err { IfErr result (λ fault. IsFaultAt funs.now n pc fault) }
{
    let fun = &funs[n];
    if has_bad_slot(fun, pc) {
        return Err(CodeFault::BadSlot(n as u64, pc as u64));
    }
    if has_bad_jump(fun, pc) {
        return Err(CodeFault::BadJump(n as u64, pc as u64));
    }
    if has_bad_call(funs, fun, pc) {
        return Err(CodeFault::BadCall(n as u64, pc as u64));
    }
    Ok(())
}

// The first fault of function `n`, or none: by instruction, then of slots, targets and calls. A
// body without an instruction is tried at 0.
fn check_fun(funs: &[CodeFun], n: usize) -> Result<(), CodeFault>
    requires spelled { AreSpelled funs.now }
    requires within { n < length funs.now }
    ensures ok { OnOk result (InFun funs.now n (λ f. IsValidFun funs.now f)) }
    ensures err { IfErr result (λ fault. IsFaultIn funs.now n fault) }
{
    let len = funs[n].body.len();
    for pc in 0..len.max(1) {
        check_instr(funs, n, pc)?;
    }
    Ok(())
}

// The first fault of all functions, or none: by function, then by instruction, then of slots,
// targets and calls.
fn check_funs(funs: &[CodeFun]) -> Result<(), CodeFault>
    requires { AreSpelled funs.now }
    ensures ok { OnOk result (IsValid funs.now) }
    ensures err { IfErr result (λ fault. IsFirstCodeFault funs.now fault) }
{
    for n in 0..funs.len() {
        check_fun(funs, n)?;
    }
    Ok(())
}

/// The functions as code, where they are valid together. They have to be functions as a text can
/// hold them, which bounds their names and numbers. It takes no memory, and its time grows with the
/// length of their text.
///
/// # Errors
///
/// The first fault: by function, then by instruction, then of slots before targets before calls.
pub fn check(funs: Seq<CodeFun>) -> Result<Code, CodeFault>
    requires { AreSpelled funs }
    ensures ok { IfOk result (λ code. code ≡ funs) }
    ensures valid { IsOk result ↔ IsValid funs }
    ensures first { IfErr result (λ fault. IsFirstCodeFault funs fault) }
{
    check_funs(funs.as_slice())?;
    Ok(Code::new(funs))
}
