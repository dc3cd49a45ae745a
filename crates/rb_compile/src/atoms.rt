//! Code of single values: numbers, variables, and what is made of values that are held.
//!
//! A value is held where it stands in slots, a word each. `body` is the code of a function so far,
//! to whose end instructions are added. `agreed` is a program with its layouts. `locals` are the
//! variables that are bound, each with its type and its slots. The type that is wanted of an
//! expression is the one that its place asks for, or None. An error is want of memory, also where
//! the code would have more than 2^24 instructions.

ghost use Rattle.std.specs.Prelude.{◌≡◌, ◌<◌, ◌^◌, ◌∷◌, [], None, IfOk, OnOk, unwrap_or, slice_get, slice_index};
ghost use Rattle.rb_core.specs.declared.types.Ty.TheVariants.{Int};
ghost use Rattle.rb_core.specs.Typing.{operator_type};
ghost use Rattle.rb_target.specs.declared.instr.Instr.TheVariants.{Const};
ghost use Rattle.rb_target.specs.Growth.{Grows};
ghost use Rattle.rb_target.specs.Operators.{alu_op_of};
ghost use Rattle.rb_fragment.specs.Fragments.{with_call};
ghost use Rattle.rb_compile.specs.Plans.{plan_of};
ghost use Rattle.rb_compile.specs.inner.Forms.{IsOne, VariableIs, alu_on, held_or, low_bits_of, new_held, stated_width};

use rb_core::expression::Op;
use rb_core::inference::type_of_operator;
use rb_core::program::Fun;
use rb_core::seq::Seq;
use rb_core::types::Ty;
use rb_fragment::emit::{emit_alu, emit_const, emit_take};
use rb_fragment::held::{Held, Local};
use rb_fragment::slots::{fresh_slots, joined_slots};
use rb_layout::agreed::Agreed;
use rb_rel::words::word_count;
use rb_target::body::Body;
use rb_target::instr::{AluOp, Instr};
use std::alloc::{AllocError, Global};

/// The code of a number, at the wanted type, or as a u64 where none is wanted: its value stands in
/// a new slot.
pub(crate) fn emit_number(
    alloc: Global,
    body: &mut Body,
    number: u64,
    wanted: Option<Ty>,
) -> Result<Held, AllocError>
    ensures small { number < 2 ^ 64 }
    ensures is { IfOk result (λ held.
        IsOne body.old (Const body.old.slots number) (unwrap_or wanted (Int 64)) body.new held) }
    ensures grows { OnOk result (Grows body.old.code body.new.code) }
{
    let ty = wanted.unwrap_or(Ty::Int(64));
    let slot = emit_const(body, number)?;
    let held = one_slot(alloc, ty, slot)?;
    Ok(held)
}

/// The slots of the variable with number `var`, without code. One that is not bound is 0, as it is
/// in the meaning, in a new slot.
pub(crate) fn emit_variable(
    alloc: Global,
    body: &mut Body,
    locals: &[Local],
    var: u32,
) -> Result<Held, AllocError>
    ensures is { IfOk result (λ held. VariableIs locals.now var body.old body.new held) }
    ensures grows { OnOk result (Grows body.old.code body.new.code) }
{
    let found = find(alloc, var, locals)?;
    match found {
        Some(held) => Ok(held),
        None => {
            let held = emit_number(alloc, body, 0, None)?;
            Ok(held)
        }
    }
}

// The slots and the type of the last of the variables with a number; None where none has it.
fn find(alloc: Global, var: u32, locals: &[Local]) -> Result<Option<Held>, AllocError>
    ensures { IfOk result (λ o. o ≡ held_or None var locals.now) }
{
    let mut found = None;
    for local in locals {
        if local.var == var {
            let slots = local.slots.copy(alloc)?;
            found = Some(Held {
                ty: local.ty,
                slots,
            });
        }
    }
    Ok(found)
}

/// The code of an operator on two integers `x` and `y` of type `ty` that stand in slots: the result
/// is in a new one.
pub(crate) fn emit_operator(
    alloc: Global,
    body: &mut Body,
    op: Op,
    ty: Ty,
    x: &Held,
    y: &Held,
) -> Result<Held, AllocError>
    ensures is { IfOk result (λ held.
        IsOne body.old (alu_on body.old op ty x.now y.now) (operator_type op ty) body.new held) }
    ensures grows { OnOk result (Grows body.old.code body.new.code) }
{
    let left = first_slot(x.slots.as_slice());
    let right = first_slot(y.slots.as_slice());
    let slot = emit_alu(body, alu_op(op), width(ty), left, right)?;
    let held = one_slot(alloc, type_of_operator(op, ty), slot)?;
    Ok(held)
}

/// The code that takes so many low bits of an integer that stands in a slot to a new one.
pub(crate) fn emit_low_bits(
    alloc: Global,
    body: &mut Body,
    x: &Held,
    bits: u8,
) -> Result<Held, AllocError>
    ensures is { IfOk result (λ held. IsOne body.old (low_bits_of body.old x.now bits) (Int bits) body.new held) }
    ensures grows { OnOk result (Grows body.old.code body.new.code) }
{
    let from = first_slot(x.slots.as_slice());
    let slot = emit_take(body, from, 0, bits)?;
    let held = one_slot(alloc, Ty::Int(bits), slot)?;
    Ok(held)
}

/// The instruction of a call of `fun`, which has this number in the program, on arguments that are
/// held: its result goes to new slots.
pub(crate) fn emit_calling(
    alloc: Global,
    body: &mut Body,
    agreed: &Agreed,
    number: u32,
    fun: &Fun,
    args: &[Held],
) -> Result<Held, AllocError>
    ensures held { IfOk result (λ h. h ≡ new_held (plan_of agreed.now) body.old fun.now.result) }
    ensures code { OnOk result (body.new ≡ with_call (plan_of agreed.now) body.old number fun.now args.now) }
{
    let froms = joined_slots(alloc, args)?;
    let count = word_count(agreed.layouts(), fun.result);
    let slots = fresh_slots(alloc, body, count)?;
    let dests = slots.copy(alloc)?;
    body.push(Instr::Call(number as usize, dests, froms))?;
    Ok(Held {
        ty: fun.result,
        slots,
    })
}

/// The type that is wanted of argument number `i`, counted from 0; None where there is no such
/// type.
pub(crate) fn wanted_at(tys: &[Ty], i: usize) -> Option<Ty>
    ensures { result ≡ slice_get tys.now i }
{
    tys.get(i).copied()
}

// The machine's operation for an operator.
fn alu_op(op: Op) -> AluOp
    ensures { result ≡ alu_op_of op }
{
    match op {
        Op::Add => AluOp::Add,
        Op::Sub => AluOp::Sub,
        Op::Mul => AluOp::Mul,
        Op::And => AluOp::And,
        Op::Or => AluOp::Or,
        Op::Xor => AluOp::Xor,
        Op::Eq => AluOp::Eq,
        Op::Lt => AluOp::Lt,
    }
}

// The width in bits that an instruction states for a type: at least 1, as an integer of a typed
// program has, and 64 for a data type.
fn width(ty: Ty) -> u8
    ensures { result ≡ stated_width ty }
{
    match ty {
        Ty::Int(bits) => bits.min(64).max(1),
        Ty::Named(_) => 64,
    }
}

// The first of some slots; 0 where there is none.
fn first_slot(slots: &[usize]) -> usize
    ensures { result ≡ slice_index slots.now 0 }
{
    match slots.first() {
        None => 0,
        Some(slot) => *slot,
    }
}

// A value of a type that stands in this one slot.
fn one_slot(alloc: Global, ty: Ty, slot: usize) -> Result<Held, AllocError>
    ensures { IfOk result (λ h. h ≡ record { ty = ty; slots = slot ∷ [] }) }
{
    let mut slots = Seq::new(alloc);
    slots.push(slot)?;
    Ok(Held { ty, slots })
}
