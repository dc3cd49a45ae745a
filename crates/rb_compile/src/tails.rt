//! From expressions in tail positions to code: each way through it ends in a return.
//!
//! A tail position is one where the value is the function's result, of type `ty`. `body` is the
//! code of the function so far, and code is added at its end. `agreed` is a program with its
//! layouts. `locals` are the variables that are bound, each with its type and its slots: they are
//! lent for more, and on `Ok` are what they were. A value is held where it stands in slots, a word
//! each. The arms of a match are the code of its clauses; a hole is a target that is still open.
//!
//! An error is want of memory, also where the code would have more than 2^24 instructions. It is
//! the answer too where a function, a constructor or a clause is missing, which no accepted program
//! meets.

ghost use Rattle.std.specs.Prelude.{◌≡◌, ℕ, length, IfOk, OnOk};
ghost use Rattle.rb_core.specs.declared.expression.Expr as X;
ghost use Rattle.rb_target.specs.Growth.{Grows};
ghost use Rattle.rb_compile.specs.Plans.{plan_of};
ghost use Rattle.rb_compile.specs.inner.Tails.{EmitsReturn, EmitsTailArm, EmitsTailArms, TailArmsAre};

use crate::expressions::emit_expr;
use crate::matches::{extend, patterns};
use crate::used::used_pattern;
use rb_core::expression::{Clause, Expr};
use rb_core::seq::Seq;
use rb_core::types::Ty;
use rb_core::typing::Binder;
use rb_fragment::held::{Held, Local};
use rb_fragment::patch::patch_all;
use rb_layout::agreed::Agreed;
use rb_match::binding::bind;
use rb_match::choosing::emit_match;
use rb_target::body::Body;
use rb_target::instr::Instr;
use std::alloc::{AllocError, Global};

/// The code of an expression whose value is the function's result, and which returns it.
#[cycle(tail)]
pub(crate) fn emit_tail(
    alloc: Global,
    agreed: &Agreed,
    body: &mut Body,
    locals: &mut Seq<Local>,
    expr: &Expr,
    ty: Ty,
) -> Result<(), AllocError>
    ensures emits { OnOk result ((fun : ℕ)
        → EmitsReturn (plan_of agreed.now) fun expr.now ty locals.old body.old body.new) }
    ensures grows { OnOk result (Grows body.old.code body.new.code) }
    ensures locals { OnOk result (locals.new ≡ locals.old) }
{
    match expr {
        Expr::Let(_, var, of, a, b) => {
            let a = a.get();
            let b = b.get();
            let binder = Binder { var: *var, ty: *of };
            emit_tail_let(alloc, agreed, body, locals, binder, a, b, ty)?;
            Ok(())
        }
        Expr::Match(_, e, clauses) => {
            let clauses = clauses.as_slice();
            emit_tail_match(alloc, agreed, body, locals, e.get(), clauses, ty)?;
            Ok(())
        }
        Expr::Num(..)
        | Expr::Var(..)
        | Expr::Call(..)
        | Expr::Build(..)
        | Expr::Binary(..)
        | Expr::To(..) => {
            emit_return(alloc, agreed, body, locals, expr, ty)?;
            Ok(())
        }
    }
}

// The code of an expression in a tail position that is neither a binding nor a match, and a return
// of its value.
fn emit_return(
    alloc: Global,
    agreed: &Agreed,
    body: &mut Body,
    locals: &mut Seq<Local>,
    expr: &Expr,
    ty: Ty,
) -> Result<(), AllocError>
    ensures emits { OnOk result ((fun : ℕ)
        → EmitsReturn (plan_of agreed.now) fun expr.now ty locals.old body.old body.new) }
    ensures grows { OnOk result (Grows body.old.code body.new.code) }
    ensures locals { OnOk result (locals.new ≡ locals.old) }
{
    let held = emit_expr(alloc, agreed, body, locals, expr, Some(ty))?;
    body.push(Instr::Return(held.slots))?;
    Ok(())
}

// The code of a `let` in a tail position: that of `a`, whose slots are then those of the variable,
// and behind it that of `b`, within which the variable is bound, and which returns.
#[cycle(tail)]
fn emit_tail_let(
    alloc: Global,
    agreed: &Agreed,
    body: &mut Body,
    locals: &mut Seq<Local>,
    binder: Binder,
    a: &Expr,
    b: &Expr,
    ty: Ty,
) -> Result<(), AllocError>
    ensures emits { OnOk result ((fun at : ℕ)
        → EmitsReturn (plan_of agreed.now) fun (X.Let at binder.var binder.ty a.now b.now) ty
        locals.old body.old body.new) }
    ensures grows { OnOk result (Grows body.old.code body.new.code) }
    ensures locals { OnOk result (locals.new ≡ locals.old) }
{
    let x = emit_expr(alloc, agreed, body, locals, a, Some(binder.ty))?;
    let depth = locals.len();
    locals.push(Local {
        var: binder.var,
        ty: binder.ty,
        slots: x.slots,
    })?;
    emit_tail(alloc, agreed, body, locals, b, ty)?;
    locals.truncate(depth);
    Ok(())
}

// The code of a match in a tail position: its scrutinee, the choice of a clause, and the arms, each
// of which returns. When all arms stand, the holes of the choice are set to where they begin. A
// match of a program that was accepted has a clause.
#[cycle(tail)]
fn emit_tail_match(
    alloc: Global,
    agreed: &Agreed,
    body: &mut Body,
    locals: &mut Seq<Local>,
    scrutinee: &Expr,
    clauses: &[Clause],
    ty: Ty,
) -> Result<(), AllocError>
    ensures emits { OnOk result ((fun at : ℕ)
        → EmitsReturn (plan_of agreed.now) fun (X.Match at scrutinee.now clauses.now) ty
        locals.old body.old body.new) }
    ensures grows { OnOk result (Grows body.old.code body.new.code) }
    ensures locals { OnOk result (locals.new ≡ locals.old) }
{
    if clauses.is_empty() {
        return Err(AllocError);
    }
    let subject = emit_expr(alloc, agreed, body, locals, scrutinee, None)?;
    let pats = patterns(alloc, clauses)?;
    let words = subject.slots.as_slice();
    let holes = emit_match(alloc, body, agreed, subject.ty, words, pats.as_slice())?;
    let starts = emit_tail_arms(alloc, agreed, body, locals, &subject, clauses, ty)?;
    patch_all(body, holes.as_slice(), starts.as_slice());
    Ok(())
}

// The code of the arms of a match in a tail position, one behind the other: the number of the first
// instruction of each is answered. `subject` is where the match's scrutinee is held.
#[cycle(tail)]
fn emit_tail_arms(
    alloc: Global,
    agreed: &Agreed,
    body: &mut Body,
    locals: &mut Seq<Local>,
    subject: &Held,
    clauses: &[Clause],
    ty: Ty,
) -> Result<Seq<usize>, AllocError>
    ensures emits { IfOk result (λ starts. (fun : ℕ)
        → EmitsTailArms (plan_of agreed.now) fun (length clauses.now) clauses.now ty
        locals.old subject.now body.old body.new starts) }
    ensures are { IfOk result (λ starts. TailArmsAre (length clauses.now) body.old body.new starts) }
    ensures locals { OnOk result (locals.new ≡ locals.old) }
{
    let mut starts = Seq::new(alloc);
    for clause in clauses {
        starts.push(body.len())?;
        emit_tail_arm(alloc, agreed, body, locals, subject, clause, ty)?;
    }
    Ok(starts)
}

// The code of one arm in a tail position: the variables of its pattern that its body uses, and its
// body, which returns. `subject` is where the match's scrutinee is held.
#[cycle(tail)]
fn emit_tail_arm(
    alloc: Global,
    agreed: &Agreed,
    body: &mut Body,
    locals: &mut Seq<Local>,
    subject: &Held,
    clause: &Clause,
    ty: Ty,
) -> Result<(), AllocError>
    ensures emits { OnOk result ((fun : ℕ)
        → EmitsTailArm (plan_of agreed.now) fun clause.now ty locals.old subject.now body.old body.new) }
    ensures grows { OnOk result (Grows body.old.code body.new.code) }
    ensures locals { OnOk result (locals.new ≡ locals.old) }
{
    let words = subject.slots.as_slice();
    let pat = used_pattern(alloc, &clause.pat, &clause.body)?;
    let bound = bind(alloc, body, agreed, subject.ty, words, &pat)?;
    let depth = locals.len();
    extend(locals, bound)?;
    emit_tail(alloc, agreed, body, locals, &clause.body, ty)?;
    locals.truncate(depth);
    Ok(())
}
