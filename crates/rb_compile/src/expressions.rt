//! From expressions to code, form by form.
//!
//! `body` is the code of a function so far, and code is added at its end. A value is held where it
//! stands in slots, a word each; the functions answer where the value of the code that they add is
//! held. `agreed` is a program with its layouts. `locals` are the variables that are bound, each
//! with its type and its slots: they are lent for more, and on `Ok` are what they were. `wanted` is
//! the type that an expression's place asks for, or None. The arms of a match are the code of its
//! clauses; a hole is a target of a jump or a switch that is still open.
//!
//! An error is want of memory, also where the code would have more than 2^24 instructions. It is
//! the answer too where a function, a constructor or a clause is missing, which no accepted program
//! meets.

ghost use Rattle.std.specs.Prelude.{◌≡◌, ℕ, length, IfOk, OnOk, Option};
ghost use Rattle.rb_core.specs.declared.types.Ty.{Ty as TyDecl};
ghost use Rattle.rb_core.specs.declared.expression.Expr as X;
ghost use Rattle.rb_target.specs.Growth.{Grows};
ghost use Rattle.rb_fragment.specs.Arms.{ArmsAre, IsJoin};
ghost use Rattle.rb_compile.specs.Plans.{plan_of};
ghost use Rattle.rb_compile.specs.inner.Forms.{EmitsExpr, EmitsFirst};
ghost use Rattle.rb_compile.specs.inner.Arms.{EmitsArm, EmitsArms, Reaches};

use crate::atoms::{
    emit_calling, emit_low_bits, emit_number, emit_operator, emit_variable, wanted_at,
};
use crate::matches::{Arms, extend, next_wanted, patterns};
use crate::shown::shown_patterns;
use crate::signatures::{field_types, function_at};
use crate::used::used_pattern;
use rb_build::build::emit_build;
use rb_core::expression::{Clause, Expr, Op};
use rb_core::inference::{param_types, wanted_of_operand};
use rb_core::seq::Seq;
use rb_core::types::{ConRef, Ty};
use rb_core::typing::Binder;
use rb_fragment::held::{Held, Joined, Local};
use rb_fragment::join::emit_join;
use rb_fragment::patch::close_match;
use rb_layout::agreed::Agreed;
use rb_match::binding::bind;
use rb_match::choosing::emit_match;
use rb_target::body::Body;
use std::alloc::{AllocError, Global};

/// The code of an expression, behind which its value stands in the slots that are answered.
#[cycle(emit)]
pub(crate) fn emit_expr(
    alloc: Global,
    agreed: &Agreed,
    body: &mut Body,
    locals: &mut Seq<Local>,
    expr: &Expr,
    wanted: Option<Ty>,
) -> Result<Held, AllocError>
    ensures emits { IfOk result (λ held. (fun : ℕ)
        → EmitsExpr (plan_of agreed.now) fun expr.now wanted locals.old body.old body.new held) }
    ensures grows { OnOk result (Grows body.old.code body.new.code) }
    ensures locals { OnOk result (locals.new ≡ locals.old) }
{
    match expr {
        Expr::Num(_, number) => {
            let held = emit_number(alloc, body, *number, wanted)?;
            Ok(held)
        }
        Expr::Var(_, var) => {
            let held = emit_variable(alloc, body, locals.as_slice(), *var)?;
            Ok(held)
        }
        Expr::Call(_, number, args) => {
            let held = emit_call(alloc, agreed, body, locals, *number, args.as_slice())?;
            Ok(held)
        }
        Expr::Build(_, con, args) => {
            let held = emit_construction(alloc, agreed, body, locals, *con, args.as_slice())?;
            Ok(held)
        }
        Expr::Binary(_, op, a, b) => {
            let held = emit_binary(alloc, agreed, body, locals, *op, a.get(), b.get(), wanted)?;
            Ok(held)
        }
        Expr::To(_, bits, a) => {
            let x = emit_expr(alloc, agreed, body, locals, a.get(), None)?;
            let held = emit_low_bits(alloc, body, &x, *bits)?;
            Ok(held)
        }
        Expr::Let(_, var, ty, a, b) => {
            let a = a.get();
            let b = b.get();
            let binder = Binder { var: *var, ty: *ty };
            let held = emit_let(alloc, agreed, body, locals, binder, a, b, wanted)?;
            Ok(held)
        }
        Expr::Match(_, e, clauses) => {
            let clauses = clauses.as_slice();
            let held = emit_choice(alloc, agreed, body, locals, e.get(), clauses, wanted)?;
            Ok(held)
        }
    }
}

// The code of an operator, behind that of its operands `a` and `b`. The second is wanted at the
// type that is wanted of the first, or else at the one that the first has.
#[cycle(emit)]
fn emit_binary(
    alloc: Global,
    agreed: &Agreed,
    body: &mut Body,
    locals: &mut Seq<Local>,
    op: Op,
    a: &Expr,
    b: &Expr,
    wanted: Option<Ty>,
) -> Result<Held, AllocError>
    ensures emits { IfOk result (λ held. (fun at : ℕ)
        → EmitsExpr (plan_of agreed.now) fun (X.Binary at op a.now b.now) wanted locals.old body.old body.new held) }
    ensures grows { OnOk result (Grows body.old.code body.new.code) }
    ensures locals { OnOk result (locals.new ≡ locals.old) }
{
    let first = wanted_of_operand(op, wanted);
    let x = emit_expr(alloc, agreed, body, locals, a, first)?;
    let ty = first.unwrap_or(x.ty);
    let y = emit_expr(alloc, agreed, body, locals, b, Some(ty))?;
    let held = emit_operator(alloc, body, op, ty, &x, &y)?;
    Ok(held)
}

// The code of a `let`: that of `a`, whose slots are then those of the variable, and behind it that
// of `b`, within which the variable is bound.
#[cycle(emit)]
fn emit_let(
    alloc: Global,
    agreed: &Agreed,
    body: &mut Body,
    locals: &mut Seq<Local>,
    binder: Binder,
    a: &Expr,
    b: &Expr,
    wanted: Option<Ty>,
) -> Result<Held, AllocError>
    ensures emits { IfOk result (λ held. (fun at : ℕ)
        → EmitsExpr (plan_of agreed.now) fun (X.Let at binder.var binder.ty a.now b.now) wanted
        locals.old body.old body.new held) }
    ensures grows { OnOk result (Grows body.old.code body.new.code) }
    ensures locals { OnOk result (locals.new ≡ locals.old) }
{
    let x = emit_expr(alloc, agreed, body, locals, a, Some(binder.ty))?;
    let depth = locals.len();
    locals.push(Local {
        var: binder.var,
        ty: binder.ty,
        slots: x.slots,
    })?;
    let y = emit_expr(alloc, agreed, body, locals, b, wanted)?;
    locals.truncate(depth);
    Ok(y)
}

// The code of a call of the function with this number, behind that of its arguments; where it
// stands last in a function, it is as everywhere. A program that was accepted has the function.
#[cycle(emit)]
fn emit_call(
    alloc: Global,
    agreed: &Agreed,
    body: &mut Body,
    locals: &mut Seq<Local>,
    number: u32,
    args: &[Expr],
) -> Result<Held, AllocError>
    ensures emits { IfOk result (λ held. (fun at : ℕ) (wanted : Option TyDecl)
        → EmitsExpr (plan_of agreed.now) fun (X.Call at number args.now) wanted locals.old body.old body.new held) }
    ensures grows { OnOk result (Grows body.old.code body.new.code) }
    ensures locals { OnOk result (locals.new ≡ locals.old) }
{
    let Some(fun) = function_at(agreed, number) else {
        return Err(AllocError);
    };
    let tys = param_types(alloc, fun.params.as_slice())?;
    let parts = emit_all(alloc, agreed, body, locals, args, tys.as_slice())?;
    let held = emit_calling(alloc, body, agreed, number, fun, parts.as_slice())?;
    Ok(held)
}

// The code of a construction by constructor `con`, behind that of its arguments. What of these is
// itself written as a construction helps to tell the leaf, the case of the layout that the value
// takes. A program that was accepted has the constructor.
#[cycle(emit)]
fn emit_construction(
    alloc: Global,
    agreed: &Agreed,
    body: &mut Body,
    locals: &mut Seq<Local>,
    con: ConRef,
    args: &[Expr],
) -> Result<Held, AllocError>
    ensures emits { IfOk result (λ held. (fun at : ℕ) (wanted : Option TyDecl)
        → EmitsExpr (plan_of agreed.now) fun (X.Build at con args.now) wanted locals.old body.old body.new held) }
    ensures grows { OnOk result (Grows body.old.code body.new.code) }
    ensures locals { OnOk result (locals.new ≡ locals.old) }
{
    let Some(tys) = field_types(alloc, agreed, con)? else {
        return Err(AllocError);
    };
    let parts = emit_all(alloc, agreed, body, locals, args, tys.as_slice())?;
    let shown = shown_patterns(alloc, args)?;
    let held = emit_build(alloc, body, agreed, con, parts.as_slice(), shown.as_slice())?;
    Ok(held)
}

// The code of expressions from left to right, each wanted at the type in the same place of `tys`:
// where the value of each is held, in their order.
#[cycle(emit)]
fn emit_all(
    alloc: Global,
    agreed: &Agreed,
    body: &mut Body,
    locals: &mut Seq<Local>,
    exprs: &[Expr],
    tys: &[Ty],
) -> Result<Seq<Held>, AllocError>
    ensures emits { IfOk result (λ hs. (fun : ℕ)
        → EmitsFirst (plan_of agreed.now) fun (length exprs.now) exprs.now tys.now locals.old body.old body.new hs) }
    ensures grows { OnOk result (Grows body.old.code body.new.code) }
    ensures locals { OnOk result (locals.new ≡ locals.old) }
{
    let mut all = Seq::new(alloc);
    for (i, expr) in exprs.iter().enumerate() {
        let wanted = wanted_at(tys, i);
        let held = emit_expr(alloc, agreed, body, locals, expr, wanted)?;
        all.push(held)?;
    }
    Ok(all)
}

// The code of a match: its scrutinee, the choice of a clause, and the arms. When all arms stand,
// the holes of the choice are set to where they begin, and their jumps to behind the last. A match
// of a program that was accepted has a clause.
#[cycle(emit)]
fn emit_choice(
    alloc: Global,
    agreed: &Agreed,
    body: &mut Body,
    locals: &mut Seq<Local>,
    scrutinee: &Expr,
    clauses: &[Clause],
    wanted: Option<Ty>,
) -> Result<Held, AllocError>
    ensures emits { IfOk result (λ held. (fun at : ℕ)
        → EmitsExpr (plan_of agreed.now) fun (X.Match at scrutinee.now clauses.now) wanted
        locals.old body.old body.new held) }
    ensures grows { OnOk result (Grows body.old.code body.new.code) }
    ensures locals { OnOk result (locals.new ≡ locals.old) }
{
    let subject = emit_expr(alloc, agreed, body, locals, scrutinee, None)?;
    let pats = patterns(alloc, clauses)?;
    let words = subject.slots.as_slice();
    let holes = emit_match(alloc, body, agreed, subject.ty, words, pats.as_slice())?;
    let arms = emit_arms(alloc, agreed, body, locals, &subject, clauses, wanted)?;
    let Arms {
        into,
        joins,
        starts,
    } = arms;
    let Some(held) = into else {
        return Err(AllocError);
    };
    close_match(
        alloc,
        body,
        holes.as_slice(),
        starts.as_slice(),
        joins.as_slice(),
    )?;
    Ok(held)
}

// The code of the arms of a match, one behind the other: `subject` is where its scrutinee is held.
#[cycle(emit)]
fn emit_arms(
    alloc: Global,
    agreed: &Agreed,
    body: &mut Body,
    locals: &mut Seq<Local>,
    subject: &Held,
    clauses: &[Clause],
    wanted: Option<Ty>,
) -> Result<Arms, AllocError>
    ensures emits { IfOk result (λ r. (fun : ℕ)
        → EmitsArms (plan_of agreed.now) fun (length clauses.now) clauses.now wanted
        locals.old subject.now body.old body.new r.into r.joins r.starts) }
    ensures are { IfOk result (λ r. ArmsAre (length clauses.now) body.old body.new r.joins r.starts) }
    ensures reaches { IfOk result (λ r. Reaches (length clauses.now) r.into) }
    ensures grows { OnOk result (Grows body.old.code body.new.code) }
    ensures locals { OnOk result (locals.new ≡ locals.old) }
{
    let mut starts = Seq::new(alloc);
    let mut joins = Seq::new(alloc);
    let mut into = None;
    for clause in clauses {
        starts.push(body.len())?;
        let next = next_wanted(wanted, &into);
        let joined = emit_arm(alloc, agreed, body, locals, subject, clause, next, into)?;
        joins.push(joined.join)?;
        into = Some(joined.into);
    }
    Ok(Arms {
        into,
        joins,
        starts,
    })
}

// The code of one arm: the variables of its pattern that its body uses, its body, and its value
// where the arms before it left theirs, `into`, or in new slots where it is the first. `subject` is
// where the match's scrutinee is held.
#[cycle(emit)]
fn emit_arm(
    alloc: Global,
    agreed: &Agreed,
    body: &mut Body,
    locals: &mut Seq<Local>,
    subject: &Held,
    clause: &Clause,
    wanted: Option<Ty>,
    into: Option<Held>,
) -> Result<Joined, AllocError>
    ensures emits { IfOk result (λ r. (fun : ℕ)
        → EmitsArm (plan_of agreed.now) fun clause.now wanted locals.old subject.now into body.old body.new r) }
    ensures join { IfOk result (λ r. IsJoin (length body.old.code) body.new.code r.join) }
    ensures grows { OnOk result (Grows body.old.code body.new.code) }
    ensures locals { OnOk result (locals.new ≡ locals.old) }
{
    let words = subject.slots.as_slice();
    let pat = used_pattern(alloc, &clause.pat, &clause.body)?;
    let bound = bind(alloc, body, agreed, subject.ty, words, &pat)?;
    let depth = locals.len();
    extend(locals, bound)?;
    let held = emit_expr(alloc, agreed, body, locals, &clause.body, wanted)?;
    locals.truncate(depth);
    let joined = emit_join(alloc, body, into, &held)?;
    Ok(joined)
}
