//! What a program does, for tests: the source meaning, computed. A log has the events so far, and
//! an end is `Done` with a value and the calls left, or `Spent` where a call was due and none was
//! left. A frame has the variables of the function that runs, with their types and values.

ghost use Rattle.std.specs.Prelude.{◌≡◌, ◌≤◌, ℕ, IfOk, OnOk, slice_get};
ghost use Rattle.rb_core.specs.declared.expression.Expr as X;
ghost use Rattle.rb_core.specs.Limits.{most_eval_calls};
ghost use Rattle.rb_core.specs.Meaning.{call_of, construction_outcome};
ghost use Rattle.rb_core.specs.inner.Evaluation.{GivesOutcome, GivesParts, EvaluatesTo, EndsAsWhole, EndsAsFirst, done_number, part_types, parts_outcome};

use crate::environment::{Frame, value_of};
use crate::expression::{Clause, Expr, Op};
use crate::inference::{infer, infer_match, infer_operands, types_of_fields, wanted_of_operand};
use crate::matching::matches;
use crate::operators::{apply, low_bits, number, width};
use crate::outcome::{Event, Outcome, PartsEnd, SourceEnd};
use crate::program::Program;
use crate::scope::Scope;
use crate::seq::Seq;
use crate::typed::Typed;
use crate::types::{ConRef, Ty};
use crate::typing::Binder;
use crate::value::Value;
use std::alloc::{AllocError, Global};

// What an expression is evaluated with, beside its variables: memory, the program that it stands
// in, the type that is wanted of it or none, and the calls that are left.
#[derive(Clone, Copy)]
struct Context<'a> {
    alloc: Global,
    program: &'a Program,
    wanted: Option<Ty>,
    calls: u64,
}

// What is done once its parts are, from left to right: a call of the function with this number,
// whose parts are its arguments, or a construction, whose parts are its fields.
#[derive(Clone, Copy)]
enum Whole {
    Call(u32),
    Build(ConRef),
}

/// What a call of a function does, with so many calls left. A function that the program lacks gives
/// 0, where a call is left. It stands for tests: it nests as deep as the program's calls and
/// expressions do.
///
/// # Errors
///
/// Want of memory.
pub fn eval(
    alloc: Global,
    typed: &Typed,
    fun: u32,
    args: Seq<Value>,
    calls: u64,
) -> Result<Outcome, AllocError>
    requires { calls ≤ most_eval_calls }
    ensures { IfOk result (λ outcome. outcome ≡ call_of typed.now fun calls args) }
{
    eval_program(alloc, typed.program(), fun, args.as_slice(), calls)
}

// What a call of a function does, with so many calls left, in a program that need not be typed.
fn eval_program(
    alloc: Global,
    program: &Program,
    fun: u32,
    args: &[Value],
    calls: u64,
) -> Result<Outcome, AllocError>
    ensures { IfOk result (λ outcome. outcome ≡ call_of program.now fun calls args.now) }
{
    let mut log = Seq::new(alloc);
    let end = eval_call(alloc, program, fun, args, calls, &mut log)?;
    Ok(Outcome { log, end })
}

// How a call of a function ends: it takes one of the calls left, or is `Spent` where none is left.
// A function that the program lacks gives 0. The call's events go behind those of the log.
#[cycle(evaluation)]
fn eval_call(
    alloc: Global,
    program: &Program,
    fun: u32,
    args: &[Value],
    left: u64,
    log: &mut Seq<Event>,
) -> Result<SourceEnd, AllocError>
    ensures { IfOk result (GivesOutcome (call_of program.now fun left args.now) log.old log.new) }
{
    if left == 0 {
        return Ok(SourceEnd::Spent);
    }
    let Some(callee) = program.funs.get(fun as usize) else {
        return Ok(SourceEnd::Done(Value::Num(0), left - 1));
    };
    let mut frame = Frame::of_call(alloc, fun, callee.params.as_slice(), args)?;
    let context = Context {
        alloc,
        program,
        wanted: Some(callee.result),
        calls: left - 1,
    };
    eval_expr(context, &callee.body, &mut frame, log)
}

// How an expression ends in a context, with the variables of a frame. Its events go behind those of
// the log, and on `Ok` the frame is what it was. It nests as deep as the calls and expressions do.
#[cycle(evaluation)]
fn eval_expr(
    context: Context<'_>,
    expr: &Expr,
    frame: &mut Frame,
    log: &mut Seq<Event>,
) -> Result<SourceEnd, AllocError>
    ensures gives { IfOk result (EvaluatesTo context.entry frame.old expr.now log.old log.new) }
    ensures frame { OnOk result (frame.new ≡ frame.old) }
{
    match expr {
        Expr::Num(_, n) => Ok(SourceEnd::Done(Value::Num(*n), context.calls)),
        Expr::Var(_, var) => {
            let value = value_of(context.alloc, *var, frame.values.as_slice())?;
            Ok(SourceEnd::Done(value, context.calls))
        }
        Expr::Call(_, fun, parts) => {
            eval_whole(context, Whole::Call(*fun), parts.as_slice(), frame, log)
        }
        Expr::Build(_, con, parts) => {
            eval_whole(context, Whole::Build(*con), parts.as_slice(), frame, log)
        }
        Expr::Binary(_, op, a, b) => eval_binary(context, *op, a.get(), b.get(), frame, log),
        Expr::To(_, bits, a) => eval_to(context, *bits, a.get(), frame, log),
        Expr::Let(_, var, ty, a, b) => {
            let binder = Binder { var: *var, ty: *ty };
            eval_let(context, binder, a.get(), b.get(), frame, log)
        }
        Expr::Match(at, scrutinee, clauses) => {
            let clauses = clauses.as_slice();
            eval_match(context, *at, scrutinee.get(), clauses, frame, log)
        }
    }
}

// How a call or a construction ends: its parts from left to right, then what it does with their
// values. Where a part is `Spent`, so is the whole.
#[cycle(evaluation)]
fn eval_whole(
    context: Context<'_>,
    whole: Whole,
    parts: &[Expr],
    frame: &mut Frame,
    log: &mut Seq<Event>,
) -> Result<SourceEnd, AllocError>
    ensures gives { IfOk result (EndsAsWhole context.entry frame.old whole parts.now log.old log.new) }
    ensures frame { OnOk result (frame.new ≡ frame.old) }
{
    let (alloc, program) = (context.alloc, context.program);
    match eval_all(alloc, program, whole, parts, context.calls, frame, log)? {
        PartsEnd::Cut => Ok(SourceEnd::Spent),
        PartsEnd::AllDone(values, left) => match whole {
            Whole::Call(fun) => eval_call(alloc, program, fun, values.as_slice(), left, log),
            Whole::Build(con) => build(alloc, con, values, left, log),
        },
    }
}

// How a construction of these values ends: with its value, behind the event that it is built.
fn build(
    alloc: Global,
    con: ConRef,
    values: Seq<Value>,
    left: u64,
    log: &mut Seq<Event>,
) -> Result<SourceEnd, AllocError>
    ensures { IfOk result (GivesOutcome (construction_outcome con values left) log.old log.new) }
{
    let value = Value::Con(con.con, values);
    log.push(Event::Built(con.ty, value.copy(alloc)?))?;
    Ok(SourceEnd::Done(value, left))
}

// How an operator with two operands ends: the operands from left to right, then what it gives at
// their width. Where an operand is `Spent`, so is the whole.
#[cycle(evaluation)]
fn eval_binary(
    context: Context<'_>,
    op: Op,
    a: &Expr,
    b: &Expr,
    frame: &mut Frame,
    log: &mut Seq<Event>,
) -> Result<SourceEnd, AllocError>
    ensures gives { (at : ℕ) → IfOk result
        (EvaluatesTo context.entry frame.old (X.Binary at op a.now b.now) log.old log.new) }
    ensures frame { OnOk result (frame.new ≡ frame.old) }
{
    let ty = infer_operands(context.program, op, a, context.wanted, &mut frame.scope)?;
    let at_first = Context {
        wanted: wanted_of_operand(op, context.wanted),
        ..context
    };
    let Some((first, left)) = done_number(eval_expr(at_first, a, frame, log)?) else {
        return Ok(SourceEnd::Spent);
    };
    let at_second = Context {
        wanted: Some(ty),
        calls: left,
        ..context
    };
    let Some((second, left)) = done_number(eval_expr(at_second, b, frame, log)?) else {
        return Ok(SourceEnd::Spent);
    };
    let n = apply(op, width(ty), first, second);
    Ok(SourceEnd::Done(Value::Num(n), left))
}

// How a conversion to so many bits ends: its operand at no wanted type, then the low bits of it.
// Where the operand is `Spent`, so is the whole.
#[cycle(evaluation)]
fn eval_to(
    context: Context<'_>,
    bits: u8,
    a: &Expr,
    frame: &mut Frame,
    log: &mut Seq<Event>,
) -> Result<SourceEnd, AllocError>
    ensures gives { (at : ℕ) → IfOk result
        (EvaluatesTo context.entry frame.old (X.To at bits a.now) log.old log.new) }
    ensures frame { OnOk result (frame.new ≡ frame.old) }
{
    let untyped = Context {
        wanted: None,
        ..context
    };
    let Some((n, left)) = done_number(eval_expr(untyped, a, frame, log)?) else {
        return Ok(SourceEnd::Spent);
    };
    Ok(SourceEnd::Done(Value::Num(low_bits(n, bits)), left))
}

// The number that an operand ends with and the calls left; none where it is `Spent`.
fn done_number(end: SourceEnd) -> Option<(u64, u64)>
    ensures { result ≡ done_number end }
{
    match end {
        SourceEnd::Spent => None,
        SourceEnd::Done(value, left) => Some((number(&value), left)),
    }
}

// How a `let` ends: what it binds (`a`) at the binder's type, then its body (`b`) with one more
// variable. Where what it binds is `Spent`, so is the whole.
#[cycle(evaluation)]
fn eval_let(
    context: Context<'_>,
    binder: Binder,
    a: &Expr,
    b: &Expr,
    frame: &mut Frame,
    log: &mut Seq<Event>,
) -> Result<SourceEnd, AllocError>
    ensures gives { (at : ℕ) → IfOk result
        (EvaluatesTo context.entry frame.old (X.Let at binder.var binder.ty a.now b.now) log.old log.new) }
    ensures frame { OnOk result (frame.new ≡ frame.old) }
{
    let at_binder = Context {
        wanted: Some(binder.ty),
        ..context
    };
    match eval_expr(at_binder, a, frame, log)? {
        SourceEnd::Spent => Ok(SourceEnd::Spent),
        SourceEnd::Done(value, left) => {
            let depth = frame.depth();
            frame.push(binder, value)?;
            let at_body = Context {
                calls: left,
                ..context
            };
            let end = eval_expr(at_body, b, frame, log);
            frame.truncate(depth);
            end
        }
    }
}

// How a match ends: its scrutinee, then the event that it is matched, then its clauses. Where the
// scrutinee is `Spent`, so is the whole, and nothing is matched.
#[cycle(evaluation)]
fn eval_match(
    context: Context<'_>,
    at: u32,
    scrutinee: &Expr,
    clauses: &[Clause],
    frame: &mut Frame,
    log: &mut Seq<Event>,
) -> Result<SourceEnd, AllocError>
    ensures gives { IfOk result
        (EvaluatesTo context.entry frame.old (X.Match at scrutinee.now clauses.now) log.old log.new) }
    ensures frame { OnOk result (frame.new ≡ frame.old) }
{
    let program = context.program;
    let ty = infer(program, scrutinee, None, &mut frame.scope)?;
    let others = infer_match(program, ty, clauses, context.wanted, &mut frame.scope)?;
    let at_scrutinee = Context {
        wanted: None,
        ..context
    };
    match eval_expr(at_scrutinee, scrutinee, frame, log)? {
        SourceEnd::Spent => Ok(SourceEnd::Spent),
        SourceEnd::Done(value, left) => {
            log.push(Event::Matched(frame.fun, at))?;
            let at_clauses = Context {
                calls: left,
                ..context
            };
            let others = Some(others);
            eval_clauses(at_clauses, &value, ty, clauses, others, frame, log)
        }
    }
}

// How the first clause that matches a value of this type ends, or 0 where none does. A type or none
// is wanted of the first of the clauses, which the context has, and one of the others.
#[cycle(evaluation)]
fn eval_clauses(
    context: Context<'_>,
    value: &Value,
    ty: Ty,
    clauses: &[Clause],
    others: Option<Ty>,
    frame: &mut Frame,
    log: &mut Seq<Event>,
) -> Result<SourceEnd, AllocError>
    ensures gives { IfOk result
        (EndsAsFirst context.entry frame.old ty clauses.now others value.now log.old log.new) }
    ensures frame { OnOk result (frame.new ≡ frame.old) }
{
    let program = context.program;
    let mut wanted = context.wanted;
    for clause in clauses {
        if matches(&clause.pat, value) {
            let depth = frame.depth();
            frame.bind(
                context.alloc,
                program.types.as_slice(),
                &clause.pat,
                ty,
                value,
            )?;
            let at_body = Context { wanted, ..context };
            let end = eval_expr(at_body, &clause.body, frame, log);
            frame.truncate(depth);
            return end;
        }
        wanted = others;
    }
    Ok(SourceEnd::Done(Value::Num(0), context.calls))
}

// How the parts of a whole end, from left to right, each at the type in its place, or at none
// behind the types: with all their values, or cut where one is `Spent`.
#[cycle(evaluation)]
fn eval_all(
    alloc: Global,
    program: &Program,
    whole: Whole,
    parts: &[Expr],
    calls: u64,
    frame: &mut Frame,
    log: &mut Seq<Event>,
) -> Result<PartsEnd, AllocError>
    ensures gives { IfOk result
        (GivesParts (parts_outcome program.now frame.old whole parts.now calls) log.old log.new) }
    ensures frame { OnOk result (frame.new ≡ frame.old) }
{
    let mut values = Seq::new(alloc);
    let mut left = calls;
    for (i, part) in parts.iter().enumerate() {
        let context = Context {
            alloc,
            program,
            wanted: wanted_of_part(program, whole, i),
            calls: left,
        };
        match eval_expr(context, part, frame, log)? {
            SourceEnd::Spent => return Ok(PartsEnd::Cut),
            SourceEnd::Done(value, rest) => {
                values.push(value)?;
                left = rest;
            }
        }
    }
    Ok(PartsEnd::AllDone(values, left))
}

// The type that is wanted of the part of a whole with this number; none behind the last of the
// types.
fn wanted_of_part(program: &Program, whole: Whole, i: usize) -> Option<Ty>
    ensures { result ≡ slice_get (part_types program.now whole) i }
{
    match whole {
        Whole::Call(fun) => {
            let callee = program.funs.get(fun as usize)?;
            let param = callee.params.get(i)?;
            Some(param.ty)
        }
        Whole::Build(con) => types_of_fields(program.types.as_slice(), con)
            .get(i)
            .copied(),
    }
}
