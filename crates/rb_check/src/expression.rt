//! Expressions: the type of one, at a wanted type or none, within the parameters and variables
//! round it.

ghost use Rattle.std.specs.Prelude.{◌≡◌, ◌<◌, List, [], ◌∷◌, ◌++◌, length, map, slice_get, OnOk, Some, None};
ghost use Rattle.rb_core.specs.declared.types.DataDecl.{DataDecl};
ghost use Rattle.rb_core.specs.declared.types.Ty.TheVariants.{Named};
ghost use Rattle.rb_core.specs.declared.program.Fun.{Fun};
ghost use Rattle.rb_core.specs.Typing.{and_then, arguments, clause_rule, clauses_typing, field_types, as_wanted, integer_operand, operands_typing, operator_type, params_of, param_types, result_type, rule_of, type_of};
ghost use Rattle.rb_check.specs.inner.Answers.{AnswersTyping, wanted_types};

use crate::pattern::bind_whole;
use crate::types::{fit, integer, type_number};
use rb_core::expression::{Clause, Expr, Op};
use rb_core::inference::{type_of_call, type_of_operator, types_of_fields, wanted_of_operand};
use rb_core::program::{Param, Program};
use rb_core::scope::Scope;
use rb_core::types::{ConRef, Ty};
use rb_core::typing::{Binder, TypeFault};
use std::alloc::Global;

/// The types that are wanted of arguments: those of a function's parameters, or of fields.
#[derive(Clone, Copy)]
pub enum Wanted<'a> {
    Params(&'a [Param]),
    Fields(&'a [Ty]),
}

impl<'a> Wanted<'a> {
    // How many arguments are wanted.
    fn len(self) -> usize
        ensures { result ≡ length (wanted_types self.entry) }
    {
        match self {
            Wanted::Params(params) => params.len(),
            Wanted::Fields(fields) => fields.len(),
        }
    }

    // The type that is wanted of the argument with this number.
    fn at(self, i: usize) -> Ty
        requires { i < length (wanted_types self) }
        ensures { slice_get (wanted_types self.entry) i ≡ Some result }
    {
        match self {
            Wanted::Params(params) => params[i].ty,
            Wanted::Fields(fields) => fields[i],
        }
    }
}

/// The type of an expression, where `wanted` is wanted of it or none is.
///
/// # Errors
///
/// The first fault of typing, `Mismatch`, `Arity` or `VariableTwice`; or want of memory.
#[cycle(typing)]
pub fn type_expression(
    alloc: Global,
    program: &Program,
    expr: &Expr,
    wanted: Option<Ty>,
    scope: &mut Scope,
) -> Result<Ty, TypeFault>
    ensures answers { AnswersTyping result
        (type_of program.now.types program.now.funs expr.now wanted scope.old) }
    ensures scope { OnOk result (scope.new ≡ scope.old) }
{
    match expr {
        Expr::Num(at, n) => type_number(*at, *n, wanted),
        Expr::Var(at, var) => fit(*at, wanted, scope.variable_type(*var)),
        Expr::Call(at, fun, parts) => {
            let parts = parts.as_slice();
            type_call(alloc, program, *at, *fun, parts, wanted, scope)
        }
        Expr::Build(at, con, parts) => {
            let parts = parts.as_slice();
            type_build(alloc, program, *at, *con, parts, wanted, scope)
        }
        Expr::Binary(at, op, a, b) => {
            let a = a.get();
            let b = b.get();
            type_binary(alloc, program, *at, *op, a, b, wanted, scope)
        }
        Expr::To(at, bits, a) => {
            type_integer(alloc, program, a.get(), None, scope)?;
            fit(*at, wanted, Ty::Int(*bits))
        }
        Expr::Let(_, var, ty, a, b) => {
            let binder = Binder { var: *var, ty: *ty };
            type_let(alloc, program, binder, a.get(), b.get(), wanted, scope)
        }
        Expr::Match(_, scrutinee, cases) => {
            let cases = cases.as_slice();
            type_match(alloc, program, scrutinee.get(), cases, wanted, scope)
        }
    }
}

// The type of a call of the function with this number.
#[cycle(typing)]
fn type_call(
    alloc: Global,
    program: &Program,
    at: u32,
    fun: u32,
    parts: &[Expr],
    wanted: Option<Ty>,
    scope: &mut Scope,
) -> Result<Ty, TypeFault>
    ensures answers { AnswersTyping result (and_then
        (arguments at (map (rule_of program.now.types program.now.funs) parts.now)
        (param_types program.now.funs fun) scope.old)
        (λ typed. as_wanted at wanted (result_type program.now.funs fun))) }
    ensures scope { OnOk result (scope.new ≡ scope.old) }
{
    type_arguments(
        alloc,
        program,
        at,
        parts,
        Wanted::Params(params_of(program, fun)),
        scope,
    )?;
    fit(at, wanted, type_of_call(program, fun))
}

// The type of a construction.
#[cycle(typing)]
fn type_build(
    alloc: Global,
    program: &Program,
    at: u32,
    con: ConRef,
    parts: &[Expr],
    wanted: Option<Ty>,
    scope: &mut Scope,
) -> Result<Ty, TypeFault>
    ensures answers { AnswersTyping result (and_then
        (arguments at (map (rule_of program.now.types program.now.funs) parts.now)
        (field_types program.now.types con) scope.old)
        (λ typed. as_wanted at wanted (Named con.ty))) }
    ensures scope { OnOk result (scope.new ≡ scope.old) }
{
    let fields = types_of_fields(program.types.as_slice(), con);
    type_arguments(alloc, program, at, parts, Wanted::Fields(fields), scope)?;
    fit(at, wanted, Ty::Named(con.ty))
}

// Types each argument with its type wanted. Before that, there have to be as many of them as types:
// `Arity` at the token `at` else.
#[cycle(typing)]
fn type_arguments(
    alloc: Global,
    program: &Program,
    at: u32,
    parts: &[Expr],
    wanted: Wanted,
    scope: &mut Scope,
) -> Result<(), TypeFault>
    ensures answers { AnswersTyping result
        (arguments at (map (rule_of program.now.types program.now.funs) parts.now)
        (wanted_types wanted.entry) scope.old) }
    ensures scope { OnOk result (scope.new ≡ scope.old) }
{
    if parts.len() != wanted.len() {
        return Err(TypeFault::Arity(at, wanted.len() as u64, parts.len() as u64));
    }
    for (i, part) in parts.iter().enumerate() {
        type_expression(alloc, program, part, Some(wanted.at(i)), scope)?;
    }
    Ok(())
}

// The type of an operator's result.
#[cycle(typing)]
fn type_binary(
    alloc: Global,
    program: &Program,
    at: u32,
    op: Op,
    a: &Expr,
    b: &Expr,
    wanted: Option<Ty>,
    scope: &mut Scope,
) -> Result<Ty, TypeFault>
    ensures answers { AnswersTyping result (and_then
        (operands_typing op (rule_of program.now.types program.now.funs a.now)
        (rule_of program.now.types program.now.funs b.now) wanted scope.old)
        (λ t. as_wanted at wanted (operator_type op t))) }
    ensures scope { OnOk result (scope.new ≡ scope.old) }
{
    let first = type_integer(alloc, program, a, wanted_of_operand(op, wanted), scope)?;
    let second = type_expression(alloc, program, b, Some(first), scope)?;
    fit(at, wanted, type_of_operator(op, second))
}

// The type of an expression that has to be an integer: `Mismatch` where it is of a data type.
#[cycle(typing)]
fn type_integer(
    alloc: Global,
    program: &Program,
    expr: &Expr,
    wanted: Option<Ty>,
    scope: &mut Scope,
) -> Result<Ty, TypeFault>
    ensures answers { AnswersTyping result
        (integer_operand (rule_of program.now.types program.now.funs expr.now) wanted scope.old) }
    ensures scope { OnOk result (scope.new ≡ scope.old) }
{
    let found = type_expression(alloc, program, expr, wanted, scope)?;
    integer(first_token(expr), found)
}

// The type of a `let` that binds `binder`.
#[cycle(typing)]
fn type_let(
    alloc: Global,
    program: &Program,
    binder: Binder,
    a: &Expr,
    b: &Expr,
    wanted: Option<Ty>,
    scope: &mut Scope,
) -> Result<Ty, TypeFault>
    ensures answers { AnswersTyping result (and_then
        (type_of program.now.types program.now.funs a.now (Some binder.ty) scope.old)
        (λ t. type_of program.now.types program.now.funs b.now wanted
        (scope.old ++ binder ∷ []))) }
    ensures scope { OnOk result (scope.new ≡ scope.old) }
{
    type_expression(alloc, program, a, Some(binder.ty), scope)?;
    let depth = scope.len();
    scope.push(binder)?;
    let found = type_expression(alloc, program, b, wanted, scope)?;
    scope.truncate(depth);
    Ok(found)
}

// The type of a match: that of its first clause, which is wanted of the others.
#[cycle(typing)]
fn type_match(
    alloc: Global,
    program: &Program,
    scrutinee: &Expr,
    cases: &[Clause],
    wanted: Option<Ty>,
    scope: &mut Scope,
) -> Result<Ty, TypeFault>
    ensures answers { AnswersTyping result (and_then
        (type_of program.now.types program.now.funs scrutinee.now None scope.old)
        (λ t. clauses_typing (map (clause_rule program.now.types program.now.funs) cases.now) t wanted scope.old)) }
    ensures scope { OnOk result (scope.new ≡ scope.old) }
{
    let scrutinee = type_expression(alloc, program, scrutinee, None, scope)?;
    type_clauses(alloc, program, scrutinee, cases, wanted, scope)
}

// The type of the clauses of a match on a scrutinee of this type.
#[cycle(typing)]
fn type_clauses(
    alloc: Global,
    program: &Program,
    scrutinee: Ty,
    cases: &[Clause],
    wanted: Option<Ty>,
    scope: &mut Scope,
) -> Result<Ty, TypeFault>
    ensures answers { AnswersTyping result (clauses_typing
        (map (clause_rule program.now.types program.now.funs) cases.now) scrutinee wanted scope.old) }
    ensures scope { OnOk result (scope.new ≡ scope.old) }
{
    let mut found = wanted;
    for case in cases {
        found = Some(type_clause(alloc, program, scrutinee, case, found, scope)?);
    }
    Ok(found.unwrap_or(Ty::Int(64)))
}

// The type of a clause's body, within the scope and what its pattern binds at the scrutinee's type.
#[cycle(typing)]
fn type_clause(
    alloc: Global,
    program: &Program,
    scrutinee: Ty,
    case: &Clause,
    wanted: Option<Ty>,
    scope: &mut Scope,
) -> Result<Ty, TypeFault>
    ensures answers { AnswersTyping result
        (clause_rule program.now.types program.now.funs case.now scrutinee wanted scope.old) }
    ensures scope { OnOk result (scope.new ≡ scope.old) }
{
    let depth = scope.len();
    bind_whole(alloc, program.types.as_slice(), &case.pat, scrutinee, scope)?;
    let found = type_expression(alloc, program, &case.body, wanted, scope)?;
    scope.truncate(depth);
    Ok(found)
}

// The number of an expression's first token: there it is refused where it has to be an integer and
// is none.
fn first_token(expr: &Expr) -> u32
    ensures { (types : List DataDecl) → (funs : List Fun) → (rule_of types funs expr.now).at ≡ result }
{
    match expr {
        Expr::Num(at, _) => *at,
        Expr::Var(at, _) => *at,
        Expr::Call(at, _, _) => *at,
        Expr::Build(at, _, _) => *at,
        Expr::Binary(at, _, _, _) => *at,
        Expr::To(at, _, _) => *at,
        Expr::Let(at, _, _, _, _) => *at,
        Expr::Match(at, _, _) => *at,
    }
}

// The parameters of the function with this number; none where there is no such function.
fn params_of(program: &Program, fun: u32) -> &[Param]
    ensures { result.now ≡ params_of (slice_get program.now.funs fun) }
{
    match program.funs.get(fun as usize) {
        None => &[],
        Some(fun) => fun.params.as_slice(),
    }
}
