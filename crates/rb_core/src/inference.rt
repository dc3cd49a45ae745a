//! The types of typed expressions, read off their forms. Of an expression that is not typed, what is
//! read off says nothing.

ghost use Rattle.std.specs.Prelude.{◌≡◌, ◌++◌, ◌∷◌, [], map, None, IfOk, OnOk};
ghost use Rattle.rb_core.specs.Typing.{field_types, param_types, result_type, operand_wanted, operator_type};
ghost use Rattle.rb_core.specs.Inference.{all_binders, binders, operands_type, match_type, inferred_type, clause_inferred};

use crate::constructors::con_of;
use crate::expression::{Clause, Expr, Op};
use crate::pattern::Pat;
use crate::program::{Param, Program};
use crate::scope::Scope;
use crate::seq::Seq;
use crate::types::{ConRef, DataDecl, Ty};
use crate::typing::Binder;
use std::alloc::{AllocError, Global};

/// The type of an expression of a typed program, at a wanted type or none and a scope. The scope
/// is lent for more binders, and on `Ok` is what it was. The call nests as deep as the expression
/// and its patterns.
///
/// # Errors
///
/// Want of memory.
#[cycle(inferring)]
pub fn infer(
    program: &Program,
    expr: &Expr,
    wanted: Option<Ty>,
    scope: &mut Scope,
) -> Result<Ty, AllocError>
    ensures ty { IfOk result (λ t. t ≡ inferred_type program.now.types program.now.funs expr.now wanted scope.old) }
    ensures scope { OnOk result (scope.new ≡ scope.old) }
{
    match expr {
        Expr::Num(_, _) => Ok(wanted.unwrap_or(Ty::Int(64))),
        Expr::Var(_, var) => Ok(scope.variable_type(*var)),
        Expr::Call(_, fun, _) => Ok(type_of_call(program, *fun)),
        Expr::Build(_, con, _) => Ok(Ty::Named(con.ty)),
        Expr::Binary(_, op, a, _) => {
            let operands = infer_operands(program, *op, a.get(), wanted, scope)?;
            Ok(type_of_operator(*op, operands))
        }
        Expr::To(_, bits, _) => Ok(Ty::Int(*bits)),
        Expr::Let(_, var, ty, _, body) => infer_let(program, *var, *ty, body.get(), wanted, scope),
        Expr::Match(_, scrutinee, clauses) => {
            let ty = infer(program, scrutinee.get(), None, scope)?;
            let found = infer_match(program, ty, clauses.as_slice(), wanted, scope)?;
            Ok(found)
        }
    }
}

/// The type of both operands of an operator, of which the first is given, where a type or none is
/// wanted of its result: for `eq` and `lt` that of the first operand, for the other operators the
/// wanted type if it is an integer type, else that of the first operand. The scope is lent for more
/// binders, and on `Ok` is what it was.
///
/// # Errors
///
/// Want of memory.
#[cycle(inferring)]
pub fn infer_operands(
    program: &Program,
    op: Op,
    first: &Expr,
    wanted: Option<Ty>,
    scope: &mut Scope,
) -> Result<Ty, AllocError>
    ensures ty { IfOk result (λ t. t ≡ operands_type op wanted
        (inferred_type program.now.types program.now.funs first.now None scope.old)) }
    ensures scope { OnOk result (scope.new ≡ scope.old) }
{
    let found = infer(program, first, None, scope)?;
    Ok(wanted_of_operand(op, wanted).unwrap_or(found))
}

// The type of a `let` that binds variable `var` at type `ty`: that of its body, with the variable
// behind those of the scope. On `Ok` the scope is what it was.
#[cycle(inferring)]
fn infer_let(
    program: &Program,
    var: u32,
    ty: Ty,
    body: &Expr,
    wanted: Option<Ty>,
    scope: &mut Scope,
) -> Result<Ty, AllocError>
    ensures ty { IfOk result (λ t. t ≡ inferred_type program.now.types program.now.funs body.now wanted
        (scope.old ++ record { var = var; ty = ty } ∷ [])) }
    ensures scope { OnOk result (scope.new ≡ scope.old) }
{
    let depth = scope.len();
    scope.push(Binder { var, ty })?;
    let found = infer(program, body, wanted, scope)?;
    scope.truncate(depth);
    Ok(found)
}

/// The type of a match whose scrutinee has type `ty`: the wanted one, or where none is wanted that
/// of its first clause; `u64` where none is wanted and it has no clause. On `Ok` the scope is what
/// it was.
///
/// # Errors
///
/// Want of memory.
#[cycle(inferring)]
pub fn infer_match(
    program: &Program,
    ty: Ty,
    clauses: &[Clause],
    wanted: Option<Ty>,
    scope: &mut Scope,
) -> Result<Ty, AllocError>
    ensures ty { IfOk result (λ t. t ≡ match_type program.now.types wanted
        (map (clause_inferred program.now.types program.now.funs) clauses.now) ty scope.old) }
    ensures scope { OnOk result (scope.new ≡ scope.old) }
{
    if let Some(wanted) = wanted {
        return Ok(wanted);
    }
    let [first, ..] = clauses else {
        return Ok(Ty::Int(64));
    };
    let depth = scope.len();
    bind_types(program.types.as_slice(), &first.pat, ty, scope)?;
    let found = infer(program, &first.body, None, scope)?;
    scope.truncate(depth);
    Ok(found)
}

/// Puts the variables of a pattern at a type behind those of a scope, from left to right; a
/// constructor that the program lacks adds none. The call nests as deep as the pattern. On `Err`
/// the scope may have some of them.
///
/// # Errors
///
/// Want of memory.
#[cycle(binding_types)]
pub fn bind_types(
    types: &[DataDecl],
    pat: &Pat,
    ty: Ty,
    scope: &mut Scope,
) -> Result<(), AllocError>
    ensures { OnOk result (scope.new ≡ scope.old ++ binders types.now pat.now ty) }
{
    match pat {
        Pat::Wild(_) => Ok(()),
        Pat::Var(_, var) => {
            scope.push(Binder { var: *var, ty })?;
            Ok(())
        }
        Pat::Num(_, _) => Ok(()),
        Pat::Con(_, con, pats) => {
            bind_all_types(types, pats.as_slice(), types_of_fields(types, *con), scope)
        }
    }
}

// Puts the variables of several patterns, each at the type in its place, behind those of a scope,
// up to where the patterns or the types end.
#[cycle(binding_types)]
#[tactic(auto, using(crate::proofs::InferenceLemmas::binder_steps))]
fn bind_all_types(
    types: &[DataDecl],
    pats: &[Pat],
    tys: &[Ty],
    scope: &mut Scope,
) -> Result<(), AllocError>
    ensures { OnOk result (scope.new ≡ scope.old ++ all_binders (map (binders types.now) pats.now) tys.now) }
{
    for (i, pat) in pats.iter().enumerate() {
        if i >= tys.len() {
            return Ok(());
        }
        bind_types(types, pat, tys[i], scope)?;
    }
    Ok(())
}

/// The type of a function's result; `u64` where the program has no such function.
pub fn type_of_call(program: &Program, fun: u32) -> Ty
    ensures { result ≡ result_type program.now.funs fun }
{
    match program.funs.get(fun as usize) {
        Some(callee) => callee.result,
        None => Ty::Int(64),
    }
}

/// The type of what an operator gives, from the type of its operands: one bit for `eq` and `lt`,
/// else that type.
pub fn type_of_operator(op: Op, ty: Ty) -> Ty
    ensures { result ≡ operator_type op ty }
{
    match op {
        Op::Eq | Op::Lt => Ty::Int(1),
        Op::Add | Op::Sub | Op::Mul | Op::And | Op::Or | Op::Xor => ty,
    }
}

/// The type that is wanted of an operator's first operand, where `wanted` or none is wanted of its
/// result: none for `eq` and `lt`; for the others the wanted type if it is an integer type, else
/// none.
pub fn wanted_of_operand(op: Op, wanted: Option<Ty>) -> Option<Ty>
    ensures { result ≡ operand_wanted op wanted }
{
    match op {
        Op::Eq | Op::Lt => None,
        Op::Add | Op::Sub | Op::Mul | Op::And | Op::Or | Op::Xor => match wanted {
            Some(Ty::Int(bits)) => Some(Ty::Int(bits)),
            Some(Ty::Named(_)) | None => None,
        },
    }
}

/// The types of a constructor's fields, in their order; none where the program has no such
/// constructor.
pub fn types_of_fields(types: &[DataDecl], con: ConRef) -> &[Ty]
    ensures { result.now ≡ field_types types.now con }
{
    match con_of(types, con) {
        Some(con) => con.fields.as_slice(),
        None => &[],
    }
}

/// The types of a function's parameters, in their order; none where the program has no such
/// function.
///
/// # Errors
///
/// Want of memory.
pub fn types_of_params(alloc: Global, program: &Program, fun: u32) -> Result<Seq<Ty>, AllocError>
    ensures { IfOk result (λ types. types ≡ param_types program.now.funs fun) }
{
    match program.funs.get(fun as usize) {
        Some(callee) => param_types(alloc, callee.params.as_slice()),
        None => Ok(Seq::new(alloc)),
    }
}

/// The types of these parameters, in their order: as many as there are parameters, each in its
/// parameter's place.
///
/// # Errors
///
/// Want of memory.
pub fn param_types(alloc: Global, params: &[Param]) -> Result<Seq<Ty>, AllocError>
    ensures { IfOk result (λ types. types ≡ map (λ p. p.ty) params.now) }
{
    let mut types = Seq::new(alloc);
    for param in params {
        types.push(param.ty)?;
    }
    Ok(types)
}
