//! The matches of a program, in the file's order.

ghost use Rattle.std.specs.Prelude.{◌≡◌, ◌++◌, [], ◌∷◌, map, IfOk, OnOk};
ghost use Rattle.std.specs.List.{flat_map};
ghost use Rattle.rb_core.specs.Coverage.{function_sites, sites, sites_of};
ghost use Rattle.rb_check.specs.inner.Covering.{argument_sites, body_sites};

use rb_core::expression::{Clause, Expr};
use rb_core::inference::{bind_types, infer};
use rb_core::pattern::Pat;
use rb_core::program::{Fun, Program};
use rb_core::scope::Scope;
use rb_core::seq::Seq;
use rb_core::site::Site;
use rb_core::types::Ty;
use rb_core::typing::Binder;
use std::alloc::{AllocError, Global};

/// The matches of a program, an outer one before those in its parts.
///
/// # Errors
///
/// Want of memory.
pub fn program_sites(alloc: Global, program: &Program) -> Result<Seq<Site>, AllocError>
    ensures { IfOk result (λ found. found ≡ sites_of program.now) }
{
    let mut found = Seq::new(alloc);
    for fun in program.funs.as_slice() {
        add_function(alloc, program, fun, &mut found)?;
    }
    Ok(found)
}

// Adds the matches of a function's body.
fn add_function(
    alloc: Global,
    program: &Program,
    fun: &Fun,
    found: &mut Seq<Site>,
) -> Result<(), AllocError>
    ensures { OnOk result (found.new ≡ found.old ++ function_sites program.now.types program.now.funs fun.now) }
{
    let mut scope = Scope::of_params(alloc, fun.params.as_slice())?;
    add_sites(alloc, program, &fun.body, &mut scope, found)?;
    Ok(())
}

// Adds the matches of an expression within a scope, which is lent for more binders.
#[cycle(adding)]
fn add_sites(
    alloc: Global,
    program: &Program,
    expr: &Expr,
    scope: &mut Scope,
    found: &mut Seq<Site>,
) -> Result<(), AllocError>
    ensures added { OnOk result (found.new ≡ found.old ++ sites program.now.types program.now.funs expr.now scope.old) }
    ensures scope { OnOk result (scope.new ≡ scope.old) }
{
    match expr {
        Expr::Num(_, _) => Ok(()),
        Expr::Var(_, _) => Ok(()),
        Expr::Call(_, _, parts) => {
            add_arguments(alloc, program, parts.as_slice(), scope, found)?;
            Ok(())
        }
        Expr::Build(_, _, parts) => {
            add_arguments(alloc, program, parts.as_slice(), scope, found)?;
            Ok(())
        }
        Expr::Binary(_, _, a, b) => {
            add_sites(alloc, program, a.get(), scope, found)?;
            add_sites(alloc, program, b.get(), scope, found)?;
            Ok(())
        }
        Expr::To(_, _, a) => {
            add_sites(alloc, program, a.get(), scope, found)?;
            Ok(())
        }
        Expr::Let(_, var, ty, a, b) => {
            let binder = Binder { var: *var, ty: *ty };
            add_sites(alloc, program, a.get(), scope, found)?;
            add_under(alloc, program, binder, b.get(), scope, found)?;
            Ok(())
        }
        Expr::Match(at, scrutinee, clauses) => {
            let ty = infer(program, scrutinee.get(), None, scope)?;
            let patterns = patterns_of(alloc, clauses.as_slice())?;
            let site = Site {
                at: *at,
                scrutinee: ty,
                patterns,
            };
            found.push(site)?;
            add_sites(alloc, program, scrutinee.get(), scope, found)?;
            add_bodies(alloc, program, ty, clauses.as_slice(), scope, found)?;
            Ok(())
        }
    }
}

// Adds the matches of arguments, from the first argument to the last, all within the same scope.
#[cycle(adding)]
fn add_arguments(
    alloc: Global,
    program: &Program,
    parts: &[Expr],
    scope: &mut Scope,
    found: &mut Seq<Site>,
) -> Result<(), AllocError>
    ensures added { OnOk result (found.new ≡ found.old
        ++ argument_sites program.now.types program.now.funs scope.old parts.now) }
    ensures scope { OnOk result (scope.new ≡ scope.old) }
{
    for part in parts {
        add_sites(alloc, program, part, scope, found)?;
    }
    Ok(())
}

// Adds the matches of the body of a `let`, within the scope and the variable that it binds.
#[cycle(adding)]
fn add_under(
    alloc: Global,
    program: &Program,
    binder: Binder,
    body: &Expr,
    scope: &mut Scope,
    found: &mut Seq<Site>,
) -> Result<(), AllocError>
    ensures added { OnOk result (found.new ≡ found.old
        ++ sites program.now.types program.now.funs body.now (scope.old ++ binder ∷ [])) }
    ensures scope { OnOk result (scope.new ≡ scope.old) }
{
    let depth = scope.len();
    scope.push(binder)?;
    add_sites(alloc, program, body, scope, found)?;
    scope.truncate(depth);
    Ok(())
}

// Adds the matches of the bodies of clauses, whose scrutinee has type `ty`.
#[cycle(adding)]
fn add_bodies(
    alloc: Global,
    program: &Program,
    ty: Ty,
    clauses: &[Clause],
    scope: &mut Scope,
    found: &mut Seq<Site>,
) -> Result<(), AllocError>
    ensures added { OnOk result (found.new ≡ found.old
        ++ flat_map (body_sites program.now.types program.now.funs ty scope.old) clauses.now) }
    ensures scope { OnOk result (scope.new ≡ scope.old) }
{
    for clause in clauses {
        add_body(alloc, program, ty, clause, scope, found)?;
    }
    Ok(())
}

// Adds the matches of a clause's body, within the scope and what its pattern binds at type `ty`.
#[cycle(adding)]
fn add_body(
    alloc: Global,
    program: &Program,
    ty: Ty,
    clause: &Clause,
    scope: &mut Scope,
    found: &mut Seq<Site>,
) -> Result<(), AllocError>
    ensures added { OnOk result (found.new ≡ found.old
        ++ body_sites program.now.types program.now.funs ty scope.old clause.now) }
    ensures scope { OnOk result (scope.new ≡ scope.old) }
{
    let depth = scope.len();
    bind_types(program.types.as_slice(), &clause.pat, ty, scope)?;
    add_sites(alloc, program, &clause.body, scope, found)?;
    scope.truncate(depth);
    Ok(())
}

// Copies of the patterns of clauses, in order, for the site of their match.
fn patterns_of(alloc: Global, clauses: &[Clause]) -> Result<Seq<Pat>, AllocError>
    ensures { IfOk result (λ patterns. patterns ≡ map (λ c. c.pat) clauses.now) }
{
    let mut patterns = Seq::new(alloc);
    for clause in clauses {
        patterns.push(clause.pat.copy(alloc)?)?;
    }
    Ok(patterns)
}
