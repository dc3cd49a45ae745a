//! Expressions. A tree is what was read of the file, with names as text, and numbers replace them:
//! `tables` say what the names of types, constructors and functions stand for, `scope` what those
//! of variables do. A binder is what binds a variable, and `next` is the number of the next one in
//! the function. The first name that stands for nothing is the fault `Unknown`; an `Err` may also
//! be want of memory.

ghost use Rattle.std.specs.Prelude.{◌≡◌, map, OnOk};
ghost use Rattle.rb_syntax.specs.declared.tree.ExprTree.TheOpen as expr;
ghost use Rattle.rb_names.specs.inner.Parts.{AnswersFrom, numbered_clause};
ghost use Rattle.rb_names.specs.Numbering.{expr_step, in_turn, numbered_expression};
ghost use Rattle.rb_names.specs.inner.Frames.{scope_of};

use crate::fault::NameFault;
use crate::frame::fresh;
use crate::pattern::{enter_pattern, number_pattern};
use crate::scope::Scope;
use crate::tables::Tables;
use crate::types::number_type;
use rb_core::boxed::Boxed;
use rb_core::expression::{Clause, Expr};
use rb_core::seq::Seq;
use rb_syntax::tree::{ClauseTree, ExprTree, NameTree, TyTree};
use std::alloc::Global;

/// The expression of a tree within a scope, with numbers for its names. `next` is the number of the
/// next binder, before the expression and then behind it.
///
/// # Errors
///
/// `Unknown` for the first name, from left to right, that stands for nothing; or want of memory.
#[cycle(expression)]
pub fn number_expression<'a>(
    alloc: Global,
    tables: &Tables,
    tree: &'a ExprTree,
    scope: &mut Scope<'a>,
    next: &mut u32,
) -> Result<Expr, NameFault>
    ensures answers { AnswersFrom result next.new
        (numbered_expression tables.now tree.now (scope_of scope.old) next.old) }
    ensures scope { OnOk result (scope.new ≡ scope.old) }
{
    match tree {
        ExprTree::Num(at, n) => Ok(Expr::Num(*at, *n)),
        ExprTree::Var(at, name) => {
            let var = scope.known(alloc, name)?;
            Ok(Expr::Var(*at, var))
        }
        ExprTree::Call(at, name, args) => {
            let fun = tables.functions.known(alloc, name)?;
            let args = number_expressions(alloc, tables, args.as_slice(), scope, next)?;
            Ok(Expr::Call(*at, fun, args))
        }
        ExprTree::Build(at, name, fields) => {
            let con = tables.constructors.known(alloc, name)?;
            let fields = number_expressions(alloc, tables, fields.as_slice(), scope, next)?;
            Ok(Expr::Build(*at, con, fields))
        }
        ExprTree::Binary(at, op, a, b) => {
            let first = number_boxed(alloc, tables, a, scope, next)?;
            let second = number_boxed(alloc, tables, b, scope, next)?;
            Ok(Expr::Binary(*at, *op, first, second))
        }
        ExprTree::To(at, bits, a) => {
            let inner = number_boxed(alloc, tables, a, scope, next)?;
            Ok(Expr::To(*at, *bits, inner))
        }
        ExprTree::Let(at, name, ty, a, b) => {
            number_let(alloc, tables, *at, name, ty, a, b, scope, next)
        }
        ExprTree::Match(at, a, clauses) => {
            let scrutinee = number_boxed(alloc, tables, a, scope, next)?;
            let clauses = number_clauses(alloc, tables, clauses.as_slice(), scope, next)?;
            Ok(Expr::Match(*at, scrutinee, clauses))
        }
    }
}

// A `let` of this name and type, with the bound expression `a` and the body `b`.
#[cycle(expression)]
fn number_let<'a>(
    alloc: Global,
    tables: &Tables,
    at: u32,
    name: &'a NameTree,
    ty: &TyTree,
    a: &'a Boxed<ExprTree>,
    b: &'a Boxed<ExprTree>,
    scope: &mut Scope<'a>,
    next: &mut u32,
) -> Result<Expr, NameFault>
    ensures answers { AnswersFrom result next.new
        (expr_step tables.now (expr.Let at name.now ty.now (numbered_expression tables.now a.now)
        (numbered_expression tables.now b.now))
        (scope_of scope.old) next.old) }
    ensures scope { OnOk result (scope.new ≡ scope.old) }
{
    let ty = number_type(alloc, tables, ty)?;
    let var = fresh(next)?;
    let bound = number_boxed(alloc, tables, a, scope, next)?;
    scope.enter_one(alloc, name.text.as_slice(), var)?;
    let body = number_boxed(alloc, tables, b, scope, next)?;
    scope.leave();
    Ok(Expr::Let(at, var, ty, bound, body))
}

// The expression of a tree in a box, in a box of its own.
#[cycle(expression)]
fn number_boxed<'a>(
    alloc: Global,
    tables: &Tables,
    tree: &'a Boxed<ExprTree>,
    scope: &mut Scope<'a>,
    next: &mut u32,
) -> Result<Boxed<Expr>, NameFault>
    ensures answers { AnswersFrom result next.new
        (numbered_expression tables.now tree.now (scope_of scope.old) next.old) }
    ensures scope { OnOk result (scope.new ≡ scope.old) }
{
    let expr = number_expression(alloc, tables, tree.get(), scope, next)?;
    Ok(Boxed::new(alloc, expr)?)
}

// The expressions of trees, from left to right.
#[cycle(expression)]
fn number_expressions<'a>(
    alloc: Global,
    tables: &Tables,
    trees: &'a [ExprTree],
    scope: &mut Scope<'a>,
    next: &mut u32,
) -> Result<Seq<Expr>, NameFault>
    ensures answers { AnswersFrom result next.new
        (in_turn (map (numbered_expression tables.now) trees.now) (scope_of scope.old) next.old) }
    ensures scope { OnOk result (scope.new ≡ scope.old) }
{
    let mut exprs = Seq::new(alloc);
    for tree in trees {
        let expr = number_expression(alloc, tables, tree, scope, next)?;
        exprs.push(expr)?;
    }
    Ok(exprs)
}

// The clauses of a match, in their order.
#[cycle(expression)]
fn number_clauses<'a>(
    alloc: Global,
    tables: &Tables,
    trees: &'a [ClauseTree],
    scope: &mut Scope<'a>,
    next: &mut u32,
) -> Result<Seq<Clause>, NameFault>
    ensures answers { AnswersFrom result next.new
        (in_turn (map (numbered_clause tables.now) trees.now) (scope_of scope.old) next.old) }
    ensures scope { OnOk result (scope.new ≡ scope.old) }
{
    let mut clauses = Seq::new(alloc);
    for tree in trees {
        let clause = number_clause(alloc, tables, tree, scope, next)?;
        clauses.push(clause)?;
    }
    Ok(clauses)
}

// A clause, whose body stands inside the variables of its pattern.
#[cycle(expression)]
fn number_clause<'a>(
    alloc: Global,
    tables: &Tables,
    tree: &'a ClauseTree,
    scope: &mut Scope<'a>,
    next: &mut u32,
) -> Result<Clause, NameFault>
    ensures answers { AnswersFrom result next.new
        (numbered_clause tables.now tree.now (scope_of scope.old) next.old) }
    ensures scope { OnOk result (scope.new ≡ scope.old) }
{
    enter_pattern(alloc, scope, &tree.pat, next)?;
    let pat = number_pattern(alloc, tables, scope, &tree.pat)?;
    let body = number_expression(alloc, tables, &tree.body, scope, next)?;
    scope.leave();
    Ok(Clause { pat, body })
}
