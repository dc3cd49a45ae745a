//! Which variables an expression uses, and what of a pattern binds them. An arm, the code of a
//! clause, reads no others. Variables are numbered, and marks tell of some in a row whether each is
//! used. An error is want of memory.

ghost use Rattle.std.specs.Prelude.{◌≡◌, IfOk, map, true};
ghost use Rattle.std.specs.List.{flat_map};
ghost use Rattle.rb_compile.specs.inner.Used.{AreKept, IsPrunedFor, MarksMore, is_kept, pruned_pattern, variables_in, variables_of_clause};

use rb_core::expression::{Clause, Expr};
use rb_core::pattern::Pat;
use rb_core::seq::Seq;
use std::alloc::{AllocError, Global};

/// For so many variables in a row, from `first` on, whether each is used. Others are taken as used.
#[derive(Drop)]
pub(crate) struct Marks {
    pub first: u32,
    pub used: Seq<bool>,
}

// Whether a variable is taken as used: it is marked, or it is none of those of which the marks
// tell.
fn is_used(marks: &Marks, var: u32) -> bool
    ensures { result ≡ is_kept marks.now var }
{
    if var < marks.first {
        return true;
    }
    match marks.used.get((var - marks.first) as usize) {
        None => true,
        Some(used) => *used,
    }
}

// Marks a variable as used. One of which the marks do not tell is taken as used anyway.
fn mark(marks: &mut Marks, var: u32)
    ensures more { MarksMore marks.old marks.new }
    ensures kept { is_kept marks.new var ≡ true }
{
    if var >= marks.first {
        let place = (var - marks.first) as usize;
        if place < marks.used.len() {
            marks.used.replace(place, true);
        }
    }
}

// Marks as used the variables that stand in an expression.
#[cycle(marking)]
fn mark_expr(marks: &mut Marks, expr: &Expr)
    ensures more { MarksMore marks.old marks.new }
    ensures kept { AreKept (variables_in expr.now) marks.new }
{
    match expr {
        Expr::Num(_, _) => {}
        Expr::Var(_, var) => mark(marks, *var),
        Expr::Call(_, _, args) => mark_all(marks, args.as_slice()),
        Expr::Build(_, _, args) => mark_all(marks, args.as_slice()),
        Expr::Binary(_, _, a, b) => {
            mark_expr(marks, a.get());
            mark_expr(marks, b.get());
        }
        Expr::To(_, _, a) => mark_expr(marks, a.get()),
        Expr::Let(_, _, _, a, b) => {
            mark_expr(marks, a.get());
            mark_expr(marks, b.get());
        }
        Expr::Match(_, scrutinee, clauses) => {
            mark_expr(marks, scrutinee.get());
            mark_bodies(marks, clauses.as_slice());
        }
    }
}

// Marks as used the variables that stand in some expressions.
#[cycle(marking)]
fn mark_all(marks: &mut Marks, exprs: &[Expr])
    ensures more { MarksMore marks.old marks.new }
    ensures kept { AreKept (flat_map (λ xs. xs) (map variables_in exprs.now)) marks.new }
{
    for expr in exprs {
        mark_expr(marks, expr);
    }
}

// Marks as used the variables that stand in the bodies of some clauses.
#[cycle(marking)]
fn mark_bodies(marks: &mut Marks, clauses: &[Clause])
    ensures more { MarksMore marks.old marks.new }
    ensures kept { AreKept (flat_map (λ xs. xs) (map variables_of_clause clauses.now)) marks.new }
{
    for clause in clauses {
        mark_expr(marks, &clause.body);
    }
}

// The pattern with wildcards in place of numbers and of unused variables. Its constructors stay.
#[cycle(pruning)]
fn prune(alloc: Global, marks: &Marks, pat: &Pat) -> Result<Pat, AllocError>
    ensures { IfOk result (λ p. p ≡ pruned_pattern (is_kept marks.now) pat.now) }
{
    match pat {
        Pat::Wild(at) => Ok(Pat::Wild(*at)),
        Pat::Num(at, _) => Ok(Pat::Wild(*at)),
        Pat::Var(at, var) => {
            if is_used(marks, *var) {
                return Ok(Pat::Var(*at, *var));
            }
            Ok(Pat::Wild(*at))
        }
        Pat::Con(at, con, subs) => {
            let pruned = prune_all(alloc, marks, subs.as_slice())?;
            Ok(Pat::Con(*at, *con, pruned))
        }
    }
}

// Some patterns, each with wildcards in place of numbers and of unused variables. Their
// constructors stay.
#[cycle(pruning)]
fn prune_all(alloc: Global, marks: &Marks, pats: &[Pat]) -> Result<Seq<Pat>, AllocError>
    ensures { IfOk result (λ ps. ps ≡ map (pruned_pattern (is_kept marks.now)) pats.now) }
{
    let mut all = Seq::new(alloc);
    for pat in pats {
        all.push(prune(alloc, marks, pat)?)?;
    }
    Ok(all)
}

// Adds the variables that a pattern binds to a list, from left to right. No clause says which these
// are: they serve only to choose of which variables marks tell.
fn add_variables(pat: &Pat, vars: &mut Seq<u32>) -> Result<(), AllocError> {
    match pat {
        Pat::Wild(_) | Pat::Num(_, _) => Ok(()),
        Pat::Var(_, var) => {
            vars.push(*var)?;
            Ok(())
        }
        Pat::Con(_, _, subs) => {
            for sub in subs.as_slice() {
                add_variables(sub, vars)?;
            }
            Ok(())
        }
    }
}

// Marks for a pattern's variables, of which none is used: as many as these are, from the least on.
// Those of one pattern are numbered in a row. Without variables the marks tell of none. No clause
// says of which variables they tell: all others are taken as used, which costs code alone.
fn no_marks(alloc: Global, pat: &Pat) -> Result<Marks, AllocError> {
    let mut vars = Seq::new(alloc);
    add_variables(pat, &mut vars)?;
    let mut first = 0;
    let mut used = Seq::new(alloc);
    for (i, var) in vars.as_slice().iter().enumerate() {
        if i == 0 || *var < first {
            first = *var;
        }
        used.push(false)?;
    }
    Ok(Marks { first, used })
}

/// What a pattern binds for an expression: the pattern with wildcards in place of numbers, and of
/// variables that don't stand in the expression. Its constructors stay: they tell which leaves, the
/// cases of its type's layout, a value that it matches can have.
///
/// # Errors
///
/// Want of memory.
pub(crate) fn used_pattern(alloc: Global, pat: &Pat, body: &Expr) -> Result<Pat, AllocError>
    ensures { IfOk result (λ p. IsPrunedFor body.now pat.now p) }
{
    let mut marks = no_marks(alloc, pat)?;
    mark_expr(&mut marks, body);
    let found = prune(alloc, &marks, pat)?;
    Ok(found)
}
