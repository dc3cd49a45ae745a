//! What the file shows of the values of expressions, before any code runs: a pattern that the value
//! matches, with the constructors that are written in the expression. A wildcard shows nothing.

ghost use Rattle.std.specs.Prelude.{◌≡◌, IfOk, map};
ghost use Rattle.rb_compile.specs.inner.Shown.{shown_of};

use rb_core::expression::Expr;
use rb_core::pattern::Pat;
use rb_core::seq::Seq;
use std::alloc::{AllocError, Global};

// What an expression shows of its value: a construction its constructor, and below it what its
// arguments show; any other expression nothing. An error is want of memory.
#[cycle(showing)]
fn shown_pattern(alloc: Global, expr: &Expr) -> Result<Pat, AllocError>
    ensures { IfOk result (λ pat. pat ≡ shown_of expr.now) }
{
    match expr {
        Expr::Build(at, con, args) => {
            let subs = shown_patterns(alloc, args.as_slice())?;
            Ok(Pat::Con(*at, *con, subs))
        }
        Expr::Num(_, _)
        | Expr::Var(_, _)
        | Expr::Call(_, _, _)
        | Expr::Binary(_, _, _, _)
        | Expr::To(_, _, _)
        | Expr::Let(_, _, _, _, _)
        | Expr::Match(_, _, _) => Ok(Pat::Wild(0)),
    }
}

/// Patterns that the values of expressions match, one each, in their order: what each shows.
///
/// # Errors
///
/// Want of memory.
#[cycle(showing)]
pub(crate) fn shown_patterns(alloc: Global, exprs: &[Expr]) -> Result<Seq<Pat>, AllocError>
    ensures { IfOk result (λ pats. pats ≡ map shown_of exprs.now) }
{
    let mut pats = Seq::new(alloc);
    for expr in exprs {
        pats.push(shown_pattern(alloc, expr)?)?;
    }
    Ok(pats)
}
