//! The numbers of a program that is held in memory, each of which is a `u64`.

ghost use Rattle.std.specs.Prelude.{◌≡◌, ◌^◌, map, true, nat_lt};
ghost use Rattle.std.specs.List.{list_all};
ghost use Rattle.rb_sound.specs.Words.{has_words, body_has_words, HasWords};
ghost use Rattle.rb_sound.specs.inner.Words.{clause_has_words};

use rb_core::expression::{Clause, Expr};
use rb_core::program::{Fun, Program};

// A number in memory is below 2^64, as its type says.
fn see_number(number: u64)
    ensures { nat_lt number (2 ^ 64) ≡ true }
{}

// Looks at the numbers of an expression, patterns apart: each is below 2^64.
#[cycle(seeing)]
fn see_expression(expr: &Expr)
    ensures { has_words expr.now ≡ true }
{
    match expr {
        Expr::Num(_, number) => see_number(*number),
        Expr::Var(_, _) => {}
        Expr::Call(_, _, args) => see_expressions(args.as_slice()),
        Expr::Build(_, _, args) => see_expressions(args.as_slice()),
        Expr::Binary(_, _, a, b) => {
            see_expression(a.get());
            see_expression(b.get());
        }
        Expr::To(_, _, of) => see_expression(of.get()),
        Expr::Let(_, _, _, value, body) => {
            see_expression(value.get());
            see_expression(body.get());
        }
        Expr::Match(_, scrutinee, clauses) => {
            see_expression(scrutinee.get());
            see_clauses(clauses.as_slice());
        }
    }
}

// Looks at the numbers of several expressions, one after the other.
#[cycle(seeing)]
fn see_expressions(exprs: &[Expr])
    ensures { list_all (λ b. b) (map has_words exprs.now) ≡ true }
{
    for expr in exprs {
        see_expression(expr);
    }
}

// Looks at the numbers of clauses' bodies.
#[cycle(seeing)]
fn see_clauses(clauses: &[Clause])
    ensures { list_all (λ b. b) (map clause_has_words clauses.now) ≡ true }
{
    for clause in clauses {
        see_expression(&clause.body);
    }
}

// Looks at the numbers of functions' bodies.
fn see_functions(funs: &[Fun])
    ensures { list_all (λ b. b) (map body_has_words funs.now) ≡ true }
{
    for fun in funs {
        see_expression(&fun.body);
    }
}

/// The numbers of a program have at most 64 bits. They are looked at one by one, since it is of a
/// number alone that its type says so.
pub fn see_numbers(program: &Program)
    ensures { HasWords program.now }
{
    see_functions(program.funs.as_slice());
}
