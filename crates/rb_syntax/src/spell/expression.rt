//! Expressions as tokens. Tokens are gathered last first, since a tree is written in front of what
//! follows it: to put a part is to add its tokens to `out`, the last of them first. The comments
//! name them in the order of the text.

ghost use Rattle.std.specs.Prelude.{◌≡◌, ◌∷◌, ℕ, map, OnOk};
ghost use Rattle.rb_core.specs.declared.expression.Op.{Op};
ghost use Rattle.rb_syntax.specs.declared.token.Symbol.TheVariants as symbol;
ghost use Rattle.rb_syntax.specs.declared.token.ReservedWord.TheVariants as word;
ghost use Rattle.rb_syntax.specs.inner.Backward.{Wrote};
ghost use Rattle.rb_syntax.specs.Written as written;
ghost use Rattle.rb_syntax.specs.Written.{any_with, some_with};
ghost use Rattle.rb_syntax.specs.Spelling as spelling;
ghost use Rattle.rb_syntax.specs.Spelling.{expr_written, clause_written, at_level, comma, op_word, lower_written, ty_written, uint_written};

use crate::spell::pattern::put_pat;
use crate::spell::{put_lower, put_num, put_symbol, put_ty, put_uint, put_upper, put_word};
use crate::token::{ReservedWord, Symbol, Token};
use crate::tree::{ClauseTree, ExprTree, NameTree, Op, TyTree};
use std::alloc::{AllocError, Global};

// The reserved word of an operator.
fn word_of_op(op: Op) -> ReservedWord
    ensures { result ≡ op_word op }
{
    match op {
        Op::Add => ReservedWord::Add,
        Op::Sub => ReservedWord::Sub,
        Op::Mul => ReservedWord::Mul,
        Op::And => ReservedWord::And,
        Op::Or => ReservedWord::Or,
        Op::Xor => ReservedWord::Xor,
        Op::Eq => ReservedWord::Eq,
        Op::Lt => ReservedWord::Lt,
    }
}

/// Puts an expression in front of what was put before it.
#[cycle(expression)]
pub(crate) fn put_expr(
    alloc: Global,
    out: &mut Vec<Token>,
    expr: &ExprTree,
) -> Result<(), AllocError>
    ensures { OnOk result ((l : ℕ) → Wrote (expr_written expr.now l) out.old.items out.new.items) }
{
    match expr {
        ExprTree::Num(_, n) => put_num(out, *n),
        ExprTree::Var(_, name) => put_lower(alloc, out, name),
        ExprTree::Call(_, name, args) => {
            put_args(alloc, out, args.as_slice())?;
            put_lower(alloc, out, name)?;
            Ok(())
        }
        ExprTree::Build(_, name, fields) => match fields.as_slice() {
            [] => put_upper(alloc, out, name),
            [_, ..] => {
                put_args(alloc, out, fields.as_slice())?;
                put_upper(alloc, out, name)?;
                Ok(())
            }
        },
        ExprTree::Binary(_, op, a, b) => put_binary(alloc, out, *op, a.get(), b.get()),
        ExprTree::To(_, bits, a) => put_conversion(alloc, out, *bits, a.get()),
        ExprTree::Let(_, name, ty, a, b) => put_let(alloc, out, name, ty, a.get(), b.get()),
        ExprTree::Match(_, scrutinee, clauses) => {
            put_clauses(alloc, out, clauses.as_slice())?;
            put_expr(alloc, out, scrutinee.get())?;
            put_word(out, ReservedWord::Match)?;
            Ok(())
        }
    }
}

// Puts an operator, as its reserved word, with its two operands, as `add(a, b)`.
#[cycle(expression)]
fn put_binary(
    alloc: Global,
    out: &mut Vec<Token>,
    op: Op,
    a: &ExprTree,
    b: &ExprTree,
) -> Result<(), AllocError>
    ensures { OnOk result ((l : ℕ) → Wrote (λ rest. spelling.word_token (op_word op) ∷ spelling.sym symbol.OpenParen
        ∷ expr_written a.now l (written.token comma
        ∷ expr_written b.now l (spelling.sym symbol.CloseParen ∷ rest))) out.old.items out.new.items) }
{
    put_symbol(out, Symbol::CloseParen)?;
    put_expr(alloc, out, b)?;
    put_symbol(out, Symbol::Comma)?;
    put_expr(alloc, out, a)?;
    put_symbol(out, Symbol::OpenParen)?;
    put_word(out, word_of_op(op))?;
    Ok(())
}

// Puts a conversion to another width, as `to u8(a)`.
#[cycle(expression)]
fn put_conversion(
    alloc: Global,
    out: &mut Vec<Token>,
    bits: u8,
    a: &ExprTree,
) -> Result<(), AllocError>
    ensures { OnOk result ((l : ℕ) → Wrote (λ rest. spelling.word_token word.To
        ∷ uint_written bits (spelling.sym symbol.OpenParen ∷ expr_written a.now l
        (spelling.sym symbol.CloseParen ∷ rest))) out.old.items out.new.items) }
{
    put_symbol(out, Symbol::CloseParen)?;
    put_expr(alloc, out, a)?;
    put_symbol(out, Symbol::OpenParen)?;
    put_uint(out, bits)?;
    put_word(out, ReservedWord::To)?;
    Ok(())
}

// Puts a `let`, as `let x: T = a in b`.
#[cycle(expression)]
fn put_let(
    alloc: Global,
    out: &mut Vec<Token>,
    name: &NameTree,
    ty: &TyTree,
    a: &ExprTree,
    b: &ExprTree,
) -> Result<(), AllocError>
    ensures { OnOk result ((l : ℕ) → Wrote (λ rest. spelling.word_token word.Let ∷ lower_written name.now
        (spelling.sym symbol.Colon ∷ ty_written ty.now (spelling.sym symbol.Equals
        ∷ expr_written a.now l (spelling.word_token word.In ∷ expr_written b.now l rest))))
        out.old.items out.new.items) }
{
    put_expr(alloc, out, b)?;
    put_word(out, ReservedWord::In)?;
    put_expr(alloc, out, a)?;
    put_symbol(out, Symbol::Equals)?;
    put_ty(alloc, out, ty)?;
    put_symbol(out, Symbol::Colon)?;
    put_lower(alloc, out, name)?;
    put_word(out, ReservedWord::Let)?;
    Ok(())
}

// Puts expressions in parentheses with commas between, as `(a, b)`.
#[cycle(expression)]
fn put_args(alloc: Global, out: &mut Vec<Token>, args: &[ExprTree]) -> Result<(), AllocError>
    ensures { OnOk result ((l : ℕ) → Wrote (λ rest. spelling.sym symbol.OpenParen
        ∷ any_with comma (at_level l (map expr_written args.now))
        (spelling.sym symbol.CloseParen ∷ rest)) out.old.items out.new.items) }
{
    put_symbol(out, Symbol::CloseParen)?;
    for i in (0..args.len()).rev() {
        put_expr(alloc, out, &args[i])?;
        if i > 0 {
            put_symbol(out, Symbol::Comma)?;
        }
    }
    put_symbol(out, Symbol::OpenParen)?;
    Ok(())
}

// Puts the clauses of a match in braces with commas between, as `{ p => e, q => f }`. The grammar
// has no form for none.
#[cycle(expression)]
fn put_clauses(
    alloc: Global,
    out: &mut Vec<Token>,
    clauses: &[ClauseTree],
) -> Result<(), AllocError>
    ensures { OnOk result ((l : ℕ) → Wrote (λ rest. spelling.sym symbol.OpenBrace
        ∷ some_with comma (at_level l (map clause_written clauses.now))
        (spelling.sym symbol.CloseBrace ∷ rest)) out.old.items out.new.items) }
{
    put_symbol(out, Symbol::CloseBrace)?;
    for i in (0..clauses.len()).rev() {
        let clause = &clauses[i];
        put_expr(alloc, out, &clause.body)?;
        put_symbol(out, Symbol::FatArrow)?;
        put_pat(alloc, out, &clause.pat)?;
        if i > 0 {
            put_symbol(out, Symbol::Comma)?;
        }
    }
    put_symbol(out, Symbol::OpenBrace)?;
    Ok(())
}
