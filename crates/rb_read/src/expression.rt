//! Reads expressions.
//!
//! Each reader takes the tokens that are left, `placed`, and gives what it read with those behind
//! it. Of the file there are `total` tokens in all, so that a token's number follows from how many
//! are left. A node's first token has number `at`.
//!
//! A node is an expression or a pattern. It takes one level of those that are left, `levels`, and
//! the nodes in it have one fewer. A reader is `Stuck` at the first token that may not stand where
//! it does, or behind the last token where the tokens end too early. At a node for which no level
//! is left it stops with `Deep`. Want of memory stops it, too.
//!
//! A reserved word tells the form of the expression that it begins: an operation on two numbers, a
//! conversion to another width, a `let` or a match.

ghost use Rattle.std.specs.Prelude.{◌≡◌, ◌<◌, ◌^◌};
ghost use Rattle.rb_syntax.specs.declared.token.Symbol.TheVariants as symbols;
ghost use Rattle.rb_syntax.specs.declared.tree.ExprTree.TheVariants as exprs;
ghost use Rattle.rb_syntax.specs.Tokens.{tokens};
ghost use Rattle.rb_read.specs.inner.Combining as combining;
ghost use Rattle.rb_read.specs.inner.Reading as reading;
ghost use Rattle.rb_read.specs.inner.Gives.{Gives};

use crate::beyond::beyond;
use crate::list::read_some_closed;
use crate::pattern::read_pattern;
use crate::starting::{Form, form_of};
use crate::stop::Stop;
use crate::tokens::{begins_with, expect, expect_word, number_of, read_lower_before, read_width};
use crate::types::read_type_before;
use rb_core::boxed::Boxed;
use rb_core::seq::Seq;
use rb_syntax::token::{Placed, ReservedWord, Symbol, Token};
use rb_syntax::tree::{ClauseTree, ExprTree, Name, NameTree, Op, PatTree, TyTree};
use std::alloc::Global;

// Whether the first token begins an expression; not where there is no token.
fn begins_expression(placed: &[Placed]) -> bool
    ensures { result ≡ combining.at_front (λ t. reading.begins_expression t) (tokens placed.now) }
{
    match placed {
        [] => false,
        [first, ..] => match first.token {
            Token::Upper(_) | Token::Lower(_) | Token::Num(_) => true,
            Token::Reserved(word) => !matches!(form_of(word), Form::Other),
            _ => false,
        },
    }
}

/// An expression, with so many levels left.
///
/// # Errors
///
/// `Stuck` at the first token at which no expression goes on, or `Deep` at the first that begins a
/// node beyond the levels, whichever stands first; or want of memory.
#[cycle(expressions)]
#[tactic(auto, unfolding(crate::specs::inner::Reading::expression))]
pub fn read_expression<'a>(
    alloc: Global,
    levels: u32,
    total: usize,
    placed: &'a [Placed],
) -> Result<(ExprTree, &'a [Placed]), Stop>
    requires { total < 2 ^ 32 }
    ensures { Gives (λ x. (x.0, tokens x.1.now)) result (reading.expression levels total (tokens placed.now)) }
{
    if levels == 0 {
        return Err(beyond(begins_expression(placed), placed));
    }
    read_expression_node(alloc, levels - 1, total, placed)
}

// An expression with so many levels left, in a box, as it stands inside another.
#[cycle(expressions)]
fn read_boxed<'a>(
    alloc: Global,
    levels: u32,
    total: usize,
    placed: &'a [Placed],
) -> Result<(Boxed<ExprTree>, &'a [Placed]), Stop>
    requires { total < 2 ^ 32 }
    ensures { Gives (λ x. (x.0, tokens x.1.now)) result (reading.expression levels total (tokens placed.now)) }
{
    let (inner, rest) = read_expression(alloc, levels, total, placed)?;
    Ok((Boxed::new(alloc, inner)?, rest))
}

// An expression with so many levels left, in a box, and the symbol `close` behind it.
#[cycle(expressions)]
#[tactic(auto, unfolding(crate::specs::inner::Combining::closed_by, crate::specs::inner::Combining::pair, crate::specs::inner::Combining::into))]
fn read_boxed_before<'a>(
    alloc: Global,
    levels: u32,
    total: usize,
    close: Symbol,
    placed: &'a [Placed],
) -> Result<(Boxed<ExprTree>, &'a [Placed]), Stop>
    requires { total < 2 ^ 32 }
    ensures { Gives (λ x. (x.0, tokens x.1.now)) result
        (combining.closed_by (λ ts. reading.expression levels total ts) close (tokens placed.now)) }
{
    let (inner, rest) = read_boxed(alloc, levels, total, placed)?;
    let rest = expect(close, rest)?;
    Ok((inner, rest))
}

// An expression whose parts have so many levels left.
#[cycle(expressions)]
#[tactic(auto, unfolding(crate::specs::inner::Reading::expression_one, crate::specs::inner::Reading::expression_from))]
fn read_expression_node<'a>(
    alloc: Global,
    levels: u32,
    total: usize,
    placed: &'a [Placed],
) -> Result<(ExprTree, &'a [Placed]), Stop>
    requires { total < 2 ^ 32 }
    ensures { Gives (λ x. (x.0, tokens x.1.now)) result
        (reading.expression_one (λ ts. reading.pattern levels total ts)
        (λ ts. reading.expression levels total ts) total (tokens placed.now)) }
{
    match placed {
        [] => Err(Stop::Stuck(0)),
        [first, rest @ ..] => {
            let at = number_of(total, placed);
            match &first.token {
                Token::Num(n) => Ok((ExprTree::Num(at, *n), rest)),
                Token::Lower(name) => read_called(alloc, levels, total, at, name, rest),
                Token::Upper(name) => read_built(alloc, levels, total, at, name, rest),
                Token::Reserved(word) => read_form(alloc, levels, total, at, form_of(*word), rest),
                _ => Err(Stop::Stuck(placed.len())),
            }
        }
    }
}

// A variable or a call of a function, behind its `name`: a call where a parenthesis stands there,
// else a variable. Arguments have so many levels left.
#[cycle(expressions)]
#[tactic(auto, unfolding(crate::specs::inner::Combining::into))]
fn read_called<'a>(
    alloc: Global,
    levels: u32,
    total: usize,
    at: u32,
    name: &Name,
    placed: &'a [Placed],
) -> Result<(ExprTree, &'a [Placed]), Stop>
    requires { total < 2 ^ 32 }
    ensures { Gives (λ x. (x.0, tokens x.1.now)) result
        (combining.into (λ o. reading.name_or_call at name.now o)
        (reading.arguments (λ ts. reading.expression levels total ts)) (tokens placed.now)) }
{
    let text = name.copy(alloc)?;
    let (arguments, rest) = read_call(alloc, levels, total, placed)?;
    Ok((name_or_call(NameTree { at, text }, arguments), rest))
}

// What a name is: a variable where no arguments stand behind it, else a call with these.
fn name_or_call(name: NameTree, arguments: Option<Seq<ExprTree>>) -> ExprTree
    ensures { result ≡ reading.name_or_call name.at name.text arguments }
{
    let at = name.at;
    match arguments {
        None => ExprTree::Var(at, name),
        Some(arguments) => ExprTree::Call(at, name, arguments),
    }
}

// The arguments of a call in parentheses, any number; None where no parenthesis opens.
#[cycle(expressions)]
#[tactic(auto, unfolding(crate::specs::inner::Reading::arguments, crate::specs::inner::Combining::optional, crate::specs::inner::Combining::pair, crate::specs::inner::Combining::into))]
fn read_call<'a>(
    alloc: Global,
    levels: u32,
    total: usize,
    placed: &'a [Placed],
) -> Result<(Option<Seq<ExprTree>>, &'a [Placed]), Stop>
    requires { total < 2 ^ 32 }
    ensures { Gives (λ x. (x.0, tokens x.1.now)) result
        (reading.arguments (λ ts. reading.expression levels total ts) (tokens placed.now)) }
{
    if !begins_with(Symbol::OpenParen, placed) {
        return Ok((None, placed));
    }
    let rest = expect(Symbol::OpenParen, placed)?;
    let (arguments, rest) = read_arguments(alloc, levels, total, rest)?;
    Ok((Some(arguments), rest))
}

// The arguments of a call behind its opening parenthesis: any number of expressions with commas
// between, and the parenthesis that closes them.
#[cycle(expressions)]
#[tactic(auto, unfolding(crate::specs::inner::Combining::any_closed))]
fn read_arguments<'a>(
    alloc: Global,
    levels: u32,
    total: usize,
    placed: &'a [Placed],
) -> Result<(Seq<ExprTree>, &'a [Placed]), Stop>
    requires { total < 2 ^ 32 }
    ensures { Gives (λ x. (x.0, tokens x.1.now)) result
        (combining.any_closed (λ ts. reading.expression levels total ts) symbols.CloseParen (tokens placed.now)) }
{
    if begins_with(Symbol::CloseParen, placed) {
        return Ok((Seq::new(alloc), &placed[1..]));
    }
    read_some_expressions(alloc, levels, total, placed)
}

// One expression or more with commas between, and the parenthesis that closes them.
#[cycle(expressions)]
fn read_some_expressions<'a>(
    alloc: Global,
    levels: u32,
    total: usize,
    placed: &'a [Placed],
) -> Result<(Seq<ExprTree>, &'a [Placed]), Stop>
    requires { total < 2 ^ 32 }
    ensures { Gives (λ x. (x.0, tokens x.1.now)) result
        (combining.some_closed (λ ts. reading.expression levels total ts) symbols.Comma symbols.CloseParen
        (tokens placed.now)) }
{
    read_some_closed(
        alloc,
        |rest|
            requires { total < 2 ^ 32 }
            ensures { Gives (λ x. (x.0, tokens x.1.now)) result (reading.expression levels total (tokens rest.now)) }
        { read_expression(alloc, levels, total, rest) },
        Symbol::Comma,
        Symbol::CloseParen,
        placed,
    )
}

// A constructor with its fields, behind its `name`. It has none where no parenthesis stands there.
// Fields have so many levels left.
#[cycle(expressions)]
#[tactic(auto, unfolding(crate::specs::inner::Combining::into))]
fn read_built<'a>(
    alloc: Global,
    levels: u32,
    total: usize,
    at: u32,
    name: &Name,
    placed: &'a [Placed],
) -> Result<(ExprTree, &'a [Placed]), Stop>
    requires { total < 2 ^ 32 }
    ensures { Gives (λ x. (x.0, tokens x.1.now)) result
        (combining.into (λ es. exprs.Build at (reading.name_tree at name.now) es)
        (combining.in_parens (λ ts. reading.expression levels total ts)) (tokens placed.now)) }
{
    let text = name.copy(alloc)?;
    let (fields, rest) = read_fields(alloc, levels, total, placed)?;
    Ok((ExprTree::Build(at, NameTree { at, text }, fields), rest))
}

// A constructor's fields in parentheses, one or more, or nothing, which is no field.
#[cycle(expressions)]
#[tactic(auto, unfolding(crate::specs::inner::Combining::in_parens))]
fn read_fields<'a>(
    alloc: Global,
    levels: u32,
    total: usize,
    placed: &'a [Placed],
) -> Result<(Seq<ExprTree>, &'a [Placed]), Stop>
    requires { total < 2 ^ 32 }
    ensures { Gives (λ x. (x.0, tokens x.1.now)) result
        (combining.in_parens (λ ts. reading.expression levels total ts) (tokens placed.now)) }
{
    if begins_with(Symbol::OpenParen, placed) {
        return read_some_expressions(alloc, levels, total, &placed[1..]);
    }
    Ok((Seq::new(alloc), placed))
}

// An expression behind the reserved word that it begins with, by the `form` that this word tells.
// It is stuck at the word itself where the form is `Other`.
#[cycle(expressions)]
#[tactic(auto, unfolding(crate::specs::inner::Reading::from_form))]
fn read_form<'a>(
    alloc: Global,
    levels: u32,
    total: usize,
    at: u32,
    form: Form,
    placed: &'a [Placed],
) -> Result<(ExprTree, &'a [Placed]), Stop>
    requires { total < 2 ^ 32 }
    ensures { Gives (λ x. (x.0, tokens x.1.now)) result
        (reading.from_form (λ ts. reading.pattern levels total ts)
        (λ ts. reading.expression levels total ts) total at form (tokens placed.now)) }
{
    match form {
        Form::Operation(op) => read_operation(alloc, levels, total, at, op, placed),
        Form::Conversion => read_conversion(alloc, levels, total, at, placed),
        Form::Binding => read_binding(alloc, levels, total, at, placed),
        Form::Matching => read_matching(alloc, levels, total, at, placed),
        Form::Other => Err(Stop::Stuck(placed.len() + 1)),
    }
}

// An operation behind its word: `(a, b)` in `add(a, b)`.
#[cycle(expressions)]
#[tactic(auto, unfolding(crate::specs::inner::Reading::operation, crate::specs::inner::Combining::pair, crate::specs::inner::Combining::into))]
fn read_operation<'a>(
    alloc: Global,
    levels: u32,
    total: usize,
    at: u32,
    op: Op,
    placed: &'a [Placed],
) -> Result<(ExprTree, &'a [Placed]), Stop>
    requires { total < 2 ^ 32 }
    ensures { Gives (λ x. (x.0, tokens x.1.now)) result
        (reading.operation (λ ts. reading.pattern levels total ts)
        (λ ts. reading.expression levels total ts) total at op (tokens placed.now)) }
{
    let rest = expect(Symbol::OpenParen, placed)?;
    let (first, rest) = read_boxed_before(alloc, levels, total, Symbol::Comma, rest)?;
    let (second, rest) = read_boxed_before(alloc, levels, total, Symbol::CloseParen, rest)?;
    Ok((ExprTree::Binary(at, op, first, second), rest))
}

// A conversion behind its word: `u8(a)` in `to u8(a)`.
#[cycle(expressions)]
#[tactic(auto, unfolding(crate::specs::inner::Reading::conversion, crate::specs::inner::Combining::pair, crate::specs::inner::Combining::into))]
fn read_conversion<'a>(
    alloc: Global,
    levels: u32,
    total: usize,
    at: u32,
    placed: &'a [Placed],
) -> Result<(ExprTree, &'a [Placed]), Stop>
    requires { total < 2 ^ 32 }
    ensures { Gives (λ x. (x.0, tokens x.1.now)) result
        (reading.conversion (λ ts. reading.pattern levels total ts)
        (λ ts. reading.expression levels total ts) total at (tokens placed.now)) }
{
    let (bits, rest) = read_width(placed)?;
    let rest = expect(Symbol::OpenParen, rest)?;
    let (inner, rest) = read_boxed_before(alloc, levels, total, Symbol::CloseParen, rest)?;
    Ok((ExprTree::To(at, bits, inner), rest))
}

// The variable of a `let` with its type, and the equals sign behind them: `x: T =`.
#[tactic(auto, unfolding(crate::specs::inner::Reading::typed_variable, crate::specs::inner::Combining::pair))]
fn read_typed_variable<'a>(
    alloc: Global,
    total: usize,
    placed: &'a [Placed],
) -> Result<((NameTree, TyTree), &'a [Placed]), Stop>
    requires { total < 2 ^ 32 }
    ensures { Gives (λ x. (x.0, tokens x.1.now)) result (reading.typed_variable total (tokens placed.now)) }
{
    let (name, rest) = read_lower_before(alloc, total, Symbol::Colon, placed)?;
    let (ty, rest) = read_type_before(alloc, total, Symbol::Equals, rest)?;
    Ok(((name, ty), rest))
}

// What a `let` binds and its body: `a in b`.
#[cycle(expressions)]
#[tactic(auto, unfolding(crate::specs::inner::Reading::bound_and_body, crate::specs::inner::Combining::pair, crate::specs::inner::Combining::into))]
fn read_bound_and_body<'a>(
    alloc: Global,
    levels: u32,
    total: usize,
    placed: &'a [Placed],
) -> Result<((Boxed<ExprTree>, Boxed<ExprTree>), &'a [Placed]), Stop>
    requires { total < 2 ^ 32 }
    ensures { Gives (λ x. (x.0, tokens x.1.now)) result
        (reading.bound_and_body (λ ts. reading.expression levels total ts) (tokens placed.now)) }
{
    let (bound, rest) = read_boxed(alloc, levels, total, placed)?;
    let rest = expect_word(ReservedWord::In, rest)?;
    let (body, rest) = read_boxed(alloc, levels, total, rest)?;
    Ok(((bound, body), rest))
}

// A `let` behind its word: `x: T = a in b`.
#[cycle(expressions)]
#[tactic(auto, unfolding(crate::specs::inner::Reading::binding, crate::specs::inner::Combining::pair, crate::specs::inner::Combining::into))]
fn read_binding<'a>(
    alloc: Global,
    levels: u32,
    total: usize,
    at: u32,
    placed: &'a [Placed],
) -> Result<(ExprTree, &'a [Placed]), Stop>
    requires { total < 2 ^ 32 }
    ensures { Gives (λ x. (x.0, tokens x.1.now)) result
        (reading.binding (λ ts. reading.pattern levels total ts) (λ ts. reading.expression levels total ts) total at
        (tokens placed.now)) }
{
    let ((name, ty), rest) = read_typed_variable(alloc, total, placed)?;
    let ((bound, body), rest) = read_bound_and_body(alloc, levels, total, rest)?;
    Ok((ExprTree::Let(at, name, ty, bound, body), rest))
}

// A match behind its word: `a { p => e, q => f }`.
#[cycle(expressions)]
#[tactic(auto, unfolding(crate::specs::inner::Reading::matching, crate::specs::inner::Reading::clause_tree, crate::specs::inner::Combining::pair, crate::specs::inner::Combining::into))]
fn read_matching<'a>(
    alloc: Global,
    levels: u32,
    total: usize,
    at: u32,
    placed: &'a [Placed],
) -> Result<(ExprTree, &'a [Placed]), Stop>
    requires { total < 2 ^ 32 }
    ensures { Gives (λ x. (x.0, tokens x.1.now)) result
        (reading.matching (λ ts. reading.pattern levels total ts)
        (λ ts. reading.expression levels total ts) total at (tokens placed.now)) }
{
    let (matched, rest) = read_boxed_before(alloc, levels, total, Symbol::OpenBrace, placed)?;
    let (clauses, rest) = read_clauses(alloc, levels, total, rest)?;
    Ok((ExprTree::Match(at, matched, clauses), rest))
}

// One clause of a match or more, and the brace behind them. A clause keeps no number of a token, so
// the 0 in the contract stands for any.
#[cycle(expressions)]
fn read_clauses<'a>(
    alloc: Global,
    levels: u32,
    total: usize,
    placed: &'a [Placed],
) -> Result<(Seq<ClauseTree>, &'a [Placed]), Stop>
    requires { total < 2 ^ 32 }
    ensures { Gives (λ x. (x.0, tokens x.1.now)) result
        (combining.some_closed (reading.clause_tree (λ ts. reading.pattern levels total ts)
        (λ ts. reading.expression levels total ts) total 0) symbols.Comma symbols.CloseBrace (tokens placed.now)) }
{
    read_some_closed(
        alloc,
        |rest|
            requires { total < 2 ^ 32 }
            ensures { Gives (λ x. (x.0, tokens x.1.now)) result
                (reading.clause_tree (λ ts. reading.pattern levels total ts)
                (λ ts. reading.expression levels total ts) total 0 (tokens rest.now)) }
        { read_clause(alloc, levels, total, rest) },
        Symbol::Comma,
        Symbol::CloseBrace,
        placed,
    )
}

// The pattern of a clause, with the arrow behind it: `p =>`.
#[tactic(auto, unfolding(crate::specs::inner::Combining::closed_by, crate::specs::inner::Combining::pair, crate::specs::inner::Combining::into))]
fn read_clause_pattern<'a>(
    alloc: Global,
    levels: u32,
    total: usize,
    placed: &'a [Placed],
) -> Result<(PatTree, &'a [Placed]), Stop>
    requires { total < 2 ^ 32 }
    ensures { Gives (λ x. (x.0, tokens x.1.now)) result
        (combining.closed_by (λ ts. reading.pattern levels total ts) symbols.FatArrow (tokens placed.now)) }
{
    let (pat, rest) = read_pattern(alloc, levels, total, placed)?;
    let rest = expect(Symbol::FatArrow, rest)?;
    Ok((pat, rest))
}

// A clause of a match, `p => e`.
#[cycle(expressions)]
#[tactic(auto, unfolding(crate::specs::inner::Reading::clause_tree, crate::specs::inner::Combining::pair, crate::specs::inner::Combining::into))]
fn read_clause<'a>(
    alloc: Global,
    levels: u32,
    total: usize,
    placed: &'a [Placed],
) -> Result<(ClauseTree, &'a [Placed]), Stop>
    requires { total < 2 ^ 32 }
    ensures { Gives (λ x. (x.0, tokens x.1.now)) result
        (reading.clause_tree (λ ts. reading.pattern levels total ts)
        (λ ts. reading.expression levels total ts) total 0 (tokens placed.now)) }
{
    let (pat, rest) = read_clause_pattern(alloc, levels, total, placed)?;
    let (body, rest) = read_expression(alloc, levels, total, rest)?;
    Ok((ClauseTree { pat, body }, rest))
}
