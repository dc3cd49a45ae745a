//! Expressions. What they name is known by numbers: functions and constructors by that of their
//! declaration, variables by that of their binder. Token numbers say where in the file a form
//! begins.

use crate::boxed::Boxed;
use crate::pattern::Pat;
use crate::seq::Seq;
use crate::types::{ConRef, Ty};

/// An operator on two integers of one width.
#[derive(Clone, Copy, PartialEq, Eq)]
pub enum Op {
    /// The sum modulo two to the width.
    Add,
    /// The difference modulo two to the width.
    Sub,
    /// The product modulo two to the width.
    Mul,
    /// The bits that both have.
    And,
    /// The bits that at least one has.
    Or,
    /// The bits that exactly one has.
    Xor,
    /// 1 where both are equal, else 0; of type `u1`.
    Eq,
    /// 1 where the first is less, else 0; of type `u1`.
    Lt,
}

/// One clause of a match: its pattern, and its body, in which the pattern's variables are bound.
#[cycle(expression)]
#[derive(Drop)]
pub struct Clause {
    pub pat: Pat,
    pub body: Expr,
}

/// An expression. The first number of each form is that of its first token.
#[cycle(expression)]
#[derive(Drop)]
pub enum Expr {
    /// This number, of the type that is wanted, or of `u64` where none is wanted.
    Num(u32, u64),
    /// A variable by the number of its binder.
    Var(u32, u32),
    /// A call of the function with this number, with its arguments in their order.
    Call(u32, u32, Seq<Expr>),
    /// A construction by this constructor, with what its fields hold in their order.
    Build(u32, ConRef, Seq<Expr>),
    /// An operator with its first and its second operand.
    Binary(u32, Op, Boxed<Expr>, Boxed<Expr>),
    /// `to uN(e)`: the low N bits of the number `e`.
    To(u32, u8, Boxed<Expr>),
    /// `let x: T = a in b`, with the number of the binder `x`.
    Let(u32, u32, Ty, Boxed<Expr>, Boxed<Expr>),
    /// A match: its scrutinee, and its clauses in their order, of which the first that matches is
    /// taken.
    Match(u32, Boxed<Expr>, Seq<Clause>),
}
