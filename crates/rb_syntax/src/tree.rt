//! Trees of what is written, before names are resolved. Each form keeps the number of its first
//! token, counted from 0 in its file; the parts of layouts that name nothing are those of
//! `rb_core` itself.

use rb_core::boxed::Boxed;
pub use rb_core::expression::Op;
pub use rb_core::layout_decl::{LayItem, Loc, PartDecl, PartKind, Step};
use rb_core::seq::Seq;
pub use rb_core::types::{Auto, Name};

/// A name and its token's number.
#[derive(Drop)]
pub struct NameTree {
    pub at: u32,
    pub text: Name,
}

/// A type as it is written.
#[derive(Drop)]
pub enum TyTree {
    /// `u1` to `u64`.
    Int(u8),
    /// A data type by its name.
    Named(NameTree),
}

/// A constructor with the types of its fields.
#[derive(Drop)]
pub struct ConTree {
    pub name: NameTree,
    pub fields: Seq<TyTree>,
}

/// `type T = A | B(u8);`
#[derive(Drop)]
pub struct TypeTree {
    pub name: NameTree,
    pub cons: Seq<ConTree>,
}

/// A pattern, or the provenance of a leaf.
#[derive(Drop)]
pub enum PatTree {
    /// `_`
    Wild(u32),
    Var(u32, NameTree),
    Num(u32, u64),
    /// A constructor and its subpatterns, without parentheses where there is none.
    Con(u32, NameTree, Seq<PatTree>),
}

/// `p => e` in a match.
#[cycle(expression)]
#[derive(Drop)]
pub struct ClauseTree {
    pub pat: PatTree,
    pub body: ExprTree,
}

/// An expression.
#[cycle(expression)]
#[derive(Drop)]
pub enum ExprTree {
    Num(u32, u64),
    Var(u32, NameTree),
    /// `f(a, b)`
    Call(u32, NameTree, Seq<ExprTree>),
    /// A constructor and its fields, without parentheses where there is none.
    Build(u32, NameTree, Seq<ExprTree>),
    /// `add(a, b)`
    Binary(u32, Op, Boxed<ExprTree>, Boxed<ExprTree>),
    /// `to u8(a)`
    To(u32, u8, Boxed<ExprTree>),
    /// `let x: T = a in b`
    Let(u32, NameTree, TyTree, Boxed<ExprTree>, Boxed<ExprTree>),
    /// `match a { p => e, q => f }`
    Match(u32, Boxed<ExprTree>, Seq<ClauseTree>),
}

/// `x: T` in a list of parameters.
#[derive(Drop)]
pub struct ParamTree {
    pub at: u32,
    pub var: NameTree,
    pub ty: TyTree,
}

/// `fun f(x: T): U = e;`
#[derive(Drop)]
pub struct FunTree {
    pub name: NameTree,
    pub params: Seq<ParamTree>,
    pub result: TyTree,
    pub body: ExprTree,
}

/// `0 => ...` below a split.
#[cycle(split)]
#[derive(Drop)]
pub struct ArmTree {
    pub literal: u64,
    pub under: SplitTree,
}

/// A layout's tree: splits above leaves.
#[cycle(split)]
#[derive(Drop)]
pub enum SplitTree {
    /// `split loc { 0 => ... else => ... }`
    Split(Loc, Seq<ArmTree>, Option<Boxed<SplitTree>>),
    /// A provenance and the words of its leaf.
    Leaf(u32, PatTree, Seq<LayItem>),
}

/// `layout T <64> = ...;`, with the number of the word `layout`.
#[derive(Drop)]
pub struct LayoutTree {
    pub at: u32,
    pub ty: NameTree,
    pub shape: Seq<u64>,
    pub tree: SplitTree,
}

/// An item of a file.
#[derive(Drop)]
pub enum ItemTree {
    Types(TypeTree),
    Layouts(LayoutTree),
    Funs(FunTree),
    /// `layout T = boxed;` or `layout T = packed;`
    Derived(NameTree, Auto),
}

/// A file.
#[derive(Drop)]
pub struct FileTree {
    pub items: Seq<ItemTree>,
}
