//! Programs. A data type and a function are known by their place in the program, from 0, and a
//! variable by the number of its binder. Token numbers say where in the file something stands.

use crate::expression::Expr;
use crate::layout_decl::LayoutDecl;
use crate::seq::Seq;
use crate::types::{DataDecl, Name, Ty};

/// A parameter: its name's token number, its variable's number, and its type.
#[derive(Clone, Copy, PartialEq, Eq)]
pub struct Param {
    pub at: u32,
    pub var: u32,
    pub ty: Ty,
}

/// A function: its name, its parameters, the type of its result, and its body.
#[derive(Drop)]
pub struct Fun {
    pub name: Name,
    pub params: Seq<Param>,
    pub result: Ty,
    pub body: Expr,
}

/// A program: its data types, layouts and functions, each in the order of the file. Names are
/// replaced by the numbers of what they name, and `main` is the number of the function where a run
/// begins.
#[derive(Drop)]
pub struct Program {
    pub types: Seq<DataDecl>,
    pub layouts: Seq<LayoutDecl>,
    pub funs: Seq<Fun>,
    pub main: u32,
}

/// A clause that no value reaches, since it is for none the first that matches: its match's token
/// number, and its own number in that match, from 0.
#[derive(Clone, Copy, PartialEq, Eq)]
pub struct Note {
    pub at: u32,
    pub clause: u32,
}
