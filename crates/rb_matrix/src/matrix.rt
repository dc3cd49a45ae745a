//! Matrices of patterns, and heads: what their patterns begin with.

use rb_core::pattern::Pat;
use rb_core::seq::Seq;
use rb_core::types::{ConRef, Ty};

/// What a pattern or a value begins with: a constructor, Maranget's head constructor, or a number,
/// which has no fields. Patterns that are a wildcard or a variable begin with no head. The derived
/// `==` also compares the types that two constructors name; whether heads are alike does not depend
/// on them.
#[derive(Clone, Copy, PartialEq, Eq)]
pub enum Head {
    /// A constructor, which counts by its number in the type.
    Con(ConRef),
    /// A number.
    Num(u64),
}

/// A pattern matrix: rows of patterns over columns of these types, Maranget's clause matrix without
/// its actions. A row matches the vectors of values that its patterns match one by one; one with
/// another number of patterns than there are columns matches no vector of the types.
#[derive(Drop)]
pub struct Matrix {
    /// The types of the columns, in order.
    pub tys: Seq<Ty>,
    /// The rows, in order.
    pub rows: Seq<Seq<Pat>>,
}
