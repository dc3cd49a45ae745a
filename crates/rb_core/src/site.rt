//! The matches of a program, as coverage sees them: whether each value has a clause, and which
//! clauses no value reaches.

use crate::pattern::Pat;
use crate::seq::Seq;
use crate::types::Ty;

/// A match of a program: its token number, its scrutinee's type, and its clauses' patterns in
/// order.
#[derive(Drop)]
pub struct Site {
    pub at: u32,
    pub scrutinee: Ty,
    pub patterns: Seq<Pat>,
}
