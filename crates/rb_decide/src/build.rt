//! The tree of a matrix, unless it is too large. A column of the matrix is a position of the value
//! that is matched, and a row has a clause's number and a pattern for each column. A head is what a
//! pattern or a value begins with: a number or a constructor. The types of the program are `types`.
//! `left` is how many nodes may still be built; where None is given, what is left of it says
//! nothing. Every error is want of memory.

ghost use Rattle.std.specs.Prelude.{◌≡◌, ◌<◌, IfOk, is_some};
ghost use Rattle.rb_matrix.specs.FirstHead.{first_head};
ghost use Rattle.rb_decide.specs.Trees.{row_pats};
ghost use Rattle.rb_decide.specs.inner.Building.{IsTreeBuilt, IsTestBuilt, AreArmsBuilt};
ghost use Rattle.std.specs.Prelude.{map, true};

use crate::branches::{columns_by_head, fields_of_head, other_rows, rows_by_head};
use crate::clause_matrix::{Column, Row, columns_to_front, first_tested, rows_to_front};
use crate::decision_tree::{Tree, TreeArm};
use crate::heads::heads_of_column;
use crate::signature::covers;
use rb_core::boxed::Boxed;
use rb_core::seq::Seq;
use rb_core::types::DataDecl;
use rb_matrix::matrix::Head;
use std::alloc::{AllocError, Global};

/// The tree of a matrix, with its size taken off the number of nodes that may still be built; None
/// where these are too few. It takes the clause of the first row that matches; where there is no
/// row, as never comes of an exhaustive match, it is clause 0.
///
/// # Errors
///
/// Want of memory.
#[cycle(building)]
pub fn build(
    alloc: Global,
    types: &[DataDecl],
    columns: &[Column],
    rows: &[Row],
    left: &mut usize,
) -> Result<Option<Tree>, AllocError>
    ensures { IfOk result (λ r. IsTreeBuilt types.now columns.now rows.now left.old left.new r) }
{
    if *left == 0 {
        return Ok(None);
    }
    let [first, ..] = rows else {
        *left -= 1;
        return Ok(Some(Tree::Clause(0)));
    };
    match first_tested(first.pats.as_slice()) {
        None => {
            *left -= 1;
            Ok(Some(Tree::Clause(first.clause)))
        }
        Some(i) => {
            let columns = columns_to_front(alloc, i, columns)?;
            let rows = rows_to_front(alloc, i, rows)?;
            let tree = build_test(alloc, types, columns.as_slice(), rows.as_slice(), left)?;
            Ok(tree)
        }
    }
}

// A test of the first column, in which a row has a head, with its branches; clause 0 where there is
// no column; None where too few nodes may still be built.
#[cycle(building)]
fn build_test(
    alloc: Global,
    types: &[DataDecl],
    columns: &[Column],
    rows: &[Row],
    left: &mut usize,
) -> Result<Option<Tree>, AllocError>
    requires heads { is_some (first_head (map row_pats rows.now)) ≡ true }
    requires some { 0 < left.old }
    ensures { IfOk result (λ r. IsTestBuilt types.now columns.now rows.now left.old left.new r) }
{
    *left -= 1;
    let [column, rest @ ..] = columns else {
        return Ok(Some(Tree::Clause(0)));
    };
    let heads = heads_of_column(alloc, rows)?;
    let Some(arms) = build_arms(alloc, types, column, rest, rows, heads.as_slice(), left)? else {
        return Ok(None);
    };
    let position = column.position.copy(alloc)?;
    let full = covers(types, column.ty, heads.as_slice())?;
    if full {
        return Ok(Some(Tree::Test(position, arms, None)));
    }
    let others = other_rows(alloc, rows)?;
    let Some(other) = build(alloc, types, rest, others.as_slice(), left)? else {
        return Ok(None);
    };
    let boxed = Boxed::new(alloc, other)?;
    Ok(Some(Tree::Test(position, arms, Some(boxed))))
}

// The arms of a test of `column`, one for each head, over the head's fields and the columns `rest`;
// None where too few nodes may still be built.
#[cycle(building)]
fn build_arms(
    alloc: Global,
    types: &[DataDecl],
    column: &Column,
    rest: &[Column],
    rows: &[Row],
    heads: &[Head],
    left: &mut usize,
) -> Result<Option<Seq<TreeArm>>, AllocError>
    requires heads { is_some (first_head (map row_pats rows.now)) ≡ true }
    ensures { IfOk result (λ r. AreArmsBuilt types.now column.now rest.now rows.now heads.now left.old left.new r) }
{
    let mut arms = Seq::new(alloc);
    for head in heads {
        let fields = fields_of_head(types, column.ty, *head);
        let columns = columns_by_head(alloc, column, fields, rest)?;
        let special = rows_by_head(alloc, *head, fields.len(), rows)?;
        let Some(under) = build(alloc, types, columns.as_slice(), special.as_slice(), left)? else {
            return Ok(None);
        };
        arms.push(TreeArm { head: *head, under })?;
    }
    Ok(Some(arms))
}
