//! The heads of a column, in their order. A head is what a pattern begins with: a constructor, or a
//! number. A wildcard and a variable have none.

ghost use Rattle.std.specs.Prelude.{◌≡◌, IfOk};
ghost use Rattle.rb_decide.specs.ClauseMatrices.{column_heads};

use crate::clause_matrix::Row;
use rb_matrix::head_set::HeadSet;
use rb_matrix::heads::{add_head, head_of_row};
use rb_matrix::matrix::Head;
use std::alloc::{AllocError, Global};

/// The heads that stand in the rows' first column, each once, in the order of first standing there;
/// a row whose first pattern has no head, or that is empty, adds none.
///
/// # Errors
///
/// Want of memory.
pub fn heads_of_column(alloc: Global, rows: &[Row]) -> Result<Vec<Head>, AllocError>
    ensures { IfOk result (λ heads. heads.items ≡ column_heads rows.now) }
{
    let mut heads = Vec::new(alloc);
    let mut known = HeadSet::new(alloc);
    for row in rows {
        add_head(&mut heads, &mut known, head_of_row(row.pats.as_slice()))?;
    }
    Ok(heads)
}
