//! The matrices under the branches of a test.
//!
//! A column of a matrix is a position of the value that is matched, by field numbers from the root,
//! and a row has a clause's number and a pattern for each column. A head is what a pattern or a
//! value begins with: a number or a constructor. A test of the first column has a branch for each
//! of some heads, with the specialised matrix, and may have one for all other values, with the
//! default matrix. The types of the program are `types`. Every error is want of memory.

ghost use Rattle.std.specs.Prelude.{◌≡◌, ◌∷◌, ◌++◌, [], IfOk};
ghost use Rattle.rb_decide.specs.ClauseMatrices.{special_rows, default_rows, field_columns, field_types};

use crate::clause_matrix::{Column, Row, number_of};
use rb_core::seq::Seq;
use rb_core::types::{DataDecl, Ty};
use rb_matrix::matrix::Head;
use rb_matrix::specialization::{default_of_row, head_fields, specialize_row};
use std::alloc::{AllocError, Global};

/// The rows of the specialised matrix, for a head with so many fields: those that match values
/// beginning with it, with patterns for the fields in place of the first pattern.
///
/// # Errors
///
/// Want of memory.
pub fn rows_by_head(
    alloc: Global,
    head: Head,
    fields: usize,
    rows: &[Row],
) -> Result<Seq<Row>, AllocError>
    ensures { IfOk result (λ r. r ≡ special_rows head fields rows.now) }
{
    let mut kept = Seq::new(alloc);
    for row in rows {
        if let Some(pats) = specialize_row(alloc, head, fields, row.pats.as_slice())? {
            kept.push(Row {
                pats,
                clause: row.clause,
            })?;
        }
    }
    Ok(kept)
}

/// The rows of the default matrix: those whose first pattern is a wildcard or a variable, without
/// that pattern. A row without patterns is left out.
///
/// # Errors
///
/// Want of memory.
pub fn other_rows(alloc: Global, rows: &[Row]) -> Result<Seq<Row>, AllocError>
    ensures { IfOk result (λ r. r ≡ default_rows rows.now) }
{
    let mut kept = Seq::new(alloc);
    for row in rows {
        if let Some(pats) = default_of_row(alloc, row.pats.as_slice())? {
            kept.push(Row {
                pats,
                clause: row.clause,
            })?;
        }
    }
    Ok(kept)
}

/// The types of a head's fields; a head that is not of the type has none.
pub fn fields_of_head(types: &[DataDecl], ty: Ty, head: Head) -> &[Ty]
    ensures { result.now ≡ field_types types.now ty head }
{
    match head_fields(types, ty, head) {
        Some(fields) => fields,
        None => &[],
    }
}

// The column of field `i` of what stands in a column, of type `ty`: its position is one field
// longer.
fn field_column(alloc: Global, column: &Column, i: usize, ty: Ty) -> Result<Column, AllocError>
    ensures { IfOk result (λ c. c ≡ record { position = column.now.position ++ i ∷ []; ty = ty }) }
{
    let mut position = column.position.copy(alloc)?;
    position.push(number_of(i)?)?;
    Ok(Column { position, ty })
}

/// The columns of a head's fields, of the types `fields`, in what stands in `column`, and then the
/// other columns, `rest`.
///
/// # Errors
///
/// Want of memory.
pub fn columns_by_head(
    alloc: Global,
    column: &Column,
    fields: &[Ty],
    rest: &[Column],
) -> Result<Seq<Column>, AllocError>
    ensures { IfOk result (λ r. r ≡ field_columns column.now.position 0 fields.now ++ rest.now) }
{
    let mut columns = Seq::new(alloc);
    for i in 0..fields.len() {
        columns.push(field_column(alloc, column, i, fields[i])?)?;
    }
    for other in rest {
        columns.push(other.copy(alloc)?)?;
    }
    Ok(columns)
}
