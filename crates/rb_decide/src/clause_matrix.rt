//! Clause matrices: rows of patterns with their clauses, over columns with their positions. The
//! scrutinee is the value that is matched; clauses are numbered from 0 on. Every error is want of
//! memory.

ghost use Rattle.std.specs.Prelude.{◌≡◌, ◌∷◌, ◌++◌, [], IfOk, OnOk, map, is_some};
ghost use Rattle.rb_matrix.specs.Heads.{layer_head};
ghost use Rattle.rb_core.specs.declared.pattern.Pat as Pats;
ghost use Rattle.rb_decide.specs.ClauseMatrices.{to_front, row_to_front, first_test, match_rows};

use rb_core::pattern::{Pat, copy_patterns};
use rb_core::seq::Seq;
use rb_core::types::Ty;
use rb_matrix::specialization::push_patterns;
use std::alloc::{AllocError, Global};

/// A column of a clause matrix: the position of its values in the scrutinee, by field numbers from
/// the root, and their type.
#[derive(Drop)]
pub struct Column {
    pub position: Seq<u32>,
    pub ty: Ty,
}

/// A row of a clause matrix: its patterns, one for each column, and the number of its clause.
#[derive(Drop)]
pub struct Row {
    pub pats: Seq<Pat>,
    pub clause: u32,
}

impl Column {
    /// An equal column.
    ///
    /// # Errors
    ///
    /// Want of memory.
    pub fn copy(&self, alloc: Global) -> Result<Column, AllocError>
        ensures { IfOk result (λ c. c ≡ self.now) }
    {
        Ok(Column {
            position: self.position.copy(alloc)?,
            ty: self.ty,
        })
    }
}

// Whether a pattern is a number or a constructor.
fn has_head(pat: &Pat) -> bool
    ensures { result ≡ is_some (layer_head (Pats.out-Pat pat.now)) }
{
    match pat {
        Pat::Wild(_) => false,
        Pat::Var(_, _) => false,
        Pat::Num(_, _) => true,
        Pat::Con(_, _, _) => true,
    }
}

/// The number of the first column in which a row of these patterns has a number or a constructor;
/// None where all its patterns are wildcards and variables, so that the row's clause is taken
/// without a test.
pub fn first_tested(pats: &[Pat]) -> Option<usize>
    ensures { result ≡ first_test pats.now }
{
    for i in 0..pats.len() {
        if has_head(&pats[i]) {
            return Some(i);
        }
    }
    None
}

// Adds copies of the columns `more` at the end.
fn push_columns(alloc: Global, columns: &mut Seq<Column>, more: &[Column]) -> Result<(), AllocError>
    ensures { OnOk result (columns.new ≡ columns.old ++ more.now) }
{
    for column in more {
        columns.push(column.copy(alloc)?)?;
    }
    Ok(())
}

/// The columns with column `i` at the front, on which the next test is made, and the others in
/// their order; all as they are where there is no column `i`.
///
/// # Errors
///
/// Want of memory.
pub fn columns_to_front(
    alloc: Global,
    i: usize,
    columns: &[Column],
) -> Result<Seq<Column>, AllocError>
    ensures { IfOk result (λ r. r ≡ to_front i columns.now) }
{
    let mut moved = Seq::new(alloc);
    if i >= columns.len() {
        push_columns(alloc, &mut moved, columns)?;
        return Ok(moved);
    }
    moved.push(columns[i].copy(alloc)?)?;
    push_columns(alloc, &mut moved, &columns[..i])?;
    push_columns(alloc, &mut moved, &columns[i + 1..])?;
    Ok(moved)
}

// The patterns of a row with pattern `i` at the front and the others in their order; all as they
// are where there is no pattern `i`.
fn patterns_to_front(alloc: Global, i: usize, pats: &[Pat]) -> Result<Seq<Pat>, AllocError>
    ensures { IfOk result (λ r. r ≡ to_front i pats.now) }
{
    if i >= pats.len() {
        let copies = copy_patterns(alloc, pats)?;
        return Ok(copies);
    }
    let mut moved = Seq::new(alloc);
    moved.push(pats[i].copy(alloc)?)?;
    push_patterns(alloc, &mut moved, &pats[..i])?;
    push_patterns(alloc, &mut moved, &pats[i + 1..])?;
    Ok(moved)
}

/// The rows, each with its pattern `i` at the front, so that they stand under the columns that
/// `columns_to_front` gives; a row without a pattern `i` is as it is.
///
/// # Errors
///
/// Want of memory.
pub fn rows_to_front(alloc: Global, i: usize, rows: &[Row]) -> Result<Seq<Row>, AllocError>
    ensures { IfOk result (λ r. r ≡ map (row_to_front i) rows.now) }
{
    let mut moved = Seq::new(alloc);
    for row in rows {
        let pats = patterns_to_front(alloc, i, row.pats.as_slice())?;
        moved.push(Row {
            pats,
            clause: row.clause,
        })?;
    }
    Ok(moved)
}

// A row of one pattern, for a clause with this number.
fn row_of(alloc: Global, pat: &Pat, clause: u32) -> Result<Row, AllocError>
    ensures { IfOk result (λ r. r ≡ record { pats = pat.now ∷ []; clause = clause }) }
{
    let mut pats = Seq::new(alloc);
    pats.push(pat.copy(alloc)?)?;
    Ok(Row { pats, clause })
}

/// A count as a number of 32 bits, as clauses, fields and nodes are numbered; one of 2^32 and more
/// meets want of memory.
///
/// # Errors
///
/// Want of memory, where the count is 2^32 or more.
pub fn number_of(count: usize) -> Result<u32, AllocError>
    ensures { IfOk result (λ n. n ≡ count) }
{
    match u32::try_from(count) {
        Ok(number) => Ok(number),
        Err(_) => Err(AllocError),
    }
}

/// One row for each pattern of a match, with the number of its clause.
///
/// # Errors
///
/// Want of memory.
pub fn rows_of_match(alloc: Global, pats: &[Pat]) -> Result<Seq<Row>, AllocError>
    ensures { IfOk result (λ r. r ≡ match_rows 0 pats.now) }
{
    let mut rows = Seq::new(alloc);
    for i in 0..pats.len() {
        rows.push(row_of(alloc, &pats[i], number_of(i)?)?)?;
    }
    Ok(rows)
}
