//! The rows of a search, the heads of their first patterns, and what becomes of the rows in the
//! specialised matrix of a head and in the default matrix: their specialised and their default
//! rows. A row that has none is left out.

ghost use Rattle.std.specs.Prelude.{◌≡◌, ◌≤◌, [], length, IfOk, slice_index_or};
ghost use Rattle.rb_core.specs.declared.value.Value as Values;
ghost use Rattle.rb_core.specs.declared.value.Value.TheOpen as Layers;
ghost use Rattle.rb_matrix.specs.Heads.{any_begins, column_begins};
ghost use Rattle.rb_matrix.specs.FirstHead.{first_head};
ghost use Rattle.rb_matrix.specs.inner.Groups.{merge_of, rows_at, AreGrouped};
ghost use Rattle.rb_matrix.specs.inner.Open.{any_open};
ghost use Rattle.rb_matrix.specs.Counts.{rows_head_count};
ghost use Rattle.rb_matrix.specs.Specialize.{special_row, special, defaults};

use crate::groups::{Groups, Merged};
use crate::head_set::HeadSet;
use crate::heads::add_head;
use crate::matrix::Head;
use crate::row::Row;
use rb_core::seq::Seq;
use std::alloc::{AllocError, Global};
use std::collections::VecDeque;

/// The head of the first row that begins with one; None where no row does.
pub fn first_head_in(rows: &[Row]) -> Option<Head>
    ensures { result ≡ first_head rows.now }
{
    for row in rows {
        if let Some(head) = row.head() {
            return Some(head);
        }
    }
    None
}

/// The heads that the rows begin with, in the order of the rows; of heads alike, which are the same
/// number or constructors with the same number in their types, only the first. A row that is empty
/// or begins with a wildcard or a variable adds none.
///
/// # Errors
///
/// Want of memory.
pub fn heads_in(alloc: Global, rows: &[Row]) -> Result<Seq<Head>, AllocError>
    ensures heads { IfOk result (λ heads. (l : Layers.Value-F Values.Value)
        → any_begins heads l ≡ column_begins rows.now l) }
    ensures few { IfOk result (λ heads. length heads ≤ rows_head_count rows.now) }
{
    let mut heads = Vec::new(alloc);
    let mut known = HeadSet::new(alloc);
    for row in rows {
        add_head(&mut heads, &mut known, row.head())?;
    }
    Ok(Seq::from_vec(heads))
}

// The specialised row of a row for a head with so many fields, or None where it has none. The row
// stays; it is copied only where its first pattern does not rule a specialised row out.
fn special_copy<'a>(
    alloc: Global,
    row: &Row<'a>,
    head: Head,
    fields: usize,
) -> Result<Option<Row<'a>>, AllocError>
    ensures { IfOk result (λ r. r ≡ special_row head fields row.now) }
{
    if row.is_other(head) {
        return Ok(None);
    }
    let copy = row.copy(alloc)?;
    copy.special(head, fields)
}

/// The specialised rows of rows for a head with so many fields, in the order of the rows; a row that
/// has none is left out. The rows stay.
///
/// # Errors
///
/// Want of memory, also for more wildcards in a row than a `usize` counts.
pub fn special_copies<'a>(
    alloc: Global,
    rows: &[Row<'a>],
    head: Head,
    fields: usize,
) -> Result<Seq<Row<'a>>, AllocError>
    ensures { IfOk result (λ r. r ≡ special head fields rows.now) }
{
    let mut kept = Seq::new(alloc);
    for row in rows {
        if let Some(special) = special_copy(alloc, row, head, fields)? {
            kept.push(special)?;
        }
    }
    Ok(kept)
}

/// The rows in groups, each by its place: those with the same key, which is the number that a row
/// begins with, or that of its constructor in the type, and those that begin with no head. In a
/// group places ascend. A number and a constructor of the same number share a group.
///
/// # Errors
///
/// Want of memory.
pub fn groups_of(alloc: Global, rows: &[Row]) -> Result<Groups, AllocError>
    ensures { IfOk result (AreGrouped rows.now) }
{
    let mut groups = Groups::new(alloc);
    for number in 0..rows.len() {
        groups.add(alloc, number, rows[number].key())?;
    }
    Ok(groups)
}

// The specialised row of the row in place `number` for a head with so many fields, or None where it
// has none, or where no row is in that place. The row stays.
fn special_at<'a>(
    alloc: Global,
    rows: &[Row<'a>],
    number: usize,
    head: Head,
    fields: usize,
) -> Result<Option<Row<'a>>, AllocError>
    ensures { IfOk result (λ r. r ≡ special_row head fields (slice_index_or rows.now number [])) }
{
    match rows.get(number) {
        None => Ok(None),
        Some(row) => special_copy(alloc, row, head, fields),
    }
}

/// The specialised rows of the rows in these places for a head with so many fields, in the order of
/// the places; a row that has none is left out. The rows stay.
///
/// # Errors
///
/// Want of memory, also for more wildcards in a row than a `usize` counts.
pub fn special_numbered<'a>(
    alloc: Global,
    rows: &[Row<'a>],
    mut numbers: Merged,
    head: Head,
    fields: usize,
) -> Result<Seq<Row<'a>>, AllocError>
    ensures { IfOk result (λ r. r ≡ special head fields
        (rows_at rows.now (merge_of numbers.entry.ones.now numbers.entry.others.now))) }
{
    let mut kept = Seq::new(alloc);
    while let Some(number) = numbers.next() {
        if let Some(special) = special_at(alloc, rows, number, head, fields)? {
            kept.push(special)?;
        }
    }
    Ok(kept)
}

/// The specialised rows of rows for a head with so many fields, in the order of the rows and made of
/// them; a row that has none is left out.
///
/// # Errors
///
/// Want of memory, also for more wildcards in a row than a `usize` counts.
pub fn into_specialized<'a>(
    alloc: Global,
    rows: Seq<Row<'a>>,
    head: Head,
    fields: usize,
) -> Result<Seq<Row<'a>>, AllocError>
    ensures { IfOk result (λ r. r ≡ special head fields rows.entry) }
{
    let mut kept = Seq::new(alloc);
    let mut left = VecDeque::from(rows.into_vec());
    while let Some(row) = left.pop_front() {
        if let Some(special) = row.special(head, fields)? {
            kept.push(special)?;
        }
    }
    Ok(kept)
}

/// The default rows of rows, in the order of the rows and made of them; a row that has none is left
/// out.
///
/// # Errors
///
/// Want of memory.
pub fn into_default<'a>(alloc: Global, rows: Seq<Row<'a>>) -> Result<Seq<Row<'a>>, AllocError>
    ensures { IfOk result (λ r. r ≡ defaults rows.entry) }
{
    let mut kept = Seq::new(alloc);
    let mut left = VecDeque::from(rows.into_vec());
    while let Some(row) = left.pop_front() {
        if let Some(rest) = row.rest() {
            kept.push(rest)?;
        }
    }
    Ok(kept)
}

/// Whether one of the rows has so many patterns, all wildcards or variables, so that it matches
/// every vector of so many values; false where there is no row.
pub fn some_is_open(rows: &[Row], columns: usize) -> bool
    ensures { result ≡ any_open rows.now columns }
{
    for row in rows {
        if row.has_length(columns) && row.is_open() {
            return true;
        }
    }
    false
}

/// Whether one of the specialised rows of the rows in these places, for a head with so many fields,
/// has so many patterns, all wildcards or variables, so that it matches every vector of so many
/// values. The rows stay.
///
/// # Errors
///
/// Want of memory, also for more wildcards in a row than a `usize` counts.
pub fn some_special_is_open(
    alloc: Global,
    rows: &[Row],
    numbers: Merged,
    head: Head,
    fields: usize,
    columns: usize,
) -> Result<bool, AllocError>
    ensures { IfOk result (λ b. b ≡ any_open (special head fields
        (rows_at rows.now (merge_of numbers.entry.ones.now numbers.entry.others.now))) columns) }
{
    let specials = special_numbered(alloc, rows, numbers, head, fields)?;
    Ok(some_is_open(specials.as_slice(), columns))
}
