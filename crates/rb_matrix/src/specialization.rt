//! The specialised matrix S of a head and the default matrix D, both on the first column. A head is
//! a number or a constructor with which a pattern or a value begins; a vector begins with that of
//! its first value. Of the vectors of the columns' types that begin with the head, a pattern matrix
//! matches those that S matches once the first value is replaced by its subvalues; of the vectors
//! that begin with no head of the first column, it matches those that D matches without the first
//! value. What becomes of a row in S is its specialised row, and in D its default row. A row
//! that has none is left out. Rows need not be typed.

ghost use Rattle.std.specs.Prelude.{◌≡◌, ◌∷◌, ◌++◌, List, length, drop, true, false, IfOk, OnOk, IsSome, slice_get, nat_lt, ◌^◌};
ghost use Rattle.std.specs.Option.{option_copied};
ghost use Rattle.rb_core.specs.declared.value.Value as Values;
ghost use Rattle.rb_core.specs.Values.{subs, fields_in};
ghost use Rattle.rb_matrix.specs.Heads.{begins, unfolded_vector, row_head, option_begins, column_fields, fields_at};
ghost use Rattle.rb_matrix.specs.Rows.{row_matches, row_or_none_matches};
ghost use Rattle.rb_matrix.specs.Specialize.{wilds, special_row, special, default_row, defaults, specialized_matrix, default_matrix, UnfoldsAlike, RestsAlike};

use crate::matrix::{Head, Matrix};
use rb_core::constructors::con_of;
use rb_core::pattern::{Pat, copy_patterns};
use rb_core::seq::Seq;
use rb_core::types::{ConRef, DataDecl, Ty};
use std::alloc::{AllocError, Global};

/// Adds copies of patterns at the end of a row, in their order.
///
/// # Errors
///
/// Want of memory.
pub fn push_patterns(alloc: Global, row: &mut Seq<Pat>, more: &[Pat]) -> Result<(), AllocError>
    ensures { OnOk result (row.new ≡ row.old ++ more.now) }
{
    for pat in more {
        row.push(pat.copy(alloc)?)?;
    }
    Ok(())
}

// A row of `count` wildcards, and behind them copies of the patterns. A pattern bears the number of
// the token at which it stands in a file; each of these wildcards bears 0, as it stands at none.
fn wilds_before(alloc: Global, count: usize, rest: &[Pat]) -> Result<Seq<Pat>, AllocError>
    ensures { IfOk result (λ r. r ≡ wilds count ++ rest.now) }
{
    let mut row = Seq::new(alloc);
    for _i in 0..count {
        row.push(Pat::Wild(0))?;
    }
    push_patterns(alloc, &mut row, rest)?;
    Ok(row)
}

// Copies of the first patterns, and then of the rest.
fn concat(alloc: Global, first: &[Pat], rest: &[Pat]) -> Result<Seq<Pat>, AllocError>
    ensures { IfOk result (λ r. r ≡ first.now ++ rest.now) }
{
    let mut row = copy_patterns(alloc, first)?;
    push_patterns(alloc, &mut row, rest)?;
    Ok(row)
}

// A row's specialised row for a head with so many fields: a copy of it with its first pattern's
// subpatterns in place of that pattern, of which a number has none, or with `fields` wildcards in
// place of a wildcard or a variable. None for another number or constructor, a constructor with
// another number of subpatterns than `fields`, or an empty row.
fn special_of_row(
    alloc: Global,
    head: Head,
    fields: usize,
    row: &[Pat],
) -> Result<Option<Seq<Pat>>, AllocError>
    ensures { IfOk result (λ r. r ≡ special_row head fields row.now) }
{
    match row {
        [] => Ok(None),
        [first, rest @ ..] => match first {
            Pat::Wild(_) => Ok(Some(wilds_before(alloc, fields, rest)?)),
            Pat::Var(_, _) => Ok(Some(wilds_before(alloc, fields, rest)?)),
            Pat::Num(_, k) => match head {
                Head::Num(m) => {
                    if *k == m {
                        Ok(Some(copy_patterns(alloc, rest)?))
                    } else {
                        Ok(None)
                    }
                }
                Head::Con(_) => Ok(None),
            },
            Pat::Con(_, con, pats) => match head {
                Head::Num(_) => Ok(None),
                Head::Con(d) => {
                    if con.con == d.con && pats.len() == fields {
                        Ok(Some(concat(alloc, pats.as_slice(), rest)?))
                    } else {
                        Ok(None)
                    }
                }
            },
        },
    }
}

// A row's default row: a copy of it without its first pattern. None where that is a number or a
// constructor, or where the row is empty.
fn rest_of_row(alloc: Global, row: &[Pat]) -> Result<Option<Seq<Pat>>, AllocError>
    ensures { IfOk result (λ r. r ≡ default_row row.now) }
{
    match row {
        [] => Ok(None),
        [first, rest @ ..] => match first {
            Pat::Wild(_) => Ok(Some(copy_patterns(alloc, rest)?)),
            Pat::Var(_, _) => Ok(Some(copy_patterns(alloc, rest)?)),
            Pat::Num(_, _) => Ok(None),
            Pat::Con(_, _, _) => Ok(None),
        },
    }
}

/// What becomes of a row in the specialised matrix of a head with so many fields: a copy of the row
/// with its first pattern's subpatterns, or as many wildcards for a wildcard or a variable, in that
/// pattern's place. None where the row is empty, begins with another number or constructor, or
/// begins with a constructor that has another number of subpatterns: it matches no vector then that
/// begins with the head and as many subvalues as fields. The row stays.
///
/// # Errors
///
/// Want of memory.
pub fn specialize_row(
    alloc: Global,
    head: Head,
    fields: usize,
    row: &[Pat],
) -> Result<Option<Seq<Pat>>, AllocError>
    ensures row { IfOk result (λ r. r ≡ special_row head fields row.now) }

    // The law of S: the row matches a vector whose first value begins with the head, and has as
    // many subvalues as fields, exactly where its specialised row matches that vector unfolded:
    // with the subvalues in place of that value.
    ensures same { IfOk result (λ r. (v : Values.Value) (vs : List Values.Value) → begins head v ≡ true
        → length (subs v) ≡ fields → row_matches row.now (v ∷ vs) ≡ row_or_none_matches r (unfolded_vector (v ∷ vs))) }
{
    let special = special_of_row(alloc, head, fields, row)?;
    Ok(special)
}

/// What becomes of a row in the default matrix: a copy of it without its first pattern, where that
/// is a wildcard or a variable. None where it is a number or a constructor, or where the row is empty.
/// The row stays.
///
/// # Errors
///
/// Want of memory.
pub fn default_of_row(alloc: Global, row: &[Pat]) -> Result<Option<Seq<Pat>>, AllocError>
    ensures row { IfOk result (λ r. r ≡ default_row row.now) }

    // The law of D: the row matches a vector that does not begin with the head of the row, as none
    // does where the row has no head, exactly where its default row matches the rest.
    ensures same { IfOk result (λ r. (v : Values.Value) (vs : List Values.Value)
        → option_begins (row_head row.now) (Values.out-Value v) ≡ false
        → row_matches row.now (v ∷ vs) ≡ row_or_none_matches r vs) }
{
    let rest = rest_of_row(alloc, row)?;
    Ok(rest)
}

/// The specialised rows of rows for a head with so many fields, in the order of the rows; a row that
/// has none is left out. The rows stay.
///
/// # Errors
///
/// Want of memory.
pub fn special_rows(
    alloc: Global,
    head: Head,
    fields: usize,
    rows: &[Seq<Pat>],
) -> Result<Seq<Seq<Pat>>, AllocError>
    ensures { IfOk result (λ r. r ≡ special head fields rows.now) }
{
    let mut kept = Seq::new(alloc);
    for row in rows {
        if let Some(special) = specialize_row(alloc, head, fields, row.as_slice())? {
            kept.push(special)?;
        }
    }
    Ok(kept)
}

/// The default rows of rows, in the order of the rows; a row that has none is left out. The rows
/// stay.
///
/// # Errors
///
/// Want of memory.
pub fn rows_by_default(alloc: Global, rows: &[Seq<Pat>]) -> Result<Seq<Seq<Pat>>, AllocError>
    ensures { IfOk result (λ r. r ≡ defaults rows.now) }
{
    let mut kept = Seq::new(alloc);
    for row in rows {
        if let Some(rest) = default_of_row(alloc, row.as_slice())? {
            kept.push(rest)?;
        }
    }
    Ok(kept)
}

// Whether an integer type of so many bits holds a number; one of 64 bits or more holds every `u64`.
fn holds(bits: u8, number: u64) -> bool
    ensures { result ≡ nat_lt number (2 ^ bits) }
{
    if bits >= 64 {
        return true;
    }
    number < 1u64 << bits
}

// The types of a constructor's fields, or None where there is no such type or it has no such
// constructor.
fn con_fields(types: &[DataDecl], ty: u32, con: u32) -> Option<&[Ty]>
    ensures { option_copied result ≡ fields_in (slice_get types.now ty) con }
{
    match con_of(types, ConRef { ty, con }) {
        None => None,
        Some(con) => Some(con.fields.as_slice()),
    }
}

/// The types of a head's fields, or None where the head is not of the type. A number is of an
/// integer type that holds it, and has no field. A constructor is of a data type that has one with
/// its number, whatever type the head names.
pub fn head_fields(types: &[DataDecl], ty: Ty, head: Head) -> Option<&[Ty]>
    ensures { option_copied result ≡ fields_at types.now ty head }
{
    match ty {
        Ty::Int(bits) => match head {
            Head::Num(number) => { if holds(bits, number) { Some(&[]) } else { None } },
            Head::Con(_) => None,
        },
        Ty::Named(t) => match head {
            Head::Num(_) => None,
            Head::Con(con) => con_fields(types, t, con.con),
        },
    }
}

// The types of all columns but the first; none where there is no column.
fn types_behind(tys: &[Ty]) -> &[Ty]
    ensures { result.now ≡ drop 1 tys.now }
{
    match tys {
        [] => tys,
        [_first, rest @ ..] => rest,
    }
}

// The types of a head's fields, and then those of all columns but the first, of which there are
// none where there is no column.
fn types_unfolded(alloc: Global, fields: &[Ty], tys: &[Ty]) -> Result<Seq<Ty>, AllocError>
    ensures { IfOk result (λ r. r ≡ fields.now ++ drop 1 tys.now) }
{
    let mut unfolded = Vec::new(alloc);
    unfolded.extend_from_slice(fields)?;
    unfolded.extend_from_slice(types_behind(tys))?;
    Ok(Seq::from_vec(unfolded))
}

/// The types of a head's fields, where the head is of the first column's type, and None where not,
/// or where there is no column. [`specialize`] needs that there are some, be they an empty list.
pub fn first_fields<'a>(types: &'a [DataDecl], tys: &[Ty], head: Head) -> Option<&'a [Ty]>
    ensures { option_copied result ≡ column_fields types.now tys.now head }
{
    match tys {
        [] => None,
        [ty, ..] => head_fields(types, *ty, head),
    }
}

/// The specialised matrix S: the rows that may match a vector of the columns' types whose first
/// value begins with the head, with the subpatterns of the first pattern in its place, or for a
/// wildcard or a variable as many wildcards as the head has fields. There must be a first column,
/// and the head of its type. The matrix stays.
///
/// # Errors
///
/// Want of memory.
pub fn specialize(
    alloc: Global,
    types: &[DataDecl],
    matrix: &Matrix,
    head: &Head,
) -> Result<Matrix, AllocError>
    requires { IsSome (column_fields types.now matrix.now.tys head.now) }
    ensures specialized { IfOk result (λ m. m ≡ specialized_matrix types.now head.now matrix.now) }

    // A vector of the columns' types that begins with the head is matched exactly where it is
    // matched unfolded, and it is then a vector of the new columns' types.
    ensures same { IfOk result (λ m. UnfoldsAlike types.now head.now matrix.now m) }
{
    let Some(fields) = first_fields(types, matrix.tys.as_slice(), *head) else {
        unreachable!();
    };
    let tys = types_unfolded(alloc, fields, matrix.tys.as_slice())?;
    let rows = special_rows(alloc, *head, fields.len(), matrix.rows.as_slice())?;
    Ok(Matrix { tys, rows })
}

/// The default matrix D: the rows that begin with a wildcard or a variable, without it, and the
/// types of all columns but the first. Where there is no column, D has none either. The matrix
/// stays.
///
/// # Errors
///
/// Want of memory.
pub fn default_rows(alloc: Global, matrix: &Matrix) -> Result<Matrix, AllocError>
    ensures defaulted { IfOk result (λ m. m ≡ default_matrix matrix.now) }

    // A vector whose first value has a head that stands nowhere in the first column is matched
    // exactly where its rest is.
    ensures same { IfOk result (λ m. RestsAlike matrix.now m) }
{
    let tys = types_unfolded(alloc, &[], matrix.tys.as_slice())?;
    let rows = rows_by_default(alloc, matrix.rows.as_slice())?;
    Ok(Matrix { tys, rows })
}
