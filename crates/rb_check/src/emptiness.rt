//! Types without a value: those that no constructor ends.

ghost use Rattle.std.specs.Prelude.{◌≡◌, length, MatchOption, IfOk};
ghost use Rattle.std.specs.List.{list_all};
ghost use Rattle.rb_core.specs.TypedPrograms.{HaveValues, IsFirstEmpty};
ghost use Rattle.rb_check.specs.inner.Emptiness.{AllMarked, IsFirstUnmarked, IsNewlyLive, IsSettled, is_marked, mark_of, type_is_live};

use rb_core::types::{DataDecl, Ty};
use std::alloc::{AllocError, Global};

/// The number of the first type without a value. A type is marked as long as one is left that
/// some constructor makes from marked types and integers; each search marks one type, so there
/// are no more searches than types, and one.
///
/// # Errors
///
/// Want of memory.
pub fn first_empty(alloc: Global, types: &[DataDecl]) -> Result<Option<usize>, AllocError>
    ensures { IfOk result (λ found. MatchOption found (HaveValues types.now) (IsFirstEmpty types.now)) }
{
    let mut marks = vec![in alloc; false; types.len()]?;
    while let Some(t) = next_live(types, marks.as_slice()) {
        marks[t] = true;
    }
    Ok(first_unmarked(marks.as_slice()))
}

// A type that is to be marked, if one is left: it has no mark, and some constructor of it has only
// fields of types that are known to have values.
fn next_live(types: &[DataDecl], marks: &[bool]) -> Option<usize>
    requires { length marks.now ≡ length types.now }
    ensures { MatchOption result (IsSettled types.now marks.now) (IsNewlyLive types.now marks.now) }
{
    for (t, data_type) in types.iter().enumerate() {
        if !is_mark(marks, t) && is_live(marks, data_type) {
            return Some(t);
        }
    }
    None
}

// The first type without a mark.
fn first_unmarked(marks: &[bool]) -> Option<usize>
    ensures { MatchOption result (AllMarked marks.now) (IsFirstUnmarked marks.now) }
{
    for t in 0..marks.len() {
        if !is_mark(marks, t) {
            return Some(t);
        }
    }
    None
}

// Whether the data type with this number is marked; it is not where it has no mark.
fn is_mark(marks: &[bool], t: usize) -> bool
    ensures { result ≡ mark_of marks.now t }
{
    match marks.get(t) {
        None => false,
        Some(mark) => *mark,
    }
}

// Whether a type is known to have a value: an integer type is, and a marked data type.
fn is_marked(marks: &[bool], ty: Ty) -> bool
    ensures { result ≡ is_marked marks.now ty }
{
    match ty {
        Ty::Int(_) => true,
        Ty::Named(t) => is_mark(marks, t as usize),
    }
}

// Whether some constructor of a data type has only fields of types that are known to have values.
fn is_live(marks: &[bool], data_type: &DataDecl) -> bool
    ensures { result ≡ type_is_live marks.now data_type.now }
{
    data_type
        .cons
        .as_slice()
        .iter()
        .any(|con| are_marked(marks, con.fields.as_slice()))
}

// Whether each of these types is known to have a value.
fn are_marked(marks: &[bool], fields: &[Ty]) -> bool
    ensures { result ≡ list_all (is_marked marks.now) fields.now }
{
    fields.iter().all(|field| is_marked(marks, *field))
}
