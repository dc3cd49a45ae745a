//! Code that fetches the part of a value at a position of its leaf. A provenance is the pattern of
//! the values that a leaf holds. A position is a path, field numbers from the root. It is open
//! where the provenance has a wildcard: the leaf's words have the part there. A part at a
//! constructor is taken apart: the leaf has only its fields, and it is rebuilt, that is,
//! constructed of them again, in its own type's layout.

ghost use Rattle.std.specs.Prelude.{◌≡◌, ◌++◌, ◌∷◌, [], Some, IfOk, OnOk, slice_get};
ghost use Rattle.std.specs.Option.{option_copied};
ghost use Rattle.rb_core.specs.Values.{fields_of};
ghost use Rattle.rb_layout.specs.Positions.{types_or_none};
ghost use Rattle.rb_target.specs.Growth.{Grows};
ghost use Rattle.rb_fetch.specs.Fields.{FetchesField};
ghost use Rattle.rb_fetch.specs.inner.Rebuilding.{FetchesOpen, IsRootLayer, pattern_at, sub_at};

use crate::choosing::{Source, fetch_part};
use crate::field::{copy_slots, field_reads};
use crate::heads::{field_path, leaf_at};
use rb_core::inference::types_of_fields;
use rb_core::pattern::Pat;
use rb_core::seq::Seq;
use rb_core::types::{ConRef, Ty};
use rb_fragment::make::make_all;
use rb_fragment::reads::slot_reads;
use rb_layout::agreed::Agreed;
use rb_target::body::Body;
use std::alloc::{AllocError, Global};

/// So many calls of choosing and fetching may be nested. They always end before: flattening has no cycle, and patterns
/// are finite.
pub(crate) const DEPTH: usize = 4294967295;

/// What `fetch_field` appends, where `depth` calls may be nested still: the part at the position
/// `path` of a value of leaf number `leaf` of type `ty`, whose words are in the slots `words`, is
/// left in slots.
///
/// # Errors
///
/// Want of memory; the same answer at a `depth` of 0, and below the root where there is no such
/// leaf, or no wildcard or constructor at the position.
pub(crate) fn fetch_field_at(
    alloc: Global,
    body: &mut Body,
    words: &[usize],
    agreed: &Agreed,
    depth: usize,
    ty: u32,
    leaf: usize,
    path: &[u32],
) -> Result<Seq<usize>, AllocError>
    ensures fetches { IfOk result
        (λ slots. FetchesField agreed.now ty leaf path.now words.now body.old body.new slots) }
    ensures grows { OnOk result (Grows body.old.code body.new.code) }
{
    if depth == 0 {
        return Err(AllocError);
    }
    let _typed = agreed.covered().program();
    match path {
        [] => {
            let slots = copy_slots(alloc, words)?;
            Ok(slots)
        }
        [_, ..] => {
            let Some(found) = leaf_at(agreed.layouts(), ty, leaf) else {
                return Err(AllocError);
            };
            let Some(pat) = pattern_at(&found.prov, path) else {
                return Err(AllocError);
            };
            let path = copy_path(alloc, path)?;
            let source = Source {
                agreed,
                ty,
                leaf,
                words,
            };
            let slots = fetch_part(alloc, body, depth - 1, &source, pat, &path)?;
            Ok(slots)
        }
    }
}

/// A copy of a position, that is, of a list of field numbers.
///
/// # Errors
///
/// Want of memory.
pub(crate) fn copy_path(alloc: Global, path: &[u32]) -> Result<Seq<u32>, AllocError>
    ensures { IfOk result (λ copy. copy ≡ path.now) }
{
    let mut copy = Seq::new(alloc);
    for field in path {
        copy.push(*field)?;
    }
    Ok(copy)
}

// The pattern at a position of a pattern; None where the position leads out of it.
fn pattern_at<'a>(pat: &'a Pat, path: &[u32]) -> Option<&'a Pat>
    ensures { option_copied result ≡ pattern_at (Some pat.now) path.now }
{
    match path {
        [] => Some(pat),
        [field, rest @ ..] => match sub_at(pat, *field) {
            None => None,
            Some(sub) => pattern_at(sub, rest),
        },
    }
}

// The subpattern of a constructor pattern in a field, by number; None of another pattern, and past
// the fields.
fn sub_at(pat: &Pat, field: u32) -> Option<&Pat>
    ensures { option_copied result ≡ sub_at pat.now field }
{
    match pat {
        Pat::Wild(_) | Pat::Var(_, _) | Pat::Num(_, _) => None,
        Pat::Con(_, _, subs) => subs.get(field as usize),
    }
}

/// A constructor of a provenance, and its subpatterns, one a field.
#[derive(Clone, Copy)]
pub(crate) struct Layer<'a> {
    pub con: ConRef,
    pub subs: &'a [Pat],
}

/// The constructor at the root of the provenance of leaf number `leaf` of type `ty`.
///
/// # Errors
///
/// Want of memory, in place of an answer, where there is no such leaf, or no constructor at its
/// root.
pub(crate) fn root_layer(agreed: &Agreed, ty: u32, leaf: usize) -> Result<Layer<'_>, AllocError>
    ensures { IfOk result (λ layer. IsRootLayer agreed.now ty leaf layer.con layer.subs.now) }
{
    let _typed = agreed.covered().program();
    let Some(found) = leaf_at(agreed.layouts(), ty, leaf) else {
        return Err(AllocError);
    };
    match &found.prov {
        Pat::Wild(_) | Pat::Var(_, _) | Pat::Num(_, _) => Err(AllocError),
        Pat::Con(_, con, subs) => Ok(Layer {
            con: *con,
            subs: subs.as_slice(),
        }),
    }
}

/// A field of a constructor: its type and its position.
#[derive(Drop)]
pub(crate) struct Field {
    pub ty: Ty,
    pub path: Seq<u32>,
}

/// The field with this number of the constructor `con`, which stands at the position `path`.
///
/// # Errors
///
/// Want of memory; the same answer where the constructor has no such field.
pub(crate) fn field_at(
    alloc: Global,
    agreed: &Agreed,
    con: ConRef,
    path: &Seq<u32>,
    number: usize,
) -> Result<Field, AllocError>
    ensures { IfOk result (λ field. (field.path ≡ path.now ++ number ∷ [])
        × (slice_get (types_or_none (fields_of agreed.now.covered.program.types con)) number ≡ Some field.ty)) }
{
    let fields = types_of_fields(agreed.covered().program().types.as_slice(), con);
    let Some(ty) = fields.get(number) else {
        return Err(AllocError);
    };
    let path = field_path(alloc, path, number)?;
    Ok(Field { ty: *ty, path })
}

/// Code that leaves the words of the field at `path`, an open position of leaf number `leaf` of
/// type `ty`, in slots, from `words`, the slots of the value's words. It takes no switch.
///
/// # Errors
///
/// Want of memory.
pub(crate) fn fetch_open(
    alloc: Global,
    body: &mut Body,
    words: &[usize],
    agreed: &Agreed,
    ty: u32,
    leaf: usize,
    path: &[u32],
) -> Result<Seq<usize>, AllocError>
    ensures fetches { IfOk result (λ slots. FetchesOpen agreed.now ty leaf path.now words.now body.old body.new slots) }
    ensures grows { OnOk result (Grows body.old.code body.new.code) }
{
    let words = slot_reads(alloc, words)?;
    let reads = field_reads(alloc, agreed, ty, leaf, path, words.as_slice())?;
    let slots = make_all(alloc, body, reads.as_slice())?;
    Ok(slots)
}
