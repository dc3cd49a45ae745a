//! Code that saves the fields of a part, from the leaf that it is known to have. A position leads
//! from the whole value to a part, a path from a part to what stands below it: field numbers, the
//! outermost first. A part is opened where its fields are saved in its stead. A leaf is one of the
//! forms in which a layout stores the values of a data type, given by its number; its provenance is
//! the pattern of these values. A spot is slots for the part at a position. `known` is what is
//! known of the whole value: which leaves parts have, and which spots hold theirs. `agreed` is the
//! program with its layouts, and `body` the code so far, at whose end new code is appended.

ghost use Rattle.std.specs.Prelude.{◌≡◌, ◌∷◌, ◌++◌, [], IfOk, IfSome, OnOk, true, false};
ghost use Rattle.rb_target.specs.Growth.{Grows};
ghost use Rattle.rb_fragment.specs.Slots.{SlotsAreApart, IsOneOf};
ghost use Rattle.rb_facts.specs.Saving.{FetchesPart, IsSpotAt, SavesFields};
ghost use Rattle.rb_facts.specs.inner.Saving.{HasBelow, IsPositionOf, SavesAt, SavesBelow, SavesPart};

use crate::knowledge::{Known, Spot, same_position};
use crate::links::prov_of;
use crate::spots::{Needs, is_needed, is_tested};
use crate::threading::is_opened;
use rb_core::inference::types_of_fields;
use rb_core::pattern::Pat;
use rb_core::seq::Seq;
use rb_core::types::{DataDecl, Ty};
use rb_decide::clause_matrix::number_of;
use rb_fetch::field::fetch_field;
use rb_fragment::emit::emit_copies;
use rb_layout::agreed::Agreed;
use rb_layout::paths::path_below;
use rb_target::body::Body;
use std::alloc::{AllocError, Global};

/// A value whose leaf is known: its type, its leaf, and the slots of its words.
#[derive(Clone, Copy)]
pub struct LeafSlots<'b> {
    pub ty: u32,
    pub leaf: usize,
    pub words: &'b [usize],
}

/// Code that leaves the words of the part at a path of a value in slots, where the value's leaf has
/// a part of type `at` there. The slots are new, or the value's own. A part that the leaf has taken
/// apart is rebuilt.
///
/// # Errors
///
/// Want of memory, or a leaf that has no part of this type at the path.
pub fn fetch_part(
    alloc: Global,
    body: &mut Body,
    agreed: &Agreed,
    value: &LeafSlots,
    path: &[u32],
    at: Ty,
) -> Result<Seq<usize>, AllocError>
    ensures fetches { IfOk result (λ slots. FetchesPart agreed.now value.now.ty value.now.leaf path.now at
        value.now.words.now body.old body.new slots) }
    ensures grows { OnOk result (Grows body.old.code body.new.code) }
{
    let (ty, leaf) = (value.ty, value.leaf);
    if !is_position(agreed, ty, leaf, path, at) {
        return Err(AllocError);
    }
    fetch_field(alloc, body, value.words, agreed, ty, leaf, path)
}

// The type of what stands at a path of a pattern, which is taken at type `ty`; `ty` itself for the
// empty path, and None where nothing stands there.
fn type_below(types: &[DataDecl], ty: Ty, pat: &Pat, path: &[u32]) -> Option<Ty>
    ensures { IfSome result (λ at. HasBelow types.now ty pat.now path.now at) }
{
    let [field, rest @ ..] = path else {
        return Some(ty);
    };
    match pat {
        Pat::Wild(_) | Pat::Var(_, _) | Pat::Num(_, _) => None,
        Pat::Con(_, con, subs) => {
            let fields = types_of_fields(types, *con);
            match (subs.get(*field as usize), fields.get(*field as usize)) {
                (Some(sub), Some(at)) => type_below(types, *at, sub, rest),
                _ => None,
            }
        }
    }
}

// Whether leaf number `leaf` of type `ty` has a part of type `at` at a path; false without such a
// leaf.
fn is_position(agreed: &Agreed, ty: u32, leaf: usize, path: &[u32], at: Ty) -> bool
    ensures { result ≡ true → IsPositionOf agreed.now ty leaf path.now at }
{
    let Some(layout) = agreed.layouts().get(ty as usize) else {
        return false;
    };
    let Some(leaf) = layout.leaves.get(leaf) else {
        return false;
    };
    let types = agreed.covered().program().types.as_slice();
    match type_below(types, Ty::Named(ty), &leaf.prov, path) {
        None => false,
        Some(found) => found == at,
    }
}

// Whether a slot is one of some.
fn is_in(slots: &[usize], slot: usize) -> bool
    ensures { result ≡ false → IsOneOf slot slots.now → ⊥ }
{
    for other in slots {
        if *other == slot {
            return true;
        }
    }
    false
}

// Whether two lists have no slot in common.
fn slots_are_apart(slots: &[usize], others: &[usize]) -> bool
    ensures { result ≡ true → SlotsAreApart slots.now others.now }
{
    for slot in slots {
        if is_in(others, *slot) {
            return false;
        }
    }
    true
}

/// The number of the spot for a part of this type at a position; None where there is no such spot. That there is none
/// then, no clause says.
pub fn spot_at(spots: &[Spot], position: &[u32], ty: Ty) -> Option<usize>
    ensures { IfSome result (λ k. IsSpotAt spots.now position.now ty k) }
{
    for (k, spot) in spots.iter().enumerate() {
        if spot.ty == ty && same_position(spot.position.as_slice(), position) {
            return Some(k);
        }
    }
    None
}

// Saves the part at a path in a spot, whose slots are none of the value's: an error where one is,
// or where the leaf has no part of the spot's type at the path.
fn save_part(
    alloc: Global,
    body: &mut Body,
    agreed: &Agreed,
    value: &LeafSlots,
    path: &[u32],
    spot: &Spot,
) -> Result<(), AllocError>
    ensures saves { OnOk result (SavesPart agreed.now value.now.ty value.now.leaf path.now value.now.words.now spot.now
        body.old body.new) }
    ensures grows { OnOk result (Grows body.old.code body.new.code) }
{
    let into = spot.slots.as_slice();
    if !slots_are_apart(into, value.words) {
        return Err(AllocError);
    }
    let slots = fetch_part(alloc, body, agreed, value, path, spot.ty)?;
    emit_copies(body, into, slots.as_slice())?;
    Ok(())
}

// The position to which a path leads from another position.
fn position_at(alloc: Global, position: &[u32], path: &[u32]) -> Result<Seq<u32>, AllocError>
    ensures { IfOk result (λ below. below ≡ position.now ++ path.now) }
{
    let mut below = Vec::from_slice(alloc, position)?;
    below.extend_from_slice(path)?;
    Ok(Seq::from_vec(below))
}

/// A part of a value of which parts are saved: its type and leaf, the slots of its words, its position, the spots that
/// there are, and what later tests need.
#[derive(Clone, Copy)]
pub struct Source<'b, 'a> {
    pub ty: u32,
    pub leaf: usize,
    pub words: &'b [usize],
    pub position: &'b [u32],
    pub spots: &'b [Spot],
    pub needs: &'b Needs<'a>,
}

// Saves what stands at a path of a part whole, where it is needed and there is a spot for its
// position, `below`, and its type. The answer is what was known and, where it is saved, that it is.
fn save_whole<'a>(
    alloc: Global,
    body: &mut Body,
    agreed: &Agreed,
    source: &Source,
    path: &[u32],
    below: &[u32],
    at: Ty,
    mut known: Seq<Known<'a>>,
) -> Result<Seq<Known<'a>>, AllocError>
    ensures saves { IfOk result (λ more. below.now ≡ source.now.position.now ++ path.now
        → SavesAt agreed.now source.now path.now known.entry more body.old body.new) }
    ensures grows { OnOk result (Grows body.old.code body.new.code) }
{
    if !is_needed(source.needs, below) {
        return Ok(known);
    }
    let spots = source.spots;
    match spot_at(spots, below, at) {
        None => Ok(known),
        Some(k) => {
            let value = LeafSlots {
                ty: source.ty,
                leaf: source.leaf,
                words: source.words,
            };
            save_part(alloc, body, agreed, &value, path, &spots[k])?;
            known.push(Known::Saved { spot: k })?;
            Ok(known)
        }
    }
}

// The path to a field of what stands at a path. More fields than have numbers are an error.
fn field_path(alloc: Global, path: &[u32], field: usize) -> Result<Seq<u32>, AllocError>
    ensures { IfOk result (λ below. below ≡ path.now ++ field ∷ []) }
{
    let number = number_of(field)?;
    path_below(alloc, path, number as usize)
}

// Whether the part at a position, the subpattern `sub` of the source's provenance, is opened: an exit opens such a part
// (`is_opened`), later tests need what is at or below it, and none looks at it itself. No clause says when: code may
// save a part either way.
fn opens_at(agreed: &Agreed, needs: &Needs, sub: &Pat, below: &[u32]) -> bool {
    is_needed(needs, below) && is_opened(agreed, sub) && !is_tested(needs, below)
}

// Saves what is needed of what stands at a path of a part, the subpattern `sub` of its provenance
// at type `at`: whole, or field by field where it is opened, which asks that no test looks at it
// itself. The answer is what was known and what is saved.
#[cycle(saving)]
fn save_at<'a>(
    alloc: Global,
    body: &mut Body,
    agreed: &Agreed,
    source: &Source,
    path: &[u32],
    sub: &Pat,
    at: Ty,
    known: Seq<Known<'a>>,
) -> Result<Seq<Known<'a>>, AllocError>
    ensures saves { IfOk result
        (λ more. SavesAt agreed.now source.now path.now known.entry more body.old body.new) }
    ensures grows { OnOk result (Grows body.old.code body.new.code) }
{
    let below = position_at(alloc, source.position, path)?;
    let below = below.as_slice();
    if opens_at(agreed, source.needs, sub, below) {
        return save_below(alloc, body, agreed, source, path, sub, known);
    }
    save_whole(alloc, body, agreed, source, path, below, at, known)
}

// Saves what is needed of each field of what stands at a path of a part, which is `pat` of its
// provenance: whole, or field by field where the field is opened. Where `pat` is no constructor
// there are no fields, and nothing is saved. A field that its constructor's declaration lacks is an
// error. The answer is what was known and what is saved.
#[cycle(saving)]
fn save_below<'a>(
    alloc: Global,
    body: &mut Body,
    agreed: &Agreed,
    source: &Source,
    path: &[u32],
    pat: &Pat,
    known: Seq<Known<'a>>,
) -> Result<Seq<Known<'a>>, AllocError>
    ensures saves { IfOk result
        (λ more. SavesBelow agreed.now source.now path.now known.entry more body.old body.new) }
    ensures grows { OnOk result (Grows body.old.code body.new.code) }
{
    match pat {
        Pat::Wild(_) | Pat::Var(_, _) | Pat::Num(_, _) => Ok(known),
        Pat::Con(_, con, subs) => {
            let types = agreed.covered().program().types.as_slice();
            let fields = types_of_fields(types, *con);
            let mut known = known;
            for (j, sub) in subs.as_slice().iter().enumerate() {
                let Some(at) = fields.get(j) else {
                    return Err(AllocError);
                };
                let below = field_path(alloc, path, j)?;
                let below = below.as_slice();
                known = save_at(alloc, body, agreed, source, below, sub, *at, known)?;
            }
            Ok(known)
        }
    }
}

/// Code that saves what later tests need of the fields of a part, the source, in spots. The answer
/// is what was known and what is saved.
///
/// # Errors
///
/// Want of memory, a part whose leaf its type lacks, a field that its constructor's declaration lacks, or a spot that
/// shares slots with the part.
pub fn save_fields<'a>(
    alloc: Global,
    body: &mut Body,
    agreed: &Agreed,
    source: &Source,
    known: Seq<Known<'a>>,
) -> Result<Seq<Known<'a>>, AllocError>
    ensures saves { IfOk result (λ more. SavesFields agreed.now source.now.ty source.now.leaf source.now.words.now
        source.now.spots.now source.now.position.now known.entry more body.old body.new) }
    ensures grows { OnOk result (Grows body.old.code body.new.code) }
{
    let _flat = agreed.layouts();
    let _typed = agreed.covered().program();
    let Some(prov) = prov_of(agreed, source.ty, source.leaf) else {
        return Err(AllocError);
    };
    save_below(alloc, body, agreed, source, &[], prov, known)
}
