//! Where the words of a part of a value are.
//!
//! A position is the numbers of the fields that lead from the value to a part of it, the outermost
//! first; that of the value itself is empty. A path leads so from a part to what stands below it. A
//! leaf is one of the forms in which a layout stores the values of a data type; its provenance is
//! the pattern of these values, and it takes a field apart where the provenance has a constructor
//! there. A read says where a word is: bits of slots and of memory. A spot is slots in which a part
//! is saved. `ty` is the type of the whole value and `words` its reads, `spots` are those of its
//! parts, and `known` is what is known of it: the leaves of parts, and which spots hold theirs.
//! `agreed` is the program with its layouts, `types` the declarations of its data types.

ghost use Rattle.std.specs.Prelude.{◌≡◌, IfOk, IfSome, true};
ghost use Rattle.rb_facts.specs.inner.Places.{BeginsPlace, IsFieldOf, IsSpotOf, StepsPlace, HasPlace};
ghost use Rattle.rb_facts.specs.Places.{FindsPlace, IsLookedAt};

use crate::knowledge::{Known, Spot, leaf_known, position_below, same_position, saved_known};
use rb_core::inference::types_of_fields;
use rb_core::pattern::Pat;
use rb_core::seq::Seq;
use rb_core::types::{DataDecl, Ty};
use rb_fetch::field::field_reads;
use rb_fragment::reads::{Read, slot_reads};
use rb_layout::agreed::Agreed;
use rb_layout::positions::type_at;
use std::alloc::{AllocError, Global};

/// The type of a part of a value, and a read for each of its words.
#[derive(Drop)]
pub struct Place {
    pub ty: Ty,
    pub reads: Seq<Read>,
}

/// The place of the part to which the first `from` fields of a position lead; 0 fields lead to the
/// whole value.
#[derive(Drop)]
pub struct Begun {
    pub place: Place,
    pub from: usize,
}

/// The type at an open position of leaf number `leaf` of data type `ty`, that is, at a wildcard of
/// its provenance; None where there is no such leaf, or the path leads to no such position.
pub(crate) fn field_of(agreed: &Agreed, ty: u32, leaf: usize, path: &[u32]) -> Option<Ty>
    ensures { IfSome result (λ found. IsFieldOf agreed.now ty leaf path.now found) }
{
    let layout = agreed.layouts().get(ty as usize)?;
    let leaf = layout.leaves.get(leaf)?;
    let types = agreed.covered().program().types.as_slice();
    type_at(types, &leaf.prov, path)
}

// An equal list of reads.
fn copy_reads(alloc: Global, reads: &[Read]) -> Result<Seq<Read>, AllocError>
    ensures { IfOk result (λ copies. copies ≡ reads.now) }
{
    let mut copies = Seq::new(alloc);
    for read in reads {
        copies.push(read.copy(alloc)?)?;
    }
    Ok(copies)
}

// From the place of the part at position `prefix` to that of its field with this number. Each part
// above a test has a known leaf, and what a leaf takes apart is saved, so that no integer, no part
// without a known leaf and no field that is taken apart is ever met here: each is an error.
fn step_place(
    alloc: Global,
    agreed: &Agreed,
    place: &Place,
    known: &[Known],
    prefix: &[u32],
    field: u32,
) -> Result<Place, AllocError>
    ensures { IfOk result (λ next. StepsPlace agreed.now place.now known.now prefix.now field next) }
{
    let Ty::Named(t) = place.ty else {
        return Err(AllocError);
    };
    let Some(leaf) = leaf_known(known, t, prefix) else {
        return Err(AllocError);
    };
    let path = [field];
    let Some(ty) = field_of(agreed, t, leaf, &path) else {
        return Err(AllocError);
    };
    let reads = field_reads(alloc, agreed, t, leaf, &path, place.reads.as_slice())?;
    Ok(Place { ty, reads })
}

// The place of the part at a position in the slots of a spot that is known to hold it; None where
// no spot is.
fn saved_place(
    alloc: Global,
    agreed: &Agreed,
    spots: &[Spot],
    known: &[Known],
    position: &[u32],
) -> Result<Option<Place>, AllocError>
    ensures { IfOk result (λ found. IfSome found
        (λ place. IsSpotOf agreed.now spots.now known.now position.now place)) }
{
    for (k, spot) in spots.iter().enumerate() {
        if same_position(spot.position.as_slice(), position) {
            if saved_known(known, k) {
                let reads = slot_reads(alloc, spot.slots.as_slice())?;
                return Ok(Some(Place { ty: spot.ty, reads }));
            }
        }
    }
    Ok(None)
}

// The nearest part at or above a position that is saved, or else the whole value.
fn begin_place(
    alloc: Global,
    agreed: &Agreed,
    ty: Ty,
    words: &[Read],
    spots: &[Spot],
    known: &[Known],
    position: &[u32],
) -> Result<Begun, AllocError>
    ensures { IfOk result (λ begun. BeginsPlace agreed.now ty words.now spots.now known.now position.now begun) }
{
    let count = position.len();
    for i in 0..count {
        let from = count - i;
        if let Some(place) = saved_place(alloc, agreed, spots, known, &position[..from])? {
            return Ok(Begun { place, from });
        }
    }
    let reads = copy_reads(alloc, words)?;
    Ok(Begun {
        place: Place { ty, reads },
        from: 0,
    })
}

// Where the part at a position is, read field by field from the nearest part that is saved, or from the whole value.
fn place_by_fields(
    alloc: Global,
    agreed: &Agreed,
    ty: Ty,
    words: &[Read],
    spots: &[Spot],
    known: &[Known],
    position: &[u32],
) -> Result<Place, AllocError>
    ensures { IfOk result (λ place. FindsPlace agreed.now ty words.now spots.now known.now position.now place) }
{
    let begun = begin_place(alloc, agreed, ty, words, spots, known, position)?;
    let from = begun.from;
    let mut place = begun.place;
    for i in from..position.len() {
        place = step_place(alloc, agreed, &place, known, &position[..i], position[i])?;
    }
    Ok(place)
}

// Where a leaf that fact number `i` tells of a part above has the part at a position: it took the
// parts between them apart. None where there is no such fact, it tells of no leaf, its part is not
// at least two fields above or is of another type than it says, or the leaf has no open position
// there.
fn place_inside(
    alloc: Global,
    agreed: &Agreed,
    ty: Ty,
    words: &[Read],
    spots: &[Spot],
    known: &[Known],
    i: usize,
    position: &[u32],
) -> Result<Option<Place>, AllocError>
    ensures { IfOk result (λ found. IfSome found
        (λ place. FindsPlace agreed.now ty words.now spots.now known.now position.now place)) }
{
    let Some(fact) = known.get(i) else {
        return Ok(None);
    };
    let Known::Leaf {
        position: above,
        ty: of,
        leaf,
    } = *fact
    else {
        return Ok(None);
    };
    let Some(path) = position_below(position, above) else {
        return Ok(None);
    };
    if path.len() < 2 {
        return Ok(None);
    }
    let Some(at) = field_of(agreed, of, leaf, path) else {
        return Ok(None);
    };
    let part = place_by_fields(alloc, agreed, ty, words, spots, known, above)?;
    let Ty::Named(found) = part.ty else {
        return Ok(None);
    };
    if found != of {
        return Ok(None);
    }
    let reads = field_reads(alloc, agreed, of, leaf, path, part.reads.as_slice())?;
    Ok(Some(Place { ty: at, reads }))
}

/// Where the part at a position is, of a value of a type with these words, some of whose parts are
/// saved: in its spot, or in a leaf that took the parts above it apart, or else field by field
/// below the nearest part that is saved.
///
/// # Errors
///
/// Want of memory, an integer on the way to the position, or a part there whose leaf is not known or
/// has taken the next field apart.
pub fn place_of_part(
    alloc: Global,
    agreed: &Agreed,
    ty: Ty,
    words: &[Read],
    spots: &[Spot],
    known: &[Known],
    position: &[u32],
) -> Result<Place, AllocError>
    ensures { IfOk result (λ place. FindsPlace agreed.now ty words.now spots.now known.now position.now place) }
{
    if let Some(place) = saved_place(alloc, agreed, spots, known, position)? {
        return Ok(place);
    }
    for i in 0..known.len() {
        if let Some(place) = place_inside(alloc, agreed, ty, words, spots, known, i, position)? {
            return Ok(place);
        }
    }
    place_by_fields(alloc, agreed, ty, words, spots, known, position)
}

// Whether a pattern, taken at type `ty`, has a number or a constructor at a position, where type
// `at` is; false where the position leads out of the pattern.
fn has_place(types: &[DataDecl], ty: Ty, pat: &Pat, position: &[u32], at: Ty) -> bool
    ensures { result ≡ true → HasPlace types.now ty pat.now position.now at }
{
    match pat {
        Pat::Wild(_) | Pat::Var(_, _) => false,
        Pat::Num(_, _) => position.is_empty() && ty == at,
        Pat::Con(_, con, subs) => match position {
            [] => ty == at,
            [field, rest @ ..] => {
                let fields = types_of_fields(types, *con);
                match (subs.get(*field as usize), fields.get(*field as usize)) {
                    (Some(sub), Some(ty)) => has_place(types, *ty, sub, rest, at),
                    _ => false,
                }
            }
        },
    }
}

/// Whether some of the patterns, taken at type `ty`, has a number or a constructor at a position,
/// where type `at` is. True is proved of what is so; that false is right no clause says.
pub fn is_looked_at(types: &[DataDecl], ty: Ty, pats: &[Pat], position: &[u32], at: Ty) -> bool
    ensures { result ≡ true → IsLookedAt types.now ty pats.now position.now at }
{
    for pat in pats {
        if has_place(types, ty, pat, position, at) {
            return true;
        }
    }
    false
}
