//! The constructors below the root of a provenance, and what they say of leaves that can be here. A
//! provenance is the pattern of the values that a leaf holds. A position is a path, field numbers
//! from the root. A leaf can be here where the value may still have it. It takes a part apart where
//! its provenance has a constructor at the part's position: it holds the part's fields alone. `ty`
//! is a data type by number, `leaf` and `leaves` are leaves by their numbers in the layout of that
//! type, and `con` of type `u32` is a constructor by number in its own type. `path` is a position.
//! A look is code that finds the leaf of the part at a position.

ghost use Rattle.std.specs.Prelude.{◌≡◌, ◌++◌, ◌∷◌, [], map, IfOk, MatchOption, OnOk};
ghost use Rattle.std.specs.Option.{option_copied};
ghost use Rattle.rb_layout.specs.Flattening.{same_path};
ghost use Rattle.rb_rel.specs.Switches.{heads_below, heads_of, inner_heads};
ghost use Rattle.rb_fetch.specs.inner.Heads.{AreLookedAt, bare_paths, can_be, can_be_leaf, head_under, IsNext, is_among, is_bare, leaves_beside, leaves_that_can_be, shown_heads, stands_at, take_apart, takes_apart};
ghost use Rattle.rb_fetch.specs.inner.Fields.{leaf_at};

use rb_core::inference::types_of_fields;
use rb_core::pattern::Pat;
use rb_core::seq::Seq;
use rb_core::types::{ConRef, DataDecl};
use rb_layout::layout::{Layout, Leaf};
use rb_layout::numbers::number_of;
use rb_layout::paths::same_path;
use std::alloc::{AllocError, Global};

/// A constructor of a provenance: its position, a list of field numbers from the root, and itself.
#[derive(Drop)]
pub(crate) struct Place {
    pub path: Seq<u32>,
    pub con: ConRef,
}

/// The position of a field, by its number, of the part at a position: one field number more. A
/// field number past those of 32 bits is answered by want of memory.
///
/// # Errors
///
/// Want of memory.
pub(crate) fn field_path(
    alloc: Global,
    path: &Seq<u32>,
    field: usize,
) -> Result<Seq<u32>, AllocError>
    ensures { IfOk result (λ longer. longer ≡ path.now ++ field ∷ []) }
{
    let mut longer = path.copy(alloc)?;
    longer.push(number_of(field)?)?;
    Ok(longer)
}

// Adds to `out` the constructors of a pattern that stands at a path, at their positions in the
// whole: outer ones before inner ones and from left to right.
#[cycle(heads)]
fn add_heads(
    alloc: Global,
    pat: &Pat,
    path: &Seq<u32>,
    out: &mut Seq<Place>,
) -> Result<(), AllocError>
    ensures { OnOk result (shown_heads out.new ≡ shown_heads out.old ++ map (head_under path.now) (heads_of pat.now)) }
{
    match pat {
        Pat::Wild(_) | Pat::Var(_, _) | Pat::Num(_, _) => Ok(()),
        Pat::Con(_, con, pats) => {
            let path_here = path.copy(alloc)?;
            out.push(Place {
                path: path_here,
                con: *con,
            })?;
            add_heads_below(alloc, pats.as_slice(), path, out)?;
            Ok(())
        }
    }
}

// Adds to `out` the constructors of subpatterns, one a field, of a pattern that stands at a path,
// at their positions in the whole.
#[cycle(heads)]
fn add_heads_below(
    alloc: Global,
    pats: &[Pat],
    path: &Seq<u32>,
    out: &mut Seq<Place>,
) -> Result<(), AllocError>
    ensures { OnOk result (shown_heads out.new
        ≡ shown_heads out.old ++ map (head_under path.now) (heads_below (map heads_of pats.now) 0)) }
{
    for (i, pat) in pats.iter().enumerate() {
        let longer = field_path(alloc, path, i)?;
        add_heads(alloc, pat, &longer, out)?;
    }
    Ok(())
}

/// The constructors below the root of the provenance of `leaf`, the leaf of the part at `path`, at
/// their positions in the whole: outer ones before inner ones and from left to right; none where
/// the provenance has none there.
///
/// # Errors
///
/// Want of memory.
pub(crate) fn heads_under(
    alloc: Global,
    leaf: &Leaf,
    path: &Seq<u32>,
) -> Result<Seq<Place>, AllocError>
    ensures { IfOk result (λ found. shown_heads found ≡ map (head_under path.now) (inner_heads leaf.now)) }
{
    let mut found = Seq::new(alloc);
    match &leaf.prov {
        Pat::Wild(_) | Pat::Var(_, _) | Pat::Num(_, _) => Ok(found),
        Pat::Con(_, _, pats) => {
            add_heads_below(alloc, pats.as_slice(), path, &mut found)?;
            Ok(found)
        }
    }
}

/// The constructors below the root of the provenance of a whole value's leaf, at their positions:
/// outer ones before inner ones and from left to right.
///
/// # Errors
///
/// Want of memory.
pub(crate) fn heads(alloc: Global, leaf: &Leaf) -> Result<Seq<Place>, AllocError>
    ensures { IfOk result (λ found. shown_heads found ≡ inner_heads leaf.now) }
{
    let root = Seq::new(alloc);
    let found = heads_under(alloc, leaf, &root)?;
    Ok(found)
}

/// The constructors of the patterns `pats`, one a field of a construction, at their positions in
/// the construction: outer ones before inner ones and from left to right.
///
/// # Errors
///
/// Want of memory.
pub(crate) fn field_heads(alloc: Global, pats: &[Pat]) -> Result<Seq<Place>, AllocError>
    ensures { IfOk result (λ found. shown_heads found ≡ heads_below (map heads_of pats.now) 0) }
{
    let root = Seq::new(alloc);
    let mut found = Seq::new(alloc);
    add_heads_below(alloc, pats, &root, &mut found)?;
    Ok(found)
}

// Whether a constructor has no fields.
fn is_bare(types: &[DataDecl], con: ConRef) -> bool
    ensures { result ≡ is_bare types.now con }
{
    types_of_fields(types, con).len() == 0
}

/// The positions of those of the constructors `places` that have no fields, in their order: where one
/// is known to stand, a look would find nothing more. `types` are the declarations of the data types.
///
/// # Errors
///
/// Want of memory.
pub(crate) fn bare_paths(
    alloc: Global,
    types: &[DataDecl],
    places: &[Place],
) -> Result<Seq<Seq<u32>>, AllocError>
    ensures { IfOk result (λ paths. paths ≡ bare_paths types.now (shown_heads places.now)) }
{
    let mut paths = Seq::new(alloc);
    for place in places {
        if is_bare(types, place.con) {
            paths.push(place.path.copy(alloc)?)?;
        }
    }
    Ok(paths)
}

// Whether a position is one of `paths`.
fn is_among(paths: &[Seq<u32>], path: &[u32]) -> bool
    ensures { result ≡ is_among paths.now path.now }
{
    for own in paths {
        if same_path(own.as_slice(), path) {
            return true;
        }
    }
    false
}

/// The first of the constructors `places` whose position is not in `looked`, those that need no
/// look any more: the leaf of the part there is asked for next. None where all are in it.
pub(crate) fn next_place<'a>(places: &'a [Place], looked: &[Seq<u32>]) -> Option<&'a Place>
    ensures { MatchOption result (AreLookedAt looked.now places.now)
        (λ place. IsNext looked.now places.now place.now) }
{
    for place in places {
        if !is_among(looked, place.path.as_slice()) {
            return Some(place);
        }
    }
    None
}

// Whether no other constructor than this one, by number, stands at a position among `places`; true
// where none stands there.
fn can_be(places: &[Place], path: &[u32], con: u32) -> bool
    ensures { result ≡ can_be path.now con (shown_heads places.now) }
{
    for place in places {
        if same_path(place.path.as_slice(), path) {
            if place.con.con != con {
                return false;
            }
        }
    }
    true
}

/// The leaf with this number in a type's layout; None where there is none.
pub(crate) fn leaf_at(layouts: &[Layout], ty: u32, leaf: usize) -> Option<&Leaf>
    ensures { option_copied result ≡ leaf_at layouts.now ty leaf }
{
    match layouts.get(ty as usize) {
        None => None,
        Some(layout) => layout.leaves.get(leaf),
    }
}

// Whether the leaf with this number can still be here where a constructor stands at a position: its
// provenance has it there, or none. False where there is no such leaf.
fn can_be_leaf(
    alloc: Global,
    layouts: &[Layout],
    ty: u32,
    leaf: usize,
    path: &[u32],
    con: u32,
) -> Result<bool, AllocError>
    ensures { IfOk result (λ can. can ≡ can_be_leaf path.now con (leaf_at layouts.now ty leaf)) }
{
    match leaf_at(layouts, ty, leaf) {
        None => Ok(false),
        Some(found) => {
            let places = heads(alloc, found)?;
            Ok(can_be(places.as_slice(), path, con))
        }
    }
}

/// Those of `leaves` that can still be here where this constructor stands at a position, in their
/// order: those whose provenances have it there, or none.
///
/// # Errors
///
/// Want of memory.
pub(crate) fn leaves_with(
    alloc: Global,
    layouts: &[Layout],
    ty: u32,
    leaves: &[usize],
    path: &[u32],
    con: u32,
) -> Result<Seq<usize>, AllocError>
    ensures { IfOk result (λ kept. kept ≡ leaves_that_can_be layouts.now ty path.now con leaves.now) }
{
    let mut kept = Seq::new(alloc);
    for leaf in leaves {
        if can_be_leaf(alloc, layouts, ty, *leaf, path, con)? {
            kept.push(*leaf)?;
        }
    }
    Ok(kept)
}

/// Those of `leaves` that can still be here where each of the constructors `places` stands at its
/// position, in their order: all of them without constructors.
///
/// # Errors
///
/// Want of memory.
pub(crate) fn leaves_beside(
    alloc: Global,
    layouts: &[Layout],
    ty: u32,
    leaves: Seq<usize>,
    places: &[Place],
) -> Result<Seq<usize>, AllocError>
    ensures { IfOk result (λ kept. kept ≡ leaves_beside layouts.now ty (shown_heads places.now) leaves) }
{
    let mut kept = leaves;
    for place in places {
        let path = place.path.as_slice();
        kept = leaves_with(alloc, layouts, ty, kept.as_slice(), path, place.con.con)?;
    }
    Ok(kept)
}

// Whether one of the constructors `places` stands at a position.
fn stands_at(places: &[Place], path: &[u32]) -> bool
    ensures { result ≡ stands_at path.now (shown_heads places.now) }
{
    for place in places {
        if same_path(place.path.as_slice(), path) {
            return true;
        }
    }
    false
}

// Whether the leaf with this number takes the part at a position apart: its provenance has a
// constructor there. False where there is no such leaf.
fn takes_apart(
    alloc: Global,
    layouts: &[Layout],
    ty: u32,
    leaf: usize,
    path: &[u32],
) -> Result<bool, AllocError>
    ensures { IfOk result (λ takes. takes ≡ takes_apart path.now (leaf_at layouts.now ty leaf)) }
{
    match leaf_at(layouts, ty, leaf) {
        None => Ok(false),
        Some(found) => {
            let places = heads(alloc, found)?;
            Ok(stands_at(places.as_slice(), path))
        }
    }
}

/// Whether one of `leaves` takes the part at a position apart: its provenance has a constructor
/// there. False without leaves.
///
/// # Errors
///
/// Want of memory.
pub(crate) fn take_apart(
    alloc: Global,
    layouts: &[Layout],
    ty: u32,
    leaves: &[usize],
    path: &[u32],
) -> Result<bool, AllocError>
    ensures { IfOk result (λ take. take ≡ take_apart layouts.now ty path.now leaves.now) }
{
    for leaf in leaves {
        if takes_apart(alloc, layouts, ty, *leaf, path)? {
            return Ok(true);
        }
    }
    Ok(false)
}
