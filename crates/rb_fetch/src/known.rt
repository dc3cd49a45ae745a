//! What is known of a value on a way to its leaf, and the leaf of a part where that is enough to
//! tell it. A position is a path, field numbers from the root. A look is code that finds the leaf
//! of the part at a position. A provenance is the pattern of the values that a leaf holds. A
//! `Place` is a constructor with its position. A leaf can be here where the value may still have
//! it; leaves are numbers in the layout of a data type `ty`.

ghost use Rattle.std.specs.Prelude.{◌≡◌, ◌++◌, [], IfOk, OnOk, map};
ghost use Rattle.std.specs.Option.{option_copied};
ghost use Rattle.rb_layout.specs.Positions.{layout_of, leaves_of_layout};
ghost use Rattle.rb_fetch.specs.inner.Asking.{IsLearnt};
ghost use Rattle.rb_fetch.specs.inner.Choosing.{HasRootCon};
ghost use Rattle.rb_fetch.specs.inner.Fields.{leaf_at};
ghost use Rattle.rb_fetch.specs.inner.Heads.{behind, head_behind, head_under, heads_behind, heads_in, known_con, leaf_known, leaves_beside, leaves_for, leaves_that_can_be, shown_heads, sole};
ghost use Rattle.rb_fetch.specs.inner.Seen.{seen_before, seen_more};

use crate::heads::{
    Place, bare_paths, heads_under, leaf_at, leaves_beside, leaves_with, take_apart,
};
use crate::parts::{leaves_by, root_of};
use crate::rebuild::copy_path;
use rb_core::seq::Seq;
use rb_core::types::{ConRef, DataDecl};
use rb_layout::agreed::Agreed;
use rb_layout::layout::Layout;
use rb_layout::paths::same_path;
use std::alloc::{AllocError, Global};

/// What is known of a value: positions that need no look any more, and constructors that stand in it.
#[derive(Drop)]
pub(crate) struct Seen {
    pub looked: Seq<Seq<u32>>,
    pub known: Seq<Place>,
}

/// What follows where the leaf of a part is known: the constructor at its root by number, those below at their
/// positions in the whole, and the leaves of the whole that can still be here.
#[derive(Drop)]
pub(crate) struct Below {
    pub root: u32,
    pub heads: Seq<Place>,
    pub kept: Seq<usize>,
}

/// What follows where the part of a whole at a place has this leaf: the constructors of the part,
/// and which of `leaves`, those that the whole could have so far, it can still have. The whole is
/// of type `ty`, and `leaves` are numbers in its layout; `leaf` is a number in the layout of the
/// part's own type.
///
/// # Errors
///
/// Want of memory; the same answer where there is no such leaf.
pub(crate) fn below_leaf(
    alloc: Global,
    layouts: &[Layout],
    ty: u32,
    leaves: &[usize],
    place: &Place,
    leaf: usize,
) -> Result<Below, AllocError>
    ensures root { IfOk result (λ b. HasRootCon layouts.now place.now.con.ty leaf b.root) }
    ensures heads { IfOk result (λ b. shown_heads b.heads
        ≡ map (head_under place.now.path) (heads_in (leaf_at layouts.now place.now.con.ty leaf))) }
    ensures kept { IfOk result (λ b. b.kept ≡ leaves_beside layouts.now ty (shown_heads b.heads)
        (leaves_that_can_be layouts.now ty place.now.path b.root leaves.now)) }
{
    let Some(root) = root_of(layouts, place.con.ty, leaf) else {
        return Err(AllocError);
    };
    let Some(found) = leaf_at(layouts, place.con.ty, leaf) else {
        return Err(AllocError);
    };
    let heads = heads_under(alloc, found, &place.path)?;
    let with_root = leaves_with(alloc, layouts, ty, leaves, place.path.as_slice(), root)?;
    let kept = leaves_beside(alloc, layouts, ty, with_root, heads.as_slice())?;
    Ok(Below { root, heads, kept })
}

/// What is learnt where a part has a leaf: the leaves that the whole can still have, and whether
/// one of them takes the part apart.
#[derive(Drop)]
pub(crate) struct Learnt {
    pub kept: Seq<usize>,
    pub apart: bool,
}

/// What follows where the part of a whole at a place has this leaf, as `below_leaf` has it: `seen`
/// is more by a look there and by the constructors of the part.
///
/// # Errors
///
/// Want of memory; the same answer where there is no such leaf.
pub(crate) fn learn(
    alloc: Global,
    agreed: &Agreed,
    ty: u32,
    leaves: &[usize],
    place: &Place,
    leaf: usize,
    seen: &mut Seen,
) -> Result<Learnt, AllocError>
    ensures { IfOk result (λ learnt. IsLearnt agreed.now ty leaves.now place.now leaf seen.old seen.new learnt) }
{
    let _typed = agreed.covered().program();
    let layouts = agreed.layouts();
    let below = below_leaf(alloc, layouts, ty, leaves, place, leaf)?;
    let Below { heads, kept, .. } = below;
    let apart = take_apart(alloc, layouts, ty, kept.as_slice(), place.path.as_slice())?;
    let types = agreed.covered().program().types.as_slice();
    see(alloc, types, seen, &place.path, heads)?;
    Ok(Learnt { kept, apart })
}

/// Adds to `seen` that a look was at the position `path`, and that the constructors `places` stand
/// in the value. Those without fields need no look. `types` are the declarations of the data types.
///
/// # Errors
///
/// Want of memory.
pub(crate) fn see(
    alloc: Global,
    types: &[DataDecl],
    seen: &mut Seen,
    path: &Seq<u32>,
    places: Seq<Place>,
) -> Result<(), AllocError>
    ensures { OnOk result (seen.new ≡ seen_more types.now seen.old path.now places) }
{
    let bare = bare_paths(alloc, types, places.as_slice())?;
    seen.looked.push(path.copy(alloc)?)?;
    if let Some(_) = seen.looked.append(bare) {
        return Err(AllocError);
    }
    if let Some(_) = seen.known.append(places) {
        return Err(AllocError);
    }
    Ok(())
}

/// Takes back what was learnt behind a point: all but the first `looked` positions and the first
/// `known` constructors.
pub(crate) fn forget(seen: &mut Seen, looked: usize, known: usize)
    ensures { seen.new ≡ seen_before looked known seen.old }
{
    seen.looked.truncate(looked);
    seen.known.truncate(known);
}

// The position `path` as seen from `above`, a position above it, or from itself; None where it
// neither is that one nor stands below it.
fn behind<'a>(above: &[u32], path: &'a [u32]) -> Option<&'a [u32]>
    ensures { option_copied result ≡ behind above.now path.now }
{
    match above {
        [] => Some(path),
        [field, above @ ..] => match path {
            [] => None,
            [own, path @ ..] => {
                if field == own {
                    behind(above, path)
                } else {
                    None
                }
            }
        },
    }
}

// Adds to `out` a constructor at its position as seen from `path`, if it stands there or below;
// else nothing.
fn add_behind(
    alloc: Global,
    place: &Place,
    path: &[u32],
    out: &mut Seq<Place>,
) -> Result<(), AllocError>
    ensures { OnOk result (shown_heads out.new
        ≡ shown_heads out.old ++ head_behind (behind path.now place.now.path) place.now.con []) }
{
    match behind(path, place.path.as_slice()) {
        None => Ok(()),
        Some(rest) => {
            let path = copy_path(alloc, rest)?;
            out.push(Place {
                path,
                con: place.con,
            })?;
            Ok(())
        }
    }
}

// Those of the constructors `known` that stand at the position `path` or below it, at their
// positions as seen from there, in their order.
fn heads_behind(alloc: Global, known: &[Place], path: &[u32]) -> Result<Seq<Place>, AllocError>
    ensures { IfOk result (λ found. shown_heads found ≡ heads_behind path.now (shown_heads known.now)) }
{
    let mut found = Seq::new(alloc);
    for place in known {
        add_behind(alloc, place, path, &mut found)?;
    }
    Ok(found)
}

// The constructor that is known at a position, by number: the first of `known` that stands there;
// None where none does.
fn known_con(known: &[Place], path: &[u32]) -> Option<u32>
    ensures { result ≡ known_con path.now (shown_heads known.now) }
{
    for place in known {
        if same_path(place.path.as_slice(), path) {
            return Some(place.con.con);
        }
    }
    None
}

// The leaf in a list of one; none where the list is empty or has more.
fn sole(leaves: &[usize]) -> Option<usize>
    ensures { result ≡ sole leaves.now }
{
    match leaves {
        [leaf] => Some(*leaf),
        [] | [_, _, ..] => None,
    }
}

/// The leaves that a value by the constructor `con` can have, by number and in their order, where
/// these constructors are known to stand in it; none where its type has no layout.
///
/// # Errors
///
/// Want of memory.
pub(crate) fn leaves_known(
    alloc: Global,
    layouts: &[Layout],
    con: ConRef,
    known: &[Place],
) -> Result<Seq<usize>, AllocError>
    ensures { IfOk result (λ found. found ≡ leaves_beside layouts.now con.ty (shown_heads known.now)
        (leaves_for con.con (leaves_of_layout (layout_of layouts.now con.ty)) 0)) }
{
    let all = leaves_by(alloc, layouts, con)?;
    let leaves = leaves_beside(alloc, layouts, con.ty, all, known)?;
    Ok(leaves)
}

/// The leaf of the part of data type `ty` at the position `path`, by number, where `known`, the
/// constructors that are known of the whole, leave one by what stands there and below. None where
/// they leave more or none, or tell no constructor at the position itself.
///
/// # Errors
///
/// Want of memory.
pub(crate) fn leaf_known(
    alloc: Global,
    layouts: &[Layout],
    ty: u32,
    path: &[u32],
    known: &[Place],
) -> Result<Option<usize>, AllocError>
    ensures { IfOk result (λ found. found ≡ leaf_known layouts.now ty path.now (shown_heads known.now)) }
{
    let Some(con) = known_con(known, path) else {
        return Ok(None);
    };
    let below = heads_behind(alloc, known, path)?;
    let leaves = leaves_known(alloc, layouts, ConRef { ty, con }, below.as_slice())?;
    Ok(sole(leaves.as_slice()))
}
