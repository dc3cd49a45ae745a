//! Leaves of a construction by number, and the parts of it that are in slots. A provenance is the
//! pattern of the values that a leaf holds. A position is a path, field numbers from the root. A
//! part is what stands at a position of the value that is constructed, which is the whole. Where a
//! provenance has a wildcard, its leaf has an open position.

ghost use Rattle.std.specs.Prelude.{◌≡◌, ◌++◌, [], IfOk, IfSome, OnOk, map};
ghost use Rattle.rb_core.specs.declared.types.Ty.TheVariants.{Named};
ghost use Rattle.rb_layout.specs.Positions.{layout_of, leaves_of_layout, opens_below, opens_of};
ghost use Rattle.rb_rel.specs.Switches.{is_leaf_for};
ghost use Rattle.rb_fetch.specs.inner.Choosing.{HasLeaves, HasOpens, HasRootCon, PartHasType, IsPartIn, parts_from, parts_under};
ghost use Rattle.rb_fetch.specs.inner.Heads.{leaves_for};

use crate::heads::{field_path, leaf_at};
use rb_compose::subvalue::Subvalue;
use rb_core::inference::types_of_fields;
use rb_core::pattern::Pat;
use rb_core::seq::Seq;
use rb_core::types::{ConRef, DataDecl, Ty};
use rb_fragment::held::Held;
use rb_layout::layout::{Layout, Leaf};
use rb_layout::paths::same_path;
use std::alloc::{AllocError, Global};

// Leaves ----------------------------------------------------------------------------------------

/// The constructor at the root of a leaf's provenance, by number; none where there is no such leaf,
/// or no constructor at its root.
pub(crate) fn root_of(layouts: &[Layout], ty: u32, leaf: usize) -> Option<u32>
    ensures { IfSome result (λ con. HasRootCon layouts.now ty leaf con) }
{
    let found = leaf_at(layouts, ty, leaf)?;
    match &found.prov {
        Pat::Con(_, con, _) => Some(con.con),
        Pat::Wild(_) | Pat::Var(_, _) | Pat::Num(_, _) => None,
    }
}

/// Whether a leaf's provenance has the constructor of this number at its root: the leaf is for
/// values of it.
pub(crate) fn is_leaf_for(leaf: &Leaf, con: u32) -> bool
    ensures { result ≡ is_leaf_for con leaf.now }
{
    match &leaf.prov {
        Pat::Con(_, root, _) => root.con == con,
        Pat::Wild(_) | Pat::Var(_, _) | Pat::Num(_, _) => false,
    }
}

// Those of `leaves`, all those of a layout, that are for the values of a constructor, by number and
// in their order.
fn leaves_of(alloc: Global, leaves: &[Leaf], con: u32) -> Result<Seq<usize>, AllocError>
    ensures { IfOk result (λ found. found ≡ leaves_for con leaves.now 0) }
{
    let mut found = Seq::new(alloc);
    for (n, leaf) in leaves.iter().enumerate() {
        if is_leaf_for(leaf, con) {
            found.push(n)?;
        }
    }
    Ok(found)
}

/// The leaves of a type's layout that are for the values of `con`, a constructor of the type, by
/// number and in their order; none where the type has no layout.
pub(crate) fn leaves_by(
    alloc: Global,
    layouts: &[Layout],
    con: ConRef,
) -> Result<Seq<usize>, AllocError>
    ensures { IfOk result (λ found. found ≡ leaves_for con.con (leaves_of_layout (layout_of layouts.now con.ty)) 0) }
{
    match layouts.get(con.ty as usize) {
        None => Ok(Seq::new(alloc)),
        Some(layout) => {
            let found = leaves_of(alloc, layout.leaves.as_slice(), con.con)?;
            Ok(found)
        }
    }
}

/// How many leaves a type's layout has; None where it has no layout.
pub(crate) fn count_leaves(layouts: &[Layout], ty: u32) -> Option<usize>
    ensures { IfSome result (λ count. HasLeaves layouts.now ty count) }
{
    match layouts.get(ty as usize) {
        None => None,
        Some(layout) => Some(layout.leaves.len()),
    }
}

// Parts -----------------------------------------------------------------------------------------

// A copy of a value in slots.
fn copy_held(alloc: Global, held: &Held) -> Result<Held, AllocError>
    ensures { IfOk result (λ copy. copy ≡ held.now) }
{
    let slots = held.slots.copy(alloc)?;
    Ok(Held { ty: held.ty, slots })
}

/// A copy of parts in slots, with their positions, in their order.
pub(crate) fn copy_parts(alloc: Global, parts: &[Subvalue]) -> Result<Seq<Subvalue>, AllocError>
    ensures { IfOk result (λ copies. copies ≡ parts.now) }
{
    let mut copies = Seq::new(alloc);
    for part in parts {
        let path = part.path.copy(alloc)?;
        let held = copy_held(alloc, &part.held)?;
        copies.push(Subvalue { path, held })?;
    }
    Ok(copies)
}

/// The arguments of a construction, in slots, as its parts: argument i is the part at field i of
/// the root.
pub(crate) fn parts_of(alloc: Global, args: &[Held]) -> Result<Seq<Subvalue>, AllocError>
    ensures { IfOk result (λ parts. parts ≡ parts_from 0 args.now) }
{
    let root = Seq::new(alloc);
    let mut parts = Seq::new(alloc);
    for (i, arg) in args.iter().enumerate() {
        let path = field_path(alloc, &root, i)?;
        let held = copy_held(alloc, arg)?;
        parts.push(Subvalue { path, held })?;
    }
    Ok(parts)
}

/// Adds the values of the fields of the part at a position to the parts of the whole, each at its
/// own position: that of the part, with the number of the field behind it.
///
/// # Errors
///
/// Want of memory.
pub(crate) fn add_parts(
    alloc: Global,
    path: &Seq<u32>,
    fields: &[Held],
    parts: &mut Seq<Subvalue>,
) -> Result<(), AllocError>
    ensures { OnOk result (parts.new ≡ parts.old ++ parts_under path.now 0 fields.now) }
{
    for (i, field) in fields.iter().enumerate() {
        let longer = field_path(alloc, path, i)?;
        let held = copy_held(alloc, field)?;
        parts.push(Subvalue { path: longer, held })?;
    }
    Ok(())
}

/// The slots of the part of data type `ty` at the position `path`. It is among `parts`: an
/// argument, or fetched once the leaf of the part above it was known. Want of memory is the answer
/// where it is not.
pub(crate) fn words_at(
    alloc: Global,
    parts: &[Subvalue],
    path: &[u32],
    ty: u32,
) -> Result<Seq<usize>, AllocError>
    ensures { IfOk result (λ words. IsPartIn parts.now path.now ty words) }
{
    for part in parts {
        if same_path(part.path.as_slice(), path) {
            if part.held.ty == Ty::Named(ty) {
                let words = part.held.slots.copy(alloc)?;
                return Ok(words);
            }
        }
    }
    Err(AllocError)
}

// Looks whether there is one of `parts` at the position `path`, and the first one there is of this
// type. That is always so; want of memory is the answer where it is not.
fn find_part(parts: &[Subvalue], path: &[u32], ty: Ty) -> Result<(), AllocError>
    ensures { OnOk result (PartHasType parts.now path.now ty) }
{
    for part in parts {
        if same_path(part.path.as_slice(), path) {
            if part.held.ty == ty {
                return Ok(());
            }
            return Err(AllocError);
        }
    }
    Err(AllocError)
}

// Looks whether the parts at the open positions of a pattern, which stands at `path` and is of type
// `ty`, are among `parts`, each of its type. Want of memory is the answer where one is not. `types`
// are the declarations of the data types.
#[cycle(finding)]
fn find_parts(
    alloc: Global,
    types: &[DataDecl],
    pat: &Pat,
    ty: Ty,
    path: &Seq<u32>,
    parts: &[Subvalue],
) -> Result<(), AllocError>
    ensures { OnOk result (HasOpens (opens_of types.now pat.now ty) path.now parts.now) }
{
    match pat {
        Pat::Num(_, _) => Ok(()),
        Pat::Wild(_) | Pat::Var(_, _) => {
            find_part(parts, path.as_slice(), ty)?;
            Ok(())
        }
        Pat::Con(_, con, pats) => {
            let fields = types_of_fields(types, *con);
            find_below(alloc, types, pats.as_slice(), fields, path, parts)?;
            Ok(())
        }
    }
}

// Looks whether the parts at the open positions of `pats`, the subpatterns of a constructor at
// `path`, are among `parts`, where the fields are of the types `fields`; a subpattern for which
// there is no field counts for nothing. Want of memory is the answer where a part is missing.
#[cycle(finding)]
fn find_below(
    alloc: Global,
    types: &[DataDecl],
    pats: &[Pat],
    fields: &[Ty],
    path: &Seq<u32>,
    parts: &[Subvalue],
) -> Result<(), AllocError>
    ensures { OnOk result (HasOpens (opens_below (map (opens_of types.now) pats.now) fields.now 0) path.now parts.now) }
{
    for (i, pat) in pats.iter().enumerate() {
        match fields.get(i) {
            None => return Ok(()),
            Some(ty) => {
                let longer = field_path(alloc, path, i)?;
                find_parts(alloc, types, pat, *ty, &longer, parts)?;
            }
        }
    }
    Ok(())
}

/// Looks whether the parts at all open positions of the provenance of `leaf`, of data type `ty`,
/// are among `parts`, each of its type. They always are: the looks at the positions above them
/// found them.
///
/// # Errors
///
/// Want of memory; the same answer where a part is missing.
pub(crate) fn find_fields(
    alloc: Global,
    types: &[DataDecl],
    ty: u32,
    leaf: &Leaf,
    parts: &[Subvalue],
) -> Result<(), AllocError>
    ensures { OnOk result (HasOpens (opens_of types.now leaf.now.prov (Named ty)) [] parts.now) }
{
    let root = Seq::new(alloc);
    find_parts(alloc, types, &leaf.prov, Ty::Named(ty), &root, parts)?;
    Ok(())
}
