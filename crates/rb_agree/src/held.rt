//! Whether each open position of a leaf is held exactly once, and no other path is held. An open
//! position is a wildcard or a variable in a leaf's provenance, the pattern of its values; its path
//! is the field numbers that lead there from the root.
//!
//! A unit is a bit of an integer or a word of a data type. What the parts of the leaf hold of a position
//! is a list of runs of units. Take a field of type u8, bits 0 up to 4 of which stand in one part and bits
//! 3 up to 8 in another. The runs are 4 units from 0 on and 5 units from 3 on, so unit 3 is held twice.
//!
//! The items are the leaf's words and inlined fields as they are written, and `prov` is its
//! provenance. A function that says how something fails gives the fault that it finds first, or
//! None where nothing fails; its `Err` is want of memory.

ghost use Rattle.std.specs.Prelude.{◌≡◌, IfOk, MatchOption};
ghost use Rattle.std.specs.List.{flat_map};
ghost use Rattle.rb_layout.specs.Items.{content_paths, item_paths, paths_of};
ghost use Rattle.rb_layout.specs.Positions.{open_positions};
ghost use Rattle.rb_layout.specs.A6.{FailsHeld, HoldsEach, HoldsOnce, units_of};
ghost use Rattle.rb_layout.specs.Opens.{open_at};
ghost use Rattle.rb_agree.specs.Written.{shown_content, shown_item, shown_items};
ghost use Rattle.rb_agree.specs.inner.Lists.{FindsIn};
ghost use Rattle.rb_agree.specs.inner.Held.{AreOnce, FailsEach, FailsPath, FailsPlace, FailsUnit, FailsUnits, HoldsPlace, IsOpenPath, has_unit, leaf_runs, part_paths, times};
ghost use Rattle.rb_agree.specs.inner.Gathered.{AreGathered};

use crate::items::{Content, Item, Written};
use crate::parts::is_open;
use crate::runs::{Run, runs_at, runs_of};
use rb_core::pattern::Pat;
use rb_core::program::Program;
use rb_core::seq::Seq;
use rb_core::types::{DataDecl, Ty};
use rb_layout::decls::shape_of;
use rb_layout::evidence::Why;
use rb_layout::layout::Leaf;
use rb_layout::opens::{OpenPosition, opens};
use std::alloc::{AllocError, Global};

// Whether a run has the unit with this number.
fn has_unit(run: &Run, unit: u64) -> bool
    ensures { result ≡ has_unit run.now unit }
{
    run.first <= unit && unit - run.first < run.count
}

// How many of these runs have the unit with this number.
fn times(runs: &[Run], unit: u64) -> usize
    ensures { result ≡ times runs.now unit }
{
    let mut count = 0;
    for run in runs {
        if has_unit(run, unit) {
            count += 1;
        }
    }
    count
}

// How unit number `unit` of the position at a path fails to stand in exactly one of these runs.
fn unit_fault(
    alloc: Global,
    path: &Seq<u32>,
    runs: &[Run],
    unit: u64,
) -> Result<Option<Why>, AllocError>
    ensures { IfOk result (λ found. MatchOption found (times runs.now unit ≡ 1) (FailsUnit path.now runs.now unit)) }
{
    let count = times(runs, unit);
    if count == 0 {
        return Ok(Some(Why::NotHeld(path.copy(alloc)?, unit)));
    }
    if count == 1 {
        return Ok(None);
    }
    Ok(Some(Why::HeldTwice(path.copy(alloc)?, unit)))
}

// How many units a position of this type has: the bits of an integer, or the words of a data type's
// shape.
fn units_of(program: &Program, ty: Ty) -> u64
    ensures { result ≡ units_of program.now ty }
{
    match ty {
        Ty::Int(bits) => bits as u64,
        Ty::Named(s) => shape_of(program.layouts.as_slice(), s).len() as u64,
    }
}

// How some unit of so many, from the first on, of the position at a path fails to stand in exactly
// one of these runs.
fn units_fault(
    alloc: Global,
    path: &Seq<u32>,
    runs: &[Run],
    count: u64,
) -> Result<Option<Why>, AllocError>
    ensures { IfOk result (λ found. MatchOption found
        (AreOnce runs.now count) (FailsUnits path.now runs.now count)) }
{
    for unit in 0..count {
        if let Some(why) = unit_fault(alloc, path, runs, unit)? {
            return Ok(Some(why));
        }
    }
    Ok(None)
}

// How some unit of an open position fails to be held once, where these are its runs.
fn place_fault(
    alloc: Global,
    program: &Program,
    leaf: &Leaf,
    place: &OpenPosition,
    runs: &[Run],
) -> Result<Option<Why>, AllocError>
    requires { runs.now ≡ leaf_runs leaf.now place.now.ty place.now.path }
    ensures { IfOk result (λ found. MatchOption found
        (HoldsPlace program.now leaf.now (open_at place.now))
        (FailsPlace program.now leaf.now (open_at place.now))) }
{
    units_fault(alloc, &place.path, runs, units_of(program, place.ty))
}

// How some open position of these fails to be held once, where these are their runs.
fn some_place_fault(
    alloc: Global,
    program: &Program,
    leaf: &Leaf,
    places: &[OpenPosition],
    rows: &[Seq<Run>],
) -> Result<Option<Why>, AllocError>
    requires { AreGathered leaf.now places.now rows.now }
    ensures { IfOk result (λ found. FindsIn
        (λ (place : OpenPosition). HoldsPlace program.now leaf.now (open_at place))
        (λ (place : OpenPosition). FailsPlace program.now leaf.now (open_at place)) places.now found) }
{
    for n in 0..places.len() {
        if let Some(why) = place_fault(alloc, program, leaf, &places[n], runs_at(rows, n))? {
            return Ok(Some(why));
        }
    }
    Ok(None)
}

// How some open position fails to be held once.
fn places_fault(alloc: Global, program: &Program, leaf: &Leaf) -> Result<Option<Why>, AllocError>
    ensures { IfOk result (λ found. MatchOption found
        (HoldsEach program.now leaf.now) (FailsEach program.now leaf.now)) }
{
    let list = opens(alloc, program.types.as_slice(), &leaf.prov)?;
    let rows = runs_of(alloc, leaf, list.as_slice())?;
    some_place_fault(alloc, program, leaf, list.as_slice(), rows.as_slice())
}

// How a path fails to be that of an open position.
fn path_fault(
    alloc: Global,
    types: &[DataDecl],
    prov: &Pat,
    path: &Seq<u32>,
) -> Result<Option<Why>, AllocError>
    ensures { IfOk result (λ found. MatchOption found
        (IsOpenPath (open_positions types.now prov.now) path.now)
        (FailsPath (open_positions types.now prov.now) path.now)) }
{
    if is_open(types, prov, path) {
        return Ok(None);
    }
    Ok(Some(Why::NotOpen(path.copy(alloc)?)))
}

// How the path of what a part holds, if it has one, fails to be that of an open position.
fn content_fault(
    alloc: Global,
    types: &[DataDecl],
    prov: &Pat,
    content: &Content,
) -> Result<Option<Why>, AllocError>
    ensures { IfOk result (FindsIn
        (IsOpenPath (open_positions types.now prov.now))
        (FailsPath (open_positions types.now prov.now)) (content_paths (shown_content content.now))) }
{
    match content {
        Content::Number(_) => Ok(None),
        Content::Whole(path) => path_fault(alloc, types, prov, path),
        Content::Slice(path, _, _) => path_fault(alloc, types, prov, path),
        Content::WordOf(path, _) => path_fault(alloc, types, prov, path),
        Content::Address(_) => Ok(None),
    }
}

// How a path that the parts of a word hold fails to be that of an open position.
fn parts_fault(
    alloc: Global,
    types: &[DataDecl],
    prov: &Pat,
    parts: &[Written],
) -> Result<Option<Why>, AllocError>
    ensures { IfOk result (FindsIn
        (IsOpenPath (open_positions types.now prov.now))
        (FailsPath (open_positions types.now prov.now)) (flat_map part_paths parts.now)) }
{
    for part in parts {
        if let Some(why) = content_fault(alloc, types, prov, &part.content)? {
            return Ok(Some(why));
        }
    }
    Ok(None)
}

// How a path that one item names fails to be that of an open position.
fn item_fault(
    alloc: Global,
    types: &[DataDecl],
    prov: &Pat,
    item: &Item,
) -> Result<Option<Why>, AllocError>
    ensures { IfOk result (FindsIn
        (IsOpenPath (open_positions types.now prov.now))
        (FailsPath (open_positions types.now prov.now)) (item_paths (shown_item item.now))) }
{
    match item {
        Item::Field(path) => path_fault(alloc, types, prov, path),
        Item::Parts(_, parts) => parts_fault(alloc, types, prov, parts.as_slice()),
    }
}

// How a path that the items name fails to be that of an open position.
fn items_fault(
    alloc: Global,
    types: &[DataDecl],
    prov: &Pat,
    items: &[Item],
) -> Result<Option<Why>, AllocError>
    ensures { IfOk result (FindsIn
        (IsOpenPath (open_positions types.now prov.now))
        (FailsPath (open_positions types.now prov.now)) (paths_of (shown_items items.now))) }
{
    for item in items {
        if let Some(why) = item_fault(alloc, types, prov, item)? {
            return Ok(Some(why));
        }
    }
    Ok(None)
}

/// How a leaf with these items fails to hold each bit of an open integer and each word of an open data
/// field exactly once, and no other path.
///
/// # Errors
///
/// Want of memory.
pub fn held_fault(
    alloc: Global,
    program: &Program,
    leaf: &Leaf,
    items: &[Item],
) -> Result<Option<Why>, AllocError>
    ensures { IfOk result (λ found. MatchOption found
        (HoldsOnce program.now leaf.now (shown_items items.now))
        (FailsHeld program.now leaf.now (shown_items items.now))) }
{
    if let Some(why) = items_fault(alloc, program.types.as_slice(), &leaf.prov, items)? {
        return Ok(Some(why));
    }
    places_fault(alloc, program, leaf)
}
