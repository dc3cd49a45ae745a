//! What fails at a place of a layout, as it is said at the end of `text`.
//!
//! A leaf holds the values of one pattern, its provenance, and is named by that. An item is one of
//! its words, or the words of a field in it. A path leads to a field: the number of a field, of a
//! field in that one, and so on. A split goes by the bits at a location, and its arms are for
//! literals, numbers that these bits may be. `types` are the types of the program, and `leaves`
//! those of the layout. Every error is want of memory.

ghost use Rattle.std.specs.Prelude.{◌≡◌, ◌++◌, OnOk, slice_get};
ghost use Rattle.std.specs.Fmt.{decimal};
ghost use Rattle.std.specs.List.{flat_map};
ghost use Rattle.rb_layout.specs.A8 as a8;
ghost use Rattle.rb_show.specs.Refusals.{armless_text, closed_text, common_text, constant_text, counts_text, evidence_text, field_text, flattening_text, holding_text, item_text, later_name, leaf_text, literal_at, literal_text, misfit_text, missing_text, names_text, other_width_text, outside_text, overlap_text, pointer_text, split_text, twice_held_text, twice_text, unheld_text, unit_in, unit_of_field, unit_text, unresolved_text, wide_text, width_text};

use crate::location::{push_bits, push_loc};
use crate::piece::push_path;
use rb_core::layout_decl::Loc;
use rb_core::pattern::Pat;
use rb_core::pattern_text::push_pattern;
use rb_core::seq::Seq;
use rb_core::text::{push, push_name, push_number};
use rb_core::types::{DataDecl, Ty};
use rb_layout::evidence::Why;
use rb_layout::layout::Leaf;
use rb_layout::positions::type_at;
use std::alloc::AllocError;

// Adds a number between two texts.
fn push_between(
    text: &mut Vec<u8>,
    before: &[u8],
    number: u64,
    after: &[u8],
) -> Result<(), AllocError>
    ensures { OnOk result (text.new.items ≡ text.old.items ++ before.now ++ decimal number ++ after.now) }
{
    push(text, before)?;
    push_number(text, number)?;
    push(text, after)
}

/// Adds the provenance of a leaf, by which it is named; nothing where there is no such leaf.
pub(crate) fn push_leaf(
    text: &mut Vec<u8>,
    types: &[DataDecl],
    leaves: &[Leaf],
    leaf: u32,
) -> Result<(), AllocError>
    ensures { OnOk result (text.new.items ≡ text.old.items ++ leaf_text types.now leaves.now leaf) }
{
    match leaves.get(leaf as usize) {
        None => Ok(()),
        Some(leaf) => push_pattern(text, types, &leaf.prov),
    }
}

// Adds that the word of this number has so many bits.
fn push_width(text: &mut Vec<u8>, word: u32, width: u64) -> Result<(), AllocError>
    ensures { OnOk result (text.new.items ≡ text.old.items ++ width_text word width) }
{
    push_between(text, b"word ", word as u64, b" has ")?;
    push_number(text, width)?;
    push(text, b" bits")
}

// Adds which item of a leaf fails, by its number, before what fails there.
fn push_item(text: &mut Vec<u8>, item: u32) -> Result<(), AllocError>
    ensures { OnOk result (text.new.items ≡ text.old.items ++ item_text item) }
{
    push_between(text, b"item ", item as u64, b": ")
}

// Adds a literal, as a number behind the word for it.
fn push_literal(text: &mut Vec<u8>, literal: u64) -> Result<(), AllocError>
    ensures { OnOk result (text.new.items ≡ text.old.items ++ literal_text literal) }
{
    push(text, b"literal ")?;
    push_number(text, literal)
}

// Adds the location of the split where something fails, before what fails there.
fn push_split(text: &mut Vec<u8>, loc: &Loc) -> Result<(), AllocError>
    ensures { OnOk result (text.new.items ≡ text.old.items ++ split_text loc.now) }
{
    push(text, b"split ")?;
    push_loc(text, loc)?;
    push(text, b": ")
}

// Adds a field, named by its path.
fn push_field(text: &mut Vec<u8>, path: &[u32]) -> Result<(), AllocError>
    ensures { OnOk result (text.new.items ≡ text.old.items ++ field_text path.now) }
{
    push(text, b"field ")?;
    push_path(text, path)
}

// What a field of this type is counted in: words for a data type, else bits; bits, too, where there
// is no type.
fn unit(ty: Option<Ty>) -> &'static [u8]
    ensures { result.now ≡ unit_text ty }
{
    match ty {
        Some(Ty::Named(_)) => b" word ",
        Some(Ty::Int(_)) | None => b" bit ",
    }
}

// What the field at a path of a leaf is counted in; bits, where there is no such leaf or field.
fn unit_of(types: &[DataDecl], leaves: &[Leaf], leaf: u32, path: &[u32]) -> &'static [u8]
    ensures { result.now ≡ unit_in types.now (slice_get leaves.now leaf) path.now }
{
    match leaves.get(leaf as usize) {
        None => b" bit ",
        Some(leaf) => unit(type_at(types, &leaf.prov, path)),
    }
}

// Adds a bit or a word of a field, whichever the field is counted in, by the field's path and the
// number.
fn push_unit(
    text: &mut Vec<u8>,
    types: &[DataDecl],
    leaves: &[Leaf],
    leaf: u32,
    path: &[u32],
    number: u64,
) -> Result<(), AllocError>
    ensures { OnOk result (text.new.items ≡ text.old.items ++ unit_of_field types.now leaves.now leaf path.now number) }
{
    push_field(text, path)?;
    push(text, unit_of(types, leaves, leaf, path))?;
    push_number(text, number)
}

// Adds the names of the types behind the first of a list, each behind a comma.
fn push_later(text: &mut Vec<u8>, types: &[DataDecl], tys: &[u32]) -> Result<(), AllocError>
    ensures { OnOk result (text.new.items ≡ text.old.items ++ flat_map (later_name types.now) tys.now) }
{
    for ty in tys {
        push(text, b", ")?;
        push_name(text, types, *ty)?;
    }
    Ok(())
}

// Adds the names of types, with commas between them.
fn push_names(text: &mut Vec<u8>, types: &[DataDecl], tys: &[u32]) -> Result<(), AllocError>
    ensures { OnOk result (text.new.items ≡ text.old.items ++ names_text types.now tys.now) }
{
    match tys {
        [] => Ok(()),
        [first, rest @ ..] => {
            push_name(text, types, *first)?;
            push_later(text, types, rest)
        }
    }
}

// The length of a location's last range, in bits.
fn length_of(loc: &Loc) -> u64
    ensures { result ≡ a8.length_of loc.now }
{
    let mut length = loc.l;
    for step in loc.steps.as_slice() {
        length = step.l;
    }
    length
}

// Adds how many root words a leaf should have, and how many it has.
fn push_counts(text: &mut Vec<u8>, wanted: u64, found: u64) -> Result<(), AllocError>
    ensures { OnOk result (text.new.items ≡ text.old.items ++ counts_text wanted found) }
{
    push(text, b"wanted ")?;
    push_number(text, wanted)?;
    push(text, b" words, found ")?;
    push_number(text, found)?;
    Ok(())
}

// Adds that two leaves, each named by its provenance, have a common value.
fn push_common(
    text: &mut Vec<u8>,
    types: &[DataDecl],
    leaves: &[Leaf],
    leaf: u32,
    later: u32,
) -> Result<(), AllocError>
    ensures { OnOk result (text.new.items ≡ text.old.items ++ common_text types.now leaves.now leaf later) }
{
    push(text, b"leaves ")?;
    push_leaf(text, types, leaves, leaf)?;
    push(text, b" and ")?;
    push_leaf(text, types, leaves, later)?;
    push(text, b" have a common value")
}

// Adds that the values of a pattern have no leaf.
fn push_missing(text: &mut Vec<u8>, types: &[DataDecl], pat: &Pat) -> Result<(), AllocError>
    ensures { OnOk result (text.new.items ≡ text.old.items ++ missing_text types.now pat.now) }
{
    push(text, b"no leaf for ")?;
    push_pattern(text, types, pat)
}

// Adds that a split's location leads to no bits of the leaf.
fn push_unresolved(text: &mut Vec<u8>, loc: &Loc) -> Result<(), AllocError>
    ensures { OnOk result (text.new.items ≡ text.old.items ++ unresolved_text loc.now) }
{
    push_loc(text, loc)?;
    push(text, b" does not resolve")
}

// Adds a literal, what it is not (such as known), and the location where it isn't.
fn push_literal_at(
    text: &mut Vec<u8>,
    literal: u64,
    fault: &[u8],
    loc: &Loc,
) -> Result<(), AllocError>
    ensures { OnOk result (text.new.items ≡ text.old.items ++ literal_at literal fault.now loc.now) }
{
    push_literal(text, literal)?;
    push(text, fault)?;
    push_loc(text, loc)
}

// Adds that a type has a pointer, where it is flattened and must not have one.
fn push_pointer(text: &mut Vec<u8>, types: &[DataDecl], ty: u32) -> Result<(), AllocError>
    ensures { OnOk result (text.new.items ≡ text.old.items ++ pointer_text types.now ty) }
{
    push_name(text, types, ty)?;
    push(text, b" has a pointer")
}

// Adds a cycle of types, by their names: each flattens the next, and the last the first.
fn push_flattening(text: &mut Vec<u8>, types: &[DataDecl], tys: &[u32]) -> Result<(), AllocError>
    ensures { OnOk result (text.new.items ≡ text.old.items ++ flattening_text types.now tys.now) }
{
    push(text, b"flattening cycle ")?;
    push_names(text, types, tys)?;
    Ok(())
}

// Adds a cycle of types, by their names: each holds the next in root words, and the last the first.
fn push_holding(text: &mut Vec<u8>, types: &[DataDecl], tys: &[u32]) -> Result<(), AllocError>
    ensures { OnOk result (text.new.items ≡ text.old.items ++ holding_text types.now tys.now) }
{
    push(text, b"holding cycle ")?;
    push_names(text, types, tys)
}

// Adds that a root word has so many bits, and the shape's word so many others.
fn push_other_width(
    text: &mut Vec<u8>,
    word: u32,
    width: u64,
    wanted: u64,
) -> Result<(), AllocError>
    ensures { OnOk result (text.new.items ≡ text.old.items ++ other_width_text word width wanted) }
{
    push_width(text, word, width)?;
    push(text, b", wanted ")?;
    push_number(text, wanted)
}

// Adds that in an item the part with this range has no bit or goes beyond its word.
fn push_outside(text: &mut Vec<u8>, item: u32, o: u64, l: u64) -> Result<(), AllocError>
    ensures { OnOk result (text.new.items ≡ text.old.items ++ outside_text item o l) }
{
    push_item(text, item)?;
    push(text, b"part ")?;
    push_bits(text, o, l)?;
    push(text, b" outside its word")
}

// Adds that in an item the parts with these two ranges have a bit in common.
fn push_overlap(
    text: &mut Vec<u8>,
    item: u32,
    o: u64,
    l: u64,
    p: u64,
    m: u64,
) -> Result<(), AllocError>
    ensures { OnOk result (text.new.items ≡ text.old.items ++ overlap_text item o l p m) }
{
    push_item(text, item)?;
    push(text, b"parts ")?;
    push_bits(text, o, l)?;
    push(text, b" and ")?;
    push_bits(text, p, m)?;
    push(text, b" overlap")
}

// Adds that in an item a constant doesn't fit its part of so many bits.
fn push_constant(text: &mut Vec<u8>, item: u32, number: u64, l: u64) -> Result<(), AllocError>
    ensures { OnOk result (text.new.items ≡ text.old.items ++ constant_text item number l) }
{
    push_item(text, item)?;
    push_between(text, b"constant ", number, b" over ")?;
    push_number(text, l)?;
    push(text, b" bits")
}

// Adds that in an item the part with this range doesn't fit what it names of a field.
fn push_misfit(
    text: &mut Vec<u8>,
    item: u32,
    o: u64,
    l: u64,
    path: &[u32],
) -> Result<(), AllocError>
    ensures { OnOk result (text.new.items ≡ text.old.items ++ misfit_text item o l path.now) }
{
    push_item(text, item)?;
    push(text, b"part ")?;
    push_bits(text, o, l)?;
    push(text, b" does not fit ")?;
    push_field(text, path)
}

// Adds that no part holds a bit or a word of a field.
fn push_unheld(
    text: &mut Vec<u8>,
    types: &[DataDecl],
    leaves: &[Leaf],
    leaf: u32,
    path: &Seq<u32>,
    number: u64,
) -> Result<(), AllocError>
    ensures { OnOk result (text.new.items ≡ text.old.items ++ unheld_text types.now leaves.now leaf path.now number) }
{
    push_unit(text, types, leaves, leaf, path.as_slice(), number)?;
    push(text, b" not held")
}

// Adds that more than one part holds a bit or a word of a field.
fn push_twice_held(
    text: &mut Vec<u8>,
    types: &[DataDecl],
    leaves: &[Leaf],
    leaf: u32,
    path: &Seq<u32>,
    number: u64,
) -> Result<(), AllocError>
    ensures { OnOk result (text.new.items ≡ text.old.items
        ++ twice_held_text types.now leaves.now leaf path.now number) }
{
    push_unit(text, types, leaves, leaf, path.as_slice(), number)?;
    push(text, b" held twice")?;
    Ok(())
}

// Adds that the field at a path is not open.
fn push_closed(text: &mut Vec<u8>, path: &[u32]) -> Result<(), AllocError>
    ensures { OnOk result (text.new.items ≡ text.old.items ++ closed_text path.now) }
{
    push_field(text, path)?;
    push(text, b" not open")
}

// Adds that a literal of the split at a location doesn't fit the bits that the split goes by.
fn push_wide(text: &mut Vec<u8>, loc: &Loc, literal: u64) -> Result<(), AllocError>
    ensures { OnOk result (text.new.items ≡ text.old.items ++ wide_text loc.now literal) }
{
    push_split(text, loc)?;
    push_literal(text, literal)?;
    push_between(text, b" over ", length_of(loc), b" bits")
}

// Adds that the split at a location has a literal twice.
fn push_twice(text: &mut Vec<u8>, loc: &Loc, literal: u64) -> Result<(), AllocError>
    ensures { OnOk result (text.new.items ≡ text.old.items ++ twice_text loc.now literal) }
{
    push_split(text, loc)?;
    push_literal(text, literal)?;
    push(text, b" twice")
}

// Adds that the split at a location has no arm.
fn push_armless(text: &mut Vec<u8>, loc: &Loc) -> Result<(), AllocError>
    ensures { OnOk result (text.new.items ≡ text.old.items ++ armless_text loc.now) }
{
    push_split(text, loc)?;
    push(text, b"no arm")
}

/// Adds what fails at a place to a text; `leaf` is the number of the leaf, where it fails at a
/// leaf.
///
/// # Errors
///
/// Want of memory.
pub(crate) fn push_evidence(
    text: &mut Vec<u8>,
    types: &[DataDecl],
    leaves: &[Leaf],
    leaf: u32,
    why: &Why,
) -> Result<(), AllocError>
    ensures { OnOk result (text.new.items ≡ text.old.items ++ evidence_text types.now leaves.now leaf why.now) }
{
    match why {
        Why::NoLayout => push(text, b"no layout"),
        Why::ShapeWidth(word, width) => push_width(text, *word, *width),
        Why::WordCount(wanted, found) => push_counts(text, *wanted, *found),
        Why::WordWidth(word, width, wanted) => push_other_width(text, *word, *width, *wanted),
        Why::Outside(item, o, l) => push_outside(text, *item, *o, *l),
        Why::Overlap(item, o, l, p, m) => push_overlap(text, *item, *o, *l, *p, *m),
        Why::ConstWide(item, number, l) => push_constant(text, *item, *number, *l),
        Why::Misfit(item, o, l, path) => push_misfit(text, *item, *o, *l, path.as_slice()),
        Why::BlockWord(width) => push_between(text, b"block word of ", *width, b" bits"),
        Why::BlockWords(count) => push_between(text, b"block of ", *count, b" words"),
        Why::Blocks(count) => push_between(text, b"", *count, b" blocks"),
        Why::Align(align) => push_between(text, b"alignment ", *align, b""),
        Why::ShortPointer(bits) => push_between(text, b"pointer of ", *bits, b" bits"),
        Why::Common(later) => push_common(text, types, leaves, leaf, *later),
        Why::NoLeaf(pat) => push_missing(text, types, pat),
        Why::NotHeld(path, number) => push_unheld(text, types, leaves, leaf, path, *number),
        Why::HeldTwice(path, number) => push_twice_held(text, types, leaves, leaf, path, *number),
        Why::NotOpen(path) => push_closed(text, path.as_slice()),
        Why::Unresolved(loc) => push_unresolved(text, loc),
        Why::NotKnown(loc, number) => push_literal_at(text, *number, b" not known at ", loc),
        Why::NotExcluded(loc, number) => push_literal_at(text, *number, b" not excluded at ", loc),
        Why::LiteralWide(loc, literal) => push_wide(text, loc, *literal),
        Why::LiteralTwice(loc, literal) => push_twice(text, loc, *literal),
        Why::NoArm(loc) => push_armless(text, loc),
        Why::HasPointer(ty) => push_pointer(text, types, *ty),
        Why::FlatCycle(tys) => push_flattening(text, types, tys.as_slice()),
        Why::HoldCycle(tys) => push_holding(text, types, tys.as_slice()),
    }
}
