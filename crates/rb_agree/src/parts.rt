//! Whether the parts of written words lie in them, are disjoint, and fit what they hold. An open
//! position is a wildcard or a variable in a leaf's provenance, the pattern of its values; its path
//! is the field numbers that lead there from the root.
//!
//! An item of a leaf, by number `i`, is a word with its parts or an inlined field. A part is `l`
//! bits of its word from bit `o` on. The program has the data types `types` and the layout
//! declarations `decls`, and the leaf's provenance is `prov`. A function that says how something
//! fails gives the fault that it finds first, or None where nothing fails. An `Err` is want of
//! memory.

ghost use Rattle.std.specs.Prelude.{◌≡◌, ◌↔◌, ◌<◌, ◌≤◌, length, IfOk, IsTrue, MatchOption};
ghost use Rattle.rb_layout.specs.Flattening.{IsOpenIn};
ghost use Rattle.rb_layout.specs.Positions.{open_positions};
ghost use Rattle.rb_layout.specs.A3.{FailsItem, Fits, FitsSlice, FitsWhole, FitsWord, IsContentPlaced, ItemFits, LiesIn, PartsFit};
ghost use Rattle.rb_layout.specs.declared.evidence.Why.TheVariants as Whys;
ghost use Rattle.rb_bits.specs.Words.{AreDisjoint};
ghost use Rattle.rb_agree.specs.inner.Parts.{PartsAreApart, AreFine, FailsApart, FailsBefore, FailsFit, FailsPair, FailsPart, FailsSome, FailsWord, HaveBits, IsApartBefore, IsPartFine, shown_parts};
ghost use Rattle.rb_agree.specs.Written.{shown_content, shown_item, shown_part};

use crate::items::{Content, Item, Written};
use crate::numbers::fits;
use rb_core::layout_decl::LayoutDecl;
use rb_core::pattern::Pat;
use rb_core::seq::Seq;
use rb_core::types::{DataDecl, Ty};
use rb_layout::decls::shape_of;
use rb_layout::evidence::Why;
use rb_layout::positions::type_at;
use std::alloc::{AllocError, Global};

// Whether a part of `l` bits holds a field of this type, whole; so it does where there is no type,
// as no open position is there.
fn fits_whole(decls: &[LayoutDecl], ty: Option<Ty>, l: u64) -> bool
    ensures { IsTrue result ↔ FitsWhole decls.now ty l }
{
    match ty {
        None => true,
        Some(Ty::Int(bits)) => l == bits as u64,
        Some(Ty::Named(s)) => match shape_of(decls, s) {
            [width] => *width == l,
            _ => false,
        },
    }
}

// Whether a part of `l` bits holds `k` bits from bit `a` of an integer of this type; so it does
// where there is no type, as no open position is there.
fn fits_slice(ty: Option<Ty>, l: u64, a: u64, k: u64) -> bool
    ensures { IsTrue result ↔ FitsSlice ty l a k }
{
    match ty {
        None => true,
        Some(Ty::Int(bits)) => {
            let bits = bits as u64;
            k == l && a <= bits && k <= bits - a
        }
        Some(Ty::Named(_)) => false,
    }
}

// Whether a part of `l` bits holds word `j` of a field of this type; so it does where there is no
// type, as no open position is there.
fn fits_word(decls: &[LayoutDecl], ty: Option<Ty>, l: u64, j: u64) -> bool
    ensures { IsTrue result ↔ FitsWord decls.now ty l j }
{
    match ty {
        None => true,
        Some(Ty::Int(_)) => false,
        Some(Ty::Named(s)) => match shape_of(decls, s).get(j as usize) {
            None => false,
            Some(width) => *width == l,
        },
    }
}

/// Whether an open position of a provenance stands at a path.
pub(crate) fn is_open(types: &[DataDecl], prov: &Pat, path: &Seq<u32>) -> bool
    ensures { IsTrue result ↔ IsOpenIn (open_positions types.now prov.now) path.now }
{
    match type_at(types, prov, path.as_slice()) {
        None => false,
        Some(_) => true,
    }
}

// Whether what is written is placed: its path, if it has one, is open.
fn is_placed(types: &[DataDecl], prov: &Pat, content: &Content) -> bool
    ensures { IsTrue result ↔ IsContentPlaced (open_positions types.now prov.now) (shown_content content.now) }
{
    match content {
        Content::Number(_) => true,
        Content::Whole(path) => is_open(types, prov, path),
        Content::Slice(path, _, _) => is_open(types, prov, path),
        Content::WordOf(path, _) => is_open(types, prov, path),
        Content::Address(_) => true,
    }
}

// The fault that a part of item `i` does not fit the field at this path.
fn misfit(alloc: Global, i: u32, part: &Written, path: &Seq<u32>) -> Result<Why, AllocError>
    ensures { IfOk result (λ why. why ≡ Whys.Misfit i part.now.o part.now.l path.now) }
{
    Ok(Why::Misfit(i, part.o, part.l, path.copy(alloc)?))
}

// How a part of item `i` fails to fit what it holds.
fn fit_fault(
    alloc: Global,
    types: &[DataDecl],
    decls: &[LayoutDecl],
    prov: &Pat,
    i: u32,
    part: &Written,
) -> Result<Option<Why>, AllocError>
    ensures { IfOk result (λ found. MatchOption found
        (Fits decls.now (open_positions types.now prov.now) part.now.l (shown_content part.now.content))
        (FailsFit decls.now (open_positions types.now prov.now) i (shown_part part.now))) }
{
    match &part.content {
        Content::Address(_) => Ok(None),
        Content::Number(number) => {
            if fits(*number, part.l) {
                return Ok(None);
            }
            Ok(Some(Why::ConstWide(i, *number, part.l)))
        }
        Content::Whole(path) => {
            if fits_whole(decls, type_at(types, prov, path.as_slice()), part.l) {
                return Ok(None);
            }
            Ok(Some(misfit(alloc, i, part, path)?))
        }
        Content::Slice(path, a, k) => {
            if fits_slice(type_at(types, prov, path.as_slice()), part.l, *a, *k) {
                return Ok(None);
            }
            Ok(Some(misfit(alloc, i, part, path)?))
        }
        Content::WordOf(path, j) => {
            if fits_word(decls, type_at(types, prov, path.as_slice()), part.l, *j) {
                return Ok(None);
            }
            Ok(Some(misfit(alloc, i, part, path)?))
        }
    }
}

// Whether `l` bits from bit `o` on, at least one, lie in a word of `width` bits.
fn lies_in(width: u64, o: u64, l: u64) -> bool
    ensures { IsTrue result ↔ LiesIn width o l }
{
    1 <= l && l <= width && o <= width - l
}

// How a part of item `i`, a word of so many bits, fails by itself. Of one that isn't placed nothing is
// demanded.
fn part_fault(
    alloc: Global,
    types: &[DataDecl],
    decls: &[LayoutDecl],
    prov: &Pat,
    i: u32,
    width: u64,
    part: &Written,
) -> Result<Option<Why>, AllocError>
    ensures { IfOk result (λ found. MatchOption found
        (IsPartFine decls.now (open_positions types.now prov.now) width (shown_part part.now))
        (FailsPart decls.now (open_positions types.now prov.now) i width (shown_part part.now))) }
{
    if !is_placed(types, prov, &part.content) {
        return Ok(None);
    }
    if !lies_in(width, part.o, part.l) {
        return Ok(Some(Why::Outside(i, part.o, part.l)));
    }
    fit_fault(alloc, types, decls, prov, i, part)
}

// How some part of item `i`, a word of so many bits, fails by itself.
fn each_fault(
    alloc: Global,
    types: &[DataDecl],
    decls: &[LayoutDecl],
    prov: &Pat,
    i: u32,
    width: u64,
    parts: &[Written],
) -> Result<Option<Why>, AllocError>
    ensures { IfOk result (λ found. MatchOption found
        (AreFine decls.now (open_positions types.now prov.now) width parts.now)
        (FailsSome decls.now (open_positions types.now prov.now) i width parts.now)) }
{
    for part in parts {
        if let Some(why) = part_fault(alloc, types, decls, prov, i, width, part)? {
            return Ok(Some(why));
        }
    }
    Ok(None)
}

// The fault that two parts of item `i` overlap, with the bits of both, those of the part that
// begins lower first; None where they have no bit in common.
fn pair_fault(i: u32, p: &Written, q: &Written) -> Option<Why>
    requires later { 1 ≤ q.now.l }
    requires earlier { 1 ≤ p.now.l }
    ensures { MatchOption result (AreDisjoint p.now.o p.now.l q.now.o q.now.l) (FailsPair i p.now q.now) }
{
    if p.o <= q.o {
        if p.l <= q.o - p.o {
            return None;
        }
        return Some(Why::Overlap(i, p.o, p.l, q.o, q.l));
    }
    if q.l <= p.o - q.o {
        return None;
    }
    Some(Why::Overlap(i, q.o, q.l, p.o, p.l))
}

// How part `k` of a word has a bit in common with one written before it.
fn before_fault(types: &[DataDecl], prov: &Pat, i: u32, parts: &[Written], k: usize) -> Option<Why>
    requires within { k < length parts.now }
    requires some { HaveBits (open_positions types.now prov.now) parts.now }
    ensures { MatchOption result
        (IsApartBefore (open_positions types.now prov.now) parts.now k)
        (FailsBefore (open_positions types.now prov.now) i parts.now k) }
{
    let part = &parts[k];
    if !is_placed(types, prov, &part.content) {
        return None;
    }
    for j in 0..k {
        let earlier = &parts[j];
        if is_placed(types, prov, &earlier.content) {
            if let Some(why) = pair_fault(i, earlier, part) {
                return Some(why);
            }
        }
    }
    None
}

// How two parts of a word have a bit in common.
fn overlap_fault(types: &[DataDecl], prov: &Pat, i: u32, parts: &[Written]) -> Option<Why>
    requires { HaveBits (open_positions types.now prov.now) parts.now }
    ensures { MatchOption result
        (PartsAreApart (open_positions types.now prov.now) parts.now)
        (FailsApart (open_positions types.now prov.now) i parts.now) }
{
    for k in 0..parts.len() {
        if let Some(why) = before_fault(types, prov, i, parts, k) {
            return Some(why);
        }
    }
    None
}

// How the parts of item `i`, a word of so many bits, fail.
fn word_fault(
    alloc: Global,
    types: &[DataDecl],
    decls: &[LayoutDecl],
    prov: &Pat,
    i: u32,
    width: u64,
    parts: &[Written],
) -> Result<Option<Why>, AllocError>
    ensures { IfOk result (λ found. MatchOption found
        (PartsFit decls.now (open_positions types.now prov.now) width (shown_parts parts.now))
        (FailsWord decls.now (open_positions types.now prov.now) i width (shown_parts parts.now))) }
{
    if let Some(why) = each_fault(alloc, types, decls, prov, i, width, parts)? {
        return Ok(Some(why));
    }
    Ok(overlap_fault(types, prov, i, parts))
}

/// How item `i` of a leaf fails: a part of a word that has no bit or isn't within the word, two parts with
/// a bit in common, or a part that doesn't fit what it holds. Of a part whose path isn't open nothing is
/// demanded.
///
/// # Errors
///
/// Want of memory.
pub fn item_fault(
    alloc: Global,
    types: &[DataDecl],
    decls: &[LayoutDecl],
    prov: &Pat,
    i: u32,
    item: &Item,
) -> Result<Option<Why>, AllocError>
    ensures { IfOk result (λ found. MatchOption found
        (ItemFits decls.now (open_positions types.now prov.now) (shown_item item.now))
        (FailsItem decls.now (open_positions types.now prov.now) i (shown_item item.now))) }
{
    match item {
        Item::Field(_) => Ok(None),
        Item::Parts(width, parts) => word_fault(
            alloc,
            types,
            decls,
            prov,
            i,
            *width,
            parts.as_slice(),
        ),
    }
}
