//! One step of what bars bits: that a word never has a literal, by a constant bit, by a pointer,
//! which is never 0, or by a goal about a field's type that is known to hold. A literal is a number
//! in a range of bits; a goal asks whether a root word of a data type never has one, in any leaf of
//! the type.

ghost use Rattle.std.specs.Prelude.{◌≡◌};
ghost use Rattle.rb_layout.specs.Locations.{constant_bit};
ghost use Rattle.rb_layout.specs.inner.Barring.{is_other, bit_differs, is_pointer, null_at, null_in, IsAsked, position_type, knows, part_barred, parts_barred, word_barred, leaf_barred, leaves_barred, goal_barred};

use crate::goals::{Goal, Goals, Literal};
use crate::known::constant_bit;
use crate::layout::{Kind, Layout, Leaf, Part};
use crate::part_goals::goal_in;
use rb_bits::take;
use rb_core::pattern::Pat;
use rb_core::types::DataDecl;

// Whether a bit is known, and another than the wanted one.
fn is_other(bit: Option<u64>, wanted: u64) -> bool
    ensures { result ≡ is_other bit wanted }
{
    match bit {
        None => false,
        Some(bit) => bit != wanted,
    }
}

// Whether a bit of the literal's range is constant, by the first of the parts that is a constant
// and has it, and another than the literal's.
#[tactic(auto, using(crate::proofs::BarLemmas::barring))]
fn bit_differs(parts: &[Part], literal: Literal) -> bool
    requires { IsAsked literal }
    ensures { result ≡ bit_differs parts.now literal.o literal.bits 0 literal.l }
{
    for i in 0..literal.l {
        if is_other(
            constant_bit(parts, literal.o + i),
            take(literal.bits, i as u32, 1),
        ) {
            return true;
        }
    }
    false
}

// Whether a part of this kind is a pointer.
fn is_pointer(kind: &Kind) -> bool
    ensures { result ≡ is_pointer kind.now }
{
    match kind {
        Kind::Const(_) => false,
        Kind::Bits(_, _) => false,
        Kind::Word(_, _) => false,
        Kind::Pointer(_, _) => true,
    }
}

// Whether a part is a pointer that lies wholly in the literal's range, where the literal has only
// zeros on its bits. A pointer without bits counts, too.
fn null_at(part: &Part, literal: Literal) -> bool
    requires { IsAsked literal }
    ensures { result ≡ null_at literal part.now }
{
    if !is_pointer(&part.kind) {
        return false;
    }
    if part.o < literal.o {
        return false;
    }
    let from = part.o - literal.o;
    if literal.l < part.l {
        return false;
    }
    if literal.l - part.l < from {
        return false;
    }
    if part.l == 0 {
        return true;
    }
    take(literal.bits, from as u32, part.l as u32) == 0
}

// Whether some part is a pointer that lies wholly in the literal's range, where the literal has
// only zeros on its bits.
#[tactic(auto, using(crate::proofs::BarLemmas::barring))]
fn null_in(parts: &[Part], literal: Literal) -> bool
    requires { IsAsked literal }
    ensures { result ≡ null_in parts.now literal }
{
    for part in parts {
        if null_at(part, literal) {
            return true;
        }
    }
    false
}

// Whether a part gives a goal for the literal that is known to hold.
fn part_barred(
    types: &[DataDecl],
    prov: &Pat,
    part: &Part,
    literal: Literal,
    entries: &Goals,
) -> bool
    requires { IsAsked literal }
    ensures { result ≡ part_barred (knows entries.now) (position_type types.now prov.now) literal part.now }
{
    match goal_in(types, prov, part, literal) {
        None => false,
        Some(goal) => entries.is_known(&goal),
    }
}

// Whether one of the parts excludes the literal: it gives a goal for it that is known to hold, so that
// no word with these parts has the literal.
#[tactic(auto, using(crate::proofs::BarLemmas::barring))]
fn parts_barred(
    types: &[DataDecl],
    prov: &Pat,
    parts: &[Part],
    literal: Literal,
    entries: &Goals,
) -> bool
    requires { IsAsked literal }
    ensures { result ≡ parts_barred (knows entries.now) (position_type types.now prov.now) literal parts.now }
{
    for part in parts {
        if part_barred(types, prov, part, literal, entries) {
            return true;
        }
    }
    false
}

/// Whether a word with these parts, in a leaf with this provenance, never has the literal: by a
/// constant bit, by a pointer, or by a known goal.
pub(crate) fn word_barred(
    types: &[DataDecl],
    prov: &Pat,
    parts: &[Part],
    literal: Literal,
    entries: &Goals,
) -> bool
    requires { IsAsked literal }
    ensures { result ≡ word_barred (knows entries.now) (position_type types.now prov.now) literal parts.now }
{
    if bit_differs(parts, literal) {
        return true;
    }
    if null_in(parts, literal) {
        return true;
    }
    parts_barred(types, prov, parts, literal, entries)
}

// Whether a leaf has a goal's root word, and this never has the goal's literal, by one step from
// the known goals.
fn leaf_barred(types: &[DataDecl], leaf: &Leaf, goal: &Goal, entries: &Goals) -> bool
    requires { IsAsked goal.now.literal }
    ensures { result ≡ leaf_barred (knows entries.now) types.now goal.now leaf.now }
{
    match leaf.root.get(goal.word as usize) {
        None => false,
        Some(word) => word_barred(
            types,
            &leaf.prov,
            word.parts.as_slice(),
            goal.literal,
            entries,
        ),
    }
}

// Whether each of the leaves has a goal's root word, and this never has its literal, by one step
// from the known goals. So it is where there are no leaves.
#[tactic(auto, using(crate::proofs::BarLemmas::barring))]
fn leaves_barred(types: &[DataDecl], leaves: &[Leaf], goal: &Goal, entries: &Goals) -> bool
    requires { IsAsked goal.now.literal }
    ensures { result ≡ leaves_barred (knows entries.now) types.now goal.now leaves.now }
{
    for leaf in leaves {
        if !leaf_barred(types, leaf, goal, entries) {
            return false;
        }
    }
    true
}

/// Whether a goal holds by one step from the known ones. One whose type has no layout or no leaf
/// does not.
pub(crate) fn goal_barred(
    types: &[DataDecl],
    layouts: &[Layout],
    goal: &Goal,
    entries: &Goals,
) -> bool
    requires { IsAsked goal.now.literal }
    ensures { result ≡ goal_barred (knows entries.now) types.now layouts.now goal.now }
{
    match layouts.get(goal.ty as usize) {
        None => false,
        Some(layout) => {
            if layout.leaves.is_empty() {
                return false;
            }
            leaves_barred(types, layout.leaves.as_slice(), goal, entries)
        }
    }
}
