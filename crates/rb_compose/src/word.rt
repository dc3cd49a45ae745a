//! Code that composes a word of its parts. `subs` are the subvalues, values in slots, each with its
//! path: field numbers from the root; a field here is what stands at such a path. `blocks` has the
//! slots of the addresses of blocks, by their numbers. A part has the `l` bits from bit `o` of a
//! word on. Its kind says what they hold: a constant; bits of the integer at a path; a word of the
//! value of a data type at a path; or the address of a block, counted in units of its alignment. A
//! part is ready where a slot holds it in its place and no other bit: an `or` sets it beside what
//! the word has. Any other is put over it, into its range.

ghost use Rattle.std.specs.Prelude.{◌≡◌, ◌≤◌, IfOk, OnOk, slice_index};
ghost use Rattle.std.specs.Option.{option_copied};
ghost use Rattle.rb_compose.specs.inner.Code.{constants, field_slots, field_type, is_int, is_ready, kind_code, part_code, parts_code, put_code, root_made, shift_of, slot_of, source_slot, taken_code, taken_slot, value_made, value_slot, whole_kind, whole_part, whole_slot, with_constant, word_code};

use crate::begin::{after_constants, emit_begun};
use crate::count::bits;
use crate::subvalue::{Subvalue, subvalue_at};
use rb_bits::{put, take};
use rb_core::types::Ty;
use rb_fragment::emit::{emit_const, emit_copy, emit_take};
use rb_layout::layout::{Kind, Part};
use rb_target::body::Body;
use rb_target::instr::{AluOp, Instr};
use std::alloc::AllocError;

/// Answers a slot that holds a word of these parts, for a store: that of the subvalue whose word it
/// is, without any code, or else a new one in which it is composed. `blocks` has the slots of the
/// addresses of blocks.
///
/// # Errors
///
/// Want of memory.
pub(crate) fn emit_value(
    body: &mut Body,
    parts: &[Part],
    subs: &[Subvalue],
    blocks: &[usize],
) -> Result<usize, AllocError>
    ensures slot { IfOk result (λ d. d ≡ value_slot (whole_slot subs.now parts.now) body.old.slots) }
    ensures code { OnOk result (body.new ≡ value_made subs.now blocks.now parts.now body.old) }
{
    match whole_slot(parts, subs) {
        Some(slot) => Ok(slot),
        None => {
            let slot = emit_word(body, parts, subs, blocks)?;
            Ok(slot)
        }
    }
}

/// Leaves a word of these parts in a new slot, as a value's own words need one each: copied from
/// the subvalue whose word it is, or else composed. `blocks` has the slots of the addresses of
/// blocks.
///
/// # Errors
///
/// Want of memory.
pub(crate) fn emit_root(
    body: &mut Body,
    parts: &[Part],
    subs: &[Subvalue],
    blocks: &[usize],
) -> Result<usize, AllocError>
    ensures slot { IfOk result (λ d. d ≡ body.old.slots) }
    ensures code { OnOk result (body.new ≡ root_made subs.now blocks.now parts.now body.old) }
{
    match whole_slot(parts, subs) {
        Some(from) => {
            let slot = emit_copy(body, from)?;
            Ok(slot)
        }
        None => {
            let slot = emit_word(body, parts, subs, blocks)?;
            Ok(slot)
        }
    }
}

// Composes a word of its parts in a new slot, and answers the slot: its constants, and the other
// parts set beside them and put over them.
fn emit_word(
    body: &mut Body,
    parts: &[Part],
    subs: &[Subvalue],
    blocks: &[usize],
) -> Result<usize, AllocError>
    ensures slot { IfOk result (λ d. d ≡ body.old.slots) }
    ensures code { OnOk result (body.new ≡ word_code subs.now blocks.now parts.now body.old) }
{
    let number = constants(parts);
    if number == 0 {
        let slot = emit_begun(body, after_constants(parts), subs, blocks)?;
        return Ok(slot);
    }
    let slot = emit_const(body, number)?;
    emit_parts(body, slot, parts, subs, blocks)?;
    Ok(slot)
}

/// Appends code that adds parts to the word in slot `into`, one after the other: each set beside
/// what stands there, or put over it. Without parts there is no code.
pub(crate) fn emit_parts(
    body: &mut Body,
    into: usize,
    parts: &[Part],
    subs: &[Subvalue],
    blocks: &[usize],
) -> Result<(), AllocError>
    ensures { OnOk result (body.new ≡ parts_code subs.now blocks.now into parts.now body.old) }
{
    for part in parts {
        emit_part(body, into, part, subs, blocks)?;
    }
    Ok(())
}

// The word that has the constants of the parts, each in its place, and zeros elsewhere.
fn constants(parts: &[Part]) -> u64
    ensures { result ≡ constants 0 parts.now }
{
    let mut word = 0;
    for part in parts {
        word = with_constant(word, part);
    }
    word
}

// A word with the low bits of a part's constant in the part's range; the word as it is where the
// part has no constant, or where its range, as `bits` caps it, has no bit or ends past bit 64.
fn with_constant(word: u64, part: &Part) -> u64
    ensures { result ≡ with_constant word part.now.o part.now.l part.now.kind }
{
    match &part.kind {
        Kind::Const(number) => {
            let o = bits(part.o);
            let l = bits(part.l);
            if 1 <= l && o + l <= 64 {
                put(
                    word,
                    u32::from(o),
                    u32::from(l),
                    take(*number, 0, u32::from(l)),
                )
            } else {
                word
            }
        }
        Kind::Bits(_, _) | Kind::Word(_, _) | Kind::Pointer(_, _) => word,
    }
}

// Adds what a part holds to the word in slot `into`: beside the others where a slot holds the part
// in its place, else over what stands there.
fn emit_part(
    body: &mut Body,
    into: usize,
    part: &Part,
    subs: &[Subvalue],
    blocks: &[usize],
) -> Result<(), AllocError>
    ensures { OnOk result (body.new ≡ part_code subs.now blocks.now into part.now body.old) }
{
    if is_ready(part, subs) {
        let from = source_slot(&part.kind, subs, blocks);
        body.push(Instr::Alu(AluOp::Or, 64, into, into, from))?;
        return Ok(());
    }
    emit_kind(body, into, part, subs, blocks)
}

/// Whether a slot holds a part where it is to stand, and no other bit: a whole number or a word of
/// a field from bit 0 on, or an address whose alignment is, by `shift_of`, two to the power of the
/// bit at which its part begins. Never a constant.
pub(crate) fn is_ready(part: &Part, subs: &[Subvalue]) -> bool
    ensures { result ≡ is_ready subs.now part.now.o part.now.l part.now.kind }
{
    match &part.kind {
        Kind::Const(_) => false,
        Kind::Bits(path, a) => {
            part.o == 0 && *a == 0 && is_int(part.l, field_type(subs, path.as_slice()))
        }
        Kind::Word(_, _) => part.o == 0,
        Kind::Pointer(align, _) => u64::from(shift_of(*align)) == part.o,
    }
}

/// The slot that has the bits of a part; 0 for a constant, which needs none.
pub(crate) fn source_slot(kind: &Kind, subs: &[Subvalue], blocks: &[usize]) -> usize
    ensures { result ≡ source_slot subs.now blocks.now kind.now }
{
    match kind {
        Kind::Const(_) => 0,
        Kind::Bits(path, _) => slot_at(field_slots(subs, path.as_slice()), 0),
        Kind::Word(path, word) => slot_at(field_slots(subs, path.as_slice()), *word),
        Kind::Pointer(_, block) => slot_at(blocks, u64::from(*block)),
    }
}

// Puts what a part holds into the part's range of the word in slot `into`. A constant takes no
// code: it is there already.
fn emit_kind(
    body: &mut Body,
    into: usize,
    part: &Part,
    subs: &[Subvalue],
    blocks: &[usize],
) -> Result<(), AllocError>
    ensures { OnOk result (body.new ≡ kind_code subs.now blocks.now into part.now part.now.kind body.old) }
{
    match &part.kind {
        Kind::Const(_) => Ok(()),
        Kind::Bits(path, a) => {
            let field = slot_at(field_slots(subs, path.as_slice()), 0);
            emit_put(body, into, field, bits(*a), bits(part.l), part)
        }
        Kind::Word(path, word) => {
            let field = slot_at(field_slots(subs, path.as_slice()), *word);
            emit_put(body, into, field, 0, 64, part)
        }
        Kind::Pointer(align, block) => {
            let address = slot_at(blocks, u64::from(*block));
            let shift = shift_of(*align);
            emit_put(body, into, address, shift, 64 - shift, part)
        }
    }
}

// Puts the `long` bits of slot `slot` from bit `from` on, or the low ones that fit, into the range
// of `part` in slot `into`.
fn emit_put(
    body: &mut Body,
    into: usize,
    slot: usize,
    from: u8,
    long: u8,
    part: &Part,
) -> Result<(), AllocError>
    ensures { OnOk result (body.new ≡ put_code into slot from long part.now body.old) }
{
    let low = emit_low(body, slot, from, long)?;
    body.push(Instr::Put(into, low, bits(part.o), bits(part.l)))?;
    Ok(())
}

// The slot that has `long` bits of slot `slot`, from bit `from` on, as its lowest bits: a new one,
// or the slot itself, with whatever stands above them, where they begin at bit 0.
fn emit_low(body: &mut Body, slot: usize, from: u8, long: u8) -> Result<usize, AllocError>
    ensures slot { IfOk result (λ s. s ≡ taken_slot slot from body.old.slots) }
    ensures code { OnOk result (body.new ≡ taken_code slot from long body.old) }
{
    if from == 0 {
        return Ok(slot);
    }
    let low = emit_take(body, slot, from, long)?;
    Ok(low)
}

// The slot that holds a word of these parts already: there is one part, and it has a field's word
// whole, from bit 0 on. None where the word has to be composed.
fn whole_slot(parts: &[Part], subs: &[Subvalue]) -> Option<usize>
    ensures { result ≡ whole_slot subs.now parts.now }
{
    if parts.len() != 1 {
        return None;
    }
    whole_part(parts.get(0), subs)
}

// The slot of the field's word that a part has whole; None if there is no part, if it does not
// begin at bit 0, or if it has no word whole.
fn whole_part(part: Option<&Part>, subs: &[Subvalue]) -> Option<usize>
    ensures { result ≡ slot_of subs.now (whole_part subs.now (option_copied part.entry)) }
{
    match part {
        None => None,
        Some(part) => {
            if part.o == 0 {
                whole_kind(part.l, &part.kind, subs)
            } else {
                None
            }
        }
    }
}

// The slot of the field's word that a part of `l` bits, from bit 0 on, has whole; None where it has
// none, as it is for a constant or an address, or has some bits of an integer only.
fn whole_kind(l: u64, kind: &Kind, subs: &[Subvalue]) -> Option<usize>
    ensures { result ≡ slot_of subs.now (whole_kind subs.now l kind.now) }
{
    match kind {
        Kind::Const(_) | Kind::Pointer(_, _) => None,
        Kind::Bits(path, a) => {
            if *a == 0 && is_int(l, field_type(subs, path.as_slice())) {
                Some(slot_at(field_slots(subs, path.as_slice()), 0))
            } else {
                None
            }
        }
        Kind::Word(path, word) => Some(slot_at(field_slots(subs, path.as_slice()), *word)),
    }
}

// Whether there is a type, and it is the integers of so many bits.
fn is_int(l: u64, ty: Option<Ty>) -> bool
    ensures { result ≡ is_int l ty }
{
    match ty {
        None | Some(Ty::Named(_)) => false,
        Some(Ty::Int(bits)) => u64::from(bits) == l,
    }
}

// The type of the subvalue at a path, or None if none is there.
fn field_type(subs: &[Subvalue], path: &[u32]) -> Option<Ty>
    ensures { result ≡ field_type subs.now path.now }
{
    match subvalue_at(subs, path) {
        None => None,
        Some(held) => Some(held.ty),
    }
}

// The slots of the subvalue at a path, or none if none is there.
fn field_slots<'a>(subs: &'a [Subvalue], path: &[u32]) -> &'a [usize]
    ensures { result.now ≡ field_slots subs.now path.now }
{
    match subvalue_at(subs, path) {
        None => &[],
        Some(held) => held.slots.as_slice(),
    }
}

// The slot with this place, or 0 past the end.
fn slot_at(slots: &[usize], number: u64) -> usize
    ensures { result ≡ slice_index slots.now number }
{
    match slots.get(number as usize) {
        None => 0,
        Some(slot) => *slot,
    }
}

// Which power of two an alignment from 2 to 64 is; 0 for any other number.
fn shift_of(align: u64) -> u8
    ensures value { result ≡ shift_of align }
    ensures small { result ≤ 6 }
{
    if align == 2 {
        1
    } else if align == 4 {
        2
    } else if align == 8 {
        3
    } else if align == 16 {
        4
    } else if align == 32 {
        5
    } else if align == 64 {
        6
    } else {
        0
    }
}
