//! Code that begins a word whose constants are all 0. `subs` are the subvalues, values in slots,
//! each with its path: field numbers from the root. `blocks` has the slots of the addresses of
//! blocks, by their numbers. A part of a word has the `l` bits from bit `o` on, and its kind says
//! what they hold. It is ready where a slot holds it in its place and no other bit.

ghost use Rattle.std.specs.Prelude.{◌≡◌, IfOk, OnOk};
ghost use Rattle.rb_compose.specs.inner.Code.{after_constants, begun_code, is_constant, is_low, joined_code, low_bit};

use crate::count::bits;
use crate::subvalue::Subvalue;
use crate::word::{emit_parts, is_ready, source_slot};
use rb_fragment::emit::{emit_alu, emit_const, emit_copy, emit_take};
use rb_layout::layout::{Kind, Part};
use rb_target::body::Body;
use rb_target::instr::AluOp;
use std::alloc::AllocError;

/// Composes a word of `parts` in a new slot, and answers the slot. The first part is no constant,
/// and all constants among the parts are 0. The word begins as the first part, where a slot holds
/// that in its place, or where it is bits of a number that are to stand from bit 0 on; else, and
/// without parts, as 0.
///
/// # Errors
///
/// Want of memory.
pub(crate) fn emit_begun(
    body: &mut Body,
    parts: &[Part],
    subs: &[Subvalue],
    blocks: &[usize],
) -> Result<usize, AllocError>
    ensures slot { IfOk result (λ d. d ≡ body.old.slots) }
    ensures code { OnOk result (body.new ≡ begun_code subs.now blocks.now parts.now body.old) }
{
    if let [part, rest @ ..] = parts {
        if is_ready(part, subs) {
            let from = source_slot(&part.kind, subs, blocks);
            let slot = emit_joined(body, from, after_constants(rest), subs, blocks)?;
            return Ok(slot);
        }
        if is_low(part) {
            let from = source_slot(&part.kind, subs, blocks);
            let slot = emit_take(body, from, low_bit(&part.kind), bits(part.l))?;
            emit_parts(body, slot, rest, subs, blocks)?;
            return Ok(slot);
        }
    }
    let slot = emit_const(body, 0)?;
    emit_parts(body, slot, parts, subs, blocks)?;
    Ok(slot)
}

// Makes, in a new slot, which it answers, a word of what slot `from` holds and of further parts.
// Where a slot holds the first of them in its place, it is set beside the other at once; else, and
// without parts, the word begins as a copy.
fn emit_joined(
    body: &mut Body,
    from: usize,
    parts: &[Part],
    subs: &[Subvalue],
    blocks: &[usize],
) -> Result<usize, AllocError>
    ensures slot { IfOk result (λ d. d ≡ body.old.slots) }
    ensures code { OnOk result (body.new ≡ joined_code subs.now blocks.now from parts.now body.old) }
{
    if let [part, rest @ ..] = parts {
        if is_ready(part, subs) {
            let also = source_slot(&part.kind, subs, blocks);
            let slot = emit_alu(body, AluOp::Or, 64, from, also)?;
            emit_parts(body, slot, rest, subs, blocks)?;
            return Ok(slot);
        }
    }
    let slot = emit_copy(body, from)?;
    emit_parts(body, slot, parts, subs, blocks)?;
    Ok(slot)
}

// Whether a part is bits of a number that are to stand from bit 0 on.
fn is_low(part: &Part) -> bool
    ensures { result ≡ is_low part.now.o part.now.kind }
{
    match &part.kind {
        Kind::Bits(_, _) => part.o == 0,
        Kind::Const(_) | Kind::Word(_, _) | Kind::Pointer(_, _) => false,
    }
}

// The first of the bits that a part has of a number; 0 for a part of another kind.
fn low_bit(kind: &Kind) -> u8
    ensures { result ≡ low_bit kind.now }
{
    match kind {
        Kind::Bits(_, a) => bits(*a),
        Kind::Const(_) | Kind::Word(_, _) | Kind::Pointer(_, _) => 0,
    }
}

/// The parts from the first on that is no constant; none if all are constants.
pub(crate) fn after_constants(parts: &[Part]) -> &[Part]
    ensures { result.now ≡ after_constants parts.now }
{
    for (i, part) in parts.iter().enumerate() {
        if !is_constant(&part.kind) {
            return &parts[i..];
        }
    }
    &[]
}

// Whether what a part holds is a constant.
fn is_constant(kind: &Kind) -> bool
    ensures { result ≡ is_constant kind.now }
{
    match kind {
        Kind::Const(_) => true,
        Kind::Bits(_, _) | Kind::Word(_, _) | Kind::Pointer(_, _) => false,
    }
}
