//! Code that makes the address that a pointer part says.

ghost use Rattle.std.specs.Prelude.{◌≡◌, ◌+◌, ◌^◌, ◌<◌, ◌≤◌, IfOk, IfSome, OnOk, true};
ghost use Rattle.rb_bits.specs.Words.{IsRange, mask_of};
ghost use Rattle.rb_target.specs.Growth.{Grows};
ghost use Rattle.rb_fragment.specs.inner.Addresses.{multiple, MakesAddress};

use crate::emit::{emit_alu, emit_const, emit_take};
use rb_bits::mask;
use rb_target::body::Body;
use rb_target::instr::AluOp;
use std::alloc::AllocError;

/// Appends code for the address that bits `o` up to `o + l` of a slot's word say: these bits times
/// an alignment. Answers the slot that has it. Where the bits begin at the alignment's own bit they
/// stand in their place already, and the bits beside them are masked off. Where they are all bits
/// of the slot, its word itself is multiplied.
///
/// # Errors
///
/// Want of memory.
pub(crate) fn emit_address(
    body: &mut Body,
    from: usize,
    o: u8,
    l: u8,
    align: u64,
) -> Result<usize, AllocError>
    ensures makes { IfOk result (λ slot. MakesAddress from o l align body.old body.new slot) }
    ensures origin { IfOk result (λ slot. body.old.slots ≤ slot) }
    ensures more { OnOk result (body.old.slots ≤ body.new.slots) }
    ensures grows { OnOk result (Grows body.old.code body.new.code) }
{
    match mask_in_place(o, l, align) {
        Some(range) => {
            let kept = emit_const(body, range)?;
            let slot = emit_alu(body, AluOp::And, 64, from, kept)?;
            Ok(slot)
        }
        None => {
            if is_whole(o, l) {
                let slot = emit_multiple(body, from, align)?;
                return Ok(slot);
            }
            let part = emit_take(body, from, o, l)?;
            let slot = emit_multiple(body, part, align)?;
            Ok(slot)
        }
    }
}

// Whether bits `o` up to `o + l` are all bits of a slot.
fn is_whole(o: u8, l: u8) -> bool
    ensures { result ≡ true → (o ≡ 0) × (l ≡ 64) }
{
    o == 0 && l == 64
}

// Appends code for a slot's word times an alignment, modulo 2^64, and answers the slot that has it.
fn emit_multiple(body: &mut Body, from: usize, align: u64) -> Result<usize, AllocError>
    ensures small { align < 2 ^ 64 }
    ensures slot { IfOk result (λ slot. slot ≡ body.old.slots + 1) }
    ensures code { OnOk result (body.new ≡ multiple from align body.old) }
{
    let unit = emit_const(body, align)?;
    let slot = emit_alu(body, AluOp::Mul, 64, from, unit)?;
    Ok(slot)
}

// The mask of bits `o` up to `o + l`, if they begin at the one bit that an alignment has: then they
// need not be moved. None also where these are no bits of a word.
fn mask_in_place(o: u8, l: u8, align: u64) -> Option<u64>
    ensures { IfSome result (λ range. IsRange o l × (align ≡ 2 ^ o) × (range ≡ mask_of o l)) }
{
    let first = u32::from(o);
    let long = u32::from(l);
    if long >= 1 && first + long <= 64 && align == 1 << first {
        Some(mask(first, long))
    } else {
        None
    }
}
