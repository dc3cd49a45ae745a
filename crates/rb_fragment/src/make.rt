//! Code that makes reads.

ghost use Rattle.std.specs.Prelude.{◌≡◌, ◌≤◌, ◌⊎◌, IfOk, OnOk, length};
ghost use Rattle.rb_target.specs.Growth.{Grows};
ghost use Rattle.rb_fragment.specs.declared.reads.Read as reads;
ghost use Rattle.rb_fragment.specs.Reads.{MakesRead};
ghost use Rattle.rb_fragment.specs.WordReads.{AreNewOr, MakesAll};
ghost use Rattle.rb_fragment.specs.inner.Shares.{PutsShare, PutsShares};

use crate::address::emit_address;
use crate::emit::{emit_const, emit_load, emit_take};
use crate::reads::{Read, Share};
use rb_core::seq::Seq;
use rb_target::body::Body;
use rb_target::instr::Instr;
use std::alloc::{AllocError, Global};

/// Appends code that makes a read, and answers the slot that has it. A read that is the word in a
/// slot needs no code.
///
/// # Errors
///
/// Want of memory.
#[cycle(making)]
pub fn make(body: &mut Body, read: &Read) -> Result<usize, AllocError>
    ensures makes { IfOk result (λ slot. MakesRead read.now body.old body.new slot) }
    ensures origin { IfOk result (λ slot. (body.old.slots ≤ slot) ⊎ (read.now ≡ reads.Slot slot)) }
    ensures more { OnOk result (body.old.slots ≤ body.new.slots) }
    ensures grows { OnOk result (Grows body.old.code body.new.code) }
{
    match read {
        Read::Slot(slot) => Ok(*slot),
        Read::Number(number) => {
            let slot = emit_const(body, *number)?;
            Ok(slot)
        }
        Read::Bits(inner, o, l) => {
            let from = make(body, inner.get())?;
            let slot = emit_take(body, from, *o, *l)?;
            Ok(slot)
        }
        Read::Address(inner, o, l, align) => {
            let from = make(body, inner.get())?;
            let slot = emit_address(body, from, *o, *l, *align)?;
            Ok(slot)
        }
        Read::Loaded(inner, byte, width) => {
            let base = make(body, inner.get())?;
            let slot = emit_load(body, base, *byte, *width)?;
            Ok(slot)
        }
        Read::Joined(shares) => {
            let slot = make_joined(body, shares.as_slice())?;
            Ok(slot)
        }
    }
}

// Appends code that joins shares to one number, each put over those before it: a first one at bit
// 0 is taken into the slot of the whole, and the others are put over it; else all are put over a
// zero.
#[cycle(making)]
fn make_joined(body: &mut Body, shares: &[Share]) -> Result<usize, AllocError>
    ensures makes { IfOk result (λ slot. MakesRead (reads.Joined shares.now) body.old body.new slot) }
    ensures origin { IfOk result (λ slot. body.old.slots ≤ slot) }
    ensures more { OnOk result (body.old.slots ≤ body.new.slots) }
    ensures grows { OnOk result (Grows body.old.code body.new.code) }
{
    if let [first, rest @ ..] = shares {
        if first.a == 0 {
            let from = make(body, &first.read)?;
            let slot = emit_take(body, from, first.o, first.l)?;
            put_shares(body, rest, slot)?;
            return Ok(slot);
        }
    }
    let slot = emit_const(body, 0)?;
    put_shares(body, shares, slot)?;
    Ok(slot)
}

// Appends code that puts shares, one after the other, over what stands in the slot of the whole.
#[cycle(making)]
fn put_shares(body: &mut Body, shares: &[Share], slot: usize) -> Result<(), AllocError>
    ensures puts { OnOk result (PutsShares shares.now slot body.old body.new) }
    ensures more { OnOk result (body.old.slots ≤ body.new.slots) }
    ensures grows { OnOk result (Grows body.old.code body.new.code) }
{
    for share in shares {
        make_share(body, share, slot)?;
    }
    Ok(())
}

// Appends code that makes the read of a share, and puts its bits into the slot of the whole.
#[cycle(making)]
fn make_share(body: &mut Body, share: &Share, slot: usize) -> Result<(), AllocError>
    ensures puts { OnOk result (PutsShare share.now slot body.old body.new) }
    ensures more { OnOk result (body.old.slots ≤ body.new.slots) }
    ensures grows { OnOk result (Grows body.old.code body.new.code) }
{
    let from = make(body, &share.read)?;
    let part = emit_take(body, from, share.o, share.l)?;
    body.push(Instr::Put(slot, part, share.a, share.l))?;
    Ok(())
}

/// Appends code that makes reads, and answers the slots that have them, one each and in their
/// order.
///
/// # Errors
///
/// Want of memory.
pub fn make_all(alloc: Global, body: &mut Body, reads: &[Read]) -> Result<Seq<usize>, AllocError>
    ensures makes { IfOk result (λ slots. MakesAll reads.now body.old body.new slots) }
    ensures origin { IfOk result (λ slots. AreNewOr reads.now body.old slots) }
    ensures count { IfOk result (λ slots. length slots ≡ length reads.now) }
    ensures grows { OnOk result (Grows body.old.code body.new.code) }
{
    let mut slots = Seq::new(alloc);
    for read in reads {
        let slot = make(body, read)?;
        slots.push(slot)?;
    }
    Ok(slots)
}
