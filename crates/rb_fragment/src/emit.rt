//! Single instructions, each with its result in a slot that nothing else uses, and copies.

ghost use Rattle.std.specs.Prelude.{◌≡◌, ◌<◌, ◌^◌, ◌++◌, IfOk, OnOk};
ghost use Rattle.rb_target.specs.declared.instr.Instr.TheVariants.{Const, Alu, Take, Load, Copy};
ghost use Rattle.rb_target.specs.Sheet.{with_more, with_slot};
ghost use Rattle.rb_fragment.specs.Slots.{copies};

use rb_target::body::Body;
use rb_target::instr::{AluOp, Instr};
use std::alloc::AllocError;

/// Appends an instruction that puts a number into a new slot, and answers the slot.
///
/// # Errors
///
/// Want of memory.
pub fn emit_const(body: &mut Body, number: u64) -> Result<usize, AllocError>
    ensures small { number < 2 ^ 64 }
    ensures slot { IfOk result (λ d. d ≡ body.old.slots) }
    ensures code { OnOk result (body.new ≡ with_more (with_slot body.old) (Const body.old.slots number)) }
{
    let slot = body.fresh()?;
    body.push(Instr::Const(slot, number))?;
    Ok(slot)
}

/// Appends an instruction that puts another slot's word into a new slot, and answers the slot.
///
/// # Errors
///
/// Want of memory.
pub fn emit_copy(body: &mut Body, from: usize) -> Result<usize, AllocError>
    ensures slot { IfOk result (λ d. d ≡ body.old.slots) }
    ensures code { OnOk result (body.new ≡ with_more (with_slot body.old) (Copy body.old.slots from)) }
{
    let slot = body.fresh()?;
    body.push(Instr::Copy(slot, from))?;
    Ok(slot)
}

/// Appends an operation modulo two to the power of so many bits, on the words of two slots, into a
/// new slot, and answers the slot.
///
/// # Errors
///
/// Want of memory.
pub fn emit_alu(
    body: &mut Body,
    op: AluOp,
    bits: u8,
    a: usize,
    b: usize,
) -> Result<usize, AllocError>
    ensures slot { IfOk result (λ d. d ≡ body.old.slots) }
    ensures code { OnOk result (body.new ≡ with_more (with_slot body.old) (Alu op bits body.old.slots a b)) }
{
    let slot = body.fresh()?;
    body.push(Instr::Alu(op, bits, slot, a, b))?;
    Ok(slot)
}

/// Appends an instruction that puts bits `o` up to `o + l` of a slot's word into a new slot, from
/// bit 0 on, and answers the slot.
///
/// # Errors
///
/// Want of memory.
pub fn emit_take(body: &mut Body, from: usize, o: u8, l: u8) -> Result<usize, AllocError>
    ensures slot { IfOk result (λ d. d ≡ body.old.slots) }
    ensures code { OnOk result (body.new ≡ with_more (with_slot body.old) (Take body.old.slots from o l)) }
{
    let slot = body.fresh()?;
    body.push(Instr::Take(slot, from, o, l))?;
    Ok(slot)
}

/// Appends a load of the word of `width` bits at byte `offset` of the block at a slot's address,
/// into a new slot, and answers the slot.
///
/// # Errors
///
/// Want of memory.
pub fn emit_load(body: &mut Body, base: usize, offset: u64, width: u8) -> Result<usize, AllocError>
    ensures slot { IfOk result (λ d. d ≡ body.old.slots) }
    ensures code { OnOk result (body.new ≡ with_more (with_slot body.old) (Load body.old.slots base offset width)) }
{
    let slot = body.fresh()?;
    body.push(Instr::Load(slot, base, offset, width))?;
    Ok(slot)
}

/// Appends copies of the words of the slots `froms` to the slots `dests`, one after the other, as
/// far as both lists go.
///
/// # Errors
///
/// Want of memory.
pub fn emit_copies(body: &mut Body, dests: &[usize], froms: &[usize]) -> Result<(), AllocError>
    ensures { OnOk result (body.new ≡ record body.old { code = body.old.code ++ copies dests.now froms.now }) }
{
    for (i, dest) in dests.iter().enumerate() {
        let Some(from) = froms.get(i) else {
            return Ok(());
        };
        body.push(Instr::Copy(*dest, *from))?;
    }
    Ok(())
}
