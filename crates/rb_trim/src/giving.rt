//! Loads whose word is copied right behind: they make it in the copy's slot. `hints` tell what is
//! known before each instruction of `body`, which slots are read from it on, whether a run may come
//! to it, where a jump to it goes on, and the new numbers of instructions and slots; `pc` is the
//! number of `instr` in `body`. Where a test fails the hints do not fit, which is the error
//! `Stop::Unfit`.

ghost use Rattle.std.specs.Prelude.{IfOk};
ghost use Rattle.rb_trim.specs.inner.Moving.{IsCopied, IsInto};

use crate::hints::Hints;
use crate::moving::{Stop, dest, end_at, is_reached, is_read, known_at, name, place_at};
use rb_target::instr::Instr;

// The slot to which instruction `at` copies the word of `slot`, where no instruction behind it
// reads `slot`; else the hints do not fit.
fn copied_to(hints: &Hints, body: &[Instr], at: usize, slot: usize) -> Result<usize, Stop>
    ensures { IfOk result (λ d. IsCopied hints.now body.now at slot d) }
{
    let Some(Instr::Copy(to, from)) = body.get(at) else {
        return Err(Stop::Unfit);
    };
    let Some(behind) = at.checked_add(1) else {
        return Err(Stop::Unfit);
    };
    let new = dest(hints, slot)?;
    let same = name(hints, known_at(hints, at), at, *from)?;
    if same != new {
        return Err(Stop::Unfit);
    }
    if is_read(hints, behind, slot) {
        return Err(Stop::Unfit);
    }
    if !is_reached(hints, behind) {
        return Err(Stop::Unfit);
    }
    Ok(*to)
}

/// The load that makes a word in the slot to which it is copied right behind, under new numbers.
///
/// # Errors
///
/// It is no load, or no copy of its word is right behind, or the word is read otherwise, or the new
/// numbers do not fit.
pub(crate) fn into_copy(
    hints: &Hints,
    body: &[Instr],
    pc: usize,
    instr: &Instr,
) -> Result<Instr, Stop>
    ensures { IfOk result (λ j. IsInto hints.now body.now pc instr.now j) }
{
    let Instr::Load(slot, base, offset, width) = instr else {
        return Err(Stop::Unfit);
    };
    let Some(behind) = pc.checked_add(1) else {
        return Err(Stop::Unfit);
    };
    let at = end_at(hints, behind);
    let to = copied_to(hints, body, at, *slot)?;
    let Some(next) = at.checked_add(1) else {
        return Err(Stop::Unfit);
    };
    let here = place_at(hints, pc);
    let there = place_at(hints, next);
    if there.saturating_sub(here) != 1 {
        return Err(Stop::Unfit);
    }
    let dest = dest(hints, to)?;
    let base = name(hints, known_at(hints, pc), pc, *base)?;
    Ok(Instr::Load(dest, base, *offset, *width))
}
