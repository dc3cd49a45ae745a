//! Locations as they are shown, at the end of `text`.
//!
//! A location leads to bits of a value: a range of bits of a root word, and steps, each through the
//! pointer that was reached to bits of a word of its block. Every error is want of memory.

ghost use Rattle.std.specs.Prelude.{◌≡◌, ◌++◌, OnErr, OnOk};
ghost use Rattle.std.specs.List.{flat_map};
ghost use Rattle.rb_show.specs.Locations.{bits_text, loc_text, range_text, step_text};

use rb_core::layout_decl::{Loc, Step};
use rb_core::text::{push, push_number};
use std::alloc::AllocError;

/// Adds so many bits from that bit on, as `o:l`.
pub(crate) fn push_range(text: &mut Vec<u8>, o: u64, l: u64) -> Result<(), AllocError>
    ensures { OnOk result (text.new.items ≡ text.old.items ++ range_text o l) }
{
    push_number(text, o)?;
    push(text, b":")?;
    push_number(text, l)?;
    Ok(())
}

/// Adds so many bits from that bit on, as `[o:l]`.
pub(crate) fn push_bits(text: &mut Vec<u8>, o: u64, l: u64) -> Result<(), AllocError>
    ensures { OnOk result (text.new.items ≡ text.old.items ++ bits_text o l) }
{
    push(text, b"[")?;
    push_range(text, o, l)?;
    push(text, b"]")?;
    Ok(())
}

// Adds a step of a location: through a pointer, to bits of a word of its block.
fn push_step(text: &mut Vec<u8>, step: &Step) -> Result<(), AllocError>
    ensures { OnOk result (text.new.items ≡ text.old.items ++ step_text step.now) }
{
    push(text, b" -> ")?;
    push_number(text, step.align)?;
    push(text, b" @")?;
    push_range(text, step.byte, step.width)?;
    push_bits(text, step.o, step.l)?;
    Ok(())
}

// Adds the steps of a location, one after the other.
fn push_steps(text: &mut Vec<u8>, steps: &[Step]) -> Result<(), AllocError>
    ensures { OnOk result (text.new.items ≡ text.old.items ++ flat_map step_text steps.now) }
{
    for step in steps {
        push_step(text, step)?;
    }
    Ok(())
}

/// Adds a location to a text, such as `0[0:32] -> 4 @0:8[0:8]`: the bits of a root word, and for
/// each pointer its alignment, the byte and the width of a word of its block, and bits of that.
///
/// # Errors
///
/// Want of memory. Then the text is as it was.
pub fn push_loc(text: &mut Vec<u8>, loc: &Loc) -> Result<(), AllocError>
    ensures ok { OnOk result (text.new.items ≡ text.old.items ++ loc_text loc.now) }
    ensures err { OnErr result (text.new.items ≡ text.old.items) }
{
    let mut shown = Vec::new(*text.allocator());
    push_number(&mut shown, loc.word)?;
    push_bits(&mut shown, loc.o, loc.l)?;
    push_steps(&mut shown, loc.steps.as_slice())?;
    push(text, shown.as_slice())
}
