//! The lines of the conditions that splits put on the leaves below them.
//!
//! A split goes by the bits at a location: each of its arms is for a literal, a number that these
//! bits may be, and its `else` is for the others. Lines are added at the end of `text`. Every error
//! is want of memory.

ghost use Rattle.std.specs.Prelude.{◌≡◌, ◌++◌, OnOk};
ghost use Rattle.std.specs.List.{flat_map};
ghost use Rattle.rb_layout.specs.Splits.{Is, IsNone};
ghost use Rattle.rb_show.specs.Lines.{condition_line, none_text, other_literal};
ghost use Rattle.rb_show.specs.inner.Ways.{literals_in};

use crate::location::push_loc;
use rb_core::layout_decl::Loc;
use rb_core::text::{push, push_number};
use rb_layout::layout::FlatArm;
use std::alloc::AllocError;

/// Adds the line of a condition: that a literal stands at a location.
pub(crate) fn push_is(text: &mut Vec<u8>, loc: &Loc, literal: u64) -> Result<(), AllocError>
    ensures { OnOk result (text.new.items ≡ text.old.items ++ condition_line (Is loc.now literal)) }
{
    push(text, b"when ")?;
    push_loc(text, loc)?;
    push(text, b" = ")?;
    push_number(text, literal)?;
    push(text, b"\n")?;
    Ok(())
}

// Adds the literals of a split's arms behind the first, each behind a comma.
fn push_others(text: &mut Vec<u8>, arms: &[FlatArm]) -> Result<(), AllocError>
    ensures { OnOk result (text.new.items ≡ text.old.items ++ flat_map other_literal (literals_in arms.now)) }
{
    for arm in arms {
        push(text, b", ")?;
        push_number(text, arm.literal)?;
    }
    Ok(())
}

// Adds that none of the arms' literals stands at the location before it; ` any` where there is no
// arm.
fn push_none(text: &mut Vec<u8>, arms: &[FlatArm]) -> Result<(), AllocError>
    ensures { OnOk result (text.new.items ≡ text.old.items ++ none_text (literals_in arms.now)) }
{
    match arms {
        [] => push(text, b" any"),
        [first, others @ ..] => {
            push(text, b" not ")?;
            push_number(text, first.literal)?;
            push_others(text, others)?;
            Ok(())
        }
    }
}

/// Adds the line of a condition: that none of the arms' literals stands at a location.
pub(crate) fn push_is_none(
    text: &mut Vec<u8>,
    loc: &Loc,
    arms: &[FlatArm],
) -> Result<(), AllocError>
    ensures { OnOk result (text.new.items ≡ text.old.items ++ condition_line (IsNone loc.now (literals_in arms.now))) }
{
    push(text, b"when ")?;
    push_loc(text, loc)?;
    push_none(text, arms)?;
    push(text, b"\n")?;
    Ok(())
}
