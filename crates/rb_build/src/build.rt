//! Code that constructs a value of its fields. A held value is one in slots, a word each, with its
//! type. What is shown of a field is a pattern that its value matches, known when the code is
//! written.

ghost use Rattle.std.specs.Prelude.{IfOk, OnOk};
ghost use Rattle.rb_target.specs.Growth.{Grows};
ghost use Rattle.rb_build.specs.Building.{Builds};

use rb_core::pattern::Pat;
use rb_core::types::ConRef;
use rb_fetch::construct::construct;
use rb_fragment::held::Held;
use rb_layout::agreed::Agreed;
use rb_target::body::Body;
use std::alloc::{AllocError, Global};

/// Appends to `body` code that constructs a value by the constructor `con`, of the values `args`,
/// one a field in their order, as the source does: its one event is that the value is built.
/// `agreed` has the program and its layouts. Each of the values matches the pattern in its place in
/// `shown`; a wildcard shows nothing. Answers the value, in new slots.
///
/// # Errors
///
/// Want of memory.
pub fn emit_build(
    alloc: Global,
    body: &mut Body,
    agreed: &Agreed,
    con: ConRef,
    args: &[Held],
    shown: &[Pat],
) -> Result<Held, AllocError>
    ensures builds { IfOk result
        (λ held. Builds agreed.now con args.now shown.now body.old body.new held) }
    ensures grows { OnOk result (Grows body.old.code body.new.code) }
{
    let held = construct(alloc, body, agreed, con, args, shown)?;
    Ok(held)
}
