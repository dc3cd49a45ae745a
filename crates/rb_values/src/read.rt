//! Reading a value: one pass over the text, token by token.
//!
//! A sign is what a token is to a value. The outline says what may stand next, and how many nodes,
//! the numbers and names of the text, have begun. The typing is how the nodes fit their types so
//! far, with the values that are built; None where there are more nodes than the limit. `types` are
//! the types of the program.

ghost use Rattle.std.specs.Prelude.{◌≡◌, ◌≤◌, true, IfOk, Some};
ghost use Rattle.rb_core.specs.Values.{is_of_type, node_count};
ghost use Rattle.rb_values.specs.Reading.{ValueIsRead};
ghost use Rattle.rb_values.specs.inner.States.{State, step, outline_of};
ghost use Rattle.rb_values.specs.inner.Finishing.{TypingIsKept, IsFinished};
ghost use Rattle.rb_core.specs.declared.types.Ty.{Ty as Type_};

use crate::fault::ValueFault;
use crate::forest::Forest;
use crate::outline::Outline;
use crate::sign::{Sign, sign_of};
use crate::typing::Typing;
use rb_core::types::{DataDecl, Ty};
use rb_syntax::front::{Next, next_token};
use std::alloc::Global;

// What is kept of the value behind one more sign, with which it has `nodes` nodes: nothing once
// these are more than the limit, so memory is bounded by it.
fn go_on(
    typing: Option<Typing>,
    types: &[DataDecl],
    ty: Ty,
    sign: Sign,
    nodes: usize,
    limit: u64,
) -> Result<Option<Typing>, ValueFault>
    ensures { IfOk result (λ kept. (s next : State) → step s sign ≡ Some next → nodes ≡ (outline_of next).nodes
        → TypingIsKept types.now ty limit s typing → TypingIsKept types.now ty limit next kept) }
{
    match typing {
        None => Ok(None),
        Some(mut typing) => {
            if nodes as u64 > limit {
                return Ok(None);
            }
            typing.step(types, ty, sign)?;
            Ok(Some(typing))
        }
    }
}

// The answer at the end of a text of `len` bytes: the value; or that no value is whole there, that
// it has too many nodes, or its first node that does not fit its type.
fn finish(
    outline: Outline,
    typing: Option<Typing>,
    types: &[DataDecl],
    len: usize,
    limit: u64,
) -> Result<Forest, ValueFault>
    ensures { (ty : Type_) (s : State) → outline ≡ outline_of s
        → TypingIsKept types.now ty limit s typing
        → IsFinished types.now ty limit s len result }
{
    if !outline.is_whole() {
        return Err(ValueFault::ValueSyntax(len));
    }
    if outline.nodes as u64 > limit {
        return Err(ValueFault::ValueTooLarge);
    }
    match typing {
        // a value within the limit is kept
        None => Err(ValueFault::Memory),
        Some(mut typing) => {
            typing.settle(types)?;
            typing.finish()
        }
    }
}

/// The value of this type that the text spells, of at most `limit` nodes. It keeps at most a node,
/// a link and a name that is open for each node up to the limit, however long the text is.
///
/// # Errors
///
/// `ValueSyntax` where the text spells no value, `ValueTooLarge` where it has more nodes than
/// `limit`, `ValueType` at the first node that does not fit its type, in this order; or want of
/// memory.
pub fn read_value(
    alloc: Global,
    types: &[DataDecl],
    ty: Ty,
    text: &[u8],
    limit: u64,
) -> Result<Forest, ValueFault>
    ensures read { ValueIsRead types.now ty limit text.now result }
    ensures of_type { IfOk result (λ v. is_of_type types.now v ty ≡ true) }
    ensures within { IfOk result (λ v. node_count v ≤ limit) }
{
    let mut typing = Some(Typing::new(alloc));
    let mut outline = Outline::new();
    let mut at = 0usize;
    loop {
        match next_token(alloc, text, at)? {
            Next::Fault(place) => return Err(ValueFault::ValueSyntax(place)),
            Next::End => return finish(outline, typing, types, text.len(), limit),
            Next::Token(placed, end) => {
                let place = placed.at;
                let sign = sign_of(placed);
                let next = match outline.step(&sign) {
                    None => return Err(ValueFault::ValueSyntax(place)),
                    Some(next) => next,
                };
                typing = match go_on(typing, types, ty, sign, next.nodes, limit) {
                    Ok(kept) => kept,
                    Err(_) => return Err(ValueFault::Memory),
                };
                outline = next;
                at = end;
            }
        }
    }
}
