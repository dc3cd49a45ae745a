//! The goal that a part gives for a literal, which is a number in a range of bits. A part with a
//! word of a data field asks whether that root word, in any leaf of the field's type, never has the
//! literal's bits where the part meets the range. Any other part gives no goal.

ghost use Rattle.std.specs.Prelude.{◌≡◌, IfSome};
ghost use Rattle.rb_layout.specs.inner.Barring.{position_type, IsAsked, part_literal, goal_in};

use crate::goals::{Goal, Literal};
use crate::layout::{Kind, Part};
use crate::positions::type_at;
use rb_bits::take;
use rb_core::pattern::Pat;
use rb_core::types::{DataDecl, Ty};

// Where a part meets the literal's range, the literal's bits there, in a range that counts from the
// part's first bit. None where they have no bit in common.
fn part_literal(part: &Part, literal: Literal) -> Option<Literal>
    requires { IsAsked literal }
    ensures value { result ≡ part_literal literal part.now }
    ensures asked { IfSome result (λ x. IsAsked x) }
{
    let first = literal.o.max(part.o);
    let end = (literal.o + literal.l).min(part.o.saturating_add(part.l));
    if end <= first {
        return None;
    }
    Some(Literal {
        o: first - part.o,
        l: end - first,
        bits: take(
            literal.bits,
            (first - literal.o) as u32,
            (end - first) as u32,
        ),
    })
}

/// The goal that a part gives for a literal, in a leaf with this provenance: that the word of a
/// field which it has never has the literal's bits where both meet. None where the part has no word
/// of a field of a data type, or does not meet the range.
pub(crate) fn goal_in(types: &[DataDecl], prov: &Pat, part: &Part, literal: Literal) -> Option<Goal>
    requires { IsAsked literal }
    ensures value { result ≡ goal_in (position_type types.now prov.now) literal part.now }
    ensures asked { IfSome result (λ g. IsAsked g.literal) }
{
    match &part.kind {
        Kind::Const(_) => None,
        Kind::Bits(_, _) => None,
        Kind::Word(path, word) => {
            let ty = match type_at(types, prov, path.as_slice()) {
                None => return None,
                Some(Ty::Int(_)) => return None,
                Some(Ty::Named(ty)) => ty,
            };
            match part_literal(part, literal) {
                None => None,
                Some(literal) => Some(Goal {
                    ty,
                    word: *word,
                    literal,
                }),
            }
        }
        Kind::Pointer(_, _) => None,
    }
}
