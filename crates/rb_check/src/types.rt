//! Single types: what holds a number, and whether a found type is the wanted one.

ghost use Rattle.std.specs.Prelude.{◌≡◌, ◌≤◌};
ghost use Rattle.rb_core.specs.Typing.{as_wanted, type_holds, integer, least_width, number_typing, number_type};
ghost use Rattle.rb_check.specs.inner.Answers.{AnswersTyping};

use rb_core::types::Ty;
use rb_core::typing::TypeFault;

#[tactic(auto, using(crate::proofs::WidthLemmas::width_rules))]
/// The least number of bits, at least 1, that holds `n`.
pub fn least_width(n: u64) -> u8
    ensures same { result ≡ least_width n }
    ensures within { result ≤ 64 }
{
    for width in 1..64 {
        if n < 1 << width {
            return width;
        }
    }
    64
}

/// The least integer type that holds `n`.
pub fn number_type(n: u64) -> Ty
    ensures { result ≡ number_type n }
{
    Ty::Int(least_width(n))
}

/// Whether values of `ty` may be the number `n`.
pub fn can_hold(ty: Ty, n: u64) -> bool
    ensures { result ≡ type_holds ty n }
{
    match ty {
        Ty::Int(bits) => bits >= 64 || n < 1 << bits,
        Ty::Named(_) => false,
    }
}

/// The type of the number `n` at the token `at`.
///
/// # Errors
///
/// `Mismatch` where values of the wanted type may not be that number.
pub fn type_number(at: u32, n: u64, wanted: Option<Ty>) -> Result<Ty, TypeFault>
    ensures { AnswersTyping result (number_typing at n wanted) }
{
    match wanted {
        None => Ok(Ty::Int(64)),
        Some(wanted) => {
            if can_hold(wanted, n) {
                return Ok(wanted);
            }
            Err(TypeFault::Mismatch(at, wanted, number_type(n)))
        }
    }
}

/// The type found at the token `at`, where it is the wanted one or none is wanted.
///
/// # Errors
///
/// `Mismatch` where another type is wanted.
pub fn fit(at: u32, wanted: Option<Ty>, found: Ty) -> Result<Ty, TypeFault>
    ensures { AnswersTyping result (as_wanted at wanted found) }
{
    match wanted {
        None => Ok(found),
        Some(wanted) => {
            if wanted == found {
                return Ok(wanted);
            }
            Err(TypeFault::Mismatch(at, wanted, found))
        }
    }
}

/// The type found of an operand at the token `at`, where it is an integer.
///
/// # Errors
///
/// `Mismatch`, with `u64` wanted, where it is a data type.
pub fn integer(at: u32, found: Ty) -> Result<Ty, TypeFault>
    ensures { AnswersTyping result (integer at found) }
{
    match found {
        Ty::Int(_) => Ok(found),
        Ty::Named(_) => Err(TypeFault::Mismatch(at, Ty::Int(64), found)),
    }
}
