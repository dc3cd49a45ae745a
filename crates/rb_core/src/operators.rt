//! What operators give, for evaluation.

ghost use Rattle.std.specs.Prelude.{◌≡◌, ◌%◌, ◌^◌, ◌≤◌};
ghost use Rattle.rb_core.specs.Inference.{width_of};
ghost use Rattle.rb_core.specs.Meaning.{number_of, op_value};

use crate::expression::Op;
use crate::types::Ty;
use crate::value::Value;

/// The number that a value is; of a construction, 0, which a typed program never meets.
pub(crate) fn number(value: &Value) -> u64
    ensures { result ≡ number_of value.now }
{
    match value {
        Value::Num(n) => *n,
        Value::Con(_, _) => 0,
    }
}

/// The bits of an integer type, or 64 where it has more; of a data type, 64, since no operator is
/// typed at one.
pub fn width(ty: Ty) -> u8
    ensures width { result ≡ width_of ty }
    ensures most { result ≤ 64 }
{
    match ty {
        Ty::Int(bits) => bits.min(64),
        Ty::Named(_) => 64,
    }
}

/// What an operator gives at operands `a` and `b` of `width` bits: 1 or 0 for `eq` and `lt`, else
/// its result modulo two to the width.
pub(crate) fn apply(op: Op, width: u8, a: u64, b: u64) -> u64
    requires { width ≤ 64 }
    ensures { result ≡ op_value op width a b }
{
    let modulus = 1u128 << width;
    let (a_wide, b_wide) = (a as u128, b as u128);
    match op {
        Op::Add => ((a_wide + b_wide) % modulus) as u64,
        Op::Sub => ((a_wide + (modulus - b_wide % modulus)) % modulus) as u64,
        Op::Mul => ((a_wide * b_wide) % modulus) as u64,
        Op::And => low_bits(a & b, width),
        Op::Or => low_bits(a | b, width),
        Op::Xor => low_bits(a ^ b, width),
        Op::Eq => u64::from(a == b),
        Op::Lt => u64::from(a < b),
    }
}

/// The number that the `bits` low bits of `n` hold; `n` itself for 64 bits and more.
pub(crate) fn low_bits(n: u64, bits: u8) -> u64
    ensures { result ≡ n % 2 ^ bits }
{
    if bits >= 64 { n } else { n % (1 << bits) }
}
