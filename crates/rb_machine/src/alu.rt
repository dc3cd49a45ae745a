//! Operations on words: numbers of 64 bits. `bits` is how many bits an operation keeps.

ghost use Rattle.std.specs.Prelude.{◌≡◌, ◌%◌, ◌^◌, ◌≤◌};
ghost use Rattle.rb_target.specs.Meaning.{alu_of};

use rb_bits::words::take;
use rb_target::instr::AluOp;

/// The lowest `bits` bits of a word, as a number.
pub fn low_bits(word: u64, bits: u8) -> u64
    requires { (1 ≤ bits) × (bits ≤ 64) }
    ensures { result ≡ word % 2 ^ bits }
{
    take(word, 0, u32::from(bits))
}

/// An operation on two words, modulo two to the power of `bits` but for comparisons.
pub fn alu(op: AluOp, bits: u8, left: u64, right: u64) -> u64
    requires { (1 ≤ bits) × (bits ≤ 64) }
    ensures { result ≡ alu_of op bits left right }
{
    match op {
        AluOp::Add => low_bits(left.wrapping_add(right), bits),
        AluOp::Sub => low_bits(left.wrapping_sub(right), bits),
        AluOp::Mul => low_bits(left.wrapping_mul(right), bits),
        AluOp::And => low_bits(left & right, bits),
        AluOp::Or => low_bits(left | right, bits),
        AluOp::Xor => low_bits(left ^ right, bits),
        AluOp::Eq => u64::from(left == right),
        AluOp::Lt => u64::from(left < right),
    }
}
