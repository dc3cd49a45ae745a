//! Instructions. A function's own words stand in its slots, which are numbered from 0; a target is
//! the number of an instruction in its body, also from 0. Words have 64 bits. Of a range of bits an
//! instruction names the first bit, counted from 0, the lowest, and the length.

use rb_bytes::memory::MOST_BLOCK;
use rb_core::seq::Seq;

/// The greatest offset of a load or a store, the last byte of a block of the greatest size; clauses
/// cite it as `most_offset` of `specs/Validity.antt`.
pub(crate) const MOST_OFFSET: u64 = MOST_BLOCK - 1;

/// An operation on two words, the left and the right. All but `Eq` and `Lt` are modulo two to the
/// power of a number of bits, which the instruction names.
#[derive(Clone, Copy, PartialEq, Eq)]
pub enum AluOp {
    /// The sum.
    Add,
    /// The left word without the right.
    Sub,
    /// The product.
    Mul,
    /// The bits that are 1 in both words.
    And,
    /// The bits that are 1 in one of the words or in both.
    Or,
    /// The bits that are 1 in just one of the words.
    Xor,
    /// 1 where the whole words are equal, else 0.
    Eq,
    /// 1 where the whole left word is below the whole right one, else 0.
    Lt,
}

/// Every operation.
pub(crate) const OPS: [AluOp; 8] = [
    AluOp::Add,
    AluOp::Sub,
    AluOp::Mul,
    AluOp::And,
    AluOp::Or,
    AluOp::Xor,
    AluOp::Eq,
    AluOp::Lt,
];

/// An arm of a switch: the word on which the switch takes it, and the target where it goes on then.
#[derive(Clone, Copy, PartialEq, Eq)]
pub struct SwitchArm {
    pub number: u64,
    pub target: usize,
}

/// One step of the machine. The parts of each are named in their order. Where a word is made, the
/// first slot, or the first slots, are those to which it goes.
#[derive(Drop)]
pub enum Instr {
    /// The slot to write; the number that it gets, of 64 bits.
    Const(usize, u64),
    /// The slot to write; the slot whose word it gets.
    Copy(usize, usize),
    /// The operation; its number of bits, from 1 to 64; the slot to write; the slot of the left
    /// word; the slot of the right word.
    Alu(AluOp, u8, usize, usize, usize),
    /// The slot to write; the slot from which a range of bits is taken, as a number; the range's
    /// first bit; its length in bits.
    Take(usize, usize, u8, u8),
    /// The slot of whose word a range of bits is replaced; the slot whose low bits are put there;
    /// the range's first bit; its length in bits.
    Put(usize, usize, u8, u8),
    /// The slot to write; the slot that holds the address of a block; the offset in that block, in
    /// bytes, from which on a word is read; its width, in bits.
    Load(usize, usize, u64, u8),
    /// The slot that holds the address of a block; the offset in that block, in bytes, from which
    /// on a word is written; its width, in bits; the slot of whose word the low bits are written.
    Store(usize, u64, u8, usize),
    /// The slot to write, which gets the address of a new block; its size, in bytes; its alignment,
    /// in bytes.
    Place(usize, u64, u64),
    /// The target, where it goes on.
    Jump(usize),
    /// The slot whose word chooses; the other target, if there is one; the arms. It goes on at the
    /// target of the first arm with the word, or where there is none at the other target, and else
    /// it traps.
    Switch(usize, Option<usize>, Seq<SwitchArm>),
    /// The number of the function to call, among all; the slots to which its results go, in their
    /// order; the slots that hold the words that it is called with, in their order.
    Call(usize, Seq<usize>, Seq<usize>),
    /// The slots that hold the function's results, in their order. It ends the function.
    Return(Seq<usize>),
}
