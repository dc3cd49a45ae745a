//! Facts on the slots of a function. A slot is one of a function's own words, by its number; a fact
//! says what it holds.

use rb_target::instr::AluOp;

/// What a slot holds, told by numbers, other slots and memory.
#[derive(Clone, Copy, PartialEq, Eq)]
pub enum Content {
    /// A number.
    Number(u64),
    /// Another slot's word.
    Same(usize),
    /// The bits of a slot from an offset on, so many of them.
    Part(usize, u8, u8),
    /// What an operation gives, modulo two to the power of so many bits, on two slots.
    Computed(AluOp, u8, usize, usize),
    /// From the block at a slot's address, at an offset in bytes, the word of so many bits.
    Loaded(usize, u64, u8),
}

/// A fact on a slot: it holds this content.
#[derive(Clone, Copy, PartialEq, Eq)]
pub struct Fact {
    pub slot: usize,
    pub content: Content,
}
