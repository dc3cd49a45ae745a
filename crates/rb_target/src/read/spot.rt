//! What is known of a code text between two words: where reading stands, what is read of the line,
//! and what the next word may be.

use crate::code::CodeFun;
use crate::word::{Key, LineWord};
use rb_core::seq::Seq;

/// Which of the three counts behind a function's name comes next.
#[derive(Clone, Copy, PartialEq, Eq)]
pub enum Turn {
    /// The parameters.
    First,
    /// The results.
    Second,
    /// The slots.
    Third,
}

/// What one word of an instruction's line behind its key may be. Numbers are below 2^64.
#[derive(Clone, Copy, PartialEq, Eq)]
pub enum Field {
    /// Any number.
    Any,
    /// A number from 0 on, up to this one.
    Upto(u64),
    /// A number from 1 on, up to this one.
    FromOne(u64),
    /// A width in bits: 8, 16, 32 or 64.
    Width,
    /// An alignment in bytes: a power of two up to 64.
    Align,
    /// An offset of bits from 0 to 63; behind it stands a length from 1 on, which with the offset
    /// is at most 64.
    Range,
    /// An operation's name.
    Operation,
    /// The other target of a switch, a number, or `-` for none.
    OrDash,
    /// The number of an arm, if there is one more; behind it stands the arm's target.
    Pairs,
    /// The target of an arm; behind it more arms may stand.
    Target,
    /// A slot, behind which more may stand, or `of`, which ends them and must come.
    OrOf,
    /// A slot, if there is one more.
    Slots,
    /// No word: the line has no more fields.
    Nothing,
}

/// A line that is read in part: its key, the words that are read behind it, and the fields that
/// are to come, which the key and the words determine.
#[derive(Drop)]
pub struct Line {
    pub key: Key,
    pub words: Seq<LineWord>,
    pub rest: Seq<Field>,
}

/// Where reading stands between two words.
#[derive(Drop)]
pub enum Spot {
    /// Before the word `fun`, or at the end.
    Outside,
    /// Before a function's name.
    Naming,
    /// Before one of a function's three counts.
    Heading(CodeFun, Turn),
    /// Before an instruction of a function, or its end.
    Starting(CodeFun),
    /// Within an instruction's line.
    Within(CodeFun, Line),
}

/// What a word and the blank or line's end behind it do.
#[derive(Drop)]
pub enum Move {
    /// Reading goes on from there.
    To(Spot),
    /// The function is whole.
    Closed(CodeFun),
    /// No code text goes on with that word and that byte.
    Refused,
}
