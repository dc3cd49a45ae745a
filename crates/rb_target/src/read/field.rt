//! The words that may stand in a field.

ghost use Rattle.std.specs.Prelude.{◌≡◌};
ghost use Rattle.rb_target.specs.inner.Fields as spec;

use super::spot::Field;
use crate::instr::{AluOp, OPS};
use crate::word::{KEYS, Key, LineWord, key_name, op_name};
use rb_core::decimal::number_in;

/// The key that is written so, or none if none is; `end` is none.
pub fn key_of_word(word: &[u8]) -> Option<Key>
    ensures { result ≡ spec.key_of_word word.now }
{
    KEYS.iter().copied().find(|key| key_name(*key) == word)
}

// The operation that is written so, or none if none is.
fn op_of_word(word: &[u8]) -> Option<AluOp>
    ensures { result ≡ spec.op_of_word word.now }
{
    OPS.iter().copied().find(|op| op_name(*op) == word)
}

/// Whether some key begins with these bytes, or is them.
pub fn is_key_front(word: &[u8]) -> bool
    ensures { result ≡ spec.is_key_front word.now }
{
    KEYS.iter().any(|key| key_name(*key).starts_with(word))
}

// Whether some operation's name begins with these bytes, or is them.
fn is_op_front(word: &[u8]) -> bool
    ensures { result ≡ spec.is_op_front word.now }
{
    OPS.iter().any(|op| op_name(*op).starts_with(word))
}

/// The number below 2^64 that is written so, in decimal without a leading zero, or none.
pub fn number_of_word(word: &[u8]) -> Option<u64>
    ensures { result ≡ spec.number_of_word word.now }
{
    number_in(0, u64::MAX, word)
}

impl Field {
    // Whether a number may stand there; none may where just a name may stand, or no word.
    fn has(self, number: u64) -> bool
        ensures { result ≡ spec.has self number }
    {
        match self {
            Field::Any
            | Field::OrDash
            | Field::Pairs
            | Field::Target
            | Field::OrOf
            | Field::Slots => true,
            Field::Range => number <= 63,
            Field::Upto(high) => number <= high,
            Field::FromOne(high) => 1 <= number && number <= high,
            Field::Width => is_width(number),
            Field::Align => { number == 1 || number == 2 || number == 4 || is_width(number) }
            Field::Operation | Field::Nothing => false,
        }
    }

    // Whether a number may not stand there, but digits behind it can make one that may, as `1` is
    // no width in bits and `16` is one.
    fn leads(self, number: u64) -> bool
        ensures { result ≡ spec.leads self number }
    {
        match self {
            Field::Width => number == 1 || number == 3 || number == 6,
            Field::Align => number == 3 || number == 6,
            Field::Any
            | Field::Upto(_)
            | Field::FromOne(_)
            | Field::Range
            | Field::Operation
            | Field::OrDash
            | Field::Pairs
            | Field::Target
            | Field::OrOf
            | Field::Slots
            | Field::Nothing => false,
        }
    }

    /// Whether some word may stand there: in each field but `Nothing`. `FromOne(0)`, where none
    /// may, is no field of any line.
    pub fn is_open(self) -> bool
        ensures { result ≡ spec.is_open self }
    {
        match self {
            Field::Nothing => false,
            Field::Any
            | Field::Upto(_)
            | Field::FromOne(_)
            | Field::Width
            | Field::Align
            | Field::Range
            | Field::Operation
            | Field::OrDash
            | Field::Pairs
            | Field::Target
            | Field::OrOf
            | Field::Slots => true,
        }
    }

    // The word that is written so, which is no number, if it may stand there; else none.
    fn name(self, text: &[u8]) -> Option<LineWord>
        ensures { result ≡ spec.named_word self text.now }
    {
        match self {
            Field::Operation => match op_of_word(text) {
                Some(op) => Some(LineWord::Op(op)),
                None => None,
            },
            Field::OrDash if text == b"-".as_slice() => Some(LineWord::Dash),
            Field::OrOf if text == b"of".as_slice() => Some(LineWord::Of),
            Field::Any
            | Field::Upto(_)
            | Field::FromOne(_)
            | Field::Width
            | Field::Align
            | Field::Range
            | Field::OrDash
            | Field::Pairs
            | Field::Target
            | Field::OrOf
            | Field::Slots
            | Field::Nothing => None,
        }
    }

    /// The word that is written so, if it may stand there; else none, as for the empty word.
    pub fn word(self, text: &[u8]) -> Option<LineWord>
        ensures { result ≡ spec.word_in self text.now }
    {
        match number_of_word(text) {
            Some(number) if self.has(number) => Some(LineWord::Number(number)),
            Some(_) => None,
            None => self.name(text),
        }
    }

    // Whether some word that is no number and may stand there begins with these bytes, or is them.
    fn is_name_front(self, text: &[u8]) -> bool
        ensures { result ≡ spec.named_front self text.now }
    {
        match self {
            Field::Operation => is_op_front(text),
            Field::OrDash => b"-".starts_with(text),
            Field::OrOf => b"of".starts_with(text),
            Field::Any
            | Field::Upto(_)
            | Field::FromOne(_)
            | Field::Width
            | Field::Align
            | Field::Range
            | Field::Pairs
            | Field::Target
            | Field::Slots
            | Field::Nothing => false,
        }
    }

    /// Whether some word that may stand there begins with these bytes, which are not empty, or is
    /// them.
    pub fn is_front(self, text: &[u8]) -> bool
        ensures { result ≡ spec.is_word_front self text.now }
    {
        match number_of_word(text) {
            Some(number) => self.has(number) || self.leads(number),
            None => self.is_name_front(text),
        }
    }
}

// Whether a number is a width in bits: 8, 16, 32 or 64.
fn is_width(number: u64) -> bool
    ensures { result ≡ spec.has Field.Width number }
{
    number == 8 || number == 16 || number == 32 || number == 64
}
