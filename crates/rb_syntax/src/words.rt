//! Reserved words and symbols by their bytes.

ghost use Rattle.std.specs.Prelude.{◌≡◌};
ghost use Rattle.rb_syntax.specs.Words as text;

use crate::token::{ReservedWord, SYMBOLS, Symbol, WORDS};
use rb_core::decimal::number_in;

/// The reserved word that is written so, `u1` to `u64` aside; `None` where there is none.
pub fn word_of(name: &[u8]) -> Option<ReservedWord>
    ensures { result ≡ text.word_of name.now }
{
    WORDS.iter().copied().find(|word| word.text() == name)
}

/// The symbol at the front of bytes, of two the longer; `None` where none stands there.
pub fn symbol_at(bytes: &[u8]) -> Option<Symbol>
    ensures { result ≡ text.symbol_at bytes.now }
{
    SYMBOLS
        .iter()
        .copied()
        .find(|symbol| bytes.starts_with(symbol.text()))
}

/// The width of the type of integers that is written so: 1 to 64 for `u1` to `u64`, else `None`.
pub fn width_of(name: &[u8]) -> Option<u8>
    ensures { result ≡ text.uint_width name.now }
{
    match name {
        [b'u', digits @ ..] => match number_in(1, 64, digits) {
            Some(width) => Some(width as u8),
            None => None,
        },
        _ => None,
    }
}
