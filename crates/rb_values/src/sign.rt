//! What the tokens of a text are to a value.

ghost use Rattle.std.specs.Prelude.{◌≡◌};
ghost use Rattle.rb_values.specs.Terms.{sign_of, symbol_sign};

use rb_core::types::Name;
use rb_syntax::token::{Placed, Symbol, Token};

/// A token as a value's text has it. A number and a name begin a node, and keep their byte.
#[derive(Drop)]
pub enum Sign {
    /// The byte, and the number.
    Number(usize, u64),
    /// The byte, and a name that begins with a capital.
    Name(usize, Name),
    /// An opening parenthesis.
    Open,
    /// A closing parenthesis.
    Close,
    /// A comma.
    Comma,
    /// A token that stands in no value.
    Other,
}

// What a symbol is in the text of a value: a parenthesis or a comma, and any other stands in none.
fn symbol_sign(symbol: Symbol) -> Sign
    ensures { result ≡ symbol_sign symbol }
{
    match symbol {
        Symbol::OpenParen => Sign::Open,
        Symbol::CloseParen => Sign::Close,
        Symbol::Comma => Sign::Comma,
        Symbol::Equals
        | Symbol::Bar
        | Symbol::Semicolon
        | Symbol::OpenBrace
        | Symbol::CloseBrace
        | Symbol::Less
        | Symbol::Greater
        | Symbol::Colon
        | Symbol::OpenBracket
        | Symbol::CloseBracket
        | Symbol::Dot
        | Symbol::At
        | Symbol::Arrow
        | Symbol::FatArrow
        | Symbol::Underscore => Sign::Other,
    }
}

/// What a token is in the text of a value: a number, and a name that begins with a capital, keep
/// the byte at which they begin.
pub fn sign_of(placed: Placed) -> Sign
    ensures { result ≡ sign_of placed }
{
    let Placed { token, at } = placed;
    match token {
        Token::Num(n) => Sign::Number(at, n),
        Token::Upper(name) => Sign::Name(at, name),
        Token::Symbol(symbol) => symbol_sign(symbol),
        Token::Lower(_) | Token::Reserved(_) | Token::Uint(_) => Sign::Other,
    }
}
