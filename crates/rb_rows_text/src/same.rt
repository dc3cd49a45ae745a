//! Whether tokens are those of a text.

use rb_syntax::token::{Placed, Token};

// Whether two tokens are the same.
fn is_same(a: &Token, b: &Token) -> bool {
    match (a, b) {
        (Token::Upper(x), Token::Upper(y)) => x.as_slice() == y.as_slice(),
        (Token::Lower(x), Token::Lower(y)) => x.as_slice() == y.as_slice(),
        (Token::Num(m), Token::Num(n)) => m == n,
        (Token::Reserved(v), Token::Reserved(w)) => v == w,
        (Token::Uint(m), Token::Uint(n)) => m == n,
        (Token::Symbol(s), Token::Symbol(t)) => s == t,
        _ => false,
    }
}

/// Whether these are the tokens.
pub fn are_same(tokens: &[Token], placed: &[Placed]) -> bool {
    tokens.len() == placed.len()
        && tokens
            .iter()
            .zip(placed.iter())
            .all(|(token, placed)| is_same(token, &placed.token))
}
