//! Words, symbols, numbers and refusals of texts. The rows are the language's tables of words and
//! symbols, and texts cut by hand by its rule that the longest piece counts.

use crate::editors::RESERVED;
use rb_syntax::lex::{LexFault, lex};
use rb_syntax::token::{Placed, ReservedWord, Symbol, Token, WORDS};
use std::alloc::Global;
use std::test::Fail;

// The word that a token is.
fn word_at(tokens: &[Placed], i: usize) -> Option<ReservedWord> {
    match tokens.get(i)?.token {
        Token::Reserved(word) => Some(word),
        _ => None,
    }
}

// The syntax files in editors/ have the lexer's words, in its order.
#[test]
fn reserved_words(rt: HostRuntime) -> Result<(), Fail> {
    let tokens = lex(rt.alloc(), RESERVED)?;
    assert!(rt; tokens.len() == 21);
    for (i, word) in WORDS.iter().enumerate() {
        assert!(rt; word_at(tokens.as_slice(), i) == Some(*word), "{word:?}");
    }
    Ok(())
}

// The width that a lone token names.
fn width_of(tokens: &[Placed]) -> Option<u8> {
    match tokens {
        [
            Placed {
                token: Token::Uint(width),
                ..
            },
        ] => Some(*width),
        _ => None,
    }
}

#[test]
fn widths(rt: HostRuntime) -> Result<(), Fail> {
    for width in 1..=64u8 {
        let text = format!(in rt.alloc(); "u{width}")?;
        let tokens = lex(rt.alloc(), text.as_bytes())?;
        assert!(rt; width_of(tokens.as_slice()) == Some(width), "u{width}");
    }
    Ok(())
}

const NAMES: &[&[u8]] = &[b"u65", b"u0", b"u08", b"u", b"types", b"u8x"];

#[test]
fn no_widths(rt: HostRuntime) -> Result<(), Fail> {
    for &text in NAMES {
        assert!(rt; is_lower(&lex(rt.alloc(), text)?, text), "{text:?}");
    }
    Ok(())
}

// Whether the tokens are one lower-case name, which is this text.
fn is_lower(tokens: &[Placed], text: &[u8]) -> bool {
    match tokens {
        [
            Placed {
                token: Token::Lower(name),
                at,
            },
        ] => *at == 0 && name.as_slice() == text,
        _ => false,
    }
}

// Symbols, and the bytes at which they stand in `ALL_SYMBOLS`.
const SYMBOLS: &[(Symbol, usize)] = &[
    (Symbol::Equals, 0),
    (Symbol::Bar, 2),
    (Symbol::OpenParen, 4),
    (Symbol::CloseParen, 6),
    (Symbol::Comma, 8),
    (Symbol::Semicolon, 10),
    (Symbol::OpenBrace, 12),
    (Symbol::CloseBrace, 14),
    (Symbol::Less, 16),
    (Symbol::Greater, 18),
    (Symbol::Colon, 20),
    (Symbol::OpenBracket, 22),
    (Symbol::CloseBracket, 24),
    (Symbol::Dot, 26),
    (Symbol::At, 28),
    (Symbol::Arrow, 30),
    (Symbol::FatArrow, 33),
    (Symbol::Underscore, 36),
];

const ALL_SYMBOLS: &[u8] = b"= | ( ) , ; { } < > : [ ] . @ -> => _";

// The symbol that a token is, and its byte.
fn symbol_at(tokens: &[Placed], i: usize) -> Option<(Symbol, usize)> {
    let placed = tokens.get(i)?;
    match placed.token {
        Token::Symbol(symbol) => Some((symbol, placed.at)),
        _ => None,
    }
}

#[test]
fn symbols(rt: HostRuntime) -> Result<(), Fail> {
    let tokens = lex(rt.alloc(), ALL_SYMBOLS)?;
    assert!(rt; tokens.len() == SYMBOLS.len());
    for (i, row) in SYMBOLS.iter().enumerate() {
        assert!(rt; symbol_at(tokens.as_slice(), i) == Some(*row), "at {i}");
    }
    Ok(())
}

// Whether these are a name and, four tokens on, a number.
fn is_name_and_number(tokens: &[Placed], wanted: &[u8], number: u64) -> bool {
    match tokens {
        [
            Placed {
                token: Token::Upper(name),
                ..
            },
            _,
            _,
            _,
            Placed {
                token: Token::Num(n),
                ..
            },
            ..
        ] => name.as_slice() == wanted && *n == number,
        _ => false,
    }
}

// The bytes at which the tokens of `PIECES` stand.
const PLACES: &[usize] = &[0, 6, 7, 8, 9, 29, 30, 32, 38, 41];

const PIECES: &[u8] = b"Cons_2(x,18446744073709551615)=>=//=>\n-> 0//";

// The byte at which a token stands, if there is one with this number.
fn place_at(tokens: &[Placed], i: usize) -> Option<usize> {
    Some(tokens.get(i)?.at)
}

#[test]
fn pieces_without_blanks(rt: HostRuntime) -> Result<(), Fail> {
    let tokens = lex(rt.alloc(), PIECES)?;
    assert!(rt; tokens.len() == PLACES.len());
    for (i, at) in PLACES.iter().enumerate() {
        assert!(rt; place_at(tokens.as_slice(), i) == Some(*at), "at {i}");
    }
    assert!(rt; is_name_and_number(tokens.as_slice(), b"Cons_2", 18446744073709551615));
    Ok(())
}

#[test]
fn no_token(rt: HostRuntime) -> Result<(), Fail> {
    assert!(rt; lex(rt.alloc(), b" \t\r\n// no token")?.len() == 0);
    Ok(())
}

// Whether a refusal is by a wide number, and its byte.
fn refusal(alloc: Global, text: &[u8]) -> Option<(bool, usize)> {
    match lex(alloc, text) {
        Err(LexFault::BadByte(at)) => Some((false, at)),
        Err(LexFault::NumberTooWide(at)) => Some((true, at)),
        _ => None,
    }
}

// A text, whether it is refused by a wide number, and at which byte.
const REFUSED: &[(&[u8], bool, usize)] = &[
    (b"fun main(): u8 = \xff;", false, 17),
    (
        b"fun main(x: u64): u64 = add(x, 18446744073709551616);",
        true,
        31,
    ),
    (b"01", false, 1),
    (b"00", false, 1),
    (b"12x", false, 2),
    (b"18446744073709551616x", false, 20),
    (b"x 18446744073709551616 \xff", true, 2),
    (b"\xff 18446744073709551616", false, 0),
    (b"_x", false, 1),
    (b"__", false, 1),
    (b"a - b", false, 2),
    (b"a-", false, 1),
    (b"a / b", false, 2),
    (b"a /", false, 2),
    (b"\0", false, 0),
    (b"// a\n#", false, 5),
];

#[test]
fn refusals(rt: HostRuntime) {
    for &(text, wide, at) in REFUSED {
        assert!(rt; refusal(rt.alloc(), text) == Some((wide, at)), "{text:?}");
    }
}
