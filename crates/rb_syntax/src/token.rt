//! Tokens: the words, numbers and symbols of a file.

ghost use Rattle.std.specs.Prelude.{◌≡◌};
ghost use Rattle.rb_syntax.specs.Words.{word_text, symbol_text};

use rb_core::types::Name;

/// A reserved word. The words `u1` to `u64` are reserved too: see `Token::Uint`.
#[derive(Clone, Copy, PartialEq, Eq, Debug)]
pub enum ReservedWord {
    Type,
    Layout,
    Fun,
    Let,
    In,
    Match,
    Word,
    Split,
    Else,
    Inline,
    Boxed,
    Packed,
    Add,
    Sub,
    Mul,
    And,
    Or,
    Xor,
    Eq,
    Lt,
    To,
}

/// A symbol. The underscore, which stands for any value in a pattern, is one too.
#[derive(Clone, Copy, PartialEq, Eq, Debug)]
pub enum Symbol {
    Equals,
    Bar,
    OpenParen,
    CloseParen,
    Comma,
    Semicolon,
    OpenBrace,
    CloseBrace,
    Less,
    Greater,
    Colon,
    OpenBracket,
    CloseBracket,
    Dot,
    At,
    Arrow,
    FatArrow,
    Underscore,
}

/// A token of a file.
#[derive(Drop)]
pub enum Token {
    /// A name that begins with a capital: of a type or a constructor.
    Upper(Name),
    /// Any other name that is no reserved word: of a function or a variable.
    Lower(Name),
    /// A number in decimal.
    Num(u64),
    /// A reserved word.
    Reserved(ReservedWord),
    /// The type of integers of so many bits, 1 to 64: `u1` to `u64`.
    Uint(u8),
    /// A symbol.
    Symbol(Symbol),
}

/// A token and the byte of the file at which it begins.
#[derive(Drop)]
pub struct Placed {
    pub token: Token,
    pub at: usize,
}

/// All symbols, those of two bytes first.
pub const SYMBOLS: [Symbol; 18] = [
    Symbol::Arrow,
    Symbol::FatArrow,
    Symbol::Equals,
    Symbol::Bar,
    Symbol::OpenParen,
    Symbol::CloseParen,
    Symbol::Comma,
    Symbol::Semicolon,
    Symbol::OpenBrace,
    Symbol::CloseBrace,
    Symbol::Less,
    Symbol::Greater,
    Symbol::Colon,
    Symbol::OpenBracket,
    Symbol::CloseBracket,
    Symbol::Dot,
    Symbol::At,
    Symbol::Underscore,
];

/// All reserved words but `u1` to `u64`.
pub const WORDS: [ReservedWord; 21] = [
    ReservedWord::Type,
    ReservedWord::Layout,
    ReservedWord::Fun,
    ReservedWord::Let,
    ReservedWord::In,
    ReservedWord::Match,
    ReservedWord::Word,
    ReservedWord::Split,
    ReservedWord::Else,
    ReservedWord::Inline,
    ReservedWord::Boxed,
    ReservedWord::Packed,
    ReservedWord::Add,
    ReservedWord::Sub,
    ReservedWord::Mul,
    ReservedWord::And,
    ReservedWord::Or,
    ReservedWord::Xor,
    ReservedWord::Eq,
    ReservedWord::Lt,
    ReservedWord::To,
];

impl ReservedWord {
    /// The bytes that the word is written with.
    pub fn text(self) -> &'static [u8]
        ensures { result.now ≡ word_text self }
    {
        match self {
            ReservedWord::Type => b"type",
            ReservedWord::Layout => b"layout",
            ReservedWord::Fun => b"fun",
            ReservedWord::Let => b"let",
            ReservedWord::In => b"in",
            ReservedWord::Match => b"match",
            ReservedWord::Word => b"word",
            ReservedWord::Split => b"split",
            ReservedWord::Else => b"else",
            ReservedWord::Inline => b"inline",
            ReservedWord::Boxed => b"boxed",
            ReservedWord::Packed => b"packed",
            ReservedWord::Add => b"add",
            ReservedWord::Sub => b"sub",
            ReservedWord::Mul => b"mul",
            ReservedWord::And => b"and",
            ReservedWord::Or => b"or",
            ReservedWord::Xor => b"xor",
            ReservedWord::Eq => b"eq",
            ReservedWord::Lt => b"lt",
            ReservedWord::To => b"to",
        }
    }
}

impl Symbol {
    /// The bytes that the symbol is written with.
    pub fn text(self) -> &'static [u8]
        ensures { result.now ≡ symbol_text self }
    {
        match self {
            Symbol::Equals => b"=",
            Symbol::Bar => b"|",
            Symbol::OpenParen => b"(",
            Symbol::CloseParen => b")",
            Symbol::Comma => b",",
            Symbol::Semicolon => b";",
            Symbol::OpenBrace => b"{",
            Symbol::CloseBrace => b"}",
            Symbol::Less => b"<",
            Symbol::Greater => b">",
            Symbol::Colon => b":",
            Symbol::OpenBracket => b"[",
            Symbol::CloseBracket => b"]",
            Symbol::Dot => b".",
            Symbol::At => b"@",
            Symbol::Arrow => b"->",
            Symbol::FatArrow => b"=>",
            Symbol::Underscore => b"_",
        }
    }
}
