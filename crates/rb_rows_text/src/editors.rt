//! The reserved words of the syntax files. Written by editors/make from editors/words.

/// All of them, with blanks between, in the order in which the lexer lists them.
pub const RESERVED: &[u8] =
    b"type layout fun let in match word split else inline boxed packed add sub mul and or xor eq lt to";
