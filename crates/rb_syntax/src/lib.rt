//! Tokens of files, trees of what is written, and how trees are spelled.
//!
//! A text is cut into its longest pieces: a blank or a comment, a symbol, or a run of letters, digits and
//! underscores. What is left without the blanks and comments are its tokens, each with the byte at which it
//! begins. `type T = A(u8); // one` has eight, and `types` would be one name, not the word `type` and an `s`:
//!
//! ```text
//! byte     0      5    7    9    10   11   13   14
//! token    type   T    =    A    (    u8   )    ;
//! ```
//!
//! At each byte the first byte of the piece says of which kind it is, so a text is cut in one pass. The
//! first byte at which no piece begins or goes on is the fault. What comes before it can be had too, by
//! [`front`].
//!
//! A tree is what is written, with its names as they are spelled and with the number of the token at which
//! each part begins; it has one spelling. The spelling is put together last token first, and turned round at
//! the end: then each part is written in front of what follows it, and nothing is copied.
#![tactic(auto)]

pub mod bytes;
pub mod front;
pub mod lex;
pub mod piece;
pub mod spell;
pub mod token;
pub mod tree;
pub mod words;
