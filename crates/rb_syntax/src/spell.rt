//! Spelling a tree: its tokens are gathered last first, since a tree is written in front of what
//! follows it, and turned round at the end.

ghost use Rattle.std.specs.Prelude.{◌∷◌, OnOk};
ghost use Rattle.rb_syntax.specs.declared.token.Token.TheVariants as tok;
ghost use Rattle.rb_syntax.specs.Written as written;
ghost use Rattle.rb_syntax.specs.inner.Backward.{Wrote};
ghost use Rattle.rb_syntax.specs.Spelling.{ty_written, upper_written, lower_written, uint_written};

mod expression;
mod file;
mod layout;
mod list;
mod pattern;
mod split;

use crate::token::{ReservedWord, Symbol, Token};
use crate::tree::{NameTree, TyTree};
pub use file::spell_file;
use std::alloc::{AllocError, Global};

/// Puts one token in front of what was put before it: the last of `out` stands first in the text.
pub(crate) fn put(out: &mut Vec<Token>, token: Token) -> Result<(), AllocError>
    ensures { OnOk result (Wrote (λ rest. written.token token ∷ rest) out.old.items out.new.items) }
{
    out.push(token)?;
    Ok(())
}

/// Puts a symbol in front of what was put before it.
pub(crate) fn put_symbol(out: &mut Vec<Token>, symbol: Symbol) -> Result<(), AllocError>
    ensures { OnOk result (Wrote (λ rest. written.token (tok.Symbol symbol) ∷ rest) out.old.items out.new.items) }
{
    put(out, Token::Symbol(symbol))
}

/// Puts a reserved word in front of what was put before it.
pub(crate) fn put_word(out: &mut Vec<Token>, word: ReservedWord) -> Result<(), AllocError>
    ensures { OnOk result (Wrote (λ rest. written.token (tok.Reserved word) ∷ rest) out.old.items out.new.items) }
{
    put(out, Token::Reserved(word))
}

/// Puts a number in decimal in front of what was put before it.
pub(crate) fn put_num(out: &mut Vec<Token>, n: u64) -> Result<(), AllocError>
    ensures { OnOk result (Wrote (λ rest. written.token (tok.Num n) ∷ rest) out.old.items out.new.items) }
{
    put(out, Token::Num(n))
}

/// Puts the type of integers of so many bits in front of what was put before it. The grammar
/// has a form for 1 to 64 alone, but the token is put for any number.
pub(crate) fn put_uint(out: &mut Vec<Token>, bits: u8) -> Result<(), AllocError>
    ensures { OnOk result (Wrote (uint_written bits) out.old.items out.new.items) }
{
    put(out, Token::Uint(bits))
}

/// Puts the name of a type or a constructor in front of what was put before it.
pub(crate) fn put_upper(
    alloc: Global,
    out: &mut Vec<Token>,
    name: &NameTree,
) -> Result<(), AllocError>
    ensures { OnOk result (Wrote (upper_written name.now) out.old.items out.new.items) }
{
    let text = name.text.copy(alloc)?;
    put(out, Token::Upper(text))
}

/// Puts the name of a function or a variable in front of what was put before it.
pub(crate) fn put_lower(
    alloc: Global,
    out: &mut Vec<Token>,
    name: &NameTree,
) -> Result<(), AllocError>
    ensures { OnOk result (Wrote (lower_written name.now) out.old.items out.new.items) }
{
    let text = name.text.copy(alloc)?;
    put(out, Token::Lower(text))
}

/// Puts a type in front of what was put before it: that of integers of so many bits, or a data type
/// by its name.
pub(crate) fn put_ty(alloc: Global, out: &mut Vec<Token>, ty: &TyTree) -> Result<(), AllocError>
    ensures { OnOk result (Wrote (ty_written ty.now) out.old.items out.new.items) }
{
    match ty {
        TyTree::Int(bits) => put_uint(out, *bits),
        TyTree::Named(name) => put_upper(alloc, out, name),
    }
}
