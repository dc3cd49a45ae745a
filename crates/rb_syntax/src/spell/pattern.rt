//! Patterns.

ghost use Rattle.std.specs.Prelude.{◌≡◌, ◌∷◌, ℕ, map, OnOk};
ghost use Rattle.rb_syntax.specs.inner.Backward.{Wrote};
ghost use Rattle.rb_syntax.specs.Spelling.{pat_written, fields_written, at_level};

use crate::spell::{put_lower, put_num, put_symbol, put_upper};
use crate::token::{Symbol, Token};
use crate::tree::PatTree;
use std::alloc::{AllocError, Global};

/// Puts a pattern in front of what was put before it.
#[cycle(pattern)]
pub(crate) fn put_pat(alloc: Global, out: &mut Vec<Token>, pat: &PatTree) -> Result<(), AllocError>
    ensures { OnOk result ((l : ℕ) → Wrote (pat_written pat.now l) out.old.items out.new.items) }
{
    match pat {
        PatTree::Wild(_) => put_symbol(out, Symbol::Underscore),
        PatTree::Var(_, name) => put_lower(alloc, out, name),
        PatTree::Num(_, n) => put_num(out, *n),
        PatTree::Con(_, name, pats) => match pats.as_slice() {
            [] => put_upper(alloc, out, name),
            [first, others @ ..] => {
                put_subpats(alloc, out, pats.as_slice(), first, others)?;
                put_upper(alloc, out, name)?;
                Ok(())
            }
        },
    }
}

// Puts the subpatterns of a constructor's pattern in parentheses: `first`, then the `others`.
#[cycle(pattern)]
fn put_subpats(
    alloc: Global,
    out: &mut Vec<Token>,
    pats: &[PatTree],
    first: &PatTree,
    others: &[PatTree],
) -> Result<(), AllocError>
    requires { pats.now ≡ first.now ∷ others.now }
    ensures { OnOk result ((l : ℕ) → Wrote (fields_written
        (at_level l (map pat_written pats.now))) out.old.items out.new.items) }
{
    put_symbol(out, Symbol::CloseParen)?;
    for i in (0..others.len()).rev() {
        put_pat(alloc, out, &others[i])?;
        put_symbol(out, Symbol::Comma)?;
    }
    put_pat(alloc, out, first)?;
    put_symbol(out, Symbol::OpenParen)?;
    Ok(())
}
