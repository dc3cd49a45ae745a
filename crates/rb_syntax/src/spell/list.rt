//! Lists of parts that hold no part of their own kind.

ghost use Rattle.std.specs.Prelude.{map, OnOk};
ghost use Rattle.rb_syntax.specs.declared.token.Token.TheVariants as tok;
ghost use Rattle.rb_syntax.specs.inner.Backward.{Wrote};
ghost use Rattle.rb_syntax.specs.Written.{Writing, each, each_behind, any_with};

use crate::spell::put_symbol;
use crate::token::{Symbol, Token};
use std::alloc::{AllocError, Global};

/// A part of a file, which is written in front of what follows it.
pub(crate) trait Spell {
    ghost writing: { Self → Writing };

    /// Gathers its tokens, the last first.
    fn put(&self, alloc: Global, out: &mut Vec<Token>) -> Result<(), AllocError>
        ensures { OnOk result (Wrote (writing self.now) out.old.items out.new.items) };
}

/// Puts parts one after the other with nothing between. The last is put first, since tokens are
/// gathered from the end.
pub(crate) fn put_each<T: Spell>(
    alloc: Global,
    out: &mut Vec<Token>,
    parts: &[T],
) -> Result<(), AllocError>
    ensures { OnOk result (Wrote (each (map T.writing parts.now)) out.old.items out.new.items) }
{
    for i in (0..parts.len()).rev() {
        parts[i].put(alloc, out)?;
    }
    Ok(())
}

// Puts parts one after the other, each with the separator before it.
fn put_behind<T: Spell>(
    alloc: Global,
    out: &mut Vec<Token>,
    separator: Symbol,
    parts: &[T],
) -> Result<(), AllocError>
    ensures { OnOk result (Wrote (each_behind (tok.Symbol separator)
        (map T.writing parts.now)) out.old.items out.new.items) }
{
    for i in (0..parts.len()).rev() {
        parts[i].put(alloc, out)?;
        put_symbol(out, separator)?;
    }
    Ok(())
}

/// Puts parts with a separator between, or nothing where there is none.
pub(crate) fn put_list<T: Spell>(
    alloc: Global,
    out: &mut Vec<Token>,
    separator: Symbol,
    parts: &[T],
) -> Result<(), AllocError>
    ensures { OnOk result (Wrote (any_with (tok.Symbol separator)
        (map T.writing parts.now)) out.old.items out.new.items) }
{
    match parts {
        [] => Ok(()),
        [first, others @ ..] => {
            put_behind(alloc, out, separator, others)?;
            first.put(alloc, out)?;
            Ok(())
        }
    }
}
