//! Reads parts that stand one after the other.
//!
//! They are read from the front of the tokens that are left, `placed`, and handed on with those
//! behind them. Whether one begins there is told by `begins`, and one is taken by `read`: the
//! clause holds for each test and each reader that these follow.

ghost use Rattle.std.specs.Prelude.{Bool};
ghost use Rattle.rb_syntax.specs.declared.token.Token.{Token};
ghost use Rattle.rb_syntax.specs.Tokens.{tokens};
ghost use Rattle.rb_read.specs.inner.Combining as combining;
ghost use Rattle.rb_read.specs.inner.Combining.{Reader};
ghost use Rattle.rb_read.specs.inner.Gives.{Gives, Reads, Tests};

use crate::stop::Stop;
use rb_core::seq::Seq;
use rb_syntax::token::Placed;
use std::alloc::Global;

/// Parts one after the other, as long as the first token `begins` one, each taken by `read`, with
/// the tokens behind them. There may be none.
///
/// # Errors
///
/// Where `read` stops; or want of memory.
pub(crate) fn read_each<
    'a,
    T: Drop,
    B: Fn(&'a [Placed]) -> bool,
    F: Fn(&'a [Placed]) -> Result<(T, &'a [Placed]), Stop>,
>(alloc: Global, begins: B, read: F, placed: &'a [Placed]) -> Result<(Seq<T>, &'a [Placed]), Stop>
    requires told { B.IsAlwaysCallable begins }
    requires taken { F.IsAlwaysCallable read }
    ensures { (test : Token → Bool) (part : Reader T) → Tests test (B.post begins) → Reads part (F.post read)
        → Gives (λ x. (x.0, tokens x.1.now)) result (combining.each_of test part (tokens placed.now)) }
{
    let mut parts = Seq::new(alloc);
    let mut rest = placed;
    for _turn in 0..placed.len() {
        if !begins(rest) {
            return Ok((parts, rest));
        }
        let (part, behind) = read(rest)?;
        parts.push(part)?;
        rest = behind;
    }
    Ok((parts, rest))
}
