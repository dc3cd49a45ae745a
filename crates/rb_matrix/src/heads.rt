//! The heads that stand in a first column, gathered one row after another. A head is a number or a
//! constructor with which a pattern begins. Two heads are alike where they are the same number, or
//! constructors with the same number in their types: the same values of a type begin with them.

ghost use Rattle.std.specs.Prelude.{◌≡◌, ◌+◌, ◌≤◌, ◌||◌, length, IfOk, OnOk, OnErr};
ghost use Rattle.rb_core.specs.declared.value.Value as Values;
ghost use Rattle.rb_core.specs.declared.value.Value.TheOpen as Layers;
ghost use Rattle.rb_matrix.specs.Heads.{layer_begins, any_begins, option_begins, row_head, sample, some_head};
ghost use Rattle.rb_matrix.specs.inner.Groups.{key_of_head as the_key};
ghost use Rattle.rb_matrix.specs.Known.{with_head, AreHeadsOf};

use crate::head_set::HeadSet;
use crate::matrix::Head;
use rb_core::pattern::Pat;
use std::alloc::{AllocError, Global};

/// The head of a row's first pattern; None where that is a wildcard or a variable, or the row is
/// empty.
pub fn head_of_row(row: &[Pat]) -> Option<Head>
    ensures { result ≡ row_head row.now }
{
    match row {
        [] => None,
        [first, ..] => match first {
            Pat::Wild(_) => None,
            Pat::Var(_, _) => None,
            Pat::Num(_, number) => Some(Head::Num(*number)),
            Pat::Con(_, con, _) => Some(Head::Con(*con)),
        },
    }
}

/// A head's key: the number that it is, or that of the constructor in its type. Heads alike have
/// the same.
pub(crate) fn key_of_head(head: Head) -> u64
    ensures { result ≡ the_key head }
{
    match head {
        Head::Num(number) => number,
        Head::Con(con) => u64::from(con.con),
    }
}

// Whether two heads are alike: the same number, or constructors with the same number in their
// types.
fn is_alike(known: Head, head: Head) -> bool
    ensures { result ≡ layer_begins known (sample head) }
{
    match known {
        Head::Num(m) => match head {
            Head::Num(n) => m == n,
            Head::Con(_) => false,
        },
        Head::Con(c) => match head {
            Head::Num(_) => false,
            Head::Con(d) => c.con == d.con,
        },
    }
}

/// Whether one of the known heads is like this one: the same number, or a constructor with the same
/// number in its type. Where no head is known, none is.
pub fn is_known(known: &[Head], head: Head) -> bool
    ensures { result ≡ any_begins known.now (sample head) }
{
    for other in known {
        if is_alike(*other, head) {
            return true;
        }
    }
    false
}

/// The set of some heads.
///
/// # Errors
///
/// Want of memory.
pub(crate) fn set_of(alloc: Global, heads: &[Head]) -> Result<HeadSet, AllocError>
    ensures { IfOk result (λ s. AreHeadsOf s heads.now) }
{
    let mut set = HeadSet::new(alloc);
    for head in heads {
        set.insert(*head)?;
    }
    Ok(set)
}

/// Adds a head behind those known, unless one like it is known; None adds nothing. The known heads
/// also stand in a set, which grows along, so that thousands of them are not compared with each
/// other.
///
/// # Errors
///
/// Want of memory; the heads are then as they were, and the set is theirs.
pub fn add_head(
    heads: &mut Vec<Head>,
    known: &mut HeadSet,
    head: Option<Head>,
) -> Result<(), AllocError>
    requires { AreHeadsOf known.old heads.old.items }
    ensures heads { OnOk result ((l : Layers.Value-F Values.Value)
        → any_begins heads.new.items l ≡ (any_begins heads.old.items l || option_begins head l)) }
    ensures few { OnOk result (length heads.new.items ≤ length heads.old.items + some_head head) }
    ensures known { AreHeadsOf known.new heads.new.items }
    ensures order { OnOk result (heads.new.items ≡ with_head heads.old.items head) }
    ensures err { OnErr result (heads.new.items ≡ heads.old.items) }
{
    let Some(head) = head else {
        return Ok(());
    };
    if known.contains(head) {
        return Ok(());
    }
    // With the room made first, the push behind the set's cannot fail.
    heads.reserve(1)?;
    known.insert(head)?;
    heads.push(head)?;
    Ok(())
}
