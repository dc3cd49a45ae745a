//! What a match needs beside its code. An arm is the code of one clause. It leaves its value in
//! slots that all arms share, and ends in an open jump: its target, where all arms meet, is set
//! when all stand. A value is held where it stands in slots, a word each.

ghost use Rattle.std.specs.Prelude.{◌≡◌, ◌++◌, map, IfOk, OnOk};
ghost use Rattle.rb_core.specs.Clauses.{pat_of};
ghost use Rattle.rb_compile.specs.inner.Arms.{wanted_in};

use rb_core::expression::Clause;
use rb_core::pattern::Pat;
use rb_core::seq::Seq;
use rb_core::types::Ty;
use rb_fragment::held::{Held, Local};
use rb_target::body::Hole;
use std::alloc::{AllocError, Global};

/// Arms, one behind the other: where they leave their values, which is None before the first arm,
/// their open jumps, and the number of the first instruction of each.
#[derive(Drop)]
pub(crate) struct Arms {
    pub into: Option<Held>,
    pub joins: Seq<Hole>,
    pub starts: Seq<usize>,
}

/// The patterns of clauses, in their order.
pub(crate) fn patterns(alloc: Global, clauses: &[Clause]) -> Result<Seq<Pat>, AllocError>
    ensures { IfOk result (λ pats. pats ≡ map pat_of clauses.now) }
{
    let mut pats = Seq::new(alloc);
    for clause in clauses {
        pats.push(clause.pat.copy(alloc)?)?;
    }
    Ok(pats)
}

/// The type that is wanted of the next arm: where none stands yet, what is wanted of the match,
/// which may be None; then the type of what the arms before it left in `into`.
pub(crate) fn next_wanted(wanted: Option<Ty>, into: &Option<Held>) -> Option<Ty>
    ensures { result ≡ wanted_in wanted into.now }
{
    match into {
        None => wanted,
        Some(held) => Some(held.ty),
    }
}

/// Adds what a pattern binds to the variables that are bound before it. An error is want of memory.
pub(crate) fn extend(locals: &mut Seq<Local>, bound: Seq<Local>) -> Result<(), AllocError>
    ensures { OnOk result (locals.new ≡ locals.old ++ bound) }
{
    match locals.append(bound) {
        None => Ok(()),
        Some(_) => Err(AllocError),
    }
}
