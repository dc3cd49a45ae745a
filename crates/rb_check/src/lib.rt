//! The checker of types: whether a program is typed, or the first fault that it has; and of coverage:
//! which clauses of its matches no value reaches, or the first match that misses a value.
//!
//! An expression is typed at a wanted type or none, as in bidirectional typing (Pierce and Turner,
//! "Local Type Inference", 2000). Take `fun f(n: u8): u16 = let m: u16 = to u16(n) in add(m, 1000);`:
//!
//! ```text
//! expression     wanted    found
//! to u16(n)      u16       u16
//! n              none      u8, an integer, as it has to be
//! add(m, 1000)   u16       u16
//! m              u16       u16
//! 1000           u16       u16, the type of the first operand, which holds it
//! ```
//!
//! Of `add(n, 1000)` where a `u8` is wanted the number is at fault: `u8` is wanted, and the least type that
//! holds it is `u10`. Each call here answers exactly what the definition of typing in `rb_core` gives. No
//! call recurses deeper than expressions, patterns and layouts are nested.
//!
//! Coverage goes match by match, in the file's order, by the matrix of the match's patterns: what
//! `rb_matrix` finds that no row matches is missed, and a row that nothing reaches is noted.
#![tactic(auto)]

ghost use Rattle.std.specs.Prelude.{OnOk, IfErr, IsOkUnless};
ghost use Rattle.rb_core.specs.declared.typing.TypeFault.TheVariants.{Memory};
ghost use Rattle.rb_core.specs.TypedPrograms.{IsFirstFault, IsTyped};
ghost use Rattle.rb_core.specs.WellNumbered.{IsWellNumbered};

mod coverage;
mod emptiness;
mod expression;
mod pattern;
mod program;
mod sites;
mod types;

pub use crate::coverage::{CoverFault, cover};
use crate::emptiness::first_empty;
use crate::program::check_rules;
use rb_core::program::Program;
pub use rb_core::typing::TypeFault;
use std::alloc::Global;

/// Whether a program is typed; then each of its types has a value.
///
/// # Errors
///
/// The first fault: `Empty` for the first type without a value, else the first `Mismatch`, `Arity`
/// or `VariableTwice`, through the layouts' provenances and then the functions. `Memory` for want of
/// memory, which says nothing of the program.
pub fn check(alloc: Global, program: &Program) -> Result<(), TypeFault>
    requires { IsWellNumbered program.now }
    ensures typed { OnOk result (IsTyped program.now) }
    ensures refused { IfErr result (IsFirstFault program.now) }
    ensures complete { IsTyped program.now → IsOkUnless result Memory }
{
    if let Some(t) = first_empty(alloc, program.types.as_slice())? {
        return Err(TypeFault::Empty(t as u32));
    }
    check_rules(alloc, program)
}
