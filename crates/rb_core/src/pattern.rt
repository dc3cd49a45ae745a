//! Patterns. A variable is known by its number as a binder, and a token number says where in the
//! file a pattern begins.

ghost use Rattle.std.specs.Prelude.{◌≡◌, IfOk};

use crate::seq::Seq;
use crate::types::ConRef;
use std::alloc::{AllocError, Global};

/// A pattern. The first number of each form is that of its first token.
#[derive(Debug, Drop)]
pub enum Pat {
    /// Matches every value.
    Wild(u32),
    /// Matches every value, and binds the variable with this number to it.
    Var(u32, u32),
    /// Matches this number alone.
    Num(u32, u64),
    /// Matches the constructions by this constructor whose fields the subpatterns match, one each.
    Con(u32, ConRef, Seq<Pat>),
}

impl Pat {
    /// An equal pattern. The call nests as deep as the pattern.
    ///
    /// # Errors
    ///
    /// Want of memory.
    #[cycle(copying)]
    pub fn copy(&self, alloc: Global) -> Result<Pat, AllocError>
        ensures { IfOk result (λ p. p ≡ self.now) }
    {
        match self {
            Pat::Wild(at) => Ok(Pat::Wild(*at)),
            Pat::Var(at, var) => Ok(Pat::Var(*at, *var)),
            Pat::Num(at, n) => Ok(Pat::Num(*at, *n)),
            Pat::Con(at, con, pats) => {
                let copies = copy_patterns(alloc, pats.as_slice())?;
                Ok(Pat::Con(*at, *con, copies))
            }
        }
    }
}

/// Equal patterns, in their order. The call nests as deep as the deepest of them.
///
/// # Errors
///
/// Want of memory.
#[cycle(copying)]
pub fn copy_patterns(alloc: Global, pats: &[Pat]) -> Result<Seq<Pat>, AllocError>
    ensures { IfOk result (λ copies. copies ≡ pats.now) }
{
    let mut copies = Seq::new(alloc);
    for pat in pats {
        copies.push(pat.copy(alloc)?)?;
    }
    Ok(copies)
}
