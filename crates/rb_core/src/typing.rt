//! What typing speaks of: the binders round an expression, and why a program is not typed.

ghost use Rattle.std.specs.Prelude.{◌≡◌};
ghost use Rattle.rb_core.specs.declared.typing.TypeFault.TheVariants.{Memory};

use crate::types::Ty;
use std::alloc::AllocError;
use thiserror::Error;

/// A variable in scope: its number and its type.
#[derive(Clone, Copy, PartialEq, Eq)]
pub struct Binder {
    pub var: u32,
    pub ty: Ty,
}

/// Why a program is not typed, or that this could not be found out. Places are token numbers.
#[derive(Debug, Drop, Error)]
pub enum TypeFault {
    /// The type with this number has no finite value.
    #[error("a type has no value")]
    Empty(u32),
    /// At this token the first type was wanted, and the second found.
    #[error("another type is wanted")]
    Mismatch(u32, Ty, Ty),
    /// At this token so many parts were wanted, and so many found.
    #[error("another number of arguments is wanted")]
    Arity(u32, u64, u64),
    /// At this token a variable stands for the second time in one pattern or parameter list.
    #[error("a variable stands twice")]
    VariableTwice(u32),
    /// Want of memory.
    #[error("no memory")]
    Memory,
}

impl From<AllocError> for TypeFault {
    ghost from_gives = { λ e r. r ≡ Memory };

    // Want of memory as a fault, which says nothing of the program.
    fn from(_: AllocError) -> TypeFault {
        TypeFault::Memory
    }
}
