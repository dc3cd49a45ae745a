//! Why a tree has no program.

ghost use Rattle.std.specs.Prelude.{◌≡◌, Ok, Err};
ghost use Rattle.rb_names.specs.declared.fault.NameFault.TheVariants as fault;
ghost use Rattle.rb_names.specs.Answers.{AnswersNumbering};
ghost use Rattle.rb_names.specs.Numbering as numbering;

use rb_core::types::Name;
use rb_syntax::tree::NameTree;
use std::alloc::{AllocError, AllocFailed, Global};
use thiserror::Error;

/// Why a tree has no program. Places are token numbers.
#[derive(Debug, Drop, Error)]
pub enum NameFault {
    /// The name was defined before in its table, or its type has a layout before this one, written or
    /// left to the compiler.
    #[error("a name is defined twice")]
    Twice(Name, u32),
    /// The name is not defined; as a variable, it is not bound round its place.
    #[error("unknown name")]
    Unknown(Name, u32),
    /// No function is called `main`.
    #[error("no function main")]
    NoMain,
    /// Want of memory.
    #[error("no memory")]
    Memory,
}

impl From<AllocError> for NameFault {
    ghost from_gives = { λ _ e. e ≡ fault.Memory };

    fn from(_e: AllocError) -> NameFault {
        NameFault::Memory
    }
}

impl<T: Drop> From<AllocFailed<T>> for NameFault {
    ghost from_gives = { λ _ e. e ≡ fault.Memory };

    fn from(_e: AllocFailed<T>) -> NameFault {
        NameFault::Memory
    }
}

/// What the name stands for, if that was found; else, where `found` is None, the fault that the
/// name is unknown at its place, or want of memory.
pub(crate) fn known_or_fault<T: Copy>(
    alloc: Global,
    name: &NameTree,
    found: Option<T>,
) -> Result<T, NameFault>
    ensures { AnswersNumbering result (numbering.name_found name.now found) }
{
    match found {
        Some(meaning) => Ok(meaning),
        None => {
            let text = name.text.copy(alloc)?;
            Err(NameFault::Unknown(text, name.at))
        }
    }
}

/// The number, from 0, of what stands behind `len` others: `len`. There is no memory for 2^32 of
/// them.
pub(crate) fn number_behind(len: usize) -> Result<u32, NameFault>
    ensures { AnswersNumbering result (Ok len) }
{
    match u32::try_from(len) {
        Ok(number) => Ok(number),
        Err(_) => Err(NameFault::Memory),
    }
}
