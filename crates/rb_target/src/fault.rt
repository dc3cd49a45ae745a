//! Why bytes are no code.

ghost use Rattle.std.specs.Prelude.{◌≡◌};
ghost use Rattle.rb_target.specs.declared.fault.CodeFault.TheVariants.{Memory};

use std::alloc::AllocError;
use thiserror::Error;

/// Bytes that spell no functions, functions that aren't valid together, or want of memory. Where
/// two numbers stand, they are those of the function among all and of its instruction, both counted
/// from 0.
#[derive(Clone, Copy, Debug, Drop, Error)]
pub enum CodeFault {
    /// The index of the byte from which on no text of functions goes on.
    #[error("bytes that spell no code")]
    CodeSyntax(usize),
    /// Fewer slots than parameters, or more beyond them than the body names as written, both at
    /// instruction 0; or a slot that the function hasn't got.
    #[error("a slot or a number of slots that doesn't fit")]
    BadSlot(u64, u64),
    /// A target that is no later instruction of the body; or, at its last instruction or at 0, a
    /// body that doesn't end in a return.
    #[error("a jump that leads nowhere")]
    BadJump(u64, u64),
    /// A call of no function, or whose numbers of results and words aren't its callee's; or a
    /// return of another number of words than the function has results.
    #[error("a call or a return that doesn't fit")]
    BadCall(u64, u64),
    /// Want of memory, which says nothing of the bytes.
    #[error("no memory")]
    Memory,
}

impl From<AllocError> for CodeFault {
    ghost from_gives = { λ _ e. e ≡ Memory };

    /// Want of memory is told as such.
    fn from(_e: AllocError) -> CodeFault {
        CodeFault::Memory
    }
}
