//! Why a type has no layout of the kind that is asked for.

ghost use Rattle.std.specs.Prelude.{◌≡◌};
ghost use Rattle.rb_auto.specs.declared.fault.AutoFault.TheVariants as Faults;

use std::alloc::AllocError;

/// Why no layout is derived for a type.
#[derive(Debug, Drop, thiserror::Error)]
pub enum AutoFault {
    /// The type with this number is to be packed, and reaches itself through its fields.
    #[error("a packed type reaches itself")]
    PackedRecursive(u32),
    /// The type with this number is to be packed, and needs so many bits, over 64.
    #[error("a packed type needs over 64 bits")]
    PackedWide(u32, u64),
    /// Want of memory.
    #[error("no memory")]
    Memory,
}

impl From<AllocError> for AutoFault {
    ghost from_gives = { λ e r. r ≡ Faults.Memory };

    fn from(_error: AllocError) -> AutoFault {
        AutoFault::Memory
    }
}
