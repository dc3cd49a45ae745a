//! Why layouts are not agreed. A rule is asked at places: a type, a leaf of its layout, or an item
//! of the leaf.

ghost use Rattle.std.specs.Prelude.{◌≡◌};
ghost use Rattle.rb_agree.specs.declared.fault.AgreeFault.TheVariants as Faults;

use rb_layout::evidence::Refused;
use std::alloc::AllocError;

/// Why a program's layouts are not found to agree with its types.
#[derive(Debug, Drop, thiserror::Error)]
pub enum AgreeFault {
    /// A rule fails, first at this place, and why.
    #[error("a layout breaks a rule")]
    Rule(Refused),
    /// Want of memory.
    #[error("no memory")]
    Memory,
}

impl From<AllocError> for AgreeFault {
    ghost from_gives = { λ e r. r ≡ Faults.Memory };

    fn from(_error: AllocError) -> AgreeFault {
        AgreeFault::Memory
    }
}
