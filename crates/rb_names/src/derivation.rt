//! Layouts that are derived, one type after the other. A derived layout is one that the file leaves
//! to the compiler; `kinds` says for each type, by its number, which it is, boxed or packed, if
//! any. `rooms` says for each type how wide its word is where its layout is derived. A refusal says
//! why a type gets no layout.

ghost use Rattle.std.specs.Prelude.{◌≡◌, Some, IfOk, OnOk};
ghost use Rattle.std.specs.Option.{option_or};
ghost use Rattle.rb_auto.specs.Rooms.{AreTheRooms};
ghost use Rattle.rb_names.specs.inner.Deriving.{IsAllDerived, IsNext};

use rb_auto::room::Room;
use rb_auto::rooms::find_rooms;
use rb_auto::{AutoFault, derive_by};
use rb_core::layout_decl::LayoutDecl;
use rb_core::program::Program;
use rb_core::seq::Seq;
use rb_core::types::Auto;
use std::alloc::{AllocError, Global};

/// The layouts that were derived, and the first refusal.
#[derive(Drop)]
pub struct Derived {
    pub layouts: Seq<LayoutDecl>,
    pub refused: Option<AutoFault>,
}

impl Derived {
    // Keeps the refusal, if it is the first: a later one is dropped.
    fn refuse(&mut self, refusal: AutoFault)
        ensures layouts { self.new.layouts ≡ self.old.layouts }
        ensures refused { self.new.refused ≡ option_or self.old.refused (Some refusal) }
    {
        if self.refused.is_none() {
            self.refused = Some(refusal);
        }
    }
}

/// What is derived for these types, in their order. The layouts of the program are those that are
/// written, and `kinds` says for each type which layout is derived for it, if any.
///
/// # Errors
///
/// Want of memory.
pub fn derive_all(
    alloc: Global,
    program: &Program,
    kinds: &[Option<Auto>],
    types: &[u32],
) -> Result<Derived, AllocError>
    ensures { IfOk result (IsAllDerived program.now kinds.now types.now) }
{
    let rooms = find_rooms(alloc, program, kinds)?;
    let mut derived = Derived {
        layouts: Seq::new(alloc),
        refused: None,
    };
    for ty in types {
        derive_next(alloc, program, kinds, rooms.as_slice(), *ty, &mut derived)?;
    }
    Ok(derived)
}

// Derives the layout of one more type, `ty`: it goes behind the others in `derived`, or its refusal
// is kept, if it is the first. An `Err` is want of memory.
fn derive_next(
    alloc: Global,
    program: &Program,
    kinds: &[Option<Auto>],
    rooms: &[Room],
    ty: u32,
    derived: &mut Derived,
) -> Result<(), AllocError>
    requires { AreTheRooms program.now kinds.now rooms.now }
    ensures { OnOk result (IsNext program.now kinds.now ty derived.old derived.new) }
{
    match derive_by(alloc, program, kinds, rooms, ty) {
        Ok(layout) => derived.layouts.push(layout),
        Err(AutoFault::PackedRecursive(ty)) => {
            derived.refuse(AutoFault::PackedRecursive(ty));
            Ok(())
        }
        Err(AutoFault::PackedWide(ty, bits)) => {
            derived.refuse(AutoFault::PackedWide(ty, bits));
            Ok(())
        }
        Err(AutoFault::Memory) => Err(AllocError),
    }
}
