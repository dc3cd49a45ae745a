//! Layouts of types whose file leaves them to the compiler. `kinds` says for each type, by its
//! number, which layout is derived for it, boxed or packed, if any; `rooms` says how wide its word
//! is then. A type is refused where it is to be packed and cannot be.

ghost use Rattle.std.specs.Prelude.{◌≡◌, length, IsSome, slice_get};
ghost use Rattle.rb_auto.specs.Answers.{AnswersDerived, IsDerivedAnswer, answer, packed_answer, packed_fit};
ghost use Rattle.rb_auto.specs.Rooms.{AreTheRooms, kind_of};

use crate::derived::{cons_of, layout_by_form};
use crate::fault::AutoFault;
use crate::form::Form;
use crate::room::{Room, WORD_BITS};
use crate::rooms::{find_rooms, kind_of, tag_bits};
use rb_core::layout_decl::LayoutDecl;
use rb_core::program::Program;
use rb_core::types::Auto;
use std::alloc::Global;

// The layout of a packed type `ty` that doesn't reach itself through fields and needs so many bits:
// it is refused where they are over 64, and its word has at least one. An `Err` is the refusal, or
// want of memory.
fn packed_fit(
    alloc: Global,
    program: &Program,
    rooms: &[Room],
    ty: u32,
    bits: u64,
) -> Result<LayoutDecl, AutoFault>
    ensures { AnswersDerived result (packed_fit program.now rooms.now ty bits) }
{
    if bits > WORD_BITS {
        return Err(AutoFault::PackedWide(ty, bits));
    }
    let form = Form::Packed {
        tag: tag_bits(cons_of(program.types.as_slice(), ty).len()),
        width: bits.max(1),
    };
    let decl = layout_by_form(alloc, program, rooms, ty, form)?;
    Ok(decl)
}

// The layout of a packed type, by its room: it is refused where it reaches itself through fields or
// needs over 64 bits. No room, or one that no packed type has, meets want of memory.
fn packed_layout(
    alloc: Global,
    program: &Program,
    rooms: &[Room],
    ty: u32,
) -> Result<LayoutDecl, AutoFault>
    ensures { AnswersDerived result
        (packed_answer program.now rooms.now ty (slice_get rooms.now ty)) }
{
    match rooms.get(ty as usize) {
        None => Err(AutoFault::Memory),
        Some(Room::Word) => Err(AutoFault::Memory),
        Some(Room::Recursive) => Err(AutoFault::PackedRecursive(ty)),
        Some(Room::Bits(bits)) => packed_fit(alloc, program, rooms, ty, *bits),
    }
}

/// The layout of a type for which one is derived, by the rooms that `find_rooms` gives: who derives
/// several layouts of a program finds the rooms once.
///
/// # Errors
///
/// `PackedRecursive` exactly where the type is to be packed and reaches itself through fields, and
/// `PackedWide` exactly where it doesn't and needs over 64 bits. `Memory` for want of memory, or where
/// no layout is to be derived for the type.
pub fn derive_by(
    alloc: Global,
    program: &Program,
    kinds: &[Option<Auto>],
    rooms: &[Room],
    ty: u32,
) -> Result<LayoutDecl, AutoFault>
    requires { AreTheRooms program.now kinds.now rooms.now }
    ensures { AnswersDerived result (answer program.now kinds.now rooms.now ty) }
{
    match kind_of(kinds, ty) {
        None => Err(AutoFault::Memory),
        Some(Auto::Packed) => packed_layout(alloc, program, rooms, ty),
        Some(Auto::Boxed) => {
            let decl = layout_by_form(alloc, program, rooms, ty, Form::Boxed)?;
            Ok(decl)
        }
    }
}

/// The layout of a type for which one is derived; `kinds` says for each type which, if any. The layouts
/// of the program are those that are written.
///
/// # Errors
///
/// `PackedRecursive` exactly where the type is to be packed and reaches itself through fields, and
/// `PackedWide` exactly where it doesn't and needs over 64 bits. `Memory` for want of memory.
pub fn derive(
    alloc: Global,
    program: &Program,
    kinds: &[Option<Auto>],
    ty: u32,
) -> Result<LayoutDecl, AutoFault>
    requires count { length kinds.now ≡ length program.now.types }
    requires kind { IsSome (kind_of kinds.now ty) }
    ensures { IsDerivedAnswer program.now kinds.now ty result }
{
    let rooms = find_rooms(alloc, program, kinds)?;
    derive_by(alloc, program, kinds, rooms.as_slice(), ty)
}
