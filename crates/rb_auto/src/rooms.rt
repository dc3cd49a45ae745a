//! The rooms of a program's types.
//!
//! A room says how wide the word of a type is where its layout is derived. Of a packed type that
//! reaches itself through fields it says that. Another packed type needs the bits of its tag, the
//! constructor's number, and of its longest constructor, which are known once those of its fields'
//! types are. So the types are gone over until all are known. Take `type Rgb = Gray(Byte) |
//! Full(u5, u6, u5)` and `type Byte = B(u8)`, both packed. First `Byte` comes to 8 bits, then `Rgb`
//! to 1 and the greater of 8 and 16, so 17.
//!
//! `kinds` says for each type, by its number, which layout is derived for it, boxed or packed, if
//! any. `settled` has for each type its room, or None where that is not known yet. An `Err` is want
//! of memory.

ghost use Rattle.std.specs.Prelude.{◌≡◌, List, Option, Some, IfOk, IfSome, OnOk, map, sum_by};
ghost use Rattle.rb_core.specs.declared.types.Auto.{Auto as Kind};
ghost use Rattle.rb_auto.specs.declared.room.Room.{Room as TheRoom};
ghost use Rattle.rb_auto.specs.Rooms.{AreTheRooms, kind_of};
ghost use Rattle.rb_auto.specs.Widths.{con_width, counted_width, field_width, greatest, need, tag_bits};
ghost use Rattle.rb_auto.specs.inner.Graphs.{field_graph};
ghost use Rattle.rb_auto.specs.inner.Settling.{AreSettled, ExtendsSettled, IsFirst};

use crate::derived::cons_of;
use crate::recursion::{field_graph, is_recursive};
use crate::room::{Room, counted_bits, room_width};
use rb_core::program::Program;
use rb_core::seq::Seq;
use rb_core::types::{Auto, Con, Ty};
use rb_layout::decls::decl_of;
use rb_layout::numbers::number_of;
use std::alloc::{AllocError, Global};

/// The least number of bits that tell so many constructors apart; 63 where they are over 2^63.
pub(crate) fn tag_bits(count: usize) -> u64
    ensures { result ≡ tag_bits count }
{
    for bits in 0..63u64 {
        if count as u64 <= 1 << bits {
            return bits;
        }
    }
    63
}

// The sum of the widths of a written shape, as they count; None where it is 2^64 or more.
fn shape_width(shape: &[u64]) -> Option<u64>
    ensures { IfSome result (λ bits. bits ≡ sum_by counted_width shape.now) }
{
    let mut bits: u64 = 0;
    for width in shape {
        bits = bits.checked_add(counted_bits(*width))?;
    }
    Some(bits)
}

// How many bits all words of a field of this type have, where the room of its type is known or not
// needed; None where it isn't, or the number is too great.
fn field_width(program: &Program, settled: &[Option<Room>], ty: Ty) -> Option<u64>
    ensures { IfSome result (λ bits. (rooms : List TheRoom)
        → ExtendsSettled settled.now rooms → bits ≡ field_width program.now rooms ty) }
{
    match ty {
        Ty::Int(bits) => Some(bits as u64),
        Ty::Named(ty) => match decl_of(program.layouts.as_slice(), ty) {
            Some(decl) => shape_width(decl.shape.as_slice()),
            None => match settled.get(ty as usize) {
                Some(Some(room)) => Some(room_width(Some(room))),
                Some(None) => None,
                None => None,
            },
        },
    }
}

// How many bits all words of a constructor's fields have, where the rooms of their types are known;
// None where one isn't, or the number is too great.
fn con_width(program: &Program, settled: &[Option<Room>], con: &Con) -> Option<u64>
    ensures { IfSome result (λ bits. (rooms : List TheRoom)
        → ExtendsSettled settled.now rooms → bits ≡ con_width program.now rooms con.now) }
{
    let mut bits: u64 = 0;
    for ty in con.fields.as_slice() {
        bits = bits.checked_add(field_width(program, settled, *ty)?)?;
    }
    Some(bits)
}

// The greatest width of these constructors, 0 of none; None where the width of one isn't known.
fn greatest_width(program: &Program, settled: &[Option<Room>], cons: &[Con]) -> Option<u64>
    ensures { IfSome result (λ bits. (rooms : List TheRoom) → ExtendsSettled settled.now rooms
        → bits ≡ greatest (map (con_width program.now rooms) cons.now)) }
{
    let mut most: u64 = 0;
    for con in cons {
        most = most.max(con_width(program, settled, con)?);
    }
    Some(most)
}

// How many bits a type needs to be packed, for its tag and its longest constructor, where the rooms
// of its fields' types are known; None where one isn't, or the number is too great.
fn need(program: &Program, settled: &[Option<Room>], ty: u32) -> Option<u64>
    ensures { IfSome result (λ bits. (rooms : List TheRoom)
        → ExtendsSettled settled.now rooms → bits ≡ need program.now rooms ty) }
{
    let cons = cons_of(program.types.as_slice(), ty);
    let most = greatest_width(program, settled, cons)?;
    tag_bits(cons.len()).checked_add(most)
}

/// Which layout is derived for a type, if any; None also where there is no such type.
pub(crate) fn kind_of(kinds: &[Option<Auto>], ty: u32) -> Option<Auto>
    ensures { result ≡ kind_of kinds.now ty }
{
    match kinds.get(ty as usize) {
        None => None,
        Some(kind) => *kind,
    }
}

// The room of a type as it is known at first; None for a packed type that doesn't reach itself,
// whose bits are still to be counted. `graph` lists for each type the data types that it has as
// fields.
fn first_room(
    alloc: Global,
    program: &Program,
    kinds: &[Option<Auto>],
    graph: &[Seq<u32>],
    ty: u32,
) -> Result<Option<Room>, AllocError>
    requires { graph.now ≡ field_graph program.now.types }
    ensures { IfOk result (λ room. IsFirst program.now kinds.now ty room) }
{
    match kind_of(kinds, ty) {
        None => Ok(Some(Room::Word)),
        Some(Auto::Boxed) => Ok(Some(Room::Word)),
        Some(Auto::Packed) => {
            if is_recursive(alloc, graph, ty)? {
                Ok(Some(Room::Recursive))
            } else {
                Ok(None)
            }
        }
    }
}

// The rooms of all types as they are known at first, before any bits are counted.
fn first_rooms(
    alloc: Global,
    program: &Program,
    kinds: &[Option<Auto>],
) -> Result<Seq<Option<Room>>, AllocError>
    ensures { IfOk result (AreSettled program.now kinds.now) }
{
    let graph = field_graph(alloc, program.types.as_slice())?;
    let mut settled = Seq::new(alloc);
    for t in 0..program.types.len() {
        let room = first_room(alloc, program, kinds, graph.as_slice(), number_of(t)?)?;
        settled.push(room)?;
    }
    Ok(settled)
}

// Counts the bits that a type needs, where its room isn't known and those of its fields' types are,
// and puts the room in. Tells whether it could.
fn settle_type(program: &Program, settled: &mut Seq<Option<Room>>, ty: u32) -> bool
    ensures { (kinds : List (Option Kind))
        → AreSettled program.now kinds settled.old → AreSettled program.now kinds settled.new }
{
    match settled.get(ty as usize) {
        None => return false,
        Some(Some(_)) => return false,
        Some(None) => {}
    }
    match need(program, settled.as_slice(), ty) {
        None => false,
        Some(bits) => {
            settled.replace(ty as usize, Some(Room::Bits(bits)));
            true
        }
    }
}

// Goes over all types once, in their order, and counts the bits of those of which it can. Tells
// whether there was one.
fn settle_all(program: &Program, settled: &mut Seq<Option<Room>>) -> Result<bool, AllocError>
    ensures { (kinds : List (Option Kind))
        → OnOk result (AreSettled program.now kinds settled.old → AreSettled program.now kinds settled.new) }
{
    let mut some = false;
    for t in 0..program.types.len() {
        if settle_type(program, settled, number_of(t)?) {
            some = true;
        }
    }
    Ok(some)
}

// Goes over the types again and again, until all rooms are known or no more bits can be counted.
fn settle(program: &Program, settled: &mut Seq<Option<Room>>) -> Result<(), AllocError>
    ensures { (kinds : List (Option Kind))
        → OnOk result (AreSettled program.now kinds settled.old → AreSettled program.now kinds settled.new) }
{
    for _turn in 0..program.types.len() {
        if !settle_all(program, settled)? {
            return Ok(());
        }
    }
    Ok(())
}

// The rooms, all of which are known; one that isn't meets want of memory.
fn all_settled(alloc: Global, settled: &[Option<Room>]) -> Result<Seq<Room>, AllocError>
    ensures { IfOk result (λ rooms. map Some rooms ≡ settled.now) }
{
    let mut rooms = Seq::new(alloc);
    for room in settled {
        match room {
            None => return Err(AllocError),
            Some(room) => rooms.push(*room)?,
        }
    }
    Ok(rooms)
}

/// The rooms of a program's types, in their order.
///
/// # Errors
///
/// Want of memory.
pub fn find_rooms(
    alloc: Global,
    program: &Program,
    kinds: &[Option<Auto>],
) -> Result<Seq<Room>, AllocError>
    ensures { IfOk result (AreTheRooms program.now kinds.now) }
{
    let mut settled = first_rooms(alloc, program, kinds)?;
    settle(program, &mut settled)?;
    all_settled(alloc, settled.as_slice())
}
