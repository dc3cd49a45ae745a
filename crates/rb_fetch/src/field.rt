//! Fields of represented values: what their words are, and code that makes them. A provenance is
//! the pattern of the values that a leaf holds. A position is a path, field numbers from the root.
//! It is open where the provenance has a wildcard: the leaf's words have the part there. A read is
//! a number that code can make from slots and loads. `agreed` has the program and its layouts, `ty`
//! is a data type by number, and `leaf` a leaf by its number in the layout of that type.

ghost use Rattle.std.specs.Prelude.{◌≡◌, Some, IfOk, OnOk};
ghost use Rattle.rb_target.specs.Growth.{Grows};
ghost use Rattle.rb_fetch.specs.Fields.{FetchesField, ReadsField};
ghost use Rattle.rb_fetch.specs.inner.Fields as fields;
ghost use Rattle.rb_fetch.specs.inner.Placing.{IsAgreedLeaf};

use crate::heads::leaf_at;
use crate::place::{Wanted, find_part};
use crate::rebuild::{DEPTH, fetch_field_at};
use crate::slice::int_read;
use crate::way::spot_read;
use rb_core::seq::Seq;
use rb_core::types::Ty;
use rb_fragment::reads::Read;
use rb_layout::agreed::Agreed;
use rb_layout::layout::Leaf;
use rb_layout::positions::type_at;
use rb_rel::words::word_count;
use rb_target::body::Body;
use std::alloc::{AllocError, Global};

/// What the words of a field are: reads over `words`, the reads of the words of a value of the
/// leaf. The path is an open position of the leaf's provenance. There are none where there is no
/// such leaf, or where nothing stands at the path.
///
/// # Errors
///
/// Want of memory.
pub fn field_reads(
    alloc: Global,
    agreed: &Agreed,
    ty: u32,
    leaf: usize,
    path: &[u32],
    words: &[Read],
) -> Result<Seq<Read>, AllocError>
    ensures reads { IfOk result (λ reads. ReadsField agreed.now ty leaf path.now words.now reads) }
{
    let program = agreed.covered().program();
    let mut reads = Seq::new(alloc);
    let Some(leaf) = leaf_at(agreed.layouts(), ty, leaf) else {
        return Ok(reads);
    };
    match type_at(program.types.as_slice(), &leaf.prov, path) {
        None => Ok(reads),
        Some(Ty::Int(width)) => {
            let read = int_read(alloc, leaf, width, path, words)?;
            reads.push(read)?;
            Ok(reads)
        }
        Some(Ty::Named(field)) => {
            let count = word_count(agreed.layouts(), Ty::Named(field));
            let reads = word_reads(alloc, leaf, field, path, words, count)?;
            Ok(reads)
        }
    }
}

// Reads of the first `count` words of the field of a data type at a path.
fn word_reads(
    alloc: Global,
    leaf: &Leaf,
    ty: u32,
    path: &[u32],
    words: &[Read],
    count: usize,
) -> Result<Seq<Read>, AllocError>
    requires leaf { IsAgreedLeaf leaf.now }
    ensures { IfOk result (λ reads. fields.ReadWords leaf.now words.now path.now ty count reads) }
{
    let mut reads = Seq::new(alloc);
    for j in 0..count {
        let read = word_read(alloc, leaf, ty, path, words, j as u64)?;
        reads.push(read)?;
    }
    Ok(reads)
}

// A read of word `j` of the field of a data type at a path: zero where no part of the leaf holds
// it.
fn word_read(
    alloc: Global,
    leaf: &Leaf,
    ty: u32,
    path: &[u32],
    words: &[Read],
    j: u64,
) -> Result<Read, AllocError>
    requires leaf { IsAgreedLeaf leaf.now }
    ensures { IfOk result (λ read. fields.ReadsWord leaf.now words.now path.now ty j read) }
{
    match find_part(leaf, path, Wanted::UnitOf(Ty::Named(ty), j)) {
        None => Ok(Read::Number(0)),
        Some(spot) => {
            let read = spot_read(alloc, leaf, spot, words)?;
            Ok(read)
        }
    }
}

/// Code that leaves the part of a value at a position of its leaf's provenance in slots, from
/// `words`, the slots of the value's words. At a wildcard that takes no switch. At a constructor
/// the part is rebuilt in its own type's layout, which places no block. At the root it is the value
/// itself.
///
/// # Errors
///
/// Want of memory; below the root, the same answer where there is no such leaf, or no wildcard or
/// constructor at the position.
pub fn fetch_field(
    alloc: Global,
    body: &mut Body,
    words: &[usize],
    agreed: &Agreed,
    ty: u32,
    leaf: usize,
    path: &[u32],
) -> Result<Seq<usize>, AllocError>
    ensures fetches { IfOk result
        (λ slots. FetchesField agreed.now ty leaf path.now words.now body.old body.new slots) }
    ensures grows { OnOk result (Grows body.old.code body.new.code) }
{
    let slots = fetch_field_at(alloc, body, words, agreed, DEPTH, ty, leaf, path)?;
    Ok(slots)
}

/// A copy of a list of slots, which are numbers.
///
/// # Errors
///
/// Want of memory.
pub fn copy_slots(alloc: Global, slots: &[usize]) -> Result<Seq<usize>, AllocError>
    ensures { IfOk result (λ copy. copy ≡ slots.now) }
{
    let mut copy = Seq::new(alloc);
    for slot in slots {
        copy.push(*slot)?;
    }
    Ok(copy)
}
