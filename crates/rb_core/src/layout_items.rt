//! Copies of what layouts have in their leaves: items, and the parts of words. The calls nest as
//! deep as pointers are written in one another.

ghost use Rattle.std.specs.Prelude.{◌≡◌, IfOk};

use crate::layout_decl::{LayItem, PartDecl, PartKind};
use crate::seq::Seq;
use std::alloc::{AllocError, Global};

/// Equal items, in their order.
///
/// # Errors
///
/// Want of memory.
#[cycle(copying)]
pub fn copy_items(alloc: Global, items: &[LayItem]) -> Result<Seq<LayItem>, AllocError>
    ensures { IfOk result (λ copies. copies ≡ items.now) }
{
    let mut copies = Seq::new(alloc);
    for item in items {
        let copy = copy_item(alloc, item)?;
        copies.push(copy)?;
    }
    Ok(copies)
}

// An equal item: a word with its parts, or the path of a field.
#[cycle(copying)]
fn copy_item(alloc: Global, item: &LayItem) -> Result<LayItem, AllocError>
    ensures { IfOk result (λ copy. copy ≡ item.now) }
{
    match item {
        LayItem::Word(bits, parts) => {
            let copies = copy_parts(alloc, parts.as_slice())?;
            Ok(LayItem::Word(*bits, copies))
        }
        LayItem::Inline(path) => Ok(LayItem::Inline(path.copy(alloc)?)),
    }
}

// Equal parts, in their order.
#[cycle(copying)]
fn copy_parts(alloc: Global, parts: &[PartDecl]) -> Result<Seq<PartDecl>, AllocError>
    ensures { IfOk result (λ copies. copies ≡ parts.now) }
{
    let mut copies = Seq::new(alloc);
    for part in parts {
        let kind = copy_kind(alloc, &part.kind)?;
        copies.push(PartDecl {
            o: part.o,
            l: part.l,
            kind,
        })?;
    }
    Ok(copies)
}

// What an equal part holds, with the items behind it where it is a pointer.
#[cycle(copying)]
fn copy_kind(alloc: Global, kind: &PartKind) -> Result<PartKind, AllocError>
    ensures { IfOk result (λ copy. copy ≡ kind.now) }
{
    match kind {
        PartKind::Const(number) => Ok(PartKind::Const(*number)),
        PartKind::Whole(path) => Ok(PartKind::Whole(path.copy(alloc)?)),
        PartKind::Slice(path, first, len) => {
            let path = path.copy(alloc)?;
            Ok(PartKind::Slice(path, *first, *len))
        }
        PartKind::Word(path, word) => {
            let path = path.copy(alloc)?;
            Ok(PartKind::Word(path, *word))
        }
        PartKind::Pointer(align, items) => {
            let copies = copy_items(alloc, items.as_slice())?;
            Ok(PartKind::Pointer(*align, copies))
        }
    }
}
