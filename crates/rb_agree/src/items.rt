//! The items of a leaf as they are written, one after the other: an outer one before those inside
//! it. An item is a word with its parts, or a field whose words stand inline; behind a pointer
//! stand items, too, which are inside its word. A path is the field numbers from the root of the
//! leaf's provenance. An `Err` is want of memory.

ghost use Rattle.std.specs.Prelude.{◌≡◌, ◌++◌, map, IfOk, OnOk};
ghost use Rattle.std.specs.List.{flat_map};
ghost use Rattle.rb_layout.specs.Items.{item_list, item_lists};
ghost use Rattle.rb_agree.specs.Written.{shown_content, shown_items, shown_part};
ghost use Rattle.rb_agree.specs.inner.Around.{content_of, inside_of, written_part};

use rb_core::layout_decl::{LayItem, PartDecl, PartKind};
use rb_core::seq::Seq;
use std::alloc::{AllocError, Global};

/// What a part is written to hold, apart from what stands behind a pointer. A path is a list of field
/// numbers from the root.
#[derive(Drop)]
pub enum Content {
    /// This number.
    Number(u64),
    /// The field at this path, whole.
    Whole(Seq<u32>),
    /// So many bits from that bit of the integer at this path: path, first bit, length.
    Slice(Seq<u32>, u64, u64),
    /// The word with this number of the data field at this path.
    WordOf(Seq<u32>, u64),
    /// A pointer that counts so many bytes.
    Address(u64),
}

/// A part as it is written: `l` bits from bit `o`.
#[derive(Drop)]
pub struct Written {
    pub o: u64,
    pub l: u64,
    pub content: Content,
}

/// An item as it is written.
#[derive(Drop)]
pub enum Item {
    /// A word of so many bits, with its parts.
    Parts(u64, Seq<Written>),
    /// The words of the field at a path.
    Field(Seq<u32>),
}

// What a part of this kind is written to hold, apart from what stands behind a pointer.
fn content_of(alloc: Global, kind: &PartKind) -> Result<Content, AllocError>
    ensures { IfOk result (λ content. shown_content content ≡ content_of kind.now) }
{
    match kind {
        PartKind::Const(number) => Ok(Content::Number(*number)),
        PartKind::Whole(path) => Ok(Content::Whole(path.copy(alloc)?)),
        PartKind::Slice(path, first, bits) => Ok(Content::Slice(path.copy(alloc)?, *first, *bits)),
        PartKind::Word(path, number) => Ok(Content::WordOf(path.copy(alloc)?, *number)),
        PartKind::Pointer(align, _) => Ok(Content::Address(*align)),
    }
}

// The parts of a word, without what stands behind pointers.
fn parts_of(alloc: Global, parts: &[PartDecl]) -> Result<Seq<Written>, AllocError>
    ensures { IfOk result (λ written. map shown_part written ≡ map written_part parts.now) }
{
    let mut written = Seq::new(alloc);
    for part in parts {
        written.push(Written {
            o: part.o,
            l: part.l,
            content: content_of(alloc, &part.kind)?,
        })?;
    }
    Ok(written)
}

// Adds items to `out`, and after each those inside it.
#[cycle(writing)]
fn add_items(alloc: Global, items: &[LayItem], out: &mut Seq<Item>) -> Result<(), AllocError>
    ensures { OnOk result (shown_items out.new ≡ shown_items out.old ++ item_lists items.now) }
{
    for item in items {
        add_item(alloc, item, out)?;
    }
    Ok(())
}

// Adds an item to `out`, and after a word the items behind its pointers.
#[cycle(writing)]
fn add_item(alloc: Global, item: &LayItem, out: &mut Seq<Item>) -> Result<(), AllocError>
    ensures { OnOk result (shown_items out.new ≡ shown_items out.old ++ item_list item.now) }
{
    match item {
        LayItem::Inline(path) => out.push(Item::Field(path.copy(alloc)?)),
        LayItem::Word(width, parts) => {
            let written = parts_of(alloc, parts.as_slice())?;
            out.push(Item::Parts(*width, written))?;
            add_inside(alloc, parts.as_slice(), out)
        }
    }
}

// Adds the items behind those of these parts that are pointers, from left to right, to `out`.
#[cycle(writing)]
fn add_inside(alloc: Global, parts: &[PartDecl], out: &mut Seq<Item>) -> Result<(), AllocError>
    ensures { OnOk result (shown_items out.new ≡ shown_items out.old ++ flat_map inside_of parts.now) }
{
    for part in parts {
        add_behind(alloc, part, out)?;
    }
    Ok(())
}

// Adds the items behind a part that is a pointer to `out`, and nothing for another part.
#[cycle(writing)]
fn add_behind(alloc: Global, part: &PartDecl, out: &mut Seq<Item>) -> Result<(), AllocError>
    ensures { OnOk result (shown_items out.new ≡ shown_items out.old ++ inside_of part.now) }
{
    match &part.kind {
        PartKind::Const(_) => Ok(()),
        PartKind::Whole(_) => Ok(()),
        PartKind::Slice(_, _, _) => Ok(()),
        PartKind::Word(_, _) => Ok(()),
        PartKind::Pointer(_, items) => add_items(alloc, items.as_slice(), out),
    }
}

/// The items of a leaf, outer before inner: item `i` of a refusal is that with number `i`.
///
/// # Errors
///
/// Want of memory.
pub fn items_of(alloc: Global, items: &[LayItem]) -> Result<Seq<Item>, AllocError>
    ensures { IfOk result (λ list. shown_items list ≡ item_lists items.now) }
{
    let mut list = Seq::new(alloc);
    add_items(alloc, items, &mut list)?;
    Ok(list)
}
