//! The flat form of a leaf: its items become words, and what its pointers lead to becomes blocks. A
//! field is named by its path from the root of the leaf's provenance, and is open where the
//! provenance has an open position there; for any other path nothing is placed. Blocks are numbered
//! as they are placed, inner before outer. What fails, fails for want of memory.

ghost use Rattle.std.specs.Prelude.{◌≡◌, ◌++◌, ◌∷◌, [], length, IfOk, OnOk};
ghost use Rattle.rb_layout.specs.Positions.{open_positions};
ghost use Rattle.rb_layout.specs.Flattening.{kind_if_open, type_at, whole_kind, full_word, inline_words};
ghost use Rattle.rb_layout.specs.inner.Laying.{Lays, LaysKind, field_for, item_for, items_for, kind_for, leaf_for};
ghost use Rattle.rb_layout.specs.inner.Laying.{part_for, parts_for};

use crate::decls::shape_of;
use crate::layout::{Block, FlatWord, Kind, Leaf, Part};
use crate::positions::type_at;
use rb_core::layout_decl::{LayItem, PartDecl, PartKind};
use rb_core::pattern::Pat;
use rb_core::program::Program;
use rb_core::seq::Seq;
use rb_core::types::Ty;
use std::alloc::{AllocError, Global};

/// The flat form of the leaf with this provenance and these items.
pub(crate) fn flat_leaf(
    alloc: Global,
    program: &Program,
    items: &[LayItem],
    prov: &Pat,
) -> Result<Leaf, AllocError>
    ensures { IfOk result (λ leaf. leaf ≡ leaf_for program.now prov.now items.now) }
{
    let mut blocks = Seq::new(alloc);
    let root = flat_items(alloc, program, items, prov, &mut blocks)?;
    Ok(Leaf {
        prov: prov.copy(alloc)?,
        root,
        blocks,
    })
}

// The words of items, from left to right. The blocks behind their pointers are added to those that
// are there.
#[cycle(laying)]
fn flat_items(
    alloc: Global,
    program: &Program,
    items: &[LayItem],
    prov: &Pat,
    blocks: &mut Seq<Block>,
) -> Result<Seq<FlatWord>, AllocError>
    ensures { IfOk result (λ words. Lays [] words blocks.old blocks.new (items_for program.now prov.now items.now)) }
{
    let mut words = Seq::new(alloc);
    for item in items {
        push_item(alloc, program, item, prov, &mut words, blocks)?;
    }
    Ok(words)
}

// Adds the words of an item, which are one with its parts or those of a field, and the blocks
// behind its pointers.
#[cycle(laying)]
fn push_item(
    alloc: Global,
    program: &Program,
    item: &LayItem,
    prov: &Pat,
    words: &mut Seq<FlatWord>,
    blocks: &mut Seq<Block>,
) -> Result<(), AllocError>
    ensures { OnOk result (Lays words.old words.new blocks.old blocks.new (item_for program.now prov.now item.now)) }
{
    match item {
        LayItem::Word(width, parts) => {
            let parts = flat_parts(alloc, program, parts.as_slice(), prov, blocks)?;
            words.push(FlatWord {
                width: *width,
                parts,
            })
        }
        LayItem::Inline(path) => push_field(alloc, program, prov, path, words),
    }
}

// The parts of a word that place something, from left to right. The blocks behind pointers are
// added.
#[cycle(laying)]
fn flat_parts(
    alloc: Global,
    program: &Program,
    parts: &[PartDecl],
    prov: &Pat,
    blocks: &mut Seq<Block>,
) -> Result<Seq<Part>, AllocError>
    ensures { IfOk result (λ flat. Lays [] flat blocks.old blocks.new (parts_for program.now prov.now parts.now)) }
{
    let mut flat = Seq::new(alloc);
    for part in parts {
        push_part(alloc, program, part, prov, &mut flat, blocks)?;
    }
    Ok(flat)
}

// Adds a part and the blocks behind it. Adds nothing where its path is not open.
#[cycle(laying)]
fn push_part(
    alloc: Global,
    program: &Program,
    part: &PartDecl,
    prov: &Pat,
    flat: &mut Seq<Part>,
    blocks: &mut Seq<Block>,
) -> Result<(), AllocError>
    ensures { OnOk result (Lays flat.old flat.new blocks.old blocks.new (part_for program.now prov.now part.now)) }
{
    match flat_kind(alloc, program, &part.kind, prov, blocks)? {
        None => Ok(()),
        Some(kind) => flat.push(Part {
            o: part.o,
            l: part.l,
            kind,
        }),
    }
}

// What a part holds, and None where its path is not open. Of a slice it is kept at which bit it
// begins: it is as long as the part. The blocks behind a pointer are added, its own last.
#[cycle(laying)]
fn flat_kind(
    alloc: Global,
    program: &Program,
    kind: &PartKind,
    prov: &Pat,
    blocks: &mut Seq<Block>,
) -> Result<Option<Kind>, AllocError>
    ensures { IfOk result (λ flat. LaysKind flat blocks.old blocks.new (kind_for program.now prov.now kind.now)) }
{
    match kind {
        PartKind::Const(number) => Ok(Some(Kind::Const(*number))),
        PartKind::Whole(path) => whole_kind(alloc, type_of(program, prov, path), path),
        PartKind::Slice(path, first, _) => {
            let kind = Kind::Bits(path.copy(alloc)?, *first);
            Ok(kind_if_open(type_of(program, prov, path), kind))
        }
        PartKind::Word(path, number) => {
            let kind = Kind::Word(path.copy(alloc)?, *number);
            Ok(kind_if_open(type_of(program, prov, path), kind))
        }
        PartKind::Pointer(align, items) => {
            let words = flat_items(alloc, program, items.as_slice(), prov, blocks)?;
            let number = push_block(*align, words, blocks)?;
            Ok(Some(Kind::Pointer(*align, number)))
        }
    }
}

// Adds a block, and answers its number. There is no memory for 2^32 of them.
fn push_block(align: u64, words: Seq<FlatWord>, blocks: &mut Seq<Block>) -> Result<u32, AllocError>
    ensures number { IfOk result (λ number. number ≡ length blocks.old) }
    ensures blocks { OnOk result (blocks.new ≡ blocks.old ++ record { align = align; words = words } ∷ []) }
{
    let Ok(number) = u32::try_from(blocks.len()) else {
        return Err(AllocError);
    };
    blocks.push(Block { align, words })?;
    Ok(number)
}

// The type at a path of a provenance, and None where no position is open there.
fn type_of(program: &Program, prov: &Pat, path: &Seq<u32>) -> Option<Ty>
    ensures { result ≡ type_at (open_positions program.now.types prov.now) path.now }
{
    type_at(program.types.as_slice(), prov, path.as_slice())
}

// What holds the whole field at a path, given the type there: bits of an integer from bit 0 on, or
// word 0 of a data type. None where the path is not open.
fn whole_kind(alloc: Global, ty: Option<Ty>, path: &Seq<u32>) -> Result<Option<Kind>, AllocError>
    ensures { IfOk result (λ kind. kind ≡ whole_kind ty path.now) }
{
    match ty {
        None => Ok(None),
        Some(Ty::Int(_)) => Ok(Some(Kind::Bits(path.copy(alloc)?, 0))),
        Some(Ty::Named(_)) => Ok(Some(Kind::Word(path.copy(alloc)?, 0))),
    }
}

// What is held, given the type at its path. None where the path is not open.
fn kind_if_open(ty: Option<Ty>, kind: Kind) -> Option<Kind>
    ensures { result ≡ kind_if_open ty kind }
{
    match ty {
        None => None,
        Some(_) => Some(kind),
    }
}

// A word of this width with one part of this kind, which takes all of it.
fn whole_word(alloc: Global, width: u64, kind: Kind) -> Result<FlatWord, AllocError>
    ensures { IfOk result (λ word. word ≡ full_word width kind) }
{
    let mut parts = Seq::new(alloc);
    parts.push(Part {
        o: 0,
        l: width,
        kind,
    })?;
    Ok(FlatWord { width, parts })
}

// Adds the words of the field at a path: one for an integer, those of its shape for a data type.
// Adds none where the path is not open.
fn push_field(
    alloc: Global,
    program: &Program,
    prov: &Pat,
    path: &Seq<u32>,
    words: &mut Seq<FlatWord>,
) -> Result<(), AllocError>
    ensures { OnOk result (words.new ≡ words.old ++ field_for program.now prov.now path.now) }
{
    match type_of(program, prov, path) {
        None => Ok(()),
        Some(Ty::Int(bits)) => {
            let kind = Kind::Bits(path.copy(alloc)?, 0);
            words.push(whole_word(alloc, bits as u64, kind)?)
        }
        Some(Ty::Named(ty)) => {
            let shape = shape_of(program.layouts.as_slice(), ty);
            push_shape(alloc, path, shape, words)
        }
    }
}

// Adds a word for each word of a shape, which holds the word with its number of the field at the
// path.
fn push_shape(
    alloc: Global,
    path: &Seq<u32>,
    shape: &[u64],
    words: &mut Seq<FlatWord>,
) -> Result<(), AllocError>
    ensures { OnOk result (words.new ≡ words.old ++ inline_words path.now 0 shape.now) }
{
    for (number, width) in shape.iter().enumerate() {
        let kind = Kind::Word(path.copy(alloc)?, number as u64);
        words.push(whole_word(alloc, *width, kind)?)?;
    }
    Ok(())
}
