//! Layouts that are derived, part by part, worked out by hand from the rules of derived layouts.

use crate::packed::types::{con, data, derived_layout, packed_layout, seq, written_layout};
use rb_core::layout_decl::{LayItem, LayTree, LayoutDecl, PartKind};
use rb_core::types::{Auto, Ty};
use std::alloc::Global;
use std::test::Fail;

// The items of the leaf under the arm with this number, or of the one leaf.
fn items_under(tree: &LayTree, arm: usize) -> &[LayItem] {
    match tree {
        LayTree::Leaf(_, _, items) => items.as_slice(),
        LayTree::Split(_, arms, _) => match arms.as_slice().get(arm) {
            None => &[],
            Some(arm) => match &arm.under {
                LayTree::Leaf(_, _, items) => items.as_slice(),
                LayTree::Split(_, _, _) => &[],
            },
        },
    }
}

// Whether an item's parts have these first bits and lengths.
fn has_ranges(items: &[LayItem], item: usize, wanted: &[(u64, u64)]) -> bool {
    let Some(LayItem::Word(_, parts)) = items.get(item) else {
        return false;
    };
    if parts.len() != wanted.len() {
        return false;
    }
    for (i, part) in parts.as_slice().iter().enumerate() {
        if wanted.get(i) != Some(&(part.o, part.l)) {
            return false;
        }
    }
    true
}

// The items of the block to which the part with this number of an item points.
fn block_at(items: &[LayItem], item: usize, part: usize) -> &[LayItem] {
    match items.get(item) {
        None => &[],
        Some(LayItem::Inline(_)) => &[],
        Some(LayItem::Word(_, parts)) => match parts.as_slice().get(part) {
            None => &[],
            Some(part) => match &part.kind {
                PartKind::Pointer(_, items) => items.as_slice(),
                PartKind::Const(_) => &[],
                PartKind::Whole(_) => &[],
                PartKind::Slice(_, _, _) => &[],
                PartKind::Word(_, _) => &[],
            },
        },
    }
}

// type Rgb = Gray(u8) | Full(u5, u6, u5);
// layout Rgb <17> = split 0[0:1] { 0 => Gray(_) : { word 17 { [0:1] = 0, [1:8] .0 } }
//     1 => Full(_, _, _) : { word 17 { [0:1] = 1, [1:5] .0, [6:6] .1, [12:5] .2 } } };
fn rgb(alloc: Global) -> Result<LayoutDecl, Fail> {
    let gray = con(alloc, &[Ty::Int(8)])?;
    let full = con(alloc, &[Ty::Int(5), Ty::Int(6), Ty::Int(5)])?;
    packed_layout(alloc, seq(alloc, [gray, full])?)
}

#[test]
fn a_packed_type(rt: HostRuntime) -> Result<(), Fail> {
    let decl = rgb(rt.alloc())?;
    assert!(rt; (decl.at, decl.ty, decl.shape.as_slice()) == (0, 0, [17].as_slice()));
    let gray = items_under(&decl.tree, 0);
    assert!(rt; has_ranges(gray, 0, &[(0, 1), (1, 8)]));
    let full = items_under(&decl.tree, 1);
    assert!(rt; has_ranges(full, 0, &[(0, 1), (1, 5), (6, 6), (12, 5)]));
    Ok(())
}

// type Unit = Unit; layout Unit = packed;
fn unit(alloc: Global) -> Result<LayoutDecl, Fail> {
    let unit = con(alloc, &[])?;
    packed_layout(alloc, seq(alloc, [unit])?)
}

// One constructor has no tag, and a type without bits is one bit wide.
#[test]
fn a_packed_type_without_bits(rt: HostRuntime) -> Result<(), Fail> {
    let decl = unit(rt.alloc())?;
    assert!(rt; decl.shape.as_slice() == [1].as_slice());
    assert!(rt; matches!(&decl.tree, LayTree::Leaf(0, _, _)));
    assert!(rt; has_ranges(items_under(&decl.tree, 0), 0, &[]));
    Ok(())
}

// type Triple = Triple(u64, u64, u64); layout Triple <64, 64, 64> = ..;
// type Many = Many(Triple, .., Triple); layout Many = boxed;
fn many(alloc: Global) -> Result<LayoutDecl, Fail> {
    let triple = con(alloc, &[Ty::Int(64), Ty::Int(64), Ty::Int(64)])?;
    let triple = data(alloc, seq(alloc, [triple])?);
    let many = con(alloc, &[Ty::Named(0); 32])?;
    let many = data(alloc, seq(alloc, [many])?);
    let layouts = seq(alloc, [written_layout(alloc, 0, &[64, 64, 64])?])?;
    let types = seq(alloc, [triple, many])?;
    derived_layout(alloc, types, layouts, &[None, Some(Auto::Boxed)], 1)
}

// Over 64 words, a block has a pointer for each 64 of them.
#[test]
fn a_boxed_type_of_many_words(rt: HostRuntime) -> Result<(), Fail> {
    let decl = many(rt.alloc())?;
    assert!(rt; decl.shape.as_slice() == [64].as_slice());
    let items = items_under(&decl.tree, 0);
    assert!(rt; has_ranges(items, 0, &[(0, 8), (8, 56)]));
    let groups = block_at(items, 0, 1);
    let lengths = (
        groups.len(),
        block_at(groups, 0, 0).len(),
        block_at(groups, 1, 0).len(),
    );
    assert!(rt; lengths == (2, 64, 32));
    Ok(())
}
