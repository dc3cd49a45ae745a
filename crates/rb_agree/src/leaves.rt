//! The items of each leaf of a layout, from left to right. An item is a word of a leaf with its
//! parts, or a field whose words stand inline. `decls` are the layouts that a program declares. An
//! `Err` is want of memory.

ghost use Rattle.std.specs.Prelude.{◌≡◌, ◌++◌, IfOk, OnOk, slice_get};
ghost use Rattle.std.specs.List.{flat_map};
ghost use Rattle.rb_core.specs.Layouts.{leaves, leaves_under};
ghost use Rattle.rb_layout.specs.Flattening.{decl_of};
ghost use Rattle.rb_layout.specs.Items.{leaves_in};
ghost use Rattle.rb_agree.specs.Written.{shown_items};
ghost use Rattle.rb_agree.specs.inner.Leaves.{AreWritten, items_or_none, items_under, leaves_or_none, shown_leaves};

use crate::items::{Item, items_of};
use rb_core::layout_decl::{Arm, LayTree, LayoutDecl};
use rb_core::seq::Seq;
use rb_layout::decls::decl_of;
use rb_layout::numbers::number_of;
use std::alloc::{AllocError, Global};

// Adds a list of the items of each leaf of a tree, from left to right, to `out`.
#[cycle(reading)]
fn add_tree(alloc: Global, tree: &LayTree, out: &mut Seq<Seq<Item>>) -> Result<(), AllocError>
    ensures { OnOk result (shown_leaves out.new ≡ shown_leaves out.old ++ items_under (leaves tree.now)) }
{
    match tree {
        LayTree::Leaf(_, _, items) => {
            let written = items_of(alloc, items.as_slice())?;
            out.push(written)
        }
        LayTree::Split(_, arms, other) => {
            add_arms(alloc, arms.as_slice(), out)?;
            match other {
                None => Ok(()),
                Some(tree) => add_tree(alloc, tree.get(), out),
            }
        }
    }
}

// Adds a list of the items of each leaf below these arms, arm by arm, to `out`.
#[cycle(reading)]
fn add_arms(alloc: Global, arms: &[Arm], out: &mut Seq<Seq<Item>>) -> Result<(), AllocError>
    ensures { OnOk result
        (shown_leaves out.new ≡ shown_leaves out.old ++ items_under (flat_map leaves_under arms.now)) }
{
    for arm in arms {
        add_tree(alloc, &arm.under, out)?;
    }
    Ok(())
}

// The items of each leaf of a type's layout; none where it has no layout.
fn leaves_of(alloc: Global, decls: &[LayoutDecl], ty: u32) -> Result<Seq<Seq<Item>>, AllocError>
    ensures { IfOk result (λ out. shown_leaves out ≡ items_under (leaves_in (decl_of decls.now ty))) }
{
    let mut out = Seq::new(alloc);
    match decl_of(decls, ty) {
        None => Ok(out),
        Some(decl) => {
            add_tree(alloc, &decl.tree, &mut out)?;
            Ok(out)
        }
    }
}

/// For each of the first `count` types the items of each leaf of its layout; none where it has no
/// layout.
///
/// # Errors
///
/// Want of memory.
pub(crate) fn all_leaves(
    alloc: Global,
    decls: &[LayoutDecl],
    count: usize,
) -> Result<Seq<Seq<Seq<Item>>>, AllocError>
    ensures { IfOk result (AreWritten decls.now count) }
{
    let mut written = Seq::new(alloc);
    for t in 0..count {
        written.push(leaves_of(alloc, decls, number_of(t)?)?)?;
    }
    Ok(written)
}

/// The items of each leaf of type `ty`, by those of all types; none where there is no such type.
pub(crate) fn leaves_at(written: &[Seq<Seq<Item>>], ty: u32) -> &[Seq<Item>]
    ensures { result.now ≡ leaves_or_none (slice_get written.now ty) }
{
    match written.get(ty as usize) {
        None => &[],
        Some(leaves) => leaves.as_slice(),
    }
}

/// The items of leaf `n`, by those of all leaves of a type; none where there is no such leaf.
pub(crate) fn items_at(leaves: &[Seq<Item>], n: usize) -> &[Item]
    ensures { shown_items result.now ≡ items_or_none (slice_get leaves.now n) }
{
    match leaves.get(n) {
        None => &[],
        Some(items) => items.as_slice(),
    }
}
