//! The text of a refusal of layouts: the type, the rule, and what fails there.
//!
//! A leaf of a layout holds the values of one pattern, its provenance. The ten rules of layouts
//! have the numbers 1 to 10, and stand in the text as A1 to A10. `types` are the types of the
//! program. Every error is want of memory.

ghost use Rattle.std.specs.Prelude.{◌≡◌, ◌++◌, IfOk, OnOk, Option, slice_get};
ghost use Rattle.rb_layout.specs.Positions.{leaves_of_layout};
ghost use Rattle.rb_show.specs.Refusals.{at_leaf, is_of_one_leaf, number_of_leaf, refusal_text};

use crate::evidence::{push_evidence, push_leaf};
use rb_core::text::{push, push_name, push_number};
use rb_core::types::DataDecl;
use rb_layout::evidence::Refused;
use rb_layout::layout::{Layout, Leaf};
use std::alloc::{AllocError, Global};

// The leaves of a type's layout; none where there is no such layout.
fn leaves_of(layouts: &[Layout], ty: u32) -> &[Leaf]
    ensures { result.now ≡ leaves_of_layout (slice_get layouts.now ty) }
{
    match layouts.get(ty as usize) {
        None => &[],
        Some(layout) => layout.leaves.as_slice(),
    }
}

// The leaf's number, where the refusal is of a leaf; else 0.
fn leaf_number(leaf: Option<u32>) -> u32
    ensures { result ≡ number_of_leaf leaf }
{
    leaf.unwrap_or(0)
}

// Whether a rule, by its number, is of each leaf by itself, so that its refusal names the leaf.
fn is_of_one_leaf(rule: u8) -> bool
    ensures { result ≡ is_of_one_leaf rule }
{
    matches!(rule, 2 | 3 | 4 | 6 | 7)
}

// Adds the leaf that fails, before what fails there, where the rule is of one leaf; else nothing.
fn push_place(
    text: &mut Vec<u8>,
    types: &[DataDecl],
    leaves: &[Leaf],
    rule: u8,
    leaf: u32,
) -> Result<(), AllocError>
    ensures { OnOk result (text.new.items ≡ text.old.items ++ at_leaf types.now leaves.now rule leaf) }
{
    if !is_of_one_leaf(rule) {
        return Ok(());
    }
    push(text, b"leaf ")?;
    push_leaf(text, types, leaves, leaf)?;
    push(text, b": ")?;
    Ok(())
}

/// The text of a refusal, such as `layout of T: A4: leaf C(_): alignment 3`. Leaves are named by
/// their provenances, fields by their paths.
///
/// # Errors
///
/// Want of memory.
pub fn show_refusal(
    alloc: Global,
    types: &[DataDecl],
    layouts: &[Layout],
    refused: &Refused,
) -> Result<Vec<u8>, AllocError>
    ensures { IfOk result (λ text. text.items ≡ refusal_text types.now layouts.now refused.now) }
{
    let mut text = Vec::new(alloc);
    push(&mut text, b"layout of ")?;
    push_name(&mut text, types, refused.ty)?;
    push(&mut text, b": A")?;
    push_number(&mut text, refused.rule as u64)?;
    push(&mut text, b": ")?;
    let leaves = leaves_of(layouts, refused.ty);
    let leaf = leaf_number(refused.leaf);
    push_place(&mut text, types, leaves, refused.rule, leaf)?;
    push_evidence(&mut text, types, leaves, leaf, &refused.why)?;
    Ok(text)
}
