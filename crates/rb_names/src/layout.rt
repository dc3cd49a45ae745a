//! Layouts. The tree of a layout has splits, each with arms for literals and perhaps an `else`, and
//! leaves. A provenance is the pattern of the values for which a leaf is. Numbers replace the names
//! of types and constructors, by `tables`; all else stays. The first name that stands for nothing
//! is the fault `Unknown`; an `Err` may also be want of memory.

ghost use Rattle.std.specs.Prelude.{map, option_map};
ghost use Rattle.rb_syntax.specs.declared.tree.SplitTree.TheOpen as split;
ghost use Rattle.rb_names.specs.Answers.{AnswersNumbering};
ghost use Rattle.rb_names.specs.Numbering.{all_of, numbered_else, numbered_layout, numbered_split, split_step};
ghost use Rattle.rb_names.specs.inner.Parts.{numbered_arm};

use crate::fault::NameFault;
use crate::pattern::number_pattern;
use crate::scope::Scope;
use crate::tables::Tables;
use rb_core::boxed::Boxed;
use rb_core::layout_decl::{Arm, LayItem, LayTree, LayoutDecl};
use rb_core::layout_items::copy_items;
use rb_core::seq::Seq;
use rb_syntax::tree::{ArmTree, LayoutTree, PatTree, SplitTree};
use std::alloc::Global;

/// A layout with the numbers of its type and of the constructors of its provenances.
///
/// # Errors
///
/// `Unknown` for the first name, from left to right, that stands for nothing; or want of memory.
pub fn number_layout(
    alloc: Global,
    tables: &Tables,
    tree: &LayoutTree,
) -> Result<LayoutDecl, NameFault>
    ensures { AnswersNumbering result (numbered_layout tables.now tree.now) }
{
    let ty = tables.types.known(alloc, &tree.ty)?;
    let under = number_split(alloc, tables, &tree.tree)?;
    let shape = tree.shape.copy(alloc)?;
    Ok(LayoutDecl {
        at: tree.at,
        ty,
        shape,
        tree: under,
    })
}

// The tree of a layout, with numbers in the provenances of its leaves.
#[cycle(splitting)]
fn number_split(alloc: Global, tables: &Tables, tree: &SplitTree) -> Result<LayTree, NameFault>
    ensures { AnswersNumbering result (numbered_split tables.now tree.now) }
{
    match tree {
        SplitTree::Leaf(at, provenance, items) => {
            number_leaf(alloc, tables, *at, provenance, items.as_slice())
        }
        SplitTree::Split(loc, arms, other) => {
            let arms = number_arms(alloc, tables, arms.as_slice())?;
            let other = number_other(alloc, tables, other)?;
            let loc = loc.copy(alloc)?;
            Ok(LayTree::Split(loc, arms, other))
        }
    }
}

// The arms of a split, in their order, with numbers in the trees under them: their literals stay.
#[cycle(splitting)]
fn number_arms(alloc: Global, tables: &Tables, trees: &[ArmTree]) -> Result<Seq<Arm>, NameFault>
    ensures { AnswersNumbering result (all_of (map (numbered_arm tables.now) trees.now)) }
{
    let mut arms = Seq::new(alloc);
    for tree in trees {
        let under = number_split(alloc, tables, &tree.under)?;
        arms.push(Arm {
            literal: tree.literal,
            under,
        })?;
    }
    Ok(arms)
}

// What stands under the `else` of a split; None where it has no `else`.
#[cycle(splitting)]
fn number_other(
    alloc: Global,
    tables: &Tables,
    other: &Option<Boxed<SplitTree>>,
) -> Result<Option<Boxed<LayTree>>, NameFault>
    ensures { AnswersNumbering result (numbered_else (option_map (numbered_split tables.now) other.now)) }
{
    match other {
        None => Ok(None),
        Some(tree) => {
            let under = number_split(alloc, tables, tree.get())?;
            Ok(Some(Boxed::new(alloc, under)?))
        }
    }
}

// A leaf with the numbers of its provenance, in which nothing is bound.
fn number_leaf(
    alloc: Global,
    tables: &Tables,
    at: u32,
    provenance: &PatTree,
    items: &[LayItem],
) -> Result<LayTree, NameFault>
    ensures { AnswersNumbering result (split_step tables.now (split.Leaf at provenance.now items.now)) }
{
    let provenance = number_pattern(alloc, tables, &Scope::new(alloc), provenance)?;
    let items = copy_items(alloc, items)?;
    Ok(LayTree::Leaf(at, provenance, items))
}
