//! The lines of leaves. A way leads to a leaf from the root of the splits: it has the leaf's
//! number, and the lines of the conditions of the splits above it. A leaf holds the values of one
//! pattern, its provenance, in its root words and in the blocks to which their pointers lead. Lines
//! are added at the end of `text`. Every error is want of memory.

ghost use Rattle.std.specs.Prelude.{◌≡◌, ◌++◌, OnOk};
ghost use Rattle.rb_show.specs.Lines.{leaf_lines};
ghost use Rattle.rb_show.specs.Short.{HaveShortBlocks, HaveShortWords};
ghost use Rattle.rb_show.specs.inner.Ways.{way_lines};

use crate::ways::Way;
use crate::word::{push_blocks, push_root};
use rb_core::pattern_text::push_pattern;
use rb_core::seq::Seq;
use rb_core::text::push;
use rb_core::types::DataDecl;
use rb_layout::layout::Leaf;
use std::alloc::AllocError;

// Adds the lines of a leaf, with those of the conditions of the splits above it.
fn push_leaf(
    text: &mut Vec<u8>,
    types: &[DataDecl],
    conditions: &[u8],
    leaf: &Leaf,
) -> Result<(), AllocError>
    requires { HaveShortWords leaf.now.blocks }
    ensures { OnOk result (text.new.items ≡ text.old.items ++ leaf_lines types.now conditions.now leaf.now) }
{
    push(text, b"leaf ")?;
    push_pattern(text, types, &leaf.prov)?;
    push(text, b"\n")?;
    push(text, conditions)?;
    push_root(text, leaf.root.as_slice())?;
    push_blocks(text, leaf.blocks.as_slice())?;
    Ok(())
}

/// Adds the lines of the leaf to which a way leads; nothing where there is no such leaf.
pub(crate) fn push_way(
    text: &mut Vec<u8>,
    types: &[DataDecl],
    leaves: &Seq<Leaf>,
    way: &Way,
) -> Result<(), AllocError>
    requires { HaveShortBlocks leaves.now }
    ensures { OnOk result (text.new.items ≡ text.old.items ++ way_lines types.now leaves.now way.now) }
{
    match leaves.get(way.leaf as usize) {
        None => Ok(()),
        Some(leaf) => push_leaf(text, types, way.conditions.as_slice(), leaf),
    }
}
