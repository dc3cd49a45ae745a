//! The text of layouts.
//!
//! A leaf of a layout holds the values of one pattern, its provenance. A way leads to a leaf
//! through the splits: it has the leaf's number and the lines of their conditions. `types` are the
//! types of the program. Every error is want of memory.

ghost use Rattle.std.specs.Prelude.{◌≡◌, ◌++◌, IfOk, OnErr, OnOk};
ghost use Rattle.std.specs.List.{flat_map};
ghost use Rattle.rb_show.specs.Lines.{layout_lines, layouts_text, type_line};
ghost use Rattle.rb_show.specs.Short.{HaveShortBlocks};
ghost use Rattle.rb_show.specs.inner.Ways.{way_lines};

use crate::leaf::push_way;
use crate::ways::{Way, ways};
use rb_core::seq::Seq;
use rb_core::text::{push, push_name};
use rb_core::types::DataDecl;
use rb_layout::agreed::Agreed;
use rb_layout::layout::{Layout, Leaf};
use std::alloc::{AllocError, Global};

// Adds the first line of a layout: the name of its type.
fn push_type_line(text: &mut Vec<u8>, types: &[DataDecl], ty: u32) -> Result<(), AllocError>
    ensures { OnOk result (text.new.items ≡ text.old.items ++ type_line types.now ty) }
{
    push(text, b"type ")?;
    push_name(text, types, ty)?;
    push(text, b"\n")?;
    Ok(())
}

// Adds the lines of the leaves to which ways lead, in the order of the ways.
fn push_leaves(
    text: &mut Vec<u8>,
    types: &[DataDecl],
    leaves: &Seq<Leaf>,
    ways: &[Way],
) -> Result<(), AllocError>
    requires { HaveShortBlocks leaves.now }
    ensures { OnOk result (text.new.items ≡ text.old.items ++ flat_map (way_lines types.now leaves.now) ways.now) }
{
    for way in ways {
        push_way(text, types, leaves, way)?;
    }
    Ok(())
}

// Adds the lines of one layout leaf by leaf, so that a part of them may be left where memory is
// wanting.
fn push_lines(
    alloc: Global,
    text: &mut Vec<u8>,
    types: &[DataDecl],
    layout: &Layout,
) -> Result<(), AllocError>
    requires { HaveShortBlocks layout.now.leaves }
    ensures { OnOk result (text.new.items ≡ text.old.items ++ layout_lines types.now layout.now) }
{
    push_type_line(text, types, layout.ty)?;
    let ways = ways(alloc, &layout.tree)?;
    push_leaves(text, types, &layout.leaves, ways.as_slice())?;
    Ok(())
}

/// Adds the text of one layout to a text, where the words of its blocks are few and short, as those
/// of layouts that agree with their types are.
///
/// # Errors
///
/// Want of memory. Then the text is as it was.
pub fn push_layout(
    alloc: Global,
    text: &mut Vec<u8>,
    types: &[DataDecl],
    layout: &Layout,
) -> Result<(), AllocError>
    requires { HaveShortBlocks layout.now.leaves }
    ensures ok { OnOk result (text.new.items ≡ text.old.items ++ layout_lines types.now layout.now) }
    ensures err { OnErr result (text.new.items ≡ text.old.items) }
{
    let mut lines = Vec::new(alloc);
    push_lines(alloc, &mut lines, types, layout)?;
    push(text, lines.as_slice())
}

/// The text of the layouts of a program, in the order of its types: for each leaf its provenance,
/// the conditions of the splits above it from the outside, and its words and blocks with their
/// parts and their free bits.
///
/// # Errors
///
/// Want of memory.
pub fn show_layouts(alloc: Global, agreed: &Agreed) -> Result<Vec<u8>, AllocError>
    ensures { IfOk result (λ text. text.items ≡ layouts_text agreed.now.covered.program.types agreed.now.layouts) }
{
    let mut text = Vec::new(alloc);
    let types = agreed.covered().program().types.as_slice();
    for layout in agreed.layouts() {
        push_layout(alloc, &mut text, types, layout)?;
    }
    Ok(text)
}
