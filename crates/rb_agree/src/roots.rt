//! Whether the root words of a leaf have the shape's widths. The root words of a leaf are those
//! outside of blocks; a shape lists the widths of the words of a layout, in bits.

ghost use Rattle.std.specs.Prelude.{IfOk, MatchOption};
ghost use Rattle.rb_layout.specs.A2.{FailsRoot, HasRoot};

use rb_layout::evidence::Why;
use rb_layout::layout::Leaf;
use rb_layout::numbers::number_of;
use std::alloc::AllocError;

/// How a leaf's root words fail to have the widths of a shape, by their number or by the first that
/// has another width; None where they have them.
///
/// # Errors
///
/// Want of memory.
pub fn root_fault(shape: &[u64], leaf: &Leaf) -> Result<Option<Why>, AllocError>
    ensures { IfOk result (λ found. MatchOption found (HasRoot shape.now leaf.now) (FailsRoot shape.now leaf.now)) }
{
    let root = leaf.root.as_slice();
    if shape.len() != root.len() {
        return Ok(Some(Why::WordCount(shape.len() as u64, root.len() as u64)));
    }
    for i in 0..root.len() {
        let width = root[i].width;
        let wanted = shape[i];
        if width != wanted {
            return Ok(Some(Why::WordWidth(number_of(i)?, width, wanted)));
        }
    }
    Ok(None)
}
