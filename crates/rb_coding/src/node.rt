//! The words of one node. A node is the outermost level of a value or of a subvalue: a number, or a
//! construction, whose leaf is the form that the layout of its type has for it, with root words and
//! blocks. `nodes` are those of the whole value, in post-order, and `node` is the number of one.

ghost use Rattle.std.specs.Prelude.{◌≡◌, ◌∷◌, [], IfOk};
ghost use Rattle.rb_bytes.specs.Memory.{IsGood};
ghost use Rattle.rb_values.specs.Nodes.{at};
ghost use Rattle.rb_coding.specs.inner.Making.{ValueIsReady, IsNodeMade};
ghost use Rattle.rb_coding.specs.inner.Nodes.{subs_of};

use crate::blocks::leaf_words;
use crate::fault::EncodeFault;
use crate::leaf::leaf_of;
use crate::table::{Table, layer_at};
use rb_bytes::memory::ByteMemory;
use rb_core::seq::Seq;
use rb_core::types::Ty;
use rb_layout::layout::Layout;
use rb_values::nodes::{Layer, Nodes};
use std::alloc::{AllocError, Global};

/// The sequence of this one word.
pub(crate) fn one_word(alloc: Global, word: u64) -> Result<Seq<u64>, AllocError>
    ensures { IfOk result (λ words. words ≡ word ∷ []) }
{
    let mut words = Seq::new(alloc);
    words.push(word)?;
    Ok(words)
}

/// The words of a node at its type, given those of the nodes before it in `table`. The blocks of
/// its leaf are placed in the memory and filled. The `Err` is the first block that does not fit, or
/// want of memory.
pub(crate) fn node_words<M: ByteMemory>(
    alloc: Global,
    memory: &mut M,
    layouts: &[Layout],
    ty: Ty,
    nodes: &Nodes,
    node: usize,
    table: &Table,
) -> Result<Seq<u64>, EncodeFault>
    requires good { IsGood (M.memory memory.old) }
    requires ready { ValueIsReady layouts.now ty (at nodes.now node) }
    ensures { IsNodeMade layouts.now ty (at nodes.now node) (subs_of table.now nodes.now node)
        (M.memory memory.old) (M.memory memory.new) result }
{
    match ty {
        Ty::Int(_) => match layer_at(nodes, node) {
            Layer::Num(n) => Ok(one_word(alloc, n)?),
            Layer::Con(_, _) => unreachable!(),
        },
        Ty::Named(ty) => match leaf_of(layouts, ty, nodes, node) {
            None => unreachable!(),
            Some(leaf) => leaf_words(alloc, memory, leaf, nodes, node, table),
        },
    }
}
