//! What is still to be done while words are decoded: steps, the last of which is done first. A leaf
//! is the form that a layout has for some values of a type; its provenance is the pattern that
//! matches them, in which wildcards and variables are open positions.

ghost use Rattle.std.specs.Prelude.{OnOk};
ghost use Rattle.rb_core.specs.declared.value.Value.{Value};
ghost use Rattle.rb_core.specs.declared.types.Ty.TheVariants.{Named};
ghost use Rattle.rb_bytes.specs.Memory.{IsGood};
ghost use Rattle.rb_coding.specs.Decoding.{AreOf};
ghost use Rattle.rb_coding.specs.inner.Todo.{IsOpened};

use crate::loading::load_blocks;
use crate::plan::{Opening, plan};
use crate::splits::leaf_number;
use rb_bytes::memory::ByteMemory;
use rb_core::seq::Seq;
use rb_core::types::Ty;
use rb_layout::agreed::Agreed;
use std::alloc::{AllocError, Global};

/// One thing to do: each is one node of the value at least.
#[derive(Drop)]
pub enum Step {
    /// These words at this type are a value.
    Visit(Ty, Seq<u64>),
    /// A construction by this constructor of the last so many values.
    Join(u32, usize),
}

/// Adds to what is to be done what the words of a value of a data type come to: its leaf's
/// constructors, numbers and open positions. The last step is to be done first. The `Err` is want
/// of memory.
pub(crate) fn open<M: ByteMemory>(
    alloc: Global,
    agreed: &Agreed,
    ty: u32,
    words: &[u64],
    memory: &M,
    todo: &mut Vec<Step>,
) -> Result<(), AllocError>
    requires good { IsGood (M.memory memory.now) }
    requires represented { (v : Value) × AreOf agreed.now.covered.program (M.memory memory.now) (Named ty) words.now v }
    ensures { OnOk result (IsOpened agreed.now.covered.program
        (M.memory memory.now) ty words.now todo.old.items todo.new.items) }
{
    let layouts = agreed.layouts();
    let types = agreed.covered().program().types.as_slice();
    let layout = match layouts.get(ty as usize) {
        None => unreachable!(),
        Some(layout) => layout,
    };
    let leaf = match layout
        .leaves
        .get(leaf_number(memory, words, &layout.tree) as usize)
    {
        None => unreachable!(),
        Some(leaf) => leaf,
    };
    let loaded = load_blocks(alloc, memory, leaf, words)?;
    let opening = Opening {
        types,
        layouts,
        leaf,
        words,
        loaded: loaded.as_slice(),
    };
    plan(alloc, &opening, &leaf.prov, Ty::Named(ty), &[], todo)
}
