//! The value that words represent. A node of a value is one of its constructions or numbers. A step
//! is one thing to do: to visit words, whose value is to be found, or to join the last values to a
//! construction.

ghost use Rattle.std.specs.Prelude.{◌≡◌, slice_index};
ghost use Rattle.rb_core.specs.declared.value.Value.{Value};
ghost use Rattle.rb_bytes.specs.Memory.{IsGood};
ghost use Rattle.rb_coding.specs.Decoding.{AreOf, IsDecoded};

use crate::fault::DecodeFault;
use crate::todo::{Step, open};
use rb_bytes::memory::ByteMemory;
use rb_core::seq::Seq;
use rb_core::types::Ty;
use rb_layout::agreed::Agreed;
use rb_values::builder::Builder;
use rb_values::forest::Forest;
use std::alloc::Global;

/// The value of this type that words represent in a memory. Its nodes are told off as they are
/// found, so the work is at most that for so many nodes as the limit, however often the value
/// shares a block.
///
/// # Errors
///
/// `TooLarge` exactly where the value has more nodes than `limit`; or want of memory.
pub fn decode<M: ByteMemory>(
    alloc: Global,
    agreed: &Agreed,
    ty: Ty,
    words: &[u64],
    memory: &M,
    limit: u64,
) -> Result<Forest, DecodeFault>
    requires good { IsGood (M.memory memory.now) }
    requires represented { (v : Value) × AreOf agreed.now.covered.program (M.memory memory.now) ty words.now v }
    ensures { (v : Value) → AreOf agreed.now.covered.program (M.memory memory.now) ty words.now v
        → IsDecoded v limit result }
{
    if limit == 0 {
        return Err(DecodeFault::TooLarge);
    }
    let mut builder = Builder::new(alloc);
    let mut todo = Vec::new(alloc);
    todo.push(Step::Visit(ty, Seq::from_vec(Vec::from_slice(alloc, words)?)))?;
    while let Some(step) = todo.pop() {
        match step {
            Step::Join(con, count) => builder.build(con, count)?,
            Step::Visit(Ty::Int(_), words) => builder.number(first(words.as_slice()))?,
            Step::Visit(Ty::Named(ty), words) => {
                open(alloc, agreed, ty, words.as_slice(), memory, &mut todo)?;
                if todo.len() as u64 > limit - builder.count() as u64 {
                    return Err(DecodeFault::TooLarge);
                }
            }
        }
    }
    Ok(builder.finish())
}

// The first of these words, or 0 where there is none.
fn first(words: &[u64]) -> u64
    ensures { result ≡ slice_index words.now 0 }
{
    match words.get(0) {
        None => 0,
        Some(word) => *word,
    }
}
