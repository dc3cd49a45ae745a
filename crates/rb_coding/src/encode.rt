//! Words and blocks of a value. A node is the outermost level of a value or of a subvalue; nodes
//! are numbered in post-order, each behind those of its fields. A construction is a value of a data
//! type that is built; it asks for the blocks of its leaf, the form that the type's layout has for
//! it. Bits that no part of a layout's words has are free.

ghost use Rattle.std.specs.Prelude.{◌≡◌, map, true};
ghost use Rattle.rb_core.specs.Values.{all_of_types, is_of_type};
ghost use Rattle.rb_bytes.specs.Memory.{IsGood};
ghost use Rattle.rb_coding.specs.Encoding.{AreEncoded, IsEncoded};

use crate::fault::EncodeFault;
use crate::node::node_words;
use crate::posts::{sizes_of, types_of};
use crate::table::Table;
use rb_bytes::memory::ByteMemory;
use rb_core::seq::Seq;
use rb_core::types::Ty;
use rb_layout::agreed::Agreed;
use rb_values::forest::Forest;
use std::alloc::Global;

/// The words of a value of this type, with free bits 0. The memory grows by just the blocks that
/// the value's constructions ask for, inner before outer and from left to right.
///
/// # Errors
///
/// `Full` exactly where one of these blocks doesn't fit, the first one; those before it are placed
/// and written. Or want of memory.
pub fn encode<M: ByteMemory>(
    alloc: Global,
    agreed: &Agreed,
    ty: Ty,
    value: &Forest,
    memory: &mut M,
) -> Result<Seq<u64>, EncodeFault>
    requires good { IsGood (M.memory memory.old) }
    requires typed { is_of_type agreed.now.covered.program.types value.now ty ≡ true }
    ensures { IsEncoded agreed.now.covered.program ty value.now
        (M.memory memory.old) (M.memory memory.new) result }
{
    let program = agreed.covered().program();
    let layouts = agreed.layouts();
    let nodes = value.as_nodes();
    let tys = types_of(alloc, program.types.as_slice(), ty, value)?;
    let mut table = Table {
        sizes: sizes_of(alloc, value)?,
        words: Seq::new(alloc),
    };
    for node in 0..nodes.len() {
        match node_words(alloc, memory, layouts, tys[node], nodes, node, &table) {
            Ok(words) => table.words.push(words)?,
            Err(fault) => return Err(fault),
        }
    }
    match table.words.pop() {
        None => unreachable!(),
        Some(words) => Ok(words),
    }
}

/// The words of values of these types, one behind the other. The values are encoded in turn.
///
/// # Errors
///
/// `Full` exactly where a block of one of the values doesn't fit, the first one; those before it
/// are placed and written. Or want of memory.
pub fn encode_all<M: ByteMemory>(
    alloc: Global,
    agreed: &Agreed,
    tys: &[Ty],
    values: &[Forest],
    memory: &mut M,
) -> Result<Seq<u64>, EncodeFault>
    requires good { IsGood (M.memory memory.old) }
    requires typed { all_of_types (map (is_of_type agreed.now.covered.program.types) values.now) tys.now ≡ true }
    ensures { AreEncoded agreed.now.covered.program tys.now values.now
        (M.memory memory.old) (M.memory memory.new) result }
{
    let mut words = Seq::new(alloc);
    for i in 0..values.len() {
        match encode(alloc, agreed, tys[i], &values[i], memory) {
            Ok(more) => match words.append(more) {
                None => {}
                Some(_) => return Err(EncodeFault::Memory),
            },
            Err(fault) => return Err(fault),
        }
    }
    Ok(words)
}
