//! Code that makes the words and the blocks of a leaf. A leaf holds some of a type's values, those
//! that its provenance, a pattern, matches. An open position is a wildcard of that pattern, by its
//! path from the root, and a subvalue is the value at one, in slots. Root words are those of the
//! value itself; all others stand in blocks.

ghost use Rattle.std.specs.Prelude.{◌≡◌, IfOk, OnOk};
ghost use Rattle.rb_target.specs.Growth.{Grows};
ghost use Rattle.rb_compose.specs.Making.{MakesLeaf};
ghost use Rattle.rb_compose.specs.inner.Code.{leaf_code, leaf_slots, root_slots, roots_code};

use crate::block::emit_blocks;
use crate::subvalue::Subvalue;
use crate::word::emit_root;
use rb_core::seq::Seq;
use rb_layout::layout::{FlatWord, Leaf};
use rb_target::body::Body;
use std::alloc::{AllocError, Global};

/// Code that makes a value of a leaf, of `subs`, the subvalues at its open positions. Answers the
/// slots of the value's words, in their order, which are new.
///
/// # Errors
///
/// Want of memory.
pub fn emit_leaf(
    alloc: Global,
    body: &mut Body,
    leaf: &Leaf,
    subs: &[Subvalue],
) -> Result<Seq<usize>, AllocError>
    ensures makes { IfOk result (λ slots. MakesLeaf leaf.now subs.now body.old body.new slots) }
    ensures grows { OnOk result (Grows body.old.code body.new.code) }
{
    let slots = emit_words(alloc, body, leaf, subs)?;
    Ok(slots)
}

// Appends code that places and fills the blocks of a leaf, inner ones before outer ones, and then
// composes its root words. Answers the slots of these.
fn emit_words(
    alloc: Global,
    body: &mut Body,
    leaf: &Leaf,
    subs: &[Subvalue],
) -> Result<Seq<usize>, AllocError>
    ensures slots { IfOk result (λ slots. slots ≡ leaf_slots subs.now leaf.now body.old) }
    ensures code { OnOk result (body.new ≡ leaf_code subs.now leaf.now body.old) }
{
    let mut blocks = Seq::new(alloc);
    emit_blocks(body, leaf.blocks.as_slice(), subs, &mut blocks)?;
    let slots = emit_roots(alloc, body, leaf.root.as_slice(), subs, blocks.as_slice())?;
    Ok(slots)
}

// Appends code that leaves the words of the value itself in new slots, one each, and answers these
// in their order. `blocks` has the slots of the addresses of the leaf's blocks.
fn emit_roots(
    alloc: Global,
    body: &mut Body,
    words: &[FlatWord],
    subs: &[Subvalue],
    blocks: &[usize],
) -> Result<Seq<usize>, AllocError>
    ensures slots { IfOk result (λ slots. slots ≡ root_slots subs.now blocks.now words.now body.old) }
    ensures code { OnOk result (body.new ≡ roots_code subs.now blocks.now words.now body.old) }
{
    let mut slots = Seq::new(alloc);
    for word in words {
        let slot = emit_root(body, word.parts.as_slice(), subs, blocks)?;
        slots.push(slot)?;
    }
    Ok(slots)
}
