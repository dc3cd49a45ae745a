//! The ways through a tree of splits to its leaves.
//!
//! A split goes by the bits at a location: each of its arms is for a literal, a number that these
//! bits may be, and its `else`, if it has one, for the others. The condition of a split is which of
//! these a leaf stands under. `above` has the lines of the conditions of the splits gone through so
//! far. Every error is want of memory.

ghost use Rattle.std.specs.Prelude.{◌≡◌, ◌++◌, ◌∷◌, [], IfOk, OnOk};
ghost use Rattle.rb_layout.specs.Splits.{routes_of};
ghost use Rattle.rb_show.specs.inner.Ways.{way, ways_behind};

use crate::condition::{push_is, push_is_none};
use rb_core::seq::Seq;
use rb_layout::layout::FlatTree;
use std::alloc::{AllocError, Global};

/// A leaf's number, and the lines of the conditions of the splits above it, from the outside.
#[derive(Drop)]
pub struct Way {
    pub leaf: u32,
    pub conditions: Seq<u8>,
}

/// The ways to the leaves of a tree, from left to right.
pub(crate) fn ways(alloc: Global, tree: &FlatTree) -> Result<Seq<Way>, AllocError>
    ensures { IfOk result (λ ways. ways ≡ ways_behind [] (routes_of tree.now)) }
{
    let mut ways = Seq::new(alloc);
    let mut above = Vec::new(alloc);
    push_ways(alloc, tree, &mut above, &mut ways)?;
    Ok(ways)
}

// Adds the ways to the leaves of a tree that has these conditions above it, which are there again
// afterwards.
#[cycle(leading)]
fn push_ways(
    alloc: Global,
    tree: &FlatTree,
    above: &mut Vec<u8>,
    ways: &mut Seq<Way>,
) -> Result<(), AllocError>
    ensures ways { OnOk result (ways.new ≡ ways.old ++ ways_behind above.old.items (routes_of tree.now)) }
    ensures above { OnOk result (above.new.items ≡ above.old.items) }
{
    match tree {
        FlatTree::Leaf(leaf) => push_way(alloc, *leaf, above.as_slice(), ways),
        FlatTree::Split(loc, arms, other) => {
            for arm in arms.as_slice() {
                let many = above.len();
                push_is(above, loc, arm.literal)?;
                push_ways(alloc, &arm.under, above, ways)?;
                above.truncate(many);
            }
            match other {
                None => Ok(()),
                Some(other) => {
                    let many = above.len();
                    push_is_none(above, loc, arms.as_slice())?;
                    push_ways(alloc, other.get(), above, ways)?;
                    above.truncate(many);
                    Ok(())
                }
            }
        }
    }
}

// Adds the way to this leaf, with a copy of the conditions above it.
fn push_way(
    alloc: Global,
    leaf: u32,
    conditions: &[u8],
    ways: &mut Seq<Way>,
) -> Result<(), AllocError>
    ensures { OnOk result (ways.new ≡ ways.old ++ way leaf conditions.now ∷ []) }
{
    ways.push(Way {
        leaf,
        conditions: Seq::from_vec(Vec::from_slice(alloc, conditions)?),
    })?;
    Ok(())
}
