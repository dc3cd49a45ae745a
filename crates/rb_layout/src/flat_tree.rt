//! The flat form of a tree of splits: its leaves are numbered from left to right, and listed apart.
//! What fails, fails for want of memory.

ghost use Rattle.std.specs.Prelude.{◌≡◌, ◌∷◌, ◌++◌, [], flat_map, length, map, IfOk, OnOk};
ghost use Rattle.rb_core.specs.Layouts.{leaves, leaves_under};
ghost use Rattle.rb_layout.specs.Flattening.{arm_numbering, arms_from, numbering};
ghost use Rattle.rb_layout.specs.inner.Laying.{arm_for, leaf_for, leaves_for};
ghost use Rattle.rb_layout.specs.declared.layout.FlatTree as Flat;

use crate::flat_leaf::flat_leaf;
use crate::layout::{FlatArm, FlatTree, Leaf};
use rb_core::boxed::Boxed;
use rb_core::layout_decl::{Arm, LayItem, LayTree};
use rb_core::pattern::Pat;
use rb_core::program::Program;
use rb_core::seq::Seq;
use std::alloc::{AllocError, Global};

/// The flat form of a tree. Its leaves are added behind those that are there, and numbered by their
/// places.
#[cycle(splitting)]
pub(crate) fn flat_tree(
    alloc: Global,
    program: &Program,
    tree: &LayTree,
    flat: &mut Seq<Leaf>,
) -> Result<FlatTree, AllocError>
    ensures tree { IfOk result (λ r. r ≡ (numbering tree.now).from (length flat.old)) }
    ensures leaves { OnOk result (flat.new ≡ flat.old ++ leaves_for program.now (leaves tree.now)) }
{
    match tree {
        LayTree::Leaf(_, prov, items) => push_leaf(alloc, program, prov, items.as_slice(), flat),
        LayTree::Split(loc, arms, other) => {
            let loc = loc.copy(alloc)?;
            let arms = flat_arms(alloc, program, arms.as_slice(), flat)?;
            match other {
                None => Ok(FlatTree::Split(loc, arms, None)),
                Some(other) => {
                    let under = flat_tree(alloc, program, other.get(), flat)?;
                    let under = Boxed::new(alloc, under)?;
                    Ok(FlatTree::Split(loc, arms, Some(under)))
                }
            }
        }
    }
}

// The flat forms of arms, from left to right. Their leaves are added behind those that are there.
#[cycle(splitting)]
fn flat_arms(
    alloc: Global,
    program: &Program,
    arms: &[Arm],
    flat: &mut Seq<Leaf>,
) -> Result<Seq<FlatArm>, AllocError>
    ensures arms { IfOk result (λ r. r ≡ arms_from (map arm_numbering arms.now) (length flat.old)) }
    ensures leaves { OnOk result (flat.new ≡ flat.old ++ leaves_for program.now (flat_map leaves_under arms.now)) }
{
    let mut flats = Seq::new(alloc);
    for arm in arms {
        flats.push(flat_arm(alloc, program, arm, flat)?)?;
    }
    Ok(flats)
}

// The flat form of an arm. Its leaves are added behind those that are there.
#[cycle(splitting)]
fn flat_arm(
    alloc: Global,
    program: &Program,
    arm: &Arm,
    flat: &mut Seq<Leaf>,
) -> Result<FlatArm, AllocError>
    ensures arm { IfOk result (λ r. r ≡ arm_for arm.now (length flat.old)) }
    ensures leaves { OnOk result (flat.new ≡ flat.old ++ leaves_for program.now (leaves_under arm.now)) }
{
    let under = flat_tree(alloc, program, &arm.under, flat)?;
    Ok(FlatArm {
        literal: arm.literal,
        under,
    })
}

// Adds the leaf with this provenance and these items, and answers the tree that is this leaf. There
// is no memory for 2^32 of them.
fn push_leaf(
    alloc: Global,
    program: &Program,
    prov: &Pat,
    items: &[LayItem],
    flat: &mut Seq<Leaf>,
) -> Result<FlatTree, AllocError>
    ensures tree { IfOk result (λ r. r ≡ Flat.Leaf (length flat.old)) }
    ensures leaves { OnOk result (flat.new ≡ flat.old ++ leaf_for program.now prov.now items.now ∷ []) }
{
    let Ok(number) = u32::try_from(flat.len()) else {
        return Err(AllocError);
    };
    flat.push(flat_leaf(alloc, program, items, prov)?)?;
    Ok(FlatTree::Leaf(number))
}
