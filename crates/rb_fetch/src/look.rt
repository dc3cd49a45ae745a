//! Code that finds the leaf of a value, by a tree of splits. A split tests the bits at a location
//! of a value's words, by a switch: an arm leads on where they are its literal, and the else, if
//! there is one, where no arm has them. A hole is a target of a jump or switch that is still open,
//! and its `leaf` is the number of the leaf, or of the group of leaves, to which it leads. A read
//! is a number that code can make from slots and loads. `agreed` has the program and its layouts,
//! and `ty` is the data type of the value, by number; where that has no layout there is no code,
//! and no hole.

ghost use Rattle.std.specs.Prelude.{◌≡◌, ℕ, ◌+◌, ◌<◌, ◌++◌, ◌∷◌, [], None, IfOk, OnOk, length};
ghost use Rattle.rb_target.specs.declared.instr.Instr.TheVariants.{Jump};
ghost use Rattle.rb_target.specs.Growth.{Grows};
ghost use Rattle.rb_target.specs.Sheet.{IsHole, with_target_at, with_more};
ghost use Rattle.rb_fragment.specs.Arms.{AreHoles, AreOfOneWay};
ghost use Rattle.rb_fetch.specs.Finding.{FindsGroup, FindsGroupOf, FindsLeaf, FindsLeafOf, leaf_count};
ghost use Rattle.rb_fetch.specs.Pruning.{GroupsBelow};
ghost use Rattle.rb_fetch.specs.inner.Looking.{open_arms_of, Looks};

use crate::fetch::fetch_bits;
use crate::prune::pruned_tree;
use rb_core::seq::Seq;
use rb_fragment::reads::{Read, slot_reads};
use rb_layout::agreed::Agreed;
use rb_layout::layout::{FlatArm, FlatTree};
use rb_target::body::{Body, Hole};
use rb_target::instr::{Instr, SwitchArm};
use std::alloc::{AllocError, Global};

/// Code that leaves by a hole of the leaf of the value whose words stand in the slots `words`. Arms
/// of switches are holes themselves.
///
/// # Errors
///
/// Want of memory.
pub fn find_leaf(
    alloc: Global,
    body: &mut Body,
    words: &[usize],
    agreed: &Agreed,
    ty: u32,
) -> Result<Seq<Hole>, AllocError>
    ensures leaf { IfOk result (λ holes. FindsLeaf agreed.now ty words.now body.old body.new holes) }
    ensures holes { IfOk result (λ holes. AreHoles (length body.old.code)
        (leaf_count agreed.now ty) body.new.code holes) }
    ensures ways { IfOk result (λ holes. AreOfOneWay holes) }
    ensures grows { OnOk result (Grows body.old.code body.new.code) }
{
    let reads = slot_reads(alloc, words)?;
    let holes = find_leaf_of(alloc, body, reads.as_slice(), agreed, ty)?;
    Ok(holes)
}

/// Code that leaves by a hole of the leaf of the value whose words are these reads, which may stand
/// in memory still. Arms of switches are holes themselves.
///
/// # Errors
///
/// Want of memory.
pub fn find_leaf_of(
    alloc: Global,
    body: &mut Body,
    words: &[Read],
    agreed: &Agreed,
    ty: u32,
) -> Result<Seq<Hole>, AllocError>
    ensures leaf { IfOk result (λ holes. FindsLeafOf agreed.now ty words.now body.old body.new holes) }
    ensures holes { IfOk result (λ holes. AreHoles (length body.old.code)
        (leaf_count agreed.now ty) body.new.code holes) }
    ensures ways { IfOk result (λ holes. AreOfOneWay holes) }
    ensures grows { OnOk result (Grows body.old.code body.new.code) }
{
    let _typed = agreed.covered().program();
    let mut holes = Seq::new(alloc);
    match agreed.layouts().get(ty as usize) {
        None => Ok(holes),
        Some(layout) => {
            let widths = layout.shape.as_slice();
            look(alloc, body, words, widths, &layout.tree, &mut holes)?;
            Ok(holes)
        }
    }
}

/// Code that leaves by a hole of the group of the leaf of the value whose words stand in the slots
/// `words`, where the leaf has one. `groups` has at each leaf's number that of its group, or None
/// for a leaf that can't be here. Where one group is left, no word is tested; where no leaf has a
/// group, there is no code and no hole.
///
/// # Errors
///
/// Want of memory.
pub fn find_group(
    alloc: Global,
    body: &mut Body,
    words: &[usize],
    agreed: &Agreed,
    ty: u32,
    groups: &[Option<u32>],
) -> Result<Seq<Hole>, AllocError>
    ensures group { IfOk result (λ holes. FindsGroup agreed.now ty groups.now words.now body.old body.new holes) }
    ensures holes { IfOk result (λ holes. (count : ℕ) → GroupsBelow count groups.now
        → AreHoles (length body.old.code) count body.new.code holes) }
    ensures ways { IfOk result (λ holes. AreOfOneWay holes) }
    ensures grows { OnOk result (Grows body.old.code body.new.code) }
{
    let reads = slot_reads(alloc, words)?;
    let holes = find_group_of(alloc, body, reads.as_slice(), agreed, ty, groups)?;
    Ok(holes)
}

/// Code that leaves by a hole of the group of the leaf of the value whose words are these reads,
/// which may stand in memory still, where the leaf has one. `groups` has at each leaf's number that
/// of its group, or None for a leaf that can't be here. Where one group is left, no word is tested;
/// where no leaf has a group, there is no code and no hole.
///
/// # Errors
///
/// Want of memory.
pub fn find_group_of(
    alloc: Global,
    body: &mut Body,
    words: &[Read],
    agreed: &Agreed,
    ty: u32,
    groups: &[Option<u32>],
) -> Result<Seq<Hole>, AllocError>
    ensures group { IfOk result (λ holes. FindsGroupOf agreed.now ty groups.now words.now body.old body.new holes) }
    ensures holes { IfOk result (λ holes. (count : ℕ) → GroupsBelow count groups.now
        → AreHoles (length body.old.code) count body.new.code holes) }
    ensures ways { IfOk result (λ holes. AreOfOneWay holes) }
    ensures grows { OnOk result (Grows body.old.code body.new.code) }
{
    let _typed = agreed.covered().program();
    let mut holes = Seq::new(alloc);
    let Some(layout) = agreed.layouts().get(ty as usize) else {
        return Ok(holes);
    };
    match pruned_tree(alloc, &layout.tree, groups)? {
        None => Ok(holes),
        Some(tree) => {
            let widths = layout.shape.as_slice();
            look(alloc, body, words, widths, &tree, &mut holes)?;
            Ok(holes)
        }
    }
}

// Code that leaves by a hole of the leaf to which the tree leads, by the words that the reads
// `words` mean, and adds its holes to `holes`. A word has at most as many bits as stand in its
// place in `widths`.
#[cycle(looking)]
fn look(
    alloc: Global,
    body: &mut Body,
    words: &[Read],
    widths: &[u64],
    tree: &FlatTree,
    holes: &mut Seq<Hole>,
) -> Result<(), AllocError>
    ensures grows { OnOk result (Grows body.old.code body.new.code) }
    ensures looks { OnOk result (Looks words.now widths.now tree.now body.old holes.old body.new holes.new) }
{
    match tree {
        FlatTree::Leaf(leaf) => {
            leave(body, *leaf as usize, holes)?;
            Ok(())
        }
        FlatTree::Split(loc, arms, other) => {
            let slot = fetch_bits(alloc, body, words, widths, loc)?;
            let pc = body.len();
            let places = open_arms(alloc, arms.as_slice(), pc + 1)?;
            body.push(Instr::Switch(slot, other.is_some().then_some(pc + 1), places))?;
            for (k, arm) in arms.as_slice().iter().enumerate() {
                match &arm.under {
                    FlatTree::Leaf(leaf) => holes.push(way_out(pc, Some(k), *leaf as usize))?,
                    FlatTree::Split(_, _, _) => {
                        lead_here(body, pc, Some(k));
                        look(alloc, body, words, widths, &arm.under, holes)?;
                    }
                }
            }
            match other {
                None => Ok(()),
                Some(tree) => match tree.get() {
                    FlatTree::Leaf(leaf) => {
                        holes.push(way_out(pc, None, *leaf as usize))?;
                        Ok(())
                    }
                    FlatTree::Split(_, _, _) => {
                        lead_here(body, pc, None);
                        look(alloc, body, words, widths, tree.get(), holes)?;
                        Ok(())
                    }
                },
            }
        }
    }
}

// A way out to a leaf, still open: an arm of the switch at `pc` by its number; without one, the
// else of that switch, or the jump at `pc`.
fn way_out(pc: usize, arm: Option<usize>, leaf: usize) -> Hole
    ensures { result ≡ record { pc = pc; arm = arm; leaf = leaf } }
{
    Hole { pc, arm, leaf }
}

// Code of a tree that is one leaf: a jump, which is added to `holes` as a hole of that leaf.
fn leave(body: &mut Body, leaf: usize, holes: &mut Seq<Hole>) -> Result<(), AllocError>
    ensures code { OnOk result (body.new ≡ with_more body.old (Jump (length body.old.code + 1))) }
    ensures holes { OnOk result (holes.new
        ≡ holes.old ++ record { pc = length body.old.code; arm = None; leaf = leaf } ∷ []) }
{
    let pc = body.len();
    body.push(Instr::Jump(pc + 1))?;
    holes.push(way_out(pc, None, leaf))?;
    Ok(())
}

// Sets an arm of the switch at `pc`, or its else where no arm is given, to the end of the code,
// where the code of the inner split comes.
fn lead_here(body: &mut Body, pc: usize, arm: Option<usize>)
    requires inside { IsHole body.old.code (record { pc = pc; arm = arm; leaf = 0 }) }
    requires forward { pc < length body.old.code }
    ensures { body.new ≡ with_target_at body.old (record { pc = pc; arm = arm; leaf = 0 }) (length body.old.code) }
{
    let here = body.len();
    body.patch(&way_out(pc, arm, 0), here);
}

// A switch's arms for the literals of `arms`, each still open: it leads to instruction `next`, the
// one behind the switch.
fn open_arms(alloc: Global, arms: &[FlatArm], next: usize) -> Result<Seq<SwitchArm>, AllocError>
    ensures { IfOk result (λ found. found ≡ open_arms_of next arms.now) }
{
    let mut found = Seq::new(alloc);
    for arm in arms {
        found.push(SwitchArm {
            number: arm.literal,
            target: next,
        })?;
    }
    Ok(found)
}
