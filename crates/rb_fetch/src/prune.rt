//! Trees of splits in which leaves are told apart by groups alone. A split tests the bits at a
//! location of a value's words: an arm leads to the tree below it where they are its literal, and
//! the else, if there is one, where no arm has them. Its arms and its else are its ways. `groups`
//! has at each leaf's number that of its group, or None for a leaf that can't be here. A pruned
//! tree has groups in place of leaves.

ghost use Rattle.std.specs.Prelude.{◌≡◌, IfOk, map};
ghost use Rattle.rb_fetch.specs.Pruning.{few_of, group_at, group_of, is_group, joined_split, pruned_split, lead_all, leads_else, leaf_for, live_arms, pruned_of, Prunes, shared_group};
ghost use Rattle.rb_fetch.specs.inner.Pruning.{pruned_under};

use rb_core::boxed::Boxed;
use rb_core::layout_decl::Loc;
use rb_core::seq::Seq;
use rb_layout::layout::{FlatArm, FlatTree};
use std::alloc::{AllocError, Global};

// The tree that is the group of a leaf alone; none where the leaf has no group, or no place in the
// list.
fn group_leaf(groups: &[Option<u32>], leaf: u32) -> Option<FlatTree>
    ensures { result ≡ leaf_for (group_at groups.now leaf) }
{
    match groups.get(leaf as usize) {
        None => None,
        Some(None) => None,
        Some(Some(group)) => Some(FlatTree::Leaf(*group)),
    }
}

// The group to which a tree of groups leads without a split; None where it begins with one.
fn group_of(tree: &FlatTree) -> Option<u32>
    ensures { result ≡ group_of tree.now }
{
    match tree {
        FlatTree::Leaf(group) => Some(*group),
        FlatTree::Split(_, _, _) => None,
    }
}

// Whether a tree leads to this group without a split.
fn leads_to(tree: &FlatTree, group: u32) -> bool
    ensures { result ≡ is_group (group_of tree.now) group }
{
    match group_of(tree) {
        None => false,
        Some(found) => found == group,
    }
}

// Whether all of these arms lead to this group without a split; true where there are none.
fn lead_all(arms: &[FlatArm], group: u32) -> bool
    ensures { result ≡ lead_all group arms.now }
{
    for arm in arms {
        if !leads_to(&arm.under, group) {
            return false;
        }
    }
    true
}

// Whether the else of a split leads to this group without a split, or there is no else.
fn leads_else(other: &Option<FlatTree>, group: u32) -> bool
    ensures { result ≡ leads_else group other.now }
{
    match other {
        None => true,
        Some(tree) => leads_to(tree, group),
    }
}

// The group to which all arms of a split, and its else if it has one, lead without a split; none
// where there is no such group, or no arm.
fn shared_group(arms: &[FlatArm], other: &Option<FlatTree>) -> Option<u32>
    ensures { result ≡ shared_group arms.now other.now }
{
    let [first, rest @ ..] = arms else {
        return None;
    };
    let group = group_of(&first.under)?;
    if lead_all(rest, group) && leads_else(other, group) {
        return Some(group);
    }
    None
}

// A split of the bits at `loc`, with these arms and no else. Of one arm it is what stands below it,
// since there is no choice; None where there is no arm.
fn few(alloc: Global, loc: &Loc, arms: Seq<FlatArm>) -> Result<Option<FlatTree>, AllocError>
    ensures { IfOk result (λ r. r ≡ few_of loc.now arms) }
{
    if arms.len() > 1 {
        let loc = loc.copy(alloc)?;
        return Ok(Some(FlatTree::Split(loc, arms, None)));
    }
    let mut arms = arms;
    match arms.pop() {
        None => Ok(None),
        Some(arm) => {
            let FlatArm { under, .. } = arm;
            Ok(Some(under))
        }
    }
}

// A split of the bits at `loc`, with these arms and perhaps an else; what stands there where one
// way alone is left, and None where none is.
fn remaining_split(
    alloc: Global,
    loc: &Loc,
    arms: Seq<FlatArm>,
    other: Option<FlatTree>,
) -> Result<Option<FlatTree>, AllocError>
    ensures { IfOk result (λ r. r ≡ pruned_split loc.now arms other) }
{
    match other {
        None => few(alloc, loc, arms),
        Some(tree) => {
            if arms.is_empty() {
                return Ok(Some(tree));
            }
            let loc = loc.copy(alloc)?;
            let tree = Boxed::new(alloc, tree)?;
            Ok(Some(FlatTree::Split(loc, arms, Some(tree))))
        }
    }
}

// A split of the bits at `loc` with these arms and perhaps an else, all pruned already: the leaf of
// a group where all of them lead to it without a split. Else it is what `remaining_split` leaves, and None
// where nothing is left.
fn join_split(
    alloc: Global,
    loc: &Loc,
    arms: Seq<FlatArm>,
    other: Option<FlatTree>,
) -> Result<Option<FlatTree>, AllocError>
    ensures { IfOk result (λ r. r ≡ joined_split loc.now arms other) }
{
    match shared_group(arms.as_slice(), &other) {
        Some(group) => Ok(Some(FlatTree::Leaf(group))),
        None => remaining_split(alloc, loc, arms, other),
    }
}

// The tree that `pruned_tree` answers for this tree and these groups. The call nests as deep as the
// tree.
#[cycle(pruning)]
fn prune(
    alloc: Global,
    tree: &FlatTree,
    groups: &[Option<u32>],
) -> Result<Option<FlatTree>, AllocError>
    ensures { IfOk result (λ r. r ≡ pruned_of groups.now tree.now) }
{
    match tree {
        FlatTree::Leaf(leaf) => Ok(group_leaf(groups, *leaf)),
        FlatTree::Split(loc, arms, other) => {
            let arms = prune_arms(alloc, arms.as_slice(), groups)?;
            match other {
                None => {
                    let left = join_split(alloc, loc, arms, None)?;
                    Ok(left)
                }
                Some(tree) => {
                    let other = prune(alloc, tree.get(), groups)?;
                    let left = join_split(alloc, loc, arms, other)?;
                    Ok(left)
                }
            }
        }
    }
}

// The arms below which a leaf has a group, in their order, with the trees below them pruned.
#[cycle(pruning)]
fn prune_arms(
    alloc: Global,
    arms: &[FlatArm],
    groups: &[Option<u32>],
) -> Result<Seq<FlatArm>, AllocError>
    ensures { IfOk result (λ r. r ≡ live_arms (map (pruned_under groups.now) arms.now)) }
{
    let mut live = Seq::new(alloc);
    for arm in arms {
        if let Some(under) = prune(alloc, &arm.under, groups)? {
            live.push(FlatArm {
                literal: arm.literal,
                under,
            })?;
        }
    }
    Ok(live)
}

/// The tree that leads to the group of a leaf where another leads to the leaf: one group a leaf, and none for a leaf
/// that can't be here. A split below which one way is left is that way, and one of whose ways all lead to one group
/// is that group's leaf. None where no leaf has a group.
///
/// # Errors
///
/// Want of memory.
pub fn pruned_tree(
    alloc: Global,
    tree: &FlatTree,
    groups: &[Option<u32>],
) -> Result<Option<FlatTree>, AllocError>
    ensures same { IfOk result (λ r. r ≡ pruned_of groups.now tree.now) }
    ensures prunes { IfOk result (λ r. Prunes groups.now tree.now r) }
{
    let left = prune(alloc, tree, groups)?;
    Ok(left)
}
