//! Whether the literals of splits are distinct and fit, and each split has an arm or an `else`. A
//! split looks at the bits at a location; its arms are for the numbers that may stand there, their
//! literals, and its `else` is for all others. A call that says how something fails answers None
//! where nothing does; its `Err` is want of memory.

ghost use Rattle.std.specs.Prelude.{◌≡◌, ◌<◌, ◌^◌, IfOk, MatchOption};
ghost use Rattle.rb_layout.specs.Splits.{splits_of};
ghost use Rattle.rb_layout.specs.A7.{IsLiteral};
ghost use Rattle.rb_layout.specs.A8.{AllSplitWell, FailsSplits, SplitsWell, length_of};
ghost use Rattle.rb_agree.specs.inner.Lists.{FindsIn};
ghost use Rattle.rb_agree.specs.inner.Splits.{AreDistinct, AreFit, FailsSplit, IsTwice, arm_splits, literals_in, split_of};

use crate::numbers::fits;
use rb_core::layout_decl::Loc;
use rb_core::seq::Seq;
use rb_layout::evidence::Why;
use rb_layout::layout::{FlatArm, FlatTree, Layout};
use std::alloc::{AllocError, Global};
use std::collections::BTreeSet;

/// How many bits the last range of a location has, that behind its last step, or its only one.
pub(crate) fn length_of(loc: &Loc) -> u64
    ensures { result ≡ length_of loc.now }
{
    let mut l = loc.l;
    for step in loc.steps.as_slice() {
        l = step.l;
    }
    l
}

// The literals of arms, in their order.
fn literals_of(alloc: Global, arms: &[FlatArm]) -> Result<Seq<u64>, AllocError>
    ensures { IfOk result (λ literals. literals ≡ literals_in arms.now) }
{
    let mut literals = Seq::new(alloc);
    for arm in arms {
        literals.push(arm.literal)?;
    }
    Ok(literals)
}

// The first literal that has more than so many bits; None where there is none.
fn wide_literal(literals: &[u64], bits: u64) -> Option<u64>
    ensures { MatchOption result (AreFit bits literals.now) (λ c. IsLiteral literals.now c × (c < 2 ^ bits → ⊥)) }
{
    for k in 0..literals.len() {
        if !fits(literals[k], bits) {
            return Some(literals[k]);
        }
    }
    None
}

// The first literal that stands among those before it, too; None where there is none.
fn twice(alloc: Global, literals: &[u64]) -> Result<Option<u64>, AllocError>
    ensures { IfOk result (λ found. MatchOption found (AreDistinct literals.now) (IsTwice literals.now)) }
{
    let mut before = BTreeSet::new(alloc);
    for k in 0..literals.len() {
        if !before.insert(literals[k])? {
            return Ok(Some(literals[k]));
        }
    }
    Ok(None)
}

// How a split at a location with these arms fails.
fn split_fault(
    alloc: Global,
    loc: &Loc,
    arms: &[FlatArm],
    has_else: bool,
) -> Result<Option<Why>, AllocError>
    ensures { IfOk result (λ found. MatchOption found
        (SplitsWell (split_of loc.now arms.now has_else)) (FailsSplit (split_of loc.now arms.now has_else))) }
{
    let literals = literals_of(alloc, arms)?;
    if let Some(literal) = wide_literal(literals.as_slice(), length_of(loc)) {
        return Ok(Some(Why::LiteralWide(loc.copy(alloc)?, literal)));
    }
    if let Some(literal) = twice(alloc, literals.as_slice())? {
        return Ok(Some(Why::LiteralTwice(loc.copy(alloc)?, literal)));
    }
    if has_else {
        return Ok(None);
    }
    if literals.is_empty() {
        return Ok(Some(Why::NoArm(loc.copy(alloc)?)));
    }
    Ok(None)
}

// How some split of a tree fails, outer ones before inner ones.
#[cycle(splitting)]
fn tree_fault(alloc: Global, tree: &FlatTree) -> Result<Option<Why>, AllocError>
    ensures { IfOk result (FindsIn SplitsWell FailsSplit (splits_of tree.now)) }
{
    match tree {
        FlatTree::Leaf(_) => Ok(None),
        FlatTree::Split(loc, arms, other) => {
            if let Some(why) = split_fault(alloc, loc, arms.as_slice(), other.is_some())? {
                return Ok(Some(why));
            }
            if let Some(why) = arms_fault(alloc, arms.as_slice())? {
                return Ok(Some(why));
            }
            match other {
                None => Ok(None),
                Some(tree) => tree_fault(alloc, tree.get()),
            }
        }
    }
}

// How some split in the trees below these arms fails, arm by arm.
#[cycle(splitting)]
fn arms_fault(alloc: Global, arms: &[FlatArm]) -> Result<Option<Why>, AllocError>
    ensures { IfOk result (FindsIn SplitsWell FailsSplit (arm_splits arms.now)) }
{
    for arm in arms {
        if let Some(why) = tree_fault(alloc, &arm.under)? {
            return Ok(Some(why));
        }
    }
    Ok(None)
}

/// How a split of a layout fails to have distinct literals that fit its range, and an arm or an `else`.
///
/// # Errors
///
/// Want of memory.
pub fn splits_fault(alloc: Global, layout: &Layout) -> Result<Option<Why>, AllocError>
    ensures { IfOk result (λ found. MatchOption found (AllSplitWell layout.now) (FailsSplits layout.now)) }
{
    tree_fault(alloc, &layout.tree)
}
