//! Which leaves pass the tests on the ways to them, in one walk over the tree of splits. A location
//! is where a split looks: a range of bits of a word. A leaf excludes a literal there where its
//! bits are never that number. A way leads from the root of the tree to a leaf. Marks have one
//! truth value for each leaf, by its number; a mark is on where the leaf may fail. An `Err` is want
//! of memory.
//!
//! The leaves below a part of a tree stand side by side. So behind each arm of a split the walk knows the
//! first and the last of the leaves below it, asks each of them the arm's literal, and marks those that
//! fail. Take the tree
//!
//! ```text
//! split 0[0:1] { 0 => A : .. 1 => split 0[1:1] { 0 => B : .. 1 => C : .. } }
//! ```
//!
//! Leaf 0 is asked for the outer 0. Below the outer 1, leaf 1 is asked for the inner 0 and leaf 2 for the
//! inner 1, and then both for the outer 1. A leaf is asked as often as splits stand above it, where a walk
//! of its own for each leaf goes through the whole tree each time. Below an `else`, where it is asked for
//! each literal of the arms, a leaf that is alike to one that excludes them all is not asked again. One of
//! each kind is kept for that, so that leaves of several kinds may stand there in turn.

ghost use Rattle.std.specs.Prelude.{◌≡◌, IfOk, None, OnOk};
ghost use Rattle.std.specs.Bool.{OnTrue};
ghost use Rattle.rb_layout.specs.A7.{MeetsTest};
ghost use Rattle.rb_layout.specs.Readable.{IsReadable};
ghost use Rattle.rb_layout.specs.Splits.{routes_of};
ghost use Rattle.rb_agree.specs.inner.Lists.{EachOf};
ghost use Rattle.rb_agree.specs.inner.Passing.{AreAsked, AreWalked, CoversSpan, IsAsked, IsLike, IsOff, IsPrior, KeepsMarks, PassWhereOff, test_of};
ghost use Rattle.rb_agree.specs.inner.Tests.{arms_routes};

use crate::alike::are_alike;
use crate::tests::{else_fault, literal_fault};
use rb_core::layout_decl::Loc;
use rb_core::seq::Seq;
use rb_core::types::DataDecl;
use rb_layout::graphs::no_marks;
use rb_layout::known_bits;
use rb_layout::layout::{FlatArm, FlatTree, Layout, Leaf};
use std::alloc::{AllocError, Global};

/// The leaves from number `first` on, before number `end`.
#[derive(Clone, Copy)]
pub struct Span {
    pub first: usize,
    pub end: usize,
}

/// What a split asks of leaves at its location: of those below an arm to have its literal, and of
/// those below its `else`, where `literal` is None, to exclude those of all arms.
#[derive(Clone, Copy)]
pub struct Asking<'a> {
    pub loc: &'a Loc,
    pub arms: &'a [FlatArm],
    pub literal: Option<u64>,
}

// The span of all leaves from the first of both spans on to the last of both.
fn joined_span(one: Span, other: Span) -> Span
    ensures one { CoversSpan result one }
    ensures other { CoversSpan result other }
{
    let first = if one.first < other.first {
        one.first
    } else {
        other.first
    };
    let end = if one.end < other.end {
        other.end
    } else {
        one.end
    };
    Span { first, end }
}

// Puts the mark of leaf `n` on, which says that the leaf may fail a test; nothing changes where it
// has none.
fn mark(marks: &mut Seq<bool>, n: usize)
    ensures keeps { KeepsMarks marks.old marks.new }
    ensures on { IsOff marks.new n → ⊥ }
{
    if n < marks.len() {
        marks.replace(n, true);
    }
}

// Whether a leaf is known to be alike at a location to one of those with the numbers `priors`, so
// that it excludes the same there.
fn is_like(types: &[DataDecl], leaves: &[Leaf], leaf: &Leaf, loc: &Loc, priors: &[usize]) -> bool
    ensures { OnTrue result (IsLike types.now leaves.now leaf.now loc.now priors.now) }
{
    for n in priors {
        if let Some(one) = leaves.get(*n) {
            if are_alike(types, one, leaf, loc) {
                return true;
            }
        }
    }
    false
}

// Whether a leaf need not be asked: a split asks it to exclude literals, and it is alike at the
// split's location to one of those with the numbers `priors`.
fn is_spared(
    types: &[DataDecl],
    leaves: &[Leaf],
    leaf: &Leaf,
    asking: &Asking,
    priors: &[usize],
) -> bool
    ensures { OnTrue result ((asking.now.literal ≡ None)
        × IsLike types.now leaves.now leaf.now asking.now.loc.now priors.now) }
{
    match asking.literal {
        Some(_) => false,
        None => is_like(types, leaves, leaf, asking.loc, priors),
    }
}

// Whether a leaf that excludes the literals of all arms is worth a comparison with later leaves,
// where so many are compared already: a literal takes a derivation in it, as no number is known
// there, and comparing never comes to more than the literals. It changes no answer.
fn is_kept(leaf: &Leaf, asking: &Asking, count: usize) -> bool
    requires { IsReadable leaf.now }
{
    asking.literal.is_none() && count < asking.arms.len() && known_bits(leaf, asking.loc).is_none()
}

// Whether a leaf meets what a split asks: to have a literal, or to exclude those of all arms.
fn meets(
    alloc: Global,
    types: &[DataDecl],
    layouts: &[Layout],
    leaf: &Leaf,
    asking: &Asking,
) -> Result<bool, AllocError>
    requires { IsReadable leaf.now }
    ensures { IfOk result
        (λ b. OnTrue b (MeetsTest types.now layouts.now leaf.now (test_of asking.now))) }
{
    let loc = asking.loc;
    match asking.literal {
        Some(number) => Ok(literal_fault(alloc, types, layouts, leaf, loc, number)?.is_none()),
        None => Ok(else_fault(alloc, types, layouts, leaf, loc, asking.arms)?.is_none()),
    }
}

// Marks leaf `n` where it fails what a split asks. The leaves with the numbers `priors` are known
// to meet it: one that is alike to one of them is not asked, and one that is asked and meets it may
// become one of them.
fn ask(
    alloc: Global,
    types: &[DataDecl],
    layouts: &[Layout],
    leaves: &[Leaf],
    asking: &Asking,
    n: usize,
    priors: &mut Seq<usize>,
    marks: &mut Seq<bool>,
) -> Result<(), AllocError>
    requires readable { EachOf IsReadable leaves.now }
    requires priors { EachOf (IsPrior types.now layouts.now leaves.now (test_of asking.now)) priors.old }
    ensures asked { OnOk result
        (IsAsked types.now layouts.now leaves.now (test_of asking.now) n marks.old marks.new) }
    ensures priors { OnOk result
        (EachOf (IsPrior types.now layouts.now leaves.now (test_of asking.now)) priors.new) }
{
    let Some(leaf) = leaves.get(n) else {
        return Ok(());
    };
    if is_spared(types, leaves, leaf, asking, priors.as_slice()) {
        return Ok(());
    }
    if !meets(alloc, types, layouts, leaf, asking)? {
        mark(marks, n);
        return Ok(());
    }
    if is_kept(leaf, asking, priors.len()) {
        priors.push(n)?;
    }
    Ok(())
}

// Marks those leaves of a span that fail what a split asks of them.
fn ask_all(
    alloc: Global,
    types: &[DataDecl],
    layouts: &[Layout],
    leaves: &[Leaf],
    asking: &Asking,
    span: Span,
    marks: &mut Seq<bool>,
) -> Result<(), AllocError>
    requires { EachOf IsReadable leaves.now }
    ensures { OnOk result
        (AreAsked types.now layouts.now leaves.now (test_of asking.now) span marks.old marks.new) }
{
    let mut priors = Seq::new(alloc);
    for n in span.first..span.end {
        ask(alloc, types, layouts, leaves, asking, n, &mut priors, marks)?;
    }
    Ok(())
}

// Marks the leaves of a tree that fail a test in it on a way to them, and answers a span in which
// all its leaves stand.
#[cycle(walking)]
fn walk_tree(
    alloc: Global,
    types: &[DataDecl],
    layouts: &[Layout],
    leaves: &[Leaf],
    tree: &FlatTree,
    marks: &mut Seq<bool>,
) -> Result<Span, AllocError>
    requires { EachOf IsReadable leaves.now }
    ensures { IfOk result
        (λ span. AreWalked types.now layouts.now leaves.now (routes_of tree.now) span marks.old marks.new) }
{
    match tree {
        FlatTree::Leaf(number) => {
            let first = *number as usize;
            Ok(Span {
                first,
                end: first + 1,
            })
        }
        FlatTree::Split(loc, arms, other) => {
            let arms = arms.as_slice();
            let span = walk_arms(alloc, types, layouts, leaves, loc, arms, marks)?;
            match other {
                None => Ok(span),
                Some(tree) => {
                    let under = walk_tree(alloc, types, layouts, leaves, tree.get(), marks)?;
                    let asking = Asking {
                        loc,
                        arms,
                        literal: None,
                    };
                    ask_all(alloc, types, layouts, leaves, &asking, under, marks)?;
                    Ok(joined_span(span, under))
                }
            }
        }
    }
}

// Marks the leaves below arms that fail an arm's literal or a test below it, and answers a span in
// which all leaves below the arms stand.
#[cycle(walking)]
fn walk_arms(
    alloc: Global,
    types: &[DataDecl],
    layouts: &[Layout],
    leaves: &[Leaf],
    loc: &Loc,
    arms: &[FlatArm],
    marks: &mut Seq<bool>,
) -> Result<Span, AllocError>
    requires { EachOf IsReadable leaves.now }
    ensures { IfOk result
        (λ span. AreWalked types.now layouts.now leaves.now (arms_routes loc.now arms.now) span marks.old marks.new) }
{
    let mut span = Span {
        first: usize::MAX,
        end: 0,
    };
    for arm in arms {
        let under = walk_tree(alloc, types, layouts, leaves, &arm.under, marks)?;
        let asking = Asking {
            loc,
            arms,
            literal: Some(arm.literal),
        };
        ask_all(alloc, types, layouts, leaves, &asking, under, marks)?;
        span = joined_span(span, under);
    }
    Ok(span)
}

/// A mark for each leaf of a layout, off only where the leaf passes the tests on each way to it.
///
/// # Errors
///
/// Want of memory.
pub(crate) fn failure_marks(
    alloc: Global,
    types: &[DataDecl],
    layouts: &[Layout],
    layout: &Layout,
) -> Result<Seq<bool>, AllocError>
    requires { EachOf IsReadable layout.now.leaves }
    ensures { IfOk result (PassWhereOff types.now layouts.now layout.now) }
{
    let leaves = layout.leaves.as_slice();
    let mut marks = no_marks(alloc, leaves.len())?;
    walk_tree(alloc, types, layouts, leaves, &layout.tree, &mut marks)?;
    Ok(marks)
}
