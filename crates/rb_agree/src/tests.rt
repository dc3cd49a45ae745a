//! Whether a leaf passes the tests on the way to it. A leaf is one of the forms in which a layout
//! stores the values of a type; a location leads to bits of its words. A test is what a split asks
//! of a leaf below it: to have an arm's literal at the split's location or, below its `else`, to exclude the
//! literals of all arms there. A number is known at a location where the bits there are constant,
//! and excluded where they are never that number. A call that says how something fails answers None
//! where nothing does; an `Err` of a private call is want of memory.

ghost use Rattle.std.specs.Prelude.{◌≡◌, ◌↔◌, IfOk, IsTrue, MatchOption};
ghost use Rattle.rb_layout.specs.A7.{FailsTest, FailsTests, MeetsTest, MeetsAll};
ghost use Rattle.rb_layout.specs.Excluded.{Excludes};
ghost use Rattle.rb_layout.specs.Locations.{number_known};
ghost use Rattle.rb_layout.specs.Readable.{IsReadable};
ghost use Rattle.rb_layout.specs.Splits.{Is, IsNone, routes_of};
ghost use Rattle.rb_agree.specs.inner.Splits.{literals_in};
ghost use Rattle.rb_agree.specs.inner.Tests.{IsAfter, IsAnother, IsBelow, status_of};

use crate::numbers::fits;
use crate::splits::length_of;
use rb_core::layout_decl::Loc;
use rb_core::types::DataDecl;
use rb_layout::evidence::Why;
use rb_layout::layout::{FlatArm, FlatTree, Layout, Leaf};
use rb_layout::{excludes, known_bits, resolve_loc};
use std::alloc::{AllocError, Global};

/// What is known of a leaf in a tree of splits.
#[derive(Drop)]
pub enum Below {
    /// It doesn't stand there.
    Absent,
    /// It stands there, and passes the tests on the way to it.
    Passes,
    /// It stands there, and fails a test.
    Fails(Why),
}

/// How a leaf fails to have a literal at a location.
///
/// # Errors
///
/// Want of memory.
pub(crate) fn literal_fault(
    alloc: Global,
    types: &[DataDecl],
    layouts: &[Layout],
    leaf: &Leaf,
    loc: &Loc,
    literal: u64,
) -> Result<Option<Why>, AllocError>
    requires { IsReadable leaf.now }
    ensures { IfOk result
        (λ found. MatchOption found (MeetsTest types.now layouts.now leaf.now (Is loc.now literal))
        (FailsTest types.now layouts.now leaf.now (Is loc.now literal))) }
{
    if resolve_loc(leaf, loc).is_none() {
        return Ok(Some(Why::Unresolved(loc.copy(alloc)?)));
    }
    match known_bits(leaf, loc) {
        None => Ok(Some(Why::NotKnown(loc.copy(alloc)?, literal))),
        Some(known) => {
            if known == literal {
                return Ok(None);
            }
            Ok(Some(Why::NotKnown(loc.copy(alloc)?, literal)))
        }
    }
}

// Whether a literal is another number than `number`, and has at most so many bits; false where no
// number is given, as none is known.
fn is_another(number: Option<u64>, bits: u64, literal: u64) -> bool
    ensures { IsTrue result ↔ IsAnother number bits literal }
{
    match number {
        None => false,
        Some(number) => number != literal && fits(literal, bits),
    }
}

// Whether a leaf excludes a literal at a location, where `number` is what is known there. A leaf below an
// `else` mostly has one number there, which tells it from each literal without a derivation.
fn is_excluded(
    alloc: Global,
    types: &[DataDecl],
    layouts: &[Layout],
    leaf: &Leaf,
    loc: &Loc,
    number: Option<u64>,
    literal: u64,
) -> Result<bool, AllocError>
    requires readable { IsReadable leaf.now }
    requires number { number ≡ number_known leaf.now loc.now }
    ensures { IfOk result (λ b. IsTrue b ↔ Excludes types.now layouts.now leaf.now loc.now literal) }
{
    if is_another(number, length_of(loc), literal) {
        return Ok(true);
    }
    excludes(alloc, types, layouts, leaf, loc, literal)
}

/// How a leaf fails to exclude the literals of arms at a location.
///
/// # Errors
///
/// Want of memory.
pub(crate) fn else_fault(
    alloc: Global,
    types: &[DataDecl],
    layouts: &[Layout],
    leaf: &Leaf,
    loc: &Loc,
    arms: &[FlatArm],
) -> Result<Option<Why>, AllocError>
    requires { IsReadable leaf.now }
    ensures { IfOk result (λ found. MatchOption found
        (MeetsTest types.now layouts.now leaf.now (IsNone loc.now (literals_in arms.now)))
        (FailsTest types.now layouts.now leaf.now (IsNone loc.now (literals_in arms.now)))) }
{
    if resolve_loc(leaf, loc).is_none() {
        return Ok(Some(Why::Unresolved(loc.copy(alloc)?)));
    }
    let number = known_bits(leaf, loc);
    for arm in arms {
        if !is_excluded(alloc, types, layouts, leaf, loc, number, arm.literal)? {
            return Ok(Some(Why::NotExcluded(loc.copy(alloc)?, arm.literal)));
        }
    }
    Ok(None)
}

// What is known of a leaf behind an arm's literal, by what is known of it below the arm: it is
// asked for the literal only where it passes below.
fn behind_arm(
    alloc: Global,
    types: &[DataDecl],
    layouts: &[Layout],
    leaf: &Leaf,
    loc: &Loc,
    literal: u64,
    below: Below,
) -> Result<Below, AllocError>
    requires { IsReadable leaf.now }
    ensures { IfOk result (IsAfter types.now layouts.now leaf.now (Is loc.now literal) below) }
{
    match below {
        Below::Absent => Ok(Below::Absent),
        Below::Fails(why) => Ok(Below::Fails(why)),
        Below::Passes => match literal_fault(alloc, types, layouts, leaf, loc, literal)? {
            None => Ok(Below::Passes),
            Some(why) => Ok(Below::Fails(why)),
        },
    }
}

// What is known of a leaf behind the `else` beside arms, by what is known of it below: it is asked
// to exclude the arms' literals only where it passes below.
fn behind_else(
    alloc: Global,
    types: &[DataDecl],
    layouts: &[Layout],
    leaf: &Leaf,
    loc: &Loc,
    arms: &[FlatArm],
    below: Below,
) -> Result<Below, AllocError>
    requires { IsReadable leaf.now }
    ensures { IfOk result (IsAfter types.now layouts.now leaf.now (IsNone loc.now (literals_in arms.now)) below) }
{
    match below {
        Below::Absent => Ok(Below::Absent),
        Below::Fails(why) => Ok(Below::Fails(why)),
        Below::Passes => match else_fault(alloc, types, layouts, leaf, loc, arms)? {
            None => Ok(Below::Passes),
            Some(why) => Ok(Below::Fails(why)),
        },
    }
}

// What is known of a leaf that stands in a tree or not, and fails no test there.
fn status_of(stands: bool) -> Below
    ensures { result ≡ status_of stands }
{
    if stands {
        return Below::Passes;
    }
    Below::Absent
}

// What is known of leaf `n` in a tree: whether it stands there, and passes the tests on each way to
// it.
#[cycle(testing)]
fn tree_tests(
    alloc: Global,
    types: &[DataDecl],
    layouts: &[Layout],
    n: usize,
    leaf: &Leaf,
    tree: &FlatTree,
) -> Result<Below, AllocError>
    requires { IsReadable leaf.now }
    ensures { IfOk result (IsBelow types.now layouts.now leaf.now n (routes_of tree.now)) }
{
    match tree {
        FlatTree::Leaf(number) => {
            if *number as usize == n {
                return Ok(Below::Passes);
            }
            Ok(Below::Absent)
        }
        FlatTree::Split(loc, arms, other) => {
            let arms = arms.as_slice();
            let mut passes = false;
            for arm in arms {
                let under = tree_tests(alloc, types, layouts, n, leaf, &arm.under)?;
                match behind_arm(alloc, types, layouts, leaf, loc, arm.literal, under)? {
                    Below::Absent => {}
                    Below::Passes => {
                        passes = true;
                    }
                    Below::Fails(why) => return Ok(Below::Fails(why)),
                }
            }
            match other {
                None => Ok(status_of(passes)),
                Some(tree) => {
                    let under = tree_tests(alloc, types, layouts, n, leaf, tree.get())?;
                    match behind_else(alloc, types, layouts, leaf, loc, arms, under)? {
                        Below::Absent => Ok(status_of(passes)),
                        Below::Passes => Ok(Below::Passes),
                        Below::Fails(why) => Ok(Below::Fails(why)),
                    }
                }
            }
        }
    }
}

/// How leaf `n` of a layout fails a test on a way to it: a location that doesn't resolve in it, a literal
/// that isn't known there, or one beside `else` that it doesn't exclude.
///
/// # Errors
///
/// Want of memory.
pub fn tests_fault(
    alloc: Global,
    types: &[DataDecl],
    layouts: &[Layout],
    tree: &FlatTree,
    n: usize,
    leaf: &Leaf,
) -> Result<Option<Why>, AllocError>
    requires { IsReadable leaf.now }
    ensures { IfOk result (λ found. MatchOption found
        (MeetsAll types.now layouts.now tree.now n leaf.now)
        (FailsTests types.now layouts.now tree.now n leaf.now)) }
{
    match tree_tests(alloc, types, layouts, n, leaf, tree)? {
        Below::Absent => Ok(None),
        Below::Passes => Ok(None),
        Below::Fails(why) => Ok(Some(why)),
    }
}
