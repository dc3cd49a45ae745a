//! Whether each value of a type has exactly one leaf. A leaf is for the values of its provenance, a
//! pattern. A call that says how something fails answers None where nothing does.

ghost use Rattle.std.specs.Prelude.{◌≡◌, ◌<◌, length, IfOk, MatchBool, MatchOption};
ghost use Rattle.rb_core.specs.declared.types.Ty.TheVariants as Tys;
ghost use Rattle.rb_layout.specs.A5.{FailsApart, FailsComplete, HaveCommon, IsApart, IsComplete};
ghost use Rattle.rb_matrix.specs.Search.{AreInhabited, IsTypeIn};
ghost use Rattle.rb_agree.specs.inner.Values.{provenances_in};

use rb_core::pattern::Pat;
use rb_core::seq::Seq;
use rb_core::types::{DataDecl, Ty};
use rb_layout::evidence::Why;
use rb_layout::layout::{Layout, Leaf};
use rb_layout::numbers::number_of;
use rb_matrix::{MatrixFault, are_apart, common, exhaust};
use std::alloc::{AllocError, Global};

// The provenances of leaves, in order. An `Err` is want of memory.
fn provenances(alloc: Global, leaves: &[Leaf]) -> Result<Seq<Pat>, AllocError>
    ensures { IfOk result (λ pats. pats ≡ provenances_in leaves.now) }
{
    let mut pats = Seq::new(alloc);
    for leaf in leaves {
        pats.push(leaf.prov.copy(alloc)?)?;
    }
    Ok(pats)
}

/// How a layout fails to have a leaf for each value of its type: a pattern whose values have none.
///
/// # Errors
///
/// Want of memory.
pub fn complete_fault(
    alloc: Global,
    types: &[DataDecl],
    ty: u32,
    layout: &Layout,
) -> Result<Option<Why>, AllocError>
    requires inhabited { AreInhabited types.now }
    requires ty { IsTypeIn types.now (Tys.Named ty) }
    ensures { IfOk result (λ found. MatchOption found
        (IsComplete types.now ty layout.now) (FailsComplete types.now ty layout.now)) }
{
    let pats = provenances(alloc, layout.leaves.as_slice())?;
    match exhaust(alloc, types, Ty::Named(ty), pats.as_slice()) {
        Ok(()) => Ok(None),
        Err(MatrixFault::Missing(pat)) => Ok(Some(Why::NoLeaf(pat))),
        Err(MatrixFault::Memory) => Err(AllocError),
    }
}

/// Whether two provenances of a type have a common value.
///
/// # Errors
///
/// Want of memory.
pub(crate) fn have_common(
    alloc: Global,
    types: &[DataDecl],
    ty: u32,
    one: &Pat,
    other: &Pat,
) -> Result<bool, AllocError>
    requires inhabited { AreInhabited types.now }
    requires ty { IsTypeIn types.now (Tys.Named ty) }
    ensures { IfOk result (λ b. MatchBool b
        (HaveCommon types.now ty one.now other.now) (HaveCommon types.now ty one.now other.now → ⊥)) }
{
    if are_apart(one, other) {
        return Ok(false);
    }
    match common(alloc, types, Ty::Named(ty), one, other)? {
        None => Ok(false),
        Some(_) => Ok(true),
    }
}

/// How leaf `n` of the layout of type `ty` fails to have no value in common with a later one: the
/// first that has one.
///
/// # Errors
///
/// Want of memory.
pub fn apart_fault(
    alloc: Global,
    types: &[DataDecl],
    ty: u32,
    layout: &Layout,
    n: usize,
    leaf: &Leaf,
) -> Result<Option<Why>, AllocError>
    requires inhabited { AreInhabited types.now }
    requires ty { IsTypeIn types.now (Tys.Named ty) }
    requires leaf { n < length layout.now.leaves }
    ensures { IfOk result (λ found. MatchOption found
        (IsApart types.now ty layout.now n leaf.now) (FailsApart types.now ty layout.now n leaf.now)) }
{
    let leaves = layout.leaves.as_slice();
    for m in n + 1..leaves.len() {
        if have_common(alloc, types, ty, &leaf.prov, &leaves[m].prov)? {
            return Ok(Some(Why::Common(number_of(m)?)));
        }
    }
    Ok(None)
}
