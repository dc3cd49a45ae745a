//! Which leaves may share a value with a later one, without a look at all pairs of leaves. A path
//! leads to a place in a provenance, the pattern of a leaf's values, by field numbers from the
//! root. `heads` has for each leaf the number of the constructor at one path, None where none
//! stands there. A group is for one constructor: its members are the numbers of the leaves that may
//! have it. An `Err` is want of memory.
//!
//! Two provenances with different constructors in one place have no common value. So a place is chosen
//! that tells most leaves apart, and a leaf is compared with those alone that have its constructor there
//! or none. Take
//!
//! ```text
//! D(A, E) D(A, F) D(B, E) D(_, F)
//! ```
//!
//! In field 0 stand A, A, B and nothing. The first leaf is compared with the second and the fourth, the
//! third with the fourth.

ghost use Rattle.std.specs.Prelude.{◌≡◌, false, length, slice_get, IfOk, MatchOption, Some};
ghost use Rattle.std.specs.Option.{option_copied};
ghost use Rattle.rb_core.specs.declared.pattern.Pat.{out-Pat};
ghost use Rattle.rb_core.specs.declared.types.Ty.TheVariants as Tys;
ghost use Rattle.rb_layout.specs.Positions.{con_of_layer, sub_of_layer};
ghost use Rattle.rb_matrix.specs.Search.{AreInhabited, IsTypeIn};
ghost use Rattle.rb_agree.specs.inner.Sharing.{ApartWhereOff, AreGroups, AreHeads, HaveAll, IsAlone, IsGroupOf, MayBe, SharesNone, SharesNot, con_at, heads_in};

use crate::values::{apart_fault, have_common};
use rb_core::limits::MOST_CONSTRUCTORS;
use rb_core::pattern::Pat;
use rb_core::seq::Seq;
use rb_core::types::DataDecl;
use rb_layout::graphs::no_marks;
use rb_layout::layout::{Layout, Leaf};
use rb_layout::numbers::number_of;
use std::alloc::{AllocError, Global};

// The pattern in a field of a pattern's root constructor; None without such a constructor or field.
fn sub_at(pat: &Pat, field: u32) -> Option<&Pat>
    ensures { option_copied result ≡ sub_of_layer (out-Pat pat.now) field }
{
    match pat {
        Pat::Wild(_) => None,
        Pat::Var(_, _) => None,
        Pat::Num(_, _) => None,
        Pat::Con(_, _, pats) => pats.get(field as usize),
    }
}

// The number of the constructor at a pattern's root; None where none stands there.
fn root_con(pat: &Pat) -> Option<u32>
    ensures { result ≡ con_of_layer (out-Pat pat.now) }
{
    match pat {
        Pat::Wild(_) => None,
        Pat::Var(_, _) => None,
        Pat::Num(_, _) => None,
        Pat::Con(_, con, _) => Some(con.con),
    }
}

// The number of the constructor at a path of field numbers in a pattern; None where none stands
// there.
fn con_at(pat: &Pat, path: &[u32]) -> Option<u32>
    ensures { result ≡ con_at pat.now path.now }
{
    let mut here = pat;
    for field in path {
        match sub_at(here, *field) {
            None => return None,
            Some(sub) => {
                here = sub;
            }
        }
    }
    root_con(here)
}

// The number of the constructor at a path of each leaf's provenance; None for one where none stands
// there.
fn heads_in(alloc: Global, path: &[u32], leaves: &[Leaf]) -> Result<Seq<Option<u32>>, AllocError>
    ensures { IfOk result (λ heads. heads ≡ heads_in path.now leaves.now) }
{
    let mut heads = Seq::new(alloc);
    for leaf in leaves {
        heads.push(con_at(&leaf.prov, path))?;
    }
    Ok(heads)
}

// Adds the path of each constructor in a pattern that stands at `path` to `paths`.
#[cycle(finding)]
fn add_paths(
    alloc: Global,
    pat: &Pat,
    path: &Seq<u32>,
    paths: &mut Seq<Seq<u32>>,
) -> Result<(), AllocError> {
    match pat {
        Pat::Wild(_) => Ok(()),
        Pat::Var(_, _) => Ok(()),
        Pat::Num(_, _) => Ok(()),
        Pat::Con(_, _, pats) => {
            paths.push(path.copy(alloc)?)?;
            add_paths_below(alloc, pats.as_slice(), path, paths)
        }
    }
}

// Adds the paths of the constructors in these patterns, which stand in the fields at `path`, to
// `paths`.
#[cycle(finding)]
fn add_paths_below(
    alloc: Global,
    pats: &[Pat],
    path: &Seq<u32>,
    paths: &mut Seq<Seq<u32>>,
) -> Result<(), AllocError> {
    for (i, pat) in pats.iter().enumerate() {
        let mut longer = path.copy(alloc)?;
        longer.push(number_of(i)?)?;
        add_paths(alloc, pat, &longer, paths)?;
    }
    Ok(())
}

// How many different constructors stand among these, those of a type's leaves at one path.
fn distinct(alloc: Global, heads: &[Option<u32>]) -> Result<usize, AllocError> {
    let mut seen = no_marks(alloc, MOST_CONSTRUCTORS)?;
    for head in heads {
        if let Some(con) = head {
            let con = *con as usize;
            if con < seen.len() {
                seen.replace(con, true);
            }
        }
    }
    let mut count = 0;
    for is_seen in seen.as_slice() {
        if *is_seen {
            count += 1;
        }
    }
    Ok(count)
}

// For each leaf the number of the constructor at one path of its provenance; None where none stands
// there. The path is that of a constructor in the first leaf's provenance at which the leaves have
// most different constructors, so that it tells most of them apart; the root's where there is no
// leaf or no constructor.
fn telling_heads(alloc: Global, leaves: &[Leaf]) -> Result<Seq<Option<u32>>, AllocError>
    ensures { IfOk result (AreHeads leaves.now) }
{
    let mut best = heads_in(alloc, &[], leaves)?;
    let Some(first) = leaves.get(0) else {
        return Ok(best);
    };
    let mut paths = Seq::new(alloc);
    add_paths(alloc, &first.prov, &Seq::new(alloc), &mut paths)?;
    let mut most = 0;
    for path in paths.as_slice() {
        let heads = heads_in(alloc, path.as_slice(), leaves)?;
        let count = distinct(alloc, heads.as_slice())?;
        if count > most {
            most = count;
            best = heads;
        }
    }
    Ok(best)
}

// Whether a leaf may have a constructor, where `head` is the one that it is known to have, if any.
fn may_be(head: Option<u32>, con: u32) -> bool
    ensures { result ≡ false → MayBe head con → ⊥ }
{
    match head {
        None => true,
        Some(other) => other == con,
    }
}

// The numbers of the leaves that may have a constructor.
fn members(alloc: Global, heads: &[Option<u32>], con: u32) -> Result<Seq<u32>, AllocError>
    ensures { IfOk result (HaveAll heads.now con) }
{
    let mut members = Seq::new(alloc);
    for m in 0..heads.len() {
        if may_be(heads[m], con) {
            members.push(number_of(m)?)?;
        }
    }
    Ok(members)
}

// For each number that a constructor may have, below the most that a type may have of them, the
// numbers of the leaves that may have that constructor.
fn groups(alloc: Global, heads: &[Option<u32>]) -> Result<Seq<Seq<u32>>, AllocError>
    ensures { IfOk result (AreGroups heads.now) }
{
    let mut groups = Seq::new(alloc);
    for con in 0..MOST_CONSTRUCTORS as u32 {
        groups.push(members(alloc, heads, con)?)?;
    }
    Ok(groups)
}

// Whether leaf `n` shares a value of type `ty` with leaf `m`, where there is such a leaf and it is a
// later one. False is proved of what is so; that true is right no clause says.
fn shares_later(
    alloc: Global,
    types: &[DataDecl],
    ty: u32,
    leaves: &[Leaf],
    n: usize,
    leaf: &Leaf,
    m: usize,
) -> Result<bool, AllocError>
    requires inhabited { AreInhabited types.now }
    requires ty { IsTypeIn types.now (Tys.Named ty) }
    ensures { IfOk result (λ b. b ≡ false → SharesNot types.now ty leaves.now n leaf.now m) }
{
    if m <= n {
        return Ok(false);
    }
    match leaves.get(m) {
        None => Ok(false),
        Some(later) => have_common(alloc, types, ty, &leaf.prov, &later.prov),
    }
}

// Whether leaf `n` shares a value of type `ty` with a later one of these members. False is proved of
// what is so; that true is right no clause says.
fn shares_with(
    alloc: Global,
    types: &[DataDecl],
    ty: u32,
    leaves: &[Leaf],
    n: usize,
    leaf: &Leaf,
    members: &[u32],
) -> Result<bool, AllocError>
    requires inhabited { AreInhabited types.now }
    requires ty { IsTypeIn types.now (Tys.Named ty) }
    ensures { IfOk result
        (λ b. b ≡ false → SharesNone types.now ty leaves.now n leaf.now members.now (length members.now)) }
{
    for m in members {
        if shares_later(alloc, types, ty, leaves, n, leaf, *m as usize)? {
            return Ok(true);
        }
    }
    Ok(false)
}

// The leaves that leaf `n` is to be compared with, where it has a constructor at the chosen place;
// None where it has none, or that has no group, so that it is compared with all later ones.
fn group_of<'a>(heads: &[Option<u32>], groups: &'a [Seq<u32>], n: usize) -> Option<&'a [u32]>
    requires { AreGroups heads.now groups.now }
    ensures { MatchOption result (Unit {0}) (λ members. IsGroupOf heads.now n members.now) }
{
    match heads.get(n) {
        None => None,
        Some(None) => None,
        Some(Some(con)) => match groups.get(*con as usize) {
            None => None,
            Some(members) => Some(members.as_slice()),
        },
    }
}

// Whether leaf `n` shares a value of type `ty` with a later one, by `groups`, the groups of the
// constructors at one path.
fn shares(
    alloc: Global,
    types: &[DataDecl],
    ty: u32,
    layout: &Layout,
    heads: &[Option<u32>],
    groups: &[Seq<u32>],
    n: usize,
    leaf: &Leaf,
) -> Result<bool, AllocError>
    requires inhabited { AreInhabited types.now }
    requires ty { IsTypeIn types.now (Tys.Named ty) }
    requires heads { AreHeads layout.now.leaves heads.now }
    requires groups { AreGroups heads.now groups.now }
    requires leaf { slice_get layout.now.leaves n ≡ Some leaf.now }
    ensures { IfOk result (λ b. b ≡ false → IsAlone types.now ty layout.now.leaves n leaf.now) }
{
    match group_of(heads, groups, n) {
        Some(members) => shares_with(alloc, types, ty, layout.leaves.as_slice(), n, leaf, members),
        None => match apart_fault(alloc, types, ty, layout, n, leaf)? {
            None => Ok(false),
            Some(_) => Ok(true),
        },
    }
}

/// A mark for each leaf of the layout of type `ty`, off only where the leaf shares no value with a
/// later one.
///
/// # Errors
///
/// Want of memory.
pub(crate) fn sharing_marks(
    alloc: Global,
    types: &[DataDecl],
    ty: u32,
    layout: &Layout,
) -> Result<Seq<bool>, AllocError>
    requires inhabited { AreInhabited types.now }
    requires ty { IsTypeIn types.now (Tys.Named ty) }
    ensures { IfOk result (ApartWhereOff types.now ty layout.now.leaves) }
{
    let leaves = layout.leaves.as_slice();
    let heads = telling_heads(alloc, leaves)?;
    let groups = groups(alloc, heads.as_slice())?;
    let mut marks = Seq::new(alloc);
    for n in 0..leaves.len() {
        marks.push(shares(
            alloc,
            types,
            ty,
            layout,
            heads.as_slice(),
            groups.as_slice(),
            n,
            &leaves[n],
        )?)?;
    }
    Ok(marks)
}
