//! Whether patterns match every value of a type, which of them are the first match of none, so that
//! they are not useful behind those before them, and whether two patterns have a value in common.
//! Each is a search in a pattern matrix of one column. Which patterns are the first match of none
//! takes a search for each; those that are told by a pattern's probe are short (`probe`), and the
//! pattern itself is searched only where its probe finds nothing.

ghost use Rattle.std.specs.Prelude.{◌≡◌, ◌<◌, ◌≤◌, ◌∷◌, [], IfOk, length, take};
ghost use Rattle.std.specs.Bool.{OnTrue};
ghost use Rattle.rb_matrix.specs.declared.coverage.MatrixFault.TheVariants as MatrixFaults;
ghost use Rattle.rb_matrix.specs.Exhaust.{IsExhaustAnswer, AreUnreached, IsCommonAnswer};
ghost use Rattle.rb_matrix.specs.inner.OneColumn.{IsReachAnswer, IsOneAnswer, IsUseful, IsUseAnswer, IsEnd, one_each};
ghost use Rattle.rb_matrix.specs.Search.{AreInhabited, IsTypeIn};
ghost use Rattle.rb_matrix.specs.inner.Against.{AreRowsNear, StandFor};
ghost use Rattle.rb_matrix.specs.inner.Indexes.{AreIndexes};
ghost use Rattle.rb_matrix.specs.inner.Passed.{ArePassed};

use crate::apart::are_apart;
use crate::indexes::Indexes;
use crate::passed::Passed;
use crate::positions::best_paths;
use crate::probe::{Gap, Outlook, probe_of};
use crate::problem::Problem;
use crate::row::{Row, row_of};
use crate::search::find_in;
use crate::stack::Stack;
use rb_core::pattern::Pat;
use rb_core::seq::Seq;
use rb_core::types::{DataDecl, Ty};
use std::alloc::{AllocError, Global};

// So few patterns that each is searched without an outlook on them.
const FEW: usize = 16;

/// Why patterns are not found to match every value of a type: some value is not matched, or there
/// was want of memory before that could be told.
#[derive(Debug, Drop, thiserror::Error)]
pub enum MatrixFault {
    /// This pattern matches a value of the type, and none of the values of the type that it matches
    /// is matched by one of the patterns.
    #[error("a value is not matched")]
    Missing(Pat),
    /// Want of memory.
    #[error("no memory")]
    Memory,
}

impl From<AllocError> for MatrixFault {
    ghost from_gives = { λ e r. r ≡ MatrixFaults.Memory };

    // A want of memory is the fault `Memory`.
    fn from(_error: AllocError) -> MatrixFault {
        MatrixFault::Memory
    }
}

// One row of one pattern.
fn one_row<'a>(alloc: Global, pat: &'a Pat) -> Result<Seq<Row<'a>>, AllocError>
    ensures { IfOk result (λ r. r ≡ (pat.now ∷ []) ∷ []) }
{
    let mut rows = Seq::new(alloc);
    rows.push(row_of(alloc, pat)?)?;
    Ok(rows)
}

// Two rows of one pattern each.
fn two_rows<'a>(alloc: Global, one: &'a Pat, other: &'a Pat) -> Result<Seq<Row<'a>>, AllocError>
    ensures { IfOk result (λ r. r ≡ (one.now ∷ []) ∷ (other.now ∷ []) ∷ []) }
{
    let mut rows = one_row(alloc, one)?;
    rows.push(row_of(alloc, other)?)?;
    Ok(rows)
}

// Each pattern as a row of its own, in their order.
fn rows_of<'a>(alloc: Global, pats: &'a [Pat]) -> Result<Seq<Row<'a>>, AllocError>
    ensures { IfOk result (λ r. r ≡ one_each pats.now) }
{
    let mut rows = Seq::new(alloc);
    for pat in pats {
        rows.push(row_of(alloc, pat)?)?;
    }
    Ok(rows)
}

// Each of the patterns with these numbers as a row of its own, but none that is found to be apart
// from the pattern `pat` that they are held against: none of its values matches such a one. A
// number without a pattern gives no row.
fn rows_near<'a>(
    alloc: Global,
    pats: &'a [Pat],
    numbers: &[usize],
    pat: &Pat,
) -> Result<Seq<Row<'a>>, AllocError>
    ensures { IfOk result (AreRowsNear pat.now pats.now numbers.now) }
{
    let mut rows = Seq::new(alloc);
    for number in numbers {
        let Some(other) = pats.get(*number) else {
            continue;
        };
        if are_apart(other, pat) {
            continue;
        }
        rows.push(row_of(alloc, other)?)?;
    }
    Ok(rows)
}

// Rows of one pattern each that stand for the patterns `pats`, those of the indexes, where `pat` is
// held against them: of the values that `pat` matches, the rows match exactly those that some
// pattern of `pats` matches.
fn rows_against<'a>(
    alloc: Global,
    pats: &'a [Pat],
    indexes: &Indexes,
    pat: &Pat,
) -> Result<Seq<Row<'a>>, AllocError>
    requires indexes { AreIndexes pats.now indexes.now }
    ensures { IfOk result (StandFor pat.now pats.now) }
{
    let near = indexes.near(alloc, pats.len(), pat)?;
    rows_near(alloc, pats, near.as_slice(), pat)
}

// A search over one column of this type: a pattern that matches a value of the type, and of the
// values of the type only such as all wanted rows match and no unwanted one. None where there is no
// such value.
fn find_one<'a>(
    alloc: Global,
    types: &[DataDecl],
    ty: Ty,
    wanted: Seq<Row<'a>>,
    unwanted: Seq<Row<'a>>,
) -> Result<Option<Pat>, AllocError>
    requires inhabited { AreInhabited types.now }
    requires ty { IsTypeIn types.now ty }
    ensures { IfOk result (λ r. IsOneAnswer types.now ty wanted.entry unwanted.entry r) }
{
    let mut tys = Stack::new(alloc);
    tys.push(ty)?;
    let root = Problem {
        tys,
        wanted,
        unwanted,
        steps: Seq::new(alloc),
    };
    let found = find_in(alloc, types, root)?;
    match found {
        None => Ok(None),
        Some(mut row) => match row.pop() {
            Some(pat) => Ok(Some(pat)),
            None => unreachable!(),
        },
    }
}

/// Whether every value of the type is matched by one of the patterns. Where not, a pattern of
/// numbers, constructors and wildcards is given as the error: it matches a value of the type, and
/// none of the values of the type that it matches is matched by one of the patterns. Which such
/// pattern it is is left open.
///
/// # Errors
///
/// `Missing` with such a pattern where there is one. Want of memory.
pub fn exhaust(alloc: Global, types: &[DataDecl], ty: Ty, rows: &[Pat]) -> Result<(), MatrixFault>
    requires inhabited { AreInhabited types.now }
    requires ty { IsTypeIn types.now ty }
    ensures { IsExhaustAnswer types.now ty rows.now result }
{
    let unwanted = rows_of(alloc, rows)?;
    match find_one(alloc, types, ty, Seq::new(alloc), unwanted)? {
        None => Ok(()),
        Some(pat) => Err(MatrixFault::Missing(pat)),
    }
}

// Whether some value of the type is matched by this pattern and by none of the patterns `before`,
// those of the indexes.
fn is_useful(
    alloc: Global,
    types: &[DataDecl],
    ty: Ty,
    before: &[Pat],
    indexes: &Indexes,
    pat: &Pat,
) -> Result<bool, AllocError>
    requires inhabited { AreInhabited types.now }
    requires ty { IsTypeIn types.now ty }
    requires indexes { AreIndexes before.now indexes.now }
    ensures { IfOk result (λ b. IsUseAnswer types.now ty before.now pat.now b) }
{
    let wanted = one_row(alloc, pat)?;
    let unwanted = rows_against(alloc, before, indexes, pat)?;
    let found = find_one(alloc, types, ty, wanted, unwanted)?;
    Ok(found.is_some())
}

// True only where some value of the type is matched by this pattern and by none of the patterns
// `before`, since one is found that the pattern's probe matches. False tells nothing, and neither
// where there is no gap, or one so large that its probe would cost much beside a search for the
// pattern itself.
fn has_probe(
    alloc: Global,
    types: &[DataDecl],
    ty: Ty,
    before: &[Pat],
    indexes: &Indexes,
    pat: &Pat,
    gap: &Option<Gap>,
) -> Result<bool, AllocError>
    requires inhabited { AreInhabited types.now }
    requires ty { IsTypeIn types.now ty }
    requires indexes { AreIndexes before.now indexes.now }
    ensures { IfOk result (λ b. OnTrue b (IsUseful types.now ty before.now pat.now)) }
{
    let Some(gap) = gap else {
        return Ok(false);
    };
    if !gap.is_small(indexes.count_near(before.len(), pat)) {
        return Ok(false);
    }
    let probe = probe_of(alloc, pat, &gap.pat)?;
    is_useful(alloc, types, ty, before, indexes, &probe)
}

// Whether the pattern with number `i` is the first match of some value of the type, which is to say
// useful behind those before it. Where an earlier one is found to cover it, it is not, and where
// its probe is useful, it is; else a search tells. The indexes are those of the earlier ones.
fn is_found(
    alloc: Global,
    types: &[DataDecl],
    ty: Ty,
    pats: &[Pat],
    i: usize,
    indexes: &Indexes,
    gap: &Option<Gap>,
) -> Result<bool, AllocError>
    requires inhabited { AreInhabited types.now }
    requires ty { IsTypeIn types.now ty }
    requires within { i < length pats.now }
    requires indexes { AreIndexes (take i pats.now) indexes.now }
    ensures { IfOk result (λ b. IsReachAnswer types.now ty pats.now i b) }
{
    let pat = &pats[i];
    if indexes.has_covering(&pats[..i], pat) {
        return Ok(false);
    }
    if has_probe(alloc, types, ty, &pats[..i], indexes, pat, gap)? {
        return Ok(true);
    }
    is_useful(alloc, types, ty, &pats[..i], indexes, pat)
}

// Whether the pattern with number `i` is the first match of some value of the type; `passed` tells
// of the patterns before it, and `outlook` was made of all. A pattern behind a wildcard or a
// variable is not, nor is one from the outlook's end on, nor a number that the type does not hold.
// A number is compared with no pattern before it: it is looked up in the set of their numbers.
fn is_reached(
    alloc: Global,
    types: &[DataDecl],
    ty: Ty,
    pats: &[Pat],
    i: usize,
    passed: &Passed,
    outlook: &Outlook,
) -> Result<bool, AllocError>
    requires inhabited { AreInhabited types.now }
    requires ty { IsTypeIn types.now ty }
    requires within { i < length pats.now }
    requires passed { ArePassed (take i pats.now) passed.now }
    requires end { IsEnd types.now ty pats.now outlook.now.end }
    ensures { IfOk result (λ b. IsReachAnswer types.now ty pats.now i b) }
{
    let pat = &pats[i];
    if passed.all {
        return Ok(false);
    }
    if outlook.end <= i {
        return Ok(false);
    }
    let (indexes, gap) = (&passed.indexes, &outlook.gap);
    match pat {
        Pat::Num(_, number) => Ok(passed.is_new(types, ty, *number)),
        Pat::Wild(_) => is_found(alloc, types, ty, pats, i, indexes, gap),
        Pat::Var(_, _) => is_found(alloc, types, ty, pats, i, indexes, gap),
        Pat::Con(_, _, _) => is_found(alloc, types, ty, pats, i, indexes, gap),
    }
}

// How many patterns stand before the first wildcard or variable; all where there is none.
fn closed_count(pats: &[Pat]) -> usize
    ensures { result ≤ length pats.now }
{
    for (i, pat) in pats.iter().enumerate() {
        match pat {
            Pat::Wild(_) | Pat::Var(_, _) => return i,
            Pat::Num(_, _) | Pat::Con(_, _, _) => {}
        }
    }
    pats.len()
}

// The outlook on patterns: some of the first ones are searched for what they miss, four times as
// many each time, up to the first wildcard or variable, or until they miss nothing; the last
// pattern that they miss is the gap. Where `pats` are few, or are patterns of an integer type, it
// has none, since then no pattern costs much: numbers are looked up in a set.
fn outlook_of(
    alloc: Global,
    types: &[DataDecl],
    ty: Ty,
    pats: &[Pat],
) -> Result<Outlook, AllocError>
    requires inhabited { AreInhabited types.now }
    requires ty { IsTypeIn types.now ty }
    ensures { IfOk result (λ outlook. IsEnd types.now ty pats.now outlook.end) }
{
    let most = match ty {
        Ty::Int(_) => 0,
        Ty::Named(_) => closed_count(pats),
    };
    let mut gap = None;
    let mut count: usize = FEW;
    while count < most {
        count = std::cmp::min(count.saturating_mul(4), most);
        let unwanted = rows_of(alloc, &pats[..count])?;
        match find_one(alloc, types, ty, Seq::new(alloc), unwanted)? {
            None => return Ok(Outlook { end: count, gap }),
            Some(pat) => gap = Some(Gap::new(pat)),
        }
    }
    Ok(Outlook {
        end: pats.len(),
        gap,
    })
}

// The numbers, ascending, of the patterns that are the first match of no value of the type. They
// are gone over one by one: `outlook` was made of them all, and `passed` tells of none at first,
// and of all in the end.
fn unreached_by(
    alloc: Global,
    types: &[DataDecl],
    ty: Ty,
    pats: &[Pat],
    outlook: &Outlook,
    passed: &mut Passed,
) -> Result<Vec<usize>, AllocError>
    requires inhabited { AreInhabited types.now }
    requires ty { IsTypeIn types.now ty }
    requires end { IsEnd types.now ty pats.now outlook.now.end }
    requires none { ArePassed [] passed.old }
    ensures { IfOk result (λ v. AreUnreached types.now ty pats.now v.items) }
{
    let mut numbers = Vec::new(alloc);
    for i in 0..pats.len() {
        let reached = is_reached(alloc, types, ty, pats, i, passed, outlook)?;
        passed.add(alloc, i, &pats[i])?;
        if reached {
            continue;
        }
        numbers.push(i)?;
    }
    Ok(numbers)
}

/// The numbers, ascending, of the patterns that are the first match of no value of the type: none
/// of them is useful behind those before it, as one that matches no value of the type never is. The
/// first pattern has number 0.
///
/// # Errors
///
/// Want of memory.
pub fn unreached(
    alloc: Global,
    types: &[DataDecl],
    ty: Ty,
    rows: &[Pat],
) -> Result<Vec<usize>, AllocError>
    requires inhabited { AreInhabited types.now }
    requires ty { IsTypeIn types.now ty }
    ensures { IfOk result (λ v. AreUnreached types.now ty rows.now v.items) }
{
    let outlook = outlook_of(alloc, types, ty, rows)?;
    let mut passed = Passed::new(alloc, best_paths(alloc, rows)?);
    unreached_by(alloc, types, ty, rows, &outlook, &mut passed)
}

/// A pattern of numbers, constructors and wildcards that matches a value of the type, such that
/// both patterns match each value of the type that it matches; None where no value of the type is
/// matched by both. Which such pattern it is is left open.
///
/// # Errors
///
/// Want of memory.
pub fn common(
    alloc: Global,
    types: &[DataDecl],
    ty: Ty,
    one: &Pat,
    other: &Pat,
) -> Result<Option<Pat>, AllocError>
    requires inhabited { AreInhabited types.now }
    requires ty { IsTypeIn types.now ty }
    ensures { IfOk result (λ r. IsCommonAnswer types.now ty one.now other.now r) }
{
    let wanted = two_rows(alloc, one, other)?;
    match find_one(alloc, types, ty, wanted, Seq::new(alloc))? {
        None => Ok(None),
        Some(pat) => Ok(Some(pat)),
    }
}
