//! The parts of a problem: what is left of it where its vectors begin with a head, which is a
//! search in the specialised matrices of its rows, or with none of the heads of its first column,
//! which is one in the default matrices. A problem is given without its first column's type, which
//! stands beside it.

ghost use Rattle.std.specs.Prelude.{◌≡◌, ◌+◌, ◌≤◌, ◌∷◌, ◌++◌, [], length, IfOk, OnOk, None};
ghost use Rattle.rb_matrix.specs.declared.problem.Left.TheVariants.{Whole, ByHead};
ghost use Rattle.rb_matrix.specs.Heads.{column_begins, some_head};
ghost use Rattle.rb_matrix.specs.FirstHead.{first_head};
ghost use Rattle.rb_matrix.specs.Search.{AreInhabited, IsTypeIn, AreTypesIn};
ghost use Rattle.rb_matrix.specs.inner.Groups.{AreGrouped};
ghost use Rattle.rb_matrix.specs.inner.Problems.{IsPartAt, IsSpecialized, step_of, with_column};
ghost use Rattle.rb_matrix.specs.Signature.{IsAbsent};
ghost use Rattle.rb_matrix.specs.inner.Left.{IsReady, IsSplit, wholes};

use crate::groups::Groups;
use crate::heads::key_of_head;
use crate::matrix::Head;
use crate::problem::{Branches, Left, Problem, Step};
use crate::rows::{
    first_head_in, groups_of, heads_in, into_default, into_specialized, some_special_is_open,
    special_copies, special_numbered,
};
use crate::signature::absent_pattern;
use crate::specialization::head_fields;
use crate::stack::Stack;
use rb_core::pattern::Pat;
use rb_core::seq::Seq;
use rb_core::types::{ConRef, DataDecl, Ty};
use std::alloc::{AllocError, Global};

impl Step {
    // An equal step, with a copy of its pattern.
    fn copy(&self, alloc: Global) -> Result<Step, AllocError>
        ensures { IfOk result (λ s. s ≡ self.now) }
    {
        match self {
            Step::Front(pat) => Ok(Step::Front(pat.copy(alloc)?)),
            Step::Fold(con, fields) => Ok(Step::Fold(*con, *fields)),
        }
    }
}

// Copies of steps, in the same order.
fn steps_copied(alloc: Global, steps: &[Step]) -> Result<Seq<Step>, AllocError>
    ensures { IfOk result (λ r. r ≡ steps.now) }
{
    let mut copies = Seq::new(alloc);
    for step in steps {
        copies.push(step.copy(alloc)?)?;
    }
    Ok(copies)
}

// Copies of steps, in the same order, and one more behind them.
fn steps_with(alloc: Global, steps: &[Step], last: Step) -> Result<Seq<Step>, AllocError>
    ensures { IfOk result (λ r. r ≡ steps.now ++ last ∷ []) }
{
    let mut longer = steps_copied(alloc, steps)?;
    longer.push(last)?;
    Ok(longer)
}

// The types of a head's fields, and then those of the other columns, which stay.
fn types_joined(alloc: Global, fields: &[Ty], rest: &Stack<Ty>) -> Result<Stack<Ty>, AllocError>
    ensures { IfOk result (λ r. r ≡ fields.now ++ rest.now) }
{
    let (front, back) = rest.as_slices();
    let mut tys = Vec::new(alloc);
    tys.extend_from_slice(fields)?;
    tys.extend_from_slice(front)?;
    tys.extend_from_slice(back)?;
    Ok(Stack::from_seq(Seq::from_vec(tys)))
}

// The step from the part of a head with so many fields to its parent, whose first column is of type
// `ty`: a number stands before the row, and a constructor takes as many patterns. The constructor
// is given as one of that type, whatever type the head names; of an integer type it stays as it is.
fn step_for(ty: Ty, head: Head, fields: usize) -> Step
    ensures { result ≡ step_of ty head fields }
{
    match head {
        Head::Num(number) => Step::Front(Pat::Num(0, number)),
        Head::Con(con) => match ty {
            Ty::Named(t) => Step::Fold(
                ConRef {
                    ty: t,
                    con: con.con,
                },
                fields,
            ),
            Ty::Int(_) => Step::Fold(con, fields),
        },
    }
}

// The part of a problem for a head: what is left where the first value begins with it. None where
// there is no such vector, since the head is not of the type, or a wanted row has no specialised
// row for it, or an unwanted row that begins with it matches all of them. The problem stays, and
// the rows that have one are copied, but not their patterns. Of the unwanted rows, which are
// grouped, only those that begin with the head or with none are gone through; the latter, which
// may be many, only where none of the former matches all.
fn part_at<'a>(
    alloc: Global,
    types: &[DataDecl],
    ty: Ty,
    behind: &Problem<'a>,
    groups: &Groups,
    head: Head,
) -> Result<Option<Problem<'a>>, AllocError>
    requires inhabited { AreInhabited types.now }
    requires lives { AreTypesIn types.now behind.now.tys }
    requires stands { 1 ≤ some_head (first_head behind.now.wanted) + some_head (first_head behind.now.unwanted) }
    requires grouped { AreGrouped behind.now.unwanted groups.now }
    ensures { IfOk result (λ r. IsPartAt types.now ty behind.now.tys (with_column ty behind.now) head r) }
{
    let Some(fields) = head_fields(types, ty, head) else {
        return Ok(None);
    };
    let wanted = special_copies(alloc, behind.wanted.as_slice(), head, fields.len())?;
    if wanted.len() < behind.wanted.len() {
        return Ok(None);
    }
    let tys = types_joined(alloc, fields, &behind.tys)?;
    let (rows, key) = (behind.unwanted.as_slice(), key_of_head(head));
    if some_special_is_open(
        alloc,
        rows,
        groups.alone(key),
        head,
        fields.len(),
        tys.len(),
    )? {
        return Ok(None);
    }
    let unwanted = special_numbered(alloc, rows, groups.near(key), head, fields.len())?;
    let step = step_for(ty, head, fields.len());
    let steps = steps_with(alloc, behind.steps.as_slice(), step)?;
    Ok(Some(Problem {
        tys,
        wanted,
        unwanted,
        steps,
    }))
}

impl Problem<'_> {
    // Gives the problem the columns and the steps of its part for a head with fields of these
    // types: the fields' types stand before those of its columns, and behind its steps stands the
    // one from the part to it, whose first column is of type `ty`. The rows stay.
    fn unfold_columns(
        &mut self,
        alloc: Global,
        ty: Ty,
        head: Head,
        fields: &[Ty],
    ) -> Result<(), AllocError>
        ensures tys { OnOk result (self.new.tys ≡ fields.now ++ self.old.tys) }
        ensures wanted { OnOk result (self.new.wanted ≡ self.old.wanted) }
        ensures unwanted { OnOk result (self.new.unwanted ≡ self.old.unwanted) }
        ensures steps { OnOk result (self.new.steps ≡ self.old.steps ++ step_of ty head (length fields.now) ∷ []) }
    {
        let first = Seq::from_vec(Vec::from_slice(alloc, fields)?);
        self.tys.push_all(first)?;
        self.steps.push(step_for(ty, head, fields.len()))?;
        Ok(())
    }
}

// The problem with the specialised rows of its rows for a head with so many fields in their place;
// the columns' types and the steps stay. None where a wanted row has no specialised row.
fn specialized<'a>(
    alloc: Global,
    problem: Problem<'a>,
    head: Head,
    fields: usize,
) -> Result<Option<Problem<'a>>, AllocError>
    ensures { IfOk result (λ r. IsSpecialized head fields problem.entry r) }
{
    let Problem {
        tys,
        wanted,
        unwanted,
        steps,
    } = problem;
    let count = wanted.len();
    let wanted = into_specialized(alloc, wanted, head, fields)?;
    if wanted.len() < count {
        return Ok(None);
    }
    let unwanted = into_specialized(alloc, unwanted, head, fields)?;
    Ok(Some(Problem {
        tys,
        wanted,
        unwanted,
        steps,
    }))
}

// The part of a problem for a head, made of the problem itself: what is left where the first value
// begins with the head. None where there is no such vector, since the head is not of the type, or a
// wanted row has no specialised row for it.
fn last_part<'a>(
    alloc: Global,
    types: &[DataDecl],
    ty: Ty,
    mut behind: Problem<'a>,
    head: Head,
) -> Result<Option<Problem<'a>>, AllocError>
    requires inhabited { AreInhabited types.now }
    requires lives { AreTypesIn types.now behind.tys }
    requires stands { 1 ≤ some_head (first_head behind.wanted) + some_head (first_head behind.unwanted) }
    ensures { IfOk result (λ r. IsPartAt types.now ty behind.entry.tys (with_column ty behind.entry) head r) }
{
    let Some(fields) = head_fields(types, ty, head) else {
        return Ok(None);
    };
    behind.unfold_columns(alloc, ty, head, fields)?;
    specialized(alloc, behind, head, fields.len())
}

// Adds a part to what is left, as a whole problem; None adds nothing.
fn add_part<'a>(left: &mut Vec<Left<'a>>, part: Option<Problem<'a>>) -> Result<(), AllocError>
    ensures { OnOk result (left.new.items ≡ left.old.items ++ wholes part.entry) }
{
    match part {
        None => Ok(()),
        Some(part) => {
            left.push(Left::Whole(part))?;
            Ok(())
        }
    }
}

// The part that there may be, as all that is left; nothing for None.
fn part_left<'a>(alloc: Global, part: Option<Problem<'a>>) -> Result<Vec<Left<'a>>, AllocError>
    ensures { IfOk result (λ r. r.items ≡ wholes part.entry) }
{
    let mut left = Vec::new(alloc);
    add_part(&mut left, part)?;
    Ok(left)
}

// Branches, and behind them the part that there may be, as all that is left.
fn branches_left<'a>(
    alloc: Global,
    branches: Branches<'a>,
    part: Option<Problem<'a>>,
) -> Result<Vec<Left<'a>>, AllocError>
    ensures { IfOk result (λ r. r.items ≡ ByHead branches.entry ∷ wholes part.entry) }
{
    let mut left = Vec::new(alloc);
    left.push(Left::ByHead(branches))?;
    add_part(&mut left, part)?;
    Ok(left)
}

/// Takes the last head off some branches and makes its part, which is to be searched first and so
/// stands last; the other heads are left for later, so that of each problem one part is held at a
/// time. Where there are no other heads, the part is made of the problem itself, and no row is
/// copied. Where there is no head at all, nothing is left; where no vector begins with the last
/// one, there is no part, and only the other heads are left.
///
/// # Errors
///
/// Want of memory.
pub fn next_part<'a>(
    alloc: Global,
    types: &[DataDecl],
    mut branches: Branches<'a>,
) -> Result<Vec<Left<'a>>, AllocError>
    requires inhabited { AreInhabited types.now }
    requires ready { IsReady types.now (ByHead branches) }
    ensures { IfOk result (λ r. IsSplit types.now (ByHead branches.entry) r.items) }
{
    let Some(head) = branches.heads.pop() else {
        return Ok(Vec::new(alloc));
    };
    if branches.heads.is_empty() {
        let part = last_part(alloc, types, branches.ty, branches.behind, head)?;
        return part_left(alloc, part);
    }
    let (behind, groups) = (&branches.behind, &branches.groups);
    let part = part_at(alloc, types, branches.ty, behind, groups, head)?;
    branches_left(alloc, branches, part)
}

// What is left of a problem of all values that begin with no head of its first column, of which
// `absent` matches some: one part, made of the problem itself, whose rows are those of the default
// matrices. No wanted row begins with a head. Nothing is left where there is no vector, since a
// wanted row has no default row, as an empty one has none.
fn rest_left<'a>(
    alloc: Global,
    types: &[DataDecl],
    ty: Ty,
    mut behind: Problem<'a>,
    absent: Pat,
) -> Result<Vec<Left<'a>>, AllocError>
    requires lives { AreTypesIn types.now behind.tys }
    requires none { first_head behind.wanted ≡ None }
    requires absent { IsAbsent types.now ty (column_begins behind.unwanted) absent }
    ensures { IfOk result (λ r. IsSplit types.now (Whole (with_column ty behind.entry)) r.items) }
{
    behind.steps.push(Step::Front(absent))?;
    let Problem {
        tys,
        wanted,
        unwanted,
        steps,
    } = behind;
    let count = wanted.len();
    let wanted = into_default(alloc, wanted)?;
    if wanted.len() < count {
        return Ok(Vec::new(alloc));
    }
    let unwanted = into_default(alloc, unwanted)?;
    let part = Problem {
        tys,
        wanted,
        unwanted,
        steps,
    };
    part_left(alloc, Some(part))
}

// What is left of a problem whose first column has type `ty`, and none of whose wanted rows begins
// with a head. Where the heads that unwanted rows begin with are a complete signature, which is to
// say that each value of the type begins with one, all of them count, each with its specialised
// matrix. Where they are an incomplete signature, the default matrix answers for all values.
fn parts_by_signature<'a>(
    alloc: Global,
    types: &[DataDecl],
    ty: Ty,
    behind: Problem<'a>,
) -> Result<Vec<Left<'a>>, AllocError>
    requires inhabited { AreInhabited types.now }
    requires live { IsTypeIn types.now ty }
    requires lives { AreTypesIn types.now behind.tys }
    requires none { first_head behind.wanted ≡ None }
    ensures { IfOk result (λ r. IsSplit types.now (Whole (with_column ty behind.entry)) r.items) }
{
    let heads = heads_in(alloc, behind.unwanted.as_slice())?;
    match absent_pattern(alloc, types, ty, heads.as_slice())? {
        None => {
            let groups = groups_of(alloc, behind.unwanted.as_slice())?;
            let branches = Branches {
                ty,
                behind,
                heads,
                groups,
            };
            branches_left(alloc, branches, None)
        }
        Some(absent) => rest_left(alloc, types, ty, behind, absent),
    }
}

/// What is left of a problem whose first column has type `ty`. Where a wanted row begins with a
/// head, that head alone counts: other vectors the row does not match. Else, where the heads that
/// unwanted rows begin with are a complete signature, which is to say that each value of the type
/// begins with one, all of them count, each with its specialised matrix. Where they are an
/// incomplete signature, the default matrix answers for all values, also for those that begin with
/// one of them; nothing is left then where a wanted row is empty.
///
/// # Errors
///
/// Want of memory.
pub fn parts_of<'a>(
    alloc: Global,
    types: &[DataDecl],
    ty: Ty,
    behind: Problem<'a>,
) -> Result<Vec<Left<'a>>, AllocError>
    requires inhabited { AreInhabited types.now }
    requires live { IsTypeIn types.now ty }
    requires lives { AreTypesIn types.now behind.tys }
    ensures { IfOk result (λ r. IsSplit types.now (Whole (with_column ty behind.entry)) r.items) }
{
    match first_head_in(behind.wanted.as_slice()) {
        None => parts_by_signature(alloc, types, ty, behind),
        Some(head) => {
            let part = last_part(alloc, types, ty, behind, head)?;
            part_left(alloc, part)
        }
    }
}
