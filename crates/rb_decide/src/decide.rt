//! The tree of a match.
//!
//! The types of the program are `types`, and `rows` are the patterns of the match's clauses, in
//! order, on a value of type `ty`, the scrutinee. A position is a list of field numbers from its
//! root. A way goes from the root of the tree to a clause, by the tests on it. A pattern has a head
//! where it is a number or a constructor.

ghost use Rattle.std.specs.Prelude.{◌≡◌, [], IfOk};
ghost use Rattle.rb_core.specs.Matching.{IsExhaustive};
ghost use Rattle.rb_decide.specs.Decisions.{IsTried, OnBuilt, TakesChosen, TestsOnce, TestsHeads};
ghost use Rattle.rb_decide.specs.Limits.{largest_tree};

use crate::build::build;
use crate::clause_matrix::{Column, rows_of_match};
use crate::decision_tree::Tried;
use rb_core::pattern::Pat;
use rb_core::seq::Seq;
use rb_core::types::{DataDecl, Ty};
use std::alloc::{AllocError, Global};

/// The most nodes that a tree of a match may have, clauses among them, so that [`tree`] builds it;
/// definitions cite it as `specs/Limits.antt` has it.
pub const LARGEST_TREE: usize = 512;

// The column of the scrutinee, of type `ty`: its position has no fields.
fn scrutinee(alloc: Global, ty: Ty) -> Column
    ensures { result ≡ record { position = []; ty = ty } }
{
    Column {
        position: Seq::new(alloc),
        ty,
    }
}

/// The tree of a match on a value of a type, unless it has more nodes than `limit`. No more nodes
/// than these are built, and it takes stack to the depth of the tree.
///
/// # Errors
///
/// Want of memory.
pub fn tree_up_to(
    alloc: Global,
    types: &[DataDecl],
    ty: Ty,
    rows: &[Pat],
    limit: usize,
) -> Result<Tried, AllocError>
    ensures tried { IfOk result (λ r. IsTried types.now ty rows.now limit r) }

    // Where the match is exhaustive, it takes the chosen clause of each value of the type.
    ensures takes { IfOk result (λ r. IsExhaustive types.now ty rows.now
        → OnBuilt r (TakesChosen types.now ty rows.now)) }

    // It tests no position twice on a way, and only those at which some row has a head.
    ensures once { IfOk result (λ r. OnBuilt r TestsOnce) }
    ensures heads { IfOk result (λ r. OnBuilt r (TestsHeads rows.now)) }
{
    let columns = [scrutinee(alloc, ty)];
    let rows = rows_of_match(alloc, rows)?;
    let mut left = limit;
    match build(alloc, types, &columns, rows.as_slice(), &mut left)? {
        Some(tree) => Ok(Tried::Built(tree)),
        None => Ok(Tried::Over),
    }
}

/// The tree of a match on a value of a type, or `Over` where it has more nodes than
/// [`LARGEST_TREE`].
///
/// # Errors
///
/// Want of memory.
pub fn tree(alloc: Global, types: &[DataDecl], ty: Ty, rows: &[Pat]) -> Result<Tried, AllocError>
    ensures tried { IfOk result (λ r. IsTried types.now ty rows.now largest_tree r) }

    // Where the match is exhaustive, it takes the chosen clause of each value of the type.
    ensures takes { IfOk result (λ r. IsExhaustive types.now ty rows.now
        → OnBuilt r (TakesChosen types.now ty rows.now)) }

    // It tests no position twice on a way, and only those at which some row has a head.
    ensures once { IfOk result (λ r. OnBuilt r TestsOnce) }
    ensures heads { IfOk result (λ r. OnBuilt r (TestsHeads rows.now)) }
{
    let tried = tree_up_to(alloc, types, ty, rows, LARGEST_TREE)?;
    Ok(tried)
}
