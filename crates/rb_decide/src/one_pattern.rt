//! The graph of one pattern: its tests in pre-order, without a tree.
//!
//! Beside one pattern and `_` the decision tree is a chain: each number and constructor of the
//! pattern is tested where it stands, the one arm leads to the next test, and all other values are
//! left to clause 1. So the nodes are made from the last test to the first, each once, in the time
//! of the pattern's positions. There is recursion only into the nesting of the pattern.
//!
//! A position is a list of field numbers from the root of the value that is matched. A head is what
//! a pattern or a value begins with: a number or a constructor. What stands at `position` has type
//! `ty`, the types of the program are `types`, and `nodes` are the nodes so far, to which tests are
//! added. Every error is want of memory.

ghost use Rattle.std.specs.Prelude.{◌≡◌, ◌∷◌, ◌+◌, ◌<◌, ◌≤◌, ◌++◌, [], IfOk, Some, length};
ghost use Rattle.rb_core.specs.declared.pattern.Pat.{Wild};
ghost use Rattle.rb_decide.specs.Decisions.{OnUnfolded, TakesChosen, TestsOnce, TestsHeads};
ghost use Rattle.rb_decide.specs.Graphs.{unfolding_of, LinksAreLower};
ghost use Rattle.rb_decide.specs.Trees.{match_tree};
ghost use Rattle.rb_decide.specs.inner.Chains.{AreChained, IsFieldChain, IsPatternChain, IsTest};
ghost use Rattle.rb_matrix.specs.Counts.{head_count};

use crate::branches::fields_of_head;
use crate::clause_matrix::number_of;
use crate::decision_graph::{Graph, GraphArm, GraphNode};
use crate::signature::covers;
use rb_core::pattern::Pat;
use rb_core::seq::Seq;
use rb_core::types::{DataDecl, Ty};
use rb_matrix::matrix::Head;
use std::alloc::{AllocError, Global};

// The node of clause 1, for all values that the pattern does not match.
const OTHERS: u32 = 0;

// The node of clause 0, for the values that it matches.
const MATCHED: u32 = 1;

// Adds a test of one head at a position, whose arm leads to node `under`, and gives its number.
// Other values, if there may be any, go to clause 1.
fn add_test(
    alloc: Global,
    types: &[DataDecl],
    nodes: &mut Seq<GraphNode>,
    ty: Ty,
    position: &[u32],
    head: Head,
    under: u32,
) -> Result<u32, AllocError>
    requires fine { AreChained nodes.old }
    requires within { under < length nodes.old }
    ensures { IfOk result (IsTest types.now head
        (record { position = position.now; ty = ty }) nodes.old under nodes.new) }
{
    let number = number_of(nodes.len())?;
    let full = covers(types, ty, &[head])?;
    let other = if full { None } else { Some(OTHERS) };
    let mut arms = Seq::new(alloc);
    arms.push(GraphArm { head, under })?;
    let position = Seq::from_vec(Vec::from_slice(alloc, position)?);
    nodes.push(GraphNode::Test(position, arms, other))?;
    Ok(number)
}

// The position of a field of what stands at a position: one field number more.
fn field_position(alloc: Global, position: &[u32], field: usize) -> Result<Seq<u32>, AllocError>
    ensures { IfOk result (λ p. p ≡ position.now ++ field ∷ []) }
{
    let mut place = Seq::from_vec(Vec::from_slice(alloc, position)?);
    place.push(number_of(field)?)?;
    Ok(place)
}

// Adds the tests of a pattern at a position, from the last one to the first, before node `under`,
// and gives the number of the first test; `under` itself where there is none.
#[cycle(chaining)]
fn add_pattern(
    alloc: Global,
    types: &[DataDecl],
    nodes: &mut Seq<GraphNode>,
    ty: Ty,
    position: &[u32],
    pat: &Pat,
    under: u32,
) -> Result<u32, AllocError>
    requires fine { AreChained nodes.old }
    requires within { under < length nodes.old }
    ensures { IfOk result
        (IsPatternChain types.now pat.now (record { position = position.now; ty = ty }) nodes.old under nodes.new) }
{
    match pat {
        Pat::Wild(_) => Ok(under),
        Pat::Var(_, _) => Ok(under),
        Pat::Num(_, number) => {
            let head = Head::Num(*number);
            let test = add_test(alloc, types, nodes, ty, position, head, under)?;
            Ok(test)
        }
        Pat::Con(_, con, subs) => {
            let head = Head::Con(*con);
            let fields = fields_of_head(types, ty, head);
            let subs = subs.as_slice();
            let first = add_fields(alloc, types, nodes, fields, position, subs, under)?;
            let test = add_test(alloc, types, nodes, ty, position, head, first)?;
            Ok(test)
        }
    }
}

// Adds the tests of the patterns in the fields of a constructor at a position, from the last one to
// the first, before node `under`, and gives the number of the first test; `under` itself where
// there is none. Where there are not as many patterns as fields nothing matches, and it gives the
// node of clause 1.
#[cycle(chaining)]
fn add_fields(
    alloc: Global,
    types: &[DataDecl],
    nodes: &mut Seq<GraphNode>,
    fields: &[Ty],
    position: &[u32],
    subs: &[Pat],
    under: u32,
) -> Result<u32, AllocError>
    requires fine { AreChained nodes.old }
    requires within { under < length nodes.old }
    ensures { IfOk result (IsFieldChain types.now subs.now position.now fields.now nodes.old under nodes.new) }
{
    let count = subs.len();
    if fields.len() != count {
        return Ok(OTHERS);
    }
    let mut first = under;
    for i in 0..count {
        let field = count - 1 - i;
        let place = field_position(alloc, position, field)?;
        let place = place.as_slice();
        first = add_pattern(
            alloc,
            types,
            nodes,
            fields[field],
            place,
            &subs[field],
            first,
        )?;
    }
    Ok(first)
}

/// The graph of the match of a pattern and `_`, which has clause 0 and 1, and a test for each
/// number and constructor of the pattern. It takes stack to the nesting of the pattern.
///
/// # Errors
///
/// Want of memory.
pub fn pattern_graph(
    alloc: Global,
    types: &[DataDecl],
    ty: Ty,
    pat: &Pat,
) -> Result<Graph, AllocError>
    // From its root the graph unfolds to the tree of the match.
    ensures unfolds { IfOk result (λ g. unfolding_of g ≡ Some (match_tree types.now ty (pat.now ∷ Wild 0 ∷ []))) }
    ensures lower { IfOk result (λ g. LinksAreLower g.nodes) }
    ensures few { IfOk result (λ g. length g.nodes ≤ 2 + head_count pat.now) }

    // That tree takes clause 0 of a value of the type that the pattern matches, and clause 1 of all
    // others.
    ensures takes { IfOk result (λ g. OnUnfolded g (TakesChosen types.now ty (pat.now ∷ Wild 0 ∷ []))) }

    // It tests no position twice on a way, and only those at which the pattern has a head.
    ensures once { IfOk result (λ g. OnUnfolded g TestsOnce) }
    ensures heads { IfOk result (λ g. OnUnfolded g (TestsHeads (pat.now ∷ Wild 0 ∷ []))) }
{
    let mut nodes = Seq::new(alloc);
    nodes.push(GraphNode::Clause(1))?;
    nodes.push(GraphNode::Clause(0))?;
    let root = add_pattern(alloc, types, &mut nodes, ty, &[], pat, MATCHED)?;
    Ok(Graph { nodes, root })
}
