//! Where tests lead constructors and leaves.
//!
//! A node of a decision graph is a test or a clause, given by its number. A test looks at the part
//! at a position, the numbers of the fields that lead from the value to it. Its `arms` lead to
//! nodes by what the part begins with, its head: a constructor or a number; `other` is the node of
//! all other values, None where there are none. A leaf is one of the forms in which a layout stores
//! the values of data type `ty`, given by its number; its provenance is the pattern of these
//! values. `agreed` is the program with its layouts.

ghost use Rattle.std.specs.Prelude.{◌≡◌, [], IfOk, true, is_some};
ghost use Rattle.rb_core.specs.declared.value.Value.TheOpen as Layers;
ghost use Rattle.rb_fetch.specs.Finding.{leaf_count};
ghost use Rattle.rb_facts.specs.Links.{leaf_con, link_at, take_link};

use crate::spots::is_within;
use rb_core::pattern::Pat;
use rb_core::seq::Seq;
use rb_decide::decision_graph::{GraphArm, GraphNode};
use rb_layout::agreed::Agreed;
use rb_matrix::matrix::Head;
use std::alloc::{AllocError, Global};

/// The provenance of a leaf of a data type; None where there is no such leaf. No clause says which
/// pattern it is: who saves parts by it tests first that the leaf has each of them.
pub fn prov_of<'a>(agreed: &'a Agreed, ty: u32, leaf: usize) -> Option<&'a Pat> {
    let layout = agreed.layouts().get(ty as usize)?;
    let leaf = layout.leaves.get(leaf)?;
    Some(&leaf.prov)
}

/// The constructor with which the values of a leaf begin; None where its provenance shows none, or
/// there is no such leaf.
pub fn con_of(agreed: &Agreed, ty: u32, leaf: usize) -> Option<u32>
    ensures { result ≡ leaf_con agreed.now ty leaf }
{
    let layout = agreed.layouts().get(ty as usize)?;
    let leaf = layout.leaves.get(leaf)?;
    match &leaf.prov {
        Pat::Con(_, con, _) => Some(con.con),
        Pat::Wild(_) => None,
        Pat::Var(_, _) => None,
        Pat::Num(_, _) => None,
    }
}

/// How many leaves a data type has; 0 where it has no layout.
pub fn count_leaves(agreed: &Agreed, ty: u32) -> usize
    ensures { result ≡ leaf_count agreed.now ty }
{
    match agreed.layouts().get(ty as usize) {
        None => 0,
        Some(layout) => layout.leaves.len(),
    }
}

/// The node to which a test leads the values of a constructor; None where it leads them to none.
pub fn link_of(arms: &[GraphArm], other: Option<u32>, con: u32) -> Option<u32>
    ensures { result ≡ take_link arms.now other (Layers.Con con []) }
{
    for arm in arms {
        match arm.head {
            Head::Con(head) => {
                if head.con == con {
                    return Some(arm.under);
                }
            }
            Head::Num(_) => {}
        }
    }
    other
}

/// The node to which a test leads the values of a leaf; None where none of them can be here.
///
/// # Errors
///
/// A leaf that there isn't, or whose provenance shows no constructor.
pub fn leaf_link(
    agreed: &Agreed,
    ty: u32,
    leaf: usize,
    arms: &[GraphArm],
    other: Option<u32>,
) -> Result<Option<u32>, AllocError>
    ensures link { IfOk result (λ link. link ≡ link_at arms.now other (leaf_con agreed.now ty leaf)) }
    ensures con { IfOk result (λ link. is_some (leaf_con agreed.now ty leaf) ≡ true) }
{
    let Some(con) = con_of(agreed, ty, leaf) else {
        return Err(AllocError);
    };
    Ok(link_of(arms, other, con))
}

// Whether one of the nodes to which a test leads, by an arm or for all other values, is marked. No
// clause says so: marks are guesses.
fn some_marked(marks: &[bool], arms: &[GraphArm], other: Option<u32>) -> bool {
    if let Some(node) = other
        && let Some(true) = marks.get(node as usize)
    {
        return true;
    }
    arms.iter()
        .any(|arm| matches!(marks.get(arm.under as usize), Some(true)))
}

/// For each node whether a test below a position can be met from it on: such a test reads from the part there, so it
/// needs the part's leaf. Links go to lower nodes. No clause speaks of these marks, since they are a guess: where one
/// is missing, the test below finds no leaf and is given up, as for want of memory; where there is one too many, leaves
/// are told apart or parts saved in vain.
///
/// # Errors
///
/// Want of memory.
pub fn mark_tested_below(
    alloc: Global,
    nodes: &[GraphNode],
    position: &[u32],
) -> Result<Seq<bool>, AllocError> {
    let mut marks = Seq::new(alloc);
    let mut is_met = false;
    for node in nodes {
        let mark = match node {
            GraphNode::Clause(_) => false,
            GraphNode::Test(tested, arms, other) => {
                let tested = tested.as_slice();
                let is_below = tested.len() > position.len() && is_within(tested, position);
                is_below || (is_met && some_marked(marks.as_slice(), arms.as_slice(), *other))
            }
        };
        is_met = is_met || mark;
        marks.push(mark)?;
    }
    Ok(marks)
}
