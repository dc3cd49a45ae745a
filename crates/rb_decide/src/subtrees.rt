//! From trees to graphs.
//!
//! A tree's node is a clause, or a test with a tree under each of its arms and perhaps one for the
//! values that no arm takes. A graph's node has the numbers of nodes in place of these trees.
//! `sharing` has the nodes so far with their numbers; an equal node is found there, not added
//! again. Every error is want of memory.

ghost use Rattle.std.specs.Prelude.{◌≡◌, IfOk, Some};
ghost use Rattle.rb_decide.specs.Graphs.{unfolding_of, LinksAreLower, NodesDiffer, NodesAreReached};
ghost use Rattle.rb_decide.specs.inner.Sharing.{SharingIsFine, IsShared, AreShared, IsOtherShared};

use crate::decision_graph::{Graph, GraphArm, GraphNode};
use crate::decision_tree::{Tree, TreeArm};
use crate::sharing::Sharing;
use rb_core::boxed::Boxed;
use rb_core::seq::Seq;
use std::alloc::{AllocError, Global};

// The number of a tree's root, after those of its nodes that are new were added, inner ones first.
#[cycle(sharing)]
fn add_tree(alloc: Global, sharing: &mut Sharing, tree: &Tree) -> Result<u32, AllocError>
    requires { SharingIsFine sharing.old }
    ensures { IfOk result (λ i. IsShared tree.now sharing.old sharing.new i) }
{
    match tree {
        Tree::Clause(clause) => {
            let number = sharing.add(alloc, GraphNode::Clause(*clause))?;
            Ok(number)
        }
        Tree::Test(position, arms, other) => {
            let arms = add_arms(alloc, sharing, arms.as_slice())?;
            let other = add_other(alloc, sharing, other)?;
            let position = position.copy(alloc)?;
            let number = sharing.add(alloc, GraphNode::Test(position, arms, other))?;
            Ok(number)
        }
    }
}

// Adds the trees below arms, and gives for each arm its head with the number of its tree's node.
#[cycle(sharing)]
fn add_arms(
    alloc: Global,
    sharing: &mut Sharing,
    arms: &[TreeArm],
) -> Result<Seq<GraphArm>, AllocError>
    requires { SharingIsFine sharing.old }
    ensures { IfOk result (λ l. AreShared arms.now sharing.old sharing.new l) }
{
    let mut links = Seq::new(alloc);
    for arm in arms {
        let under = add_tree(alloc, sharing, &arm.under)?;
        links.push(GraphArm {
            head: arm.head,
            under,
        })?;
    }
    Ok(links)
}

// Adds the tree for values that no arm takes, where there is one, and gives its node's number.
#[cycle(sharing)]
fn add_other(
    alloc: Global,
    sharing: &mut Sharing,
    other: &Option<Boxed<Tree>>,
) -> Result<Option<u32>, AllocError>
    requires { SharingIsFine sharing.old }
    ensures { IfOk result (λ l. IsOtherShared other.now sharing.old sharing.new l) }
{
    match other {
        None => Ok(None),
        Some(tree) => {
            let number = add_tree(alloc, sharing, tree.get())?;
            Ok(Some(number))
        }
    }
}

/// The graph of a tree, in which equal subtrees are one node. It takes stack to the depth of the
/// tree; a graph of 2^32 nodes meets want of memory.
///
/// # Errors
///
/// Want of memory.
pub fn share(alloc: Global, tree: &Tree) -> Result<Graph, AllocError>
    // From its root the graph unfolds to the tree.
    ensures unfolds { IfOk result (λ g. unfolding_of g ≡ Some tree.now) }
    ensures lower { IfOk result (λ g. LinksAreLower g.nodes) }
    ensures differ { IfOk result (λ g. NodesDiffer g.nodes) }
    ensures reached { IfOk result (λ g. NodesAreReached g) }
{
    let mut sharing = Sharing::new(alloc);
    let root = add_tree(alloc, &mut sharing, tree)?;
    Ok(Graph {
        nodes: sharing.nodes,
        root,
    })
}
