//! The leaf of a node. A node is the outermost level of a value or of a subvalue: a number, or a
//! construction. A layout has leaves, each for the values that its provenance, a pattern, matches.
//! `nodes` are those of the whole value, and `node` is the number of one.

ghost use Rattle.std.specs.Prelude.{◌≡◌, ◌<◌, length, map};
ghost use Rattle.std.specs.Option.{option_copied};
ghost use Rattle.rb_core.specs.Matching.{matches_of, all_pass};
ghost use Rattle.rb_core.specs.Values.{subs};
ghost use Rattle.rb_layout.specs.Positions.{layout_of, leaf_from};
ghost use Rattle.rb_rel.specs.Placing.{leaf_in, leaf_numbered};
ghost use Rattle.rb_values.specs.Nodes.{at};

use crate::table::layer_at;
use rb_core::pattern::Pat;
use rb_layout::layout::{Layout, Leaf};
use rb_values::nodes::{Layer, Nodes};

// The node of a field of a node; the node itself where it has no such field.
fn child_at(nodes: &Nodes, node: usize, field: usize) -> usize
    ensures { field < length (subs (at nodes.now node)) → at nodes.now result ≡ at (subs (at nodes.now node)) field }
{
    if node >= nodes.len() {
        return node;
    }
    if field >= nodes.arity(node) {
        return node;
    }
    nodes.child(node, field)
}

// Whether a provenance matches a node. The call nests as deep as the provenance.
#[cycle(matching)]
fn matches(pat: &Pat, nodes: &Nodes, node: usize) -> bool
    ensures { result ≡ matches_of pat.now (at nodes.now node) }
{
    match pat {
        Pat::Wild(_) => true,
        Pat::Var(_, _) => true,
        Pat::Num(_, n) => match layer_at(nodes, node) {
            Layer::Num(m) => *n == m,
            Layer::Con(_, _) => false,
        },
        Pat::Con(_, con, pats) => match layer_at(nodes, node) {
            Layer::Num(_) => false,
            Layer::Con(number, count) => con.con == number
                && all_match(pats.as_slice(), nodes, node, count),
        },
    }
}

// Whether each pattern matches its field, and there are as many of one as of the other.
#[cycle(matching)]
#[tactic(auto, using(rb_core::proofs::MatchingLemmas::loop_lemmas))]
fn all_match(pats: &[Pat], nodes: &Nodes, node: usize, count: usize) -> bool
    ensures { count ≡ length (subs (at nodes.now node))
        → result ≡ all_pass (map matches_of pats.now) (subs (at nodes.now node)) }
{
    if pats.len() != count {
        return false;
    }
    for (i, pat) in pats.iter().enumerate() {
        if !matches(pat, nodes, child_at(nodes, node, i)) {
            return false;
        }
    }
    true
}

// The first of these leaves whose provenance matches a node; none where none does.
fn leaf_among<'a>(leaves: &'a [Leaf], nodes: &Nodes, node: usize) -> Option<&'a Leaf>
    ensures { option_copied result ≡ leaf_numbered leaves.now (leaf_from leaves.now (at nodes.now node) 0) }
{
    for leaf in leaves {
        if matches(&leaf.prov, nodes, node) {
            return Some(leaf);
        }
    }
    None
}

/// The leaf of a node at data type `ty`: the first in the type's layout whose provenance matches
/// it. None where there is no such leaf.
pub(crate) fn leaf_of<'a>(
    layouts: &'a [Layout],
    ty: u32,
    nodes: &Nodes,
    node: usize,
) -> Option<&'a Leaf>
    ensures { option_copied result ≡ leaf_in (layout_of layouts.now ty) (at nodes.now node) }
{
    match layouts.get(ty as usize) {
        None => None,
        Some(layout) => leaf_among(layout.leaves.as_slice(), nodes, node),
    }
}
