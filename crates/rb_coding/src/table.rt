//! The words of nodes, by number, and where the nodes of fields stand. A node is the outermost
//! level of a value or of a subvalue; it stands behind the nodes of its fields, so that the last
//! node is that of the whole. A size is how many nodes the value of a node has. A path is a list of
//! field numbers, outermost first.

ghost use Rattle.std.specs.Prelude.{◌≡◌, ◌-◌, ◌<◌, slice_index};
ghost use Rattle.rb_values.specs.Nodes.{at, IsLayer};
ghost use Rattle.rb_coding.specs.inner.Nodes.{arity_of, field_node, node_at, start_of, subs_of};

use crate::lookup::item;
use rb_core::seq::Seq;
use rb_values::nodes::{Layer, Nodes};

/// A table by node: how many nodes the value of each node has, and the words of each node so far.
#[derive(Drop)]
pub struct Table {
    pub sizes: Seq<usize>,
    pub words: Seq<Seq<u64>>,
}

/// The outermost level of a node; of one that is not there, a number.
pub(crate) fn layer_at(nodes: &Nodes, node: usize) -> Layer
    ensures { IsLayer (at nodes.now node) result }
{
    if node < nodes.len() {
        nodes.layer(node)
    } else {
        Layer::Num(0)
    }
}

// How many fields a node has; 0 where it is a number or not there.
fn arity_at(nodes: &Nodes, node: usize) -> usize
    ensures { result ≡ arity_of nodes.now node }
{
    if node < nodes.len() {
        nodes.arity(node)
    } else {
        0
    }
}

// How many nodes the value of the node before this one has (for node 0, its own); 0 where its size
// is not there.
fn size_before(sizes: &[usize], node: usize) -> usize
    ensures { result ≡ slice_index sizes.now (node - 1) }
{
    match sizes.get(node.saturating_sub(1)) {
        None => 0,
        Some(size) => *size,
    }
}

/// Where the nodes of the last `count` subvalues before node `end` begin; `end` where `count` is 0.
pub(crate) fn start_of(sizes: &[usize], end: usize, count: usize) -> usize
    ensures { result ≡ start_of sizes.now end count }
{
    let mut start = end;
    for _turn in 0..count {
        start = start.saturating_sub(size_before(sizes, start));
    }
    start
}

// The node of a field of a node: the nodes of the fields behind it stand between it and the node.
// Of a field that the node lacks, the answer says nothing.
fn field_node(nodes: &Nodes, sizes: &[usize], node: usize, field: u32) -> usize
    ensures { result ≡ field_node nodes.now sizes.now node field }
{
    let behind = arity_at(nodes, node).saturating_sub(field as usize + 1);
    start_of(sizes, node, behind).saturating_sub(1)
}

// The node at a path of field numbers below the node `root`, which is `root` itself where the path
// is empty; of a path on which some node lacks the field, the answer says nothing.
fn node_at(nodes: &Nodes, sizes: &[usize], root: usize, path: &[u32]) -> usize
    ensures { result ≡ node_at nodes.now sizes.now root path.now }
{
    let mut node = root;
    for field in path {
        node = field_node(nodes, sizes, node, *field);
    }
    node
}

impl Table {
    /// Word `j` of the value at a path below a node; 0 where the table has none for it.
    pub(crate) fn word(&self, nodes: &Nodes, node: usize, path: &[u32], j: u64) -> u64
        ensures { result ≡ slice_index (subs_of self.now nodes.now node path.now) j }
    {
        let found = node_at(nodes, self.sizes.as_slice(), node, path);
        match self.words.get(found) {
            None => 0,
            Some(words) => item(words.as_slice(), j),
        }
    }
}
