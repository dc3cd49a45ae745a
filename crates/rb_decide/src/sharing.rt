//! The nodes of a graph with their numbers by key. A node's key is a list of numbers that tells it
//! from all other nodes. A link of a node is the number of a node to which it leads. Every error is
//! want of memory.

ghost use Rattle.std.specs.Prelude.{◌≡◌, ◌++◌, ◌∷◌, [], IfOk, OnOk, length};
ghost use Rattle.std.specs.List.{AllByRecursion};
ghost use Rattle.rb_decide.specs.Graphs.{links};
ghost use Rattle.rb_decide.specs.inner.Sharing.{number_at, SharingIsFine, IsAdded, AddsKey};
ghost use Rattle.std.specs.Prelude.{◌<◌};

use crate::clause_matrix::number_of;
use crate::decision_graph::GraphNode;
use crate::keys::key_of;
use rb_core::seq::Seq;
use std::alloc::{AllocError, Global};
use std::collections::BTreeMap;

/// The nodes so far, and the number of each by its key.
#[derive(Drop)]
pub struct Sharing {
    pub nodes: Seq<GraphNode>,
    pub numbers: BTreeMap<Vec<u64>, u32>,
}

impl Sharing {
    /// A graph without nodes, and no numbers.
    pub fn new(alloc: Global) -> Sharing
        ensures fine { SharingIsFine result }
        ensures none { result.nodes ≡ [] }
    {
        Sharing {
            nodes: Seq::new(alloc),
            numbers: BTreeMap::new(alloc),
        }
    }

    // The number of the node with this key, if it is there.
    fn find(&self, key: &[u64]) -> Option<u32>
        ensures { result ≡ number_at self.now key.now }
    {
        self.numbers.get(key).copied()
    }

    // Adds a node under its key, which no node has yet, and gives its number.
    fn push(&mut self, key: Vec<u64>, node: GraphNode) -> Result<u32, AllocError>
        ensures number { IfOk result (λ i. i ≡ length self.old.nodes) }
        ensures nodes { OnOk result (self.new.nodes ≡ self.old.nodes ++ node ∷ []) }
        ensures keys { IfOk result (λ i. AddsKey self.old self.new key.items i) }
    {
        let number = number_of(self.nodes.len())?;
        self.numbers.insert(key, number)?;
        self.nodes.push(node)?;
        Ok(number)
    }

    /// The number of a node, whose links go to nodes that are there; it is added where it is new.
    ///
    /// # Errors
    ///
    /// Want of memory.
    pub fn add(&mut self, alloc: Global, node: GraphNode) -> Result<u32, AllocError>
        requires fine { SharingIsFine self.old }
        requires links { AllByRecursion (λ j. j < length self.old.nodes) (links node) }
        ensures { IfOk result (λ i. IsAdded self.old self.new node i) }
    {
        let key = key_of(alloc, &node)?;
        if let Some(number) = self.find(key.as_slice()) {
            return Ok(number);
        }
        let number = self.push(key, node)?;
        Ok(number)
    }
}
