//! Values as nodes in one list, each of which names its subvalues by lower numbers.
//!
//! The links of all nodes stand in a list of their own: each is the number of a subvalue's node,
//! and those of one node stand side by side. Nodes are numbered from 0 on. Every error is want of
//! memory.

ghost use Rattle.std.specs.Prelude.{◌≡◌, ◌<◌, ◌∷◌, ◌++◌, [], length, map, OnOk, OnErr, All};
ghost use Rattle.rb_core.specs.declared.value.Value.{Num, Con};
ghost use Rattle.rb_core.specs.Values.{subs};
ghost use Rattle.rb_values.specs.Nodes.{at, IsLayer};

use std::alloc::{AllocError, Global};
use std::marker::Model;

/// A number, or a construction: its constructor's number, its first link and how many links it has.
#[derive(Clone, Copy)]
pub enum Node {
    /// This number.
    Number(u64),
    /// The constructor's number, the place of the first link, and the number of links.
    Build(u32, usize, usize),
}

/// One level of a value: a number, or a constructor's number and how many subvalues there are.
#[derive(Clone, Copy)]
pub enum Layer {
    /// This number.
    Num(u64),
    /// The constructor's number, and the number of subvalues.
    Con(u32, usize),
}

/// Nodes and their links. A contract sees the list of values that the nodes stand for.
#[derive(Drop)]
pub struct Nodes {
    nodes: Vec<Node>,
    links: Vec<usize>,
}

impl Model for Nodes {
    ghost use Rattle.std.specs.Prelude.{List, []};
    ghost use Rattle.std.specs.Coded.{coded_list};
    ghost use Rattle.rb_core.specs.declared.value.Value.{Value as Term};
    ghost use Rattle.rb_core.specs.contracts.value.Value as value_row;

    ghost Value = { List Term };

    ghost coded = { coded_list value_row.the_row.coded };

    ghost use Rattle.rb_values.specs.Linking.{values_from, AreLinkedBack};

    ghost view = { λ s. values_from s.links.items s.nodes.items [] };

    ghost invariant = { λ s. AreLinkedBack s.links.items 0 s.nodes.items };
}

impl Nodes {
    /// A list of no nodes.
    pub fn new(alloc: Global) -> Nodes
        ensures { result ≡ [] }
    {
        Nodes {
            nodes: Vec::new(alloc),
            links: Vec::new(alloc),
        }
    }

    /// The number of nodes.
    pub fn len(&self) -> usize
        ensures { result ≡ length self.now }
    {
        self.nodes.len()
    }

    /// Adds a node at the end that is the number `n`.
    ///
    /// # Errors
    ///
    /// Want of memory; the list stays as it is.
    pub fn push_number(&mut self, n: u64) -> Result<(), AllocError>
        ensures ok { OnOk result (self.new ≡ self.old ++ Num n ∷ []) }
        ensures err { OnErr result (self.new ≡ self.old) }
    {
        self.nodes.push(Node::Number(n))?;
        Ok(())
    }

    /// Adds a node at the end that is a construction by constructor `con` of the earlier nodes
    /// `children`.
    ///
    /// # Errors
    ///
    /// Want of memory; the list stays as it is.
    pub fn push_build(&mut self, con: u32, children: &[usize]) -> Result<(), AllocError>
        requires { All (λ k. k < length self.old) children.now }
        ensures ok { OnOk result (self.new ≡ self.old ++ Con con (map (at self.old) children.now) ∷ []) }
        ensures err { OnErr result (self.new ≡ self.old) }
    {
        let first = self.links.len();
        self.links.extend_from_slice(children)?;
        self.nodes.push(Node::Build(con, first, children.len()))?;
        Ok(())
    }

    /// The outermost level of the value of node `i`.
    pub fn layer(&self, i: usize) -> Layer
        requires { i < length self.now }
        ensures { IsLayer (at self.now i) result }
    {
        match self.nodes[i] {
            Node::Number(n) => Layer::Num(n),
            Node::Build(con, _, count) => Layer::Con(con, count),
        }
    }

    /// How many subvalues node `i` has; a number has none.
    pub fn arity(&self, i: usize) -> usize
        requires { i < length self.now }
        ensures { result ≡ length (subs (at self.now i)) }
    {
        match self.layer(i) {
            Layer::Num(_) => 0,
            Layer::Con(_, count) => count,
        }
    }

    /// The node of subvalue `j` of node `i`.
    pub fn child(&self, i: usize, j: usize) -> usize
        requires within { i < length self.now }
        requires child { j < length (subs (at self.now i)) }
        ensures below { result < i }
        ensures value { at self.now result ≡ at (subs (at self.now i)) j }
    {
        match self.nodes[i] {
            Node::Number(_) => 0,
            Node::Build(_, first, _) => self.links[first + j],
        }
    }
}
