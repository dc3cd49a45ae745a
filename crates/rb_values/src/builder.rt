//! A stack of finished values over one list of nodes.
//!
//! A node is a number, or a construction: a constructor with the nodes of its subvalues, which
//! stand before it. In post-order the subvalues of a value stand before it, from left to right. A
//! contract sees the stack as the list of its values, the top last. Every error is want of memory.

ghost use Rattle.std.specs.Prelude.{◌≡◌, ◌-◌, ◌≤◌, ◌∷◌, ◌++◌, [], length, map, take, drop, OnOk, sum};
ghost use Rattle.rb_core.specs.declared.value.Value.{Num, Con};
ghost use Rattle.rb_core.specs.Values.{node_count};

use crate::forest::Forest;
use crate::nodes::Nodes;
use std::alloc::{AllocError, Global};
use std::marker::Model;

/// A stack of values that are finished, the last one on top. Their nodes stand in one list, in
/// post-order.
#[derive(Drop)]
pub struct Builder {
    nodes: Nodes,
    done: Vec<usize>,
}

impl Model for Builder {
    ghost use Rattle.std.specs.Prelude.{List, map};
    ghost use Rattle.std.specs.Coded.{coded_list};
    ghost use Rattle.rb_core.specs.declared.value.Value.{Value as Term};
    ghost use Rattle.rb_core.specs.contracts.value.Value as value_row;

    ghost Value = { List Term };

    ghost coded = { coded_list value_row.the_row.coded };

    ghost use Rattle.rb_values.specs.Nodes.{at};
    ghost use Rattle.rb_values.specs.Linking.{IsBuilt};

    ghost view = { λ s. map (at s.nodes) s.done.items };

    ghost invariant = { λ s. IsBuilt s.nodes s.done.items };
}

impl Builder {
    /// A stack of no values.
    pub fn new(alloc: Global) -> Builder
        ensures { result ≡ [] }
    {
        Builder {
            nodes: Nodes::new(alloc),
            done: Vec::new(alloc),
        }
    }

    /// The number of nodes of all values together.
    pub fn count(&self) -> usize
        ensures { result ≡ sum (map node_count self.now) }
    {
        self.nodes.len()
    }

    /// The number of finished values.
    pub fn len(&self) -> usize
        ensures { result ≡ length self.now }
    {
        self.done.len()
    }

    /// Puts a number on top of the stack.
    ///
    /// # Errors
    ///
    /// Want of memory.
    pub fn number(&mut self, n: u64) -> Result<(), AllocError>
        ensures { OnOk result (self.new ≡ self.old ++ Num n ∷ []) }
    {
        let at = self.nodes.len();
        self.done.push(at)?;
        match self.nodes.push_number(n) {
            Ok(()) => Ok(()),
            Err(e) => {
                self.done.pop();
                Err(e)
            }
        }
    }

    /// Takes the last `n` values from the stack and puts a construction by constructor `con` of
    /// them there.
    ///
    /// # Errors
    ///
    /// Want of memory.
    pub fn build(&mut self, con: u32, n: usize) -> Result<(), AllocError>
        requires { n ≤ length self.old }
        ensures { OnOk result (self.new ≡ take (length self.old - n) self.old
            ++ Con con (drop (length self.old - n) self.old) ∷ []) }
    {
        let start = self.done.len() - n;
        let at = self.nodes.len();
        self.done.push(at)?;
        match self.nodes.push_build(con, &self.done[start..start + n]) {
            Ok(()) => {
                self.done[start] = at;
                self.done.truncate(start + 1);
                Ok(())
            }
            Err(e) => {
                self.done.pop();
                Err(e)
            }
        }
    }

    /// The only value of the stack, with its nodes.
    pub fn finish(self) -> Forest
        requires { length self ≡ 1 }
        ensures { self ≡ result ∷ [] }
    {
        let Builder { nodes, done: _ } = self;
        Forest { nodes }
    }
}
