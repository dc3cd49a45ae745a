//! One value, kept as nodes that are linked by index.
//!
//! A node is a number, or a construction: a constructor with the nodes of its fields.

ghost use Rattle.std.specs.Prelude.{◌≡◌};
ghost use Rattle.rb_core.specs.Values.{node_count};
ghost use Rattle.rb_values.specs.Nodes.{posts};

use crate::nodes::Nodes;
use std::marker::Model;

/// One value. Its nodes stand in post-order: the subvalues of a construction before it, each
/// occurrence by itself. Nothing here recurses on the value, however deep it is.
#[derive(Drop)]
pub struct Forest {
    pub(crate) nodes: Nodes,
}

impl Model for Forest {
    ghost use Rattle.std.specs.Prelude.{length, ◌-◌, ◌≡◌};
    ghost use Rattle.rb_core.specs.declared.value.Value.{Value as Term};
    ghost use Rattle.rb_core.specs.contracts.value.Value as value_row;

    ghost Value = { Term };

    ghost coded = { value_row.the_row.coded };

    ghost use Rattle.rb_values.specs.Nodes.{at, posts};

    ghost view = { λ s. at s.nodes (length s.nodes - 1) };

    ghost invariant = { λ s. s.nodes ≡ posts (at s.nodes (length s.nodes - 1)) };
}

impl Forest {
    /// The number of nodes: a number is one, a construction one more than its fields have.
    pub fn nodes(&self) -> u64
        ensures { result ≡ node_count self.now }
    {
        self.nodes.len() as u64
    }

    /// The nodes in post-order, each with its value.
    pub fn as_nodes(&self) -> &Nodes
        ensures { result.now ≡ posts self.now }
    {
        &self.nodes
    }
}
