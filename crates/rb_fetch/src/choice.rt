//! The ways of a construction to its leaf: of the leaves of its type's layout, the one that holds
//! the value. A hole is a jump that is still open. A leaf's provenance is the pattern of the values
//! that it holds; where that has a wildcard, the leaf has an open position.

ghost use Rattle.std.specs.Prelude.{◌≡◌, IfOk};
ghost use Rattle.rb_fetch.specs.inner.Choosing.{choices_from};

use rb_compose::subvalue::Subvalue;
use rb_core::seq::Seq;
use rb_target::body::Hole;
use std::alloc::{AllocError, Global};

/// A way to a leaf: the number of its open jump, the leaf's number in its layout, and the parts of the
/// construction that were found on the way. Those at the leaf's open positions are among them.
#[derive(Drop)]
pub struct Way {
    pub pc: usize,
    pub leaf: usize,
    pub fields: Seq<Subvalue>,
}

/// The ways to the leaves of a construction, and a hole for each: hole k is the jump of way k.
#[derive(Drop)]
pub struct Choices {
    pub holes: Seq<Hole>,
    pub ways: Seq<Way>,
}

/// The choice that these ways are: its holes are their open jumps, each with the number of its way,
/// from 0 on, in place of a leaf.
///
/// # Errors
///
/// Want of memory.
pub(crate) fn choices_of(alloc: Global, ways: Seq<Way>) -> Result<Choices, AllocError>
    ensures { IfOk result (λ choices. choices ≡ choices_from ways) }
{
    let mut holes = Seq::new(alloc);
    for (k, way) in ways.as_slice().iter().enumerate() {
        holes.push(Hole {
            pc: way.pc,
            arm: None,
            leaf: k,
        })?;
    }
    Ok(Choices { holes, ways })
}
