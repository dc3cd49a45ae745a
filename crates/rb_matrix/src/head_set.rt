//! Sets of heads. A head is a number or a constructor with which a pattern begins, and a constructor
//! counts by its number in the type.

ghost use Rattle.std.specs.Prelude.{◌≡◌, ◌||◌, false, OnOk, OnErr};
ghost use Rattle.rb_core.specs.declared.value.Value as Values;
ghost use Rattle.rb_core.specs.declared.value.Value.TheOpen as Layers;
ghost use Rattle.rb_matrix.specs.Heads.{layer_begins, sample};
ghost use Rattle.rb_matrix.specs.Known.{holds};

use crate::matrix::Head;
use crate::numbers::Numbers;
use std::alloc::{AllocError, Global};

/// A set of heads, ordered, so that many of them are not compared with each other: the numbers, and
/// the numbers of the constructors in their types.
#[derive(Drop)]
pub struct HeadSet {
    numbers: Numbers,
    cons: Numbers,
}

impl HeadSet {
    /// The empty set, which takes no memory yet.
    pub fn new(alloc: Global) -> Self
        ensures { (l : Layers.Value-F Values.Value) → holds result l ≡ false }
    {
        let numbers = Numbers::new(alloc);
        let cons = Numbers::new(alloc);
        HeadSet { numbers, cons }
    }

    /// Whether a head like this one is in the set: the same number, or a constructor with the same
    /// number in its type.
    pub fn contains(&self, head: Head) -> bool
        ensures { result ≡ holds self.now (sample head) }
    {
        match head {
            Head::Num(number) => self.numbers.contains(number),
            Head::Con(con) => self.cons.contains(u64::from(con.con)),
        }
    }

    /// Adds a head; one like a head that is in the set already changes nothing.
    ///
    /// # Errors
    ///
    /// Want of memory; the set is then as it was.
    pub fn insert(&mut self, head: Head) -> Result<(), AllocError>
        ensures ok { OnOk result ((l : Layers.Value-F Values.Value)
            → holds self.new l ≡ (holds self.old l || layer_begins head l)) }
        ensures err { OnErr result ((l : Layers.Value-F Values.Value) → holds self.new l ≡ holds self.old l) }
    {
        match head {
            Head::Num(number) => self.numbers.insert(number),
            Head::Con(con) => self.cons.insert(u64::from(con.con)),
        }
    }
}
