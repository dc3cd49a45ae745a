//! Sets of numbers, for the numbers among heads or patterns.

ghost use Rattle.std.specs.Prelude.{◌≡◌, ◌||◌, ◌==◌, ℕ, false, OnOk, OnErr};
ghost use Rattle.rb_matrix.specs.Known.{has};

use std::alloc::{AllocError, Global};
use std::collections::BTreeSet;

/// A set of numbers, ordered, so that thousands of them are not compared with each other.
#[derive(Drop)]
pub struct Numbers {
    held: BTreeSet<u64>,
}

impl Numbers {
    /// The empty set, which takes no memory yet.
    pub fn new(alloc: Global) -> Self
        ensures { (n : ℕ) → has result n ≡ false }
    {
        Numbers {
            held: BTreeSet::new(alloc),
        }
    }

    /// Whether the number is in the set.
    pub fn contains(&self, number: u64) -> bool
        ensures { result ≡ has self.now number }
    {
        self.held.contains(&number)
    }

    /// Adds a number; one that is in the set already changes nothing.
    ///
    /// # Errors
    ///
    /// Want of memory; the set is then as it was.
    pub fn insert(&mut self, number: u64) -> Result<(), AllocError>
        ensures ok { OnOk result ((n : ℕ) → has self.new n ≡ (has self.old n || (number == n))) }
        ensures err { OnErr result ((n : ℕ) → has self.new n ≡ has self.old n) }
    {
        self.held.insert(number)?;
        Ok(())
    }
}
