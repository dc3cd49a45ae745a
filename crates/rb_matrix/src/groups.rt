//! Groups: numbers by their keys, so that those with one key are found without a look at others. A
//! number may be without a key too. Which keys the numbers have is for the caller to say.

ghost use Rattle.std.specs.Prelude.{◌≡◌, ◌∷◌, [], MatchOption, OnOk};
ghost use Rattle.rb_matrix.specs.inner.Groups.{merge_of, numbers_with, near, IsGrouped, IsNumberAdded, HasNoNumber};

use rb_core::seq::Seq;
use std::alloc::{AllocError, Global};
use std::collections::BTreeMap;

/// Two ascending lists of numbers, taken off from their fronts as one list that ascends.
#[derive(Drop)]
pub struct Merged<'a> {
    ones: &'a [usize],
    others: &'a [usize],
}

impl<'a> Merged<'a> {
    /// Takes the first number off, which is the smaller of the first of both lists; None where no
    /// number is left.
    pub fn next(&mut self) -> Option<usize>
        ensures { MatchOption result (merge_of self.old.ones.now self.old.others.now ≡ [])
            (λ n. merge_of self.old.ones.now self.old.others.now ≡ n ∷ merge_of self.new.ones.now self.new.others.now) }
    {
        let [one, ones @ ..] = self.ones else {
            let [other, others @ ..] = self.others else {
                return None;
            };
            self.others = others;
            return Some(*other);
        };
        let [other, others @ ..] = self.others else {
            self.ones = ones;
            return Some(*one);
        };
        if *one < *other {
            self.ones = ones;
            return Some(*one);
        }
        self.others = others;
        Some(*other)
    }
}

/// The numbers without a key, and for each key the numbers that have it, in the order in which they
/// were added.
#[derive(Drop)]
pub struct Groups {
    pub keyless: Seq<usize>,
    pub by_key: BTreeMap<u64, Seq<usize>>,
}

impl Groups {
    /// Groups of no number yet.
    pub fn new(alloc: Global) -> Self
        ensures { HasNoNumber result }
    {
        Groups {
            keyless: Seq::new(alloc),
            by_key: BTreeMap::new(alloc),
        }
    }

    // Adds a number behind those with this key; it is the first where no number has the key yet.
    fn add_to_group(&mut self, alloc: Global, number: usize, key: u64) -> Result<(), AllocError>
        ensures { OnOk result (IsGrouped key number self.old self.new) }
    {
        let mut group = match self.by_key.remove(&key) {
            None => Seq::new(alloc),
            Some(group) => group,
        };
        group.push(number)?;
        self.by_key.insert(key, group)?;
        Ok(())
    }

    /// Adds a number behind those with its key, or behind those without one.
    ///
    /// # Errors
    ///
    /// Want of memory.
    pub fn add(&mut self, alloc: Global, number: usize, key: Option<u64>) -> Result<(), AllocError>
        ensures { OnOk result (IsNumberAdded key number self.old self.new) }
    {
        match key {
            None => self.keyless.push(number),
            Some(key) => self.add_to_group(alloc, number, key),
        }
    }

    /// The numbers with this key, in the order in which they were added.
    pub fn group(&self, key: u64) -> &[usize]
        ensures { result.now ≡ numbers_with self.now key }
    {
        match self.by_key.get(&key) {
            None => &[],
            Some(group) => group.as_slice(),
        }
    }

    /// The numbers with this key alone, in the order in which they were added.
    pub fn alone(&self, key: u64) -> Merged
        ensures { merge_of result.ones.now result.others.now ≡ numbers_with self.now key }
    {
        Merged {
            ones: self.group(key),
            others: &[],
        }
    }

    /// The numbers with this key and those without one, ascending where they were added so.
    pub fn near(&self, key: u64) -> Merged
        ensures { merge_of result.ones.now result.others.now ≡ near self.now key }
    {
        Merged {
            ones: self.group(key),
            others: self.keyless.as_slice(),
        }
    }
}
