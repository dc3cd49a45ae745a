//! Two indexes of the same patterns. An index holds the numbers of patterns, by the number or
//! constructor that stands in them at one path of fields, which is their key there. For a pattern
//! held against them the one serves that leaves fewer.

ghost use Rattle.std.specs.Prelude.{[], OnOk, IfOk};
ghost use Rattle.std.specs.Bool.{OnTrue};
ghost use Rattle.rb_matrix.specs.inner.Against.{IsCovered};
ghost use Rattle.rb_matrix.specs.inner.Indexes.{AreIndexes, BothExtend, AreNearIn};

use crate::index::Index;
use crate::positions::Paths;
use rb_core::pattern::Pat;
use rb_core::seq::Seq;
use std::alloc::{AllocError, Global};

/// The numbers of patterns, by what stands in the patterns at each of two paths.
#[derive(Drop)]
pub struct Indexes {
    pub first: Index,
    pub second: Index,
}

impl Indexes {
    /// Two indexes of no pattern yet, by what stands in patterns at each of these paths.
    pub fn new(alloc: Global, paths: Paths) -> Self
        ensures { AreIndexes [] result }
    {
        let Paths { first, second } = paths;
        Indexes {
            first: Index::new(alloc, first),
            second: Index::new(alloc, second),
        }
    }

    /// Adds a pattern to both indexes. Its number is how many patterns came before it.
    ///
    /// # Errors
    ///
    /// Want of memory.
    pub fn add(&mut self, alloc: Global, number: usize, pat: &Pat) -> Result<(), AllocError>
        ensures { OnOk result (BothExtend number pat.now self.old self.new) }
    {
        self.first.add(alloc, number, pat)?;
        self.second.add(alloc, number, pat)?;
        Ok(())
    }

    /// Whether one of the patterns `pats`, those of the indexes, is found to cover this one. The
    /// index is asked that leaves fewer to try, and of two that leave as many the first.
    pub fn has_covering(&self, pats: &[Pat], pat: &Pat) -> bool
        ensures { OnTrue result (IsCovered pat.now pats.now) }
    {
        if self.first.count_alike(pat) <= self.second.count_alike(pat) {
            self.first.has_covering(pats, pat)
        } else {
            self.second.has_covering(pats, pat)
        }
    }

    /// How many numbers [`near`](Indexes::near) gives for this pattern.
    pub fn count_near(&self, count: usize, pat: &Pat) -> usize {
        let first = self.first.count_near(count, pat);
        first.min(self.second.count_near(count, pat))
    }

    /// The numbers of those among the `count` patterns of the indexes that may have a value in
    /// common with this one, by the index that leaves fewer, and of two that leave as many by the
    /// first.
    ///
    /// # Errors
    ///
    /// Want of memory.
    pub fn near(&self, alloc: Global, count: usize, pat: &Pat) -> Result<Seq<usize>, AllocError>
        ensures { IfOk result (AreNearIn pat.now count self.now) }
    {
        if self.first.count_near(count, pat) <= self.second.count_near(count, pat) {
            self.first.near(alloc, count, pat)
        } else {
            self.second.near(alloc, count, pat)
        }
    }
}
