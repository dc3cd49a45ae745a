//! What is known of patterns that were gone over: enough to tell of a number at once whether one of
//! them matches it, and of a pattern which of them may have a value in common with it.

ghost use Rattle.std.specs.Prelude.{◌≡◌, ◌&&◌, ◌||◌, [], ℕ, not, is_some, OnOk};
ghost use Rattle.rb_core.specs.declared.pattern.Pat.{out-Pat};
ghost use Rattle.rb_matrix.specs.declared.matrix.Head.TheVariants as Heads;
ghost use Rattle.rb_matrix.specs.Heads.{fields_at};
ghost use Rattle.rb_matrix.specs.inner.Open.{layer_open};
ghost use Rattle.rb_matrix.specs.Known.{has};
ghost use Rattle.rb_matrix.specs.inner.Indexes.{BothExtend};
ghost use Rattle.rb_matrix.specs.inner.Passed.{layer_number, ArePassed};

use crate::indexes::Indexes;
use crate::matrix::Head;
use crate::numbers::Numbers;
use crate::positions::Paths;
use crate::specialization::head_fields;
use rb_core::pattern::Pat;
use rb_core::types::{DataDecl, Ty};
use std::alloc::{AllocError, Global};

/// Patterns that were gone over: `all` tells whether one of them is a wildcard or a variable, so
/// that it matches every value; beside it stand the set of the numbers among them, and two indexes
/// by what stands in them at a path of fields each.
#[derive(Drop)]
pub struct Passed {
    pub all: bool,
    pub numbers: Numbers,
    pub indexes: Indexes,
}

impl Passed {
    /// What is known where no pattern was gone over yet, with these paths for the indexes.
    pub fn new(alloc: Global, paths: Paths) -> Self
        ensures { ArePassed [] result }
    {
        Passed {
            all: false,
            numbers: Numbers::new(alloc),
            indexes: Indexes::new(alloc, paths),
        }
    }

    /// Goes over one more pattern: a wildcard or a variable sets `all`, a number goes into the set,
    /// and each goes into the indexes. Its number is how many patterns came before it.
    ///
    /// # Errors
    ///
    /// Want of memory.
    pub fn add(&mut self, alloc: Global, number: usize, pat: &Pat) -> Result<(), AllocError>
        ensures all { OnOk result (self.new.all ≡ (self.old.all || layer_open (out-Pat pat.now))) }
        ensures numbers { OnOk result ((n : ℕ)
            → has self.new.numbers n ≡ (has self.old.numbers n || layer_number (out-Pat pat.now) n)) }
        ensures indexes { OnOk result (BothExtend number pat.now self.old.indexes self.new.indexes) }
    {
        self.indexes.add(alloc, number, pat)?;
        match pat {
            Pat::Wild(_) => {
                self.all = true;
                Ok(())
            }
            Pat::Var(_, _) => {
                self.all = true;
                Ok(())
            }
            Pat::Num(_, value) => {
                self.numbers.insert(*value)?;
                Ok(())
            }
            Pat::Con(_, _, _) => Ok(()),
        }
    }

    /// Whether a number is of the type, and none of the patterns is this number. Wildcards and
    /// variables among them do not count.
    pub fn is_new(&self, types: &[DataDecl], ty: Ty, number: u64) -> bool
        ensures { result ≡ (not (has self.now.numbers number) && is_some (fields_at types.now ty (Heads.Num number))) }
    {
        if self.numbers.contains(number) {
            return false;
        }
        head_fields(types, ty, Head::Num(number)).is_some()
    }
}
