//! Indexes: the numbers of patterns, by what stands in the patterns at one path, so that a pattern
//! is not held against those that have another number or constructor there. A path is a list of
//! fields, from the outside in; the empty path leads to the pattern itself. A pattern's key is the
//! number that stands in it at the path, or that of the constructor that does.

ghost use Rattle.std.specs.Prelude.{◌≡◌, ◌<◌, [], ◌++◌, ℕ, true, Contains, OnOk, IfOk, IfSome, slice_index_or};
ghost use Rattle.rb_core.specs.declared.value.Value.{Value};
ghost use Rattle.rb_core.specs.Matching.{matches_of};
ghost use Rattle.rb_core.specs.Values.{subs};
ghost use Rattle.std.specs.Bool.{OnTrue};
ghost use Rattle.rb_matrix.specs.inner.Against.{IsCovered};
ghost use Rattle.rb_matrix.specs.inner.Index.{HasKey, IsIndex, ExtendsIndex, AreNear};

use crate::apart::covers;
use crate::groups::Groups;
use rb_core::pattern::Pat;
use rb_core::seq::Seq;
use std::alloc::{AllocError, Global};

// The subpattern of a field; None where the pattern is not a constructor with such a field.
fn field_of(pat: &Pat, field: usize) -> Option<&Pat>
    ensures { IfSome result (λ sub. (v : Value) → matches_of pat.now v ≡ true
        → matches_of sub.now (slice_index_or (subs v) field v) ≡ true) }
{
    match pat {
        Pat::Wild(_) | Pat::Var(_, _) | Pat::Num(_, _) => None,
        Pat::Con(_, _, pats) => pats.get(field),
    }
}

// The number that a pattern is, or that of the constructor that it begins with; None for a wildcard
// or a variable.
fn head_number(pat: &Pat) -> Option<u64>
    ensures { IfSome result (HasKey pat.now []) }
{
    match pat {
        Pat::Wild(_) | Pat::Var(_, _) => None,
        Pat::Num(_, number) => Some(*number),
        Pat::Con(_, con, _) => Some(u64::from(con.con)),
    }
}

// A pattern's key: the number that stands in it at a path, or that of the constructor that does.
// None where a wildcard or a variable stands there, or where a pattern on the way does not have the
// field, as wildcards, variables and numbers have none.
fn key_at(pat: &Pat, path: &[usize]) -> Option<u64>
    ensures { IfSome result (HasKey pat.now path.now) }
{
    let mut here = pat;
    for field in path {
        let Some(sub) = field_of(here, *field) else {
            return None;
        };
        here = sub;
    }
    head_number(here)
}

// The numbers below `count`, ascending.
fn numbers_below(alloc: Global, count: usize) -> Result<Seq<usize>, AllocError>
    ensures { IfOk result (λ js. (j : ℕ) → j < count → Contains js j) }
{
    let mut numbers = Seq::new(alloc);
    for number in 0..count {
        numbers.push(number)?;
    }
    Ok(numbers)
}

// A copy of numbers, with more behind them.
fn concat(alloc: Global, numbers: &Seq<usize>, more: &[usize]) -> Result<Seq<usize>, AllocError>
    ensures { IfOk result (λ js. js ≡ numbers.now ++ more.now) }
{
    let mut all = numbers.copy(alloc)?;
    for number in more {
        all.push(*number)?;
    }
    Ok(all)
}

// Whether one of the patterns with these numbers is found to cover a pattern; a number without a
// pattern does not count.
fn are_covering(pats: &[Pat], numbers: &[usize], pat: &Pat) -> bool
    ensures { OnTrue result (IsCovered pat.now pats.now) }
{
    for number in numbers {
        let Some(other) = pats.get(*number) else {
            continue;
        };
        if covers(other, pat) {
            return true;
        }
    }
    false
}

/// The numbers of patterns, in groups by what stands in the patterns at one path.
#[derive(Drop)]
pub struct Index {
    pub path: Seq<usize>,
    pub numbers: Groups,
}

impl Index {
    /// An index of no pattern yet, by what stands in patterns at this path.
    pub fn new(alloc: Global, path: Seq<usize>) -> Self
        ensures { IsIndex [] result }
    {
        Index {
            path,
            numbers: Groups::new(alloc),
        }
    }

    /// Adds a pattern under its key at the index's path, or to those without one. Its number is how
    /// many patterns came before it.
    ///
    /// # Errors
    ///
    /// Want of memory.
    pub fn add(&mut self, alloc: Global, number: usize, pat: &Pat) -> Result<(), AllocError>
        ensures { OnOk result (ExtendsIndex number pat.now self.old self.new) }
    {
        let key = key_at(pat, self.path.as_slice());
        self.numbers.add(alloc, number, key)
    }

    /// How many patterns of the index have this one's key or none; where this one has none, how
    /// many have none.
    pub fn count_alike(&self, pat: &Pat) -> usize {
        let count = self.numbers.keyless.len();
        let Some(key) = key_at(pat, self.path.as_slice()) else {
            return count;
        };
        count.saturating_add(self.numbers.group(key).len())
    }

    /// How many numbers [`near`](Index::near) gives for this pattern: `count` where it has no key,
    /// and else how many patterns of the index have its key or none.
    pub fn count_near(&self, count: usize, pat: &Pat) -> usize {
        if key_at(pat, self.path.as_slice()).is_none() {
            return count;
        }
        self.count_alike(pat)
    }

    /// Whether one of the patterns `pats`, those of the index, is found to cover this one. Those
    /// without a key are tried, and those with this one's key where it has one; any other has
    /// another number or constructor at the path, or one where this pattern has none, and does not
    /// cover it.
    pub fn has_covering(&self, pats: &[Pat], pat: &Pat) -> bool
        ensures { OnTrue result (IsCovered pat.now pats.now) }
    {
        if are_covering(pats, self.numbers.keyless.as_slice(), pat) {
            return true;
        }
        let Some(key) = key_at(pat, self.path.as_slice()) else {
            return false;
        };
        are_covering(pats, self.numbers.group(key), pat)
    }

    /// The numbers of those among the `count` patterns of the index that may have a value in common
    /// with this one: of all where it has no key, and else of those that have its key or none.
    ///
    /// # Errors
    ///
    /// Want of memory.
    pub fn near(&self, alloc: Global, count: usize, pat: &Pat) -> Result<Seq<usize>, AllocError>
        ensures { IfOk result (AreNear pat.now count self.now) }
    {
        let Some(key) = key_at(pat, self.path.as_slice()) else {
            return numbers_below(alloc, count);
        };
        concat(alloc, &self.numbers.keyless, self.numbers.group(key))
    }
}
