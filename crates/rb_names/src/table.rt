//! Tables of names. A table says what names stand for; a name is the bytes of its text.

ghost use Rattle.std.specs.Prelude.{◌≡◌, [], ◌∷◌, is_some, length, not, reverse, IfOk, OnOk};
ghost use Rattle.rb_names.specs.Answers.{AnswersNumbering};
ghost use Rattle.rb_names.specs.Numbering.{name_found};
ghost use Rattle.rb_names.specs.Tables.{meaning};
ghost use Rattle.rb_names.specs.inner.Defining.{with_definition};

use crate::fault::{NameFault, known_or_fault};
use indexmap::IndexMap;
use rb_syntax::tree::NameTree;
use std::alloc::{AllocError, Global};
use std::marker::Model;

/// Names with what each stands for, in the order of their definitions. The names are borrowed from
/// the tree.
#[derive(Drop)]
pub struct Table<'a, T> {
    by_name: IndexMap<&'a [u8], T>,
}

impl<'a, T> Model for Table<'a, T> {
    ghost use Rattle.std.specs.Prelude.{List, ℕ, map};
    ghost use Rattle.std.specs.Coded.{coded_list, coded_ℕ, coded×};

    ghost Value = { List (List ℕ × T) };

    ghost coded = { coded_list (coded× (coded_list coded_ℕ) T.code) };

    ghost view = { λ t. map (λ e. (e.0.now, e.1)) t.by_name.entries };
}

impl<'a, T: Copy> Table<'a, T> {
    /// A table without a name.
    pub fn new(alloc: Global) -> Self
        ensures { result ≡ [] }
    {
        Table {
            by_name: IndexMap::new(alloc),
        }
    }

    /// A table of one name, which stands for `stands_for`.
    ///
    /// # Errors
    ///
    /// Want of memory.
    pub fn of_one(alloc: Global, name: &'a [u8], stands_for: T) -> Result<Self, AllocError>
        ensures { IfOk result (λ table. table ≡ (name.now, stands_for) ∷ []) }
    {
        let mut table = Table::new(alloc);
        table.define(name, stands_for)?;
        Ok(table)
    }

    /// How many names are defined.
    pub fn len(&self) -> usize
        ensures { result ≡ length self.now }
    {
        self.by_name.len()
    }

    /// What a name stands for; none where it isn't defined.
    pub fn get(&self, name: &[u8]) -> Option<T>
        ensures { result ≡ meaning self.now name.now }
    {
        self.by_name.get(name).copied()
    }

    /// What a name of the tree stands for.
    ///
    /// # Errors
    ///
    /// `Unknown` where it isn't defined; or want of memory.
    pub fn known(&self, alloc: Global, name: &NameTree) -> Result<T, NameFault>
        ensures { AnswersNumbering result (name_found name.now (meaning self.now name.now.text)) }
    {
        known_or_fault(alloc, name, self.get(name.text.as_slice()))
    }

    /// What the last of a name stands for; a name is defined once, so it is the first, too.
    pub fn last(&self, name: &[u8]) -> Option<T>
        ensures { result ≡ meaning (reverse self.now) name.now }
    {
        // Many a table of binders is empty: no name is hashed for it.
        if self.by_name.len() == 0 {
            return None;
        }
        self.by_name.get(name).copied()
    }

    /// Defines a name as `stands_for`, unless it is defined already, and answers whether it was
    /// new.
    ///
    /// # Errors
    ///
    /// Want of memory.
    pub fn define(&mut self, name: &'a [u8], stands_for: T) -> Result<bool, AllocError>
        ensures new { IfOk result (λ is_new. is_new ≡ not (is_some (meaning self.old name.now))) }
        ensures table { OnOk result
            (self.new ≡ with_definition self.old name.now stands_for (meaning self.old name.now)) }
    {
        if self.by_name.contains_key(name) {
            return Ok(false);
        }
        self.by_name.insert(name, stands_for)?;
        Ok(true)
    }
}
