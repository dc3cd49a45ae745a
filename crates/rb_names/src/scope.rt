//! The variables that are bound round a place. A binder is what binds one; it has a number in its
//! function. A frame has the binders of one pattern, one list of parameters or one `let`.

ghost use Rattle.std.specs.Prelude.{◌≡◌, [], ◌∷◌, drop, reverse, OnOk};
ghost use Rattle.rb_names.specs.Answers.{AnswersNumbering};
ghost use Rattle.rb_names.specs.Numbering.{name_found};
ghost use Rattle.rb_names.specs.Tables.{meaning};
ghost use Rattle.rb_names.specs.inner.Frames.{scope_of};

use crate::fault::{NameFault, known_or_fault};
use crate::table::Table;
use rb_core::seq::Seq;
use rb_syntax::tree::NameTree;
use std::alloc::{AllocError, Global};
use std::marker::Model;

/// The binders of each pattern, list of parameters and `let` round a place, the innermost last.
/// Contracts see the innermost first. There are no more of them than levels of nesting.
#[derive(Drop)]
pub struct Scope<'a> {
    frames: Seq<Table<'a, u32>>,
}

impl<'a> Model for Scope<'a> {
    ghost use Rattle.std.specs.Prelude.{List, ℕ, reverse};
    ghost use Rattle.std.specs.Coded.{coded_list, coded_ℕ, coded×};

    ghost Value = { List (List (List ℕ × ℕ)) };

    ghost coded = { coded_list (coded_list (coded× (coded_list coded_ℕ) coded_ℕ)) };

    ghost view = { λ s. reverse s.frames };
}

impl<'a> Scope<'a> {
    /// The scope in which nothing is bound.
    pub fn new(alloc: Global) -> Self
        ensures { result ≡ [] }
    {
        Scope {
            frames: Seq::new(alloc),
        }
    }

    /// The number of the innermost binder of a name; none where the name isn't bound.
    pub fn get(&self, name: &[u8]) -> Option<u32>
        ensures { result ≡ meaning (scope_of self.now) name.now }
    {
        innermost(self.frames.as_slice(), name)
    }

    /// The number of the innermost binder of a name of the tree.
    ///
    /// # Errors
    ///
    /// `Unknown` where the name isn't bound; or want of memory.
    pub fn known(&self, alloc: Global, name: &NameTree) -> Result<u32, NameFault>
        ensures { AnswersNumbering result (name_found name.now (meaning (scope_of self.now) name.now.text)) }
    {
        known_or_fault(alloc, name, self.get(name.text.as_slice()))
    }

    /// Goes into the scope of these binders.
    ///
    /// # Errors
    ///
    /// Want of memory.
    pub fn enter(&mut self, binders: Table<'a, u32>) -> Result<(), AllocError>
        ensures { OnOk result (self.new ≡ binders.entry ∷ self.old) }
    {
        self.frames.push(binders)?;
        Ok(())
    }

    /// Goes into the scope of one binder, of this name and with the number `var`.
    ///
    /// # Errors
    ///
    /// Want of memory.
    pub fn enter_one(&mut self, alloc: Global, name: &'a [u8], var: u32) -> Result<(), AllocError>
        ensures scope { OnOk result (scope_of self.new ≡ (name.now, var) ∷ scope_of self.old) }
        ensures outer { OnOk result (drop 1 self.new ≡ self.old) }
    {
        let binder = Table::of_one(alloc, name, var)?;
        self.enter(binder)?;
        Ok(())
    }

    /// Leaves the scope that was entered last; nothing changes where there is none.
    pub fn leave(&mut self)
        ensures { self.new ≡ drop 1 self.old }
    {
        self.frames.pop();
    }
}

// What the name stands for in the last frame that binds it, which is the innermost; none where no
// frame does.
fn innermost(frames: &[Table<u32>], name: &[u8]) -> Option<u32>
    ensures { result ≡ meaning (scope_of (reverse frames.now)) name.now }
{
    for i in (0..frames.len()).rev() {
        if let Some(number) = frames[i].last(name) {
            return Some(number);
        }
    }
    None
}
