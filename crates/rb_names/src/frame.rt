//! What one pattern, one list of parameters or one `let` binds. A binder is what binds a variable
//! there; it has a number in its function, and `next` is the number of the next new one.

ghost use Rattle.std.specs.Prelude.{◌≡◌, ◌+◌, [], OnOk, IfOk, IfErr, Ok};
ghost use Rattle.rb_names.specs.declared.fault.NameFault.TheVariants.{Memory};
ghost use Rattle.rb_names.specs.Answers.{AnswersNumbering};
ghost use Rattle.rb_names.specs.inner.Frames.{with_binder};

use crate::fault::NameFault;
use crate::table::Table;
use std::alloc::Global;

/// The binders of a pattern or of a list of parameters while it is gone through, and the number of the
/// next binder.
#[derive(Drop)]
pub struct Frame<'a> {
    pub binders: Table<'a, u32>,
    pub next: u32,
}

impl<'a> Frame<'a> {
    /// A frame in which nothing is bound so far, where `next` is the number of its first binder.
    pub fn new(alloc: Global, next: u32) -> Self
        ensures { result ≡ record { binders = []; next = next } }
    {
        Frame {
            binders: Table::new(alloc),
            next,
        }
    }

    /// Binds a name with the next number, unless it is bound here: binders of one name in one
    /// pattern or list are one.
    ///
    /// # Errors
    ///
    /// Want of memory.
    pub fn bind(&mut self, name: &'a [u8]) -> Result<(), NameFault>
        ensures ok { OnOk result (self.new ≡ with_binder self.old name.now) }
        ensures memory { IfErr result (λ e. e ≡ Memory) }
    {
        match self.binders.get(name) {
            Some(_) => Ok(()),
            None => {
                let number = fresh(&mut self.next)?;
                self.binders.define(name, number)?;
                Ok(())
            }
        }
    }
}

/// The number of the next binder, and `next` goes up by one; there is no memory for 2^32 binders.
///
/// # Errors
///
/// Want of memory, where 2^32 binders would stand.
pub fn fresh(next: &mut u32) -> Result<u32, NameFault>
    ensures next { IfOk result (λ n. (n ≡ next.old) × (next.new ≡ next.old + 1)) }
    ensures answers { AnswersNumbering result (Ok next.old) }
{
    let number = *next;
    match number.checked_add(1) {
        Some(after) => {
            *next = after;
            Ok(number)
        }
        None => Err(NameFault::Memory),
    }
}
