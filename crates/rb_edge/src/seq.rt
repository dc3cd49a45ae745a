//! A list that contracts see as a list, and names.

ghost use Rattle.std.specs.Prelude.{◌≡◌, ◌<◌, ◌↔◌, List, [], ◌∷◌, ◌++◌, Some, length, slice_get, slice_set, IsSome, IfOk, OnOk, OnErr};
ghost use Rattle.std.specs.Option.{option_copied};

use std::alloc::{AllocError, Global};
use std::marker::Model;
use std::mem;

/// A growing list over a `Vec`, whose capacity and place contracts don't see.
#[derive(Debug, Drop)]
pub struct Seq<T> {
    // The items, in order.
    items: Vec<T>,
}

impl<T> Model for Seq<T> {
    ghost use Rattle.std.specs.Prelude.{List};
    ghost use Rattle.std.specs.Coded.{coded_list};

    ghost Value = { List T };

    ghost coded = { coded_list T.code };

    ghost view = { λ s. s.items.items };
}

/// The bytes of a name.
pub type Name = Seq<u8>;

impl<T> Seq<T> {
    /// The empty list, which takes no memory.
    pub fn new(alloc: Global) -> Seq<T>
        ensures { result ≡ [] }
    {
        Seq {
            items: Vec::new(alloc),
        }
    }

    /// The list of a vector's items.
    pub fn from_vec(items: Vec<T>) -> Seq<T>
        ensures { result ≡ items.items }
    {
        Seq { items }
    }

    /// How many items there are.
    pub fn len(&self) -> usize
        ensures { result ≡ length self.now }
    {
        self.items.as_slice().len()
    }

    /// The item at index `i`, from 0; `None` where the list has none there.
    pub fn get(&self, i: usize) -> Option<&T>
        ensures value { option_copied result ≡ slice_get self.now i }
        ensures within { IsSome result ↔ (i < length self.now) }
    {
        self.items.as_slice().get(i)
    }

    /// All items in order.
    pub fn as_slice(&self) -> &[T]
        ensures { result.now ≡ self.now }
    {
        self.items.as_slice()
    }

    /// Puts another item at index `i`, which the list has, and gives the old one.
    pub fn replace(&mut self, i: usize, value: T) -> T
        requires { i < length self.old }
        ensures old { slice_get self.old i ≡ Some result }
        ensures new { self.new ≡ slice_set self.old i value }
    {
        mem::replace(&mut self.items[i], value)
    }
}

impl<T: Drop> Seq<T> {
    /// Adds one item at the end.
    ///
    /// # Errors
    ///
    /// Want of memory; the list stays as it is.
    pub fn push(&mut self, item: T) -> Result<(), AllocError>
        ensures ok { OnOk result (self.new ≡ self.old ++ item ∷ []) }
        ensures err { OnErr result (self.new ≡ self.old) }
    {
        self.items.push(item)?;
        Ok(())
    }
}

impl<T: Copy> Seq<T> {
    /// An equal list in memory of its own.
    ///
    /// # Errors
    ///
    /// Want of memory.
    pub fn copy(&self, alloc: Global) -> Result<Seq<T>, AllocError>
        ensures { IfOk result (λ s. s ≡ self.now) }
    {
        let items = Vec::from_slice(alloc, self.items.as_slice())?;
        Ok(Seq { items })
    }
}
