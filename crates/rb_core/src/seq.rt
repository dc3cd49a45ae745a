//! A list that contracts see as a list: `Vec` without its capacity and its pointer.

ghost use Rattle.std.specs.Prelude.{◌≡◌, ◌+◌, ◌<◌, ◌↔◌, List, [], ◌∷◌, ◌++◌, length, take, IfOk, MatchOption, OnOk, OnErr, IsTrue, IsSome, slice_get, slice_set, Some};
ghost use Rattle.std.specs.Option.{option_copied};

use std::alloc::{AllocError, Global};
use std::marker::Model;

/// A growing list. Two lists with equal items are equal to a contract, whatever their capacity,
/// so a definition can build one and a copy equals its origin. A type may hold a list of itself.
#[derive(Debug, Drop)]
pub struct Seq<T> {
    items: Vec<T>,
}

impl<T> Model for Seq<T> {
    ghost use Rattle.std.specs.Prelude.{List};
    ghost use Rattle.std.specs.Coded.{coded_list};

    ghost Value = { List T };

    ghost coded = { coded_list T.code };

    ghost view = { λ s. s.items.items };
}

impl<T> Seq<T> {
    /// An empty list, which takes no memory yet.
    pub fn new(alloc: Global) -> Self
        ensures { result ≡ [] }
    {
        Seq {
            items: Vec::new(alloc),
        }
    }

    /// The items of a `Vec`, in their order.
    pub fn from_vec(items: Vec<T>) -> Self
        ensures { result ≡ items.items }
    {
        Seq { items }
    }

    /// The items as a `Vec`, in their order.
    pub fn into_vec(self) -> Vec<T>
        ensures { result.items ≡ self }
    {
        let Seq { items } = self;
        items
    }

    /// Gives the memory of an empty list back, where `T` itself may not be dropped.
    pub fn destroy_empty(self)
        requires { self ≡ [] }
    {
        let Seq { items } = self;
        items.destroy_empty();
    }

    /// Adds one item at the end.
    ///
    /// # Errors
    ///
    /// Want of memory; the list is then as it was.
    pub fn push(&mut self, item: T) -> Result<(), AllocError>
    where
        T: Drop,
        ensures ok { OnOk result (self.new ≡ self.old ++ item ∷ []) }
        ensures err { OnErr result (self.new ≡ self.old) }
    {
        self.items.push(item)?;
        Ok(())
    }

    /// Takes the last item off; None where there is no item.
    pub fn pop(&mut self) -> Option<T>
        ensures { MatchOption result ((self.old ≡ []) × (self.new ≡ [])) (λ last. self.old ≡ self.new ++ last ∷ []) }
    {
        self.items.pop()
    }

    /// Moves the items of `more` to the end, in their order, and gives None. For want of memory,
    /// gives `more` back, and the list is as it was.
    pub fn append(&mut self, more: Seq<T>) -> Option<Seq<T>>
        ensures { MatchOption result (self.new ≡ self.old ++ more) (λ rest. (self.new ≡ self.old) × (rest ≡ more)) }
    {
        let Seq { mut items } = more;
        match self.items.append(&mut items) {
            Ok(()) => {
                items.destroy_empty();
                None
            }
            Err(_) => Some(Seq { items }),
        }
    }

    /// Drops the items behind the first `len`; a shorter list stays as it is.
    pub fn truncate(&mut self, len: usize)
    where
        T: Drop,
        ensures { self.new ≡ take len self.old }
    {
        self.items.truncate(len);
    }

    /// The number of items.
    pub fn len(&self) -> usize
        ensures { result ≡ length self.now }
    {
        self.items.len()
    }

    /// Whether there is no item.
    pub fn is_empty(&self) -> bool
        ensures { IsTrue result ↔ (self.now ≡ []) }
    {
        self.items.is_empty()
    }

    /// The item with this number, from 0; None where there is no such item.
    pub fn get(&self, i: usize) -> Option<&T>
        ensures value { option_copied result ≡ slice_get self.now i }
        ensures within { IsSome result ↔ (i < length self.now) }
    {
        self.items.get(i)
    }

    /// The items as a slice, to go over by an iterator.
    pub fn as_slice(&self) -> &[T]
        ensures { result.now ≡ self.now }
    {
        self.items.as_slice()
    }

    /// Puts `value` in the place of item `i`, which the list has, and gives the old item.
    pub fn replace(&mut self, i: usize, value: T) -> T
        requires { i < length self.old }
        ensures old { slice_get self.old i ≡ Some result }
        ensures new { self.new ≡ slice_set self.old i value }
    {
        std::mem::replace(&mut self.items[i], value)
    }
}

impl<T: Copy> Seq<T> {
    /// An equal list.
    ///
    /// # Errors
    ///
    /// Want of memory.
    pub fn copy(&self, alloc: Global) -> Result<Self, AllocError>
        ensures { IfOk result (λ s. s ≡ self.now) }
    {
        Ok(Seq {
            items: Vec::from_slice(alloc, self.items.as_slice())?,
        })
    }
}
