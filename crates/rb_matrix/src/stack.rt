//! A list that is taken apart and grown at its front.

ghost use Rattle.std.specs.Prelude.{◌≡◌, [], ◌∷◌, ◌++◌, length, drop, MatchOption, IfOk, OnOk};

use rb_core::seq::Seq;
use std::alloc::{AllocError, Global};
use std::collections::VecDeque;
use std::marker::Model;

/// A list whose first item is the next to be taken off. No other item moves then.
#[derive(Drop)]
pub struct Stack<T> {
    items: VecDeque<T>,
}

impl<T> Model for Stack<T> {
    ghost use Rattle.std.specs.Prelude.{List};
    ghost use Rattle.std.specs.Coded.{coded_list};

    ghost Value = { List T };

    ghost coded = { coded_list T.code };

    ghost view = { λ s. s.items.items };
}

impl<T> Stack<T> {
    /// An empty list, which takes no memory yet.
    pub fn new(alloc: Global) -> Self
        ensures { result ≡ [] }
    {
        Stack {
            items: VecDeque::new(alloc),
        }
    }

    /// A list of these items, in their order.
    pub fn from_seq(items: Seq<T>) -> Self
        ensures { result ≡ items }
    {
        Stack {
            items: VecDeque::from(items.into_vec()),
        }
    }

    /// Takes the first item off, or gives None where there is none.
    pub fn pop(&mut self) -> Option<T>
        ensures { MatchOption result ((self.old ≡ []) × (self.new ≡ [])) (λ first. self.old ≡ first ∷ self.new) }
    {
        self.items.pop_front()
    }

    /// Puts an item in front.
    ///
    /// # Errors
    ///
    /// Want of memory.
    pub fn push(&mut self, item: T) -> Result<(), AllocError>
    where
        T: Drop,
        ensures { OnOk result (self.new ≡ item ∷ self.old) }
    {
        self.items.push_front(item)?;
        Ok(())
    }

    /// Puts items in front, in their order: the first of them becomes the first of all.
    ///
    /// # Errors
    ///
    /// Want of memory.
    pub fn push_all(&mut self, mut more: Seq<T>) -> Result<(), AllocError>
    where
        T: Drop,
        ensures { OnOk result (self.new ≡ more ++ self.old) }
    {
        while let Some(item) = more.pop() {
            self.push(item)?;
        }
        Ok(())
    }

    /// The number of items.
    pub fn len(&self) -> usize
        ensures { result ≡ length self.now }
    {
        self.items.len()
    }

    /// The first item, which stays; None where there is none.
    pub fn first(&self) -> Option<&T>
        ensures { MatchOption result (self.now ≡ []) (λ first. self.now ≡ first.now ∷ drop 1 self.now) }
    {
        self.items.front()
    }

    /// The items as two slices, one behind the other; either may be empty.
    pub fn as_slices(&self) -> (&[T], &[T])
        ensures { result.0.now ++ result.1.now ≡ self.now }
    {
        self.items.as_slices()
    }
}

impl<T: Copy> Stack<T> {
    /// An equal list.
    ///
    /// # Errors
    ///
    /// Want of memory.
    pub fn copy(&self, alloc: Global) -> Result<Self, AllocError>
        ensures { IfOk result (λ s. s ≡ self.now) }
    {
        let (front, back) = self.items.as_slices();
        let mut items = Vec::new(alloc);
        items.extend_from_slice(front)?;
        items.extend_from_slice(back)?;
        Ok(Stack {
            items: VecDeque::from(items),
        })
    }
}
