//! Goals: questions about the types of fields, whether a root word never has a number in a range of
//! its bits. Whether a number never stands at a location rests on them, as a part of the word there
//! may hold a word of a field. Each is kept once, with whether it is known to hold.

ghost use Rattle.std.specs.Prelude.{◌≡◌, ◌<◌, [], length, slice_get, OnOk};
ghost use Rattle.rb_layout.specs.inner.Barring.{knows};
ghost use Rattle.rb_layout.specs.inner.Finding.{with_goal};
ghost use Rattle.rb_layout.specs.inner.Settling.{with_mark};

use indexmap::IndexMap;
use std::alloc::{AllocError, Global};
use std::marker::Model;

/// A number in a range of a word: the `l` bits from bit `o` on are those of `bits` from bit 0 on.
#[derive(Clone, Copy, PartialEq, Eq, Hash)]
pub struct Literal {
    pub o: u64,
    pub l: u64,
    pub bits: u64,
}

/// What is to be decided: whether root word `word` of the type `ty` never has a literal, in any
/// leaf of the type.
#[derive(Clone, Copy, PartialEq, Eq, Hash)]
pub struct Goal {
    pub ty: u32,
    pub word: u64,
    pub literal: Literal,
}

/// A goal, and in `barred` whether it is known to hold.
#[derive(Clone, Copy)]
pub struct Entry {
    pub goal: Goal,
    pub barred: bool,
}

/// Goals in the order in which they were found, each once, with whether it is known to hold.
#[derive(Drop)]
pub struct Goals {
    known: IndexMap<Goal, bool>,
}

impl Model for Goals {
    ghost use Rattle.std.specs.Prelude.{List, map};
    ghost use Rattle.rb_layout.specs.declared.goals.Entry.{Entry};

    ghost Value = { List Entry };

    ghost view = { λ g. map (λ e. record { goal = e.0; barred = e.1 }) g.known.entries };
}

impl Goals {
    /// No goals.
    pub fn new(alloc: Global) -> Self
        ensures { result ≡ [] }
    {
        Goals {
            known: IndexMap::new(alloc),
        }
    }

    /// How many goals there are.
    pub fn len(&self) -> usize
        ensures { result ≡ length self.now }
    {
        self.known.len()
    }

    /// The entry with this number, in the order in which goals were found. None where there are not
    /// so many.
    pub fn get(&self, i: usize) -> Option<Entry>
        ensures { result ≡ slice_get self.now i }
    {
        match self.known.get_index(i) {
            None => None,
            Some((goal, barred)) => Some(Entry {
                goal: *goal,
                barred: *barred,
            }),
        }
    }

    /// Whether a goal is here and known to hold.
    pub fn is_known(&self, goal: &Goal) -> bool
        ensures { result ≡ knows self.now goal.now }
    {
        match self.known.get(goal) {
            None => false,
            Some(barred) => *barred,
        }
    }

    /// Adds a goal behind the others, not known to hold. One that is here already stays as it is.
    ///
    /// # Errors
    ///
    /// Want of memory.
    pub fn add(&mut self, goal: Goal) -> Result<(), AllocError>
        ensures { OnOk result (self.new ≡ with_goal self.old goal) }
    {
        if self.known.contains_key(&goal) {
            return Ok(());
        }
        self.known.insert(goal, false)?;
        Ok(())
    }

    /// Notes that the goal with this number holds. Its caller knows that it is here.
    pub fn mark(&mut self, i: usize)
        requires { i < length self.old }
        ensures { self.new ≡ with_mark self.old i (slice_get self.old i) }
    {
        self.known[i] = true;
    }
}
