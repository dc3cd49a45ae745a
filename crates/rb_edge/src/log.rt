//! A log that only contracts read.

ghost use Rattle.std.specs.Prelude.{◌≡◌, ℕ, List, [], ◌∷◌, ◌++◌};
ghost use Rattle.std.specs.Borrow.{ftrue};

use std::marker::{Model, PhantomData};

/// What happened, in order: events, each a number, its kind, with bytes. It takes no bytes of
/// memory; only `new` and `note` set it.
#[derive(Drop)]
pub struct Log {
    // Nothing at run time.
    marker: PhantomData<u8>,
    // the events, in order, each its kind and its bytes
    pub ghost events: { List (ℕ × List ℕ) },
}

impl Model for Log {
    ghost also_owns = { λ _. ftrue };
}

impl Log {
    /// No event yet.
    pub fn new() -> Log
        ensures { result.events ≡ [] }
    {
        Log {
            marker: PhantomData,
        }
    }

    /// Adds one event at the end.
    pub fn note(&mut self, kind: usize, bytes: &[u8])
        ensures { self.new.events ≡ self.old.events ++ (kind, bytes.now) ∷ [] }
    {}
}
