//! A counter of steps.

ghost use Rattle.std.specs.Prelude.{◌≡◌, ◌+◌, ◌-◌, ◌^◌, min};

use crate::log::Log;
use std::marker::Model;

/// What is told of each step.
pub trait Ledger {
    // what one note changes: the ledger before it, then after it
    ghost notes: { Self → Self → Type 0 };

    /// Takes note of one step.
    fn note(&mut self)
        ensures { notes self.old self.new };
}

/// A ledger that keeps nothing.
#[derive(Drop)]
pub struct NoLedger;

impl Ledger for NoLedger {
    ghost notes = { λ old new. new ≡ old };

    /// Does nothing.
    fn note(&mut self) {}
}

/// A ledger that counts its notes, up to the greatest number of 128 bits, at which it stands still.
#[derive(Drop)]
pub struct CountLedger {
    /// How many notes it took, or the greatest number.
    pub count: u128,
}

impl Ledger for CountLedger {
    ghost notes = { λ old new. new.count ≡ min (old.count + 1) (2 ^ 128 - 1) };

    /// Counts the note.
    fn note(&mut self) {
        self.count = self.count.saturating_add(1);
    }
}

/// How many steps were taken, each of which a ledger was told of. The number itself stands in
/// contracts alone, has no greatest value and takes no bytes.
#[derive(Drop)]
pub struct Steps<L: Ledger> {
    // What is told of each step.
    ledger: L,
    // An event for each step.
    log: Log,
}

impl<L: Ledger> Model for Steps<L> {
    ghost use Rattle.std.specs.Prelude.{length};
    ghost use Rattle.rb_edge.specs.Steps.{Counted};

    ghost Value = { Counted L };

    ghost view = { λ s. record { taken = length s.log.events; ledger = s.ledger } };
}

impl<L: Ledger> Steps<L> {
    /// A counter of no step, with a ledger that is told of each step from now on.
    pub fn new(ledger: L) -> Steps<L>
        ensures { result ≡ record { taken = 0; ledger = ledger } }
    {
        Steps {
            ledger,
            log: Log::new(),
        }
    }

    /// Counts one step more, which the ledger is told of.
    pub fn tick(&mut self)
        ensures taken { self.new.taken ≡ self.old.taken + 1 }
        ensures noted { L.notes self.old.ledger self.new.ledger }
    {
        self.log.note(0, &[]);
        self.ledger.note();
    }

    /// The ledger as it is now.
    pub fn ledger(&self) -> &L
        ensures { result.now ≡ self.now.ledger }
    {
        &self.ledger
    }
}
