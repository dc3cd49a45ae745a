//! What a source handed out and what a sink said, for contracts alone. A reading is a file that was
//! opened, or should have been: its name, the bytes that were handed out since, and how far that
//! came. Both are kept in a log, as events, each a number, its kind, with bytes.

ghost use Rattle.std.specs.Prelude.{◌≡◌, List, [], ◌∷◌, ◌++◌};
ghost use Rattle.rb_edge.specs.History.{fresh_reading, missed_reading, longer_reading, reading_at_end, broken_reading, on_last, after_read, no_account, after_take, after_break};

use crate::log::Log;
use std::marker::Model;

// The kind of a source's event in its log: a name was opened.
const BEGUN: usize = 0;

// The kind of a source's event: the opening of a name failed.
const MISSED: usize = 1;

// The kind of a source's event: bytes of the file that is open were handed out.
const HANDED: usize = 2;

// The kind of a source's event: the end of the file that is open was told.
const ENDED: usize = 3;

// The kind of a source's event: a read of the file that is open failed.
const BROKEN: usize = 4;

// The kind of a sink's event in its log: bytes were taken.
const TAKEN: usize = 0;

// The kind of a sink's event: a write failed.
const FAILED: usize = 1;

/// The readings of a source since it was made, in their order. They take no bytes of memory.
#[derive(Drop)]
pub struct Readings {
    // The events, with the name of what was opened or the bytes that were handed out.
    log: Log,
}

impl Model for Readings {
    ghost use Rattle.std.specs.Prelude.{List, []};
    ghost use Rattle.rb_edge.specs.History.{Reading};
    ghost use Rattle.rb_edge.specs.inner.Events.{readings_after};

    ghost Value = { List Reading };

    ghost view = { λ r. readings_after [] r.log.events };
}

impl Readings {
    /// No reading: nothing was opened yet.
    pub fn new() -> Readings
        ensures { result ≡ [] }
    {
        Readings { log: Log::new() }
    }

    /// Adds the reading of a name that is opened now.
    pub fn begin(&mut self, name: &[u8])
        ensures { self.new ≡ self.old ++ fresh_reading name.now ∷ [] }
    {
        self.log.note(BEGUN, name);
    }

    /// Adds the reading of a name whose opening failed.
    pub fn miss(&mut self, name: &[u8])
        ensures { self.new ≡ self.old ++ missed_reading name.now ∷ [] }
    {
        self.log.note(MISSED, name);
    }

    // Tells the last reading, if there is one, that more bytes were handed out.
    fn hand(&mut self, bytes: &[u8])
        ensures { self.new ≡ on_last (longer_reading bytes.now) self.old }
    {
        self.log.note(HANDED, bytes);
    }

    // Tells the last reading, if there is one, that its end was told.
    fn end(&mut self)
        ensures { self.new ≡ on_last reading_at_end self.old }
    {
        self.log.note(ENDED, &[]);
    }

    /// Tells the last reading, if there is one, that a read gave these bytes into a buffer of
    /// `room` bytes: no bytes where there is room are the end.
    pub fn read(&mut self, room: usize, bytes: &[u8])
        ensures { self.new ≡ on_last (after_read room bytes.now) self.old }
    {
        if bytes.is_empty() && room > 0 {
            self.end();
        } else {
            self.hand(bytes);
        }
    }

    /// Tells the last reading, if there is one, that a read of it failed.
    pub fn fail(&mut self)
        ensures { self.new ≡ on_last broken_reading self.old }
    {
        self.log.note(BROKEN, &[]);
    }
}

/// What a sink said since it was made: the bytes that it took, and where a write failed. It takes
/// no bytes of memory.
#[derive(Drop)]
pub struct Said {
    // The events, with the bytes that were taken.
    log: Log,
}

impl Model for Said {
    ghost use Rattle.rb_edge.specs.History.{Account, no_account};
    ghost use Rattle.rb_edge.specs.inner.Events.{account_after};

    ghost Value = { Account };

    ghost view = { λ s. account_after no_account s.log.events };
}

impl Said {
    /// Nothing was taken, and no write failed.
    pub fn new() -> Said
        ensures { result ≡ no_account }
    {
        Said { log: Log::new() }
    }

    /// Adds bytes that were taken.
    pub fn take(&mut self, bytes: &[u8])
        ensures { self.new ≡ after_take bytes.now self.old }
    {
        self.log.note(TAKEN, bytes);
    }

    /// Adds that a write failed after the bytes so far.
    pub fn fail(&mut self)
        ensures { self.new ≡ after_break self.old }
    {
        self.log.note(FAILED, &[]);
    }
}
