//! Files of the system as a source.

ghost use Rattle.std.specs.Prelude.{◌≡◌, ◌≤◌, [], take, false, Option, None, length, IsNone, IsErr, IfOk, OnOk, OnErr};
ghost use Rattle.std.specs.Str.{IsUtf8};
ghost use Rattle.rb_edge.specs.Faults.{one_more};
ghost use Rattle.rb_edge.specs.FileSource.{after_opening, after_miss, after_failure};
ghost use Rattle.rb_edge.specs.History.{on_last, after_read};

use crate::history::Readings;
use crate::source::{Failed, Source};
use std::fs;
use std::io::Read;
use std::marker::Model;
use std::rt::Files;

/// Files of the system by their paths, in UTF-8. It tells no content: contracts see what it handed
/// out, and its count of faults, which each error of the system raises.
#[derive(Drop)]
pub struct FileSource<'a, R: Files> {
    // The runtime, which reaches the files.
    rt: &'a R,
    // The file that is open, or `None`.
    file: Option<R::File>,
    // What it handed out.
    readings: Readings,
    // How many faults there were, as far as the number goes.
    faults: u64,
}

impl<'a, R: Files> Model for FileSource<'a, R> {
    ghost use Rattle.rb_edge.specs.FileSource.{SourceCounts};

    ghost Value = { SourceCounts };

    ghost view = { λ s. record { readings = s.readings; faults = s.faults } };
}

impl<'a, R: Files> FileSource<'a, R> {
    /// The files that a runtime reaches. None of them is open yet.
    pub fn new(rt: &'a R) -> FileSource<'a, R>
        ensures { result ≡ record { readings = []; faults = 0 } }
    {
        FileSource {
            rt,
            file: None,
            readings: Readings::new(),
            faults: 0,
        }
    }

    // Counts one fault more, up to the greatest count.
    fn fault(&mut self)
        ensures { self.new ≡ record self.old { faults = one_more self.old.faults } }
    {
        self.faults = self.faults.saturating_add(1);
    }

    // The file whose path is the name, opened, or none where the system gives none. A name that
    // isn't UTF-8 is no path.
    fn file_at(&self, name: &[u8]) -> Option<R::File>
        ensures { ¬ (IsUtf8 name.now) → IsNone result }
    {
        match std::str::from_utf8(name) {
            Ok(path) => match fs::open(self.rt, path) {
                Ok(file) => Some(file),
                Err(_) => None,
            },
            Err(_) => None,
        }
    }
}

impl<'a, R: Files> Source for FileSource<'a, R> {
    ghost tells = { λ _. false };

    ghost held = { λ _ _. None };

    ghost left = { λ _. [] };

    ghost readings = { λ s. s.readings };

    ghost faults = { λ s. s.faults };

    /// Opens the file at that path. A name that isn't UTF-8 is no path.
    ///
    /// # Errors
    ///
    /// `Failed` where the name isn't UTF-8 or the system opens no file there. It counts as a fault.
    fn open_file(&mut self, name: &[u8]) -> Result<(), Failed>
        ensures ok { OnOk result (self.new ≡ after_opening self.old name.now) }
        ensures fault { OnErr result (self.new ≡ after_miss self.old name.now) }
        ensures not_utf8 { ¬ (IsUtf8 name.now) → IsErr result }
    {
        self.file = self.file_at(name);
        if self.file.is_none() {
            self.readings.miss(name);
            self.fault();
            return Err(Failed);
        }
        self.readings.begin(name);
        Ok(())
    }

    /// Reads what the system gives in one call, in bytes, and nothing where no file is open.
    ///
    /// # Errors
    ///
    /// `Failed` where the system's read fails. It counts as a fault.
    fn read(&mut self, buf: &mut [u8]) -> Result<usize, Failed>
        ensures within { IfOk result (λ n. n ≤ length buf.old) }
        ensures ok { IfOk result (λ n. self.new ≡ record self.old {
          readings = on_last (after_read (length buf.old) (take n buf.new)) self.old.readings;
        }) }
        ensures fault { OnErr result (self.new ≡ after_failure self.old) }
    {
        let given = match &mut self.file {
            None => Ok(0),
            Some(file) => file.read(buf),
        };
        match given {
            Ok(count) => {
                self.readings.read(buf.len(), &buf[..count]);
                Ok(count)
            }
            Err(_) => {
                self.readings.fail();
                self.fault();
                Err(Failed)
            }
        }
    }
}
