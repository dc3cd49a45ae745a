//! A source in memory, whose calls fail by their numbers.

ghost use Rattle.std.specs.Prelude.{◌≡◌, ◌≤◌, ◌<◌, ◌+◌, [], true, Option, Some, None, MatchOption, IfOk, Ok, Err, drop, length, slice_get};
ghost use Rattle.std.specs.Option.{option_map};
ghost use Rattle.rb_edge.specs.Source.{GivesBytes};
ghost use Rattle.rb_edge.specs.MemSource.{new_source, file_bytes, open_file_bytes, after_open, after_read_into};

use crate::calls::is_failing;
use crate::history::Readings;
use crate::named::NamedBytes;
use crate::seq::Seq;
use crate::source::{Failed, Source};
use std::marker::Model;

/// Files in memory; of two with one name the first is held under it. It numbers its calls from 0,
/// and those whose numbers are in a list fail.
#[derive(Drop)]
pub struct MemSource {
    // The files, of which the first of a name is held under it.
    files: Seq<NamedBytes>,
    // The most bytes that one read gives.
    step: usize,
    // The numbers of the calls that fail.
    fail: Seq<u64>,
    // The number of the next call.
    calls: u128,
    // The index of the file that is open, or `None`.
    opened: Option<usize>,
    // How many bytes of the file that is open were read; 0 where none is open.
    at: usize,
    // What it handed out.
    readings: Readings,
    // How many faults there were, as far as the number goes.
    faults: u64,
}

impl Model for MemSource {
    ghost use Rattle.std.specs.Prelude.{◌≤◌, drop, length};
    ghost use Rattle.rb_edge.specs.MemSource.{SourceState, open_file_bytes};

    ghost Value = { SourceState };

    ghost view = { λ s. record {
      files = s.files;
      step = s.step;
      fail = s.fail;
      calls = s.calls;
      left = drop s.at (open_file_bytes s.files s.opened);
      readings = s.readings;
      faults = s.faults;
    } };

    ghost invariant = { λ s. (1 ≤ s.step) × (s.at ≤ length (open_file_bytes s.files s.opened)) };
}

impl MemSource {
    /// Files of which each read gives at most `step` bytes, and where the calls whose numbers are
    /// in `fail` fail. No file is open.
    pub fn new(files: Seq<NamedBytes>, step: usize, fail: Seq<u64>) -> MemSource
        requires { 1 ≤ step }
        ensures { result ≡ new_source files step fail }
    {
        MemSource {
            files,
            step,
            fail,
            calls: 0,
            opened: None,
            at: 0,
            readings: Readings::new(),
            faults: 0,
        }
    }
}

// The index of the first file of that name; `None` where no file has it.
fn index_of(files: &[NamedBytes], name: &[u8]) -> Option<usize>
    ensures found { MatchOption result (file_bytes files.now name.now ≡ None)
        (λ i. file_bytes files.now name.now ≡ option_map (λ f. f.bytes) (slice_get files.now i)) }
    ensures within { MatchOption result (0 ≤ length files.now) (λ i. i < length files.now) }
{
    for (i, file) in files.iter().enumerate() {
        if file.name.as_slice() == name {
            return Some(i);
        }
    }
    None
}

// The bytes of the file of that index; no bytes where it is `None` or no file has it.
fn bytes_at(files: &Seq<NamedBytes>, opened: Option<usize>) -> &[u8]
    ensures { result.now ≡ open_file_bytes files.now opened }
{
    match opened {
        None => &[],
        Some(i) => match files.get(i) {
            None => &[],
            Some(file) => file.bytes.as_slice(),
        },
    }
}

impl Source for MemSource {
    ghost tells = { λ _. true };

    ghost held = { λ s name. file_bytes s.files name };

    ghost left = { λ s. s.left };

    ghost readings = { λ s. s.readings };

    ghost faults = { λ s. s.faults };

    /// Opens the first file of that name.
    ///
    /// # Errors
    ///
    /// `Failed` where no file has the name, which is no fault, and else where the call's number is
    /// in the list, which is one. No file is open then.
    fn open_file(&mut self, name: &[u8]) -> Result<(), Failed>
        ensures answer { (result, self.new) ≡ after_open self.old name.now }
    {
        let failing = is_failing(self.fail.as_slice(), self.calls);
        self.calls = self.calls.saturating_add(1);
        self.at = 0;
        self.opened = None;
        let Some(index) = index_of(self.files.as_slice(), name) else {
            self.readings.miss(name);
            return Err(Failed);
        };
        if failing {
            self.faults = self.faults.saturating_add(1);
            self.readings.miss(name);
            return Err(Failed);
        }
        self.opened = Some(index);
        self.readings.begin(name);
        Ok(())
    }

    /// Gives as many of the bytes that are left as a read gives and the buffer has room for; none
    /// where no file is open.
    ///
    /// # Errors
    ///
    /// `Failed` where the call's number is in the list. It counts as a fault.
    fn read(&mut self, buf: &mut [u8]) -> Result<usize, Failed>
        ensures answer { (result, buf.new, self.new) ≡ after_read_into self.old buf.old }
        ensures gives { IfOk result (λ n. GivesBytes n buf.new self.old.left self.new.left) }
    {
        let failing = is_failing(self.fail.as_slice(), self.calls);
        self.calls = self.calls.saturating_add(1);
        if failing {
            self.faults = self.faults.saturating_add(1);
            self.readings.fail();
            return Err(Failed);
        }
        let left = &bytes_at(&self.files, self.opened)[self.at..];
        let count = buf.len().min(self.step).min(left.len());
        buf[..count].copy_from_slice(&left[..count]);
        self.readings.read(buf.len(), &buf[..count]);
        self.at += count;
        Ok(count)
    }
}
