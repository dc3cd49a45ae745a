//! A sink in memory, whose calls fail by their numbers.

ghost use Rattle.std.specs.Prelude.{◌≡◌, ◌≤◌, ◌<◌, true, IfOk, Ok, Err, take, length};
ghost use Rattle.rb_edge.specs.MemSink.{new_sink, after_write};

use crate::calls::is_failing;
use crate::history::Said;
use crate::seq::Seq;
use crate::sink::Sink;
use crate::source::Failed;
use std::alloc::{AllocError, Global};
use std::marker::Model;

/// Takes bytes up to its room. It numbers its calls from 0, and those whose numbers are in a list
/// fail.
#[derive(Drop)]
pub struct MemSink {
    // The bytes taken.
    bytes: Vec<u8>,
    // The most bytes that it takes in all.
    room: usize,
    // The most bytes that one write takes.
    step: usize,
    // The numbers of the calls that fail.
    fail: Seq<u64>,
    // The number of the next call.
    calls: u128,
    // The bytes that it said it took, and where a write failed.
    said: Said,
    // How many faults there were, as far as the number goes.
    faults: u64,
}

impl Model for MemSink {
    ghost use Rattle.std.specs.Prelude.{◌≤◌, vec_len, vec_capacity};
    ghost use Rattle.rb_edge.specs.MemSink.{SinkState};

    ghost Value = { SinkState };

    ghost view = { λ s. record {
      room = s.room;
      step = s.step;
      fail = s.fail;
      calls = s.calls;
      taken = s.bytes.items;
      account = s.said;
      faults = s.faults;
    } };

    ghost invariant = { λ s. (1 ≤ s.step) × (vec_len s.bytes ≤ s.room)
        × (s.room ≤ vec_capacity s.bytes) };
}

impl MemSink {
    /// A sink with room for so many bytes, whose memory is all taken here. A write takes at most
    /// `step` bytes, and the calls whose numbers are in `fail` fail.
    ///
    /// # Errors
    ///
    /// Want of memory.
    pub fn new(
        alloc: Global,
        room: usize,
        step: usize,
        fail: Seq<u64>,
    ) -> Result<MemSink, AllocError>
        requires { 1 ≤ step }
        ensures { IfOk result (λ s. s ≡ new_sink room step fail) }
    {
        let bytes = Vec::with_capacity(alloc, room)?;
        Ok(MemSink {
            bytes,
            room,
            step,
            fail,
            calls: 0,
            said: Said::new(),
            faults: 0,
        })
    }

    /// The bytes taken so far.
    pub fn bytes(&self) -> &[u8]
        ensures { result.now ≡ self.now.taken }
    {
        self.bytes.as_slice()
    }
}

impl Sink for MemSink {
    ghost tells = { λ _. true };

    ghost taken = { λ s. s.taken };

    ghost account = { λ s. s.account };

    ghost faults = { λ s. s.faults };

    /// Takes as many bytes from the front of the piece as a write takes and there is room for, and
    /// says how many.
    ///
    /// # Errors
    ///
    /// `Failed` where the call's number is in the list, or the piece has a byte and no room is
    /// left. It counts as a fault, and nothing is taken.
    fn write(&mut self, bytes: &[u8]) -> Result<usize, Failed>
        ensures answer { (result, self.new) ≡ after_write self.old bytes.now }
        ensures some { IfOk result (λ n. 0 < length bytes.now → 0 < n) }
    {
        let failing = is_failing(self.fail.as_slice(), self.calls);
        let left = self.room - self.bytes.len();
        self.calls = self.calls.saturating_add(1);
        if failing || (!bytes.is_empty() && left == 0) {
            self.faults = self.faults.saturating_add(1);
            self.said.fail();
            return Err(Failed);
        }
        let count = bytes.len().min(self.step).min(left);
        match self.bytes.extend_from_slice(&bytes[..count]) {
            Ok(()) => {
                self.said.take(&bytes[..count]);
                Ok(count)
            }
            Err(_) => unreachable!(),
        }
    }
}
