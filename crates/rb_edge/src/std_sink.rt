//! A stream of the system as a sink.

ghost use Rattle.std.specs.Prelude.{◌≡◌, ◌≤◌, ◌<◌, [], false, take, length, IfOk, OnErr};
ghost use Rattle.rb_edge.specs.Faults.{one_more};
ghost use Rattle.rb_edge.specs.History.{no_account, after_take, after_break};

use crate::history::Said;
use crate::sink::Sink;
use crate::source::Failed;
use std::io::Write;
use std::marker::Model;

/// A writer, such as standard output, that each write flushes. It tells no content: contracts see
/// what it said it took, and its count of faults.
#[derive(Drop)]
pub struct StdSink<W: Write> {
    // The writer.
    inner: W,
    // The bytes that it said it took, and where a write failed.
    said: Said,
    // How many faults there were, as far as the number goes.
    faults: u64,
}

impl<W: Write> Model for StdSink<W> {
    ghost use Rattle.rb_edge.specs.StdSink.{SinkCounts};

    ghost Value = { SinkCounts };

    ghost view = { λ s. record { account = s.said; faults = s.faults } };
}

impl<W: Write> StdSink<W> {
    /// A sink over a writer.
    pub fn new(inner: W) -> StdSink<W>
        ensures { result ≡ record { account = no_account; faults = 0 } }
    {
        StdSink {
            inner,
            said: Said::new(),
            faults: 0,
        }
    }
}

impl<W: Write> Sink for StdSink<W> {
    ghost tells = { λ _. false };

    ghost taken = { λ _. [] };

    ghost account = { λ s. s.account };

    ghost faults = { λ s. s.faults };

    /// Writes as much from the front of the piece as the writer takes in one call, flushes, and
    /// says how many bytes the writer took.
    ///
    /// # Errors
    ///
    /// `Failed` where the writer fails to write or to flush, or takes nothing of a piece that isn't
    /// empty. It counts as a fault, and what the writer may have taken of the piece is not told.
    fn write(&mut self, bytes: &[u8]) -> Result<usize, Failed>
        ensures within { IfOk result (λ n. n ≤ length bytes.now) }
        ensures some { IfOk result (λ n. 0 < length bytes.now → 0 < n) }
        ensures ok { IfOk result (λ n. self.new ≡ record self.old {
          account = after_take (take n bytes.now) self.old.account;
        }) }
        ensures fault { OnErr result (self.new ≡ record {
          account = after_break self.old.account;
          faults = one_more self.old.faults;
        }) }
    {
        if let Ok(count) = self.inner.write(bytes) {
            if (count > 0 || bytes.is_empty()) && self.inner.flush().is_ok() {
                self.said.take(&bytes[..count]);
                return Ok(count);
            }
        }
        self.faults = self.faults.saturating_add(1);
        self.said.fail();
        Err(Failed)
    }
}
