//! Delivery: a text goes to the output, or a line to the error output.
//!
//! A sink is one of the two: it takes bytes, and a write to it may fail. `out` is the output, `err`
//! the error output. The status is the exit status of the program.

ghost use Rattle.rb_lines.specs.Delivery.{Prints, Refuses, TriesText, change};
ghost use Rattle.rb_lines.specs.Numbers.{status_number};

use crate::line::WRITE_FAULT;
use crate::status::Status;
use rb_edge::sink::Sink;
use rb_edge::whole::write_whole;

// The status where a write failed.
const WRITE_FAILED: u8 = 8;

// Writes the text, as far as the sink takes it: a write that fails is passed over, since nothing is
// left to tell it on.
fn try_write<K: Sink>(sink: &mut K, text: &[u8])
    ensures { TriesText (change K.tells K.taken K.account K.faults sink.old sink.new) text.now }
{
    match write_whole(sink, text) {
        Ok(()) => {}
        Err(_) => {}
    }
}

/// Writes the text to the output, and gives status 0. Where the output fails, the line of a write
/// fault is tried on the error output, and the status is 8.
pub fn print<O: Sink, E: Sink>(text: &[u8], out: &mut O, err: &mut E) -> u8
    ensures { Prints text.now
        (change O.tells O.taken O.account O.faults out.old out.new)
        (change E.tells E.taken E.account E.faults err.old err.new) result }
{
    match write_whole(out, text) {
        Ok(()) => 0,
        Err(_) => {
            try_write(err, WRITE_FAULT);
            WRITE_FAILED
        }
    }
}

/// Writes the line to the error output, and gives the status, which is 8 where that fails. The
/// output takes nothing.
pub fn refuse<O: Sink, E: Sink>(status: Status, line: &[u8], out: &mut O, err: &mut E) -> u8
    ensures { Refuses (status_number status) line.now
        (change O.tells O.taken O.account O.faults out.old out.new)
        (change E.tells E.taken E.account E.faults err.old err.new) result }
{
    match write_whole(err, line) {
        Ok(()) => status.number(),
        Err(_) => WRITE_FAILED,
    }
}
