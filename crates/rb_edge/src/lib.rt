//! The outside: sources of bytes by name, sinks of bytes, the words of a command line and a
//! counter of steps, each with what a contract may say of it.
//!
//! A file is read in pieces until a read gives nothing, which is its end. A limit asks for one byte
//! more than it allows, so that a longer file is known to be longer. Of 5,000 bytes within a limit
//! of 262,144:
//!
//! ```text
//! call 1   open_file("list.rib")
//! call 2   read at most 4,096    4,096 bytes
//! call 3   read at most 4,096    904 bytes
//! call 4   read at most 4,096    0 bytes: the end
//! ```
//!
//! A source may give less than it is asked for, and any call may fail. What it handed out is known
//! of every source, and is told name by name: here `list.rib` with its 5,000 bytes, read to the
//! end. What it holds is known of sources in memory alone; a file of the system tells nothing of
//! what it holds. So a contract says what is true of both, and more of those that tell. A count of
//! faults rises with each failure, so that an error without a fault behind it is refused. Sinks
//! have the same: what they said they took, and for those in memory what they took.
//!
//! The sources and sinks in memory fail at a call with a given number, for tests; the real ones are
//! the system's.
#![tactic(auto)]

mod calls;
pub mod file_source;
mod history;
mod log;
pub mod mem_sink;
pub mod mem_source;
pub mod named;
pub mod seq;
pub mod sink;
pub mod source;
pub mod std_sink;
pub mod steps;
pub mod whole;
pub mod words;

pub use file_source::FileSource;
pub use mem_sink::MemSink;
pub use mem_source::MemSource;
pub use named::NamedBytes;
pub use seq::{Name, Seq};
pub use sink::Sink;
pub use source::{Failed, Source};
pub use std_sink::StdSink;
pub use steps::{CountLedger, Ledger, NoLedger, Steps};
pub use whole::{SourceFault, read_whole, write_whole};
pub use words::Words;
