//! How a run ends.

use rb_bytes::fault::{Full, Trap};
use rb_core::seq::Seq;

/// The end of a run, or of a call in it.
#[derive(Drop)]
pub enum End {
    /// The function returned: its results, and how many calls were left then.
    Returned { words: Seq<u64>, calls_left: u64 },
    /// A call was due and none was left.
    Spent,
    /// A block didn't fit; what was asked for and where.
    Full(Full),
    /// An access left its block, a byte was read that was never written, or a switch had no arm for
    /// its word.
    Trapped(Trap),
}

/// How a run ended, and how many switches it did.
#[derive(Drop)]
pub struct Ran {
    pub end: End,
    pub switches: u128,
}
