//! What a run does: the events of its log, and its end. Types, functions and matches are named by
//! numbers: types and functions by that of their declaration, a match by that of its first token.

use crate::seq::Seq;
use crate::value::Value;

/// An event of a run.
#[derive(Drop)]
pub enum Event {
    /// A construction: its type's number and its value.
    Built(u32, Value),
    /// A match: its function's number and its own token number.
    Matched(u32, u32),
}

/// How a run ends.
#[derive(Drop)]
pub enum SourceEnd {
    /// With this value and so many calls left.
    Done(Value, u64),
    /// A call was due where none was left.
    Spent,
}

/// All that a run does, its events in order.
#[derive(Drop)]
pub struct Outcome {
    pub log: Seq<Event>,
    pub end: SourceEnd,
}

/// How the evaluation of some parts ends: each with its value and so many calls left, or cut
/// where a call was due and none was left.
#[derive(Drop)]
pub enum PartsEnd {
    AllDone(Seq<Value>, u64),
    Cut,
}
