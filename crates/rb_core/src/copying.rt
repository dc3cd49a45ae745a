//! Copies of values, without recursion: a stack of frames holds the constructions that are half
//! copied, from the outermost to the innermost.

ghost use Rattle.std.specs.Prelude.{◌≡◌, ◌<◌, IfOk};
ghost use Rattle.rb_core.specs.inner.Copying.{Enters, GoesUp};

use crate::seq::Seq;
use crate::value::Value;
use std::alloc::{AllocError, Global};

// A construction that is half copied: its constructor's number, the copies of its first subvalues,
// and its last ones, which are not copied yet. One between both is being copied.
#[derive(Drop)]
struct Frame<'a> {
    con: u32,
    copied: Seq<Value>,
    rest: &'a [Value],
}

// What a step gives: a copy of what was to copy, or a value to copy next.
#[derive(Drop)]
enum Turn<'a> {
    Copied(Value),
    Next(&'a Value),
}

impl Value {
    /// An equal value. The memory that it works in grows with the value's depth, and its call
    /// stack does not.
    ///
    /// # Errors
    ///
    /// Want of memory.
    pub fn copy(&self, alloc: Global) -> Result<Value, AllocError>
        ensures { IfOk result (λ v. v ≡ self.now) }
    {
        let mut frames = Vec::new(alloc);
        let mut value = self;
        loop {
            match enter(alloc, value, &mut frames)? {
                Turn::Next(first) => value = first,
                Turn::Copied(copied) => match leave(copied, &mut frames)? {
                    Turn::Next(next) => value = next,
                    Turn::Copied(whole) => return Ok(whole),
                },
            }
        }
    }
}

// One step down: goes to the first subvalue of a value, with a new frame for the value; a value
// without subvalues is copied, and the frames stay.
fn enter<'a>(
    alloc: Global,
    value: &'a Value,
    frames: &mut Vec<Frame<'a>>,
) -> Result<Turn<'a>, AllocError>
    ensures { IfOk result (Enters value.now frames.old.items frames.new.items) }
{
    match value {
        Value::Num(n) => Ok(Turn::Copied(Value::Num(*n))),
        Value::Con(con, values) => match values.as_slice() {
            [] => Ok(Turn::Copied(Value::Con(*con, Seq::new(alloc)))),
            [first, rest @ ..] => {
                frames.push(Frame {
                    con: *con,
                    copied: Seq::new(alloc),
                    rest,
                })?;
                Ok(Turn::Next(first))
            }
        },
    }
}

// Goes up: puts a copy in its place in the innermost frame, and each construction that is complete
// by that in its own, up to the next value to copy; where no frame is left, the whole is copied.
#[tactic(auto, using(crate::proofs::CopyingLemmas::frame_rules))]
fn leave<'a>(copied: Value, frames: &mut Vec<Frame<'a>>) -> Result<Turn<'a>, AllocError>
    ensures { IfOk result (GoesUp copied frames.old.items frames.new.items) }
{
    let mut value = copied;
    while let Some(mut frame) = frames.pop() {
        frame.copied.push(value)?;
        if let [next, rest @ ..] = frame.rest {
            frame.rest = rest;
            frames.push(frame)?;
            return Ok(Turn::Next(next));
        }
        value = Value::Con(frame.con, frame.copied);
    }
    Ok(Turn::Copied(value))
}
