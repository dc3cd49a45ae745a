//! Paths to a part of a value, as the words of a command line spell them.

ghost use Rattle.std.specs.Prelude.{◌≡◌, [], IfOk};
ghost use Rattle.rb_command.specs.inner.Parsing.{path_in, steps_from};

use rb_core::decimal::number_in;
use rb_core::seq::Seq;
use std::alloc::{AllocError, Global};

// The steps that a text spells with a point between one and the next, if it spells some.
fn parse_steps(alloc: Global, text: &[u8]) -> Result<Option<Seq<u32>>, AllocError>
    ensures { IfOk result (λ path. path ≡ steps_from [] text.now) }
{
    let mut path = Seq::new(alloc);
    for digits in text.split(|byte| *byte == b'.') {
        match number_in(0, u64::from(u32::MAX), digits) {
            Some(step) => path.push(step as u32)?,
            None => return Ok(None),
        }
    }
    Ok(Some(path))
}

/// The path that a word spells, if it spells one: `.` is that to the whole, and any other has a point before
/// each step.
pub(crate) fn parse_path(alloc: Global, word: &[u8]) -> Result<Option<Seq<u32>>, AllocError>
    ensures { IfOk result (λ path. path ≡ path_in word.now) }
{
    match word {
        [b'.'] => Ok(Some(Seq::new(alloc))),
        [b'.', steps @ ..] => parse_steps(alloc, steps),
        _ => Ok(None),
    }
}
