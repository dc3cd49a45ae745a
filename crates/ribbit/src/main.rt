//! The program: makes the real objects, calls `ribbit`, and ends with its answer.
//!
//! The objects are the words of the command line, the files that they name, and the two outputs.
//! The file `data/first.rib` of this crate is `fun main(x: u8, y: u8): u8 = add(x, mul(y, 3));`, and
//! 250 + 2 * 3 is 0 in eight bits. So this is printed, within one call and a memory of 64 bytes, and
//! the status is 0:
//!
//! ```text
//! $ ribbit run data/first.rib 1 64 250 2
//! 0
//! ```
//!
//! With one VALUE instead of two nothing is printed, the status is 10, and this line goes to the
//! error output: `ribbit: wanted 2 arguments, found 1`.
#![tactic(auto)]

use rb_edge::file_source::FileSource;
use rb_edge::std_sink::StdSink;
use rb_edge::steps::{NoLedger, Steps};
use rb_edge::words::Words;
use ribbit_tool::top::ribbit;
use std::process::ExitCode;

// The status where the words take more memory than there is.
const NO_MEMORY: u8 = 9;

// The status where the runtime does not hand out the words.
const NO_WORDS: u8 = 17;

// Calls `ribbit` with the words behind the program's name.
// The status is its answer, or one of those above.
fn main(rt: HostRuntime) -> ExitCode {
    let Ok(mut args) = std::env::args(&rt) else {
        return ExitCode::from(NO_WORDS);
    };
    let mut words = Words::new(rt.alloc());
    let _program = args.next();
    for word in args {
        if words.push(word.as_bytes()).is_err() {
            return ExitCode::from(NO_MEMORY);
        }
    }
    let mut src = FileSource::new(&rt);
    let mut out = StdSink::new(rt.stdout());
    let mut err = StdSink::new(rt.stderr());
    let mut steps = Steps::new(NoLedger);
    let status = ribbit(rt.alloc(), &words, &mut src, &mut out, &mut err, &mut steps);
    ExitCode::from(status)
}
