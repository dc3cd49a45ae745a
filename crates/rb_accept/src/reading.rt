//! Reads a file with its limit.
//!
//! A source has files by their names. An answer is a status with a line, by which a command is
//! refused. A function that reads gives it as its error; the only other error is want of memory.

ghost use Rattle.std.specs.Prelude.{◌≡◌, ◌≤◌, ◌<◌, ◌+◌, ◌^◌, [], ◌∷◌, length, IfOk, IfErr};
ghost use Rattle.rb_edge.specs.Source.{HoldsTheSame};
ghost use Rattle.rb_edge.specs.declared.whole.SourceFault.TheVariants.{Failed};
ghost use Rattle.rb_lines.specs.Answer.{refusal};
ghost use Rattle.rb_lines.specs.Lines.{file_bytes_line, read_fault_line};
ghost use Rattle.rb_lines.specs.View.{due_of, IsRefusal};
ghost use Rattle.rb_lines.specs.declared.status.Status.TheVariants.{Limit, Unread};
ghost use Rattle.rb_accept.specs.Reading.{IsUnread, ReadsInTurn, source_of, whole};
ghost use Rattle.rb_accept.specs.View.{handed_between};

use rb_core::limits::MOST_FILE_BYTES;
use rb_edge::seq::Seq;
use rb_edge::source::Source;
use rb_edge::whole::{SourceFault, read_whole};
use rb_lines::line::{self, READ_FAULT};
use rb_lines::refusal::{Refusal, Refused};
use rb_lines::status::Status;
use std::alloc::{AllocError, Global};

/// The most bytes that a file may have.
pub const FILE_LIMIT: usize = MOST_FILE_BYTES;

/// The most bytes that a code text may have.
pub const CODE_LIMIT: usize = 16_777_216;

/// The most bytes that an image's text may have.
pub const IMAGE_LIMIT: usize = 16_777_216;

// The answer where a source gave no file, since its opening or a read of it failed. Where the fault
// is want of memory, there is no answer, but this error.
fn refuse_reading(alloc: Global, fault: SourceFault) -> Result<Refused, AllocError>
    ensures failed { IfOk result (λ c. fault ≡ Failed) }
    ensures due { IfOk result (λ c. due_of c ≡ refusal Unread read_fault_line) }
{
    match fault {
        SourceFault::Memory => Err(AllocError),
        SourceFault::Failed => {
            let line = Vec::from_slice(alloc, READ_FAULT)?;
            Ok(Refused {
                status: Status::Unread,
                line,
            })
        }
    }
}

// The answer to a file over the limit. Only one byte over it is read, so the count in the line is
// one more than the limit.
fn refuse_long(alloc: Global, limit: usize) -> Result<Refused, AllocError>
    requires { limit < 2 ^ 32 }
    ensures { IfOk result (λ c. due_of c ≡ refusal Limit (file_bytes_line (limit + 1) limit)) }
{
    let line = line::file_bytes(alloc, limit as u64 + 1, limit as u64)?;
    Ok(Refused {
        status: Status::Limit,
        line,
    })
}

/// The bytes of the file of that name, if there are at most so many. One more than the limit is
/// read, and no further.
///
/// # Errors
///
/// The answer to a file that is over the limit or not read; or want of memory.
pub fn read_within<S: Source>(
    alloc: Global,
    src: &mut S,
    name: &[u8],
    limit: usize,
) -> Result<Seq<u8>, Refusal>
    requires { limit < 2 ^ 32 }
    ensures same { HoldsTheSame S.tells S.held src.old src.new }
    ensures later { S.faults src.old ≤ S.faults src.new }

    // The file was opened once and nothing else was; at most one byte over the limit was taken.
    ensures read { ReadsInTurn ((name.now, limit) ∷ [])
        (source_of S.tells S.held S.readings S.faults src.old src.new) }
    ensures given { IfOk result (λ bytes. handed_between S.readings src.old src.new ≡ whole name.now bytes ∷ []) }
    ensures within { IfOk result (λ bytes. length bytes ≤ limit) }
    ensures refused { IfErr result (IsRefusal (IsUnread name.now limit (handed_between S.readings src.old src.new))) }
{
    match read_whole(alloc, src, name, limit) {
        Ok(bytes) => {
            if bytes.len() > limit {
                let refused = refuse_long(alloc, limit)?;
                return Err(Refusal::Refused(refused));
            }
            Ok(bytes)
        }
        Err(fault) => {
            let refused = refuse_reading(alloc, fault)?;
            Err(Refusal::Refused(refused))
        }
    }
}
