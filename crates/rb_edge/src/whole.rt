//! Whole files and whole texts, over any source and any sink.

ghost use Rattle.std.specs.Prelude.{◌≡◌, ◌≤◌, ◌<◌, ◌+◌, ◌++◌, Some, None, take, length, IsTrue, IfOk, OnOk, OnErr, IsErrOf};
ghost use Rattle.std.specs.Option.{option_map};
ghost use Rattle.rb_edge.specs.Faults.{Rose};
ghost use Rattle.rb_edge.specs.Source.{HoldsTheSame, FailsToOpen};
ghost use Rattle.rb_edge.specs.History.{after_take};
ghost use Rattle.rb_edge.specs.Whole.{ReadsOnce, TakesFront};
ghost use Rattle.rb_edge.specs.inner.Left.{ReadsOn};
ghost use Rattle.rb_edge.specs.declared.whole.SourceFault.TheVariants.{Memory, Failed};

use crate::seq::Seq;
use crate::sink::Sink;
use crate::source::{Failed, Source};
use std::alloc::{AllocError, Global};
use thiserror::Error;

// The most bytes that are asked of a source at once.
const PIECE: usize = 4096;

/// Why a file was not read.
#[derive(Clone, Copy, Debug, PartialEq, Eq, Error)]
pub enum SourceFault {
    /// The source failed, or holds nothing under the name.
    #[error("the file was not read")]
    Failed,
    /// Want of memory.
    #[error("no memory")]
    Memory,
}

impl From<AllocError> for SourceFault {
    ghost from_gives = { λ _ fault. fault ≡ Memory };

    /// Want of memory is told as such.
    fn from(_: AllocError) -> SourceFault {
        SourceFault::Memory
    }
}

impl From<Failed> for SourceFault {
    ghost from_gives = { λ _ fault. fault ≡ Failed };

    /// The source failed.
    fn from(_: Failed) -> SourceFault {
        SourceFault::Failed
    }
}

// The bytes that are left of the file that is open, up to one more than the limit, which is in
// bytes. They are read piece by piece, until a read gives none or the one more is there.
fn read_left<S: Source>(alloc: Global, source: &mut S, limit: usize) -> Result<Vec<u8>, SourceFault>
    requires { limit < usize.MAX }
    ensures same { HoldsTheSame S.tells S.held source.old source.new }
    ensures later { S.faults source.old ≤ S.faults source.new }
    ensures bytes { IfOk result (λ bytes. IsTrue (S.tells source.old)
        → bytes.items ≡ take (limit + 1) (S.left source.old)) }
    ensures within { IfOk result (λ bytes. length bytes.items ≤ limit + 1) }
    ensures cause { IsErrOf result SourceFault.Failed
        → Rose (S.faults source.old) (S.faults source.new) }
    ensures on { ReadsOn S.tells S.left S.readings source.old source.new limit result }
{
    let mut bytes = Vec::new(alloc);
    let mut piece = [0u8; PIECE];
    for _turn in 0..limit + 1 {
        let room = (limit + 1 - bytes.len()).min(PIECE);
        if room == 0 {
            return Ok(bytes);
        }
        let count = source.read(&mut piece[..room])?;
        if count == 0 {
            return Ok(bytes);
        }
        bytes.extend_from_slice(&piece[..count])?;
    }
    Ok(bytes)
}

/// Opens the file of that name and reads its bytes, up to one more than the limit: a caller tells
/// by the one more that the file is longer than the limit. No read asks for more than 4,096 bytes,
/// nor for more than are still wanted.
///
/// # Errors
///
/// `Failed` where the source holds nothing under the name or failed; or want of memory.
pub fn read_whole<S: Source>(
    alloc: Global,
    source: &mut S,
    name: &[u8],
    limit: usize,
) -> Result<Seq<u8>, SourceFault>
    requires { limit < usize.MAX }
    ensures same { HoldsTheSame S.tells S.held source.old source.new }
    ensures later { S.faults source.old ≤ S.faults source.new }

    // The file was opened once, and what is answered is what the source handed out for it.
    ensures once { ReadsOnce S.tells S.held S.readings source.old source.new name.now limit result }

    // The bytes are those of the file, so no fault is taken for its end.
    ensures bytes { IfOk result (λ bytes. IsTrue (S.tells source.old) →
        Some bytes ≡ option_map (λ whole. take (limit + 1) whole) (S.held source.old name.now)) }
    ensures within { IfOk result (λ bytes. length bytes ≤ limit + 1) }
    ensures cause { IsErrOf result SourceFault.Failed →
        FailsToOpen S.tells S.held S.faults source.old source.new name.now }

    // A name under which nothing is held is answered so, and that is no fault.
    ensures not_held { IsTrue (S.tells source.old) → S.held source.old name.now ≡ None
        → IsErrOf result SourceFault.Failed }
    ensures no_fault { IsTrue (S.tells source.old) → S.held source.old name.now ≡ None
        → S.faults source.new ≡ S.faults source.old }
{
    source.open_file(name)?;
    let bytes = read_left(alloc, source, limit)?;
    Ok(Seq::from_vec(bytes))
}

/// Writes all of the bytes, piece after piece, and stops at the first write that fails. Where there
/// are no bytes, nothing is asked of the sink.
///
/// # Errors
///
/// `Failed` where a write failed. The sink says that it took the bytes before that piece alone.
pub fn write_whole<K: Sink>(sink: &mut K, bytes: &[u8]) -> Result<(), Failed>
    ensures same { K.tells sink.new ≡ K.tells sink.old }
    ensures later { K.faults sink.old ≤ K.faults sink.new }

    ensures all { OnOk result (IsTrue (K.tells sink.old)
        → K.taken sink.new ≡ K.taken sink.old ++ bytes.now) }
    ensures said { OnOk result (K.account sink.new ≡ after_take bytes.now (K.account sink.old)) }

    // Nothing is written after the write that failed.
    ensures front { OnErr result (TakesFront (K.tells sink.old) bytes.now (K.taken sink.old)
        (K.taken sink.new) (K.account sink.old) (K.account sink.new)) }
    ensures cause { OnErr result (Rose (K.faults sink.old) (K.faults sink.new)) }
{
    let mut done = 0;
    for _turn in 0..bytes.len() {
        if done == bytes.len() {
            return Ok(());
        }
        done += sink.write(&bytes[done..])?;
    }
    Ok(())
}
