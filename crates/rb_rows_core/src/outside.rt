//! What no contract says of the outside: that calls succeed with ample memory, and what the system does.
//! What is read back is what was written here.

use rb_edge::{
    CountLedger, Failed, FileSource, Ledger, MemSink, MemSource, Name, NamedBytes, NoLedger, Seq,
    Sink, Source, SourceFault, StdSink, Steps, Words, read_whole, write_whole,
};
use std::alloc::{AllocError, Global};
use std::io::Write;
use std::test::Fail;
use std::{fs, io};

// A list of numbers in memory of its own.
fn list<T: Copy>(alloc: Global, items: &[T]) -> Result<Seq<T>, AllocError> {
    Ok(Seq::from_vec(Vec::from_slice(alloc, items)?))
}

// Two files, and another under the name of the first.
const FILES: &[(&[u8], &[u8])] = &[(b"a", b"first"), (b"b", b""), (b"a", b"second")];

// The files of the table, in its order.
fn files(alloc: Global) -> Result<Seq<NamedBytes>, AllocError> {
    let mut files = Seq::new(alloc);
    for &(name, bytes) in FILES {
        let name = list(alloc, name)?;
        let bytes = list(alloc, bytes)?;
        files.push(NamedBytes { name, bytes })?;
    }
    Ok(files)
}

// Whether a name is `Cons2`.
fn is_grown(name: &Name) -> bool {
    name.as_slice() == b"Cons2".as_slice()
        && (name.len(), name.get(4), name.get(5)) == (5, Some(&b'2'), None)
}

// Puts an `F` in the first place of a name of five, and gives what stood there.
fn replace_first(name: &mut Name) -> Option<u8> {
    if name.len() == 5 {
        Some(name.replace(0, b'F'))
    } else {
        None
    }
}

#[test]
fn lists(rt: HostRuntime) -> Result<(), Fail> {
    let mut name: Name = list(rt.alloc(), b"Cons")?;
    name.push(b'2')?;
    assert!(rt; is_grown(&name.copy(rt.alloc())?));
    assert!(rt; replace_first(&mut name) == Some(b'C'));
    assert_eq!(rt; name.as_slice(), b"Fons2".as_slice());
    Ok(())
}

// Whether these are the words `run` and one without letters.
fn are_run_and_nothing(words: &Words) -> bool {
    words.len() == 2
        && words.get(0) == Some(b"run".as_slice())
        && words.get(1) == Some(b"".as_slice())
        && words.get(2).is_none()
}

#[test]
fn words(rt: HostRuntime) -> Result<(), Fail> {
    let mut words = Words::new(rt.alloc());
    words.push(b"run")?;
    words.push(b"")?;
    assert!(rt; are_run_and_nothing(&words));
    Ok(())
}

// Whether these bytes were read, or reading failed so.
fn is_read(found: &Result<Seq<u8>, SourceFault>, want: Result<&[u8], SourceFault>) -> bool {
    match (found, want) {
        (Ok(bytes), Ok(want)) => bytes.as_slice() == want,
        (Err(fault), Err(want)) => *fault == want,
        (Ok(_), Err(_)) => false,
        (Err(_), Ok(_)) => false,
    }
}

// Reads a file of the three, two bytes a call, where the calls with these numbers fail.
fn read_of_three(
    alloc: Global,
    fail: &[u64],
    name: &[u8],
    limit: u16,
) -> Result<Seq<u8>, SourceFault> {
    let files = files(alloc)?;
    let mut source = MemSource::new(files, 2, list(alloc, fail)?);
    read_whole(alloc, &mut source, name, usize::from(limit))
}

// which calls fail, the name and the limit, and the bytes that are read
const READS: &[(&[u64], &[u8], u16, Result<&[u8], SourceFault>)] = &[
    (&[], b"a", 10, Ok(b"first")),
    (&[], b"a", 5, Ok(b"first")),
    (&[], b"a", 2, Ok(b"fir")),
    (&[], b"a", 0, Ok(b"f")),
    (&[], b"b", 10, Ok(b"")),
    (&[], b"c", 10, Err(SourceFault::Failed)),
    (&[0], b"a", 10, Err(SourceFault::Failed)),
    (&[4], b"a", 10, Err(SourceFault::Failed)),
];

#[test]
fn a_source_in_memory(rt: HostRuntime) {
    for &(fail, name, limit, want) in READS {
        let found = read_of_three(rt.alloc(), fail, name, limit);
        assert!(rt;
            is_read(&found, want),
            "{name:?} up to {limit}, failing at {fail:?}"
        );
    }
}

// Room for so many bytes, two a call, where the calls with these numbers fail.
fn sink(alloc: Global, room: usize, fail: &[u64]) -> Result<MemSink, AllocError> {
    let fail = list(alloc, fail)?;
    MemSink::new(alloc, room, 2, fail)
}

// room, which calls fail, whether all is taken, and what is
const SINKS: &[(usize, &[u64], bool, &[u8])] = &[
    (7, &[], true, b"ribbit\n"),
    (6, &[], false, b"ribbit"),
    (0, &[], false, b""),
    (9, &[0], false, b""),
    (9, &[2], false, b"ribb"),
];

#[test]
fn a_sink_in_memory(rt: HostRuntime) -> Result<(), Fail> {
    for &(room, fail, all, taken) in SINKS {
        let mut sink = sink(rt.alloc(), room, fail)?;
        let result = write_whole(&mut sink, b"ribbit\n");
        assert!(rt;
            (result.is_ok(), sink.bytes()) == (all, taken),
            "room {room}, failing at {fail:?}"
        );
    }
    Ok(())
}

// Ticks three times.
fn three<L: Ledger>(steps: &mut Steps<L>) {
    for _ in 0..3 {
        steps.tick();
    }
}

#[test]
fn steps_are_noted(rt: HostRuntime) {
    let mut steps = Steps::new(CountLedger {
        count: u128::MAX - 4,
    });
    three(&mut steps);
    assert!(rt; steps.ledger().count == u128::MAX - 1);
    three(&mut steps);
    assert!(rt; steps.ledger().count == u128::MAX);
    three(&mut Steps::new(NoLedger));
}

// a file, no file, no text, and a folder, which opens and can't be read
const OUTSIDE: &[(&[u8], Result<&[u8], SourceFault>)] = &[
    (b"seven.rib", Ok(b"fun main(): u8 = 7;\n")),
    (b"eight.rib", Err(SourceFault::Failed)),
    (b"\xff", Err(SourceFault::Failed)),
    (b".", Err(SourceFault::Failed)),
];

#[test]
fn files_of_the_system(rt: HostRuntime) -> Result<(), Fail> {
    fs::write(&rt, "seven.rib", b"fun main(): u8 = 7;\n")?;
    for &(name, want) in OUTSIDE {
        let found = read_whole(rt.alloc(), &mut FileSource::new(&rt), name, 100);
        assert!(rt; is_read(&found, want), "{name:?}");
    }
    let mut piece = [0u8; 4];
    assert!(rt; FileSource::new(&rt).read(&mut piece) == Ok(0));
    Ok(())
}

// Takes bytes and can't be flushed.
#[derive(Drop)]
struct Unflushed;

impl Write for Unflushed {
    // All bytes are taken.
    fn write(&mut self, buf: &[u8]) -> io::Result<usize> {
        Ok(buf.len())
    }

    // Never succeeds.
    fn flush(&mut self) -> io::Result<()> {
        Err(io::ErrorKind::Other.into())
    }
}

// Takes nothing.
#[derive(Drop)]
struct Full;

impl Write for Full {
    // No byte is taken, and that is no error.
    fn write(&mut self, _buf: &[u8]) -> io::Result<usize> {
        Ok(0)
    }

    // Nothing is left to be flushed.
    fn flush(&mut self) -> io::Result<()> {
        Ok(())
    }
}

#[test]
fn streams_of_the_system(rt: HostRuntime) -> Result<(), Fail> {
    let mut sink = StdSink::new(fs::create(&rt, "written")?);
    let written = (write_whole(&mut sink, b"0\n"), write_whole(&mut sink, b""));
    assert!(rt; written == (Ok(()), Ok(())));
    let found = read_whole(rt.alloc(), &mut FileSource::new(&rt), b"written", 10);
    assert!(rt; is_read(&found, Ok(b"0\n")));
    Ok(())
}

// Writing to standard output succeeds. Flushing a stream that cannot be flushed fails, and so does writing to one that
// takes nothing, unless nothing is written.
#[test]
fn streams_that_fail(rt: HostRuntime) {
    assert!(rt; write_whole(&mut StdSink::new(rt.stdout()), b"written\n").is_ok());
    assert!(rt; write_whole(&mut StdSink::new(Unflushed), b"lost").is_err());
    let taken = (
        StdSink::new(Full).write(b"lost").is_err(),
        StdSink::new(Full).write(b""),
    );
    assert!(rt; taken == (true, Ok(0)));
}
