//! Words of the command line and an outside that fails. The answers were worked out by hand from the
//! tables of words and statuses.

use rb_rows_calls::answers::{Answer, Faulty, expect_did, expect_faulty};
use rb_rows_calls::call::{call, expect_answer};
use rb_rows_calls::surprise::Surprise;
use std::alloc::Global;
use std::test::Fail;

// The file of the rows, under the name `E`.
const FILE: &[u8] = b"fun main(x: u8, y: u8): u8 = add(x, mul(y, 3));";

// Words, the status, and the line: nothing is put out, and no step is made.
const WORDS: [(&str, u8, &[u8]); 22] = [
    ("", 6, b"ribbit: usage at word 1\n"),
    ("layouts E", 6, b"ribbit: usage at word 1\n"),
    ("layout", 6, b"ribbit: usage at word 2\n"),
    ("layout E E", 6, b"ribbit: usage at word 3\n"),
    ("compile E E", 6, b"ribbit: usage at word 3\n"),
    ("run", 6, b"ribbit: usage at word 2\n"),
    ("run E 01 64 250 2", 6, b"ribbit: usage at word 3\n"),
    ("run E 1000000001 64 250 2", 6, b"ribbit: usage at word 3\n"),
    ("run E 1 63 250 2", 6, b"ribbit: usage at word 4\n"),
    ("run E 1 1024x 250 2", 6, b"ribbit: usage at word 4\n"),
    ("run E 10 63 Nil", 6, b"ribbit: usage at word 4\n"),
    ("run E 10 1024x Nil", 6, b"ribbit: usage at word 4\n"),
    ("run F 1 64 250 2", 7, b"ribbit: read fault\n"),
    (
        "run E 1 64 250",
        10,
        b"ribbit: wanted 2 arguments, found 1\n",
    ),
    (
        "run E 1 64 250 256",
        10,
        b"ribbit: argument 2: no value of u8 at byte 0\n",
    ),
    (
        "run E 1 64 007 2",
        10,
        b"ribbit: argument 1: syntax at byte 1\n",
    ),
    ("run E 0 64 250 2", 4, b"ribbit: calls spent: 0\n"),
    ("value", 6, b"ribbit: usage at word 2\n"),
    ("value E", 6, b"ribbit: usage at word 3\n"),
    ("value E I 1", 6, b"ribbit: usage at word 4\n"),
    ("values E I", 6, b"ribbit: usage at word 1\n"),
    ("value E I", 7, b"ribbit: read fault\n"),
];

// Looks whether words have their status and line over the file, with nothing put out and no step made.
fn expect_refused(alloc: Global, rows: &[(&str, u8, &[u8])]) -> Result<(), Surprise> {
    for (words, status, line) in rows {
        let did = call(alloc, words, FILE, &[], &[])?;
        let wanted = Answer {
            status: *status,
            out: b"",
            err: line,
            steps: Some(0),
        };
        expect_did(alloc, words, &did, &wanted)?;
    }
    Ok(())
}

// A path is `.`, or has a point before each number.
const PATHS: [(&str, u8, &[u8]); 26] = [
    ("peek", 6, b"ribbit: usage at word 2\n"),
    ("peek E", 6, b"ribbit: usage at word 3\n"),
    ("peek E I", 6, b"ribbit: usage at word 4\n"),
    ("peek E I . .", 6, b"ribbit: usage at word 5\n"),
    ("peek E I 1 .", 6, b"ribbit: usage at word 4\n"),
    ("peeks E I .", 6, b"ribbit: usage at word 1\n"),
    ("peek E I 1", 6, b"ribbit: usage at word 4\n"),
    ("peek E I 1.0", 6, b"ribbit: usage at word 4\n"),
    ("peek E I ''", 6, b"ribbit: usage at word 4\n"),
    ("peek E I ..", 6, b"ribbit: usage at word 4\n"),
    ("peek E I ..0", 6, b"ribbit: usage at word 4\n"),
    ("peek E I .1.", 6, b"ribbit: usage at word 4\n"),
    ("peek E I .1..0", 6, b"ribbit: usage at word 4\n"),
    ("peek E I .01", 6, b"ribbit: usage at word 4\n"),
    ("peek E I .1.00", 6, b"ribbit: usage at word 4\n"),
    ("peek E I .1x", 6, b"ribbit: usage at word 4\n"),
    ("peek E I .-1", 6, b"ribbit: usage at word 4\n"),
    ("peek E I .+1", 6, b"ribbit: usage at word 4\n"),
    ("peek E I .4294967296", 6, b"ribbit: usage at word 4\n"),
    (
        "peek E I .0.18446744073709551616",
        6,
        b"ribbit: usage at word 4\n",
    ),
    ("peek E I .", 7, b"ribbit: read fault\n"),
    ("peek E I .0", 7, b"ribbit: read fault\n"),
    ("peek E I .10", 7, b"ribbit: read fault\n"),
    ("peek E I .0.0", 7, b"ribbit: read fault\n"),
    ("peek E I .4294967295", 7, b"ribbit: read fault\n"),
    ("peek F I .0", 7, b"ribbit: read fault\n"),
];

#[test]
fn paths(rt: HostRuntime) -> Result<(), Surprise> {
    expect_refused(rt.alloc(), &PATHS)
}

#[test]
fn words_and_arguments(rt: HostRuntime) -> Result<(), Surprise> {
    expect_refused(rt.alloc(), &WORDS)
}

// 250 + 2 * 3 is 0 in eight bits.
const SUM: &str = "run E 1 64 250 2";

const FOUND: Answer = Answer {
    status: 0,
    out: b"0\n",
    err: b"",
    steps: Some(4),
};

#[test]
fn the_first_row(rt: HostRuntime) -> Result<(), Surprise> {
    expect_faulty(rt.alloc(), &[(SUM, FILE, &[], &[], FOUND)])
}

#[test]
fn a_file_over_the_limit(rt: HostRuntime) -> Result<(), Fail> {
    let blanks = vec![in rt.alloc(); b' '; 262_145]?;
    let wanted = "11 ribbit: limit file bytes: 262145 over 262144;";
    expect_answer(rt.alloc(), "run E 1 64", blanks.as_slice(), wanted)?;
    Ok(())
}

const UNREAD: Answer = Answer {
    status: 7,
    out: b"",
    err: b"ribbit: read fault\n",
    steps: Some(0),
};

// The second write fails.
const UNWRITTEN: Answer = Answer {
    status: 8,
    out: b"0",
    err: b"ribbit: write fault\n",
    steps: None,
};

const FAILING: [Faulty; 7] = [
    (SUM, FILE, &[0], &[], UNREAD),
    (SUM, FILE, &[1], &[], UNREAD),
    (SUM, FILE, &[2], &[], UNREAD),
    (SUM, FILE, &[3], &[], UNREAD),
    (SUM, FILE, &[4], &[], UNREAD),
    (SUM, FILE, &[5], &[], UNREAD),
    (SUM, FILE, &[], &[1], UNWRITTEN),
];

#[test]
fn a_failing_outside(rt: HostRuntime) -> Result<(), Surprise> {
    expect_faulty(rt.alloc(), &FAILING)
}
