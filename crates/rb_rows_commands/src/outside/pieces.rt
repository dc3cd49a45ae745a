//! How many calls a file takes, counted by hand: one that opens it, a read for each piece, and a read that
//! finds its end.

use crate::outside::call::{NOTHING_FAILS, Outside, alone, expect, failing_side};
use crate::outside::table::READ_FAULT;
use rb_rows_calls::answers::Answer;
use rb_rows_calls::surprise::Surprise;
use std::alloc::Global;

// 47 bytes.
const SUM: &[u8] = b"fun main(x: u8, y: u8): u8 = add(x, mul(y, 3));";

const UNREAD: Answer = Answer {
    status: 7,
    out: b"",
    err: READ_FAULT,
    steps: Some(0),
};

// Looks what `check` answers to a file where this call of the source fails.
fn expect_failing(
    alloc: Global,
    file: &[u8],
    step: usize,
    number: u64,
    wanted: Answer,
) -> Result<(), Surprise> {
    let outside = Outside {
        source: failing_side(step, number),
        ..NOTHING_FAILS
    };
    expect(alloc, "check E", alone(file), outside, wanted)?;
    Ok(())
}

// Looks whether a file takes so many calls: the last of them fails, and the one behind it is not made.
fn expect_calls(
    alloc: Global,
    file: &[u8],
    step: usize,
    last: u64,
    due: Answer,
) -> Result<(), Surprise> {
    expect_failing(alloc, file, step, last, UNREAD)?;
    expect_failing(alloc, file, step, last.saturating_add(1), due)
}

const ACCEPTED: Answer = Answer {
    status: 0,
    out: b"ok\n",
    err: b"",
    steps: Some(0),
};

// The bytes of a read, and the number of the last call.
const SIZES: [(usize, u64); 5] = [(1, 48), (10, 6), (46, 3), (47, 2), (4096, 2)];

// Looks how many calls the file takes, for reads of each size.
fn expect_sizes(alloc: Global, sizes: &[(usize, u64)]) -> Result<(), Surprise> {
    for (step, last) in sizes {
        expect_calls(alloc, SUM, *step, *last, ACCEPTED)?;
    }
    Ok(())
}

#[test]
fn pieces_of_the_source(rt: HostRuntime) -> Result<(), Surprise> {
    expect_sizes(rt.alloc(), &SIZES)
}

// The bytes of a file of blanks, the number of the last call, the line, and the status. No read asks for more than
// 4,096 bytes, and the last one asks for what is still wanted: at the limit of 262,144 bytes it finds the end, and
// behind one byte more no read is made.
const BLANKS: [(usize, u64, &[u8], u8); 5] = [
    (4096, 2, b"ribbit: no function main\n", 2),
    (4097, 3, b"ribbit: no function main\n", 2),
    (8192, 3, b"ribbit: no function main\n", 2),
    (262_144, 65, b"ribbit: no function main\n", 2),
    (
        262_145,
        65,
        b"ribbit: limit file bytes: 262145 over 262144\n",
        11,
    ),
];

// Looks how many calls each file of blanks takes, and what is answered to it.
fn expect_blanks(alloc: Global, rows: &[(usize, u64, &[u8], u8)]) -> Result<(), Surprise> {
    for (bytes, last, line, status) in rows {
        let blanks = vec![in alloc; b' '; *bytes]?;
        let due = Answer {
            status: *status,
            out: b"",
            err: line,
            steps: Some(0),
        };
        expect_calls(alloc, blanks.as_slice(), 1_000_000, *last, due)?;
    }
    Ok(())
}

#[test]
fn pieces_of_the_reader(rt: HostRuntime) -> Result<(), Surprise> {
    expect_blanks(rt.alloc(), &BLANKS)
}
