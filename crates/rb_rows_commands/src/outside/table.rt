//! What comes of a call where one part of the outside fails, as the rules of delivery have it. A file takes
//! a call that opens it, a read for each piece, and a read that finds its end; an image takes the same behind
//! it; a text takes a write for each piece. A sink fails at one write alone, so a later write would be seen.

use crate::outside::call::{EASY, Held, Outside, Side, alone, bounded_side, expect, failing_side};
use rb_rows_calls::answers::Answer;
use rb_rows_calls::surprise::Surprise;
use std::alloc::Global;

/// Words, the file (none where nothing is read), the status and the text where nothing fails, and the steps;
/// where code that the program chose is run, any number of them is right.
pub type Row<'a> = (&'a str, &'a [u8], u8, &'a [u8], Option<u128>);

/// Words, the file and the image (none where nothing is read), the status and the text where nothing fails.
pub type ImageRow<'a> = (&'a str, &'a [u8], &'a [u8], u8, &'a [u8]);

/// The line for a failed read.
pub const READ_FAULT: &[u8] = b"ribbit: read fault\n";

// The line for a failed write.
const WRITE_FAULT: &[u8] = b"ribbit: write fault\n";

// The status of a failed read.
const UNREAD: u8 = 7;

// The status of a failed write.
const UNWRITTEN: u8 = 8;

// A byte at a time, some, and all at once.
const SIZES: [usize; 3] = [1, 10, 5000];

// A line that is tried, and the steps that came before it.
#[derive(Clone, Copy)]
struct Line<'a> {
    text: &'a [u8],
    steps: Option<u128>,
}

// A row.
#[derive(Clone, Copy)]
struct Call<'a> {
    words: &'a str,
    held: Held<'a>,
    status: u8,
    text: &'a [u8],
    steps: Option<u128>,
}

// The first bytes of a text, so many or all where there are fewer.
fn front(text: &[u8], count: usize) -> &[u8] {
    &text[..count.min(text.len())]
}

// What is answered where nothing fails.
fn due<'a>(call: &Call<'a>) -> Answer<'a> {
    let (out, err): (&[u8], &[u8]) = if call.status == 0 {
        (call.text, b"")
    } else {
        (b"", call.text)
    };
    Answer {
        status: call.status,
        out,
        err,
        steps: call.steps,
    }
}

// What is answered where the sink of the text has taken so many bytes and fails.
fn cut<'a>(call: &Call<'a>, count: usize) -> Answer<'a> {
    let taken = front(call.text, count);
    let (out, err): (&[u8], &[u8]) = if call.status == 0 {
        (taken, WRITE_FAULT)
    } else {
        (b"", taken)
    };
    Answer {
        status: UNWRITTEN,
        out,
        err,
        steps: call.steps,
    }
}

// An outside whose sink for the text is this one.
fn over(call: &Call, side: Side) -> Outside {
    let (out, err) = if call.status == 0 {
        (side, EASY)
    } else {
        (EASY, side)
    };
    Outside {
        source: EASY,
        out,
        err,
    }
}

// An outside with this source.
fn from(source: Side) -> Outside {
    Outside {
        source,
        out: EASY,
        err: EASY,
    }
}

// Looks whether a row answers so over an outside, and gives its steps.
fn look(alloc: Global, call: &Call, outside: Outside, wanted: Answer) -> Result<u128, Surprise> {
    expect(alloc, call.words, call.held, outside, wanted)
}

// How many calls reading takes, for pieces of this size.
fn calls_of(bytes: &[u8], step: usize) -> u64 {
    if bytes.is_empty() {
        return 0;
    }
    let pieces = bytes.chunks(step.max(1)).count() as u64;
    pieces.saturating_add(2)
}

// Makes the row's call once for each call of its source, which alone fails: a read fault is due, and
// no step. Then a source's call fails that is never made, and the row's own answer is due. A call of
// the source gives at most `step` bytes.
fn each_source_call(alloc: Global, call: &Call, step: usize) -> Result<(), Surprise> {
    let calls = calls_of(call.held.file, step).saturating_add(calls_of(call.held.image, step));
    let unread = Answer {
        status: UNREAD,
        out: b"",
        err: READ_FAULT,
        steps: Some(0),
    };
    for number in 0..calls {
        look(alloc, call, from(failing_side(step, number)), unread)?;
    }
    look(alloc, call, from(failing_side(step, calls)), due(call))?;
    Ok(())
}

// Makes the row's call once for each write of its text, which alone fails: the text before it is
// taken, and the line of a write fault is due. Then a write fails that is never made, and the row's
// own answer is due. A write takes at most `step` bytes.
fn each_write(alloc: Global, call: &Call, step: usize) -> Result<(), Surprise> {
    let mut writes = 0u64;
    let mut taken = 0usize;
    for piece in call.text.chunks(step.max(1)) {
        let outside = over(call, failing_side(step, writes));
        look(alloc, call, outside, cut(call, taken))?;
        writes = writes.saturating_add(1);
        taken = taken.saturating_add(piece.len());
    }
    look(
        alloc,
        call,
        over(call, failing_side(step, writes)),
        due(call),
    )?;
    Ok(())
}

// The sink of the text has each of these rooms, which are too small.
fn each_cut(alloc: Global, call: &Call, step: usize, rooms: &[usize]) -> Result<(), Surprise> {
    for room in rooms {
        let outside = over(call, bounded_side(step, *room));
        look(alloc, call, outside, cut(call, *room))?;
    }
    Ok(())
}

// The sink of the text has no room, room of one byte, of one byte too few, and of just enough.
fn each_room(alloc: Global, call: &Call, step: usize) -> Result<(), Surprise> {
    let whole = call.text.len();
    each_cut(alloc, call, step, &[0, 1, whole.saturating_sub(1)])?;
    look(
        alloc,
        call,
        over(call, bounded_side(step, whole)),
        due(call),
    )?;
    Ok(())
}

// The output fails at its first write, and then each write of a line.
fn each_line_write(
    alloc: Global,
    call: &Call,
    source: Side,
    line: Line,
    step: usize,
) -> Result<(), Surprise> {
    let mut writes = 0u64;
    let mut taken = 0usize;
    for piece in line.text.chunks(step.max(1)) {
        let outside = Outside {
            source,
            out: failing_side(1, 0),
            err: failing_side(step, writes),
        };
        let wanted = Answer {
            status: UNWRITTEN,
            out: b"",
            err: front(line.text, taken),
            steps: line.steps,
        };
        look(alloc, call, outside, wanted)?;
        writes = writes.saturating_add(1);
        taken = taken.saturating_add(piece.len());
    }
    Ok(())
}

// Both sinks fail: the output at its first write, and then each write of the line. Where a refusal is due, the output
// fails in vain, for it is not written.
fn both_sinks(alloc: Global, call: &Call, step: usize) -> Result<(), Surprise> {
    let text = if call.status == 0 {
        WRITE_FAULT
    } else {
        call.text
    };
    let steps = call.steps;
    each_line_write(alloc, call, EASY, Line { text, steps }, step)
}

// The output fails at its second write, and then the first one of the line.
fn second_write_and_line(alloc: Global, call: &Call) -> Result<(), Surprise> {
    let mut wanted = cut(call, 1);
    wanted.err = b"";
    let outside = Outside {
        source: EASY,
        out: failing_side(1, 1),
        err: failing_side(7, 0),
    };
    look(alloc, call, outside, wanted)?;
    Ok(())
}

// Both sinks have room of one byte.
fn one_byte_each(alloc: Global, call: &Call, step: usize) -> Result<(), Surprise> {
    let mut wanted = cut(call, 1);
    wanted.err = front(wanted.err, 1);
    let outside = Outside {
        source: EASY,
        out: bounded_side(step, 1),
        err: bounded_side(step, 1),
    };
    look(alloc, call, outside, wanted)?;
    Ok(())
}

// The source fails, and then each write of the line.
fn source_and_sink(alloc: Global, call: &Call, step: usize) -> Result<(), Surprise> {
    let line = Line {
        text: READ_FAULT,
        steps: Some(0),
    };
    each_line_write(alloc, call, failing_side(10, 1), line, step)
}

// Looks at a call with nothing failing, and then with each part of the outside failing in turn.
fn expect_call(alloc: Global, call: Call, sizes: &[usize]) -> Result<(), Surprise> {
    let mut call = call;
    let steps = look(alloc, &call, from(EASY), due(&call))?;
    call.steps = Some(steps);
    for size in sizes {
        each_source_call(alloc, &call, *size)?;
        each_write(alloc, &call, *size)?;
        each_room(alloc, &call, *size)?;
        both_sinks(alloc, &call, *size)?;
        one_byte_each(alloc, &call, *size)?;
        if !call.held.file.is_empty() {
            source_and_sink(alloc, &call, *size)?;
        }
    }
    second_write_and_line(alloc, &call)
}

/// Looks at a row with nothing failing, and then with each part of the outside failing in turn, for pieces
/// of these sizes.
///
/// # Errors
///
/// Another answer than is due, or want of memory.
pub fn expect_row(alloc: Global, row: Row, sizes: &[usize]) -> Result<(), Surprise> {
    let (words, file, status, text, steps) = row;
    let held = alone(file);
    expect_call(
        alloc,
        Call {
            words,
            held,
            status,
            text,
            steps,
        },
        sizes,
    )
}

/// Looks at each row so, for pieces of a byte, of some, and of all.
///
/// # Errors
///
/// Another answer than is due, or want of memory.
pub fn expect_table(alloc: Global, rows: &[Row]) -> Result<(), Surprise> {
    for row in rows {
        expect_row(alloc, *row, &SIZES)?;
    }
    Ok(())
}

/// Looks at each row so whose command reads an image and runs nothing.
///
/// # Errors
///
/// Another answer than is due, or want of memory.
pub fn expect_images(alloc: Global, rows: &[ImageRow]) -> Result<(), Surprise> {
    for row in rows {
        let (words, file, image, status, text) = *row;
        let held = Held { file, image };
        expect_call(
            alloc,
            Call {
                words,
                held,
                status,
                text,
                steps: Some(0),
            },
            &SIZES,
        )?;
    }
    Ok(())
}
