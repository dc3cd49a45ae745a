//! Matches in matches and in two functions: the first that misses a value, and the clauses that no value
//! reaches, match by match in the order of the file. The answers were worked out by hand, and the bytes
//! of the matches counted.

use rb_rows_calls::call::{call, expect_answer};
use rb_rows_calls::rows::expect_lines;
use rb_rows_calls::surprise::{Surprise, another};
use std::alloc::{AllocError, Global};
use std::str;
use std::test::Fail;

// Files, each with its answer to `check`.
const CHECKED: &str =
    "fun main(x: u1, y: u1): u8 = match x { 0 => match y { 0 => 5 }, _ => match y { _ => 5 } }; fun f(x: u1): u8 = match x { _ => 5 };~2 ribbit: match at byte 44 misses 1;\n\
fun main(x: u1, y: u1): u8 = match x { 0 => match y { _ => 5 }, _ => match y { 1 => 5 } }; fun f(x: u1): u8 = match x { _ => 5 };~2 ribbit: match at byte 69 misses 0;\n\
fun main(x: u1, y: u1): u8 = match x { 0 => match y { _ => 5 }, _ => match y { _ => 5 } }; fun f(x: u1): u8 = match x { 0 => 5 };~2 ribbit: match at byte 110 misses 1;\n\
fun main(x: u1, y: u1): u8 = match x { 0 => match y { _ => 5 }, _ => match y { 1 => 5 } }; fun f(x: u1): u8 = match x { 0 => 5 };~2 ribbit: match at byte 69 misses 0;\n\
fun main(x: u1, y: u1): u8 = match x { 0 => match y { 0 => 5 }, _ => match y { 1 => 5 } }; fun f(x: u1): u8 = match x { 0 => 5 };~2 ribbit: match at byte 44 misses 1;\n\
fun main(x: u1, y: u2): u8 = match x { 0 => match y { 3 => 5, 0 => 5, 2 => 5 }, _ => match y { _ => 5 } }; fun f(x: u2): u8 = match x { _ => 5 };~2 ribbit: match at byte 44 misses 1;\n\
fun main(x: u1, y: u1): u8 = match x { 0 => match y { _ => 5 }, _ => match y { _ => 5 } }; fun f(x: u1): u8 = match x { _ => 5 };~0 ok;\n\
fun main(x: u1, y: u1): u8 = match x { 0 => match y { 0 => 5, 1 => 5 }, _ => match y { 0 => 5, 1 => 5 } }; fun f(x: u1): u8 = match x { 0 => 5, 1 => 5 };~0 ok;\n\
fun main(x: u1, y: u1): u8 = match x { 0 => match y { _ => 5, 0 => 5 }, _ => match y { _ => 5 } }; fun f(x: u1): u8 = match x { _ => 5 };~0 note: clause 1 of the match at byte 44 is never reached;ok;\n\
fun main(x: u1, y: u1): u8 = match x { 0 => match y { _ => 5 }, _ => match y { 0 => 5, 0 => 5, 1 => 5, _ => 5 } }; fun f(x: u1): u8 = match x { _ => 5 };~0 note: clause 1 of the match at byte 69 is never reached;note: clause 3 of the match at byte 69 is never reached;ok;\n\
fun main(x: u1, y: u2): u8 = match x { 0 => match y { _ => 5 }, _ => match y { 0 => 5, 0 => 5, 1 => 5, _ => 5 } }; fun f(x: u2): u8 = match x { _ => 5 };~0 note: clause 1 of the match at byte 69 is never reached;ok;\n\
fun main(x: u1, y: u1): u8 = match x { 0 => match y { _ => 5, 0 => 5 }, _ => match y { 0 => 5, 1 => 5 } }; fun f(x: u1): u8 = match x { 0 => 5, 0 => 5, 1 => 5, _ => 5 };~0 note: clause 1 of the match at byte 44 is never reached;note: clause 1 of the match at byte 126 is never reached;note: clause 3 of the match at byte 126 is never reached;ok;";

#[test]
fn nested_matches(rt: HostRuntime) -> Result<(), Surprise> {
    expect_lines(rt.alloc(), "check E", CHECKED)
}

// The number at the end of the line that a match at this byte misses it.
fn number_of(line: &[u8], front: &str) -> Option<u64> {
    let number = line.strip_prefix(front.as_bytes())?.strip_suffix(b"\n")?;
    str::from_utf8(number).ok()?.parse().ok()
}

// The bits of a type, the byte of a match on it, and the greatest number of the type.
const WIDE: [(u32, u32, u64); 2] = [(8, 44, 255), (64, 45, u64::MAX)];

// Looks which number matches are said to miss that have a clause for 0 alone: of a wide type any number but 0.
fn expect_missed(alloc: Global, rows: &[(u32, u32, u64)]) -> Result<(), Surprise> {
    for (bits, at, most) in rows {
        let file = format!(in alloc;
            "fun main(x: u1, y: u{bits}): u8 = match x {{ 0 => match y {{ 0 => 5 }}, _ => 6 }};"
        )?;
        let did = call(alloc, "check E", file.as_bytes(), &[], &[])?;
        let front = format!(in alloc; "ribbit: match at byte {at} misses ")?;
        let number = number_of(did.err.as_slice(), front.as_str());
        if !matches!(number, Some(n) if 1 <= n && n <= *most) {
            another(alloc, file.as_str(), did.err.as_slice(), front.as_bytes())?;
        }
    }
    Ok(())
}

#[test]
fn a_number_that_is_missed(rt: HostRuntime) -> Result<(), Surprise> {
    expect_missed(rt.alloc(), &WIDE)
}

// A function on a number, with a clause for each number below a bound but one, and then a last clause. None is left
// out where that one is the bound itself.
fn function(
    alloc: Global,
    head: &str,
    below: u64,
    without: u64,
    last: &str,
) -> Result<Vec<u8>, AllocError> {
    let mut text = Vec::from_slice(alloc, head.as_bytes())?;
    text.extend_from_slice(b": u8 = match x { ")?;
    for n in 0..below {
        if n != without {
            let clause = format!(in alloc; "{n} => 0, ")?;
            text.extend_from_slice(clause.as_bytes())?;
        }
    }
    text.extend_from_slice(last.as_bytes())?;
    text.extend_from_slice(b" };")?;
    Ok(text)
}

// A bound, the number below it that has no clause (none where it is the bound), the last clause, and the answer.
const LONG: [(u64, u64, &str, &str); 3] = [
    (255, 255, "255 => 0", "0 ok;"),
    (
        254,
        254,
        "254 => 0",
        "2 ribbit: match at byte 22 misses 255;",
    ),
    (255, 77, "255 => 0", "2 ribbit: match at byte 22 misses 77;"),
];

// Looks what `check` answers to a `main` of each row.
fn expect_long(alloc: Global, rows: &[(u64, u64, &str, &str)]) -> Result<(), Surprise> {
    for (below, without, last, wanted) in rows {
        let text = function(alloc, "fun main(x: u8)", *below, *without, last)?;
        expect_answer(alloc, "check E", text.as_slice(), wanted)?;
    }
    Ok(())
}

#[test]
fn long_matches(rt: HostRuntime) -> Result<(), Surprise> {
    expect_long(rt.alloc(), &LONG)
}

// Two of forty clauses.
#[test]
fn two_long_matches(rt: HostRuntime) -> Result<(), Fail> {
    let alloc = rt.alloc();
    let mut text = function(alloc, "fun main(x: u64)", 39, 39, "_ => 0")?;
    let other = function(alloc, "fun f(x: u64)", 39, 39, "_ => 0")?;
    text.extend_from_slice(other.as_slice())?;
    expect_answer(alloc, "check E", text.as_slice(), "0 ok;")?;
    Ok(())
}
