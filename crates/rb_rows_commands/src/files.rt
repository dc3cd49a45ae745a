//! Rows of files, with their answers worked out from the language's pages, and the bytes counted by
//! hand.

use rb_rows_calls::call::{expect_answer, repeated_text};
use rb_rows_calls::rows::{expect_lines, expect_rows};
use rb_rows_calls::surprise::Surprise;
use std::alloc::{AllocError, Global};
use std::test::Fail;

// Files that are refused, each with its answer to every command.
const REFUSED: &str = "~2 ribbit: no function main;\n\
fun main(x: u8,): u8 = x;~1 ribbit: syntax at byte 15;\n\
fun main(): u8 = add(1);~1 ribbit: syntax at byte 22;\n\
type Bit = Off | On; layout Bit <8> = split 0[0:1] { 0 => Off~1 ribbit: syntax at byte 61;\n\
fun main(): u8 = 0; layout~1 ribbit: syntax at byte 26;\n\
fun main(): u8 = 0~1 ribbit: syntax at byte 18;\n\
fun main(): u65 = 0;~1 ribbit: syntax at byte 12;\n\
fun Main(): u8 = 0;~1 ribbit: syntax at byte 4;\n\
fun main(): u8 = 0;;~1 ribbit: syntax at byte 19;\n\
type T = ; fun main(): u8 = 0;~1 ribbit: syntax at byte 9;\n\
type T = A(); fun main(): u8 = 0;~1 ribbit: syntax at byte 11;\n\
fun main(): u8 = match 0 { };~1 ribbit: syntax at byte 27;\n\
fun main(x: u64): u64 = add(x, 18446744073709551616);~1 ribbit: number over 64 bits at byte 31;\n\
fun main(): u8 = 0x;~1 ribbit: bad byte at byte 18;\n\
fun main(): u8 = #;~1 ribbit: bad byte at byte 17;\n\
layout T = boxed; fun main(): u8 = 0;~2 ribbit: unknown name T at byte 7;\n\
type T = A; layout T = packed; fun main(): u8 = y;~2 ribbit: unknown name y at byte 48;\n\
fun main(): u8 = 0; fun main(): u8 = 0;~2 ribbit: name main twice at byte 24;\n\
type T = A | A; fun main(): u8 = 0;~2 ribbit: name A twice at byte 13;\n\
type T = A; type T = B; fun main(): u8 = 0;~2 ribbit: name T twice at byte 17;\n\
type T = A; type U = A; fun main(): u8 = y;~2 ribbit: name A twice at byte 21;\n\
fun main(x: u8): u8 = y;~2 ribbit: unknown name y at byte 22;\n\
fun main(): u8 = f();~2 ribbit: unknown name f at byte 17;\n\
fun main(): T = 0;~2 ribbit: unknown name T at byte 12;\n\
fun main(): u8 = A;~2 ribbit: unknown name A at byte 17;\n\
fun main(x: u8): u8 = let y: u8 = y in x;~2 ribbit: unknown name y at byte 34;\n\
fun main(x: u8): u8 = match x { A => 1 };~2 ribbit: unknown name A at byte 32;\n\
fun other(): u8 = 0;~2 ribbit: no function main;\n\
fun other(): u8 = y;~2 ribbit: unknown name y at byte 18;\n\
fun f(): u8 = 256; fun main(): u8 = y;~2 ribbit: unknown name y at byte 36;\n\
type T = C(T); fun main(): u8 = 0;~2 ribbit: type T has no value;\n\
type T = C(T); fun main(): u8 = 256;~2 ribbit: type T has no value;\n\
type T = A | B(U); type U = C(U); fun main(): u8 = 0;~2 ribbit: type U has no value;\n\
fun main(x: u8): u16 = x;~2 ribbit: wanted u16, found u8 at byte 23;\n\
fun main(): u8 = 256;~2 ribbit: wanted u8, found u9 at byte 17;\n\
fun main(x: u8): u1 = eq(x, 256);~2 ribbit: wanted u8, found u9 at byte 28;\n\
type T = A(u8); fun main(): T = A(256);~2 ribbit: wanted u8, found u9 at byte 34;\n\
type T = A; fun main(x: T): u8 = x;~2 ribbit: wanted u8, found T at byte 33;\n\
type T = A; fun main(x: T): u8 = add(x, 1);~2 ribbit: wanted u8, found T at byte 37;\n\
type T = A; fun main(x: T): u1 = eq(x, x);~2 ribbit: wanted u64, found T at byte 36;\n\
type T = A; fun main(x: u8): u8 = match x { A => 1 };~2 ribbit: wanted u8, found T at byte 44;\n\
type T = A; fun main(x: T): u8 = match x { 0 => 1 };~2 ribbit: wanted T, found u1 at byte 43;\n\
fun main(x: u8): u8 = let y: u16 = x in 0;~2 ribbit: wanted u16, found u8 at byte 35;\n\
fun main(x: u8): u8 = match x { 0 => x, y => 256 };~2 ribbit: wanted u8, found u9 at byte 45;\n\
fun main(x: u8): u8 = main();~2 ribbit: wanted 1 arguments, found 0 at byte 22;\n\
type T = A(u8); fun main(): T = A;~2 ribbit: wanted 1 arguments, found 0 at byte 32;\n\
type T = A(u8); fun main(x: T): u8 = match x { A => 1 };~2 ribbit: wanted 1 arguments, found 0 at byte 47;\n\
type T = A(u8); layout T <8> = A : { word 8 { } }; fun main(): u8 = 0;~2 ribbit: wanted 1 arguments, found 0 at byte 31;\n\
type T = A; layout T <1> = A(_) : { word 1 { } }; fun main(): u8 = 0;~2 ribbit: wanted 0 arguments, found 1 at byte 27;\n\
type T = A; type U = B; layout T <1> = B : { word 1 { } }; fun main(): u8 = 0;~2 ribbit: wanted T, found U at byte 39;\n\
type T = A(u8); type U = B; layout T <8> = A(B) : { word 8 { } }; fun main(): u8 = 0;~2 ribbit: wanted u8, found U at byte 45;\n\
type T = A | B; layout T <1> = split 0[0:1] { 0 => A : { word 1 { } } else => B(_, _) : { word 1 { } } }; fun main(): u8 = 256;~2 ribbit: wanted 0 arguments, found 2 at byte 78;\n\
fun main(): u8 = 256; layout T <1> = A(_) : { word 1 { } }; type T = A;~2 ribbit: wanted 0 arguments, found 1 at byte 37;\n\
fun main(x: u8, x: u8): u8 = x;~2 ribbit: variable twice at byte 16;\n\
type T = A(u8, u8); fun main(x: T): u8 = match x { A(y, y) => y };~2 ribbit: variable twice at byte 56;\n\
fun f(x: u1): u8 = match x { 0 => 1 }; fun main(): u8 = 256;~2 ribbit: wanted u8, found u9 at byte 56;\n\
fun main(x: u1): u8 = match x { 0 => 5 };~2 ribbit: match at byte 22 misses 1;\n\
fun main(x: u2): u8 = match x { 0 => 1, 1 => 2, 3 => 4 };~2 ribbit: match at byte 22 misses 2;\n\
fun main(x: u1): u8 = match x { 0 => match x { 1 => 2 }, _ => 3 };~2 ribbit: match at byte 37 misses 0;\n\
type T = A | B; fun main(x: T): u8 = match x { A => 1 };~2 ribbit: match at byte 37 misses B;\n\
type C = R | K; type T = E | N(C, T); fun main(x: T): u8 = match x { E => 0, N(R, _) => 1, N(K, N(_, _)) => 2 };~2 ribbit: match at byte 59 misses N(K, E);\n\
type T = A; fun main(): u8 = 0;~3 ribbit: layout of T: A1: no layout;\n\
fun main(): u8 = 0; type T = A;~3 ribbit: layout of T: A1: no layout;";

// Files that are accepted, each with its answer to `check`.
const CHECKED: &str = "fun main(): u8 = 0;~0 ok;\n\
fun main(x: u1): u8 = match x { 0 => 5, 1 => 6 };~0 ok;\n\
fun main(x: u8): u8 = match x { _ => 5, 0 => 6 };~0 note: clause 1 of the match at byte 22 is never reached;ok;\n\
fun main(x: u8): u8 = match x { 0 => 1, 0 => 2, _ => 3, 4 => 5 };~0 note: clause 1 of the match at byte 22 is never reached;note: clause 3 of the match at byte 22 is never reached;ok;\n\
fun f(x: u1): u1 = match x { _ => 0, 1 => match x { _ => 1, _ => 0 } }; fun main(): u8 = 0;~0 note: clause 1 of the match at byte 19 is never reached;note: clause 1 of the match at byte 42 is never reached;ok;\n\
fun main(b: Bit): Bit = b; layout Bit <8> = split 0[0:1] { 0 => Off : { word 8 { [0:1] = 0 } } 1 => On : { word 8 { [0:1] = 1 } } }; type Bit = Off | On;~0 ok;";

// Files that are accepted, values, and the answer to `run`.
const RUN: [(&str, &str, &str); 5] = [
    ("fun main(): u8 = 7;", "", "0 7;"),
    ("fun main(x: u8): u8 = to u8(add(x, 1));", "255", "0 0;"),
    (
        "fun main(x: u1): u8 = match x { 0 => 5, 1 => 6 };",
        "1",
        "0 6;",
    ),
    ("  fun f(): u8 = 0; fun main(): u8 = 0;", "", "0 0;"),
    ("fun main(x: u8): u8 = let y: u8 = x in y;", "1", "0 1;"),
];

#[test]
fn files_refused_by_check(rt: HostRuntime) -> Result<(), Surprise> {
    expect_lines(rt.alloc(), "check E", REFUSED)
}

#[test]
fn files_refused_by_layout(rt: HostRuntime) -> Result<(), Surprise> {
    expect_lines(rt.alloc(), "layout E", REFUSED)
}

#[test]
fn files_refused_by_run(rt: HostRuntime) -> Result<(), Surprise> {
    expect_lines(rt.alloc(), "run E 9 64 x", REFUSED)
}

#[test]
fn checked_files(rt: HostRuntime) -> Result<(), Surprise> {
    expect_lines(rt.alloc(), "check E", CHECKED)
}

#[test]
fn run_files(rt: HostRuntime) -> Result<(), Surprise> {
    expect_rows(rt.alloc(), "run E 9 64 ", &RUN)
}

// File, words, and the answer: the words of `check`, and a file that begins with a comment.
const WORDS: [(&str, &str, &str); 4] = [
    ("", "check", "6 ribbit: usage at word 2;"),
    ("", "check E E", "6 ribbit: usage at word 3;"),
    ("", "check F", "7 ribbit: read fault;"),
    (
        "// fun\nfun main(): u8 = // 1\n y;",
        "check E",
        "2 ribbit: unknown name y at byte 30;",
    ),
];

#[test]
fn words_of_check(rt: HostRuntime) -> Result<(), Surprise> {
    expect_rows(rt.alloc(), "", &WORDS)
}

// Bytes that no string holds.
#[test]
fn bytes_of_no_string(rt: HostRuntime) -> Result<(), Surprise> {
    let wanted = "1 ribbit: bad byte at byte 17;";
    expect_answer(rt.alloc(), "check E", b"fun main(): u8 = \xFF;", wanted)
}

#[test]
fn a_file_over_the_limit(rt: HostRuntime) -> Result<(), Fail> {
    let blanks = vec![in rt.alloc(); b' '; 262_145]?;
    let wanted = "11 ribbit: limit file bytes: 262145 over 262144;";
    expect_answer(rt.alloc(), "check E", blanks.as_slice(), wanted)?;
    Ok(())
}

// How many conversions stand round the body of `main`, and the answer to `run`.
const NESTED: [(usize, &str); 2] = [
    (127, "0 7;"),
    (128, "11 ribbit: nesting over 128 at byte 790;"),
];

// Looks what `run` answers to each file of nested conversions.
fn expect_nested(alloc: Global, rows: &[(usize, &str)]) -> Result<(), Surprise> {
    for (times, wanted) in rows {
        let front = repeated_text(alloc, "fun main(x: u8): u8 = ", "to u8(", *times, "x")?;
        let file = repeated_text(alloc, front.as_str(), ")", *times, ";")?;
        expect_answer(alloc, "run E 9 64 7", file.as_bytes(), wanted)?;
    }
    Ok(())
}

#[test]
fn depths(rt: HostRuntime) -> Result<(), Surprise> {
    expect_nested(rt.alloc(), &NESTED)
}

// The text ends where a level too many would begin.
#[test]
fn a_text_that_ends_too_deep(rt: HostRuntime) -> Result<(), Surprise> {
    let alloc = rt.alloc();
    let file = repeated_text(alloc, "fun main(x: u8): u8 = ", "to u8(", 128, "")?;
    let wanted = "1 ribbit: syntax at byte 790;";
    expect_answer(alloc, "check E", file.as_bytes(), wanted)
}

// Declarations with the numbers from 0 on in them, and `main`.
fn declarations(
    alloc: Global,
    before: &str,
    between: &str,
    behind: &str,
    times: usize,
) -> Result<Vec<u8>, AllocError> {
    let mut text = Vec::new(alloc);
    for i in 0..times {
        let part = format!(in alloc; "{before}{i}{between}{i}{behind}")?;
        text.extend_from_slice(part.as_bytes())?;
    }
    text.extend_from_slice(b"fun main():u8=0;")?;
    Ok(text)
}

// What stands before a number, behind it, and behind the next; how many there are, and the answer.
const MANY: [(&str, &str, &str, usize, &str); 3] = [
    (
        "type T",
        "=C",
        ";",
        1000,
        "3 ribbit: layout of T0: A1: no layout;",
    ),
    (
        "type T",
        "=C",
        ";",
        1001,
        "11 ribbit: limit types: 1001 over 1000;",
    ),
    (
        "fun f",
        "():u64=",
        ";",
        10_000,
        "11 ribbit: limit functions: 10001 over 10000;",
    ),
];

// Looks what `check` answers to each file of many declarations.
fn expect_many(alloc: Global, rows: &[(&str, &str, &str, usize, &str)]) -> Result<(), Surprise> {
    for (before, between, behind, times, wanted) in rows {
        let file = declarations(alloc, before, between, behind, *times)?;
        expect_answer(alloc, "check E", file.as_slice(), wanted)?;
    }
    Ok(())
}

#[test]
fn limits_of_files(rt: HostRuntime) -> Result<(), Surprise> {
    expect_many(rt.alloc(), &MANY)
}

// What stands before, a part, how often it stands, what stands behind, and the answer.
const LONG: [(&str, &str, usize, &str, &str); 8] = [
    (
        "type T = A(u8",
        ", u8",
        31,
        "); fun main(): u8 = 0;",
        "3 ribbit: layout of T: A1: no layout;",
    ),
    (
        "type T = A(u8",
        ", u8",
        32,
        "); fun main(): u8 = 0;",
        "11 ribbit: limit fields: 33 over 32;",
    ),
    (
        "type T = A",
        " | B",
        255,
        "; fun main(): u8 = 0;",
        "2 ribbit: name B twice at byte 17;",
    ),
    (
        "type T = A",
        " | B",
        256,
        "; fun main(): u8 = 0;",
        "11 ribbit: limit constructors: 257 over 256;",
    ),
    (
        "fun main(x: u8",
        ", x: u8",
        31,
        "): u8 = 0;",
        "2 ribbit: variable twice at byte 16;",
    ),
    (
        "fun main(x: u8",
        ", x: u8",
        32,
        "): u8 = 0;",
        "11 ribbit: limit parameters: 33 over 32;",
    ),
    (
        "layout T <8",
        ", 8",
        7,
        "> = A : { word 8 { } };",
        "2 ribbit: unknown name T at byte 7;",
    ),
    (
        "layout T <8",
        ", 8",
        8,
        "> = A : { word 8 { } };",
        "11 ribbit: limit shape words: 9 over 8;",
    ),
];

// Looks what `check` answers to each file with a part that stands many times.
fn expect_long(alloc: Global, rows: &[(&str, &str, usize, &str, &str)]) -> Result<(), Surprise> {
    for (before, part, times, behind, wanted) in rows {
        let file = repeated_text(alloc, before, part, *times, behind)?;
        expect_answer(alloc, "check E", file.as_bytes(), wanted)?;
    }
    Ok(())
}

#[test]
fn limits_of_items(rt: HostRuntime) -> Result<(), Surprise> {
    expect_long(rt.alloc(), &LONG)
}
