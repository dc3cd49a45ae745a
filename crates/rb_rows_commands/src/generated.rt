//! Generated files, and their runs. The smallest file is the rule of `gen`, written out by hand. Calls, switches and
//! bytes were counted by hand from the file: two calls, two switches and sixteen bytes for each number, and three calls
//! and two switches more. The words were worked out from the table of words, some numbers one past their bounds.

use rb_rows_calls::answers::{Answer, Faulty, expect_faulty};
use rb_rows_calls::call::{call, expect_answer};
use rb_rows_calls::counts::{CountRow, expect_count_rows};
use rb_rows_calls::rows::expect_words;
use rb_rows_calls::surprise::Surprise;
use std::alloc::Global;

// The file with one function.
const ONE: &[u8] = b"type List = Nil | Cons(u64, List);
layout List <64> = split 0[0:1] { 1 => Nil : { word 64 { [0:1] = 1 } } 0 => Cons(_, _) : { word 64 { [0:1] = 0, [3:61] -> 8 { word 64 { [0:64] .0 }, inline .1 } } } };
fun up(n: u64, l: List): List = match n { 0 => l, _ => up(sub(n, 1), Cons(n, l)) };
fun f0(l: List): u64 = match l { Nil => 0, Cons(x, r) => add(x, f0(r)) };
fun main(): u64 = f0(up(3000, Nil));
";

const WHOLE: [Faulty; 1] = [("gen 1", b"", &[], &[], GENERATED)];

// The file, and nothing else, in no steps.
const GENERATED: Answer = Answer {
    status: 0,
    out: ONE,
    err: b"",
    steps: Some(0),
};

#[test]
fn one_function(rt: HostRuntime) -> Result<(), Surprise> {
    expect_faulty(rt.alloc(), &WHOLE)
}

// The largest file is accepted, and its run gives what each gives.
const LARGEST: [(&str, &str); 2] = [("check E", "0 ok;"), ("run E 6003 48064", "0 4501500;")];

#[test]
fn many_functions(rt: HostRuntime) -> Result<(), Surprise> {
    let did = call(rt.alloc(), "gen 2000", b"", &[], &[])?;
    expect_words(rt.alloc(), did.out.as_slice(), &LARGEST)
}

const COUNTS: [CountRow; 2] = [
    ("", "genrun 1 6003 48064", BEFORE, 6002, BEHIND),
    ("", "genrun 3 6003 48064", BEFORE, 6002, BEHIND),
];

const BEFORE: &str = "value 4501500;calls 6003;";

const BEHIND: &str = "blocks 3000;bytes 48000;";

#[test]
fn runs_of_generated_files(rt: HostRuntime) -> Result<(), Surprise> {
    expect_count_rows(rt.alloc(), "", &COUNTS)
}

// A call too few, and a byte.
const SPENT: [(&str, &str); 2] = [
    ("genrun 3 6002 48064", "4 ribbit: calls spent: 6002;"),
    (
        "genrun 3 6003 48063",
        "5 ribbit: region full: next 48048, size 16, align 8, limit 48063;",
    ),
];

#[test]
fn runs_past_their_limits(rt: HostRuntime) -> Result<(), Surprise> {
    expect_words(rt.alloc(), b"", &SPENT)
}

// Words that are no command, and the number of the word at fault.
const WORDS: [(&str, u8); 16] = [
    ("gen", 2),
    ("gen 0", 2),
    ("gen 2001", 2),
    ("gen 01", 2),
    ("gen 1 2", 3),
    ("genrun", 2),
    ("genrun 0 1 64", 2),
    ("genrun 3", 3),
    ("genrun 3 1", 4),
    ("genrun 3 1000000001 64", 3),
    ("genrun 3 1 63", 4),
    ("genrun 3 1 64 5", 5),
    ("image", 2),
    ("image E", 3),
    ("count E 1", 4),
    ("count E 1 16777217", 4),
];

// Looks whether words are refused, each row's at the word with its number.
fn expect_usage(alloc: Global, rows: &[(&str, u8)]) -> Result<(), Surprise> {
    for (words, place) in rows {
        let wanted = format!(in alloc; "6 ribbit: usage at word {place};")?;
        expect_answer(alloc, words, b"", wanted.as_str())?;
    }
    Ok(())
}

#[test]
fn words_that_are_no_command(rt: HostRuntime) -> Result<(), Surprise> {
    expect_usage(rt.alloc(), &WORDS)
}

// A file that is not held.
const UNHELD: [(&str, &str); 2] = [
    ("image F 1 64", "7 ribbit: read fault;"),
    ("count F 1 64", "7 ribbit: read fault;"),
];

#[test]
fn files_that_are_not_held(rt: HostRuntime) -> Result<(), Surprise> {
    expect_words(rt.alloc(), b"", &UNHELD)
}

// What is answered where a read fails.
const UNREAD: Answer = Answer {
    status: 7,
    out: b"",
    err: b"ribbit: read fault
",
    steps: Some(0),
};

// What is answered where the first write fails.
const UNWRITTEN: Answer = Answer {
    status: 8,
    out: b"",
    err: b"ribbit: write fault
",
    steps: Some(0),
};

// Images and counts read their file, and a generated file is not read.
const READ: [Faulty; 4] = [
    ("image E 1 64", b"fun main(): u8 = 0;", &[1], &[], UNREAD),
    ("count E 1 64", b"fun main(): u8 = 0;", &[1], &[], UNREAD),
    ("gen 1", b"", &[0, 1, 2], &[], GENERATED),
    ("gen 1", b"", &[], &[0], UNWRITTEN),
];

#[test]
fn files_that_are_read(rt: HostRuntime) -> Result<(), Surprise> {
    expect_faulty(rt.alloc(), &READ)
}
