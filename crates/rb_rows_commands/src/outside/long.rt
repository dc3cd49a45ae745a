//! Values of up to a million nodes, printed whole: texts of some megabytes. Each is spelled here too, a piece for each
//! number or level. Nodes, calls and bytes were counted by hand.

use crate::outside::call::{NOTHING_FAILS, Outside, alone, bounded_side, expect};
use rb_rows_calls::answers::Answer;
use rb_rows_calls::call::repeated_text;
use rb_rows_calls::surprise::Surprise;
use std::alloc::{AllocError, Global};

// A list, as it is.
const LIST: &str =
    "type List = Nil | Cons(u64, List); layout List <64> = split 0[0:1] { 1 => Nil : { word 64 { [0:1] = 1 } } 0 => Cons(_, _) : { word 64 { [0:1] = 0, [3:61] -> 8 { word 64 { [0:64] .0 }, inline .1 } } } };fun main(l: List): List = l;";

// The list of the numbers from 1 up to this one.
const UP: &str =
    "type List = Nil | Cons(u64, List); layout List <64> = split 0[0:1] { 1 => Nil : { word 64 { [0:1] = 1 } } 0 => Cons(_, _) : { word 64 { [0:1] = 0, [3:61] -> 8 { word 64 { [0:64] .0 }, inline .1 } } } };fun up(n: u64, l: List): List = match n { 0 => l, _ => up(sub(n, 1), Cons(n, l)) };fun main(n: u64): List = up(n, Nil);";

// A tree of so many levels whose halves are alike.
const TWIN: &str =
    "type Twin = Tip | Fork(Twin, Twin);layout Twin <64> = split 0[0:1] { 1 => Tip : { word 64 { [0:1] = 1 } } 0 => Fork(_, _) : { word 64 { [0:1] = 0, [3:61] -> 8 { inline .0, inline .1 } } } };fun grow(n: u64, t: Twin): Twin = match n { 0 => t, _ => grow(sub(n, 1), Fork(t, t)) };fun main(n: u64): Twin = grow(n, Tip);";

// Looks whether a value is printed, and nothing else.
fn expect_printed(alloc: Global, words: &str, file: &str, value: &str) -> Result<(), Surprise> {
    let line = format!(in alloc; "{value}\n")?;
    let outside = Outside {
        out: bounded_side(65_536, 8_388_608),
        ..NOTHING_FAILS
    };
    let wanted = Answer {
        status: 0,
        out: line.as_bytes(),
        err: b"",
        steps: None,
    };
    expect(alloc, words, alone(file.as_bytes()), outside, wanted)?;
    Ok(())
}

// The list of the numbers from 1 up to this one, with this between a number and the rest: a blank where it is
// printed, nothing in a word.
fn numbers(alloc: Global, between: &str, last: u64) -> Result<String, AllocError> {
    let mut front = String::new(alloc);
    for n in 0..last {
        let number = n.wrapping_add(1);
        let part = format!(in alloc; "Cons({number},{between}")?;
        front.push_str(part.as_str())?;
    }
    front.push_str("Nil")?;
    repeated_text(alloc, front.as_str(), ")", last as usize, "")
}

// 999,999 nodes, in as many calls and bytes as they take.
#[test]
fn a_list_that_is_built(rt: HostRuntime) -> Result<(), Surprise> {
    let alloc = rt.alloc();
    let value = numbers(alloc, " ", 499_999)?;
    expect_printed(alloc, "run E 500001 8000048 499999", UP, value.as_str())
}

// The same list, in as many bytes.
#[test]
fn a_list_that_is_given(rt: HostRuntime) -> Result<(), Surprise> {
    let alloc = rt.alloc();
    let word = numbers(alloc, "", 499_999)?;
    let value = numbers(alloc, " ", 499_999)?;
    let words = format!(in alloc; "run E 1 8000048 {word}")?;
    expect_printed(alloc, words.as_str(), LIST, value.as_str())
}

// Looks whether a tree of so many levels is printed whose halves are alike.
fn expect_twin(alloc: Global, levels: u64) -> Result<(), Surprise> {
    let words = format!(in alloc; "run E 40 1024 {levels}")?;
    let mut value = format!(in alloc; "Tip")?;
    for _ in 0..levels {
        value = format!(in alloc; "Fork({value}, {value})")?;
    }
    expect_printed(alloc, words.as_str(), TWIN, value.as_str())
}

// 511 and 524,287 nodes, in 128 and 288 bytes.
#[test]
fn trees_whose_halves_are_alike(rt: HostRuntime) -> Result<(), Surprise> {
    expect_twin(rt.alloc(), 8)?;
    expect_twin(rt.alloc(), 18)
}
