//! The texts of compiled code: what they answer, and how many tests of a word they have and do. Worked out by
//! hand from the files.

use crate::counts::FOUR;
use crate::deep::{BY_COLOUR, COLOUR};
use crate::layouts::SUM;
use rb_bytes::checked::CheckedMemory;
use rb_edge::steps::{CountLedger, Steps};
use rb_machine::run::run;
use rb_rows_calls::call::{call, expect_answer};
use rb_rows_calls::counts::{expect_count_table, expect_counts};
use rb_rows_calls::surprise::{Surprise, another, no_row};
use rb_target::read::read_code;
use std::alloc::{AllocError, Global};
use std::str;
use std::test::Fail;

// The text of a file's code.
fn code_text(alloc: Global, file: &str) -> Result<Vec<u8>, Surprise> {
    let did = call(alloc, "compile E", file.as_bytes(), &[], &[])?;
    if did.status != 0 || did.steps != 0 {
        another(alloc, file, did.err.as_slice(), b"code")?;
    }
    Ok(did.out)
}

// A bit and a byte. The leaf tells the bit, which has no bits of its own.
const TOLD: &str =
    "type K = A | B;layout K <1> = split 0[0:1] { 0 => A : { word 1 { [0:1] = 0 } } 1 => B : { word 1 { [0:1] = 1 } } };type P = Tagged(K, u8);layout P <9> = split 0[0:1] { 0 => Tagged(A, _) : { word 9 { [0:1] = 0, [1:8] .1 } } 1 => Tagged(B, _) : { word 9 { [0:1] = 1, [1:8] .1 } } };fun main(p: P): u8 = match p { Tagged(A, 3) => 1, Tagged(B, 4) => 2, _ => 0 };";

// An entry or none, and a byte. The leaf tells whether there is an entry, and which bit it has.
const TOLD_INSIDE: &str =
    "type K = A | B;layout K <1> = split 0[0:1] { 0 => A : { word 1 { [0:1] = 0 } } 1 => B : { word 1 { [0:1] = 1 } } };type E = Off | On(K, u8);layout E <10> = split 0[0:1] { 0 => Off : { word 10 { [0:1] = 0 } } 1 => On(_, _) : { word 10 { [0:1] = 1, [1:1] .0, [2:8] .1 } } };type T = With(E, u8);layout T <18> = split 0[0:2] { 0 => With(Off, _) : { word 18 { [0:2] = 0, [2:8] .1 } } 1 => With(On(A, _), _) : { word 18 { [0:2] = 1, [2:8] .1, [10:8] .0.1 } } 2 => With(On(B, _), _) : { word 18 { [0:2] = 2, [2:8] .1, [10:8] .0.1 } } };fun main(t: T): u8 = match t { With(On(A, _), _) => 1, With(On(_, _), _) => 2, With(Off, y) => y };";

// The same where the leaf does not tell the bit: it has bits of its own, and the byte of the entry stands behind it.
const TOLD_ABOVE: &str =
    "type K = A | B;layout K <1> = split 0[0:1] { 0 => A : { word 1 { [0:1] = 0 } } 1 => B : { word 1 { [0:1] = 1 } } };type E = Off | On(K, u8);layout E <10> = split 0[0:1] { 0 => Off : { word 10 { [0:1] = 0 } } 1 => On(_, _) : { word 10 { [0:1] = 1, [1:1] .0, [2:8] .1 } } };type T = With(E, u8);layout T <18> = split 0[0:1] { 0 => With(Off, _) : { word 18 { [0:1] = 0, [2:8] .1 } } 1 => With(On(_, _), _) : { word 18 { [0:1] = 1, [1:1] .0.0, [2:8] .1, [10:8] .0.1 } } };fun main(t: T): u8 = match t { With(On(A, 3), y) => y, With(On(_, _), _) => 1, With(Off, y) => y };";

// An entry in an entry, of which the leaf tells both, and no bit; where the first one is off, it takes nothing apart.
const TOLD_TWICE: &str =
    "type K = A | B;layout K <1> = split 0[0:1] { 0 => A : { word 1 { [0:1] = 0 } } 1 => B : { word 1 { [0:1] = 1 } } };type E = Off | On(K, u8);layout E <10> = split 0[0:1] { 0 => Off : { word 10 { [0:1] = 0 } } 1 => On(_, _) : { word 10 { [0:1] = 1, [1:1] .0, [2:8] .1 } } };type F = Out | In(u8, E);layout F <19> = split 0[0:1] { 0 => Out : { word 19 { [0:1] = 0 } } 1 => In(_, _) : { word 19 { [0:1] = 1, [1:8] .0, [9:10] .1 } } };type T = With(F, u8);layout T <29> = split 0[0:2] { 0 => With(Out, _) : { word 29 { [0:2] = 0, [2:8] .1 } } 1 => With(In(_, Off), _) : { word 29 { [0:2] = 1, [2:8] .1, [10:8] .0.0 } } 2 => With(In(_, On(_, _)), _) : { word 29 { [0:2] = 2, [2:8] .1, [10:8] .0.0, [18:1] .0.1.0, [19:8] .0.1.1 } } };fun main(t: T): u8 = match t { With(In(_, On(B, 5)), _) => 1, With(In(7, Off), _) => 2, With(In(_, On(A, _)), y) => y, _ => 4 };";

// An entry that has two leaves, of which the pair's leaf tells one. The byte of the entry it does not tell.
const OPENED: &str =
    "type K = A | B;layout K <1> = split 0[0:1] { 0 => A : { word 1 { [0:1] = 0 } } 1 => B : { word 1 { [0:1] = 1 } } };type E = Off | On(u8, K);layout E <10> = split 0[0:2] { 0 => Off : { word 10 { [0:2] = 0 } } 1 => On(_, A) : { word 10 { [0:2] = 1, [2:8] .0 } } 2 => On(_, B) : { word 10 { [0:2] = 2, [2:8] .0 } } };type T = With(E, u8);layout T <18> = split 0[0:2] { 0 => With(Off, _) : { word 18 { [0:2] = 0, [2:8] .1 } } 1 => With(On(_, A), _) : { word 18 { [0:2] = 1, [2:8] .0.0, [10:8] .1 } } 2 => With(On(_, B), _) : { word 18 { [0:2] = 2, [2:8] .1, [10:8] .0.0 } } };fun main(t: T): u8 = match t { With(On(3, _), y) => y, With(On(_, _), _) => 1, With(Off, y) => y };";

// An entry that each of two leaves of a pair tells, whose fields stand elsewhere in each.
const MET: &str =
    "type K = A | B;layout K <1> = split 0[0:1] { 0 => A : { word 1 { [0:1] = 0 } } 1 => B : { word 1 { [0:1] = 1 } } };type E = Off | On(K, u8);layout E <10> = split 0[0:1] { 0 => Off : { word 10 { [0:1] = 0 } } 1 => On(_, _) : { word 10 { [0:1] = 1, [1:1] .0, [2:8] .1 } } };type T = With(E, K);layout T <11> = split 0[0:2] { 0 => With(Off, _) : { word 11 { [0:2] = 0, [2:1] .1 } } 1 => With(On(_, _), A) : { word 11 { [0:2] = 1, [2:1] .0.0, [3:8] .0.1 } } 2 => With(On(_, _), B) : { word 11 { [0:2] = 2, [2:8] .0.1, [10:1] .0.0 } } };fun main(t: T): u8 = match t { With(On(A, 3), _) => 1, With(Off, A) => 2, _ => 3 };";

// Constructions of such a pair. The file shows the bit in the first, and none of it in the second.
const SHOWN: &str =
    "type K = A | B;layout K <1> = split 0[0:1] { 0 => A : { word 1 { [0:1] = 0 } } 1 => B : { word 1 { [0:1] = 1 } } };type P = Tagged(K, u8);layout P <9> = split 0[0:1] { 0 => Tagged(A, _) : { word 9 { [0:1] = 0, [1:8] .1 } } 1 => Tagged(B, _) : { word 9 { [0:1] = 1, [1:8] .1 } } };fun main(x: u8): P = Tagged(B, x);";

const UNSHOWN: &str =
    "type K = A | B;layout K <1> = split 0[0:1] { 0 => A : { word 1 { [0:1] = 0 } } 1 => B : { word 1 { [0:1] = 1 } } };type P = Tagged(K, u8);layout P <9> = split 0[0:1] { 0 => Tagged(A, _) : { word 9 { [0:1] = 0, [1:8] .1 } } 1 => Tagged(B, _) : { word 9 { [0:1] = 1, [1:8] .1 } } };fun main(k: K, x: u8): P = Tagged(k, x);";

// File, words and answer. The text of compiled code runs as the file does. The word 1 is the empty list; the word of
// a bit and a byte is twice the byte, and 1 for B.
const RUN: [(&str, &str, &str); 5] = [
    ("fun main(x: u8): u8 = add(x, 1);", "1 64 255", "0 0;"),
    (SUM, "2 64 1", "0 0;"),
    (SHOWN, "1 64 4", "0 9;"),
    (UNSHOWN, "1 64 1 4", "0 9;"),
    (UNSHOWN, "1 64 0 4", "0 8;"),
];

// Looks whether `exec`, run on the code of each row's file with the row's words, gives the row's
// answer; another one is a surprise.
fn expect_run(alloc: Global, rows: &[(&str, &str, &str)]) -> Result<(), Surprise> {
    for (file, words, wanted) in rows {
        let code = code_text(alloc, file)?;
        let words = format!(in alloc; "exec E main {words}")?;
        expect_answer(alloc, words.as_str(), code.as_slice(), wanted)?;
    }
    Ok(())
}

#[test]
fn code_texts_run(rt: HostRuntime) -> Result<(), Surprise> {
    expect_run(rt.alloc(), &RUN)
}

// A bit in a word of its own.
const WHOLE: &str =
    "type K = A | B;layout K <1> = split 0[0:1] { 0 => A : { word 1 { [0:1] = 0 } } 1 => B : { word 1 { [0:1] = 1 } } };fun main(k: K): u8 = match k { A => 1, B => 2 };";

// A bit beside a byte, in one word.
const INNER: &str =
    "type K = A | B;layout K <1> = split 0[0:1] { 0 => A : { word 1 { [0:1] = 0 } } 1 => B : { word 1 { [0:1] = 1 } } };type P = Pair(K, u8);layout P <9> = Pair(_, _) : { word 9 { [0:1] .0, [1:8] .1 } };fun main(p: P): u8 = match p { Pair(A, _) => 1, Pair(B, _) => 2 };";

// A number in a block, which the body does not use.
const UNUSED: &str =
    "type List = Nil | Cons(u64, List);layout List <64> = split 0[0:1] { 1 => Nil : { word 64 { [0:1] = 1 } } 0 => Cons(_, _) : { word 64 { [0:1] = 0, [3:61] -> 8 { word 64 { [0:64] .0 }, inline .1 } } } };fun main(l: List): u64 = match l { Nil => 0, Cons(x, rest) => 1 };";

// The same, which it uses.
const USED: &str =
    "type List = Nil | Cons(u64, List);layout List <64> = split 0[0:1] { 1 => Nil : { word 64 { [0:1] = 1 } } 0 => Cons(_, _) : { word 64 { [0:1] = 0, [3:61] -> 8 { word 64 { [0:64] .0 }, inline .1 } } } };fun main(l: List): u64 = match l { Nil => 0, Cons(x, rest) => x };";

// A tail that is tested, and a number behind it.
const TESTED: &str =
    "type List = Nil | Cons(u64, List);layout List <64> = split 0[0:1] { 1 => Nil : { word 64 { [0:1] = 1 } } 0 => Cons(_, _) : { word 64 { [0:1] = 0, [3:61] -> 8 { word 64 { [0:64] .0 }, inline .1 } } } };fun main(l: List): u64 = match l { Cons(x, Cons(y, rest)) => x, _ => 0 };";

// Matches whose values are the function's result.
const RESULTS: &str =
    "fun main(x: u8): u8 = let y: u8 = add(x, 1) in match y { 0 => 7, _ => match x { 3 => y, _ => 8 } };";

// A match in an operand.
const OPERAND: &str = "fun main(x: u8): u8 = add(match x { 0 => 7, _ => x }, 1);";

// How many lines of a code text begin so.
fn lines_with(code: &[u8], start: &str) -> usize {
    let Ok(text) = str::from_utf8(code) else {
        return usize::MAX;
    };
    let mut count = 0usize;
    for line in text.split('\n') {
        if line.strip_prefix(start).is_some() {
            count = count.wrapping_add(1);
        }
    }
    count
}

// The start of a line, and how many lines begin so, at least and at most, as they stand in a row.
fn bounds_of(row: &str) -> Option<(&str, usize, usize)> {
    let (start, rest) = row.split_once('~')?;
    let (least, most) = rest.split_once('~')?;
    Some((start, least.parse().ok()?, most.parse().ok()?))
}

// Looks whether a code has at least and at most as many lines that begin with the row's text as the row says; another
// number is a surprise.
fn expect_row(alloc: Global, code: &[u8], row: &str) -> Result<(), Surprise> {
    let Some((start, least, most)) = bounds_of(row) else {
        return no_row(alloc, row);
    };
    let count = lines_with(code, start);
    if least <= count && count <= most {
        return Ok(());
    }
    another(alloc, row, code, start.as_bytes())
}

// Looks at each line of a table so, over the code of one file.
fn expect_code_lines(alloc: Global, file: &str, table: &str) -> Result<(), Surprise> {
    let code = code_text(alloc, file)?;
    for row in table.split('\n') {
        expect_row(alloc, code.as_slice(), row)?;
    }
    Ok(())
}

// For each file the start of a line, and how many lines of the file's code begin so, at least and at most.
// Arms, and tests of numbers.
fn expect_results(alloc: Global) -> Result<(), Surprise> {
    // an arm whose value is the function's result returns it
    expect_code_lines(alloc, SUM, "return ~3~3\ncopy ~0~0\njump ~0~0")?;
    expect_code_lines(alloc, RESULTS, "return ~3~3\ncopy ~0~0\njump ~0~0")?;
    // the arms of a match in an operand leave theirs in one slot, one as a number and one copied, and go on behind it,
    // where the last one ends
    expect_code_lines(alloc, OPERAND, "return ~1~1\ncopy ~1~1\njump ~1~1")?;
    // four tests of a field, each once: as a tree they were six
    expect_code_lines(alloc, FOUR, "switch ~0~4")
}

// Leaves that tell what stands in them.
fn expect_leaves(alloc: Global) -> Result<(), Surprise> {
    // one switch finds the leaf, and each way has one for its byte: the bit is tested by none
    expect_code_lines(alloc, TOLD, "switch ~3~3")?;
    // one switch finds the leaf, which tells an entry and its bit: neither is tested
    expect_code_lines(alloc, TOLD_INSIDE, "switch ~1~1")?;
    // one finds the leaf, which tells an entry, and each of the bit and the byte below it has one; they are read from
    // the pair, so that no entry is put together
    expect_code_lines(alloc, TOLD_ABOVE, "switch ~3~3\nput ~0~0")?;
    // one finds the leaf; behind it the bit and the byte have one each, and the number of the other way one
    expect_code_lines(alloc, TOLD_TWICE, "switch ~4~4\nput ~0~0")?;
    // one finds the leaf, for two ways of which the byte has one; where it is bound, one finds the leaf again. No entry
    // is put together
    expect_code_lines(alloc, OPENED, "switch ~3~3\nput ~0~0")?;
    // one finds the leaf, and each field has one
    expect_code_lines(alloc, MET, "switch ~4~4")
}

// Constructors that the file shows, and colours.
fn expect_shown(alloc: Global) -> Result<(), Surprise> {
    // a constructor that the file shows is not looked at, and a variable's is, once
    expect_code_lines(alloc, SHOWN, "switch ~0~0")?;
    expect_code_lines(alloc, UNSHOWN, "switch ~1~1")?;
    // one switch tells the match whether the tree is empty; the color is the bit that tells a node's leaf, so that both
    // ways return that bit, and no switch tells them apart
    expect_code_lines(
        alloc,
        COLOUR,
        "switch ~1~1\njump ~0~0\nconst ~1~1\nreturn ~2~2",
    )?;
    // the match tells all three leaves apart, and a red node's number is where the leaf of red nodes has it
    expect_code_lines(alloc, BY_COLOUR, "switch ~2~2")
}

// What is read of words and blocks.
fn expect_reads(alloc: Global) -> Result<(), Surprise> {
    // a number in a block is loaded where the body uses it, and a tail where it is tested
    expect_code_lines(alloc, UNUSED, "load ~0~0")?;
    expect_code_lines(alloc, USED, "load ~1~1")?;
    // the address of the block of which both are loaded is made once
    expect_code_lines(alloc, TESTED, "load ~2~2\nalu ~1~1")?;
    // where the file shows what stands in an argument there is none; where it does not, one finds its leaf, which tells
    // its bit
    expect_code_lines(alloc, SHOWN_INSIDE, "switch ~1~1")?;
    // a word that is tested in all its bits is tested as it is
    expect_code_lines(alloc, WHOLE, "take ~0~0")?;
    // bits of a field are taken from the word in which the field stands
    expect_code_lines(alloc, INNER, "take ~1~1")
}

#[test]
fn lines_of_code(rt: HostRuntime) -> Result<(), Surprise> {
    let alloc = rt.alloc();
    expect_results(alloc)?;
    expect_leaves(alloc)?;
    expect_shown(alloc)?;
    expect_reads(alloc)
}

// The text does as many switches as `count` says. B in the second and fourth place is the word 10.
#[test]
fn the_text_does_as_many(rt: HostRuntime) -> Result<(), Fail> {
    let alloc = rt.alloc();
    let code = code_text(alloc, FOUR)?;
    let code = read_code(alloc, code.as_slice())?;
    let mut memory = CheckedMemory::new(alloc, 64)?;
    let mut steps = Steps::new(CountLedger { count: 0 });
    if let Some(fun) = code.funs().get(0)
        && fun.params == 1
    {
        let ran = run(alloc, &code, 0, &[10], &mut memory, 1, &mut steps)?;
        let switches = ran.switches;
        let wanted = format!(in alloc; "0 value 3;calls 1;switches {switches};blocks 0;bytes 0;")?;
        let words = "count E 1 64 Q4(A,B,A,B)";
        expect_answer(alloc, words, FOUR.as_bytes(), wanted.as_str())?;
    } else {
        panic!(rt; "another function");
    }
    Ok(())
}

// Two switches for each pair, and one for each entry.
const TOLD_COUNTS: &str = "Tagged(A,3)~value 1;calls 1;~2~blocks 0;bytes 0;
Tagged(A,4)~value 0;calls 1;~2~blocks 0;bytes 0;
Tagged(B,4)~value 2;calls 1;~2~blocks 0;bytes 0;
Tagged(B,3)~value 0;calls 1;~2~blocks 0;bytes 0;";

const TOLD_INSIDE_COUNTS: &str = "With(On(A,3),9)~value 1;calls 1;~1~blocks 0;bytes 0;
With(On(B,3),9)~value 2;calls 1;~1~blocks 0;bytes 0;
With(Off,9)~value 9;calls 1;~1~blocks 0;bytes 0;";

const TOLD_ABOVE_COUNTS: &str = "With(On(A,3),9)~value 9;calls 1;~3~blocks 0;bytes 0;
With(On(A,4),9)~value 1;calls 1;~3~blocks 0;bytes 0;
With(On(B,3),9)~value 1;calls 1;~2~blocks 0;bytes 0;
With(Off,9)~value 9;calls 1;~1~blocks 0;bytes 0;";

const TOLD_TWICE_COUNTS: &str = "With(In(7,On(B,5)),9)~value 1;calls 1;~3~blocks 0;bytes 0;
With(In(7,On(B,6)),9)~value 4;calls 1;~3~blocks 0;bytes 0;
With(In(7,On(A,5)),9)~value 9;calls 1;~2~blocks 0;bytes 0;
With(In(7,Off),9)~value 2;calls 1;~2~blocks 0;bytes 0;
With(Out,9)~value 4;calls 1;~1~blocks 0;bytes 0;";

const OPENED_COUNTS: &str = "With(On(3,A),9)~value 9;calls 1;~3~blocks 0;bytes 0;
With(On(3,B),9)~value 9;calls 1;~3~blocks 0;bytes 0;
With(On(4,B),9)~value 1;calls 1;~2~blocks 0;bytes 0;
With(Off,9)~value 9;calls 1;~1~blocks 0;bytes 0;";

const MET_COUNTS: &str = "With(On(A,3),A)~value 1;calls 1;~3~blocks 0;bytes 0;
With(On(A,3),B)~value 1;calls 1;~3~blocks 0;bytes 0;
With(On(B,3),B)~value 3;calls 1;~2~blocks 0;bytes 0;
With(Off,A)~value 2;calls 1;~2~blocks 0;bytes 0;";

// No block is made.
const BEHIND: &str = "blocks 0;bytes 0;";

#[test]
fn a_leaf_decides_a_test(rt: HostRuntime) -> Result<(), Surprise> {
    let alloc = rt.alloc();
    expect_count_table(alloc, TOLD, "count E 1 64 ", TOLD_COUNTS)?;
    expect_count_table(alloc, TOLD_INSIDE, "count E 1 64 ", TOLD_INSIDE_COUNTS)?;
    expect_count_table(alloc, TOLD_ABOVE, "count E 1 64 ", TOLD_ABOVE_COUNTS)?;
    expect_count_table(alloc, TOLD_TWICE, "count E 1 64 ", TOLD_TWICE_COUNTS)?;
    expect_count_table(alloc, OPENED, "count E 1 64 ", OPENED_COUNTS)?;
    expect_count_table(alloc, MET, "count E 1 64 ", MET_COUNTS)
}

// One switch tells whether a tree is empty; a node's color takes none, and its number one more, which tells its leaf.
const COLOUR_COUNTS: &str = "Node(Red,Empty,7,Empty)~value Red;calls 1;~1~blocks 1;bytes 12;
Node(Black,Empty,7,Empty)~value Black;calls 1;~1~blocks 1;bytes 12;
Empty~value Black;calls 1;~1~blocks 0;bytes 0;";

const BY_COLOUR_COUNTS: &str = "Node(Red,Empty,7,Empty)~value 7;calls 1;~2~blocks 1;bytes 12;
Node(Black,Empty,7,Empty)~value 2;calls 1;~2~blocks 1;bytes 12;
Empty~value 1;calls 1;~1~blocks 0;bytes 0;";

// The block of the argument.
#[test]
fn leaves_are_told_apart_once(rt: HostRuntime) -> Result<(), Surprise> {
    let alloc = rt.alloc();
    expect_count_table(alloc, COLOUR, "count E 1 76 ", COLOUR_COUNTS)?;
    expect_count_table(alloc, BY_COLOUR, "count E 1 76 ", BY_COLOUR_COUNTS)
}

// Pairs of such a pair and a byte: the bit inside tells the leaf, and has no bits of its own.
const SHOWN_INSIDE: &str =
    "type K = A | B;layout K <1> = split 0[0:1] { 0 => A : { word 1 { [0:1] = 0 } } 1 => B : { word 1 { [0:1] = 1 } } };type P = Tagged(K, u8);layout P <9> = split 0[0:1] { 0 => Tagged(A, _) : { word 9 { [0:1] = 0, [1:8] .1 } } 1 => Tagged(B, _) : { word 9 { [0:1] = 1, [1:8] .1 } } };type D = With(P, u8);layout D <17> = split 0[0:1] { 0 => With(Tagged(A, _), _) : { word 17 { [0:1] = 0, [1:8] .0.1, [9:8] .1 } } 1 => With(Tagged(B, _), _) : { word 17 { [0:1] = 1, [1:8] .1, [9:8] .0.1 } } };fun shown(x: u8, y: u8): D = With(Tagged(B, x), y);fun main(p: P, y: u8): D = With(p, y);";

// Where the file shows the pair and its bit, there is no switch. Where it does not, one finds the leaf of the pair,
// which tells its bit. The byte inside stands from bit 9 for B, and from bit 1 for A.
#[test]
fn a_shown_argument_shows_its_own(rt: HostRuntime) -> Result<(), Surprise> {
    let alloc = rt.alloc();
    let code = code_text(alloc, SHOWN_INSIDE)?;
    let code = code.as_slice();
    expect_answer(alloc, "exec E shown 1 64 4 3", code, "0 2055;")?;
    expect_answer(alloc, "exec E main 1 64 9 3", code, "0 2055;")?;
    expect_answer(alloc, "exec E main 1 64 8 3", code, "0 1544;")
}

// A match that names 300 numbers.
fn three_hundred(alloc: Global) -> Result<String, AllocError> {
    let mut file = format!(in alloc; "fun main(x: u16): u16 = match x {{ ")?;
    for n in 0..300 as u64 {
        let clause = format!(in alloc; "{n} => {n}, ")?;
        file.push_str(clause.as_str())?;
    }
    file.push_str("_ => 7 };")?;
    Ok(file)
}

#[test]
fn one_switch_for_all_numbers(rt: HostRuntime) -> Result<(), Fail> {
    let alloc = rt.alloc();
    let file = three_hundred(alloc)?;
    let text = file.as_str();
    expect_code_lines(alloc, text, "switch ~1~1")?;
    let named = "value 299;calls 1;";
    expect_counts(alloc, "count E 1 64 299", text.as_bytes(), named, 1, BEHIND)?;
    let other = "value 7;calls 1;";
    expect_counts(alloc, "count E 1 64 300", text.as_bytes(), other, 1, BEHIND)?;
    Ok(())
}
