//! Rows of the command `exec`. The answers were worked out from the table of instructions, outside the
//! program.

use rb_rows_calls::call::{call, expect_answer, lines};
use rb_rows_calls::surprise::{Surprise, another, no_row};
use std::alloc::Global;
use std::test::Fail;

// Looks at what `exec` answers to the words behind it: its status, its steps, and what it wrote, with a `;` where a
// line ends.
fn expect_code(alloc: Global, code: &str, words: &str, wanted: &str) -> Result<(), Surprise> {
    let text = lines(alloc, code)?;
    let words = format!(in alloc; "exec {words}")?;
    let did = call(alloc, words.as_str(), text.as_slice(), &[], &[])?;
    let status = did.status;
    let steps = did.steps;
    let mut answer = Vec::from_slice(alloc, format!(in alloc; "{status} {steps} ")?.as_bytes())?;
    answer.extend_from_slice(did.out.as_slice())?;
    answer.extend_from_slice(did.err.as_slice())?;
    let wanted = lines(alloc, wanted)?;
    if answer.as_slice() == wanted.as_slice() {
        return Ok(());
    }
    another(alloc, words.as_str(), answer.as_slice(), wanted.as_slice())
}

// Looks at a row: a code, words, and an answer.
fn expect_row(alloc: Global, row: &str) -> Result<(), Surprise> {
    if let Some((code, rest)) = row.split_once('|')
        && let Some((words, wanted)) = rest.split_once('|')
    {
        return expect_code(alloc, code, words, wanted);
    }
    no_row(alloc, row)
}

// Looks at each line of a table.
fn expect_codes(alloc: Global, rows: &str) -> Result<(), Surprise> {
    for row in rows.split('\n') {
        expect_row(alloc, row)?;
    }
    Ok(())
}

// Words that are no command, and files that are not read.
const REFUSED_WORDS: &str = "||6 0 ribbit: usage at word 2;\n\
|E|6 0 ribbit: usage at word 3;\n\
|E t|6 0 ribbit: usage at word 4;\n\
|E t 1|6 0 ribbit: usage at word 5;\n\
|E t 1000000001 64|6 0 ribbit: usage at word 4;\n\
|E t 1 63|6 0 ribbit: usage at word 5;\n\
|E t 1 16777217|6 0 ribbit: usage at word 5;\n\
|E t 1 64 5 05|6 0 ribbit: usage at word 7;\n\
|E t 1 64 18446744073709551616|6 0 ribbit: usage at word 6;\n\
|F t 1 64|7 0 ribbit: read fault;";

// Codes that are refused, functions that aren't there, and ends without words.
const REFUSED_CODES: &str = "|E t 1 64|10 0 ribbit: no function t;\n\
fun u 0 0 0;return;end;|E t 1 64|10 0 ribbit: no function t;\n\
fun t 1 1 1;return 0;end;|E t 1 64|10 0 ribbit: wanted 1 arguments, found 0;\n\
fun t 1 1 1;return 0;end;|E t 0 64 1 2|10 0 ribbit: wanted 1 arguments, found 2;\n\
fun t 0 0 0;return;en|E t 1 64|14 0 ribbit: code 20 at byte 21;\n\
fun t 0 0 0;return;end|E t 1 64|14 0 ribbit: code 20 at byte 22;\n\
fun t 0 0 0;alu add 65 0 0 0;return;end;|E t 1 64|14 0 ribbit: code 20 at byte 21;\n\
fun t 00 0 0;return;end;|E t 1 64|14 0 ribbit: code 20 at byte 7;\n\
fun T 0 0 0;return;end;|E T 1 64|14 0 ribbit: code 20 at byte 4;\n\
fun t 1 1 1;return 1;end;|E t 1 64|14 0 ribbit: code 21: function 0, instruction 0;\n\
fun t 1 0 0;return;end;|E t 1 64 5|14 0 ribbit: code 21: function 0, instruction 0;\n\
fun t 0 0 1;return;end;|E t 1 64|14 0 ribbit: code 21: function 0, instruction 0;\n\
fun t 0 0 0;return 0;end;|E t 1 64|14 0 ribbit: code 21: function 0, instruction 0;\n\
fun t 0 0 1;const 0 1;const 1 1;end;|E t 1 64|14 0 ribbit: code 21: function 0, instruction 1;\n\
fun t 0 0 0;jump 0;return;end;|E t 1 64|14 0 ribbit: code 22: function 0, instruction 0;\n\
fun t 0 0 0;jump 2;return;end;|E t 1 64|14 0 ribbit: code 22: function 0, instruction 0;\n\
fun t 1 0 1;switch 0 - 3 1 4 0;return;end;|E t 1 64 5|14 0 ribbit: code 22: function 0, instruction 0;\n\
fun t 0 0 0;end;|E t 1 64|14 0 ribbit: code 22: function 0, instruction 0;\n\
fun t 0 0 0;return;jump 1;end;|E t 1 64|14 0 ribbit: code 22: function 0, instruction 1;\n\
fun t 0 0 0;call 1 of;return;end;|E t 1 64|14 0 ribbit: code 23: function 0, instruction 0;\n\
fun t 0 0 0;return;end;fun u 0 1 1;call 0 0 of;return;end;|E t 1 64|14 0 ribbit: code 23: function 1, instruction 0;\n\
fun t 0 0 0;return;end;fun u 0 0 0;return;jump 0;end;|E t 1 64|14 0 ribbit: code 22: function 1, instruction 1;\n\
fun t 0 0 0;call 0 of;return;end;|E t 1000000 64|4 1000000 ribbit: calls spent: 1000000;\n\
fun t 0 0 0;return;end;|E t 0 64|4 0 ribbit: calls spent: 0;\n\
fun t 0 0 2;place 0 16 8;place 1 16 64;return;end;|E t 1 95|5 2 ribbit: region full: next 80, size 16, align 64, limit 95;\n\
fun t 0 1 2;const 1 1;place 0 16 8;alu add 64 0 0 1;load 1 0 0 64;return 1;end;|E t 1 1024|12 4 ribbit: trap 30: base 65, offset 0;\n\
fun t 0 1 2;place 0 16 8;load 1 0 8 64;return 1;end;|E t 1 1024|12 2 ribbit: trap 31: address 72;\n\
fun t 1 1 1;switch 0 - 3 1;return 0;end;|E t 1 64 5|12 1 ribbit: trap 32: word 5;";

// Each instruction, at its bounds.
const RUNS: &str = "fun t 0 0 0;return;end;|E t 1 64|0 1 ;\n\
fun match 0 0 0;return;end;|E match 1 64|0 1 ;\n\
fun t 0 1 1;const 0 1;return 0;end;fun t 0 1 1;const 0 2;return 0;end;|E t 1 64|0 2 1;\n\
fun t 0 1 1;const 0 18446744073709551615;return 0;end;|E t 1 64|0 2 18446744073709551615;\n\
fun t 2 3 3;copy 2 0;return 2 1 0;end;|E t 1 64 18446744073709551615 8|0 2 18446744073709551615 8 18446744073709551615;\n\
fun t 2 2 4;alu add 1 2 0 1;alu add 64 3 0 1;return 2 3;end;|E t 1 64 18446744073709551615 3|0 3 0 2;\n\
fun t 2 2 4;alu sub 1 2 0 1;alu sub 64 3 0 1;return 2 3;end;|E t 1 64 2 3|0 3 1 18446744073709551615;\n\
fun t 2 2 4;alu mul 1 2 0 1;alu mul 64 3 0 1;return 2 3;end;|E t 1 64 4294967297 4294967297|0 3 1 8589934593;\n\
fun t 2 2 4;alu and 1 2 0 1;alu and 64 3 0 1;return 2 3;end;|E t 1 64 12 10|0 3 0 8;\n\
fun t 2 2 4;alu or 1 2 0 1;alu or 64 3 0 1;return 2 3;end;|E t 1 64 12 11|0 3 1 15;\n\
fun t 2 2 4;alu xor 1 2 0 1;alu xor 64 3 0 1;return 2 3;end;|E t 1 64 12 11|0 3 1 7;\n\
fun t 2 2 4;alu eq 1 2 0 1;alu eq 64 3 0 0;return 2 3;end;|E t 1 64 3 1|0 3 0 1;\n\
fun t 2 2 4;alu lt 1 2 0 1;alu lt 64 3 1 0;return 2 3;end;|E t 1 64 3 2|0 3 0 1;\n\
fun t 1 3 4;take 1 0 0 64;take 2 0 63 1;take 3 0 4 8;return 1 2 3;end;|E t 1 64 9223372036854778544|0 4 9223372036854778544 1 171;\n\
fun t 2 3 4;put 2 0 0 64;put 3 0 63 1;put 1 0 4 8;return 2 3 1;end;|E t 1 64 257 65535|0 4 257 9223372036854775808 61471;\n\
fun t 1 4 6;place 1 512 64;store 1 511 8 0;store 1 0 16 0;store 1 2 32 0;store 1 8 64 0;load 2 1 511 8;load 3 1 0 16;load 4 1 2 32;load 5 1 8 64;return 2 3 4 5;end;|E t 1 576 18446744073709486066|0 10 242 65522 4294901746 18446744073709486066;\n\
fun t 0 2 2;place 0 1 1;place 1 512 64;return 0 1;end;|E t 1 640|0 3 64 128;\n\
fun t 0 1 1;jump 2;const 0 1;return 0;end;|E t 1 64|0 2 0;\n\
fun t 1 1 1;switch 0 - 3 1;return 0;end;|E t 1 64 3|0 2 3;\n\
fun t 1 1 2;switch 0 1 3 2 3 3;const 1 7;const 1 8;return 1;end;|E t 1 64 3|0 3 8;\n\
fun t 1 1 2;switch 0 3 18446744073709551615 2;const 1 7;const 1 8;return 1;end;|E t 1 64 0|0 2 0;\n\
fun t 2 2 2;call 1 1 0 of 0 1;return 0 1;end;fun u 2 2 2;return 0 1;end;|E t 2 64 5 6|0 3 6 5;\n\
fun t 1 1 2;switch 0 2 0 1;return 0;const 1 1;alu sub 64 0 0 1;call 0 0 of 0;return 0;end;|E t 200001 64 200000|0 1000002 0;";

#[test]
fn refuses_words(rt: HostRuntime) -> Result<(), Surprise> {
    expect_codes(rt.alloc(), REFUSED_WORDS)
}

#[test]
fn refuses_codes(rt: HostRuntime) -> Result<(), Surprise> {
    expect_codes(rt.alloc(), REFUSED_CODES)
}

#[test]
fn runs_codes(rt: HostRuntime) -> Result<(), Surprise> {
    expect_codes(rt.alloc(), RUNS)
}

// A function that counts down by calling itself: ten million steps, and two million calls that wait.
const DEEP: &str =
    "fun t 1 1 2;switch 0 2 0 1;return 0;const 1 1;alu sub 64 0 0 1;call 0 0 of 0;return 0;end;|E t 2000001 64 2000000|0 10000002 0;";

#[test]
fn nests_deeply(rt: HostRuntime) -> Result<(), Surprise> {
    expect_row(rt.alloc(), DEEP)
}

// A name is shown as it came, with the bytes that no screen shows.
const UNSEEN: &str = "|E a\nb\x01\x7f 1 64|10 0 ribbit: no function a;b\x01\x7f;";

#[test]
fn shows_names_as_they_came(rt: HostRuntime) -> Result<(), Surprise> {
    expect_row(rt.alloc(), UNSEEN)
}

// A code text over its limit is read one byte further.
#[test]
fn refuses_long_codes(rt: HostRuntime) -> Result<(), Fail> {
    let alloc = rt.alloc();
    let text = vec![in alloc; b' '; 16_777_217]?;
    let wanted = "11 ribbit: limit file bytes: 16777217 over 16777216;";
    expect_answer(alloc, "exec E t 1 64", text.as_slice(), wanted)?;
    Ok(())
}
