//! Programs run by the source meaning: results, logs and calls left. The values were computed by hand;
//! a match is named by the number of its token, which was counted.

use rb_check::check;
use rb_core::eval::eval;
use rb_core::expression::Expr;
use rb_core::inference::infer;
use rb_core::limits::{MOST_EVAL_CALLS, MOST_FILE_BYTES};
use rb_core::matching::matches;
use rb_core::outcome::{Event, Outcome, SourceEnd};
use rb_core::pattern::Pat;
use rb_core::scope::Scope;
use rb_core::seq::Seq;
use rb_core::typed::Typed;
use rb_core::types::{ConRef, Ty};
use rb_core::value::Value;
use rb_names::resolve;
use rb_read::read::read_file;
use rb_syntax::lex::lex;
use std::alloc::{AllocError, Global};
use std::test::Fail;

// The most bytes of a file, of which there are more than tokens.
const MOST: usize = MOST_FILE_BYTES;

// The typed program of a text.
fn typed_program(alloc: Global, text: &[u8]) -> Result<Typed, Fail> {
    if text.len() > MOST {
        return Err(AllocError.into());
    }
    let placed = lex(alloc, text)?;
    if placed.len() > MOST {
        return Err(AllocError.into());
    }
    let file = read_file(alloc, placed.as_slice())?;
    let program = resolve(alloc, &file)?;
    check(alloc, &program)?;
    Ok(Typed::new(program))
}

// A list of these items.
fn seq<T: Drop, const N: usize>(alloc: Global, items: [T; N]) -> Result<Seq<T>, AllocError> {
    Ok(Seq::from_vec(Vec::from_array(alloc, items)?))
}

const LIST: &[u8] =
    b"type List = Nil | Cons(u64, List); fun sum(l: List): u64 = match l { Nil => 0, Cons(x, r) => add(x, sum(r)) }; fun main(l: List): u64 = sum(l);";

// Cons(1, Cons(2, Nil))
fn one_two(alloc: Global) -> Result<Value, AllocError> {
    let nil = Value::Con(0, Seq::new(alloc));
    let two = Value::Con(1, seq(alloc, [Value::Num(2), nil])?);
    Ok(Value::Con(1, seq(alloc, [Value::Num(1), two])?))
}

// Whether a run ends with this number and so many calls left, or, at none, with its calls spent.
fn is_end(end: &SourceEnd, wanted: Option<(u64, u64)>) -> bool {
    match end {
        SourceEnd::Done(Value::Num(n), left) => wanted == Some((*n, *left)),
        SourceEnd::Done(Value::Con(_, _), _) => false,
        SourceEnd::Spent => wanted.is_none(),
    }
}

// Calls, how the sum ends with them, and how many events there are.
const SUMS: [(u64, Option<(u64, u64)>, usize); 3] = [
    (10, Some((3, 6)), 3),
    (4, Some((3, 0)), 3),
    (3, None, 2),
];

// Looks at a run of the sum of `Cons(1, Cons(2, Nil))` for each row.
fn expect_sums(alloc: Global, rows: &[(u64, Option<(u64, u64)>, usize)]) -> Result<(), Fail> {
    let program = typed_program(alloc, LIST)?;
    for (calls, end, events) in rows {
        let args = seq(alloc, [one_two(alloc)?])?;
        let outcome = eval(alloc, &program, 1, args, (*calls).min(MOST_EVAL_CALLS))?;
        if !is_end(&outcome.end, *end) || outcome.log.len() != *events {
            return Err(Fail::new(format!(in alloc; "with {calls} calls")?));
        }
    }
    Ok(())
}

#[test]
fn a_list_is_summed(rt: HostRuntime) -> Result<(), Fail> {
    expect_sums(rt.alloc(), &SUMS)
}

const TREE: &[u8] =
    b"type Color = Red | Black; type Tree = Empty | Node(Color, Tree, u32, Tree); fun main(t: Tree, x: u32): Tree = match t { Empty => Node(Red, Empty, x, Empty), Node(c, l, y, r) => match lt(x, y) { 1 => Node(c, main(l, x), y, r), 0 => match lt(y, x) { 1 => Node(c, l, y, main(r, x)), 0 => t } } };";

// Node(color, Empty, number, right) as a pattern
fn node_pattern(alloc: Global, color: u32, number: u64, right: Pat) -> Result<Pat, AllocError> {
    let color = Pat::Con(0, ConRef { ty: 0, con: color }, Seq::new(alloc));
    let left = Pat::Con(0, ConRef { ty: 1, con: 0 }, Seq::new(alloc));
    let subs = seq(alloc, [color, left, Pat::Num(0, number), right])?;
    Ok(Pat::Con(0, ConRef { ty: 1, con: 1 }, subs))
}

// Whether a value is Node(Black, Empty, 7, Node(Red, Empty, 9, Empty)).
fn is_grown(alloc: Global, value: &Value) -> Result<bool, AllocError> {
    let empty = Pat::Con(0, ConRef { ty: 1, con: 0 }, Seq::new(alloc));
    let inner = node_pattern(alloc, 0, 9, empty)?;
    let whole = node_pattern(alloc, 1, 7, inner)?;
    Ok(matches(&whole, value))
}

// The kind of each event, with its type or its match's token.
fn kinds(alloc: Global, log: &[Event]) -> Result<Vec<(bool, u32)>, AllocError> {
    let mut kinds = Vec::new(alloc);
    for event in log {
        kinds.push(match event {
            Event::Built(ty, _) => (true, *ty),
            Event::Matched(_, at) => (false, *at),
        })?;
    }
    Ok(kinds)
}

// 9 goes into Node(Black, Empty, 7, Empty).
#[test]
fn a_number_is_inserted(rt: HostRuntime) -> Result<(), Fail> {
    let alloc = rt.alloc();
    let program = typed_program(alloc, TREE)?;
    let black = Value::Con(1, Seq::new(alloc));
    let left = Value::Con(0, Seq::new(alloc));
    let right = Value::Con(0, Seq::new(alloc));
    let node = Value::Con(1, seq(alloc, [black, left, Value::Num(7), right])?);
    let args = seq(alloc, [node, Value::Num(9)])?;
    let Outcome { log, end } = eval(alloc, &program, 0, args, 2)?;
    let is_right = match &end {
        SourceEnd::Done(value, left) => *left == 0 && is_grown(alloc, value)?,
        SourceEnd::Spent => false,
    };
    assert!(rt; is_right);

    // Red and the two empty trees from left to right, before the nodes that hold them
    let wanted = [
        (false, 37),
        (false, 64),
        (false, 92),
        (false, 37),
        (true, 0),
        (true, 1),
        (true, 1),
        (true, 1),
        (true, 1),
    ];
    let found = kinds(alloc, log.as_slice())?;
    assert!(rt; found.as_slice() == wanted.as_slice());
    Ok(())
}

// Files of numbers, two arguments and the result, with one call.
const NUMBERS: [(&[u8], u64, u64, u64); 3] = [
    (b"fun main(x: u8, y: u8): u8 = x;", 5, 6, 5),
    (
        b"fun main(x: u8, y: u8): u8 = match x { _ => add(250, x), 6 => 1 };",
        6,
        0,
        0,
    ),
    (
        b"fun main(x: u1, y: u8): u8 = match x { 0 => match y { _ => 5, 0 => 6 }, _ => match y { _ => 7 } };",
        0,
        7,
        5,
    ),
];

// Looks at a run of each file with one call.
fn expect_numbers(alloc: Global, rows: &[(&[u8], u64, u64, u64)]) -> Result<(), Fail> {
    for (text, x, y, wanted) in rows {
        let program = typed_program(alloc, text)?;
        let args = seq(alloc, [Value::Num(*x), Value::Num(*y)])?;
        let outcome = eval(alloc, &program, 0, args, 1)?;
        if !is_end(&outcome.end, Some((*wanted, 0))) {
            return Err(Fail::new(format!(in alloc; "{wanted} was wanted")?));
        }
    }
    Ok(())
}

#[test]
fn numbers(rt: HostRuntime) -> Result<(), Fail> {
    expect_numbers(rt.alloc(), &NUMBERS)
}

#[test]
fn a_number_is_of_the_wanted_type(rt: HostRuntime) -> Result<(), Fail> {
    let alloc = rt.alloc();
    let typed = typed_program(alloc, b"fun main(): u8 = 7;")?;
    let mut scope = Scope::new(alloc);
    let wanted = Some(Ty::Int(8));
    let ty = infer(typed.program(), &Expr::Num(0, 7), wanted, &mut scope)?;
    assert!(rt; ty == Ty::Int(8));
    Ok(())
}
