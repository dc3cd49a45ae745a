//! Limits of nodes, and values half a million deep. Nodes and bytes were counted by hand: a value is read where the
//! limit is the number of its nodes, and not where it is one less.

use crate::values::reading::{Found, outcome};
use crate::values::types::{LIST, types};
use rb_core::types::Ty;
use rb_values::read::read_value;
use std::alloc::{AllocError, Global};
use std::test::Fail;

// a text, the limit, and what reading it gives
const ORDER: &[(&[u8], u64, Found)] = &[
    (b"Nil", 0, Found::TooLarge),
    (b"Nil", 1, Found::Value),
    (b"Cons(X, Y", 1, Found::Syntax(9)),
    (b"Cons(X, Y)", 2, Found::TooLarge),
    (b"Cons(X, Y)", 3, Found::Misfit(5)),
];

#[test]
fn order_of_refusals(rt: HostRuntime) -> Result<(), Fail> {
    for &(text, limit, wanted) in ORDER {
        let found = outcome(rt.alloc(), LIST, text, limit, text)?;
        assert!(rt; found == wanted, "{text:?}");
    }
    Ok(())
}

// The list of the numbers from 1 to the count: twice as many nodes and one, and as deep as the count.
fn list(alloc: Global, count: u64) -> Result<Vec<u8>, AllocError> {
    let mut text = Vec::new(alloc);
    for number in 1..=count {
        text.extend_from_slice(format!(in alloc; "Cons({number}, ")?.as_bytes())?;
    }
    text.extend_from_slice(b"Nil")?;
    for _number in 1..=count {
        text.push(b')')?;
    }
    Ok(text)
}

// What reading the list of half a million numbers, but for one, gives.
fn half_a_million(alloc: Global, limit: u64) -> Result<Found, AllocError> {
    let text = list(alloc, 499_999)?;
    outcome(alloc, LIST, text.as_slice(), limit, text.as_slice())
}

#[test]
fn half_a_million_deep(rt: HostRuntime) -> Result<(), Fail> {
    assert!(rt; half_a_million(rt.alloc(), 999_999)? == Found::Value);
    assert!(rt; half_a_million(rt.alloc(), 999_998)? == Found::TooLarge);
    Ok(())
}

// How many nodes a value has that is read with this limit.
fn nodes_of(alloc: Global, ty: Ty, text: &[u8], limit: u64) -> Result<u64, Fail> {
    let types = types(alloc)?;
    let value = read_value(alloc, types.as_slice(), ty, text, limit)?;
    Ok(value.nodes())
}

#[test]
fn nodes(rt: HostRuntime) -> Result<(), Fail> {
    assert!(rt; nodes_of(rt.alloc(), Ty::Int(8), b"7", 1)? == 1);
    assert!(rt; nodes_of(rt.alloc(), LIST, b"Cons(1, Cons(2, Nil))", 5)? == 5);
    Ok(())
}
