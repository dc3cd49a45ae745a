//! Values that no recursion can walk, and copies. What is copied is what was written here.

use rb_core::layout_decl::{Loc, Step};
use rb_core::matching::matches;
use rb_core::pattern::Pat;
use rb_core::seq::Seq;
use rb_core::types::ConRef;
use rb_core::value::Value;
use std::alloc::{AllocError, Global};
use std::test::Fail;

// A number in so many constructions, each with another number behind.
fn nested_value(alloc: Global, depth: u64) -> Result<Value, AllocError> {
    let mut value = Value::Num(7);
    for _ in 0..depth {
        let items = Vec::from_array(alloc, [value, Value::Num(3)])?;
        value = Value::Con(1, Seq::from_vec(items));
    }
    Ok(value)
}

// The number inside so many constructions, where it is there.
fn innermost(value: &Value, depth: u64) -> Option<u64> {
    let mut inner = value;
    for _ in 0..depth {
        inner = match inner {
            Value::Num(_) => return None,
            Value::Con(_, items) => items.get(0)?,
        };
    }
    match inner {
        Value::Num(n) => Some(*n),
        Value::Con(_, _) => None,
    }
}

#[test]
fn a_million_deep(rt: HostRuntime) -> Result<(), Fail> {
    let alloc = rt.alloc();
    let value = nested_value(alloc, 1000000)?;
    let copy = value.copy(alloc)?;
    drop(value);
    assert_eq!(rt; innermost(&copy, 1000000), Some(7));

    let con = ConRef { ty: 0, con: 1 };
    let pats = Vec::from_array(alloc, [Pat::Var(0, 0), Pat::Num(1, 3)])?;
    let pat = Pat::Con(2, con, Seq::from_vec(pats));
    assert!(rt; (matches(&pat, &copy), matches(&Pat::Num(0, 7), &copy)) == (true, false));
    Ok(())
}

#[test]
fn a_pattern_is_copied(rt: HostRuntime) -> Result<(), Fail> {
    let pat = Pat::Num(3, 7).copy(rt.alloc())?;
    assert!(rt; matches!(pat, Pat::Num(3, 7)));
    Ok(())
}

#[test]
fn a_place_is_copied(rt: HostRuntime) -> Result<(), Fail> {
    let alloc = rt.alloc();
    let step = Step {
        align: 4,
        byte: 0,
        width: 8,
        o: 0,
        l: 8,
    };
    let steps = Seq::from_vec(Vec::from_slice(alloc, &[step])?);
    let loc = Loc {
        word: 1,
        o: 2,
        l: 3,
        steps,
    };
    let copy = loc.copy(alloc)?;
    let found = (copy.word, copy.o, copy.l, copy.steps.as_slice());
    assert!(rt; found == (1, 2, 3, [step].as_slice()));
    Ok(())
}
