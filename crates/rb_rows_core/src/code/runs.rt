//! Runs over a checked memory, with as many calls as are allowed, however deep they nest. The counts were worked out
//! by hand: the first instruction of a function that calls itself is begun once a call.

use rb_bytes::checked::CheckedMemory;
use rb_edge::steps::{CountLedger, Steps};
use rb_machine::run::run;
use rb_target::code::Code;
use rb_target::outcome::End;
use rb_target::read::read_code;
use std::alloc::{AllocError, Global};
use std::test::Fail;

// How many instructions are begun where the run of the first function spends all its calls.
fn begun_count(alloc: Global, code: &Code, calls: u64) -> Result<Option<u128>, AllocError> {
    match code.funs().get(0) {
        Some(fun) if fun.params == 0 && calls <= 1_000_000_000 => {}
        _ => return Ok(None),
    }
    let mut memory = CheckedMemory::new(alloc, 64)?;
    let mut steps = Steps::new(CountLedger { count: 0 });
    let ran = run(alloc, code, 0, &[], &mut memory, calls, &mut steps)?;
    if ran.switches == 0 && matches!(ran.end, End::Spent) {
        Ok(Some(steps.ledger().count))
    } else {
        Ok(None)
    }
}

const CALLS: &[u64] = &[0, 1, 3, 200_000];

#[test]
fn calls_nest(rt: HostRuntime) -> Result<(), Fail> {
    let code = read_code(rt.alloc(), b"fun t 0 0 0\ncall 0 of\nreturn\nend\n")?;
    for &calls in CALLS {
        let found = begun_count(rt.alloc(), &code, calls)?;
        assert!(rt; found == Some(u128::from(calls)), "{calls} calls");
    }
    Ok(())
}
