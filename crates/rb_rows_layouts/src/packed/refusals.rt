//! Types that cannot be packed, worked out by hand from the rules of derived layouts: a type that holds itself, and the
//! most bits that fit and one more.

use crate::packed::types::{con, data, seq};
use rb_auto::{AutoFault, derive};
use rb_core::program::Program;
use rb_core::seq::Seq;
use rb_core::types::{Auto, DataDecl, Ty};
use std::alloc::{AllocError, Global};
use std::test::Fail;

// Why a single type cannot be packed, if it cannot.
fn refusal(alloc: Global, ty: DataDecl) -> Result<Option<AutoFault>, AllocError> {
    let program = Program {
        types: seq(alloc, [ty])?,
        layouts: Seq::new(alloc),
        funs: Seq::new(alloc),
        main: 0,
    };
    if program.types.len() != 1 {
        return Ok(None);
    }
    match derive(alloc, &program, &[Some(Auto::Packed)], 0) {
        Ok(_) => Ok(None),
        Err(fault) => Ok(Some(fault)),
    }
}

// type List = Nil | Cons(u8, List);
#[test]
fn a_type_that_reaches_itself(rt: HostRuntime) -> Result<(), Fail> {
    let nil = con(rt.alloc(), &[])?;
    let cons = con(rt.alloc(), &[Ty::Int(8), Ty::Named(0)])?;
    let list = data(rt.alloc(), seq(rt.alloc(), [nil, cons])?);
    let fault = refusal(rt.alloc(), list)?;
    assert!(rt; matches!(fault, Some(AutoFault::PackedRecursive(0))));
    Ok(())
}

// Why a type of two constructors, one with a number of so many bits, cannot be packed, if it cannot.
fn refusal_of(alloc: Global, bits: u8) -> Result<Option<AutoFault>, AllocError> {
    let some = con(alloc, &[Ty::Int(bits)])?;
    let none = con(alloc, &[])?;
    refusal(alloc, data(alloc, seq(alloc, [some, none])?))
}

// 63 bits and the tag fill a word, 64 do not.
#[test]
fn a_type_that_is_too_wide(rt: HostRuntime) -> Result<(), Fail> {
    assert!(rt; refusal_of(rt.alloc(), 63)?.is_none());
    let fault = refusal_of(rt.alloc(), 64)?;
    assert!(rt; matches!(fault, Some(AutoFault::PackedWide(0, 65))));
    Ok(())
}
