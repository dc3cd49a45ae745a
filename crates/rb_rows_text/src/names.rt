//! Names of files. In a row, `~` stands before the first name that was defined before, and `!` before
//! the first that stands for nothing; a row without a mark has no function `main`. The rows are the
//! cases of the language's rules on names, one each, marked by hand.

use rb_core::expression::Expr;
use rb_core::program::Program;
use rb_core::types::Name;
use rb_names::{NameFault, resolve};
use rb_read::read::read_file;
use rb_syntax::lex::lex;
use rb_syntax::token::Placed;
use std::alloc::{AllocError, Global};
use std::test::Fail;

// What resolving a text's names gives, the names by their bytes.
#[derive(Clone, Copy, PartialEq, Eq)]
enum Found {
    Twice(usize),
    Unknown(usize),
    NoMain,
    // A program, whose first function's body has two operands, which are these variables.
    Operands(u32, u32),
    // Another program, want of memory, or another name than the one at its place.
    Other,
}

// The byte at which a name stands, if it stands at this token.
fn byte_of(text: &[u8], placed: &[Placed], name: &Name, at: u32) -> Option<usize> {
    let byte = placed.get(at as usize)?.at;
    let rest = text.get(byte..)?;
    if rest.starts_with(name.as_slice()) {
        Some(byte)
    } else {
        None
    }
}

// What a fault is, its name by the byte; None for want of memory, or where its name does not stand at its token.
fn found_of(text: &[u8], placed: &[Placed], fault: &NameFault) -> Option<Found> {
    match fault {
        NameFault::Twice(name, at) => Some(Found::Twice(byte_of(text, placed, name, *at)?)),
        NameFault::Unknown(name, at) => Some(Found::Unknown(byte_of(text, placed, name, *at)?)),
        NameFault::NoMain => Some(Found::NoMain),
        NameFault::Memory => None,
    }
}

// The variable that an expression is, or a binding's body.
fn var_of(expr: &Expr) -> Option<u32> {
    match expr {
        Expr::Var(_, var) => Some(*var),
        Expr::Let(_, _, _, _, body) => match body.get() {
            Expr::Var(_, var) => Some(*var),
            _ => None,
        },
        _ => None,
    }
}

// The variables that are the two operands of the first function's body, if it has such.
fn operands_of(program: &Program) -> Option<Found> {
    match &program.funs.get(0)?.body {
        Expr::Binary(_, _, a, b) => Some(Found::Operands(var_of(a.get())?, var_of(b.get())?)),
        _ => None,
    }
}

// What resolving a text's names gives.
fn outcome(alloc: Global, text: &[u8]) -> Result<Found, Fail> {
    let placed = lex(alloc, text)?;
    if placed.len() >= 1 << 32 {
        return Ok(Found::Other);
    }
    let file = read_file(alloc, placed.as_slice())?;
    let found = match resolve(alloc, &file) {
        Ok(program) => operands_of(&program),
        Err(fault) => found_of(text, placed.as_slice(), &fault),
    };
    Ok(found.unwrap_or(Found::Other))
}

// A row without its mark, and the answer that the mark gives.
fn split_at_mark(alloc: Global, row: &str) -> Result<(Vec<u8>, Found), AllocError> {
    let mut text = Vec::new(alloc);
    let mut wanted = Found::NoMain;
    for byte in row.as_bytes() {
        match *byte {
            b'~' => wanted = Found::Twice(text.len()),
            b'!' => wanted = Found::Unknown(text.len()),
            byte => text.push(byte)?,
        }
    }
    Ok((text, wanted))
}

// Whether a row without its mark has the answer that its mark gives.
fn is_due(alloc: Global, row: &str) -> Result<bool, Fail> {
    let (text, wanted) = split_at_mark(alloc, row)?;
    Ok(outcome(alloc, text.as_slice())? == wanted)
}

const ROWS: &str = "
fun f(): u8 = 0;
fun main(): u8 = y; fun ~main(): u8 = 0;
fun f(): u8 = 0; fun main(): u8 = !y;
type T = A; type S = ~A;
type T = A; layout T <8> = A : { word 8 { } }; layout ~T <8> = A : { word 8 { } };
layout !T <8> = A : { word 8 { } }; layout T <8> = A : { word 8 { } };";

#[test]
fn faults(rt: HostRuntime) -> Result<(), Fail> {
    for row in ROWS.split('\n') {
        assert!(rt; is_due(rt.alloc(), row)?, "{row}");
    }
    Ok(())
}

#[test]
fn an_inner_variable_hides_an_outer_one(rt: HostRuntime) -> Result<(), Fail> {
    let text = b"fun main(x: u8): u8 = add(let x: u8 = 1 in x, x);";
    assert!(rt; outcome(rt.alloc(), text)? == Found::Operands(1, 0));
    Ok(())
}
