//! From programs to code. `agreed` is a program with its layouts: the program is typed, each of its
//! matches is exhaustive, and the layouts agree with its types.

ghost use Rattle.std.specs.Prelude.{◌≡◌, length, IfOk};
ghost use Rattle.rb_compile.specs.Plans.{plan_of};
ghost use Rattle.rb_compile.specs.Refining.{Refines};
ghost use Rattle.rb_compile.specs.Thrift.{IsThrifty};
ghost use Rattle.rb_compile.specs.inner.Functions.{FirstCompile, ProgramIsReady};

use crate::functions::compile_fun;
use rb_core::program::Fun;
use rb_core::seq::Seq;
use rb_layout::agreed::Agreed;
use rb_target::code::{Code, CodeFun};
use rb_trim::trim::trim;
use std::alloc::{AllocError, Global};

/// The code of a program whose layouts agree: a function for each of its functions, in their order.
///
/// # Errors
///
/// Want of memory, also where a function's code would have more than 2^24 instructions.
pub fn compile(alloc: Global, agreed: &Agreed) -> Result<Code, AllocError>
    ensures refines { IfOk result (λ code. Refines (plan_of agreed.now) code) }
    ensures thrifty { IfOk result (λ code. IsThrifty (plan_of agreed.now) code) }
{
    let funs = compile_all(alloc, agreed, functions(agreed))?;
    let code = trim(alloc, Code::new(funs))?;
    Ok(code)
}

// The program's functions, and that all is known of them that their code needs.
fn functions(agreed: &Agreed) -> &[Fun]
    ensures same { result.now ≡ agreed.now.covered.program.funs }
    ensures ready { ProgramIsReady (plan_of agreed.now) }
{
    let _layouts = agreed.layouts();
    agreed.covered().program().funs.as_slice()
}

// The code of all functions of the program, `funs`, in their order. An error is want of memory,
// also where a function's code would have more than 2^24 instructions.
fn compile_all(alloc: Global, agreed: &Agreed, funs: &[Fun]) -> Result<Seq<CodeFun>, AllocError>
    requires ready { ProgramIsReady (plan_of agreed.now) }
    requires same { funs.now ≡ agreed.now.covered.program.funs }
    ensures { IfOk result (λ code. FirstCompile (plan_of agreed.now) (length funs.now) code) }
{
    let mut code = Seq::new(alloc);
    for (number, fun) in funs.iter().enumerate() {
        let compiled = compile_fun(alloc, agreed, number, fun)?;
        code.push(compiled)?;
    }
    Ok(code)
}
