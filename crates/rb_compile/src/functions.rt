//! From functions to code. `agreed` is a program with its layouts: they say how many words
//! represent a value of a type. Each word of a parameter has a slot.

ghost use Rattle.std.specs.Prelude.{◌≡◌, ◌+◌, ◌<◌, ◌^◌, map, IfOk};
ghost use Rattle.rb_fragment.specs.Functions.{Compiles, param_locals};
ghost use Rattle.rb_fragment.specs.Plan.{words_needed_by, words_needed};
ghost use Rattle.rb_fragment.specs.Slots.{slots_from};
ghost use Rattle.rb_compile.specs.Plans.{plan_of};
ghost use Rattle.rb_compile.specs.inner.Functions.{FunIsReady};

use crate::tails::emit_tail;
use rb_core::program::{Fun, Param};
use rb_core::seq::Seq;
use rb_core::types::Ty;
use rb_fragment::held::Local;
use rb_layout::agreed::Agreed;
use rb_rel::words::word_count;
use rb_target::body::Body;
use rb_target::code::CodeFun;
use std::alloc::{AllocError, Global};

/// The code of the program's function with this number: its parameters in the first slots, and its
/// body, which returns.
///
/// An error is want of memory, also where the code would have more than 2^24 instructions.
pub(crate) fn compile_fun(
    alloc: Global,
    agreed: &Agreed,
    number: usize,
    fun: &Fun,
) -> Result<CodeFun, AllocError>
    requires { FunIsReady (plan_of agreed.now) number fun.now }
    ensures { IfOk result (λ q. Compiles (plan_of agreed.now) number fun.now q) }
{
    let mut params = param_slots(alloc, agreed, fun.params.as_slice())?;
    let name = fun.name.copy(alloc)?;
    let mut body = Body::new(alloc, params.count);
    let locals = &mut params.locals;
    emit_tail(alloc, agreed, &mut body, locals, &fun.body, fun.result)?;
    let results = count_of(agreed, fun.result);
    let code = body.finish(name, results);
    Ok(code)
}

// The parameters, each with its slots, and how many slots these are.
#[derive(Drop)]
struct Params {
    locals: Seq<Local>,
    count: usize,
}

// The parameters' slots, one behind the other from slot 0 on, and how many there are. An error is
// want of memory, also where a count would pass 64 bits.
fn param_slots(alloc: Global, agreed: &Agreed, params: &[Param]) -> Result<Params, AllocError>
    ensures locals { IfOk result (λ p. p.locals ≡ param_locals (plan_of agreed.now) 0 params.now) }
    ensures count { IfOk result (λ p. p.count ≡ words_needed_by (plan_of agreed.now) (map (λ p. p.ty) params.now)) }
{
    let mut locals = Seq::new(alloc);
    let mut count = 0usize;
    for param in params {
        let here = word_count(agreed.layouts(), param.ty);
        let Some(end) = count.checked_add(here) else {
            return Err(AllocError);
        };
        let slots = row(alloc, count, here)?;
        locals.push(Local {
            var: param.var,
            ty: param.ty,
            slots,
        })?;
        count = end;
    }
    Ok(Params { locals, count })
}

// So many slots in a row, the first of them `from`.
fn row(alloc: Global, from: usize, count: usize) -> Result<Seq<usize>, AllocError>
    requires { from + count < 2 ^ 64 }
    ensures { IfOk result (λ s. s ≡ slots_from from count) }
{
    let mut slots = Seq::new(alloc);
    for i in 0..count {
        slots.push(from + i)?;
    }
    Ok(slots)
}

// How many words represent a value of a type: a count below 2^64.
fn count_of(agreed: &Agreed, ty: Ty) -> usize
    ensures value { result ≡ words_needed (plan_of agreed.now) ty }
    ensures small { result < 2 ^ 64 }
{
    word_count(agreed.layouts(), ty)
}
