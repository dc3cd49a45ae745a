//! The arguments of `main`, from the words of a command line.
//!
//! An answer is a status with a line, by which a command is refused. `types` are the types of the
//! program. A function that reads gives it as its error; the only other error is want of memory.

ghost use Rattle.std.specs.Prelude.{◌≡◌, ◌≢◌, length, map, IfOk, IfErr, Ok};
ghost use Rattle.rb_core.specs.Typing.{param_types};
ghost use Rattle.rb_lines.specs.Answer.{refusal};
ghost use Rattle.rb_lines.specs.ArgumentLines.{argument_line, node_limit};
ghost use Rattle.rb_lines.specs.View.{due_of, IsRefusal};
ghost use Rattle.rb_lines.specs.declared.status.Status.TheVariants.{Argument};
ghost use Rattle.rb_values.specs.Reading.{ValueIsRead};
ghost use Rattle.rb_values.specs.declared.fault.ValueFault.TheVariants.{Memory};
ghost use Rattle.rb_accept.specs.Arguments.{AreRead, IsFirstBadWord, IsMisfit, IsRefusedAt, Spell};

use rb_core::program::{Param, Program};
use rb_core::seq::Seq;
use rb_core::types::{DataDecl, Ty};
use rb_edge::seq::Name;
use rb_lines::argument::{NODES, argument};
use rb_lines::line;
use rb_lines::refusal::{Refusal, Refused};
use rb_lines::status::Status;
use rb_values::fault::ValueFault;
use rb_values::forest::Forest;
use rb_values::read::read_value;
use std::alloc::{AllocError, Global};

// The answer to an argument of this number, counted from 1, that is no value of this type, by the
// fault that was found. Where that is want of memory, there is no answer, but this error.
fn refuse_argument(
    alloc: Global,
    types: &[DataDecl],
    number: u64,
    ty: Ty,
    fault: &ValueFault,
) -> Result<Refused, AllocError>
    ensures due { IfOk result (λ c. due_of c ≡ refusal Argument (argument_line types.now number ty fault.now)) }
    ensures other { IfOk result (λ c. fault.now ≢ Memory) }
{
    if matches!(fault, ValueFault::Memory) {
        return Err(AllocError);
    }
    let line = argument(alloc, types, number, ty, fault)?;
    Ok(Refused {
        status: Status::Argument,
        line,
    })
}

// The value of this type that the argument of this number spells, or the answer where it spells
// none.
fn read_argument(
    alloc: Global,
    types: &[DataDecl],
    number: u64,
    ty: Ty,
    word: &[u8],
) -> Result<Forest, Refusal>
    ensures read { IfOk result (λ v. ValueIsRead types.now ty node_limit word.now (Ok v)) }
    ensures refused { IfErr result (IsRefusal (IsRefusedAt types.now number ty word.now)) }
{
    match read_value(alloc, types, ty, word, NODES) {
        Ok(value) => Ok(value),
        Err(fault) => {
            let refused = refuse_argument(alloc, types, number, ty, &fault)?;
            Err(Refusal::Refused(refused))
        }
    }
}

// The values that the words spell, of which there are as many as parameters, or the answer to the
// first that spells none.
fn read_each(
    alloc: Global,
    types: &[DataDecl],
    params: &[Param],
    words: &[Name],
) -> Result<Seq<Forest>, Refusal>
    requires { length words.now ≡ length params.now }
    ensures read { IfOk result (AreRead types.now (map (λ p. p.ty) params.now) words.now) }
    ensures refused { IfErr result (IsRefusal (IsFirstBadWord types.now (map (λ p. p.ty) params.now) words.now)) }
{
    let mut args = Seq::new(alloc);
    for (i, param) in params.iter().enumerate() {
        let arg = read_argument(alloc, types, i as u64 + 1, param.ty, words[i].as_slice())?;
        args.push(arg)?;
    }
    Ok(args)
}

// The parameters of `main`; none where there is no such function.
fn parameters(program: &Program) -> &[Param]
    ensures { map (λ p. p.ty) result.now ≡ param_types program.now.funs program.now.main }
{
    match program.funs.get(program.main as usize) {
        None => &[],
        Some(main) => main.params.as_slice(),
    }
}

/// The values that the words spell, one for each parameter of `main`.
///
/// # Errors
///
/// The answer to their number, or else to the first word that spells no value of its parameter's
/// type; or want of memory.
pub fn read_arguments(
    alloc: Global,
    program: &Program,
    words: &[Name],
) -> Result<Seq<Forest>, Refusal>
    ensures read { IfOk result (Spell program.now words.now) }
    ensures refused { IfErr result (IsRefusal (IsMisfit program.now words.now)) }
{
    let params = parameters(program);
    if words.len() == params.len() {
        return read_each(alloc, program.types.as_slice(), params, words);
    }
    let line = line::count(alloc, params.len() as u64, words.len() as u64)?;
    Err(Refusal::Refused(Refused {
        status: Status::Argument,
        line,
    }))
}
