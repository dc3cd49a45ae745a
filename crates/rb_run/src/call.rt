//! A call of `main` over a memory. `agreed` is a program with its layouts. The memory has blocks,
//! each behind the one before it; those of the arguments are placed before any code runs. A step is
//! an instruction that the run begins.

ghost use Rattle.std.specs.Prelude.{◌≡◌, ℕ, ◌+◌, ◌≤◌, map, true, IfOk};
ghost use Rattle.rb_bytes.specs.Memory.{IsGood};
ghost use Rattle.rb_bytes.specs.declared.fault.Full.{Full as Unplaced};
ghost use Rattle.rb_core.specs.Limits.{most_calls};
ghost use Rattle.rb_core.specs.Typing.{param_types};
ghost use Rattle.rb_core.specs.TypedPrograms.{IsTyped};
ghost use Rattle.rb_layout.specs.Flattening.{flat_layouts};
ghost use Rattle.rb_core.specs.Values.{all_of_types, is_of_type};
ghost use Rattle.rb_compile.specs.Plans.{plan_of};
ghost use Rattle.rb_compile.specs.Refining.{Refines};
ghost use Rattle.rb_run.specs.Calling.{IsCalled, IsCounted};

use rb_bytes::memory::ByteMemory;
use rb_coding::encode::encode_all;
use rb_coding::fault::EncodeFault;
use rb_core::inference::types_of_params;
use rb_core::seq::Seq;
use rb_core::types::Ty;
use rb_edge::steps::{Ledger, Steps};
use rb_layout::agreed::Agreed;
use rb_machine::run::run;
use rb_target::code::Code;
use rb_target::outcome::{End, Ran};
use rb_values::forest::Forest;
use std::alloc::{AllocError, Global};

/// Calls `main` on the values `args`, with at most so many calls, its own included. The blocks of
/// the values are placed first, one value after the other; then the code runs, which never traps,
/// and its steps are added to `steps`. Where a block of a value doesn't fit, nothing runs, and the
/// end says which block it is.
///
/// # Errors
///
/// Want of memory; then nothing is said of the memory and of the steps.
pub fn call_main<M: ByteMemory, L: Ledger>(
    alloc: Global,
    agreed: &Agreed,
    code: &Code,
    args: &[Forest],
    memory: &mut M,
    calls: u64,
    steps: &mut Steps<L>,
) -> Result<Ran, AllocError>
    requires refines { Refines (plan_of agreed.now) code.now }
    requires good { IsGood (M.memory memory.old) }
    requires typed { all_of_types (map (is_of_type agreed.now.covered.program.types) args.now)
        (param_types agreed.now.covered.program.funs agreed.now.covered.program.main) ≡ true }
    requires calls { calls ≤ most_calls }
    ensures called { IfOk result (λ ran. IsCalled agreed.now args.now calls (M.memory memory.old) ran.end
        (M.memory memory.new)) }
    ensures counted { IfOk result (λ ran. (taken : ℕ) × (steps.new.taken ≡ steps.old.taken + taken)
        × IsCounted agreed.now code.now args.now calls (M.memory memory.old) taken ran.switches) }
{
    let main = main_of(agreed);
    let tys = parameters_of_main(alloc, agreed)?;
    match encode_all(alloc, agreed, tys.as_slice(), args, memory) {
        Ok(words) => {
            let ran = run(alloc, code, main, words.as_slice(), memory, calls, steps)?;
            Ok(ran)
        }
        Err(fault) => {
            let ran = not_begun(fault)?;
            Ok(ran)
        }
    }
}

// A run that does not begin, since a block of its arguments does not fit: it ends with this block,
// after no switches. An error is want of memory, where that is the fault.
fn not_begun(fault: EncodeFault) -> Result<Ran, AllocError>
    ensures { IfOk result (λ ran. (full : Unplaced) × (fault ≡ EncodeFault.Full full)
        × (ran ≡ record { end = End.Full full; switches = 0 })) }
{
    match fault {
        EncodeFault::Full(full) => Ok(Ran {
            end: End::Full(full),
            switches: 0,
        }),
        EncodeFault::Memory => Err(AllocError),
    }
}

// The number of `main`, and that the program is typed and its layouts are the flat ones.
fn main_of(agreed: &Agreed) -> usize
    ensures number { result ≡ agreed.now.covered.program.main }
    ensures typed { IsTyped agreed.now.covered.program }
    ensures flat { agreed.now.layouts ≡ flat_layouts agreed.now.covered.program }
{
    let _flat = agreed.layouts();
    agreed.covered().program().main as usize
}

// The types of the parameters of `main`, in their order. An error is want of memory.
fn parameters_of_main(alloc: Global, agreed: &Agreed) -> Result<Seq<Ty>, AllocError>
    ensures { IfOk result (λ tys. tys ≡ param_types agreed.now.covered.program.funs agreed.now.covered.program.main) }
{
    let program = agreed.covered().program();
    let tys = types_of_params(alloc, program, program.main)?;
    Ok(tys)
}
