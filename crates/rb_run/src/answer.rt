//! What a run answers. A run calls `main` on arguments, over a region: a memory whose first address
//! is 64, and in which blocks are placed. `agreed` is a program with its layouts, and `code` is its
//! code. A step is an instruction that the run begins. A node of a value is a number or a
//! construction.

ghost use Rattle.std.specs.Prelude.{◌≡◌, ℕ, ◌+◌, ◌≤◌, List, map, true, IfOk};
ghost use Rattle.rb_bytes.specs.Memory.{IsGood, Memory, empty_memory, least_region, most_region};
ghost use Rattle.rb_coding.specs.Decoding.{AreOf};
ghost use Rattle.rb_core.specs.declared.value.Value.{Value};
ghost use Rattle.rb_core.specs.Limits.{most_calls};
ghost use Rattle.rb_core.specs.Meaning.{call_of};
ghost use Rattle.rb_core.specs.Typing.{param_types, result_type};
ghost use Rattle.rb_core.specs.Values.{all_of_types, is_of_type};
ghost use Rattle.rb_rel.specs.Answers.{answer_at, answer_of, laid_call};
ghost use Rattle.rb_compile.specs.Plans.{plan_of};
ghost use Rattle.rb_compile.specs.Refining.{Refines};
ghost use Rattle.rb_run.specs.Answering.{meant_by};
ghost use Rattle.rb_run.specs.Calling.{IsCalled, IsCounted, IsEndOf};
ghost use Rattle.rb_run.specs.inner.Ends.{shown_within};

use crate::count::count_main;
use rb_bytes::fault::Full;
use rb_coding::decode::decode;
use rb_coding::fault::DecodeFault;
use rb_core::program::Program;
use rb_core::types::Ty;
use rb_edge::steps::{Ledger, Steps};
use rb_layout::agreed::Agreed;
use rb_raw::memory::RawMemory;
use rb_target::code::Code;
use rb_target::outcome::End;
use rb_values::forest::Forest;
use std::alloc::{AllocError, Global};

/// What a run answers.
#[derive(Drop)]
pub enum Answer {
    /// A block didn't fit: the first that does not of the arguments' blocks and then the call's.
    Full(Full),
    /// The calls that the run may make were spent.
    Spent,
    /// The value has more nodes than may be shown.
    TooLarge,
    /// The value that `main` returned.
    Shown(Forest),
}

/// The bounds of a run: how many calls it makes at most, the address at which its memory ends, and
/// how many nodes of a value are shown.
#[derive(Clone, Copy)]
pub struct Bounds {
    pub calls: u64,
    pub region: u64,
    pub nodes: u64,
}

/// Runs `main` on the values `args` over a fresh region, on a memory that tests no access, and
/// answers what the source means. The steps of the run are added to `steps`.
///
/// # Errors
///
/// Want of memory.
pub fn answer_main<L: Ledger>(
    alloc: Global,
    agreed: &Agreed,
    code: &Code,
    args: &[Forest],
    bounds: Bounds,
    steps: &mut Steps<L>,
) -> Result<Answer, AllocError>
    requires refines { Refines (plan_of agreed.now) code.now }
    requires typed { all_of_types (map (is_of_type agreed.now.covered.program.types) args.now)
        (param_types agreed.now.covered.program.funs agreed.now.covered.program.main) ≡ true }
    requires calls { bounds.calls ≤ most_calls }
    requires region { (least_region ≤ bounds.region) × (bounds.region ≤ most_region) }
    ensures answer { IfOk result (λ a. meant_by a
        ≡ answer_of agreed.now.covered.program agreed.now.layouts args.now bounds.calls bounds.region bounds.nodes) }
    ensures counted { IfOk result (λ a. (taken switches : ℕ) × (steps.new.taken ≡ steps.old.taken + taken)
        × IsCounted agreed.now code.now args.now bounds.calls (empty_memory bounds.region) taken switches) }
{
    let counted = count_main(alloc, agreed, code, args, bounds, steps)?;
    Ok(counted.answer)
}

/// What the end of a call of `main` comes to, over the memory that it left. That is the value, if
/// it has at most so many nodes, or why none is shown. No such call is trapped.
///
/// # Errors
///
/// Want of memory.
pub(crate) fn answer_to(
    alloc: Global,
    agreed: &Agreed,
    end: End,
    memory: &RawMemory,
    nodes: u64,
) -> Result<Answer, AllocError>
    requires { IsEndOf agreed.now end memory.now }
    ensures { (args : List Value) (calls : ℕ) (old : Memory) → IsCalled agreed.now args calls old end memory.now
        → IfOk result (λ a. meant_by a
        ≡ answer_at (laid_call agreed.now.covered.program agreed.now.layouts args calls old)
        (call_of agreed.now.covered.program agreed.now.covered.program.main calls args).end nodes) }
{
    let _flat = agreed.layouts();
    match end {
        End::Full(full) => Ok(Answer::Full(full)),
        End::Spent => Ok(Answer::Spent),
        End::Returned { words, .. } => {
            let answer = answer_value(alloc, agreed, words.as_slice(), memory, nodes)?;
            Ok(answer)
        }
        End::Trapped(_) => unreachable!(),
    }
}

// The value of the result type of `main` that words represent in a memory, where it has at most so
// many nodes; or that it is too large.
fn answer_value(
    alloc: Global,
    agreed: &Agreed,
    words: &[u64],
    memory: &RawMemory,
    nodes: u64,
) -> Result<Answer, AllocError>
    requires good { IsGood memory.now }
    requires represented { (v : Value) × AreOf agreed.now.covered.program memory.now
        (result_type agreed.now.covered.program.funs agreed.now.covered.program.main) words.now v }
    ensures { (v : Value) → AreOf agreed.now.covered.program memory.now
        (result_type agreed.now.covered.program.funs agreed.now.covered.program.main) words.now v
        → IfOk result (λ a. meant_by a ≡ shown_within nodes v) }
{
    let ty = result_of_main(agreed.covered().program());
    match decode(alloc, agreed, ty, words, memory, nodes) {
        Ok(value) => Ok(Answer::Shown(value)),
        Err(DecodeFault::TooLarge) => Ok(Answer::TooLarge),
        Err(DecodeFault::Memory) => Err(AllocError),
    }
}

/// The result type of `main`; u64 where the program has no function with the number of `main`.
pub fn result_of_main(program: &Program) -> Ty
    ensures { result ≡ result_type program.now.funs program.now.main }
{
    match program.funs.get(program.main as usize) {
        None => Ty::Int(64),
        Some(main) => main.result,
    }
}
