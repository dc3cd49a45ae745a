//! What a run did until its answer. A run calls `main` on arguments, over a region: a memory in
//! which blocks are placed from its first address on. A tally is what is counted of it. A step is
//! an instruction that the run begins.

ghost use Rattle.std.specs.Prelude.{◌≡◌, ℕ, ◌+◌, ◌-◌, ◌≤◌, length, map, true, IfOk};
ghost use Rattle.rb_bytes.specs.Memory.{empty_memory, least_region, most_region};
ghost use Rattle.rb_core.specs.Limits.{most_calls};
ghost use Rattle.rb_core.specs.Meaning.{call_of};
ghost use Rattle.rb_core.specs.Typing.{param_types};
ghost use Rattle.rb_core.specs.Values.{all_of_types, is_of_type};
ghost use Rattle.rb_rel.specs.Answers.{answer_of, laid_call};
ghost use Rattle.rb_compile.specs.Plans.{plan_of};
ghost use Rattle.rb_compile.specs.Refining.{Refines};
ghost use Rattle.rb_run.specs.Answering.{meant_by};
ghost use Rattle.rb_run.specs.Calling.{IsCounted};
ghost use Rattle.rb_run.specs.Counting.{IsTally};
ghost use Rattle.rb_run.specs.inner.Ends.{left_at};

use crate::answer::{Answer, Bounds, answer_to};
use crate::call::call_main;
use rb_bytes::memory::{ByteMemory, LEAST_REGION};
use rb_edge::steps::{Ledger, Steps};
use rb_layout::agreed::Agreed;
use rb_raw::memory::RawMemory;
use rb_target::code::Code;
use rb_target::outcome::{End, Ran};
use rb_values::forest::Forest;
use std::alloc::{AllocError, Global};

/// What a run did.
#[derive(Clone, Copy)]
pub struct Tally {
    /// The calls that it made, that of `main` included, where it returned; if not, the calls that
    /// it had to spend.
    pub calls: u64,
    /// The switches that it did, one that trapped included.
    pub switches: u128,
    /// The blocks that were placed, those of the arguments included.
    pub blocks: u64,
    /// The bytes from the region's first address up to the next one, the first behind the blocks.
    pub bytes: u64,
}

/// What a run answers, and what it did until then.
#[derive(Drop)]
pub struct Counted {
    pub answer: Answer,
    pub tally: Tally,
}

/// Runs `main` on the values `args` over a fresh region, on a memory that tests no access, answers
/// what the source means, and counts what the run did. `agreed` is a program with its layouts,
/// `code` is its code, `bounds` are the limits of the run, and its steps are added to `steps`.
///
/// # Errors
///
/// Want of memory.
pub fn count_main<L: Ledger>(
    alloc: Global,
    agreed: &Agreed,
    code: &Code,
    args: &[Forest],
    bounds: Bounds,
    steps: &mut Steps<L>,
) -> Result<Counted, AllocError>
    requires refines { Refines (plan_of agreed.now) code.now }
    requires typed { all_of_types (map (is_of_type agreed.now.covered.program.types) args.now)
        (param_types agreed.now.covered.program.funs agreed.now.covered.program.main) ≡ true }
    requires calls { bounds.calls ≤ most_calls }
    requires region { (least_region ≤ bounds.region) × (bounds.region ≤ most_region) }
    ensures answer { IfOk result (λ c. meant_by c.answer
        ≡ answer_of agreed.now.covered.program agreed.now.layouts args.now bounds.calls bounds.region bounds.nodes) }
    ensures counted { IfOk result (λ c. (taken : ℕ) × (steps.new.taken ≡ steps.old.taken + taken)
        × IsCounted agreed.now code.now args.now bounds.calls (empty_memory bounds.region) taken c.tally.switches) }
    ensures tallied { IfOk result (λ c. IsTally
        (laid_call agreed.now.covered.program agreed.now.layouts args.now bounds.calls (empty_memory bounds.region))
        (call_of agreed.now.covered.program agreed.now.covered.program.main bounds.calls args.now).end bounds.calls
        c.tally) }
{
    let mut memory = RawMemory::new(alloc, bounds.region)?;
    let ran = call_main(alloc, agreed, code, args, &mut memory, bounds.calls, steps)?;
    let tally = tally_of(&ran, &memory, bounds.calls);
    let answer = answer_to(alloc, agreed, ran.end, &memory, bounds.nodes)?;
    Ok(Counted { answer, tally })
}

// How many calls the end of a run leaves; 0 where the run does not return.
fn calls_left(end: &End) -> u64
    ensures { result ≡ left_at end.now }
{
    match end {
        End::Returned { calls_left, .. } => *calls_left,
        End::Spent => 0,
        End::Full(_) => 0,
        End::Trapped(_) => 0,
    }
}

// What a run did that had so many calls to make, by its end and the memory that it left.
fn tally_of(ran: &Ran, memory: &RawMemory, calls: u64) -> Tally
    ensures calls { result.calls ≡ calls - left_at ran.now.end }
    ensures switches { result.switches ≡ ran.now.switches }
    ensures blocks { result.blocks ≡ length memory.now.blocks }
    ensures bytes { result.bytes ≡ memory.now.next - least_region }
{
    Tally {
        calls: calls.saturating_sub(calls_left(&ran.end)),
        switches: ran.switches,
        blocks: memory.blocks(),
        bytes: memory.next() - LEAST_REGION,
    }
}
