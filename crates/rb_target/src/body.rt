//! The code of one function while it is made. Instructions and slots are numbered from 0, and a
//! target is the number of an instruction.

ghost use Rattle.std.specs.Prelude.{◌≡◌, ◌+◌, ◌<◌, ◌≤◌, ◌^◌, [], IfOk, OnOk, OnErr, length, Some, Option};
ghost use Rattle.rb_target.specs.Sheet.{Sheet, most_instrs, most_param_words, with_more, with_slot, with_target_at, finished_function, with_one_target, with_arm_target, IsHole, IsHoleIn, AreWritten};
ghost use Rattle.rb_target.specs.Validity.{dest_count};

use crate::code::CodeFun;
use crate::instr::{Instr, SwitchArm};
use rb_core::seq::Seq;
use rb_core::types::Name;
use std::alloc::{AllocError, Global};
use std::marker::Model;

/// The most instructions of a body; clauses cite it as `most_instrs` of `specs/Sheet.antt`.
pub const MOST_INSTRS: usize = 1 << 24;

/// A target that is still open.
#[derive(Clone, Copy, PartialEq, Eq)]
pub struct Hole {
    /// The number of the jump or the switch.
    pub pc: usize,
    /// Which of its targets: the index of an arm, or `None` for a jump's target and a switch's
    /// other one.
    pub arm: Option<usize>,
    /// Whose target it is, by a number that whoever makes the hole chooses.
    pub leaf: usize,
}

/// The instructions so far, and the slots that are in use: the parameters, then one for each call
/// of `fresh`.
#[derive(Drop)]
pub struct Body {
    // The instructions so far.
    code: Seq<Instr>,
    // The number of parameters.
    params: usize,
    // The number of slots that `fresh` gave.
    given: usize,
}

impl Model for Body {
    ghost use Rattle.std.specs.Prelude.{◌+◌};
    ghost use Rattle.rb_target.specs.Sheet.{Sheet, SheetIsKept};

    ghost Value = { Sheet };

    ghost view = { λ b. record { code = b.code; params = b.params; slots = b.params + b.given } };

    ghost invariant = { λ b. SheetIsKept b.params (b.params + b.given) b.code };
}

impl Body {
    /// No instruction yet, and a slot for each parameter, of which `most_param_words` of
    /// `specs/Sheet.antt` are the most.
    pub fn new(alloc: Global, params: usize) -> Body
        requires { params ≤ most_param_words }
        ensures { result ≡ record { code = []; params = params; slots = params } }
    {
        Body {
            code: Seq::new(alloc),
            params,
            given: 0,
        }
    }

    /// Adds an instruction at the end.
    ///
    /// # Errors
    ///
    /// Want of memory, also where the body has `MOST_INSTRS` instructions already. The body stays
    /// as it is.
    pub fn push(&mut self, instr: Instr) -> Result<(), AllocError>
        ensures ok { OnOk result (self.new ≡ with_more self.old instr) }
        ensures err { OnErr result (self.new ≡ self.old) }
    {
        if self.code.len() >= MOST_INSTRS {
            return Err(AllocError);
        }
        self.code.push(instr)?;
        Ok(())
    }

    /// The number of a slot that nothing else uses: the next after the parameters and all slots
    /// given before.
    ///
    /// # Errors
    ///
    /// Want of memory, where no number of a slot is left. The body stays as it is.
    pub fn fresh(&mut self) -> Result<usize, AllocError>
        ensures slot { IfOk result (λ d. d ≡ self.old.slots) }
        ensures ok { OnOk result (self.new ≡ with_slot self.old) }
        ensures err { OnErr result (self.new ≡ self.old) }
    {
        let slot = self.params + self.given;
        if slot == usize::MAX {
            return Err(AllocError);
        }
        self.given += 1;
        Ok(slot)
    }

    /// How many instructions there are, which is the number that the next one gets.
    pub fn len(&self) -> usize
        ensures value { result ≡ length self.now.code }
        ensures few { result ≤ most_instrs }
    {
        self.code.len()
    }

    /// Sets the target that a hole names to an instruction behind the hole's own, which may still
    /// be to come.
    pub fn patch(&mut self, hole: &Hole, target: usize)
        requires inside { IsHole self.old.code hole.now }
        requires forward { hole.now.pc < target }
        ensures { self.new ≡ with_target_at self.old hole.now target }
    {
        let old = self.code.replace(hole.pc, Instr::Jump(target));
        let new = retarget(old, hole.arm, target);
        let _jump = self.code.replace(hole.pc, new);
    }

    /// The function of that name with this number of results. Its slots are the parameters and the
    /// slots given, each of which some instruction writes.
    pub fn finish(self, name: Name, results: usize) -> CodeFun
        requires { AreWritten self }
        ensures value { result ≡ finished_function self name results }
        ensures written { self.slots ≤ self.params + dest_count self.code }
        ensures small { (self.slots < 2 ^ 64) × (length self.code ≤ most_instrs) }
    {
        let Body {
            code,
            params,
            given,
        } = self;
        CodeFun {
            name,
            params,
            results,
            slots: params + given,
            body: code,
        }
    }
}

// An instruction with `target` in place of one of its targets: that of the arm with this index, or
// for `None` a jump's own or a switch's other one.
fn retarget(instr: Instr, arm: Option<usize>, target: usize) -> Instr
    requires { IsHoleIn (Some instr) arm }
    ensures { result ≡ with_one_target instr arm target }
{
    match (instr, arm) {
        (Instr::Switch(slot, _, arms), None) => Instr::Switch(slot, Some(target), arms),
        (Instr::Switch(slot, other, arms), Some(k)) => {
            Instr::Switch(slot, other, retarget_arm(arms, k, target))
        }
        // What is no switch has a target only where it is a jump.
        (
            Instr::Jump(_)
            | Instr::Const(..)
            | Instr::Copy(..)
            | Instr::Alu(..)
            | Instr::Take(..)
            | Instr::Put(..)
            | Instr::Load(..)
            | Instr::Store(..)
            | Instr::Place(..)
            | Instr::Call(..)
            | Instr::Return(_),
            _,
        ) => Instr::Jump(target),
    }
}

// A switch's arms, of which that with index `k` has this target in place of its own.
fn retarget_arm(arms: Seq<SwitchArm>, k: usize, target: usize) -> Seq<SwitchArm>
    requires { k < length arms }
    ensures { result ≡ with_arm_target arms k target }
{
    let mut arms = arms;
    let number = arms.as_slice()[k].number;
    let _old = arms.replace(k, SwitchArm { number, target });
    arms
}
