//! What instructions make, and which facts hold behind them, where the run goes on after them. A
//! fact says of a slot what it holds, its content, which is told by the slots that it names.
//! `facts` are those known before an instruction. A way is one by which the run goes on, and `told`
//! the fact that it tells, if any: that of a switch's arm, that the switch's slot holds the arm's
//! number.

ghost use Rattle.std.specs.Prelude.{◌≡◌, ◌↔◌, IfSome, IsTrue, Some, Contains};
ghost use Rattle.rb_target.specs.declared.instr.Instr.TheVariants.{Put};
ghost use Rattle.rb_trim.specs.inner.Facts.{Follows};
ghost use Rattle.rb_trim.specs.inner.Following.{IsLaid, IsTold, IsToldBy, WritesTo, Changes, KeepsContent, Sets, FollowsOne, FollowsAt, HoldsBehind, made_fact};
ghost use Rattle.rb_trim.specs.inner.Moving.{tells as tells_of};

use crate::fact::{Content, Fact};
use crate::knowing::{is_known, is_narrow, part, resolve, source};
use rb_target::instr::Instr;

// What an instruction makes of the slot that it writes, told by the slots before it. None for a
// put, and for what stores, places, jumps, switches, calls or returns.
fn fact_made(instr: &Instr) -> Option<Fact>
    ensures { result ≡ made_fact instr.now }
{
    match instr {
        Instr::Const(dest, number) => fact(*dest, Content::Number(*number)),
        Instr::Copy(dest, from) => fact(*dest, Content::Same(*from)),
        Instr::Alu(op, bits, dest, a, b) => fact(*dest, Content::Computed(*op, *bits, *a, *b)),
        Instr::Take(dest, from, o, l) => fact(*dest, Content::Part(*from, *o, *l)),
        Instr::Load(dest, base, offset, width) => {
            fact(*dest, Content::Loaded(*base, *offset, *width))
        }
        Instr::Put(..)
        | Instr::Store(..)
        | Instr::Place(..)
        | Instr::Jump(_)
        | Instr::Switch(..)
        | Instr::Call(..)
        | Instr::Return(_) => None,
    }
}

// The fact that a slot has a content. It is never none.
fn fact(slot: usize, content: Content) -> Option<Fact>
    ensures { result ≡ Some (record { slot = slot; content = content }) }
{
    Some(Fact { slot, content })
}

// What a slot holds once the low `l` bits of another are put into it from bit `o` on, where they
// replace all that it is known to have; None where they may not.
fn put_content(facts: &[Fact], slot: usize, from: usize, o: u8, l: u8) -> Option<Content>
    ensures { IfSome result (λ content. IsLaid facts.now slot from o l content) }
{
    let old = source(facts, slot);
    if o != 0 {
        return None;
    }
    if !is_narrow(facts, old, l) {
        return None;
    }
    let content = part(facts, from, 0, l);
    Some(content)
}

// What a put makes of its slot, told by what is known; None where old bits may stay.
fn told_put(facts: &[Fact], slot: usize, from: usize, o: u8, l: u8) -> Option<Fact>
    ensures { IfSome result (λ fact. IsTold facts.now (Put slot from o l) fact) }
{
    let Some(content) = put_content(facts, slot, from, o, l) else {
        return None;
    };
    Some(Fact { slot, content })
}

// What an instruction other than a put makes, told by what is known; None where nothing is told of
// it.
fn told_made(facts: &[Fact], instr: &Instr) -> Option<Fact>
    ensures { IfSome result (λ fact. IsTold facts.now instr.now fact) }
{
    let Some(made) = fact_made(instr) else {
        return None;
    };
    let content = resolve(facts, made.content);
    Some(Fact {
        slot: made.slot,
        content,
    })
}

/// What an instruction makes of the slot that it writes, told by what is known; None where that
/// cannot be told, as of what stores, places, jumps, switches, calls or returns.
pub(crate) fn told_fact(facts: &[Fact], instr: &Instr) -> Option<Fact>
    ensures { IfSome result (λ fact. IsTold facts.now instr.now fact) }
{
    match instr {
        Instr::Put(slot, from, o, l) => told_put(facts, *slot, *from, *o, *l),
        Instr::Const(..)
        | Instr::Copy(..)
        | Instr::Alu(..)
        | Instr::Take(..)
        | Instr::Load(..)
        | Instr::Store(..)
        | Instr::Place(..)
        | Instr::Jump(_)
        | Instr::Switch(..)
        | Instr::Call(..)
        | Instr::Return(_) => told_made(facts, instr),
    }
}

/// Whether a content is told by a slot, that is, names it.
pub(crate) fn is_told_by(content: &Content, slot: usize) -> bool
    ensures { IsTrue result ↔ IsToldBy content.now slot }
{
    match content {
        Content::Number(_) => false,
        Content::Same(from) | Content::Part(from, _, _) | Content::Loaded(from, _, _) => {
            *from == slot
        }
        Content::Computed(_, _, a, b) => *a == slot || *b == slot,
    }
}

// Whether a slot is one of a list.
fn is_among(slots: &[usize], slot: usize) -> bool
    ensures { IsTrue result ↔ Contains slots.now slot }
{
    slots.contains(&slot)
}

// Whether an instruction writes to a slot.
fn writes_to(instr: &Instr, slot: usize) -> bool
    ensures { IsTrue result ↔ WritesTo instr.now slot }
{
    match instr {
        Instr::Const(dest, _)
        | Instr::Copy(dest, _)
        | Instr::Alu(_, _, dest, _, _)
        | Instr::Take(dest, _, _, _)
        | Instr::Put(dest, _, _, _)
        | Instr::Load(dest, _, _, _)
        | Instr::Place(dest, _, _) => *dest == slot,
        Instr::Call(_, dests, _) => is_among(dests.as_slice(), slot),
        Instr::Store(..) | Instr::Jump(_) | Instr::Switch(..) | Instr::Return(_) => false,
    }
}

/// Whether an instruction writes to a slot, and to no other.
pub(crate) fn sets(instr: &Instr, slot: usize) -> bool
    ensures { IsTrue result → Sets instr.now slot }
{
    match instr {
        Instr::Const(dest, _)
        | Instr::Copy(dest, _)
        | Instr::Alu(_, _, dest, _, _)
        | Instr::Take(dest, _, _, _)
        | Instr::Put(dest, _, _, _)
        | Instr::Load(dest, _, _, _)
        | Instr::Place(dest, _, _) => *dest == slot,
        Instr::Store(..)
        | Instr::Jump(_)
        | Instr::Switch(..)
        | Instr::Call(..)
        | Instr::Return(_) => false,
    }
}

// Whether an instruction may change memory.
fn changes(instr: &Instr) -> bool
    ensures { IsTrue result ↔ Changes instr.now }
{
    match instr {
        Instr::Store(..) | Instr::Place(..) | Instr::Call(..) => true,
        Instr::Const(..)
        | Instr::Copy(..)
        | Instr::Alu(..)
        | Instr::Take(..)
        | Instr::Put(..)
        | Instr::Load(..)
        | Instr::Jump(_)
        | Instr::Switch(..)
        | Instr::Return(_) => false,
    }
}

// Whether an instruction changes nothing that a content is told by.
fn keeps_content(instr: &Instr, content: &Content) -> bool
    ensures { IsTrue result → KeepsContent instr.now content.now }
{
    match content {
        Content::Number(_) => true,
        Content::Same(from) | Content::Part(from, _, _) => !writes_to(instr, *from),
        Content::Computed(_, _, a, b) => !writes_to(instr, *a) && !writes_to(instr, *b),
        Content::Loaded(base, _, _) => !writes_to(instr, *base) && !changes(instr),
    }
}

// Whether a fact holds behind an instruction because of it: it is what the instruction makes of its
// slot, or says that this is the same as a slot that is known to hold that.
fn is_made(facts: &[Fact], instr: &Instr, fact: &Fact) -> bool
    ensures { IsTrue result → FollowsOne facts.now instr.now fact.now }
{
    let Some(told) = told_fact(facts, instr) else {
        return false;
    };
    if fact.slot != told.slot {
        return false;
    }
    if fact.content == told.content {
        if is_told_by(&told.content, told.slot) {
            return false;
        }
        return true;
    }
    match fact.content {
        Content::Same(from) => {
            let known = Fact {
                slot: from,
                content: told.content,
            };
            if from == told.slot {
                return false;
            }
            is_known(facts, &known)
        }
        Content::Number(_) | Content::Part(..) | Content::Computed(..) | Content::Loaded(..) => {
            false
        }
    }
}

/// Whether a fact that holds before an instruction holds behind it.
pub(crate) fn stays(facts: &[Fact], instr: &Instr, fact: &Fact) -> bool
    ensures { IsTrue result → FollowsOne facts.now instr.now fact.now }
{
    if !is_known(facts, fact) {
        return false;
    }
    if writes_to(instr, fact.slot) {
        return false;
    }
    keeps_content(instr, &fact.content)
}

/// What the way of a number behind a switch on a slot tells: the slot holds the number.
pub(crate) fn tells(slot: usize, number: u64) -> Option<Fact>
    ensures { result ≡ tells_of slot number }
{
    fact(slot, Content::Number(number))
}

// Whether a fact that a way tells holds behind an instruction: it may be told of another slot with
// the same word.
fn is_said(facts: &[Fact], told: Option<Fact>, instr: &Instr, fact: &Fact) -> bool
    ensures { IsTrue result → HoldsBehind facts.now told instr.now fact.now }
{
    let Some(said) = told else {
        return false;
    };
    let from = source(facts, said.slot);
    if fact.slot != from {
        return false;
    }
    if fact.content != said.content {
        return false;
    }
    if writes_to(instr, fact.slot) {
        return false;
    }
    keeps_content(instr, &fact.content)
}

// Whether a fact holds behind an instruction, by a way that tells `told`.
fn holds_behind(facts: &[Fact], told: Option<Fact>, instr: &Instr, fact: &Fact) -> bool
    ensures { IsTrue result → HoldsBehind facts.now told instr.now fact.now }
{
    if stays(facts, instr, fact) {
        return true;
    }
    if is_made(facts, instr, fact) {
        return true;
    }
    is_said(facts, told, instr, fact)
}

// Whether the fact with number `k` in `behind`, if there is one, holds behind an instruction, by a
// way that tells `told`.
fn follows_at(facts: &[Fact], told: Option<Fact>, instr: &Instr, behind: &[Fact], k: usize) -> bool
    ensures { IsTrue result → FollowsAt facts.now told instr.now behind.now k }
{
    match behind.get(k) {
        None => true,
        Some(fact) => holds_behind(facts, told, instr, fact),
    }
}

/// Whether the facts `behind` hold behind an instruction, by a way that tells `told`, where `facts`
/// hold before it.
pub(crate) fn follow(facts: &[Fact], told: Option<Fact>, instr: &Instr, behind: &[Fact]) -> bool
    ensures { IsTrue result → Follows facts.now told instr.now behind.now }
{
    for k in 0..behind.len() {
        if !follows_at(facts, told, instr, behind, k) {
            return false;
        }
    }
    true
}
