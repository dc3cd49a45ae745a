//! What is known of slots. `facts` are those known at some place in a body: each says of a slot
//! what it holds, its content, which is told by the slots that it names. Bits `o` up to `o + l` are
//! the `l` bits from bit `o` on, as a number.

ghost use Rattle.std.specs.Prelude.{◌≡◌, ◌<◌, ◌^◌, IfSome, IsTrue, Some, Contains};
ghost use Rattle.rb_trim.specs.declared.fact.Content.TheVariants.{Number, Same, Part};
ghost use Rattle.rb_trim.specs.inner.Following.{AreSame, IsAsMuch, IsHeld, IsNarrow, IsBelow};

use crate::fact::{Content, Fact};
use rb_bits::words::take;

/// Whether a fact is one of these.
pub(crate) fn is_known(facts: &[Fact], fact: &Fact) -> bool
    ensures { IsTrue result → Contains facts.now fact.now }
{
    facts.contains(fact)
}

/// The slot that is known to hold the same word, or else the slot itself.
pub(crate) fn source(facts: &[Fact], slot: usize) -> usize
    ensures { AreSame facts.now slot result }
{
    for fact in facts {
        if let Some(from) = same_as(fact, slot) {
            return from;
        }
    }
    slot
}

// The slot whose word a fact says that `slot` holds; None where it says no such thing.
fn same_as(fact: &Fact, slot: usize) -> Option<usize>
    ensures { IfSome result (λ from. fact.now ≡ record { slot = slot; content = Same from }) }
{
    if fact.slot != slot {
        return None;
    }
    match fact.content {
        Content::Same(from) => Some(from),
        Content::Number(_) | Content::Part(..) | Content::Computed(..) | Content::Loaded(..) => {
            None
        }
    }
}

// What a slot is known to hold, by the first fact on it; None where there is no fact on it.
fn content_of(facts: &[Fact], slot: usize) -> Option<Content>
    ensures { IfSome result (λ content. IsHeld facts.now slot content) }
{
    for fact in facts {
        if fact.slot == slot {
            return Some(fact.content);
        }
    }
    None
}

// Whether a number has at most `l` bits; false for an `l` that is 0 or above 64.
fn is_below(number: u64, l: u8) -> bool
    ensures { IsTrue result → number < 2 ^ l }
{
    if l == 0 || l > 64 {
        return false;
    }
    take(number, 0, u32::from(l)) == number
}

// Whether a content alone tells that a word has at most so many bits: never another slot's word, or
// a load.
fn fits_in(content: &Content, l: u8) -> bool
    ensures { IsTrue result → IsBelow content.now l }
{
    match content {
        Content::Number(number) => is_below(*number, l),
        Content::Part(_, _, bits) => *bits <= l,
        Content::Computed(_, bits, _, _) => 1 <= *bits && *bits <= l,
        Content::Same(_) | Content::Loaded(..) => false,
    }
}

/// Whether a slot is known to hold a word of at most so many bits.
pub(crate) fn is_narrow(facts: &[Fact], slot: usize, l: u8) -> bool
    ensures { IsTrue result → IsNarrow facts.now slot l }
{
    match content_of(facts, slot) {
        None => false,
        Some(content) => fits_in(&content, l),
    }
}

// Bits `o` up to `o + l` of a slot that holds a number, told by the number; by the slot where these
// are no bits of a word.
fn part_of_number(facts: &[Fact], slot: usize, o: u8, l: u8, number: u64) -> Content
    requires { IsHeld facts.now slot (Number number) }
    ensures { IsAsMuch facts.now (Part slot o l) result }
{
    if l == 0 || o > 63 || l > 64 - o {
        return Content::Part(slot, o, l);
    }
    Content::Number(take(number, u32::from(o), u32::from(l)))
}

// Bits `o` up to `o + l` of a slot that holds `bits` bits of slot `from`, from bit `begin` on: told
// by `from` where all of them are among these, else by the slot itself.
fn part_of_part(
    facts: &[Fact],
    slot: usize,
    o: u8,
    l: u8,
    from: usize,
    begin: u8,
    bits: u8,
) -> Content
    requires { IsHeld facts.now slot (Part from begin bits) }
    ensures { IsAsMuch facts.now (Part slot o l) result }
{
    let Some(at) = begin.checked_add(o) else {
        return Content::Part(slot, o, l);
    };
    if l > bits || o > bits - l {
        return Content::Part(slot, o, l);
    }
    Content::Part(from, at, l)
}

// Bits `o` up to `o + l` of a slot, told by what it is known to hold, or by the slot itself.
fn part_of(facts: &[Fact], slot: usize, o: u8, l: u8) -> Content
    ensures { IsAsMuch facts.now (Part slot o l) result }
{
    let Some(content) = content_of(facts, slot) else {
        return Content::Part(slot, o, l);
    };
    match content {
        Content::Number(number) => part_of_number(facts, slot, o, l, number),
        Content::Part(from, begin, bits) => part_of_part(facts, slot, o, l, from, begin, bits),
        Content::Same(_) | Content::Computed(..) | Content::Loaded(..) => Content::Part(slot, o, l),
    }
}

/// Bits `o` up to `o + l` of a slot: the word itself where they are all that it is known to have.
pub(crate) fn part(facts: &[Fact], slot: usize, o: u8, l: u8) -> Content
    ensures { IsAsMuch facts.now (Part slot o l) result }
{
    let from = source(facts, slot);
    if o == 0 && is_narrow(facts, from, l) {
        return Content::Same(from);
    }
    part_of(facts, from, o, l)
}

/// The same content, told by the slots that are known to hold the same words.
pub(crate) fn resolve(facts: &[Fact], content: Content) -> Content
    ensures { IsAsMuch facts.now content result }
{
    match content {
        Content::Number(number) => Content::Number(number),
        Content::Same(from) => Content::Same(source(facts, from)),
        Content::Part(from, o, l) => part(facts, from, o, l),
        Content::Computed(op, bits, a, b) => {
            let from_a = source(facts, a);
            let from_b = source(facts, b);
            Content::Computed(op, bits, from_a, from_b)
        }
        Content::Loaded(base, offset, width) => {
            Content::Loaded(source(facts, base), offset, width)
        }
    }
}

// What a slot holds, made anew, where that takes one instruction and no memory; else the slot's own
// word.
fn anew(facts: &[Fact], from: usize) -> Content
    ensures { IsAsMuch facts.now (Same from) result }
{
    let Some(content) = content_of(facts, from) else {
        return Content::Same(from);
    };
    match content {
        Content::Number(_) | Content::Part(..) | Content::Computed(..) => content,
        Content::Same(_) | Content::Loaded(..) => Content::Same(from),
    }
}

/// The same content; where it is another slot's word, what that slot holds is made anew, if one
/// instruction does it without memory.
pub(crate) fn remake(facts: &[Fact], content: Content) -> Content
    ensures { IsAsMuch facts.now content result }
{
    match content {
        Content::Same(from) => anew(facts, from),
        Content::Number(_) | Content::Part(..) | Content::Computed(..) | Content::Loaded(..) => {
            content
        }
    }
}
