//! Where locations lead, as reads. A read is a number that code can make from slots and loads. A
//! location begins at a range of bits of one of some words, and each of its steps takes an address
//! from the range before it and loads a word from there. A span is the range of bits to which it
//! leads.

ghost use Rattle.std.specs.Prelude.{◌≡◌, ◌+◌, ◌≤◌, true, IfOk, slice_get};
ghost use Rattle.rb_fetch.specs.inner.Reads.{is_all, IsSameRange, ReadsRange, read_or, reach, SpansLoc, span_on};

use rb_compose::count::bits;
use rb_core::boxed::Boxed;
use rb_core::layout_decl::{Loc, Step};
use rb_fragment::reads::Read;
use std::alloc::{AllocError, Global};

/// The `l` bits from bit `o` on of the word that `read` means. The word has at most `width` bits,
/// where that is known.
#[derive(Drop)]
pub struct Span {
    pub read: Read,
    pub width: Option<u64>,
    pub o: u64,
    pub l: u64,
}

/// The range to which a location leads from words that are reads: each step takes an address and loads
/// from there. The word at which the location begins has at most `width` bits, where that is known.
///
/// # Errors
///
/// Want of memory.
pub fn span_at(
    alloc: Global,
    words: &[Read],
    width: Option<u64>,
    loc: &Loc,
) -> Result<Span, AllocError>
    ensures { IfOk result (λ span. SpansLoc words.now width loc.now span) }
{
    let read = word_at(alloc, words, loc.word)?;
    let first = narrowed_span(Span {
        read,
        width,
        o: loc.o,
        l: loc.l,
    });
    let span = span_behind(alloc, first, loc.steps.as_slice())?;
    Ok(span)
}

// The same bits, where their word is itself a range of bits of another read, as bits of that one,
// if they lie within; else the range as it is.
fn narrowed_span(span: Span) -> Span
    ensures { IsSameRange span result }
{
    let Span { read, width, o, l } = span;
    match read {
        Read::Bits(inner, from, count) => {
            if is_within(o, l, from as u64, count as u64) {
                let read = inner.into_inner();
                return Span {
                    read,
                    width: None,
                    o: from as u64 + o,
                    l,
                };
            }
            Span {
                read: Read::Bits(inner, from, count),
                width,
                o,
                l,
            }
        }
        Read::Slot(_)
        | Read::Number(_)
        | Read::Address(_, _, _, _)
        | Read::Loaded(_, _, _)
        | Read::Joined(_) => Span { read, width, o, l },
    }
}

// Whether `l` bits from bit `o` on lie in `count` bits, and these lie in a word from its bit `from`
// on.
fn is_within(o: u64, l: u64, from: u64, count: u64) -> bool
    ensures { result ≡ true → (o + l ≤ count) × (from + count ≤ 64) }
{
    if from > 64 || count > 64 - from {
        return false;
    }
    o <= count && l <= count - o
}

// The range to which steps lead from a range, one after the other; the range itself without steps.
fn span_behind(alloc: Global, first: Span, steps: &[Step]) -> Result<Span, AllocError>
    ensures { IfOk result (λ span. span ≡ span_on first steps.now) }
{
    let mut span = first;
    for step in steps {
        let Span { read, width, o, l } = span;
        let count = reach(width, o, l);
        let address = Read::Address(Boxed::new(alloc, read)?, bits(o), bits(count), step.align);
        let read = Read::Loaded(Boxed::new(alloc, address)?, step.byte, bits(step.width));
        span = Span {
            read,
            width: Some(step.width),
            o: step.o,
            l: step.l,
        };
    }
    Ok(span)
}

// How many bits of a slot are taken for `l` bits of a word from bit `o` on: all 64 where the word
// has no others, so that no mask is needed.
fn reach(width: Option<u64>, o: u64, l: u64) -> u64
    ensures { result ≡ reach width o l }
{
    if is_all(width, o, l) { 64 } else { l }
}

/// The bits of a range: the word itself where it has no others.
///
/// # Errors
///
/// Want of memory.
pub fn span_bits(alloc: Global, span: Span) -> Result<Read, AllocError>
    ensures { IfOk result (λ read. ReadsRange span read) }
{
    let Span { read, width, o, l } = span;
    if is_all(width, o, l) {
        return Ok(read);
    }
    Ok(Read::Bits(Boxed::new(alloc, read)?, bits(o), bits(l)))
}

// Whether a range is all bits that a word of this width may have; never where no width is known.
fn is_all(width: Option<u64>, o: u64, l: u64) -> bool
    ensures { result ≡ is_all width o l }
{
    match width {
        None => false,
        Some(width) => o == 0 && l == width,
    }
}

// A copy of one of the words; past their end, where no location leads, the number 0.
fn word_at(alloc: Global, words: &[Read], word: u64) -> Result<Read, AllocError>
    ensures { IfOk result (λ read. read ≡ read_or (slice_get words.now word)) }
{
    match words.get(word as usize) {
        None => Ok(Read::Number(0)),
        Some(read) => {
            let copy = read.copy(alloc)?;
            Ok(copy)
        }
    }
}
