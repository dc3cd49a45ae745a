//! Lines that are read in part, by the table of fields, and the instructions that they become at
//! their ends.

ghost use Rattle.std.specs.Prelude.{◌≡◌, IfOk, slice_get, drop, map};
ghost use Rattle.rb_target.specs.inner.Fields as spec;

use super::spot::{Field, Line};
use crate::instr::{AluOp, Instr, MOST_OFFSET, SwitchArm};
use crate::word::{Key, LineWord};
use rb_bytes::memory::MOST_BLOCK;
use rb_core::seq::Seq;
use std::alloc::{AllocError, Global};

// Fields ---------------------------------------------------------------------------------------

impl Key {
    // The table of fields: what the words behind a key may be, one field after the other. For a
    // list it has the field of an item; the field of a length of bits is not in it, as the offset
    // before says how great a length may be.
    fn fields(self) -> &'static [Field]
        ensures { result.now ≡ spec.fields self }
    {
        match self {
            Key::Const | Key::Copy => &[Field::Any, Field::Any],
            Key::Alu => &[
                Field::Operation,
                Field::FromOne(64),
                Field::Any,
                Field::Any,
                Field::Any,
            ],
            Key::Take | Key::Put => &[Field::Any, Field::Any, Field::Range],
            Key::Load => &[
                Field::Any,
                Field::Any,
                Field::Upto(MOST_OFFSET),
                Field::Width,
            ],
            Key::Store => &[
                Field::Any,
                Field::Upto(MOST_OFFSET),
                Field::Width,
                Field::Any,
            ],
            Key::Place => &[Field::Any, Field::FromOne(MOST_BLOCK), Field::Align],
            Key::Jump => &[Field::Any],
            Key::Switch => &[Field::Any, Field::OrDash, Field::Pairs],
            Key::Call => &[Field::Any, Field::OrOf, Field::Slots],
            Key::Return => &[Field::Slots],
        }
    }
}

// The fields to come behind a word in the first of those given; none where none are left. Behind
// an offset of bits comes the length that fits; a list leaves a field for its next item.
fn fields_after(rest: Seq<Field>, word: LineWord) -> Seq<Field>
    ensures { result ≡ spec.fields_after rest word }
{
    let mut fields = rest.into_vec();
    if fields.is_empty() {
        return Seq::from_vec(fields);
    }
    match (fields[0], word) {
        (Field::Range, LineWord::Number(offset)) => {
            fields[0] = Field::FromOne(64u64.saturating_sub(offset));
        }
        (Field::Pairs, _) => fields[0] = Field::Target,
        (Field::Target, _) => fields[0] = Field::Pairs,
        (Field::OrOf, LineWord::Number(_)) | (Field::Slots, _) => {}
        (
            Field::Any
            | Field::Upto(_)
            | Field::FromOne(_)
            | Field::Width
            | Field::Align
            | Field::Range
            | Field::Operation
            | Field::OrDash
            | Field::OrOf
            | Field::Nothing,
            _,
        ) => {
            fields.remove(0);
        }
    }
    Seq::from_vec(fields)
}

impl Line {
    /// The line behind its key, of which no other word is read.
    ///
    /// # Errors
    ///
    /// Want of memory.
    pub fn first(alloc: Global, key: Key) -> Result<Line, AllocError>
        ensures { IfOk result (λ l. l ≡ spec.first_line key) }
    {
        Ok(Line {
            key,
            words: Seq::new(alloc),
            rest: Seq::from_vec(Vec::from_slice(alloc, key.fields())?),
        })
    }

    /// What the next word may be; `Nothing` where no field is left.
    pub fn field(&self) -> Field
        ensures { result ≡ spec.next_field self.now.rest }
    {
        match self.rest.as_slice() {
            [] => Field::Nothing,
            [field, ..] => *field,
        }
    }

    /// Whether the line may end here: where no field is left, or a list may go on that needs no
    /// item more.
    pub fn may_end(&self) -> bool
        ensures { result ≡ spec.may_end self.now.rest }
    {
        match self.rest.as_slice() {
            [] | [Field::Pairs, ..] | [Field::Slots, ..] => true,
            [
                Field::Any
                | Field::Upto(_)
                | Field::FromOne(_)
                | Field::Width
                | Field::Align
                | Field::Range
                | Field::Operation
                | Field::OrDash
                | Field::Target
                | Field::OrOf
                | Field::Nothing,
                ..
            ] => false,
        }
    }

    /// The line with one word more, which may stand in the next field.
    ///
    /// # Errors
    ///
    /// Want of memory.
    pub fn with_word(self, word: LineWord) -> Result<Line, AllocError>
        ensures { IfOk result (λ l. l ≡ spec.after_word self word) }
    {
        let Line {
            key,
            mut words,
            rest,
        } = self;
        words.push(word)?;
        Ok(Line {
            key,
            words,
            rest: fields_after(rest, word),
        })
    }

    /// The instruction that the line's key and words spell, where it is whole.
    ///
    /// # Errors
    ///
    /// Want of memory.
    pub fn instruction(&self, alloc: Global) -> Result<Instr, AllocError>
        ensures { IfOk result (λ i. i ≡ spec.instruction_of self.now.key self.now.words) }
    {
        instruction_of(alloc, self.key, self.words.as_slice())
    }
}

// Instructions ---------------------------------------------------------------------------------

// The number that a word is, or 0 for a word that is no number.
fn value_of(word: LineWord) -> u64
    ensures { result ≡ spec.value_of word }
{
    match word {
        LineWord::Number(n) => n,
        LineWord::Op(_) | LineWord::Dash | LineWord::Of => 0,
    }
}

// The number at a place among the words, or 0 if there is no word or it is no number.
fn number_at(words: &[LineWord], at: usize) -> u64
    ensures { result ≡ spec.number_at words.now at }
{
    match words.get(at).copied() {
        Some(word) => value_of(word),
        None => 0,
    }
}

// The number at a place as a slot, a target or a function's number, or 0 as above.
fn slot_at(words: &[LineWord], at: usize) -> usize
    ensures { result ≡ spec.number_at words.now at }
{
    number_at(words, at) as usize
}

// The number at a place as a byte: its last eight bits, which are the whole number in a whole
// line, as numbers of bits, offsets and lengths of bits and widths are at most 64 there.
fn byte_at(words: &[LineWord], at: usize) -> u8
    ensures { result ≡ spec.byte_at words.now at }
{
    (number_at(words, at) % 256) as u8
}

// The operation at a place, or `Add` if there is no word or it is none.
fn op_at(words: &[LineWord], at: usize) -> AluOp
    ensures { result ≡ spec.op_in (slice_get words.now at) }
{
    match words.get(at).copied() {
        Some(LineWord::Op(op)) => op,
        Some(LineWord::Number(_) | LineWord::Dash | LineWord::Of) | None => AluOp::Add,
    }
}

// The other target of a switch, at a place; none if there is no word or it is no number, as `-`.
fn target_at(words: &[LineWord], at: usize) -> Option<usize>
    ensures { result ≡ spec.other_in (slice_get words.now at) }
{
    match words.get(at).copied() {
        Some(LineWord::Number(n)) => Some(n as usize),
        Some(LineWord::Op(_) | LineWord::Dash | LineWord::Of) | None => None,
    }
}

// The words from a place on; none where there are not so many.
fn words_from(words: &[LineWord], at: usize) -> &[LineWord]
    ensures { result.now ≡ drop at words.now }
{
    words.split_at(words.len().min(at)).1
}

// The slots that words spell, each word one.
fn slots_in(alloc: Global, words: &[LineWord]) -> Result<Seq<usize>, AllocError>
    ensures { IfOk result (λ s. s ≡ map spec.value_of words.now) }
{
    let mut slots = Seq::new(alloc);
    for word in words {
        slots.push(value_of(*word) as usize)?;
    }
    Ok(slots)
}

/// The arms that are read, and the number of one more whose target is not, or none.
#[derive(Drop)]
pub struct Arms {
    arms: Seq<SwitchArm>,
    number: Option<u64>,
}

// The arms with one word more: the number of an arm, or the target behind it.
fn arms_with(read: Arms, word: LineWord) -> Result<Arms, AllocError>
    ensures { IfOk result (λ a. a ≡ spec.arms_with_word read word) }
{
    let Arms { mut arms, number } = read;
    let value = value_of(word);
    match number {
        None => Ok(Arms {
            arms,
            number: Some(value),
        }),
        Some(number) => {
            let target = value as usize;
            arms.push(SwitchArm { number, target })?;
            Ok(Arms { arms, number: None })
        }
    }
}

// The arms that words spell, each a number and its target; a last number without a target is left
// out.
fn arms_in(alloc: Global, words: &[LineWord]) -> Result<Seq<SwitchArm>, AllocError>
    ensures { IfOk result (λ arms. arms ≡ spec.arms_in words.now) }
{
    let mut read = Arms {
        arms: Seq::new(alloc),
        number: None,
    };
    for word in words {
        read = arms_with(read, *word)?;
    }
    let Arms { arms, .. } = read;
    Ok(arms)
}

/// The two lists of a call as far as they are read, the slots of its results and those of its
/// arguments, and whether the `of` between them is read.
#[derive(Drop)]
pub struct Lists {
    dests: Seq<usize>,
    froms: Seq<usize>,
    behind: bool,
}

// The lists with one word more: `of` begins the second, and once more it changes nothing.
fn lists_with(read: Lists, word: LineWord) -> Result<Lists, AllocError>
    ensures { IfOk result (λ l. l ≡ spec.lists_with_word read word) }
{
    let Lists {
        mut dests,
        mut froms,
        behind,
    } = read;
    match word {
        LineWord::Of => Ok(Lists {
            dests,
            froms,
            behind: true,
        }),
        LineWord::Number(_) | LineWord::Op(_) | LineWord::Dash => {
            let slot = value_of(word) as usize;
            if behind {
                froms.push(slot)?;
            } else {
                dests.push(slot)?;
            }
            Ok(Lists {
                dests,
                froms,
                behind,
            })
        }
    }
}

// The two lists that words spell, the first before `of` and the second behind it; without `of` the
// second is empty.
fn lists_in(alloc: Global, words: &[LineWord]) -> Result<Lists, AllocError>
    ensures { IfOk result (λ l. l ≡ spec.lists_in words.now) }
{
    let mut read = Lists {
        dests: Seq::new(alloc),
        froms: Seq::new(alloc),
        behind: false,
    };
    for word in words {
        read = lists_with(read, *word)?;
    }
    Ok(read)
}

// The instruction that a key and the words of a whole line behind it spell; for words of no whole
// line, 0 stands for a number that is missing and `Add` for an operation.
fn instruction_of(alloc: Global, key: Key, words: &[LineWord]) -> Result<Instr, AllocError>
    ensures { IfOk result (λ i. i ≡ spec.instruction_of key words.now) }
{
    let (first, second) = (slot_at(words, 0), slot_at(words, 1));
    Ok(match key {
        Key::Const => Instr::Const(first, number_at(words, 1)),
        Key::Copy => Instr::Copy(first, second),
        Key::Alu => Instr::Alu(
            op_at(words, 0),
            byte_at(words, 1),
            slot_at(words, 2),
            slot_at(words, 3),
            slot_at(words, 4),
        ),
        Key::Take => Instr::Take(first, second, byte_at(words, 2), byte_at(words, 3)),
        Key::Put => Instr::Put(first, second, byte_at(words, 2), byte_at(words, 3)),
        Key::Load => Instr::Load(first, second, number_at(words, 2), byte_at(words, 3)),
        Key::Store => {
            let from = slot_at(words, 3);
            Instr::Store(first, number_at(words, 1), byte_at(words, 2), from)
        }
        Key::Place => Instr::Place(first, number_at(words, 1), number_at(words, 2)),
        Key::Jump => Instr::Jump(first),
        Key::Switch => {
            let arms = arms_in(alloc, words_from(words, 2))?;
            Instr::Switch(first, target_at(words, 1), arms)
        }
        Key::Call => {
            let Lists { dests, froms, .. } = lists_in(alloc, words_from(words, 1))?;
            Instr::Call(first, dests, froms)
        }
        Key::Return => Instr::Return(slots_in(alloc, words)?),
    })
}
