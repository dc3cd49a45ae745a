//! Code as text: a line for each instruction. A line is its first word, which says what it is, the
//! other words, each after a blank, and the line's end. A [`LineWord`] is one of an instruction's line
//! after the first. A function that adds to a list and ends for want of memory leaves there what it
//! added until then.

ghost use Rattle.std.specs.Prelude.{◌≡◌, ◌++◌, ◌∷◌, [], IfOk, List};
ghost use Rattle.rb_target.specs.Validity.{IsValid};
ghost use Rattle.rb_target.specs.Text.{line_words, spaced_text, line_word_text, line, body_text, fun_text, code_text, numbers, pairs};

use crate::code::{Code, CodeFun};
use crate::instr::{Instr, SwitchArm};
use crate::word::{LineWord, key_name, key_of, op_name};
use rb_core::decimal::digits;
use std::alloc::{AllocError, Global};

// Adds the words of some slots, their numbers, in their order.
fn push_slots(words: &mut Vec<LineWord>, slots: &[usize]) -> Result<(), AllocError>
    ensures { IfOk result (λ _. words.new.items ≡ words.old.items ++ numbers slots.now) }
{
    for slot in slots {
        words.push(LineWord::Number(*slot as u64))?;
    }
    Ok(())
}

// Adds the words of a switch's arms, in their order: of each its number, then its target.
fn push_arms(words: &mut Vec<LineWord>, arms: &[SwitchArm]) -> Result<(), AllocError>
    ensures { IfOk result (λ _. words.new.items ≡ words.old.items ++ pairs arms.now) }
{
    for arm in arms {
        push_numbers(words, &[arm.number, arm.target as u64])?;
    }
    Ok(())
}

// Adds the words of some numbers, in their order.
fn push_numbers(words: &mut Vec<LineWord>, items: &[u64]) -> Result<(), AllocError>
    ensures { IfOk result (λ _. words.new.items ≡ words.old.items ++ numbers items.now) }
{
    for item in items {
        words.push(LineWord::Number(*item))?;
    }
    Ok(())
}

// A new list with the words of some numbers, in their order.
fn plain(alloc: Global, items: &[u64]) -> Result<Vec<LineWord>, AllocError>
    ensures { IfOk result (λ v. v.items ≡ numbers items.now) }
{
    let mut words = Vec::new(alloc);
    push_numbers(&mut words, items)?;
    Ok(words)
}

// The words of an instruction's line after its first: its parts in their order.
fn words(alloc: Global, instr: &Instr) -> Result<Vec<LineWord>, AllocError>
    ensures { IfOk result (λ v. v.items ≡ line_words instr.now) }
{
    match instr {
        Instr::Const(dest, number) => plain(alloc, &[*dest as u64, *number]),
        Instr::Copy(dest, from) => plain(alloc, &[*dest as u64, *from as u64]),
        Instr::Alu(op, bits, dest, left, right) => {
            let slots = [*bits as u64, *dest as u64, *left as u64, *right as u64];
            let mut words = Vec::new(alloc);
            words.push(LineWord::Op(*op))?;
            push_numbers(&mut words, &slots)?;
            Ok(words)
        }
        Instr::Take(dest, from, o, l) | Instr::Put(dest, from, o, l) => plain(
            alloc,
            &[*dest as u64, *from as u64, u64::from(*o), u64::from(*l)],
        ),
        Instr::Load(dest, base, offset, width) => plain(
            alloc,
            &[*dest as u64, *base as u64, *offset, u64::from(*width)],
        ),
        Instr::Store(base, offset, width, from) => plain(
            alloc,
            &[*base as u64, *offset, u64::from(*width), *from as u64],
        ),
        Instr::Place(dest, size, align) => plain(alloc, &[*dest as u64, *size, *align]),
        Instr::Jump(target) => plain(alloc, &[*target as u64]),
        Instr::Switch(from, other, arms) => switch_words(alloc, *from, *other, arms.as_slice()),
        Instr::Call(fun, dests, froms) => {
            call_words(alloc, *fun, dests.as_slice(), froms.as_slice())
        }
        Instr::Return(froms) => {
            let mut words = Vec::new(alloc);
            push_slots(&mut words, froms.as_slice())?;
            Ok(words)
        }
    }
}

// The words of a switch's line after its first: the slot that chooses, the other target or a dash
// where there is none, and the arms.
fn switch_words(
    alloc: Global,
    from: usize,
    other: Option<usize>,
    arms: &[SwitchArm],
) -> Result<Vec<LineWord>, AllocError>
    ensures { IfOk result (λ v. v.items ≡ line_words (Instr.Switch from other arms.now)) }
{
    let mut words = plain(alloc, &[from as u64])?;
    match other {
        Some(target) => words.push(LineWord::Number(target as u64))?,
        None => words.push(LineWord::Dash)?,
    }
    push_arms(&mut words, arms)?;
    Ok(words)
}

// The words of a call's line after its first: the function's number, the slots for its results,
// `of`, and the slots of its words.
fn call_words(
    alloc: Global,
    fun: usize,
    dests: &[usize],
    froms: &[usize],
) -> Result<Vec<LineWord>, AllocError>
    ensures { IfOk result (λ v. v.items ≡ line_words (Instr.Call fun dests.now froms.now)) }
{
    let mut words = plain(alloc, &[fun as u64])?;
    push_slots(&mut words, dests)?;
    words.push(LineWord::Of)?;
    push_slots(&mut words, froms)?;
    Ok(words)
}

// Adds a blank and a word to a text.
fn push_word(text: &mut Vec<u8>, word: LineWord) -> Result<(), AllocError>
    ensures { IfOk result (λ _. text.new.items ≡ text.old.items ++ 32 ∷ line_word_text word) }
{
    text.push(b' ')?;
    match word {
        LineWord::Number(number) => text.extend_from_slice(digits(number).as_slice())?,
        LineWord::Op(op) => text.extend_from_slice(op_name(op))?,
        LineWord::Dash => text.push(b'-')?,
        LineWord::Of => text.extend_from_slice(b"of")?,
    }
    Ok(())
}

// Adds a line to a text: its first word, the others each after a blank, and the line's end.
fn push_line(text: &mut Vec<u8>, first: &[u8], words: &[LineWord]) -> Result<(), AllocError>
    ensures { IfOk result (λ _. text.new.items ≡ text.old.items ++ line first.now words.now) }
{
    text.extend_from_slice(first)?;
    push_words(text, words)?;
    text.push(b'\n')?;
    Ok(())
}

// Adds words to a text, each after a blank.
fn push_words(text: &mut Vec<u8>, words: &[LineWord]) -> Result<(), AllocError>
    ensures { IfOk result (λ _. text.new.items ≡ text.old.items ++ spaced_text words.now) }
{
    for word in words {
        push_word(text, *word)?;
    }
    Ok(())
}

// Adds the lines of a body to a text, one an instruction.
fn push_body(alloc: Global, text: &mut Vec<u8>, body: &[Instr]) -> Result<(), AllocError>
    ensures { IfOk result (λ _. text.new.items ≡ text.old.items ++ body_text body.now) }
{
    for instr in body {
        let words = words(alloc, instr)?;
        push_line(text, key_name(key_of(instr)), words.as_slice())?;
    }
    Ok(())
}

// Adds a function to a text: its first line, the lines of its body, and the line `end`.
fn push_fun(alloc: Global, text: &mut Vec<u8>, fun: &CodeFun) -> Result<(), AllocError>
    ensures { IfOk result (λ _. text.new.items ≡ text.old.items ++ fun_text fun.now) }
{
    let counts = plain(
        alloc,
        &[fun.params as u64, fun.results as u64, fun.slots as u64],
    )?;
    text.extend_from_slice(b"fun ")?;
    push_line(text, fun.name.as_slice(), counts.as_slice())?;
    push_body(alloc, text, fun.body.as_slice())?;
    push_line(text, b"end", &[])?;
    Ok(())
}

/// The text of code. A function begins with the line `fun NAME PARAMS RESULTS SLOTS`; a line for
/// each instruction follows, and `end` closes it. No other code has the same text.
///
/// # Errors
///
/// Want of memory.
pub fn spell_code(alloc: Global, code: &Code) -> Result<Vec<u8>, AllocError>
    ensures text { IfOk result (λ v. v.items ≡ code_text code.now) }
    ensures one_to_one { (funs : List CodeFun) → IsValid funs → code_text funs ≡ code_text code.now
        → funs ≡ code.now }
{
    let mut text = Vec::new(alloc);
    let funs = code.funs();
    for fun in funs {
        push_fun(alloc, &mut text, fun)?;
    }
    Ok(text)
}
