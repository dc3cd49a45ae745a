//! How lines begin and end, and the lines of no subject of their own.
//!
//! A region is the part of memory in which a run makes its blocks. A trap ends a run: by an access
//! that no block holds, by the reading of a byte that was not written, or by a word that a switch
//! has no arm for. The nodes of a value are its numbers and constructors, inner ones among them.
//! Every error is want of memory.

ghost use Rattle.std.specs.Prelude.{◌≡◌, ◌∷◌, ◌++◌, OnOk, IfOk};
ghost use Rattle.std.specs.Fmt.{decimal};
ghost use Rattle.rb_show.specs.Lines as shown;
ghost use Rattle.rb_lines.specs.Lines as line;

use crate::numbers::{ASTRAY, BAD_CALL, BAD_JUMP, BAD_SLOT, CODE_SYNTAX, UNMATCHED, UNWRITTEN};
use rb_bytes::fault::{Full, Trap};
use rb_core::text::{push, push_number};
use rb_target::fault::CodeFault;
use std::alloc::{AllocError, Global};

/// The line of a file that is not read.
pub const READ_FAULT: &[u8] = b"ribbit: read fault\n";

/// The line of a write that failed.
pub const WRITE_FAULT: &[u8] = b"ribbit: write fault\n";

/// The line of want of memory. To write it as it stands takes no memory.
pub const NO_MEMORY: &[u8] = b"ribbit: no memory\n";

/// The beginning of a line: the program's name and these bytes.
///
/// # Errors
///
/// Want of memory.
pub fn begin(alloc: Global, bytes: &[u8]) -> Result<Vec<u8>, AllocError>
    ensures { IfOk result (λ text. text.items ≡ line.named_line bytes.now) }
{
    let mut text = Vec::from_slice(alloc, b"ribbit: ")?;
    push(&mut text, bytes)?;
    Ok(text)
}

/// The text with a newline behind it, which ends the line.
///
/// # Errors
///
/// Want of memory.
pub fn end(text: Vec<u8>) -> Result<Vec<u8>, AllocError>
    ensures { IfOk result (λ ended. ended.items ≡ shown.line text.items) }
{
    let mut text = text;
    push(&mut text, b"\n")?;
    Ok(text)
}

/// The line of a command line whose word of this number is at fault.
///
/// # Errors
///
/// Want of memory.
pub fn usage(alloc: Global, word: u64) -> Result<Vec<u8>, AllocError>
    ensures { IfOk result (λ text. text.items ≡ line.usage_line word) }
{
    Ok(format!(in alloc; "ribbit: usage at word {word}\n")?.into_bytes())
}

/// The line of a file with more bytes than its limit.
///
/// # Errors
///
/// Want of memory.
pub fn file_bytes(alloc: Global, count: u64, limit: u64) -> Result<Vec<u8>, AllocError>
    ensures { IfOk result (λ text. text.items ≡ line.file_bytes_line count limit) }
{
    Ok(format!(in alloc; "ribbit: limit file bytes: {count} over {limit}\n")?.into_bytes())
}

/// The line of a run that would make more than `calls` calls.
///
/// # Errors
///
/// Want of memory.
pub fn calls_spent(alloc: Global, calls: u64) -> Result<Vec<u8>, AllocError>
    ensures { IfOk result (λ text. text.items ≡ line.spent_line calls) }
{
    Ok(format!(in alloc; "ribbit: calls spent: {calls}\n")?.into_bytes())
}

/// The line of a number of arguments that is not the function's.
///
/// # Errors
///
/// Want of memory.
pub fn count(alloc: Global, wanted: u64, found: u64) -> Result<Vec<u8>, AllocError>
    ensures { IfOk result (λ text. text.items ≡ line.count_line wanted found) }
{
    Ok(format!(in alloc; "ribbit: wanted {wanted} arguments, found {found}\n")?.into_bytes())
}

/// The line of a value with more nodes than `limit`.
///
/// # Errors
///
/// Want of memory.
pub fn large(alloc: Global, limit: u64) -> Result<Vec<u8>, AllocError>
    ensures { IfOk result (λ text. text.items ≡ line.large_line limit) }
{
    Ok(format!(in alloc; "ribbit: value over {limit} nodes\n")?.into_bytes())
}

/// The line of code without a function of this name.
///
/// # Errors
///
/// Want of memory.
pub fn no_function(alloc: Global, name: &[u8]) -> Result<Vec<u8>, AllocError>
    ensures { IfOk result (λ text. text.items ≡ line.no_function_line name.now) }
{
    let mut text = begin(alloc, b"no function ")?;
    push(&mut text, name)?;
    end(text)
}

/// The line of a block that doesn't fit into the region.
///
/// # Errors
///
/// Want of memory.
pub fn full(alloc: Global, full: Full) -> Result<Vec<u8>, AllocError>
    ensures { IfOk result (λ text. text.items ≡ line.full_line full) }
{
    let Full {
        next,
        size,
        align,
        limit,
    } = full;
    let line = format!(in alloc;
        "ribbit: region full: next {next}, size {size}, align {align}, limit {limit}\n"
    )?;
    Ok(line.into_bytes())
}

/// The line of a trap, with its number.
///
/// # Errors
///
/// Want of memory.
pub fn trap(alloc: Global, trap: Trap) -> Result<Vec<u8>, AllocError>
    ensures { IfOk result (λ text. text.items ≡ line.trap_line trap) }
{
    match trap {
        Trap::Astray(base, offset) => {
            let line = format!(in alloc; "ribbit: trap {ASTRAY}: base {base}, offset {offset}\n")?;
            Ok(line.into_bytes())
        }
        Trap::Unwritten(address) => {
            let line = format!(in alloc; "ribbit: trap {UNWRITTEN}: address {address}\n")?;
            Ok(line.into_bytes())
        }
        Trap::Unmatched(word) => {
            let line = format!(in alloc; "ribbit: trap {UNMATCHED}: word {word}\n")?;
            Ok(line.into_bytes())
        }
    }
}

// The line of a fault of this kind at an instruction of a function.
fn at_instruction(
    alloc: Global,
    kind: u64,
    function: u64,
    instruction: u64,
) -> Result<Vec<u8>, AllocError>
    ensures { IfOk result (λ text. text.items ≡ line.at_instruction kind function instruction) }
{
    let line = format!(in alloc;
        "ribbit: code {kind}: function {function}, instruction {instruction}\n"
    )?;
    Ok(line.into_bytes())
}

/// The line of bytes that are no code; for the fault `Memory`, the line of want of memory.
///
/// # Errors
///
/// Want of memory.
pub fn code(alloc: Global, fault: CodeFault) -> Result<Vec<u8>, AllocError>
    ensures { IfOk result (λ text. text.items ≡ line.code_line fault) }
{
    match fault {
        CodeFault::CodeSyntax(at) => {
            let line = format!(in alloc; "ribbit: code {CODE_SYNTAX} at byte {at}\n")?;
            Ok(line.into_bytes())
        }
        CodeFault::BadSlot(function, instruction) => {
            at_instruction(alloc, BAD_SLOT, function, instruction)
        }
        CodeFault::BadJump(function, instruction) => {
            at_instruction(alloc, BAD_JUMP, function, instruction)
        }
        CodeFault::BadCall(function, instruction) => {
            at_instruction(alloc, BAD_CALL, function, instruction)
        }
        CodeFault::Memory => Vec::from_slice(alloc, NO_MEMORY),
    }
}

// The text with a blank and a number behind it, in decimal digits.
fn push_word(alloc: Global, text: &mut Vec<u8>, number: u64) -> Result<(), AllocError>
    ensures { OnOk result (text.new.items ≡ text.old.items ++ 32 ∷ decimal number) }
{
    push(text, format!(in alloc; " {number}")?.as_bytes())
}

// The text with the numbers behind it, each after a blank, in decimal digits.
fn push_spaced(alloc: Global, text: &mut Vec<u8>, numbers: &[u64]) -> Result<(), AllocError>
    ensures { OnOk result (text.new.items ≡ text.old.items ++ line.numbers_after_blanks numbers.now) }
{
    for number in numbers {
        push_word(alloc, text, *number)?;
    }
    Ok(())
}

/// The line of numbers in decimal digits, with one blank between.
///
/// # Errors
///
/// Want of memory.
pub fn words(alloc: Global, words: &[u64]) -> Result<Vec<u8>, AllocError>
    ensures { IfOk result (λ text. text.items ≡ line.words_line words.now) }
{
    let mut text = Vec::new(alloc);
    if let [first, rest @ ..] = words {
        push_number(&mut text, *first)?;
        push_spaced(alloc, &mut text, rest)?;
    }
    end(text)
}
