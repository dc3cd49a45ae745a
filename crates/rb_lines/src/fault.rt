//! The lines of faults of texts, limits and names. Where a fault stands, `at`, is a byte of the
//! file, counted from 0. Every error is want of memory.

ghost use Rattle.std.specs.Prelude.{◌≡◌, IfOk};
ghost use Rattle.rb_lines.specs.FileLines as line;

use crate::line::{begin, end};
use rb_core::text::{push, push_number};
use rb_read::fault::Quantity;
use rb_read::limits::greatest;
use std::alloc::{AllocError, Global};

/// The line of a fault, told by its words, and of the byte where it stands.
///
/// # Errors
///
/// Want of memory.
pub fn at_byte(alloc: Global, fault: &str, at: u64) -> Result<Vec<u8>, AllocError>
    ensures { IfOk result (λ text. text.items ≡ line.at_byte fault.now at) }
{
    Ok(format!(in alloc; "ribbit: {fault} at byte {at}\n")?.into_bytes())
}

// What a limit counts, as words.
fn quantity(quantity: Quantity) -> &'static str
    ensures { result.now ≡ line.quantity_text quantity }
{
    match quantity {
        Quantity::FileBytes => "file bytes",
        Quantity::Types => "types",
        Quantity::Functions => "functions",
        Quantity::Constructors => "constructors",
        Quantity::Fields => "fields",
        Quantity::Parameters => "parameters",
        Quantity::ShapeWords => "shape words",
    }
}

/// The line of a count over its limit: what is counted, how many there are, and the limit.
///
/// # Errors
///
/// Want of memory.
pub fn limit(alloc: Global, over: Quantity, count: u64) -> Result<Vec<u8>, AllocError>
    ensures { IfOk result (λ text. text.items ≡ line.limit_line over count) }
{
    let quantity = quantity(over);
    let greatest = greatest(over);
    let line = format!(in alloc; "ribbit: limit {quantity}: {count} over {greatest}\n")?;
    Ok(line.into_bytes())
}

/// The line of a text that nests over so many levels, with the byte at which it does.
///
/// # Errors
///
/// Want of memory.
pub fn nesting(alloc: Global, levels: u64, at: u64) -> Result<Vec<u8>, AllocError>
    ensures { IfOk result (λ text. text.items ≡ line.nesting_line levels at) }
{
    Ok(format!(in alloc; "ribbit: nesting over {levels} at byte {at}\n")?.into_bytes())
}

/// The line of a name that stands for nothing, with the byte where the name stands.
///
/// # Errors
///
/// Want of memory.
pub fn unknown(alloc: Global, name: &[u8], at: u64) -> Result<Vec<u8>, AllocError>
    ensures { IfOk result (λ text. text.items ≡ line.unknown_line name.now at) }
{
    let mut text = begin(alloc, b"unknown name ")?;
    push(&mut text, name)?;
    push(&mut text, b" at byte ")?;
    push_number(&mut text, at)?;
    end(text)
}

/// The line of a name that was defined before, with the byte where the name stands again.
///
/// # Errors
///
/// Want of memory.
pub fn twice(alloc: Global, name: &[u8], at: u64) -> Result<Vec<u8>, AllocError>
    ensures { IfOk result (λ text. text.items ≡ line.twice_line name.now at) }
{
    let mut text = begin(alloc, b"name ")?;
    push(&mut text, name)?;
    push(&mut text, b" twice at byte ")?;
    push_number(&mut text, at)?;
    end(text)
}

/// The line of a file without `main`.
///
/// # Errors
///
/// Want of memory.
pub fn no_main(alloc: Global) -> Result<Vec<u8>, AllocError>
    ensures { IfOk result (λ text. text.items ≡ line.no_main_line) }
{
    Vec::from_slice(alloc, b"ribbit: no function main\n")
}
