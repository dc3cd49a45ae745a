//! The commands `gen` and `genrun`: a file of so many functions that call each other in turn, and
//! its run.
//!
//! Beside functions that build a list of the numbers from 1 to 3,000, the file has functions `f0`,
//! `f1` and so on. Each adds the first item of a list to what the next function makes of the
//! others, and behind the last stands the first. So the run gives 4,501,500, whichever their
//! number.

ghost use Rattle.std.specs.Prelude.{◌≡◌, ◌++◌, ℕ, IfOk, OnOk};
ghost use Rattle.rb_command.specs.View.{limits_view};
ghost use Rattle.rb_lines.specs.View.{Meets};
ghost use Rattle.ribbit_tool.specs.Generate.{CountsGenerated, Generates, generated_file, sum_line, sum_lines};

use crate::count::count_bytes;
use rb_command::limits::{Functions, Limits};
use rb_core::text::push;
use rb_edge::steps::{Ledger, Steps};
use rb_lines::refusal::Refusal;
use std::alloc::{AllocError, Global};

// The line with the type of lists.
const LIST_TYPE: &[u8] = b"type List = Nil | Cons(u64, List);\n";

// The line with the layout of lists: the lowest bit of the word tells the empty list from a pointer
// to an item and the rest.
const LIST_LAYOUT: &[u8] =
    b"layout List <64> = split 0[0:1] { 1 => Nil : { word 64 { [0:1] = 1 } } 0 => Cons(_, _) : { word 64 { [0:1] = 0, [3:61] -> 8 { word 64 { [0:64] .0 }, inline .1 } } } };\n";

// The line of the function that puts the numbers from 1 to `n` in front of a list.
const UP: &[u8] =
    b"fun up(n: u64, l: List): List = match n { 0 => l, _ => up(sub(n, 1), Cons(n, l)) };\n";

// The line of `main`, which calls the first function on the numbers from 1 to 3,000.
const MAIN: &[u8] = b"fun main(): u64 = f0(up(3000, Nil));\n";

// The line of function `i`, which calls function `j`.
fn sum(alloc: Global, i: u64, j: u64) -> Result<Vec<u8>, AllocError>
    ensures { IfOk result (λ text. text.items ≡ sum_line i j) }
{
    let line = format!(in alloc;
        "fun f{i}(l: List): u64 = match l {{ Nil => 0, Cons(x, r) => add(x, f{j}(r)) }};\n"
    )?;
    Ok(line.into_bytes())
}

// Adds the line of function `i`, which calls function `j`, to the text so far.
fn push_sum(alloc: Global, text: &mut Vec<u8>, i: u64, j: u64) -> Result<(), AllocError>
    ensures { OnOk result (text.new.items ≡ text.old.items ++ sum_line i j) }
{
    let line = sum(alloc, i, j)?;
    push(text, line.as_slice())
}

// Adds the lines of the functions that call each other in turn to the text so far: each calls the
// next, and the last calls the first.
fn push_sums(alloc: Global, text: &mut Vec<u8>, functions: Functions) -> Result<(), AllocError>
    ensures { OnOk result (text.new.items ≡ text.old.items ++ sum_lines functions.count 0 functions.count) }
{
    for i in 0..functions.count {
        push_sum(alloc, text, i, (i + 1) % functions.count)?;
    }
    Ok(())
}

// The text of the file with so many functions.
fn generate(alloc: Global, functions: Functions) -> Result<Vec<u8>, AllocError>
    ensures { IfOk result (λ text. text.items ≡ generated_file functions.count) }
{
    let mut text = Vec::from_slice(alloc, LIST_TYPE)?;
    push(&mut text, LIST_LAYOUT)?;
    push(&mut text, UP)?;
    push_sums(alloc, &mut text, functions)?;
    push(&mut text, MAIN)?;
    Ok(text)
}

/// The text of the file with so many functions. Nothing is run for it, and so it takes no steps.
///
/// # Errors
///
/// Want of memory.
pub fn generate_file(alloc: Global, functions: Functions) -> Result<Vec<u8>, Refusal>
    ensures { (steps : ℕ) → Meets (Generates functions.count) steps steps result }
{
    let text = generate(alloc, functions)?;
    Ok(text)
}

/// What `count` says of the file with so many functions: the value of its `main`, within limits,
/// and what the run did. The steps of the run are added to `steps`.
///
/// # Errors
///
/// The answer to a file that is not accepted and to a run that passes a limit; or want of memory.
pub fn count_generated<L: Ledger>(
    alloc: Global,
    functions: Functions,
    limits: Limits,
    steps: &mut Steps<L>,
) -> Result<Vec<u8>, Refusal>
    ensures { Meets (CountsGenerated functions.count (limits_view limits)) steps.old.taken steps.new.taken result }
{
    let file = generate(alloc, functions)?;
    count_bytes(alloc, file.as_slice(), limits, &[], steps)
}
