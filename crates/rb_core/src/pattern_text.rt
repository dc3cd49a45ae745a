//! Patterns as they are shown, at the end of `text`. `types` are the types of the program. Every
//! error is want of memory.

ghost use Rattle.std.specs.Prelude.{◌≡◌, ◌++◌, ℕ, List, OnErr, OnOk, map};
ghost use Rattle.rb_core.specs.declared.pattern.Pat.{Pat as Pattern};
ghost use Rattle.rb_core.specs.Texts.{closing_text, opening_text, pattern_text};
ghost use Rattle.rb_core.specs.inner.Texts.{opening};

use crate::pattern::Pat;
use crate::text::{push, push_con, push_number};
use crate::types::DataDecl;
use std::alloc::AllocError;

// What stands before the field of this number: `(` before the first, a comma before each other.
fn opening(number: usize) -> &'static [u8]
    ensures { result.now ≡ opening number }
{
    if number == 0 { b"(" } else { b", " }
}

// Adds the `)` behind these fields; nothing where there is no field.
fn push_closing(text: &mut Vec<u8>, fields: &[Pat]) -> Result<(), AllocError>
    ensures { (f : Pattern → List ℕ) → OnOk result (text.new.items ≡ text.old.items
        ++ closing_text (map f fields.now)) }
{
    match fields {
        [] => Ok(()),
        [_, ..] => push(text, b")"),
    }
}

/// Adds a pattern to a text: a number, or a constructor's name with its fields in parentheses, `_`
/// for what matches every value.
///
/// # Errors
///
/// Want of memory. Then the text is as it was.
pub fn push_pattern(text: &mut Vec<u8>, types: &[DataDecl], pat: &Pat) -> Result<(), AllocError>
    ensures ok { OnOk result (text.new.items ≡ text.old.items ++ pattern_text types.now pat.now) }
    ensures err { OnErr result (text.new.items ≡ text.old.items) }
{
    let mut shown = Vec::new(*text.allocator());
    push_form(&mut shown, types, pat)?;
    push(text, shown.as_slice())
}

// Adds a pattern piece by piece, so that a part of it may be left where memory is wanting.
#[cycle(showing)]
fn push_form(text: &mut Vec<u8>, types: &[DataDecl], pat: &Pat) -> Result<(), AllocError>
    ensures { OnOk result (text.new.items ≡ text.old.items ++ pattern_text types.now pat.now) }
{
    match pat {
        Pat::Wild(_) | Pat::Var(_, _) => push(text, b"_"),
        Pat::Num(_, number) => push_number(text, *number),
        Pat::Con(_, con, fields) => {
            push_con(text, types, *con)?;
            push_fields(text, types, fields.as_slice())?;
            push_closing(text, fields.as_slice())?;
            Ok(())
        }
    }
}

// Adds a `(` and the fields of a constructor with commas between them, but no `)`; nothing where
// there is no field.
#[cycle(showing)]
fn push_fields(text: &mut Vec<u8>, types: &[DataDecl], pats: &[Pat]) -> Result<(), AllocError>
    ensures { OnOk result (text.new.items ≡ text.old.items ++ opening_text (map (pattern_text types.now) pats.now)) }
{
    for (i, pat) in pats.iter().enumerate() {
        push(text, opening(i))?;
        push_form(text, types, pat)?;
    }
    Ok(())
}
