//! Texts of a program's types and constructors, which grow at their end. `types` are the types of the
//! program, by which names are found. Every error is want of memory.

ghost use Rattle.std.specs.Prelude.{◌≡◌, ◌++◌, OnErr, OnOk, slice_get};
ghost use Rattle.std.specs.Fmt.{decimal};
ghost use Rattle.rb_core.specs.Texts.{con_text, type_name, type_text};

use crate::constructors::con_of;
use crate::decimal::digits;
use crate::types::{ConRef, DataDecl, Ty};
use std::alloc::AllocError;

/// Adds bytes at the end of a text, as they are.
///
/// # Errors
///
/// Want of memory. Then the text is as it was.
pub fn push(text: &mut Vec<u8>, bytes: &[u8]) -> Result<(), AllocError>
    ensures ok { OnOk result (text.new.items ≡ text.old.items ++ bytes.now) }
    ensures err { OnErr result (text.new.items ≡ text.old.items) }
{
    text.extend_from_slice(bytes)
}

/// Adds a number in decimal digits at the end of a text.
///
/// # Errors
///
/// Want of memory. Then the text is as it was.
pub fn push_number(text: &mut Vec<u8>, number: u64) -> Result<(), AllocError>
    ensures ok { OnOk result (text.new.items ≡ text.old.items ++ decimal number) }
    ensures err { OnErr result (text.new.items ≡ text.old.items) }
{
    text.extend_from_slice(digits(number).as_slice())
}

/// Adds a type's name to a text; nothing where there is no such type.
///
/// # Errors
///
/// Want of memory. Then the text is as it was.
pub fn push_name(text: &mut Vec<u8>, types: &[DataDecl], ty: u32) -> Result<(), AllocError>
    ensures ok { OnOk result (text.new.items ≡ text.old.items ++ type_name (slice_get types.now ty)) }
    ensures err { OnErr result (text.new.items ≡ text.old.items) }
{
    match types.get(ty as usize) {
        None => Ok(()),
        Some(decl) => push(text, decl.name.as_slice()),
    }
}

/// Adds a constructor's name to a text, by its type's number and its own; nothing where there is
/// none.
///
/// # Errors
///
/// Want of memory. Then the text is as it was.
pub fn push_con(text: &mut Vec<u8>, types: &[DataDecl], con: ConRef) -> Result<(), AllocError>
    ensures ok { OnOk result (text.new.items ≡ text.old.items ++ con_text types.now con) }
    ensures err { OnErr result (text.new.items ≡ text.old.items) }
{
    match con_of(types, con) {
        None => Ok(()),
        Some(con) => push(text, con.name.as_slice()),
    }
}

/// Adds a type to a text: an integer by its width, a data type by its name.
///
/// # Errors
///
/// Want of memory. Then the text is as it was.
pub fn push_type(text: &mut Vec<u8>, types: &[DataDecl], ty: Ty) -> Result<(), AllocError>
    ensures ok { OnOk result (text.new.items ≡ text.old.items ++ type_text types.now ty) }
    ensures err { OnErr result (text.new.items ≡ text.old.items) }
{
    match ty {
        Ty::Int(bits) => {
            let mut shown = Vec::new(*text.allocator());
            push(&mut shown, b"u")?;
            push_number(&mut shown, bits as u64)?;
            push(text, shown.as_slice())
        }
        Ty::Named(number) => push_name(text, types, number),
    }
}
