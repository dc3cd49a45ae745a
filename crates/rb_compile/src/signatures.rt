//! What functions and constructors take and give. `agreed` is a program with its layouts. Functions
//! are named by their numbers, and constructors by the number of their type and their own within
//! it. An error is want of memory.

ghost use Rattle.std.specs.Prelude.{◌≡◌, IfOk, option_copied, slice_get};
ghost use Rattle.rb_core.specs.Values.{fields_of};

use rb_core::constructors::con_of;
use rb_core::program::Fun;
use rb_core::seq::Seq;
use rb_core::types::{ConRef, Ty};
use rb_layout::agreed::Agreed;
use std::alloc::{AllocError, Global};

/// The function of the program with a number; None where there is no such function.
pub(crate) fn function_at(agreed: &Agreed, number: u32) -> Option<&Fun>
    ensures { option_copied result ≡ slice_get agreed.now.covered.program.funs number }
{
    let program = agreed.covered().program();
    program.funs.get(number as usize)
}

/// The types of a constructor's fields, in their order; None where the program does not have the
/// constructor.
pub(crate) fn field_types(
    alloc: Global,
    agreed: &Agreed,
    con: ConRef,
) -> Result<Option<Seq<Ty>>, AllocError>
    ensures { IfOk result (λ o. o ≡ fields_of agreed.now.covered.program.types con) }
{
    let program = agreed.covered().program();
    match con_of(program.types.as_slice(), con) {
        None => Ok(None),
        Some(con) => Ok(Some(con.fields.copy(alloc)?)),
    }
}
