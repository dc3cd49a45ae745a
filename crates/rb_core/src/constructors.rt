//! Constructors, as they are looked up in the types of a program.

ghost use Rattle.std.specs.Prelude.{◌≡◌};
ghost use Rattle.std.specs.Option.{option_copied};
ghost use Rattle.rb_core.specs.Values.{con_of};

use crate::types::{Con, ConRef, DataDecl};

/// The constructor with its type's number and its own; None where the program has no such
/// constructor.
pub fn con_of(types: &[DataDecl], con: ConRef) -> Option<&Con>
    ensures { option_copied result ≡ con_of types.now con }
{
    match types.get(con.ty as usize) {
        None => None,
        Some(data) => data.cons.get(con.con as usize),
    }
}
