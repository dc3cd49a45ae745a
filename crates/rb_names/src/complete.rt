//! A file's program with the layouts that the file leaves to the compiler. A refusal says why a
//! type gets no layout where one is to be derived for it.

ghost use Rattle.std.specs.Prelude.{◌≡◌, Ok, None, IfOk};
ghost use Rattle.rb_core.specs.WellNumbered.{IsWellNumbered};
ghost use Rattle.rb_names.specs.Completing.{IsCompleted, IsCompletion};
ghost use Rattle.rb_names.specs.Programs.{program_of};
ghost use Rattle.rb_names.specs.inner.Deriving.{IsWith};

use crate::derivation::{Derived, derive_all};
use crate::left::{kinds_of, left_types};
use rb_auto::AutoFault;
use rb_core::program::Program;
use rb_syntax::tree::FileTree;
use std::alloc::{AllocError, Global};

/// A program whose layouts are the written ones and then those that are derived.
#[derive(Drop)]
pub struct Completed {
    pub program: Program,
    /// The first refusal, in the file's order.
    pub refused: Option<AutoFault>,
}

/// The program of a file with the layouts that the file leaves to the compiler, behind the written ones
/// and in the file's order. Each is derived by the written layouts alone. A type that is refused gets no
/// layout, and the first refusal is kept.
///
/// # Errors
///
/// Want of memory.
pub fn complete(alloc: Global, tree: &FileTree, program: Program) -> Result<Completed, AllocError>
    requires named { program_of tree.now ≡ Ok program }
    ensures completed { IfOk result (IsCompleted tree.now program) }
    ensures whole { IfOk result (λ c. c.refused ≡ None → IsCompletion tree.now program c) }
    ensures well { IsWellNumbered program → IfOk result (λ c. IsWellNumbered c.program) }
{
    let kinds = kinds_of(alloc, tree)?;
    let types = left_types(alloc, tree)?;
    let derived = derive_all(alloc, &program, kinds.as_slice(), types.as_slice())?;
    with_derived(program, derived)
}

// The program with the derived layouts behind its own, and the refusal that was kept. An `Err` is
// want of memory.
fn with_derived(program: Program, derived: Derived) -> Result<Completed, AllocError>
    ensures { IfOk result (IsWith program derived) }
{
    let Program {
        types,
        mut layouts,
        funs,
        main,
    } = program;
    match layouts.append(derived.layouts) {
        Some(_rest) => Err(AllocError),
        None => Ok(Completed {
            program: Program {
                types,
                layouts,
                funs,
                main,
            },
            refused: derived.refused,
        }),
    }
}
