//! From names to numbers: the program that a file's tree stands for. A binder is what binds a
//! variable: in a pattern, in a parameter list, or a `let`.
//!
//! Types, constructors and functions have a table each. A variable is that of the innermost binder
//! of its name round it. No call recurses deeper than the tree is nested. Take
//!
//! ```text
//! fun f(x: u8): u8 = let x: u8 = add(x, 1) in x;
//! ```
//!
//! The parameter is binder 0, and that of the `let` binder 1. The `x` in the sum is the parameter's, so it becomes 0.
//! The last one, inside the `let`, becomes 1.
//!
//! A file may leave layouts to the compiler, and [`complete::complete`] adds them. Take
//!
//! ```text
//! type Byte = B(u8);
//! type Pair = P(Byte, Byte);
//! layout Pair = packed;
//! layout Byte <8> = B(_) : { word 8 { [0:8] .0 } };
//! ```
//!
//! `Pair` is type 1, so the kinds are none and packed, and type 1 alone is left. What is derived for it
//! by the written layout of `Byte` stands behind that layout:
//!
//! ```text
//! layout Pair <16> = P(_, _) : { word 16 { [0:8] .0, [8:8] .1 } };
//! ```
#![tactic(auto)]

ghost use Rattle.std.specs.Prelude.{List, IfOk};
ghost use Rattle.rb_core.specs.WellNumbered.{IsWellNumbered};
ghost use Rattle.rb_syntax.specs.declared.token.Token.{Token};
ghost use Rattle.rb_names.specs.Answers.{AnswersNumbering};
ghost use Rattle.rb_names.specs.Programs.{program_by_tables, program_of};
ghost use Rattle.rb_names.specs.Written.{IsReadFile};

pub mod complete;
mod derivation;
mod expression;
mod fault;
mod frame;
mod function;
mod items;
mod layout;
mod left;
mod pattern;
mod scope;
mod table;
mod tables;
mod types;

pub use crate::fault::NameFault;
use crate::items::number_items;
use crate::tables::{Tables, define_all};
use rb_core::program::Program;
use rb_syntax::tree::{FileTree, ItemTree};
use std::alloc::Global;

/// The program of a tree: each name is replaced by the number of what it names. Types, functions,
/// layouts, and the constructors of each type, are numbered in the file's order; the binders of each
/// function are numbered from 0, its parameters first, in the order of the text.
///
/// # Errors
///
/// `Twice` for the first name that was defined before in its table, or whose type has a layout
/// already; else `Unknown` for the first name that stands for nothing; else `NoMain`. `Memory` where
/// there is want of memory, which says nothing of the tree.
pub fn resolve(alloc: Global, tree: &FileTree) -> Result<Program, NameFault>
    ensures answers { AnswersNumbering result (program_of tree.now) }
    // the program of a file that was read is well numbered
    ensures well { (ts : List Token) → IsReadFile ts tree.now → IfOk result IsWellNumbered }
{
    let items = tree.items.as_slice();
    let tables = define_all(alloc, items)?;
    number_file(alloc, &tables, items)
}

// The program of a file's items by its tables, or the first fault of the names in them: one that
// stands for nothing, then that no function is called `main`; or want of memory.
fn number_file(alloc: Global, tables: &Tables, items: &[ItemTree]) -> Result<Program, NameFault>
    ensures { AnswersNumbering result (program_by_tables tables.now items.now) }
{
    let found = number_items(alloc, tables, items)?;
    match tables.functions.get(b"main".as_slice()) {
        None => Err(NameFault::NoMain),
        Some(main) => Ok(Program {
            types: found.types,
            layouts: found.layouts,
            funs: found.functions,
            main,
        }),
    }
}
