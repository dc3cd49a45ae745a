//! Types and their declarations. A tree, or some `trees`, is what was read of the file, with names
//! as text; `tables` has the number of each type by its name. The first name that no type has, from
//! left to right, is the fault `Unknown`; an `Err` may also be want of memory.

ghost use Rattle.std.specs.Prelude.{map};
ghost use Rattle.rb_names.specs.Answers.{AnswersNumbering};
ghost use Rattle.rb_names.specs.Numbering.{all_of, numbered_type, numbered_constructor, numbered_data};

use crate::fault::NameFault;
use crate::tables::Tables;
use rb_core::seq::Seq;
use rb_core::types::{Con, DataDecl, Ty};
use rb_syntax::tree::{ConTree, TyTree, TypeTree};
use std::alloc::Global;

/// The type of a tree: an integer type as it is, a data type by its number.
///
/// # Errors
///
/// `Unknown` where no type has its name; or want of memory.
pub fn number_type(alloc: Global, tables: &Tables, tree: &TyTree) -> Result<Ty, NameFault>
    ensures { AnswersNumbering result (numbered_type tables.now tree.now) }
{
    match tree {
        TyTree::Int(bits) => Ok(Ty::Int(*bits)),
        TyTree::Named(name) => {
            let number = tables.types.known(alloc, name)?;
            Ok(Ty::Named(number))
        }
    }
}

// The types of a constructor's fields, whose trees are `trees`, in their order: none where there
// are no fields. A data type is given by its number in `tables`. The first name, from left to
// right, that stands for no type there is `Unknown`.
fn number_fields(alloc: Global, tables: &Tables, trees: &[TyTree]) -> Result<Seq<Ty>, NameFault>
    ensures { AnswersNumbering result (all_of (map (numbered_type tables.now) trees.now)) }
{
    let mut fields = Seq::new(alloc);
    for tree in trees {
        let field = number_type(alloc, tables, tree)?;
        fields.push(field)?;
    }
    Ok(fields)
}

// A constructor with its name and the numbered types of its fields.
fn number_constructor(alloc: Global, tables: &Tables, tree: &ConTree) -> Result<Con, NameFault>
    ensures { AnswersNumbering result (numbered_constructor tables.now tree.now) }
{
    let fields = number_fields(alloc, tables, tree.fields.as_slice())?;
    let name = tree.name.text.copy(alloc)?;
    Ok(Con { name, fields })
}

// The constructors of a type, in their order.
fn number_constructors(
    alloc: Global,
    tables: &Tables,
    trees: &[ConTree],
) -> Result<Seq<Con>, NameFault>
    ensures { AnswersNumbering result (all_of (map (numbered_constructor tables.now) trees.now)) }
{
    let mut cons = Seq::new(alloc);
    for tree in trees {
        let con = number_constructor(alloc, tables, tree)?;
        cons.push(con)?;
    }
    Ok(cons)
}

/// A data type with the numbers of its fields' types.
///
/// # Errors
///
/// `Unknown` for the first name, from left to right, that stands for nothing; or want of memory.
pub fn number_data(alloc: Global, tables: &Tables, tree: &TypeTree) -> Result<DataDecl, NameFault>
    ensures { AnswersNumbering result (numbered_data tables.now tree.now) }
{
    let cons = number_constructors(alloc, tables, tree.cons.as_slice())?;
    let name = tree.name.text.copy(alloc)?;
    Ok(DataDecl { name, cons })
}
