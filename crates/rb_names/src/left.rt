//! The types whose layouts are left to the compiler. The item `layout T = boxed`, or one with
//! `packed`, leaves that of type T so; boxed and packed are the kinds of such layouts. An `Err` is
//! want of memory.

ghost use Rattle.std.specs.Prelude.{◌≡◌, ◌++◌, [], ◌∷◌, List, None, IfOk, OnOk, map};
ghost use Rattle.rb_syntax.specs.declared.tree.ItemTree.{ItemTree as Tree};
ghost use Rattle.rb_names.specs.Completing as spec;
ghost use Rattle.rb_names.specs.Completing.{type_numbers};
ghost use Rattle.rb_names.specs.Definitions.{defined_twice, type_names};
ghost use Rattle.rb_names.specs.Tables.{meaning};
ghost use Rattle.rb_names.specs.inner.Deriving.{MeanTheSame};

use crate::table::Table;
use crate::tables::define_all;
use rb_core::seq::Seq;
use rb_core::types::Auto;
use rb_syntax::tree::{FileTree, ItemTree};
use std::alloc::{AllocError, Global};

/// For each type of a file, in the order of their numbers, the kind of layout that is derived for
/// it, if any.
///
/// # Errors
///
/// Want of memory.
pub fn kinds_of(alloc: Global, tree: &FileTree) -> Result<Seq<Option<Auto>>, AllocError>
    ensures { IfOk result (λ kinds. kinds ≡ spec.kinds_of tree.now) }
{
    let items = tree.items.as_slice();
    let left = left_in(alloc, items)?;
    kinds_by(alloc, &left, items)
}

// For each type among items, the kind of layout that is derived for it, if any, by a table of the
// types that have one derived.
fn kinds_by(
    alloc: Global,
    left: &Table<Auto>,
    items: &[ItemTree],
) -> Result<Seq<Option<Auto>>, AllocError>
    ensures { IfOk result (λ kinds. kinds ≡ map (meaning left.now) (type_names items.now)) }
{
    let mut kinds = Seq::new(alloc);
    for item in items {
        add_kind(left, item, &mut kinds)?;
    }
    Ok(kinds)
}

// Where the item is a type, adds the kind of layout that is derived for it, or that there is none.
fn add_kind(
    left: &Table<Auto>,
    item: &ItemTree,
    kinds: &mut Seq<Option<Auto>>,
) -> Result<(), AllocError>
    ensures { OnOk result (kinds.new ≡ kinds.old ++ map (meaning left.now) (type_names (item.now ∷ []))) }
{
    match item {
        ItemTree::Types(tree) => kinds.push(left.get(tree.name.text.as_slice())),
        ItemTree::Layouts(_) | ItemTree::Funs(_) | ItemTree::Derived(_, _) => Ok(()),
    }
}

// The types whose layouts are left to the compiler, each with the layout that is asked for.
fn left_in<'a>(alloc: Global, items: &'a [ItemTree]) -> Result<Table<'a, Auto>, AllocError>
    ensures { IfOk result (λ left. MeanTheSame left (spec.left_in items.now)) }
{
    let mut left = Table::new(alloc);
    for item in items {
        add_left(&mut left, item)?;
    }
    Ok(left)
}

// Adds the type whose layout the item leaves to the compiler, if it does, unless it is there
// already.
fn add_left<'a>(left: &mut Table<'a, Auto>, item: &'a ItemTree) -> Result<(), AllocError>
    ensures { OnOk result ((rest : List Tree)
        → MeanTheSame (left.new ++ spec.left_in rest) (left.old ++ spec.left_in (item.now ∷ rest))) }
{
    match item {
        ItemTree::Derived(name, kind) => {
            left.define(name.text.as_slice(), *kind)?;
            Ok(())
        }
        ItemTree::Types(_) | ItemTree::Layouts(_) | ItemTree::Funs(_) => Ok(()),
    }
}

/// The numbers of the types whose layouts are left to the compiler, in the file's order.
///
/// # Errors
///
/// Want of memory.
pub fn left_types(alloc: Global, tree: &FileTree) -> Result<Seq<u32>, AllocError>
    requires { defined_twice tree.now.items ≡ None }
    ensures { IfOk result (λ numbers. numbers ≡ spec.left_types tree.now) }
{
    let items = tree.items.as_slice();
    let Ok(tables) = define_all(alloc, items) else {
        return Err(AllocError);
    };
    numbers_by(alloc, &tables.types, items)
}

// The numbers, by a table, of the types whose layouts items leave to the compiler, in their order.
// A name that the table doesn't have is left out.
fn numbers_by(alloc: Global, types: &Table<u32>, items: &[ItemTree]) -> Result<Seq<u32>, AllocError>
    ensures { IfOk result (λ numbers. numbers ≡ type_numbers types.now (spec.left_in items.now)) }
{
    let mut numbers = Seq::new(alloc);
    for item in items {
        add_number(types, item, &mut numbers)?;
    }
    Ok(numbers)
}

// Adds the number of the type whose layout the item leaves to the compiler, if it does and there is
// such a type.
fn add_number(types: &Table<u32>, item: &ItemTree, numbers: &mut Seq<u32>) -> Result<(), AllocError>
    ensures { OnOk result (numbers.new ≡ numbers.old ++ type_numbers types.now (spec.left_in (item.now ∷ []))) }
{
    match item {
        ItemTree::Derived(name, _) => match types.get(name.text.as_slice()) {
            Some(number) => numbers.push(number),
            None => Ok(()),
        },
        ItemTree::Types(_) | ItemTree::Layouts(_) | ItemTree::Funs(_) => Ok(()),
    }
}
