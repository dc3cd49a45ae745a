//! The tables of a file, and the names that are defined twice. Items are gone through one after the
//! other, and each defines names in the table of its kind. `known` has the tables so far, `types`
//! the names of all types of the file, and a name that its table has already is the fault `Twice`.
//! An `Err` may also be want of memory.

ghost use Rattle.std.specs.Prelude.{◌≡◌, [], ◌∷◌, ◌++◌, List, None, Ok, Err, OnOk, IfOk, IfErr, map, length, false, is_some, ◌||◌};
ghost use Rattle.std.specs.List.{list_any};
ghost use Rattle.std.specs.Str.{bytes_eq};
ghost use Rattle.rb_syntax.specs.declared.tree.ItemTree.{ItemTree as Tree};
ghost use Rattle.rb_syntax.specs.declared.tree.ItemTree.TheVariants.{Types};
ghost use Rattle.rb_names.specs.declared.fault.NameFault.TheVariants.{Memory};
ghost use Rattle.rb_names.specs.Answers.{AnswersNumbering};
ghost use Rattle.rb_names.specs.inner.Defining.{AreAdded, AreKnown, HasNames, IsAgain, nothing_defined, repeated_name, with_rest};
ghost use Rattle.rb_names.specs.Definitions as spec;
ghost use Rattle.rb_names.specs.Definitions.{Definition, OfFunction, constructor_definition, constructors_from, defined_twice, definitions, layout_definition, tables_of};
ghost use Rattle.rb_names.specs.Numbering.{and_then};
ghost use Rattle.rb_names.specs.Programs.{no_twice};
ghost use Rattle.rb_names.specs.Tables.{Name, meaning};

use crate::fault::{NameFault, number_behind};
use crate::table::Table;
use rb_core::types::ConRef;
use rb_syntax::tree::{ConTree, ItemTree, NameTree, TypeTree};
use std::alloc::{AllocError, Global};

/// What the names of types, constructors and functions stand for.
#[derive(Drop)]
pub struct Tables<'a> {
    pub types: Table<'a, u32>,
    pub constructors: Table<'a, ConRef>,
    pub functions: Table<'a, u32>,
}

/// The tables while items are gone through, and the types that have a layout so far.
#[derive(Drop)]
pub struct Defining<'a> {
    pub tables: Tables<'a>,
    pub laid: Table<'a, u32>,
}

impl<'a> Defining<'a> {
    // The tables before any item.
    fn new(alloc: Global) -> Self
        ensures { result ≡ nothing_defined }
    {
        Defining {
            tables: Tables {
                types: Table::new(alloc),
                constructors: Table::new(alloc),
                functions: Table::new(alloc),
            },
            laid: Table::new(alloc),
        }
    }
}

/// The tables of a file, or the first name in it that is defined twice.
///
/// # Errors
///
/// `Twice` for that name; or want of memory.
pub fn define_all<'a>(alloc: Global, items: &'a [ItemTree]) -> Result<Tables<'a>, NameFault>
    ensures { AnswersNumbering result
        (and_then (no_twice (defined_twice items.now)) (λ done. Ok (tables_of items.now))) }
{
    let types = type_names(alloc, items)?;
    define_by(alloc, &types, items)
}

// The tables of a file, where `types` has the names of its types, or the first name in it that is
// defined twice.
fn define_by<'a>(
    alloc: Global,
    types: &Table<'a, u32>,
    items: &'a [ItemTree],
) -> Result<Tables<'a>, NameFault>
    requires { HasNames types.now (spec.type_names items.now) }
    ensures { AnswersNumbering result
        (and_then (no_twice (defined_twice items.now)) (λ done. Ok (tables_of items.now))) }
{
    let mut known = Defining::new(alloc);
    define_items(alloc, types, items, &mut known)?;
    Ok(known.tables)
}

// Goes through all items of a file, where `types` has the names of their types and nothing is
// defined yet.
fn define_items<'a>(
    alloc: Global,
    types: &Table<'a, u32>,
    items: &'a [ItemTree],
    known: &mut Defining<'a>,
) -> Result<(), NameFault>
    requires names { HasNames types.now (spec.type_names items.now) }
    requires nothing { known.old ≡ nothing_defined }
    ensures tables { OnOk result (known.new.tables ≡ tables_of items.now) }
    ensures once { OnOk result (defined_twice items.now ≡ None) }
    ensures again { IfErr result (λ e. AnswersNumbering {A = Unit {0}} (Err e) (no_twice (defined_twice items.now))) }
{
    for item in items {
        define_item(alloc, types, item, known)?;
    }
    Ok(())
}

// The names of all types of a file, each with 0: a layout is of one of them, and may stand before
// it.
fn type_names<'a>(alloc: Global, items: &'a [ItemTree]) -> Result<Table<'a, u32>, NameFault>
    ensures names { IfOk result (λ t. HasNames t (spec.type_names items.now)) }
    ensures memory { IfErr result (λ e. e ≡ Memory) }
{
    let mut types = Table::new(alloc);
    for item in items {
        add_type_name(&mut types, item)?;
    }
    Ok(types)
}

// Adds the name of the item, if it is a type.
fn add_type_name<'a>(types: &mut Table<'a, u32>, item: &'a ItemTree) -> Result<(), AllocError>
    ensures { OnOk result ((name : Name) → is_some (meaning types.new name)
        ≡ (is_some (meaning types.old name) || list_any (bytes_eq name) (spec.type_names (item.now ∷ [])))) }
{
    match item {
        ItemTree::Types(tree) => {
            types.define(tree.name.text.as_slice(), 0)?;
            Ok(())
        }
        ItemTree::Layouts(_) | ItemTree::Funs(_) | ItemTree::Derived(_, _) => Ok(()),
    }
}

// Puts what an item defines into the tables: a type and its constructors, a function, or a layout.
fn define_item<'a>(
    alloc: Global,
    types: &Table<'a, u32>,
    item: &'a ItemTree,
    known: &mut Defining<'a>,
) -> Result<(), NameFault>
    ensures tables { OnOk result ((rest : List Tree)
        → with_rest known.new.tables rest ≡ with_rest known.old.tables (item.now ∷ rest)) }
    ensures added { OnOk result ((names : List Name) (before : List Definition) → HasNames types.now names
        → AreKnown before known.old → AreAdded before (definitions names item.now) known.new) }
    ensures again { IfErr result (λ e. (names : List Name) (before : List Definition) → HasNames types.now names
        → AreKnown before known.old → IsAgain before (definitions names item.now) e) }
{
    match item {
        ItemTree::Types(tree) => {
            define_type(alloc, tree, known)?;
            Ok(())
        }
        ItemTree::Layouts(tree) => {
            define_layout(alloc, types, &tree.ty, known)?;
            Ok(())
        }
        ItemTree::Funs(tree) => {
            define_function(alloc, &tree.name, known)?;
            Ok(())
        }
        ItemTree::Derived(name, _) => {
            define_layout(alloc, types, name, known)?;
            Ok(())
        }
    }
}

// Defines a type, whose number is how many types were defined before it, and then its constructors.
fn define_type<'a>(
    alloc: Global,
    tree: &'a TypeTree,
    known: &mut Defining<'a>,
) -> Result<(), NameFault>
    ensures tables { OnOk result ((rest : List Tree)
        → with_rest known.new.tables rest ≡ with_rest known.old.tables (Types tree.now ∷ rest)) }
    ensures added { OnOk result ((before : List Definition) → AreKnown before known.old
        → AreAdded before (definitions [] (Types tree.now)) known.new) }
    ensures again { IfErr result (λ e. (before : List Definition) → AreKnown before known.old
        → IsAgain before (definitions [] (Types tree.now)) e) }
{
    let ty = number_behind(known.tables.types.len())?;
    define(alloc, &mut known.tables.types, &tree.name, ty)?;
    define_constructors(alloc, ty, tree.cons.as_slice(), known)?;
    Ok(())
}

// Defines the constructors of the type with this number, which are numbered in it from 0.
fn define_constructors<'a>(
    alloc: Global,
    ty: u32,
    cons: &'a [ConTree],
    known: &mut Defining<'a>,
) -> Result<(), NameFault>
    ensures constructors { OnOk result (known.new.tables.constructors ≡ known.old.tables.constructors
        ++ constructors_from ty 0 cons.now) }
    ensures types { OnOk result (known.new.tables.types ≡ known.old.tables.types) }
    ensures functions { OnOk result (known.new.tables.functions ≡ known.old.tables.functions) }
    ensures added { OnOk result ((before : List Definition) → AreKnown before known.old
        → AreAdded before (map constructor_definition cons.now) known.new) }
    ensures again { IfErr result (λ e. (before : List Definition) → AreKnown before known.old
        → IsAgain before (map constructor_definition cons.now) e) }
{
    for (i, con) in cons.iter().enumerate() {
        let number = number_behind(i)?;
        let stands_for = ConRef { ty, con: number };
        define(alloc, &mut known.tables.constructors, &con.name, stands_for)?;
    }
    Ok(())
}

// Defines a function, whose number is how many functions were defined before it.
fn define_function<'a>(
    alloc: Global,
    name: &'a NameTree,
    known: &mut Defining<'a>,
) -> Result<(), NameFault>
    ensures functions { OnOk result (known.new.tables.functions ≡ known.old.tables.functions
        ++ (name.now.text, length known.old.tables.functions) ∷ []) }
    ensures types { OnOk result (known.new.tables.types ≡ known.old.tables.types) }
    ensures constructors { OnOk result (known.new.tables.constructors ≡ known.old.tables.constructors) }
    ensures added { OnOk result ((before : List Definition) → AreKnown before known.old
        → AreAdded before (record { kind = OfFunction; name = name.now } ∷ []) known.new) }
    ensures again { IfErr result (λ e. (before : List Definition) → AreKnown before known.old
        → IsAgain before (record { kind = OfFunction; name = name.now } ∷ []) e) }
{
    let number = number_behind(known.tables.functions.len())?;
    define(alloc, &mut known.tables.functions, name, number)?;
    Ok(())
}

// Defines a layout of the type with this name. Where there is no such type nothing is defined,
// since the name is found unknown later.
fn define_layout<'a>(
    alloc: Global,
    types: &Table<'a, u32>,
    name: &'a NameTree,
    known: &mut Defining<'a>,
) -> Result<(), NameFault>
    ensures tables { OnOk result (known.new.tables ≡ known.old.tables) }
    ensures added { OnOk result ((names : List Name) (before : List Definition) → HasNames types.now names
        → AreKnown before known.old → AreAdded before (layout_definition names name.now) known.new) }
    ensures again { IfErr result (λ e. (names : List Name) (before : List Definition) → HasNames types.now names
        → AreKnown before known.old → IsAgain before (layout_definition names name.now) e) }
{
    if types.get(name.text.as_slice()).is_none() {
        return Ok(());
    }
    define(alloc, &mut known.laid, name, 0)?;
    Ok(())
}

// Defines a name as `stands_for`. It has to be new in its table: else it is refused as defined
// twice.
fn define<'a, T: Copy>(
    alloc: Global,
    table: &mut Table<'a, T>,
    name: &'a NameTree,
    stands_for: T,
) -> Result<(), NameFault>
    ensures table { OnOk result (table.new ≡ table.old ++ (name.now.text, stands_for) ∷ []) }
    ensures new { OnOk result (is_some (meaning table.old name.now.text) ≡ false) }
    ensures again { IfErr result (λ e. AnswersNumbering {A = Unit {0}} (Err e)
        (no_twice (repeated_name (is_some (meaning table.old name.now.text)) name.now))) }
{
    if table.define(name.text.as_slice(), stands_for)? {
        return Ok(());
    }
    let text = name.text.copy(alloc)?;
    Err(NameFault::Twice(text, name.at))
}
