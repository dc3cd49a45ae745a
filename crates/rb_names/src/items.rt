//! The items of a file. An item is a type declaration, a function, a layout, or a layout that is
//! left to the compiler. `tables` say what the names of types, constructors and functions stand
//! for.

ghost use Rattle.std.specs.Prelude.{◌≡◌, ◌∷◌, List, Err, OnOk, IfErr};
ghost use Rattle.rb_syntax.specs.declared.tree.ItemTree.{ItemTree as Tree};
ghost use Rattle.rb_names.specs.declared.items.Items.{Items as Parts};
ghost use Rattle.rb_names.specs.Answers.{AnswersNumbering};
ghost use Rattle.rb_names.specs.inner.Joining.{behind_items};
ghost use Rattle.rb_names.specs.Programs.{numbered_items};

use crate::fault::NameFault;
use crate::function::number_function;
use crate::layout::number_layout;
use crate::tables::Tables;
use crate::types::number_data;
use rb_core::layout_decl::LayoutDecl;
use rb_core::program::Fun;
use rb_core::seq::Seq;
use rb_core::types::DataDecl;
use rb_syntax::tree::ItemTree;
use std::alloc::Global;

/// What a file's items are, each kind in the file's order.
#[derive(Drop)]
pub struct Items {
    pub types: Seq<DataDecl>,
    pub layouts: Seq<LayoutDecl>,
    pub functions: Seq<Fun>,
}

/// The items of a file with their numbers.
///
/// # Errors
///
/// `Unknown` for the first name, from left to right, that stands for nothing; or want of memory.
pub fn number_items(alloc: Global, tables: &Tables, trees: &[ItemTree]) -> Result<Items, NameFault>
    ensures { AnswersNumbering result (numbered_items tables.now trees.now) }
{
    let mut items = Items {
        types: Seq::new(alloc),
        layouts: Seq::new(alloc),
        functions: Seq::new(alloc),
    };
    for tree in trees {
        number_item(alloc, tables, tree, &mut items)?;
    }
    Ok(items)
}

// Adds what one more item, `tree`, stands for behind those of its kind in `items`. A layout that is
// left to the compiler adds nothing yet, but its type has to be there. The first name that stands
// for nothing is `Unknown`; an `Err` may also be want of memory.
fn number_item(
    alloc: Global,
    tables: &Tables,
    tree: &ItemTree,
    items: &mut Items,
) -> Result<(), NameFault>
    ensures ok { OnOk result ((rest : List Tree)
        → behind_items items.new (numbered_items tables.now rest)
        ≡ behind_items items.old (numbered_items tables.now (tree.now ∷ rest))) }
    ensures err { IfErr result (λ e. (rest : List Tree)
        → AnswersNumbering {A = Parts} (Err e) (numbered_items tables.now (tree.now ∷ rest))) }
{
    match tree {
        ItemTree::Types(tree) => {
            let data = number_data(alloc, tables, tree)?;
            items.types.push(data)?;
            Ok(())
        }
        ItemTree::Layouts(tree) => {
            let layout = number_layout(alloc, tables, tree)?;
            items.layouts.push(layout)?;
            Ok(())
        }
        ItemTree::Funs(tree) => {
            let fun = number_function(alloc, tables, tree)?;
            items.functions.push(fun)?;
            Ok(())
        }
        ItemTree::Derived(name, _) => {
            tables.types.known(alloc, name)?;
            Ok(())
        }
    }
}
