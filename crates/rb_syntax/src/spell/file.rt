//! Items and files. Tokens are put the last one first, and turned round at the end.

ghost use Rattle.std.specs.Prelude.{◌≡◌, ◌∷◌, map, OnOk, IfOk};
ghost use Rattle.rb_core.specs.declared.types.Auto.{Auto};
ghost use Rattle.rb_syntax.specs.declared.token.Symbol.TheVariants as symbol;
ghost use Rattle.rb_syntax.specs.declared.token.ReservedWord.TheVariants as word;
ghost use Rattle.rb_syntax.specs.inner.Backward.{Wrote};
ghost use Rattle.rb_syntax.specs.Spelling as spelling;
ghost use Rattle.rb_syntax.specs.Spelling.{ty_written, upper_written, con_written, type_written, width_written, layout_written, param_written, fun_written, auto_word, item_written, fields_written, spell};

use crate::spell::expression::put_expr;
use crate::spell::list::{Spell, put_each, put_list};
use crate::spell::split::put_split;
use crate::spell::{put_lower, put_num, put_symbol, put_ty, put_upper, put_word};
use crate::token::{ReservedWord, Symbol, Token};
use crate::tree::{
    Auto, ConTree, FileTree, FunTree, ItemTree, LayoutTree, NameTree, ParamTree, TyTree, TypeTree,
};
use std::alloc::{AllocError, Global};

/// A type, as one of a list of fields.
impl Spell for TyTree {
    ghost writing = { ty_written };

    fn put(&self, alloc: Global, out: &mut Vec<Token>) -> Result<(), AllocError> {
        put_ty(alloc, out, self)?;
        Ok(())
    }
}

// Puts the types of a constructor's fields in parentheses, or nothing where it has none.
fn put_field_types(alloc: Global, out: &mut Vec<Token>, fields: &[TyTree]) -> Result<(), AllocError>
    ensures { OnOk result (Wrote (fields_written (map ty_written fields.now)) out.old.items out.new.items) }
{
    match fields {
        [] => Ok(()),
        [_, ..] => {
            put_symbol(out, Symbol::CloseParen)?;
            put_list(alloc, out, Symbol::Comma, fields)?;
            put_symbol(out, Symbol::OpenParen)?;
            Ok(())
        }
    }
}

/// A constructor with the types of its fields.
impl Spell for ConTree {
    ghost writing = { con_written };

    fn put(&self, alloc: Global, out: &mut Vec<Token>) -> Result<(), AllocError> {
        put_field_types(alloc, out, self.fields.as_slice())?;
        put_upper(alloc, out, &self.name)?;
        Ok(())
    }
}

// Puts a type's declaration, as `type T = A | B(u8);`.
fn put_type(alloc: Global, out: &mut Vec<Token>, tree: &TypeTree) -> Result<(), AllocError>
    ensures { OnOk result (Wrote (type_written tree.now) out.old.items out.new.items) }
{
    put_symbol(out, Symbol::Semicolon)?;
    put_list(alloc, out, Symbol::Bar, tree.cons.as_slice())?;
    put_symbol(out, Symbol::Equals)?;
    put_upper(alloc, out, &tree.name)?;
    put_word(out, ReservedWord::Type)?;
    Ok(())
}

/// The width of a word in a shape.
impl Spell for u64 {
    ghost writing = { width_written };

    fn put(&self, _alloc: Global, out: &mut Vec<Token>) -> Result<(), AllocError> {
        put_num(out, *self)?;
        Ok(())
    }
}

// Puts a layout, as `layout T <64> = ..;`.
fn put_layout(alloc: Global, out: &mut Vec<Token>, tree: &LayoutTree) -> Result<(), AllocError>
    ensures { OnOk result (Wrote (layout_written tree.now) out.old.items out.new.items) }
{
    put_symbol(out, Symbol::Semicolon)?;
    put_split(alloc, out, &tree.tree)?;
    put_symbol(out, Symbol::Equals)?;
    put_symbol(out, Symbol::Greater)?;
    put_list(alloc, out, Symbol::Comma, tree.shape.as_slice())?;
    put_symbol(out, Symbol::Less)?;
    put_upper(alloc, out, &tree.ty)?;
    put_word(out, ReservedWord::Layout)?;
    Ok(())
}

/// A parameter with its type.
impl Spell for ParamTree {
    ghost writing = { param_written };

    fn put(&self, alloc: Global, out: &mut Vec<Token>) -> Result<(), AllocError> {
        put_ty(alloc, out, &self.ty)?;
        put_symbol(out, Symbol::Colon)?;
        put_lower(alloc, out, &self.var)?;
        Ok(())
    }
}

// Puts a function's declaration, as `fun f(x: T): U = e;`.
fn put_fun(alloc: Global, out: &mut Vec<Token>, tree: &FunTree) -> Result<(), AllocError>
    ensures { OnOk result (Wrote (fun_written tree.now) out.old.items out.new.items) }
{
    put_symbol(out, Symbol::Semicolon)?;
    put_expr(alloc, out, &tree.body)?;
    put_symbol(out, Symbol::Equals)?;
    put_ty(alloc, out, &tree.result)?;
    put_symbol(out, Symbol::Colon)?;
    put_symbol(out, Symbol::CloseParen)?;
    put_list(alloc, out, Symbol::Comma, tree.params.as_slice())?;
    put_symbol(out, Symbol::OpenParen)?;
    put_lower(alloc, out, &tree.name)?;
    put_word(out, ReservedWord::Fun)?;
    Ok(())
}

// The reserved word of a derived layout: `boxed` or `packed`.
fn word_of_auto(auto: Auto) -> ReservedWord
    ensures { result ≡ auto_word auto }
{
    match auto {
        Auto::Boxed => ReservedWord::Boxed,
        Auto::Packed => ReservedWord::Packed,
    }
}

// Puts a layout that is derived, as `layout T = boxed;`.
fn put_derived(
    alloc: Global,
    out: &mut Vec<Token>,
    name: &NameTree,
    auto: Auto,
) -> Result<(), AllocError>
    ensures { OnOk result (Wrote (λ rest. spelling.word_token word.Layout
        ∷ upper_written name.now (spelling.sym symbol.Equals
        ∷ spelling.word_token (auto_word auto) ∷ spelling.sym symbol.Semicolon ∷ rest)) out.old.items out.new.items) }
{
    put_symbol(out, Symbol::Semicolon)?;
    put_word(out, word_of_auto(auto))?;
    put_symbol(out, Symbol::Equals)?;
    put_upper(alloc, out, name)?;
    put_word(out, ReservedWord::Layout)?;
    Ok(())
}

/// An item: a type, a layout, a function, or a layout that is left to the compiler.
impl Spell for ItemTree {
    ghost writing = { item_written };

    fn put(&self, alloc: Global, out: &mut Vec<Token>) -> Result<(), AllocError> {
        match self {
            ItemTree::Types(tree) => put_type(alloc, out, tree),
            ItemTree::Layouts(tree) => put_layout(alloc, out, tree),
            ItemTree::Funs(tree) => put_fun(alloc, out, tree),
            ItemTree::Derived(name, auto) => put_derived(alloc, out, name, *auto),
        }
    }
}

/// The tokens of a file's tree, in their order. A part for which the grammar has no form, as a
/// variable in a provenance, may be left out.
///
/// # Errors
///
/// Want of memory.
pub fn spell_file(alloc: Global, tree: &FileTree) -> Result<Vec<Token>, AllocError>
    ensures { IfOk result (λ tokens. tokens.items ≡ spell tree.now) }
{
    let mut tokens = Vec::new(alloc);
    put_each(alloc, &mut tokens, tree.items.as_slice())?;
    tokens.reverse();
    Ok(tokens)
}
