//! Provenances and the trees of layouts.

ghost use Rattle.std.specs.Prelude.{◌≡◌, ◌∷◌, ℕ, map, OnOk};
ghost use Rattle.rb_core.specs.declared.layout_decl.LayItem.{LayItem};
ghost use Rattle.rb_syntax.specs.declared.token.Symbol.TheVariants as symbol;
ghost use Rattle.rb_syntax.specs.declared.token.ReservedWord.TheVariants as word;
ghost use Rattle.rb_syntax.specs.inner.Backward.{Wrote};
ghost use Rattle.rb_syntax.specs.Written.{each, some_with};
ghost use Rattle.rb_syntax.specs.Spelling as spelling;
ghost use Rattle.rb_syntax.specs.Spelling.{below_written, prov_written, fields_written, at_level, comma, loc_written, lay_item_written, split_written, arm_written};

use crate::spell::layout::{put_items, put_loc};
use crate::spell::{put_num, put_symbol, put_upper, put_word};
use crate::token::{ReservedWord, Symbol, Token};
use crate::tree::{ArmTree, LayItem, Loc, PatTree, SplitTree};
use std::alloc::{AllocError, Global};

// Puts a provenance or a part of one: a constructor with its parts, or `_`. A variable and a number
// have no form there, and nothing is put for them.
#[cycle(provenance)]
fn put_below(alloc: Global, out: &mut Vec<Token>, pat: &PatTree) -> Result<(), AllocError>
    ensures { OnOk result ((l : ℕ) → Wrote (below_written pat.now l) out.old.items out.new.items) }
{
    match pat {
        PatTree::Wild(_) => put_symbol(out, Symbol::Underscore),
        PatTree::Var(_, _) => Ok(()),
        PatTree::Num(_, _) => Ok(()),
        PatTree::Con(_, name, pats) => match pats.as_slice() {
            [] => put_upper(alloc, out, name),
            [first, others @ ..] => {
                put_parts_below(alloc, out, pats.as_slice(), first, others)?;
                put_upper(alloc, out, name)?;
                Ok(())
            }
        },
    }
}

// Puts the parts of a constructor in a provenance, in parentheses: `first`, then the `others`.
#[cycle(provenance)]
fn put_parts_below(
    alloc: Global,
    out: &mut Vec<Token>,
    pats: &[PatTree],
    first: &PatTree,
    others: &[PatTree],
) -> Result<(), AllocError>
    requires { pats.now ≡ first.now ∷ others.now }
    ensures { OnOk result ((l : ℕ) → Wrote (fields_written
        (at_level l (map below_written pats.now))) out.old.items out.new.items) }
{
    put_symbol(out, Symbol::CloseParen)?;
    for i in (0..others.len()).rev() {
        put_below(alloc, out, &others[i])?;
        put_symbol(out, Symbol::Comma)?;
    }
    put_below(alloc, out, first)?;
    put_symbol(out, Symbol::OpenParen)?;
    Ok(())
}

// Puts the provenance of a leaf, the pattern of the values that it holds.
fn put_prov(alloc: Global, out: &mut Vec<Token>, pat: &PatTree) -> Result<(), AllocError>
    ensures { OnOk result ((l : ℕ) → Wrote (prov_written pat.now l) out.old.items out.new.items) }
{
    put_below(alloc, out, pat)?;
    Ok(())
}

// Puts a leaf, its provenance and its items, as `Cons(_, _) : { .. }`.
fn put_leaf(
    alloc: Global,
    out: &mut Vec<Token>,
    prov: &PatTree,
    items: &[LayItem],
) -> Result<(), AllocError>
    ensures { OnOk result ((l : ℕ) → Wrote (λ rest.
        prov_written prov.now l (spelling.sym symbol.Colon ∷ spelling.sym symbol.OpenBrace
        ∷ some_with comma (map (λ (i : LayItem). lay_item_written i l) items.now)
        (spelling.sym symbol.CloseBrace ∷ rest))) out.old.items out.new.items) }
{
    put_items(alloc, out, items)?;
    put_symbol(out, Symbol::Colon)?;
    put_prov(alloc, out, prov)?;
    Ok(())
}

/// Puts a layout's tree: a split with its arms, or a leaf.
#[cycle(split)]
pub(crate) fn put_split(
    alloc: Global,
    out: &mut Vec<Token>,
    tree: &SplitTree,
) -> Result<(), AllocError>
    ensures { OnOk result ((l : ℕ) → Wrote (split_written tree.now l) out.old.items out.new.items) }
{
    match tree {
        SplitTree::Split(loc, arms, None) => {
            put_symbol(out, Symbol::CloseBrace)?;
            put_arms(alloc, out, loc, arms.as_slice())?;
            Ok(())
        }
        SplitTree::Split(loc, arms, Some(other)) => {
            put_else(alloc, out, other.get())?;
            put_arms(alloc, out, loc, arms.as_slice())?;
            Ok(())
        }
        SplitTree::Leaf(_, prov, items) => {
            put_leaf(alloc, out, prov, items.as_slice())?;
            Ok(())
        }
    }
}

// Puts the end of a split that has an `else`, as `else => .. }`.
#[cycle(split)]
fn put_else(alloc: Global, out: &mut Vec<Token>, tree: &SplitTree) -> Result<(), AllocError>
    ensures { OnOk result ((l : ℕ) → Wrote (λ rest. spelling.word_token word.Else ∷ spelling.sym symbol.FatArrow
        ∷ split_written tree.now l (spelling.sym symbol.CloseBrace ∷ rest)) out.old.items out.new.items) }
{
    put_symbol(out, Symbol::CloseBrace)?;
    put_split(alloc, out, tree)?;
    put_symbol(out, Symbol::FatArrow)?;
    put_word(out, ReservedWord::Else)?;
    Ok(())
}

// Puts a split up to the last of its arms, as `split 0[0:1] { 0 => .. 1 => ..`.
#[cycle(split)]
fn put_arms(
    alloc: Global,
    out: &mut Vec<Token>,
    loc: &Loc,
    arms: &[ArmTree],
) -> Result<(), AllocError>
    ensures { OnOk result ((l : ℕ) → Wrote (λ rest. spelling.word_token word.Split
        ∷ loc_written loc.now (spelling.sym symbol.OpenBrace
        ∷ each (at_level l (map arm_written arms.now)) rest)) out.old.items out.new.items) }
{
    for i in (0..arms.len()).rev() {
        put_arm(alloc, out, &arms[i])?;
    }
    put_symbol(out, Symbol::OpenBrace)?;
    put_loc(alloc, out, loc)?;
    put_word(out, ReservedWord::Split)?;
    Ok(())
}

// Puts an arm of a split, its literal and what stands under it, as `0 => ..`.
#[cycle(split)]
fn put_arm(alloc: Global, out: &mut Vec<Token>, arm: &ArmTree) -> Result<(), AllocError>
    ensures { OnOk result ((l : ℕ) → Wrote (arm_written arm.now l) out.old.items out.new.items) }
{
    put_split(alloc, out, &arm.under)?;
    put_symbol(out, Symbol::FatArrow)?;
    put_num(out, arm.literal)?;
    Ok(())
}
