//! Locations and the items of leaves and blocks. Tokens are put the last one first, and turned round
//! at the end.

ghost use Rattle.std.specs.Prelude.{◌≡◌, ◌∷◌, ℕ, map, OnOk};
ghost use Rattle.rb_syntax.specs.inner.Backward.{Wrote};
ghost use Rattle.rb_syntax.specs.Written.{any_with};
ghost use Rattle.rb_syntax.specs.declared.token.Symbol.TheVariants as symbol;
ghost use Rattle.rb_syntax.specs.declared.token.ReservedWord.TheVariants as word;
ghost use Rattle.rb_syntax.specs.Spelling as spelling;
ghost use Rattle.rb_syntax.specs.Spelling.{range_written, field_written, path_written, loc_step_written, loc_written, lay_item_written, part_written, kind_written, at_level, comma};

use crate::spell::list::{Spell, put_each};
use crate::spell::{put_num, put_symbol, put_word};
use crate::token::{ReservedWord, Symbol, Token};
use crate::tree::{LayItem, Loc, PartDecl, PartKind, Step};
use std::alloc::{AllocError, Global};

// Puts a range of bits, `[o:l]`.
fn put_range(out: &mut Vec<Token>, o: u64, l: u64) -> Result<(), AllocError>
    ensures { OnOk result (Wrote (range_written o l) out.old.items out.new.items) }
{
    put_symbol(out, Symbol::CloseBracket)?;
    put_num(out, l)?;
    put_symbol(out, Symbol::Colon)?;
    put_num(out, o)?;
    put_symbol(out, Symbol::OpenBracket)?;
    Ok(())
}

/// A field's number in a path.
impl Spell for u32 {
    ghost writing = { field_written };

    fn put(&self, _alloc: Global, out: &mut Vec<Token>) -> Result<(), AllocError> {
        put_num(out, u64::from(*self))?;
        put_symbol(out, Symbol::Dot)?;
        Ok(())
    }
}

// Puts a path, the number of each field behind a dot, as `.0.1`; nothing where it is empty.
fn put_path(alloc: Global, out: &mut Vec<Token>, path: &[u32]) -> Result<(), AllocError>
    ensures { OnOk result (Wrote (path_written path.now) out.old.items out.new.items) }
{
    put_each(alloc, out, path)?;
    Ok(())
}

/// A step of a location, its alignment, byte, width and range: `-> 4 @0:8[0:8]`.
impl Spell for Step {
    ghost writing = { loc_step_written };

    fn put(&self, _alloc: Global, out: &mut Vec<Token>) -> Result<(), AllocError> {
        put_range(out, self.o, self.l)?;
        put_num(out, self.width)?;
        put_symbol(out, Symbol::Colon)?;
        put_num(out, self.byte)?;
        put_symbol(out, Symbol::At)?;
        put_num(out, self.align)?;
        put_symbol(out, Symbol::Arrow)?;
        Ok(())
    }
}

/// Puts a location, a range of a root word with the steps that lead on from there, as
/// `0[0:32] -> 4 @0:8[0:8]`.
pub(crate) fn put_loc(alloc: Global, out: &mut Vec<Token>, loc: &Loc) -> Result<(), AllocError>
    ensures { OnOk result (Wrote (loc_written loc.now) out.old.items out.new.items) }
{
    put_each(alloc, out, loc.steps.as_slice())?;
    put_range(out, loc.o, loc.l)?;
    put_num(out, loc.word)?;
    Ok(())
}

// Puts the constant that a part of a word holds, as `= 5`.
fn put_const(out: &mut Vec<Token>, n: u64) -> Result<(), AllocError>
    ensures { OnOk result (Wrote (λ rest. spelling.sym symbol.Equals ∷ spelling.num n
        ∷ rest) out.old.items out.new.items) }
{
    put_num(out, n)?;
    put_symbol(out, Symbol::Equals)?;
    Ok(())
}

// Puts one word of the field at a path, which a part of a word holds, as `.0 word 1`.
fn put_word_of(alloc: Global, out: &mut Vec<Token>, path: &[u32], j: u64) -> Result<(), AllocError>
    ensures { OnOk result (Wrote (λ rest. path_written path.now
        (spelling.word_token word.Word ∷ spelling.num j ∷ rest)) out.old.items out.new.items) }
{
    put_num(out, j)?;
    put_word(out, ReservedWord::Word)?;
    put_path(alloc, out, path)?;
    Ok(())
}

// Puts an item of a leaf or a block: a word with its parts, as `word 32 { [0:32] .0 }`, or `inline`
// for the words of a field.
#[cycle(item)]
fn put_item(alloc: Global, out: &mut Vec<Token>, item: &LayItem) -> Result<(), AllocError>
    ensures { OnOk result ((l : ℕ) → Wrote (lay_item_written item.now l) out.old.items out.new.items) }
{
    match item {
        LayItem::Word(bits, parts) => {
            put_parts(alloc, out, parts.as_slice())?;
            put_num(out, *bits)?;
            put_word(out, ReservedWord::Word)?;
            Ok(())
        }
        LayItem::Inline(path) => {
            put_path(alloc, out, path.as_slice())?;
            put_word(out, ReservedWord::Inline)?;
            Ok(())
        }
    }
}

// Puts what a part of a word holds: a constant, a field, a slice or a word of one, or a pointer with
// its block, as `-> 8 { inline .1 }`.
#[cycle(item)]
fn put_kind(alloc: Global, out: &mut Vec<Token>, kind: &PartKind) -> Result<(), AllocError>
    ensures { OnOk result ((l : ℕ) → Wrote (kind_written kind.now l) out.old.items out.new.items) }
{
    match kind {
        PartKind::Const(n) => {
            put_const(out, *n)?;
            Ok(())
        }
        PartKind::Whole(path) => {
            put_path(alloc, out, path.as_slice())?;
            Ok(())
        }
        PartKind::Slice(path, first, bits) => {
            put_range(out, *first, *bits)?;
            put_path(alloc, out, path.as_slice())?;
            Ok(())
        }
        PartKind::Word(path, j) => {
            put_word_of(alloc, out, path.as_slice(), *j)?;
            Ok(())
        }
        PartKind::Pointer(align, items) => {
            put_items(alloc, out, items.as_slice())?;
            put_num(out, *align)?;
            put_symbol(out, Symbol::Arrow)?;
            Ok(())
        }
    }
}

// Puts the parts of a word in braces with commas between: of each its range, and what it holds.
#[cycle(item)]
fn put_parts(alloc: Global, out: &mut Vec<Token>, parts: &[PartDecl]) -> Result<(), AllocError>
    ensures { OnOk result ((l : ℕ) → Wrote (λ rest. spelling.sym symbol.OpenBrace
        ∷ any_with comma (at_level l (map part_written parts.now))
        (spelling.sym symbol.CloseBrace ∷ rest)) out.old.items out.new.items) }
{
    put_symbol(out, Symbol::CloseBrace)?;
    for i in (0..parts.len()).rev() {
        let part = &parts[i];
        put_kind(alloc, out, &part.kind)?;
        put_range(out, part.o, part.l)?;
        if i > 0 {
            put_symbol(out, Symbol::Comma)?;
        }
    }
    put_symbol(out, Symbol::OpenBrace)?;
    Ok(())
}

/// Puts the items of a leaf or a block in braces with commas between.
#[cycle(item)]
pub(crate) fn put_items(
    alloc: Global,
    out: &mut Vec<Token>,
    items: &[LayItem],
) -> Result<(), AllocError>
    ensures { OnOk result ((l : ℕ) → Wrote (λ rest. spelling.sym symbol.OpenBrace
        ∷ any_with comma (at_level l (map lay_item_written items.now))
        (spelling.sym symbol.CloseBrace ∷ rest)) out.old.items out.new.items) }
{
    put_symbol(out, Symbol::CloseBrace)?;
    for i in (0..items.len()).rev() {
        put_item(alloc, out, &items[i])?;
        if i > 0 {
            put_symbol(out, Symbol::Comma)?;
        }
    }
    put_symbol(out, Symbol::OpenBrace)?;
    Ok(())
}
