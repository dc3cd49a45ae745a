//! Tables gathered from the parts of a leaf: the addresses of its blocks, or the words of a field.
//! A leaf is the form that a layout has for some values; its words are flat, each with parts,
//! ranges of its bits, which hold a constant, bits or a word of a field, or a pointer to a block. A
//! field is named by its path, a list of field numbers, outermost first; where addresses are wanted
//! the path counts for nothing. An entry is a place in the table, and the number for it.

ghost use Rattle.std.specs.Prelude.{◌≡◌, [], IfOk, replicate, slice_index_or, slice_set};
ghost use Rattle.rb_coding.specs.inner.Gathering.{count_at, entry, field_words, put_blocks, put_parts, put_words};

use crate::bits::{put_into, take_from};
use crate::lookup::item;
use rb_core::seq::Seq;
use rb_core::types::{DataDecl, Ty};
use rb_layout::layout::{Block, FlatWord, Kind, Layout, Leaf, Part};
use rb_layout::paths::same_path;
use rb_layout::positions::type_at;
use rb_rel::words::word_count;
use std::alloc::{AllocError, Global};

/// What a table is of.
#[derive(Clone, Copy)]
pub enum Wanted {
    /// The addresses of the leaf's blocks, by number.
    Addresses,
    /// The words of the field at a path.
    Field,
}

// The entry for which a part of `l` bits with a number in them stands, and what it is to be; none
// where the part has no entry in the table. Where it is a slice of an integer, the number is put
// into `first`, the first entry so far.
fn entry(
    wanted: Wanted,
    path: &[u32],
    first: u64,
    number: u64,
    l: u64,
    kind: &Kind,
) -> Option<(u64, u64)>
    ensures { result ≡ entry wanted path.now first number l kind.now }
{
    match wanted {
        Wanted::Addresses => match kind {
            Kind::Const(_) => None,
            Kind::Bits(_, _) => None,
            Kind::Word(_, _) => None,
            Kind::Pointer(align, block) => Some((*block as u64, number.wrapping_mul(*align))),
        },
        Wanted::Field => match kind {
            Kind::Const(_) => None,
            Kind::Bits(own, a) => if same_path(own.as_slice(), path) {
                Some((0, put_into(first, *a, l, number)))
            } else {
                None
            },
            Kind::Word(own, j) => if same_path(own.as_slice(), path) {
                Some((*j, number))
            } else {
                None
            },
            Kind::Pointer(_, _) => None,
        },
    }
}

// Puts a number at this place of a table, or nothing where the table has no such place.
fn put_at(table: &mut Seq<u64>, i: u64, number: u64)
    ensures { table.new ≡ slice_set table.old i number }
{
    if (i as usize) < table.len() {
        let _old = table.replace(i as usize, number);
    }
}

// Puts into a table what the parts of a word stand for, where `word` is its value.
fn put_parts(table: &mut Seq<u64>, wanted: Wanted, path: &[u32], parts: &[Part], word: u64)
    ensures { table.new ≡ put_parts wanted path.now word parts.now table.old }
{
    for part in parts {
        let number = take_from(word, part.o, part.l);
        let first = item(table.as_slice(), 0);
        match entry(wanted, path, first, number, part.l, &part.kind) {
            None => {}
            Some((i, found)) => put_at(table, i, found),
        }
    }
}

/// Puts into a table what the parts of flat words stand for, where `words` has the value of each.
pub(crate) fn put_words(
    table: &mut Seq<u64>,
    wanted: Wanted,
    path: &[u32],
    flats: &[FlatWord],
    words: &[u64],
)
    ensures { table.new ≡ put_words wanted path.now flats.now words.now 0 table.old }
{
    for (j, flat) in flats.iter().enumerate() {
        put_parts(
            table,
            wanted,
            path,
            flat.parts.as_slice(),
            item(words, j as u64),
        );
    }
}

// The words of the block that was loaded at this place, or none where there is no such place.
fn words_at(loaded: &[Seq<u64>], i: usize) -> &[u64]
    ensures { result.now ≡ slice_index_or loaded.now i [] }
{
    match loaded.get(i) {
        None => &[],
        Some(words) => words.as_slice(),
    }
}

// Puts what the parts of blocks stand for into the table of the field at a path. The words of the
// blocks were loaded from the last block to the first.
fn put_blocks(table: &mut Seq<u64>, path: &[u32], blocks: &[Block], loaded: &[Seq<u64>])
    ensures { table.new ≡ put_blocks path.now blocks.now loaded.now table.old }
{
    for (b, block) in blocks.iter().enumerate() {
        let words = words_at(loaded, blocks.len() - 1 - b);
        put_words(table, Wanted::Field, path, block.words.as_slice(), words);
    }
}

// How many words represent a value of this type, or 0 where no type is given.
fn count_at(layouts: &[Layout], ty: Option<Ty>) -> usize
    ensures { result ≡ count_at layouts.now ty }
{
    match ty {
        None => 0,
        Some(ty) => word_count(layouts, ty),
    }
}

/// A table of so many zeros.
pub(crate) fn zeros(alloc: Global, count: usize) -> Result<Seq<u64>, AllocError>
    ensures { IfOk result (λ table. table ≡ replicate count 0) }
{
    let mut table = Seq::new(alloc);
    for _turn in 0..count {
        table.push(0)?;
    }
    Ok(table)
}

/// The words of the field at a path of a leaf with these root words and words of blocks.
pub(crate) fn field_words(
    alloc: Global,
    types: &[DataDecl],
    layouts: &[Layout],
    leaf: &Leaf,
    words: &[u64],
    loaded: &[Seq<u64>],
    path: &[u32],
) -> Result<Seq<u64>, AllocError>
    ensures { IfOk result (λ found. found ≡ field_words types.now layouts.now leaf.now words.now loaded.now path.now) }
{
    let mut table = zeros(alloc, count_at(layouts, type_at(types, &leaf.prov, path)))?;
    put_words(&mut table, Wanted::Field, path, leaf.root.as_slice(), words);
    put_blocks(&mut table, path, leaf.blocks.as_slice(), loaded);
    Ok(table)
}
