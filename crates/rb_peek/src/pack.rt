//! Words of a leaf without pointers, made from the words of its fields.
//!
//! A field is the subvalue at a path, a list of field numbers from the leaf's root. A part is a
//! range of a word: `l` bits from bit `o` on.

ghost use Rattle.std.specs.Prelude.{◌≡◌, IfOk, map};
ghost use Rattle.rb_coding.specs.Packing.{word_of_parts, word_made};
ghost use Rattle.rb_rel.specs.Storing.{number_of};
ghost use Rattle.rb_peek.specs.Rebuilds.{words_at_path};

use rb_coding::bits::{put_into, take_from};
use rb_coding::lookup::item;
use rb_core::seq::Seq;
use rb_layout::layout::{FlatWord, Kind, Part};
use rb_layout::paths::same_path;
use std::alloc::{AllocError, Global};

/// The words of the field at a path.
#[derive(Drop)]
pub struct FieldWords {
    pub path: Seq<u32>,
    pub words: Seq<u64>,
}

// The words of the first of the fields that is at the path; none where no field is.
fn words_in<'a>(fields: &'a [FieldWords], path: &[u32]) -> &'a [u64]
    ensures { result.now ≡ words_at_path fields.now path.now }
{
    for field in fields {
        if same_path(field.path.as_slice(), path) {
            return field.words.as_slice();
        }
    }
    &[]
}

// What a part is to hold: its constant, or the bits or word of a field. A pointer, which no leaf
// without pointers has, is 0.
fn number_of(part: &Part, fields: &[FieldWords]) -> u64
    ensures { result ≡ number_of (words_at_path fields.now) (λ b. 0) part.now.l part.now.kind }
{
    match &part.kind {
        Kind::Const(c) => *c,
        Kind::Bits(path, a) => {
            let integer = item(words_in(fields, path.as_slice()), 0);
            take_from(integer, *a, part.l)
        }
        Kind::Word(path, j) => item(words_in(fields, path.as_slice()), *j),
        Kind::Pointer(_, _) => 0,
    }
}

// The word with these parts: each in its place with what the fields make it hold, and 0 elsewhere.
fn pack(parts: &[Part], fields: &[FieldWords]) -> u64
    ensures { result ≡ word_of_parts (words_at_path fields.now) (λ b. 0) parts.now }
{
    let mut word = 0;
    for k in (0..parts.len()).rev() {
        let part = &parts[k];
        word = put_into(word, part.o, part.l, number_of(part, fields));
    }
    word
}

/// The words that the fields make in a leaf whose root has these flat words, one for each. A field
/// that is not among `fields` counts as 0.
pub(crate) fn pack_all(
    alloc: Global,
    words: &[FlatWord],
    fields: &[FieldWords],
) -> Result<Seq<u64>, AllocError>
    ensures { IfOk result (λ ws. ws ≡ map (word_made (words_at_path fields.now) (λ b. 0)) words.now) }
{
    let mut packed = Seq::new(alloc);
    for word in words {
        packed.push(pack(word.parts.as_slice(), fields))?;
    }
    Ok(packed)
}
