//! The words of a constructor's fields. A field has words by its type: an integer is one, a data
//! type has those of its written layout or else one, as wide as `rooms` says of the type. Fields
//! are numbered from 0 in their constructor. An `Err` is want of memory.

ghost use Rattle.std.specs.Prelude.{◌≡◌, ◌++◌, IfOk, OnOk, map};
ghost use Rattle.rb_auto.specs.FieldWords.{content, field_words, words_from, constructor_words};
ghost use Rattle.rb_auto.specs.Widths.{counted_width, widths};

use crate::room::{Room, counted_bits, room_width};
use rb_core::layout_decl::PartKind;
use rb_core::program::Program;
use rb_core::seq::Seq;
use rb_core::types::Ty;
use rb_layout::decls::decl_of;
use rb_layout::numbers::number_of;
use std::alloc::{AllocError, Global};

/// A word of a field: the field's number, the word's own where the field has several, and its width
/// in bits.
#[derive(Clone, Copy, PartialEq, Eq)]
pub struct FieldWord {
    pub field: u32,
    pub word: Option<u64>,
    pub width: u64,
}

/// What a part of a leaf's word that holds this word of a field is written as.
pub(crate) fn content(alloc: Global, word: &FieldWord) -> Result<PartKind, AllocError>
    ensures { IfOk result (λ kind. kind ≡ content word.now) }
{
    let mut path = Seq::new(alloc);
    path.push(word.field)?;
    match word.word {
        None => Ok(PartKind::Whole(path)),
        Some(number) => Ok(PartKind::Word(path, number)),
    }
}

// Adds a word of field `field` for each word of a written shape, the list of its words' widths; all
// have numbers of their own, from 0.
fn add_words(field: u32, shape: &[u64], words: &mut Seq<FieldWord>) -> Result<(), AllocError>
    ensures { OnOk result (words.new ≡ words.old ++ words_from field 0 (map counted_width shape.now)) }
{
    for (number, width) in shape.iter().enumerate() {
        words.push(FieldWord {
            field,
            word: Some(number as u64),
            width: counted_bits(*width),
        })?;
    }
    Ok(())
}

// Adds the words of field `field`, whose type has this written shape; an only word has no number.
fn add_shape(field: u32, shape: &[u64], words: &mut Seq<FieldWord>) -> Result<(), AllocError>
    ensures { OnOk result (words.new ≡ words.old ++ field_words field (map counted_width shape.now)) }
{
    if let [width] = shape {
        return words.push(FieldWord {
            field,
            word: None,
            width: counted_bits(*width),
        });
    }
    add_words(field, shape, words)
}

// Adds the words of field `field` of type `ty`: one for an integer, those of the written layout for
// a data type that has one, and else the one word by its room.
fn add_field(
    program: &Program,
    rooms: &[Room],
    field: u32,
    ty: Ty,
    words: &mut Seq<FieldWord>,
) -> Result<(), AllocError>
    ensures { OnOk result (words.new ≡ words.old ++ field_words field (widths program.now rooms.now ty)) }
{
    match ty {
        Ty::Int(bits) => words.push(FieldWord {
            field,
            word: None,
            width: bits as u64,
        }),
        Ty::Named(ty) => match decl_of(program.layouts.as_slice(), ty) {
            None => words.push(FieldWord {
                field,
                word: None,
                width: room_width(rooms.get(ty as usize)),
            }),
            Some(decl) => add_shape(field, decl.shape.as_slice(), words),
        },
    }
}

/// The words of fields of these types, in order.
pub(crate) fn words_of(
    alloc: Global,
    program: &Program,
    rooms: &[Room],
    fields: &[Ty],
) -> Result<Seq<FieldWord>, AllocError>
    ensures { IfOk result (λ words. words ≡ constructor_words program.now rooms.now fields.now) }
{
    let mut words = Seq::new(alloc);
    for (field, ty) in fields.iter().enumerate() {
        add_field(program, rooms, number_of(field)?, *ty, &mut words)?;
    }
    Ok(words)
}
