//! The word of a leaf with its parts. A leaf is what the values of a constructor look like, here
//! one word. A part is some bits of a word, `l` from bit `o` on, with what they hold; a block is
//! words in memory to which a pointer leads. `words` are those of the constructor's fields, and
//! `con` is its number, which stands in the tag. An `Err` is want of memory, or that the parts of a
//! word would end past what a `u64` counts.

ghost use Rattle.std.specs.Prelude.{◌≡◌, ◌++◌, IfOk, map, length, OnOk};
ghost use Rattle.rb_auto.specs.Items.{block_items, boxed_parts, field_item, form_parts, form_tag, form_width, groups, group_item, leaf_items, packed_parts, parts_from, whole_word};

use crate::field_words::{FieldWord, content};
use crate::form::Form;
use crate::room::WORD_BITS;
use rb_core::layout_decl::{LayItem, PartDecl, PartKind};
use rb_core::seq::Seq;
use std::alloc::{AllocError, Global};

/// The bits of a boxed type's tag.
pub const BOX_TAG_BITS: u64 = 8;

/// The bytes of which a boxed type's pointer counts multiples.
pub const BOX_ALIGN: u64 = 8;

/// How many words a block may have at most.
pub const BLOCK_WORDS: usize = 64;

// A whole word with one part, of this kind, in its lowest `l` bits.
fn whole_word(alloc: Global, l: u64, kind: PartKind) -> Result<LayItem, AllocError>
    ensures { IfOk result (λ item. item ≡ whole_word l kind) }
{
    let mut parts = Seq::new(alloc);
    parts.push(PartDecl { o: 0, l, kind })?;
    Ok(LayItem::Word(WORD_BITS, parts))
}

// A word of a block for each of these words of fields, which it holds from bit 0 on.
fn field_items(alloc: Global, words: &[FieldWord]) -> Result<Seq<LayItem>, AllocError>
    ensures { IfOk result (λ items. items ≡ map field_item words.now) }
{
    let mut items = Seq::new(alloc);
    for word in words {
        items.push(whole_word(alloc, word.width, content(alloc, word)?)?)?;
    }
    Ok(items)
}

// A word that points to a block with these words.
fn group_item(alloc: Global, words: &[FieldWord]) -> Result<LayItem, AllocError>
    ensures { IfOk result (λ item. item ≡ group_item words.now) }
{
    let items = field_items(alloc, words)?;
    whole_word(alloc, WORD_BITS, PartKind::Pointer(BOX_ALIGN, items))
}

// A pointer for each group of 64 words, the last of which has the rest.
fn group_items(alloc: Global, words: &[FieldWord]) -> Result<Seq<LayItem>, AllocError>
    ensures { IfOk result (λ items. items ≡ map group_item (groups (length words.now) words.now)) }
{
    let mut items = Seq::new(alloc);
    let mut rest = words;
    for _turn in 0..words.len() {
        if rest.is_empty() {
            return Ok(items);
        }
        let (group, more) = rest.split_at(rest.len().min(BLOCK_WORDS));
        items.push(group_item(alloc, group)?)?;
        rest = more;
    }
    Ok(items)
}

// The words of a constructor's block: those of its fields, or pointers to groups of them where
// there are more than a block may have.
fn block_items(alloc: Global, words: &[FieldWord]) -> Result<Seq<LayItem>, AllocError>
    ensures { IfOk result (λ items. items ≡ block_items words.now) }
{
    if words.len() <= BLOCK_WORDS {
        field_items(alloc, words)
    } else {
        group_items(alloc, words)
    }
}

// The parts of a boxed constructor's word: its tag, and the pointer to the words of its fields, if
// it has any.
fn boxed_parts(alloc: Global, con: u32, words: &[FieldWord]) -> Result<Seq<PartDecl>, AllocError>
    ensures { IfOk result (λ parts. parts ≡ boxed_parts con words.now) }
{
    let mut parts = Seq::new(alloc);
    parts.push(PartDecl {
        o: 0,
        l: BOX_TAG_BITS,
        kind: PartKind::Const(con as u64),
    })?;
    if !words.is_empty() {
        parts.push(PartDecl {
            o: BOX_TAG_BITS,
            l: WORD_BITS - BOX_TAG_BITS,
            kind: PartKind::Pointer(BOX_ALIGN, block_items(alloc, words)?),
        })?;
    }
    Ok(parts)
}

// Adds a part for each of these words, one after the other from bit `from` upwards, without a gap.
fn add_words(
    alloc: Global,
    from: u64,
    words: &[FieldWord],
    parts: &mut Seq<PartDecl>,
) -> Result<(), AllocError>
    ensures { OnOk result (parts.new ≡ parts.old ++ parts_from from words.now) }
{
    let mut o = from;
    for word in words {
        parts.push(PartDecl {
            o,
            l: word.width,
            kind: content(alloc, word)?,
        })?;
        let Some(next) = o.checked_add(word.width) else {
            return Err(AllocError);
        };
        o = next;
    }
    Ok(())
}

// The parts of a packed constructor's word: its tag, if that has bits, and the words of its fields
// behind it.
fn packed_parts(
    alloc: Global,
    tag: u64,
    con: u32,
    words: &[FieldWord],
) -> Result<Seq<PartDecl>, AllocError>
    ensures { IfOk result (λ parts. parts ≡ packed_parts tag con words.now) }
{
    let mut parts = Seq::new(alloc);
    if tag > 0 {
        parts.push(PartDecl {
            o: 0,
            l: tag,
            kind: PartKind::Const(con as u64),
        })?;
    }
    add_words(alloc, tag, words, &mut parts)?;
    Ok(parts)
}

/// How many bits the tag of a derived layout in this form has.
pub(crate) fn form_tag(form: Form) -> u64
    ensures { result ≡ form_tag form }
{
    match form {
        Form::Boxed => BOX_TAG_BITS,
        Form::Packed { tag, width: _ } => tag,
    }
}

/// How many bits the word of a derived layout in this form has.
pub(crate) fn form_width(form: Form) -> u64
    ensures { result ≡ form_width form }
{
    match form {
        Form::Boxed => WORD_BITS,
        Form::Packed { tag: _, width } => width,
    }
}

// The parts of a constructor's word in this form, where its fields have these words.
fn form_parts(
    alloc: Global,
    form: Form,
    con: u32,
    words: &[FieldWord],
) -> Result<Seq<PartDecl>, AllocError>
    ensures { IfOk result (λ parts. parts ≡ form_parts form con words.now) }
{
    match form {
        Form::Boxed => boxed_parts(alloc, con, words),
        Form::Packed { tag, width: _ } => packed_parts(alloc, tag, con, words),
    }
}

/// The items of a constructor's leaf: one word in this form, with its tag and its fields' words.
pub(crate) fn leaf_items(
    alloc: Global,
    form: Form,
    con: u32,
    words: &[FieldWord],
) -> Result<Seq<LayItem>, AllocError>
    ensures { IfOk result (λ items. items ≡ leaf_items form con words.now) }
{
    let parts = form_parts(alloc, form, con, words)?;
    let mut items = Seq::new(alloc);
    items.push(LayItem::Word(form_width(form), parts))?;
    Ok(items)
}
