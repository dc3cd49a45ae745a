//! Where locations lead. A location names a root word and a range of its bits, and then steps. Each
//! step goes on through a pointer in just the range so far, to the word of its block that begins at
//! the step's byte and has its width, and names a range of that.

ghost use Rattle.std.specs.Prelude.{◌≡◌, ◌==◌, ◌&&◌, Some, None};
ghost use Rattle.std.specs.Option.{option_copied};
ghost use Rattle.rb_layout.specs.Words.{words_in, flat_at};
ghost use Rattle.rb_layout.specs.Locations.{pointed_in, block_in, word_beginning, reached_at, next_ref, pointer_block, range_in, ref_of};
ghost use Rattle.rb_layout.specs.Readable.{AreShort, IsReadable};
ghost use Rattle.rb_layout.specs.inner.Ends.{end_of};

use crate::layout::{FlatWord, Kind, Leaf, Part, WordRef};
use rb_core::layout_decl::{Loc, Step};

/// Where a location ends: a word of a leaf, and the `l` bits of it from bit `o` on.
#[derive(Clone, Copy)]
pub struct End {
    pub at: WordRef,
    pub o: u64,
    pub l: u64,
}

// The words of a block of a leaf, by the block's number; none where there is no such block.
fn words_of(leaf: &Leaf, block: u32) -> &[FlatWord]
    ensures { result.now ≡ words_in leaf.now (Some block) }
{
    match leaf.blocks.get(block as usize) {
        None => &[],
        Some(found) => found.words.as_slice(),
    }
}

/// The word of a leaf that a reference names, of its root or of a block; None where it has no such
/// word.
pub(crate) fn flat_at(leaf: &Leaf, at: WordRef) -> Option<&FlatWord>
    ensures { option_copied result ≡ flat_at leaf.now at }
{
    match at.block {
        None => leaf.root.get(at.word as usize),
        Some(b) => match leaf.blocks.get(b as usize) {
            None => None,
            Some(block) => block.words.get(at.word as usize),
        },
    }
}

// The block of a part that is a pointer of just the range of `l` bits from bit `o` and this
// alignment. None for any other part.
fn pointed_in(part: &Part, o: u64, l: u64, align: u64) -> Option<u32>
    ensures { result ≡ pointed_in part.now o l align }
{
    if part.o != o {
        return None;
    }
    if part.l != l {
        return None;
    }
    match &part.kind {
        Kind::Const(_) => None,
        Kind::Bits(_, _) => None,
        Kind::Word(_, _) => None,
        Kind::Pointer(own, b) => { if *own == align { Some(*b) } else { None } }
    }
}

// The block of the first of the parts that is a pointer of just the range of `l` bits from bit `o`
// and this alignment. None where none is.
#[tactic(auto, using(crate::proofs::Locating::locating))]
fn block_in(parts: &[Part], o: u64, l: u64, align: u64) -> Option<u32>
    ensures { result ≡ block_in parts.now o l align }
{
    for part in parts {
        if let Some(b) = pointed_in(part, o, l, align) {
            return Some(b);
        }
    }
    None
}

// Whether a word that begins at byte `start` of its block begins at `byte`, and has this width.
fn begins_here(word: &FlatWord, start: u64, byte: u64, width: u64) -> bool
    ensures { result ≡ ((start == byte) && (word.now.width == width)) }
{
    if start != byte {
        return false;
    }
    word.width == width
}

// The number of the first of a block's words that begins at this byte and has this width. Words
// follow one another; of a width that is no multiple of 8 the whole bytes count. None where none
// does.
#[tactic(auto, using(crate::proofs::Locating::locating))]
fn word_beginning(words: &[FlatWord], byte: u64, width: u64) -> Option<u32>
    requires { AreShort words.now }
    ensures { result ≡ word_beginning words.now 0 byte width 0 }
{
    let mut start: u64 = 0;
    let mut j: u32 = 0;
    for word in words {
        if begins_here(word, start, byte, width) {
            return Some(j);
        }
        start += word.width / 8;
        j += 1;
    }
    None
}

// The block to which the word at `at` points in just the range of `l` bits from bit `o`, with this
// alignment. None where there is no such word or pointer.
fn block_at(leaf: &Leaf, at: WordRef, o: u64, l: u64, align: u64) -> Option<u32>
    ensures { result ≡ pointer_block (flat_at leaf.now at) o l align }
{
    match flat_at(leaf, at) {
        None => None,
        Some(word) => block_in(word.parts.as_slice(), o, l, align),
    }
}

// The word of block `b` at which a step ends: the first that begins at its byte and has its width.
// None where there is no such block or word.
fn word_of(leaf: &Leaf, b: u32, step: &Step) -> Option<WordRef>
    requires { IsReadable leaf.now }
    ensures { result ≡ next_ref leaf.now (Some b) step.now }
{
    match word_beginning(words_of(leaf, b), step.byte, step.width) {
        None => None,
        Some(j) => Some(WordRef {
            block: Some(b),
            word: j,
        }),
    }
}

// The word to which a step leads from the range of `l` bits from bit `o` of the word at `at`. None
// where there is no pointer in just that range with the step's alignment, or no such word behind
// it.
fn next_word(leaf: &Leaf, at: WordRef, o: u64, l: u64, step: &Step) -> Option<WordRef>
    requires { IsReadable leaf.now }
    ensures { result ≡ next_ref leaf.now (pointer_block (flat_at leaf.now at) o l step.now.align) step.now }
{
    match block_at(leaf, at, o, l, step.align) {
        None => None,
        Some(b) => word_of(leaf, b, step),
    }
}

// The end of a location at `l` bits from bit `o` of the word at `at`. None where there is no such
// word, or where the range has no bit or goes beyond the word.
fn last_end(leaf: &Leaf, at: WordRef, o: u64, l: u64) -> Option<End>
    ensures { result ≡ end_of (range_in (flat_at leaf.now at) at o l) }
{
    let word = match flat_at(leaf, at) {
        None => return None,
        Some(word) => word,
    };
    if l < 1 {
        return None;
    }
    if word.width < l {
        return None;
    }
    if word.width - l < o {
        return None;
    }
    Some(End { at, o, l })
}

/// Where a location ends in a leaf. None where it does not resolve: a word, a pointer or a block's
/// word on its way is missing, or its last range has no bit or goes beyond its word.
#[tactic(auto, using(crate::proofs::Locating::locating))]
pub(crate) fn end_of(leaf: &Leaf, loc: &Loc) -> Option<End>
    requires { IsReadable leaf.now }
    ensures { result ≡ end_of (reached_at leaf.now loc.now) }
{
    if loc.word >= 4294967296 {
        return None;
    }
    let mut at = WordRef {
        block: None,
        word: loc.word as u32,
    };
    let mut o = loc.o;
    let mut l = loc.l;
    for step in loc.steps.as_slice() {
        match next_word(leaf, at, o, l, step) {
            None => return None,
            Some(next) => {
                at = next;
            }
        }
        o = step.o;
        l = step.l;
    }
    last_end(leaf, at, o, l)
}

/// The word at which a location ends in a leaf. None where it does not resolve.
#[tactic(auto, using(crate::proofs::Locating::locating))]
pub fn resolve_loc(leaf: &Leaf, loc: &Loc) -> Option<WordRef>
    requires { IsReadable leaf.now }
    ensures { result ≡ ref_of (reached_at leaf.now loc.now) }
{
    match end_of(leaf, loc) {
        None => None,
        Some(end) => Some(end.at),
    }
}
