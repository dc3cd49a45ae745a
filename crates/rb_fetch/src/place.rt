//! Where a part of a leaf stands: the part that holds a unit of a field, or that points to a block.
//! A part is a range of bits of a word, and a unit is a bit of an integer or a word of a data type.
//! A field is what stands at a path, field numbers from the root of the leaf's values. Blocks,
//! words and units are numbered from 0.

ghost use Rattle.std.specs.Prelude.{◌≡◌, ◌==◌, ◌&&◌, MatchOption, Some};
ghost use Rattle.rb_layout.specs.A6 as held;
ghost use Rattle.rb_layout.specs.Flattening.{same_path};
ghost use Rattle.rb_layout.specs.Readable.{AreShort};
ghost use Rattle.rb_layout.specs.Words as words_of;
ghost use Rattle.rb_fetch.specs.inner.Placing as placing;

use rb_core::types::Ty;
use rb_layout::layout::{FlatWord, Kind, Leaf, Part};
use rb_layout::paths::{has_bit, same_path};

/// What part is looked for.
#[derive(Clone, Copy)]
pub enum Wanted {
    /// The one that holds this unit of a field of this type: a bit of an integer, a word of a data type.
    UnitOf(Ty, u64),
    /// The one that points to the block with this number.
    WayTo(usize),
}

/// A part where it stands: in the word `flat`, which has the number `word` among the root words,
/// where no block is given, or in the block with this number.
#[derive(Clone, Copy)]
pub struct Spot<'a> {
    pub block: Option<usize>,
    pub word: usize,
    pub flat: &'a FlatWord,
    pub part: &'a Part,
}

// Whether word `j` of the field at a part's path `own` is word `i` of the field at `path`.
fn has_word(own: &[u32], path: &[u32], j: u64, i: u64) -> bool
    ensures { result ≡ (same_path own.now path.now && (j == i)) }
{
    if !same_path(own, path) {
        return false;
    }
    j == i
}

// Whether a part holds unit `i` of the field of this type at a path: a bit, or a word of a data type.
fn holds_unit(ty: Ty, path: &[u32], i: u64, part: &Part) -> bool
    ensures { result ≡ held.holds_unit ty path.now i part.now.l part.now.kind }
{
    match ty {
        Ty::Int(_) => match &part.kind {
            Kind::Const(_) => false,
            Kind::Bits(own, a) => has_bit(own.as_slice(), path, *a, part.l, i),
            Kind::Word(_, _) => false,
            Kind::Pointer(_, _) => false,
        },
        Ty::Named(_) => match &part.kind {
            Kind::Const(_) => false,
            Kind::Bits(_, _) => false,
            Kind::Word(own, j) => has_word(own.as_slice(), path, *j, i),
            Kind::Pointer(_, _) => false,
        },
    }
}

// Whether a part is a pointer to the block with this number.
fn points_to(part: &Part, block: usize) -> bool
    ensures { result ≡ placing.points_to block part.now.kind }
{
    match &part.kind {
        Kind::Const(_) => false,
        Kind::Bits(_, _) => false,
        Kind::Word(_, _) => false,
        Kind::Pointer(_, own) => *own as usize == block,
    }
}

// Whether a part holds the wanted unit of the field at the path, or points to the wanted block.
fn is_wanted(part: &Part, path: &[u32], wanted: Wanted) -> bool
    ensures { result ≡ placing.is_wanted path.now wanted part.now }
{
    match wanted {
        Wanted::UnitOf(ty, i) => holds_unit(ty, path, i, part),
        Wanted::WayTo(block) => points_to(part, block),
    }
}

// The first part of a word that is wanted; None where none is. `path` is that of the field, where
// one of its units is wanted.
fn part_of<'a>(flat: &'a FlatWord, path: &[u32], wanted: Wanted) -> Option<&'a Part>
    ensures { MatchOption result (placing.NoneIn path.now wanted flat.now.parts)
        (λ x. placing.HasPart path.now wanted flat.now.parts x.now) }
{
    for part in flat.parts.as_slice() {
        if is_wanted(part, path, wanted) {
            return Some(part);
        }
    }
    None
}

// Where the first wanted part stands in words, which are those of the block with this number, or of
// the root where none is given; None where they have no such part. `path` is that of the field,
// where one of its units is wanted.
fn spot_in<'a>(
    words: &'a [FlatWord],
    block: Option<usize>,
    path: &[u32],
    wanted: Wanted,
) -> Option<Spot<'a>>
    ensures { MatchOption result (placing.NoneOf path.now wanted words.now)
        (λ x. placing.IsSpotOf path.now wanted words.now block x) }
{
    for (word, flat) in words.iter().enumerate() {
        if let Some(part) = part_of(flat, path, wanted) {
            return Some(Spot {
                block,
                word,
                flat,
                part,
            });
        }
    }
    None
}

/// Where the wanted part of a leaf stands, in a root word, or else in a word of a block; None where
/// the leaf has none. The path is that of the field, where one of its units is wanted; a pointer
/// has none.
pub fn find_part<'a>(leaf: &'a Leaf, path: &[u32], wanted: Wanted) -> Option<Spot<'a>>
    ensures { MatchOption result (placing.NoSpot leaf.now path.now wanted)
        (λ x. placing.IsWantedSpot leaf.now path.now wanted x) }
{
    if let Some(spot) = spot_in(leaf.root.as_slice(), None, path, wanted) {
        return Some(spot);
    }
    for (b, block) in leaf.blocks.as_slice().iter().enumerate() {
        if let Some(spot) = spot_in(block.words.as_slice(), Some(b), path, wanted) {
            return Some(spot);
        }
    }
    None
}

/// The byte at which a word of a block begins: behind all words before it. Past the last word it is
/// the size of the block.
pub fn begins_at(words: &[FlatWord], word: usize) -> u64
    requires { AreShort words.now }
    ensures { result ≡ words_of.begins_at words.now word }
{
    let mut byte: u64 = 0;
    for (j, flat) in words.iter().enumerate() {
        if j == word {
            return byte;
        }
        byte += flat.width / 8;
    }
    byte
}
