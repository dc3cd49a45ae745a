//! Why layouts are refused: the rule, the place, and what fails there. Items are the words and
//! inline fields of a leaf as they are written, numbered from 0, outer before inner. A range is its
//! first bit and its length, in this order; numbers and widths count bits where nothing else is
//! said. Paths are lists of field numbers from the root.

use rb_core::layout_decl::Loc;
use rb_core::pattern::Pat;
use rb_core::seq::Seq;

/// What fails at a place; its rule, type and leaf are said by the refusal.
#[derive(Debug, Drop)]
pub enum Why {
    /// A1: the type has no layout.
    NoLayout,
    /// A1: this word of the shape has this width, which is not 1 to 64.
    ShapeWidth(u32, u64),
    /// A2: the shape has so many words, and the leaf so many root words, another number.
    WordCount(u64, u64),
    /// A2: this root word has this width, and the shape's word another, the last one.
    WordWidth(u32, u64, u64),
    /// A3: in this item, the part with this range has no bit or goes beyond its word.
    Outside(u32, u64, u64),
    /// A3: in this item, the parts with these two ranges have a bit in common. The one that begins
    /// lower comes first.
    Overlap(u32, u64, u64, u64, u64),
    /// A3: in this item, this constant doesn't fit its part of so many bits.
    ConstWide(u32, u64, u64),
    /// A3: in this item, the part with this range doesn't fit what it names of the field at this
    /// path.
    Misfit(u32, u64, u64, Seq<u32>),
    /// A4: a block has a word of this width, which is none of 8, 16, 32 and 64.
    BlockWord(u64),
    /// A4: a block has so many words, which are none or more than 64.
    BlockWords(u64),
    /// A4: the leaf has so many blocks, more than 64.
    Blocks(u64),
    /// A4: a pointer has this alignment in bytes, which is no power of two up to 64.
    Align(u64),
    /// A4: a pointer has so many bits, those that its alignment saves included, fewer than 24.
    ShortPointer(u64),
    /// A5: the leaf with this number, a later one, has a value in common with the refused leaf.
    Common(u32),
    /// A5: the pattern has a value, and none of its values has a leaf.
    NoLeaf(Pat),
    /// A6: no part holds this bit of the integer, or this word of the data field, at the open
    /// position with this path.
    NotHeld(Seq<u32>, u64),
    /// A6: more than one part holds this bit of the integer, or this word of the data field, at the
    /// open position with this path.
    HeldTwice(Seq<u32>, u64),
    /// A6: a part or an inline field names this path, and the leaf has no open position there.
    NotOpen(Seq<u32>),
    /// A7: the location of a split above the leaf doesn't resolve in it.
    Unresolved(Loc),
    /// A7: the leaf is below this literal of the split at this location, and doesn't have it known
    /// there.
    NotKnown(Loc, u64),
    /// A7: the leaf is below the `else` of the split at this location, and doesn't exclude this
    /// literal of it.
    NotExcluded(Loc, u64),
    /// A8: the split at this location has this literal, which doesn't fit its range.
    LiteralWide(Loc, u64),
    /// A8: the split at this location has this literal twice.
    LiteralTwice(Loc, u64),
    /// A8: the split at this location has neither an arm nor an `else`.
    NoArm(Loc),
    /// A9: the leaf flattens the type with this number, as its provenance has a constructor of it
    /// below the root, and the layout of that type has a pointer.
    HasPointer(u32),
    /// A9: the types with these numbers, from the refused one on, of which each flattens the next
    /// and the last the first. No type stands twice; one alone leads to itself.
    FlatCycle(Seq<u32>),
    /// A10: the types with these numbers, from the refused one on, of which each holds a field of
    /// the next in its root words and the last one of the first. No type stands twice; one alone
    /// leads to itself.
    HoldCycle(Seq<u32>),
}

/// A refusal: the rule's number from 1 to 10, the type's number, the leaf's number where the rule
/// fails at a leaf, and what fails there.
#[derive(Debug, Drop)]
pub struct Refused {
    pub rule: u8,
    pub ty: u32,
    pub leaf: Option<u32>,
    pub why: Why,
}
