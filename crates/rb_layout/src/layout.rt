//! Layouts in flat form. Widths, ranges and lengths count bits; bits, words, blocks, leaves and
//! fields are numbered from 0. Blocks are numbered as they are placed, inner before outer, so that
//! a pointer in a block leads to one with a lower number.

use rb_core::boxed::Boxed;
use rb_core::layout_decl::Loc;
use rb_core::pattern::Pat;
use rb_core::seq::Seq;

/// What the bits of a part hold. A path is a list of field numbers from the root of the leaf's
/// provenance.
#[derive(Drop)]
pub enum Kind {
    /// This number, in all values of the leaf.
    Const(u64),
    /// Bits of the integer at this path, from this bit on, as many as the part has.
    Bits(Seq<u32>, u64),
    /// The word with this number of the data field at this path.
    Word(Seq<u32>, u64),
    /// A pointer that counts in units of so many bytes, to the leaf's block with this number.
    Pointer(u64, u32),
}

/// A part of a word: the `l` bits from bit `o` on, and what they hold.
#[derive(Drop)]
pub struct Part {
    pub o: u64,
    pub l: u64,
    pub kind: Kind,
}

/// A word of `width` bits, with its parts in the order in which they are written. Bits in no part
/// are free.
#[derive(Drop)]
pub struct FlatWord {
    pub width: u64,
    pub parts: Seq<Part>,
}

/// A block that begins at a multiple of `align` bytes, with its words one after the other, without
/// padding.
#[derive(Drop)]
pub struct Block {
    pub align: u64,
    pub words: Seq<FlatWord>,
}

/// A leaf: its provenance, which matches the values that it holds, its root words, and its blocks,
/// inner ones before outer ones.
#[derive(Drop)]
pub struct Leaf {
    pub prov: Pat,
    pub root: Seq<FlatWord>,
    pub blocks: Seq<Block>,
}

/// An arm of a split: its literal, and what stands under it.
#[cycle(tree)]
#[derive(Drop)]
pub struct FlatArm {
    pub literal: u64,
    pub under: FlatTree,
}

/// A tree of splits over the leaves of a layout, which has the numbers of the leaves and not the
/// leaves themselves.
#[cycle(tree)]
#[derive(Drop)]
pub enum FlatTree {
    /// A split of the bits at a location, with its arms and what stands under `else`, if it has
    /// one.
    Split(Loc, Seq<FlatArm>, Option<Boxed<FlatTree>>),
    /// The leaf with this number.
    Leaf(u32),
}

/// A layout: its type's number, the widths of its words, its tree of splits, and its leaves from
/// left to right.
#[derive(Drop)]
pub struct Layout {
    pub ty: u32,
    pub shape: Seq<u64>,
    pub tree: FlatTree,
    pub leaves: Seq<Leaf>,
}

/// A word of a leaf, by its number: among the root words where `block` is None, and else in the
/// block with this number.
#[derive(Clone, Copy, PartialEq, Eq)]
pub struct WordRef {
    pub block: Option<u32>,
    pub word: u32,
}
