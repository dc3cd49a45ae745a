//! Layouts as they are written: a tree of splits whose leaves say where each field lies. Bits of a
//! word are numbered from 0, the lowest; a path is a list of field numbers from the root of a
//! value.

ghost use Rattle.std.specs.Prelude.{◌≡◌, IfOk};

use crate::boxed::Boxed;
use crate::pattern::Pat;
use crate::seq::Seq;
use std::alloc::{AllocError, Global};

/// One step of a location through a pointer: the pointer counts `align` bytes, and the block word
/// at byte `byte` has `width` bits, of which the range begins at bit `o` and is `l` bits long.
#[derive(Clone, Copy, PartialEq, Eq, Debug)]
pub struct Step {
    pub align: u64,
    pub byte: u64,
    pub width: u64,
    pub o: u64,
    pub l: u64,
}

/// A location: the `l` bits from bit `o` on of the root word with this number, or, where it has
/// steps, what these reach through the pointer there, one after the other.
#[derive(Debug, Drop)]
pub struct Loc {
    pub word: u64,
    pub o: u64,
    pub l: u64,
    pub steps: Seq<Step>,
}

impl Loc {
    /// An equal location.
    ///
    /// # Errors
    ///
    /// Want of memory.
    pub fn copy(&self, alloc: Global) -> Result<Loc, AllocError>
        ensures { IfOk result (λ loc. loc ≡ self.now) }
    {
        Ok(Loc {
            word: self.word,
            o: self.o,
            l: self.l,
            steps: self.steps.copy(alloc)?,
        })
    }
}

/// What the bits of a part hold. A path is a list of field numbers from the root.
#[cycle(item)]
#[derive(Drop)]
pub enum PartKind {
    /// This number.
    Const(u64),
    /// The field at this path, whole.
    Whole(Seq<u32>),
    /// So many bits from that bit of the integer at this path: path, first bit, length.
    Slice(Seq<u32>, u64, u64),
    /// The word with this number of the data field at this path.
    Word(Seq<u32>, u64),
    /// A pointer that counts so many bytes, to a block with these words.
    Pointer(u64, Seq<LayItem>),
}

/// A part of a word: the `l` bits from bit `o` on, and what they hold.
#[cycle(item)]
#[derive(Drop)]
pub struct PartDecl {
    pub o: u64,
    pub l: u64,
    pub kind: PartKind,
}

/// A word of a leaf or a block, or the words of the field at a path.
#[cycle(item)]
#[derive(Drop)]
pub enum LayItem {
    /// A word of so many bits, with its parts.
    Word(u64, Seq<PartDecl>),
    /// All words of the field at this path.
    Inline(Seq<u32>),
}

/// One arm of a split: a literal, and the tree that stands where the split's bits are this number.
#[cycle(split)]
#[derive(Drop)]
pub struct Arm {
    pub literal: u64,
    pub under: LayTree,
}

/// A layout's tree: splits, which tell values apart by their bits, down to leaves.
#[cycle(split)]
#[derive(Drop)]
pub enum LayTree {
    /// A split of the bits at a location, with its arms in their order and what stands under
    /// `else`, or None where it has no `else`.
    Split(Loc, Seq<Arm>, Option<Boxed<LayTree>>),
    /// A leaf: its first token's number, the pattern of the values that it holds, and its words.
    Leaf(u32, Pat, Seq<LayItem>),
}

/// A layout as it is written: the token number of `layout`, the number of its data type, the widths
/// of its root words in bits, and its tree.
#[derive(Drop)]
pub struct LayoutDecl {
    pub at: u32,
    pub ty: u32,
    pub shape: Seq<u64>,
    pub tree: LayTree,
}
