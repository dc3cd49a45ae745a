//! Whether the types that a leaf flattens have no pointer in their leaves. A leaf flattens the
//! types of the constructors that stand below the root of its provenance. A part is some bits of a
//! word; a leaf has root words and blocks of words. `marks` say for each type, by its number,
//! whether one of its leaves has a pointer part: on where it has.

ghost use Rattle.std.specs.Prelude.{◌≡◌, IfOk, MatchBool, MatchOption};
ghost use Rattle.std.specs.List.{flat_map};
ghost use Rattle.rb_layout.specs.A9.{FailsNoPointer, FlattensNoPointer, cons_below, pattern_cons};
ghost use Rattle.rb_agree.specs.inner.Lists.{FindsIn};
ghost use Rattle.rb_layout.specs.Graphs.{mark_of};
ghost use Rattle.rb_agree.specs.Pointing.{AreMarks, PartPoints, LeafPoints, PartsPoint, WordsPoint, BlocksPoint, LeavesPoint};
ghost use Rattle.rb_agree.specs.inner.Marks.{IsMarked, IsUnmarked};

use rb_core::pattern::Pat;
use rb_core::seq::Seq;
use rb_layout::evidence::Why;
use rb_layout::layout::{Block, FlatWord, Kind, Layout, Leaf, Part};
use std::alloc::{AllocError, Global};

// Whether a part is a pointer.
fn part_points(part: &Part) -> bool
    ensures { MatchBool result (PartPoints part.now) (PartPoints part.now → ⊥) }
{
    match &part.kind {
        Kind::Const(_) => false,
        Kind::Bits(_, _) => false,
        Kind::Word(_, _) => false,
        Kind::Pointer(_, _) => true,
    }
}

// Whether one of the parts of a word is a pointer.
fn parts_point(parts: &[Part]) -> bool
    ensures { MatchBool result (PartsPoint parts.now) (PartsPoint parts.now → ⊥) }
{
    for part in parts {
        if part_points(part) {
            return true;
        }
    }
    false
}

// Whether one of these words has a pointer part.
fn words_point(words: &[FlatWord]) -> bool
    ensures { MatchBool result (WordsPoint words.now) (WordsPoint words.now → ⊥) }
{
    for word in words {
        if parts_point(word.parts.as_slice()) {
            return true;
        }
    }
    false
}

// Whether a word of one of these blocks has a pointer part.
fn blocks_point(blocks: &[Block]) -> bool
    ensures { MatchBool result (BlocksPoint blocks.now) (BlocksPoint blocks.now → ⊥) }
{
    for block in blocks {
        if words_point(block.words.as_slice()) {
            return true;
        }
    }
    false
}

// Whether a leaf has a pointer part.
fn leaf_points(leaf: &Leaf) -> bool
    ensures { MatchBool result (LeafPoints leaf.now) (LeafPoints leaf.now → ⊥) }
{
    if words_point(leaf.root.as_slice()) {
        return true;
    }
    blocks_point(leaf.blocks.as_slice())
}

// Whether some leaf has a pointer part.
fn leaves_point(leaves: &[Leaf]) -> bool
    ensures { MatchBool result (LeavesPoint leaves.now) (LeavesPoint leaves.now → ⊥) }
{
    for leaf in leaves {
        if leaf_points(leaf) {
            return true;
        }
    }
    false
}

/// For each layout, in their order, whether one of its leaves has a pointer part.
///
/// # Errors
///
/// Want of memory.
pub fn pointer_marks(alloc: Global, layouts: &[Layout]) -> Result<Seq<bool>, AllocError>
    ensures { IfOk result (AreMarks layouts.now) }
{
    let mut marks = Seq::new(alloc);
    for layout in layouts {
        marks.push(leaves_point(layout.leaves.as_slice()))?;
    }
    Ok(marks)
}

// The mark of a type, whether a leaf of it has a pointer part; off where the type has no mark.
fn is_marked(marks: &[bool], ty: u32) -> bool
    ensures { result ≡ mark_of marks.now ty }
{
    match marks.get(ty as usize) {
        None => false,
        Some(mark) => *mark,
    }
}

// The first marked type of whose constructors one stands in a pattern, its root included; None
// where there is none.
#[cycle(marking)]
fn marked_in(marks: &[bool], pat: &Pat) -> Option<u32>
    ensures { FindsIn (IsUnmarked marks.now) (IsMarked marks.now) (pattern_cons pat.now) result }
{
    match pat {
        Pat::Wild(_) => None,
        Pat::Var(_, _) => None,
        Pat::Num(_, _) => None,
        Pat::Con(_, con, pats) => {
            if is_marked(marks, con.ty) {
                return Some(con.ty);
            }
            marked_among(marks, pats.as_slice())
        }
    }
}

// The first marked type of whose constructors one stands in these patterns, from left to right;
// None where there is none.
#[cycle(marking)]
fn marked_among(marks: &[bool], pats: &[Pat]) -> Option<u32>
    ensures { FindsIn (IsUnmarked marks.now) (IsMarked marks.now) (flat_map pattern_cons pats.now) result }
{
    for pat in pats {
        if let Some(ty) = marked_in(marks, pat) {
            return Some(ty);
        }
    }
    None
}

// The first marked type of whose constructors one stands below the root of a provenance; None where
// there is none.
fn marked_below(marks: &[bool], prov: &Pat) -> Option<u32>
    ensures { FindsIn (IsUnmarked marks.now) (IsMarked marks.now) (cons_below prov.now) result }
{
    match prov {
        Pat::Wild(_) => None,
        Pat::Var(_, _) => None,
        Pat::Num(_, _) => None,
        Pat::Con(_, _, pats) => marked_among(marks, pats.as_slice()),
    }
}

/// Why a leaf fails: the first type that it flattens and of whose leaves one has a pointer part.
/// None where there is no such type. `marks` tells of each type whether one of its leaves has a
/// pointer part, as `pointer_marks` finds it.
pub fn pointer_fault(layouts: &[Layout], marks: &[bool], leaf: &Leaf) -> Option<Why>
    requires { AreMarks layouts.now marks.now }
    ensures { MatchOption result (FlattensNoPointer layouts.now leaf.now) (FailsNoPointer layouts.now leaf.now) }
{
    match marked_below(marks, &leaf.prov) {
        None => None,
        Some(ty) => Some(Why::HasPointer(ty)),
    }
}
