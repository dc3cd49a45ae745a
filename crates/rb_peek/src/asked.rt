//! The words that the splits of a layout ask for.
//!
//! A split is a node of a layout's tree: its location says which bits decide on the arm to take. A
//! location is a range of a root word, and steps from there, each over a pointer to a range of a
//! word in a block. `words` are those of the value, `memory` has the image's blocks, and `found` is
//! the list to which is added. A pointer is refused where it leads to no word, or, from within a
//! block, not below that block.

ghost use Rattle.std.specs.Prelude.{◌≡◌, ◌++◌, IfOk, OnOk};
ghost use Rattle.rb_image.specs.Splits.{range_at};
ghost use Rattle.rb_peek.specs.Asked.{asked_by, ranges_at};
ghost use Rattle.rb_peek.specs.inner.Checking.{found_or_none};
ghost use Rattle.rb_image_text.specs.Places.{AreInPlace};

use rb_coding::splits::under;
use rb_core::layout_decl::Loc;
use rb_image::kept::Kept;
use rb_image::splits::{range_of, step_over, word_at};
use rb_image_text::image::ImageBlock;
use rb_layout::layout::FlatTree;
use std::alloc::AllocError;

// Adds the bits that are read for a location, and gives those at the location, which are the last;
// `None` where a pointer on the way is refused: then the bits up to that pointer are added.
fn add_ranges(
    memory: &[ImageBlock],
    words: &[Kept],
    loc: &Loc,
    found: &mut Vec<Kept>,
) -> Result<Option<Kept>, AllocError>
    requires placed { AreInPlace memory.now }
    ensures range { IfOk result (λ range. range ≡ found_or_none (range_at memory.now words.now loc.now)) }
    ensures added { OnOk result (found.new.items ≡ found.old.items ++ ranges_at memory.now words.now loc.now) }
{
    let mut range = range_of(word_at(words, loc.word), loc.o, loc.l);
    found.push(range)?;
    for step in loc.steps.as_slice() {
        match step_over(memory, range, *step) {
            Err(_) => return Ok(None),
            Ok(word) => {
                range = range_of(word, step.o, step.l);
                found.push(range)?;
            }
        }
    }
    Ok(Some(range))
}

/// Adds the bits that the splits of a tree read on the way to a leaf, with where they are kept: for
/// each split those of the pointers that its location passes, and then those at the location. It
/// ends at a leaf, at a pointer that is refused, or at a split that no arm takes.
pub(crate) fn add_asked(
    memory: &[ImageBlock],
    words: &[Kept],
    tree: &FlatTree,
    found: &mut Vec<Kept>,
) -> Result<(), AllocError>
    requires placed { AreInPlace memory.now }
    ensures { OnOk result (found.new.items ≡ found.old.items ++ asked_by tree.now memory.now words.now) }
{
    let mut tree = tree;
    loop {
        match tree {
            FlatTree::Leaf(_) => return Ok(()),
            FlatTree::Split(loc, arms, other) => match add_ranges(memory, words, loc, found)? {
                None => return Ok(()),
                Some(range) => match under(arms.as_slice(), other, range.number) {
                    None => return Ok(()),
                    Some(next) => {
                        tree = next;
                    }
                },
            },
        }
    }
}
