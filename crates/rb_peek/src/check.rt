//! The check of the words on a path.
//!
//! A path is a list of field numbers from the root. A walk goes along it through subvalues of data
//! types; one that it passed has its leaf, the leaf's words, and `at`, the path inside the leaf
//! along which the walk goes on. A part is a range of a leaf's word: a constant, bits or a word of
//! a field, or a pointer; a spot is a part with the word that it is of. A pointer is refused where
//! it leads to no block of the leaf's size, or, from within a block, not below that block. `agreed`
//! has the program's layouts; `path` of the type `PathWords` has the words on the path, and `found`
//! is the list to which words are added.

ghost use Rattle.std.specs.Prelude.{◌≡◌, ◌++◌, IfOk, OnOk};
ghost use Rattle.std.specs.Option.{option_copied};
ghost use Rattle.rb_layout.specs.Positions.{layout_of};
ghost use Rattle.rb_layout.specs.Readable.{IsReadable};
ghost use Rattle.rb_image.specs.LeafWords.{HasNumbers};
ghost use Rattle.rb_image.specs.Orders.{IsLeafPart, order_of, spot_part};
ghost use Rattle.rb_peek.specs.Paths as spec;
ghost use Rattle.rb_peek.specs.Walks.{ArePassed, IsPassed, seen_of, where_of};
ghost use Rattle.rb_peek.specs.inner.Checking.{all_seen, fault_among, fault_at, fault_of_seen, fault_on_path};
ghost use Rattle.rb_peek.specs.inner.Checking.{IsFoundOn, fault_seen, first_ahead, has_word, stand_of, words_seen};
ghost use Rattle.rb_image_text.specs.Places.{AreInPlace};

use crate::ahead::{add_below, is_there};
use crate::asked::add_asked;
use crate::path_words::PathWords;
use crate::walk::{Passed, Walk};
use rb_image::kept::{Kept, Place};
use rb_image::leaf_words::LeafWords;
use rb_image::order::{Spot, order_of};
use rb_image::roots::root_place;
use rb_image::ways::refusal_of;
use rb_image_text::fault::ImageFault;
use rb_image_text::image::{Image, ImageBlock};
use rb_layout::agreed::Agreed;
use rb_layout::layout::{Kind, Layout, Leaf};
use std::alloc::{AllocError, Global};

// Adds the words of the leaf of a subvalue that hold what comes next on the path, and those whose
// pointers lead there; none where the path ends at the root of the leaf.
fn add_ahead(
    alloc: Global,
    image: &Image,
    passed: &Passed,
    found: &mut Vec<Kept>,
) -> Result<(), AllocError>
    requires placed { AreInPlace image.now.blocks }
    requires passed { IsPassed image.now passed.now }
    ensures { OnOk result (found.new.items
        ≡ found.old.items ++ first_ahead image.now.blocks (seen_of passed.now) passed.now.at) }
{
    let visited = &passed.visited;
    match passed.at.get(0) {
        None => Ok(()),
        Some(field) => add_below(alloc, image, visited.leaf, &visited.words, &[*field], found),
    }
}

// The layout of the data type with this number, which has one if it is declared; else none.
fn layout_of(layouts: &[Layout], ty: u32) -> Option<&Layout>
    ensures { option_copied result ≡ layout_of layouts.now ty }
{
    layouts.get(ty as usize)
}

// Adds the words that the splits of a subvalue read, with where they are kept; none where its type
// has no layout.
fn add_splits(
    agreed: &Agreed,
    image: &Image,
    passed: &Passed,
    found: &mut Vec<Kept>,
) -> Result<(), AllocError>
    requires placed { AreInPlace image.now.blocks }
    ensures { OnOk result (found.new.items ≡ found.old.items
        ++ spec.words_asked agreed.now.layouts image.now.blocks (stand_of (seen_of passed.now))) }
{
    let Some(layout) = layout_of(agreed.layouts(), passed.ty) else {
        return Ok(());
    };
    let words = passed.visited.words.root.as_slice();
    add_asked(image.blocks.as_slice(), words, &layout.tree, found)
}

// Adds the words of a subvalue on a path: those that its splits read, and those that hold what
// comes next.
fn add_seen(
    alloc: Global,
    agreed: &Agreed,
    image: &Image,
    passed: &Passed,
    found: &mut Vec<Kept>,
) -> Result<(), AllocError>
    requires placed { AreInPlace image.now.blocks }
    requires passed { IsPassed image.now passed.now }
    ensures { OnOk result (found.new.items
        ≡ found.old.items ++ words_seen agreed.now.layouts image.now.blocks (seen_of passed.now)) }
{
    add_splits(agreed, image, passed, found)?;
    add_ahead(alloc, image, passed, found)
}

// The words on the path of a walk: those of the root; those that the splits of each subvalue on it
// read; those that hold what comes next on it or below that; and those whose pointers lead to them.
fn words_of(
    alloc: Global,
    agreed: &Agreed,
    image: &Image,
    walk: &Walk,
) -> Result<PathWords, AllocError>
    requires placed { AreInPlace image.now.blocks }
    requires passed { ArePassed image.now walk.now }
    ensures { IfOk result (λ found. IsFoundOn agreed.now.layouts image.now (all_seen (where_of walk.now)) found) }
{
    let Place { ty: _, words } = root_place(alloc, 0, image.root.as_slice())?;
    let mut found = words;
    for passed in walk.before.as_slice() {
        add_seen(alloc, agreed, image, passed, &mut found)?;
    }
    add_seen(alloc, agreed, image, &walk.last, &mut found)?;
    PathWords::of(alloc, found.as_slice())
}

// The fault of a part of this kind with these bits: a constant that differs, or a pointer that is
// refused; none for other parts.
fn part_fault(memory: &[ImageBlock], leaf: &Leaf, bits: Kept, kind: &Kind) -> Option<ImageFault>
    requires placed { AreInPlace memory.now }
    requires readable { IsReadable leaf.now }
    ensures { result ≡ spec.part_fault memory.now leaf.now bits kind.now }
{
    match kind {
        Kind::Const(number) => if bits.number == *number {
            None
        } else {
            Some(ImageFault::BadBits(bits.base, bits.place))
        },
        Kind::Bits(_, _) => None,
        Kind::Word(_, _) => None,
        Kind::Pointer(_, _) => refusal_of(memory, leaf, bits, kind),
    }
}

// The fault of a part, if the word that it is of was read and is on the path; else none.
fn fault_at(
    image: &Image,
    path: &PathWords,
    leaf: &Leaf,
    words: &LeafWords,
    spot: &Spot,
) -> Option<ImageFault>
    requires placed { AreInPlace image.now.blocks }
    requires readable { IsReadable leaf.now }
    requires numbers { HasNumbers image.now.blocks leaf.now words.now }
    requires part { IsLeafPart leaf.now (spot_part spot.now) }
    ensures { result ≡ fault_at (has_word path.now) image.now.blocks leaf.now words.now.root.items
        words.now.addresses.items (spot_part spot.now) }
{
    if !is_there(words, spot) {
        return None;
    }
    let bits = words.bits(spot);
    if !path.has(bits) {
        return None;
    }
    part_fault(image.blocks.as_slice(), leaf, bits, &spot.part.kind)
}

// The first fault of a leaf's parts in words on the path, where the leaf's words were read: a
// constant that differs, or a pointer that is refused; none where there is no such part. Nothing
// is read.
fn fault_among(
    alloc: Global,
    image: &Image,
    path: &PathWords,
    leaf: &Leaf,
    words: &LeafWords,
) -> Result<Option<ImageFault>, AllocError>
    requires placed { AreInPlace image.now.blocks }
    requires readable { IsReadable leaf.now }
    requires numbers { HasNumbers image.now.blocks leaf.now words.now }
    ensures { IfOk result (λ fault. fault ≡ fault_among (has_word path.now) image.now.blocks leaf.now
        words.now.root.items words.now.addresses.items (order_of leaf.now)) }
{
    let order = order_of(alloc, leaf)?;
    for spot in order.as_slice() {
        match fault_at(image, path, leaf, words, spot) {
            None => {}
            Some(fault) => return Ok(Some(fault)),
        }
    }
    Ok(None)
}

// The first fault of the leaf of a subvalue in words on the path; none where it has none.
fn fault_seen(
    alloc: Global,
    image: &Image,
    path: &PathWords,
    passed: &Passed,
) -> Result<Option<ImageFault>, AllocError>
    requires placed { AreInPlace image.now.blocks }
    requires passed { IsPassed image.now passed.now }
    ensures { IfOk result (λ fault. fault ≡ fault_seen (has_word path.now) image.now.blocks (seen_of passed.now)) }
{
    let visited = &passed.visited;
    fault_among(alloc, image, path, visited.leaf, &visited.words)
}

// The first fault of the leaves of the subvalues on the path of a walk in the words `path`, outer
// subvalues first; none where they have none.
fn fault_of(
    alloc: Global,
    image: &Image,
    path: &PathWords,
    walk: &Walk,
) -> Result<Option<ImageFault>, AllocError>
    requires placed { AreInPlace image.now.blocks }
    requires passed { ArePassed image.now walk.now }
    ensures { IfOk result (λ fault.
        fault ≡ fault_of_seen (has_word path.now) image.now.blocks (all_seen (where_of walk.now))) }
{
    for passed in walk.before.as_slice() {
        match fault_seen(alloc, image, path, passed)? {
            None => {}
            Some(fault) => return Ok(Some(fault)),
        }
    }
    fault_seen(alloc, image, path, &walk.last)
}

/// The first fault of the leaves of the subvalues on the path of a walk in words on the path, outer
/// subvalues first; none where they have none.
pub(crate) fn fault_on_path(
    alloc: Global,
    agreed: &Agreed,
    image: &Image,
    walk: &Walk,
) -> Result<Option<ImageFault>, AllocError>
    requires placed { AreInPlace image.now.blocks }
    requires passed { ArePassed image.now walk.now }
    ensures { IfOk result
        (λ fault. fault ≡ fault_on_path agreed.now.layouts image.now (all_seen (where_of walk.now))) }
{
    let words = words_of(alloc, agreed, image, walk)?;
    fault_of(alloc, image, &words, walk)
}
