//! The words of a leaf that hold what stands at a path, and those whose pointers lead to them.
//!
//! A path is a list of field numbers from the leaf's root. A part is a range of one of the leaf's
//! words: a constant, bits or a word of a field, or a pointer to a block. A spot is a part with the
//! word that it is of, a root word or one of a block of the leaf. `words` are the leaf's words, as
//! they were read. A word is found where its part holds what stands at the path or below it, or is
//! a pointer to a block with such a part.

ghost use Rattle.std.specs.Prelude.{◌≡◌, ◌++◌, IfOk, OnOk};
ghost use Rattle.rb_layout.specs.Readable.{IsReadable};
ghost use Rattle.rb_image.specs.LeafWords.{HasNumbers};
ghost use Rattle.rb_image.specs.Orders.{IsLeafPart, spot_part};
ghost use Rattle.rb_peek.specs.Paths.{is_there, word_below, words_below};
ghost use Rattle.rb_peek.specs.inner.Checking.{leads_there};
ghost use Rattle.rb_image_text.specs.Places.{AreInPlace};

use rb_image::kept::Kept;
use rb_image::leaf_words::LeafWords;
use rb_image::order::{Spot, order_of};
use rb_image::parts::address_at;
use rb_image::ways::leads_below;
use rb_image_text::image::Image;
use rb_layout::layout::Leaf;
use std::alloc::{AllocError, Global};

/// Whether the word of a part was read: a root word, or a word of a block whose address is known.
pub(crate) fn is_there(words: &LeafWords, spot: &Spot) -> bool
    ensures { result ≡ is_there words.now.addresses.items spot.now.block }
{
    match spot.block {
        None => true,
        Some(block) => address_at(words.addresses.as_slice(), block) != 0,
    }
}

// Whether a part holds what stands at a path or below it, or is a pointer on the way there; not if
// its word was not read.
fn leads_there(
    alloc: Global,
    leaf: &Leaf,
    words: &LeafWords,
    path: &[u32],
    spot: &Spot,
) -> Result<bool, AllocError>
    requires readable { IsReadable leaf.now }
    ensures { IfOk result (λ leads.
        leads ≡ leads_there leaf.now words.now.addresses.items path.now (spot_part spot.now)) }
{
    if !is_there(words, spot) {
        return Ok(false);
    }
    leads_below(alloc, leaf, path, &spot.part.kind)
}

// Adds the word of a part that was read and that holds what stands at a path or below it, or is a
// pointer on the way there. A part that does not adds nothing.
fn add_word(
    alloc: Global,
    image: &Image,
    leaf: &Leaf,
    words: &LeafWords,
    path: &[u32],
    spot: &Spot,
    found: &mut Vec<Kept>,
) -> Result<(), AllocError>
    requires placed { AreInPlace image.now.blocks }
    requires readable { IsReadable leaf.now }
    requires numbers { HasNumbers image.now.blocks leaf.now words.now }
    requires part { IsLeafPart leaf.now (spot_part spot.now) }
    ensures { OnOk result (found.new.items ≡ found.old.items ++ word_below image.now.blocks leaf.now
        words.now.root.items words.now.addresses.items path.now (spot_part spot.now)) }
{
    if !leads_there(alloc, leaf, words, path, spot)? {
        return Ok(());
    }
    found.push(words.bits(spot))?;
    Ok(())
}

/// Adds the words of a leaf that hold what stands at a path or below it, and those whose pointers
/// lead to them; none of a block whose address is not known. Nothing is read.
pub(crate) fn add_below(
    alloc: Global,
    image: &Image,
    leaf: &Leaf,
    words: &LeafWords,
    path: &[u32],
    found: &mut Vec<Kept>,
) -> Result<(), AllocError>
    requires placed { AreInPlace image.now.blocks }
    requires readable { IsReadable leaf.now }
    requires numbers { HasNumbers image.now.blocks leaf.now words.now }
    ensures { OnOk result (found.new.items ≡ found.old.items ++ words_below image.now.blocks leaf.now
        words.now.root.items words.now.addresses.items path.now) }
{
    let order = order_of(alloc, leaf)?;
    for spot in order.as_slice() {
        add_word(alloc, image, leaf, words, path, spot, found)?;
    }
    Ok(())
}
