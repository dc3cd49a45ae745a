//! One subvalue of an image's value: its leaf, and the words of it.
//!
//! A site says where bits stand: a range of a root word of the image, or of a word of a block. The
//! sites of a subvalue are those of its words, which are the root words of its leaf. `steps` counts
//! the words that are read.

ghost use Rattle.std.specs.Prelude.{◌≡◌, ◌⊎◌, ◌+◌, ◌≤◌, Err, IfErr, IfOk, None, OnOk, Some, length, map};
ghost use Rattle.rb_layout.specs.Readable.{IsReadable};
ghost use Rattle.rb_image.specs.FieldSites.{AreNarrow, AreSitesOf, HasNarrowParts};
ghost use Rattle.rb_image.specs.LeafWords.{HasNumbers};
ghost use Rattle.rb_image.specs.Sites.{kept_of};
ghost use Rattle.rb_image.specs.Splits.{leaf_at};
ghost use Rattle.rb_image.specs.Visits.{IsTidy, IsVisited, first_refused, own_span};
ghost use Rattle.rb_image_text.specs.Places.{AreInPlace};
ghost use Rattle.rb_image_text.specs.declared.fault.ImageFault.TheVariants.{Memory};

use crate::fields::field_sites;
use crate::leaf::read_leaf;
use crate::leaf_words::{LeafWords, read_words};
use crate::site::Site;
use crate::ways::refused_below;
use rb_edge::steps::{Ledger, Steps};
use rb_image_text::fault::ImageFault;
use rb_image_text::image::Image;
use rb_layout::layout::{Layout, Leaf};
use std::alloc::Global;

/// The leaf of a subvalue, and the words of that leaf as they were read.
#[derive(Drop)]
pub struct Visited<'a> {
    pub leaf: &'a Leaf,
    pub words: LeafWords,
}

impl<'a> Visited<'a> {
    /// The sites of the words of a field of the leaf, `count` of them, where the leaf's root words stand at these. The
    /// field is the subvalue at a path of field numbers. Nothing is read.
    ///
    /// # Errors
    ///
    /// `BadPointer` for the first pointer on the way to the field that leads to no block of the leaf's size, or, from
    /// within a block, not below that block. Or want of memory.
    pub fn enter(
        &self,
        alloc: Global,
        image: &Image,
        sites: &[Site],
        path: &[u32],
        count: usize,
    ) -> Result<Vec<Site>, ImageFault>
        requires placed { AreInPlace image.now.blocks }
        requires readable { IsReadable self.now.leaf.now }
        requires parts { HasNarrowParts self.now.leaf.now }
        requires narrow { AreNarrow sites.now }
        requires numbers { HasNumbers image.now.blocks self.now.leaf.now self.now.words }
        ensures sites { IfOk result (λ found.
            AreSitesOf self.now.leaf.now sites.now self.now.words.addresses.items path.now count found.items) }
        ensures narrow { IfOk result (λ found. AreNarrow found.items) }
        ensures reached { OnOk result (first_refused image.now.blocks path.now self.now ≡ None) }
        ensures fault { IfErr result (λ fault.
            (first_refused image.now.blocks path.now self.now ≡ Some fault) ⊎ (fault ≡ Memory)) }
    {
        match refused_below(alloc, image, self.leaf, &self.words, path)? {
            None => {}
            Some(fault) => return Err(fault),
        }
        let addresses = self.words.addresses.as_slice();
        let found = field_sites(alloc, self.leaf, sites, addresses, path, count)?;
        Ok(found)
    }
}

/// The leaf to which the splits of a layout lead on the words at these sites, and its words. Each word is read by
/// `read_word` alone: for the splits in at most one step for each and one for each step of its location, and then each
/// word of the leaf in one step at most.
///
/// # Errors
///
/// The first fault of the splits, outer before inner: `BadBits` where no arm of a split takes its bits, and
/// `BadPointer` where a pointer that a location passes leads to no word, or, from within a block, not below that block.
/// Or want of memory.
pub fn visit<'a, L: Ledger>(
    alloc: Global,
    image: &Image,
    layout: &'a Layout,
    sites: &[Site],
    steps: &mut Steps<L>,
) -> Result<Visited<'a>, ImageFault>
    requires placed { AreInPlace image.now.blocks }
    requires tidy { IsTidy layout.now (length sites.now) }
    ensures visited { IfOk result (λ x. IsVisited image.now.blocks layout.now (map (kept_of image.now) sites.now) x) }
    ensures fault { IfErr result (λ fault.
        (leaf_at layout.now.tree image.now.blocks (map (kept_of image.now) sites.now) ≡ Err fault) ⊎ (fault ≡ Memory)) }
    ensures least { steps.old.taken ≤ steps.new.taken }
    ensures most { steps.new.taken ≤ steps.old.taken + own_span layout.now }
{
    let number = read_leaf(image, sites, &layout.tree, steps)?;
    let Some(leaf) = layout.leaves.get(number as usize) else {
        unreachable!();
    };
    let words = read_words(alloc, image, leaf, sites, steps)?;
    Ok(Visited { leaf, words })
}
