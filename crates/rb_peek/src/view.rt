//! Positions in leaves, the words of which were read.
//!
//! A position is what a leaf's provenance, its pattern, has at a path, a list of field numbers from
//! the leaf's root. A part is a range of one of the leaf's words, and a spot is a part with the
//! word that it is of. `image` has the blocks from which the words were read; `layouts` are those
//! of the program's types, by number.

ghost use Rattle.std.specs.Prelude.{◌≡◌, ◌++◌, ◌∷◌, [], ◌≤◌, IfOk, IfSome};
ghost use Rattle.rb_image.specs.Parts.{field_word};
ghost use Rattle.rb_image.specs.Orders.{order_of, spots_of};
ghost use Rattle.rb_peek.specs.Views as spec;
ghost use Rattle.rb_peek.specs.inner.Standing.{IsShown, position_shown, shown_option};
ghost use Rattle.rb_image_text.specs.Places.{AreInPlace};

use rb_core::types::{DataDecl, Ty};
use rb_image::below::holds;
use rb_image::inside::{Inside, field_of};
use rb_image::integers::integer_at;
use rb_image::kept::Kept;
use rb_image::leaf_words::LeafWords;
use rb_image::order::{Spot, order_of};
use rb_image_text::image::Image;
use rb_layout::layout::{Layout, Leaf};
use rb_rel::words::word_count;
use std::alloc::{AllocError, Global};

/// A position in a leaf: the leaf and its words, the path of field numbers from its root, and what its provenance has
/// there.
#[derive(Clone, Copy, Drop)]
pub struct View<'a> {
    pub leaf: &'a Leaf,
    pub words: &'a LeafWords,
    pub at: &'a [u32],
    pub here: Inside<'a>,
}

impl<'a> View<'a> {
    // Word `number` of the field that stands here: the bits of the first of the spots in `order`
    // that holds it, or the number 0 where none does.
    fn word(&self, image: &Image, order: &[Spot], number: u64) -> Kept
        requires placed { AreInPlace image.now.blocks }
        requires shown { IsShown image.now.blocks self.now }
        requires order { spots_of order.now ≡ order_of self.now.leaf.now }
        ensures { result ≡ field_word image.now.blocks self.now.words.now.root.items
            self.now.words.now.addresses.items (spots_of order.now) self.now.at.now number }
    {
        for spot in order {
            if holds(&spot.part.kind, self.at, number) {
                return self.words.bits(spot);
            }
        }
        Kept {
            number: 0,
            base: 0,
            place: 0,
        }
    }

    /// The words of the value of the data type `ty` that stands open here, as many as its layout
    /// says.
    pub(crate) fn words_here(
        &self,
        alloc: Global,
        image: &Image,
        layouts: &[Layout],
        ty: u32,
    ) -> Result<Vec<Kept>, AllocError>
        requires placed { AreInPlace image.now.blocks }
        requires shown { IsShown image.now.blocks self.now }
        ensures { IfOk result
            (λ words. words.items ≡ spec.words_here layouts.now image.now.blocks (position_shown self.now) ty) }
    {
        let order = order_of(alloc, self.leaf)?;
        let count = word_count(layouts, Ty::Named(ty));
        let mut words = Vec::new(alloc);
        for number in 0..count {
            words.push(self.word(image, order.as_slice(), number as u64))?;
        }
        Ok(words)
    }

    /// The integer of `bits` bits that stands here; a bit that no part of the leaf holds is 0.
    pub(crate) fn integer_here(
        &self,
        alloc: Global,
        image: &Image,
        bits: u64,
    ) -> Result<u64, AllocError>
        requires placed { AreInPlace image.now.blocks }
        requires shown { IsShown image.now.blocks self.now }
        requires narrow { bits ≤ 64 }
        ensures { IfOk result (λ number. number ≡ spec.integer_here image.now.blocks (position_shown self.now) bits) }
    {
        integer_at(alloc, image, self.leaf, self.words, self.at, bits)
    }

    /// The position of a field of the constructor here, whose path is `at`; none where no
    /// constructor stands here, or it has no such field.
    pub(crate) fn down<'b>(
        &'b self,
        image: &Image,
        types: &[DataDecl],
        at: &'b [u32],
        field: u32,
    ) -> Option<View<'b>>
        requires shown { IsShown image.now.blocks self.now }
        requires at { at.now ≡ self.now.at.now ++ field ∷ [] }
        ensures below { shown_option result ≡ spec.down types.now (position_shown self.now) field }
        ensures shown { IfSome result (IsShown image.now.blocks) }
    {
        let here = field_of(types, self.here.pat, field)?;
        Some(View {
            leaf: self.leaf,
            words: self.words,
            at,
            here,
        })
    }
}
