//! The places below a place: the subvalues of data types at its leaf's open positions.
//!
//! A place is a type's number and the words at which a value of it is to stand. A position is what
//! a leaf's provenance, its pattern, has at a path, a list of field numbers from the leaf's root;
//! it is open where any value may stand there. A spot is a part of the leaf with the word that it
//! is of. In all that follows `path` is a path in the leaf, and `places` the list to which is
//! added.

ghost use Rattle.std.specs.Prelude.{◌≡◌, ◌++◌, map, IfOk, OnOk};
ghost use Rattle.rb_layout.specs.Positions.{opens_below, opens_of};
ghost use Rattle.rb_coding.specs.FewFields.{AreFew, HaveFewFields};
ghost use Rattle.rb_image.specs.Parts as spec;
ghost use Rattle.rb_image.specs.Parts.{ats_of};
ghost use Rattle.rb_image.specs.inner.Opening.{places_below, examined_word};
ghost use Rattle.rb_image_text.specs.Places.{AreInPlace};

use crate::kept::{Kept, Place};
use crate::order::Spot;
use crate::parts::kept_at;
use crate::splits::range_of;
use rb_core::inference::types_of_fields;
use rb_core::pattern::Pat;
use rb_core::types::{DataDecl, Ty};
use rb_image_text::image::ImageBlock;
use rb_layout::layout::{Kind, Layout};
use rb_layout::paths::path_below;
use rb_rel::words::word_count;
use std::alloc::{AllocError, Global};

/// A leaf that was examined: the types and layouts that it is over, the image's blocks, the place's words, the leaf's
/// parts in their order, and the addresses of its blocks.
#[derive(Drop)]
pub struct Examined<'a> {
    pub types: &'a [DataDecl],
    pub layouts: &'a [Layout],
    pub memory: &'a [ImageBlock],
    pub words: &'a [Kept],
    pub order: &'a [Spot<'a>],
    pub addresses: &'a [u64],
}

/// Whether a part of this kind holds word `number` of the field at a path, a list of field numbers from the leaf's
/// root.
pub fn holds(kind: &Kind, path: &[u32], number: u64) -> bool
    ensures { result ≡ spec.is_field_word kind.now path.now number }
{
    match kind {
        Kind::Const(_) => false,
        Kind::Bits(_, _) => false,
        Kind::Word(own, j) => own.as_slice() == path && *j == number,
        Kind::Pointer(_, _) => false,
    }
}

impl<'a> Examined<'a> {
    // Word `number` of the field at a path: the bits of the first part that holds it; the number 0
    // where none does.
    fn word(&self, path: &[u32], number: u64) -> Kept
        requires placed { AreInPlace self.now.memory.now }
        ensures { result ≡ examined_word self.now path.now number }
    {
        for spot in self.order {
            if holds(&spot.part.kind, path, number) {
                let word = kept_at(self.memory, self.words, self.addresses, spot);
                return range_of(word, spot.part.o, spot.part.l);
            }
        }
        Kept {
            number: 0,
            base: 0,
            place: 0,
        }
    }

    // The first `count` words of the field at a path.
    fn words_of(&self, alloc: Global, path: &[u32], count: usize) -> Result<Vec<Kept>, AllocError>
        requires placed { AreInPlace self.now.memory.now }
        ensures { IfOk result (λ words. words.items ≡ spec.field_words (examined_word self.now) path.now 0 count) }
    {
        let mut words = Vec::new(alloc);
        for number in 0..count {
            words.push(self.word(path, number as u64))?;
        }
        Ok(words)
    }
}

// Adds the place at an open position of the type `ty`, if that is a data type; none for an integer.
fn add_place(
    alloc: Global,
    examined: &Examined,
    ty: Ty,
    path: &[u32],
    places: &mut Vec<Place>,
) -> Result<(), AllocError>
    requires placed { AreInPlace examined.now.memory.now }
    ensures { OnOk result (ats_of places.new.items
        ≡ ats_of places.old.items ++ spec.place_at examined.now.layouts.now (examined_word examined.now) path.now ty) }
{
    match ty {
        Ty::Int(_) => Ok(()),
        Ty::Named(ty) => {
            let words = examined.words_of(
                alloc,
                path,
                word_count(examined.layouts, Ty::Named(ty)),
            )?;
            places.push(Place { ty, words })?;
            Ok(())
        }
    }
}

/// Adds the places at the open positions of a pattern within the provenance, which stands at `path`
/// and is of the type `ty`, from left to right. The call nests as deep as the pattern.
#[cycle(opening)]
pub(crate) fn add_places(
    alloc: Global,
    examined: &Examined,
    pat: &Pat,
    ty: Ty,
    path: &[u32],
    places: &mut Vec<Place>,
) -> Result<(), AllocError>
    requires placed { AreInPlace examined.now.memory.now }
    requires few { HaveFewFields examined.now.types.now }
    ensures { OnOk result (ats_of places.new.items
        ≡ ats_of places.old.items ++ places_below examined.now path.now (opens_of examined.now.types.now pat.now ty)) }
{
    match pat {
        Pat::Wild(_) => add_place(alloc, examined, ty, path, places),
        Pat::Var(_, _) => add_place(alloc, examined, ty, path, places),
        Pat::Num(_, _) => Ok(()),
        Pat::Con(_, con, pats) => {
            let tys = types_of_fields(examined.types, *con);
            add_fields(alloc, examined, pats.as_slice(), tys, path, places)
        }
    }
}

// Adds the places at the open positions of the patterns of a constructor's fields, of these types,
// from left to right; patterns beyond the last type add none. The path is that of the constructor.
#[cycle(opening)]
fn add_fields(
    alloc: Global,
    examined: &Examined,
    pats: &[Pat],
    tys: &[Ty],
    path: &[u32],
    places: &mut Vec<Place>,
) -> Result<(), AllocError>
    requires placed { AreInPlace examined.now.memory.now }
    requires few { HaveFewFields examined.now.types.now }
    requires types { AreFew tys.now }
    ensures { OnOk result (ats_of places.new.items ≡ ats_of places.old.items
        ++ places_below examined.now path.now
        (opens_below (map (opens_of examined.now.types.now) pats.now) tys.now 0)) }
{
    for (i, pat) in pats.iter().enumerate() {
        if i >= tys.len() {
            return Ok(());
        }
        let field = path_below(alloc, path, i)?;
        add_places(alloc, examined, pat, tys[i], field.as_slice(), places)?;
    }
    Ok(())
}
