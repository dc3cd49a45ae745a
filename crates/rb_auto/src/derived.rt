//! Derived layouts: the leaves of a type's constructors under a split on the tag. A tag is the
//! number of the constructor in the lowest bits of the word; the split has an arm for each
//! constructor, whose number is the arm's literal. A leaf is for the values of its provenance, a
//! pattern. `form` says how the word is used, boxed or packed, and `rooms` for each type how wide
//! its word is where its layout is derived. `ty` is the number of the type, `cons` its
//! constructors, and `decl` the declaration of one. An `Err` is want of memory.

ghost use Rattle.std.specs.Prelude.{◌≡◌, IfOk, None};
ghost use Rattle.rb_core.specs.declared.layout_decl.LayTree.TheVariants as S;
ghost use Rattle.rb_auto.specs.Fields.{cons_of};
ghost use Rattle.rb_auto.specs.Derived.{arms_from, derived_layout, leaf, provenance, tag_loc, tree_of};
ghost use Rattle.rb_auto.specs.Items.{form_tag};

use crate::field_words::words_of;
use crate::form::Form;
use crate::items::{form_tag, form_width, leaf_items};
use crate::room::Room;
use rb_core::layout_decl::{Arm, LayTree, LayoutDecl, Loc};
use rb_core::pattern::Pat;
use rb_core::program::Program;
use rb_core::seq::Seq;
use rb_core::types::{Con, ConRef, DataDecl};
use rb_layout::numbers::number_of;
use std::alloc::{AllocError, Global};

/// The constructors of a type; none where there is no such type.
pub(crate) fn cons_of(types: &[DataDecl], ty: u32) -> &[Con]
    ensures { result.now ≡ cons_of types.now ty }
{
    match types.get(ty as usize) {
        None => &[],
        Some(data) => data.cons.as_slice(),
    }
}

// The provenance of the leaf of constructor `con` of a type: the constructor over wildcards.
fn provenance(alloc: Global, ty: u32, con: u32, decl: &Con) -> Result<Pat, AllocError>
    ensures { IfOk result (λ pat. pat ≡ provenance ty con decl.now) }
{
    let mut pats = Seq::new(alloc);
    for _field in decl.fields.as_slice() {
        pats.push(Pat::Wild(0))?;
    }
    Ok(Pat::Con(0, ConRef { ty, con }, pats))
}

// The leaf of constructor `con`: its provenance, and one word with its tag and its fields.
fn leaf(
    alloc: Global,
    program: &Program,
    rooms: &[Room],
    ty: u32,
    form: Form,
    con: u32,
    decl: &Con,
) -> Result<LayTree, AllocError>
    ensures { IfOk result (λ tree. tree ≡ leaf program.now rooms.now ty form con decl.now) }
{
    let words = words_of(alloc, program, rooms, decl.fields.as_slice())?;
    let items = leaf_items(alloc, form, con, words.as_slice())?;
    let prov = provenance(alloc, ty, con, decl)?;
    Ok(LayTree::Leaf(0, prov, items))
}

// An arm for each constructor, in order, whose literal is the constructor's number.
fn arms(
    alloc: Global,
    program: &Program,
    rooms: &[Room],
    ty: u32,
    form: Form,
    cons: &[Con],
) -> Result<Seq<Arm>, AllocError>
    ensures { IfOk result (λ arms. arms ≡ arms_from program.now rooms.now ty form 0 cons.now) }
{
    let mut arms = Seq::new(alloc);
    for (number, decl) in cons.iter().enumerate() {
        let con = number_of(number)?;
        let under = leaf(alloc, program, rooms, ty, form, con, decl)?;
        arms.push(Arm {
            literal: con as u64,
            under,
        })?;
    }
    Ok(arms)
}

// A split of the tag with an arm for each constructor.
fn split(
    alloc: Global,
    program: &Program,
    rooms: &[Room],
    ty: u32,
    form: Form,
    cons: &[Con],
) -> Result<LayTree, AllocError>
    ensures { IfOk result (λ tree. tree
        ≡ S.Split (tag_loc (form_tag form)) (arms_from program.now rooms.now ty form 0 cons.now) None) }
{
    let arms = arms(alloc, program, rooms, ty, form, cons)?;
    let loc = Loc {
        word: 0,
        o: 0,
        l: form_tag(form),
        steps: Seq::new(alloc),
    };
    Ok(LayTree::Split(loc, arms, None))
}

// The tree of a type's constructors: a split of the tag, or the leaf of the only constructor where
// the tag has no bits.
fn tree_of(
    alloc: Global,
    program: &Program,
    rooms: &[Room],
    ty: u32,
    form: Form,
    cons: &[Con],
) -> Result<LayTree, AllocError>
    ensures { IfOk result (λ tree. tree ≡ tree_of program.now rooms.now ty form (form_tag form) cons.now) }
{
    match cons {
        [decl] if form_tag(form) == 0 => leaf(alloc, program, rooms, ty, form, 0, decl),
        _ => split(alloc, program, rooms, ty, form, cons),
    }
}

/// The layout of a type in this form, where the types of its fields have these rooms.
pub(crate) fn layout_by_form(
    alloc: Global,
    program: &Program,
    rooms: &[Room],
    ty: u32,
    form: Form,
) -> Result<LayoutDecl, AllocError>
    ensures { IfOk result (λ decl. decl ≡ derived_layout program.now rooms.now ty form) }
{
    let cons = cons_of(program.types.as_slice(), ty);
    let tree = tree_of(alloc, program, rooms, ty, form, cons)?;
    let mut shape = Seq::new(alloc);
    shape.push(form_width(form))?;
    Ok(LayoutDecl {
        at: 0,
        ty,
        shape,
        tree,
    })
}
