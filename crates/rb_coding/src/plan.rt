//! The steps that a leaf's provenance comes to. A leaf is the form that a layout has for some
//! values; its provenance is the pattern that matches them, in which wildcards and variables are
//! open positions. A path is a list of field numbers, outermost first. A step is one thing to do:
//! to visit words, whose value is to be found, or to join the last values to a construction. The
//! last step is done first.

ghost use Rattle.std.specs.Prelude.{◌≡◌, ◌++◌, IfOk, OnOk, map};
ghost use Rattle.rb_coding.specs.inner.Gathering.{field_words};
ghost use Rattle.rb_coding.specs.inner.Planning.{fields_plan};
ghost use Rattle.rb_coding.specs.FewFields.{AreFew, HaveFewFields};
ghost use Rattle.rb_coding.specs.inner.Opening.{steps_of, words_of};

use crate::gather::field_words;
use crate::node::one_word;
use crate::todo::Step;
use rb_core::inference::types_of_fields;
use rb_core::pattern::Pat;
use rb_core::seq::Seq;
use rb_core::types::{DataDecl, Ty};
use rb_layout::layout::{Layout, Leaf};
use rb_layout::paths::path_below;
use std::alloc::{AllocError, Global};

/// A value that is opened: the types and layouts that it is over, its leaf, its root words, and the
/// words of its blocks from the last block to the first.
#[derive(Drop)]
pub struct Opening<'a> {
    pub types: &'a [DataDecl],
    pub layouts: &'a [Layout],
    pub leaf: &'a Leaf,
    pub words: &'a [u64],
    pub loaded: &'a [Seq<u64>],
}

impl<'a> Opening<'a> {
    // The words of the field at a path of the value that is opened.
    fn words_of(&self, alloc: Global, path: &[u32]) -> Result<Seq<u64>, AllocError>
        ensures { IfOk result (λ words. words ≡ words_of self.now path.now) }
    {
        field_words(
            alloc,
            self.types,
            self.layouts,
            self.leaf,
            self.words,
            self.loaded,
            path,
        )
    }
}

/// Adds to `todo` the steps of `prov`, the part of the provenance of the opened value that stands
/// at a path, given the type there. The call nests as deep as `prov`. The `Err` is want of memory.
#[cycle(planning)]
pub(crate) fn plan(
    alloc: Global,
    opening: &Opening,
    prov: &Pat,
    ty: Ty,
    path: &[u32],
    todo: &mut Vec<Step>,
) -> Result<(), AllocError>
    requires few { HaveFewFields opening.now.types.now }
    ensures { OnOk result (todo.new.items ≡ todo.old.items ++ steps_of opening.now prov.now ty path.now) }
{
    match prov {
        Pat::Wild(_) => {
            todo.push(Step::Visit(ty, opening.words_of(alloc, path)?))?;
            Ok(())
        }
        Pat::Var(_, _) => {
            todo.push(Step::Visit(ty, opening.words_of(alloc, path)?))?;
            Ok(())
        }
        Pat::Num(_, n) => {
            todo.push(Step::Visit(ty, one_word(alloc, *n)?))?;
            Ok(())
        }
        Pat::Con(_, con, pats) => {
            todo.push(Step::Join(con.con, pats.len()))?;
            let tys = types_of_fields(opening.types, *con);
            plan_fields(alloc, opening, pats.as_slice(), tys, path, todo)
        }
    }
}

// Adds to `todo` the steps of the fields of a constructor at a path, given their patterns and
// types, as far as both lists reach: those of the last field first, as the last step is done first.
#[cycle(planning)]
fn plan_fields(
    alloc: Global,
    opening: &Opening,
    pats: &[Pat],
    tys: &[Ty],
    path: &[u32],
    todo: &mut Vec<Step>,
) -> Result<(), AllocError>
    requires few { HaveFewFields opening.now.types.now }
    requires types { AreFew tys.now }
    ensures { OnOk result (todo.new.items
        ≡ todo.old.items ++ fields_plan (map (steps_of opening.now) pats.now) tys.now path.now 0) }
{
    let count = if pats.len() < tys.len() {
        pats.len()
    } else {
        tys.len()
    };
    for i in (0..count).rev() {
        let field = path_below(alloc, path, i)?;
        plan(alloc, opening, &pats[i], tys[i], field.as_slice(), todo)?;
    }
    Ok(())
}
