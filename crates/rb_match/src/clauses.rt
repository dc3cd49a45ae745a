//! Clause by clause: code of a match whose decision tree is too large to be made.
//!
//! A hole is a target of a jump or a switch that is still open; its `leaf` is the number of the way
//! to which it is to lead: that of a clause, or, in the code of one clause alone, 0 where its
//! pattern matches and 1 where it doesn't. `words` are the reads of the words of a value of type
//! `ty`: each says where a word is, by bits of slots and of memory. `agreed` is the program with
//! its layouts, and `body` the code so far, at whose end new code is appended.

ghost use Rattle.std.specs.Prelude.{◌≡◌, ◌∷◌, [], IfOk, OnOk, length};
ghost use Rattle.rb_core.specs.declared.pattern.Pat.{Wild};
ghost use Rattle.rb_target.specs.Growth.{Grows};
ghost use Rattle.rb_fragment.specs.Arms.{AreHoles, AreOfOneWay};
ghost use Rattle.rb_match.specs.inner.Clauses.{way_holes, TakesAlone, TriesClause, TriesAll};

use crate::choosing::emit_shared;
use rb_core::pattern::Pat;
use rb_core::seq::Seq;
use rb_core::types::Ty;
use rb_decide::one_pattern::pattern_graph;
use rb_fragment::patch::patch_all;
use rb_fragment::reads::Read;
use rb_layout::agreed::Agreed;
use rb_target::body::{Body, Hole};
use std::alloc::{AllocError, Global};

// A list of two patterns: a clause's, and a wildcard for all other values.
fn alone(alloc: Global, pat: &Pat) -> Result<Seq<Pat>, AllocError>
    ensures { IfOk result (λ pats. pats ≡ pat.now ∷ Wild 0 ∷ []) }
{
    let mut pats = Seq::new(alloc);
    pats.push(pat.copy(alloc)?)?;
    pats.push(Pat::Wild(0))?;
    Ok(pats)
}

// Code of one clause alone: a test for each number and constructor of its pattern, in their order.
// It leaves by holes of 0 where the value matches, and of 1 where it doesn't.
fn emit_alone(
    alloc: Global,
    body: &mut Body,
    agreed: &Agreed,
    ty: Ty,
    words: &[Read],
    pat: &Pat,
) -> Result<Seq<Hole>, AllocError>
    ensures holes { IfOk result (λ holes. AreHoles (length body.old.code) 2 body.new.code holes) }
    ensures ways { IfOk result (λ holes. AreOfOneWay holes) }
    ensures takes { IfOk result (λ holes. TakesAlone agreed.now ty words.now pat.now body.old body.new holes) }
    ensures grows { OnOk result (Grows body.old.code body.new.code) }
{
    let types = agreed.covered().program().types.as_slice();
    let pats = alone(alloc, pat)?;
    let graph = pattern_graph(alloc, types, ty, pat)?;
    let pats = pats.as_slice();
    emit_shared(alloc, body, agreed, ty, words, pats, &graph)
}

/// Those of the holes that have the number `way`, in their order, with the number `name` instead;
/// none where none has it.
///
/// # Errors
///
/// Want of memory.
pub fn holes_of(
    alloc: Global,
    holes: &[Hole],
    way: usize,
    name: usize,
) -> Result<Seq<Hole>, AllocError>
    ensures { IfOk result (λ found. found ≡ way_holes way name holes.now) }
{
    let mut found = Seq::new(alloc);
    for hole in holes {
        if hole.leaf == way {
            found.push(Hole {
                pc: hole.pc,
                arm: hole.arm,
                leaf: name,
            })?;
        }
    }
    Ok(found)
}

// Code of one clause, with this pattern and this number. Values that match leave by the holes that
// it answers, which have the clause's number; all others go on behind the code.
fn emit_clause(
    alloc: Global,
    body: &mut Body,
    agreed: &Agreed,
    ty: Ty,
    words: &[Read],
    pat: &Pat,
    number: usize,
) -> Result<Seq<Hole>, AllocError>
    ensures tries { IfOk result (λ holes. TriesClause agreed.now ty words.now pat.now number body.old body.new holes) }
{
    let _typed = agreed.covered().program();
    let _flat = agreed.layouts();
    let found = emit_alone(alloc, body, agreed, ty, words, pat)?;
    let matched = holes_of(alloc, found.as_slice(), 0, number)?;
    let others = holes_of(alloc, found.as_slice(), 1, 0)?;
    let mut here = Seq::new(alloc);
    here.push(body.len())?;
    patch_all(body, others.as_slice(), here.as_slice());
    Ok(matched)
}

/// Code that tries one clause behind the other, in the order of their patterns. It leaves by a hole
/// of the first that matches, which has the clause's number. What the last one doesn't match is no
/// value of an exhaustive match.
///
/// # Errors
///
/// Want of memory.
pub fn emit_clauses(
    alloc: Global,
    body: &mut Body,
    agreed: &Agreed,
    ty: Ty,
    words: &[Read],
    pats: &[Pat],
) -> Result<Seq<Hole>, AllocError>
    ensures tries { IfOk result (λ holes. TriesAll agreed.now ty words.now pats.now
        (length pats.now) body.old body.new holes) }
{
    let mut holes = Seq::new(alloc);
    for (i, pat) in pats.iter().enumerate() {
        let matched = emit_clause(alloc, body, agreed, ty, words, pat, i)?;
        match holes.append(matched) {
            None => {}
            Some(_) => return Err(AllocError),
        }
    }
    Ok(holes)
}
