//! Code that chooses a match's clause.
//!
//! `pats` are the patterns of the match's clauses in their order, and `ty` is the type of the value
//! that is matched. `agreed` is the program with its layouts, and `body` the code so far, at whose
//! end new code is appended. A hole is a target of a jump or a switch that is still open; its
//! `leaf` is the number of the clause to which it is to lead. A read says where a word of the value
//! is: bits of slots and of memory. A decision tree is tests of parts of the value with clauses at
//! its ends; a decision graph is such a tree with equal parts shared.

ghost use Rattle.std.specs.Prelude.{IfOk, OnOk, length};
ghost use Rattle.rb_target.specs.Growth.{Grows};
ghost use Rattle.rb_fragment.specs.Arms.{AreHoles, AreOfOneWay};
ghost use Rattle.rb_match.specs.Choosing.{ChoosesClause};
ghost use Rattle.rb_match.specs.inner.Trees.{TakesShared, TakesTree};

use crate::asking::{Subject, Whole};
use crate::clauses::emit_clauses;
use crate::engine::emit_graph;
use rb_core::pattern::Pat;
use rb_core::seq::Seq;
use rb_core::types::Ty;
use rb_decide::decide::tree;
use rb_decide::decision_graph::Graph;
use rb_decide::decision_tree::{Tree, Tried};
use rb_decide::subtrees::share;
use rb_facts::spots::give_spots_for;
use rb_fragment::reads::{Read, slot_reads};
use rb_layout::agreed::Agreed;
use rb_target::body::{Body, Hole};
use std::alloc::{AllocError, Global};

/// Code of a decision graph, each node once. It leaves by one of the holes, each of which has the
/// number of the clause that the graph takes of the value; `words` are the reads of the value's
/// words. The parts that its tests need saved have slots of their own.
///
/// # Errors
///
/// Want of memory, or a graph that is not one of these patterns at this type.
pub(crate) fn emit_shared(
    alloc: Global,
    body: &mut Body,
    agreed: &Agreed,
    ty: Ty,
    words: &[Read],
    pats: &[Pat],
    graph: &Graph,
) -> Result<Seq<Hole>, AllocError>
    ensures holes { IfOk result (λ holes. AreHoles (length body.old.code) (length pats.now) body.new.code holes) }
    ensures ways { IfOk result (λ holes. AreOfOneWay holes) }
    ensures takes { IfOk result
        (λ holes. TakesShared agreed.now ty words.now pats.now graph.now body.old body.new holes) }
    ensures grows { OnOk result (Grows body.old.code body.new.code) }
{
    let nodes = graph.nodes.as_slice();
    let spots = give_spots_for(alloc, body, agreed, pats)?;
    let spots = spots.as_slice();
    let whole = Whole { ty, pats, nodes };
    let subject = Subject { words, spots };
    let holes = emit_graph(alloc, body, agreed, &whole, &subject, graph.root)?;
    Ok(holes)
}

// Code of a decision tree, equal parts of it once. It leaves by one of the holes, each of which
// has the number of the clause that the tree takes of the value; `words` are the reads of the
// value's words. An error is want of memory, or a tree that is not one of these patterns at this
// type.
fn emit_tree(
    alloc: Global,
    body: &mut Body,
    agreed: &Agreed,
    ty: Ty,
    words: &[Read],
    pats: &[Pat],
    tree: &Tree,
) -> Result<Seq<Hole>, AllocError>
    ensures holes { IfOk result (λ holes. AreHoles (length body.old.code) (length pats.now) body.new.code holes) }
    ensures ways { IfOk result (λ holes. AreOfOneWay holes) }
    ensures takes { IfOk result (λ holes. TakesTree agreed.now ty words.now pats.now tree.now body.old body.new holes) }
    ensures grows { OnOk result (Grows body.old.code body.new.code) }
{
    let graph = share(alloc, tree)?;
    emit_shared(alloc, body, agreed, ty, words, pats, &graph)
}

/// Code that goes out by a hole of the clause that is chosen for the value whose words stand in some
/// slots, a word each. Arms of switches are holes themselves. A tree that is too large is not made:
/// clauses are tried one by one.
///
/// # Errors
///
/// Want of memory.
pub fn emit_match(
    alloc: Global,
    body: &mut Body,
    agreed: &Agreed,
    ty: Ty,
    words: &[usize],
    pats: &[Pat],
) -> Result<Seq<Hole>, AllocError>
    ensures holes { IfOk result (λ holes. AreHoles (length body.old.code) (length pats.now) body.new.code holes) }
    ensures ways { IfOk result (λ holes. AreOfOneWay holes) }
    ensures chooses { IfOk result (λ holes. ChoosesClause agreed.now ty pats.now words.now body.old body.new holes) }
    ensures grows { OnOk result (Grows body.old.code body.new.code) }
{
    let types = agreed.covered().program().types.as_slice();
    let _flat = agreed.layouts();
    let words = slot_reads(alloc, words)?;
    match tree(alloc, types, ty, pats)? {
        Tried::Built(tree) => {
            let holes = emit_tree(alloc, body, agreed, ty, words.as_slice(), pats, &tree)?;
            Ok(holes)
        }
        Tried::Over => {
            let holes = emit_clauses(alloc, body, agreed, ty, words.as_slice(), pats)?;
            Ok(holes)
        }
    }
}
