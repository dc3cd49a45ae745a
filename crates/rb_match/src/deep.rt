//! Code of a test of a part whose leaves take subvalues apart: on the way of each leaf, what other tests
//! need of it is saved.
//!
//! A hole is a target of a jump or a switch that is still open, with the number of what it is to
//! lead to. Behind a look at a part that is a group of its leaves: one leaf by itself, or all
//! leaves that lead on to one node of the graph and of which nothing is saved. An edge is a hole
//! that is to lead to a node, with the facts that are known there of the value that is matched. The
//! way of a leaf is what runs do behind the look where the part has that leaf, until they leave by
//! an edge.
//!
//! A leaf is one of the forms in which a layout stores the values of data type `ty`, given by its
//! number; its provenance is the pattern of these values. A node is a test or a clause of the
//! graph, given by its number; a test looks at the part at a position, the numbers of the fields
//! that lead from the value to it, and leads each part to a node by what it begins with. A spot is
//! slots in which a part is saved. `known` are facts on the value: which leaves parts have, and
//! which spots hold theirs. `agreed` is the program with its layouts, and `body` the code so far,
//! at whose end new code is appended. Where `graph` has no nodes, all that has a spot is saved.

ghost use Rattle.std.specs.Prelude.{◌≡◌, ◌∷◌, ◌++◌, List, [], IfOk, OnOk, Some, length};
ghost use Rattle.rb_target.specs.Growth.{Grows};
ghost use Rattle.rb_fragment.specs.Arms.{with_targets};
ghost use Rattle.rb_match.specs.inner.Clauses.{way_holes};
ghost use Rattle.rb_fetch.specs.Finding.{leaf_count};
ghost use Rattle.rb_facts.specs.declared.knowledge.Edge.{Edge};
ghost use Rattle.rb_match.specs.inner.Asking.{AreGroups};
ghost use Rattle.rb_facts.specs.Edges.{StandOpen};
ghost use Rattle.rb_facts.specs.Saving.{SavesFields};
ghost use Rattle.rb_facts.specs.Threading.{AllFollow};
ghost use Rattle.rb_match.specs.inner.Opening.{AsksDeep, CanOpen, HasGroupOnward, LeadsFrom, LeadsLeaf, LeadsWays, StepsWay, group_onward, shared_edges};

use crate::asking::{Test, Whole, edge_within, open_jump};
use crate::clauses::holes_of;
use rb_core::seq::Seq;
use rb_decide::clause_matrix::number_of;
use rb_decide::decision_graph::GraphNode;
use rb_facts::knowledge::{Edge, Known, Spot, copy_known, with_known};
use rb_facts::links::{con_of, count_leaves, link_of, mark_tested_below, prov_of};
use rb_facts::saving::{Source, save_fields};
use rb_facts::spots::needs_from;
use rb_facts::threading::{Exit, lead_on};
use rb_fetch::look::find_group;
use rb_fragment::make::make_all;
use rb_fragment::patch::patch_all;
use rb_fragment::reads::Read;
use rb_layout::agreed::Agreed;
use rb_target::body::{Body, Hole};
use std::alloc::{AllocError, Global};

// Sets those of the holes that have the number of a leaf to the end of the code.
fn land_leaf(alloc: Global, body: &mut Body, holes: &[Hole], leaf: usize) -> Result<(), AllocError>
    requires { CanOpen body.old.code holes.now leaf }
    ensures { OnOk result (body.new ≡ with_targets body.old (way_holes leaf 0 holes.now) (length body.old.code ∷ [])) }
{
    let mut targets = Seq::new(alloc);
    targets.push(body.len())?;
    let here = holes_of(alloc, holes, leaf, 0)?;
    patch_all(body, here.as_slice(), targets.as_slice());
    Ok(())
}

/// Where the values of a leaf lead on from a test of a part. The leaf is needed where later tests
/// look below that part.
#[derive(Drop)]
pub struct Onward<'a> {
    /// The node, by number.
    pub node: u32,
    /// Whether later tests need parts below it.
    pub saves: bool,
    /// If so, what is known before they are saved; else nothing.
    pub known: Seq<Known<'a>>,
}

// The node to which what is known behind a look leads from a node on, over tests that it decides;
// what these show on the way is added to `known`. Without nodes in the graph it is the node itself.
fn node_from<'a>(
    alloc: Global,
    agreed: &Agreed,
    graph: &Whole<'a>,
    exit: &Option<Exit>,
    known: &mut Seq<Known<'a>>,
    node: usize,
) -> Result<usize, AllocError>
    ensures leads { IfOk result (λ end. LeadsFrom agreed.now graph.now known.old node end) }
    ensures known { IfOk result (λ end. AllFollow agreed.now known.old known.new) }
{
    if graph.nodes.is_empty() {
        return Ok(node);
    }
    let (pats, nodes) = (graph.pats, graph.nodes);
    let end = lead_on(alloc, agreed, graph.ty, pats, nodes, exit, known, node)?;
    Ok(end)
}

// Whether parts below the one that was looked at are needed from a node on, as the marks `below`
// say, one a node; always where there are no nodes. That is a guess, of which no clause speaks: a
// test that needs a part which is not saved is given up, as for want of memory.
fn saves_at(nodes: &[GraphNode], below: &[bool], node: usize) -> bool {
    nodes.is_empty() || matches!(below.get(node), Some(true))
}

// The facts with which a way of a leaf goes on to save parts; none where it saves nothing.
fn carried_onward<'a>(
    alloc: Global,
    agreed: &Agreed,
    saves: bool,
    known: Seq<Known<'a>>,
) -> Seq<Known<'a>>
    ensures { AllFollow agreed.now known.entry result }
{
    if saves { known } else { Seq::new(alloc) }
}

// The way of a leaf behind a look at a position; None where there is no such leaf. It serves to guess
// which tests may be passed over, and no clause speaks of it.
fn exit_of<'a>(agreed: &'a Agreed, ty: u32, leaf: usize, position: &'a [u32]) -> Option<Exit<'a>> {
    let prov = prov_of(agreed, ty, leaf)?;
    Some(Exit { position, prov })
}

// Where the values of a leaf lead on from a test; None where none of them can be here. `below`
// marks the nodes from which a test below the part can be met. A leaf that begins with no
// constructor is an error.
fn onward_of<'a>(
    alloc: Global,
    agreed: &Agreed,
    graph: &Whole<'a>,
    below: &[bool],
    ty: u32,
    leaf: usize,
    test: &Test<'_, 'a>,
) -> Result<Option<Onward<'a>>, AllocError>
    ensures { IfOk result (λ found. LeadsLeaf agreed.now graph.now ty test.now.known.now test.now.position
        test.now.arms.now test.now.other leaf found) }
{
    let Some(con) = con_of(agreed, ty, leaf) else {
        return Err(AllocError);
    };
    let Some(node) = link_of(test.arms, test.other, con) else {
        return Ok(None);
    };
    let exit = exit_of(agreed, ty, leaf, test.position);
    let mut facts = with_known(alloc, test.known, test.position, ty, leaf)?;
    let end = node_from(alloc, agreed, graph, &exit, &mut facts, node as usize)?;
    let saves = saves_at(graph.nodes, below, end);
    Ok(Some(Onward {
        node: number_of(end)?,
        saves,
        known: carried_onward(alloc, agreed, saves, facts),
    }))
}

// Where the values of each leaf of a type lead on from a test, in the order of the leaves; None for
// a leaf whose values can't be here.
fn onward_all<'a>(
    alloc: Global,
    agreed: &Agreed,
    graph: &Whole<'a>,
    ty: u32,
    test: &Test<'_, 'a>,
) -> Result<Seq<Option<Onward<'a>>>, AllocError>
    ensures { IfOk result (λ all. AreGroups (LeadsLeaf agreed.now graph.now ty test.now.known.now test.now.position
        test.now.arms.now test.now.other) (leaf_count agreed.now ty) all) }
{
    let below = mark_tested_below(alloc, graph.nodes, test.position)?;
    let below = below.as_slice();
    let mut all = Seq::new(alloc);
    for leaf in 0..count_leaves(agreed, ty) {
        all.push(onward_of(alloc, agreed, graph, below, ty, leaf, test)?)?;
    }
    Ok(all)
}

// The group of a leaf: the leaf's own number where parts of it are saved, or else, behind those of
// the `count` leaves, the number of the node to which it leads on, which all such leaves share;
// None where its values lead nowhere.
fn group_of_way(
    count: usize,
    leaf: usize,
    onward: &Option<Onward>,
) -> Result<Option<u32>, AllocError>
    ensures { IfOk result (λ group. group ≡ group_onward count leaf onward.now) }
{
    match onward {
        None => Ok(None),
        Some(onward) => {
            if onward.saves {
                return Ok(Some(number_of(leaf)?));
            }
            match count.checked_add(onward.node as usize) {
                None => Err(AllocError),
                Some(group) => Ok(Some(number_of(group)?)),
            }
        }
    }
}

// The groups of leaves, one for each leaf, in their order: a leaf of which fields are saved is one
// by itself, and all others that lead on to one node are one. None for a leaf that leads nowhere.
fn groups_onward(alloc: Global, onward: &[Option<Onward>]) -> Result<Seq<Option<u32>>, AllocError>
    ensures { IfOk result (λ groups. AreGroups (HasGroupOnward onward.now) (length onward.now) groups) }
{
    let count = onward.len();
    let mut groups = Seq::new(alloc);
    for leaf in 0..count {
        groups.push(group_of_way(count, leaf, &onward[leaf])?)?;
    }
    Ok(groups)
}

/// A part that is tested: the nodes of the graph, the part's type, the slots of its words, the spots that there are,
/// what is known before the test, and the part's position.
#[derive(Clone, Copy)]
pub struct Tested<'b, 'a> {
    pub nodes: &'b [GraphNode],
    pub ty: u32,
    pub words: &'b [usize],
    pub spots: &'b [Spot],
    pub known: &'b [Known<'a>],
    pub position: &'a [u32],
}

// Saves what other tests need of the fields of a leaf that is a group by itself. The answer is what
// is known then.
fn save_onward<'a>(
    alloc: Global,
    body: &mut Body,
    agreed: &Agreed,
    part: &Tested<'_, 'a>,
    leaf: usize,
    onward: &Onward<'a>,
) -> Result<Seq<Known<'a>>, AllocError>
    ensures saves { IfOk result (λ more. SavesFields agreed.now part.now.ty leaf part.now.words.now part.now.spots.now
        part.now.position.now onward.now.known more body.old body.new) }
    ensures grows { OnOk result (Grows body.old.code body.new.code) }
{
    let needs = needs_from(alloc, part.nodes, onward.node as usize)?;
    let facts = copy_known(alloc, onward.known.as_slice())?;
    let source = Source {
        ty: part.ty,
        leaf,
        words: part.words,
        position: part.position,
        spots: part.spots,
        needs: &needs,
    };
    save_fields(alloc, body, agreed, &source, facts)
}

// The code of the way of a leaf that is a group by itself: what other tests need of its fields is
// saved, and it goes on by an open jump. The answer is the edge by that jump, which goes behind any
// edges of the ways before.
fn way_behind<'a>(
    alloc: Global,
    body: &mut Body,
    agreed: &Agreed,
    part: &Tested<'_, 'a>,
    holes: &[Hole],
    leaf: usize,
    onward: &Onward<'a>,
) -> Result<Edge<'a>, AllocError>
    requires { CanOpen body.old.code holes.now leaf }
    ensures steps { IfOk result (λ edge. (edges : List Edge) → StepsWay agreed.now part.now.ty part.now.words.now
        part.now.spots.now part.now.position holes.now leaf (Some onward.now) body.old edges body.new
        (edges ++ edge ∷ [])) }
{
    land_leaf(alloc, body, holes, leaf)?;
    let known = save_onward(alloc, body, agreed, part, leaf, onward)?;
    let edge = open_jump(alloc, body, onward.node, known.as_slice())?;
    Ok(edge)
}

// The given edges, and the one by which the way of a leaf that is a group by itself goes on. For a
// leaf that leads nowhere, or of which nothing is saved, there is no code, and the edges stay as
// they are.
fn open_way<'a>(
    alloc: Global,
    body: &mut Body,
    agreed: &Agreed,
    part: &Tested<'_, 'a>,
    holes: &[Hole],
    leaf: usize,
    onward: &Option<Onward<'a>>,
    edges: Seq<Edge<'a>>,
) -> Result<Seq<Edge<'a>>, AllocError>
    requires { CanOpen body.old.code holes.now leaf }
    ensures steps { IfOk result (λ more. StepsWay agreed.now part.now.ty part.now.words.now part.now.spots.now
        part.now.position holes.now leaf onward.now body.old edges.entry body.new more) }
{
    let Some(onward) = onward else {
        return Ok(edges);
    };
    if !onward.saves {
        return Ok(edges);
    }
    let mut edges = edges;
    edges.push(way_behind(alloc, body, agreed, part, holes, leaf, onward)?)?;
    Ok(edges)
}

// The edges by which leaves leave whose fields are not saved: the holes of their groups themselves,
// whose numbers are those of their nodes behind the `count` leaves. Holes of single leaves are left
// out.
fn edges_onward<'a>(
    alloc: Global,
    nodes: &[GraphNode],
    holes: &[Hole],
    count: usize,
    known: &[Known<'a>],
) -> Result<Seq<Edge<'a>>, AllocError>
    ensures { IfOk result (λ edges. edges ≡ shared_edges nodes.now count known.now holes.now) }
{
    let mut edges = Seq::new(alloc);
    for hole in holes {
        if count <= hole.leaf {
            let node = number_of(hole.leaf - count)?;
            edges.push(edge_within(alloc, nodes, hole.pc, hole.arm, node, known)?)?;
        }
    }
    Ok(edges)
}

// Code that looks which leaf a part has, from the slots of its words, and behind the look the way
// of each leaf. Answers the edges by which the ways leave. `onward` says for each leaf, in their
// order, where its values lead on; nothing where none of them can be here. A leaf of which parts
// are saved has code of its own. Other leaves leave by the holes of the look itself, with what was
// known before the test.
fn open_ways<'a>(
    alloc: Global,
    body: &mut Body,
    agreed: &Agreed,
    part: &Tested<'_, 'a>,
    onward: &[Option<Onward<'a>>],
) -> Result<Seq<Edge<'a>>, AllocError>
    ensures leads { IfOk result (λ edges. LeadsWays agreed.now part.now.ty part.now.words.now part.now.spots.now
        part.now.known.now part.now.position onward.now body.old body.new edges) }
    ensures stands { IfOk result (λ edges. StandOpen body.old body.new edges) }
    ensures grows { OnOk result (Grows body.old.code body.new.code) }
{
    let groups = groups_onward(alloc, onward)?;
    let holes = find_group(alloc, body, part.words, agreed, part.ty, groups.as_slice())?;
    let holes = holes.as_slice();
    let mut edges = Seq::new(alloc);
    for leaf in 0..onward.len() {
        edges = open_way(alloc, body, agreed, part, holes, leaf, &onward[leaf], edges)?;
    }
    let shared = edges_onward(alloc, part.nodes, holes, onward.len(), part.known)?;
    match edges.append(shared) {
        None => Ok(edges),
        Some(_) => Err(AllocError),
    }
}

/// Code of a test of a data type at a position of a value, which saves what later tests need of the part there: its
/// fields that have spots, or, where it opens one of them, those below it. It leaves by an edge to a node to which what
/// is known leads on from that of the arm that is taken, and which carries what is known there. Leaves that lead on to
/// one node are not told apart where nothing of them is saved. `reads` say where the words of the
/// part are.
///
/// # Errors
///
/// Want of memory, a leaf that begins with no constructor, or one that lacks a part which is to be
/// saved.
pub fn ask_deep<'a>(
    alloc: Global,
    body: &mut Body,
    agreed: &Agreed,
    graph: &Whole<'a>,
    ty: u32,
    reads: &[Read],
    spots: &[Spot],
    test: &Test<'_, 'a>,
) -> Result<Seq<Edge<'a>>, AllocError>
    ensures asks { IfOk result (λ edges. AsksDeep agreed.now graph.now ty spots.now reads.now test.now.known.now
        test.now.position.now test.now.arms.now test.now.other body.old body.new edges) }
    ensures stand { IfOk result (λ edges. StandOpen body.old body.new edges) }
    ensures grows { OnOk result (Grows body.old.code body.new.code) }
{
    let onward = onward_all(alloc, agreed, graph, ty, test)?;
    let words = make_all(alloc, body, reads)?;
    let words = words.as_slice();
    let onward = onward.as_slice();
    let part = Tested {
        nodes: graph.nodes,
        ty,
        words,
        spots,
        known: test.known,
        position: test.position,
    };
    let edges = open_ways(alloc, body, agreed, &part, onward)?;
    Ok(edges)
}
