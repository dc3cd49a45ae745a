//! Code of one test: from the words of a value to the edges of its arms.
//!
//! A node of a decision graph is a test or a clause, given by its number. A test looks at the part
//! at a position, the numbers of the fields that lead from the value to it. Its `arms` lead to
//! nodes by what the part begins with, its head: a constructor or a number; `other` is the node of
//! all other values, None where there are none. A leaf is one of the forms in which a layout stores
//! the values of data type `ty`, given by its number; its provenance is the pattern of these
//! values. A group is leaves that the code doesn't tell apart: one by itself, or all that lead to
//! one node and need not be told apart. A hole is an open target of the code, with the number of
//! what it is to lead to; an edge is one that is to lead to a node, with what is `known` of the
//! value there. A read says where a word of the part is: bits of slots and of memory. `agreed` is
//! the program with its layouts, and `body` the code so far, at whose end new code is appended.

ghost use Rattle.std.specs.Prelude.{◌≡◌, ◌+◌, ◌++◌, ◌<◌, ◌^◌, IfOk, OnOk, true, None, length, slice_get};
ghost use Rattle.rb_target.specs.declared.instr.Instr.TheVariants.{Jump};
ghost use Rattle.rb_target.specs.Growth.{Grows};
ghost use Rattle.rb_target.specs.Sheet.{with_more};
ghost use Rattle.rb_fetch.specs.Finding.{leaf_count};
ghost use Rattle.rb_match.specs.inner.Asking.{number_arm, number_arms, is_number, are_numbers, is_test, known_at_node, edge_at, edge_in, arm_edges, else_edges, node_for, facts_for, IsGrouped, AreGroups, edge_for, leaf_edges_of, AsksNumber, AsksLeaf};
ghost use Rattle.rb_facts.specs.Edges.{StandOpen};
ghost use Rattle.rb_match.specs.inner.Opening.{Asks, AsksPart};

use crate::deep::ask_deep;
use rb_core::pattern::Pat;
use rb_core::seq::Seq;
use rb_core::types::Ty;
use rb_decide::clause_matrix::number_of;
use rb_decide::decision_graph::{GraphArm, GraphNode};
use rb_facts::knowledge::{Edge, Known, Spot, copy_known, with_known};
use rb_facts::links::{count_leaves, leaf_link, mark_tested_below};
use rb_facts::place::{is_looked_at, place_of_part};
use rb_facts::spots::has_spot_below;
use rb_fetch::look::find_group_of;
use rb_fragment::make::make;
use rb_fragment::reads::Read;
use rb_layout::agreed::Agreed;
use rb_matrix::matrix::Head;
use rb_target::body::{Body, Hole};
use rb_target::instr::{Instr, SwitchArm};
use std::alloc::{AllocError, Global};

/// A graph of tests, and what it tests: values of a type, for some patterns. Where it has no nodes, all that
/// can be saved is wanted.
#[derive(Clone, Copy)]
pub struct Whole<'a> {
    pub ty: Ty,
    pub pats: &'a [Pat],
    pub nodes: &'a [GraphNode],
}

/// A value that is matched: reads of its words, which say where these are, and the spots of its
/// parts.
#[derive(Clone, Copy)]
pub struct Subject<'a> {
    pub words: &'a [Read],
    pub spots: &'a [Spot],
}

/// A test: what is known where it stands, the position of the part that it looks at, and the nodes
/// to which it leads: each arm has one for the values that begin with its head, a constructor or a
/// number, and `other` is that of all other values, None where there are none.
#[derive(Clone, Copy)]
pub struct Test<'b, 'a> {
    pub known: &'b [Known<'a>],
    pub position: &'a [u32],
    pub arms: &'b [GraphArm],
    pub other: Option<u32>,
}

// Numbers ---------------------------------------------------------------------------------------

// The arm of a switch for one number, with its target.
fn small_arm(number: u64, target: usize) -> SwitchArm
    ensures arm { result ≡ record { number = number; target = target } }
    ensures small { number < 2 ^ 64 }
{
    SwitchArm { number, target }
}

// The arm of a switch for the number that is a head, with its target. An integer is tested for
// numbers alone: a constructor is an error.
fn switch_arm(head: Head, target: usize) -> Result<SwitchArm, AllocError>
    ensures arm { IfOk result (λ arm. arm ≡ number_arm target head) }
    ensures number { IfOk result (λ arm. is_number head ≡ true) }
{
    match head {
        Head::Num(number) => Ok(small_arm(number, target)),
        Head::Con(_) => Err(AllocError),
    }
}

// A switch's arms, one for each arm of a test, in their order. Each is still open: it leads to the
// instruction `next`. An arm for a constructor is an error.
fn switch_arms(alloc: Global, arms: &[GraphArm], next: usize) -> Result<Seq<SwitchArm>, AllocError>
    ensures arms { IfOk result (λ found. found ≡ number_arms next arms.now) }
    ensures numbers { IfOk result (λ found. are_numbers arms.now ≡ true) }
{
    let mut found = Seq::new(alloc);
    for arm in arms {
        found.push(switch_arm(arm.head, next)?)?;
    }
    Ok(found)
}

// Whether a node tests a position, so that an edge to it carries what is known; a clause does not,
// nor does a node that there isn't.
fn is_test_at(nodes: &[GraphNode], node: u32) -> bool
    ensures { result ≡ is_test (slice_get nodes.now node) }
{
    match nodes.get(node as usize) {
        Some(GraphNode::Test(_, _, _)) => true,
        None | Some(GraphNode::Clause(_)) => false,
    }
}

/// The edge by a target of the instruction with number `pc` to a node, with what is known there.
/// The target is that of an arm, or, where there is no arm, a jump's own or a switch's other one.
///
/// # Errors
///
/// Want of memory.
pub fn edge<'a>(
    alloc: Global,
    pc: usize,
    arm: Option<usize>,
    node: u32,
    known: &[Known<'a>],
) -> Result<Edge<'a>, AllocError>
    ensures { IfOk result (λ e. e ≡ edge_at pc arm node known.now) }
{
    let known = copy_known(alloc, known)?;
    Ok(Edge {
        hole: Hole {
            pc,
            arm,
            leaf: node as usize,
        },
        known,
    })
}

/// An open jump at the end of the code, and the edge by it to a node, with what is known there.
///
/// # Errors
///
/// Want of memory.
pub fn open_jump<'a>(
    alloc: Global,
    body: &mut Body,
    node: u32,
    known: &[Known<'a>],
) -> Result<Edge<'a>, AllocError>
    ensures jump { OnOk result (body.new ≡ with_more body.old (Jump (length body.old.code + 1))) }
    ensures edge { IfOk result (λ e. e ≡ edge_at (length body.old.code) None node known.now) }
{
    let pc = body.len();
    body.push(Instr::Jump(pc + 1))?;
    let edge = edge(alloc, pc, None, node, known)?;
    Ok(edge)
}

/// The edge that [`edge`] makes to a node of a graph, but what is known goes with it only where the
/// node is a test: edges to clauses are many, and carry no facts.
///
/// # Errors
///
/// Want of memory.
pub fn edge_within<'a>(
    alloc: Global,
    nodes: &[GraphNode],
    pc: usize,
    arm: Option<usize>,
    node: u32,
    known: &[Known<'a>],
) -> Result<Edge<'a>, AllocError>
    ensures { IfOk result (λ e. e ≡ edge_in nodes.now pc arm node known.now) }
{
    if is_test_at(nodes, node) {
        let found = edge(alloc, pc, arm, node, known)?;
        Ok(found)
    } else {
        let found = edge(alloc, pc, arm, node, &[])?;
        Ok(found)
    }
}

// The edges by the arms of the switch with number `pc`, each to the node of the same arm of a test.
fn edges_of_arms<'a>(
    alloc: Global,
    nodes: &[GraphNode],
    pc: usize,
    known: &[Known<'a>],
    arms: &[GraphArm],
) -> Result<Seq<Edge<'a>>, AllocError>
    ensures { IfOk result (λ edges. edges ≡ arm_edges nodes.now pc known.now arms.now 0) }
{
    let mut edges = Seq::new(alloc);
    for (k, arm) in arms.iter().enumerate() {
        edges.push(edge_within(alloc, nodes, pc, Some(k), arm.under, known)?)?;
    }
    Ok(edges)
}

// The edges of a switch: by each arm, and by the other target where a test has a node for it.
fn edges_of_switch<'a>(
    alloc: Global,
    nodes: &[GraphNode],
    pc: usize,
    known: &[Known<'a>],
    arms: &[GraphArm],
    other: Option<u32>,
) -> Result<Seq<Edge<'a>>, AllocError>
    ensures { IfOk result (λ edges. edges ≡ arm_edges nodes.now pc known.now arms.now 0
        ++ else_edges nodes.now pc known.now other) }
{
    let mut edges = edges_of_arms(alloc, nodes, pc, known, arms)?;
    match other {
        None => Ok(edges),
        Some(link) => {
            edges.push(edge_within(alloc, nodes, pc, None, link, known)?)?;
            Ok(edges)
        }
    }
}

// Code of a test of an integer, whose one word is read: one switch over all numbers of the arms.
// The answer is its edges. Other than one read, or an arm for a constructor, is an error.
fn ask_number<'a>(
    alloc: Global,
    body: &mut Body,
    nodes: &[GraphNode],
    reads: &[Read],
    known: &[Known<'a>],
    arms: &[GraphArm],
    other: Option<u32>,
) -> Result<Seq<Edge<'a>>, AllocError>
    ensures asks { IfOk result (λ edges. AsksNumber reads.now known.now arms.now other body.old body.new edges) }
    ensures stand { IfOk result (λ edges. StandOpen body.old body.new edges) }
    ensures grows { OnOk result (Grows body.old.code body.new.code) }
{
    let [read] = reads else {
        return Err(AllocError);
    };
    let slot = make(body, read)?;
    let pc = body.len();
    let ways = switch_arms(alloc, arms, pc + 1)?;
    body.push(Instr::Switch(slot, other.is_some().then_some(pc + 1), ways))?;
    let edges = edges_of_switch(alloc, nodes, pc, known, arms, other)?;
    Ok(edges)
}

// Constructors ----------------------------------------------------------------------------------

// The number of a leaf's group. A leaf is a group by itself, with its own number, where the node to
// which it leads is marked, since a test below needs it; else the group is that of the node, whose
// number comes behind those of the leaves. None where the leaf's values can't be here.
fn group_of(
    agreed: &Agreed,
    ty: u32,
    leaf: usize,
    marks: &[bool],
    arms: &[GraphArm],
    other: Option<u32>,
) -> Result<Option<u32>, AllocError>
    ensures { IfOk result (λ group. IsGrouped agreed.now ty arms.now other leaf group) }
{
    match leaf_link(agreed, ty, leaf, arms, other)? {
        None => Ok(None),
        Some(node) => {
            if let Some(true) = marks.get(node as usize) {
                return Ok(Some(number_of(leaf)?));
            }
            match count_leaves(agreed, ty).checked_add(node as usize) {
                None => Err(AllocError),
                Some(group) => Ok(Some(number_of(group)?)),
            }
        }
    }
}

// The groups of the leaves of a type, one for each leaf, in their order, for a test at this
// position; None for a leaf whose values can't be here.
fn groups_of(
    alloc: Global,
    agreed: &Agreed,
    nodes: &[GraphNode],
    ty: u32,
    position: &[u32],
    arms: &[GraphArm],
    other: Option<u32>,
) -> Result<Seq<Option<u32>>, AllocError>
    ensures { IfOk result (λ groups. AreGroups (IsGrouped agreed.now ty arms.now other) (leaf_count agreed.now ty)
        groups) }
{
    let marks = mark_tested_below(alloc, nodes, position)?;
    let mut groups = Seq::new(alloc);
    for leaf in 0..count_leaves(agreed, ty) {
        groups.push(group_of(agreed, ty, leaf, marks.as_slice(), arms, other)?)?;
    }
    Ok(groups)
}

// The node to which the leaves of a group lead: that of the leaf which the group is, or the one
// that its number says. None where the values of that leaf can't be here.
fn node_of(
    agreed: &Agreed,
    ty: u32,
    group: usize,
    arms: &[GraphArm],
    other: Option<u32>,
) -> Result<Option<u32>, AllocError>
    ensures { IfOk result (λ node. node ≡ node_for agreed.now ty arms.now other group) }
{
    let count = count_leaves(agreed, ty);
    if group < count {
        let link = leaf_link(agreed, ty, group, arms, other)?;
        return Ok(link);
    }
    let node = number_of(group - count)?;
    Ok(Some(node))
}

// What an edge to a node carries behind a look at a position that found a group: at a test, what
// was known, and the leaf of the part there where the group is one leaf by itself; nothing at a
// clause.
fn known_within<'a>(
    alloc: Global,
    agreed: &Agreed,
    nodes: &[GraphNode],
    node: u32,
    known: &[Known<'a>],
    position: &'a [u32],
    ty: u32,
    group: usize,
) -> Result<Seq<Known<'a>>, AllocError>
    ensures { IfOk result
        (λ k. k ≡ known_at_node nodes.now node (facts_for agreed.now ty position.entry known.now group)) }
{
    if !is_test_at(nodes, node) {
        return Ok(Seq::new(alloc));
    }
    if group < count_leaves(agreed, ty) {
        let more = with_known(alloc, known, position, ty, group)?;
        Ok(more)
    } else {
        let same = copy_known(alloc, known)?;
        Ok(same)
    }
}

// The edge by the hole of a group of leaves to the node to which they lead, if there is one.
fn leaf_edge<'a>(
    alloc: Global,
    agreed: &Agreed,
    nodes: &[GraphNode],
    ty: u32,
    hole: &Hole,
    test: &Test<'_, 'a>,
) -> Result<Option<Edge<'a>>, AllocError>
    ensures { IfOk result (λ e. e ≡ edge_for agreed.now nodes.now ty test.now.position test.now.known.now
        test.now.arms.now test.now.other hole.now) }
{
    let Some(node) = node_of(agreed, ty, hole.leaf, test.arms, test.other)? else {
        return Ok(None);
    };
    let (known, position) = (test.known, test.position);
    let known = known_within(alloc, agreed, nodes, node, known, position, ty, hole.leaf)?;
    Ok(Some(Edge {
        hole: Hole {
            pc: hole.pc,
            arm: hole.arm,
            leaf: node as usize,
        },
        known,
    }))
}

// The edges by the holes of groups of leaves, each to the node to which its leaves lead, in the
// order of the holes. A hole whose leaves lead to none gives no edge.
fn edges_of_leaves<'a>(
    alloc: Global,
    agreed: &Agreed,
    nodes: &[GraphNode],
    ty: u32,
    holes: &[Hole],
    test: &Test<'_, 'a>,
) -> Result<Seq<Edge<'a>>, AllocError>
    ensures { IfOk result (λ edges. edges ≡ leaf_edges_of agreed.now nodes.now ty test.now.position test.now.known.now
        test.now.arms.now test.now.other holes.now) }
{
    let mut edges = Seq::new(alloc);
    for hole in holes {
        if let Some(found) = leaf_edge(alloc, agreed, nodes, ty, hole, test)? {
            edges.push(found)?;
        }
    }
    Ok(edges)
}

// Code of a test of data type `ty`, over reads of the words of the part there: its leaf decides.
// Leaves that lead to one node are told apart only where tests need it. The answer is the test's
// edges.
fn ask_leaf<'a>(
    alloc: Global,
    body: &mut Body,
    agreed: &Agreed,
    nodes: &[GraphNode],
    ty: u32,
    reads: &[Read],
    test: &Test<'_, 'a>,
) -> Result<Seq<Edge<'a>>, AllocError>
    ensures asks { IfOk result (λ edges. AsksLeaf agreed.now ty reads.now test.now.known.now test.now.position.now
        test.now.arms.now test.now.other body.old body.new edges) }
    ensures stand { IfOk result (λ edges. StandOpen body.old body.new edges) }
    ensures grows { OnOk result (Grows body.old.code body.new.code) }
{
    let (arms, other) = (test.arms, test.other);
    let groups = groups_of(alloc, agreed, nodes, ty, test.position, arms, other)?;
    let holes = find_group_of(alloc, body, reads, agreed, ty, groups.as_slice())?;
    let edges = edges_of_leaves(alloc, agreed, nodes, ty, holes.as_slice(), test)?;
    Ok(edges)
}

// Tests -----------------------------------------------------------------------------------------

// Code of a test of the part at the test's position, over reads of its words: of its number, or of its leaf. What later
// tests need of it may be saved, where there are spots for its fields.
fn ask_part<'a>(
    alloc: Global,
    body: &mut Body,
    agreed: &Agreed,
    graph: &Whole<'a>,
    spots: &[Spot],
    ty: Ty,
    reads: &[Read],
    test: &Test<'_, 'a>,
) -> Result<Seq<Edge<'a>>, AllocError>
    ensures asks { IfOk result (λ edges. AsksPart agreed.now graph.now ty spots.now reads.now test.now.known.now
        test.now.position.now test.now.arms.now test.now.other body.old body.new edges) }
    ensures stand { IfOk result (λ edges. StandOpen body.old body.new edges) }
    ensures grows { OnOk result (Grows body.old.code body.new.code) }
{
    match ty {
        Ty::Int(_) => {
            let (known, arms, other) = (test.known, test.arms, test.other);
            ask_number(alloc, body, graph.nodes, reads, known, arms, other)
        }
        Ty::Named(t) => {
            if has_spot_below(spots, test.position) {
                ask_deep(alloc, body, agreed, graph, t, reads, spots, test)
            } else {
                ask_leaf(alloc, body, agreed, graph.nodes, t, reads, test)
            }
        }
    }
}

/// Code of a test at a position of a value of a type: it leaves by an edge to the node of the arm that is
/// taken, or to one to which what is known leads on from there, which carries what is known there. What later tests
/// need of the part there is saved where it has spots, slots for its fields. A position that no
/// pattern looks at is never tested. `graph` says what is matched, `subject` where its words and
/// spots are.
///
/// # Errors
///
/// Want of memory, a test at a position at which no pattern looks, or one of a part whose words
/// can't be found.
pub fn ask<'a>(
    alloc: Global,
    body: &mut Body,
    agreed: &Agreed,
    graph: &Whole<'a>,
    subject: &Subject,
    test: &Test<'_, 'a>,
) -> Result<Seq<Edge<'a>>, AllocError>
    ensures asks { IfOk result (λ edges. Asks agreed.now graph.now subject.now.words.now subject.now.spots.now
        test.now.known.now test.now.position.now test.now.arms.now test.now.other body.old body.new edges) }
    ensures stand { IfOk result (λ edges. StandOpen body.old body.new edges) }
    ensures grows { OnOk result (Grows body.old.code body.new.code) }
{
    let (words, spots) = (subject.words, subject.spots);
    let (known, position) = (test.known, test.position);
    let place = place_of_part(alloc, agreed, graph.ty, words, spots, known, position)?;
    let types = agreed.covered().program().types.as_slice();
    if !is_looked_at(types, graph.ty, graph.pats, position, place.ty) {
        return Err(AllocError);
    }
    let reads = place.reads.as_slice();
    ask_part(alloc, body, agreed, graph, spots, place.ty, reads, test)
}
