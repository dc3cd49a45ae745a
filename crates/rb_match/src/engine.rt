//! Code of a shared graph: each node once, from the root down.
//!
//! A hole is a target of a jump or a switch that is still open: the number of the instruction,
//! which of its targets it is, and in `leaf` the number of what it is to lead to. An edge is a hole
//! that is to lead to a node of the graph, whose number is its `leaf`, with the facts that are
//! known there of the value that is matched. A way is one of the ends to which the holes of a list
//! lead: those with the number `k` lead to way `k`. While the code is made these are nodes, and
//! once all nodes have their code they are clauses.
//!
//! A node is a test of the part of the value at a position, or a clause; links between nodes go to
//! lower numbers. `graph` says what is matched, by which patterns and nodes; `subject` has the
//! reads of the value's words, that is, where they are, and its spots, slots in which parts of it
//! are saved. `agreed` is the program with its layouts, and `body` the code so far, at whose end
//! new code is appended.

ghost use Rattle.std.specs.Prelude.{◌≡◌, ◌∷◌, [], IfOk, OnOk, length};
ghost use Rattle.rb_target.specs.Growth.{Grows};
ghost use Rattle.rb_fragment.specs.Arms.{AreHoles, AreOfOneWay, with_targets};
ghost use Rattle.rb_facts.specs.Edges.{AreOpen};
ghost use Rattle.rb_match.specs.inner.Flowing.{landing_of, others_of, StepsNode, RootStands, IsClauseHole, AreClauseHoles, TakesGraph};
ghost use Rattle.rb_match.specs.inner.Opening.{AsksOnward};

use crate::asking::{Subject, Test, Whole, ask, open_jump};
use rb_core::seq::Seq;
use rb_decide::decision_graph::GraphNode;
use rb_facts::knowledge::{Edge, node_known};
use rb_facts::threading::thread;
use rb_fragment::patch::patch_all;
use rb_layout::agreed::Agreed;
use rb_target::body::{Body, Hole};
use std::alloc::{AllocError, Global};

// The holes of the edges that lead to a node, in their order. Each has the number 0 in place of the
// node's, since all of them get one target: they are of one way. None where no edge leads there.
fn landing(alloc: Global, edges: &[Edge], node: usize) -> Result<Seq<Hole>, AllocError>
    ensures { IfOk result (λ holes. holes ≡ landing_of node edges.now) }
{
    let mut holes = Seq::new(alloc);
    for edge in edges {
        if edge.hole.leaf == node {
            holes.push(Hole {
                pc: edge.hole.pc,
                arm: edge.hole.arm,
                leaf: 0,
            })?;
        }
    }
    Ok(holes)
}

// The edges that lead to other nodes than this one, in their order. They move, since there may be
// as many as nodes.
fn others<'a>(edges: Seq<Edge<'a>>, node: usize) -> Seq<Edge<'a>>
    ensures { result ≡ others_of node edges.entry }
{
    let mut rest = edges.into_vec();
    rest.retain(|edge| edge.hole.leaf != node);
    Seq::from_vec(rest)
}

/// Lets all edges to a node lead to the end of the code, where the node's own code is to begin, and
/// answers the edges to other nodes, which stay open, in their order. Where no edge leads to the
/// node, the code stays as it is.
///
/// # Errors
///
/// Want of memory.
pub fn land<'a>(
    alloc: Global,
    body: &mut Body,
    edges: Seq<Edge<'a>>,
    node: usize,
) -> Result<Seq<Edge<'a>>, AllocError>
    requires { AreOpen 0 body.old.code edges }
    ensures code { OnOk result
        (body.new ≡ with_targets body.old (landing_of node edges.entry) (length body.old.code ∷ [])) }
    ensures rest { IfOk result (λ rest. rest ≡ others_of node edges.entry) }
{
    let mut targets = Seq::new(alloc);
    targets.push(body.len())?;
    let holes = landing(alloc, edges.as_slice(), node)?;
    patch_all(body, holes.as_slice(), targets.as_slice());
    Ok(others(edges, node))
}

// The code of a test of a graph. It leaves by edges, each to the node to which what it knows leads on.
fn ask_onward<'a>(
    alloc: Global,
    body: &mut Body,
    agreed: &Agreed,
    graph: &Whole<'a>,
    subject: &Subject,
    test: &Test<'_, 'a>,
) -> Result<Seq<Edge<'a>>, AllocError>
    ensures { IfOk result (λ onward. AsksOnward agreed.now graph.now subject.now.words.now subject.now.spots.now
        test.now.known.now test.now.position.now test.now.arms.now test.now.other body.old body.new onward) }
{
    let asked = ask(alloc, body, agreed, graph, subject, test)?;
    thread(alloc, agreed, graph.ty, graph.pats, graph.nodes, asked)
}

// The code of a node, to which some of the open edges lead: it begins at the end of the code, and
// the answer is the edges that are open behind it. A clause has no code, and keeps its edges; a
// test to which no edge leads has none either. `number` is the node's.
fn emit_node<'a>(
    alloc: Global,
    body: &mut Body,
    agreed: &Agreed,
    graph: &Whole<'a>,
    subject: &Subject,
    node: &'a GraphNode,
    number: usize,
    edges: Seq<Edge<'a>>,
) -> Result<Seq<Edge<'a>>, AllocError>
    requires { AreOpen 0 body.old.code edges }
    ensures { IfOk result (λ more. StepsNode agreed.now graph.now.ty subject.now.words.now graph.now.pats.now
        subject.now.spots.now graph.now.nodes.now node.now number body.old edges.entry body.new more) }
{
    match node {
        GraphNode::Clause(_) => Ok(edges),
        GraphNode::Test(position, arms, other) => {
            let Some(known) = node_known(alloc, edges.as_slice(), number)? else {
                return Ok(edges);
            };
            let known = known.as_slice();
            let position = position.as_slice();
            let arms = arms.as_slice();
            let test = Test {
                known,
                position,
                arms,
                other: *other,
            };
            let mut rest = land(alloc, body, edges, number)?;
            let onward = ask_onward(alloc, body, agreed, graph, subject, &test)?;
            match rest.append(onward) {
                None => Ok(rest),
                Some(_) => Err(AllocError),
            }
        }
    }
}

// The edges that are open once the graph has begun. A root that tests needs no edge, since its code
// comes first: the edges are those of its test. A root that is a clause has one edge, by an open
// jump. A root that is no node is an error.
fn begin<'a>(
    alloc: Global,
    body: &mut Body,
    agreed: &Agreed,
    graph: &Whole<'a>,
    subject: &Subject,
    root: u32,
) -> Result<Seq<Edge<'a>>, AllocError>
    ensures { IfOk result (λ edges. RootStands agreed.now graph.now.ty subject.now.words.now graph.now.pats.now
        subject.now.spots.now graph.now.nodes.now root body.old body.new edges) }
{
    let Some(node) = graph.nodes.get(root as usize) else {
        return Err(AllocError);
    };
    match node {
        GraphNode::Test(position, arms, other) => {
            let position = position.as_slice();
            let arms = arms.as_slice();
            let test = Test {
                known: &[],
                position,
                arms,
                other: *other,
            };
            ask_onward(alloc, body, agreed, graph, subject, &test)
        }
        GraphNode::Clause(_) => {
            let edge = open_jump(alloc, body, root, &[])?;
            let mut edges = Seq::new(alloc);
            edges.push(edge)?;
            Ok(edges)
        }
    }
}

// The hole of an edge to a clause, with the clause's number, which is below `count`, in place of
// the node's. When all nodes have their code no edge leads elsewhere: one that does, or to a clause
// from `count` on, is an error.
fn clause_hole(nodes: &[GraphNode], hole: &Hole, count: usize) -> Result<Hole, AllocError>
    ensures { IfOk result (λ h. IsClauseHole nodes.now count hole.now h) }
{
    match nodes.get(hole.leaf) {
        None | Some(GraphNode::Test(_, _, _)) => Err(AllocError),
        Some(GraphNode::Clause(clause)) => {
            let clause = *clause as usize;
            if clause >= count {
                return Err(AllocError);
            }
            Ok(Hole {
                pc: hole.pc,
                arm: hole.arm,
                leaf: clause,
            })
        }
    }
}

// The holes of edges, all of which lead to clauses, in their order: each has the number of its
// clause, one of `count`.
fn clause_holes(
    alloc: Global,
    nodes: &[GraphNode],
    edges: &[Edge],
    count: usize,
) -> Result<Seq<Hole>, AllocError>
    ensures { IfOk result (λ holes. AreClauseHoles nodes.now count edges.now holes) }
{
    let mut holes = Seq::new(alloc);
    for edge in edges {
        holes.push(clause_hole(nodes, &edge.hole, count)?)?;
    }
    Ok(holes)
}

// The code of a graph, from its root down: each test to which an edge leads when its turn comes has code, once. The
// answer is the edges that are open then. Where links go to lower nodes all of these lead to clauses. No clause says
// so: an edge to a test is an error where the holes are made.
fn emit_nodes<'a>(
    alloc: Global,
    body: &mut Body,
    agreed: &Agreed,
    graph: &Whole<'a>,
    subject: &Subject,
    root: u32,
) -> Result<Seq<Edge<'a>>, AllocError>
    ensures { IfOk result (λ edges. RootStands agreed.now graph.now.ty subject.now.words.now graph.now.pats.now
        subject.now.spots.now graph.now.nodes.now root body.old body.new edges) }
{
    let mut edges = begin(alloc, body, agreed, graph, subject, root)?;
    let nodes = graph.nodes;
    let count = nodes.len();
    for i in 0..count {
        let number = count - 1 - i;
        let node = &nodes[number];
        edges = emit_node(alloc, body, agreed, graph, subject, node, number, edges)?;
    }
    Ok(edges)
}

/// Code that leaves by a hole of the clause that a graph, from its root on, takes of the subject's
/// value. The answer is the holes, each with the number of its clause.
///
/// # Errors
///
/// Want of memory, or a graph that is not one of its patterns.
pub fn emit_graph(
    alloc: Global,
    body: &mut Body,
    agreed: &Agreed,
    graph: &Whole,
    subject: &Subject,
    root: u32,
) -> Result<Seq<Hole>, AllocError>
    ensures holes { IfOk result
        (λ holes. AreHoles (length body.old.code) (length graph.now.pats.now) body.new.code holes) }
    ensures ways { IfOk result (λ holes. AreOfOneWay holes) }
    ensures takes { IfOk result (λ holes. TakesGraph agreed.now graph.now.ty subject.now.words.now graph.now.pats.now
        subject.now.spots.now graph.now.nodes.now root body.old body.new holes) }
    ensures grows { OnOk result (Grows body.old.code body.new.code) }
{
    let edges = emit_nodes(alloc, body, agreed, graph, subject, root)?;
    let holes = clause_holes(alloc, graph.nodes, edges.as_slice(), graph.pats.len())?;
    Ok(holes)
}
