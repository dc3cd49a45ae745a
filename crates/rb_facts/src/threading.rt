//! Tests that what is known decides: they need no code, and an edge that leads to one leads on to the node of
//! its arm. A test below it needs the leaf that it would have found. Where all values of the constructor there have one
//! leaf, which takes no field apart, that leaf is known from then on. Else, behind the look that decides it, the exit
//! opens the part: it saves the fields themselves that such tests need. Elsewhere the test stays if
//! one can be met.
//!
//! `nodes` are those of a decision graph over values of type `ty` for the patterns `pats`: tests
//! and clauses, by their numbers. A test looks at the part at a position, the numbers of the fields
//! that lead from the value to it; its `arms` lead to nodes by what the part begins with, and
//! `other` is the node of all other values, None where there are none. A leaf is one of the forms
//! in which a layout stores the values of a data type, given by its number; its provenance is the
//! pattern of these values. An edge is a way out of the code so far to a node, with what is `known`
//! of the value there: the leaves of parts, and which spots, slots in which parts are saved, hold
//! theirs. An exit is the way of a leaf out of the look that found it. Marks are one for each node.
//! `agreed` is the program with its layouts.
//!
//! An edge may lead on to any of the nodes that it comes to over decided tests: that is proved of each. At which of
//! them it ends is a guess, made by marks and by what exits open, of which no clause speaks. Where the guess is wrong,
//! a test finds no leaf to read from and its code is given up, as for want of memory, or more tests are made than have
//! to be.

ghost use Rattle.std.specs.Prelude.{◌≡◌, IfOk, IfSome, OnOk, true};
ghost use Rattle.rb_matrix.specs.Covering.{Covers};
ghost use Rattle.rb_facts.specs.Threading.{AllFollow, AreThreaded, IsThreaded, LeadsOn, Threads};
ghost use Rattle.rb_facts.specs.inner.Threading.{Ascend, AreWild, TellsConstructor, HasSub, IsAtLeaf, IsDecided, IsFirst, IsLeafOfAll, IsWild, ShowTogether, Tells, TellTogether};

use crate::knowledge::{Edge, Known, copy_known, position_below};
use crate::links::{link_of, mark_tested_below};
use crate::place::is_looked_at;
use crate::spots::{is_deep, is_within, marks, set_at};
use rb_core::pattern::Pat;
use rb_core::seq::Seq;
use rb_core::types::{ConRef, Ty};
use rb_decide::decision_graph::{GraphArm, GraphNode};
use rb_layout::agreed::Agreed;
use rb_layout::layout::Leaf;
use rb_matrix::are_apart;
use rb_target::body::Hole;
use std::alloc::{AllocError, Global};

// What stands in a pattern at a position; None where nothing does.
fn sub_at<'a>(pat: &'a Pat, position: &[u32]) -> Option<&'a Pat>
    ensures { IfSome result (λ sub. HasSub pat.now position.now sub.now) }
{
    let [field, rest @ ..] = position else {
        return Some(pat);
    };
    match pat {
        Pat::Wild(_) | Pat::Var(_, _) | Pat::Num(_, _) => None,
        Pat::Con(_, _, subs) => {
            let sub = subs.get(*field as usize)?;
            sub_at(sub, rest)
        }
    }
}

// The constructor with which a pattern begins; None for a wildcard, a variable or a number.
fn con_of_pat(pat: &Pat) -> Option<ConRef>
    ensures { IfSome result (λ con. TellsConstructor pat.now con.con) }
{
    match pat {
        Pat::Wild(_) | Pat::Var(_, _) | Pat::Num(_, _) => None,
        Pat::Con(_, con, _) => Some(*con),
    }
}

// What a fact tells of the part at a position: the provenance of the leaf of a part at or above it
// says what stands there. None where the fact is of no leaf, or of a part elsewhere, or the
// provenance doesn't reach there.
fn sub_from<'a>(agreed: &'a Agreed, fact: Known, position: &[u32]) -> Option<&'a Pat>
    ensures { IfSome result (λ sub. Tells agreed.now fact.entry position.now sub.now) }
{
    match fact {
        Known::Saved { .. } => None,
        Known::Leaf {
            position: above,
            ty,
            leaf,
        } => {
            let rest = position_below(position, above)?;
            let layout = agreed.layouts().get(ty as usize)?;
            let leaf = layout.leaves.get(leaf)?;
            sub_at(&leaf.prov, rest)
        }
    }
}

// What the fact at this place of a list tells of the part at a position, if it tells anything.
fn sub_by<'a>(
    agreed: &'a Agreed,
    known: &[Known],
    place: usize,
    position: &[u32],
) -> Option<&'a Pat>
    ensures { IfSome result (λ sub. TellTogether agreed.now known.now position.now sub.now) }
{
    let fact = *known.get(place)?;
    sub_from(agreed, fact, position)
}

// A pattern of the part at a position that begins with the part's constructor, where some fact
// tells it; else None. The last facts are asked first: a leaf that was just found tells most.
fn sub_known<'a>(agreed: &'a Agreed, known: &[Known], position: &[u32]) -> Option<&'a Pat>
    ensures { IfSome result (λ sub. TellTogether agreed.now known.now position.now sub.now) }
{
    let count = known.len();
    for i in 0..count {
        if let Some(sub) = sub_by(agreed, known, count - 1 - i, position) {
            if con_of_pat(sub).is_some() {
                return Some(sub);
            }
        }
    }
    None
}

// The node to which a test leads, where what is known decides it: the constructor of its part is
// known, and some pattern looks there. None where that is not so, or the test leads such values to
// no node.
fn decided_node(
    agreed: &Agreed,
    ty: Ty,
    pats: &[Pat],
    known: &[Known],
    position: &[u32],
    arms: &[GraphArm],
    other: Option<u32>,
) -> Option<u32>
    ensures { IfSome result
        (λ node. IsDecided agreed.now ty pats.now known.now position.now arms.now other node) }
{
    let sub = sub_known(agreed, known, position)?;
    let con = con_of_pat(sub)?;
    let types = agreed.covered().program().types.as_slice();
    if is_looked_at(types, ty, pats, position, Ty::Named(con.ty)) {
        return link_of(arms, other, con.con);
    }
    None
}

// The node to which a test leads that what is known decides; None where the node is no such test.
fn node_behind(
    agreed: &Agreed,
    ty: Ty,
    pats: &[Pat],
    nodes: &[GraphNode],
    known: &[Known],
    node: usize,
) -> Option<usize>
    ensures { IfSome result (λ next. LeadsOn agreed.now ty pats.now nodes.now known.now node next) }
{
    let found = nodes.get(node)?;
    match found {
        GraphNode::Clause(_) => None,
        GraphNode::Test(position, arms, other) => {
            let position = position.as_slice();
            let arms = arms.as_slice();
            let next = decided_node(agreed, ty, pats, known, position, arms, *other)?;
            Some(next as usize)
        }
    }
}

// Whether a node is marked; one that the list does not have is not. Marks are guesses.
fn is_marked(marks: &[bool], node: usize) -> bool {
    matches!(marks.get(node), Some(true))
}

// Leaves that are shown -----------------------------------------------------------------------------

// Whether a pattern matches all values.
fn is_wild(pat: &Pat) -> bool
    ensures { result ≡ true → IsWild pat.now }
{
    match pat {
        Pat::Wild(_) => true,
        Pat::Var(_, _) => true,
        Pat::Num(_, _) | Pat::Con(_, _, _) => false,
    }
}

// Whether each of some patterns matches all values.
fn are_wild(pats: &[Pat]) -> bool
    ensures { result ≡ true → AreWild pats.now }
{
    for pat in pats {
        if !is_wild(pat) {
            return false;
        }
    }
    true
}

// Whether a leaf takes no field apart and is of the constructor with which a pattern begins, so
// that it has all values that the pattern matches; false where either begins with no constructor,
// or their numbers of fields differ.
fn covers(leaf: &Leaf, pat: &Pat) -> bool
    ensures { result ≡ true → Covers leaf.now.prov pat.now }
{
    match &leaf.prov {
        Pat::Wild(_) | Pat::Var(_, _) | Pat::Num(_, _) => false,
        Pat::Con(_, con, fields) => match pat {
            Pat::Wild(_) | Pat::Var(_, _) | Pat::Num(_, _) => false,
            Pat::Con(_, other, subs) => {
                if con.con != other.con || fields.len() != subs.len() {
                    return false;
                }
                are_wild(fields.as_slice())
            }
        },
    }
}

// The number of the first of some leaves that may have a value which a pattern matches, where it
// has all these values; None where it hasn't, or no leaf may have one.
fn first_leaf(leaves: &[Leaf], pat: &Pat) -> Option<usize>
    ensures { IfSome result (λ leaf. IsFirst leaves.now pat.now leaf) }
{
    for (i, leaf) in leaves.iter().enumerate() {
        if covers(leaf, pat) {
            return Some(i);
        }
        if !are_apart(&leaf.prov, pat) {
            return None;
        }
    }
    None
}

// The leaf of all values of a type that a pattern matches, where that is one which takes no field apart: no other leaf
// has its constructor then.
fn leaf_of_all(agreed: &Agreed, ty: u32, pat: &Pat) -> Option<usize>
    ensures { IfSome result (λ leaf. IsLeafOfAll agreed.now ty pat.now leaf) }
{
    let layout = agreed.layouts().get(ty as usize)?;
    first_leaf(layout.leaves.as_slice(), pat)
}

// The fact which leaf the part at a position has, where the pattern matches that part and shows its
// leaf; None where it shows none.
fn leaf_shown<'a>(agreed: &Agreed, pat: &Pat, position: &'a [u32]) -> Option<Known<'a>>
    ensures { IfSome result (λ fact. IsAtLeaf agreed.now pat.now position.now fact) }
{
    match pat {
        Pat::Wild(_) | Pat::Var(_, _) | Pat::Num(_, _) => None,
        Pat::Con(_, con, _) => {
            let ty = con.ty;
            let leaf = leaf_of_all(agreed, ty, pat)?;
            Some(Known::Leaf { position, ty, leaf })
        }
    }
}

// The fact which leaf the part at a position has, where what is known shows it; else None.
fn shown_fact<'a>(agreed: &Agreed, known: &[Known], position: &'a [u32]) -> Option<Known<'a>>
    ensures { IfSome result (λ fact. ShowTogether agreed.now known.now fact) }
{
    let sub = sub_known(agreed, known, position)?;
    leaf_shown(agreed, sub, position)
}

// Exits ---------------------------------------------------------------------------------------------

/// The way of a leaf behind the look that found it: the position of the look, and the leaf's provenance.
#[derive(Clone, Copy)]
pub struct Exit<'a> {
    pub position: &'a [u32],
    pub prov: &'a Pat,
}

/// Whether an exit opens a part that a leaf has taken apart, instead of rebuilding it: its type has spots for its
/// fields, and its constructor doesn't show its leaf. No clause says when: code may save a part either way.
pub(crate) fn is_opened(agreed: &Agreed, sub: &Pat) -> bool {
    match sub {
        Pat::Wild(_) | Pat::Var(_, _) | Pat::Num(_, _) => false,
        Pat::Con(_, con, _) => is_deep(agreed, con.ty)
            && leaf_of_all(agreed, con.ty, sub).is_none(),
    }
}

// Whether an exit opens each part on a path below a pattern; so it does on an empty path. False
// where the path leads out of the pattern. It serves the guess at which node an edge ends.
fn are_opened(agreed: &Agreed, pat: &Pat, path: &[u32]) -> bool {
    let [field, rest @ ..] = path else {
        return true;
    };
    match pat {
        Pat::Wild(_) | Pat::Var(_, _) | Pat::Num(_, _) => false,
        Pat::Con(_, _, subs) => match subs.get(*field as usize) {
            None => false,
            Some(sub) => is_opened(agreed, sub) && are_opened(agreed, sub, rest),
        },
    }
}

// Whether code at an exit saves the fields of the part at a position that tests need; false where
// the way is no exit, or the part is not at or below the one that was looked at. It serves the guess
// at which node an edge ends.
fn opens(agreed: &Agreed, exit: &Option<Exit>, position: &[u32]) -> bool {
    let Some(exit) = exit else {
        return false;
    };
    match position_below(position, exit.position) {
        None => false,
        Some(path) => are_opened(agreed, exit.prov, path),
    }
}

// Whether a way carries what is shown of the part at a position. An exit does of parts at or below
// its look alone, since leaves that lead on to one node may go by one way, which carries what was
// known before the look. It serves the guess at which node an edge ends.
fn carries(exit: &Option<Exit>, position: &[u32]) -> bool {
    match exit {
        None => true,
        Some(exit) => is_within(position, exit.position),
    }
}

// Nodes ---------------------------------------------------------------------------------------------

// Marks each node that is marked in the other list; other marks stay as they are. Marks are guesses.
fn mark_all(marks: &mut Seq<bool>, others: &[bool]) {
    for i in 0..marks.len() {
        if is_marked(others, i) {
            set_at(marks, i);
        }
    }
}

// What is known behind a decided test: the leaf of its part, where a test below it can be met from the next node on.
// Where that leaf is not shown, and no exit opens the part, each node is marked in `met` from which
// such a test can be met. `node` is the decided test and `next` the node to which it leads; where
// `node` is no test, nothing changes.
fn pass_over<'a>(
    alloc: Global,
    agreed: &Agreed,
    exit: &Option<Exit>,
    nodes: &'a [GraphNode],
    node: usize,
    next: usize,
    known: &mut Seq<Known<'a>>,
    met: &mut Seq<bool>,
) -> Result<(), AllocError>
    ensures { OnOk result (AllFollow agreed.now known.old known.new) }
{
    let Some(GraphNode::Test(position, _, _)) = nodes.get(node) else {
        return Ok(());
    };
    let position = position.as_slice();
    let below = mark_tested_below(alloc, nodes, position)?;
    let below = below.as_slice();
    if !is_marked(below, next) || opens(agreed, exit, position) {
        return Ok(());
    }
    if carries(exit, position) {
        if let Some(fact) = shown_fact(agreed, known.as_slice(), position) {
            known.push(fact)?;
            return Ok(());
        }
    }
    mark_all(met, below);
    Ok(())
}

/// The node to which what is known leads from one on, over tests that it decides; what they show is known then. It is
/// the last one from which no test can be met that reads from a part whose leaf a look on the way would have told,
/// where nothing shows that leaf and the exit, if the way is one, doesn't open the part.
///
/// # Errors
///
/// Want of memory.
pub fn lead_on<'a>(
    alloc: Global,
    agreed: &Agreed,
    ty: Ty,
    pats: &[Pat],
    nodes: &'a [GraphNode],
    exit: &Option<Exit>,
    known: &mut Seq<Known<'a>>,
    node: usize,
) -> Result<usize, AllocError>
    ensures leads { IfOk result (λ end. LeadsOn agreed.now ty pats.now nodes.now known.old node end) }
    ensures known { OnOk result (AllFollow agreed.now known.old known.new) }
{
    let mut here = node;
    let mut end = node;
    let mut met = marks(alloc, nodes.len(), false)?;
    for _step in 0..nodes.len() {
        let Some(next) = node_behind(agreed, ty, pats, nodes, known.as_slice(), here) else {
            return Ok(end);
        };
        pass_over(alloc, agreed, exit, nodes, here, next, known, &mut met)?;
        here = next;
        if !is_marked(met.as_slice(), here) {
            end = here;
        }
    }
    Ok(end)
}

// Whether each edge is at a later instruction than those before it; so it is of no edges.
fn ascend(edges: &[Edge]) -> bool
    ensures { result ≡ true → Ascend 0 edges.now }
{
    let mut from = 0usize;
    for edge in edges {
        if edge.hole.pc < from {
            return false;
        }
        match edge.hole.pc.checked_add(1) {
            None => return false,
            Some(next) => from = next,
        }
    }
    true
}

// What an edge to a node carries: what is known where it is a test, and else nothing. At a clause
// nothing is asked any more, and a long pattern has many edges to one.
fn carried_facts<'a>(
    alloc: Global,
    agreed: &Agreed,
    nodes: &[GraphNode],
    node: usize,
    known: Seq<Known<'a>>,
) -> Seq<Known<'a>>
    ensures { AllFollow agreed.now known.entry result }
{
    match nodes.get(node) {
        Some(GraphNode::Test(_, _, _)) => known,
        None | Some(GraphNode::Clause(_)) => Seq::new(alloc),
    }
}

// An edge in the place of another, to the node to which what that one knows leads on.
fn thread_edge<'a>(
    alloc: Global,
    agreed: &Agreed,
    ty: Ty,
    pats: &[Pat],
    nodes: &'a [GraphNode],
    edge: &Edge<'a>,
) -> Result<Edge<'a>, AllocError>
    ensures { IfOk result (λ e. IsThreaded agreed.now ty pats.now nodes.now edge.now e) }
{
    let mut facts = copy_known(alloc, edge.known.as_slice())?;
    let leaf = lead_on(
        alloc,
        agreed,
        ty,
        pats,
        nodes,
        &None,
        &mut facts,
        edge.hole.leaf,
    )?;
    let known = carried_facts(alloc, agreed, nodes, leaf, facts);
    Ok(Edge {
        hole: Hole {
            pc: edge.hole.pc,
            arm: edge.hole.arm,
            leaf,
        },
        known,
    })
}

// The edges, in their order, each to the node to which what it knows leads on.
fn thread_each<'a>(
    alloc: Global,
    agreed: &Agreed,
    ty: Ty,
    pats: &[Pat],
    nodes: &'a [GraphNode],
    edges: &[Edge<'a>],
) -> Result<Seq<Edge<'a>>, AllocError>
    ensures { IfOk result (λ more. AreThreaded agreed.now ty pats.now nodes.now edges.now more) }
{
    let mut more = Seq::new(alloc);
    for edge in edges {
        more.push(thread_edge(alloc, agreed, ty, pats, nodes, edge)?)?;
    }
    Ok(more)
}

/// The edges of a test, each to the node to which what it knows leads on; at a clause it knows nothing any more.
/// Where some edge is not at a later instruction than those before it, all stay as they are: two
/// may be the same way out.
///
/// # Errors
///
/// Want of memory.
pub fn thread<'a>(
    alloc: Global,
    agreed: &Agreed,
    ty: Ty,
    pats: &[Pat],
    nodes: &'a [GraphNode],
    edges: Seq<Edge<'a>>,
) -> Result<Seq<Edge<'a>>, AllocError>
    ensures { IfOk result (λ more. Threads agreed.now ty pats.now nodes.now edges.entry more) }
{
    if ascend(edges.as_slice()) {
        thread_each(alloc, agreed, ty, pats, nodes, edges.as_slice())
    } else {
        Ok(edges)
    }
}
