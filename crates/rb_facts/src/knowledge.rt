//! What is known of a value on its way through a graph, and the ways out of code that lead on.
//!
//! A node of a decision graph is a test or a clause, given by its number. A position is the numbers
//! of the fields that lead from the value to a part of it, the outermost first; that of the value
//! itself is empty. A leaf is one of the forms in which a layout stores the values of a data type,
//! given by its number there; data types are given by theirs. A spot is slots in which a part is
//! saved, given by its number among the spots. `known` is a list of facts on the value, all of
//! which are so; `place` is the index of a fact in a list, and a list that is too short has none
//! there.

ghost use Rattle.std.specs.Prelude.{◌≡◌, ◌∷◌, ◌++◌, [], IfOk, IfSome, true};
ghost use Rattle.rb_facts.specs.declared.knowledge.Known.TheVariants.{Leaf};
ghost use Rattle.rb_facts.specs.inner.Knowing.{FollowsLeaf, IsMet, IsShared, SharesKnown};
ghost use Rattle.rb_facts.specs.Knowing.{FollowsSaved, IsCommonKnowledge};

use rb_core::seq::Seq;
use rb_core::types::Ty;
use rb_target::body::Hole;
use std::alloc::{AllocError, Global};

/// Slots for the part of a value at a position, a word each, and the part's type. All code that saves
/// the part saves it here.
#[derive(Drop)]
pub struct Spot {
    pub position: Seq<u32>,
    pub ty: Ty,
    pub slots: Seq<usize>,
}

/// A fact on a value. A position is that of the test that found a leaf, so a list of facts is copied as
/// one piece.
#[derive(Clone, Copy)]
pub enum Known<'a> {
    /// The part of the value at a position is of a data type, and this is its leaf.
    Leaf {
        position: &'a [u32],
        ty: u32,
        leaf: usize,
    },
    /// The slots of the spot with this number hold the part at its position.
    Saved {
        spot: usize,
    },
}

/// A way out of emitted code: a target that is still open, the hole, whose `leaf` is the number of
/// the node to which it is to lead, with what is known of the value there.
#[derive(Drop)]
pub struct Edge<'a> {
    pub hole: Hole,
    pub known: Seq<Known<'a>>,
}

/// An equal list of facts.
///
/// # Errors
///
/// Want of memory.
pub fn copy_known<'a>(alloc: Global, known: &[Known<'a>]) -> Result<Seq<Known<'a>>, AllocError>
    ensures { IfOk result (λ copies. copies ≡ known.now) }
{
    let facts = Vec::from_slice(alloc, known)?;
    Ok(Seq::from_vec(facts))
}

/// The list of facts with one more: which leaf the part of a data type at a position has.
///
/// # Errors
///
/// Want of memory.
pub fn with_known<'a>(
    alloc: Global,
    known: &[Known<'a>],
    position: &'a [u32],
    ty: u32,
    leaf: usize,
) -> Result<Seq<Known<'a>>, AllocError>
    ensures { IfOk result (λ more. more ≡ known.now ++ Leaf position.entry ty leaf ∷ []) }
{
    let mut more = copy_known(alloc, known)?;
    more.push(Known::Leaf { position, ty, leaf })?;
    Ok(more)
}

/// Whether two positions are the same.
pub(crate) fn same_position(a: &[u32], b: &[u32]) -> bool
    ensures { result ≡ true → a.now ≡ b.now }
{
    a == b
}

/// What is left of a position behind one that it begins with; None where it does not begin with
/// that.
pub(crate) fn position_below<'a>(position: &'a [u32], above: &[u32]) -> Option<&'a [u32]>
    ensures { IfSome result (λ rest. position.now ≡ above.now ++ rest.now) }
{
    let count = above.len();
    if position.len() < count {
        return None;
    }
    if same_position(&position[..count], above) {
        return Some(&position[count..]);
    }
    None
}

// The leaf of the part of a data type at a position, where the fact at this place of a list says
// it; None where that fact says something else, or there is none.
fn leaf_at(known: &[Known], place: usize, ty: u32, position: &[u32]) -> Option<usize>
    ensures { IfSome result (λ leaf. FollowsLeaf known.now ty position.now leaf) }
{
    let fact = *known.get(place)?;
    match fact {
        Known::Saved { .. } => None,
        Known::Leaf {
            position: found,
            ty: of,
            leaf,
        } => {
            if of == ty && same_position(found, position) {
                return Some(leaf);
            }
            None
        }
    }
}

/// The leaf of the part of data type `ty` at a position, as the first fact that tells it says; None
/// where none does.
pub(crate) fn leaf_known(known: &[Known], ty: u32, position: &[u32]) -> Option<usize>
    ensures { IfSome result (λ leaf. FollowsLeaf known.now ty position.now leaf) }
{
    for place in 0..known.len() {
        if let Some(leaf) = leaf_at(known, place, ty, position) {
            return Some(leaf);
        }
    }
    None
}

/// Whether a spot is known to hold its part. True is proved of what is so; that false is right no clause says.
pub fn saved_known(known: &[Known], spot: usize) -> bool
    ensures { result ≡ true → FollowsSaved known.now spot }
{
    for i in 0..known.len() {
        if saved_at(known, i, spot) {
            return true;
        }
    }
    false
}

// Whether the fact at this place of a list says that a spot holds its part.
fn saved_at(known: &[Known], place: usize, spot: usize) -> bool
    ensures { result ≡ true → FollowsSaved known.now spot }
{
    let Some(fact) = known.get(place) else {
        return false;
    };
    match *fact {
        Known::Leaf { .. } => false,
        Known::Saved { spot: found } => found == spot,
    }
}

// Whether it is known that the part of a data type at a position has this leaf.
fn is_leaf_known(known: &[Known], position: &[u32], ty: u32, leaf: usize) -> bool
    ensures { result ≡ true → FollowsLeaf known.now ty position.now leaf }
{
    match leaf_known(known, ty, position) {
        None => false,
        Some(found) => found == leaf,
    }
}

// Whether the list `other` has the fact that the part of data type `ty` at a position has this
// leaf: at this place, or anywhere.
fn shared_leaf(other: &[Known], place: usize, position: &[u32], ty: u32, leaf: usize) -> bool
    ensures { result ≡ true → FollowsLeaf other.now ty position.now leaf }
{
    match leaf_at(other, place, ty, position) {
        None => is_leaf_known(other, position, ty, leaf),
        Some(found) => found == leaf,
    }
}

// Whether the list `other` has the fact that this spot holds its part: at this place, or anywhere.
fn shared_spot(other: &[Known], place: usize, spot: usize) -> bool
    ensures { result ≡ true → FollowsSaved other.now spot }
{
    if saved_at(other, place, spot) {
        return true;
    }
    saved_known(other, spot)
}

// Fact number `i` of the list `known`, where the list `other` has it, too, at this place or
// anywhere; None where it has not, or there is no such fact.
fn shared_fact<'a>(
    known: &[Known<'a>],
    i: usize,
    other: &[Known<'a>],
    place: usize,
) -> Option<Known<'a>>
    ensures { IfSome result (λ fact. IsShared known.now other.now fact) }
{
    let fact = *known.get(i)?;
    let both = match fact {
        Known::Leaf { position, ty, leaf } => shared_leaf(other, place, position, ty, leaf),
        Known::Saved { spot } => shared_spot(other, place, spot),
    };
    if both {
        return Some(fact);
    }
    None
}

// The facts that are in both lists, in the order of the first. Those of one test's edges begin
// alike, so each fact is looked for in the other list first behind as many as have been found in
// both.
fn shared_known<'a>(
    alloc: Global,
    known: &[Known<'a>],
    other: &[Known<'a>],
) -> Result<Seq<Known<'a>>, AllocError>
    ensures { IfOk result (λ both. SharesKnown known.now other.now both) }
{
    let mut both = Seq::new(alloc);
    for i in 0..known.len() {
        if let Some(fact) = shared_fact(known, i, other, both.len()) {
            both.push(fact)?;
        }
    }
    Ok(both)
}

// What is known at a node behind one more edge. If that leads there, it is all that the edge knows
// where it is the first to do so, that is, where nothing is found yet, and else what is known by
// both; if not, what was found before.
fn meet<'a>(
    alloc: Global,
    found: Option<Seq<Known<'a>>>,
    edge: &Edge<'a>,
    node: usize,
) -> Result<Option<Seq<Known<'a>>>, AllocError>
    ensures { IfOk result (λ r. IsMet found.entry edge.now node r) }
{
    if edge.hole.leaf != node {
        return Ok(found);
    }
    match found {
        None => {
            let known = copy_known(alloc, edge.known.as_slice())?;
            Ok(Some(known))
        }
        Some(known) => {
            let both = shared_known(alloc, known.as_slice(), edge.known.as_slice())?;
            Ok(Some(both))
        }
    }
}

/// What is known at a node by whatever edge it is reached: the facts that all edges to it carry, in
/// the order of the first. None where no edge leads there. They are proved to be so wherever those of one of these
/// edges are; that no common fact is left out no clause says.
///
/// # Errors
///
/// Want of memory.
pub fn node_known<'a>(
    alloc: Global,
    edges: &[Edge<'a>],
    node: usize,
) -> Result<Option<Seq<Known<'a>>>, AllocError>
    ensures { IfOk result (λ r. IsCommonKnowledge edges.now node r) }
{
    let mut found = None;
    for edge in edges {
        found = meet(alloc, found, edge, node)?;
    }
    Ok(found)
}
