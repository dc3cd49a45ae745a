//! Spots: slots in which parts of a value are saved, so that they are there on all ways. A position
//! is the field numbers that lead from the value to a part of it, the outermost first; that of the
//! value itself is empty. A leaf, one of the forms in which a layout stores the values of a data
//! type, takes a subvalue apart where its provenance, the pattern of its values, has a constructor
//! in a field of its root. A pattern looks at a part where it has a number or a constructor there.
//! Nodes are those of a decision graph, tests and clauses, by their numbers; links between them go
//! to lower numbers. `pats` are the patterns of a match, `agreed` is the program with its layouts,
//! and `body` the code so far, at whose end new code is appended.
//!
//! Which parts have spots, and which of them are saved, is a guess, and so are the marks of nodes by which it is made:
//! no clause says which these are. Code that reads a part asks first where the part is known to be, and is given up,
//! as for want of memory, where that is not known. So a wrong guess costs instructions, or the code, and never makes
//! code that is wrong.

ghost use Rattle.std.specs.Prelude.{◌≡◌, IfOk, OnOk, true, false, nat_eq};
ghost use Rattle.std.specs.List.{list_any, starts_with};
ghost use Rattle.rb_target.specs.Growth.{Grows};
ghost use Rattle.rb_fragment.specs.Slots.{slots_from};
ghost use Rattle.rb_rel.specs.Switches.{is_shallow};
ghost use Rattle.rb_facts.specs.Looks.{takes_none_apart};
ghost use Rattle.rb_facts.specs.Saving.{GivesSpots, Zeroes, is_field};
ghost use Rattle.rb_facts.specs.inner.Saving.{HasConstructor};

use crate::knowledge::{Spot, same_position};
use rb_core::inference::types_of_fields;
use rb_core::pattern::Pat;
use rb_core::seq::Seq;
use rb_core::types::Ty;
use rb_decide::clause_matrix::number_of;
use rb_decide::decision_graph::{GraphArm, GraphNode};
use rb_fragment::emit::emit_const;
use rb_layout::agreed::Agreed;
use rb_layout::layout::Leaf;
use rb_layout::paths::path_below;
use rb_rel::words::word_count;
use rb_target::body::Body;
use std::alloc::{AllocError, Global};

/// A position at which a part is to be saved, and its type.
#[derive(Drop)]
pub struct Wanted {
    pub position: Seq<u32>,
    pub ty: Ty,
}

// Which parts are saved --------------------------------------------------------------------------

// Whether a leaf takes a subvalue apart: its provenance has a constructor in a field of its root.
fn takes_apart(leaf: &Leaf) -> bool
    ensures { result ≡ true → is_shallow leaf.now ≡ false }
{
    match &leaf.prov {
        Pat::Wild(_) | Pat::Var(_, _) | Pat::Num(_, _) => false,
        Pat::Con(_, _, subs) => has_constructor(subs.as_slice()),
    }
}

// Whether some of these patterns begins with a constructor.
fn has_constructor(subs: &[Pat]) -> bool
    ensures { result ≡ true → HasConstructor subs.now }
{
    for sub in subs {
        match sub {
            Pat::Con(_, _, _) => return true,
            Pat::Wild(_) | Pat::Var(_, _) | Pat::Num(_, _) => {}
        }
    }
    false
}

/// Whether some leaf of a type takes a subvalue apart; false where the type has no layout. True is proved of what is
/// so; that false is right no clause says.
pub fn is_deep(agreed: &Agreed, ty: u32) -> bool
    ensures { result ≡ true → takes_none_apart agreed.now.layouts ty ≡ false }
{
    match agreed.layouts().get(ty as usize) {
        None => false,
        Some(layout) => {
            for leaf in layout.leaves.as_slice() {
                if takes_apart(leaf) {
                    return true;
                }
            }
            false
        }
    }
}

// Adds a part to those that are to be saved, where it is not among them yet. What is saved is a guess.
fn add_wanted(found: &mut Seq<Wanted>, position: Seq<u32>, ty: Ty) -> Result<(), AllocError> {
    for wanted in found.as_slice() {
        if wanted.ty == ty && same_position(wanted.position.as_slice(), position.as_slice()) {
            return Ok(());
        }
    }
    found.push(Wanted { position, ty })?;
    Ok(())
}

// Adds to `found` the parts below a pattern, which stands at a position, that are to be saved:
// those at which it looks, or below which it does, directly below a part of a type with a leaf that
// takes subvalues apart. What is saved is a guess.
fn add_parts(
    alloc: Global,
    agreed: &Agreed,
    pat: &Pat,
    position: &[u32],
    found: &mut Seq<Wanted>,
) -> Result<(), AllocError> {
    match pat {
        Pat::Wild(_) | Pat::Var(_, _) | Pat::Num(_, _) => Ok(()),
        Pat::Con(_, con, subs) => {
            let types = agreed.covered().program().types.as_slice();
            let fields = types_of_fields(types, *con);
            let deep = is_deep(agreed, con.ty);
            for (j, sub) in subs.as_slice().iter().enumerate() {
                match sub {
                    Pat::Wild(_) | Pat::Var(_, _) => {}
                    Pat::Num(_, _) | Pat::Con(_, _, _) => {
                        let below = path_below(alloc, position, number_of(j)? as usize)?;
                        add_parts(alloc, agreed, sub, below.as_slice(), found)?;
                        if deep {
                            if let Some(ty) = fields.get(j) {
                                add_wanted(found, below, *ty)?;
                            }
                        }
                    }
                }
            }
            Ok(())
        }
    }
}

// The parts at which some pattern looks, or below which one does, directly below a part of a type with
// a leaf that takes subvalues apart. That is a guess: where a test needs another part saved, its code
// is given up, and a spot that no test needs is written to in vain.
fn parts_to_save(alloc: Global, agreed: &Agreed, pats: &[Pat]) -> Result<Seq<Wanted>, AllocError> {
    let mut found = Seq::new(alloc);
    for pat in pats {
        add_parts(alloc, agreed, pat, &[], &mut found)?;
    }
    Ok(found)
}

// Whether a position is that of a field of the part at another: the other with one field number
// more.
fn is_field_of(position: &[u32], above: &[u32]) -> bool
    ensures { result ≡ is_field position.now above.now }
{
    position.len() > above.len() && position.len() - above.len() == 1 && is_within(position, above)
}

/// Whether there is a spot for a field of the part at a position, itself and not one below it.
pub fn has_spot_below(spots: &[Spot], position: &[u32]) -> bool
    ensures { result ≡ list_any (λ (spot : Spot). is_field spot.position position.now) spots.now }
{
    spots
        .iter()
        .any(|spot| is_field_of(spot.position.as_slice(), position))
}

/// Sets the mark at the index `place` of a list; nothing is set where the list is too short. Marks are
/// guesses, of which no clause speaks.
pub(crate) fn set_at(marks: &mut Seq<bool>, place: usize) {
    if place < marks.len() {
        marks.replace(place, true);
    }
}

/// A list of `count` marks, all of them `mark`. Marks are guesses, of which no clause speaks.
///
/// # Errors
///
/// Want of memory.
pub(crate) fn marks(alloc: Global, count: usize, mark: bool) -> Result<Seq<bool>, AllocError> {
    let mut all = Seq::new(alloc);
    for _place in 0..count {
        all.push(mark)?;
    }
    Ok(all)
}

// Marks in `reached` the nodes to which a test leads: by each of its arms, and by `other` for all
// other values, if there is one. `reached` has marks of the nodes up to the one at which the search
// begins; nodes past its end are left out. Marks are guesses, of which no clause speaks.
fn mark_links(reached: &mut Seq<bool>, arms: &[GraphArm], other: Option<u32>) {
    for arm in arms {
        set_at(reached, arm.under as usize);
    }
    if let Some(link) = other {
        set_at(reached, link as usize);
    }
}

/// Whether a position is the position `above`, or that of a part below it.
pub(crate) fn is_within(position: &[u32], above: &[u32]) -> bool
    ensures { result ≡ starts_with nat_eq position.now above.now }
{
    position.starts_with(above)
}

/// Which parts later tests need.
#[derive(Drop)]
pub enum Needs<'a> {
    /// All that can be saved.
    All,
    /// Those at which, or below which, a test at one of these positions stands.
    Tests(Seq<&'a [u32]>),
}

/// What the tests need that can be met from a node on, its own if it is one. Links go to lower
/// numbers, so that no node above that one is met. Where there are no nodes, all is needed; where
/// there is no such node, nothing. That is a guess: a test that needs more is given up, as for want of
/// memory, when its own code is made.
///
/// # Errors
///
/// Want of memory.
pub fn needs_from<'a>(
    alloc: Global,
    nodes: &'a [GraphNode],
    node: usize,
) -> Result<Needs<'a>, AllocError> {
    if nodes.is_empty() {
        return Ok(Needs::All);
    }
    let count = if node < nodes.len() { node + 1 } else { 0 };
    let mut tests = Seq::new(alloc);
    let mut reached = marks(alloc, count, false)?;
    set_at(&mut reached, node);
    for i in 0..count {
        let number = count - 1 - i;
        if let Some(true) = reached.get(number) {
            if let Some(GraphNode::Test(tested, arms, other)) = nodes.get(number) {
                tests.push(tested.as_slice())?;
                mark_links(&mut reached, arms.as_slice(), *other);
            }
        }
    }
    Ok(Needs::Tests(tests))
}

/// Whether later tests need the part at a position, or one below it; so it is where all is needed.
/// What is needed is a guess.
pub(crate) fn is_needed(needs: &Needs, position: &[u32]) -> bool {
    match needs {
        Needs::All => true,
        Needs::Tests(tests) => tests
            .as_slice()
            .iter()
            .any(|tested| is_within(tested, position)),
    }
}

/// Whether a later test looks at the part at a position itself; so it is where all is needed. What is
/// needed is a guess.
pub(crate) fn is_tested(needs: &Needs, position: &[u32]) -> bool {
    match needs {
        Needs::All => true,
        Needs::Tests(tests) => tests
            .as_slice()
            .iter()
            .any(|tested| same_position(tested, position)),
    }
}

// Their slots ------------------------------------------------------------------------------------

// So many new slots, and code that writes 0 to each, since every slot of a function is to be
// written.
fn zeroes(alloc: Global, body: &mut Body, count: usize) -> Result<Seq<usize>, AllocError>
    ensures slots { IfOk result (λ slots. slots ≡ slots_from body.old.slots count) }
    ensures zeroes { OnOk result (Zeroes body.old body.new count) }
{
    let mut slots = Seq::new(alloc);
    for _given in 0..count {
        let slot = emit_const(body, 0)?;
        slots.push(slot)?;
    }
    Ok(slots)
}

// An equal position. No clause says that it is: who takes a part from a spot compares the spot's own
// position first.
fn copy_position(alloc: Global, position: &[u32]) -> Result<Seq<u32>, AllocError> {
    let fields = Vec::from_slice(alloc, position)?;
    Ok(Seq::from_vec(fields))
}

/// Slots for some parts, a spot for each, in their order: new slots, one for each word of the
/// part's type. Which part a spot is for no clause says: who takes a part from a spot compares its position first.
///
/// # Errors
///
/// Want of memory.
pub fn give_spots(
    alloc: Global,
    body: &mut Body,
    agreed: &Agreed,
    parts: &[Wanted],
) -> Result<Seq<Spot>, AllocError>
    ensures gives { IfOk result (λ spots. GivesSpots agreed.now body.old body.new spots) }
    ensures grows { OnOk result (Grows body.old.code body.new.code) }
{
    let mut spots = Seq::new(alloc);
    for part in parts {
        let count = word_count(agreed.layouts(), part.ty);
        let slots = zeroes(alloc, body, count)?;
        let position = copy_position(alloc, part.position.as_slice())?;
        spots.push(Spot {
            position,
            ty: part.ty,
            slots,
        })?;
    }
    Ok(spots)
}

/// Slots for the parts that tests of some patterns may need saved: those at which a pattern looks, or below which one
/// does, directly below a part of a type with a leaf that takes subvalues apart.
///
/// # Errors
///
/// Want of memory.
pub fn give_spots_for(
    alloc: Global,
    body: &mut Body,
    agreed: &Agreed,
    pats: &[Pat],
) -> Result<Seq<Spot>, AllocError>
    ensures gives { IfOk result (λ spots. GivesSpots agreed.now body.old body.new spots) }
    ensures grows { OnOk result (Grows body.old.code body.new.code) }
{
    let parts = parts_to_save(alloc, agreed, pats)?;
    give_spots(alloc, body, agreed, parts.as_slice())
}
