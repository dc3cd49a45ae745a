//! Code that constructs a value of its fields. A leaf is one of the forms in which a layout stores
//! the values of a data type; its provenance is the pattern of these values. A way is where runs
//! have come to one leaf: an open jump, the leaf's number, and parts of the value in slots; a hole
//! is such a jump. The arm of a way is the code behind it, which makes the value in that leaf. The
//! arms meet behind the last one, with the value in the slots in which the first one has it.

ghost use Rattle.std.specs.Prelude.{◌≡◌, ℕ, Some, IfOk, OnOk, length};
ghost use Rattle.std.specs.Option.{option_copied};
ghost use Rattle.rb_layout.specs.declared.layout.Leaf.{Leaf as LeafValue};
ghost use Rattle.rb_core.specs.declared.types.Ty.TheVariants.{Named};
ghost use Rattle.rb_target.specs.Growth.{Grows};
ghost use Rattle.rb_fragment.specs.Arms.{AreHoles, ArmsAre, IsJoin};
ghost use Rattle.rb_compose.specs.Making.{MakesLeaf};
ghost use Rattle.rb_fetch.specs.Constructing.{Constructs};
ghost use Rattle.rb_fetch.specs.inner.Choosing.{AreOpen, parts_from};
ghost use Rattle.rb_fetch.specs.inner.Constructing.{AreMet, EmitsArm, EmitsArms, IsAlone, IsAloneIn, IsMet, WaysMeet, meeting_slots, with_moves};

use crate::choice::{Choices, Way, choices_of};
use crate::choosing::construct_at;
use crate::heads::heads;
use crate::parts::{is_leaf_for, parts_of};
use crate::rebuild::DEPTH;
use rb_compose::leaf::emit_leaf;
use rb_core::pattern::Pat;
use rb_core::seq::Seq;
use rb_core::types::{ConRef, Ty};
use rb_fragment::emit::emit_copies;
use rb_fragment::held::Held;
use rb_fragment::patch::close_match;
use rb_layout::agreed::Agreed;
use rb_layout::layout::Leaf;
use rb_target::body::{Body, Hole};
use rb_target::instr::Instr;
use std::alloc::{AllocError, Global};

/// Code that constructs a value by the constructor `con`, of the values `args`, which are in slots,
/// one a field. Each matches the pattern that is `shown` of it; a wildcard shows nothing. `agreed`
/// has the program and its layouts. Answers the value, in new slots.
///
/// # Errors
///
/// Want of memory.
pub fn construct(
    alloc: Global,
    body: &mut Body,
    agreed: &Agreed,
    con: ConRef,
    args: &[Held],
    shown: &[Pat],
) -> Result<Held, AllocError>
    ensures constructs { IfOk result
        (λ held. Constructs agreed.now con args.now shown.now body.old body.new held) }
    ensures grows { OnOk result (Grows body.old.code body.new.code) }
{
    let held = construct_at(alloc, body, agreed, DEPTH, con, args, shown)?;
    Ok(held)
}

/// The first of `leaves` for the values of a constructor, by number, where its provenance has no
/// constructor below its root: it is the leaf of all its values then. None where it has one there,
/// and where no leaf is for the constructor.
pub(crate) fn alone(alloc: Global, leaves: &[Leaf], con: u32) -> Result<Option<&Leaf>, AllocError>
    ensures { IfOk result (λ found. (leaf : LeafValue) → option_copied found ≡ Some leaf
        → IsAlone con leaves.now leaf) }
{
    for leaf in leaves {
        if is_leaf_for(leaf, con) {
            let places = heads(alloc, leaf)?;
            if places.is_empty() {
                return Ok(Some(leaf));
            }
            return Ok(None);
        }
    }
    Ok(None)
}

/// The leaf of all values of the constructor `con`, where `alone` finds it among those of the
/// type's layout; None where there are more.
///
/// # Errors
///
/// Want of memory; the same answer where the type has no layout.
pub(crate) fn alone_in(
    alloc: Global,
    agreed: &Agreed,
    con: ConRef,
) -> Result<Option<&Leaf>, AllocError>
    ensures { IfOk result (λ found. (leaf : LeafValue) → option_copied found ≡ Some leaf
        → IsAloneIn agreed.now con leaf) }
{
    let _typed = agreed.covered().program();
    let Some(layout) = agreed.layouts().get(con.ty as usize) else {
        return Err(AllocError);
    };
    let found = alone(alloc, layout.leaves.as_slice(), con.con)?;
    Ok(found)
}

/// Code that makes a value in the one leaf for its constructor, from the values of its fields, in
/// new slots.
pub(crate) fn emit_alone(
    alloc: Global,
    body: &mut Body,
    leaf: &Leaf,
    con: ConRef,
    args: &[Held],
) -> Result<Held, AllocError>
    ensures makes { IfOk result (λ held. (held.ty ≡ Named con.ty)
        × MakesLeaf leaf.now (parts_from 0 args.now) body.old body.new held.slots) }
    ensures grows { OnOk result (Grows body.old.code body.new.code) }
{
    let subs = parts_of(alloc, args)?;
    let slots = emit_leaf(alloc, body, leaf, subs.as_slice())?;
    Ok(Held {
        ty: Ty::Named(con.ty),
        slots,
    })
}

// The slots in which an arm leaves its words, and its open jump to where all arms meet.
#[derive(Drop)]
struct Met {
    into: Seq<usize>,
    join: Hole,
}

// Arms, one behind the other: the slots in which they leave their words, once there is an arm,
// their open jumps, and the numbers of the instructions at which they begin.
#[derive(Drop)]
struct Arms {
    into: Option<Seq<usize>>,
    joins: Seq<Hole>,
    starts: Seq<usize>,
}

/// Code behind the choice of a leaf: one arm a way, which makes the value in the leaf of its way;
/// `leaves` are all those of the type's layout. All meet behind the last one, with the value in the
/// same slots. Want of memory is the answer where there are no ways.
pub(crate) fn emit_ways(
    alloc: Global,
    body: &mut Body,
    leaves: &[Leaf],
    con: ConRef,
    choices: Choices,
) -> Result<Held, AllocError>
    requires holes { (from : ℕ) × AreHoles from (length choices.ways) body.old.code choices.holes }
    ensures meets { IfOk result (λ held. WaysMeet con.ty leaves.now choices body.old body.new held) }
{
    let Choices { holes, ways } = choices;
    let arms = emit_arms(alloc, body, con.ty, leaves, ways.as_slice())?;
    let Arms {
        into,
        joins,
        starts,
    } = arms;
    let Some(slots) = into else {
        return Err(AllocError);
    };
    close_match(
        alloc,
        body,
        holes.as_slice(),
        starts.as_slice(),
        joins.as_slice(),
    )?;
    Ok(Held {
        ty: Ty::Named(con.ty),
        slots,
    })
}

/// What `emit_ways` appends, for the choice that these ways are and the leaves of the layout of the
/// constructor's type. Want of memory is the answer where there are no ways, or no layout.
pub(crate) fn emit_choices(
    alloc: Global,
    body: &mut Body,
    agreed: &Agreed,
    con: ConRef,
    ways: Seq<Way>,
) -> Result<Held, AllocError>
    requires open { (from : ℕ) × AreOpen from body.old.code ways }
    ensures { IfOk result (λ held. AreMet agreed.now con.ty ways body.old body.new held) }
{
    let _typed = agreed.covered().program();
    let Some(layout) = agreed.layouts().get(con.ty as usize) else {
        return Err(AllocError);
    };
    let choices = choices_of(alloc, ways)?;
    let held = emit_ways(alloc, body, layout.leaves.as_slice(), con, choices)?;
    Ok(held)
}

// The arms of the ways, one behind the other, each with its words in the slots of the first one.
// `leaves` are those of the layout of type `ty`. Without ways there is no code.
fn emit_arms(
    alloc: Global,
    body: &mut Body,
    ty: u32,
    leaves: &[Leaf],
    ways: &[Way],
) -> Result<Arms, AllocError>
    ensures emits { IfOk result (λ r. EmitsArms ty leaves.now ways.now
        (length ways.now) body.old body.new r.into r.joins r.starts) }
    ensures are { IfOk result (λ r. ArmsAre (length ways.now) body.old body.new r.joins r.starts) }
{
    let mut starts = Seq::new(alloc);
    let mut joins = Seq::new(alloc);
    let mut into = None;
    for way in ways {
        starts.push(body.len())?;
        let met = emit_arm(alloc, body, ty, leaves, way, into)?;
        joins.push(met.join)?;
        into = Some(met.into);
    }
    Ok(Arms {
        into,
        joins,
        starts,
    })
}

// One arm: it makes the leaf of its way and leaves the words in the slots `into`, where the arms
// before it left theirs; those of the first arm, for which there is no `into`, stay in their own
// slots. Want of memory is the answer where `leaves` have no leaf of the way's number.
fn emit_arm(
    alloc: Global,
    body: &mut Body,
    ty: u32,
    leaves: &[Leaf],
    way: &Way,
    into: Option<Seq<usize>>,
) -> Result<Met, AllocError>
    ensures emits { IfOk result (λ r. EmitsArm ty leaves.now way.now into body.old body.new r) }
    ensures join { IfOk result (λ r. IsJoin (length body.old.code) body.new.code r.join) }
    ensures grows { OnOk result (Grows body.old.code body.new.code) }
{
    let Some(leaf) = leaves.get(way.leaf) else {
        return Err(AllocError);
    };
    let slots = emit_leaf(alloc, body, leaf, way.fields.as_slice())?;
    let met = emit_meeting(body, into, slots)?;
    Ok(met)
}

// Behind an arm's words, which are in `slots`: they go to the slots `into`, where the arms before
// it left theirs, or stay where it is the first. Then comes an open jump.
fn emit_meeting(
    body: &mut Body,
    into: Option<Seq<usize>>,
    slots: Seq<usize>,
) -> Result<Met, AllocError>
    ensures { IfOk result (λ r. IsMet into slots body.old body.new r) }
{
    let into = emit_moved(body, into, slots)?;
    let pc = body.len();
    body.push(Instr::Jump(pc + 1))?;
    let join = Hole {
        pc,
        arm: None,
        leaf: 0,
    };
    Ok(Met { into, join })
}

// The words of the first arm, for which there is no `into`, stay in their slots, and those of the
// others are copied to the slots `into`. Answers the slots that have them then.
fn emit_moved(
    body: &mut Body,
    into: Option<Seq<usize>>,
    slots: Seq<usize>,
) -> Result<Seq<usize>, AllocError>
    ensures shared { IfOk result (λ xs. xs ≡ meeting_slots into slots) }
    ensures code { OnOk result (body.new ≡ with_moves body.old into slots) }
{
    match into {
        None => Ok(slots),
        Some(into) => {
            emit_copies(body, into.as_slice(), slots.as_slice())?;
            Ok(into)
        }
    }
}
