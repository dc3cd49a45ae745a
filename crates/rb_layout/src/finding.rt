//! The goals on which it rests whether a word never has a literal: all of them, each once. A
//! literal is a number in a range of bits, and a goal asks whether a root word of a data type never
//! has one. A goal rests on those that the parts of its root word give, in each leaf of its type: a
//! part with a word of a field asks the same of that word, for the bits where it meets the range.
//! What fails, fails for want of memory.

ghost use Rattle.std.specs.Prelude.{◌≡◌, OnOk};
ghost use Rattle.rb_layout.specs.inner.Barring.{position_type, IsAsked, AreAsked, goal_in};
ghost use Rattle.rb_layout.specs.inner.Finding.{with_found, with_parts, with_leaf, with_leaves, with_below, AreFresh, AreFound};

use crate::goals::{Goal, Goals, Literal};
use crate::layout::{Layout, Leaf, Part};
use crate::part_goals::goal_in;
use rb_core::pattern::Pat;
use rb_core::types::DataDecl;
use std::alloc::AllocError;

// Adds the goal that a part gives for a literal. Adds none where the part has no word of a data
// field, or does not meet the literal's range.
fn add_part(
    types: &[DataDecl],
    prov: &Pat,
    part: &Part,
    literal: Literal,
    entries: &mut Goals,
) -> Result<(), AllocError>
    requires { IsAsked literal }
    ensures { OnOk result (entries.new
        ≡ with_found entries.old (goal_in (position_type types.now prov.now) literal part.now)) }
{
    match goal_in(types, prov, part, literal) {
        None => Ok(()),
        Some(goal) => entries.add(goal),
    }
}

/// Adds the goals that a word's parts give for a literal, in a leaf with this provenance.
#[tactic(auto, using(crate::proofs::FindLemmas::finding))]
pub(crate) fn add_parts(
    types: &[DataDecl],
    prov: &Pat,
    parts: &[Part],
    literal: Literal,
    entries: &mut Goals,
) -> Result<(), AllocError>
    requires { IsAsked literal }
    ensures { OnOk result (entries.new
        ≡ with_parts (position_type types.now prov.now) literal entries.old parts.now) }
{
    for part in parts {
        add_part(types, prov, part, literal, entries)?;
    }
    Ok(())
}

// Adds the goals that the parts of a goal's root word give in one leaf. Adds none where the leaf
// has no such word.
fn add_leaf(
    types: &[DataDecl],
    leaf: &Leaf,
    goal: &Goal,
    entries: &mut Goals,
) -> Result<(), AllocError>
    requires { IsAsked goal.now.literal }
    ensures { OnOk result (entries.new ≡ with_leaf types.now goal.now entries.old leaf.now) }
{
    match leaf.root.get(goal.word as usize) {
        None => Ok(()),
        Some(word) => add_parts(
            types,
            &leaf.prov,
            word.parts.as_slice(),
            goal.literal,
            entries,
        ),
    }
}

// Adds the goals that the parts of a goal's root word give in each of the leaves.
#[tactic(auto, using(crate::proofs::FindLemmas::finding))]
fn add_leaves(
    types: &[DataDecl],
    leaves: &[Leaf],
    goal: &Goal,
    entries: &mut Goals,
) -> Result<(), AllocError>
    requires { IsAsked goal.now.literal }
    ensures { OnOk result (entries.new ≡ with_leaves types.now goal.now entries.old leaves.now) }
{
    for leaf in leaves {
        add_leaf(types, leaf, goal, entries)?;
    }
    Ok(())
}

// Adds the goals on which a goal rests in one step. Adds none where its type has no layout.
fn add_below(
    types: &[DataDecl],
    layouts: &[Layout],
    goal: &Goal,
    entries: &mut Goals,
) -> Result<(), AllocError>
    requires { IsAsked goal.now.literal }
    ensures { OnOk result (entries.new ≡ with_below types.now layouts.now entries.old goal.now) }
{
    match layouts.get(goal.ty as usize) {
        None => Ok(()),
        Some(layout) => add_leaves(types, layout.leaves.as_slice(), goal, entries),
    }
}

/// Adds all goals on which the entries rest, in any number of steps. It looks at each entry once,
/// at those that it adds after the others. There is no memory for as many goals as `usize` counts.
pub(crate) fn find_all(
    types: &[DataDecl],
    layouts: &[Layout],
    entries: &mut Goals,
) -> Result<(), AllocError>
    requires asked { AreAsked entries.old }
    requires fresh { AreFresh entries.old }
    ensures { OnOk result (AreFound types.now layouts.now entries.old entries.new) }
{
    for i in 0..usize::MAX {
        let goal = match entries.get(i) {
            None => return Ok(()),
            Some(entry) => entry.goal,
        };
        add_below(types, layouts, &goal, entries)?;
    }
    Err(AllocError)
}
