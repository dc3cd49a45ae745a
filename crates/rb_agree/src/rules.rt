//! The rules behind that on shapes, each at its places in their order: by type, and in a type those
//! without a leaf before those with one. A place is a type, a leaf or an item at which a rule is
//! checked. An open position is a wildcard or a variable in a leaf's provenance, the pattern of its
//! values. Marks have one truth value for each leaf, by its number; where one is off, the rule is
//! known to hold at the leaf. `layouts` are flat forms, one for each type. A call that says how
//! something fails, or that gives a refusal, answers None where nothing fails; its `Err` is want of
//! memory.

ghost use Rattle.std.specs.Prelude.{◌≡◌, ℕ, IfOk, List, MatchOption, Some, slice_get};
ghost use Rattle.std.specs.Bool.{OnTrue};
ghost use Rattle.rb_layout.specs.declared.layout.Layout.{Layout};
ghost use Rattle.rb_layout.specs.A9.{FailsFlattening, Flattens};
ghost use Rattle.rb_layout.specs.A10.{FailsHolding, HoldsField};
ghost use Rattle.rb_layout.specs.Cycles.{HasNoCycle};
ghost use Rattle.rb_layout.specs.Items.{items_of, leaves_in};
ghost use Rattle.rb_layout.specs.Flattening.{decl_of};
ghost use Rattle.rb_layout.specs.Spots.{part_spots};
ghost use Rattle.rb_agree.specs.Answers.{Finds};
ghost use Rattle.rb_agree.specs.Written.{shown_items};
ghost use Rattle.rb_agree.specs.inner.Lists.{EachOf};
ghost use Rattle.rb_agree.specs.inner.Leaves.{items_under, shown_leaves};
ghost use Rattle.rb_agree.specs.inner.Passing.{IsOff};
ghost use Rattle.rb_agree.specs.inner.Rules.{FindsAtLeaf, FindsAtLeaves, FindsAtType, RuleFinds, IsKnown, RuleIsReady, IsRuled, RuleHoldsWhereOff, refusal, rule_number, rule_spots, rules_spots};

use crate::blocks::blocks_fault;
use crate::graphs::{flattening_fault, holding_fault};
use crate::held::held_fault;
use crate::items::Item;
use crate::leaves::{items_at, leaves_at};
use crate::parts::item_fault;
use crate::passing::failure_marks;
use crate::pointers::pointer_fault;
use crate::roots::root_fault;
use crate::sharing::sharing_marks;
use crate::splits::splits_fault;
use crate::tests::tests_fault;
use crate::values::{apart_fault, complete_fault};
use rb_core::program::Program;
use rb_core::seq::Seq;
use rb_layout::evidence::{Refused, Why};
use rb_layout::layout::{Layout, Leaf};
use rb_layout::numbers::number_of;
use std::alloc::{AllocError, Global};

/// A rule.
#[derive(Clone, Copy)]
pub enum Rule {
    /// Root words have the shape's widths.
    Roots,
    /// Parts lie in their words, are disjoint, and fit what they hold.
    Parts,
    /// Blocks and pointers are as they must be.
    Blocks,
    /// Each value has exactly one leaf.
    Values,
    /// Each open position is held exactly once.
    Fields,
    /// Each leaf passes the tests above it.
    Tests,
    /// Splits have distinct literals that fit, and an arm.
    Splits,
    /// Flattening has no cycle, and flattened types have no pointer.
    Flattening,
    /// Holding in root words has no cycle.
    Holding,
}

/// How all layouts are related.
#[derive(Drop)]
pub struct Related {
    /// For each type the items of each leaf of its layout.
    pub written: Seq<Seq<Seq<Item>>>,
    /// For each type whether a leaf of its layout has a pointer.
    pub marks: Seq<bool>,
    /// For each type those that it flattens.
    pub flattened: Seq<Seq<u32>>,
    /// For each type those of whose fields its root words have words.
    pub held: Seq<Seq<u32>>,
    /// Whether flattening is known to have no cycle.
    pub flattens_in_order: bool,
    /// Whether holding in root words is known to have no cycle.
    pub holds_in_order: bool,
}

/// A type's layout that is looked at under one rule, and how all layouts of its program are
/// related: `layouts` are the flat forms of all, `layout` is that of type number `ty`.
#[derive(Clone, Copy)]
pub struct Ruled<'a> {
    pub program: &'a Program,
    pub layouts: &'a [Layout],
    pub related: &'a Related,
    pub rule: Rule,
    pub ty: u32,
    pub layout: &'a Layout,
}

// The number by which a refusal names a rule: 2 to 10.
fn rule_number(rule: Rule) -> u8
    ensures { result ≡ rule_number rule }
{
    match rule {
        Rule::Roots => 2,
        Rule::Parts => 3,
        Rule::Blocks => 4,
        Rule::Values => 5,
        Rule::Fields => 6,
        Rule::Tests => 7,
        Rule::Splits => 8,
        Rule::Flattening => 9,
        Rule::Holding => 10,
    }
}

// How the first item of a leaf that fails the rule on parts does; None where all items keep it.
fn items_fault(
    alloc: Global,
    program: &Program,
    leaf: &Leaf,
    items: &[Item],
) -> Result<Option<Why>, AllocError>
    ensures { IfOk result (λ found. (layouts : List Layout) (t n : ℕ)
        → Finds program.now layouts (part_spots t n leaf.now 0 (shown_items items.now)) (refusal 3 t (Some n) found)) }
{
    for i in 0..items.len() {
        let number = number_of(i)?;
        if let Some(why) = item_fault(
            alloc,
            program.types.as_slice(),
            program.layouts.as_slice(),
            &leaf.prov,
            number,
            &items[i],
        )? {
            return Ok(Some(why));
        }
    }
    Ok(None)
}

// How leaf `n` of a type's layout, with these items, fails a rule; None also for a rule that has no
// places at leaves.
fn leaf_fault(
    alloc: Global,
    ruled: &Ruled,
    n: usize,
    leaf: &Leaf,
    items: &[Item],
) -> Result<Option<Why>, AllocError>
    requires ruled { IsRuled ruled.now }
    requires leaf { slice_get ruled.now.layout.now.leaves n ≡ Some leaf.now }
    requires items { shown_items items.now ≡ items_of ruled.now.program.now.layouts ruled.now.ty n }
    requires ready { RuleIsReady ruled.now.layouts.now ruled.now.rule }
    ensures { IfOk result (FindsAtLeaf ruled.now n leaf.now) }
{
    let program = ruled.program;
    let layout = ruled.layout;
    match ruled.rule {
        Rule::Roots => root_fault(layout.shape.as_slice(), leaf),
        Rule::Parts => items_fault(alloc, program, leaf, items),
        Rule::Blocks => Ok(blocks_fault(leaf)),
        Rule::Values => apart_fault(alloc, program.types.as_slice(), ruled.ty, layout, n, leaf),
        Rule::Fields => held_fault(alloc, program, leaf, items),
        Rule::Tests => tests_fault(
            alloc,
            program.types.as_slice(),
            ruled.layouts,
            &layout.tree,
            n,
            leaf,
        ),
        Rule::Splits => Ok(None),
        Rule::Flattening => Ok(pointer_fault(ruled.layouts, ruled.related.marks.as_slice(), leaf)),
        Rule::Holding => Ok(None),
    }
}

// A mark for each leaf of a type's layout, off only where a rule holds there; none where nothing is known.
fn doubts(alloc: Global, ruled: &Ruled) -> Result<Seq<bool>, AllocError>
    requires ruled { IsRuled ruled.now }
    requires ready { RuleIsReady ruled.now.layouts.now ruled.now.rule }
    ensures { IfOk result (RuleHoldsWhereOff ruled.now) }
{
    match ruled.rule {
        Rule::Roots => Ok(Seq::new(alloc)),
        Rule::Parts => Ok(Seq::new(alloc)),
        Rule::Blocks => Ok(Seq::new(alloc)),
        Rule::Values => sharing_marks(
            alloc,
            ruled.program.types.as_slice(),
            ruled.ty,
            ruled.layout,
        ),
        Rule::Fields => Ok(Seq::new(alloc)),
        Rule::Tests => failure_marks(
            alloc,
            ruled.program.types.as_slice(),
            ruled.layouts,
            ruled.layout,
        ),
        Rule::Splits => Ok(Seq::new(alloc)),
        Rule::Flattening => Ok(Seq::new(alloc)),
        Rule::Holding => Ok(Seq::new(alloc)),
    }
}

// Whether leaf `n` has a mark that is off; false where it has no mark.
fn is_off(marks: &[bool], n: usize) -> bool
    ensures { OnTrue result (IsOff marks.now n) }
{
    match marks.get(n) {
        None => false,
        Some(mark) => !*mark,
    }
}

// How leaf `n` of a type's layout, with these items, fails a rule; None where its mark is off. A
// leaf without a mark is looked at.
fn doubted_fault(
    alloc: Global,
    ruled: &Ruled,
    n: usize,
    leaf: &Leaf,
    items: &[Item],
    marks: &[bool],
) -> Result<Option<Why>, AllocError>
    requires ruled { IsRuled ruled.now }
    requires leaf { slice_get ruled.now.layout.now.leaves n ≡ Some leaf.now }
    requires items { shown_items items.now ≡ items_of ruled.now.program.now.layouts ruled.now.ty n }
    requires ready { RuleIsReady ruled.now.layouts.now ruled.now.rule }
    requires marks { RuleHoldsWhereOff ruled.now marks.now }
    ensures { IfOk result (FindsAtLeaf ruled.now n leaf.now) }
{
    if is_off(marks, n) {
        return Ok(None);
    }
    leaf_fault(alloc, ruled, n, leaf, items)
}

// A cycle of flattening through a type: it is searched for where it is not known that there is none.
fn flat_cycle(
    alloc: Global,
    program: &Program,
    layouts: &[Layout],
    related: &Related,
    ty: u32,
) -> Result<Option<Why>, AllocError>
    requires { IsKnown program.now layouts.now related.now }
    ensures { IfOk result (λ found. MatchOption found
        (HasNoCycle (Flattens layouts.now) ty) (FailsFlattening layouts.now ty)) }
{
    if related.flattens_in_order {
        return Ok(None);
    }
    flattening_fault(alloc, layouts, related.flattened.as_slice(), ty)
}

// A cycle of types that hold each other in root words, through a type: it is searched for where it
// is not known that there is none.
fn hold_cycle(
    alloc: Global,
    program: &Program,
    layouts: &[Layout],
    related: &Related,
    ty: u32,
) -> Result<Option<Why>, AllocError>
    requires { IsKnown program.now layouts.now related.now }
    ensures { IfOk result (λ found. MatchOption found
        (HasNoCycle (HoldsField program.now.types layouts.now) ty)
        (FailsHolding program.now.types layouts.now ty)) }
{
    if related.holds_in_order {
        return Ok(None);
    }
    holding_fault(
        alloc,
        program.types.as_slice(),
        layouts,
        related.held.as_slice(),
        ty,
    )
}

// How a type fails a rule at the place that is the type itself; None for a rule that has places at
// leaves alone.
fn type_fault(alloc: Global, ruled: &Ruled) -> Result<Option<Why>, AllocError>
    requires ruled { IsRuled ruled.now }
    ensures { IfOk result (FindsAtType ruled.now) }
{
    let program = ruled.program;
    let layouts = ruled.layouts;
    let related = ruled.related;
    match ruled.rule {
        Rule::Roots => Ok(None),
        Rule::Parts => Ok(None),
        Rule::Blocks => Ok(None),
        Rule::Values => complete_fault(alloc, program.types.as_slice(), ruled.ty, ruled.layout),
        Rule::Fields => Ok(None),
        Rule::Tests => Ok(None),
        Rule::Splits => splits_fault(alloc, ruled.layout),
        Rule::Flattening => flat_cycle(alloc, program, layouts, related, ruled.ty),
        Rule::Holding => hold_cycle(alloc, program, layouts, related, ruled.ty),
    }
}

// The refusal by the first leaf of a type's layout that fails a rule, where `written` has the items
// of each leaf.
fn leaves_fault(
    alloc: Global,
    ruled: &Ruled,
    written: &[Seq<Item>],
    marks: &[bool],
) -> Result<Option<Refused>, AllocError>
    requires ruled { IsRuled ruled.now }
    requires written { shown_leaves written.now
        ≡ items_under (leaves_in (decl_of ruled.now.program.now.layouts ruled.now.ty)) }
    requires ready { RuleIsReady ruled.now.layouts.now ruled.now.rule }
    requires marks { RuleHoldsWhereOff ruled.now marks.now }
    ensures { IfOk result (FindsAtLeaves ruled.now) }
{
    let leaves = ruled.layout.leaves.as_slice();
    for n in 0..leaves.len() {
        let items = items_at(written, n);
        let leaf = number_of(n)?;
        if let Some(why) = doubted_fault(alloc, ruled, n, &leaves[n], items, marks)? {
            return Ok(Some(Refused {
                rule: rule_number(ruled.rule),
                ty: ruled.ty,
                leaf: Some(leaf),
                why,
            }));
        }
    }
    Ok(None)
}

// The refusal by the first place of a type that fails a rule: the type itself, and then its leaves.
fn layout_fault(alloc: Global, ruled: &Ruled) -> Result<Option<Refused>, AllocError>
    requires ruled { IsRuled ruled.now }
    requires ready { RuleIsReady ruled.now.layouts.now ruled.now.rule }
    ensures { IfOk result (RuleFinds ruled.now) }
{
    if let Some(why) = type_fault(alloc, ruled)? {
        return Ok(Some(Refused {
            rule: rule_number(ruled.rule),
            ty: ruled.ty,
            leaf: None,
            why,
        }));
    }
    let marks = doubts(alloc, ruled)?;
    leaves_fault(
        alloc,
        ruled,
        leaves_at(ruled.related.written.as_slice(), ruled.ty),
        marks.as_slice(),
    )
}

// The refusal by the first place that fails this rule, type by type.
fn rule_fault(
    alloc: Global,
    program: &Program,
    layouts: &[Layout],
    related: &Related,
    rule: Rule,
) -> Result<Option<Refused>, AllocError>
    requires known { IsKnown program.now layouts.now related.now }
    requires ready { RuleIsReady layouts.now rule }
    ensures { IfOk result (Finds program.now layouts.now (rule_spots program.now.layouts layouts.now rule)) }
{
    for t in 0..layouts.len() {
        let ty = number_of(t)?;
        let ruled = Ruled {
            program,
            layouts,
            related,
            rule,
            ty,
            layout: &layouts[t],
        };
        if let Some(refused) = layout_fault(alloc, &ruled)? {
            return Ok(Some(refused));
        }
    }
    Ok(None)
}

/// The refusal by the first place that fails one of these rules, one rule after the other.
///
/// # Errors
///
/// Want of memory.
pub(crate) fn rules_fault(
    alloc: Global,
    program: &Program,
    layouts: &[Layout],
    related: &Related,
    rules: &[Rule],
) -> Result<Option<Refused>, AllocError>
    requires known { IsKnown program.now layouts.now related.now }
    requires ready { EachOf (RuleIsReady layouts.now) rules.now }
    ensures { IfOk result (Finds program.now layouts.now (rules_spots program.now.layouts layouts.now rules.now)) }
{
    for rule in rules {
        if let Some(refused) = rule_fault(alloc, program, layouts, related, *rule)? {
            return Ok(Some(refused));
        }
    }
    Ok(None)
}
