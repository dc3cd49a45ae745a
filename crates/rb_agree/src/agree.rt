//! Whether the layouts of a program agree with its types. They do where they obey ten rules: A1,
//! that on shapes, comes first, and the others look at the flat forms of the layouts, `layouts`,
//! one for each type. A leaf is one of the forms in which a layout stores the values of its type. A
//! place is a type, a leaf or an item at which a rule is checked. A refusal names the rule, the
//! type, the leaf if the place has one, and how the rule fails. An `Err` of a private call is want
//! of memory.

ghost use Rattle.std.specs.Prelude.{◌≡◌, ◌++◌, length, IfErr, IfOk};
ghost use Rattle.rb_core.specs.TypedPrograms.{IsTyped};
ghost use Rattle.rb_layout.specs.A1.{A1};
ghost use Rattle.rb_layout.specs.Agreement.{AreAgreed};
ghost use Rattle.rb_layout.specs.Flattening.{AreInOrder};
ghost use Rattle.rb_agree.specs.Answers.{Finds, IsAgreeFault};
ghost use Rattle.rb_agree.specs.inner.Lists.{EachOf};
ghost use Rattle.rb_agree.specs.inner.Rules.{IsKnown, RuleIsReady, early_rules, late_rules, rules_spots};

use crate::fault::AgreeFault;
use crate::graphs::{flattening_graph, holding_graph};
use crate::leaves::all_leaves;
use crate::order::has_no_cycle;
use crate::pointers::pointer_marks;
use crate::rules::{Related, Rule, rules_fault};
use crate::shapes::shapes_fault;
use rb_core::program::Program;
use rb_core::seq::Seq;
use rb_core::typed::Covered;
use rb_layout::evidence::Refused;
use rb_layout::flatten;
use rb_layout::layout::Layout;
use std::alloc::{AllocError, Global};

// How the layouts of a program are related: their written items, pointers and graphs, found once
// for all rules.
fn relate(alloc: Global, program: &Program, layouts: &[Layout]) -> Result<Related, AllocError>
    requires typed { IsTyped program.now }
    requires count { length layouts.now ≡ length program.now.types }
    ensures { IfOk result (IsKnown program.now layouts.now) }
{
    let written = all_leaves(alloc, program.layouts.as_slice(), layouts.len())?;
    let marks = pointer_marks(alloc, layouts)?;
    let flattened = flattening_graph(alloc, layouts)?;
    let held = holding_graph(alloc, program.types.as_slice(), layouts)?;
    let flattens_in_order = has_no_cycle(alloc, flattened.as_slice())?;
    let holds_in_order = has_no_cycle(alloc, held.as_slice())?;
    Ok(Related {
        written,
        marks,
        flattened,
        held,
        flattens_in_order,
        holds_in_order,
    })
}

// The refusal by the first place that fails a rule between that on shapes and that on tests; None
// where they hold at all places.
fn early_fault(
    alloc: Global,
    program: &Program,
    layouts: &[Layout],
    related: &Related,
) -> Result<Option<Refused>, AllocError>
    requires { IsKnown program.now layouts.now related.now }
    ensures { IfOk result (Finds program.now layouts.now (rules_spots program.now.layouts layouts.now early_rules)) }
{
    let rules = [
        Rule::Roots,
        Rule::Parts,
        Rule::Blocks,
        Rule::Values,
        Rule::Fields,
    ];
    rules_fault(alloc, program, layouts, related, &rules)
}

// The refusal by the first place that fails a rule from that on tests on; None where they hold at
// all places. All leaves have to be readable, that is, to have at most 64 words outside of blocks
// and in each block, each of at most 64 bits, as they have where the rules before these hold.
fn late_fault(
    alloc: Global,
    program: &Program,
    layouts: &[Layout],
    related: &Related,
) -> Result<Option<Refused>, AllocError>
    requires known { IsKnown program.now layouts.now related.now }
    requires ready { EachOf (RuleIsReady layouts.now) late_rules }
    ensures { IfOk result (Finds program.now layouts.now (rules_spots program.now.layouts layouts.now late_rules)) }
{
    let rules = [Rule::Tests, Rule::Splits, Rule::Flattening, Rule::Holding];
    rules_fault(alloc, program, layouts, related, &rules)
}

// The refusal by the first place that fails a rule behind that on shapes; None where they hold at
// all places.
fn layouts_fault(
    alloc: Global,
    program: &Program,
    layouts: &[Layout],
) -> Result<Option<Refused>, AllocError>
    requires typed { IsTyped program.now }
    requires shapes { A1 program.now }
    requires order { AreInOrder program.now layouts.now }
    ensures { IfOk result (Finds program.now layouts.now
        (rules_spots program.now.layouts layouts.now early_rules
        ++ rules_spots program.now.layouts layouts.now late_rules)) }
{
    let related = relate(alloc, program, layouts)?;
    if let Some(refused) = early_fault(alloc, program, layouts, &related)? {
        return Ok(Some(refused));
    }
    late_fault(alloc, program, layouts, &related)
}

/// The flat forms of a program's layouts, in the types' order, where they agree with its types.
///
/// # Errors
///
/// `Rule` where a rule fails: the first place that fails, by rule, type, leaf and item, and why. `Memory`
/// for want of memory, which says nothing of the layouts.
pub fn agree(alloc: Global, covered: &Covered) -> Result<Seq<Layout>, AgreeFault>
    ensures agreed { IfOk result (AreAgreed covered.now.program) }
    ensures refused { IfErr result (IsAgreeFault covered.now.program) }
{
    let program = covered.program();
    if let Some(refused) = shapes_fault(program)? {
        return Err(AgreeFault::Rule(refused));
    }
    let layouts = flatten(alloc, covered)?;
    if let Some(refused) = layouts_fault(alloc, program, layouts.as_slice())? {
        return Err(AgreeFault::Rule(refused));
    }
    Ok(layouts)
}
