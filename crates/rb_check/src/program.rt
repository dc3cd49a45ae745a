//! Programs: layouts' provenances, then functions, in the file's order.

ghost use Rattle.std.specs.Prelude.{map};
ghost use Rattle.rb_core.specs.Layouts.{provenances};
ghost use Rattle.rb_core.specs.TypedPrograms.{first_fault, function_fault, layout_fault, provenance_fault, rule_fault};
ghost use Rattle.rb_check.specs.inner.Answers.{AnswersFault, arm_fault};

use crate::expression::type_expression;
use crate::pattern::{bind_whole, repeated_param};
use rb_core::layout_decl::{Arm, LayTree, LayoutDecl};
use rb_core::program::{Fun, Program};
use rb_core::scope::Scope;
use rb_core::types::{DataDecl, Ty};
use rb_core::typing::TypeFault;
use std::alloc::Global;

/// The first fault in the layouts and the functions.
///
/// # Errors
///
/// That fault, `Mismatch`, `Arity` or `VariableTwice`; or want of memory.
pub fn check_rules(alloc: Global, program: &Program) -> Result<(), TypeFault>
    ensures { AnswersFault result (rule_fault program.now) }
{
    check_layouts(alloc, program.types.as_slice(), program.layouts.as_slice())?;
    check_functions(alloc, program, program.funs.as_slice())
}

// The first fault in the layouts.
fn check_layouts(alloc: Global, types: &[DataDecl], layouts: &[LayoutDecl]) -> Result<(), TypeFault>
    ensures { AnswersFault result (first_fault (map (layout_fault types.now) layouts.now)) }
{
    for layout in layouts {
        check_tree(alloc, types, layout.ty, &layout.tree)?;
    }
    Ok(())
}

// The first fault in the provenances of a layout of the data type with the number `ty`.
#[cycle(leaves)]
fn check_tree(alloc: Global, types: &[DataDecl], ty: u32, tree: &LayTree) -> Result<(), TypeFault>
    ensures { AnswersFault result
        (first_fault (map (provenance_fault types.now ty) (provenances tree.now))) }
{
    match tree {
        LayTree::Leaf(_, provenance, _) => {
            let mut bound = Scope::new(alloc);
            bind_whole(alloc, types, provenance, Ty::Named(ty), &mut bound)
        }
        LayTree::Split(_, arms, other) => {
            check_arms(alloc, types, ty, arms.as_slice())?;
            match other {
                None => Ok(()),
                Some(other) => check_tree(alloc, types, ty, other.get()),
            }
        }
    }
}

// The first fault in the provenances under the arms of a split.
#[cycle(leaves)]
fn check_arms(alloc: Global, types: &[DataDecl], ty: u32, arms: &[Arm]) -> Result<(), TypeFault>
    ensures { AnswersFault result (first_fault (map (arm_fault types.now ty) arms.now)) }
{
    for arm in arms {
        check_tree(alloc, types, ty, &arm.under)?;
    }
    Ok(())
}

// The first fault in some functions of the program.
fn check_functions(alloc: Global, program: &Program, funs: &[Fun]) -> Result<(), TypeFault>
    ensures { AnswersFault result
        (first_fault (map (function_fault program.now.types program.now.funs) funs.now)) }
{
    for fun in funs {
        check_function(alloc, program, fun)?;
    }
    Ok(())
}

// The first fault in a function: a parameter that stands twice, or one in its body.
fn check_function(alloc: Global, program: &Program, fun: &Fun) -> Result<(), TypeFault>
    ensures { AnswersFault result (function_fault program.now.types program.now.funs fun.now) }
{
    if let Some(at) = repeated_param(fun.params.as_slice()) {
        return Err(TypeFault::VariableTwice(at));
    }
    let mut scope = Scope::of_params(alloc, fun.params.as_slice())?;
    type_expression(alloc, program, &fun.body, Some(fun.result), &mut scope)?;
    Ok(())
}
