//! Functions, whose names become numbers: a variable gets that of its binder, a data type its
//! number in the tables. A binder is what binds a variable; it has a number in its function. A
//! frame has the binders of the parameters, a scope those round a place.

ghost use Rattle.std.specs.Prelude.{◌≡◌, ◌+◌, length, map, OnOk, IfErr};
ghost use Rattle.rb_names.specs.declared.fault.NameFault.TheVariants.{Memory};
ghost use Rattle.rb_names.specs.Answers.{AnswersNumbering};
ghost use Rattle.rb_names.specs.Numbering.{all_of, function_in_scope, numbered_function, numbered_param};
ghost use Rattle.rb_names.specs.Scopes.{inside, param_binders};
ghost use Rattle.rb_names.specs.inner.Frames.{scope_of, with_binders};

use crate::expression::number_expression;
use crate::fault::NameFault;
use crate::frame::Frame;
use crate::scope::Scope;
use crate::tables::Tables;
use crate::types::number_type;
use rb_core::program::{Fun, Param};
use rb_core::seq::Seq;
use rb_syntax::tree::{FunTree, ParamTree};
use std::alloc::Global;

/// A function, whose binders are numbered from 0, its parameters first.
///
/// # Errors
///
/// `Unknown` for the first name, from left to right, that stands for nothing; or want of memory.
pub fn number_function(alloc: Global, tables: &Tables, tree: &FunTree) -> Result<Fun, NameFault>
    ensures { AnswersNumbering result (numbered_function tables.now tree.now) }
{
    let mut scope = Scope::new(alloc);
    let mut next = 0;
    enter_params(alloc, &mut scope, tree.params.as_slice(), &mut next)?;
    number_within(alloc, tables, tree, &mut scope, &mut next)
}

// A function within the scope of its parameters; `next` is the number of the binder behind them.
fn number_within<'a>(
    alloc: Global,
    tables: &Tables,
    tree: &'a FunTree,
    scope: &mut Scope<'a>,
    next: &mut u32,
) -> Result<Fun, NameFault>
    ensures { AnswersNumbering result (function_in_scope tables.now (scope_of scope.old) next.old tree.now) }
{
    let params = number_params(alloc, tables, scope, tree.params.as_slice())?;
    let result = number_type(alloc, tables, &tree.result)?;
    let body = number_expression(alloc, tables, &tree.body, scope, next)?;
    let name = tree.name.text.copy(alloc)?;
    Ok(Fun {
        name,
        params,
        result,
        body,
    })
}

// Goes into the scope of parameters, which are numbered from `next` on; `next` is then the number
// of the binder that follows them. The fault is want of memory.
fn enter_params<'a>(
    alloc: Global,
    scope: &mut Scope<'a>,
    trees: &'a [ParamTree],
    next: &mut u32,
) -> Result<(), NameFault>
    ensures scope { OnOk result (scope_of scope.new ≡ inside (param_binders trees.now) next.old (scope_of scope.old)) }
    ensures next { OnOk result (next.new ≡ next.old + length (param_binders trees.now)) }
    ensures memory { IfErr result (λ e. e ≡ Memory) }
{
    let mut frame = Frame::new(alloc, *next);
    bind_params(&mut frame, trees)?;
    *next = frame.next;
    scope.enter(frame.binders)?;
    Ok(())
}

// Binds the names of parameters in a frame, each once, with its next numbers. An `Err` is want of
// memory.
fn bind_params<'a>(frame: &mut Frame<'a>, trees: &'a [ParamTree]) -> Result<(), NameFault>
    ensures ok { OnOk result (frame.new ≡ with_binders frame.old (map (λ p. p.var.text) trees.now)) }
    ensures memory { IfErr result (λ e. e ≡ Memory) }
{
    for tree in trees {
        frame.bind(tree.var.text.as_slice())?;
    }
    Ok(())
}

// A parameter with the numbers of its variable, which the scope has, and of its type. `Unknown`
// where no type has the name of its type; or want of memory.
fn number_param(
    alloc: Global,
    tables: &Tables,
    scope: &Scope,
    tree: &ParamTree,
) -> Result<Param, NameFault>
    ensures { AnswersNumbering result (numbered_param tables.now (scope_of scope.now) tree.now) }
{
    let ty = number_type(alloc, tables, &tree.ty)?;
    let var = scope.known(alloc, &tree.var)?;
    Ok(Param {
        at: tree.at,
        var,
        ty,
    })
}

// The parameters of a function, in their order, with the numbers of their variables, which the
// scope has, and of their types. `Unknown` for the first name that no type has; or want of memory.
fn number_params(
    alloc: Global,
    tables: &Tables,
    scope: &Scope,
    trees: &[ParamTree],
) -> Result<Seq<Param>, NameFault>
    ensures { AnswersNumbering result
        (all_of (map (numbered_param tables.now (scope_of scope.now)) trees.now)) }
{
    let mut params = Seq::new(alloc);
    for tree in trees {
        let param = number_param(alloc, tables, scope, tree)?;
        params.push(param)?;
    }
    Ok(params)
}
