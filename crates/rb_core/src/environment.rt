//! The variables of a function that runs: their types and their values.

ghost use Rattle.std.specs.Prelude.{◌≡◌, ◌++◌, IfOk, OnOk, map, take, length};
ghost use Rattle.rb_core.specs.Matching.{all_bindings, bindings};
ghost use Rattle.rb_core.specs.Typing.{binder_of};
ghost use Rattle.rb_core.specs.Inference.{with_binder, binders};
ghost use Rattle.rb_core.specs.Meaning.{value_in, with_value, argument_bindings};

use crate::binding::Binding;
use crate::inference::bind_types;
use crate::pattern::Pat;
use crate::program::Param;
use crate::scope::Scope;
use crate::seq::Seq;
use crate::types::{DataDecl, Ty};
use crate::typing::Binder;
use crate::value::Value;
use std::alloc::{AllocError, Global};

/// A function that runs, by its number, with the types (`scope`) and the values of the variables in
/// scope, from the outermost binder to the innermost.
#[derive(Drop)]
pub(crate) struct Frame {
    pub(crate) fun: u32,
    pub(crate) scope: Scope,
    pub(crate) values: Seq<Binding>,
}

/// How many variables a frame has, counted in its scope and in its values.
#[derive(Clone, Copy)]
pub(crate) struct Depth {
    scope: usize,
    values: usize,
}

impl Frame {
    /// The frame of a call of function `fun`: its parameters bound to copies of the arguments.
    pub(crate) fn of_call(
        alloc: Global,
        fun: u32,
        params: &[Param],
        args: &[Value],
    ) -> Result<Self, AllocError>
        ensures { IfOk result (λ frame. frame ≡ record {
          fun = fun;
          scope = map binder_of params.now;
          values = argument_bindings params.now args.now;
        }) }
    {
        let scope = Scope::of_params(alloc, params)?;
        let values = bind_arguments(alloc, params, args)?;
        Ok(Frame { fun, scope, values })
    }

    /// How many variables there are now, to go back to with `truncate`.
    pub(crate) fn depth(&self) -> Depth
        ensures scope { result.scope ≡ length self.now.scope }
        ensures values { result.values ≡ length self.now.values }
    {
        Depth {
            scope: self.scope.len(),
            values: self.values.len(),
        }
    }

    /// Adds one variable with its value, as the innermost. For want of memory, the scope may
    /// have it alone.
    pub(crate) fn push(&mut self, binder: Binder, value: Value) -> Result<(), AllocError>
        ensures fun { self.new.fun ≡ self.old.fun }
        ensures scope { OnOk result (self.new.scope ≡ with_binder self.old.scope binder.var binder.ty) }
        ensures values { OnOk result (self.new.values ≡ with_value self.old.values binder.var value) }
    {
        self.scope.push(binder)?;
        self.values.push(Binding {
            var: binder.var,
            value,
        })?;
        Ok(())
    }

    /// Adds the variables of a pattern at a value of type `ty`, from left to right, as the
    /// innermost. For want of memory, the scope or the values may have some of them.
    pub(crate) fn bind(
        &mut self,
        alloc: Global,
        types: &[DataDecl],
        pat: &Pat,
        ty: Ty,
        value: &Value,
    ) -> Result<(), AllocError>
        ensures fun { self.new.fun ≡ self.old.fun }
        ensures scope { OnOk result (self.new.scope ≡ self.old.scope ++ binders types.now pat.now ty) }
        ensures values { OnOk result (self.new.values ≡ self.old.values ++ bindings pat.now value.now) }
    {
        bind_types(types, pat, ty, &mut self.scope)?;
        bind(alloc, pat, value, &mut self.values)?;
        Ok(())
    }

    /// Drops the variables behind a depth, which are those that were added since it was taken; a
    /// frame with no more variables stays as it is.
    pub(crate) fn truncate(&mut self, depth: Depth)
        ensures { self.new ≡ record self.old {
          scope = take depth.scope self.old.scope;
          values = take depth.values self.old.values;
        } }
    {
        self.scope.truncate(depth.scope);
        self.values.truncate(depth.values);
    }
}

// Parameters bound to copies of arguments, each to the one in its place, up to where either list
// ends.
#[tactic(auto, using(crate::proofs::BindingLemmas::argument_steps))]
fn bind_arguments(
    alloc: Global,
    params: &[Param],
    args: &[Value],
) -> Result<Seq<Binding>, AllocError>
    ensures { IfOk result (λ values. values ≡ argument_bindings params.now args.now) }
{
    let mut values = Seq::new(alloc);
    for (i, param) in params.iter().enumerate() {
        if i >= args.len() {
            return Ok(values);
        }
        let value = args[i].copy(alloc)?;
        values.push(Binding {
            var: param.var,
            value,
        })?;
    }
    Ok(values)
}

/// A copy of the value of a variable, that of its innermost binding; 0 where it has none.
pub(crate) fn value_of(alloc: Global, var: u32, values: &[Binding]) -> Result<Value, AllocError>
    ensures { IfOk result (λ v. v ≡ value_in values.now var) }
{
    let mut found = Value::Num(0);
    for binding in values {
        if binding.var == var {
            found = binding.value.copy(alloc)?;
        }
    }
    Ok(found)
}

/// Puts what a pattern binds at a value behind what is bound: copies of the value's parts, from
/// left to right. A constructor's pattern binds nothing at a number. The call nests as deep as the
/// pattern.
#[cycle(binding)]
pub(crate) fn bind(
    alloc: Global,
    pat: &Pat,
    value: &Value,
    values: &mut Seq<Binding>,
) -> Result<(), AllocError>
    ensures { OnOk result (values.new ≡ values.old ++ bindings pat.now value.now) }
{
    match pat {
        Pat::Wild(_) => Ok(()),
        Pat::Var(_, var) => {
            let value = value.copy(alloc)?;
            values.push(Binding { var: *var, value })?;
            Ok(())
        }
        Pat::Num(_, _) => Ok(()),
        Pat::Con(_, _, pats) => match value {
            Value::Num(_) => Ok(()),
            Value::Con(_, parts) => bind_all(alloc, pats.as_slice(), parts.as_slice(), values),
        },
    }
}

// Puts what several patterns bind, each at the part in its place, behind what is bound, up to where
// the patterns or the parts end.
#[cycle(binding)]
#[tactic(auto, using(crate::proofs::BindingLemmas::bound_steps))]
fn bind_all(
    alloc: Global,
    pats: &[Pat],
    parts: &[Value],
    values: &mut Seq<Binding>,
) -> Result<(), AllocError>
    ensures { OnOk result (values.new ≡ values.old ++ all_bindings (map bindings pats.now) parts.now) }
{
    for (i, pat) in pats.iter().enumerate() {
        if i >= parts.len() {
            return Ok(());
        }
        bind(alloc, pat, &parts[i], values)?;
    }
    Ok(())
}
