//! Patterns: the variables that one binds at a type.

ghost use Rattle.std.specs.Prelude.{◌≡◌, ◌==◌, length, map, take, OnOk};
ghost use Rattle.std.specs.List.{list_any};
ghost use Rattle.rb_core.specs.Typing.{also_bound, field_params, pattern_binders, pattern_params, first_repeat};
ghost use Rattle.rb_check.specs.inner.Answers.{LeavesTyping, within};
ghost use Rattle.rb_check.specs.inner.Below.{ParamsBelow};

use crate::types::{can_hold, number_type};
use rb_core::inference::types_of_fields;
use rb_core::pattern::Pat;
use rb_core::program::Param;
use rb_core::scope::Scope;
use rb_core::seq::Seq;
use rb_core::types::{DataDecl, Ty};
use rb_core::typing::TypeFault;
use std::alloc::Global;

/// The token of the first variable that stands before in the list, too. Where numbers rise, as those
/// of a file's binders do, only a variable that does stand before is sought there.
pub fn repeated_param(params: &[Param]) -> Option<u32>
    ensures { result ≡ first_repeat params.now }
{
    let mut above = 0;
    for (i, param) in params.iter().enumerate() {
        if stands_below(&params[..i], above, param.var) {
            return Some(param.at);
        }
        above = above.max(u64::from(param.var) + 1);
    }
    None
}

// Whether a variable is one of the list, in which each number is below `above`.
fn stands_below(params: &[Param], above: u64, var: u32) -> bool
    requires { ParamsBelow above params.now }
    ensures { result ≡ list_any (λ q. q.var == var) params.now }
{
    u64::from(var) < above && stands_in(params, var)
}

// Whether a variable is one of the list.
fn stands_in(params: &[Param], var: u32) -> bool
    ensures { result ≡ list_any (λ q. q.var == var) params.now }
{
    params.iter().any(|param| param.var == var)
}

/// Adds the variables of a whole pattern to those round it. None stands twice in the pattern.
///
/// # Errors
///
/// The first `Mismatch` or `Arity` in the pattern, else `VariableTwice` at the first variable that stands
/// there a second time; or want of memory, where the scope may have some of them.
pub fn bind_whole(
    alloc: Global,
    types: &[DataDecl],
    pattern: &Pat,
    ty: Ty,
    scope: &mut Scope,
) -> Result<(), TypeFault>
    ensures binds { LeavesTyping result scope.new (within scope.old (pattern_binders types.now pattern.now ty)) }
    ensures kept { OnOk result (take (length scope.old) scope.new ≡ scope.old) }
{
    let mut bound = Seq::new(alloc);
    bind_pattern(types, pattern, ty, &mut bound)?;
    if let Some(at) = repeated_param(bound.as_slice()) {
        return Err(TypeFault::VariableTwice(at));
    }
    scope.push_params(bound.as_slice())?;
    Ok(())
}

/// Adds the variables that a pattern binds at a type to `bound`, from left to right.
///
/// # Errors
///
/// The first `Mismatch` or `Arity` in the pattern; or want of memory.
#[cycle(pattern)]
pub fn bind_pattern(
    types: &[DataDecl],
    pattern: &Pat,
    ty: Ty,
    bound: &mut Seq<Param>,
) -> Result<(), TypeFault>
    ensures binds { LeavesTyping result bound.new (also_bound bound.old (pattern_params types.now pattern.now ty)) }
{
    match pattern {
        Pat::Wild(_) => Ok(()),
        Pat::Var(at, var) => {
            bound.push(Param {
                at: *at,
                var: *var,
                ty,
            })?;
            Ok(())
        }
        Pat::Num(at, n) => {
            if can_hold(ty, *n) {
                return Ok(());
            }
            Err(TypeFault::Mismatch(*at, ty, number_type(*n)))
        }
        Pat::Con(at, con, subpatterns) => {
            if ty != Ty::Named(con.ty) {
                return Err(TypeFault::Mismatch(*at, ty, Ty::Named(con.ty)));
            }
            bind_fields(
                types,
                *at,
                subpatterns.as_slice(),
                types_of_fields(types, *con),
                bound,
            )
        }
    }
}

// Adds what the subpatterns of a constructor bind. Before that, there have to be as many of them as
// fields: `Arity` at the token `at` else.
#[cycle(pattern)]
fn bind_fields(
    types: &[DataDecl],
    at: u32,
    subpatterns: &[Pat],
    fields: &[Ty],
    bound: &mut Seq<Param>,
) -> Result<(), TypeFault>
    ensures binds { LeavesTyping result bound.new (also_bound bound.old
        (field_params at (map (pattern_params types.now) subpatterns.now) fields.now)) }
{
    if subpatterns.len() != fields.len() {
        return Err(TypeFault::Arity(at, fields.len() as u64, subpatterns.len() as u64));
    }
    for (i, subpattern) in subpatterns.iter().enumerate() {
        bind_pattern(types, subpattern, fields[i], bound)?;
    }
    Ok(())
}
