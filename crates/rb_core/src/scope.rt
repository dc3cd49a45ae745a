//! Scopes: the binders round a place, variables with their types, from the outermost to the
//! innermost.
//!
//! The variables of a function are numbered in the file's order. So in a scope no number is below
//! one before it, and a variable is found by halving. No clause rests on that: a scope counts how
//! many of its outermost are in that order, and those behind are looked through one by one.

ghost use Rattle.std.specs.Prelude.{◌≡◌, ◌↔◌, [], ◌∷◌, ◌++◌, length, map, nat_le, take, IfOk, IsTrue, OnErr, OnOk};
ghost use Rattle.rb_core.specs.Typing.{binder_of, variable_type};
ghost use Rattle.rb_core.specs.inner.Order.{AreInOrder, Follows};

use crate::program::Param;
use crate::seq::Seq;
use crate::types::Ty;
use crate::typing::Binder;
use std::alloc::{AllocError, Global};
use std::marker::Model;

/// Binders, the innermost last. A contract sees their list.
#[derive(Drop)]
pub struct Scope {
    binders: Seq<Binder>,
    // So many of the outermost are in the order of their numbers.
    ordered: usize,
}

impl Model for Scope {
    ghost use Rattle.std.specs.Prelude.{List};
    ghost use Rattle.rb_core.specs.declared.typing.Binder.{Binder};
    ghost use Rattle.rb_core.specs.inner.Order.{HasOrderedHead};

    ghost Value = { List Binder };

    ghost view = { λ s. s.binders };

    ghost invariant = { λ s. HasOrderedHead s.ordered s.binders };
}

impl Scope {
    /// A scope of none, which takes no memory yet.
    pub fn new(alloc: Global) -> Self
        ensures { result ≡ [] }
    {
        Scope {
            binders: Seq::new(alloc),
            ordered: 0,
        }
    }

    /// The scope of a function's body: its parameters with their types, in their order.
    ///
    /// # Errors
    ///
    /// Want of memory.
    pub fn of_params(alloc: Global, params: &[Param]) -> Result<Self, AllocError>
        ensures { IfOk result (λ scope. scope ≡ map binder_of params.now) }
    {
        let mut scope = Scope::new(alloc);
        scope.push_params(params)?;
        Ok(scope)
    }

    /// How many binders there are.
    pub fn len(&self) -> usize
        ensures { result ≡ length self.now }
    {
        self.binders.len()
    }

    /// Adds one that is within all others.
    ///
    /// # Errors
    ///
    /// Want of memory; the scope is then as it was.
    pub fn push(&mut self, binder: Binder) -> Result<(), AllocError>
        ensures ok { OnOk result (self.new ≡ self.old ++ binder ∷ []) }
        ensures err { OnErr result (self.new ≡ self.old) }
    {
        let whole = self.ordered == self.binders.len();
        let follows = follows(self.binders.as_slice(), binder.var);
        self.binders.push(binder)?;
        if whole && follows {
            self.ordered = self.binders.len();
        }
        Ok(())
    }

    /// Adds those of parameters in their order, the last as the innermost.
    ///
    /// # Errors
    ///
    /// Want of memory; the scope may then have some of them.
    pub fn push_params(&mut self, params: &[Param]) -> Result<(), AllocError>
        ensures { OnOk result (self.new ≡ self.old ++ map binder_of params.now) }
    {
        for param in params {
            self.push(Binder {
                var: param.var,
                ty: param.ty,
            })?;
        }
        Ok(())
    }

    /// Leaves the outermost `len` alone; a scope of fewer stays as it is.
    pub fn truncate(&mut self, len: usize)
        ensures { self.new ≡ take len self.old }
    {
        self.binders.truncate(len);
        self.ordered = self.ordered.min(len);
    }

    /// The type of the innermost binder of this variable; `u64` where there is none.
    pub fn variable_type(&self, var: u32) -> Ty
        ensures { result ≡ variable_type var self.now }
    {
        let binders = self.binders.as_slice();
        let ordered = self.ordered;
        for i in (ordered..binders.len()).rev() {
            if binders[i].var == var {
                return binders[i].ty;
            }
        }
        ordered_type(var, &binders[..ordered])
    }
}

// Whether a number is not below the last of these, where there is one.
fn follows(binders: &[Binder], var: u32) -> bool
    ensures { IsTrue result ↔ Follows var binders.now }
{
    match binders.last() {
        None => true,
        Some(last) => last.var <= var,
    }
}

// The type of the innermost of these with this number, which is looked for by halving; `u64` where
// there is none.
fn ordered_type(var: u32, binders: &[Binder]) -> Ty
    requires { AreInOrder binders.now }
    ensures { result ≡ variable_type var binders.now }
{
    let end = binders.partition_point(
        |binder: &Binder| -> bool
            ensures { result ≡ nat_le binder.now.var var }
        { binder.var <= var },
    );
    if end > 0 && binders[end - 1].var == var {
        return binders[end - 1].ty;
    }
    Ty::Int(64)
}
