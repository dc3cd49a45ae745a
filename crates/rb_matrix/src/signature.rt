//! Signatures, complete and incomplete, as Maranget calls them. A head is a number or a constructor
//! with which a value begins. Heads of a column are a complete signature where each value of the
//! column's type begins with one of them. From an incomplete one a pattern is absent, which matches
//! only values that begin with none of the heads.

ghost use Rattle.std.specs.Prelude.{◌≡◌, ◌+◌, ◌^◌, ◌<◌, ◌≤◌, IfOk, IfSome};
ghost use Rattle.rb_core.specs.declared.types.Ty.TheVariants as Tys;
ghost use Rattle.rb_matrix.specs.Signature.{IsFirstCon, IsFirstAbsent, IsAbsentAnswer};
ghost use Rattle.rb_matrix.specs.inner.Signature.{IsNumberAnswer, IsConAnswer};
ghost use Rattle.rb_matrix.specs.Search.{AreInhabited, IsTypeIn};
ghost use Rattle.rb_matrix.specs.Specialize.{wilds};

use crate::heads::set_of;
use crate::matrix::Head;
use rb_core::pattern::Pat;
use rb_core::seq::Seq;
use rb_core::types::{Con, ConRef, DataDecl, Ty};
use std::alloc::{AllocError, Global};

/// The greatest number of an integer type of so many bits, up to 64; 0 of no bits.
pub fn greatest(bits: u8) -> u64
    requires { bits ≤ 64 }
    ensures { result + 1 ≡ 2 ^ bits }
{
    if bits == 64 {
        u64::MAX
    } else {
        (1u64 << bits) - 1
    }
}

// The least number up to `most` that is not among the heads; None where all of them are.
fn least_missing(alloc: Global, heads: &[Head], most: u64) -> Result<Option<u64>, AllocError>
    ensures { IfOk result (IsNumberAnswer heads.now most) }
{
    let known = set_of(alloc, heads)?;
    let mut number = 0;
    loop {
        if !known.contains(Head::Num(number)) {
            return Ok(Some(number));
        }
        if number == most {
            return Ok(None);
        }
        number += 1;
    }
}

// The number of the first of the `count` constructors of data type `ty` that is not among the
// heads; None where all of them are, or where there is none. What type a head names is not looked
// at.
fn missing_con(
    alloc: Global,
    heads: &[Head],
    ty: u32,
    count: usize,
) -> Result<Option<u32>, AllocError>
    requires { count < 2 ^ 32 }
    ensures { IfOk result (IsConAnswer heads.now count) }
{
    let known = set_of(alloc, heads)?;
    for k in 0..count {
        let con = k as u32;
        if !known.contains(Head::Con(ConRef { ty, con })) {
            return Ok(Some(con));
        }
    }
    Ok(None)
}

// A row of `count` wildcards. Each bears token number 0, since it stands at no token of a file.
fn wildcards(alloc: Global, count: usize) -> Result<Seq<Pat>, AllocError>
    ensures { IfOk result (λ r. r ≡ wilds count) }
{
    let mut row = Seq::new(alloc);
    for _i in 0..count {
        row.push(Pat::Wild(0))?;
    }
    Ok(row)
}

// The first constructor of data type `t` that is not among the heads, with a wildcard for each
// field; None where all of them are, or where there is no such data type.
fn absent_con(
    alloc: Global,
    types: &[DataDecl],
    t: u32,
    heads: &[Head],
) -> Result<Option<Pat>, AllocError>
    requires { AreInhabited types.now }
    ensures answer { IfOk result (λ r. IsAbsentAnswer types.now (Tys.Named t) heads.now r) }
    ensures first { IfOk result (λ r. IfSome r (IsFirstCon types.now t heads.now)) }
{
    if t as usize >= types.len() {
        return Ok(None);
    }
    let decl = &types[t as usize];
    let cons = decl.cons.as_slice();
    let missing = missing_con(alloc, heads, t, cons.len())?;
    match missing {
        None => Ok(None),
        Some(con) => {
            let first = &cons[con as usize];
            let pats = wildcards(alloc, first.fields.len())?;
            Ok(Some(Pat::Con(0, ConRef { ty: t, con }, pats)))
        }
    }
}

/// A pattern that is absent from the heads, where they are an incomplete signature: it matches a
/// value of the type, and none that begins with one of the heads. None where they are a complete
/// signature, so that each value of the type begins with one. Where there is no head it is a
/// wildcard, and else the least number or the first constructor that is not among them, with
/// wildcards for its fields.
///
/// # Errors
///
/// Want of memory.
pub fn absent_pattern(
    alloc: Global,
    types: &[DataDecl],
    ty: Ty,
    heads: &[Head],
) -> Result<Option<Pat>, AllocError>
    requires inhabited { AreInhabited types.now }
    requires live { IsTypeIn types.now ty }
    ensures answer { IfOk result (λ r. IsAbsentAnswer types.now ty heads.now r) }
    ensures first { IfOk result (λ r. IfSome r (IsFirstAbsent types.now ty heads.now)) }
{
    if heads.is_empty() {
        return Ok(Some(Pat::Wild(0)));
    }
    match ty {
        Ty::Int(bits) => match least_missing(alloc, heads, greatest(bits))? {
            None => Ok(None),
            Some(number) => Ok(Some(Pat::Num(0, number))),
        },
        Ty::Named(t) => {
            let absent = absent_con(alloc, types, t, heads)?;
            Ok(absent)
        }
    }
}
