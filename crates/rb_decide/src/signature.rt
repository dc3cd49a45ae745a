//! Whether heads are a complete signature: all that values of a type can begin with.
//!
//! A head is a number or a constructor. `heads` are those that are known, and `types` are the types
//! of the program. Every error is want of memory.

ghost use Rattle.std.specs.Prelude.{◌≡◌, ◌+◌, ◌^◌, [], IfOk, slice_get};
ghost use Rattle.rb_core.specs.declared.value.Value.TheOpen as Layers;
ghost use Rattle.rb_matrix.specs.Heads.{any_begins};
ghost use Rattle.rb_decide.specs.ClauseMatrices.{all_below, con_count, is_complete};

use crate::clause_matrix::number_of;
use rb_core::types::{ConRef, DataDecl, Ty};
use rb_matrix::heads::is_known;
use rb_matrix::matrix::Head;
use rb_matrix::signature::greatest;
use std::alloc::AllocError;

// The greatest number of an integer type of so many bits. There is no type of more than 64 bits;
// for one it gives want of memory.
fn greatest_number(bits: u8) -> Result<u64, AllocError>
    ensures { IfOk result (λ n. n + 1 ≡ 2 ^ bits) }
{
    if bits > 64 {
        return Err(AllocError);
    }
    Ok(greatest(bits))
}

// Whether all numbers up to `most` are among the heads.
fn has_numbers(heads: &[Head], most: u64) -> bool
    ensures { result ≡ all_below (most + 1) (λ n. any_begins heads.now (Layers.Num n)) }
{
    let mut number = 0;
    loop {
        if !is_known(heads, Head::Num(number)) {
            return false;
        }
        if number == most {
            return true;
        }
        number += 1;
    }
}

// How many constructors a type has; a type that there is not has none.
fn constructors_of(types: &[DataDecl], ty: u32) -> usize
    ensures { result ≡ con_count (slice_get types.now ty) }
{
    let ty = ty as usize;
    if ty >= types.len() {
        return 0;
    }
    types[ty].cons.len()
}

// Whether the first `count` constructors of a type are among the heads.
fn has_constructors(heads: &[Head], ty: u32, count: u32) -> bool
    ensures { result ≡ all_below count (λ k. any_begins heads.now (Layers.Con k [])) }
{
    for k in 0..count {
        if !is_known(heads, Head::Con(ConRef { ty, con: k })) {
            return false;
        }
    }
    true
}

/// Whether the heads are all constructors of the type, or all numbers of its width. A type of over
/// 64 bits or of 2^32 constructors, of which there is none, meets want of memory.
///
/// # Errors
///
/// Want of memory, for such a type alone.
pub fn covers(types: &[DataDecl], ty: Ty, heads: &[Head]) -> Result<bool, AllocError>
    ensures { IfOk result (λ full. full ≡ is_complete types.now ty heads.now) }
{
    match ty {
        Ty::Int(bits) => Ok(has_numbers(heads, greatest_number(bits)?)),
        Ty::Named(t) => {
            let count = number_of(constructors_of(types, t))?;
            Ok(has_constructors(heads, t, count))
        }
    }
}
