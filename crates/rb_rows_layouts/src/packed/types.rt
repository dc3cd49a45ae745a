//! Types without names, and what is derived for them.

use rb_auto::derive;
use rb_core::layout_decl::{LayTree, LayoutDecl};
use rb_core::pattern::Pat;
use rb_core::program::Program;
use rb_core::seq::Seq;
use rb_core::types::{Auto, Con, DataDecl, Ty};
use std::alloc::{AllocError, Global};
use std::test::Fail;

/// A list of these items.
///
/// # Errors
///
/// Want of memory.
pub fn seq<T: Drop, const N: usize>(alloc: Global, items: [T; N]) -> Result<Seq<T>, AllocError> {
    Ok(Seq::from_vec(Vec::from_array(alloc, items)?))
}

/// A constructor with these fields.
///
/// # Errors
///
/// Want of memory.
pub fn con(alloc: Global, fields: &[Ty]) -> Result<Con, AllocError> {
    Ok(Con {
        name: Seq::new(alloc),
        fields: Seq::from_vec(Vec::from_slice(alloc, fields)?),
    })
}

/// A type with these constructors.
pub fn data(alloc: Global, cons: Seq<Con>) -> DataDecl {
    DataDecl {
        name: Seq::new(alloc),
        cons,
    }
}

/// A written layout of a type: of this shape, and one leaf without items.
///
/// # Errors
///
/// Want of memory.
pub fn written_layout(alloc: Global, ty: u32, shape: &[u64]) -> Result<LayoutDecl, AllocError> {
    Ok(LayoutDecl {
        at: 0,
        ty,
        shape: Seq::from_vec(Vec::from_slice(alloc, shape)?),
        tree: LayTree::Leaf(0, Pat::Wild(0), Seq::new(alloc)),
    })
}

/// What is derived for a type of these, for each of which the kind is given, if any.
///
/// # Errors
///
/// A type without a kind, or one that cannot be packed; or want of memory.
pub fn derived_layout(
    alloc: Global,
    types: Seq<DataDecl>,
    layouts: Seq<LayoutDecl>,
    kinds: &[Option<Auto>],
    ty: u32,
) -> Result<LayoutDecl, Fail> {
    let program = Program {
        types,
        layouts,
        funs: Seq::new(alloc),
        main: 0,
    };
    if kinds.len() == program.types.len()
        && let Some(Some(_kind)) = kinds.get(ty as usize)
    {
        return Ok(derive(alloc, &program, kinds, ty)?);
    }
    Err(AllocError.into())
}

/// What is derived for a lone type with these constructors, which is packed.
///
/// # Errors
///
/// A type that cannot be packed, or want of memory.
pub fn packed_layout(alloc: Global, cons: Seq<Con>) -> Result<LayoutDecl, Fail> {
    let types = seq(alloc, [data(alloc, cons)])?;
    derived_layout(alloc, types, Seq::new(alloc), &[Some(Auto::Packed)], 0)
}
