//! The types of the rows.
//!
//! ```text
//! type List = Nil | Cons(u64, List);
//! type Color = Red | Black;
//! type Tree = Empty | Node(Color, Tree, u32, Tree);
//! type Pair = Pair(u8, u8);
//! ```

use rb_core::seq::Seq;
use rb_core::types::{Con, DataDecl, Ty};
use std::alloc::{AllocError, Global};

/// `List`
pub const LIST: Ty = Ty::Named(0);
/// `Color`
pub const COLOR: Ty = Ty::Named(1);
/// `Tree`
pub const TREE: Ty = Ty::Named(2);
/// `Pair`
pub const PAIR: Ty = Ty::Named(3);

// Each type's name, and each constructor's name and fields.
const TYPES: &[(&[u8], &[(&[u8], &[Ty])])] = &[
    (b"List", &[(b"Nil", &[]), (b"Cons", &[Ty::Int(64), LIST])]),
    (b"Color", &[(b"Red", &[]), (b"Black", &[])]),
    (
        b"Tree",
        &[
            (b"Empty", &[]),
            (b"Node", &[COLOR, TREE, Ty::Int(32), TREE]),
        ],
    ),
    (b"Pair", &[(b"Pair", &[Ty::Int(8), Ty::Int(8)])]),
];

// A constructor with this name and these types of fields.
fn con(alloc: Global, name: &[u8], fields: &[Ty]) -> Result<Con, AllocError> {
    Ok(Con {
        name: Seq::from_vec(Vec::from_slice(alloc, name)?),
        fields: Seq::from_vec(Vec::from_slice(alloc, fields)?),
    })
}

// A type with this name and these constructors, each a name and types of fields.
fn data(alloc: Global, name: &[u8], cons: &[(&[u8], &[Ty])]) -> Result<DataDecl, AllocError> {
    let mut decl = DataDecl {
        name: Seq::from_vec(Vec::from_slice(alloc, name)?),
        cons: Seq::new(alloc),
    };
    for &(name, fields) in cons {
        decl.cons.push(con(alloc, name, fields)?)?;
    }
    Ok(decl)
}

/// The types, in this order.
///
/// # Errors
///
/// Want of memory.
pub fn types(alloc: Global) -> Result<Vec<DataDecl>, AllocError> {
    let mut types = Vec::new(alloc);
    for &(name, cons) in TYPES {
        types.push(data(alloc, name, cons)?)?;
    }
    Ok(types)
}
