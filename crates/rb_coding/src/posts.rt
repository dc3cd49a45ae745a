//! The sizes and the types of a value's nodes. A node is the outermost level of a subvalue, the
//! value of the node. It stands behind the nodes of its fields, so that the last node is that of
//! the whole.

ghost use Rattle.std.specs.Prelude.{◌≡◌, ◌++◌, List, map, true, IfOk, OnOk};
ghost use Rattle.rb_core.specs.Values.{is_of_type, node_count};
ghost use Rattle.rb_core.specs.declared.types.DataDecl.{DataDecl as Decl};
ghost use Rattle.rb_core.specs.declared.types.Ty.{Ty as Type_};
ghost use Rattle.rb_core.specs.declared.value.Value.{Value};
ghost use Rattle.rb_values.specs.Nodes.{posts};
ghost use Rattle.rb_coding.specs.inner.Nodes.{field_list, layer_fields, typed_posts};

use crate::table::start_of;
use rb_core::inference::types_of_fields;
use rb_core::seq::Seq;
use rb_core::types::{ConRef, DataDecl, Ty};
use rb_values::forest::Forest;
use rb_values::nodes::Layer;
use std::alloc::{AllocError, Global};

/// How many nodes the value of each node has, the node itself among them, node by node; promised of
/// what is a value of some type.
pub(crate) fn sizes_of(alloc: Global, value: &Forest) -> Result<Seq<usize>, AllocError>
    ensures { IfOk result (λ sizes. (types : List Decl) (ty : Type_) → is_of_type types value.now ty ≡ true
        → sizes ≡ map node_count (posts value.now)) }
{
    let nodes = value.as_nodes();
    let mut sizes = Seq::new(alloc);
    for node in 0..nodes.len() {
        let start = start_of(sizes.as_slice(), node, nodes.arity(node));
        sizes.push(node + 1 - start)?;
    }
    Ok(sizes)
}

// The types of the fields of a constructor of a type; none where the type has no such constructor.
fn field_list(types: &[DataDecl], ty: Ty, con: u32) -> &[Ty]
    ensures { result.now ≡ field_list types.now ty con }
{
    match ty {
        Ty::Int(_) => &[],
        Ty::Named(ty) => types_of_fields(types, ConRef { ty, con }),
    }
}

// Adds the types of a node's fields to the types that wait for their nodes; a number has none.
fn push_fields(
    types: &[DataDecl],
    ty: Ty,
    layer: Layer,
    waiting: &mut Vec<Ty>,
) -> Result<(), AllocError>
    ensures { OnOk result (waiting.new.items ≡ waiting.old.items ++ layer_fields types.now ty layer) }
{
    match layer {
        Layer::Num(_) => Ok(()),
        Layer::Con(con, _) => waiting.extend_from_slice(field_list(types, ty, con)),
    }
}

/// The type of each node of a value of this type. The nodes of a field stand before those of the
/// fields behind it, so that from the last node to the first the types that wait are a stack.
pub(crate) fn types_of(
    alloc: Global,
    types: &[DataDecl],
    ty: Ty,
    value: &Forest,
) -> Result<Vec<Ty>, AllocError>
    requires { is_of_type types.now value.now ty ≡ true }
    ensures { IfOk result (λ tys. tys.items
        ≡ map (λ (n : Value × Type_). n.1) (typed_posts types.now value.now ty)) }
{
    let nodes = value.as_nodes();
    let mut tys = Vec::from_elem(alloc, ty, nodes.len())?;
    let mut waiting = Vec::new(alloc);
    waiting.push(ty)?;
    let mut node = nodes.len();
    while node > 0 {
        node -= 1;
        match waiting.pop() {
            None => unreachable!(),
            Some(ty) => {
                tys[node] = ty;
                push_fields(types, ty, nodes.layer(node), &mut waiting)?;
            }
        }
    }
    Ok(tys)
}
