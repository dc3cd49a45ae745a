//! The text of a value, by frames in place of recursion.
//!
//! A construction is a constructor with its fields. Its frame says how far it is written, and
//! frames wait on a stack, the innermost on top. The head of a value is what is written of it
//! first: a number, or the name of a constructor. Text is added at the end of `out`, and `types`
//! are the types of the program, by which names and the types of fields are found. Every error is
//! want of memory.

ghost use Rattle.std.specs.Prelude.{◌≡◌, ◌<◌, ◌++◌, length, IfOk, OnOk};
ghost use Rattle.rb_values.specs.Texts.{con_ref, field_of, before, after_last, text_of};
ghost use Rattle.rb_values.specs.Nodes.{at};
ghost use Rattle.rb_values.specs.inner.Printing.{IsFrame, AreFrames, Opened, Turned};

use crate::forest::Forest;
use crate::nodes::{Layer, Nodes};
use rb_core::constructors::con_of;
use rb_core::text::{push_con, push_number};
use rb_core::types::{ConRef, DataDecl, Ty};
use std::alloc::{AllocError, Global};

/// A construction whose fields from `next` on are still to be written: its node and its constructor.
#[derive(Clone, Copy)]
pub struct Frame {
    pub node: usize,
    pub con: ConRef,
    pub next: usize,
}

// Constructor `k` of a type; of data type 0 for one of integers, which have no constructors.
fn con_ref(ty: Ty, k: u32) -> ConRef
    ensures { result ≡ con_ref ty k }
{
    match ty {
        Ty::Int(_) => ConRef { ty: 0, con: k },
        Ty::Named(t) => ConRef { ty: t, con: k },
    }
}

// The type of field `j` of a constructor; `u1` where there is none.
#[tactic(auto, unfolding(crate::specs::Texts::field_of))]
fn field_of(types: &[DataDecl], con: ConRef, j: usize) -> Ty
    ensures { result ≡ field_of types.now con j }
{
    match con_of(types, con) {
        None => Ty::Int(1),
        Some(con) => match con.fields.get(j) {
            None => Ty::Int(1),
            Some(ty) => *ty,
        },
    }
}

// Writes what stands before field `j`: a parenthesis before the first, else a comma and a blank.
#[tactic(auto, unfolding(crate::specs::Texts::before))]
fn write_before(j: usize, out: &mut Vec<u8>) -> Result<(), AllocError>
    ensures { OnOk result (out.new.items ≡ out.old.items ++ before j) }
{
    out.extend_from_slice(if j == 0 { b"(" } else { b", " })
}

// Writes what stands behind the last of `j` fields: a parenthesis, and nothing where there are
// none.
#[tactic(auto, unfolding(crate::specs::Texts::after_last))]
fn write_after(j: usize, out: &mut Vec<u8>) -> Result<(), AllocError>
    ensures { OnOk result (out.new.items ≡ out.old.items ++ after_last j) }
{
    out.extend_from_slice(if j == 0 { b"" } else { b")" })
}

// Writes a number, or the name of a construction, for whose fields it puts a frame on the stack.
fn open_value(
    types: &[DataDecl],
    nodes: &Nodes,
    node: usize,
    ty: Ty,
    out: &mut Vec<u8>,
    stack: &mut Vec<Frame>,
) -> Result<(), AllocError>
    requires { node < length nodes.now }
    ensures { OnOk result
        (Opened types.now nodes.now node ty stack.old.items stack.new.items out.old.items out.new.items) }
{
    match nodes.layer(node) {
        Layer::Num(n) => {
            push_number(out, n)?;
            Ok(())
        }
        Layer::Con(k, _) => {
            let con = con_ref(ty, k);
            push_con(out, types, con)?;
            stack.push(Frame { node, con, next: 0 })?;
            Ok(())
        }
    }
}

// Writes what stands before a frame's next field and the head of that field, and puts the frame
// back on the stack, below that of the field if it has one; or writes the frame's end, where no
// field is left.
fn turn(
    types: &[DataDecl],
    nodes: &Nodes,
    frame: Frame,
    out: &mut Vec<u8>,
    stack: &mut Vec<Frame>,
) -> Result<(), AllocError>
    requires frame { IsFrame nodes.now frame }
    requires frames { AreFrames nodes.now stack.old.items }
    ensures { OnOk result
        (Turned types.now nodes.now frame stack.old.items stack.new.items out.old.items out.new.items) }
{
    if frame.next == nodes.arity(frame.node) {
        write_after(frame.next, out)?;
        return Ok(());
    }
    write_before(frame.next, out)?;
    let child = nodes.child(frame.node, frame.next);
    let ty = field_of(types, frame.con, frame.next);
    stack.push(Frame {
        node: frame.node,
        con: frame.con,
        next: frame.next + 1,
    })?;
    open_value(types, nodes, child, ty, out, stack)?;
    Ok(())
}

// The text of the value at a node. A frame stands for a construction whose end is not yet written;
// they are a stack in place of recursion, however deep the value is.
fn print_node(
    alloc: Global,
    types: &[DataDecl],
    ty: Ty,
    nodes: &Nodes,
    root: usize,
) -> Result<Vec<u8>, AllocError>
    requires { root < length nodes.now }
    ensures { IfOk result (λ out. out.items ≡ text_of types.now (at nodes.now root) ty) }
{
    let mut out = Vec::new(alloc);
    let mut stack = Vec::new(alloc);
    open_value(types, nodes, root, ty, &mut out, &mut stack)?;
    while let Some(frame) = stack.pop() {
        turn(types, nodes, frame, &mut out, &mut stack)?;
    }
    Ok(out)
}

/// The text of a value of this type.
///
/// # Errors
///
/// Want of memory alone.
pub fn print_value(
    alloc: Global,
    types: &[DataDecl],
    ty: Ty,
    value: &Forest,
) -> Result<Vec<u8>, AllocError>
    ensures { IfOk result (λ text. text.items ≡ text_of types.now value.now ty) }
{
    print_node(alloc, types, ty, &value.nodes, value.nodes.len() - 1)
}
