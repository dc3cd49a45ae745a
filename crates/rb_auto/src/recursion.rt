//! Whether a type reaches itself through its fields.
//!
//! From a type on, all types to which fields lead are found, each once, until one of them has a field
//! of the first type. Take `type A = A1(B, u8)` and `type B = B1 | B2(A)`. From `A` on, `B` is found; it has
//! a field of type `A`, so `A` reaches itself.

ghost use Rattle.std.specs.Prelude.{◌≡◌, ◌++◌, IfOk, MatchBool, OnOk};
ghost use Rattle.std.specs.List.{flat_map};
ghost use Rattle.rb_layout.specs.Cycles.{HasNoCycle};
ghost use Rattle.rb_layout.specs.Graphs.{HasEdge, HasNoEdge, Leads};
ghost use Rattle.rb_auto.specs.inner.Graphs.{HasCycle, with_found, with_all_found, con_types, field_graph, named_types, state};

use rb_core::seq::Seq;
use rb_core::types::{Con, DataDecl, Ty};
use rb_layout::graphs::{edges_of, no_marks};
use std::alloc::{AllocError, Global};

// Adds the data types among the types of fields at the end of `row`, once for each such field. An
// `Err` is want of memory.
fn add_fields(fields: &[Ty], row: &mut Seq<u32>) -> Result<(), AllocError>
    ensures { OnOk result (row.new ≡ row.old ++ flat_map named_types fields.now) }
{
    for ty in fields {
        match ty {
            Ty::Int(_) => {}
            Ty::Named(ty) => row.push(*ty)?,
        }
    }
    Ok(())
}

// The data types that fields of constructors have, in order, once for each such field. An `Err` is
// want of memory.
fn field_row(alloc: Global, cons: &[Con]) -> Result<Seq<u32>, AllocError>
    ensures { IfOk result (λ row. row ≡ flat_map con_types cons.now) }
{
    let mut row = Seq::new(alloc);
    for con in cons {
        add_fields(con.fields.as_slice(), &mut row)?;
    }
    Ok(row)
}

/// For each type the data types that it has as fields: the graph in which cycles are looked for.
///
/// # Errors
///
/// Want of memory.
pub(crate) fn field_graph(alloc: Global, types: &[DataDecl]) -> Result<Seq<Seq<u32>>, AllocError>
    ensures { IfOk result (λ graph. graph ≡ field_graph types.now) }
{
    let mut graph = Seq::new(alloc);
    for data in types {
        graph.push(field_row(alloc, data.cons.as_slice())?)?;
    }
    Ok(graph)
}

// Marks number `next` and adds it to those that were found, if it was not found before; nothing
// changes where it has no mark. An `Err` is want of memory.
fn add(next: u32, marks: &mut Seq<bool>, found: &mut Seq<u32>) -> Result<(), AllocError>
    ensures { OnOk result (state marks.new found.new ≡ with_found next (state marks.old found.old)) }
{
    match marks.get(next as usize) {
        None => return Ok(()),
        Some(mark) => {
            if *mark {
                return Ok(());
            }
        }
    }
    found.push(next)?;
    marks.replace(next as usize, true);
    Ok(())
}

// Adds the numbers to which these edges lead, unless they were found before, until one leads to the
// number `start`, from which the search began. Tells whether one does. An `Err` is want of memory.
fn follow(
    edges: &[u32],
    start: u32,
    marks: &mut Seq<bool>,
    found: &mut Seq<u32>,
) -> Result<bool, AllocError>
    ensures leads { IfOk result (λ b. MatchBool b (HasEdge edges.now start) (HasNoEdge edges.now start)) }
    ensures added { IfOk result (λ b. MatchBool b
        (Unit {0}) (state marks.new found.new ≡ with_all_found edges.now (state marks.old found.old))) }
{
    for next in edges {
        if *next == start {
            return Ok(true);
        }
        add(*next, marks, found)?;
    }
    Ok(false)
}

/// Whether a cycle goes through number `start`; `graph` lists for each number those to which it
/// leads. False where it has no such number.
///
/// # Errors
///
/// Want of memory.
pub(crate) fn is_recursive(
    alloc: Global,
    graph: &[Seq<u32>],
    start: u32,
) -> Result<bool, AllocError>
    ensures { IfOk result (λ b. MatchBool b
        (HasCycle (Leads graph.now) start) (HasNoCycle (Leads graph.now) start)) }
{
    if start as usize >= graph.len() {
        return Ok(false);
    }
    let mut marks = no_marks(alloc, graph.len())?;
    let mut found = Seq::new(alloc);
    add(start, &mut marks, &mut found)?;
    for i in 0..usize::MAX {
        let number = match found.get(i) {
            None => return Ok(false),
            Some(last) => *last,
        };
        if follow(edges_of(graph, number), start, &mut marks, &mut found)? {
            return Ok(true);
        }
    }
    Err(AllocError)
}
