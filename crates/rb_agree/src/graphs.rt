//! The graphs of types: which types each flattens, and which it holds in its root words; and
//! whether a cycle goes through a type. A leaf is for the values of its provenance, a pattern. A
//! layout flattens the types of the constructors that stand below the root of a provenance; it
//! holds those of whose fields a word stands in a root word of a leaf, that is, outside of blocks.
//! A graph lists for each type a row, the types to which it leads. An `Err` is want of memory.

ghost use Rattle.std.specs.Prelude.{◌≡◌, ◌++◌, IfOk, MatchOption, OnOk};
ghost use Rattle.std.specs.List.{flat_map};
ghost use Rattle.rb_layout.specs.Cycles.{HasNoCycle};
ghost use Rattle.rb_layout.specs.A9.{FailsFlattening, Flattens};
ghost use Rattle.rb_layout.specs.A10.{FailsHolding, HoldsField};
ghost use Rattle.rb_agree.specs.Graphs.{IsGraphOf};
ghost use Rattle.rb_agree.specs.inner.Rows.{below_types, leaf_holds, leaf_types, part_holds, pattern_types, word_holds};

use crate::cycles::cycle_from;
use rb_core::pattern::Pat;
use rb_core::seq::Seq;
use rb_core::types::{DataDecl, Ty};
use rb_layout::evidence::Why;
use rb_layout::layout::{FlatWord, Kind, Layout, Leaf, Part};
use rb_layout::positions::type_at;
use std::alloc::{AllocError, Global};

// Adds the types of all constructors in a pattern, its root's and those below it, to a row.
#[cycle(listing)]
fn add_types(pat: &Pat, row: &mut Seq<u32>) -> Result<(), AllocError>
    ensures { OnOk result (row.new ≡ row.old ++ pattern_types pat.now) }
{
    match pat {
        Pat::Wild(_) => Ok(()),
        Pat::Var(_, _) => Ok(()),
        Pat::Num(_, _) => Ok(()),
        Pat::Con(_, con, pats) => {
            row.push(con.ty)?;
            add_all_types(pats.as_slice(), row)
        }
    }
}

// Adds the types of the constructors in each of these patterns, from left to right, to a row.
#[cycle(listing)]
fn add_all_types(pats: &[Pat], row: &mut Seq<u32>) -> Result<(), AllocError>
    ensures { OnOk result (row.new ≡ row.old ++ flat_map pattern_types pats.now) }
{
    for pat in pats {
        add_types(pat, row)?;
    }
    Ok(())
}

// Adds the types of the constructors below a provenance's root to a row; none where its root is no
// constructor.
fn add_below(prov: &Pat, row: &mut Seq<u32>) -> Result<(), AllocError>
    ensures { OnOk result (row.new ≡ row.old ++ below_types prov.now) }
{
    match prov {
        Pat::Wild(_) => Ok(()),
        Pat::Var(_, _) => Ok(()),
        Pat::Num(_, _) => Ok(()),
        Pat::Con(_, _, pats) => add_all_types(pats.as_slice(), row),
    }
}

// The types that these leaves flatten, leaf by leaf, each as often as it is found.
fn flat_row(alloc: Global, leaves: &[Leaf]) -> Result<Seq<u32>, AllocError>
    ensures { IfOk result (λ row. row ≡ flat_map leaf_types leaves.now) }
{
    let mut row = Seq::new(alloc);
    for leaf in leaves {
        add_below(&leaf.prov, &mut row)?;
    }
    Ok(row)
}

/// For each type those that its layout flattens, as a graph: a cycle in it is a fault.
///
/// # Errors
///
/// Want of memory.
pub fn flattening_graph(alloc: Global, layouts: &[Layout]) -> Result<Seq<Seq<u32>>, AllocError>
    ensures { IfOk result (IsGraphOf (Flattens layouts.now)) }
{
    let mut graph = Seq::new(alloc);
    for layout in layouts {
        graph.push(flat_row(alloc, layout.leaves.as_slice())?)?;
    }
    Ok(graph)
}

// Adds the data type of the field of which a part has a word, if it has one, to a row; `prov` is
// the provenance of the leaf.
fn add_part(
    types: &[DataDecl],
    prov: &Pat,
    part: &Part,
    row: &mut Seq<u32>,
) -> Result<(), AllocError>
    ensures { OnOk result (row.new ≡ row.old ++ part_holds types.now prov.now part.now) }
{
    match &part.kind {
        Kind::Const(_) => Ok(()),
        Kind::Bits(_, _) => Ok(()),
        Kind::Pointer(_, _) => Ok(()),
        Kind::Word(path, _) => match type_at(types, prov, path.as_slice()) {
            None => Ok(()),
            Some(Ty::Int(_)) => Ok(()),
            Some(Ty::Named(held)) => row.push(held),
        },
    }
}

// Adds the types of the fields of which the parts of a word have words to a row; `prov` is the
// provenance of the leaf.
fn add_parts(
    types: &[DataDecl],
    prov: &Pat,
    parts: &[Part],
    row: &mut Seq<u32>,
) -> Result<(), AllocError>
    ensures { OnOk result (row.new ≡ row.old ++ flat_map (part_holds types.now prov.now) parts.now) }
{
    for part in parts {
        add_part(types, prov, part, row)?;
    }
    Ok(())
}

// Adds the types of the fields of which the parts of these words have words to a row; `prov` is the
// provenance of the leaf.
fn add_words(
    types: &[DataDecl],
    prov: &Pat,
    words: &[FlatWord],
    row: &mut Seq<u32>,
) -> Result<(), AllocError>
    ensures { OnOk result (row.new ≡ row.old ++ flat_map (word_holds types.now prov.now) words.now) }
{
    for word in words {
        add_parts(types, prov, word.parts.as_slice(), row)?;
    }
    Ok(())
}

// The types of the fields of which root words of these leaves have words, each as often as it is found.
fn held_row(alloc: Global, types: &[DataDecl], leaves: &[Leaf]) -> Result<Seq<u32>, AllocError>
    ensures { IfOk result (λ row. row ≡ flat_map (leaf_holds types.now) leaves.now) }
{
    let mut row = Seq::new(alloc);
    for leaf in leaves {
        add_words(types, &leaf.prov, leaf.root.as_slice(), &mut row)?;
    }
    Ok(row)
}

/// For each type the data types of the fields of which its root words have words, as a graph: a
/// cycle in it is a fault.
///
/// # Errors
///
/// Want of memory.
pub fn holding_graph(
    alloc: Global,
    types: &[DataDecl],
    layouts: &[Layout],
) -> Result<Seq<Seq<u32>>, AllocError>
    ensures { IfOk result (IsGraphOf (HoldsField types.now layouts.now)) }
{
    let mut graph = Seq::new(alloc);
    for layout in layouts {
        graph.push(held_row(alloc, types, layout.leaves.as_slice())?)?;
    }
    Ok(graph)
}

/// How types flatten each other in a cycle through type `ty`, listed from it on; None where they do
/// not. `graph` is what [`flattening_graph`] gives.
///
/// # Errors
///
/// Want of memory.
pub fn flattening_fault(
    alloc: Global,
    layouts: &[Layout],
    graph: &[Seq<u32>],
    ty: u32,
) -> Result<Option<Why>, AllocError>
    requires { IsGraphOf (Flattens layouts.now) graph.now }
    ensures { IfOk result (λ found. MatchOption found
        (HasNoCycle (Flattens layouts.now) ty) (FailsFlattening layouts.now ty)) }
{
    match cycle_from(alloc, graph, ty)? {
        None => Ok(None),
        Some(cycle) => Ok(Some(Why::FlatCycle(cycle))),
    }
}

/// How types hold each other in root words in a cycle through type `ty`, listed from it on; None
/// where they do not. `graph` is what [`holding_graph`] gives.
///
/// # Errors
///
/// Want of memory.
pub fn holding_fault(
    alloc: Global,
    types: &[DataDecl],
    layouts: &[Layout],
    graph: &[Seq<u32>],
    ty: u32,
) -> Result<Option<Why>, AllocError>
    requires { IsGraphOf (HoldsField types.now layouts.now) graph.now }
    ensures { IfOk result (λ found. MatchOption found
        (HasNoCycle (HoldsField types.now layouts.now) ty) (FailsHolding types.now layouts.now ty)) }
{
    match cycle_from(alloc, graph, ty)? {
        None => Ok(None),
        Some(cycle) => Ok(Some(Why::HoldCycle(cycle))),
    }
}
