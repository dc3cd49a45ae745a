//! What the parts of a leaf hold of each open position, in one walk over the parts. An open
//! position is a wildcard or a variable in a leaf's provenance, the pattern of its values; its path
//! is the field numbers that lead there from the root. `places` are such positions, from left to
//! right, and `rows` has for each, by its place in that list, its runs. An `Err` is want of memory.
//!
//! A unit is a bit of an integer or a word of a data type. What a part holds of a position is a run of
//! units, and stands in the list of that position. Take the positions `.0`, a u8, and `.1`, a u16, and a
//! leaf with the parts
//!
//! ```text
//! [0:16] .1   [16:4] .0[0:4]   [20:5] .0[3:5]
//! ```
//!
//! The first adds the run of 16 units from 0 on to those of `.1`, the others 4 units from 0 on and 5 from
//! 3 on to those of `.0`, whose unit 3 is thus held twice. The position at a part's path is looked up, so
//! a leaf with many positions costs little more for each part.

ghost use Rattle.std.specs.Prelude.{◌≡◌, ◌∷◌, ◌++◌, ◌<◌, [], length, IfOk, OnOk, slice_set};
ghost use Rattle.rb_agree.specs.inner.Gathered.{AreGathered, AreNone, Gathers, blocks_runs, has_words, parts_runs, row, run_there, words_runs};
ghost use Rattle.rb_agree.specs.inner.Held.{part_runs};
ghost use Rattle.rb_agree.specs.inner.Search.{AreOrdered};

use crate::search::position_number;
use rb_core::seq::Seq;
use rb_core::types::Ty;
use rb_layout::layout::{Block, FlatWord, Kind, Leaf, Part};
use rb_layout::opens::OpenPosition;
use std::alloc::{AllocError, Global};

/// `count` units of a position, from unit `first` on.
#[derive(Clone, Copy)]
pub struct Run {
    pub first: u64,
    pub count: u64,
}

// Adds a run at the end of those of position `n`.
fn add_run(alloc: Global, n: usize, run: Run, rows: &mut Seq<Seq<Run>>) -> Result<(), AllocError>
    requires { n < length rows.old }
    ensures { OnOk result (rows.new ≡ slice_set rows.old n (row rows.old n ++ run ∷ [])) }
{
    let mut runs = rows.replace(n, Seq::new(alloc));
    runs.push(run)?;
    rows.replace(n, runs);
    Ok(())
}

// Whether units of this type are words, of a data type, or bits.
fn has_words(ty: Ty) -> bool
    ensures { result ≡ has_words ty }
{
    match ty {
        Ty::Int(_) => false,
        Ty::Named(_) => true,
    }
}

// Adds a run, of words or of bits as `words` says, to those of the position at a path; nothing is
// added where none is there, or one with other units.
fn add_at(
    alloc: Global,
    places: &[OpenPosition],
    path: &[u32],
    words: bool,
    run: Run,
    rows: &mut Seq<Seq<Run>>,
) -> Result<(), AllocError>
    requires order { AreOrdered places.now }
    requires rows { length rows.old ≡ length places.now }
    ensures { OnOk result (Gathers places.now (run_there path.now words run) rows.old rows.new) }
{
    let Some(n) = position_number(places, path) else {
        return Ok(());
    };
    if words == has_words(places[n].ty) {
        return add_run(alloc, n, run, rows);
    }
    Ok(())
}

// Adds what a part holds to the runs of the position at its path; nothing is added where it has no
// path, or none that is open.
fn add_part(
    alloc: Global,
    places: &[OpenPosition],
    part: &Part,
    rows: &mut Seq<Seq<Run>>,
) -> Result<(), AllocError>
    requires order { AreOrdered places.now }
    requires rows { length rows.old ≡ length places.now }
    ensures { OnOk result (Gathers places.now (λ ty path. part_runs ty path part.now) rows.old rows.new) }
{
    match &part.kind {
        Kind::Const(_) => Ok(()),
        Kind::Pointer(_, _) => Ok(()),
        Kind::Bits(path, first) => {
            let run = Run {
                first: *first,
                count: part.l,
            };
            add_at(alloc, places, path.as_slice(), false, run, rows)
        }
        Kind::Word(path, number) => {
            let run = Run {
                first: *number,
                count: 1,
            };
            add_at(alloc, places, path.as_slice(), true, run, rows)
        }
    }
}

// Adds what the parts of a word hold, each to the runs of its position.
fn add_parts(
    alloc: Global,
    places: &[OpenPosition],
    parts: &[Part],
    rows: &mut Seq<Seq<Run>>,
) -> Result<(), AllocError>
    requires order { AreOrdered places.now }
    requires rows { length rows.old ≡ length places.now }
    ensures { OnOk result (Gathers places.now (parts_runs parts.now) rows.old rows.new) }
{
    for part in parts {
        add_part(alloc, places, part, rows)?;
    }
    Ok(())
}

// Adds what the parts of these words hold, each to the runs of its position.
fn add_words(
    alloc: Global,
    places: &[OpenPosition],
    words: &[FlatWord],
    rows: &mut Seq<Seq<Run>>,
) -> Result<(), AllocError>
    requires order { AreOrdered places.now }
    requires rows { length rows.old ≡ length places.now }
    ensures { OnOk result (Gathers places.now (words_runs words.now) rows.old rows.new) }
{
    for word in words {
        add_parts(alloc, places, word.parts.as_slice(), rows)?;
    }
    Ok(())
}

// Adds what the parts in these blocks hold, each to the runs of its position.
fn add_blocks(
    alloc: Global,
    places: &[OpenPosition],
    blocks: &[Block],
    rows: &mut Seq<Seq<Run>>,
) -> Result<(), AllocError>
    requires order { AreOrdered places.now }
    requires rows { length rows.old ≡ length places.now }
    ensures { OnOk result (Gathers places.now (blocks_runs blocks.now) rows.old rows.new) }
{
    for block in blocks {
        add_words(alloc, places, block.words.as_slice(), rows)?;
    }
    Ok(())
}

// An empty list of runs for each of so many positions, to begin with.
fn no_runs(alloc: Global, count: usize) -> Result<Seq<Seq<Run>>, AllocError>
    ensures { IfOk result (AreNone count) }
{
    let mut rows = Seq::new(alloc);
    for _n in 0..count {
        rows.push(Seq::new(alloc))?;
    }
    Ok(rows)
}

/// For each of these positions what the parts of a leaf hold of it.
///
/// # Errors
///
/// Want of memory.
pub(crate) fn runs_of(
    alloc: Global,
    leaf: &Leaf,
    places: &[OpenPosition],
) -> Result<Seq<Seq<Run>>, AllocError>
    requires { AreOrdered places.now }
    ensures { IfOk result (AreGathered leaf.now places.now) }
{
    let mut rows = no_runs(alloc, places.len())?;
    add_words(alloc, places, leaf.root.as_slice(), &mut rows)?;
    add_blocks(alloc, places, leaf.blocks.as_slice(), &mut rows)?;
    Ok(rows)
}

/// The runs of position `n`; none where there is no such position.
pub(crate) fn runs_at(rows: &[Seq<Run>], n: usize) -> &[Run]
    ensures { result.now ≡ row rows.now n }
{
    match rows.get(n) {
        None => &[],
        Some(runs) => runs.as_slice(),
    }
}
