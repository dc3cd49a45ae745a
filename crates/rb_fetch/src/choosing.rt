//! Looks into the arguments of a construction, one behind the other, until its leaf is known. A
//! position is a path, field numbers from the root, and a place is one at which the provenance of a
//! leaf, the pattern of the values that it holds, has a constructor. A look is code that finds the
//! leaf of the part at a place. A way is where runs have come to one leaf of the whole: an open
//! jump, the leaf's number, and parts in slots. A part whose leaf follows from what is known takes
//! no look. The fields of a part whose leaf is known are fetched. Those that the leaf has taken
//! apart, of which it has only the fields, are rebuilt, by constructions of their own, so that the
//! calls here go in a circle. Each way round it goes through `choose` or `fetch_part`, and these
//! take one off `depth`. `agreed` has the program and its layouts, and `seen` is what is known of
//! the value.

ghost use Rattle.std.specs.Prelude.{◌≡◌, ◌++◌, ◌∷◌, [], IfOk, OnOk, length, take};
ghost use Rattle.rb_target.specs.Growth.{Grows};
ghost use Rattle.rb_fragment.specs.Arms.{ArePatchable, with_targets};
ghost use Rattle.rb_fetch.specs.Constructing.{Constructs};
ghost use Rattle.rb_fetch.specs.inner.Rebuilding.{FetchesPart, FetchesParts};
ghost use Rattle.rb_fetch.specs.inner.Choosing.{AddsWays, AreEndOf, ChoosesBy, ChoosesFrom, ChoosesUnder, FetchesFields, IsEndOf, IsPartIn};
ghost use Rattle.rb_fetch.specs.inner.Seen.{seen_before};

use crate::asking::{Look, find_leaves, next_question, start_of};
use crate::choice::Way;
use crate::construct::{alone_in, emit_alone, emit_choices};
use crate::heads::{Place, leaf_at};
use crate::known::{Seen, forget, learn};
use crate::parts::{add_parts, copy_parts, find_fields};
use crate::rebuild::{fetch_open, field_at, root_layer};
use rb_compose::subvalue::Subvalue;
use rb_core::pattern::Pat;
use rb_core::seq::Seq;
use rb_core::types::ConRef;
use rb_fragment::held::Held;
use rb_fragment::patch::patch_all;
use rb_layout::agreed::Agreed;
use rb_target::body::{Body, Hole};
use rb_target::instr::Instr;
use std::alloc::{AllocError, Global};

// A construction whose leaf is asked for: the program, the type, and which leaves it can still have.
#[derive(Clone, Copy)]
struct Whole<'a> {
    // The program, with its layouts.
    agreed: &'a Agreed,
    // The data type that is constructed, by number.
    ty: u32,
    // Leaves by number in the layout of that type. The value has one of them; where there are none,
    // no value comes here.
    leaves: &'a [usize],
}

// A part of a construction, with its words in slots. The leaf of the part tells leaves of the whole
// apart.
#[derive(Clone, Copy)]
struct Part<'a> {
    // Its position in the whole, and the constructor that some leaf of the whole has there, which
    // tells the type of the part.
    place: &'a Place,
    // The slots of its words, one a word, in their order.
    words: &'a [usize],
}

/// A value in slots whose leaf is known: parts of it are fetched from there.
#[derive(Clone, Copy)]
pub(crate) struct Source<'a> {
    /// The program, with its layouts.
    pub agreed: &'a Agreed,
    /// The data type of the value, by number.
    pub ty: u32,
    /// The leaf of the value, by number in the layout of that type.
    pub leaf: usize,
    /// The slots of the words of the value, one a word, in their order.
    pub words: &'a [usize],
}

// The code of the leaves of a part: the numbers of the instructions at which that of each leaf
// begins, and all ways out.
#[derive(Drop)]
struct LeafCode {
    starts: Seq<usize>,
    ways: Seq<Way>,
}

// How much a way has: parts in slots, positions that need no look, and constructors that are known.
#[derive(Clone, Copy)]
struct Amounts {
    parts: usize,
    looked: usize,
    known: usize,
}

// How much a way has so far.
fn amounts_of(parts: &Seq<Subvalue>, seen: &Seen) -> Amounts
    ensures { result
        ≡ record { parts = length parts.now; looked = length seen.now.looked; known = length seen.now.known } }
{
    Amounts {
        parts: parts.len(),
        looked: seen.looked.len(),
        known: seen.known.len(),
    }
}

// Takes back what a way got since it had so much.
fn take_back(parts: &mut Seq<Subvalue>, seen: &mut Seen, had: Amounts)
    ensures parts { parts.new ≡ take had.parts parts.old }
    ensures seen { seen.new ≡ seen_before had.looked had.known seen.old }
{
    parts.truncate(had.parts);
    forget(seen, had.looked, had.known);
}

// The end of a way: its leaf, number `leaf` of type `ty`, is the first of those that can still be
// here, and all is looked at. The code is an open jump, and the way has all of `parts`. Want of
// memory is the answer where there is no such leaf, or a part at an open position of it is missing.
fn end_way(
    alloc: Global,
    body: &mut Body,
    agreed: &Agreed,
    ty: u32,
    leaf: usize,
    parts: &[Subvalue],
) -> Result<Way, AllocError>
    ensures { IfOk result (λ way. IsEndOf agreed.now ty leaf parts.now body.old body.new way) }
{
    let Some(found) = leaf_at(agreed.layouts(), ty, leaf) else {
        return Err(AllocError);
    };
    let types = agreed.covered().program().types.as_slice();
    find_fields(alloc, types, ty, found, parts)?;
    let fields = copy_parts(alloc, parts)?;
    let pc = body.len();
    body.push(Instr::Jump(pc + 1))?;
    Ok(Way { pc, leaf, fields })
}

// The end of all looks, where one way is left: that of `end_way`.
fn end_ways(
    alloc: Global,
    body: &mut Body,
    agreed: &Agreed,
    ty: u32,
    leaf: usize,
    parts: &[Subvalue],
) -> Result<Seq<Way>, AllocError>
    ensures { IfOk result (λ ways. AreEndOf agreed.now ty leaf parts.now body.old body.new ways) }
{
    let way = end_way(alloc, body, agreed, ty, leaf, parts)?;
    let mut ways = Seq::new(alloc);
    ways.push(way)?;
    Ok(ways)
}

// Adds the code of one more leaf of a part, which begins at instruction `start` and has these ways.
// Want of memory may leave it added in part.
fn add_leaf(code: &mut LeafCode, start: usize, ways: Seq<Way>) -> Result<(), AllocError>
    ensures { OnOk result (code.new ≡ record { starts = code.old.starts ++ start ∷ []; ways = code.old.ways ++ ways }) }
{
    code.starts.push(start)?;
    if let Some(_) = code.ways.append(ways) {
        return Err(AllocError);
    }
    Ok(())
}

// Sets the holes of a look to the code of the leaves to which they lead, and answers its ways.
fn close_look(body: &mut Body, holes: Seq<Hole>, code: LeafCode) -> Seq<Way>
    requires { ArePatchable body.old.code holes code.starts }
    ensures ways { result ≡ code.ways }
    ensures code { body.new ≡ with_targets body.old holes code.starts }
{
    let LeafCode { starts, ways } = code;
    patch_all(body, holes.as_slice(), starts.as_slice());
    ways
}

// Code that looks into a construction whose leaf is one of those of `whole`, until it is known.
// `parts` are in slots, and `seen` is known of the value: both are lent for more, and on `Ok` are
// what they were. What is known may tell the leaf of the part that is asked for next; else the code
// looks there. Where there are no leaves, nothing is added, and there is no way. Want of memory at a
// `depth` of 0.
#[cycle(fetching)]
fn choose(
    alloc: Global,
    body: &mut Body,
    depth: usize,
    whole: &Whole,
    parts: &mut Seq<Subvalue>,
    seen: &mut Seen,
) -> Result<Seq<Way>, AllocError>
    ensures chooses { IfOk result (λ ways. AddsWays body.old body.new ways
        (ChoosesFrom whole.now.agreed.now whole.now.ty whole.now.leaves.now
        seen.old parts.old body.old body.new ways)) }
    ensures parts { OnOk result (parts.new ≡ parts.old) }
    ensures seen { OnOk result (seen.new ≡ seen.old) }
{
    if depth == 0 {
        return Err(AllocError);
    }
    let (agreed, ty) = (whole.agreed, whole.ty);
    let [leaf, ..] = whole.leaves else {
        return Ok(Seq::new(alloc));
    };
    let Some(question) = next_question(alloc, agreed, ty, *leaf, parts.as_slice(), seen)? else {
        return end_ways(alloc, body, agreed, ty, *leaf, parts.as_slice());
    };
    let place = &question.place;
    let words = question.words.as_slice();
    let part = Part { place, words };
    match question.told {
        Some(inner) => choose_under(alloc, body, depth - 1, whole, parts, seen, &part, inner),
        None => look(alloc, body, depth - 1, whole, parts, seen, &part),
    }
}

// Code that chooses among the leaves of `whole`, as `choose` does, by a look at `part`, one of
// `parts`: behind the look, the leaves of the part have their code, one behind the other.
#[cycle(fetching)]
fn look(
    alloc: Global,
    body: &mut Body,
    depth: usize,
    whole: &Whole,
    parts: &mut Seq<Subvalue>,
    seen: &mut Seen,
    part: &Part,
) -> Result<Seq<Way>, AllocError>
    ensures chooses { IfOk result (λ ways. AddsWays body.old body.new ways
        (IsPartIn parts.old part.now.place.now.path part.now.place.now.con.ty part.now.words.now
        → ChoosesBy whole.now.agreed.now whole.now.ty whole.now.leaves.now seen.old parts.old
        part.now.place.now.path part.now.place.now.con.ty body.old body.new ways)) }
    ensures parts { OnOk result (parts.new ≡ parts.old) }
    ensures seen { OnOk result (seen.new ≡ seen.old) }
{
    let own = part.place.con.ty;
    let Look { count, holes } = find_leaves(alloc, body, whole.agreed, own, part.words)?;
    let starts = Seq::new(alloc);
    let ways = Seq::new(alloc);
    let mut code = LeafCode { starts, ways };
    for inner in 0..count {
        let start = body.len();
        let ways = choose_under(alloc, body, depth, whole, parts, seen, part, inner)?;
        add_leaf(&mut code, start, ways)?;
    }
    let ways = close_look(body, holes, code);
    Ok(ways)
}

// The code that goes on where `part` has leaf number `inner` of its type: it chooses among those
// leaves of `whole` that it can still have then. The fields of the part are fetched first if one of
// these leaves takes it apart. `parts` and `seen` are as `choose` has them.
#[cycle(fetching)]
fn choose_under(
    alloc: Global,
    body: &mut Body,
    depth: usize,
    whole: &Whole,
    parts: &mut Seq<Subvalue>,
    seen: &mut Seen,
    part: &Part,
    inner: usize,
) -> Result<Seq<Way>, AllocError>
    ensures chooses { IfOk result (λ ways. AddsWays body.old body.new ways
        (ChoosesUnder whole.now.agreed.now whole.now.ty whole.now.leaves.now
        seen.old parts.old part.now.place.now.path part.now.place.now.con.ty part.now.words.now
        inner body.old body.new ways)) }
    ensures parts { OnOk result (parts.new ≡ parts.old) }
    ensures seen { OnOk result (seen.new ≡ seen.old) }
{
    let (agreed, ty, place) = (whole.agreed, whole.ty, part.place);
    let had = amounts_of(parts, seen);
    let learnt = learn(alloc, agreed, ty, whole.leaves, place, inner, seen)?;
    let source = Source {
        agreed,
        ty: place.con.ty,
        leaf: inner,
        words: part.words,
    };
    fetch_fields(
        alloc,
        body,
        depth,
        &source,
        &place.path,
        learnt.apart,
        parts,
    )?;
    let leaves = learnt.kept.as_slice();
    let fewer = Whole { agreed, ty, leaves };
    let ways = choose(alloc, body, depth, &fewer, parts, seen)?;
    take_back(parts, seen, had);
    Ok(ways)
}

// Fetches the fields of `source`, which is the part of a whole at a path, and adds them to `parts`,
// those of the whole that are in slots; nothing where they are not needed.
#[cycle(fetching)]
fn fetch_fields(
    alloc: Global,
    body: &mut Body,
    depth: usize,
    source: &Source,
    path: &Seq<u32>,
    needed: bool,
    parts: &mut Seq<Subvalue>,
) -> Result<(), AllocError>
    ensures fetches { OnOk result (FetchesFields source.now.agreed.now path.now source.now.ty source.now.leaf
        source.now.words.now body.old body.new parts.old parts.new) }
    ensures parts { OnOk result (take (length parts.old) parts.new ≡ parts.old) }
    ensures grows { OnOk result (Grows body.old.code body.new.code) }
{
    if !needed {
        return Ok(());
    }
    let layer = root_layer(source.agreed, source.ty, source.leaf)?;
    let root = Seq::new(alloc);
    let fields = fetch_parts(alloc, body, depth, source, layer.con, layer.subs, &root)?;
    add_parts(alloc, path, fields.as_slice(), parts)?;
    Ok(())
}

/// Code that leaves the part of `source` at a path below its root in slots, a word each. The
/// provenance of its leaf has the pattern `pat` there: a wildcard or a constructor, and of another
/// pattern want of memory is the answer, as it is at a `depth` of 0.
#[cycle(fetching)]
pub(crate) fn fetch_part(
    alloc: Global,
    body: &mut Body,
    depth: usize,
    source: &Source,
    pat: &Pat,
    path: &Seq<u32>,
) -> Result<Seq<usize>, AllocError>
    ensures fetches { IfOk result (λ slots. FetchesPart source.now.agreed.now source.now.ty source.now.leaf
        pat.now path.now source.now.words.now body.old body.new slots) }
    ensures grows { OnOk result (Grows body.old.code body.new.code) }
{
    if depth == 0 {
        return Err(AllocError);
    }
    let agreed = source.agreed;
    let _typed = agreed.covered().program();
    let _agreed = agreed.layouts();
    match pat {
        Pat::Var(_, _) | Pat::Num(_, _) => Err(AllocError),
        Pat::Wild(_) => {
            let (words, ty, leaf) = (source.words, source.ty, source.leaf);
            fetch_open(alloc, body, words, agreed, ty, leaf, path.as_slice())
        }
        Pat::Con(_, con, subs) => {
            let subs = subs.as_slice();
            let args = fetch_parts(alloc, body, depth - 1, source, *con, subs, path)?;
            let held = construct_at(alloc, body, agreed, depth - 1, *con, args.as_slice(), subs)?;
            Ok(held.slots)
        }
    }
}

// Code that leaves the parts of `source` at the fields of a constructor in slots, in their order.
// The constructor stands at a path of the provenance of its leaf, with the subpatterns `subs`, one
// a field.
#[cycle(fetching)]
fn fetch_parts(
    alloc: Global,
    body: &mut Body,
    depth: usize,
    source: &Source,
    con: ConRef,
    subs: &[Pat],
    path: &Seq<u32>,
) -> Result<Seq<Held>, AllocError>
    ensures fetches { IfOk result (λ args. FetchesParts source.now.agreed.now source.now.ty source.now.leaf
        con subs.now (length subs.now) path.now source.now.words.now body.old body.new args) }
    ensures grows { OnOk result (Grows body.old.code body.new.code) }
{
    let mut args = Seq::new(alloc);
    for (j, sub) in subs.iter().enumerate() {
        let field = field_at(alloc, source.agreed, con, path, j)?;
        let slots = fetch_part(alloc, body, depth, source, sub, &field.path)?;
        args.push(Held {
            ty: field.ty,
            slots,
        })?;
    }
    Ok(args)
}

/// What `construct` appends, where `depth` calls may be nested still: code that makes the value of
/// the constructor `con`, of the values `args`, which are in slots and match the patterns `shown`.
/// It looks into the arguments until the leaf of the value is known.
///
/// # Errors
///
/// Want of memory; the same answer where calls would be nested deeper than `depth`, and where the
/// type has no layout.
#[cycle(fetching)]
pub(crate) fn construct_at(
    alloc: Global,
    body: &mut Body,
    agreed: &Agreed,
    depth: usize,
    con: ConRef,
    args: &[Held],
    shown: &[Pat],
) -> Result<Held, AllocError>
    ensures constructs { IfOk result
        (λ held. Constructs agreed.now con args.now shown.now body.old body.new held) }
    ensures grows { OnOk result (Grows body.old.code body.new.code) }
{
    if let Some(leaf) = alone_in(alloc, agreed, con)? {
        return emit_alone(alloc, body, leaf, con, args);
    }
    let mut start = start_of(alloc, agreed, con, args, shown)?;
    let leaves = start.leaves.as_slice();
    let whole = Whole {
        agreed,
        ty: con.ty,
        leaves,
    };
    let ways = choose(
        alloc,
        body,
        depth,
        &whole,
        &mut start.parts,
        &mut start.seen,
    )?;
    emit_choices(alloc, body, agreed, con, ways)
}
