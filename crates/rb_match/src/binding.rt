//! Code that binds a pattern's variables, that is, leaves their values in slots.
//!
//! A leaf is one of the forms in which a layout stores the values of a data type, given by its
//! number; its provenance is the pattern of these values. It takes a field apart where it has what
//! stands in the field, and no words of the field itself, which is rebuilt then. A spot is slots in
//! which a field is saved; `known` says which spots hold their fields. `words` are the slots of a
//! value's words. `subs` are the patterns of a constructor's fields, `fields` the fields' types,
//! both in their order. `agreed` is the program with its layouts, and `body` the code so far, at
//! whose end new code is appended.

ghost use Rattle.std.specs.Prelude.{◌≡◌, ◌∷◌, ◌++◌, [], IfOk, IfSome, OnOk, true, false};
ghost use Rattle.rb_core.specs.declared.types.Ty.TheVariants.{Named};
ghost use Rattle.rb_core.specs.Typing.{field_types};
ghost use Rattle.rb_target.specs.Growth.{Grows};
ghost use Rattle.rb_fetch.specs.Finding.{leaf_count};
ghost use Rattle.rb_match.specs.Choosing.{BindsPattern};
ghost use Rattle.rb_match.specs.inner.Binding.{BindsBare, IsLeftOut, IsOnly, IsOnlyLeaf, BindsFieldFrom, BindsFieldsFrom, FieldStands, GivesFields, SavesTogether, StandsInSpot};
ghost use Rattle.rb_facts.specs.Looks.{takes_none_apart};

use crate::asking::{Test, Whole};
use crate::deep::ask_deep;
use crate::engine::land;
use crate::patterns::binds_nothing;
use rb_core::inference::types_of_fields;
use rb_core::pattern::Pat;
use rb_core::seq::Seq;
use rb_core::types::{ConRef, Ty};
use rb_decide::clause_matrix::number_of;
use rb_decide::decision_graph::GraphArm;
use rb_facts::knowledge::{Known, Spot, node_known, saved_known};
use rb_facts::links::count_leaves;
use rb_facts::saving::{LeafSlots, fetch_part, spot_at};
use rb_facts::spots::{Wanted, give_spots, is_deep};
use rb_fetch::field::copy_slots;
use rb_fragment::held::Local;
use rb_fragment::reads::slot_reads;
use rb_layout::agreed::Agreed;
use rb_layout::paths::path_below;
use rb_matrix::are_apart;
use rb_matrix::matrix::Head;
use rb_target::body::Body;
use std::alloc::{AllocError, Global};

// Whether a leaf may have a value that a pattern matches; so it is taken to be where there is no
// such leaf.
fn may_have(agreed: &Agreed, ty: u32, leaf: usize, pat: &Pat) -> bool
    ensures { result ≡ false → IsLeftOut agreed.now ty pat.now leaf }
{
    let Some(layout) = agreed.layouts().get(ty as usize) else {
        return true;
    };
    match layout.leaves.get(leaf) {
        None => true,
        Some(found) => !are_apart(&found.prov, pat),
    }
}

// Whether no other leaf may have a value that a pattern matches.
fn is_only(agreed: &Agreed, ty: u32, pat: &Pat, leaf: usize) -> bool
    ensures { result ≡ true → IsOnly agreed.now ty pat.now leaf (leaf_count agreed.now ty) }
{
    let count = count_leaves(agreed, ty);
    for i in 0..count {
        if i != leaf {
            if may_have(agreed, ty, i, pat) {
                return false;
            }
        }
    }
    true
}

// The leaf of the values that a pattern matches, where that is one; None where several leaves may
// have such values, or none. Where no leaf of a type takes a field apart, each constructor has one
// leaf.
fn only_leaf(agreed: &Agreed, ty: u32, pat: &Pat) -> Option<usize>
    ensures { IfSome result (λ leaf. IsOnlyLeaf agreed.now ty pat.now leaf) }
{
    for i in 0..count_leaves(agreed, ty) {
        if may_have(agreed, ty, i, pat) {
            if is_only(agreed, ty, pat, i) {
                return Some(i);
            }
            return None;
        }
    }
    None
}

// The variable that a pattern binds which is one: it has the value's own slots.
fn bound_variable(
    alloc: Global,
    ty: Ty,
    words: &[usize],
    var: u32,
) -> Result<Seq<Local>, AllocError>
    ensures { IfOk result (λ bound. bound ≡ record { var = var; ty = ty; slots = words.now } ∷ []) }
{
    let slots = copy_slots(alloc, words)?;
    let mut bound = Seq::new(alloc);
    bound.push(Local { var, ty, slots })?;
    Ok(bound)
}

// The types of a constructor's fields, in their order; none where the program has no such
// constructor.
fn fields_of_con(agreed: &Agreed, con: ConRef) -> &[Ty]
    ensures { result.now ≡ field_types agreed.now.covered.program.types con }
{
    let types = agreed.covered().program().types.as_slice();
    types_of_fields(types, con)
}

// What a pattern that is no constructor binds at a value of this type, whose words stand in some slots: a variable has
// these very slots. There is no code for it. A constructor is an error.
fn bind_bare(alloc: Global, ty: Ty, words: &[usize], pat: &Pat) -> Result<Seq<Local>, AllocError>
    ensures { IfOk result (λ bound. BindsBare ty pat.now words.now bound) }
{
    match pat {
        Pat::Wild(_) => Ok(Seq::new(alloc)),
        Pat::Num(_, _) => Ok(Seq::new(alloc)),
        Pat::Var(_, var) => bound_variable(alloc, ty, words, *var),
        Pat::Con(_, _, _) => Err(AllocError),
    }
}

// Code that binds what a pattern binds at a value of this type, whose words stand in some slots:
// the variables with their slots. A variable that is the whole pattern has these very slots. A constructor's pattern is
// given only where it has a variable.
#[cycle(binding)]
fn bind_at(
    alloc: Global,
    body: &mut Body,
    agreed: &Agreed,
    ty: Ty,
    words: &[usize],
    pat: &Pat,
) -> Result<Seq<Local>, AllocError>
    ensures binds { IfOk result (λ bound. BindsPattern agreed.now ty pat.now words.now body.old body.new bound) }
    ensures grows { OnOk result (Grows body.old.code body.new.code) }
{
    match pat {
        Pat::Wild(_) | Pat::Var(_, _) | Pat::Num(_, _) => { bind_bare(alloc, ty, words, pat) }
        Pat::Con(_, con, subs) => {
            let fields = fields_of_con(agreed, *con);
            let subs = subs.as_slice();
            let source = field_source(alloc, body, agreed, ty, *con, words, pat, subs, fields)?;
            bind_fields(alloc, body, agreed, &source, subs, fields, 0)
        }
    }
}

// The leaf of the values that a constructor's pattern matches, where that is one and the
// constructor is of the type; else None.
fn leaf_for(agreed: &Agreed, ty: Ty, con: ConRef, pat: &Pat) -> Option<usize>
    ensures { IfSome result (λ leaf. (ty ≡ Named con.ty) × IsOnlyLeaf agreed.now con.ty pat.now leaf) }
{
    match ty {
        Ty::Int(_) => None,
        Ty::Named(t) => {
            if t == con.ty {
                only_leaf(agreed, con.ty, pat)
            } else {
                None
            }
        }
    }
}

// Whether a type is the data type with this number, and some leaf of it takes a subvalue apart.
fn is_deep_at(agreed: &Agreed, ty: Ty, number: u32) -> bool
    ensures { result ≡ true → (ty ≡ Named number) × (takes_none_apart agreed.now.layouts number ≡ false) }
{
    match ty {
        Ty::Int(_) => false,
        Ty::Named(found) => found == number && is_deep(agreed, number),
    }
}

// The fields whose patterns have variables, each with its type and its position below the value:
// its number alone. No clause says which these are: a field that has a variable and is not saved is
// an error where the variable is bound.
fn bound_fields(alloc: Global, subs: &[Pat], fields: &[Ty]) -> Result<Seq<Wanted>, AllocError> {
    let mut wanted = Seq::new(alloc);
    for (i, field) in fields.iter().enumerate() {
        if let Some(sub) = subs.get(i)
            && !binds_nothing(sub)
        {
            let position = path_below(alloc, &[], number_of(i)? as usize)?;
            wanted.push(Wanted {
                position,
                ty: *field,
            })?;
        }
    }
    Ok(wanted)
}

// Code that saves the fields that have spots, where the value, whose words stand in slots, begins
// with a constructor that has several leaves: it finds the leaf and saves on the way of each, and
// these ways meet at its end. The answer is what is known then by whichever way. A type without a
// leaf of the constructor is an error.
fn save_together(
    alloc: Global,
    body: &mut Body,
    agreed: &Agreed,
    con: ConRef,
    words: &[usize],
    spots: &[Spot],
) -> Result<Seq<Known<'static>>, AllocError>
    ensures saves { IfOk result (λ known. SavesTogether agreed.now con words.now spots.now known body.old body.new) }
    ensures grows { OnOk result (Grows body.old.code body.new.code) }
{
    let reads = slot_reads(alloc, words)?;
    let arms = [GraphArm {
        head: Head::Con(con),
        under: 0,
    }];
    let ty = con.ty;
    let reads = reads.as_slice();
    let graph = Whole {
        ty: Ty::Named(ty),
        pats: &[],
        nodes: &[],
    };
    let test = Test {
        known: &[],
        position: &[],
        arms: &arms,
        other: None,
    };
    let edges = ask_deep(alloc, body, agreed, &graph, ty, reads, spots, &test)?;
    let Some(known) = node_known(alloc, edges.as_slice(), 0)? else {
        return Err(AllocError);
    };
    let _rest = land(alloc, body, edges, 0)?;
    Ok(known)
}

// The slots of the spot of a field of this type. A field that is not known to be saved is an error.
fn saved_slots(
    alloc: Global,
    spots: &[Spot],
    known: &[Known],
    field: u32,
    ty: Ty,
) -> Result<Seq<usize>, AllocError>
    ensures { IfOk result (λ slots. StandsInSpot spots.now known.now field ty slots) }
{
    let path = [field];
    let Some(k) = spot_at(spots, &path, ty) else {
        return Err(AllocError);
    };
    if !saved_known(known, k) {
        return Err(AllocError);
    }
    let words = spots[k].slots.as_slice();
    copy_slots(alloc, words)
}

// Where the words of a constructor's fields are got from.
#[derive(Drop)]
enum FieldSource<'b> {
    // The value's own words, as its leaf has them.
    Leaf(LeafSlots<'b>),
    // Spots, with what is known: which of them hold their fields.
    Spots(Seq<Spot>, Seq<Known<'static>>),
}

// Where the fields are got from of a value that the pattern `pat` matches, a constructor with these
// subpatterns: from the value's words, where that constructor's values have one leaf. Where they
// have several, the code saves fields on the way of each leaf, and these ways meet at its end.
// Where no leaf takes a subvalue apart each constructor has one leaf, so that this is never met: it
// is an error, as is a constructor of another type.
fn field_source<'b>(
    alloc: Global,
    body: &mut Body,
    agreed: &Agreed,
    ty: Ty,
    con: ConRef,
    words: &'b [usize],
    pat: &Pat,
    subs: &[Pat],
    fields: &[Ty],
) -> Result<FieldSource<'b>, AllocError>
    ensures gives { IfOk result (λ source. GivesFields agreed.now ty con words.now pat.now subs.now fields.now source
        body.old body.new) }
    ensures grows { OnOk result (Grows body.old.code body.new.code) }
{
    let _agree = agreed.covered();
    let _flat = agreed.layouts();
    if let Some(leaf) = leaf_for(agreed, ty, con, pat) {
        return Ok(FieldSource::Leaf(LeafSlots {
            ty: con.ty,
            leaf,
            words,
        }));
    }
    if !is_deep_at(agreed, ty, con.ty) {
        return Err(AllocError);
    }
    let wanted = bound_fields(alloc, subs, fields)?;
    let spots = give_spots(alloc, body, agreed, wanted.as_slice())?;
    let known = save_together(alloc, body, agreed, con, words, spots.as_slice())?;
    Ok(FieldSource::Spots(spots, known))
}

// Code that leaves the words of field number `i`, of this type, in slots: new ones, the value's own
// or those of the field's spot. A field that the value's leaf takes apart is rebuilt. A leaf
// without this field is an error, as is a field that is not saved.
fn field_slots(
    alloc: Global,
    body: &mut Body,
    agreed: &Agreed,
    source: &FieldSource,
    field: Ty,
    i: u32,
) -> Result<Seq<usize>, AllocError>
    ensures stands { IfOk result (λ slots. FieldStands agreed.now source.now field i body.old body.new slots) }
    ensures grows { OnOk result (Grows body.old.code body.new.code) }
{
    match source {
        FieldSource::Leaf(value) => {
            let path = [i];
            fetch_part(alloc, body, agreed, value, &path, field)
        }
        FieldSource::Spots(spots, known) => {
            let spots = spots.as_slice();
            let known = known.as_slice();
            saved_slots(alloc, spots, known, i, field)
        }
    }
}

// Code that binds what the pattern of field number `i` binds. There is no code for a pattern
// without variables.
#[cycle(binding)]
fn bind_field(
    alloc: Global,
    body: &mut Body,
    agreed: &Agreed,
    source: &FieldSource,
    sub: &Pat,
    field: Ty,
    i: u32,
) -> Result<Seq<Local>, AllocError>
    ensures binds { IfOk result
        (λ bound. BindsFieldFrom agreed.now source.now sub.now field i body.old body.new bound) }
    ensures grows { OnOk result (Grows body.old.code body.new.code) }
{
    if binds_nothing(sub) {
        return Ok(Seq::new(alloc));
    }
    let slots = field_slots(alloc, body, agreed, source, field, i)?;
    bind_at(alloc, body, agreed, field, slots.as_slice(), sub)
}

// Code that binds what the patterns of fields bind, the first of which is field i. Fewer types than
// patterns are an error.
#[cycle(binding)]
fn bind_fields(
    alloc: Global,
    body: &mut Body,
    agreed: &Agreed,
    source: &FieldSource,
    subs: &[Pat],
    fields: &[Ty],
    i: usize,
) -> Result<Seq<Local>, AllocError>
    ensures binds { IfOk result
        (λ bound. BindsFieldsFrom agreed.now source.now subs.now fields.now i body.old body.new bound) }
    ensures grows { OnOk result (Grows body.old.code body.new.code) }
{
    let [sub, subs @ ..] = subs else {
        return Ok(Seq::new(alloc));
    };
    let [field, fields @ ..] = fields else {
        return Err(AllocError);
    };
    let number = number_of(i)?;
    let bound = bind_field(alloc, body, agreed, source, sub, *field, number)?;
    let more = bind_fields(alloc, body, agreed, source, subs, fields, i + 1)?;
    let all = joined(bound, more)?;
    Ok(all)
}

// The variables of one list, and behind them those of another.
fn joined(bound: Seq<Local>, more: Seq<Local>) -> Result<Seq<Local>, AllocError>
    ensures { IfOk result (λ all. all ≡ bound ++ more) }
{
    let mut bound = bound;
    match bound.append(more) {
        None => Ok(bound),
        Some(_) => Err(AllocError),
    }
}

/// Code that leaves the values of a pattern's variables in slots, where the pattern matches the value
/// whose words stand in some slots. A variable that is the whole pattern has the value's own slots.
///
/// # Errors
///
/// Want of memory.
pub fn bind(
    alloc: Global,
    body: &mut Body,
    agreed: &Agreed,
    ty: Ty,
    words: &[usize],
    pat: &Pat,
) -> Result<Seq<Local>, AllocError>
    ensures binds { IfOk result (λ bound. BindsPattern agreed.now ty pat.now words.now body.old body.new bound) }
    ensures grows { OnOk result (Grows body.old.code body.new.code) }
{
    if binds_nothing(pat) {
        return Ok(Seq::new(alloc));
    }
    bind_at(alloc, body, agreed, ty, words, pat)
}
