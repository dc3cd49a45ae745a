//! Whether a leaf excludes at a location what another does, told by their parts alone. A part is
//! some bits of a word, `l` from bit `o` on; a location leads to a range of bits of a word, and a
//! leaf excludes a number there that its bits never are.
//!
//! What a leaf excludes rests on the parts of the word that meet the range: constants, pointers, and the
//! types of fields of which they have words. So leaves that are alike there exclude the same. Take
//!
//! ```text
//! split 0[0:32] { 7 => .. else => split 0[32:32] {
//!     0 => E(A, _) : { word 64 { [0:32] .1, [32:32] = 0 } }
//!     1 => E(B, _) : { word 64 { [0:32] .1, [32:32] = 1 } }
//! } }
//! ```
//!
//! The second parts differ, but lie beside the range, and field 1 is of one type. If the first leaf
//! excludes the literals beside the `else`, each of which is a question to all leaves of that type, the
//! second does.

ghost use Rattle.std.specs.Prelude.{◌≡◌};
ghost use Rattle.std.specs.Bool.{OnTrue};
ghost use Rattle.rb_agree.specs.inner.Alike.{AreAlike, AreKinds, ArePartsAlike, IsBeside, IsPartAlike};

use rb_core::layout_decl::Loc;
use rb_core::pattern::Pat;
use rb_core::types::{DataDecl, Ty};
use rb_layout::layout::{Kind, Leaf, Part};
use rb_layout::positions::type_at;

// Whether a part has a bit and lies beside the range of `l` bits from bit `o` on.
fn is_beside(part: &Part, o: u64, l: u64) -> bool
    ensures { OnTrue result (IsBeside o l part.now) }
{
    if part.l == 0 {
        return false;
    }
    if part.o <= o && part.l <= o - part.o {
        return true;
    }
    if o <= part.o && l <= part.o - o {
        return true;
    }
    false
}

// Whether both are the same data type; false also where one is an integer or missing.
fn same_type(one: Option<Ty>, other: Option<Ty>) -> bool
    ensures { OnTrue result (one ≡ other) }
{
    match one {
        None => false,
        Some(Ty::Int(_)) => false,
        Some(Ty::Named(s)) => match other {
            None => false,
            Some(Ty::Int(_)) => false,
            Some(Ty::Named(t)) => s == t,
        },
    }
}

// Whether what two parts hold, `kind` and `kind_2`, is alike: the same number, bits both, pointers
// both, or the same word of fields of one type, where `one` and `other` are the provenances of
// their leaves.
fn same_kind(types: &[DataDecl], one: &Pat, other: &Pat, kind: &Kind, kind_2: &Kind) -> bool
    ensures { OnTrue result (AreKinds types.now one.now other.now kind.now kind_2.now) }
{
    match kind {
        Kind::Const(c) => match kind_2 {
            Kind::Const(d) => *c == *d,
            Kind::Bits(_, _) | Kind::Word(_, _) | Kind::Pointer(_, _) => false,
        },
        Kind::Bits(_, _) => match kind_2 {
            Kind::Bits(_, _) => true,
            Kind::Const(_) | Kind::Word(_, _) | Kind::Pointer(_, _) => false,
        },
        Kind::Word(path, word) => match kind_2 {
            Kind::Word(path_2, word_2) => {
                if *word != *word_2 {
                    return false;
                }
                same_type(
                    type_at(types, one, path.as_slice()),
                    type_at(types, other, path_2.as_slice()),
                )
            }
            Kind::Const(_) | Kind::Bits(_, _) | Kind::Pointer(_, _) => false,
        },
        Kind::Pointer(_, _) => match kind_2 {
            Kind::Pointer(_, _) => true,
            Kind::Const(_) | Kind::Bits(_, _) | Kind::Word(_, _) => false,
        },
    }
}

// Whether two parts are alike in a location's range: both beside it, or of the same bits and of one
// kind. `one` and `other` are the provenances of their leaves.
fn is_part_alike(
    types: &[DataDecl],
    one: &Pat,
    other: &Pat,
    loc: &Loc,
    part: &Part,
    part_2: &Part,
) -> bool
    ensures { OnTrue result (IsPartAlike types.now one.now other.now loc.now.o loc.now.l part.now part_2.now) }
{
    if is_beside(part, loc.o, loc.l) {
        if is_beside(part_2, loc.o, loc.l) {
            return true;
        }
    }
    if part.o != part_2.o {
        return false;
    }
    if part.l != part_2.l {
        return false;
    }
    same_kind(types, one, other, &part.kind, &part_2.kind)
}

// Whether the parts of two words are alike in a location's range, one by one; false where one word
// has more. `one` and `other` are the provenances of their leaves.
fn are_parts_alike(
    types: &[DataDecl],
    one: &Pat,
    other: &Pat,
    loc: &Loc,
    parts: &[Part],
    parts_2: &[Part],
) -> bool
    ensures { OnTrue result (ArePartsAlike types.now one.now other.now loc.now.o loc.now.l parts.now parts_2.now) }
{
    if parts.len() != parts_2.len() {
        return false;
    }
    for k in 0..parts.len() {
        if !is_part_alike(types, one, other, loc, &parts[k], &parts_2[k]) {
            return false;
        }
    }
    true
}

/// Whether two leaves are known to be alike at a location in a root word; false where it leads on
/// through a pointer, or a leaf has no such word.
pub(crate) fn are_alike(types: &[DataDecl], one: &Leaf, other: &Leaf, loc: &Loc) -> bool
    ensures { OnTrue result (AreAlike types.now one.now other.now loc.now) }
{
    if !loc.steps.is_empty() {
        return false;
    }
    let Ok(word) = usize::try_from(loc.word) else {
        return false;
    };
    let Some(word_1) = one.root.get(word) else {
        return false;
    };
    let Some(word_2) = other.root.get(word) else {
        return false;
    };
    if word_1.width != word_2.width {
        return false;
    }
    are_parts_alike(
        types,
        &one.prov,
        &other.prov,
        loc,
        word_1.parts.as_slice(),
        word_2.parts.as_slice(),
    )
}
