//! What a list of patterns misses, which of them no value reaches first, and what two have in common.
//! The answers were worked out by hand, over types written for these rows.
//!
//! A pattern is written as one letter or digit for each of its nodes, a node before its subpatterns:
//! `_`; a digit; the colours R, G and B; L for a leaf and N for a node of a left tree, a colour and a
//! right tree; P for a pair of a colour and a tree; S for six bits.

ghost use Rattle.std.specs.Prelude.{◌≡◌, ◌<◌, ◌≤◌, ◌∷◌, ◌++◌, [], IfOk, OnOk};
ghost use Rattle.rb_core.specs.declared.types.Ty.TheVariants as Tys;
ghost use Rattle.rb_rows_patterns.specs.inner.Examples.{color_decl, tree_decl, pair_decl, six_decl, example_types};

use rb_core::pattern::Pat;
use rb_core::seq::Seq;
use rb_core::types::{Con, ConRef, DataDecl, Ty};
use rb_matrix::{
    Head, Matrix, MatrixFault, common, default_of_row, default_rows, exhaust, find, specialize,
    specialize_row, unreached,
};
use std::alloc::{AllocError, Global};
use std::test::Fail;

// Puts a constructor behind those of a type.
fn add(alloc: Global, cons: &mut Seq<Con>, name: &[u8], fields: &[Ty]) -> Result<(), AllocError>
    ensures { OnOk result (cons.new ≡ cons.old ++ (record { name = name.now; fields = fields.now } ∷ [])) }
{
    let name = Seq::from_vec(Vec::from_slice(alloc, name)?);
    let fields = Seq::from_vec(Vec::from_slice(alloc, fields)?);
    cons.push(Con { name, fields })
}

// A type with this name and these constructors.
fn data(alloc: Global, name: &[u8], cons: Seq<Con>) -> Result<DataDecl, AllocError>
    ensures { IfOk result (λ d. d ≡ record { name = name.now; cons = cons }) }
{
    let name = Seq::from_vec(Vec::from_slice(alloc, name)?);
    Ok(DataDecl { name, cons })
}

// `type C = R | G | B`
fn color(alloc: Global) -> Result<DataDecl, AllocError>
    ensures { IfOk result (λ d. d ≡ color_decl) }
{
    let mut cons = Seq::new(alloc);
    add(alloc, &mut cons, b"R", &[])?;
    add(alloc, &mut cons, b"G", &[])?;
    add(alloc, &mut cons, b"B", &[])?;
    data(alloc, b"C", cons)
}

// `type T = L | N(T, C, T)`
fn tree(alloc: Global) -> Result<DataDecl, AllocError>
    ensures { IfOk result (λ d. d ≡ tree_decl) }
{
    let fields = [Ty::Named(1), Ty::Named(0), Ty::Named(1)];
    let mut cons = Seq::new(alloc);
    add(alloc, &mut cons, b"L", &[])?;
    add(alloc, &mut cons, b"N", &fields)?;
    data(alloc, b"T", cons)
}

// `type P = P(C, T)`
fn pair(alloc: Global) -> Result<DataDecl, AllocError>
    ensures { IfOk result (λ d. d ≡ pair_decl) }
{
    let mut cons = Seq::new(alloc);
    add(alloc, &mut cons, b"P", &[Ty::Named(0), Ty::Named(1)])?;
    data(alloc, b"P", cons)
}

// `type S = S(u1, u1, u1, u1, u1, u1)`
fn six(alloc: Global) -> Result<DataDecl, AllocError>
    ensures { IfOk result (λ d. d ≡ six_decl) }
{
    let bit = Ty::Int(1);
    let mut cons = Seq::new(alloc);
    add(alloc, &mut cons, b"S", &[bit, bit, bit, bit, bit, bit])?;
    data(alloc, b"S", cons)
}

// Colours, trees, pairs and six bits are types 0 to 3.
fn types(alloc: Global) -> Result<Vec<DataDecl>, AllocError>
    ensures { IfOk result (λ v. v.items ≡ example_types) }
{
    let mut types = Vec::new(alloc);
    types.push(color(alloc)?)?;
    types.push(tree(alloc)?)?;
    types.push(pair(alloc)?)?;
    types.push(six(alloc)?)?;
    Ok(types)
}

// Takes so many patterns off a list that holds the next one at its end.
fn take_last(alloc: Global, pats: &mut Vec<Pat>, count: usize) -> Result<Seq<Pat>, AllocError> {
    let mut taken = Seq::new(alloc);
    for _i in 0..count {
        taken.push(pats.pop().unwrap_or(Pat::Wild(0)))?;
    }
    Ok(taken)
}

// A letter's constructor, and how many subpatterns it has.
fn letter(byte: u8) -> Option<(u32, u32, usize)> {
    match byte {
        b'R' => Some((0, 0, 0)),
        b'G' => Some((0, 1, 0)),
        b'B' => Some((0, 2, 0)),
        b'L' => Some((1, 0, 0)),
        b'N' => Some((1, 1, 3)),
        b'P' => Some((2, 0, 2)),
        b'S' => Some((3, 0, 6)),
        _ => None,
    }
}

// A wildcard, a variable or a digit.
fn plain(byte: u8) -> Pat {
    match byte {
        b'_' => Pat::Wild(0),
        b'x' => Pat::Var(0, 0),
        digit => Pat::Num(0, u64::from(digit & 15)),
    }
}

// The patterns that a text spells.
fn row(alloc: Global, text: &[u8]) -> Result<Seq<Pat>, AllocError> {
    let mut pats = Vec::new(alloc);
    for byte in text.iter().rev() {
        let Some((ty, con, fields)) = letter(*byte) else {
            pats.push(plain(*byte))?;
            continue;
        };
        let subs = take_last(alloc, &mut pats, fields)?;
        pats.push(Pat::Con(0, ConRef { ty, con }, subs))?;
    }
    let count = pats.len();
    take_last(alloc, &mut pats, count)
}

// The letter of a constructor.
fn letter_of(con: ConRef) -> u8 {
    match (con.ty, con.con) {
        (0, 0) => b'R',
        (0, 1) => b'G',
        (0, _) => b'B',
        (1, 0) => b'L',
        (1, _) => b'N',
        (2, _) => b'P',
        _ => b'S',
    }
}

// The text of patterns, one behind another.
fn spell(out: &mut Vec<u8>, pats: &[Pat]) -> Result<(), AllocError> {
    for pat in pats {
        match pat {
            Pat::Wild(_) => out.push(b'_')?,
            Pat::Var(_, _) => out.push(b'x')?,
            Pat::Num(_, number) => out.push(b'0' + (*number & 15) as u8)?,
            Pat::Con(_, con, subs) => {
                out.push(letter_of(*con))?;
                spell(out, subs.as_slice())?;
            }
        }
    }
    Ok(())
}

// The text of a pattern.
fn text(alloc: Global, pat: &Pat) -> Result<Vec<u8>, AllocError> {
    let mut pats = Seq::new(alloc);
    pats.push(pat.copy(alloc)?)?;
    let mut out = Vec::new(alloc);
    spell(&mut out, pats.as_slice())?;
    Ok(out)
}

// The row of patterns that each text spells.
fn rows(alloc: Global, texts: &[&[u8]]) -> Result<Vec<Seq<Pat>>, AllocError> {
    let mut rows = Vec::new(alloc);
    for text in texts {
        rows.push(row(alloc, text)?)?;
    }
    Ok(rows)
}

// One pattern for each text.
fn patterns(alloc: Global, texts: &[&[u8]]) -> Result<Vec<Pat>, AllocError> {
    let mut pats = Vec::new(alloc);
    for text in texts {
        let mut one = row(alloc, text)?;
        pats.push(one.pop().unwrap_or(Pat::Wild(0)))?;
    }
    Ok(pats)
}

// What is missing among patterns of a type, as text; nothing where they are exhaustive.
fn missing_text(alloc: Global, ty: u32, pats: &[Pat]) -> Result<Vec<u8>, AllocError>
    requires { ty < 4 }
{
    let types = types(alloc)?;
    match exhaust(alloc, types.as_slice(), Ty::Named(ty), pats) {
        Ok(()) => Ok(Vec::new(alloc)),
        Err(MatrixFault::Missing(pat)) => text(alloc, &pat),
        Err(MatrixFault::Memory) => Err(AllocError),
    }
}

// The numbers of the patterns of a type that are the first match of no value.
fn never_reached(alloc: Global, ty: u32, pats: &[Pat]) -> Result<Vec<usize>, AllocError>
    requires { ty < 4 }
{
    let types = types(alloc)?;
    unreached(alloc, types.as_slice(), Ty::Named(ty), pats)
}

// What two patterns share, as text; nothing where they share no value.
fn shared_text(alloc: Global, ty: u32, one: &Pat, other: &Pat) -> Result<Vec<u8>, AllocError>
    requires { ty < 4 }
{
    let types = types(alloc)?;
    match common(alloc, types.as_slice(), Ty::Named(ty), one, other)? {
        None => Ok(Vec::new(alloc)),
        Some(pat) => text(alloc, &pat),
    }
}

// The row that is found for a tree and a colour, as text: what it matches, all wanted rows match
// and no unwanted one. Nothing where none is found.
fn found_text(
    alloc: Global,
    wanted: &[Seq<Pat>],
    unwanted: &[Seq<Pat>],
) -> Result<Vec<u8>, AllocError> {
    let types = types(alloc)?;
    let tys = [Ty::Named(1), Ty::Named(0)];
    let mut out = Vec::new(alloc);
    if let Some(row) = find(alloc, types.as_slice(), &tys, wanted, unwanted)? {
        spell(&mut out, row.as_slice())?;
    }
    Ok(out)
}

// The least number that is missing among literals of an integer type; None where none is.
fn missing_number(alloc: Global, bits: u8, pats: &[Pat]) -> Result<Option<u64>, AllocError>
    requires some { 1 ≤ bits }
    requires word { bits ≤ 64 }
{
    match exhaust(alloc, &[], Ty::Int(bits), pats) {
        Ok(()) => Ok(None),
        Err(MatrixFault::Missing(Pat::Num(_, number))) => Ok(Some(number)),
        Err(_) => Err(AllocError),
    }
}

// What is missing among the patterns of these texts; nothing where no type has this number.
fn missing_of(alloc: Global, ty: u32, texts: &[&[u8]]) -> Result<Vec<u8>, AllocError> {
    let pats = patterns(alloc, texts)?;
    if ty < 4 {
        missing_text(alloc, ty, pats.as_slice())
    } else {
        Ok(Vec::new(alloc))
    }
}

// type, patterns, what is missing
const MISSING: &[(u32, &[&[u8]], &[u8])] = &[
    (0, &[b"R", b"G"], b"B"),
    (0, &[b"R", b"G", b"B"], b""),
    (0, &[b"B", b"x"], b""),
    (0, &[], b"_"),
    (1, &[b"N___"], b"L"),
    (1, &[b"L", b"NLxL"], b"NN_____"),
    (
        2,
        &[b"PR_", b"P_L", b"P_N_G_", b"P_N_B_", b"P_NLR_"],
        b"PGNN___R_",
    ),
    (2, &[b"PR_", b"PG_", b"PBL", b"PBNxxx"], b""),
    (3, &[b"S0_____", b"S_0____", b"S1_1___"], b"S110___"),
    (3, &[b"S0_____", b"S1____x"], b""),
];

#[test]
fn what_is_missing(rt: HostRuntime) -> Result<(), Fail> {
    for &(ty, texts, want) in MISSING {
        let found = missing_of(rt.alloc(), ty, texts)?;
        assert!(rt; found.as_slice() == want, "at {want:?}");
    }
    Ok(())
}

// So many literals from 0 on.
fn literals(alloc: Global, count: u64) -> Result<Vec<Pat>, AllocError> {
    let mut pats = Vec::new(alloc);
    for number in 0..count {
        pats.push(Pat::Num(0, number))?;
    }
    Ok(pats)
}

// width, how many literals, the least that is missing
const NUMBERS: &[(u8, u64, Option<u64>)] = &[
    (8, 255, Some(255)),
    (8, 256, None),
    (9, 256, Some(256)),
    (1, 1, Some(1)),
    (1, 2, None),
    (64, 3, Some(3)),
];

// The least number that is missing among the first literals; None where no type has this width, too.
fn missing_after(alloc: Global, bits: u8, count: u64) -> Result<Option<u64>, AllocError> {
    let pats = literals(alloc, count)?;
    if 1 <= bits && bits <= 64 {
        missing_number(alloc, bits, pats.as_slice())
    } else {
        Ok(None)
    }
}

#[test]
fn numbers_of_all_widths(rt: HostRuntime) -> Result<(), Fail> {
    for &(bits, count, want) in NUMBERS {
        let found = missing_after(rt.alloc(), bits, count)?;
        assert!(rt; found == want, "at {bits}");
    }
    Ok(())
}

// Which of the patterns of these texts no value reaches; none where no type has this number.
fn never_reached_of(alloc: Global, ty: u32, texts: &[&[u8]]) -> Result<Vec<usize>, AllocError> {
    let pats = patterns(alloc, texts)?;
    if ty < 4 {
        never_reached(alloc, ty, pats.as_slice())
    } else {
        Ok(Vec::new(alloc))
    }
}

// type, patterns, those that are the first match of no value
const UNREACHED: &[(u32, &[&[u8]], &[usize])] = &[
    (0, &[b"_", b"R"], &[1]),
    (0, &[b"R", b"R", b"G", b"B", b"x"], &[1, 4]),
    (1, &[b"L", b"N___", b"NLRL"], &[2]),
    (
        2,
        &[b"PR_", b"P_L", b"PRN___", b"P_N_R_", b"P__", b"_"],
        &[2, 5],
    ),
    (2, &[b"PRL", b"PGL", b"PBL", b"P_L", b"P_N___"], &[3]),
    (
        3,
        &[b"S0_____", b"S_0____", b"S00____", b"S11____", b"S1_____"],
        &[2, 4],
    ),
];

#[test]
fn what_is_never_reached(rt: HostRuntime) -> Result<(), Fail> {
    for &(ty, texts, want) in UNREACHED {
        let found = never_reached_of(rt.alloc(), ty, texts)?;
        assert!(rt; found.as_slice() == want, "at {want:?}");
    }
    Ok(())
}

// What the patterns of two texts share; nothing where no type has this number.
fn shared_of(alloc: Global, ty: u32, one: &[u8], other: &[u8]) -> Result<Vec<u8>, AllocError> {
    let pats = patterns(alloc, &[one, other])?;
    match pats.as_slice() {
        [one, other] if ty < 4 => shared_text(alloc, ty, one, other),
        _ => Ok(Vec::new(alloc)),
    }
}

// type, two patterns, what they share
const SHARED: &[(u32, &[u8], &[u8], &[u8])] = &[
    (0, b"R", b"x", b"R"),
    (0, b"R", b"G", b""),
    (2, b"PR_", b"P_L", b"PRL"),
    (2, b"PR_", b"PG_", b""),
    (2, b"P_NLR_", b"P_N_RNLBL", b"P_NLRNLBL"),
];

#[test]
fn what_two_patterns_share(rt: HostRuntime) -> Result<(), Fail> {
    for &(ty, one, other, want) in SHARED {
        let found = shared_of(rt.alloc(), ty, one, other)?;
        assert!(rt; found.as_slice() == want, "at {want:?}");
    }
    Ok(())
}

// What is found where the rows of these texts are wanted and unwanted.
fn found_of(alloc: Global, wanted: &[&[u8]], unwanted: &[&[u8]]) -> Result<Vec<u8>, AllocError> {
    let wanted = rows(alloc, wanted)?;
    let unwanted = rows(alloc, unwanted)?;
    found_text(alloc, wanted.as_slice(), unwanted.as_slice())
}

// wanted rows, unwanted rows, the row that is found, each of a tree and a colour
const FOUND: &[(&[&[u8]], &[&[u8]], &[u8])] = &[
    (&[], &[b"LR", b"LB", b"N____"], b"LG"),
    (&[b"N_R__", b"xG"], &[b"NL___"], b"NN___R_G"),
    (&[b"xR"], &[b"L_", b"N___R"], b""),
];

#[test]
fn what_is_found_in_two_columns(rt: HostRuntime) -> Result<(), Fail> {
    for &(wanted, unwanted, want) in FOUND {
        let found = found_of(rt.alloc(), wanted, unwanted)?;
        assert!(rt; found.as_slice() == want, "at {want:?}");
    }
    Ok(())
}

// The first so many patterns of six bits, all told apart.
fn table(alloc: Global, count: u64) -> Result<Vec<Pat>, AllocError> {
    let mut pats = Vec::new(alloc);
    for number in 0..count {
        let mut subs = Seq::new(alloc);
        for place in [32, 16, 8, 4, 2, 1] {
            subs.push(Pat::Num(0, number / place & 1))?;
        }
        pats.push(Pat::Con(0, ConRef { ty: 3, con: 0 }, subs))?;
    }
    Ok(pats)
}

// What is missing among so many of them.
fn missing_of_table(alloc: Global, count: u64) -> Result<Vec<u8>, AllocError> {
    let pats = table(alloc, count)?;
    missing_text(alloc, 3, pats.as_slice())
}

// Which of so many of them no value reaches.
fn never_reached_of_table(alloc: Global, count: u64) -> Result<Vec<usize>, AllocError> {
    let pats = table(alloc, count)?;
    never_reached(alloc, 3, pats.as_slice())
}

#[test]
fn forty_rows(rt: HostRuntime) -> Result<(), Fail> {
    assert!(rt; missing_of_table(rt.alloc(), 40)?.as_slice() == b"S11____".as_slice());
    assert!(rt; never_reached_of_table(rt.alloc(), 40)?.is_empty());
    assert!(rt; missing_of_table(rt.alloc(), 64)?.is_empty());
    Ok(())
}

// A tree whose ways are all this long.
fn full_tree(alloc: Global, levels: u32) -> Result<Pat, AllocError> {
    let mut tree = Pat::Con(0, ConRef { ty: 1, con: 0 }, Seq::new(alloc));
    for _level in 0..levels {
        let mut subs = Seq::new(alloc);
        subs.push(tree.copy(alloc)?)?;
        subs.push(Pat::Wild(0))?;
        subs.push(tree)?;
        tree = Pat::Con(0, ConRef { ty: 1, con: 1 }, subs);
    }
    Ok(tree)
}

// Whether a tree shares itself with itself.
fn shares_itself(alloc: Global, tree: &Pat) -> Result<bool, AllocError> {
    let want = text(alloc, tree)?;
    let found = shared_text(alloc, 1, tree, tree)?;
    Ok(found.as_slice() == want.as_slice())
}

#[test]
fn a_thousand_nodes(rt: HostRuntime) -> Result<(), Fail> {
    let tree = full_tree(rt.alloc(), 9)?;
    assert!(rt; shares_itself(rt.alloc(), &tree)?);
    Ok(())
}

// Whether a matrix has so many columns, and these rows as text, each behind a blank.
fn has_rows(
    alloc: Global,
    matrix: &Matrix,
    columns: usize,
    rows: &[u8],
) -> Result<bool, AllocError> {
    let mut out = Vec::new(alloc);
    for row in matrix.rows.as_slice() {
        out.push(b' ')?;
        spell(&mut out, row.as_slice())?;
    }
    Ok(matrix.tys.len() == columns && out.as_slice() == rows)
}

// Rows of a tree and a colour.
fn two_columns(alloc: Global) -> Result<Matrix, AllocError>
    ensures { IfOk result (λ m. m.tys ≡ Tys.Named 1 ∷ Tys.Named 0 ∷ []) }
{
    let mut rows = Seq::new(alloc);
    for text in [b"N_RLR".as_slice(), b"LG", b"xB", b"__"] {
        rows.push(row(alloc, text)?)?;
    }
    let tys = [Ty::Named(1), Ty::Named(0)];
    Ok(Matrix {
        tys: Seq::from_vec(Vec::from_slice(alloc, &tys)?),
        rows,
    })
}

// The specialized matrix of the two columns for the constructor `N`.
fn at_nodes(alloc: Global) -> Result<Matrix, AllocError> {
    let types = types(alloc)?;
    let node = Head::Con(ConRef { ty: 1, con: 1 });
    let matrix = two_columns(alloc)?;
    specialize(alloc, types.as_slice(), &matrix, &node)
}

// The default matrix of the two columns.
fn at_others(alloc: Global) -> Result<Matrix, AllocError> {
    let matrix = two_columns(alloc)?;
    default_rows(alloc, &matrix)
}

#[test]
fn one_column_less(rt: HostRuntime) -> Result<(), Fail> {
    let inner = at_nodes(rt.alloc())?;
    assert!(rt; has_rows(rt.alloc(), &inner, 4, b" _RLR ___B ____")?);
    let rest = at_others(rt.alloc())?;
    assert!(rt; has_rows(rt.alloc(), &rest, 1, b" B _")?);
    Ok(())
}

#[test]
fn single_rows(rt: HostRuntime) -> Result<(), Fail> {
    let three = [Pat::Num(0, 3)];
    assert!(rt; specialize_row(rt.alloc(), Head::Num(3), 0, &three)?.is_some());
    assert!(rt; specialize_row(rt.alloc(), Head::Num(4), 0, &three)?.is_none());
    assert!(rt; default_of_row(rt.alloc(), &three)?.is_none());
    Ok(())
}
