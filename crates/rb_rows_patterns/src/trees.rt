//! Trees of matches, and the graphs in which their equal parts stand once. Shapes and sizes were
//! worked out by hand: the first row's clause where it has no head, or else a test of the first
//! column in which it has one.
//!
//! A pattern is `_`, or four letters in the places of the fields of `Q`: A, B or `_`. A tree is
//! written as its clause's number; or as `.` and a position's field numbers, and in parentheses each
//! head with the tree under it, and `_` with the tree for all others.

use rb_core::pattern::Pat;
use rb_core::seq::Seq;
use rb_core::types::{Con, ConRef, DataDecl, Ty};
use rb_decide::{Graph, GraphNode, Tree, Tried, pattern_graph, share, tree, tree_up_to};
use rb_matrix::Head;
use std::alloc::{AllocError, Global};
use std::test::Fail;

// Constructors: names, and types of fields.
type Cons = &'static [(&'static [u8], &'static [Ty])];

const K: Ty = Ty::Named(0);

// A constructor with this name and these types of fields.
fn con(alloc: Global, name: &[u8], fields: &[Ty]) -> Result<Con, AllocError> {
    Ok(Con {
        name: Seq::from_vec(Vec::from_slice(alloc, name)?),
        fields: Seq::from_vec(Vec::from_slice(alloc, fields)?),
    })
}

// A type with this name and these constructors.
fn data(alloc: Global, name: &[u8], rows: Cons) -> Result<DataDecl, AllocError> {
    let mut cons = Seq::new(alloc);
    for (name, fields) in rows {
        cons.push(con(alloc, *name, *fields)?)?;
    }
    let name = Seq::from_vec(Vec::from_slice(alloc, name)?);
    Ok(DataDecl { name, cons })
}

// `type K = A | B` and `type Q = Q(K, K, K, K)` are types 0 and 1.
const LETTERS: Cons = &[(b"A", &[]), (b"B", &[])];

const FOURS: Cons = &[(b"Q", &[K, K, K, K])];

// The types `K` and `Q`, by their numbers.
fn types(alloc: Global) -> Result<Vec<DataDecl>, AllocError> {
    let letters = data(alloc, b"K", LETTERS)?;
    let fours = data(alloc, b"Q", FOURS)?;
    Ok(Vec::from_array(alloc, [letters, fours])?)
}

// The pattern that a text spells.
fn pattern(alloc: Global, text: &[u8]) -> Result<Pat, AllocError> {
    if text.len() < 4 {
        return Ok(Pat::Wild(0));
    }
    let mut subs = Seq::new(alloc);
    for byte in text {
        let sub = match *byte {
            b'A' => Pat::Con(0, ConRef { ty: 0, con: 0 }, Seq::new(alloc)),
            b'B' => Pat::Con(0, ConRef { ty: 0, con: 1 }, Seq::new(alloc)),
            _ => Pat::Wild(0),
        };
        subs.push(sub)?;
    }
    Ok(Pat::Con(0, ConRef { ty: 1, con: 0 }, subs))
}

// The pattern that each text spells.
fn patterns(alloc: Global, texts: &[&[u8]]) -> Result<Vec<Pat>, AllocError> {
    let mut pats = Vec::new(alloc);
    for text in texts {
        pats.push(pattern(alloc, text)?)?;
    }
    Ok(pats)
}

// The tree of a match on fours.
fn tree_of_fours(alloc: Global, texts: &[&[u8]]) -> Result<Tried, AllocError> {
    let types = types(alloc)?;
    let rows = patterns(alloc, texts)?;
    tree(alloc, types.as_slice(), Ty::Named(1), rows.as_slice())
}

// The tree of a match on fours, unless it has more than so many nodes.
fn tree_up_to_a_limit(alloc: Global, texts: &[&[u8]], limit: usize) -> Result<Tried, AllocError> {
    let types = types(alloc)?;
    let rows = patterns(alloc, texts)?;
    tree_up_to(
        alloc,
        types.as_slice(),
        Ty::Named(1),
        rows.as_slice(),
        limit,
    )
}

// So many literals from 0 on, and a last `_`.
fn literals(alloc: Global, count: u64) -> Result<Vec<Pat>, AllocError> {
    let mut pats = Vec::new(alloc);
    for number in 0..count {
        pats.push(Pat::Num(0, number))?;
    }
    pats.push(Pat::Wild(0))?;
    Ok(pats)
}

// The tree of a match on numbers.
fn tree_of_numbers(alloc: Global, count: u64) -> Result<Tried, AllocError> {
    let rows = literals(alloc, count)?;
    tree(alloc, &[], Ty::Int(16), rows.as_slice())
}

// `type T = L | N(T, T, T, T)` is type 0.
const GROWING: Cons = &[(b"L", &[]), (b"N", &[K, K, K, K])];

// The type `T` alone.
fn growing_type(alloc: Global) -> Result<Vec<DataDecl>, AllocError> {
    let tree = data(alloc, b"T", GROWING)?;
    Ok(Vec::from_array(alloc, [tree])?)
}

// The pattern of the tree in which each way to an `L` goes through so many `N`.
fn full(alloc: Global, depth: usize) -> Result<Pat, AllocError> {
    let mut pat = Pat::Con(0, ConRef { ty: 0, con: 0 }, Seq::new(alloc));
    for _i in 0..depth {
        let mut subs = Seq::new(alloc);
        for _j in 0..4 {
            subs.push(pat.copy(alloc)?)?;
        }
        pat = Pat::Con(0, ConRef { ty: 0, con: 1 }, subs);
    }
    Ok(pat)
}

// The graph of one full pattern.
fn graph_of_full(alloc: Global, depth: usize) -> Result<Graph, AllocError> {
    let types = growing_type(alloc)?;
    let pat = full(alloc, depth)?;
    pattern_graph(alloc, types.as_slice(), Ty::Named(0), &pat)
}

// The tree of one full pattern and `_`.
fn tree_of_full(alloc: Global, depth: usize) -> Result<Tried, AllocError> {
    let types = growing_type(alloc)?;
    let rows = [full(alloc, depth)?, Pat::Wild(0)];
    tree(alloc, types.as_slice(), Ty::Named(0), &rows)
}

// How many nodes a tree has.
fn size(tree: &Tree) -> usize {
    match tree {
        Tree::Clause(_) => 1,
        Tree::Test(_, arms, other) => {
            let mut total = 1usize;
            for arm in arms.as_slice() {
                total = total.wrapping_add(size(&arm.under));
            }
            match other {
                None => total,
                Some(tree) => total.wrapping_add(size(tree.get())),
            }
        }
    }
}

// The digit of a number below 8; of others, of its lowest three bits.
fn digit(number: u32) -> u8 {
    b'0' + (number & 7) as u8
}

// The letter of a head: of a constructor of `K` or `Q` its name, and `#` of any number.
fn head_letter(head: Head) -> u8 {
    match head {
        Head::Num(_) => b'#',
        Head::Con(con) => match (con.ty, con.con) {
            (0, 0) => b'A',
            (0, _) => b'B',
            _ => b'Q',
        },
    }
}

// Adds the text of a tree.
fn spell(out: &mut Vec<u8>, tree: &Tree) -> Result<(), AllocError> {
    match tree {
        Tree::Clause(clause) => out.push(digit(*clause))?,
        Tree::Test(position, arms, other) => {
            out.push(b'.')?;
            for field in position.as_slice() {
                out.push(digit(*field))?;
            }
            out.push(b'(')?;
            for arm in arms.as_slice() {
                out.push(head_letter(arm.head))?;
                spell(out, &arm.under)?;
            }
            if let Some(tree) = other {
                out.push(b'_')?;
                spell(out, tree.get())?;
            }
            out.push(b')')?;
        }
    }
    Ok(())
}

// The text of a tree.
fn text(alloc: Global, tried: &Tried) -> Result<Vec<u8>, AllocError> {
    let mut out = Vec::new(alloc);
    match tried {
        Tried::Built(tree) => spell(&mut out, tree)?,
        Tried::Over => {}
    }
    Ok(out)
}

// How many tests and clauses a graph has.
fn forms(graph: &Graph) -> (usize, usize) {
    let mut tests = 0usize;
    let mut clauses = 0usize;
    for node in graph.nodes.as_slice() {
        match node {
            GraphNode::Test(_, _, _) => tests = tests.wrapping_add(1),
            GraphNode::Clause(_) => clauses = clauses.wrapping_add(1),
        }
    }
    (tests, clauses)
}

// The nodes of a tree, and the tests and clauses of its graph; None where there is no tree.
fn sizes(alloc: Global, tried: &Tried) -> Result<Option<(usize, (usize, usize))>, AllocError> {
    match tried {
        Tried::Built(tree) => {
            let graph = share(alloc, tree)?;
            Ok(Some((size(tree), forms(&graph))))
        }
        Tried::Over => Ok(None),
    }
}

// patterns, the tree, its size; the tests and clauses of its graph
const TREES: &[(&[&[u8]], &[u8], usize, (usize, usize))] = &[
    (&[b"_"], b"0", 1, (0, 1)),
    (&[b"B___", b"A___"], b".(Q.0(B0A1))", 4, (2, 2)),
    (&[b"A___", b"_A__", b"_"], b".(Q.0(A0_.1(A1_2)))", 6, (3, 3)),
    (
        &[b"_AB_", b"A___", b"_"],
        b".(Q.1(A.2(B0_.0(A1_2))_.0(A1_2)))",
        10,
        (4, 3),
    ),
    (
        &[b"AA__", b"__AA", b"_"],
        b".(Q.0(A.1(A0_.2(A.3(A1_2)_2))_.2(A.3(A1_2)_2)))",
        14,
        (5, 3),
    ),
];

#[test]
fn trees_and_graphs(rt: HostRuntime) -> Result<(), Fail> {
    for &(texts, want, nodes, shared) in TREES {
        let tried = tree_of_fours(rt.alloc(), texts)?;
        let found = text(rt.alloc(), &tried)?;
        assert!(rt; found.as_slice() == want, "at {want:?}");
        let sizes = sizes(rt.alloc(), &tried)?;
        assert!(rt; sizes == Some((nodes, shared)), "at {want:?}");
    }
    Ok(())
}

// a limit, and whether the tree has no more nodes
const LIMITS: &[(usize, bool)] = &[(0, false), (5, false), (6, true), (7, true)];

#[test]
fn a_limit_of_nodes(rt: HostRuntime) -> Result<(), Fail> {
    for &(limit, want) in LIMITS {
        let found = tree_up_to_a_limit(rt.alloc(), &[b"A___", b"_A__", b"_"], limit)?;
        assert!(rt; matches!(found, Tried::Built(_)) == want, "at {limit}");
    }
    Ok(())
}

// literals before the last `_`, and the tree's sizes
const MANY: &[(u64, Option<(usize, (usize, usize))>)] = &[
    (510, Some((512, (1, 511)))),
    (511, None),
];

#[test]
fn at_most_512_nodes(rt: HostRuntime) -> Result<(), Fail> {
    for &(count, want) in MANY {
        let tried = tree_of_numbers(rt.alloc(), count)?;
        assert!(rt; sizes(rt.alloc(), &tried)? == want, "at {count}");
    }
    Ok(())
}

// the depth of a full pattern, its constructors, and the root of its graph
const FULL: &[(usize, usize, u32)] = &[(0, 1, 2), (1, 5, 6), (3, 85, 86), (7, 21845, 21846)];

#[test]
fn graphs_of_one_pattern(rt: HostRuntime) -> Result<(), Fail> {
    for &(depth, heads, root) in FULL {
        let graph = graph_of_full(rt.alloc(), depth)?;
        assert!(rt;
            (forms(&graph), graph.root) == ((heads, 2), root),
            "at {depth}"
        );
    }
    Ok(())
}

// the depth of a full pattern; nodes of the tree, and tests and clauses of its graph, as `sizes` gives them
const FULL_TREES: &[(usize, Option<(usize, (usize, usize))>)] = &[
    (1, Some((11, (5, 2)))),
    (3, Some((171, (85, 2)))),
    (4, None),
];

// The graph of one pattern is that of the tree of the pattern and `_`, which has a test for each
// constructor and a clause behind each, and one clause more.
#[test]
fn one_pattern_and_its_tree(rt: HostRuntime) -> Result<(), Fail> {
    for &(depth, want) in FULL_TREES {
        let tried = tree_of_full(rt.alloc(), depth)?;
        assert!(rt; sizes(rt.alloc(), &tried)? == want, "at {depth}");
    }
    Ok(())
}
