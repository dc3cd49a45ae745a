//! Probes: patterns of few values, by which many a pattern is found at once to be useful behind
//! those before it. Take a match in which each clause looks at another column:
//!
//! ```text
//! 0: (0, _, _)      1: (_, 0, _)      2: (_, _, 0)
//! ```
//!
//! No two of these clauses are apart, so for a search which tells whether clause 2 is reached both
//! clauses before it become rows. But `(1, 1, 1)` is matched by none of the three: it is a gap of
//! theirs. With what stands in it in the place of each wildcard, clause 2 becomes `(1, 1, 0)`, its
//! probe. Both clauses before it are apart from that, so they become no rows, and the search is
//! over at once: it finds `(1, 1, 0)`. What the probe matches the clause does too, so the clause is
//! reached.
//!
//! One gap serves all clauses of a match. A probe of which a search finds no value tells nothing:
//! then the clause itself is searched. So which gap it is, and where a probe is made at all, changes
//! no answer of this crate, only how long it takes.

ghost use Rattle.std.specs.Prelude.{IfOk};
ghost use Rattle.rb_matrix.specs.inner.Against.{Covers, CoverEach};

use rb_core::pattern::Pat;
use rb_core::seq::Seq;
use std::alloc::{AllocError, Global};

// How many nodes a pattern has, itself among them.
#[cycle(counting)]
fn node_count(pat: &Pat) -> usize {
    match pat {
        Pat::Wild(_) | Pat::Var(_, _) | Pat::Num(_, _) => 1,
        Pat::Con(_, _, pats) => nodes_of(pats.as_slice()).saturating_add(1),
    }
}

// How many nodes patterns have together.
#[cycle(counting)]
fn nodes_of(pats: &[Pat]) -> usize {
    let mut nodes: usize = 0;
    for pat in pats {
        nodes = nodes.saturating_add(node_count(pat));
    }
    nodes
}

/// A pattern that some patterns leave unmatched, with the count of its nodes.
#[derive(Drop)]
pub struct Gap {
    pub pat: Pat,
    pub nodes: usize,
}

impl Gap {
    /// A pattern, with its nodes counted.
    pub fn new(pat: Pat) -> Self {
        let nodes = node_count(&pat);
        Gap { pat, nodes }
    }

    /// Whether a probe is worth its making where a pattern is held against so many others: the gap
    /// has no more than four nodes for each of them.
    pub fn is_small(&self, others: usize) -> bool {
        self.nodes <= others.saturating_mul(4)
    }
}

/// What is known of patterns before they are gone over one by one: `end` is the number from which
/// on all are known to be the first match of no value; beside it stands a gap of some of those
/// before, where one was searched and found.
#[derive(Drop)]
pub struct Outlook {
    pub end: usize,
    pub gap: Option<Gap>,
}

/// The probe of a pattern by a gap: the pattern with what stands in the gap in the place of each
/// wildcard and each variable. Where the two have different constructors in one place, or one of
/// them has a number, the pattern stays as it is there.
///
/// # Errors
///
/// Want of memory.
#[cycle(narrowing)]
pub fn probe_of(alloc: Global, pat: &Pat, gap: &Pat) -> Result<Pat, AllocError>
    ensures { IfOk result (Covers pat.now) }
{
    match pat {
        Pat::Wild(_) | Pat::Var(_, _) => gap.copy(alloc),
        Pat::Num(_, _) => pat.copy(alloc),
        Pat::Con(at, con, pats) => match gap {
            Pat::Wild(_) | Pat::Var(_, _) | Pat::Num(_, _) => pat.copy(alloc),
            Pat::Con(_, known, parts) => {
                if con.con != known.con {
                    return pat.copy(alloc);
                }
                let fields = probes_of(alloc, pats.as_slice(), parts.as_slice())?;
                Ok(Pat::Con(*at, *con, fields))
            }
        },
    }
}

// The probes of patterns, each by the pattern in its place in `parts`; those that have none there
// stay as they are.
#[cycle(narrowing)]
fn probes_of(alloc: Global, pats: &[Pat], parts: &[Pat]) -> Result<Seq<Pat>, AllocError>
    ensures { IfOk result (CoverEach pats.now) }
{
    let mut probes = Seq::new(alloc);
    for (i, pat) in pats.iter().enumerate() {
        let probe = match parts.get(i) {
            None => pat.copy(alloc)?,
            Some(part) => probe_of(alloc, pat, part)?,
        };
        probes.push(probe)?;
    }
    Ok(probes)
}
