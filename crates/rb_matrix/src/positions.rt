//! Where patterns differ most: the paths at which they are best told apart. A path is a list of
//! fields, from the outside in; the empty path leads to the pattern itself. At a path a pattern has
//! a head, which is the number that stands there, or that of the constructor, or none.

use rb_core::pattern::Pat;
use rb_core::seq::Seq;
use std::alloc::{AllocError, Global};
use std::collections::{BTreeMap, BTreeSet};

// A path, by the one above it and the field of that to which it leads, with what is counted there:
// how many patterns have a head there, and how many different heads there are.
#[derive(Drop)]
struct Position {
    above: usize,
    field: usize,
    heads: u64,
    kinds: u64,
}

// The paths of patterns, each with its number, which is its place in `each`; the first is the empty
// path. `below` gives the number of a path by that of the one above it and the field, and `known`
// holds the heads that were counted, each with the number of its path.
#[derive(Drop)]
struct Positions {
    each: Vec<Position>,
    below: BTreeMap<(usize, usize), usize>,
    known: BTreeSet<(usize, u64)>,
}

impl Positions {
    // The empty path alone, with nothing counted.
    fn new(alloc: Global) -> Result<Positions, AllocError> {
        let mut each = Vec::new(alloc);
        each.push(Position {
            above: 0,
            field: 0,
            heads: 0,
            kinds: 0,
        })?;
        Ok(Positions {
            each,
            below: BTreeMap::new(alloc),
            known: BTreeSet::new(alloc),
        })
    }

    // The number of the path to a field of what stands at the path `above`; it is added here where
    // it is not there yet.
    fn below(&mut self, above: usize, field: usize) -> Result<usize, AllocError> {
        if let Some(number) = self.below.get(&(above, field)) {
            return Ok(*number);
        }
        let number = self.each.len();
        self.each.push(Position {
            above,
            field,
            heads: 0,
            kinds: 0,
        })?;
        self.below.insert((above, field), number)?;
        Ok(number)
    }

    // Counts a pattern's head at a path. A number without a path counts nothing.
    fn count_head(&mut self, at: usize, head: u64) -> Result<(), AllocError> {
        let is_new = self.known.insert((at, head))?;
        if let Some(position) = self.each.get_mut(at) {
            position.heads = position.heads.saturating_add(1);
            if is_new {
                position.kinds = position.kinds.saturating_add(1);
            }
        }
        Ok(())
    }

    // Counts the head of what stands in a pattern at a path, and those of all below it; a wildcard
    // or a variable counts nothing.
    #[cycle(counting)]
    fn count(&mut self, pat: &Pat, at: usize) -> Result<(), AllocError> {
        match pat {
            Pat::Wild(_) | Pat::Var(_, _) => Ok(()),
            Pat::Num(_, number) => self.count_head(at, *number),
            Pat::Con(_, con, pats) => {
                self.count_head(at, u64::from(con.con))?;
                self.count_fields(pats.as_slice(), at)
            }
        }
    }

    // Counts the heads of the subpatterns of what stands in a pattern at a path, and of all below
    // them.
    #[cycle(counting)]
    fn count_fields(&mut self, pats: &[Pat], at: usize) -> Result<(), AllocError> {
        for (field, pat) in pats.iter().enumerate() {
            let below = self.below(at, field)?;
            self.count(pat, below)?;
        }
        Ok(())
    }

    // The fields, from the outside in, of the path with this number; none for a number without a
    // path.
    fn path_to(&self, alloc: Global, number: usize) -> Result<Seq<usize>, AllocError> {
        let mut path = Vec::new(alloc);
        let mut at = number;
        for _level in 0..self.each.len() {
            let Some(position) = self.each.get(at) else {
                break;
            };
            if at == 0 {
                break;
            }
            path.push(position.field)?;
            at = position.above;
        }
        path.reverse();
        Ok(Seq::from_vec(path))
    }

    // The number of the path, another than this one, that tells most pairs of patterns apart by the
    // estimate of `pairs_apart`; the first of those that tell as many, and the empty path, even
    // where it is this one, where none tells any.
    fn best_but(&self, other: Option<usize>) -> usize {
        let mut best = 0;
        let mut most = 0;
        for (number, position) in self.each.iter().enumerate() {
            let apart = pairs_apart(position);
            if apart > most && other != Some(number) {
                best = number;
                most = apart;
            }
        }
        best
    }
}

// An estimate of how many pairs of patterns a path tells apart, each pair counted in both orders; 0
// where no pattern has a head there. It supposes that each head stands there in as many patterns as
// any other; where that is not so, the path tells fewer apart.
fn pairs_apart(position: &Position) -> u64 {
    let pairs = position.heads.saturating_mul(position.heads);
    match pairs.checked_div(position.kinds) {
        None => 0,
        Some(alike) => pairs.saturating_sub(alike),
    }
}

/// Two paths, each a list of fields from the outside in.
#[derive(Drop)]
pub struct Paths {
    pub first: Seq<usize>,
    pub second: Seq<usize>,
}

/// The two paths that tell most pairs of patterns apart, by an estimate which supposes that at each
/// path all heads stand in as many patterns. Where fewer than two tell any apart, the empty path
/// stands in. Which paths they are changes no answer of this crate, only how long it takes.
///
/// # Errors
///
/// Want of memory.
pub fn best_paths(alloc: Global, pats: &[Pat]) -> Result<Paths, AllocError> {
    let mut positions = Positions::new(alloc)?;
    for pat in pats {
        positions.count(pat, 0)?;
    }
    let first = positions.best_but(None);
    let second = positions.best_but(Some(first));
    Ok(Paths {
        first: positions.path_to(alloc, first)?,
        second: positions.path_to(alloc, second)?,
    })
}
