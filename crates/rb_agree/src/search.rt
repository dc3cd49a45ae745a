//! The open position at a path, found by halves. An open position is a wildcard or a variable in a
//! leaf's provenance, the pattern of its values; its path is the field numbers that lead there from
//! the root.
//!
//! Open positions stand from left to right: of two, the one whose number is less at the first field where
//! their paths differ comes first. So a path is compared with that of the position in the middle, and then
//! looked for in the half where it belongs. Take the positions
//!
//! ```text
//! .0.0   .0.1   .1   .2.0   .2.1
//! ```
//!
//! `.0.1` stands to the left of `.1`, so it is among the first two. `.2` is where `.2.0` begins, so it is
//! no position: no position begins with another.

ghost use Rattle.std.specs.Prelude.{◌≡◌, ◌<◌, length, min, MatchOption};
ghost use Rattle.rb_agree.specs.inner.Search.{AreOrdered, HasNone, IsNumberOf, side_of};

use rb_layout::opens::OpenPosition;

/// Where a path stands beside another.
#[derive(Clone, Copy)]
pub enum Side {
    /// Its number is less at the first field where they differ.
    Left,
    /// They are equal.
    Same,
    /// Its number is greater at the first field where they differ.
    Right,
    /// One of them begins with the other.
    Along,
}

// How many fields the shorter of two paths has.
fn shorter(one: &[u32], other: &[u32]) -> usize
    ensures { result ≡ min (length one.now) (length other.now) }
{
    if one.len() < other.len() {
        one.len()
    } else {
        other.len()
    }
}

// Where a path stands beside another, told by the first field where they differ.
fn side_of(one: &[u32], other: &[u32]) -> Side
    ensures { result ≡ side_of one.now other.now }
{
    for i in 0..shorter(one, other) {
        if one[i] < other[i] {
            return Side::Left;
        }
        if other[i] < one[i] {
            return Side::Right;
        }
    }
    if one.len() == other.len() {
        return Side::Same;
    }
    Side::Along
}

/// The number of the open position at a path, found by halves; None where no position is there.
pub(crate) fn position_number(places: &[OpenPosition], path: &[u32]) -> Option<usize>
    requires { AreOrdered places.now }
    ensures place { MatchOption result (HasNone places.now path.now) (IsNumberOf places.now path.now) }
    ensures within { MatchOption result (Unit {0}) (λ n. n < length places.now) }
{
    let mut low = 0;
    let mut high = places.len();
    while low < high {
        let middle = low + (high - low) / 2;
        match side_of(path, places[middle].path.as_slice()) {
            Side::Left => {
                high = middle;
            }
            Side::Same => return Some(middle),
            Side::Right => {
                low = middle + 1;
            }
            Side::Along => return None,
        }
    }
    None
}
