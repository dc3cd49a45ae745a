//! Open rows: each of their patterns is a wildcard or a variable, so that they match every vector
//! of their length.

ghost use Rattle.std.specs.Prelude.{◌≡◌};
ghost use Rattle.rb_matrix.specs.inner.Borrowed.{patterns_of};
ghost use Rattle.rb_matrix.specs.inner.Open.{is_open as the_open};

use crate::stack::Stack;
use rb_core::pattern::Pat;

// Whether each pattern of a slice is a wildcard or a variable; so it is of an empty one.
fn are_open(pats: &[&Pat]) -> bool
    ensures { result ≡ the_open (patterns_of pats.now) }
{
    for pat in pats {
        match *pat {
            Pat::Wild(_) => {}
            Pat::Var(_, _) => {}
            Pat::Num(_, _) => return false,
            Pat::Con(_, _, _) => return false,
        }
    }
    true
}

/// Whether each of the patterns is a wildcard or a variable; so it is where there is none.
#[tactic(auto, using(crate::proofs::OpenRows::open_borrowed))]
pub fn is_open(pats: &Stack<&Pat>) -> bool
    ensures { result ≡ the_open (patterns_of pats.now) }
{
    let (front, back) = pats.as_slices();
    if !are_open(front) {
        return false;
    }
    are_open(back)
}
