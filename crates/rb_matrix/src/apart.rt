//! Whether two patterns differ in one place, so that no value matches both, and whether one matches
//! all that another does. Both are told by the patterns alone, whatever their types, and neither
//! finds all such pairs.

ghost use Rattle.std.specs.Bool.{OnTrue};
ghost use Rattle.rb_matrix.specs.Apart.{PatternsAreApart};
ghost use Rattle.rb_matrix.specs.inner.Against.{HaveApart, Covers, CoverEach};

use rb_core::pattern::Pat;

/// True only of two patterns such that no value matches both, of whatever type it is. It is found
/// where they have different numbers or constructors in one place, or a number and a constructor;
/// constructors differ by their numbers in their types. False tells nothing: two that share no
/// value for another reason, such as constructors with different counts of subpatterns, are not
/// found.
#[cycle(comparing)]
pub fn are_apart(one: &Pat, other: &Pat) -> bool
    ensures { OnTrue result (PatternsAreApart one.now other.now) }
{
    match one {
        Pat::Wild(_) | Pat::Var(_, _) => false,
        Pat::Num(_, number) => match other {
            Pat::Wild(_) | Pat::Var(_, _) => false,
            Pat::Num(_, known) => *number != *known,
            Pat::Con(_, _, _) => true,
        },
        Pat::Con(_, con, pats) => match other {
            Pat::Wild(_) | Pat::Var(_, _) => false,
            Pat::Num(_, _) => true,
            Pat::Con(_, known, others) => {
                if con.con != known.con {
                    return true;
                }
                have_apart(pats.as_slice(), others.as_slice())
            }
        },
    }
}

// Whether in some place that both lists have, two patterns are found to be apart; places of one
// list alone do not count.
#[cycle(comparing)]
fn have_apart(ones: &[Pat], others: &[Pat]) -> bool
    ensures { OnTrue result (HaveApart ones.now others.now) }
{
    for (i, one) in ones.iter().enumerate() {
        if let Some(other) = others.get(i) {
            if are_apart(one, other) {
                return true;
            }
        }
    }
    false
}

/// Whether one pattern matches all that the other does, since it has in each place what the other
/// has: the same number, the same constructor with as many subpatterns, or else a wildcard or a
/// variable. A pattern that matches as much for another reason, say as its type has one constructor
/// alone, is not found to cover.
#[cycle(covering)]
pub fn covers(one: &Pat, other: &Pat) -> bool
    ensures { OnTrue result (Covers one.now other.now) }
{
    match one {
        Pat::Wild(_) | Pat::Var(_, _) => true,
        Pat::Num(_, number) => match other {
            Pat::Wild(_) | Pat::Var(_, _) | Pat::Con(_, _, _) => false,
            Pat::Num(_, known) => *number == *known,
        },
        Pat::Con(_, con, pats) => match other {
            Pat::Wild(_) | Pat::Var(_, _) | Pat::Num(_, _) => false,
            Pat::Con(_, known, others) => {
                if con.con != known.con {
                    return false;
                }
                cover_each(pats.as_slice(), others.as_slice())
            }
        },
    }
}

// Whether there are as many of the one as of the others, and each covers the one in its place; so
// it is of two empty lists.
#[cycle(covering)]
fn cover_each(ones: &[Pat], others: &[Pat]) -> bool
    ensures { OnTrue result (CoverEach ones.now others.now) }
{
    if ones.len() != others.len() {
        return false;
    }
    for i in 0..ones.len() {
        if !covers(&ones[i], &others[i]) {
            return false;
        }
    }
    true
}
