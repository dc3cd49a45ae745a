//! Which values a pattern matches.

ghost use Rattle.std.specs.Prelude.{◌≡◌, map};
ghost use Rattle.rb_core.specs.Matching.{matches_of, all_pass};

use crate::pattern::Pat;
use crate::value::Value;

/// Whether a pattern matches a value: a wildcard and a variable match every value, a number that
/// number, and a constructor the constructions by its number whose subvalues its subpatterns match,
/// one each. The call nests as deep as the pattern.
#[cycle(matching)]
pub fn matches(pat: &Pat, value: &Value) -> bool
    ensures { result ≡ matches_of pat.now value.now }
{
    match pat {
        Pat::Wild(_) => true,
        Pat::Var(_, _) => true,
        Pat::Num(_, n) => match value {
            Value::Num(m) => *n == *m,
            Value::Con(_, _) => false,
        },
        Pat::Con(_, con, pats) => match value {
            Value::Num(_) => false,
            Value::Con(number, values) => con.con == *number
                && all_match(pats.as_slice(), values.as_slice()),
        },
    }
}

// Whether each pattern matches the value in its place, and there are as many of one as of the
// other.
#[cycle(matching)]
#[tactic(auto, using(crate::proofs::MatchingLemmas::loop_lemmas))]
fn all_match(pats: &[Pat], values: &[Value]) -> bool
    ensures { result ≡ all_pass (map matches_of pats.now) values.now }
{
    if pats.len() != values.len() {
        return false;
    }
    for (i, pat) in pats.iter().enumerate() {
        if !matches(pat, &values[i]) {
            return false;
        }
    }
    true
}
