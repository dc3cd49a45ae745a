//! What patterns tell by themselves.

ghost use Rattle.std.specs.Prelude.{◌≡◌, map};
ghost use Rattle.std.specs.List.{list_all};
ghost use Rattle.rb_match.specs.inner.Binding.{is_unbound};

use rb_core::pattern::Pat;

/// Whether a pattern has no variable.
#[cycle(seeking)]
pub fn binds_nothing(pat: &Pat) -> bool
    ensures { result ≡ is_unbound pat.now }
{
    match pat {
        Pat::Wild(_) | Pat::Num(_, _) => true,
        Pat::Var(_, _) => false,
        Pat::Con(_, _, subs) => bind_nothing(subs.as_slice()),
    }
}

// Whether none of some patterns has a variable; so it is of no patterns.
#[cycle(seeking)]
fn bind_nothing(pats: &[Pat]) -> bool
    ensures { result ≡ list_all (λ b. b) (map is_unbound pats.now) }
{
    for pat in pats {
        if !binds_nothing(pat) {
            return false;
        }
    }
    true
}
