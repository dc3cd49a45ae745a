//! Calls of a source or a sink in memory, which are numbered from 0 and fail by their numbers.

ghost use Rattle.std.specs.Prelude.{◌≡◌};
ghost use Rattle.rb_edge.specs.Calls.{fails_at};

/// Whether the call of that number fails: it is in the list `fail`.
pub fn is_failing(fail: &[u64], call: u128) -> bool
    ensures { result ≡ fails_at fail.now call }
{
    fail.iter().any(|n| u128::from(*n) == call)
}
