//! Where no level is left.
//!
//! A node is a part of the tree that may hold others of its kind: an expression, a pattern, a
//! layout's tree or a pointer part. Each takes one level of those that are left, and the nodes in
//! it have one fewer.

ghost use Rattle.std.specs.Prelude.{◌≡◌, if◌then◌else◌, length};
ghost use Rattle.rb_read.specs.declared.stop.Stop.TheVariants as stops;

use crate::stop::Stop;
use rb_syntax::token::Placed;

/// Why nothing is read of the tokens `placed` where no level is left: `Deep` where the first of
/// them `begins` a node, which is too deep, else `Stuck`, since nothing goes on there. Either has
/// the number of these tokens.
pub(crate) fn beyond(begins: bool, placed: &[Placed]) -> Stop
    ensures { result ≡ (if begins then stops.Deep (length placed.now) else stops.Stuck (length placed.now)) }
{
    if begins {
        Stop::Deep(placed.len())
    } else {
        Stop::Stuck(placed.len())
    }
}
