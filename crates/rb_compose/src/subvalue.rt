//! Values at positions, in slots. A position is a path: field numbers from the root, which is
//! itself the empty path.

ghost use Rattle.std.specs.Prelude.{◌≡◌};
ghost use Rattle.std.specs.Option.{option_copied};
ghost use Rattle.rb_compose.specs.Subvalues.{subvalue_at};

use rb_core::seq::Seq;
use rb_fragment::held::Held;
use rb_layout::paths::same_path;

/// The value at a position of another value, in slots, a word each. The path is a list of field numbers
/// from the root.
#[derive(Drop)]
pub struct Subvalue {
    pub path: Seq<u32>,
    pub held: Held,
}

/// The type and the slots of the first subvalue with this path, or None if none has it.
pub fn subvalue_at<'a>(subs: &'a [Subvalue], path: &[u32]) -> Option<&'a Held>
    ensures { option_copied result ≡ subvalue_at subs.now path.now }
{
    for sub in subs {
        if same_path(sub.path.as_slice(), path) {
            return Some(&sub.held);
        }
    }
    None
}
