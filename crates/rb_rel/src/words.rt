//! How many words represent the values of a type.

ghost use Rattle.std.specs.Prelude.{◌≡◌};
ghost use Rattle.rb_rel.specs.Relation.{word_count};

use rb_core::types::Ty;
use rb_layout::layout::Layout;

/// How many words represent a value of a type: one for an integer, as many as its layout's shape
/// has for a data type, and none without a layout.
pub fn word_count(layouts: &[Layout], ty: Ty) -> usize
    ensures { result ≡ word_count layouts.now ty }
{
    match ty {
        Ty::Int(_) => 1,
        Ty::Named(number) => match layouts.get(number as usize) {
            None => 0,
            Some(layout) => layout.shape.len(),
        },
    }
}
