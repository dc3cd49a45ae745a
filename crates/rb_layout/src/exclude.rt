//! Numbers that the bits at a location never are.
//!
//! A word never has a number in a range where a constant bit of the range differs from the
//! number's, or where a pointer lies in the range and the number has only zeros there, since no
//! pointer is 0. Besides, a field tells: a part with a word of a field never has the number's bits
//! where no leaf of the field's type ever has them. Take
//!
//! ```text
//! layout Tree <32> = split 0[0:32] {
//!     0 => Empty : { word 32 { [0:32] = 0 } }
//!     else => Node(_) : { word 32 { [0:6] = 0, [6:26] -> 64 { .. } } }
//! };
//! ```
//!
//! and a leaf `Yes(_)` of another type, whose word is all of its field, a `Tree`. Whether that word
//! is never 1 is a *goal*: that `Tree`'s root word 0 never has the number 1 in its 32 bits. It
//! holds, as `Empty` and `Node(_)` both have a constant 0 at bit 0. That it is never 64 is another
//! goal, which `Empty` bars but not `Node(_)`, whose pointer may be the first block's: so 64 is not
//! excluded.
//!
//! Types may hold each other, also in a circle, and a type may be met on many ways. So each goal is
//! decided once: first all goals on which the question rests are found, one after the other, each
//! looked up in a map; then passes from the last to the first mark those that hold by the goals
//! marked before, until a pass marks none. What is marked has a finite derivation, and a goal that
//! would rest on itself alone stays unmarked.

ghost use Rattle.std.specs.Prelude.{◌↔◌, IfOk, IsTrue};
ghost use Rattle.rb_layout.specs.Excluded.{Bars, Excludes};
ghost use Rattle.rb_layout.specs.Readable.{IsReadable};
ghost use Rattle.rb_layout.specs.inner.Barring.{IsAsked};

use crate::barring::word_barred;
use crate::finding::{add_parts, find_all};
use crate::goals::{Goals, Literal};
use crate::layout::{FlatWord, Layout, Leaf};
use crate::locate::{end_of, flat_at};
use crate::settling::settle;
use rb_core::layout_decl::Loc;
use rb_core::types::DataDecl;
use std::alloc::{AllocError, Global};

// Whether a word of a leaf never has the literal, by a finite derivation. Fails for want of memory.
fn is_barred(
    alloc: Global,
    types: &[DataDecl],
    layouts: &[Layout],
    leaf: &Leaf,
    word: &FlatWord,
    literal: Literal,
) -> Result<bool, AllocError>
    requires { IsAsked literal }
    ensures { IfOk result
        (λ b. IsTrue b ↔ Bars types.now layouts.now leaf.now word.now literal.o literal.l literal.bits) }
{
    let parts = word.parts.as_slice();
    let mut entries = Goals::new(alloc);
    add_parts(types, &leaf.prov, parts, literal, &mut entries)?;
    find_all(types, layouts, &mut entries)?;
    settle(types, layouts, &mut entries);
    Ok(word_barred(types, &leaf.prov, parts, literal, &entries))
}

/// Whether the bits at a location of a leaf are never those of `literal`, whatever value the leaf
/// holds, by a finite derivation. Not so where the location does not resolve.
///
/// # Errors
///
/// Want of memory.
pub fn excludes(
    alloc: Global,
    types: &[DataDecl],
    layouts: &[Layout],
    leaf: &Leaf,
    loc: &Loc,
    literal: u64,
) -> Result<bool, AllocError>
    requires { IsReadable leaf.now }
    ensures { IfOk result (λ b. IsTrue b ↔ Excludes types.now layouts.now leaf.now loc.now literal) }
{
    let end = match end_of(leaf, loc) {
        None => return Ok(false),
        Some(end) => end,
    };
    let word = match flat_at(leaf, end.at) {
        None => return Ok(false),
        Some(word) => word,
    };
    let literal = Literal {
        o: end.o,
        l: end.l,
        bits: literal,
    };
    is_barred(alloc, types, layouts, leaf, word, literal)
}
