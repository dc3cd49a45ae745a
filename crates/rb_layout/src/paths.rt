//! Paths to the fields of a value, each a list of field numbers from the root.

ghost use Rattle.std.specs.Prelude.{◌≡◌, ◌<◌, ◌+◌, ◌∷◌, [], ◌++◌, ◌&&◌, IfOk, leb, ltb};
ghost use Rattle.rb_layout.specs.Flattening.{same_path};

use rb_core::seq::Seq;
use std::alloc::{AllocError, Global};

/// The path of a field below a path: a copy of that, with the field's number behind it.
///
/// # Errors
///
/// Want of memory.
pub fn path_below(alloc: Global, path: &[u32], field: usize) -> Result<Seq<u32>, AllocError>
    requires { field < 4294967296 }
    ensures { IfOk result (λ found. found ≡ path.now ++ field ∷ []) }
{
    let mut found = Seq::from_vec(Vec::from_slice(alloc, path)?);
    found.push(field as u32)?;
    Ok(found)
}

/// Whether two paths have the same field numbers, in the same order.
pub fn same_path(own: &[u32], path: &[u32]) -> bool
    ensures { result ≡ same_path own.now path.now }
{
    own == path
}

/// Whether a part that has `l` bits of the integer at its own path, from bit `a` on, has bit `i` of
/// the integer at `path`.
pub fn has_bit(own: &[u32], path: &[u32], a: u64, l: u64, i: u64) -> bool
    ensures { result ≡ (same_path own.now path.now && (leb a i && ltb i (a + l))) }
{
    if !same_path(own, path) {
        return false;
    }
    if i < a {
        return false;
    }
    i - a < l
}
