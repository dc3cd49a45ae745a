//! Which bytes were written, for contracts alone.

ghost use Rattle.std.specs.Prelude.{◌≡◌, ℕ, List, Option, Some, None, replicate, slice_set};
ghost use Rattle.std.specs.Borrow.{ftrue};

use std::marker::{Model, PhantomData};

/// By address: the byte that was written there. It takes no memory; only `nothing` and `note` set it.
#[derive(Drop)]
pub struct Written {
    marker: PhantomData<u8>,
    pub ghost bytes: { List (Option ℕ) },
}

impl Model for Written {
    ghost also_owns = { λ _. ftrue };
}

impl Written {
    /// So many addresses at which nothing was written.
    pub fn nothing(count: usize) -> Written
        ensures { result.bytes ≡ replicate count None }
    {
        Written {
            marker: PhantomData,
        }
    }

    /// Takes note that a byte was written, over what was written at its address before.
    pub fn note(&mut self, at: usize, byte: u8)
        ensures { self.new.bytes ≡ slice_set self.old.bytes at (Some byte) }
    {}
}
