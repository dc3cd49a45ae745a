//! Numbers of items of lists, in 32 bits.

ghost use Rattle.std.specs.Prelude.{◌≡◌, IfOk};

use std::alloc::AllocError;

/// The place of an item in a list as a number of 32 bits. There is no memory for 2^32 items.
///
/// # Errors
///
/// Want of memory, where the number is 2^32 or more.
pub fn number_of(index: usize) -> Result<u32, AllocError>
    ensures { IfOk result (λ number. number ≡ index) }
{
    match u32::try_from(index) {
        Ok(number) => Ok(number),
        Err(_) => Err(AllocError),
    }
}
