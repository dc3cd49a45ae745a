//! Why a block is not placed, and why a run stops in error.

use thiserror::Error;

/// A block that didn't fit: the address from which on it would have been placed, its size and its
/// alignment, and the address at which the region ends, all in bytes.
#[derive(Clone, Copy, Debug, Drop, Error)]
#[error("the region is full")]
pub struct Full {
    pub next: u64,
    pub size: u64,
    pub align: u64,
    pub limit: u64,
}

/// Why a run stops in error.
#[derive(Clone, Copy, Debug, Drop, Error)]
pub enum Trap {
    /// The base of an access, which is an address, and its offset in bytes: no block begins at the
    /// base, or the access leaves it.
    #[error("an access leaves its block")]
    Astray(u64, u64),
    /// The address of a byte that was never written.
    #[error("a byte is read that was never written")]
    Unwritten(u64),
    /// A word of which a switch has no arm.
    #[error("a switch has no arm for its word")]
    Unmatched(u64),
}
