//! A file in memory.

use crate::seq::{Name, Seq};

/// A file: its name, and its bytes from the first to the last.
#[derive(Drop)]
pub struct NamedBytes {
    pub name: Name,
    pub bytes: Seq<u8>,
}
