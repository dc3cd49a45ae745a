//! What a row did not expect.

use std::alloc::{AllocError, Global};

/// Why a row fails.
#[derive(Debug, Drop, thiserror::Error)]
pub enum Surprise {
    /// The answer is another: the words, what was answered and what was wanted, here with a `;` where a line ends.
    #[error("another answer: {0}")]
    Answer(String),
    /// A line of a table is no row.
    #[error("no row: {0}")]
    Row(String),
    /// Want of memory.
    #[error("no memory")]
    Memory,
}

impl From<AllocError> for Surprise {
    // Want of memory, as a row tells it.
    fn from(_: AllocError) -> Surprise {
        Surprise::Memory
    }
}

/// Bytes as a text; those over 127 as `?`.
///
/// # Errors
///
/// Want of memory.
pub fn text_of(alloc: Global, bytes: &[u8]) -> Result<String, AllocError> {
    let mut text = String::new(alloc);
    for byte in bytes {
        text.push(if *byte < 128 { *byte as char } else { '?' })?;
    }
    Ok(text)
}

// The most bytes that are shown of a text.
const SHOWN: usize = 2_000;

// The first of a text's bytes, as many as are shown.
fn front_of(alloc: Global, bytes: &[u8]) -> Result<String, AllocError> {
    text_of(alloc, &bytes[..bytes.len().min(SHOWN)])
}

/// Says that words had another answer than was wanted.
///
/// # Errors
///
/// Just that, or want of memory.
pub fn another(alloc: Global, words: &str, found: &[u8], wanted: &[u8]) -> Result<(), Surprise> {
    let words = front_of(alloc, words.as_bytes())?;
    let found = front_of(alloc, found)?;
    let wanted = front_of(alloc, wanted)?;
    let text = format!(in alloc; "{words}: {found} and not {wanted}")?;
    Err(Surprise::Answer(text))
}

/// Says that a line of a table is no row.
///
/// # Errors
///
/// Just that, or want of memory.
pub fn no_row(alloc: Global, line: &str) -> Result<(), Surprise> {
    Err(Surprise::Row(front_of(alloc, line.as_bytes())?))
}
