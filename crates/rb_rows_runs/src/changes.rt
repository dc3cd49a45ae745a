//! Sound images of which one byte is changed, of the text or of what a block holds. In an image a `;` ends a line.

use rb_rows_calls::call::lines;
use rb_rows_calls::rows::expect_image;
use rb_rows_calls::surprise::Surprise;
use std::alloc::{AllocError, Global};

/// In the place of a block's number: the text itself is changed.
pub const TEXT: usize = usize::MAX;

/// The number of a block, or [`TEXT`]; the place of a byte in it, the byte that comes to stand there, and the answer.
pub type Change<'a> = (usize, usize, u8, &'a str);

// The place of the two digits of a block's byte.
fn digits_at(image: &str, block: usize, byte: usize) -> usize {
    let mut line = 0usize;
    let mut blanks = 0usize;
    for (at, letter) in image.as_bytes().iter().enumerate() {
        match *letter {
            b';' => {
                line = line.saturating_add(1);
                blanks = 0;
            }
            b' ' => blanks = blanks.saturating_add(1),
            _ => {}
        }
        // behind `block`, its address and its size
        if line == block.saturating_add(1) && blanks == 3 {
            return at.saturating_add(1).saturating_add(byte.saturating_mul(2));
        }
    }
    0
}

// Puts bytes over those of a text from a place on, as far as the text reaches.
fn overwrite(text: &mut Vec<u8>, at: usize, with: &[u8]) {
    for (i, new) in with.iter().enumerate() {
        if let Some(old) = text.get_mut(at.saturating_add(i)) {
            *old = *new;
        }
    }
}

// The text of an image with another byte.
fn changed_image(alloc: Global, image: &str, change: &Change) -> Result<Vec<u8>, AllocError> {
    let (block, at, byte, _) = *change;
    let mut text = lines(alloc, image)?;
    if block == TEXT {
        overwrite(&mut text, at, &[byte]);
    } else {
        let digits = format!(in alloc; "{byte:02x}")?;
        overwrite(&mut text, digits_at(image, block, at), digits.as_bytes());
    }
    Ok(text)
}

/// Looks at an image, which has the name `I`, as it is, and at each change of it.
///
/// # Errors
///
/// Another answer, or want of memory.
pub fn expect_changes(
    alloc: Global,
    file: &str,
    image: &str,
    value: &str,
    changes: &[Change],
) -> Result<(), Surprise> {
    let file = file.as_bytes();
    let sound = lines(alloc, image)?;
    expect_image(alloc, "value E I", file, sound.as_slice(), value)?;
    for change in changes {
        let text = changed_image(alloc, image, change)?;
        expect_image(alloc, "value E I", file, text.as_slice(), change.3)?;
    }
    Ok(())
}
