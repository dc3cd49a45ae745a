//! Reading images.
//!
//! A text has a line of root words, and then a line for each block with its address, its size and
//! its bytes. A reader is what was read of a text so far, and where reading stands. A text goes on
//! at a byte if the bytes before it and it begin some text of an image.

ghost use Rattle.std.specs.Prelude.{◌≡◌, IfOk, IfErr};
ghost use Rattle.rb_image_text.specs.Images.{AreImageBlocks, IsImage};
ghost use Rattle.rb_image_text.specs.Text.{image_text};
ghost use Rattle.rb_image_text.specs.Stopping.{IsTextOf};
ghost use Rattle.rb_image_text.specs.Places.{AreInPlace};
ghost use Rattle.rb_image_text.specs.Refusals.{IsImageRefusal, IsThis};
ghost use Rattle.rb_image_text.specs.inner.Reading.{IsRun, IsImageReading};
ghost use Rattle.rb_image_text.specs.declared.image.Image.{Image as Image_};

use crate::fault::ImageFault;
use crate::image::Image;
use crate::order::first_misplaced;
use crate::step::Reader;
use std::alloc::Global;

// Reads all bytes, which may end within a text: gives the reader behind them, or the first byte at
// which no text goes on.
fn read_bytes(alloc: Global, bytes: &[u8]) -> Result<Reader, ImageFault>
    ensures { IsRun bytes.now result }
{
    let mut reader = Reader::new(alloc);
    for at in 0..bytes.len() {
        if !reader.feed(alloc, bytes[at])? {
            return Err(ImageFault::ImageSyntax(at));
        }
    }
    Ok(reader)
}

// The image whose text the bytes are, wherever its blocks lie; or the byte at which no text goes
// on, their length where they only begin one.
fn read_whole(alloc: Global, bytes: &[u8]) -> Result<Image, ImageFault>
    ensures reading { IsImageReading bytes.now result }
    ensures only { (i : Image_) → IsTextOf bytes.now i → IfOk result (λ read. read ≡ i) }
{
    let reader = read_bytes(alloc, bytes)?;
    if !reader.is_done() {
        return Err(ImageFault::ImageSyntax(bytes.len()));
    }
    let Reader { root, blocks, .. } = reader;
    Ok(Image { root, blocks })
}

/// The image whose text the bytes are, its blocks in their places: ascending without overlap from 64
/// on, within the greatest region.
///
/// # Errors
///
/// `ImageSyntax` at the first byte at which no text of an image goes on, at the length where the bytes
/// only begin one; else `ImageBlock` with the first block out of its place; or want of memory.
pub fn read_image_text(alloc: Global, bytes: &[u8]) -> Result<Image, ImageFault>
    ensures text { IfOk result (λ i. IsTextOf bytes.now i) }
    ensures sized { IfOk result (λ i. AreImageBlocks i.blocks) }
    ensures placed { IfOk result (λ i. AreInPlace i.blocks) }
    ensures each { (i : Image_) → IsImage i → AreInPlace i.blocks → bytes.now ≡ image_text i → IsThis i result }
    ensures refusal { IfErr result (λ fault. IsImageRefusal bytes.now fault) }
{
    let image = read_whole(alloc, bytes)?;
    match first_misplaced(image.blocks.as_slice()) {
        None => Ok(image),
        Some(i) => Err(ImageFault::ImageBlock(i as u64)),
    }
}
