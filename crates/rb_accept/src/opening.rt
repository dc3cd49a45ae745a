//! Images of a file: IMAGE is read after FILE was accepted.
//!
//! An image is the root words of a value and the blocks of memory to which their pointers lead, as
//! a text. An answer is a status with a line, by which a command is refused. Files are read from
//! the source `src`, by their names. A function that reads gives it as its error; the only other
//! error is want of memory.

ghost use Rattle.std.specs.Prelude.{◌≡◌, ◌≢◌, ◌≤◌, [], ◌∷◌, IfOk, IfErr};
ghost use Rattle.rb_image_text.specs.Places.{AreInPlace};
ghost use Rattle.rb_image_text.specs.Stopping.{IsTextOf};
ghost use Rattle.rb_image_text.specs.declared.fault.ImageFault.TheVariants.{Memory};
ghost use Rattle.rb_lines.specs.ImageLines.{image_due, image_status};
ghost use Rattle.rb_lines.specs.View.{due_of, IsRefusal};
ghost use Rattle.rb_accept.specs.Opening.{IsGarbled, IsOpened, IsReadImage, Opens, ReadsImage};
ghost use Rattle.rb_accept.specs.Reading.{ReadsInTurn, file_limit, image_limit, source_of};
ghost use Rattle.rb_accept.specs.View.{handed_between};

use crate::accepting::{Accepted, accept};
use crate::reading::{FILE_LIMIT, IMAGE_LIMIT, read_within};
use rb_edge::source::Source;
use rb_image_text::fault::ImageFault;
use rb_image_text::image::Image;
use rb_image_text::read::read_image_text;
use rb_lines::image::image as image_line;
use rb_lines::refusal::{Refusal, Refused};
use rb_lines::status::Status;
use std::alloc::{AllocError, Global};

/// A file that is accepted, and an image that was read after it.
#[derive(Drop)]
pub struct Opened {
    pub accepted: Accepted,
    pub image: Image,
}

// The status of an image's fault: too many nodes are a limit of what is shown, all else but want of
// memory a fault of the image.
fn status_of(fault: ImageFault) -> Status
    ensures { result ≡ image_status fault }
{
    match fault {
        ImageFault::ImageSyntax(_) => Status::Image,
        ImageFault::ImageBlock(_) => Status::Image,
        ImageFault::BadRoot(_) => Status::Image,
        ImageFault::BadBits(_, _) => Status::Image,
        ImageFault::BadPointer(_, _) => Status::Image,
        ImageFault::ImageTooLarge => Status::TooLarge,
        ImageFault::NoSuchPart(_) => Status::Image,
        ImageFault::Memory => Status::NoMemory,
    }
}

/// The answer to an image that is refused, by its fault.
///
/// # Errors
///
/// Want of memory, also where that is the fault.
pub fn refuse_image(alloc: Global, fault: ImageFault) -> Result<Refused, AllocError>
    ensures other { IfOk result (λ c. fault ≢ Memory) }
    ensures due { IfOk result (λ c. due_of c ≡ image_due fault) }
{
    if matches!(fault, ImageFault::Memory) {
        return Err(AllocError);
    }
    let line = image_line(alloc, fault)?;
    Ok(Refused {
        status: status_of(fault),
        line,
    })
}

// The image that a text spells, with its blocks in their places, or the answer where it spells
// none.
fn read_text(alloc: Global, text: &[u8]) -> Result<Image, Refusal>
    ensures spelled { IfOk result (IsTextOf text.now) }
    ensures placed { IfOk result (λ i. AreInPlace i.blocks) }
    ensures refused { IfErr result (IsRefusal (IsGarbled text.now)) }
{
    match read_image_text(alloc, text) {
        Ok(image) => Ok(image),
        Err(fault) => {
            let refused = refuse_image(alloc, fault)?;
            Err(Refusal::Refused(refused))
        }
    }
}

// The image in the file of that name, which is read within its limit, or the answer where it is not
// read or is none.
fn read_image_file<S: Source>(alloc: Global, src: &mut S, image: &[u8]) -> Result<Image, Refusal>
    ensures read { ReadsInTurn ((image.now, image_limit) ∷ [])
        (source_of S.tells S.held S.readings S.faults src.old src.new) }
    ensures later { S.faults src.old ≤ S.faults src.new }
    ensures opened { IfOk result (IsReadImage image.now (handed_between S.readings src.old src.new)) }
    ensures refused { IfErr result (IsRefusal
        (ReadsImage image.now (λ i d. ⊥) (handed_between S.readings src.old src.new))) }
{
    let text = read_within(alloc, src, image, IMAGE_LIMIT)?;
    read_text(alloc, text.as_slice())
}

/// The file of that name, if it is accepted, and then the image of that name.
///
/// # Errors
///
/// The answer to a file that is not read or not accepted, or to an image that is not read or
/// spelled; or want of memory.
pub fn open_image<S: Source>(
    alloc: Global,
    src: &mut S,
    file: &[u8],
    image: &[u8],
) -> Result<Opened, Refusal>
    ensures read { ReadsInTurn ((file.now, file_limit) ∷ (image.now, image_limit) ∷ [])
        (source_of S.tells S.held S.readings S.faults src.old src.new) }
    ensures opened { IfOk result (IsOpened file.now image.now (handed_between S.readings src.old src.new)) }
    ensures refused { IfErr result (IsRefusal
        (Opens file.now image.now (λ p i d. ⊥) (handed_between S.readings src.old src.new))) }
{
    let bytes = read_within(alloc, src, file, FILE_LIMIT)?;
    let accepted = accept(alloc, bytes.as_slice())?;
    let image = read_image_file(alloc, src, image)?;
    Ok(Opened { accepted, image })
}
