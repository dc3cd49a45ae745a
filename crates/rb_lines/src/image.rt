//! The lines of images that are refused.
//!
//! An image is the root words of a value and the blocks of memory to which their pointers lead.
//! Blocks are counted from 0, and a block's base is the address at which it begins. Every error is
//! want of memory.

ghost use Rattle.std.specs.Prelude.{◌≡◌, IfOk};
ghost use Rattle.rb_lines.specs.ImageLines as line;

use crate::argument::NODES;
use crate::line::{NO_MEMORY, large};
use crate::numbers::{BAD_BITS, BAD_POINTER, BAD_ROOT, IMAGE_BLOCK, IMAGE_SYNTAX, NO_SUCH_PART};
use rb_image_text::fault::ImageFault;
use std::alloc::{AllocError, Global};

// The line of an image fault of this number at a place, where `kind` says what the place counts.
fn fault_at(alloc: Global, number: u64, kind: &str, at: u64) -> Result<Vec<u8>, AllocError>
    ensures { IfOk result (λ text. text.items ≡ line.fault_at number kind.now at) }
{
    Ok(format!(in alloc; "ribbit: image {number}{kind}{at}\n")?.into_bytes())
}

// The line of an image fault of this number in the block that begins at `base`, which is 0 for the
// root words; `kind` says what `at` is: a place there, or the address to which a pointer there
// leads.
fn fault_in(
    alloc: Global,
    number: u64,
    base: u64,
    kind: &str,
    at: u128,
) -> Result<Vec<u8>, AllocError>
    ensures { IfOk result (λ text. text.items ≡ line.fault_in number base kind.now at) }
{
    Ok(format!(in alloc; "ribbit: image {number}: base {base}{kind}{at}\n")?.into_bytes())
}

/// The line of an image that is refused, by its fault.
///
/// # Errors
///
/// Want of memory.
pub fn image(alloc: Global, fault: ImageFault) -> Result<Vec<u8>, AllocError>
    ensures { IfOk result (λ text. text.items ≡ line.image_line fault) }
{
    match fault {
        ImageFault::ImageSyntax(at) => fault_at(alloc, IMAGE_SYNTAX, " at byte ", at as u64),
        ImageFault::ImageBlock(block) => fault_at(alloc, IMAGE_BLOCK, ": block ", block),
        ImageFault::BadRoot(word) => fault_at(alloc, BAD_ROOT, ": word ", word),
        ImageFault::BadBits(base, place) => {
            fault_in(alloc, BAD_BITS, base, ", place ", u128::from(place))
        }
        ImageFault::BadPointer(base, address) => {
            fault_in(alloc, BAD_POINTER, base, ", address ", address)
        }
        ImageFault::ImageTooLarge => large(alloc, NODES),
        ImageFault::NoSuchPart(step) => fault_at(alloc, NO_SUCH_PART, ": step ", step),
        ImageFault::Memory => Vec::from_slice(alloc, NO_MEMORY),
    }
}
