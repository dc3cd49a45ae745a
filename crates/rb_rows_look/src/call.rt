//! Places that are looked at, images that are examined and read, and what comes of them as text.

ghost use Rattle.rb_image_text.specs.Places.{AreInPlace};

use rb_accept::accepting::accept;
use rb_core::limits::MOST_FILE_BYTES;
use rb_core::types::Ty;
use rb_image::examine::examine_image;
use rb_image::kept::{Kept, Place};
use rb_image::look::look;
use rb_image::value::read_image;
use rb_image_text::fault::ImageFault;
use rb_image_text::image::Image;
use rb_image_text::read::read_image_text;
use rb_layout::agreed::Agreed;
use rb_values::print::print_value;
use std::alloc::{AllocError, Global};
use std::str;
use std::test::Fail;

/// A place to look at: the text of an image, the number of a type, the base and the place at which the first root word
/// is said to be kept, and the text that is to come.
pub type Row<'a> = (&'a str, u32, u64, u64, &'a str);

/// What is wrong with an image, and where.
///
/// # Errors
///
/// Want of memory.
pub fn fault_text(alloc: Global, fault: ImageFault) -> Result<String, AllocError> {
    match fault {
        ImageFault::ImageSyntax(at) => format!(in alloc; "syntax {at}"),
        ImageFault::ImageBlock(i) => format!(in alloc; "block {i}"),
        ImageFault::BadRoot(i) => format!(in alloc; "root {i}"),
        ImageFault::BadBits(base, place) => format!(in alloc; "bits {base} {place}"),
        ImageFault::BadPointer(base, address) => format!(in alloc; "pointer {base} {address}"),
        ImageFault::ImageTooLarge => format!(in alloc; "large"),
        ImageFault::NoSuchPart(i) => format!(in alloc; "part {i}"),
        ImageFault::Memory => format!(in alloc; "memory"),
    }
}

// How many places these are, and of each its type and its words, with the base and the place at which each is kept.
fn places_text(alloc: Global, places: &[Place]) -> Result<String, AllocError> {
    let mut text = format!(in alloc; "{}", places.len())?;
    for place in places {
        let ty = place.ty;
        text = format!(in alloc; "{text} / {ty}")?;
        for word in place.words.as_slice() {
            let Kept {
                number,
                base,
                place,
            } = *word;
            text = format!(in alloc; "{text} {number}@{base}+{place}")?;
        }
    }
    Ok(text)
}

// What stands below a place of an image.
fn below(alloc: Global, agreed: &Agreed, image: &Image, place: &Place) -> Result<String, AllocError>
    requires placed { AreInPlace image.now.blocks }
{
    match look(alloc, agreed, image.blocks.as_slice(), place) {
        Ok(places) => places_text(alloc, places.as_slice()),
        Err(fault) => fault_text(alloc, fault),
    }
}

// What a row comes to: what stands below its place, whose words are the root words of its image.
fn answer(alloc: Global, agreed: &Agreed, row: &Row) -> Result<String, AllocError> {
    let (text, ty, base, place, _) = *row;
    let image = match read_image_text(alloc, text.as_bytes()) {
        Ok(image) => image,
        Err(_) => return format!(in alloc; "no image"),
    };
    let mut words = Vec::new(alloc);
    for word in image.root.as_slice() {
        words.push(Kept {
            number: *word,
            base,
            place,
        })?;
    }
    below(alloc, agreed, &image, &Place { ty, words })
}

/// An image to examine: its text, the type, and the text that is to come.
pub type ImageRow<'a> = (&'a str, Ty, &'a str);

// What is found where an image is examined for a type: that it is sound, or its fault.
fn finding(alloc: Global, agreed: &Agreed, text: &str, ty: Ty) -> Result<String, AllocError> {
    let image = match read_image_text(alloc, text.as_bytes()) {
        Ok(image) => image,
        Err(_) => return format!(in alloc; "no image"),
    };
    match examine_image(alloc, agreed, ty, &image) {
        Ok(()) => format!(in alloc; "sound"),
        Err(fault) => fault_text(alloc, fault),
    }
}

// The most nodes of a value that is read.
const MOST_NODES: u64 = 1_000;

// The value of an image as text, or why there is none.
fn value(alloc: Global, agreed: &Agreed, text: &str, ty: u32) -> Result<Vec<u8>, AllocError> {
    let types = agreed.covered().program().types.as_slice();
    let fault = match read_image_text(alloc, text.as_bytes()) {
        Err(fault) => fault,
        Ok(image) => {
            if ty as usize >= types.len() {
                return Vec::from_slice(alloc, b"no such type");
            }
            match read_image(alloc, agreed, Ty::Named(ty), &image, MOST_NODES) {
                Err(fault) => fault,
                Ok(value) => return print_value(alloc, types, Ty::Named(ty), &value),
            }
        }
    };
    Vec::from_slice(alloc, fault_text(alloc, fault)?.as_bytes())
}

/// An image to read: its text, the number of a type, and the text that is to come.
pub type ValueRow<'a> = (&'a str, u32, &'a str);

/// The accepted program of a file.
///
/// # Errors
///
/// A file that is too long or is refused, also for want of memory.
pub fn agreed_of(alloc: Global, file: &str) -> Result<Agreed, Fail> {
    if file.len() > MOST_FILE_BYTES {
        return Err(Fail::from("a long file"));
    }
    match accept(alloc, file.as_bytes()) {
        Ok(accepted) => Ok(accepted.agreed),
        Err(_) => Err(Fail::from("a file that is refused")),
    }
}

/// Fails where another text came of a row than was wanted.
///
/// # Errors
///
/// Another text, or want of memory.
pub fn compare(alloc: Global, row: &str, found: &[u8], wanted: &str) -> Result<(), Fail> {
    if found == wanted.as_bytes() {
        return Ok(());
    }
    let found = str::from_utf8(found).unwrap_or("no text");
    Err(Fail::new(format!(in alloc; "{found} and not {wanted} of {row}")?))
}

/// Checks which values images hold, each of which has these lines behind its own.
///
/// # Errors
///
/// Another text, a file that is too long or is refused, or want of memory.
pub fn expect_values(
    alloc: Global,
    file: &str,
    behind: &str,
    rows: &[ValueRow],
) -> Result<(), Fail> {
    let agreed = agreed_of(alloc, file)?;
    for (image, ty, wanted) in rows {
        let text = format!(in alloc; "{image}{behind}")?;
        let found = value(alloc, &agreed, text.as_str(), *ty)?;
        compare(alloc, image, found.as_slice(), wanted)?;
    }
    Ok(())
}

/// Checks what comes of images, each of which has these lines behind its own.
///
/// # Errors
///
/// Another text, a file that is too long or is refused, or want of memory.
pub fn expect_images(
    alloc: Global,
    file: &str,
    behind: &str,
    rows: &[ImageRow],
) -> Result<(), Fail> {
    let agreed = agreed_of(alloc, file)?;
    for (image, ty, wanted) in rows {
        let text = format!(in alloc; "{image}{behind}")?;
        let found = finding(alloc, &agreed, text.as_str(), *ty)?;
        compare(alloc, image, found.as_bytes(), wanted)?;
    }
    Ok(())
}

/// Checks what comes of places.
///
/// # Errors
///
/// Another text, a file that is too long or is refused, or want of memory.
pub fn expect(alloc: Global, file: &str, rows: &[Row]) -> Result<(), Fail> {
    let agreed = agreed_of(alloc, file)?;
    for row in rows {
        let found = answer(alloc, &agreed, row)?;
        let (image, _, _, _, wanted) = *row;
        compare(alloc, image, found.as_bytes(), wanted)?;
    }
    Ok(())
}
