//! Tables of rows, each of which is looked at in turn. A test over a table is one call of a function from here.

use crate::call::{expect_answer, expect_answer_over};
use crate::surprise::{Surprise, no_row};
use std::alloc::Global;

/// A file, words, and the answer.
pub type Row<'a> = (&'a str, &'a str, &'a str);

/// Words, a file, an image, and the answer.
pub type ImageRow<'a> = (&'a str, &'a str, &'a str, &'a str);

/// Looks whether each file has its answer to these words and then its own.
///
/// # Errors
///
/// Another answer, or want of memory.
pub fn expect_rows(alloc: Global, front: &str, rows: &[Row]) -> Result<(), Surprise> {
    for (file, words, wanted) in rows {
        let words = format!(in alloc; "{front}{words}")?;
        expect_answer(alloc, words.as_str(), file.as_bytes(), wanted)?;
    }
    Ok(())
}

/// Looks whether words have their answers to one file.
///
/// # Errors
///
/// Another answer, or want of memory.
pub fn expect_words(alloc: Global, file: &[u8], rows: &[(&str, &str)]) -> Result<(), Surprise> {
    for (words, wanted) in rows {
        expect_answer(alloc, words, file, wanted)?;
    }
    Ok(())
}

/// Looks whether files have their answers to these words.
///
/// # Errors
///
/// Another answer, or want of memory.
pub fn expect_files(alloc: Global, words: &str, rows: &[(&str, &str)]) -> Result<(), Surprise> {
    for (file, wanted) in rows {
        expect_answer(alloc, words, file.as_bytes(), wanted)?;
    }
    Ok(())
}

/// Looks whether files have their answers to these words. Each line of the table is a file, a `~`, and an answer.
///
/// # Errors
///
/// Another answer, a line without a `~`, or want of memory.
pub fn expect_lines(alloc: Global, words: &str, table: &str) -> Result<(), Surprise> {
    for line in table.split('\n') {
        if let Some((file, wanted)) = line.split_once('~') {
            expect_answer(alloc, words, file.as_bytes(), wanted)?;
        } else {
            no_row(alloc, line)?;
        }
    }
    Ok(())
}

/// Looks whether words have their answers to one file. Each line of the table is what stands behind `front` in the
/// words, a `~`, and the answer. A line that begins with a `#` says something of those below it.
///
/// # Errors
///
/// Another answer, a line without a `~`, or want of memory.
pub fn expect_table(alloc: Global, file: &str, front: &str, table: &str) -> Result<(), Surprise> {
    for line in table.split('\n') {
        expect_line(alloc, file, front, line)?;
    }
    Ok(())
}

// Looks whether the words of a line have its answer.
fn expect_line(alloc: Global, file: &str, front: &str, line: &str) -> Result<(), Surprise> {
    if line.starts_with('#') {
        return Ok(());
    }
    let Some((words, wanted)) = line.split_once('~') else {
        return no_row(alloc, line);
    };
    let words = format!(in alloc; "{front}{words}")?;
    expect_answer(alloc, words.as_str(), file.as_bytes(), wanted)
}

/// Looks whether words have their answers to files, of the name `E`, and images, of the name `I`.
///
/// # Errors
///
/// Another answer, or want of memory.
pub fn expect_held(alloc: Global, rows: &[ImageRow]) -> Result<(), Surprise> {
    for (words, file, image, wanted) in rows {
        expect_image(alloc, words, file.as_bytes(), image.as_bytes(), wanted)?;
    }
    Ok(())
}

/// Looks whether words have this answer to a file, of the name `E`, and an image, of the name `I`.
///
/// # Errors
///
/// Another answer, or want of memory.
pub fn expect_image<'a>(
    alloc: Global,
    words: &str,
    file: &'a [u8],
    image: &'a [u8],
    wanted: &str,
) -> Result<(), Surprise> {
    expect_answer_over(alloc, words, &[("E", file), ("I", image)], wanted)
}
