//! Counts of runs, as tests look at them: how many switches code does is its own, so the greatest number
//! that it may do is given.

use crate::call::{call, lines};
use crate::surprise::{Surprise, another, no_row};
use std::alloc::Global;

/// A file, words, lines, the most switches, and lines.
pub type CountRow<'a> = (&'a str, &'a str, &'a str, u64, &'a str);

/// Looks whether `ribbit`, called on these words with the file under the name `E`, ends with status 0 and
/// prints just the lines `before`, the line of the switches, at most `most`, and the lines `behind`. In the
/// lines that are given each `;` ends a line.
///
/// # Errors
///
/// Another answer, or want of memory.
pub fn expect_counts(
    alloc: Global,
    words: &str,
    file: &[u8],
    before: &str,
    most: u64,
    behind: &str,
) -> Result<(), Surprise> {
    let did = call(alloc, words, file, &[], &[])?;
    let text = did.out.as_slice();
    let before = lines(alloc, format!(in alloc; "{before}switches ")?.as_str())?;
    let behind = lines(alloc, format!(in alloc; ";{behind}")?.as_str())?;
    let done = switches(text, before.as_slice(), behind.as_slice());
    if did.status == 0 && did.err.is_empty() && matches!(done, Some(n) if n <= most) {
        return Ok(());
    }
    another(alloc, words, text, before.as_slice())
}

/// Looks at each row so, whose words stand behind `front`.
///
/// # Errors
///
/// Another answer, or want of memory.
pub fn expect_count_rows(alloc: Global, front: &str, rows: &[CountRow]) -> Result<(), Surprise> {
    for (file, words, before, most, behind) in rows {
        let words = format!(in alloc; "{front}{words}")?;
        let file = file.as_bytes();
        expect_counts(alloc, words.as_str(), file, before, *most, behind)?;
    }
    Ok(())
}

/// Looks so at one file. Each line of the table is what stands behind `front` in the words, the lines before, the most
/// switches, and the lines behind, with a `~` between them. A line that begins with a `#` says something of those below
/// it.
///
/// # Errors
///
/// Another answer, another line, or want of memory.
pub fn expect_count_table(
    alloc: Global,
    file: &str,
    front: &str,
    table: &str,
) -> Result<(), Surprise> {
    for line in table.split('\n') {
        expect_count_line(alloc, file, front, line)?;
    }
    Ok(())
}

// Looks so at a line.
fn expect_count_line(alloc: Global, file: &str, front: &str, line: &str) -> Result<(), Surprise> {
    if line.starts_with('#') {
        return Ok(());
    }
    let Some((words, before, most, behind)) = parts_of(line) else {
        return no_row(alloc, line);
    };
    let words = format!(in alloc; "{front}{words}")?;
    expect_counts(alloc, words.as_str(), file.as_bytes(), before, most, behind)
}

// Words, the lines before, the most switches, and the lines behind, as they stand in a line.
fn parts_of(line: &str) -> Option<(&str, &str, u64, &str)> {
    let (words, rest) = line.split_once('~')?;
    let (before, rest) = rest.split_once('~')?;
    let (most, behind) = rest.split_once('~')?;
    Some((words, before, most.parse().ok()?, behind))
}

// The number between two texts.
fn switches(text: &[u8], before: &[u8], behind: &[u8]) -> Option<u64> {
    let rest = text.strip_prefix(before)?;
    let number = rest.strip_suffix(behind)?;
    std::str::from_utf8(number).ok()?.parse().ok()
}
