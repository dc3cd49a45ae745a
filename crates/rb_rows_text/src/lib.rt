//! Rows of texts: of files their tokens, the trees that they spell, what their names stand for, and what they mean; of
//! values, and of images. It has tests alone.
//!
//! They hold the grammar's definitions against texts that were written by hand from the language's pages: each form of
//! item and expression, the token at which it does not go on, trees beside the texts that they are spelled as, nodes
//! at the greatest level and below it, each limit at its number and one over, and names that are defined twice or
//! stand for nothing. In a row of files a `~` stands before the first token at which no file goes on; a row without a
//! mark is a file.
//!
//! ```text
//! fun main(x: u8,~): u8 = x;
//! ```
//!
//! The texts of images were written by hand from the grammar of an image, with numbers at their bounds or one past
//! them, and hold the contract of `read_image_text` against it. A row is a text and what reading it gives: an image of
//! so many root words and blocks, the byte at which no image goes on, or the first block that is out of its place. A
//! number has no zero in front:
//!
//! ```text
//! (b"root 0x01\n", Found::Syntax(8)),
//! ```
//!
//! The proof of the compiler rests on the definition of what the source means, so that is held against programs whose
//! results, logs and calls left were worked out by hand. A row has the calls that are allowed, how the run ends, and
//! how many events its log has. The sum of `Cons(1, Cons(2, Nil))` takes four calls, and its log has an event for each
//! of three matches:
//!
//! ```text
//! (4, Some((3, 0)), 3),
//! ```
#![tactic(auto)]

#[cfg(test)]
mod editors;
#[cfg(test)]
mod files;
#[cfg(test)]
mod images;
#[cfg(test)]
mod levels;
#[cfg(test)]
mod meaning;
#[cfg(test)]
mod names;
#[cfg(test)]
mod reading;
#[cfg(test)]
mod same;
#[cfg(test)]
mod spelling;
#[cfg(test)]
mod tokens;
#[cfg(test)]
mod values;
