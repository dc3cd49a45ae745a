//! Rows of places of images, each looked at by itself: the places below it, or the fault of its own words and blocks;
//! of whole images: sound, or their first fault, the value that they hold, and its parts; and of single words. It has
//! tests alone.
//!
//! The images were written and their answers worked out by hand from the layouts of a file, with how many words are
//! read for a part at most; and an image of forty blocks is found sound, whose tree has 2^41 nodes and one less. A row
//! of places is an image, the number of a type, the base and the place at which its first root word is said to be
//! kept, and what comes of it. Here a cell leads to itself. Its word is said to be kept at byte 8 of the block at 80,
//! and one place is below it: the word 64, kept at byte 8 of the block at 64.
//!
//! ```text
//! ("root 0x40\nblock 64 16 02000000000000004000000000000000\n", 0, 80, 8, "1 / 0 64@64+8"),
//! ```
#![tactic(auto)]

#[cfg(test)]
mod call;
#[cfg(test)]
mod images;
#[cfg(test)]
mod parts;
#[cfg(test)]
mod places;
#[cfg(test)]
mod values;
#[cfg(test)]
mod words;
