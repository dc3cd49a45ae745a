//! Rows of runs of files with layouts: values, images, and counts. It has tests alone.
//!
//! The answers were given by a program apart from this one, or worked out and counted by hand: values and the bytes of
//! their images, the calls and the region that a run needs, how many switches its code does at most, parts of images,
//! and images with a byte changed. Lists of half a million numbers are run, since a proof bounds no stack and no time.
//! Most rows are lines of one text, beside the file: words, a `~`, and the answer, each line of which ends with a `;`.
//! Here the sum of a list of one has a region without room for its cell:
//!
//! ```text
//! 0 64 Cons(1,Nil)~5 ribbit: region full: next 64, size 16, align 8, limit 64;
//! ```
#![tactic(auto)]

#[cfg(test)]
mod changed_bits;
#[cfg(test)]
mod changed_pointers;
#[cfg(test)]
mod changes;
#[cfg(test)]
mod compiled;
#[cfg(test)]
mod counts;
#[cfg(test)]
mod deep;
#[cfg(test)]
mod images;
#[cfg(test)]
mod layouts;
#[cfg(test)]
mod long;
#[cfg(test)]
mod matches;
#[cfg(test)]
mod needs;
#[cfg(test)]
mod parts;
#[cfg(test)]
mod values;
