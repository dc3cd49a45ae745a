//! Rows of layouts: which agree with their types, why others do not, and how they are shown. It has tests alone.
//!
//! More than a hundred layouts are refused, three at least for each kind of evidence, worked out by hand from the
//! rules; others agree, are derived, or are shown as text. A row of those that are refused is a line: a file, to which
//! a `main` is added, a `~`, and the evidence that `check` gives:
//!
//! ```text
//! type A = A; layout A <8> = A : { word 8 { [0:2] = 4 } };~A: A3: leaf A: item 0: constant 4 over 2 bits
//! ```
#![tactic(auto)]

#[cfg(test)]
mod accepted;
#[cfg(test)]
mod blocks;
#[cfg(test)]
mod cycles;
#[cfg(test)]
mod derived;
#[cfg(test)]
mod fields;
#[cfg(test)]
mod packed;
#[cfg(test)]
mod parts;
#[cfg(test)]
mod places;
#[cfg(test)]
mod refusals;
#[cfg(test)]
mod shapes;
#[cfg(test)]
mod splits;
#[cfg(test)]
mod values;
