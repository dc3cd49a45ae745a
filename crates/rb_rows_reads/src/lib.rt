//! Programs made of code that reads values, each run over an image by the definition of a run. The checker computes
//! each run. It has proofs alone.
//!
//! They hold the machine's meaning, on which the proofs of reading code rest, against images and code that were
//! written by hand. A row is an equation: the run of a body over an image gives these words, so many switches and
//! instructions, and leaves the memory as it was. Here the tag of a list is the lowest bit of its word, 0 for the cell
//! at 80:
//!
//! ```text
//! cons_tag : run 1 2 list_tag 80 list_image ≡ gives (0 ∷ []) 0 2 list_image
//! ```
#![tactic(auto)]
