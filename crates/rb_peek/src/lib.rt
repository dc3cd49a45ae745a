//! What stands at a path of field numbers in the value that an image holds: the walk to it, the check of the words on
//! the way, and the words of the part there. Nothing of the image is trusted, and words off the path are not looked at.
//!
//! Take a list whose tag is the lowest bit of a pointer, and whose items lie behind it:
//!
//! ```text
//! type List = Nil | Cons(u64, List);
//! 1 => Nil        : { word 64 { [0:1] = 1 } }
//! 0 => Cons(_, _) : { word 64 { [0:1] = 0, [3:61] -> 8 { word 64 { [0:64] .0 }, inline .1 } } }
//! ```
//!
//! ```text
//! root 0x40
//! block 64 16 02000000000000004000000000000000
//! ```
//!
//! The root word 64 is of a `Cons`, since its bit 0 is 0, and leads to the block at 64, where the item 2 stands from
//! byte 0 on, and the word of the tail from byte 8 on.
//!
//! `walk_along` goes from a value along a path of field numbers. Inside a leaf it goes from a constructor to its
//! field and reads nothing. Where any value of a data type may stand, it enters that value: it finds its sites, visits
//! it, and goes on from the root of its own leaf. So for `.1.0` of the list above it visits the root word, enters `.1`
//! and visits the word from byte 8 on, and ends at the `.0` of that leaf. It answers with all that it visited, which is
//! what may be at fault on the way, and with the position at which it ends. `specs/Walks.antt` says where a path leads.
//!
//! `follow_path` walks so from the root words, and then looks for faults in the words on the path alone: those of the
//! root; those that the splits of each subvalue on it read; those that hold what comes next; and those whose pointers
//! lead to any of these. In each of them it looks at what the leaves passed have there: constants, and pointers. For
//! that no leaf's word is read again. Take for the path `.0` of the list above: on it are the root word and the word
//! from byte 0 of the block at 64 on. The tail, which leads to the block that it is kept in, is off this path, and so
//! no fault is found; on the path `.1` it is. `specs/Paths.antt` says which words are on a path, and what is wrong with
//! them.
//!
//! A walk may also end where the leaf's provenance has a constructor. What stands there was taken apart: it has no
//! words of its own, and its fields stand in words of the leaf. `rebuild` gives the words that it has in the layout of
//! its own type. It chooses the leaf whose provenance matches, for which the leaf of a value that stands open below may
//! have to be known, and packs the words of the fields there; a field that was taken apart as well is rebuilt first. A
//! type that a leaf takes apart has no pointers, so all of it stands in the words of the one leaf, and nothing is read.
//! `specs/Views.antt` says what stands at the positions below, and `specs/Rebuilds.antt` which leaf and words these
//! are. Where the words of the fields represent the parts of a value, the words that they make represent the value, as
//! `specs/PackedWords.antt` says.
//!
//! `peek` gives what stands at a path: the type and the words of the walk's end, for `.0` above `u64` and the word 2.
//! `specs/Peeking.antt` says what is due, and `laws` that it is the part of the value: where an image holds one, the
//! words that `peek` gives represent its part at the path. The words that it reads are no more than the spans of the
//! types on the path.
#![tactic(auto)]

mod ahead;
mod arrival;
mod asked;
mod check;
pub mod laws;
mod matching;
mod pack;
pub mod path;
mod path_words;
pub mod peek;
pub mod rebuild;
mod view;
pub mod walk;
