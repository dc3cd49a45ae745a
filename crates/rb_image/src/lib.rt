//! Images of a part of a memory, of which nothing is trusted: one place looked at by itself, what its words and the
//! blocks that they lead to say of the value that is to stand there, or what is wrong with them; whole images, each
//! place of which is so looked at, and the value that one holds; and one subvalue read word by word, each a step.
//!
//! Take a list whose tag is the lowest bit of a pointer, and whose items lie behind it:
//!
//! ```text
//! type List = Nil | Cons(u64, List);
//! 1 => Nil        : { word 64 { [0:1] = 1 } }
//! 0 => Cons(_, _) : { word 64 { [0:1] = 0, [3:61] -> 8 { word 64 { [0:64] .0 }, inline .1 } } }
//! ```
//!
//! ```text
//! root 0x40
//! block 64 16 02000000000000004000000000000000
//! ```
//!
//! A place is the number of a type and the words at which a value of it is to stand. Each word is carried with the
//! block in which it is kept and its byte there, for a fault to name; a word of the root is kept in no block, which
//! base 0 stands for. Here the root word 64 is a place of type `List`. `look` goes three steps down from a place:
//!
//! - Its splits lead to a leaf: bit 0 is 0, so it is `Cons`. A split that no arm takes is the fault `BadBits`. A
//!   location may pass pointers; of what stands there it asks only that the word lies in some block.
//! - The parts of the leaf are examined by word and offset, those of a pointer's block right behind the pointer. Bit 0
//!   is the constant 0. The pointer leads to 64, where a block begins, and it has the 16 bytes of the leaf's block. A
//!   constant that differs is `BadBits`, and a pointer that leads to no block of this size is `BadPointer`.
//! - Below the place there is one more for each open position of a data type, from left to right: here that of type
//!   `List`, the word 64 from byte 8 of the block on. Its bits are kept in the block at 64, so a pointer in them may
//!   only lead below 64.
//!
//! It leads to 64 itself, so a look at this second place gives `BadPointer(64, 64)`: no chain of pointers comes back to
//! a block that it passed.
//!
//! `examine_image` goes on like this to all places that one comes to from the root. First the root words must be as
//! many as a value of the type has, and none too wide, else the fault is `BadRoot`. Then there is a list of things to
//! do, of which the last is done first: it begins with a look at the root's place. A look at a place puts a note of it
//! there, and behind the note a look at each place below it, the first of these last. So outer places come before inner
//! ones, and all below a place before the next place beside it; once its note is the last, the place is sound, and it
//! is kept among the places found sound. A look at a place that is kept there is left out: where both halves of each
//! node of a tree are one and the same tree, forty levels take forty looks and some, and not 2^40.
//!
//! `read_image` gives the value of an image that is sound. The blocks of the image stand in a memory that `memory_of`
//! makes: each at its address, of its very size, with fillers before and between them. What represents a value in the
//! memory of exactly these blocks represents it there, so the root words are decoded there.
//!
//! `read_word` gives one word of an image, and ticks one step of a counter for it: at base 0 a root word, at another
//! base a word of the block that begins there. Who reads by it alone can be held to a number of words. So `read_leaf`
//! is: it finds the leaf that `look` finds from the sites of a place's words, and reads each word only when a split
//! asks for its bits. `specs/Spans.antt` has the numbers to which such reading is held; that of the list above is 5.
//!
//! `read_words` goes on from that leaf: from the sites of its root words it reads these, follows its pointers, and
//! reads the words of each block to which one leads, each word once. A pointer that leads to no such block as the leaf
//! has is no fault yet, since it may be that nothing behind it is asked for: what stands behind it is left out. Of the
//! list above it reads the root word 64, and the words 2 and 64 of the block at 64. `bits` then gives the bits of each
//! part. `specs/LeafWords.antt` says which blocks are reached. Who then goes on to one field asks `refused_below`
//! whether a pointer on the way to that field was refused: a pointer is on the way where one of the parts behind it is
//! of the field. `field_of` takes one step inside a leaf, to a field of a constructor that its provenance has.
//!
//! `visit` is both: it finds the leaf of a subvalue and reads its words, in no more steps than `own_span`, which is the
//! span of the type without that of types whose constructors stand inside its leaves. `enter` goes from there to the
//! sites of a field's words, where no pointer on the way to them was refused.
//!
//! `field_sites` goes on from a leaf to the words of an open position below it, and reads nothing for that: it gives
//! the sites at which they stand, from the sites of the leaf's own words and the addresses of its blocks. Here the
//! block of `Cons` is at 64, so the one word of `.1` stands in all 64 bits of the word from byte 8 of it on. A word
//! that is a range of a word of the leaf stands in a range of the bits at that one's site. `root_sites` begins this
//! with the root words. `specs/FieldSites.antt` says which words they are. The integer at an open position `integer_at`
//! gathers from the parts of the leaf that hold ranges of it.
//!
//! `specs/Parts.antt` says what one place comes to, above `specs/Splits.antt`, the leaf to which its splits lead, and
//! `specs/Orders.antt`, the order of a leaf's parts; `specs/Blocks.antt` which blocks and words an image has.
//! `specs/Sound.antt` says what a place with all below it comes to, and keeps nothing; `specs/Roots.antt` what an image
//! does; `specs/Memories.antt` in which memories its blocks stand, and `specs/Reads.antt` how its value is read.
//!
//! `specs/Falling.antt` says what it means that an image holds a value, and `laws` that this is the same: an image is
//! sound exactly where its root words represent a value in the memory that has exactly its blocks, and each pointer
//! that is kept in a block leads to one with a lower address.
#![tactic(auto)]

pub mod below;
mod blocks;
mod descent;
pub mod examine;
pub mod fields;
pub mod inside;
pub mod integers;
pub mod kept;
mod known;
pub mod laws;
pub mod leaf;
pub mod leaf_words;
pub mod look;
pub mod memory;
pub mod order;
pub mod parts;
pub mod roots;
pub mod site;
pub mod splits;
pub mod value;
pub mod visit;
pub mod ways;
pub mod word;
