//! Code that reads represented values, and code that constructs them: the bits at a location, the leaf of a
//! value and its parts, and the choice of the leaf of a construction.
//!
//! A layout says where each bit of a value stands: in a root word, or behind pointers in blocks. Take a
//! list whose tag is the lowest bit of a pointer:
//!
//! ```text
//! split 0[0:1] {
//!     1 => Nil        : { word 64 { [0:1] = 1 } }
//!     0 => Cons(_, _) : { word 64 { [0:1] = 0, [3:61] -> 8 { word 64 { [0:64] .0 }, inline .1 } } }
//! }
//! ```
//!
//! Where slot 0 holds a list with a cell, the number of its first cell stands behind bits 3 up to 64 of
//! slot 0: these bits times 8 are its address. [`fetch::fetch_loc`] masks them with an `and`, which leaves the tag
//! behind and is that product already, since they begin at bit 3, and loads the 64 bits at byte 0 from there. Bits that
//! stand elsewhere are taken and multiplied; a word that is an address in all its bits is only multiplied. The location
//! is said as a number that code can make (`Read` of `rb_fragment`), and made by `make`: that the code reads what the
//! location says is a matter of meanings. So the words of a value need not stand in slots: each may be such a number
//! itself.
//!
//! That is safe only where the list has a cell. So [`look::find_leaf`] first takes bit 0 of slot 0 and
//! switches on it: its arm for 1 is a hole of leaf 0, and its arm for 0 a hole of leaf 1. The caller puts
//! the code of each leaf behind, and sets the holes to it. Where splits are nested, an arm leads to the
//! switch of the inner one, so that no run does more switches than splits are nested.
//!
//! Leaves that are treated alike need not be told apart, nor one from leaves that can't be here.
//! [`look::find_group_of`] is given a group for each leaf, or none for a leaf that can't be here, and leaves by the
//! hole of the group. It looks by the tree that [`prune::pruned_tree`] makes of it: a split below which one way is
//! left is that way, and one whose ways all lead to one group is that group. So a run does no more switches than
//! before, and where one group is left it does none.
//!
//! Behind the hole of leaf 1 the fields are known. [`field::field_reads`] says what the words of a field
//! are, without any code: each of them is held by one part of the leaf, and the way to that part leads from
//! a root word through the pointer to its block, the pointer to the block of that pointer, and so on. Field
//! 0 of a cell is what is loaded at byte 0 from the address in bits 3 up to 64 of slot 0; it is all of its
//! word, and nothing is taken from it. An integer may be held in slices, of which each gives its bits to
//! the whole. [`field::fetch_field`] makes these numbers into slots.
//!
//! Looks and fields read no more than they need (`span.rt`). A word of a value has no bits from the width on that its
//! layout or its load says, so a range that has all of them is the word itself, and where a split tests a whole word,
//! nothing is taken. Bits of what is itself bits of a word are taken from that word at once.
//!
//! A leaf may take a field apart. Take colours of one bit, and trees with the colour beside the pointer:
//!
//! ```text
//! layout Color <1> = split 0[0:1] { 0 => Red : { word 1 { [0:1] = 0 } } 1 => Black : { word 1 { [0:1] = 1 } } };
//! layout Tree <64> = split 0[0:2] {
//!     0 => Empty            : { word 64 { [0:64] = 0 } }
//!     1 => Node(Red, _, _)   : { word 64 { [0:2] = 1, [3:61] -> 8 { inline .1, inline .2 } } }
//!     2 => Node(Black, _, _) : { word 64 { [0:2] = 2, [3:61] -> 8 { inline .1, inline .2 } } }
//! };
//! ```
//!
//! No word of a tree is that of its colour. Behind the hole of leaf 1 the colour is known all the same, and
//! [`field::fetch_field`] at position 0 **rebuilds** it in its own layout: `const d 0`. In general the parts at
//! the fields of a constructor are fetched first, and then the constructor is applied to them, as it is where a
//! program does so ([`construct::construct`]). A type that is taken apart has no pointers, so this places no
//! block; and no type is taken apart by one that it takes apart, so it ends.
//!
//! A construction has to know its leaf. For `Empty` there is one leaf, and its code stands alone. For
//! `Node` and the colour in slot 0, the tree's two leaves differ at position 0, so the code looks there, and each
//! way out goes to the code of its leaf (`choosing`):
//!
//! ```text
//! 0  switch 0 - 0 1 1 2     the leaf of the colour
//! 1  jump 3                 red
//! 2  jump 9                 black
//! 3  place 3 16 8           a block with the fields 1 and 2, which are in slots 1 and 2
//! 4  store 3 0 64 1
//! 5  store 3 8 64 2
//! 6  const 4 1              the word of a red node, in slot 4: its tag,
//! 7  alu or 64 4 4 3        and beside it the address, which stands in its place
//! 8  jump 16
//! 9  place 5 16 8           the same for a black node, its word in slot 6
//!    ..
//! 14 copy 4 6               to where the first way left its word
//! 15 jump 16
//! ```
//!
//! A look is taken where the first leaf that is still possible has a constructor and nothing is known. The leaf
//! that it finds shows its constructor and all that it has taken apart itself; behind it only leaves that fit
//! these go on (`choosing.rt`), and what was found is fetched only where one of them takes it apart. Once all
//! places of the first one are known, it is the leaf: the value has all its constructors, and no two leaves have a
//! value in common. A place is looked at once on a way, so a run does no more switches than `choose_of` counts.
//!
//! An argument whose constructor is known is **shown**, as a pattern that it matches. Leaves that have another
//! constructor in its place are left out before the first look, and no look goes to a constructor without fields:
//! where `Red` is shown, a node is made by the code of the red leaf, with no switch. To a constructor with fields
//! none goes either where only one leaf has it beside what is shown below: the code of that leaf stands alone
//! (`known.rt`). A part that is rebuilt is shown the constructors of its fields by the provenance that it stands in.
//!
//! That a range, a byte or a width is one of an instruction is no condition on the caller: it follows from
//! agreement wherever a location resolves in some leaf, and each split of a layout that agrees stands above
//! a leaf in which its location does.
#![tactic(auto)]

mod asking;
mod choice;
mod choosing;
pub mod construct;
pub mod fetch;
pub mod field;
mod heads;
mod known;
pub mod look;
mod parts;
mod place;
pub mod prune;
mod rebuild;
mod slice;
mod span;
mod way;
