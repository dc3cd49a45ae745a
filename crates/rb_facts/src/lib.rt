//! What code knows of a value on its way through a match's tests, and where the value's parts are.
//!
//! A *leaf* is one of the forms in which a layout stores the values of a data type; its
//! *provenance* is the pattern of these values. It *takes a field apart* where it has what stands
//! in the field, and no words of the field itself. To *look* is to find a part's leaf or number by
//! code. A *node* is a test or a clause of a decision graph. A *position*, written `.0.1`, is the
//! numbers of the fields that lead from the value to a part of it, the outermost first. An *edge* is a
//! target of the code that is still open, with the number of the node to which it leads and with facts on the
//! value ([`knowledge`]): which leaves its parts have. `rb_match` emits the code of the tests.
//!
//! Take `type K = A | B` in one bit, a pair of two that stands in one word, and
//! `match p { P(A, _) => 0, P(_, A) => 1, _ => 2 }`, whose tests are
//!
//! ```text
//! .0 { A => clause 0
//!      else => .1 { A => clause 1
//!                   else => clause 2 } }
//! ```
//!
//! At the root the pair's own words stand in slots, and its one leaf tells where its fields are: the first is bit 0 of
//! the word, the second bit 1. So [`place::place_of_part`] finds where the words of a part are, field by field from the
//! value downward, as reads (`rb_fragment`), which are numbers that code can make: nothing is made before it is tested.
//! The leaf of each part above it has to be known. [`links`] tells to which node a test leads the values of a leaf.
//!
//! # Saved places
//!
//! A leaf may take a field apart, and two leaves may do so in two ways. Let the pair stand in two bits as
//!
//! ```text
//! split 0[0:1] {
//!     0 => P(A, _) : { word 2 { [0:1] = 0, [1:1] .1 } }
//!     1 => P(B, _) : { word 2 { [0:1] = 1, [1:1] .1 } }
//! }
//! ```
//!
//! No bits hold the first field here: the leaf says which constructor it is. So on the way of each leaf its test
//! needs no code: an edge that knows leaf 0 is led on to clause 0, and one that knows leaf 1 to the test of the second
//! field ([`threading`]). A node behind several leaves can't read a field from any of them alone, and where another
//! test stands between, it doesn't know the leaf: there a field is rebuilt as a K, or read, on the way of each leaf.
//! So each field at which some pattern looks is given a *spot* before the first node: slots of its own, the same ones
//! whichever leaf it comes from ([`spots`]). On the way of leaf 1 the field `.1` is taken and copied into its spot
//! ([`saving`]), and an edge from there knows one fact more: that this spot holds its part. Where the edges of several
//! leaves meet, what all of them saved is known, since the spots are the same; so [`place::place_of_part`] begins at
//! the nearest saved part at or above a position, and reads fields from there downward.
//!
//! # Tests that a leaf decides
//!
//! Let a leaf be `T(Some(_, _), _)`, where `Some` has fields of its own, and a pattern `T(Some(B, 3), _)`. The leaf
//! decides the test of `.0`, but not those of `.0.0` and `.0.1` below it, which want to know where the fields of
//! `.0` are: that is what a look at `.0` would have told. Where all values of `Some` have one leaf, which takes no
//! field apart, that leaf is known without a look ([`threading`]), and the edge says so. What stands below is read
//! from where `T(Some(_, _), _)` has it, if that leaf is known there ([`place`]), so that nothing is put together;
//! and else from the spot of `.0`.
//!
//! Where `Some` has several leaves, or one that takes a field apart, the fields of `.0` have spots of their own. So the
//! way of the leaf `T(Some(_, _), _)` *opens* `.0` ([`saving`]): it saves those fields themselves, and `.0` is neither
//! put together nor looked at. That can be done at the exit of a look alone, and a part is opened only where
//! all parts between it and the one that is looked at are.
//!
//! So a test that a leaf decides is looked at in two cases only: where another test stands between, and ways of several
//! leaves meet behind it or the part would have to be opened; and where the part would have to be opened but stands in
//! one whose leaf its constructor shows.
#![tactic(auto)]

pub mod knowledge;
pub mod links;
pub mod place;
pub mod saving;
pub mod spots;
pub mod threading;
