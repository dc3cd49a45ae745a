//! Code of matches: what chooses a clause, and what binds a pattern's variables.
//!
//! A *leaf* is one of the forms in which a layout stores the values of a data type; its
//! *provenance* is the pattern of these values. It *takes a field apart* where it has what stands
//! in the field, and no words of the field itself. To *look* is to find a part's leaf or number by
//! code. A *node* is a test or a clause of a decision graph. A *position*, written `.0.1`, is the
//! numbers of the fields that lead from the value to a part of it, the outermost first.
//!
//! [`choosing::emit_match`] makes the match's decision tree, shares equal parts of it, and emits the code
//! of each node once, from the root down. Take `type K = A | B` in one bit, a pair of two, and
//! `match p { P(A, _) => 0, P(_, A) => 1, _ => 2 }`, whose tree is
//!
//! ```text
//! .0 { A => clause 0
//!      else => .1 { A => clause 1
//!                   else => clause 2 } }
//! ```
//!
//! At the root the pair's own words stand in slots. The leaf of a pair tells where its fields are, so the
//! first field is bits of them, said as a read (`rb_fragment`) and made only now. A switch on its leaf has
//! two arms, and each is an *edge*: a target that is still open, with the number of the node to which it
//! leads, and with the leaves that are known there (`knowledge` of `rb_facts`). The arm of A leads to clause 0, which
//! has no code and needs no facts: its edges are the answer's holes. The arm of B leads to the next node. When
//! that node's turn comes, all edges that lead to it are set to the end of the code, what all of them know is
//! known there, and its test is emitted: so the second field is read from the same slots. A number is tested by
//! one switch over all literals of its column.
//!
//! A look tells leaves apart only where it has to (`find_group_of` of `rb_fetch`): leaves of constructors that can't be
//! here are left out, and leaves that lead to one node go by one edge, unless a test below the position can be met
//! from there on, which reads from the part and so needs its leaf. Such an edge of several leaves knows none of them.
//!
//! Why that is right is one invariant: a run leaves by an edge whose node takes of the value what the root
//! takes, what the edge knows is so, and the switches so far are those of looks at distinct places, at
//! which some clause has a number or a constructor. So a match costs at most the sum of its places.
//!
//! # Where a leaf takes a field apart
//!
//! `rb_facts` says which tests need no code there and are led over, and where parts are saved for later ones. A look at
//! a part of such a type saves what later tests need ([`deep`]). Let the pair stand in two leaves, `P(A, _)` and
//! `P(B, _)`, each with bits of the second field alone. The look finds the leaf; behind it the code of leaf 1 copies
//! the second field into its spot, slots that are the same ones whichever leaf it comes from, and an open jump leads
//! on. Of leaf 0 nothing is saved: its edge is the look's own, and if several such leaves led on to one node, the look
//! would not tell them apart.
//!
//! A look at such a type costs the switches that find its leaf and those that rebuild, which is half of what
//! the bound allows a match at such a place. The other half is left to binding, which looks again where a
//! pattern's constructor has several leaves. Where no leaf takes a field apart there are no spots, no jumps
//! and no rebuilding, and binding takes no switch.
//!
//! # Many nodes, and binding
//!
//! Where the tree has more than 512 nodes, clauses are tried one by one ([`clauses`]), each by the same
//! code for the two patterns `p` and `_`; what it doesn't match goes on at the next clause.
//!
//! [`binding::bind`] follows the pattern. A value that the pattern matches has no leaf that has another constructor in
//! one of its places: so, where the pair stands in the two leaves above, `P(B, x)` is bound from leaf 1 without a look
//! ([`patterns`]). Where one leaf is left, each field that holds a variable is fetched on the way to it.
#![tactic(auto)]

mod asking;
pub mod binding;
pub mod choosing;
mod clauses;
mod deep;
mod engine;
pub mod laws;
mod patterns;
