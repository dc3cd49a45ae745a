//! The checker of agreement: whether the layouts of a program agree with its types, and else the first
//! place at which a rule fails.
//!
//! A leaf is for the values of its provenance, a pattern. Its root words are those outside of
//! blocks, and its items its words and inlined fields as they are written. A wildcard or a variable
//! in the provenance is an open position.
//!
//! `agree::agree` goes rule after rule, in a rule type after type, and in a type leaf after leaf.
//! Each rule has a call that looks at one place, a type or a leaf of its layout, and answers that
//! the rule holds there or with evidence that it fails. Take the type and the layout
//!
//! ```text
//! type Bit = Off | On;
//! layout Bit <8> = split 0[0:1] {
//!     0 => Off : { word 8 { [0:1] = 0 } }
//!     1 => On : { word 8 { [0:1] = 0 } }
//! };
//! ```
//!
//! Leaf 1, `On`, stands below the literal 1, but its bit 0 is 0. So `tests_fault` answers for that leaf
//! `NotKnown` with the split's location and 1, and for leaf 0 that nothing fails.
//!
//! | rule | call | where |
//! |---|---|---|
//! | A1 shapes | `shapes::decl_fault` | a type |
//! | A1 shapes | `shapes::shapes_fault` | all types, in their order |
//! | A2 root words | `roots::root_fault` | a leaf |
//! | A3 parts | `parts::item_fault`, over `items::items_of` | an item of a leaf |
//! | A4 blocks and pointers | `blocks::blocks_fault` | a leaf |
//! | A5 a leaf for each value | `values::complete_fault` | a type |
//! | A5 no value has two | `values::apart_fault` | a leaf |
//! | A6 fields held once | `held::held_fault` | a leaf |
//! | A7 tests | `tests::tests_fault` | a leaf |
//! | A8 splits | `splits::splits_fault` | a type |
//! | A9 no cycle | `graphs::flattening_fault`, over `graphs::flattening_graph` | a type |
//! | A9 no pointer | `pointers::pointer_fault`, over `pointers::pointer_marks` | a leaf |
//! | A10 no cycle | `graphs::holding_fault`, over `graphs::holding_graph` | a type |
//!
//! Missing values and common ones are found by the search in matrices of patterns; two provenances that
//! have different numbers or constructors in one place are told apart before it is asked (`are_apart` of
//! `rb_matrix`).
//!
//! A file may have thousands of leaves, literals, positions or types, so no rule looks at all pairs of them:
//!
//! - `sharing` spares comparing all pairs of leaves: they are grouped by their constructors at the place that tells
//!   most apart, and compared in their groups.
//! - `passing` spares going through a whole tree of splits for each leaf: in one walk each leaf is asked what the
//!   splits above it ask.
//! - `alike` spares asking a leaf for each literal beside an `else`, where one that is alike there excludes them all.
//! - `splits` keeps the literals of a split in a set, so that they are not compared with each other.
//! - `runs` and `search` spare looking through all parts for each open position: each part's position is looked up,
//!   and gets its run.
//! - `order` spares a search for a cycle from each type: one walk finds an order, and no cycle is where all edges
//!   lead down.
#![tactic(auto)]

pub mod agree;
mod alike;
pub mod blocks;
mod cycles;
pub mod fault;
pub mod graphs;
pub mod held;
pub mod items;
mod leaves;
mod numbers;
mod order;
pub mod parts;
mod passing;
pub mod pointers;
pub mod roots;
mod rules;
mod runs;
mod search;
pub mod shapes;
mod sharing;
pub mod splits;
pub mod tests;
pub mod values;

pub use fault::AgreeFault;
