//! Values in slots.

use rb_core::seq::Seq;
use rb_core::types::Ty;
use rb_target::body::Hole;

/// A variable, its type, and the slots that hold its value, a word each.
#[derive(Drop)]
pub struct Local {
    pub var: u32,
    pub ty: Ty,
    pub slots: Seq<usize>,
}

/// Slots that hold a value of a type, a word each.
#[derive(Drop)]
pub struct Held {
    pub ty: Ty,
    pub slots: Seq<usize>,
}

/// Where an arm leaves its value, and its open jump to where all arms meet.
#[derive(Drop)]
pub struct Joined {
    pub into: Held,
    pub join: Hole,
}
