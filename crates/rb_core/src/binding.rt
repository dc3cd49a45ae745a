//! The values that variables stand for. Variables are numbers, each that of its binder.

use crate::value::Value;

/// A variable, by the number of its binder, and its value.
#[derive(Drop)]
pub struct Binding {
    pub var: u32,
    pub value: Value,
}
