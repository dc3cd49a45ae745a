//! Types and their declarations. Data types are numbered from 0 in their program, and constructors
//! from 0 in their type.

use crate::seq::Seq;

/// The bytes of a name, without its place in the file.
pub type Name = Seq<u8>;

/// A type of the language.
#[derive(Clone, Copy, PartialEq, Eq, Debug)]
pub enum Ty {
    /// Unsigned integers of 1 to 64 bits.
    Int(u8),
    /// The data type with this number.
    Named(u32),
}

/// A constructor: its type's number, and its own number in that type.
#[derive(Clone, Copy, PartialEq, Eq, Debug)]
pub struct ConRef {
    pub ty: u32,
    pub con: u32,
}

/// A constructor as it is declared: its name, and the types of its fields in their order.
#[derive(Drop)]
pub struct Con {
    pub name: Name,
    pub fields: Seq<Ty>,
}

/// A data type as it is declared: its name, and its constructors in the order of their numbers.
#[derive(Drop)]
pub struct DataDecl {
    pub name: Name,
    pub cons: Seq<Con>,
}

/// A layout that the compiler is to choose.
#[derive(Clone, Copy, PartialEq, Eq)]
pub enum Auto {
    /// One word that is a number or points to a block.
    Boxed,
    /// One word of at most 64 bits without pointers.
    Packed,
}
