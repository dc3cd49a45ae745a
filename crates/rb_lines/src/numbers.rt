//! The numbers of faults in the lines.
//!
//! A slot of a function holds a word while it runs, and a target is the instruction at which a
//! function goes on. The root words of an image are those of a value itself, and its blocks are
//! what pointers lead to.

/// The number of the fault of bytes that are no code text. Codes that are refused have 20 to 23.
pub(crate) const CODE_SYNTAX: u64 = 20;

/// The number of the fault of a slot that the function has not got, or of a number of slots that
/// does not fit.
pub(crate) const BAD_SLOT: u64 = 21;

/// The number of the fault of a target that is no later instruction, or of a body that does not end
/// in a return.
pub(crate) const BAD_JUMP: u64 = 22;

/// The number of the fault of a call of no function, or of a call or a return whose numbers of
/// arguments and results do not fit.
pub(crate) const BAD_CALL: u64 = 23;

/// The number of the trap of an access astray. Traps have 30 to 32.
pub(crate) const ASTRAY: u64 = 30;

/// The number of the trap of an unwritten byte that is read.
pub(crate) const UNWRITTEN: u64 = 31;

/// The number of the trap of a switch that has no arm for its word.
pub(crate) const UNMATCHED: u64 = 32;

/// The number of the fault of bytes that are no image text. Images that are refused have 40 to 44
/// and 46.
pub(crate) const IMAGE_SYNTAX: u64 = 40;

/// The number of the fault of a block out of its place.
pub(crate) const IMAGE_BLOCK: u64 = 41;

/// The number of the fault of a root word that is missing, too many or too wide.
pub(crate) const BAD_ROOT: u64 = 42;

/// The number of the fault of a word with bits that no value has.
pub(crate) const BAD_BITS: u64 = 43;

/// The number of the fault of a pointer to no block of the wanted size, to no word that a split
/// asks for, or, from within a block, to one that is not lower.
pub(crate) const BAD_POINTER: u64 = 44;

/// The number of the fault of a path with a step that names no field.
pub(crate) const NO_SUCH_PART: u64 = 46;
