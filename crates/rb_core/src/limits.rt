//! The limits of files, programs and runs, each the greatest count that is allowed; definitions
//! cite them as `specs/Limits.antt` has them.

/// The most bytes that a program's file may have.
pub const MOST_FILE_BYTES: usize = 262_144;

/// The most data types that a program may declare.
pub const MOST_TYPES: usize = 1_000;

/// The most functions that a program may declare.
pub const MOST_FUNCTIONS: usize = 10_000;

/// The most constructors that one data type may have.
pub const MOST_CONSTRUCTORS: usize = 256;

/// The most fields that one constructor may have.
pub const MOST_FIELDS: usize = 32;

/// The most parameters that one function may have.
pub const MOST_PARAMETERS: usize = 32;

/// The most words that the shape of one layout may have.
pub const MOST_WORDS: usize = 8;

/// The most levels that a program's text may nest, the outermost counted.
pub const MOST_LEVELS: u32 = 128;

/// The most calls that a run may be given, that of `main` counted.
pub const MOST_CALLS: u64 = 1_000_000_000;

/// The most calls that `eval` may be given, which nests as deep as they do.
pub const MOST_EVAL_CALLS: u64 = 1_000;
