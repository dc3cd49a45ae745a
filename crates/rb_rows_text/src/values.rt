//! Texts of values: read at a type and printed again, and the byte at which others are refused.
//!
//! They hold the grammar of values, and the rule of the first node that does not fit its type, against texts that were
//! marked by hand, and read values half a million deep, since a proof bounds no stack. In a row of a type a `!` stands
//! before the first node that does not fit, a `~` where no value goes on; a row without a mark is printed as it
//! stands. The second field of a `Cons` is a list, and no colour:
//!
//! ```text
//! Cons(1, !Red)
//! ```

mod limits;
mod reading;
mod texts;
mod types;
