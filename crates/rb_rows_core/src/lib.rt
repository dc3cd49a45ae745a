//! Rows of numbers and their bits, memory, values, the outside, and code. It has tests alone.
//!
//! They add words of a standard, here of RISC-V, taken apart and put together; addresses that were worked out by hand,
//! at the ends of blocks and of regions; values a million deep, since a proof bounds no stack; and what no contract
//! says of the outside: that calls succeed, and what the system's files and streams do. A row of places is a size, the
//! alignment as a power of two, the address or what did not fit, and the next address. Here 63 bytes do not fit behind
//! address 130 in a region that ends at 192:
//!
//! ```text
//! (63, 0, (130, 63, 1, 192), 130),
//! ```
#![tactic(auto)]

#[cfg(test)]
mod bits;
#[cfg(test)]
mod bytes;
#[cfg(test)]
mod code;
#[cfg(test)]
mod outside;
#[cfg(test)]
mod raw;
#[cfg(test)]
mod values;
#[cfg(test)]
mod width;
