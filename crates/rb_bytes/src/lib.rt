//! The memory that a program runs over: blocks of bytes, placed one behind the other and never
//! freed.
//!
//! A region ends at its limit, and the first block stands at address 64 at the earliest. Each is
//! placed at the least multiple of its alignment from the end of the last on. Over a region with
//! limit 96, two blocks of 8 bytes, the first at a multiple of 8 and the second of 16, fill it up
//! to address 88:
//!
//! ```text
//! address    64 .. 71    72 .. 79     80 .. 87    88 .. 95
//! holds      block 64    left free    block 80    not yet placed
//! ```
//!
//! Another block of 16 bytes would end above the limit, so it is refused and nothing changes. A
//! load or a store names the block by its address, and bytes within it by their offset. A load or a
//! store of 8 bytes from offset 4 of block 64 on goes astray, since the block has 8; a load of
//! bytes that were never written finds them unwritten.
//!
//! What place, load and store do is defined once, on a memory as plain data: its limit, the next
//! address, the blocks, and for each address the byte that was written there or none.
//! [`memory::ByteMemory`] is the trait of all memories that do so, and [`checked::CheckedMemory`]
//! the one that tests each access, by what it keeps for each address: the byte, a mark that it was
//! written, and the size of the block that begins there. A load looks at the marks of all its bytes
//! at once, and only where one lacks goes over them one by one. [`laws`] says of the definitions
//! what a proof needs, as that a load after a store gives what was stored.
#![tactic(auto)]

pub mod checked;
pub mod fault;
pub mod laws;
pub mod memory;
