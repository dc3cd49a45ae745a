//! Images as text: root words and blocks of a memory, read from a text. `Cons(2, Nil)` may stand in a
//! memory as one root word that leads to one block of 16 bytes:
//!
//! ```text
//! root 0x40
//! block 64 16 02000000000000000100000000000000
//! ```
//!
//! A text is read byte by byte, in time and memory linear in its length. Between two bytes the reader
//! knows where it stands, with the number or the bytes that are read in part there: behind `root 0x4`
//! it stands behind digits of the number 4. So it knows at each byte whether some text goes on so, and
//! stops at the first at which none does. The blocks may stand in any order in a text; that they ascend
//! without overlap is tested once all are read.
#![tactic(auto)]

pub mod fault;
pub mod image;
mod order;
pub mod read;
mod spot;
mod step;
