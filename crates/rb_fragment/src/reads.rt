//! Numbers that code can make: what a location, a field or a word of it is, as data.

ghost use Rattle.std.specs.Prelude.{◌≡◌, IfOk, map};
ghost use Rattle.rb_fragment.specs.declared.reads.Read as reads;

use rb_core::boxed::Boxed;
use rb_core::seq::Seq;
use std::alloc::{AllocError, Global};

/// A number, from slots and memory. Ranges are bits, offsets are bytes, widths are bits.
#[cycle(read)]
#[derive(Drop)]
pub enum Read {
    /// The word in a slot.
    Slot(usize),
    /// This number.
    Number(u64),
    /// Bits of another one: from which bit, and how many.
    Bits(Boxed<Read>, u8, u8),
    /// Bits of another one, from which and how many, times an alignment: the address that a pointer part says.
    Address(Boxed<Read>, u8, u8, u64),
    /// What is loaded from the block at an address: at which byte, and a word of what width.
    Loaded(Boxed<Read>, u64, u8),
    /// Shares side by side, and zeros elsewhere; a later share covers an earlier one.
    Joined(Seq<Share>),
}

/// Bits `o` up to `o + l` of a number, which stand from bit `a` on in another one.
#[cycle(read)]
#[derive(Drop)]
pub struct Share {
    pub read: Read,
    pub o: u8,
    pub l: u8,
    pub a: u8,
}

impl Read {
    /// An equal read, with parts of its own.
    ///
    /// # Errors
    ///
    /// Want of memory.
    #[cycle(copying)]
    pub fn copy(&self, alloc: Global) -> Result<Read, AllocError>
        ensures { IfOk result (λ read. read ≡ self.now) }
    {
        match self {
            Read::Slot(slot) => Ok(Read::Slot(*slot)),
            Read::Number(number) => Ok(Read::Number(*number)),
            Read::Bits(inner, o, l) => {
                let inner = Boxed::new(alloc, inner.get().copy(alloc)?)?;
                Ok(Read::Bits(inner, *o, *l))
            }
            Read::Address(inner, o, l, align) => {
                let inner = Boxed::new(alloc, inner.get().copy(alloc)?)?;
                Ok(Read::Address(inner, *o, *l, *align))
            }
            Read::Loaded(inner, byte, width) => {
                let inner = Boxed::new(alloc, inner.get().copy(alloc)?)?;
                Ok(Read::Loaded(inner, *byte, *width))
            }
            Read::Joined(shares) => {
                let copies = copy_shares(alloc, shares.as_slice())?;
                Ok(Read::Joined(copies))
            }
        }
    }
}

// Equal shares, in their order, with reads of their own.
#[cycle(copying)]
fn copy_shares(alloc: Global, shares: &[Share]) -> Result<Seq<Share>, AllocError>
    ensures { IfOk result (λ copies. copies ≡ shares.now) }
{
    let mut copies = Seq::new(alloc);
    for share in shares {
        let read = share.read.copy(alloc)?;
        copies.push(Share {
            read,
            o: share.o,
            l: share.l,
            a: share.a,
        })?;
    }
    Ok(copies)
}

/// The reads of the words in some slots, one each and in their order.
///
/// # Errors
///
/// Want of memory.
pub fn slot_reads(alloc: Global, slots: &[usize]) -> Result<Seq<Read>, AllocError>
    ensures { IfOk result (λ found. found ≡ map (λ x. reads.Slot x) slots.now) }
{
    let mut found = Seq::new(alloc);
    for slot in slots {
        found.push(Read::Slot(*slot))?;
    }
    Ok(found)
}
