//! Laws of memory over all memories, each the contract of a function that does nothing: what a
//! place, a store and a load do by their definitions, what a memory that grows keeps, and how high
//! a base is. [`crate::memory::ByteMemory`] gives each method's answer by the same definitions, so
//! that these laws hold of every call of any memory.

ghost use Rattle.std.specs.Prelude.{◌≡◌, ℕ, ◌≤◌, Ok};
ghost use Rattle.rb_bytes.specs.Memory.{Memory, most_region, IsGood, IsWidth, IsSize, IsAlign, place_of, load_of, store_of};
ghost use Rattle.rb_bytes.specs.Laws.{IsPlaced, IsStored, IsLoaded};
ghost use Rattle.rb_bytes.specs.Growth.{GrowthLaws};

/// A place, of a size and an alignment that blocks have, leaves a good memory good, and keeps all
/// that was placed, written and could be loaded. A block that fits stands at the least multiple of
/// its alignment from the next address on, is found at its address, and no byte from there on is
/// written.
pub fn places_keep_all()
    ensures { (m : Memory) (size align : ℕ) → IsGood m → IsSize size → IsAlign align
        → IsPlaced m size align (place_of m size align) }
{}

/// A store leaves a good memory good. A word that was stored is loaded again, as far as the width
/// goes. Other bytes stay, with what is loaded from them, and so does what an earlier memory had
/// whose next address is not above the access.
pub fn stores_are_loaded()
    ensures { (m : Memory) (base offset width word : ℕ) → IsGood m → IsWidth width
        → IsStored m base offset width word (store_of m base offset width word) }
{}

/// A load that gives a word gives the number that its bytes spell, the lowest first. A trap for
/// want of a byte names the first of them that was never written. This is true of any memory, good
/// or not.
pub fn loads_are_spelled()
    ensures { (m : Memory) (base offset width : ℕ)
        → IsLoaded m base offset width (load_of m base offset width) }
{}

/// A good memory that grows by whole blocks, of which each byte is written, keeps its blocks, what
/// was written, and what could be loaded. To grow by some blocks and then by others is to grow by
/// all of them, and a good memory has grown by none.
pub fn growth_keeps_all()
    ensures { GrowthLaws }
{}

/// The base of a load that succeeds in a good memory is not above the address at which a region ends
/// at the latest.
pub fn bases_are_small()
    ensures { (m : Memory) (base offset width r : ℕ) → IsGood m → load_of m base offset width ≡ Ok r
        → base ≤ most_region }
{}
