//! The leaf of words: the one to which the splits of their layout lead. A split looks at the number
//! at a location, which begins in the root words and may lead by pointers to a block; it has an arm
//! with a tree for each of some literals, and may have an `else` with a tree for all other numbers.

ghost use Rattle.std.specs.Prelude.{◌≡◌, ℕ, Some};
ghost use Rattle.std.specs.Option.{option_copied};
ghost use Rattle.rb_bytes.specs.Memory.{IsGood};
ghost use Rattle.rb_rel.specs.Reading.{read_loc};
ghost use Rattle.rb_coding.specs.Arms.{under_number};
ghost use Rattle.rb_coding.specs.inner.Leading.{RouteLeads, ReadsNumber};

use crate::bits::take_from;
use rb_bytes::memory::ByteMemory;
use rb_core::boxed::Boxed;
use rb_core::layout_decl::Loc;
use rb_layout::layout::{FlatArm, FlatTree};

// The number that is read at a location, from the root words and the memory.
fn read_loc<M: ByteMemory>(memory: &M, words: &[u64], loc: &Loc) -> u64
    requires good { IsGood (M.memory memory.now) }
    requires reads { (n : ℕ) × ReadsNumber words.now (M.memory memory.now) loc.now n }
    ensures { read_loc words.now (M.memory memory.now) loc.now ≡ Some result }
{
    let mut word = match words.get(loc.word as usize) {
        None => unreachable!(),
        Some(word) => *word,
    };
    let mut o = loc.o;
    let mut l = loc.l;
    for step in loc.steps.as_slice() {
        let base = take_from(word, o, l) * step.align;
        match memory.load(base, step.byte, step.width) {
            Ok(loaded) => {
                word = loaded;
            }
            Err(_) => unreachable!(),
        }
        o = step.o;
        l = step.l;
    }
    take_from(word, o, l)
}

/// The tree that stands under a number: under the first arm with this literal, or else under
/// `else`, here `other`; None where there is neither.
pub fn under<'a>(
    arms: &'a [FlatArm],
    other: &'a Option<Boxed<FlatTree>>,
    number: u64,
) -> Option<&'a FlatTree>
    ensures { option_copied result ≡ under_number arms.now other.now number }
{
    for arm in arms {
        if arm.literal == number {
            return Some(&arm.under);
        }
    }
    match other {
        None => None,
        Some(tree) => Some(tree.get()),
    }
}

/// The number of the leaf to which a tree of splits leads, read on words.
pub(crate) fn leaf_number<M: ByteMemory>(memory: &M, words: &[u64], tree: &FlatTree) -> u32
    requires good { IsGood (M.memory memory.now) }
    requires leads { (leaf : ℕ) × RouteLeads words.now (M.memory memory.now) tree.now leaf }
    ensures { (leaf : ℕ) → RouteLeads words.now (M.memory memory.now) tree.now leaf
        → result ≡ leaf }
{
    let mut tree = tree;
    loop {
        match tree {
            FlatTree::Leaf(leaf) => return *leaf,
            FlatTree::Split(loc, arms, other) => {
                match under(arms.as_slice(), other, read_loc(memory, words, loc)) {
                    None => unreachable!(),
                    Some(next) => {
                        tree = next;
                    }
                }
            }
        }
    }
}
