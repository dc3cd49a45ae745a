//! Sizes of blocks, in bytes.

ghost use Rattle.std.specs.Prelude.{◌≡◌};
ghost use Rattle.rb_layout.specs.Words.{size_of};
ghost use Rattle.rb_layout.specs.Readable.{AreShort};

use crate::layout::Block;

/// The size of a block in bytes, which is that of its words one after the other. Of a width that is
/// no multiple of 8, the whole bytes count. The block has at most 64 words, each of at most 64 bits.
#[tactic(auto, using(crate::proofs::Locating::locating))]
pub fn block_size(block: &Block) -> u64
    requires { AreShort block.now.words }
    ensures { result ≡ size_of block.now }
{
    let mut size: u64 = 0;
    for word in block.words.as_slice() {
        size += word.width / 8;
    }
    size
}
