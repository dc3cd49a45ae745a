//! Reads a file.
//!
//! The tokens of the file are `placed`, each with its place in the text, and are numbered from 0
//! on. A node is a part of the tree that may hold others of its kind, as an expression; each takes
//! one level of those that are allowed. Reading stops with how many tokens are left, from the one
//! at fault on.

ghost use Rattle.std.specs.Prelude.{◌≡◌, ◌⊎◌, ◌-◌, ◌<◌, ◌^◌, List, length, Result, Err};
ghost use Rattle.rb_core.specs.Limits.{most_levels};
ghost use Rattle.rb_syntax.specs.declared.token.Token.{Token};
ghost use Rattle.rb_syntax.specs.declared.tree.FileTree.{FileTree};
ghost use Rattle.rb_syntax.specs.Tokens.{tokens};
ghost use Rattle.rb_read.specs.declared.fault.ReadFault.{ReadFault};
ghost use Rattle.rb_read.specs.declared.fault.ReadFault.TheVariants.{Memory};
ghost use Rattle.rb_read.specs.Files.{IsFile, IsFileAnswer, AnswersFile};
ghost use Rattle.rb_read.specs.inner.Ending as ending;
ghost use Rattle.rb_read.specs.inner.Gives.{Gives};
ghost use Rattle.rb_read.specs.inner.Reading as reading;

use crate::fault::ReadFault;
use crate::item::read_items;
use crate::limits::first_over;
use crate::stop::Stop;
use rb_core::seq::Seq;
use rb_syntax::token::Placed;
use rb_syntax::tree::{FileTree, ItemTree};
use std::alloc::Global;

// The file of the items that were read; it is stuck where tokens, `placed`, are left behind them.
#[tactic(auto, unfolding(crate::specs::inner::Ending::finished_file))]
fn file_at_end(items: Seq<ItemTree>, placed: &[Placed]) -> Result<FileTree, Stop>
    ensures { Gives (λ file. file) result (ending.finished_file items (tokens placed.now)) }
{
    if placed.is_empty() {
        Ok(FileTree { items })
    } else {
        Err(Stop::Stuck(placed.len()))
    }
}

// The file that the tokens spell, in at most so many levels as are allowed.
#[tactic(auto, unfolding(crate::specs::inner::Ending::whole_file))]
fn read_tree(alloc: Global, placed: &[Placed]) -> Result<FileTree, Stop>
    requires { length placed.now < 2 ^ 32 }
    ensures { Gives (λ file. file) result
        (ending.whole_file (reading.file_items (length placed.now) most_levels (tokens placed.now))) }
{
    let (items, rest) = read_items(alloc, placed.len(), placed)?;
    let file = file_at_end(items, rest)?;
    Ok(file)
}

// The number of the token from which on `left` tokens stand, of `total`; `total` where none does.
fn place(total: usize, left: usize) -> u32
    requires { total < 2 ^ 32 }
    ensures { result ≡ total - left }
{
    total.saturating_sub(left) as u32
}

// The file, unless a count of it is over its limit.
fn limited_file(file: FileTree) -> Result<FileTree, ReadFault>
    ensures { (ts : List Token) → IsFile ts file → AnswersFile ts result }
{
    if let Some(count) = first_over(&file) {
        return Err(ReadFault::Limit(count.quantity, count.count));
    }
    Ok(file)
}

// The file that the tokens spell and that is within the limits, or the first fault.
fn read_limited(alloc: Global, placed: &[Placed]) -> Result<FileTree, ReadFault>
    requires { length placed.now < 2 ^ 32 }
    ensures { AnswersFile (tokens placed.now) result }
{
    match read_tree(alloc, placed) {
        Ok(file) => limited_file(file),
        Err(Stop::Deep(left)) => Err(ReadFault::TooDeep(place(placed.len(), left))),
        Err(Stop::Stuck(left)) => Err(ReadFault::Syntax(place(placed.len(), left))),
        Err(Stop::Memory) => Err(ReadFault::Memory),
    }
}

/// The file that the tokens spell, or the first fault: a node too deep, else a token at which no
/// file goes on, else a count over its limit.
///
/// # Errors
///
/// `TooDeep` at the first token that begins a node deeper than `MOST_LEVELS` levels; else `Syntax` at the
/// first at which no file goes on; else `Limit` for the first count over its limit. `Memory` where
/// there is want of memory, which says nothing of the tokens.
pub fn read_file(alloc: Global, placed: &[Placed]) -> Result<FileTree, ReadFault>
    requires { length placed.now < 2 ^ 32 }
    ensures answer { AnswersFile (tokens placed.now) result }
    // there is no other answer
    ensures only { (r : Result FileTree ReadFault) → IsFileAnswer (tokens placed.now) r
        → (result ≡ r) ⊎ (result ≡ Err Memory) }
{
    read_limited(alloc, placed)
}
