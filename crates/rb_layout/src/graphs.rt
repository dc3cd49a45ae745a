//! Graphs of numbers, such as those in which cycles of types are looked for: row t lists the
//! numbers to which t leads. A list of marks says of each number, by its place, whether it is
//! marked, as a walk over the graph marks those that it has met.

ghost use Rattle.std.specs.Prelude.{◌≡◌, IfOk};
ghost use Rattle.rb_layout.specs.Graphs.{AreUnmarked, edges_of};

use rb_core::seq::Seq;
use std::alloc::{AllocError, Global};

/// `count` marks, none of them set.
///
/// # Errors
///
/// Want of memory.
pub fn no_marks(alloc: Global, count: usize) -> Result<Seq<bool>, AllocError>
    ensures { IfOk result (λ marks. AreUnmarked count marks) }
{
    let mut marks = Seq::new(alloc);
    for _i in 0..count {
        marks.push(false)?;
    }
    Ok(marks)
}

/// The numbers to which a number leads, in the order of its row; none for a number that the graph
/// hasn't.
pub fn edges_of(graph: &[Seq<u32>], number: u32) -> &[u32]
    ensures { result.now ≡ edges_of graph.now number }
{
    match graph.get(number as usize) {
        None => &[],
        Some(row) => row.as_slice(),
    }
}
