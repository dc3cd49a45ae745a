//! A sink: what takes bytes.

ghost use Rattle.std.specs.Prelude.{◌≡◌, ◌≤◌, ◌<◌, ◌++◌, ℕ, List, Bool, take, length, IsTrue, IfOk, OnErr};
ghost use Rattle.rb_edge.specs.Faults.{Rose};
ghost use Rattle.rb_edge.specs.History.{Account, after_take, after_break};

use crate::source::Failed;

/// Takes bytes, a piece at a time.
///
/// What it said it took is known of every sink. What it took is known of sinks that tell it alone;
/// a stream of the system tells nothing.
pub trait Sink {
    // whether the sink tells its bytes
    ghost tells: { Self → Bool };

    // the bytes taken
    ghost taken: { Self → List ℕ };

    // what it said: the bytes that it took, and where a write failed
    ghost account: { Self → Account };

    // how many faults there were since it was made, up to the greatest count
    ghost faults: { Self → ℕ };

    /// Takes bytes from the front of the piece, at least one where there is one, and says how many.
    ///
    /// # Errors
    ///
    /// `Failed` where a fault was counted. The sink then says that it took nothing of the piece,
    /// and took nothing where it tells what it took.
    fn write(&mut self, bytes: &[u8]) -> Result<usize, Failed>
        ensures same { tells self.new ≡ tells self.old }
        ensures later { faults self.old ≤ faults self.new }

        ensures said { IfOk result (λ n. account self.new
            ≡ after_take (take n bytes.now) (account self.old)) }
        ensures breaks { OnErr result (account self.new ≡ after_break (account self.old)) }

        ensures within { IfOk result (λ n. n ≤ length bytes.now) }
        ensures some { IfOk result (λ n. 0 < length bytes.now → 0 < n) }
        ensures taken { IfOk result (λ n. IsTrue (tells self.old)
            → taken self.new ≡ taken self.old ++ take n bytes.now) }
        ensures err { OnErr result (IsTrue (tells self.old) → taken self.new ≡ taken self.old) }
        ensures cause { OnErr result (Rose (faults self.old) (faults self.new)) };
}
