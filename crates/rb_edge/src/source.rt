//! A source: files by name, of which one is open.

ghost use Rattle.std.specs.Prelude.{◌≡◌, ◌≤◌, ℕ, List, [], ◌∷◌, ◌++◌, take, Bool, Option, Some, None, length, IsTrue, IfOk, OnOk, OnErr, IsErr};
ghost use Rattle.rb_edge.specs.Faults.{Rose};
ghost use Rattle.rb_edge.specs.History.{Reading, fresh_reading, missed_reading, broken_reading, on_last, after_read};
ghost use Rattle.rb_edge.specs.Source.{HoldsTheSame, GivesBytes, FailsToOpen};

use thiserror::Error;

/// The one fault of sources and sinks.
#[derive(Clone, Copy, Debug, PartialEq, Eq, Error)]
#[error("the source or the sink failed")]
pub struct Failed;

/// Files by name, of which one is open at a time.
///
/// What it handed out is known of every source. What it holds is known of sources that tell their
/// bytes alone; a file of the system tells none. The count of faults means the same in all sources.
pub trait Source {
    // whether the source tells its bytes
    ghost tells: { Self → Bool };

    // the bytes that are held under a name; `None` where nothing is held
    ghost held: { Self → List ℕ → Option (List ℕ) };

    // the bytes left of the opened file; none where no file is open
    ghost left: { Self → List ℕ };

    // what it handed out: each name that was opened, or failed to be, with the bytes given since
    ghost readings: { Self → List Reading };

    // how many faults there were since it was made, up to the greatest count
    ghost faults: { Self → ℕ };

    /// Opens the file of that name at its first byte, in place of the one that was open.
    ///
    /// # Errors
    ///
    /// `Failed` where nothing is held under the name, or a fault was counted. No file is open then.
    fn open_file(&mut self, name: &[u8]) -> Result<(), Failed>
        ensures same { HoldsTheSame tells held self.old self.new }
        ensures later { faults self.old ≤ faults self.new }

        ensures begun { OnOk result (readings self.new ≡ readings self.old ++ fresh_reading name.now ∷ []) }
        ensures missed { OnErr result (readings self.new
            ≡ readings self.old ++ missed_reading name.now ∷ []) }

        ensures opened { OnOk result (IsTrue (tells self.old)
            → held self.old name.now ≡ Some (left self.new)) }
        ensures nothing_left { OnErr result (IsTrue (tells self.old) → left self.new ≡ []) }
        ensures cause { OnErr result (FailsToOpen tells held faults self.old self.new name.now) }

        // A name under which nothing is held is never opened, and that is no fault.
        ensures not_held { IsTrue (tells self.old) → held self.old name.now ≡ None → IsErr result }
        ensures no_fault { IsTrue (tells self.old) → held self.old name.now ≡ None
            → faults self.new ≡ faults self.old };

    /// Reads the next bytes into the front of the buffer, and says how many. No bytes into a
    /// buffer with room tell the end of the file, or that none is open. What stands behind the
    /// bytes in the buffer is left open.
    ///
    /// # Errors
    ///
    /// `Failed` where a fault was counted. A source that tells its bytes loses none by it.
    fn read(&mut self, buf: &mut [u8]) -> Result<usize, Failed>
        ensures same { HoldsTheSame tells held self.old self.new }
        ensures later { faults self.old ≤ faults self.new }

        ensures handed { IfOk result (λ n. readings self.new
            ≡ on_last (after_read (length buf.old) (take n buf.new)) (readings self.old)) }
        ensures broken { OnErr result (readings self.new ≡ on_last broken_reading (readings self.old)) }

        ensures within { IfOk result (λ n. n ≤ length buf.old) }
        ensures bytes { IfOk result (λ n. IsTrue (tells self.old)
            → GivesBytes n buf.new (left self.old) (left self.new)) }
        ensures err { OnErr result (IsTrue (tells self.old) → left self.new ≡ left self.old) }
        ensures cause { OnErr result (Rose (faults self.old) (faults self.new)) };
}
