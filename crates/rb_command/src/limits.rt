//! How far a run may go, and how large a generated file may be.

ghost use Rattle.std.specs.Prelude.{◌≤◌};
ghost use Rattle.rb_bytes.specs.Memory.{least_region, most_region};
ghost use Rattle.rb_core.specs.Limits.{most_calls};
ghost use Rattle.rb_command.specs.Command.{most_generated};

/// How many calls a run may make, and how much memory it may take.
#[derive(Clone, Copy)]
pub struct Limits {
    /// Calls, that of `main` included.
    pub calls: u64,
    /// The address at which the memory of a run ends, in bytes.
    pub region: u64,
    ghost few: { calls ≤ most_calls },
    ghost low: { least_region ≤ region },
    ghost high: { region ≤ most_region },
}

/// How many functions a generated file has beside `up` and `main`.
#[derive(Clone, Copy)]
pub struct Functions {
    pub count: u64,
    ghost some: { 1 ≤ count },
    ghost few: { count ≤ most_generated },
}
