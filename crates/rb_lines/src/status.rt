//! The statuses of answers that print nothing.

ghost use Rattle.std.specs.Prelude.{◌≡◌};
ghost use Rattle.rb_lines.specs.Numbers.{status_number};

/// Why nothing is printed.
#[derive(Clone, Copy, Debug)]
pub enum Status {
    /// The bytes are no tokens, or the tokens are no file.
    Syntax,
    /// The names, types or matches of a file have no meaning.
    Meaning,
    /// The layouts of a file do not agree with its types.
    Layout,
    /// The calls are spent.
    Spent,
    /// A block does not fit into the region.
    Full,
    /// The words are no command.
    Usage,
    /// A file was not read.
    Unread,
    /// Want of memory.
    NoMemory,
    /// The arguments are none of the function's, or there is no such function.
    Argument,
    /// A count is over its limit.
    Limit,
    /// The code traps.
    Trap,
    /// The value has too many nodes to be shown.
    TooLarge,
    /// The bytes are no valid code.
    Code,
    /// The bytes are no image, or the image holds no value.
    Image,
}

impl Status {
    /// The exit status of an answer with this one, where its line is written whole.
    pub fn number(self) -> u8
        ensures { result ≡ status_number self }
    {
        match self {
            Status::Syntax => 1,
            Status::Meaning => 2,
            Status::Layout => 3,
            Status::Spent => 4,
            Status::Full => 5,
            Status::Usage => 6,
            Status::Unread => 7,
            Status::NoMemory => 9,
            Status::Argument => 10,
            Status::Limit => 11,
            Status::Trap => 12,
            Status::TooLarge => 13,
            Status::Code => 14,
            Status::Image => 16,
        }
    }
}
