//! Kinds of bytes, and how many at the front of bytes are a run, a line, digits or a number.

ghost use Rattle.std.specs.Prelude.{◌≡◌};
ghost use Rattle.std.specs.Char.{is_ascii_digit};
ghost use Rattle.std.specs.List.{prefix_len};
ghost use Rattle.rb_core.specs.WellNumbered as name;
ghost use Rattle.rb_syntax.specs.Bytes as kind;

/// Whether a blank: tab, line feed, carriage return or space.
pub fn is_blank(b: u8) -> bool
    ensures { result ≡ kind.is_blank b }
{
    b == 9 || b == 10 || b == 13 || b == 32
}

/// Whether a byte of names and numbers: a letter, a digit or `_`.
pub fn is_word_byte(b: u8) -> bool
    ensures { result ≡ name.is_word_byte b }
{
    b.is_ascii_uppercase() || b.is_ascii_lowercase() || b.is_ascii_digit() || b == b'_'
}

/// How many bytes at the front are bytes of names and numbers, up to the first other one.
pub fn run_len(bytes: &[u8]) -> usize
    ensures { result ≡ prefix_len name.is_word_byte bytes.now }
{
    bytes.iter().take_while(|b| is_word_byte(**b)).count()
}

/// How many bytes stand at the front before the first line feed: all where there is none.
pub fn line_len(bytes: &[u8]) -> usize
    ensures { result ≡ prefix_len kind.is_in_line bytes.now }
{
    bytes.iter().take_while(|b| **b != b'\n').count()
}

/// How many bytes at the front are decimal digits, up to the first other byte.
pub fn digits_len(bytes: &[u8]) -> usize
    ensures { result ≡ prefix_len is_ascii_digit bytes.now }
{
    bytes.iter().take_while(|b| b.is_ascii_digit()).count()
}

/// How many bytes at the front are a number without a leading zero: 1 for `0`, whatever follows it,
/// and 0 where no digit stands there.
pub fn numeral_len(bytes: &[u8]) -> usize
    ensures { result ≡ kind.numeral_len bytes.now }
{
    match bytes {
        [] => 0,
        [b'0', ..] => 1,
        [_, ..] => digits_len(bytes),
    }
}
