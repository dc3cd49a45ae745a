//! Numbers as texts spell them: decimal digits without a leading zero.

ghost use Rattle.std.specs.Prelude.{◌≡◌, ◌≤◌, ◌^◌, ◌==◌, ◌||◌, ℕ, true, length, nat_lt, slice_index, MatchOption, IfSome, Some};
ghost use Rattle.std.specs.Char.{is_ascii_digit};
ghost use Rattle.std.specs.Fmt.{decimal};
ghost use Rattle.std.specs.List.{list_all};
ghost use Rattle.std.specs.Str.Parse.{digits_value};
ghost use Rattle.rb_core.specs.Decimal as spec;

use arrayvec::ArrayVec;
use std::str;

// Whether there is exactly one byte, or the first is over `0`; of no bytes, that is false.
fn has_no_leading_zero(word: &[u8]) -> bool
    ensures { result ≡ (length word.now == 1 || nat_lt 48 (slice_index word.now 0)) }
{
    match word {
        [] => false,
        [_] => true,
        [first, ..] => *first > b'0',
    }
}

// Whether each byte is a decimal digit, `0` to `9`; of no bytes, that is true.
fn is_digits(word: &[u8]) -> bool
    ensures { result ≡ list_all is_ascii_digit word.now }
{
    word.iter().all(|byte| byte.is_ascii_digit())
}

// Whether the word is a numeral: decimal digits, at least one, without a leading zero unless it is
// one digit alone.
fn is_numeral(word: &[u8]) -> bool
    ensures { result ≡ spec.is_numeral word.now }
{
    has_no_leading_zero(word) && is_digits(word)
}

// The number that a numeral spells, or None where it is `2^64` or more.
fn value_of(numeral: &[u8]) -> Option<u64>
    requires { spec.is_numeral numeral.now ≡ true }
    ensures { MatchOption result (2 ^ 64 ≤ digits_value 10 numeral.now) (λ n. n ≡ digits_value 10 numeral.now) }
{
    match str::from_utf8(numeral) {
        Ok(text) => match text.parse::<u64>() {
            Ok(number) => Some(number),
            Err(_) => None,
        },
        Err(_) => None,
    }
}

/// The number from `low` to `high`, both included, that the word spells as a numeral. None where
/// the word is no numeral, or its number is another. Each such number has exactly one word.
pub fn number_in(low: u64, high: u64, word: &[u8]) -> Option<u64>
    ensures value { result ≡ spec.number_in low high word.now }
    ensures spelled { IfSome result (λ n. word.now ≡ decimal n) }
    ensures only { (n : ℕ) → low ≤ n → n ≤ high → word.now ≡ decimal n → result ≡ Some n }
{
    if !is_numeral(word) {
        return None;
    }
    match value_of(word) {
        Some(number) => {
            if low <= number && number <= high {
                Some(number)
            } else {
                None
            }
        }
        None => None,
    }
}

/// The decimal digits of a number, at most 20, without a leading zero; of 0, that is `0`. It takes
/// no memory.
pub fn digits(number: u64) -> ArrayVec<u8, 20>
    ensures { result.items ≡ decimal number }
{
    let mut digits = ArrayVec::new();
    let mut rest = number;
    while rest >= 10 {
        digits.insert(0, b'0' + (rest % 10) as u8);
        rest /= 10;
    }
    digits.insert(0, b'0' + rest as u8);
    digits
}
