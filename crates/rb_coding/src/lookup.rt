//! What stands at a number: an item of a list, counted from 0.

ghost use Rattle.std.specs.Prelude.{◌≡◌, slice_index};

/// The word with this number, 0 where there is none.
pub fn item(words: &[u64], number: u64) -> u64
    ensures { result ≡ slice_index words.now number }
{
    match words.get(number as usize) {
        None => 0,
        Some(word) => *word,
    }
}
