//! Places in a file: bytes of it, found by the numbers of tokens. Both are counted from 0.

ghost use Rattle.std.specs.Prelude.{◌≡◌};
ghost use Rattle.rb_lines.specs.Places as spec;

use rb_syntax::token::Placed;

/// The byte at which the token of this number among `placed` begins, or the file's `length` behind
/// the last token.
pub fn byte_of(placed: &[Placed], length: usize, token: u32) -> u64
    ensures { result ≡ spec.byte_of placed.now length token }
{
    match placed.get(token as usize) {
        Some(placed) => placed.at as u64,
        None => length as u64,
    }
}
