//! Reading code texts. A text is read byte by byte, in time linear in its length: between two words the
//! reader knows which words may come next, and within a word which bytes.

ghost use Rattle.std.specs.Prelude.{◌≡◌, List, IfOk, IfErr};
ghost use Rattle.rb_target.specs.Text.{code_text};
ghost use Rattle.rb_target.specs.Validity.{IsValid};
ghost use Rattle.rb_target.specs.Refusals.{IsAnswerTo, IsCodeRefusal, IsThese};
ghost use Rattle.rb_target.specs.Stopping.{IsTextOf};
ghost use Rattle.rb_target.specs.declared.code.CodeFun.{CodeFun};

use crate::check::check;
use crate::code::Code;
use crate::fault::CodeFault;
use std::alloc::Global;

mod field;
mod line;
mod spot;
mod step;
mod text;

use text::read_text;

/// The code whose text the bytes are.
///
/// # Errors
///
/// The byte at which no text goes on, whether of valid functions or not; the first fault of the functions
/// whose text the bytes are, where these are not valid together; want of memory.
pub fn read_code(alloc: Global, bytes: &[u8]) -> Result<Code, CodeFault>
    ensures text { IfOk result (λ code. bytes.now ≡ code_text code) }
    ensures each { (funs : List CodeFun) → IsValid funs → bytes.now ≡ code_text funs → IsThese funs result }
    ensures every { (funs : List CodeFun) → IsTextOf bytes.now funs → IsAnswerTo funs result }
    ensures refusal { IfErr result (λ fault. IsCodeRefusal bytes.now fault) }
{
    let funs = read_text(alloc, bytes)?;
    check(funs)
}
