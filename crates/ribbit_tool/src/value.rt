//! The command `value`: the value that an image holds. An image has words, its root, and blocks;
//! with what is in these the words represent the value. `agreed` is a program with its layouts. A
//! refusal is the answer in place of the text: a status with its line, or want of memory.

ghost use Rattle.std.specs.Prelude.{◌≡◌, ℕ, IfOk, IfErr, Ok};
ghost use Rattle.rb_accept.specs.Reading.{ReadsInTurn, source_of};
ghost use Rattle.rb_accept.specs.View.{handed_between};
ghost use Rattle.rb_command.specs.Command as spec;
ghost use Rattle.rb_core.specs.Typing.{result_type};
ghost use Rattle.rb_image.specs.Values.{IsDeclared};
ghost use Rattle.rb_image_text.specs.Images.{AreImageBlocks};
ghost use Rattle.rb_image_text.specs.Places.{AreInPlace};
ghost use Rattle.rb_layout.specs.Flattening.{flat_layouts};
ghost use Rattle.rb_lines.specs.Answer.{printed};
ghost use Rattle.rb_lines.specs.View.{IsRefusal, Meets};
ghost use Rattle.ribbit_tool.specs.Answers.{Owes, files_of};
ghost use Rattle.ribbit_tool.specs.Value.{IsDueToImage};

use crate::run::show_at;
use rb_accept::opening::{open_image, refuse_image};
use rb_core::types::Ty;
use rb_edge::source::Source;
use rb_image::value::read_image;
use rb_image_text::image::Image;
use rb_layout::agreed::Agreed;
use rb_lines::argument::NODES;
use rb_lines::refusal::Refusal;
use rb_run::answer::result_of_main;
use std::alloc::Global;

/// Tells that the layouts of a program that agrees are the flat forms of its own.
pub(crate) fn layouts_are_flat(agreed: &Agreed)
    ensures { agreed.now.layouts ≡ flat_layouts agreed.now.covered.program }
{
    let _ = agreed.layouts();
}

/// The value of type `ty` that an image holds, on a line.
///
/// # Errors
///
/// The answer to an image that holds no value to be shown; or want of memory.
pub(crate) fn value_text(
    alloc: Global,
    agreed: &Agreed,
    ty: Ty,
    image: &Image,
) -> Result<Vec<u8>, Refusal>
    requires placed { AreInPlace image.now.blocks }
    requires sized { AreImageBlocks image.now.blocks }
    requires declared { IsDeclared agreed.now.covered.program.types ty }
    ensures text { IfOk result (λ text.
        IsDueToImage agreed.now.covered.program ty image.now (printed text.items 0)) }
    ensures refused { IfErr result (IsRefusal (IsDueToImage agreed.now.covered.program ty image.now)) }
{
    layouts_are_flat(agreed);
    match read_image(alloc, agreed, ty, image, NODES) {
        Ok(value) => {
            let types = agreed.covered().program().types.as_slice();
            let text = show_at(alloc, types, ty, &value)?;
            Ok(text)
        }
        Err(fault) => {
            let refused = refuse_image(alloc, fault)?;
            Err(Refusal::Refused(refused))
        }
    }
}

// The value of the result type of `main` that an image holds, on a line; or the refusal in its
// place.
fn value_of_main(alloc: Global, agreed: &Agreed, image: &Image) -> Result<Vec<u8>, Refusal>
    requires placed { AreInPlace image.now.blocks }
    requires sized { AreImageBlocks image.now.blocks }
    ensures text { IfOk result (λ text. IsDueToImage agreed.now.covered.program
        (result_type agreed.now.covered.program.funs agreed.now.covered.program.main) image.now
        (printed text.items 0)) }
    ensures refused { IfErr result (IsRefusal (IsDueToImage agreed.now.covered.program
        (result_type agreed.now.covered.program.funs agreed.now.covered.program.main) image.now)) }
{
    let ty = result_of_main(agreed.covered().program());
    value_text(alloc, agreed, ty, image)
}

/// The value that an image holds of the result type of `main` of a file, where the file is
/// accepted. The source has both under their names, `file` and `image`.
///
/// # Errors
///
/// The answer to a file that is not read or not accepted, or to an image that is not read, not
/// spelled, or holds no value to be shown; or want of memory.
pub fn value_file<S: Source>(
    alloc: Global,
    src: &mut S,
    file: &[u8],
    image: &[u8],
) -> Result<Vec<u8>, Refusal>
    ensures read { ReadsInTurn (files_of (Ok (spec.value file.now image.now)))
        (source_of S.tells S.held S.readings S.faults src.old src.new) }
    ensures owed { (steps : ℕ) → Meets
        (Owes (Ok (spec.value file.now image.now))
        (handed_between S.readings src.old src.new)) steps steps result }
{
    let opened = open_image(alloc, src, file, image)?;
    value_of_main(alloc, &opened.accepted.agreed, &opened.image)
}
