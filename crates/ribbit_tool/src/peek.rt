//! The command `peek`: the part to which a path leads in the value that an image holds. An image
//! has words, its root, and blocks; with what is in these the words represent the value. A path is
//! a list of numbers of fields, from the outermost value on. `agreed` is a program with its
//! layouts. A refusal is the answer in place of the text: a status with its line, or want of
//! memory.

ghost use Rattle.std.specs.Prelude.{◌≡◌, ℕ, IfOk, IfErr, Ok};
ghost use Rattle.rb_accept.specs.Reading.{ReadsInTurn, source_of};
ghost use Rattle.rb_accept.specs.View.{handed_between};
ghost use Rattle.rb_command.specs.Command as spec;
ghost use Rattle.rb_core.specs.Typing.{result_type};
ghost use Rattle.rb_image.specs.Values.{IsDeclared};
ghost use Rattle.rb_image_text.specs.Images.{AreImageBlocks};
ghost use Rattle.rb_image_text.specs.Places.{AreInPlace};
ghost use Rattle.rb_lines.specs.Answer.{printed};
ghost use Rattle.rb_lines.specs.View.{IsRefusal, Meets};
ghost use Rattle.ribbit_tool.specs.Answers.{Owes, files_of};
ghost use Rattle.ribbit_tool.specs.Peek.{Peeks, rooted_at};

use crate::value::{layouts_are_flat, value_text};
use rb_accept::opening::{open_image, refuse_image};
use rb_core::types::Ty;
use rb_edge::source::Source;
use rb_edge::steps::{NoLedger, Steps};
use rb_image_text::image::Image;
use rb_layout::agreed::Agreed;
use rb_lines::refusal::Refusal;
use rb_peek::peek::{Peeked, peek};
use rb_run::answer::result_of_main;
use std::alloc::Global;

// The image of a part: its words, over the blocks of the whole.
fn image_of(part: Peeked, whole: Image) -> Image
    ensures { result ≡ rooted_at whole part }
{
    Image {
        root: part.words,
        blocks: whole.blocks,
    }
}

// The part to which a path leads from the value of type `ty` that an image holds, on a line; or the
// refusal in its place. The words that are read on the way are no steps of a run.
fn part_text(
    alloc: Global,
    agreed: &Agreed,
    ty: Ty,
    image: Image,
    path: &[u32],
) -> Result<Vec<u8>, Refusal>
    requires placed { AreInPlace image.blocks }
    requires sized { AreImageBlocks image.blocks }
    requires declared { IsDeclared agreed.now.covered.program.types ty }
    ensures text { IfOk result (λ text.
        Peeks agreed.now.covered.program ty path.now image (printed text.items 0)) }
    ensures refused { IfErr result (IsRefusal (Peeks agreed.now.covered.program ty path.now image)) }
{
    layouts_are_flat(agreed);
    let mut steps = Steps::new(NoLedger);
    match peek(alloc, agreed, ty, &image, path, &mut steps) {
        Ok(part) => {
            let ty = part.ty;
            value_text(alloc, agreed, ty, &image_of(part, image))
        }
        Err(fault) => {
            let refused = refuse_image(alloc, fault)?;
            Err(Refusal::Refused(refused))
        }
    }
}

// The part to which a path leads from the value of the result type of `main` that an image holds,
// on a line; or the refusal in its place.
fn part_of_main(
    alloc: Global,
    agreed: &Agreed,
    image: Image,
    path: &[u32],
) -> Result<Vec<u8>, Refusal>
    requires placed { AreInPlace image.blocks }
    requires sized { AreImageBlocks image.blocks }
    ensures text { IfOk result (λ text. Peeks agreed.now.covered.program
        (result_type agreed.now.covered.program.funs agreed.now.covered.program.main) path.now image
        (printed text.items 0)) }
    ensures refused { IfErr result (IsRefusal (Peeks agreed.now.covered.program
        (result_type agreed.now.covered.program.funs agreed.now.covered.program.main) path.now image)) }
{
    let ty = result_of_main(agreed.covered().program());
    part_text(alloc, agreed, ty, image, path)
}

/// The part to which a path leads in the value that an image holds of the result type of `main` of
/// a file, where the file is accepted. The source has both under their names, `file` and `image`.
///
/// # Errors
///
/// The answer to a file that is not read or not accepted, to an image that is not read or not
/// spelled, to a path that leads to no part or has a word at fault on it, or to a part that holds
/// no value to be shown; or want of memory.
pub fn peek_file<S: Source>(
    alloc: Global,
    src: &mut S,
    file: &[u8],
    image: &[u8],
    path: &[u32],
) -> Result<Vec<u8>, Refusal>
    ensures read { ReadsInTurn (files_of (Ok (spec.peek file.now image.now path.now)))
        (source_of S.tells S.held S.readings S.faults src.old src.new) }
    ensures owed { (steps : ℕ) → Meets
        (Owes (Ok (spec.peek file.now image.now path.now)) (handed_between S.readings src.old src.new))
        steps steps result }
{
    let opened = open_image(alloc, src, file, image)?;
    let whole = opened.image;
    part_of_main(alloc, &opened.accepted.agreed, whole, path)
}
