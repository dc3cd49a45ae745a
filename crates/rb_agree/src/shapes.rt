//! Whether each type has a layout, and shapes have words of 1 to 64 bits. A shape lists the widths
//! of the words of a layout, in bits.

ghost use Rattle.std.specs.Prelude.{◌↔◌, IfOk, IsTrue, List, MatchOption, Some};
ghost use Rattle.std.specs.Option.{option_copied};
ghost use Rattle.rb_layout.specs.declared.layout.Layout.{Layout};
ghost use Rattle.rb_layout.specs.Spots.{shape_spots};
ghost use Rattle.rb_agree.specs.Answers.{Finds};
ghost use Rattle.rb_layout.specs.A1.{FailsShape, HasShape, IsShapeWidth};

use rb_core::layout_decl::LayoutDecl;
use rb_core::program::Program;
use rb_layout::decls::decl_of;
use rb_layout::evidence::{Refused, Why};
use rb_layout::numbers::number_of;
use std::alloc::AllocError;

// Whether a word of a shape may have so many bits: 1 to 64.
fn is_shape_width(width: u64) -> bool
    ensures { IsTrue result ↔ IsShapeWidth width }
{
    1 <= width && width <= 64
}

// The first word of a layout's shape that has no bits or over 64, with its number and width; None
// where there is none. An `Err` is want of memory.
fn shape_fault(decl: &LayoutDecl) -> Result<Option<Why>, AllocError>
    ensures { IfOk result (λ found. MatchOption found (HasShape (Some decl.now)) (FailsShape (Some decl.now))) }
{
    for (i, width) in decl.shape.as_slice().iter().enumerate() {
        if !is_shape_width(*width) {
            return Ok(Some(Why::ShapeWidth(number_of(i)?, *width)));
        }
    }
    Ok(None)
}

/// How a type's layout fails to be there, or to have a shape of words of 1 to 64 bits; None where
/// it does not fail.
///
/// # Errors
///
/// Want of memory.
pub fn decl_fault(decl: Option<&LayoutDecl>) -> Result<Option<Why>, AllocError>
    ensures { IfOk result (λ found. MatchOption found
        (HasShape (option_copied decl.entry)) (FailsShape (option_copied decl.entry))) }
{
    match decl {
        None => Ok(Some(Why::NoLayout)),
        Some(decl) => shape_fault(decl),
    }
}

/// The refusal by the first type without a layout or with a shape that has a word not of 1 to 64
/// bits; None where there is no such type.
///
/// # Errors
///
/// Want of memory.
pub fn shapes_fault(program: &Program) -> Result<Option<Refused>, AllocError>
    ensures { IfOk result (λ found. (layouts : List Layout)
        → Finds program.now layouts (shape_spots program.now.layouts 0 program.now.types) found) }
{
    for t in 0..program.types.len() {
        let ty = number_of(t)?;
        if let Some(why) = decl_fault(decl_of(program.layouts.as_slice(), ty))? {
            return Ok(Some(Refused {
                rule: 1,
                ty,
                leaf: None,
                why,
            }));
        }
    }
    Ok(None)
}
