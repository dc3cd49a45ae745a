//! The flat forms of a program's layouts. Each has a tree of splits that names the leaves by their
//! numbers, and apart from it the leaves, with words, parts and numbered blocks.

ghost use Rattle.std.specs.Prelude.{◌≡◌, ◌++◌, IfOk, OnOk};
ghost use Rattle.rb_layout.specs.Flattening.{AreInOrder, HaveLayouts, decl_of, flat_layout, flat_layouts, flat_or_none};

use crate::decls::decl_of;
use crate::flat_tree::flat_tree;
use crate::layout::Layout;
use rb_core::layout_decl::LayoutDecl;
use rb_core::program::Program;
use rb_core::seq::Seq;
use rb_core::typed::Covered;
use std::alloc::{AllocError, Global};

/// The flat form of each type's layout, one for each type, in the types' order.
///
/// # Errors
///
/// Want of memory.
pub fn flatten(alloc: Global, covered: &Covered) -> Result<Seq<Layout>, AllocError>
    requires { HaveLayouts covered.now.program }
    ensures flat { IfOk result (λ layouts. layouts ≡ flat_layouts covered.now.program) }
    ensures each { IfOk result (λ layouts. AreInOrder covered.now.program layouts) }
{
    let program = covered.program();
    let mut layouts = Seq::new(alloc);
    for ty in 0..program.types.len() as u32 {
        push_layout(alloc, program, ty, &mut layouts)?;
    }
    Ok(layouts)
}

// Adds the flat form of the layout that is declared for a type. Adds nothing where there is none.
// Fails for want of memory.
fn push_layout(
    alloc: Global,
    program: &Program,
    ty: u32,
    layouts: &mut Seq<Layout>,
) -> Result<(), AllocError>
    ensures { OnOk result (layouts.new ≡ layouts.old ++ flat_or_none program.now (decl_of program.now.layouts ty)) }
{
    match decl_of(program.layouts.as_slice(), ty) {
        None => Ok(()),
        Some(decl) => layouts.push(flat_layout(alloc, program, decl)?),
    }
}

// The flat form of one declared layout. Fails for want of memory.
fn flat_layout(alloc: Global, program: &Program, decl: &LayoutDecl) -> Result<Layout, AllocError>
    ensures { IfOk result (λ layout. layout ≡ flat_layout program.now decl.now) }
{
    let mut leaves = Seq::new(alloc);
    let tree = flat_tree(alloc, program, &decl.tree, &mut leaves)?;
    Ok(Layout {
        ty: decl.ty,
        shape: decl.shape.copy(alloc)?,
        tree,
        leaves,
    })
}
