//! The layouts that a program declares, by the numbers of their types.

ghost use Rattle.std.specs.Prelude.{◌≡◌};
ghost use Rattle.std.specs.Option.{option_copied};
ghost use Rattle.rb_layout.specs.Flattening.{decl_of, shape_of};

use rb_core::layout_decl::LayoutDecl;

/// The first layout that is declared for the type with this number. None where there is none.
pub fn decl_of(decls: &[LayoutDecl], ty: u32) -> Option<&LayoutDecl>
    ensures { option_copied result ≡ decl_of decls.now ty }
{
    for decl in decls {
        if decl.ty == ty {
            return Some(decl);
        }
    }
    None
}

/// The widths of the words of a type's values, in bits, as its layout states them; no words where
/// it has no layout.
pub fn shape_of(decls: &[LayoutDecl], ty: u32) -> &[u64]
    ensures { result.now ≡ shape_of decls.now ty }
{
    match decl_of(decls, ty) {
        None => &[],
        Some(decl) => decl.shape.as_slice(),
    }
}
