//! Positions inside a leaf.
//!
//! A position is what a leaf's provenance, its pattern of values, has at a path of field numbers
//! from its root. In `field_of`, `types` are the declared types of the program.

ghost use Rattle.std.specs.Prelude.{◌≡◌, slice_get};
ghost use Rattle.std.specs.Option.{option_copied};
ghost use Rattle.rb_image.specs.Fields.{field_of, position_or_none, with_type};

use rb_core::inference::types_of_fields;
use rb_core::pattern::Pat;
use rb_core::types::{DataDecl, Ty};

/// A position inside a leaf: what its provenance has there, and the type of the subvalue.
#[derive(Clone, Copy, Drop)]
pub struct Inside<'a> {
    pub pat: &'a Pat,
    pub ty: Ty,
}

// The type of a field, among those of all fields of a constructor, none where it has no such field.
fn type_at(types: &[Ty], field: u32) -> Option<Ty>
    ensures { result ≡ slice_get types.now field }
{
    match types.get(field as usize) {
        None => None,
        Some(ty) => Some(*ty),
    }
}

// The position with this pattern and this type, none where one of them is missing.
fn typed_pattern<'a>(pat: Option<&'a Pat>, ty: Option<Ty>) -> Option<Inside<'a>>
    ensures { position_or_none result ≡ with_type (option_copied pat.entry) ty }
{
    match pat {
        None => None,
        Some(pat) => match ty {
            None => None,
            Some(ty) => Some(Inside { pat, ty }),
        },
    }
}

/// The position of a field below a position whose pattern is `pat`: none where no constructor
/// stands there, or one that has no such field.
pub fn field_of<'a>(types: &[DataDecl], pat: &'a Pat, field: u32) -> Option<Inside<'a>>
    ensures { position_or_none result ≡ field_of types.now pat.now field }
{
    match pat {
        Pat::Wild(_) => None,
        Pat::Var(_, _) => None,
        Pat::Num(_, _) => None,
        Pat::Con(_, con, pats) => {
            let ty = type_at(types_of_fields(types, *con), field);
            typed_pattern(pats.get(field as usize), ty)
        }
    }
}
