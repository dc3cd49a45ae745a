//! The type at an open position: a wildcard or a variable of a provenance, which is named by its
//! path, the field numbers from the root.

ghost use Rattle.std.specs.Prelude.{◌≡◌, MatchOption, Some, slice_get};
ghost use Rattle.rb_core.specs.declared.pattern.Pat.{out-Pat};
ghost use Rattle.rb_core.specs.Values.{fields_of};
ghost use Rattle.rb_layout.specs.Positions.{open_positions, root_type, types_or_none};
ghost use Rattle.rb_layout.specs.Flattening.{type_at};
ghost use Rattle.rb_layout.specs.inner.Walking.{HasNoSub, HasSub, type_along};

use rb_core::inference::types_of_fields;
use rb_core::pattern::Pat;
use rb_core::types::{ConRef, DataDecl, Ty};

/// The type at a path of a provenance, where that is an open position, and else None.
#[tactic(auto, using(crate::proofs::Walks::type_at_walked))]
pub fn type_at(types: &[DataDecl], prov: &Pat, path: &[u32]) -> Option<Ty>
    ensures { result ≡ type_at (open_positions types.now prov.now) path.now }
{
    walk(types, prov, type_of_root(prov), path)
}

// The type at which a walk along the path ends, from the root of a provenance with its type. The
// empty path ends at the root. None where the path leaves the provenance or meets a field that is
// not declared, and where it ends at a number or a constructor.
fn walk(types: &[DataDecl], prov: &Pat, root: Ty, path: &[u32]) -> Option<Ty>
    ensures { result ≡ type_along types.now (Some (prov.now, root)) path.now }
{
    let mut pat = prov;
    let mut ty = root;
    for field in path {
        let Some((sub, sub_ty)) = sub_pattern(types, pat, *field) else {
            return None;
        };
        pat = sub;
        ty = sub_ty;
    }
    match pat {
        Pat::Wild(_) | Pat::Var(_, _) => Some(ty),
        Pat::Num(_, _) | Pat::Con(_, _, _) => None,
    }
}

/// The type of a provenance: that of the constructor at its root. For a pattern without one it is
/// u64.
pub fn type_of_root(prov: &Pat) -> Ty
    ensures { result ≡ root_type (out-Pat prov.now) }
{
    match prov {
        Pat::Con(_, con, _) => Ty::Named(con.ty),
        Pat::Wild(_) | Pat::Var(_, _) | Pat::Num(_, _) => Ty::Int(64),
    }
}

// The type of a constructor's field, by its number. None where it has no such field, or no such
// constructor is declared.
#[tactic(auto, using(crate::proofs::OpenLemmas::fields_same))]
fn field_type(types: &[DataDecl], con: ConRef, field: u32) -> Option<Ty>
    ensures { result ≡ slice_get (types_or_none (fields_of types.now con)) field }
{
    types_of_fields(types, con).get(field as usize).copied()
}

// The subpattern for a field of a pattern, with the type of the field. None where the pattern is no
// constructor, has no such subpattern, or is of no declared constructor with such a field.
#[tactic(auto, using(crate::proofs::Walks::sub_found))]
fn sub_pattern<'a>(types: &[DataDecl], pat: &'a Pat, field: u32) -> Option<(&'a Pat, Ty)>
    ensures { MatchOption result (HasNoSub types.now pat.now field) (λ x. HasSub types.now pat.now field x.0.now x.1) }
{
    match pat {
        Pat::Con(_, con, pats) => {
            let sub = pats.get(field as usize)?;
            let ty = field_type(types, *con, field)?;
            Some((sub, ty))
        }
        Pat::Wild(_) | Pat::Var(_, _) | Pat::Num(_, _) => None,
    }
}
