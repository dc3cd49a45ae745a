//! The open positions of a provenance, one after the other: its wildcards and variables, from left
//! to right.

ghost use Rattle.std.specs.Prelude.{◌≡◌, ◌++◌, map, IfOk, OnOk};
ghost use Rattle.rb_layout.specs.Positions.{open_positions, opens_below, opens_of};
ghost use Rattle.rb_layout.specs.Opens.{opens_at};
ghost use Rattle.rb_layout.specs.inner.Opening.{under};

use crate::numbers::number_of;
use crate::positions::type_of_root;
use rb_core::inference::types_of_fields;
use rb_core::pattern::Pat;
use rb_core::seq::Seq;
use rb_core::types::{DataDecl, Ty};
use std::alloc::{AllocError, Global};

/// An open position: its path, the field numbers from the root, and the type there.
#[derive(Drop)]
pub struct OpenPosition {
    pub path: Seq<u32>,
    pub ty: Ty,
}

// Adds the open positions of a pattern, of this type, that stands at a path. A number adds none.
// Fails for want of memory. The call nests as deep as the pattern.
#[cycle(opening)]
fn add_opens(
    alloc: Global,
    types: &[DataDecl],
    pat: &Pat,
    ty: Ty,
    path: &Seq<u32>,
    found: &mut Seq<OpenPosition>,
) -> Result<(), AllocError>
    ensures { OnOk result (opens_at found.new
        ≡ opens_at found.old ++ map (under path.now) (opens_of types.now pat.now ty)) }
{
    match pat {
        Pat::Num(_, _) => Ok(()),
        Pat::Wild(_) | Pat::Var(_, _) => found.push(OpenPosition {
            path: path.copy(alloc)?,
            ty,
        }),
        Pat::Con(_, con, pats) => {
            let fields = types_of_fields(types, *con);
            add_below(alloc, types, pats.as_slice(), fields, path, found)
        }
    }
}

// Adds the open positions of subpatterns, which stand below a path, at the types of their fields.
// Subpatterns beyond the last field add none. Fails for want of memory.
#[cycle(opening)]
fn add_below(
    alloc: Global,
    types: &[DataDecl],
    pats: &[Pat],
    fields: &[Ty],
    path: &Seq<u32>,
    found: &mut Seq<OpenPosition>,
) -> Result<(), AllocError>
    ensures { OnOk result (opens_at found.new
        ≡ opens_at found.old ++ map (under path.now) (opens_below (map (opens_of types.now) pats.now) fields.now 0)) }
{
    for (i, pat) in pats.iter().enumerate() {
        match fields.get(i) {
            None => return Ok(()),
            Some(ty) => {
                let mut longer = path.copy(alloc)?;
                longer.push(number_of(i)?)?;
                add_opens(alloc, types, pat, *ty, &longer, found)?;
            }
        }
    }
    Ok(())
}

/// The open positions of a provenance, from left to right, each with its path and its type.
///
/// # Errors
///
/// Want of memory.
pub fn opens(alloc: Global, types: &[DataDecl], prov: &Pat) -> Result<Seq<OpenPosition>, AllocError>
    ensures { IfOk result (λ found. opens_at found ≡ open_positions types.now prov.now) }
{
    let mut found = Seq::new(alloc);
    add_opens(
        alloc,
        types,
        prov,
        type_of_root(prov),
        &Seq::new(alloc),
        &mut found,
    )?;
    Ok(found)
}
