//! Targets that are set when all arms stand.

ghost use Rattle.std.specs.Prelude.{◌≡◌, ◌<◌, length, slice_index, OnOk, OnErr};
ghost use Rattle.rb_fragment.specs.Arms.{with_targets, ArePatchable, CanClose, whole_match};

use rb_core::seq::Seq;
use rb_target::body::{Body, Hole};
use std::alloc::{AllocError, Global};

/// Sets the target of each hole to that of the way to which it belongs: `targets` has one a way.
pub fn patch_all(body: &mut Body, holes: &[Hole], targets: &[usize])
    requires { ArePatchable body.old.code holes.now targets.now }
    ensures { body.new ≡ with_targets body.old holes.now targets.now }
{
    for hole in holes {
        let target = target_of(targets, hole.leaf);
        body.patch(hole, target);
    }
}

// The target of the way with this number.
fn target_of(targets: &[usize], way: usize) -> usize
    requires { way < length targets.now }
    ensures { result ≡ slice_index targets.now way }
{
    targets[way]
}

/// Closes a match whose arms all stand: its chooser's holes lead to where the arms begin, and the
/// arms' open jumps to behind all.
///
/// # Errors
///
/// Want of memory; the body stays as it is.
pub fn close_match(
    alloc: Global,
    body: &mut Body,
    holes: &[Hole],
    starts: &[usize],
    joins: &[Hole],
) -> Result<(), AllocError>
    requires { CanClose body.old holes.now starts.now joins.now }
    ensures ok { OnOk result (body.new ≡ whole_match body.old holes.now starts.now joins.now) }
    ensures err { OnErr result (body.new ≡ body.old) }
{
    let mut ends = Seq::new(alloc);
    ends.push(body.len())?;
    patch_all(body, holes, starts);
    patch_all(body, joins, ends.as_slice());
    Ok(())
}
