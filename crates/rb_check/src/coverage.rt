//! Coverage: whether the matches of a program are exhaustive, and which clauses no value reaches.

ghost use Rattle.std.specs.Prelude.{◌≡◌, ◌<◌, ◌^◌, ◌++◌, map, IfErr, IfOk, IsOkUnless, OnOk};
ghost use Rattle.std.specs.List.{All};
ghost use Rattle.rb_core.specs.Coverage.{AreExhaustive, IsCovered, note_at, sites_of};
ghost use Rattle.rb_core.specs.Matching.{IsExhaustive};
ghost use Rattle.rb_matrix.specs.Search.{AreInhabited};
ghost use Rattle.rb_check.specs.Covering.{AreRefused, IsCoverFault, IsSiteRefused};
ghost use Rattle.rb_check.specs.inner.Covering.{AreCovered, AreNumberedSites, IsNumberedSite, IsSiteCovered};
ghost use Rattle.rb_check.specs.declared.coverage.CoverFault.TheVariants as CoverFaults;

use crate::sites::program_sites;
use rb_core::pattern::Pat;
use rb_core::program::Note;
use rb_core::seq::Seq;
use rb_core::site::Site;
use rb_core::typed::Typed;
use rb_core::types::DataDecl;
use rb_matrix::{MatrixFault, exhaust, unreached};
use std::alloc::{AllocError, Global};

/// Why a program is not covered.
#[derive(Debug, Drop, thiserror::Error)]
pub enum CoverFault {
    /// The match at this token misses the values of this pattern.
    #[error("a match misses a value")]
    Missing(u32, Pat),
    /// Want of memory.
    #[error("no memory")]
    Memory,
}

impl From<AllocError> for CoverFault {
    ghost from_gives = { λ e r. r ≡ CoverFaults.Memory };

    fn from(_: AllocError) -> CoverFault {
        CoverFault::Memory
    }
}

/// The notes on the clauses that no value reaches, match by match in the file's order and in each
/// match by clause number, where every match is exhaustive.
///
/// # Errors
///
/// `Missing` names the first match in the file's order that is not exhaustive by its token number,
/// with a pattern of numbers, constructors and wildcards that it misses; which such pattern is left
/// open. `Memory` for want of memory, which says nothing of the program.
pub fn cover(alloc: Global, typed: &Typed) -> Result<Seq<Note>, CoverFault>
    ensures covered { IfOk result (IsCovered typed.now) }
    ensures refused { IfErr result (IsCoverFault typed.now) }
    ensures complete { AreExhaustive typed.now.types (sites_of typed.now) → IsOkUnless result CoverFaults.Memory }
{
    let program = typed.program();
    let sites = program_sites(alloc, program)?;
    cover_sites(alloc, program.types.as_slice(), sites.as_slice())
}

// The notes on the clauses of these matches that no value reaches; or the first match that is not
// exhaustive.
fn cover_sites(alloc: Global, types: &[DataDecl], sites: &[Site]) -> Result<Seq<Note>, CoverFault>
    requires inhabited { AreInhabited types.now }
    requires numbered { AreNumberedSites types.now sites.now }
    ensures covered { IfOk result (AreCovered types.now sites.now) }
    ensures refused { IfErr result (AreRefused types.now sites.now) }
{
    let mut notes = Seq::new(alloc);
    for site in sites {
        cover_site(alloc, types, site, &mut notes)?;
    }
    Ok(notes)
}

// Adds the notes on the clauses of one match that no value reaches; the match is refused where it
// is not exhaustive.
fn cover_site(
    alloc: Global,
    types: &[DataDecl],
    site: &Site,
    notes: &mut Seq<Note>,
) -> Result<(), CoverFault>
    requires inhabited { AreInhabited types.now }
    requires numbered { IsNumberedSite types.now site.now }
    ensures covered { OnOk result (IsSiteCovered types.now site.now notes.old notes.new) }
    ensures refused { IfErr result (IsSiteRefused types.now site.now) }
{
    exhaust_site(alloc, types, site)?;
    let clauses = unreached(alloc, types, site.scrutinee, site.patterns.as_slice())?;
    add_notes(site.at, clauses.as_slice(), notes)?;
    Ok(())
}

// Done only where a match is exhaustive. The fault is its token with a pattern that it misses, or
// want of memory.
fn exhaust_site(alloc: Global, types: &[DataDecl], site: &Site) -> Result<(), CoverFault>
    requires inhabited { AreInhabited types.now }
    requires numbered { IsNumberedSite types.now site.now }
    ensures exhaustive { OnOk result (IsExhaustive types.now site.now.scrutinee site.now.patterns) }
    ensures refused { IfErr result (IsSiteRefused types.now site.now) }
{
    match exhaust(alloc, types, site.scrutinee, site.patterns.as_slice()) {
        Ok(()) => Ok(()),
        Err(MatrixFault::Missing(pattern)) => Err(CoverFault::Missing(site.at, pattern)),
        Err(MatrixFault::Memory) => Err(CoverFault::Memory),
    }
}

// Adds a note for each of these clauses of the match at a token.
fn add_notes(at: u32, clauses: &[usize], notes: &mut Seq<Note>) -> Result<(), AllocError>
    requires { All (λ i. i < 2 ^ 32) clauses.now }
    ensures { OnOk result (notes.new ≡ notes.old ++ map (note_at at) clauses.now) }
{
    for clause in clauses {
        let note = Note {
            at,
            clause: *clause as u32,
        };
        notes.push(note)?;
    }
    Ok(())
}
