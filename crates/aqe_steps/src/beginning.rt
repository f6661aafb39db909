//! How a query begins.

ghost use Rattle.std.specs.Prelude.{◌≡◌, ◌∷◌, [], length, IfOk};
ghost use Rattle.aqe_settings.specs.Values.{values_of};
ghost use Rattle.aqe_planner.specs.Built.{IsBuilt, LimitsFit, Reaches};
ghost use Rattle.aqe_steps.specs.Begun.{Begins};

use crate::run::Run;
use aqe_base::{Listing, Memory};
use aqe_blocks::Outputs;
use aqe_boxes::both;
use aqe_journal::{VersionNote, VersionNotes};
use aqe_logical::Logical;
use aqe_physical::Estimates;
use aqe_replan::Versions;
use aqe_scheduler::Board;
use aqe_settings::Settings;
use std::alloc::Global;

/// The note of the first version.
fn first_note(alloc: Global, versions: &Versions) -> Result<VersionNotes, Memory>
    ensures { IfOk result (λ notes. notes ≡ record { position = 0; logical = versions.now.logical; plan = versions.now.plan } ∷ []) }
{
    let (logical, plan) = both(
        aqe_logical::copy(alloc, versions.logical()),
        aqe_physical::copy(alloc, versions.plan()),
    )?;
    let mut notes = VersionNotes::new(alloc);
    notes.push(VersionNote {
        position: 0,
        logical,
        plan,
    })?;
    Ok(notes)
}

/// The first plan of a query, of which nothing was made.
pub fn begin(
    alloc: Global,
    logical: Logical,
    estimates: &Estimates,
    settings: &Settings,
) -> Result<Run, Memory>
    requires built { IsBuilt logical }
    requires estimates { Reaches (length estimates.now) logical }
    requires limits { LimitsFit logical }
    ensures { IfOk result (Begins logical estimates.now (values_of settings.now)) }
{
    let versions = Versions::first(alloc, logical, estimates, settings)?;
    let adopted = first_note(alloc, &versions)?;
    Ok(Run {
        versions,
        adopted,
        board: Board::new(alloc),
        stages: Vec::new(alloc),
        whole: Listing::new(alloc),
        result: None,
        outputs: Outputs::new(alloc),
        fates: Listing::new(alloc),
        runs: Listing::new(alloc),
    })
}
