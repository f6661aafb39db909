//! One stage is made.

ghost use Rattle.std.specs.Prelude.{◌≡◌, ◌<◌, ◌≤◌, ◌^◌, ◌∷◌, ◌++◌, [], cond, Some, length, IfOk, OnOk, IfErr};
ghost use Rattle.aqe_physical.specs.Counts.{PartsFit};
ghost use Rattle.aqe_scheduler.specs.Tables.{births_on};
ghost use Rattle.aqe_needs.specs.Noted.{BodiesFit};
ghost use Rattle.aqe_journal.specs.Needed as needed;
ghost use Rattle.aqe_replan.specs.Seen.{seen};
ghost use Rattle.aqe_steps.specs.Runs.{fresh_note, CanMake, Makes, IsBorn};

use crate::run::Run;
use aqe_base::{Listing, Memory, StageId};
use aqe_boxes::both;
use aqe_journal::StageNote;
use aqe_needs::{reads_of, tag_of};
use aqe_physical::{StageKind, copy, copy_kind, parts};
use aqe_replan::Making;
use aqe_scheduler::Board;
use std::alloc::Global;

/// Whether a stage keeps the result.
fn is_result(kind: &StageKind) -> bool
    ensures { result ≡ needed.is_result kind.now }
{
    match kind {
        StageKind::Result => true,
        StageKind::Shuffle(_) | StageKind::Broadcast | StageKind::Sample(_) => false,
    }
}

/// The result, where a stage of this kind is the newest.
fn newest_result(kind: &StageKind, stage: StageId, before: Option<StageId>) -> Option<StageId>
    ensures { result ≡ cond (needed.is_result kind.now) (Some stage) before }
{
    if is_result(kind) { Some(stage) } else { before }
}

/// The note of a stage that is made at a position, of which no task has ended.
fn note_of(alloc: Global, making: &Making, born: u64) -> Result<StageNote, Memory>
    ensures { IfOk result (λ note. note ≡ fresh_note (seen making.now).stage born) }
{
    let (kind, body) = both(copy_kind(alloc, making.kind()), copy(alloc, making.body()))?;
    Ok(StageNote {
        kind,
        body,
        born,
        done: None,
        outputs: Listing::new(alloc),
    })
}

/// Puts a stage on the board behind those that were made before it.
fn born(
    alloc: Global,
    board: &mut Board,
    note: &StageNote,
    stages: &[StageNote],
) -> Result<StageId, Memory>
    requires count { length (births_on board.old) ≡ length stages.now }
    requires body { PartsFit note.now.body }
    requires stages { BodiesFit stages.now }
    ensures few { IfOk result (λ id. length stages.now < 2 ^ 32) }
    ensures born { IfOk result (λ id. IsBorn board.old board.new stages.now note.now id) }
{
    if stages.len() > u32::MAX as usize {
        return Err(Memory);
    }
    let reads = reads_of(alloc, &note.kind, &note.body, stages)?;
    board.birth(tag_of(&note.kind), parts(&note.body), reads)
}

/// Makes a stage of the current plan.
pub(crate) fn make(alloc: Global, run: &mut Run, making: Making) -> Result<(), Memory>
    requires { CanMake run.old (seen making) }
    ensures { OnOk result (Makes run.old (seen making) run.new) }
{
    let note = note_of(alloc, &making, run.fates.len() as u64)?;
    let stage = born(alloc, &mut run.board, &note, &run.stages)?;
    run.versions.made(making, stage)?;
    run.result = newest_result(&note.kind, stage, run.result);
    run.stages.push(note)?;
    Ok(())
}
