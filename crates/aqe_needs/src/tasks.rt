//! What each task of a stage reads.

ghost use Rattle.std.specs.Prelude.{◌≡◌, IfOk, map};
ghost use Rattle.std.specs.List.{range_with_len};
ghost use Rattle.aqe_physical.specs.Counts.{part_count, PartsFit};
ghost use Rattle.aqe_journal.specs.Needed as spec;
ghost use Rattle.aqe_needs.specs.Maps.{counts_of, task_reads};
ghost use Rattle.aqe_needs.specs.Noted.{stages_of, BodiesFit};

use crate::inputs::{push_part, push_sample};
use aqe_base::{Listing, Memory};
use aqe_journal::StageNote;
use aqe_physical::{Plan, StageKind, parts};
use aqe_scheduler::{Needs, Reads};
use std::alloc::Global;

/// How many maps each stage has.
fn map_counts(alloc: Global, stages: &[StageNote]) -> Result<Listing<u32>, Memory>
    requires { BodiesFit stages.now }
    ensures { IfOk result (λ counts. counts ≡ counts_of stages.now) }
{
    let mut counts = Listing::new(alloc);
    'stages: for stage in stages {
        counts.push(parts(&stage.body))?;
    }
    Ok(counts)
}

/// What a task of a stage reads.
fn needs_of(
    alloc: Global,
    kind: &StageKind,
    body: &Plan,
    k: u32,
    counts: &[u32],
) -> Result<Needs, Memory>
    requires { PartsFit body.now }
    ensures { IfOk result (λ needs. needs ≡ task_reads counts.now kind.now body.now k) }
{
    let mut needs = Listing::new(alloc);
    match kind {
        StageKind::Shuffle(to) => push_sample(&mut needs, to, counts)?,
        StageKind::Broadcast | StageKind::Sample(_) | StageKind::Result => {}
    }
    push_part(&mut needs, body, k, counts)?;
    Ok(needs)
}

/// What each task of a stage reads, task by task from 0.
fn each_task(alloc: Global, kind: &StageKind, body: &Plan, counts: &[u32]) -> Result<Reads, Memory>
    requires { PartsFit body.now }
    ensures { IfOk result (λ reads. reads ≡ map (task_reads counts.now kind.now body.now) (range_with_len 0 (part_count body.now))) }
{
    let mut reads = Listing::new(alloc);
    'tasks: for k in 0..parts(body) {
        let needs = needs_of(alloc, kind, body, k, counts)?;
        reads.push(needs)?;
    }
    Ok(reads)
}

/// What each task of a stage reads over the stages that were made before it, task by task from 0.
pub fn reads_of(
    alloc: Global,
    kind: &StageKind,
    body: &Plan,
    stages: &[StageNote],
) -> Result<Reads, Memory>
    requires body { PartsFit body.now }
    requires stages { BodiesFit stages.now }
    ensures { IfOk result (λ reads. reads ≡ spec.reads_of (stages_of stages.now) (record { kind = kind.now; body = body.now })) }
{
    let counts = map_counts(alloc, stages)?;
    each_task(alloc, kind, body, counts.slice())
}
