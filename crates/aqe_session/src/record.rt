//! The record of a query that is done.

ghost use Rattle.std.specs.Prelude.{◌≡◌, ◌≤◌, ◌<◌, ◌^◌, ◌++◌, ◌∷◌, [], ℕ, length, filter_map, flat_map, IfOk, OnOk, IsSome};
ghost use Rattle.std.specs.List.{range_with_len};
ghost use Rattle.std.specs.Result.{IsOkAnd};
ghost use Rattle.aqe_blocks.specs.Kept.{output_at};
ghost use Rattle.aqe_needs.specs.Noted.{BodyFits, BodiesFit};
ghost use Rattle.aqe_session.specs.Finished as spec;
ghost use Rattle.aqe_session.specs.Finished.{CanFinish, OthersStay};

use aqe_base::{Listing, MapId, Memory, ReduceId, StageId};
use aqe_blocks::Outputs;
use aqe_boxes::both;
use aqe_journal::{
    FateList, Finish, NoteOutputs, QueryRecord, RunList, StageNote, StageNotes, VersionNotes,
};
use aqe_physical::parts;
use aqe_steps::{Run, numbered};
use aqe_values::{Row, Rows};
use std::alloc::Global;

/// Appends a row.
fn push_row(rows: &mut Rows, row: Row) -> Result<(), Memory>
    ensures { OnOk result (rows.new ≡ rows.old ++ row ∷ []) }
{
    match rows.push(row) {
        Ok(()) => Ok(()),
        Err(_) => Err(Memory),
    }
}

/// Appends copies of rows.
fn push_rows(alloc: Global, rows: &mut Rows, more: &[Row]) -> Result<(), Memory>
    ensures { OnOk result (rows.new ≡ rows.old ++ more.now) }
{
    'rows: for row in more {
        match row.copy(alloc) {
            Ok(row) => push_row(rows, row)?,
            Err(_) => return Err(Memory),
        }
    }
    Ok(())
}

/// The first cells of the outputs of a stage, map by map.
fn stage_rows(alloc: Global, outputs: &Outputs, stage: StageId, maps: u32) -> Result<Rows, Memory>
    requires { (m : ℕ) → m < maps → IsSome (output_at outputs.now stage.0 m) }
    ensures { IfOk result (λ rows. rows ≡ flat_map (spec.first_cell outputs.now stage.0) (range_with_len 0 maps)) }
{
    let mut rows = Rows::new(alloc);
    'maps: for m in 0..maps {
        let output = outputs.output(stage, MapId(m));
        push_rows(alloc, &mut rows, output.cell(ReduceId(0)))?;
    }
    Ok(rows)
}

/// The number of maps of a stage.
fn maps_of(stages: &[StageNote], stage: StageId) -> u32
    requires there { stage.0 < length stages.now }
    requires bodies { BodiesFit stages.now }
    ensures { result ≡ spec.maps_of stages.now stage.0 }
{
    parts(&stages[stage.0 as usize].body)
}

/// The rows of the result stage.
fn result_rows(alloc: Global, run: &Run) -> Result<Rows, Memory>
    requires { CanFinish run.now }
    ensures { IfOk result (λ rows. rows ≡ spec.result_rows run.now) }
{
    match run.result {
        Some(stage) => {
            let maps = maps_of(&run.stages, stage);
            stage_rows(alloc, &run.outputs, stage, maps)
        }
        None => Ok(Rows::new(alloc)),
    }
}

/// Takes out the outputs that are kept of a stage, map by map.
fn taken_out(
    alloc: Global,
    outputs: &mut Outputs,
    stage: StageId,
    maps: u32,
) -> Result<NoteOutputs, Memory>
    ensures taken { IfOk result (λ taken. taken ≡ filter_map (spec.kept_at outputs.old stage.0) (range_with_len 0 maps)) }
    ensures others { OnOk result (OthersStay outputs.old outputs.new stage.0) }
{
    let mut taken = Listing::new(alloc);
    'maps: for m in 0..maps {
        let map = MapId(m);
        if outputs.is_kept(stage, map) {
            taken.push((map, outputs.release(stage, map)))?;
        }
    }
    Ok(taken)
}

/// The note of a stage with the outputs that are kept of it.
fn with_outputs(
    alloc: Global,
    note: StageNote,
    outputs: &mut Outputs,
    stage: StageId,
) -> Result<StageNote, Memory>
    requires { BodyFits note }
    ensures filled { IfOk result (λ filled. filled ≡ spec.filled outputs.old stage.0 note) }
    ensures others { OnOk result (OthersStay outputs.old outputs.new stage.0) }
{
    let taken = taken_out(alloc, outputs, stage, parts(&note.body))?;
    let mut note = note;
    note.outputs = taken;
    Ok(note)
}

/// The notes of all stages with the outputs that are kept of them.
fn all_with_outputs(
    alloc: Global,
    notes: Vec<StageNote>,
    outputs: Outputs,
) -> Result<StageNotes, Memory>
    requires few { length notes.items ≤ 2 ^ 32 }
    requires bodies { BodiesFit notes.items }
    ensures { IfOk result (λ all. all ≡ spec.all_filled outputs 0 notes.items) }
{
    let mut outputs = outputs;
    let mut all = Listing::new(alloc);
    'notes: for note in notes {
        let stage = numbered(all.len());
        let note = with_outputs(alloc, note, &mut outputs, stage)?;
        all.push(note)?;
    }
    Ok(all)
}

/// The record of a query of a number, of its versions, fates and runs, where its rows and the notes of its stages are there.
fn recorded(
    query: u32,
    versions: VersionNotes,
    fates: FateList,
    runs: RunList,
    made: Result<(Rows, StageNotes), Memory>,
) -> Result<QueryRecord, Memory>
    ensures { IfOk result (λ note. IsOkAnd made (λ p. note ≡ spec.recorded query versions fates runs p.0 p.1)) }
{
    match made {
        Ok((rows, stages)) => Ok(QueryRecord {
            query,
            stages,
            versions,
            fates,
            runs,
            rows,
            finish: Finish::Done,
        }),
        Err(fault) => Err(fault),
    }
}

/// The record of a query that is done, where its rows are there.
fn with_rows(
    alloc: Global,
    run: Run,
    query: u32,
    rows: Result<Rows, Memory>,
) -> Result<QueryRecord, Memory>
    requires few { length run.stages.items ≤ 2 ^ 32 }
    requires bodies { BodiesFit run.stages.items }
    ensures { IfOk result (λ note. IsOkAnd rows (λ r. note ≡ spec.record_with query run r)) }
{
    let Run {
        adopted,
        stages,
        outputs,
        fates,
        runs,
        ..
    } = run;
    let stages = all_with_outputs(alloc, stages, outputs);
    recorded(query, adopted, fates, runs, both(rows, stages))
}

/// The record of a query that is done.
pub fn record_of(alloc: Global, run: Run, query: u32) -> Result<QueryRecord, Memory>
    requires { CanFinish run }
    ensures { IfOk result (λ note. note ≡ spec.record_of query run) }
{
    let rows = result_rows(alloc, &run);
    with_rows(alloc, run, query, rows)
}
