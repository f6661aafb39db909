//! What tests of tasks run over: a loaded table, and what one stage keeps.

ghost use Rattle.std.specs.Prelude.{◌≡◌, ◌<◌, length, IfOk};
ghost use Rattle.aqe_estimates.specs.LoadedTables.{tables_of};
ghost use Rattle.aqe_stages.specs.Runnable.{reducers_of};
ghost use Rattle.aqe_tables.specs.Loaded.{AreShaped, IsLoaded};
ghost use Rattle.aqe_checks.specs.Serving.{HasTable, Holds, IsEasy, IsKeptBelow, Ready};

use crate::tables::{files_of, form_of};
use crate::task_bodies::{Body, Ground, columns};
use aqe_base::{MapId, StageId};
use aqe_blocks::Outputs;
use aqe_physical::{StageKind, Target};
use aqe_store::SteadyStore;
use aqe_tables::{Catalog, Tables};
use aqe_task::run_task;
use aqe_values::SqlType;
use std::alloc::Global;
use std::test::Fail;

/// A table of two columns. Its first file has four rows, its second none, and its third three rows.
#[tactic(auto, using(crate::proofs::StageSteps::has_table))]
fn loaded(alloc: Global) -> Result<Tables, Fail>
    ensures { IfOk result (λ tables. HasTable tables) }
{
    let columns = [("a", SqlType::Int), ("b", SqlType::Int)];
    let form = form_of(alloc, &columns, &[])?;
    let mut catalog = Catalog::new(alloc);
    catalog.create(&form)?;
    if catalog.schema(0).len() != 2 {
        return Err(Fail::new("other columns"));
    }
    load(alloc, &catalog)
}

/// The first table of the catalog.
fn load(alloc: Global, catalog: &Catalog) -> Result<Tables, Fail>
    requires there { 0 < length catalog.now }
    ensures loaded { IfOk result (λ tables. IsLoaded tables 0) }
    ensures shaped { IfOk result (λ tables. AreShaped catalog.now tables) }
{
    let files = [
        ("t/a", "1,10\n2,20\n1,5\n6,1\n"),
        ("t/b", ""),
        ("t/c", "2,\n,4\n6,7\n"),
    ];
    let mut store = SteadyStore::new(alloc, files_of(alloc, &files)?);
    let mut tables = Tables::new(alloc);
    tables.load(&mut store, catalog, 0)?;
    Ok(tables)
}

/// The table, and no stage.
#[tactic(auto, using(crate::proofs::StageSteps::nothing_held))]
pub fn bare_ground(alloc: Global) -> Result<Ground, Fail>
    ensures table { IfOk result (λ ground. HasTable ground.tables) }
    ensures bare { IfOk result (λ ground. ground.maps ≡ 0) }
    ensures stage { IfOk result (λ ground. Holds (tables_of ground.tables) ground.outputs ground.maps ground.reducers ground.width) }
{
    Ok(Ground {
        tables: loaded(alloc)?,
        outputs: Outputs::new(alloc),
        maps: 0,
        reducers: 0,
        width: 0,
    })
}

/// A kind of stage by its word.
#[tactic(auto, using(crate::proofs::StageSteps::easy_kinds))]
pub fn kind_of(alloc: Global, word: &str) -> Result<StageKind, Fail>
    ensures { IfOk result IsEasy }
{
    match word {
        "hash" => by_first_column(alloc),
        "single" => Ok(StageKind::Shuffle(Target::Single)),
        "to-all" => Ok(StageKind::Shuffle(Target::Broadcast)),
        "broadcast" => Ok(StageKind::Broadcast),
        "result" => Ok(StageKind::Result),
        _ => Err(Fail::new("no kind")),
    }
}

/// Four cells by the hash of the first column.
#[tactic(auto, using(crate::proofs::StageSteps::hash_easy))]
fn by_first_column(alloc: Global) -> Result<StageKind, Fail>
    ensures { IfOk result IsEasy }
{
    let keys = columns(alloc, &[0])?;
    if keys.len() > 100 {
        return Err(Fail::new("many keys"));
    }
    Ok(StageKind::Shuffle(Target::Hash { keys, n: 4 }))
}

/// The number of cells that a stage of a kind keeps of each part.
fn cell_count(kind: &StageKind) -> u32
    ensures { result ≡ reducers_of kind.now }
{
    match kind {
        StageKind::Shuffle(target) => target.count(),
        StageKind::Broadcast | StageKind::Result | StageKind::Sample(_) => 1,
    }
}

/// What stage 0 keeps of each part of its body, which reads no stage.
#[tactic(auto, using(crate::proofs::StageSteps::ready_built, crate::proofs::StageSteps::none_kept))]
fn kept_outputs(
    alloc: Global,
    bare: &Ground,
    body: &Body,
    kind: &StageKind,
) -> Result<Outputs, Fail>
    requires ready { Ready (tables_of bare.now.tables) bare.now.outputs 0 body.now.plan body.now.parts body.now.width }
    requires easy { IsEasy kind.now }
    ensures { IfOk result (λ held. IsKeptBelow (tables_of bare.now.tables) kind.now body.now.plan held body.now.parts) }
{
    let mut outputs = Outputs::new(alloc);
    'maps: for m in 0..body.parts {
        let made = run_task(alloc, &body.plan, kind, m, &bare.tables, &bare.outputs)?;
        outputs.keep(StageId(0), MapId(m), made)?;
    }
    Ok(outputs)
}

/// The table, and what stage 0 of this body and kind keeps.
pub fn ground_of(alloc: Global, bare: Ground, body: &Body, kind: &StageKind) -> Result<Ground, Fail>
    requires bare { bare.maps ≡ 0 }
    requires table { HasTable bare.tables }
    requires ready { Ready (tables_of bare.tables) bare.outputs 0 body.now.plan body.now.parts body.now.width }
    requires easy { IsEasy kind.now }
    ensures table { IfOk result (λ ground. HasTable ground.tables) }
    ensures stage { IfOk result (λ ground. Holds (tables_of ground.tables) ground.outputs ground.maps ground.reducers ground.width) }
{
    if body.parts == 0 {
        return Err(Fail::new("no part"));
    }
    let outputs = kept_outputs(alloc, &bare, body, kind)?;
    Ok(Ground {
        tables: bare.tables,
        outputs,
        maps: body.parts,
        reducers: cell_count(kind),
        width: body.width,
    })
}
