//! The call of one task.

ghost use Rattle.std.specs.Prelude.{IfOk};
ghost use Rattle.aqe_stages.specs.Stages.{Stages};
ghost use Rattle.aqe_estimates.specs.LoadedTables.{tables_of};
ghost use Rattle.aqe_task.specs.Built.{IsBuiltBody};
ghost use Rattle.aqe_task.specs.Tasks.{IsServedTask, GivesTask};

use crate::keeping::keep_rows;
use crate::part::part_of;
use crate::part_rows::into_rows;
use aqe_base::Memory;
use aqe_blocks::{MapOutput, Outputs};
use aqe_physical::{Plan, StageKind};
use aqe_tables::Tables;
use std::alloc::Global;

/// The cells that task `k` of a stage gives: those that its kind keeps of part `k` of its body.
///
/// It holds over whatever stages the kept outputs are those of.
pub fn run_task(
    alloc: Global,
    body: &Plan,
    kind: &StageKind,
    k: u32,
    tables: &Tables,
    outputs: &Outputs,
) -> Result<MapOutput, Memory>
    requires body { IsBuiltBody body.now }
    requires served { (stages : Stages) × IsServedTask (tables_of tables.now) stages outputs.now kind.now body.now k }
    ensures { IfOk result (GivesTask (tables_of tables.now) outputs.now kind.now body.now k) }
{
    let rows = part_of(alloc, body, k, tables, outputs)?;
    let rows = into_rows(alloc, rows)?;
    keep_rows(alloc, kind, rows, outputs)
}
