//! The rows of one part of a plan.

ghost use Rattle.std.specs.Prelude.{IfOk};
ghost use Rattle.aqe_stages.specs.Stages.{Stages};
ghost use Rattle.aqe_estimates.specs.LoadedTables.{tables_of};
ghost use Rattle.aqe_task.specs.Built.{IsBuiltBody};
ghost use Rattle.aqe_task.specs.Tasks.{IsServed, GivesPart};
ghost use Rattle.aqe_task.specs.Pieces.{rows_in};

use crate::behind::behind_parts;
use crate::joining::{joined, left_part, right_part};
use crate::part_rows::{PartRows, no_rows, one_row};
use crate::reading::{read, read_all, scanned};
use crate::steps::made;
use aqe_base::Memory;
use aqe_blocks::Outputs;
use aqe_physical::Plan;
use aqe_tables::Tables;
use std::alloc::Global;

/// The rows of part `k` of a plan, lent as far as no step makes others.
pub(crate) fn part_of<'a>(
    alloc: Global,
    body: &Plan,
    k: u32,
    tables: &'a Tables,
    outputs: &'a Outputs,
) -> Result<PartRows<'a>, Memory>
    requires body { IsBuiltBody body.now }
    requires served { (stages : Stages) × IsServed (tables_of tables.now) stages outputs.now body.now k }
    ensures { IfOk result (λ rows. GivesPart (tables_of tables.now) outputs.now body.now k (rows_in rows)) }
{
    match body {
        Plan::OneRow => one_row(alloc),
        Plan::Scan { table, files } => scanned(alloc, tables, *table, *files, k),
        Plan::Nothing { .. } => Ok(no_rows(alloc)),
        Plan::Read { stage, rects, .. } => read(alloc, outputs, *stage, *rects.at(k as usize)),
        Plan::ReadBroadcast { stage } => read_all(alloc, outputs, *stage),
        Plan::Filter { child, .. }
        | Plan::Project { child, .. }
        | Plan::PartialAgg { child, .. }
        | Plan::FinalAgg { child, .. }
        | Plan::Sort { child, .. }
        | Plan::LocalLimit { child, .. }
        | Plan::GlobalLimit { child, .. } => {
            let rows = part_of(alloc, child.get(), k, tables, outputs)?;
            made(alloc, body, rows)
        }
        Plan::Join {
            way,
            left,
            right,
            ..
        } => {
            let left = part_of(alloc, left.get(), left_part(*way, k), tables, outputs);
            let right = part_of(alloc, right.get(), right_part(*way, k), tables, outputs);
            joined(alloc, body, left, right)
        }
        Plan::Union { left, right } => match behind_parts(left.get(), k) {
            None => part_of(alloc, left.get(), k, tables, outputs),
            Some(rest) => part_of(alloc, right.get(), rest, tables, outputs),
        },
        Plan::Exchange { .. } => unreachable!(),
    }
}
