//! Who runs tasks, and the list of those that were run.

ghost use Rattle.std.specs.Prelude.{◌≡◌, ◌∷◌, ◌++◌, [], List, IfOk, OnOk, OnErr};
ghost use Rattle.aqe_base.specs.declared.stage_id.StageId.{StageId as StageNumber};
ghost use Rattle.aqe_base.specs.declared.ids.TaskId.{TaskId as TaskNumber};
ghost use Rattle.aqe_stages.specs.Stages.{Stages};
ghost use Rattle.aqe_estimates.specs.LoadedTables.{tables_of};
ghost use Rattle.aqe_task.specs.Built.{IsBuiltBody};
ghost use Rattle.aqe_task.specs.Tasks.{IsServedTask, GivesTask, HasRun};

use crate::task::run_task;
use aqe_base::{Listing, Memory, StageId, TaskId};
use aqe_blocks::{MapOutput, Outputs};
use aqe_physical::{Plan, StageKind};
use aqe_tables::Tables;
use std::alloc::Global;

/// Tasks in the order in which they were run, each with its stage.
pub type RanTasks = Listing<(StageId, TaskId)>;

/// What runs tasks.
pub trait Runner {
    /// The tasks that were run so far, each with its stage.
    ghost ran: { Self → List (StageNumber × TaskNumber) };

    /// Runs task `k` of a stage, as `run_task` does.
    fn run(
        &mut self,
        alloc: Global,
        stage: StageId,
        body: &Plan,
        kind: &StageKind,
        k: u32,
        tables: &Tables,
        outputs: &Outputs,
    ) -> Result<MapOutput, Memory>
        requires body { IsBuiltBody body.now }
        requires served { (stages : Stages) × IsServedTask (tables_of tables.now) stages outputs.now kind.now body.now k }
        ensures cells { IfOk result (GivesTask (tables_of tables.now) outputs.now kind.now body.now k) }
        ensures ran { OnOk result (HasRun (ran self.old) (ran self.new) stage k) }
        ensures memory { OnErr result (ran self.new ≡ ran self.old) };
}

/// Runs tasks here, one at a time, and keeps the list of those that it ran.
#[derive(Drop)]
pub struct TaskRunner {
    ran: RanTasks,
}

impl TaskRunner {
    /// Has run nothing. It takes no memory until the first task.
    pub fn new(alloc: Global) -> TaskRunner
        ensures { result.ran ≡ [] }
    {
        TaskRunner {
            ran: RanTasks::new(alloc),
        }
    }

    /// The tasks that it ran.
    pub fn ran(&self) -> &RanTasks
        ensures { result.now ≡ self.now.ran }
    {
        &self.ran
    }
}

impl Runner for TaskRunner {
    ghost ran = { λ r. r.ran };

    fn run(
        &mut self,
        alloc: Global,
        stage: StageId,
        body: &Plan,
        kind: &StageKind,
        k: u32,
        tables: &Tables,
        outputs: &Outputs,
    ) -> Result<MapOutput, Memory> {
        let output = run_task(alloc, body, kind, k, tables, outputs)?;
        match self.ran.push((stage, TaskId(k))) {
            Ok(()) => Ok(output),
            Err(_) => Err(Memory),
        }
    }
}
