//! What happens to the tasks of a run.

use crate::{ExecId, MapId, StageId, TaskId};

/// One event of a query's run.
#[derive(Clone, Copy, Debug, PartialEq, Eq, Drop)]
pub enum Event {
    /// An attempt of the task came to its end on the executor.
    Ended {
        /// The task's stage.
        stage: StageId,
        /// The task.
        task: TaskId,
        /// Where the attempt ran.
        executor: ExecId,
    },
    /// An attempt of the task failed on the executor.
    Failed {
        /// The task's stage.
        stage: StageId,
        /// The task.
        task: TaskId,
        /// Where the attempt ran.
        executor: ExecId,
    },
    /// The executor was lost, and with it the outputs that stood there.
    Lost {
        /// The executor.
        executor: ExecId,
    },
    /// An attempt of the task could not fetch the output of a map of a stage below.
    Fetch {
        /// The task's stage.
        stage: StageId,
        /// The task.
        task: TaskId,
        /// Where the attempt ran.
        executor: ExecId,
        /// The stage whose output was wanted.
        parent: StageId,
        /// The map whose output was wanted.
        map: MapId,
    },
}
