//! What is noted of a query's run.

use aqe_base::{Listing, MapId, StageId, TaskId};
use aqe_blocks::MapOutput;
use aqe_logical::Logical;
use aqe_physical::{Plan, StageKind};
use aqe_scheduler::Fate;
use aqe_values::Rows;

/// The fates of the events that a query took, in order.
pub type FateList = Listing<Fate>;

/// The outputs that a stage kept, map by map from 0.
pub type NoteOutputs = Listing<(MapId, MapOutput)>;

/// The stages of a query, by their number.
pub type StageNotes = Listing<StageNote>;

/// The plans of a query, in the order in which they were adopted.
pub type VersionNotes = Listing<VersionNote>;

/// The tasks that a query ran, in order.
pub type RunList = Listing<RunNote>;

/// How a query ended.
#[derive(Clone, Copy, Debug, PartialEq, Eq, Drop)]
pub enum Finish {
    /// Its result is whole.
    Done,
    /// A task failed as often as a task may.
    Aborted { stage: StageId, task: TaskId },
    /// A stage's tasks could not read their inputs as often in a row as a stage may meet that.
    StageAborted { stage: StageId },
    /// Its events were over, and the task that would have ended next was not to be ended.
    Unfinished { stage: StageId, task: TaskId },
    /// Memory was wanted.
    Memory,
}

/// A stage that was made. Positions count the events of the query: 0 is before the first one, and `i` just after the `i`-th.
#[derive(Drop)]
pub struct StageNote {
    /// What it makes of its body's parts.
    pub kind: StageKind,
    /// The plan whose parts its tasks make.
    pub body: Plan,
    /// The position at which it was made.
    pub born: u64,
    /// The position at which all its tasks were done for the first time.
    pub done: Option<u64>,
    /// The outputs of its tasks that ended.
    pub outputs: NoteOutputs,
}

/// A plan that was adopted.
#[derive(Drop)]
pub struct VersionNote {
    /// The position at which it was adopted.
    pub position: u64,
    /// The logical plan that it was made for.
    pub logical: Logical,
    /// The plan, before stages of that position were made of it.
    pub plan: Plan,
}

/// A task that was run.
#[derive(Clone, Copy, Debug, PartialEq, Eq, Drop)]
pub struct RunNote {
    /// The position just after the ending that it was run for.
    pub position: u64,
    pub stage: StageId,
    pub task: TaskId,
}

/// What is noted of a query.
#[derive(Drop)]
pub struct QueryRecord {
    /// Its number, which counts the queries of a run from 0.
    pub query: u32,
    pub stages: StageNotes,
    pub versions: VersionNotes,
    pub fates: FateList,
    pub runs: RunList,
    /// The rows of its result; none unless it is done.
    pub rows: Rows,
    pub finish: Finish,
}
