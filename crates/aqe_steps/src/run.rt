//! What the run of a query has come to.

ghost use Rattle.std.specs.Prelude.{◌≡◌, ◌<◌, ◌^◌};

use aqe_base::{StageId, StageList};
use aqe_blocks::Outputs;
use aqe_journal::{FateList, RunList, StageNote, VersionNotes};
use aqe_replan::Versions;
use aqe_scheduler::Board;

/// What the run of a query has come to.
#[derive(Drop)]
pub struct Run {
    /// The current plan.
    pub versions: Versions,
    /// The plans that were adopted.
    pub adopted: VersionNotes,
    /// Which tasks are done.
    pub board: Board,
    /// The stages that were made. Their outputs are kept apart until the end.
    pub stages: Vec<StageNote>,
    /// The stages that are whole.
    pub whole: StageList,
    /// The result, once it was made.
    pub result: Option<StageId>,
    /// The outputs of all tasks that ended.
    pub outputs: Outputs,
    /// The fates of the endings so far.
    pub fates: FateList,
    /// The tasks that were run so far.
    pub runs: RunList,
}

/// The stage of a number.
pub fn numbered(n: usize) -> StageId
    requires { n < 2 ^ 32 }
    ensures { result.0 ≡ n }
{
    StageId(n as u32)
}
