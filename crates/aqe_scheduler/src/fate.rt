//! What becomes of an event.

/// What becomes of an event. The first of `Unknown`, `Late`, `Repeat` and `Starved` that holds before the event is its fate; where
/// none holds, the event counts as what it is. The loss of an executor is always `Lost`.
#[derive(Clone, Copy, Debug, PartialEq, Eq, Drop)]
pub enum Fate {
    /// The ending counts: the task has run and its output is kept.
    Counted,
    /// The stage is not needed.
    Late,
    /// There is no such task, or a fetch names an output that the task does not read.
    Unknown,
    /// The task is done already.
    Repeat,
    /// What the task reads is not all there.
    Starved,
    /// The failure counts against the task.
    FailCounted,
    /// The executor's outputs are gone.
    Lost,
    /// The failed fetch counts against the stage, and the output that could not be fetched is gone.
    FetchCounted,
}
