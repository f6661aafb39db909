//! Laws of histories, each the contract of a function that does nothing.

ghost use Rattle.aqe_scheduler.specs.Laws.{FatesAreRight, OthersRunOnce, RerunsAreBounded};

/// A task runs at most once more than outputs were taken away: by losses of executors, and by failed fetches that were counted.
pub fn reruns_are_bounded()
    ensures { RerunsAreBounded }
{}

/// Where outputs cannot be lost, as those of broadcasts, samples and results, no task runs twice.
pub fn others_run_once()
    ensures { OthersRunOnce }
{}

/// Each event of a history has the fate that it has behind what stands before it, whatever follows.
pub fn fates_are_right()
    ensures { FatesAreRight }
{}
