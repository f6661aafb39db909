//! Laws of the definitions, each the contract of a function that does nothing.

ghost use Rattle.aqe_stages.specs.Laws.{PartsAreAsManyAsCounted, LaterStagesKeepCells, LaterStagesKeepParts, MadeStagesKeepParts, MadeStagesReadBelow, PartsNeedTheirReads, TasksNeedTheirReads};

/// A plan has as many parts as `parts` of `aqe_physical` counts, whatever tables and stages hold.
pub fn parts_are_as_many_as_counted()
    ensures { PartsAreAsManyAsCounted }
{}

/// A stage holds the same whatever stages are made later.
pub fn later_stages_keep_cells()
    ensures { LaterStagesKeepCells }
{}

/// A plan that reads the stages that are there has the same parts whatever stages are made later.
pub fn later_stages_keep_parts()
    ensures { LaterStagesKeepParts }
{}

/// Where an exchange is made a stage and becomes its plain read, or a sample is made of a range, every part of the plan stays.
pub fn made_stages_keep_parts()
    ensures { MadeStagesKeepParts }
{}

/// The plan after a stage was made reads stages that are there.
pub fn made_stages_read_below()
    ensures { MadeStagesReadBelow }
{}

/// A part of a plan is the same wherever the stages and maps that it is computed from hold the same.
pub fn parts_need_their_reads()
    ensures { PartsNeedTheirReads }
{}

/// What a task of a stage keeps is the same wherever what it needs holds the same. A range has to name its sample stage, since else
/// its bounds are taken from all parts.
pub fn tasks_need_their_reads()
    ensures { TasksNeedTheirReads }
{}
