//! Laws of the definitions, each the contract of a function that does nothing.

ghost use Rattle.aqe_bodies.specs.Laws.{BodiesOfStagesRun, LaterStagesKeepRunning, LaterStagesKeepSamples, MakingsKeepRunning, MakingsKeepSamples};

/// A plan that runs, and reads stages that are there, runs whatever stages are made later.
pub fn later_stages_keep_running()
    ensures { LaterStagesKeepRunning }
{}

/// Where a plan runs and an exchange of it is made a stage, or the sample of a range is, the plan after it runs over that stage too.
pub fn makings_keep_running()
    ensures { MakingsKeepRunning }
{}

/// Ranges that name stages of samples name such stages whatever stages are made later.
pub fn later_stages_keep_samples()
    ensures { LaterStagesKeepSamples }
{}

/// Where the ranges of a plan name stages of samples, so do those of the plan after a stage is made of it.
pub fn makings_keep_samples()
    ensures { MakingsKeepSamples }
{}

/// Where a plan runs and its ranges name samples, the body of a stage that is made of it can be carried out, and its kind can keep what the body gives.
pub fn bodies_of_stages_run()
    ensures { BodiesOfStagesRun }
{}
