//! What is done at a position: stages are made, and all are marked.

ghost use Rattle.std.specs.Prelude.{true, false, OnOk};
ghost use Rattle.aqe_replan.specs.Versions.{ready_of};
ghost use Rattle.aqe_steps.specs.Runs.{IsSteadyRun, MakesAll, Turns};

use crate::make::make;
use crate::marks::mark;
use crate::run::Run;
use aqe_base::Memory;
use std::alloc::Global;

/// Makes all stages that can be made of the current plan, in their order.
fn settle(alloc: Global, run: &mut Run) -> Result<(), Memory>
    requires { IsSteadyRun run.old }
    ensures made { OnOk result (MakesAll run.old (ready_of run.old.whole run.old.versions) run.new) }
    ensures steady { OnOk result (IsSteadyRun run.new) }
{
    let makings = run.versions.ready(alloc, &run.whole)?;
    'makings: for making in makings.into_vec() {
        make(alloc, run, making)?;
    }
    Ok(())
}

/// Makes the stages that can be made, and marks each stage as needed or not.
fn settle_and_mark(alloc: Global, run: &mut Run) -> Result<(), Memory>
    requires { IsSteadyRun run.old }
    ensures { OnOk result (Turns run.old run.new true) }
{
    settle(alloc, run)?;
    mark(alloc, run)
}

/// Marks each stage where the position is no turning point.
fn mark_alone(alloc: Global, run: &mut Run) -> Result<(), Memory>
    requires { IsSteadyRun run.old }
    ensures { OnOk result (Turns run.old run.new false) }
{
    mark(alloc, run)
}

/// Makes the stages that can be made, where the position is a turning point, and marks each stage as needed or not.
pub fn turn(alloc: Global, run: &mut Run, is_turning: bool) -> Result<(), Memory>
    requires { IsSteadyRun run.old }
    ensures { OnOk result (Turns run.old run.new is_turning) }
{
    if is_turning {
        settle_and_mark(alloc, run)
    } else {
        mark_alone(alloc, run)
    }
}
