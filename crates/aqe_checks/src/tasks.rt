//! The list of tasks that were run.

use aqe_base::StageId;
use aqe_blocks::Outputs;
use aqe_physical::{Plan, StageKind};
use aqe_tables::Tables;
use aqe_task::{Runner, TaskRunner};
use std::test::Fail;

#[test]
fn a_runner_tells_the_task_that_it_ran(rt: HostRuntime) -> Result<(), Fail> {
    let alloc = rt.alloc();
    let tables = Tables::new(alloc);
    let outputs = Outputs::new(alloc);
    let mut runner = TaskRunner::new(alloc);
    runner.run(
        alloc,
        StageId(4),
        &Plan::OneRow,
        &StageKind::Result,
        0,
        &tables,
        &outputs,
    )?;
    assert_eq!(rt; runner.ran().len(), 1);
    Ok(())
}
