//! The board of a query, over the events of small runs with their fates, and over a stage of many tasks.

ghost use Rattle.std.specs.Prelude.{◌≡◌, ◌<◌, length, IfOk};
ghost use Rattle.aqe_scheduler.specs.Tables.{births_on};

use aqe_base::{Event, ExecId, StageId, TaskId};
use aqe_scheduler::{Board, Fate, Need, Needs, Reads, StageKindTag};
use std::alloc::Global;
use std::test::Fail;

/// What so many tasks read: all of so many maps of stage 0.
fn reads(alloc: Global, tasks: u32, maps: u32) -> Result<Reads, Fail>
    ensures { IfOk result (λ r. length r ≡ tasks) }
{
    let mut reads = Reads::new(alloc);
    'tasks: for _ in 0..tasks {
        let mut needs = Needs::new(alloc);
        needs.push(Need {
            stage: StageId(0),
            m0: 0,
            m1: maps,
        })?;
        reads.push(needs)?;
    }
    Ok(reads)
}

/// The board of a shuffle stage of so many tasks and a result stage of two, which reads it. Both are needed.
fn board_of(alloc: Global, tasks: u32) -> Result<Board, Fail> {
    let mut board = Board::new(alloc);
    let shuffle = board.birth(StageKindTag::Shuffle, tasks, reads(alloc, tasks, 0)?)?;
    let result = board.birth(StageKindTag::Result, 2, reads(alloc, 2, tasks)?)?;
    board.need(shuffle, true);
    board.need(result, true);
    Ok(board)
}

fn ended(stage: u32, task: u32, executor: u32) -> Event {
    Event::Ended {
        stage: StageId(stage),
        task: TaskId(task),
        executor: ExecId(executor),
    }
}

#[test]
fn each_event_has_its_fate(rt: HostRuntime) -> Result<(), Fail> {
    let mut board = board_of(rt.alloc(), 2)?;
    let lost = Event::Lost {
        executor: ExecId(0),
    };
    for (event, fate) in [
        (ended(1, 0, 3), Fate::Starved),
        (ended(0, 0, 0), Fate::Counted),
        (ended(0, 0, 0), Fate::Repeat),
        (ended(0, 1, 1), Fate::Counted),
        (ended(9, 0, 1), Fate::Unknown),
        (ended(1, 0, 2), Fate::Counted),
        (lost, Fate::Lost),
        (ended(1, 1, 2), Fate::Starved),
    ] {
        assert!(rt; board.take(event) == fate);
    }
    assert!(rt; board.next_rest() == Some((StageId(0), TaskId(0))));
    assert!(rt; board.take(ended(0, 0, 10000)) == Fate::Counted);
    assert!(rt; board.next_rest() == Some((StageId(1), TaskId(1))));
    Ok(())
}

#[test]
fn the_rest_ends_each_of_many_tasks(rt: HostRuntime) -> Result<(), Fail> {
    let mut board = board_of(rt.alloc(), 10_000)?;
    let mut counted: u64 = 0;
    for _ in 0..20_000u32 {
        let Some((stage, task)) = board.next_rest() else {
            break;
        };
        let event = Event::Ended {
            stage,
            task,
            executor: ExecId(10_000),
        };
        if board.take(event) == Fate::Counted {
            counted = counted.wrapping_add(1);
        }
    }
    assert_eq!(rt; counted, 10_002);
    Ok(())
}
