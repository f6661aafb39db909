//! The cells of one task, over small plans with each node once. They are written out by hand from what a node and a kind of stage mean;
//! the places of keys are those of Spark's Murmur3, from a model in Python.

ghost use Rattle.std.specs.Prelude.{◌≡◌, IfOk};
ghost use Rattle.aqe_estimates.specs.LoadedTables.{tables_of};
ghost use Rattle.aqe_checks.specs.Serving.{HasTable, Holds, Ready};

use crate::rows::row_text;
use crate::task_bodies::{Body, Corners, Ground, body_of};
use crate::task_stages::{bare_ground, ground_of, kind_of};
use aqe_base::ReduceId;
use aqe_blocks::MapOutput;
use aqe_task::run_task;
use std::alloc::Global;
use std::test::Fail;

/// The cells as one text, with a semicolon behind each row and a bar behind each cell.
fn cells_text(alloc: Global, output: &MapOutput) -> Result<String, Fail> {
    let mut text = String::new(alloc);
    for r in 0..output.reducers() {
        for row in output.cell(ReduceId(r)) {
            let words = row_text(alloc, row)?;
            text.push_str(words.as_str())?;
            text.push(';')?;
        }
        text.push('|')?;
    }
    Ok(text)
}

/// The cells that a task gives.
#[tactic(auto, using(crate::proofs::StageSteps::ready_built))]
fn given(alloc: Global, ground: &Ground, body: &Body, kind: &str, k: u32) -> Result<String, Fail>
    requires { Ready (tables_of ground.now.tables) ground.now.outputs ground.now.maps body.now.plan body.now.parts body.now.width }
{
    if k >= body.parts {
        return Err(Fail::new("no such part"));
    }
    let kind = kind_of(alloc, kind)?;
    let cells = run_task(alloc, &body.plan, &kind, k, &ground.tables, &ground.outputs)?;
    cells_text(alloc, &cells)
}

/// What stage 0 of a body and a kind keeps, by their words.
fn stage_of(alloc: Global, body: &str, kind: &str) -> Result<Ground, Fail>
    ensures table { IfOk result (λ ground. HasTable ground.tables) }
    ensures stage { IfOk result (λ ground. Holds (tables_of ground.tables) ground.outputs ground.maps ground.reducers ground.width) }
{
    let bare = bare_ground(alloc)?;
    let body = body_of(alloc, &bare, &[], body)?;
    let kind = kind_of(alloc, kind)?;
    ground_of(alloc, bare, &body, &kind)
}

/// The cells that task `k` gives of a body, which reads rectangles of stage 0. The stage and the body are given by words, with their kinds.
fn cells_of(
    alloc: Global,
    stage: (&str, &str),
    corners: &[Corners],
    body: (&str, &str),
    k: u32,
) -> Result<String, Fail> {
    let ground = stage_of(alloc, stage.0, stage.1)?;
    let made = body_of(alloc, &ground, corners, body.0)?;
    given(alloc, &ground, &made, body.1, k)
}

/// Bodies and kinds by their words, a task, and the cells that it gives.
static CASES: [(&str, &str, u32, &str); 23] = [
    ("one", "result", 0, ";|"),
    ("scan", "result", 0, "1,10;2,20;1,5;6,1;|"),
    ("scan", "result", 1, "|"),
    ("scan", "hash", 0, "|6,1;|2,20;|1,10;1,5;|"),
    ("scan", "hash", 1, "||||"),
    ("scan", "hash", 2, "|6,7;|2,~;~,4;||"),
    ("scan", "single", 2, "2,~;~,4;6,7;|"),
    ("scan", "to-all", 2, "2,~;~,4;6,7;|"),
    ("scan", "broadcast", 2, "2,~;~,4;6,7;|"),
    ("scan filter", "result", 0, "2,20;6,1;|"),
    ("scan filter", "result", 2, "2,~;6,7;|"),
    ("scan project", "result", 2, "~,2;4,~;7,6;|"),
    ("one project", "result", 0, "~,~;|"),
    ("scan partial", "result", 0, "1,2L,15L;2,1L,20L;6,1L,1L;|"),
    ("scan partial", "result", 1, "|"),
    ("scan partial", "hash", 2, "|6,1L,7L;|2,0L,~;~,1L,4L;||"),
    ("scan partial-all", "result", 0, "4L,36L;|"),
    ("scan partial-all", "result", 1, "0L,~;|"),
    ("nothing", "result", 1, "|"),
    ("nothing", "hash", 0, "||||"),
    ("nothing filter project", "result", 0, "|"),
    ("nothing partial-all", "result", 0, "0L,~;|"),
    ("nothing partial", "result", 0, "|"),
];

#[test]
fn a_task_gives_the_cells_of_its_part(rt: HostRuntime) -> Result<(), Fail> {
    let alloc = rt.alloc();
    for (body, kind, k, cells) in &CASES {
        let given = cells_of(alloc, ("one", "result"), &[], (body, kind), *k)?;
        assert_eq!(rt; given.as_str(), *cells, "{body} {kind} {k}");
    }
    Ok(())
}

/// Two rectangles of the cells of a stage of three maps, a task that reads one of them, and the cells that it gives. The stage and
/// the body are told by their words, with their kinds.
static READS: [((&str, &str), [Corners; 2], (&str, &str), u32, &str); 15] = [
    (
        ("scan", "hash"),
        [(0, 3, 0, 1), (0, 3, 1, 2)],
        ("read", "result"),
        0,
        "|",
    ),
    (
        ("scan", "hash"),
        [(0, 3, 0, 1), (0, 3, 1, 2)],
        ("read", "result"),
        1,
        "6,1;6,7;|",
    ),
    (
        ("scan", "hash"),
        [(0, 3, 2, 3), (0, 3, 3, 4)],
        ("read", "result"),
        0,
        "2,20;2,~;~,4;|",
    ),
    (
        ("scan", "hash"),
        [(0, 3, 2, 3), (0, 3, 3, 4)],
        ("read", "result"),
        1,
        "1,10;1,5;|",
    ),
    (
        ("scan", "hash"),
        [(0, 3, 1, 3), (2, 3, 0, 4)],
        ("read", "result"),
        0,
        "6,1;6,7;2,20;2,~;~,4;|",
    ),
    (
        ("scan", "hash"),
        [(0, 3, 1, 3), (2, 3, 0, 4)],
        ("read", "result"),
        1,
        "6,7;2,~;~,4;|",
    ),
    (
        ("scan", "hash"),
        [(0, 3, 1, 3), (2, 3, 0, 4)],
        ("read", "hash"),
        0,
        "|6,1;6,7;|2,20;2,~;~,4;||",
    ),
    (
        ("scan", "hash"),
        [(0, 3, 1, 3), (2, 3, 0, 4)],
        ("read filter project", "single"),
        0,
        "1,6;7,6;20,2;~,2;|",
    ),
    (
        ("scan", "hash"),
        [(1, 2, 0, 4), (0, 3, 2, 2)],
        ("read", "result"),
        0,
        "|",
    ),
    (
        ("scan", "hash"),
        [(1, 2, 0, 4), (0, 3, 2, 2)],
        ("read", "result"),
        1,
        "|",
    ),
    (
        ("scan partial", "hash"),
        [(0, 3, 0, 1), (0, 3, 2, 3)],
        ("read final", "result"),
        0,
        "|",
    ),
    (
        ("scan partial", "hash"),
        [(0, 3, 0, 1), (0, 3, 2, 3)],
        ("read final", "result"),
        1,
        "2,1L,20L;~,1L,4L;|",
    ),
    (
        ("scan partial", "hash"),
        [(0, 3, 1, 3), (2, 3, 0, 4)],
        ("read final", "broadcast"),
        0,
        "6,2L,8L;2,1L,20L;~,1L,4L;|",
    ),
    (
        ("scan partial-all", "single"),
        [(0, 3, 0, 1), (1, 1, 0, 1)],
        ("read final-all", "result"),
        0,
        "6L,47L;|",
    ),
    (
        ("scan partial-all", "single"),
        [(0, 3, 0, 1), (1, 1, 0, 1)],
        ("read final-all", "result"),
        1,
        "0L,~;|",
    ),
];

#[test]
fn a_task_reads_the_cells_of_its_rectangle(rt: HostRuntime) -> Result<(), Fail> {
    let alloc = rt.alloc();
    for (stage, corners, body, k, cells) in &READS {
        let given = cells_of(alloc, *stage, corners, *body, *k)?;
        assert_eq!(rt; given.as_str(), *cells, "{k} {cells}");
    }
    Ok(())
}
