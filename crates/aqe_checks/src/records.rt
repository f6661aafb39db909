//! What a run leaves in its journal, with ample memory.

ghost use Rattle.std.specs.Prelude.{◌≡◌, []};

use crate::runs::{held, sink, words};
use aqe_base::Status;
use aqe_cli::run_words;
use aqe_journal::{Finish, Journal, QueryRecord};
use aqe_store::{MemorySink, SteadyStore};
use aqe_task::TaskRunner;
use std::alloc::Global;
use std::test::Fail;

const SCRIPT: &str = "CREATE TABLE g (k INT, v INT) USING csv LOCATION 'g'; \
    SELECT count(*); SELECT k, sum(v) FROM g GROUP BY k";

const PRINTED: &str = "_c0\n1\n\\.\nk\t_c1\n\\N\t3\n5\t3\n\\.\n";

/// How many stages, versions, endings, runs and rows are noted.
fn counts(note: &QueryRecord) -> [usize; 5] {
    [
        note.stages.len(),
        note.versions.len(),
        note.fates.len(),
        note.runs.len(),
        note.rows.len(),
    ]
}

/// Runs the script over its table.
fn run_script(
    alloc: Global,
    out: &mut MemorySink,
    journal: &mut Journal,
    runner: &mut TaskRunner,
) -> Result<Status, Fail>
    requires { journal.old ≡ [] }
{
    let held = held(
        alloc,
        &[
            ("q.sql", SCRIPT),
            ("g/0.csv", ",1\n"),
            ("g/1.csv", ",2\n5,3\n"),
        ],
    )?;
    let mut store = SteadyStore::new(alloc, held);
    let mut err = sink(alloc, 1000)?;
    let words = words(alloc, "q.sql")?;
    Ok(run_words(
        alloc,
        words.as_slice(),
        &mut store,
        out,
        &mut err,
        journal,
        runner,
    ))
}

// A query without a table has one stage of one task. A grouped one over two files has an exchange of two maps with 200
// reducers, and a result of 200 tasks; the group of NULL is placed at 42, that of 5 at 66.
#[test]
fn each_query_leaves_its_record(rt: HostRuntime) -> Result<(), Fail> {
    let alloc = rt.alloc();
    let mut out = sink(alloc, 1000)?;
    let mut journal = Journal::new(alloc);
    let mut runner = TaskRunner::new(alloc);
    let end = run_script(alloc, &mut out, &mut journal, &mut runner)?;
    assert_eq!(rt; end, Status::Done);
    assert_eq!(rt; out.bytes(), PRINTED.as_bytes());
    assert_eq!(rt; runner.ran().len(), 203);
    let [one, grouped] = journal.records() else {
        return Err(Fail::new("other records"));
    };
    assert_eq!(rt; counts(one), [1, 1, 1, 1, 1]);
    assert_eq!(rt; counts(grouped), [2, 1, 202, 202, 2]);
    assert_eq!(rt; (one.query, one.finish), (0, Finish::Done));
    assert_eq!(rt; (grouped.query, grouped.finish), (1, Finish::Done));
    Ok(())
}
